//! The head of a request.

ghost use Rattle.std.specs.Prelude.{◌≡◌, length};
ghost use Rattle.http_request.specs.Limits.{most_lines};
ghost use Rattle.http_parse.specs.Heads.{FindsHead};

use http_request::MAX_HEAD_BYTES;
use httparse::spans::{HeaderSpan, RequestSpans, parse_request};
use httparse::{Error, Status};

/// What stands at the front of the bytes.
#[derive(Clone, Copy)]
pub(crate) enum HeadAt {
    Whole(RequestSpans),
    Unfinished,
    Bad,
}

/// The head at the front of the bytes. Its fields are the first of the lines.
pub(crate) fn read_head(bytes: &[u8], lines: &mut [HeaderSpan]) -> HeadAt
    requires { length lines.old ≡ most_lines }
    ensures { FindsHead bytes.now lines.new result }
{
    match parse_request(bytes, lines) {
        Ok(Status::Complete(spans)) => {
            if spans.len <= MAX_HEAD_BYTES {
                HeadAt::Whole(spans)
            } else {
                HeadAt::Bad
            }
        }
        Ok(Status::Partial) => {
            if bytes.len() <= MAX_HEAD_BYTES {
                HeadAt::Unfinished
            } else {
                HeadAt::Bad
            }
        }
        Err(Error::TooManyHeaders) => HeadAt::Bad,
        Err(_) => HeadAt::Bad,
    }
}
