//! A whole request.

ghost use Rattle.std.specs.Prelude.{map};
ghost use Rattle.httparse.specs.Spans.{header_bytes};
ghost use Rattle.http_parse.specs.Firsts.{AreFirst};

use crate::firsts::Fields;
use crate::media::MediaTypes;
use httparse::spans::HeaderSpan;

/// A request whose head and body are at hand.
#[derive(Clone, Copy)]
pub(crate) struct Request<'b> {
    pub(crate) method: &'b [u8],
    pub(crate) path: &'b str,
    pub(crate) query: &'b str,
    pub(crate) bytes: &'b [u8],
    pub(crate) lines: &'b [HeaderSpan],
    pub(crate) fields: &'b Fields<'b>,
    pub(crate) body: &'b [u8],
    pub(crate) types: &'b MediaTypes,
    // The fields are those of the lines.
    ghost are_first: { AreFirst fields.now (map (header_bytes bytes.now) lines.now) },
}
