//! The fields that the store reads, found in one pass over the lines.

ghost use Rattle.std.specs.Prelude.{◌≡◌, ℕ, ◌∷◌, ◌||◌, List, length, map, codes, All, Option, Some, if◌then◌else◌};
ghost use Rattle.std.specs.Option.{option_copied};
ghost use Rattle.std.specs.Str.{str_to_ascii_lowercase};
ghost use Rattle.httparse.specs.Spans.{header_bytes, IsHeaderWithin};
ghost use Rattle.http_request.specs.Fields.{Pair, any_has_element, is_named};
ghost use Rattle.http_parse.specs.Firsts.{AreFirst, LeadTo, or_else};

use crate::fields::{any_element, is_named};
use httparse::spans::HeaderSpan;

/// The value of the first line of each name that the store reads, and whether the connection is to end.
#[derive(Clone, Copy)]
pub(crate) struct Fields<'b> {
    pub(crate) transfer_encoding: Option<&'b [u8]>,
    pub(crate) content_length: Option<&'b [u8]>,
    /// Whether a `Connection` line has the element `close`: all of them are one list.
    pub(crate) closes: bool,
    pub(crate) accept: Option<&'b [u8]>,
    pub(crate) content_type: Option<&'b [u8]>,
    pub(crate) context: Option<&'b [u8]>,
    pub(crate) expect: Option<&'b [u8]>,
    pub(crate) if_none_match: Option<&'b [u8]>,
}

/// The fields of the lines.
pub(crate) fn fields_of<'b>(bytes: &'b [u8], lines: &[HeaderSpan]) -> Fields<'b>
    requires { All (IsHeaderWithin (length bytes.now)) lines.now }
    ensures { AreFirst result (map (header_bytes bytes.now) lines.now) }
{
    let mut fields = Fields {
        transfer_encoding: None,
        content_length: None,
        closes: false,
        accept: None,
        content_type: None,
        context: None,
        expect: None,
        if_none_match: None,
    };
    for line in lines {
        fields = with_line(fields, bytes, *line);
    }
    fields
}

// The fields with those of one line more.
fn with_line<'b>(fields: Fields<'b>, bytes: &'b [u8], line: HeaderSpan) -> Fields<'b>
    requires { IsHeaderWithin (length bytes.now) line }
    ensures { (rest pairs : List Pair) → LeadTo fields.entry (header_bytes bytes.now line ∷ rest) pairs → LeadTo result rest pairs }
{
    Fields {
        transfer_encoding: first(fields.transfer_encoding, bytes, line, b"transfer-encoding"),
        content_length: first(fields.content_length, bytes, line, b"content-length"),
        closes: fields.closes || says_close(bytes, line),
        accept: first(fields.accept, bytes, line, b"accept"),
        content_type: first(fields.content_type, bytes, line, b"content-type"),
        context: first(fields.context, bytes, line, b"x-riak-vclock"),
        expect: first(fields.expect, bytes, line, b"expect"),
        if_none_match: first(fields.if_none_match, bytes, line, b"if-none-match"),
    }
}

// The value that is kept, or else the line's, where it has this name.
fn first<'b>(
    kept: Option<&'b [u8]>,
    bytes: &'b [u8],
    line: HeaderSpan,
    name: &[u8],
) -> Option<&'b [u8]>
    requires within { IsHeaderWithin (length bytes.now) line }
    requires lower { str_to_ascii_lowercase name.now ≡ name.now }
    ensures { (rest : Option (List ℕ)) → or_else (option_copied result) rest
        ≡ or_else (option_copied kept.entry) (if is_named name.now (header_bytes bytes.now line) then Some (header_bytes bytes.now line).1 else rest) }
{
    if kept.is_none() && is_named(bytes, line, name) {
        return Some(line.value.of(bytes));
    }
    kept
}

// Whether it is a `Connection` line that has the element `close`.
fn says_close(bytes: &[u8], line: HeaderSpan) -> bool
    requires { IsHeaderWithin (length bytes.now) line }
    ensures { (rest : List Pair) → any_has_element (codes "connection") (codes "close") (header_bytes bytes.now line ∷ rest)
        ≡ (result || any_has_element (codes "connection") (codes "close") rest) }
{
    is_named(bytes, line, b"connection") && any_element(line.value.of(bytes), b"close")
}
