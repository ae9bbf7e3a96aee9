//! Several siblings as the parts of one body.

ghost use Rattle.std.specs.Prelude.{◌≡◌, ◌++◌, OnOk, [], codes};
ghost use Rattle.http_response.specs.Parts as spec;

use crate::field::{push_field, push_number, push_tag};
use dvv::Dot;
use key_state::{Content, Sibling};
use std::alloc::AllocError;

/// The bytes of a content.
pub(crate) fn bytes_of(content: &Content) -> &[u8]
    ensures { result.now ≡ spec.bytes_of content.now }
{
    match content {
        Content::Value { bytes, .. } => bytes.as_slice(),
        Content::Tombstone => b"",
    }
}

/// Adds the siblings as parts, with the boundary of this number.
pub(crate) fn push_parts_body(
    out: &mut Vec<u8>,
    boundary: u64,
    siblings: &[Sibling],
) -> Result<(), AllocError>
    ensures { OnOk result (out.new.items ≡ out.old.items ++ spec.parts_body boundary siblings.now) }
{
    for sibling in siblings {
        push_part(out, boundary, sibling)?;
    }
    push_end(out, boundary)
}

// Adds the last delimiter.
fn push_end(out: &mut Vec<u8>, boundary: u64) -> Result<(), AllocError>
    ensures { OnOk result (out.new.items ≡ out.old.items ++ (spec.line [] ++ spec.line (spec.delimiter boundary ++ codes "--"))) }
{
    push_delimiter(out, boundary)?;
    out.extend_from_slice(b"--\r\n")
}

// Adds a sibling as a part.
fn push_part(out: &mut Vec<u8>, boundary: u64, sibling: &Sibling) -> Result<(), AllocError>
    ensures { OnOk result (out.new.items ≡ out.old.items ++ spec.part boundary sibling.now) }
{
    push_delimiter(out, boundary)?;
    out.extend_from_slice(b"\r\n")?;
    push_kind(out, &sibling.content)?;
    push_tag_line(out, sibling.dot)?;
    out.extend_from_slice(bytes_of(&sibling.content))?;
    Ok(())
}

// Adds the end of the line before, and a delimiter.
fn push_delimiter(out: &mut Vec<u8>, boundary: u64) -> Result<(), AllocError>
    ensures { OnOk result (out.new.items ≡ out.old.items ++ (spec.line [] ++ spec.delimiter boundary)) }
{
    out.extend_from_slice(b"\r\n--s")?;
    push_number(out, boundary)
}

// Adds the tag of a part, and the empty line.
fn push_tag_line(out: &mut Vec<u8>, dot: Dot) -> Result<(), AllocError>
    ensures { OnOk result (out.new.items ≡ out.old.items ++ (spec.line (codes "X-Riak-Tag: " ++ spec.tag_of dot) ++ spec.line [])) }
{
    out.extend_from_slice(b"X-Riak-Tag: ")?;
    push_tag(out, dot)?;
    out.extend_from_slice(b"\r\n\r\n")?;
    Ok(())
}

// Adds the first line of a part's head.
fn push_kind(out: &mut Vec<u8>, content: &Content) -> Result<(), AllocError>
    ensures { OnOk result (out.new.items ≡ out.old.items ++ spec.kind_line content.now) }
{
    match content {
        Content::Value { media, .. } => push_field(out, b"Content-Type", Some(media.as_slice())),
        Content::Tombstone => push_field(out, b"X-Riak-Deleted", Some(b"true")),
    }
}
