//! A head without what its client expects.

ghost use Rattle.std.specs.Prelude.{◌≡◌, ◌++◌, length, map, All, IfOk, OnOk};
ghost use Rattle.std.specs.List.{flat_map};
ghost use Rattle.httparse.specs.Spans.{header_bytes, span_bytes, IsHeaderWithin, IsWithin};
ghost use Rattle.http_request.specs.Fields as spec;

use crate::fields::is_named;
use httparse::spans::{HeaderSpan, Span};
use std::alloc::{AllocError, Global};

/// The head of a method, of the target and the fields that lie there, in the fewest bytes and without `Expect` fields.
pub(crate) fn head_anew(
    alloc: Global,
    bytes: &[u8],
    method: &[u8],
    target: Span,
    lines: &[HeaderSpan],
) -> Result<Vec<u8>, AllocError>
    requires target { IsWithin (length bytes.now) target }
    requires within { All (IsHeaderWithin (length bytes.now)) lines.now }
    ensures { IfOk result (λ head. head.items ≡ spec.head_anew method.now (span_bytes bytes.now target) (map (header_bytes bytes.now) lines.now)) }
{
    let mut head = Vec::new(alloc);
    head.extend_from_slice(method)?;
    head.extend_from_slice(b" ")?;
    head.extend_from_slice(target.of(bytes))?;
    head.extend_from_slice(b" HTTP/1.1\n")?;
    push_lines(&mut head, bytes, lines)?;
    head.extend_from_slice(b"\n")?;
    Ok(head)
}

// Adds the fields.
fn push_lines(head: &mut Vec<u8>, bytes: &[u8], lines: &[HeaderSpan]) -> Result<(), AllocError>
    requires { All (IsHeaderWithin (length bytes.now)) lines.now }
    ensures { OnOk result (head.new.items ≡ head.old.items ++ flat_map spec.line_anew (map (header_bytes bytes.now) lines.now)) }
{
    push_each(head, bytes, lines)
}

// Adds one field after the other.
fn push_each(head: &mut Vec<u8>, bytes: &[u8], lines: &[HeaderSpan]) -> Result<(), AllocError>
    requires { All (IsHeaderWithin (length bytes.now)) lines.now }
    ensures { OnOk result (head.new.items ≡ head.old.items ++ flat_map (λ line. spec.line_anew (header_bytes bytes.now line)) lines.now) }
{
    for line in lines {
        push_line(head, bytes, *line)?;
    }
    Ok(())
}

// Adds a field, unless it says what is expected.
fn push_line(head: &mut Vec<u8>, bytes: &[u8], line: HeaderSpan) -> Result<(), AllocError>
    requires { IsHeaderWithin (length bytes.now) line }
    ensures { OnOk result (head.new.items ≡ head.old.items ++ spec.line_anew (header_bytes bytes.now line)) }
{
    if is_named(bytes, line, b"expect") {
        return Ok(());
    }
    head.extend_from_slice(line.name.of(bytes))?;
    head.extend_from_slice(b":")?;
    head.extend_from_slice(line.value.of(bytes))?;
    head.extend_from_slice(b"\n")
}
