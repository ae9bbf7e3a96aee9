//! The boundary of a body in parts.

ghost use Rattle.std.specs.Prelude.{◌≡◌, ◌<◌, ◌≤◌, ◌+◌, ◌*◌, ◌-◌, ◌^◌, IfOk, IfNone, IfSome, OnOk, ℕ, [], length, min, sum_by, slice_index, decimal};
ghost use Rattle.std.specs.Prelude.{nat_eq};
ghost use Rattle.std.specs.Int.{IsInRange};
ghost use Rattle.std.specs.List.{starts_with};
ghost use Rattle.http_response.specs.Marks.{Marked};
ghost use Rattle.http_response.specs.Parts as spec;
ghost use Rattle.http_response.specs.Parts.{occurs_in, delimiter, IsLeastFree};

use crate::parts::bytes_of;
use key_state::Sibling;
use memchr::memchr;
use memchr::memmem::Finder;
use std::alloc::AllocError;

/// The number of the boundary: the least whose delimiter stands in no value. One pass over the values marks the numbers that
/// stand behind a `--s` in a buffer that is empty before.
pub(crate) fn boundary_of(marks: &mut Vec<u8>, siblings: &[Sibling]) -> Result<u64, AllocError>
    requires { marks.old.items ≡ [] }
    ensures number { IfOk result (λ n. n ≡ spec.boundary_of siblings.now) }
    ensures least { IfOk result (λ n. IsLeastFree siblings.now n) }
{
    push_blanks(marks, siblings)?;
    for sibling in siblings {
        mark_delimiters(marks, bytes_of(&sibling.content));
    }
    // There are more numbers than marks, so one has none.
    Ok(memchr(0, marks).unwrap_or(0) as u64)
}

// Adds a byte without a mark for each byte of the values, and one more.
fn push_blanks(marks: &mut Vec<u8>, siblings: &[Sibling]) -> Result<(), AllocError>
    requires { marks.old.items ≡ [] }
    ensures size { OnOk result (length marks.new.items ≡ sum_by (λ s. length (spec.bytes_of s.content)) siblings.now + 1) }
    ensures blank { OnOk result ((n : ℕ) → slice_index marks.new.items n ≡ 0) }
{
    marks.push(0)?;
    for sibling in siblings {
        let len = marks.len() + bytes_of(&sibling.content).len();
        marks.resize(len, 0)?;
    }
    Ok(())
}

// Marks the numbers whose delimiters stand in the bytes.
fn mark_delimiters(marks: &mut [u8], bytes: &[u8])
    ensures { Marked marks.old marks.new (λ n. occurs_in (delimiter n) bytes.now) }
{
    let finder = Finder::new(b"--s");
    let mut rest = bytes;
    while let Some(at) = finder.find(rest) {
        (_, rest) = rest.split_at(at + 3);
        mark_fronts(marks, rest);
    }
}

// Marks the numbers that stand in decimal where the bytes begin.
fn mark_fronts(marks: &mut [u8], bytes: &[u8])
    ensures { Marked marks.old marks.new (λ n. starts_with nat_eq bytes.now (decimal n)) }
{
    let mut n = 0usize;
    for (i, byte) in bytes.iter().enumerate() {
        let Some(longer) = with_digit(n, i, *byte) else {
            return;
        };
        if longer >= marks.len() {
            return;
        }
        n = longer;
        marks[n] = 1;
    }
}

// The number with one digit more, at most the greatest there is: a digit may follow where none was before, and behind any
// number but zero.
fn with_digit(n: usize, digits: usize, byte: u8) -> Option<usize>
    ensures some { IfSome result (λ longer. IsInRange 48 57 byte × (0 < digits → 0 < n) × (longer ≡ min (n * 10 + (byte - 48)) (2 ^ 64 - 1))) }
    ensures none { IfNone result (IsInRange 48 57 byte → (0 < digits) × (n ≡ 0)) }
{
    if !byte.is_ascii_digit() {
        return None;
    }
    if digits > 0 && n == 0 {
        return None;
    }
    Some(n.saturating_mul(10).saturating_add((byte - b'0') as usize))
}
