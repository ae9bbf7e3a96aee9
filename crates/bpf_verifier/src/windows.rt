//! The bytes to which pointers lead.

ghost use Rattle.std.specs.Prelude.{◌≡◌, ◌-◌, ◌^◌, pos, negsuc, int_le, ◌≤ℤ◌, ◌+ℤ◌, ◌&&◌};
ghost use Rattle.bpf_ranges.specs.Kinds.{IsKind};
ghost use Rattle.bpf_verifier.specs.Candidates.{program_in};
ghost use Rattle.bpf_verifier.specs.Registers.{first_offset, end_offset, is_inside};

use crate::candidate::Candidate;
use bpf_ranges::Kind;
use bpf_semantics::Region;

/// The offset of a window's first byte.
fn first_offset(region: Region) -> i64
    ensures { result ≡ first_offset region }
{
    match region {
        Region::Stack => -512,
        Region::Input | Region::Output => 0,
    }
}

/// The offset of a window's end.
fn end_offset(program: &Candidate, region: Region) -> i64
    ensures { result ≡ end_offset (program_in program.now) region }
{
    match region {
        Region::Stack => 0,
        Region::Input => i64::from(program.image.in_len),
        Region::Output => i64::from(program.image.out_len),
    }
}

/// Whether an access through a pointer lies in its window.
fn lies_inside(first: i64, end: i64, lo: i64, hi: i64, offset: i16, size: i64) -> bool
    requires { (negsuc (2 ^ 33 - 1) ≤ℤ lo) × (lo ≤ℤ hi) × (hi ≤ℤ pos (2 ^ 33)) × (pos 0 ≤ℤ size) × (size ≤ℤ pos (2 ^ 32)) }
    ensures { result ≡ (int_le first (lo +ℤ offset) && int_le (hi +ℤ offset +ℤ size) end) }
{
    let offset = i64::from(offset);
    first <= lo + offset && hi + offset + size <= end
}

/// Whether all bytes of an access lie in its window.
pub fn is_inside(program: &Candidate, kind: Kind, offset: i16, size: u32) -> bool
    requires { IsKind kind }
    ensures { result ≡ is_inside (program_in program.now) kind offset size }
{
    let Kind::Ptr { region, lo, hi } = kind else {
        return false;
    };
    let first = first_offset(region);
    let end = end_offset(program, region);
    lies_inside(first, end, lo, hi, offset, i64::from(size))
}
