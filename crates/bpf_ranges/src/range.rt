//! Ranges of numbers.

ghost use Rattle.std.specs.Prelude.{◌≡◌, ◌<◌, ◌≤◌, ◌^◌};
ghost use Rattle.bpf_alu.specs.Value.{bits};
ghost use Rattle.bpf_ranges.specs.Numbers.{single, up_to, full, is_single, wrapped_range, low_range, least_over};

use crate::bits::low_ones;
use bpf_alu::Width;

/// The numbers from `lo` to `hi`, both included.
#[derive(Clone, Copy, PartialEq, Eq)]
pub struct Range {
    pub lo: u64,
    pub hi: u64,
}

impl Range {
    /// One number.
    pub fn single(n: u64) -> Range
        ensures { result ≡ single n }
    {
        Range { lo: n, hi: n }
    }

    /// The numbers from 0 to `n`.
    pub fn up_to(n: u64) -> Range
        ensures { result ≡ up_to n }
    {
        Range { lo: 0, hi: n }
    }

    /// Whether this is one number.
    pub fn is_single(self) -> bool
        ensures { result ≡ is_single self }
    {
        self.lo == self.hi
    }

    /// The numbers of a width.
    pub fn full(width: Width) -> Range
        ensures { result ≡ full (bits width) }
    {
        match width {
            Width::W32 => Range::up_to(0xffff_ffff),
            Width::W64 => Range::up_to(u64::MAX),
        }
    }

    /// What the low `count` bits keep of the numbers from `lo` to `hi`: they wrap where both ends do as often.
    pub fn wrapped_to(count: u64, lo: u128, hi: u128) -> Range
        requires { count ≤ 64 }
        ensures { result ≡ wrapped_range count lo hi }
    {
        let size: u128 = 1 << count;
        if lo / size == hi / size {
            Range {
                lo: (lo % size) as u64,
                hi: (hi % size) as u64,
            }
        } else {
            Range::up_to((size - 1) as u64)
        }
    }

    /// What a width keeps of the numbers from `lo` to `hi`.
    pub fn wrapped(width: Width, lo: u128, hi: u128) -> Range
        ensures { result ≡ wrapped_range (bits width) lo hi }
    {
        match width {
            Width::W32 => Range::wrapped_to(32, lo, hi),
            Width::W64 => Range::wrapped_to(64, lo, hi),
        }
    }

    /// What the low `count` bits keep of these numbers.
    pub fn low(self, count: u64) -> Range
        requires { count ≤ 64 }
        ensures table { result ≡ low_range count self }
        ensures fits { result.hi < 2 ^ count }
    {
        if self.hi <= low_ones(count) {
            self
        } else {
            Range::wrapped_to(count, u128::from(self.lo), u128::from(self.hi))
        }
    }

    /// The least range over both.
    pub fn least_over(self, other: Range) -> Range
        ensures { result ≡ least_over self other }
    {
        Range {
            lo: self.lo.min(other.lo),
            hi: self.hi.max(other.hi),
        }
    }
}
