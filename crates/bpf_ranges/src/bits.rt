//! The bits of a number that are known, and what an operation leaves known of them.

ghost use Rattle.std.specs.Prelude.{◌≡◌, ◌<◌, ◌≤◌, ◌^◌, ◌%◌, ◌-◌, min};
ghost use Rattle.bpf_alu.specs.Value.{bits};
ghost use Rattle.bpf_ranges.specs.KnownBits.{nothing, exactly, both_set, one_set, either_set, united, common, cut_bits, moved_left, moved_right, low_bits_of, low_known, low_result, IsBits};

use bpf_alu::{Op, Width, eval};

/// The bits that are known to be 0, and those that are known to be 1.
#[derive(Clone, Copy, PartialEq, Eq)]
pub struct Bits {
    pub zeros: u64,
    pub ones: u64,
}

impl Bits {
    /// No bit is known.
    pub fn nothing() -> Bits
        ensures { result ≡ nothing }
    {
        Bits { zeros: 0, ones: 0 }
    }

    /// The bits of one number.
    pub fn exactly(n: u64) -> Bits
        ensures { result ≡ exactly n }
    {
        Bits { zeros: !n, ones: n }
    }

    /// Of a bitwise AND of two numbers: 0 where either has a 0, 1 where both have a 1.
    pub fn both_set(self, other: Bits) -> Bits
        ensures { result ≡ both_set self other }
    {
        Bits {
            zeros: self.zeros | other.zeros,
            ones: self.ones & other.ones,
        }
    }

    /// Of a bitwise OR of two numbers.
    pub fn either_set(self, other: Bits) -> Bits
        ensures { result ≡ either_set self other }
    {
        Bits {
            zeros: self.zeros & other.zeros,
            ones: self.ones | other.ones,
        }
    }

    /// Of a bitwise XOR of two numbers: known where both are.
    pub fn one_set(self, other: Bits) -> Bits
        ensures { result ≡ one_set self other }
    {
        Bits {
            zeros: self.zeros & other.zeros | self.ones & other.ones,
            ones: self.zeros & other.ones | self.ones & other.zeros,
        }
    }

    /// Of a number that is one of two.
    pub fn common(self, other: Bits) -> Bits
        ensures { result ≡ common self other }
    {
        Bits {
            zeros: self.zeros & other.zeros,
            ones: self.ones & other.ones,
        }
    }

    /// Of a number that is both.
    pub fn united(self, other: Bits) -> Bits
        ensures { result ≡ united self other }
    {
        Bits {
            zeros: self.zeros | other.zeros,
            ones: self.ones | other.ones,
        }
    }

    /// Of the low bits of a number, as many as a width has, with 0 above them.
    pub fn cut(self, width: Width) -> Bits
        requires { IsBits self }
        ensures { result ≡ cut_bits (bits width) self }
    {
        match width {
            Width::W32 => Bits {
                zeros: self.zeros | 0xffff_ffff_0000_0000,
                ones: self.ones & 0xffff_ffff,
            },
            Width::W64 => self,
        }
    }

    /// Of a sum or a difference: as many low bits as are known of both operands.
    pub fn low_result(op: Op, width: Width, a: Bits, b: Bits) -> Bits
        ensures { result ≡ low_result op width a b }
    {
        let most = match width {
            Width::W32 => 32,
            Width::W64 => 64,
        };
        let count = low_known_of(a, b);
        low_bits_known(count.min(most), eval(op, width, a.ones, b.ones))
    }

    /// Of a number of a width that is shifted to the left.
    pub fn moved_left(self, width: Width, count: u64) -> Bits
        requires { count < bits width }
        ensures { result ≡ moved_left (bits width) count self }
    {
        let mask = match width {
            Width::W32 => 0xffff_ffff,
            Width::W64 => u64::MAX,
        };
        Bits {
            zeros: (self.zeros << count) & mask | (1 << count) - 1,
            ones: (self.ones << count) & mask,
        }
    }

    /// Of a number that is shifted to the right.
    pub fn moved_right(self, count: u64) -> Bits
        requires { count < 64 }
        ensures { result ≡ moved_right count self }
    {
        Bits {
            zeros: self.zeros >> count,
            ones: self.ones >> count,
        }
    }
}

/// How many low bits are known of both.
fn low_known_of(a: Bits, b: Bits) -> u64
    ensures { result ≡ low_known a b }
{
    let both = (a.zeros | a.ones) & (b.zeros | b.ones);
    u64::from(both.trailing_ones())
}

/// A number of `count` ones.
pub fn low_ones(count: u64) -> u64
    requires { count ≤ 64 }
    ensures { result ≡ 2 ^ count - 1 }
{
    if count == 64 {
        u64::MAX
    } else {
        (1 << count) - 1
    }
}

/// The low `count` bits of `n`.
fn low_bits_known(count: u64, n: u64) -> Bits
    requires { count ≤ 64 }
    ensures { result ≡ low_bits_of count n }
{
    let mask = low_ones(count);
    Bits {
        zeros: mask - (n & mask),
        ones: n & mask,
    }
}
