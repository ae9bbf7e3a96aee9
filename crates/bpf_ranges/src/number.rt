//! What is known of a number: a range and bits, of which each tells of the other.

ghost use Rattle.std.specs.Prelude.{◌≡◌, ◌≤◌, IfSome};
ghost use Rattle.bpf_semantics.specs.declared.profile.Profile.TheVariants.{First};
ghost use Rattle.bpf_ranges.specs.Numbers.{IsNumber, ones_above, above, has_bits, known_number, number_of, tightened, settled, joined_numbers};

use crate::bits::Bits;
use crate::range::Range;
use bpf_semantics::Profile;

/// A range that a number lies in, and bits that it has.
#[derive(Clone, Copy, PartialEq, Eq)]
pub struct Number {
    pub range: Range,
    pub bits: Bits,
}

/// The number 2^k - 1 with the least k such that `n` is below 2^k.
pub fn ones(n: u64) -> u64
    ensures { result ≡ ones_above n }
{
    match n {
        0 => 0,
        _ => u64::MAX >> n.leading_zeros(),
    }
}

/// The bits that no number up to `n` has.
fn above_of(n: u64) -> u64
    ensures { result ≡ above n }
{
    !ones(n)
}

/// Whether a number has the bits that are known.
fn has(bits: Bits, n: u64) -> bool
    ensures { result ≡ has_bits bits n }
{
    n & bits.zeros == 0 && n & bits.ones == bits.ones
}

impl Number {
    /// A number of which the range alone is known.
    pub fn of(range: Range) -> Number
        ensures { result ≡ number_of range }
    {
        Number {
            range,
            bits: Bits::nothing(),
        }
    }

    /// What a range and bits leave of a number, each telling of the other: nothing where they contradict themselves.
    pub fn tightened(range: Range, bits: Bits) -> Option<Number>
        ensures table { result ≡ tightened range bits }
        ensures number { IfSome result IsNumber }
    {
        let bits = Bits {
            zeros: bits.zeros | above_of(range.hi),
            ones: bits.ones,
        };
        let range = Range {
            lo: range.lo.max(bits.ones),
            hi: range.hi.min(!bits.zeros),
        };
        if range.is_single() {
            if has(bits, range.lo) {
                let bits = Bits::exactly(range.lo);
                Some(Number { range, bits })
            } else {
                None
            }
        } else if range.lo <= range.hi && bits.ones & bits.zeros == 0 {
            Some(Number { range, bits })
        } else {
            None
        }
    }

    /// What a profile keeps of a range and bits: the first one the range alone, which is not empty.
    pub fn settled(profile: Profile, range: Range, bits: Bits) -> Option<Number>
        requires { profile ≡ First → range.lo ≤ range.hi }
        ensures table { result ≡ settled profile range bits }
        ensures number { IfSome result IsNumber }
    {
        match profile {
            Profile::First => Some(Number::of(range)),
            Profile::Second => Number::tightened(range, bits),
        }
    }

    /// A number that is one of two: the least range over both, and the bits that they share.
    pub fn joined(profile: Profile, a: Number, b: Number) -> Option<Number>
        requires left { IsNumber a }
        requires right { IsNumber b }
        ensures table { result ≡ joined_numbers profile a b }
        ensures number { IfSome result IsNumber }
    {
        let range = a.range.least_over(b.range);
        let bits = a.bits.common(b.bits);
        Number::settled(profile, range, bits)
    }
}
