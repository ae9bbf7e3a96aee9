//! Numbers after a comparison of them.

ghost use Rattle.std.specs.Prelude.{◌≡◌, Option, IfSome};
ghost use Rattle.bpf_ranges.specs.Numbers.{IsNumber};
ghost use Rattle.bpf_ranges.specs.Comparisons.{negated, masked, told_bits, both_left, settled_pair, compared, AreNumbers};

use crate::arithmetic::greatest;
use crate::bits::Bits;
use crate::narrowing::{are_both_up_to, narrow_more, narrow_where};
use crate::number::Number;
use crate::range::Range;
use bpf_alu::{Cond, Width};
use bpf_semantics::Profile;

/// The condition that holds where this one does not. Of `AnySet`, whose opposite is no condition, it is itself: neither
/// says anything of a range.
fn negation(cond: Cond) -> Cond
    ensures { result ≡ negated cond }
{
    match cond {
        Cond::Equal => Cond::NotEqual,
        Cond::NotEqual => Cond::Equal,
        Cond::Greater => Cond::LessEqual,
        Cond::GreaterEqual => Cond::Less,
        Cond::Less => Cond::GreaterEqual,
        Cond::LessEqual => Cond::Greater,
        Cond::AnySet => Cond::AnySet,
        Cond::SignedGreater => Cond::SignedLessEqual,
        Cond::SignedGreaterEqual => Cond::SignedLess,
        Cond::SignedLess => Cond::SignedGreaterEqual,
        Cond::SignedLessEqual => Cond::SignedGreater,
    }
}

/// The bits of a number of which some bit of a mask is set, or none is.
fn mask(taken: bool, m: u64, b: Bits) -> Bits
    ensures { result ≡ masked taken m b }
{
    if !taken {
        Bits {
            zeros: b.zeros | m,
            ones: b.ones,
        }
    } else if m != 0 && m == 1 << m.trailing_zeros() {
        Bits {
            zeros: b.zeros,
            ones: b.ones | m,
        }
    } else {
        b
    }
}

/// The bits of two numbers of which a condition holds, or not.
fn tell_bits(cond: Cond, taken: bool, a: Number, b: Number) -> (Bits, Bits)
    ensures { (result.0, result.1) ≡ told_bits cond taken a b }
{
    match (cond, taken) {
        (Cond::Equal, true) | (Cond::NotEqual, false) => {
            let both = a.bits.united(b.bits);
            (both, both)
        }
        (Cond::AnySet, _) if b.range.is_single() => (mask(taken, b.range.lo, a.bits), b.bits),
        _ => (a.bits, b.bits),
    }
}

/// Two numbers, if something is left of either.
fn both(a: Option<Number>, b: Option<Number>) -> Option<(Number, Number)>
    ensures { result ≡ both_left a b }
{
    match (a, b) {
        (Some(a), Some(b)) => Some((a, b)),
        _ => None,
    }
}

/// By the second profile: what is left of two numbers, by what is left of their ranges and the bits that are told.
fn settle_pair(ranges: Option<(Range, Range)>, told: (Bits, Bits)) -> Option<(Number, Number)>
    ensures table { result ≡ settled_pair ranges told }
    ensures numbers { IfSome result AreNumbers }
{
    let (a, b) = ranges?;
    both(Number::tightened(a, told.0), Number::tightened(b, told.1))
}

impl Number {
    /// What a condition of a width, which holds of two numbers or not, leaves of them: nothing, by the second profile, where
    /// no pair of them is left. The second profile tells nothing of a number that may be wider than the comparison.
    pub fn compared(
        profile: Profile,
        cond: Cond,
        width: Width,
        taken: bool,
        a: Number,
        b: Number,
    ) -> Option<(Number, Number)>
        requires left { IsNumber a }
        requires right { IsNumber b }
        ensures table { result ≡ compared profile cond width taken a b }
        ensures numbers { IfSome result AreNumbers }
    {
        let holds = if taken { cond } else { negation(cond) };
        match profile {
            Profile::First => {
                let (first, second) = narrow_where(holds, width, a.range, b.range);
                Some((Number::of(first), Number::of(second)))
            }
            Profile::Second => {
                if are_both_up_to(greatest(width), a.range, b.range) {
                    let ranges = narrow_more(holds, width, a.range, b.range);
                    settle_pair(ranges, tell_bits(cond, taken, a, b))
                } else {
                    Some((a, b))
                }
            }
        }
    }
}
