//! Ranges of two numbers of which a condition holds.

ghost use Rattle.std.specs.Prelude.{◌≡◌, ◌≤◌, ◌+◌, ◌-◌, ◌^◌, not, Option, IfSome};
ghost use Rattle.bpf_alu.specs.Value.{bits};
ghost use Rattle.bpf_ranges.specs.Comparisons.{AreOrdered, left_of, both_common, first_above, first_at_least, narrowed, compared_below, are_below, ranges_where, without, apart, low_half, high_half, either_left, left_if, wants_greater, is_signed, by_halves, narrowed_more};

use crate::arithmetic::greatest;
use crate::range::Range;
use bpf_alu::{Cond, Width};

/// Two ranges, if neither is empty.
fn left(a: Range, b: Range) -> Option<(Range, Range)>
    ensures table { result ≡ left_of a b }
    ensures ordered { IfSome result AreOrdered }
{
    if a.lo <= a.hi && b.lo <= b.hi {
        Some((a, b))
    } else {
        None
    }
}

/// The ranges of two equal numbers.
fn narrow_common(a: Range, b: Range) -> Option<(Range, Range)>
    ensures table { result ≡ both_common a b }
    ensures ordered { IfSome result AreOrdered }
{
    let common = Range {
        lo: a.lo.max(b.lo),
        hi: a.hi.min(b.hi),
    };
    left(common, common)
}

/// The ranges of two numbers, the first above the second.
fn narrow_above(a: Range, b: Range) -> Option<(Range, Range)>
    ensures table { result ≡ first_above a b }
    ensures ordered { IfSome result AreOrdered }
{
    if b.lo == u64::MAX {
        return None;
    }
    let first = Range {
        lo: a.lo.max(b.lo + 1),
        hi: a.hi,
    };
    let second = Range {
        lo: b.lo,
        hi: b.hi.min(a.hi.saturating_sub(1)),
    };
    left(first, second)
}

/// The ranges of two numbers, the first at least the second.
fn narrow_at_least(a: Range, b: Range) -> Option<(Range, Range)>
    ensures table { result ≡ first_at_least a b }
    ensures ordered { IfSome result AreOrdered }
{
    let first = Range {
        lo: a.lo.max(b.lo),
        hi: a.hi,
    };
    let second = Range {
        lo: b.lo,
        hi: b.hi.min(a.hi),
    };
    left(first, second)
}

/// The ranges of two numbers of which a condition holds, where it compares them as whole numbers.
fn narrow(cond: Cond, a: Range, b: Range) -> Option<(Range, Range)>
    ensures table { result ≡ narrowed cond a b }
    ensures ordered { AreOrdered (a, b) → IfSome result AreOrdered }
{
    match cond {
        Cond::Equal => narrow_common(a, b),
        Cond::Greater | Cond::SignedGreater => narrow_above(a, b),
        Cond::GreaterEqual | Cond::SignedGreaterEqual => narrow_at_least(a, b),
        Cond::Less | Cond::SignedLess => {
            let (b, a) = narrow_above(b, a)?;
            Some((a, b))
        }
        Cond::LessEqual | Cond::SignedLessEqual => {
            let (b, a) = narrow_at_least(b, a)?;
            Some((a, b))
        }
        Cond::NotEqual | Cond::AnySet => Some((a, b)),
    }
}

/// The greatest number up to which the condition compares as whole numbers do.
fn limit(cond: Cond, width: Width) -> u64
    ensures { result + 1 ≡ compared_below cond width }
{
    match cond {
        Cond::SignedGreater | Cond::SignedGreaterEqual | Cond::SignedLess | Cond::SignedLessEqual =>
            greatest(width) / 2,
        _ => greatest(width),
    }
}

pub fn are_both_up_to(limit: u64, a: Range, b: Range) -> bool
    ensures { result ≡ are_below (limit + 1) a b }
{
    a.hi <= limit && b.hi <= limit
}

/// By the first profile: the ranges of two numbers of which a condition holds. Where nothing is left of one both stay.
pub fn narrow_where(cond: Cond, width: Width, a: Range, b: Range) -> (Range, Range)
    requires { AreOrdered (a, b) }
    ensures table { (result.0, result.1) ≡ ranges_where cond width a b }
    ensures ordered { AreOrdered (result.0, result.1) }
{
    if are_both_up_to(limit(cond, width), a, b) {
        narrow(cond, a, b).unwrap_or((a, b))
    } else {
        (a, b)
    }
}

/// A range without a number that is an end of it.
fn without_end(n: u64, r: Range) -> Range
    requires { r.lo ≤ r.hi }
    ensures { result ≡ without n r }
{
    if n == r.lo {
        if r.is_single() {
            Range { lo: 1, hi: 0 }
        } else {
            Range {
                lo: n.saturating_add(1),
                hi: r.hi,
            }
        }
    } else if n == r.hi {
        Range {
            lo: r.lo,
            hi: n.saturating_sub(1),
        }
    } else {
        r
    }
}

/// The ranges of two numbers that differ.
fn narrow_apart(a: Range, b: Range) -> Option<(Range, Range)>
    requires { AreOrdered (a, b) }
    ensures { result ≡ apart a b }
{
    let first = if b.is_single() {
        without_end(b.lo, a)
    } else {
        a
    };
    let second = if a.is_single() {
        without_end(a.lo, b)
    } else {
        b
    };
    left(first, second)
}

/// The numbers of a range that are no negative ones, read as signed numbers of a width.
fn low_half_of(width: Width, r: Range) -> Range
    ensures { result ≡ low_half (bits width) r }
{
    Range {
        lo: r.lo,
        hi: r.hi.min(greatest(width) / 2),
    }
}

/// Those that are negative ones.
fn high_half_of(width: Width, r: Range) -> Range
    ensures { result ≡ high_half (bits width) r }
{
    Range {
        lo: r.lo.max(greatest(width) / 2 + 1),
        hi: r.hi,
    }
}

/// The least ranges over what is left in either of two cases.
fn either(p: Option<(Range, Range)>, q: Option<(Range, Range)>) -> Option<(Range, Range)>
    ensures { result ≡ either_left p q }
{
    match (p, q) {
        (None, _) => q,
        (_, None) => p,
        (Some((a, b)), Some((c, d))) => Some((a.least_over(c), b.least_over(d))),
    }
}

/// Two numbers of unlike signs, where the condition holds of them.
fn all_if(holds: bool, a: Range, b: Range) -> Option<(Range, Range)>
    ensures { result ≡ left_if holds a b }
{
    if holds { left(a, b) } else { None }
}

/// The ranges of two numbers of which a signed condition holds.
fn narrow_by_halves(cond: Cond, width: Width, a: Range, b: Range) -> Option<(Range, Range)>
    ensures { result ≡ by_halves (bits width) cond a b }
{
    let greater = matches!(cond, Cond::SignedGreater | Cond::SignedGreaterEqual);
    let low = (low_half_of(width, a), low_half_of(width, b));
    let high = (high_half_of(width, a), high_half_of(width, b));
    let unlike = either(
        all_if(greater, low.0, high.1),
        all_if(!greater, high.0, low.1),
    );
    either(
        narrow(cond, low.0, low.1),
        either(narrow(cond, high.0, high.1), unlike),
    )
}

/// By the second profile: the ranges of two numbers of a width of which a condition holds.
pub fn narrow_more(cond: Cond, width: Width, a: Range, b: Range) -> Option<(Range, Range)>
    requires { AreOrdered (a, b) }
    ensures { result ≡ narrowed_more (bits width) cond a b }
{
    match cond {
        Cond::NotEqual => narrow_apart(a, b),
        Cond::SignedGreater | Cond::SignedGreaterEqual | Cond::SignedLess | Cond::SignedLessEqual =>
            { narrow_by_halves(cond, width, a, b) }
        _ => narrow(cond, a, b),
    }
}
