//! Kinds after a comparison of them.

ghost use Rattle.std.specs.Prelude.{◌≡◌, ℕ, Some, IfSome};
ghost use Rattle.bpf_alu.specs.Value.{condition};
ghost use Rattle.bpf_ranges.specs.Numbers.{IsNumber};
ghost use Rattle.bpf_ranges.specs.Comparisons.{AreNumbers};
ghost use Rattle.bpf_ranges.specs.Kinds.{IsKind, Admits};
ghost use Rattle.bpf_ranges.specs.Transfer.{number_in, left_of_kind, kinds_left, compared_kinds, refine_of};

use crate::kind::Kind;
use crate::number::Number;
use crate::pointer::narrow_pointer;
use bpf_alu::{Cond, Width};
use bpf_semantics::Profile;

/// What is left of a kind of which a number is left, or nothing: a pointer stays where nothing is.
fn left_of_kind(kind: Kind, left: Option<Number>) -> Kind
    requires kind { IsKind kind }
    requires number { IfSome left IsNumber }
    ensures table { result ≡ left_of_kind kind left }
    ensures kind { IsKind result }
{
    match (kind, left) {
        (Kind::Ptr { region, lo, hi }, Some(left)) => narrow_pointer(region, lo, hi, left.range),
        (Kind::Ptr { .. }, None) => kind,
        _ => Kind::left(left),
    }
}

/// What is left of two kinds of which two numbers are left, or nothing.
fn kinds_left(a: Kind, b: Kind, numbers: Option<(Number, Number)>) -> (Kind, Kind)
    requires left { IsKind a }
    requires right { IsKind b }
    requires numbers { IfSome numbers AreNumbers }
    ensures table { (result.0, result.1) ≡ kinds_left a b numbers }
    ensures kind { IsKind result.0 × IsKind result.1 }
{
    match numbers {
        Some((x, y)) => (left_of_kind(a, Some(x)), left_of_kind(b, Some(y))),
        None => (left_of_kind(a, None), left_of_kind(b, None)),
    }
}

/// Two kinds after a comparison of the numbers that they are, in 64 bits and by the second profile.
fn compare_as_numbers(cond: Cond, a: Kind, b: Kind, taken: bool) -> (Kind, Kind)
    requires left { IsKind a }
    requires right { IsKind b }
    ensures table { (result.0, result.1) ≡ compared_kinds cond taken a b (number_in a) (number_in b) }
    ensures kind { IsKind result.0 × IsKind result.1 }
{
    match (a.as_number(), b.as_number()) {
        (Some(x), Some(y)) => {
            let left = Number::compared(Profile::Second, cond, Width::W64, taken, x, y);
            kinds_left(a, b, left)
        }
        _ => (a, b),
    }
}

fn refine_kinds(
    profile: Profile,
    cond: Cond,
    width: Width,
    a: Kind,
    b: Kind,
    taken: bool,
) -> (Kind, Kind)
    requires left { IsKind a }
    requires right { IsKind b }
    ensures table { (result.0, result.1) ≡ refine_of profile cond width a b taken }
    ensures kind { IsKind result.0 × IsKind result.1 }
{
    match (a, b) {
        (Kind::Dead, _) | (_, Kind::Dead) => kinds_left(a, b, None),
        (Kind::Num(x), Kind::Num(y)) => {
            kinds_left(a, b, Number::compared(profile, cond, width, taken, x, y))
        }
        _ => match (profile, width) {
            (Profile::Second, Width::W64) => compare_as_numbers(cond, a, b, taken),
            _ => (a, b),
        },
    }
}

/// The kinds of two numbers after a jump on a condition of them, taken or not. Where nothing is left of one, both stay as
/// they were by the first profile, and are Dead by the second. A pointer stays by the first profile, and in 32 bits; by the second
/// and in 64 bits its address is compared, and its bounds are narrowed so far as something is left between them. Of what is unset
/// nothing is learned. A register compared with
/// itself is no pair: of it nothing is learned, and the caller does not ask.
pub fn refine(
    profile: Profile,
    cond: Cond,
    width: Width,
    a: Kind,
    b: Kind,
    taken: bool,
) -> (Kind, Kind)
    requires left { IsKind a }
    requires right { IsKind b }
    ensures table { (result.0, result.1) ≡ refine_of profile cond width a b taken }
    ensures kind { IsKind result.0 × IsKind result.1 }
    // a pair that was admitted, and of which the condition goes that way, still is
    ensures first { (x y : ℕ) → Admits a (Some x) → Admits b (Some y) → condition cond width x y ≡ taken → Admits result.0 (Some x) }
    ensures second { (x y : ℕ) → Admits a (Some x) → Admits b (Some y) → condition cond width x y ≡ taken → Admits result.1 (Some y) }
{
    refine_kinds(profile, cond, width, a, b, taken)
}
