//! Kinds through an operation or a byte swap.

ghost use Rattle.std.specs.Prelude.{◌≡◌, ◌<◌, ◌^◌, ℕ, IfOk, Some, true};
ghost use Rattle.bpf_alu.specs.Value.{value, swapped};
ghost use Rattle.bpf_ranges.specs.Numbers.{IsNumber, reads_first, reads_second};
ghost use Rattle.bpf_ranges.specs.Kinds.{IsKind, Admits};
ghost use Rattle.bpf_ranges.specs.Transfer.{after_dead, before_dead, apart_by, of_one, of_two, transfer_of, swap_of};

use crate::kind::{Bad, Kind};
use crate::number::Number;
use crate::pointer::{add_to_pointer, as_signed, take_from_pointer};
use bpf_alu::{Op, SwapBits, SwapKind, Width};
use bpf_semantics::Profile;

/// An operation that reads one operand, and no pointer.
fn transfer_one(profile: Profile, op: Op, width: Width, a: Kind) -> Result<Kind, Bad>
    requires { IsKind a }
    ensures table { result ≡ of_one profile op width a }
    ensures kind { IfOk result IsKind }
{
    match a {
        Kind::Num(a) => Ok(Kind::left(Number::operated(profile, op, width, a, a))),
        Kind::Dead => Ok(Kind::Dead),
        _ => Err(Bad::V22),
    }
}

/// What an operation on a dead number and a kind leaves: the pointer to which the number is added, and else what is dead.
fn after_dead(b: Kind, op: Op, width: Width) -> Kind
    requires { IsKind b }
    ensures table { result ≡ after_dead b op width }
    ensures kind { IsKind result }
{
    match (b, op, width) {
        (Kind::Ptr { .. }, Op::Add, Width::W64) => b,
        _ => Kind::Dead,
    }
}

/// What an operation on a kind and a dead number leaves: the pointer to which it is added or from which it is taken, and else
/// what is dead.
fn before_dead(a: Kind, op: Op, width: Width) -> Kind
    requires { IsKind a }
    ensures table { result ≡ before_dead a op width }
    ensures kind { IsKind result }
{
    match (a, op, width) {
        (Kind::Ptr { .. }, Op::Add | Op::Sub, Width::W64) => a,
        _ => Kind::Dead,
    }
}

/// A pointer taken from a pointer: by the second profile an address from an address.
fn take_apart(profile: Profile, a: Number, b: Number) -> Result<Kind, Bad>
    requires left { IsNumber a }
    requires right { IsNumber b }
    ensures table { result ≡ apart_by profile a b }
    ensures kind { IfOk result IsKind }
{
    match profile {
        Profile::First => Err(Bad::V22),
        Profile::Second => Ok(Kind::left(Number::operated(profile, Op::Sub, Width::W64, a, b))),
    }
}

/// An operation that reads both operands.
fn transfer_two(profile: Profile, op: Op, width: Width, a: Kind, b: Kind) -> Result<Kind, Bad>
    requires left { IsKind a }
    requires right { IsKind b }
    ensures table { result ≡ of_two profile op width a b }
    ensures kind { IfOk result IsKind }
{
    match (op, width, a, b) {
        (_, _, Kind::Dead, _) => Ok(after_dead(b, op, width)),
        (_, _, _, Kind::Dead) => Ok(before_dead(a, op, width)),
        (_, _, Kind::Num(a), Kind::Num(b)) => {
            Ok(Kind::left(Number::operated(profile, op, width, a, b)))
        },
        (Op::Add, Width::W64, Kind::Ptr { region, lo, hi }, Kind::Num(by)) => {
            add_to_pointer(profile, region, lo, hi, as_signed(by.range.lo, by.range.hi))
        }
        (Op::Add, Width::W64, Kind::Num(by), Kind::Ptr { region, lo, hi }) => {
            add_to_pointer(profile, region, lo, hi, as_signed(by.range.lo, by.range.hi))
        }
        (Op::Sub, Width::W64, Kind::Ptr { region, lo, hi }, Kind::Num(by)) => {
            take_from_pointer(profile, region, lo, hi, as_signed(by.range.lo, by.range.hi))
        }
        (
            Op::Sub,
            Width::W64,
            Kind::Ptr { region, lo, hi },
            Kind::Ptr {
                region: other,
                lo: low,
                hi: high,
            },
        ) => take_apart(
            profile,
            Number::of_pointer(region, lo, hi),
            Number::of_pointer(other, low, high),
        ),
        _ => Err(Bad::V22),
    }
}

fn transfer_kinds(profile: Profile, op: Op, width: Width, a: Kind, b: Kind) -> Result<Kind, Bad>
    requires left { IsKind a }
    requires right { IsKind b }
    ensures table { result ≡ transfer_of profile op width a b }
    ensures kind { IfOk result IsKind }
{
    match (op, width) {
        (Op::Mov, Width::W64) => Ok(b),
        (Op::Mov | Op::Movsx8 | Op::Movsx16 | Op::Movsx32, _) => transfer_one(
            profile, op, width, b,
        ),
        (Op::Neg, _) => transfer_one(profile, op, width, a),
        _ => transfer_two(profile, op, width, a, b),
    }
}

/// What an operation leaves in its destination, by the kinds of the destination and of the operand. A move reads the
/// operand alone, a negation the destination alone. `V22` is told for a pointer, but where a move of 64 bits copies it, a
/// number is added to it or taken from it in 64 bits, or, by the second profile, a pointer is taken from it in 64 bits, which
/// gives the difference of their addresses; `V23` where the offset that results may be further than 2^20, by the second profile than 2^33. A dead number leaves
/// the pointer where it is.
pub fn transfer(profile: Profile, op: Op, width: Width, a: Kind, b: Kind) -> Result<Kind, Bad>
    requires left { IsKind a }
    requires right { IsKind b }
    ensures table { result ≡ transfer_of profile op width a b }
    ensures kind { IfOk result IsKind }
    // what the operands that are read admit, the result admits of the operation's value
    ensures sound { (x y : ℕ) → x < 2 ^ 64 → y < 2 ^ 64 → (reads_first op ≡ true → Admits a (Some x)) → (reads_second op ≡ true → Admits b (Some y)) → IfOk result (λ k. Admits k (Some (value op width x y))) }
{
    transfer_kinds(profile, op, width, a, b)
}

fn swap_kinds(profile: Profile, kind: SwapKind, bits: SwapBits, a: Kind) -> Result<Kind, Bad>
    requires { IsKind a }
    ensures table { result ≡ swap_of profile kind bits a }
    ensures kind { IfOk result IsKind }
{
    match a {
        Kind::Num(a) => Ok(Kind::left(a.swapped(profile, kind, bits))),
        Kind::Dead => Ok(Kind::Dead),
        _ => Err(Bad::V22),
    }
}

/// What a byte swap leaves in its register, by the register's kind. `V22` is told for a pointer.
pub fn transfer_swap(profile: Profile, kind: SwapKind, bits: SwapBits, a: Kind) -> Result<Kind, Bad>
    requires { IsKind a }
    ensures table { result ≡ swap_of profile kind bits a }
    ensures kind { IfOk result IsKind }
    ensures sound { (x : ℕ) → Admits a (Some x) → IfOk result (λ k. Admits k (Some (swapped kind bits x))) }
{
    swap_kinds(profile, kind, bits, a)
}
