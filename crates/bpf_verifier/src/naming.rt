//! What is told of registers that hold copies of one value.

ghost use Rattle.std.specs.Prelude.{◌≡◌, ◌<◌, true, Some, IfSome, length, slice_get};
ghost use Rattle.bpf_alu.specs.declared.Cond.TheVariants.{Equal};
ghost use Rattle.bpf_alu.specs.declared.Width.TheVariants.{W64};
ghost use Rattle.bpf_semantics.specs.declared.profile.Profile.TheVariants.{Second};
ghost use Rattle.bpf_copies.specs.Names.{distance_from, are_alike};
ghost use Rattle.bpf_ranges.specs.Kinds.{IsKind};
ghost use Rattle.bpf_ranges.specs.Transfer.{refine_of};
ghost use Rattle.bpf_verifier.specs.Naming.{bounds_in, bounds_of, equal_to, from_other, told_of, told_each, told_from, told_operand, named};
ghost use Rattle.bpf_verifier.specs.Table.{AreKinds};

use crate::candidate::Candidate;
use crate::kinds::{kind_of, one_number, set_kind};
use crate::sums::{least, most};
use bpf_alu::{Cond, Op, Width};
use bpf_copies::{Bounds, Name, are_alike, distance_from};
use bpf_insn::{Insn, Operand, Register};
use bpf_ranges::{Kind, Profile, refine, transfer};

/// The registers that a program may write.
pub const REGISTERS: [Register; 10] = [
    Register::R0,
    Register::R1,
    Register::R2,
    Register::R3,
    Register::R4,
    Register::R5,
    Register::R6,
    Register::R7,
    Register::R8,
    Register::R9,
];

/// Within which bounds the operand of an operation is, where it is a register.
fn bounds_in(row: &[Kind], insn: Insn) -> Bounds
    requires { AreKinds row.now }
    ensures { result ≡ bounds_in row.now insn }
{
    match insn {
        Insn::Alu {
            src: Operand::Register(src),
            ..
        } => {
            let kind = kind_of(row, src);
            Bounds {
                least: least(kind),
                most: most(kind),
            }
        }
        _ => Bounds::none(),
    }
}

/// The same at a slot, by the kinds that reach it, if any do.
pub fn bounds_here<const N: usize>(
    program: &Candidate,
    at: usize,
    here: &Option<[Kind; N]>,
) -> Bounds
    requires within { at < length program.now.image.code.items }
    requires kinds { IfSome here.now (λ row. AreKinds row) }
    ensures { result ≡ bounds_of (slice_get program.now.image.code.items at) (Some here.now) }
{
    match here {
        Some(row) => bounds_in(row, program.image.code[at]),
        None => Bounds::none(),
    }
}

/// What is left of a kind that is equal to another.
fn narrowed(kind: Kind, other: Kind) -> Kind
    requires kind { IsKind kind }
    requires other { IsKind other }
    ensures table { result ≡ (refine_of Second Equal W64 kind other true).0 }
    ensures kind { IsKind result }
{
    let (left, _) = refine(Profile::Second, Cond::Equal, Width::W64, kind, other, true);
    left
}

/// What is left of a number that is equal to another kind's, or of a pointer whose address is. Where a pointer leads to one place it
/// stays.
fn equal_to(kind: Kind, other: Kind) -> Kind
    requires kind { IsKind kind }
    requires other { IsKind other }
    ensures table { result ≡ equal_to kind other }
    ensures kind { IsKind result }
{
    match kind {
        Kind::Num(_) => narrowed(kind, other),
        Kind::Ptr { lo, hi, .. } if lo < hi => narrowed(kind, other),
        _ => kind,
    }
}

/// What is left of a kind that is so much more than another.
fn from_other(kind: Kind, other: Kind, n: u64) -> Kind
    requires kind { IsKind kind }
    requires other { IsKind other }
    ensures table { result ≡ from_other kind other n }
    ensures kind { IsKind result }
{
    let distance = one_number(Profile::Second, n);
    match transfer(Profile::Second, Op::Add, Width::W64, other, distance) {
        Ok(moved) => equal_to(kind, moved),
        Err(_) => kind,
    }
}

/// Narrows register `b` by what is known of register `a`, where they have one name.
fn tell_of(names: &[Name; 11], a: Register, b: Register, row: &mut [Kind])
    requires { AreKinds row.old }
    ensures table { row.new ≡ told_of names.now a b row.old }
    ensures kinds { AreKinds row.new }
{
    if are_alike(names, a, b) {
        let n = distance_from(names, a, b);
        set_kind(row, b, from_other(kind_of(row, b), kind_of(row, a), n));
    }
}

/// Narrows each of some registers by what is known of register `a`.
fn tell_each(names: &[Name; 11], a: Register, others: &[Register], row: &mut [Kind])
    requires { AreKinds row.old }
    ensures table { row.new ≡ told_each names.now a others.now row.old }
    ensures kinds { AreKinds row.new }
{
    match others {
        [] => {},
        [b, others @ ..] => {
            tell_of(names, a, *b, row);
            tell_each(names, a, others, row);
        }
    }
}

/// Narrows the registers that have the name of register `a`.
fn tell_from(names: &[Name; 11], a: Register, row: &mut [Kind])
    requires { AreKinds row.old }
    ensures table { row.new ≡ told_from names.now a row.old }
    ensures kinds { AreKinds row.new }
{
    tell_each(names, a, &REGISTERS, row);
}

/// The same, of an operand.
fn tell_operand(names: &[Name; 11], operand: Operand, row: &mut [Kind])
    requires { AreKinds row.old }
    ensures table { row.new ≡ told_operand names.now operand row.old }
    ensures kinds { AreKinds row.new }
{
    match operand {
        Operand::Register(register) => tell_from(names, register, row),
        Operand::Immediate(_) => {},
    }
}

/// Narrows the registers that have the name of one of those of a condition that was tested, be the jump taken or not, by the second
/// profile.
pub fn tell_named(insn: Insn, profile: Profile, names: &[Name; 11], row: &mut [Kind])
    requires { AreKinds row.old }
    ensures table { row.new ≡ named insn profile names.now row.old }
    ensures kinds { AreKinds row.new }
{
    if let (Insn::JumpIf { left, right, .. }, Profile::Second) = (insn, profile) {
        tell_from(names, left, row);
        tell_operand(names, right, row);
    }
}
