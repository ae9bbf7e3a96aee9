//! Which registers are known to hold copies of one value, and how far they are apart.

ghost use Rattle.std.specs.Prelude.{◌≡◌, ◌≤◌, slice_set};
ghost use Rattle.bpf_insn.specs.Encoding.{number};
ghost use Rattle.bpf_copies.specs.Names.{name_at, new_names, moved_by, single, shifted, name_of_op, names_after, joined_name, name_in, joined_names, distance_from, are_alike};

use crate::bounds::{Bounds, single};
use crate::name::{Name, new_name};
use bpf_alu::{Op, Width, eval};
use bpf_insn::{Insn, Operand, Register};

/// The name of a register.
fn name_at(names: &[Name; 11], register: Register) -> Name
    ensures { result ≡ name_at names.now register }
{
    names[register.number() as usize]
}

/// Names that no register had before a slot: those of the first slot, and of one to which nothing leads.
pub fn new_names(slot: u32) -> [Name; 11]
    requires { slot ≤ 4096 }
    ensures { result ≡ new_names slot }
{
    [
        new_name(slot, Register::R0),
        new_name(slot, Register::R1),
        new_name(slot, Register::R2),
        new_name(slot, Register::R3),
        new_name(slot, Register::R4),
        new_name(slot, Register::R5),
        new_name(slot, Register::R6),
        new_name(slot, Register::R7),
        new_name(slot, Register::R8),
        new_name(slot, Register::R9),
        new_name(slot, Register::R10),
    ]
}

/// A name that is moved by a number.
fn moved_by(op: Op, n: u64, name: Name) -> Name
    ensures { result ≡ moved_by op n name }
{
    Name {
        value: name.value,
        distance: eval(op, Width::W64, name.distance, n),
    }
}

/// The name of a register that gets more or less than it held: by one number it is moved, and by any other it is new.
fn shifted(slot: u32, dst: Register, op: Op, n: Option<u64>, name: Name) -> Name
    requires { slot ≤ 4096 }
    ensures { result ≡ shifted slot dst op n name }
{
    match n {
        Some(n) => moved_by(op, n, name),
        None => new_name(slot, dst),
    }
}

/// The name of a register that an operation writes, whose operand is within bounds: a copy's is that of what is copied, by a move of
/// 32 bits where that is below 2^32, and one number that is added or taken away moves it.
fn name_of_op(
    slot: u32,
    known: Bounds,
    op: Op,
    width: Width,
    dst: Register,
    src: Operand,
    names: &[Name; 11],
) -> Name
    requires { slot ≤ 4096 }
    ensures { result ≡ name_of_op slot known op width dst src names.now }
{
    match (op, width, src) {
        (Op::Mov, Width::W64, Operand::Register(src)) => name_at(names, src),
        (Op::Mov, Width::W32, Operand::Register(src)) if known.most < 1 << 32 => {
            name_at(names, src)
        }
        (Op::Add | Op::Sub, Width::W64, src) => {
            shifted(slot, dst, op, single(known, src), name_at(names, dst))
        }
        _ => new_name(slot, dst),
    }
}

/// Gives a register a name.
fn set_name(names: &mut [Name; 11], register: Register, name: Name)
    ensures { names.new ≡ slice_set names.old (number register) name }
{
    names[register.number() as usize] = name;
}

/// Goes over an instruction, whose operand is within bounds, on the way to a slot.
pub fn rename(slot: u32, known: Bounds, insn: Insn, names: &mut [Name; 11])
    requires { slot ≤ 4096 }
    ensures { names.new ≡ names_after slot known insn names.old }
{
    match insn {
        Insn::Alu {
            op,
            width,
            dst,
            src,
        } => {
            let name = name_of_op(slot, known, op, width, dst, src, names);
            set_name(names, dst, name);
        }
        Insn::Swap { dst, .. } | Insn::Load { dst, .. } | Insn::Wide { dst, .. } => {
            set_name(names, dst, new_name(slot, dst));
        }
        Insn::Call { .. } => names[..6].copy_from_slice(&new_names(slot)[..6]),
        Insn::Store { .. } | Insn::Jump { .. } | Insn::JumpIf { .. } | Insn::Exit | Insn::Tail =>
            {},
    }
}

/// Where two ways to a slot meet, a name that is the same on both stays, and any other is new.
fn join_name(slot: u32, register: Register, name: Name, other: Name) -> Name
    requires { slot ≤ 4096 }
    ensures { result ≡ joined_name slot register name other }
{
    if name.value == other.value && name.distance == other.distance {
        name
    } else {
        new_name(slot, register)
    }
}

/// The same of a register, by the names of both ways.
fn name_in(slot: u32, register: Register, names: &[Name; 11], others: &[Name; 11]) -> Name
    requires { slot ≤ 4096 }
    ensures { result ≡ name_in slot register names.now others.now }
{
    join_name(
        slot,
        register,
        name_at(names, register),
        name_at(others, register),
    )
}

/// The names where two ways to a slot meet.
pub fn join_names(slot: u32, names: &[Name; 11], others: &[Name; 11]) -> [Name; 11]
    requires { slot ≤ 4096 }
    ensures { result ≡ joined_names slot names.now others.now }
{
    [
        name_in(slot, Register::R0, names, others),
        name_in(slot, Register::R1, names, others),
        name_in(slot, Register::R2, names, others),
        name_in(slot, Register::R3, names, others),
        name_in(slot, Register::R4, names, others),
        name_in(slot, Register::R5, names, others),
        name_in(slot, Register::R6, names, others),
        name_in(slot, Register::R7, names, others),
        name_in(slot, Register::R8, names, others),
        name_in(slot, Register::R9, names, others),
        name_in(slot, Register::R10, names, others),
    ]
}

/// Whether two registers have one name.
pub fn are_alike(names: &[Name; 11], a: Register, b: Register) -> bool
    ensures { result ≡ are_alike names.now a b }
{
    name_at(names, a).value == name_at(names, b).value && a.number() != b.number()
}

/// By how much register `b` is more than register `a`, where they have one name.
pub fn distance_from(names: &[Name; 11], a: Register, b: Register) -> u64
    ensures { result ≡ distance_from names.now a b }
{
    let (first, second) = (name_at(names, a), name_at(names, b));
    eval(Op::Sub, Width::W64, second.distance, first.distance)
}
