//! Which sums are known at a slot, and what they tell of their numbers; and the names of the registers there, by the second profile.

ghost use Rattle.std.specs.Prelude.{◌≡◌, ◌<◌, ◌+◌, ◌||◌, true, false, ℕ, Bool, if◌then◌else◌, IfOk, OnErr, Some, List, slice_get, length, map, vec_len};
ghost use Rattle.bpf_insn.specs.declared.Insn.{Insn};
ghost use Rattle.bpf_alu.specs.declared.Cond.TheVariants.{LessEqual};
ghost use Rattle.bpf_alu.specs.declared.Width.TheVariants.{W64};
ghost use Rattle.bpf_semantics.specs.declared.profile.Profile.TheVariants.{Second};
ghost use Rattle.bpf_ranges.specs.Kinds.{IsKind};
ghost use Rattle.bpf_ranges.specs.Transfer.{refine_of};
ghost use Rattle.bpf_verifier.specs.Registers.{one_number};
ghost use Rattle.bpf_verifier.specs.Program.{Program};
ghost use Rattle.bpf_verifier.specs.Candidates.{program_in};
ghost use Rattle.bpf_verifier.specs.Naming.{bounds_at};
ghost use Rattle.bpf_verifier.specs.Table.{table, AreKinds};
ghost use Rattle.bpf_copies.specs.Led.{is_slot};
ghost use Rattle.bpf_copies.specs.Courses.{Follows, held_at};
ghost use Rattle.bpf_verifier.specs.Sums.{no_sums, sum_in, is_operand, has_register, without, copied, is_copy, added, sum_of_op, renewed, sums_after, least, most, at_most, register_at_most, operand_at_most, told_by, told_one, told_each, told_all, told};
ghost use Rattle.bpf_verifier.specs.Known.{AreSums};

use crate::candidate::Candidate;
use crate::kinds::{kind_of, kind_of_operand, one_number, set_kind};
use crate::naming::REGISTERS;
use crate::sum::Sum;
use bpf_alu::{Cond, Op, Width};
use bpf_copies::{Bounds, Course, place_of};
use bpf_image::form::target_of;
use bpf_insn::{Insn, Operand, Register};
use bpf_ranges::{Kind, Profile, refine};
use std::alloc::{AllocError, Global};

/// Whether a register is an operand.
fn is_operand(register: Register, operand: Operand) -> bool
    ensures { result ≡ is_operand register operand }
{
    match operand {
        Operand::Register(other) => other.number() == register.number(),
        Operand::Immediate(_) => false,
    }
}

/// Whether a register is one of those of a sum.
fn has_register(register: Register, sum: Sum) -> bool
    ensures { result ≡ has_register register sum }
{
    sum.of.number() == register.number()
        || sum.left.number() == register.number()
        || is_operand(register, sum.right)
}

/// The sum that a move of 64 bits gives its register: what is copied, and zero.
fn copied(dst: Register, src: Operand) -> Option<Sum>
    ensures { result ≡ copied dst src }
{
    match src {
        Operand::Register(src) => {
            if src.number() == dst.number() {
                None
            } else {
                Some(Sum {
                    of: dst,
                    left: src,
                    right: Operand::Immediate(0),
                })
            }
        }
        Operand::Immediate(_) => None,
    }
}

/// Whether a register is known to be the copy of another, and what is added to it is not itself.
fn is_copy(dst: Register, src: Operand, sum: Sum) -> bool
    ensures { result ≡ is_copy dst src sum }
{
    let is_copied = sum.of.number() == dst.number() && matches!(sum.right, Operand::Immediate(0));
    let is_other = sum.left.number() != dst.number() && !is_operand(dst, src);
    is_copied && is_other
}

/// The sum that an addition of 64 bits gives its register, where that held a copy.
fn added(dst: Register, src: Operand, sum: Option<Sum>) -> Option<Sum>
    ensures { result ≡ added dst src sum }
{
    match sum {
        Some(copy) => {
            if is_copy(dst, src, copy) {
                Some(Sum {
                    of: dst,
                    left: copy.left,
                    right: src,
                })
            } else {
                None
            }
        }
        None => None,
    }
}

/// The sum that an operation gives its register, by the one that it held.
fn sum_of_op(op: Op, width: Width, dst: Register, src: Operand, sum: Option<Sum>) -> Option<Sum>
    ensures { result ≡ sum_of_op op width dst src sum }
{
    match (op, width) {
        (Op::Mov, Width::W64) => copied(dst, src),
        (Op::Add, Width::W64) => added(dst, src, sum),
        _ => None,
    }
}

/// The sum that each of R0 to R10 is known to hold, if one is.
pub type KnownSums = [Option<Sum>; 11];

/// No register is known to hold a sum.
const NO_SUMS: KnownSums = [None; 11];

/// The sum that a register is known to hold.
pub fn sum_in(sums: &KnownSums, register: Register) -> Option<Sum>
    ensures { result ≡ sum_in sums.now register }
{
    sums[register.number() as usize]
}

/// Forgets a sum that has a register which is written.
#[inline(always)]
fn forget(register: Register, sum: &mut Option<Sum>)
    ensures { sum.new ≡ without register sum.old }
{
    if let Some(known) = sum {
        if has_register(register, *known) {
            *sum = None;
        }
    }
}

/// Forgets all sums that have a register which is written.
fn forget_each(register: Register, sums: &mut KnownSums)
    ensures { sums.new ≡ map (without register) sums.old }
{
    for sum in sums.iter_mut() {
        forget(register, sum);
    }
}

/// Goes over a write to `dst`, which then holds a new sum, if one is known.
fn renew(dst: Register, new: Option<Sum>, sums: &mut KnownSums)
    ensures { sums.new ≡ renewed dst new sums.old }
{
    forget_each(dst, sums);
    sums[dst.number() as usize] = new;
}

/// Goes over an instruction, on its way to the next slot: a wide one goes past its second slot.
fn sum_after(insn: Insn, sums: &mut KnownSums)
    ensures { sums.new ≡ sums_after insn sums.old }
{
    match insn {
        Insn::Alu {
            op,
            width,
            dst,
            src,
        } => {
            let new = sum_of_op(op, width, dst, src, sum_in(sums, dst));
            renew(dst, new, sums);
        }
        Insn::Load { dst, .. } | Insn::Swap { dst, .. } | Insn::Wide { dst, .. } => {
            renew(dst, None, sums);
        }
        Insn::Store { .. } | Insn::JumpIf { .. } | Insn::Tail => {},
        Insn::Call { .. } | Insn::Jump { .. } | Insn::Exit => *sums = NO_SUMS,
    }
}

/// Goes over an instruction to the next slot: no sum is known where a jump leads there.
fn sum_on(is_led: bool, insn: Insn, sums: &mut KnownSums)
    ensures { sums.new ≡ if is_led then no_sums else sums_after insn sums.old }
{
    if is_led {
        *sums = NO_SUMS;
    } else {
        sum_after(insn, sums);
    }
}

/// Notes where a jump leads, if there is one.
fn note(led: &mut Vec<bool>, target: Option<i64>)
    ensures long { vec_len led.new ≡ vec_len led.old }
    ensures noted { (k : ℕ) (b : Bool) → slice_get led.old.items k ≡ Some b → slice_get led.new.items k ≡ Some (is_slot k target || b) }
{
    if let Some(place) = place_of(target, led.len()) {
        led[place] = true;
    }
}

/// Of so many slots, that a jump leads to none.
fn none_led(alloc: Global, slots: usize) -> Result<Vec<bool>, AllocError>
    ensures long { IfOk result (λ led. vec_len led ≡ slots) }
    ensures none { IfOk result (λ led. (k : ℕ) → k < slots → slice_get led.items k ≡ Some false) }
{
    vec![in alloc; false; slots]
}

/// The sums that are known at a slot, and to which slots jumps lead from before it; by the second profile the names of the registers
/// there too, and those that wait for other slots.
#[derive(Drop)]
pub struct Sums {
    pub led: Vec<bool>,
    pub held: KnownSums,
    pub names: Course,
}

/// For how many slots names and pairs may wait: by the first profile none are known.
pub fn named_slots(profile: Profile, slots: usize) -> usize
    ensures { profile ≡ Second → result ≡ slots }
{
    match profile {
        Profile::First => 0,
        Profile::Second => slots,
    }
}

/// Has names go on to the next slot, by the second profile. It is said within which bounds the operand is, where that is a register.
/// Where memory runs out they are as they were.
fn name_on(
    names: &mut Course,
    program: &Candidate,
    at: usize,
    known: Bounds,
) -> Result<(), AllocError>
    requires within { at < length program.now.image.code.items }
    requires old { program.now.image.profile ≡ Second → Follows program.now.image.code.items (bounds_at (program_in program.now) (table (program_in program.now))) (length program.now.image.code.items + 1) at names.old }
    requires known { program.now.image.profile ≡ Second → bounds_at (program_in program.now) (table (program_in program.now)) at ≡ known }
    ensures follows { IfOk result (λ _. program.now.image.profile ≡ Second → Follows program.now.image.code.items (bounds_at (program_in program.now) (table (program_in program.now))) (length program.now.image.code.items + 1) (at + 1) names.new) }
    ensures here { OnErr result (names.new.here ≡ names.old.here) }
    ensures waiting { OnErr result ((k : ℕ) → held_at names.new.waiting.items k ≡ held_at names.old.waiting.items k) }
{
    match program.image.profile {
        Profile::First => Ok(()),
        Profile::Second => names.advance(at, program.image.code[at], known),
    }
}

impl Sums {
    /// At the first of so many slots nothing is known.
    pub fn new(alloc: Global, profile: Profile, slots: usize) -> Result<Sums, AllocError>
        ensures { IfOk result (λ sums. (p : Program) → p.profile ≡ profile → AreSums p slots 0 sums) }
    {
        let led = none_led(alloc, slots)?;
        let names = Course::new(alloc, named_slots(profile, slots))?;
        Ok(Sums {
            led,
            held: NO_SUMS,
            names,
        })
    }

    /// Goes on to the next slot. It is said within which bounds the operand is, where that is a register. Where memory runs out, all is
    /// as it was.
    pub fn advance(
        &mut self,
        program: &Candidate,
        at: usize,
        known: Bounds,
    ) -> Result<(), AllocError>
        requires within { at < length program.now.image.code.items }
        requires old { AreSums (program_in program.now) (length program.now.image.code.items + 1) at self.old }
        requires known { program.now.image.profile ≡ Second → bounds_at (program_in program.now) (table (program_in program.now)) at ≡ known }
        ensures on { IfOk result (λ _. AreSums (program_in program.now) (length program.now.image.code.items + 1) (at + 1) self.new) }
        ensures held { OnErr result ((self.new.held ≡ self.old.held) × (self.new.led.items ≡ self.old.led.items)) }
        ensures names { OnErr result ((self.new.names.here ≡ self.old.names.here) × ((k : ℕ) → held_at self.new.names.waiting.items k ≡ held_at self.old.names.waiting.items k)) }
    {
        name_on(&mut self.names, program, at, known)?;
        let insn = program.image.code[at];
        note(&mut self.led, target_of(at, insn));
        sum_on(self.led[at + 1], insn, &mut self.held);
        Ok(())
    }
}

/// The least number that a kind may be, a pointer by its address.
pub fn least(kind: Kind) -> u64
    requires { IsKind kind }
    ensures { result ≡ least kind }
{
    match kind.as_number() {
        Some(a) => a.range.lo,
        None => 0,
    }
}

/// The greatest number that a kind may be, a pointer by its address.
pub fn most(kind: Kind) -> u64
    requires { IsKind kind }
    ensures { result ≡ most kind }
{
    match kind.as_number() {
        Some(a) => a.range.hi,
        None => u64::MAX,
    }
}

/// What is left of a number or a pointer that is at most `n`.
fn narrowed(n: u64, kind: Kind) -> Kind
    requires { IsKind kind }
    ensures table { result ≡ (refine_of Second LessEqual W64 kind (one_number Second n) true).0 }
    ensures kind { IsKind result }
{
    let end = one_number(Profile::Second, n);
    let (left, _) = refine(
        Profile::Second,
        Cond::LessEqual,
        Width::W64,
        kind,
        end,
        true,
    );
    left
}

/// What is left of a number that is at most `n`, or of a pointer whose address is. Where a pointer leads to one place it stays.
fn at_most(n: u64, kind: Kind) -> Kind
    requires { IsKind kind }
    ensures table { result ≡ at_most n kind }
    ensures kind { IsKind result }
{
    match kind {
        Kind::Num(_) => narrowed(n, kind),
        Kind::Ptr { lo, hi, .. } if lo < hi => narrowed(n, kind),
        _ => kind,
    }
}

/// Narrows a register that holds a number of at most `n`.
pub fn narrow_register(n: u64, register: Register, row: &mut [Kind])
    requires { AreKinds row.old }
    ensures table { row.new ≡ register_at_most n register row.old }
    ensures kinds { AreKinds row.new }
{
    let kind = kind_of(row, register);
    set_kind(row, register, at_most(n, kind));
}

/// Narrows an operand that is a number of at most `n`.
fn narrow_operand(n: u64, operand: Operand, row: &mut [Kind])
    requires { AreKinds row.old }
    ensures table { row.new ≡ operand_at_most n operand row.old }
    ensures kinds { AreKinds row.new }
{
    match operand {
        Operand::Register(register) => narrow_register(n, register, row),
        Operand::Immediate(_) => {},
    }
}

/// Narrows the two numbers of a sum that can't pass 2^64: each is at most the greatest sum less the least other number.
fn tell_by(sum: Sum, row: &mut [Kind])
    requires { AreKinds row.old }
    ensures table { row.new ≡ told_by sum row.old }
    ensures kinds { AreKinds row.new }
{
    let left = kind_of(row, sum.left);
    let right = kind_of_operand(Profile::Second, row, sum.right);
    let whole = kind_of(row, sum.of);
    if most(left) <= u64::MAX - most(right) {
        narrow_register(most(whole).saturating_sub(least(right)), sum.left, row);
        narrow_operand(most(whole).saturating_sub(least(left)), sum.right, row);
    }
}

/// Narrows the two numbers of a sum, if one is known.
fn tell_one(sum: Option<Sum>, row: &mut [Kind])
    requires { AreKinds row.old }
    ensures table { row.new ≡ told_one sum row.old }
    ensures kinds { AreKinds row.new }
{
    if let Some(sum) = sum {
        tell_by(sum, row);
    }
}

/// Narrows the numbers of the sums that some registers are known to hold.
fn tell_each(sums: &KnownSums, registers: &[Register], row: &mut [Kind])
    requires { AreKinds row.old }
    ensures table { row.new ≡ told_each sums.now registers.now row.old }
    ensures kinds { AreKinds row.new }
{
    match registers {
        [] => {},
        [register, registers @ ..] => {
            tell_one(sum_in(sums, *register), row);
            tell_each(sums, registers, row);
        }
    }
}

/// Narrows the numbers of the sums that are known where a condition was tested, by the second profile.
pub fn tell(insn: Insn, profile: Profile, sums: &KnownSums, row: &mut [Kind])
    requires { AreKinds row.old }
    ensures table { row.new ≡ told insn profile sums.now row.old }
    ensures kinds { AreKinds row.new }
{
    if let (Insn::JumpIf { .. }, Profile::Second) = (insn, profile) {
        tell_each(sums, &REGISTERS, row);
    }
}
