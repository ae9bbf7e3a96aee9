//! The rules over kinds, at one slot.

ghost use Rattle.std.specs.Prelude.{◌≡◌, ◌≤◌, false, length, IfOk, IfNone};
ghost use Rattle.bpf_insn.specs.Encoding.{size_bytes};
ghost use Rattle.bpf_insn.specs.declared.Insn.TheVariants as insn;
ghost use Rattle.bpf_semantics.specs.State.{writes, operand_reads};
ghost use Rattle.bpf_helpers.specs.Calls.{Unknown};
ghost use Rattle.bpf_ranges.specs.Kinds.{IsKind};
ghost use Rattle.bpf_verifier.specs.Candidates.{program_in};
ghost use Rattle.bpf_verifier.specs.Registers.{kind_at, with_kind, kind_from, is_unset, is_pointer, any_unset, is_inside};
ghost use Rattle.bpf_verifier.specs.CallKinds.{callee_from};
ghost use Rattle.bpf_verifier.specs.Answered.{row_after_call};
ghost use Rattle.bpf_verifier.specs.Cells.{span_of, part_at};
ghost use Rattle.bpf_verifier.specs.Rules.{is_frame, bad_result, result_kind, broken_if, first_of, compares_pointer, reads_by, call_rules, class_rules, rules_by, refined, row_after};
ghost use Rattle.bpf_verifier.specs.Pairs.{no_pairs};
ghost use Rattle.bpf_verifier.specs.Table.{AreKinds};
ghost use Rattle.bpf_verifier.specs.declared.rule.KindRule.TheVariants.{PointerOperand};

use crate::callee::{Called, is_argument_unset, is_given, leave_call};
use crate::candidate::Candidate;
use crate::cell_part::CellPart;
use crate::cells::{
    call_reads_numbers, is_cell, is_readable, part_at, read_kind, span_of, store_kind,
};
use crate::kinds::{kind_of, kind_of_operand, loaded, one_number, refine_row, set_kind};
use crate::pair::Pairs;
use crate::rule::KindRule;
use crate::windows::is_inside;
use bpf_alu::{Cond, Op, Width};
use bpf_insn::{Extend, Insn, Operand, Register, Size};
use bpf_ranges::{Bad, Kind, Profile, transfer, transfer_swap};
use bpf_semantics::Region;

/// Whether the kind of a register is unset.
fn is_unset(row: &[Kind], register: Register) -> bool
    ensures { result ≡ is_unset (kind_at row.now register) }
{
    kind_of(row, register) == Kind::Unset
}

/// Whether an operand reads an unset register.
fn is_operand_unset(row: &[Kind], operand: Operand) -> bool
    ensures { result ≡ any_unset row.now (operand_reads operand) }
{
    match operand {
        Operand::Register(register) => is_unset(row, register),
        Operand::Immediate(_) => false,
    }
}

/// Whether an instruction reads a register that is not known to be set.
fn reads_unset(callee: &Called, row: &[Kind], insn: Insn) -> bool
    ensures { result ≡ any_unset row.now (reads_by (callee_from callee.now) insn) }
{
    match insn {
        Insn::Alu {
            op: Op::Mov | Op::Movsx8 | Op::Movsx16 | Op::Movsx32,
            src,
            ..
        } => is_operand_unset(row, src),
        Insn::Alu { dst, src, .. } => is_unset(row, dst) || is_operand_unset(row, src),
        Insn::Swap { dst, .. } => is_unset(row, dst),
        Insn::Load { base, .. } => is_unset(row, base),
        Insn::Store { base, src, .. } => is_unset(row, base) || is_operand_unset(row, src),
        Insn::JumpIf { left, right, .. } => is_unset(row, left) || is_operand_unset(row, right),
        Insn::Exit => is_unset(row, Register::R0),
        Insn::Call { .. } => is_argument_unset(row, callee),
        Insn::Jump { .. } | Insn::Wide { .. } | Insn::Tail => false,
    }
}

/// Whether an instruction writes the frame pointer.
fn writes_frame(insn: Insn) -> bool
    ensures { result ≡ is_frame (writes insn) }
{
    match insn {
        Insn::Alu { dst, .. }
        | Insn::Swap { dst, .. }
        | Insn::Load { dst, .. }
        | Insn::Wide { dst, .. } => dst.number() == 10,
        _ => false,
    }
}

/// Whether a load or store lies in its window.
fn is_access_inside(program: &Candidate, kind: Kind, offset: i16, size: Size) -> bool
    requires { IsKind kind }
    ensures { result ≡ is_inside (program_in program.now) kind offset (size_bytes size) }
{
    is_inside(program, kind, offset, size.bytes() as u32)
}

/// Gives a register what an operation leaves in it, or tells the rule that the operation breaks.
fn settle(row: &mut [Kind], dst: Register, outcome: Result<Kind, Bad>) -> Option<KindRule>
    requires old { AreKinds row.old }
    requires kind { IfOk outcome IsKind }
    ensures rule { result ≡ bad_result outcome }
    ensures row { IfNone result (row.new ≡ with_kind row.old dst (result_kind outcome)) }
    ensures kinds { IfNone result (AreKinds row.new) }
{
    match outcome {
        Ok(kind) => {
            set_kind(row, dst, kind);
            None
        }
        Err(Bad::V22) => Some(KindRule::PointerOperand),
        Err(Bad::V23) => Some(KindRule::FarOffset),
    }
}

/// The first rule that a store breaks, of those that only it can break, by the part of a cell that it writes, if it does.
fn store_rule(
    program: &Candidate,
    row: &[Kind],
    size: Size,
    base: Register,
    offset: i16,
    src: Operand,
    at: Option<CellPart>,
) -> Option<KindRule>
    requires kinds { AreKinds row.now }
    requires at { at ≡ part_at program.now.image.profile (kind_at row.now base) offset (size_bytes size) }
    ensures { result ≡ first_of (class_rules (program_in program.now) Unknown no_pairs row.now (Insn.Store size base offset src)) }
{
    let address = kind_of(row, base);
    if !is_access_inside(program, address, offset, size) {
        return Some(KindRule::OutsideWindow);
    }
    if matches!(
        address,
        Kind::Ptr {
            region: Region::Input,
            ..
        }
    ) {
        return Some(KindRule::InputStored);
    }
    match kind_of_operand(program.image.profile, row, src) {
        Kind::Ptr { .. } if !is_cell(at) => Some(KindRule::PointerStored),
        _ => None,
    }
}

/// Goes over a store, or tells the first rule that it breaks.
fn store(
    program: &Candidate,
    row: &mut [Kind],
    size: Size,
    base: Register,
    offset: i16,
    src: Operand,
) -> Option<KindRule>
    requires long { 11 ≤ length row.old }
    requires short { length row.old ≤ 75 }
    requires kinds { AreKinds row.old }
    ensures rule { result ≡ first_of (class_rules (program_in program.now) Unknown no_pairs row.old (Insn.Store size base offset src)) }
    ensures row { IfNone result (row.new ≡ row_after program.now.image.profile Unknown row.old (Insn.Store size base offset src)) }
    ensures kinds { IfNone result (AreKinds row.new) }
{
    let profile = program.image.profile;
    let address = kind_of(row, base);
    let at = part_at(profile, address, offset, size.bytes() as u32);
    if let Some(rule) = store_rule(program, row, size, base, offset, src, at) {
        return Some(rule);
    }
    let kind = kind_of_operand(profile, row, src);
    let span = span_of(address, offset, size.bytes() as u32);
    store_kind(profile, at, span, kind, row);
    None
}

/// The first rule that a call breaks, of those that only it can break.
fn call_rule(program: &Candidate, callee: &Called, pairs: Pairs, row: &[Kind]) -> Option<KindRule>
    requires long { 11 ≤ length row.now }
    requires short { length row.now ≤ 75 }
    requires kinds { AreKinds row.now }
    ensures { result ≡ first_of (call_rules (program_in program.now) (callee_from callee.now) pairs row.now) }
{
    if matches!(callee, Called::Unknown) {
        return Some(KindRule::UnknownHelper);
    }
    if !is_given(program, callee, pairs, row) {
        return Some(KindRule::ArgumentRule);
    }
    if call_reads_numbers(callee, row) {
        None
    } else {
        Some(KindRule::StackRead)
    }
}

/// Whether this is a pointer.
fn is_pointer(kind: Kind) -> bool
    ensures { result ≡ is_pointer kind }
{
    matches!(kind, Kind::Ptr { .. })
}

/// Whether a condition has a pointer as an operand that the profile does not compare: the second one compares addresses.
fn compares_pointer(profile: Profile, a: Kind, b: Kind) -> bool
    ensures { result ≡ compares_pointer profile a b }
{
    match profile {
        Profile::First => is_pointer(a) || is_pointer(b),
        Profile::Second => false,
    }
}

/// Goes over a conditional jump that is not taken, or tells the rule that it breaks.
fn compare(
    profile: Profile,
    cond: Cond,
    width: Width,
    left: Register,
    right: Operand,
    row: &mut [Kind],
) -> Option<KindRule>
    requires kinds { AreKinds row.old }
    ensures rule { result ≡ broken_if (compares_pointer profile (kind_at row.old left) (kind_from profile row.old right)) PointerOperand }
    ensures row { IfNone result (row.new ≡ refined profile cond width left right false row.old) }
    ensures kinds { IfNone result (AreKinds row.new) }
{
    let operand = kind_of_operand(profile, row, right);
    if compares_pointer(profile, kind_of(row, left), operand) {
        return Some(KindRule::PointerOperand);
    }
    refine_row(profile, cond, width, left, right, false, row);
    None
}

/// Goes over a load, or tells the first rule that it breaks.
fn load(
    program: &Candidate,
    row: &mut [Kind],
    size: Size,
    extend: Extend,
    dst: Register,
    base: Register,
    offset: i16,
) -> Option<KindRule>
    requires long { 11 ≤ length row.old }
    requires short { length row.old ≤ 75 }
    requires kinds { AreKinds row.old }
    ensures rule { result ≡ first_of (class_rules (program_in program.now) Unknown no_pairs row.old (Insn.Load size extend dst base offset)) }
    ensures row { IfNone result (row.new ≡ row_after program.now.image.profile Unknown row.old (Insn.Load size extend dst base offset)) }
    ensures kinds { IfNone result (AreKinds row.new) }
{
    let profile = program.image.profile;
    let address = kind_of(row, base);
    if !is_access_inside(program, address, offset, size) {
        return Some(KindRule::OutsideWindow);
    }
    let at = part_at(profile, address, offset, size.bytes() as u32);
    let span = span_of(address, offset, size.bytes() as u32);
    if !is_readable(profile, at, span, row) {
        return Some(KindRule::StackRead);
    }
    let kind = read_kind(profile, extend, at, loaded(profile, size, extend), row);
    set_kind(row, dst, kind);
    None
}

/// Goes over a call, or tells the first rule that it breaks.
fn call(program: &Candidate, callee: &Called, pairs: Pairs, row: &mut [Kind]) -> Option<KindRule>
    requires long { 11 ≤ length row.old }
    requires short { length row.old ≤ 75 }
    requires kinds { AreKinds row.old }
    ensures rule { result ≡ first_of (call_rules (program_in program.now) (callee_from callee.now) pairs row.old) }
    ensures row { IfNone result (row.new ≡ row_after_call program.now.image.profile (callee_from callee.now) row.old) }
    ensures kinds { IfNone result (AreKinds row.new) }
{
    if let Some(rule) = call_rule(program, callee, pairs, row) {
        return Some(rule);
    }
    leave_call(program.image.profile, callee, row);
    None
}

/// Goes over an instruction that reads what is set, or tells the first rule that it breaks of those that its class can break.
fn class_step(
    program: &Candidate,
    callee: &Called,
    pairs: Pairs,
    row: &mut [Kind],
    insn: Insn,
) -> Option<KindRule>
    requires long { 11 ≤ length row.old }
    requires short { length row.old ≤ 75 }
    requires kinds { AreKinds row.old }
    ensures rule { result ≡ first_of (class_rules (program_in program.now) (callee_from callee.now) pairs row.old insn) }
    ensures after { IfNone result (row.new ≡ row_after program.now.image.profile (callee_from callee.now) row.old insn) }
    ensures kinds { IfNone result (AreKinds row.new) }
{
    let profile = program.image.profile;
    match insn {
        Insn::Alu {
            op,
            width,
            dst,
            src,
        } => {
            let operand = kind_of_operand(profile, row, src);
            let outcome = transfer(profile, op, width, kind_of(row, dst), operand);
            settle(row, dst, outcome)
        }
        Insn::Swap { kind, bits, dst } => {
            let outcome = transfer_swap(profile, kind, bits, kind_of(row, dst));
            settle(row, dst, outcome)
        }
        Insn::Load {
            size,
            extend,
            dst,
            base,
            offset,
        } => load(program, row, size, extend, dst, base, offset),
        Insn::Store {
            size,
            base,
            offset,
            src,
        } => store(program, row, size, base, offset, src),
        Insn::JumpIf {
            cond,
            width,
            left,
            right,
            ..
        } => compare(profile, cond, width, left, right, row),
        Insn::Call { .. } => call(program, callee, pairs, row),
        Insn::Wide { dst, value } => {
            set_kind(row, dst, one_number(profile, value));
            None
        }
        Insn::Exit => match kind_of(row, Register::R0) {
            Kind::Ptr { .. } => Some(KindRule::PointerAnswer),
            _ => None,
        },
        Insn::Jump { .. } | Insn::Tail => None,
    }
}

/// Goes over an instruction, with what it calls and the pairs that are known, in a row of kinds: to the kinds where it goes on to the next slot. What it
/// breaks, the lowest rule, is told.
pub fn advance(
    program: &Candidate,
    callee: &Called,
    pairs: Pairs,
    row: &mut [Kind],
    insn: Insn,
) -> Option<KindRule>
    requires long { 11 ≤ length row.old }
    requires short { length row.old ≤ 75 }
    requires kinds { AreKinds row.old }
    ensures rule { result ≡ first_of (rules_by (program_in program.now) (callee_from callee.now) pairs row.old insn) }
    ensures row { IfNone result (row.new ≡ row_after program.now.image.profile (callee_from callee.now) row.old insn) }
    ensures kinds { IfNone result (AreKinds row.new) }
{
    if reads_unset(callee, row, insn) {
        return Some(KindRule::UnsetRead);
    }
    if writes_frame(insn) {
        return Some(KindRule::FrameWritten);
    }
    class_step(program, callee, pairs, row, insn)
}
