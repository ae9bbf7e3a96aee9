//! The rules on the form of code.

ghost use Rattle.std.specs.Prelude.{◌≡◌, ◌≢◌, ◌+◌, ◌<◌, ◌≤◌, ◌⊎◌, ◌↔◌, ◌==◌, ◌^◌, ◌∷◌, ℕ, ℤ, pos, negsuc, ◌≤ℤ◌, ◌<ℤ◌, List, length, slice_get, slice_index_or, slice_set, true, false, IfSome, IfNone, Some, None, IsTrue, IsFalse};
ghost use Rattle.bpf_image.specs.Form.{target_of, next_of, slot_at, GoesTo, IsPath, landing, BreaksRule, IsKept, IsFormed, IsFirstBroken, IsWalked, rank};

use bpf_insn::{Distance, Insn};

/// A rule on the form of code.
#[derive(Clone, Copy, PartialEq, Eq)]
pub enum FormRule {
    /// V10: a jump's target is below the first slot or past the last.
    TargetOutside,
    /// V11: a jump's target is the second slot of a wide instruction.
    TargetTail,
    /// V12: a jump's target is not above its own slot.
    TargetBack,
    /// V13: the slot after an instruction that goes on is past the last.
    RunsPast,
    /// V14: no path leads to the slot.
    Unreachable,
}

impl FormRule {
    ghost use Rattle.std.specs.Prelude.{◌≡◌, ◌+◌};
    ghost use Rattle.bpf_image.specs.Form.{rank};

    /// The rule's number, 10 to 14.
    pub fn number(self) -> u8
        ensures { result ≡ 10 + rank self }
    {
        match self {
            FormRule::TargetOutside => 10,
            FormRule::TargetTail => 11,
            FormRule::TargetBack => 12,
            FormRule::RunsPast => 13,
            FormRule::Unreachable => 14,
        }
    }
}

/// The first rule that code breaks, and the slot that breaks it.
#[derive(Clone, Copy, PartialEq, Eq)]
pub struct FormFault {
    pub rule: FormRule,
    pub slot: u32,
}

/// How many slots code may have.
const SLOTS: usize = 4096;

/// The slot that a jump names.
pub fn target_of(at: usize, insn: Insn) -> Option<i64>
    requires { at < 4096 }
    ensures { result ≡ target_of at insn }
{
    match insn {
        Insn::Jump {
            distance: Distance::Near(slots),
        } => Some(landing(at, i64::from(slots))),
        Insn::Jump {
            distance: Distance::Far(slots),
        } => Some(landing(at, i64::from(slots))),
        Insn::JumpIf { offset, .. } => Some(landing(at, i64::from(offset))),
        _ => None,
    }
}

/// Where a jump goes.
fn landing(at: usize, distance: i64) -> i64
    requires small { at < 4096 }
    requires back { negsuc (2 ^ 31) ≤ℤ distance }
    requires ahead { distance <ℤ pos (2 ^ 31) }
    ensures { result ≡ landing at distance }
{
    at as i64 + 1 + distance
}

/// The next slot, where the instruction can go on to it.
pub fn next_of(at: usize, insn: Insn) -> Option<usize>
    requires { at < 4096 }
    ensures { result ≡ next_of at insn }
{
    match insn {
        Insn::Jump { .. } | Insn::Exit | Insn::Tail => None,
        Insn::Wide { .. } => Some(at + 2),
        _ => Some(at + 1),
    }
}

/// What stands at a place, if it is a slot of the code.
fn slot_at(code: &[Insn], place: i64) -> Option<Insn>
    ensures { result ≡ slot_at code.now place }
{
    if place < 0 {
        return None;
    }
    code.get(place as usize).copied()
}

/// The first rule that a jump breaks.
fn jump_rule(code: &[Insn], at: usize, insn: Insn) -> Option<FormRule>
    requires { at < 4096 }
    ensures broken { IfSome result (λ rule. BreaksRule rule code.now at insn × IsKept code.now at insn (rank rule)) }
    ensures unbroken { IfNone result (IsKept code.now at insn 3) }
{
    let target = target_of(at, insn)?;
    match slot_at(code, target) {
        None => Some(FormRule::TargetOutside),
        Some(Insn::Tail) => Some(FormRule::TargetTail),
        Some(_) if target <= at as i64 => Some(FormRule::TargetBack),
        Some(_) => None,
    }
}

/// Whether the code ends before the slot after an instruction that goes on.
fn runs_past(code: &[Insn], at: usize, insn: Insn) -> bool
    requires { at < 4096 }
    ensures { IsTrue result ↔ BreaksRule FormRule.RunsPast code.now at insn }
{
    match next_of(at, insn) {
        Some(next) => code.len() <= next,
        None => false,
    }
}

/// The first rule that the instruction at a slot breaks.
fn slot_rule(code: &[Insn], at: usize, insn: Insn, is_reached: bool) -> Option<FormRule>
    requires small { at < 4096 }
    requires reached { insn ≢ Insn.Tail → (IsTrue is_reached ↔ ¬ ((path : List ℕ) → ¬ IsPath code.now (at ∷ path))) }
    ensures broken { IfSome result (λ rule. BreaksRule rule code.now at insn × IsKept code.now at insn (rank rule)) }
    ensures unbroken { IfNone result (IsKept code.now at insn 5) }
{
    if let Some(rule) = jump_rule(code, at, insn) {
        return Some(rule);
    }
    if runs_past(code, at, insn) {
        return Some(FormRule::RunsPast);
    }
    if matches!(insn, Insn::Tail) || is_reached {
        None
    } else {
        Some(FormRule::Unreachable)
    }
}

/// Marks the slots to which an instruction can go.
fn mark(reached: &mut [bool], at: usize, insn: Insn)
    requires small { at < 4096 }
    requires next { (j : ℕ) → next_of at insn ≡ Some j → j < length reached.old }
    requires target { (z : ℤ) → target_of at insn ≡ Some z → (j : ℕ) × (z ≡ pos j) × (j < length reached.old) }
    ensures kept { (k : ℕ) → slice_index_or reached.old k false ≡ true → slice_index_or reached.new k false ≡ true }
    ensures marked { (k : ℕ) → GoesTo at insn k → slice_index_or reached.new k false ≡ true }
    ensures only { (k : ℕ) → slice_index_or reached.new k false ≡ true → (slice_index_or reached.old k false ≡ true) ⊎ GoesTo at insn k }
{
    if let Some(next) = next_of(at, insn) {
        reached[next] = true;
    }
    if let Some(target) = target_of(at, insn) {
        reached[target as usize] = true;
    }
}

/// Tests a slot below which no rule is broken, and marks the slots to which it can go.
fn visit(code: &[Insn], at: usize, insn: Insn, reached: &mut [bool]) -> Option<FormRule>
    requires here { slice_get code.now at ≡ Some insn }
    requires few { length code.now ≤ 4096 }
    requires room { length code.now ≤ length reached.old }
    requires walked { IsWalked code.now at reached.old }
    ensures broken { IfSome result (λ rule. BreaksRule rule code.now at insn × IsKept code.now at insn (rank rule)) }
    ensures walked { IfNone result (IsWalked code.now (at + 1) reached.new) }
{
    if let Some(rule) = slot_rule(code, at, insn, reached[at]) {
        return Some(rule);
    }
    mark(reached, at, insn);
    None
}

/// The same as `form_fault`, with room to mark the slots to which lower slots can go.
fn walk(code: &[Insn], reached: &mut [bool]) -> Option<FormFault>
    requires few { length code.now ≤ 4096 }
    requires room { length code.now ≤ length reached.old }
    requires some { 1 ≤ length reached.old }
    requires clear { (k : ℕ) → slice_index_or reached.old k false ≡ false }
    ensures broken { IfSome result (λ fault. IsFirstBroken code.now fault.slot fault.rule) }
    ensures formed { IfNone result (IsFormed code.now) }
{
    reached[0] = true;
    for at in 0..code.len() {
        if let Some(rule) = visit(code, at, code[at], reached) {
            return Some(FormFault {
                rule,
                slot: at as u32,
            });
        }
    }
    None
}

/// The first rule of form that code breaks: the lowest slot's, and of these the lowest. It takes no memory.
pub fn form_fault(code: &[Insn]) -> Option<FormFault>
    requires { length code.now ≤ 4096 }
    ensures broken { IfSome result (λ fault. IsFirstBroken code.now fault.slot fault.rule) }
    ensures formed { IfNone result (IsFormed code.now) }
{
    let mut reached = [false; SLOTS];
    walk(code, &mut reached)
}
