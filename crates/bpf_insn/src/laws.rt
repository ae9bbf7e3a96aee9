//! What the definitions of spellings and of code say, as laws.
ghost use Rattle.std.specs.Prelude.{◌≡◌, ◌≢◌, ℕ, ◌+◌, List, ◌++◌, Option, Some, slice_get};
ghost use Rattle.bpf_insn.specs.Encoding.{IsInstruction, IsCode, slot_of, slot_bytes, spelling};
ghost use Rattle.bpf_insn.specs.Refusal.{Breaks};
ghost use Rattle.bpf_insn.specs.declared.Insn.{Insn};
ghost use Rattle.bpf_insn.specs.declared.Register.{Register};
ghost use Rattle.bpf_insn.specs.declared.decode.Refusal.{Refusal};

use crate::{Insn, Refusal, Register};

/// The first slot of an instruction breaks no rule, whatever follows the instruction's bytes. So where whole instructions stand
/// before a slot that breaks a rule, it is the lowest slot that does.
pub fn instructions_break_no_rule()
    ensures { (i : Insn) (rest after : List ℕ) (why : Refusal) → IsInstruction i → spelling i ≡ slot_bytes (slot_of i) ++ rest → ¬ Breaks why (slot_of i) (rest ++ after) }
{}

/// In code a wide instruction is followed by its tail, each tail has one before it, and every other slot is an instruction.
pub fn code_is_paired()
    ensures after_wide { (code : List Insn) (k n : ℕ) (dst : Register) → IsCode code → slice_get code k ≡ Some (Insn.Wide dst n) → slice_get code (k + 1) ≡ Some Insn.Tail }
    ensures before_tail { (code : List Insn) (k : ℕ) → IsCode code → slice_get code (k + 1) ≡ Some Insn.Tail → (dst : Register) × (n : ℕ) × (slice_get code k ≡ Some (Insn.Wide dst n)) }
    ensures no_tail_first { (code : List Insn) → IsCode code → slice_get code 0 ≢ Some Insn.Tail }
    ensures instructions { (code : List Insn) (k : ℕ) (i : Insn) → IsCode code → slice_get code k ≡ Some i → i ≢ Insn.Tail → IsInstruction i }
{}
