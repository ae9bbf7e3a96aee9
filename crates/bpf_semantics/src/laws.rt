//! What the definitions of memory and of steps say, as laws.
ghost use Rattle.std.specs.Prelude.{◌≡◌, ◌≢◌, ℕ, ◌+◌, ◌-◌, ◌<◌, ◌≤◌, ◌↔◌, ◌⊎◌, List, length, None, slice_get};
ghost use Rattle.std.specs.Prelude.{◌%◌, ◌^◌, Some};
ghost use Rattle.bpf_alu.specs.Value.{bits};
ghost use Rattle.bpf_alu.specs.declared.Op.{Op};
ghost use Rattle.bpf_alu.specs.declared.Width.{Width};
ghost use Rattle.bpf_insn.specs.declared.Insn.{Insn};
ghost use Rattle.bpf_insn.specs.declared.Operand.{Operand};
ghost use Rattle.bpf_insn.specs.declared.Register.{Register};
ghost use Rattle.bpf_semantics.specs.State.{State, no_calls, Does, register, number_in, operand_in};
ghost use Rattle.bpf_semantics.specs.Step.{Step, Runs};
ghost use Rattle.bpf_semantics.specs.Windows.{Memory, IsPlaced, Covers, base, longest_window, read, written, byte_at};
ghost use Rattle.bpf_semantics.specs.declared.Region.{Region};

use crate::{MAX_WINDOW_BYTES, Region};
use bpf_alu::{Op, Width};
use bpf_insn::{Insn, Operand, Register};

/// The greatest window, as a number.
pub fn limits()
    ensures { MAX_WINDOW_BYTES ≡ longest_window }
{}

/// Memory is a partial map from addresses to bytes, defined on three intervals that lie apart. What `read` gives of a place are
/// the map's bytes there, and `written` changes the map there and nowhere else.
pub fn memory_is_a_map()
    ensures apart { (m : Memory) (r q : Region) (address n : ℕ) → IsPlaced m → 0 < n → Covers m r address n → Covers m q address n → r ≡ q }
    ensures defined { (m : Memory) (address : ℕ) → IsPlaced m → (byte_at m address ≢ None) ↔ ((r : Region) × Covers m r address 1) }
    ensures read { (m : Memory) (r : Region) (address n k : ℕ) → IsPlaced m → Covers m r address n → k < n → slice_get (read m r (address - base r) n) k ≡ byte_at m (address + k) }
    ensures read_length { (m : Memory) (r : Region) (address n : ℕ) → Covers m r address n → length (read m r (address - base r) n) ≡ n }
    ensures written { (m : Memory) (r : Region) (address k : ℕ) (new : List ℕ) → IsPlaced m → Covers m r address (length new) → k < length new → byte_at (written m r (address - base r) new) (address + k) ≡ slice_get new k }
    ensures kept { (m : Memory) (r : Region) (address other : ℕ) (new : List ℕ) → IsPlaced m → Covers m r address (length new) → (other < address) ⊎ (address + length new ≤ other) → byte_at (written m r (address - base r) new) other ≡ byte_at m other }
    ensures placed { (m : Memory) (r : Region) (address : ℕ) (new : List ℕ) → IsPlaced m → Covers m r address (length new) → IsPlaced (written m r (address - base r) new) }
{}

/// No step changes a byte of the input.
pub fn steps_keep_the_input()
    ensures step { (code : List Insn) (s t : State) → Step no_calls code s t → t.memory.input ≡ s.memory.input }
    ensures run { (code : List Insn) (n : ℕ) (s t : State) → Runs no_calls code n s t → t.memory.input ≡ s.memory.input }
{}

/// An operation of 32 bits leaves the high half of its destination zero (RFC 9669, section 4.1).
pub fn narrow_operations_clear_the_high_half()
    ensures { (op : Op) (dst : Register) (src : Operand) (s t : State) (n : ℕ) → Does no_calls (Insn.Alu op Width.W32 dst src) s t → register t dst ≡ Some n → n < 2 ^ 32 }
{}

/// Division by zero leaves zero in the destination, and modulo by zero leaves the destination, of which 32 bits leave the low
/// half (RFC 9669, section 4.1).
pub fn division_by_zero()
    ensures quotient { (w : Width) (dst : Register) (src : Operand) (s t : State) → length s.registers ≡ 11 → operand_in s src ≡ 0 → Does no_calls (Insn.Alu Op.Div w dst src) s t → register t dst ≡ Some 0 }
    ensures signed_quotient { (w : Width) (dst : Register) (src : Operand) (s t : State) → length s.registers ≡ 11 → operand_in s src ≡ 0 → Does no_calls (Insn.Alu Op.SignedDiv w dst src) s t → register t dst ≡ Some 0 }
    ensures remainder { (w : Width) (dst : Register) (src : Operand) (s t : State) → length s.registers ≡ 11 → operand_in s src ≡ 0 → Does no_calls (Insn.Alu Op.Mod w dst src) s t → register t dst ≡ Some (number_in s dst % 2 ^ bits w) }
    ensures signed_remainder { (w : Width) (dst : Register) (src : Operand) (s t : State) → length s.registers ≡ 11 → operand_in s src ≡ 0 → Does no_calls (Insn.Alu Op.SignedMod w dst src) s t → register t dst ≡ Some (number_in s dst % 2 ^ bits w) }
{}
