//! One step of the machine: what each instruction does, with each register, address and slot tested.

ghost use Rattle.std.specs.Prelude.{◌≡◌, ◌≢◌, ◌^◌, ◌≤ℤ◌, ◌<ℤ◌, ℕ, pos, IfSome, IfOk, IfErr};
ghost use Rattle.bpf_alu.specs.Value.{value};
ghost use Rattle.bpf_semantics.specs.State.{no_calls, number_in, SomeUnset, operand_reads, reads, Does};
ghost use Rattle.bpf_semantics.specs.Step.{instruction_at};
ghost use Rattle.bpf_helpers.specs.Calls.{calls_of};
ghost use Rattle.bpf_interpreter.specs.Stepped.{state_of, loan_of, IsNoCall, Applied, Stepped};

use crate::parts::extend_number;
use crate::state::State;
use bpf_alu::{Cond, Op, SwapBits, SwapKind, Width, eval, holds, swap};
use bpf_helpers::Table;
use bpf_insn::{Distance, Extend, Insn, Operand, Register, Size};
use bpf_semantics::{Fault, Region};

/// What a step leads to.
#[derive(Clone, Copy, PartialEq, Eq)]
pub enum Next {
    Running,
    Exit(u64),
}

impl<'a> State<'a> {
    /// What an operation reads of its destination.
    fn destination(&self, op: Op, dst: Register) -> Result<u64, Fault>
        ensures value { IfOk result (λ a. (w : Width) (b : ℕ) → value op w a b ≡ value op w (number_in (state_of self.now) dst) b) }
        ensures unset { IfOk result (λ _. (w : Width) (src : Operand) → SomeUnset (state_of self.now) (reads no_calls (Insn.Alu op w dst src)) → SomeUnset (state_of self.now) (operand_reads src)) }
        ensures err { IfErr result (λ f. (f ≡ Fault.Unset) × ((w : Width) (src : Operand) → SomeUnset (state_of self.now) (reads no_calls (Insn.Alu op w dst src)))) }
    {
        match op {
            Op::Mov | Op::Movsx8 | Op::Movsx16 | Op::Movsx32 => Ok(0),
            _ => self.read(dst),
        }
    }

    /// An operation.
    fn arithmetic(&mut self, op: Op, width: Width, dst: Register, src: Operand) -> Result<(), Fault>
        requires { self.old.slot <ℤ pos (2 ^ 62) }
        ensures loan { loan_of self.new ≡ loan_of self.old }
        ensures applied { Applied no_calls (Insn.Alu op width dst src) (state_of self.old) (state_of self.new) result }
    {
        let a = self.destination(op, dst)?;
        let b = self.operand(src)?;
        self.set(dst, eval(op, width, a, b))
    }

    /// A byte swap.
    fn swap_bytes(&mut self, kind: SwapKind, bits: SwapBits, dst: Register) -> Result<(), Fault>
        requires { self.old.slot <ℤ pos (2 ^ 62) }
        ensures loan { loan_of self.new ≡ loan_of self.old }
        ensures applied { Applied no_calls (Insn.Swap kind bits dst) (state_of self.old) (state_of self.new) result }
    {
        let a = self.read(dst)?;
        self.set(dst, swap(kind, bits, a))
    }

    /// A load.
    fn load(
        &mut self,
        size: Size,
        extend: Extend,
        dst: Register,
        base: Register,
        offset: i16,
    ) -> Result<(), Fault>
        requires { self.old.slot <ℤ pos (2 ^ 62) }
        ensures loan { loan_of self.new ≡ loan_of self.old }
        ensures applied { Applied no_calls (Insn.Load size extend dst base offset) (state_of self.old) (state_of self.new) result }
    {
        let address = self.address(base, offset)?;
        let Some((region, at)) = self.windows.locate(address, size.bytes()) else {
            return Err(Fault::Address);
        };
        let number = self.windows.load(region, at, size);
        self.set(dst, extend_number(extend, size, number))
    }

    /// A store.
    fn store(&mut self, size: Size, base: Register, offset: i16, src: Operand) -> Result<(), Fault>
        requires { self.old.slot <ℤ pos (2 ^ 62) }
        ensures loan { loan_of self.new ≡ loan_of self.old }
        ensures applied { Applied no_calls (Insn.Store size base offset src) (state_of self.old) (state_of self.new) result }
    {
        let address = self.address(base, offset)?;
        let value = self.operand(src)?;
        let Some((region, at)) = self.windows.locate(address, size.bytes()) else {
            return Err(Fault::Address);
        };
        if region == Region::Input {
            return Err(Fault::Input);
        }
        self.windows.store(region, at, size, value);
        self.advance();
        Ok(())
    }

    /// A jump.
    fn jump(&mut self, distance: Distance)
        requires low { pos 0 ≤ℤ self.old.slot }
        requires high { self.old.slot <ℤ pos (2 ^ 62) }
        ensures loan { loan_of self.new ≡ loan_of self.old }
        ensures done { Does no_calls (Insn.Jump distance) (state_of self.old) (state_of self.new) }
    {
        let slots = match distance {
            Distance::Near(slots) => i64::from(slots),
            Distance::Far(slots) => i64::from(slots),
        };
        self.go(slots);
    }

    /// A jump on a condition.
    fn jump_if(
        &mut self,
        cond: Cond,
        width: Width,
        left: Register,
        right: Operand,
        offset: i16,
    ) -> Result<(), Fault>
        requires low { pos 0 ≤ℤ self.old.slot }
        requires high { self.old.slot <ℤ pos (2 ^ 62) }
        ensures loan { loan_of self.new ≡ loan_of self.old }
        ensures applied { Applied no_calls (Insn.JumpIf cond width left right offset) (state_of self.old) (state_of self.new) result }
    {
        let a = self.read(left)?;
        let b = self.operand(right)?;
        if holds(cond, width, a, b) {
            self.go(i64::from(offset));
        } else {
            self.advance();
        }
        Ok(())
    }

    /// A wide instruction.
    fn wide(&mut self, dst: Register, value: u64) -> Result<(), Fault>
        requires { self.old.slot <ℤ pos (2 ^ 62) }
        ensures loan { loan_of self.new ≡ loan_of self.old }
        ensures applied { Applied no_calls (Insn.Wide dst value) (state_of self.old) (state_of self.new) result }
    {
        self.set(dst, value)?;
        self.slot += 1;
        Ok(())
    }

    /// What an instruction that is neither a call nor an exit does.
    fn apply(&mut self, insn: Insn) -> Result<(), Fault>
        requires low { pos 0 ≤ℤ self.old.slot }
        requires high { self.old.slot <ℤ pos (2 ^ 62) }
        requires no_call { IsNoCall insn }
        requires no_exit { insn ≢ Insn.Exit }
        requires no_tail { insn ≢ Insn.Tail }
        ensures loan { loan_of self.new ≡ loan_of self.old }
        ensures applied { Applied no_calls insn (state_of self.old) (state_of self.new) result }
    {
        match insn {
            Insn::Alu {
                op,
                width,
                dst,
                src,
            } => self.arithmetic(op, width, dst, src),
            Insn::Swap { kind, bits, dst } => self.swap_bytes(kind, bits, dst),
            Insn::Load {
                size,
                extend,
                dst,
                base,
                offset,
            } => self.load(size, extend, dst, base, offset),
            Insn::Store {
                size,
                base,
                offset,
                src,
            } => self.store(size, base, offset, src),
            Insn::Jump { distance } => {
                self.jump(distance);
                Ok(())
            }
            Insn::JumpIf {
                cond,
                width,
                left,
                right,
                offset,
            } => self.jump_if(cond, width, left, right, offset),
            Insn::Wide { dst, value } => self.wide(dst, value),
            Insn::Call { .. } | Insn::Exit | Insn::Tail => unreachable!(),
        }
    }

    /// What an instruction that is no exit does.
    fn act(&mut self, insn: Insn, table: &Table) -> Result<(), Fault>
        requires low { pos 0 ≤ℤ self.old.slot }
        requires high { self.old.slot <ℤ pos (2 ^ 62) }
        requires no_exit { insn ≢ Insn.Exit }
        requires no_tail { insn ≢ Insn.Tail }
        ensures loan { loan_of self.new ≡ loan_of self.old }
        ensures applied { Applied (calls_of table.now.listed) insn (state_of self.old) (state_of self.new) result }
    {
        match insn {
            Insn::Call { helper } => self.call(helper, table),
            _ => self.apply(insn),
        }
    }
}

/// One step of the code from a state, where calls are those of a table.
pub fn step(state: &mut State, code: &[Insn], table: &Table) -> Result<Next, Fault>
    ensures stepped { Stepped (calls_of table.now.listed) code.now (state_of state.old) (state_of state.new) result }
    ensures input { (state_of state.new).memory.input ≡ (state_of state.old).memory.input }
    ensures loan { loan_of state.new ≡ loan_of state.old }
{
    let Some(insn) = fetch(code, state.slot) else {
        return Err(Fault::Slot);
    };
    if matches!(insn, Insn::Exit) {
        return Ok(Next::Exit(state.read(Register::R0)?));
    }
    state.act(insn, table)?;
    Ok(Next::Running)
}

/// The instruction that starts at a slot.
fn fetch(code: &[Insn], slot: i64) -> Option<Insn>
    ensures value { result ≡ instruction_at code.now slot }
    ensures low { IfSome result (λ _. pos 0 ≤ℤ slot) }
    ensures high { IfSome result (λ _. slot <ℤ pos (2 ^ 62)) }
    ensures starts { IfSome result (λ insn. insn ≢ Insn.Tail) }
{
    if slot < 0 {
        return None;
    }
    match code.get(slot as usize) {
        None | Some(Insn::Tail) => None,
        Some(insn) => Some(*insn),
    }
}
