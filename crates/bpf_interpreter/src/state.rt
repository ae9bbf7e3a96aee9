//! The state of the machine that tests each step.

ghost use Rattle.std.specs.Prelude.{◌≡◌, ◌≢◌, ◌≤◌, ◌-◌, ◌^◌, ◌≤ℤ◌, ◌<ℤ◌, pos, negsuc, length, drop, replicate, None, Some, IfOk, IfErr, OnOk};
ghost use Rattle.bpf_semantics.specs.State.{register, operand_in, operand_reads, with_register, advanced, jumped, address, SomeUnset};
ghost use Rattle.bpf_semantics.specs.Step.{start};
ghost use Rattle.bpf_interpreter.specs.Stepped.{state_of, loan_of};

use bpf_insn::{Operand, Register};
use bpf_semantics::{Fault, Region, Windows};

/// A slot number, eleven registers, and the windows of memory.
#[derive(Drop)]
pub struct State<'a> {
    pub(crate) slot: i64,
    pub(crate) registers: [Option<u64>; 11],
    pub(crate) windows: Windows<'a>,
}

impl<'a> State<'a> {
    /// The state in which a program starts, on windows of which the stack and the output are zero, and the input is zero
    /// from the used length on.
    pub fn start(windows: Windows<'a>, used: u32) -> State<'a>
        requires used { used ≤ length windows.input.now }
        requires stack { windows.stack ≡ replicate 512 0 }
        requires output { windows.output.now ≡ replicate (length windows.output.now) 0 }
        requires input { drop used windows.input.now ≡ replicate (length windows.input.now - used) 0 }
        ensures state { state_of result ≡ start windows.entry.input.now used (length windows.entry.output.now) }
        ensures loan { loan_of result ≡ windows.entry.output.ghost_name }
    {
        let output_len = windows.output.len() as u64;
        let mut registers = [None; 11];
        registers[1] = Some(Region::Input.base());
        registers[2] = Some(u64::from(used));
        registers[3] = Some(Region::Output.base());
        registers[4] = Some(output_len);
        registers[10] = Some(1 << 40);
        State {
            slot: 0,
            registers,
            windows,
        }
    }

    /// What a register holds.
    pub(crate) fn get(&self, r: Register) -> Option<u64>
        ensures { result ≡ register (state_of self.now) r }
    {
        self.registers[r.number() as usize]
    }

    /// What a register that is read holds.
    pub(crate) fn read(&self, r: Register) -> Result<u64, Fault>
        ensures ok { IfOk result (λ n. register (state_of self.now) r ≡ Some n) }
        ensures err { IfErr result (λ f. (f ≡ Fault.Unset) × (register (state_of self.now) r ≡ None)) }
    {
        self.get(r).ok_or(Fault::Unset)
    }

    /// What an operand is.
    pub(crate) fn operand(&self, src: Operand) -> Result<u64, Fault>
        ensures ok { IfOk result (λ n. (n ≡ operand_in (state_of self.now) src) × ¬ SomeUnset (state_of self.now) (operand_reads src)) }
        ensures err { IfErr result (λ f. (f ≡ Fault.Unset) × SomeUnset (state_of self.now) (operand_reads src)) }
    {
        match src {
            Operand::Register(r) => self.read(r),
            Operand::Immediate(n) => Ok(i64::from(n).cast_unsigned()),
        }
    }

    /// Writes a register and goes on to the next slot.
    pub(crate) fn set(&mut self, dst: Register, n: u64) -> Result<(), Fault>
        requires { self.old.slot <ℤ pos (2 ^ 62) }
        ensures loan { loan_of self.new ≡ loan_of self.old }
        ensures ok { OnOk result ((dst ≢ Register.R10) × (state_of self.new ≡ advanced (with_register dst n (state_of self.old)))) }
        ensures err { IfErr result (λ f. (f ≡ Fault.ReadOnly) × (dst ≡ Register.R10) × (state_of self.new ≡ state_of self.old)) }
    {
        if dst == Register::R10 {
            return Err(Fault::ReadOnly);
        }
        self.registers[dst.number() as usize] = Some(n);
        self.slot += 1;
        Ok(())
    }

    /// The address that a register and an offset make.
    pub(crate) fn address(&self, base: Register, offset: i16) -> Result<u64, Fault>
        ensures ok { IfOk result (λ a. (a ≡ address (state_of self.now) base offset) × (register (state_of self.now) base ≢ None)) }
        ensures err { IfErr result (λ f. (f ≡ Fault.Unset) × (register (state_of self.now) base ≡ None)) }
    {
        let start = self.read(base)?;
        Ok(start.wrapping_add(i64::from(offset).cast_unsigned()))
    }

    /// Goes on some slots after the next.
    pub(crate) fn go(&mut self, slots: i64)
        requires low { pos 0 ≤ℤ self.old.slot }
        requires high { self.old.slot <ℤ pos (2 ^ 62) }
        requires back { negsuc (2 ^ 31) ≤ℤ slots }
        requires ahead { slots <ℤ pos (2 ^ 31) }
        ensures loan { loan_of self.new ≡ loan_of self.old }
        ensures gone { state_of self.new ≡ jumped slots (state_of self.old) }
    {
        self.slot = self.slot + 1 + slots;
    }

    /// Goes on to the next slot.
    pub(crate) fn advance(&mut self)
        requires { self.old.slot <ℤ pos (2 ^ 62) }
        ensures loan { loan_of self.new ≡ loan_of self.old }
        ensures gone { state_of self.new ≡ advanced (state_of self.old) }
    {
        self.slot += 1;
    }
}
