//! The calls of the step machine, which tests each argument.

ghost use Rattle.std.specs.Prelude.{◌≡◌, ◌≢◌, ◌-◌, ◌^◌, ℕ, ◌<ℤ◌, List, [], ◌∷◌, map, pos, IsTrue, ◌↔◌, IfOk, IfErr, Some};
ghost use Rattle.bpf_semantics.specs.Contents.{memory_of};
ghost use Rattle.bpf_semantics.specs.State.{number_in, SomeUnset};
ghost use Rattle.bpf_semantics.specs.Windows.{base};
ghost use Rattle.bpf_semantics.specs.declared.Region.{Region};
ghost use Rattle.bpf_insn.specs.declared.Register.{Register};
ghost use Rattle.bpf_insn.specs.declared.Insn.{Insn};
ghost use Rattle.bpf_helpers.specs.Answers.{Given};
ghost use Rattle.bpf_helpers.specs.Parts.{given};
ghost use Rattle.bpf_helpers.specs.Calls.{Callee, Gives, Spans, argument_registers, callee_of, calls_of, used_of};
ghost use Rattle.bpf_interpreter.specs.Called.{Called, Lends, answered};
ghost use Rattle.bpf_interpreter.specs.Stepped.{state_of, loan_of, Applied};

use crate::parts::{first_place, numbers, part, second_place};
use crate::state::State;
use bpf_helpers::{ARGUMENT_REGISTERS, ArgRule, Call, Table, fits};
use bpf_insn::Register;
use bpf_semantics::{Fault, MAX_WINDOW_BYTES, Region};

impl<'a> State<'a> {
    /// The number in a register, 0 where it is unset.
    fn number(&self, register: Register) -> u64
        ensures { result ≡ number_in (state_of self.now) register }
    {
        self.get(register).unwrap_or(0)
    }

    /// R1, R2 and R3, which copy, fill and same read.
    fn first_three(&self) -> Result<(u64, u64, u64), Fault>
        ensures first { IfOk result (λ n. n.0 ≡ number_in (state_of self.now) Register.R1) }
        ensures second { IfOk result (λ n. n.1 ≡ number_in (state_of self.now) Register.R2) }
        ensures third { IfOk result (λ n. n.2 ≡ number_in (state_of self.now) Register.R3) }
        ensures set { IfOk result (λ _. ¬ SomeUnset (state_of self.now) (Register.R1 ∷ Register.R2 ∷ Register.R3 ∷ [])) }
        ensures err { IfErr result (λ f. (f ≡ Fault.Unset) × SomeUnset (state_of self.now) (Register.R1 ∷ Register.R2 ∷ Register.R3 ∷ [])) }
    {
        let first = self.read(Register::R1)?;
        let second = self.read(Register::R2)?;
        let third = self.read(Register::R3)?;
        Ok((first, second, third))
    }

    /// The window that has a range of bytes, and the place there. Refused where no window has it, or it is longer than 65,536.
    fn range(&self, address: u64, n: u64) -> Result<(Region, usize), Fault>
        ensures ok { IfOk result (λ place. Spans (memory_of self.now.windows) place.0 address n × (place.1 ≡ address - base place.0)) }
        ensures err { IfErr result (λ f. (f ≡ Fault.Helper) × ((region : Region) → ¬ Spans (memory_of self.now.windows) region address n)) }
    {
        if n > u64::from(MAX_WINDOW_BYTES) {
            return Err(Fault::Helper);
        }
        self.windows
            .locate(address, n as usize)
            .ok_or(Fault::Helper)
    }

    /// The same of a range that is written: the input is refused too.
    fn target(&self, address: u64, n: u64) -> Result<(Region, usize), Fault>
        ensures ok { IfOk result (λ place. Spans (memory_of self.now.windows) place.0 address n × (place.1 ≡ address - base place.0)) }
        ensures writable { IfOk result (λ place. place.0 ≢ Region.Input) }
        ensures err { IfErr result (λ f. (f ≡ Fault.Helper) × ((region : Region) → Spans (memory_of self.now.windows) region address n → region ≡ Region.Input)) }
    {
        let (region, at) = self.range(address, n)?;
        if region == Region::Input {
            return Err(Fault::Helper);
        }
        Ok((region, at))
    }

    /// Copies to R1 from R2 as many bytes as R3 says.
    fn copy(&mut self) -> Result<u64, Fault>
        ensures loan { loan_of self.new ≡ loan_of self.old }
        ensures slot { self.new.slot ≡ self.old.slot }
        ensures called { Called 1 Callee.Copy (state_of self.old) (state_of self.new) result }
    {
        let (to, from, n) = self.first_three()?;
        let (to, to_at) = self.target(to, n)?;
        let (from, from_at) = self.range(from, n)?;
        self.windows.copy(to, to_at, from, from_at, n as usize);
        Ok(0)
    }

    /// Writes the low byte of R2 from R1 on, as many times as R3 says.
    fn fill(&mut self) -> Result<u64, Fault>
        ensures loan { loan_of self.new ≡ loan_of self.old }
        ensures slot { self.new.slot ≡ self.old.slot }
        ensures called { Called 2 Callee.Fill (state_of self.old) (state_of self.new) result }
    {
        let (to, byte, n) = self.first_three()?;
        let (to, at) = self.target(to, n)?;
        self.windows.fill(to, at, n as usize, (byte % 256) as u8);
        Ok(0)
    }

    /// Compares the bytes at R1 and at R2, as many as R3 says: 1 where they are equal, else 0.
    fn same(&self) -> Result<u64, Fault>
        ensures called { Called 3 Callee.Same (state_of self.now) (state_of self.now) result }
    {
        let (left, right, n) = self.first_three()?;
        let (left, left_at) = self.range(left, n)?;
        let (right, right_at) = self.range(right, n)?;
        let same = self
            .windows
            .same(left, left_at, right, right_at, n as usize);
        Ok(u64::from(same))
    }

    /// Whether an argument that is read is unset.
    fn lacks(&self, rules: &[ArgRule], registers: &[Register]) -> bool
        ensures { IsTrue result ↔ SomeUnset (state_of self.now) (used_of rules.now registers.now) }
    {
        match rules {
            [] => false,
            [ArgRule::Unused, rules @ ..] => match registers {
                [] => false,
                [_, registers @ ..] => self.lacks(rules, registers),
            },
            [_, rules @ ..] => match registers {
                [] => false,
                [register, registers @ ..] => self.get(*register).is_none()
                    || self.lacks(rules, registers),
            },
        }
    }

    /// The bytes of a Read, none where there is no Read. Refused where no window has them.
    fn lend(&self, place: Option<(u64, u64)>) -> Result<&[u8], Fault>
        ensures ok { IfOk result (λ bytes. Lends (memory_of self.now.windows) place bytes.now) }
        ensures err { IfErr result (λ f. (f ≡ Fault.Helper) × ((bytes : List ℕ) → ¬ Lends (memory_of self.now.windows) place bytes)) }
    {
        let Some((address, n)) = place else {
            return Ok(&[]);
        };
        let Some((region, at)) = self.windows.locate(address, n as usize) else {
            return Err(Fault::Helper);
        };
        Ok(part(&self.windows, region, at, n as usize))
    }

    /// What a call gives to a helper with these rules. Refused where the bytes of a Read lie in no window.
    fn give(&self, rules: &[ArgRule; 5]) -> Result<Call, Fault>
        ensures ok { IfOk result (λ call. Gives (state_of self.now) rules.now (given call)) }
        ensures err { IfErr result (λ f. (f ≡ Fault.Helper) × ((g : Given) → ¬ Gives (state_of self.now) rules.now g)) }
    {
        let values = self.arguments();
        let first = self.lend(first_place(rules, &values))?;
        let second = self.lend(second_place(rules, &values))?;
        Ok(Call {
            numbers: numbers(rules, &values),
            first,
            second,
        })
    }

    /// Calls a helper of the table.
    fn help(&self, number: u32, table: &Table) -> Result<u64, Fault>
        requires copy { number ≢ 1 }
        requires fill { number ≢ 2 }
        requires same { number ≢ 3 }
        ensures called { Called number (callee_of table.now.listed number) (state_of self.now) (state_of self.now) result }
    {
        let Some(helper) = table.helper(number) else {
            return Err(Fault::Helper);
        };
        if self.lacks(&helper.sig.args, &ARGUMENT_REGISTERS) {
            return Err(Fault::Unset);
        }
        let call = self.give(&helper.sig.args)?;
        if !fits(&helper.sig, &call) {
            return Err(Fault::Helper);
        }
        Ok(helper.call(&call))
    }

    /// The numbers in R1 to R5.
    fn arguments(&self) -> [u64; 5]
        ensures { result ≡ map (number_in (state_of self.now)) argument_registers }
    {
        ARGUMENT_REGISTERS.map(|register| self.number(register))
    }

    /// Calls copy, fill, same or a helper of the table.
    fn answer(&mut self, number: u32, table: &Table) -> Result<u64, Fault>
        ensures loan { loan_of self.new ≡ loan_of self.old }
        ensures slot { self.new.slot ≡ self.old.slot }
        ensures called { Called number (callee_of table.now.listed number) (state_of self.old) (state_of self.new) result }
    {
        match number {
            1 => self.copy(),
            2 => self.fill(),
            3 => self.same(),
            _ => self.help(number, table),
        }
    }

    /// Puts an answer into R0, and leaves R1 to R5 unset.
    fn put_answer(&mut self, answer: u64)
        ensures loan { loan_of self.new ≡ loan_of self.old }
        ensures slot { self.new.slot ≡ self.old.slot }
        ensures answered { state_of self.new ≡ answered answer (state_of self.old) }
    {
        let [.., r6, r7, r8, r9, r10] = self.registers;
        self.registers = [
            Some(answer),
            None,
            None,
            None,
            None,
            None,
            r6,
            r7,
            r8,
            r9,
            r10,
        ];
    }

    /// A call.
    pub(crate) fn call(&mut self, number: u32, table: &Table) -> Result<(), Fault>
        requires { self.old.slot <ℤ pos (2 ^ 62) }
        ensures loan { loan_of self.new ≡ loan_of self.old }
        ensures applied { Applied (calls_of table.now.listed) (Insn.Call number) (state_of self.old) (state_of self.new) result }
    {
        let answer = self.answer(number, table)?;
        self.put_answer(answer);
        self.advance();
        Ok(())
    }
}
