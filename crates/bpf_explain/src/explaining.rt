//! Explaining programs.

ghost use Rattle.std.specs.Prelude.{◌≡◌, ◌<◌, List, IfOk, IfErr, length};
ghost use Rattle.bpf_helpers.specs.declared.sig.Entry.{Entry};
ghost use Rattle.bpf_verifier.specs.Program.{program_of};
ghost use Rattle.bpf_image.specs.Form.{IsFormed, IsFirstBroken};
ghost use Rattle.bpf_verifier.specs.Candidates.{program_in};
ghost use Rattle.bpf_verifier.specs.Table.{IsAccepted, table};
ghost use Rattle.bpf_verifier.specs.Rows.{row_at};
ghost use Rattle.bpf_verifier.specs.Verdict.{IsRefused};
ghost use Rattle.bpf_explain.specs.Answered.{answers_before};
ghost use Rattle.bpf_explain.specs.Explained.{facts_in, facts_of, together_in, IsVerdict, IsExplained, IsUnexplained};

use crate::answers::answers_of;
use crate::explanation::Explanation;
use crate::fact::Fact;
use crate::looks::{Look, facts_of, together_of};
use crate::together::Together;
use bpf_admission::Refusal;
use bpf_helpers::Sigs;
use bpf_image::{FormFault, Image, form_fault, read_program};
use bpf_insn::Insn;
use bpf_verifier::{
    Candidate, KindRule, Refused, Rule, callee_in, judge, pairs_before, row_before,
};
use std::alloc::Global;

/// An accepted program, explained.
fn accepted(alloc: Global, program: &Candidate) -> Result<Explanation, Refusal>
    requires { IsAccepted (program_in program.now) }
    ensures explained { IfOk result (IsVerdict (program_in program.now)) }
    ensures no_memory { IfErr result (λ refusal. refusal ≡ Refusal.NoMemory) }
{
    let slots = program.image.code.len() as u32;
    let answers = answers_of(alloc, program)?;
    Ok(Explanation::Accepted { slots, answers })
}

/// A rule of form that is broken, explained.
fn malformed(alloc: Global, image: &Image, fault: FormFault) -> Explanation
    requires { IsFirstBroken image.now.code.items fault.slot fault.rule }
    ensures { (sigs : List Entry) → IsVerdict (program_of image.now sigs) result }
{
    Explanation::Broken {
        refused: Refused {
            rule: Rule::Form(fault.rule),
            slot: fault.slot,
        },
        insn: image.code[fault.slot as usize],
        facts: Vec::new(alloc),
        together: Vec::new(alloc),
    }
}

/// What is known, at a slot, of the registers and cells that a rule looks at, and of two such registers together.
fn known_at(
    alloc: Global,
    program: &Candidate,
    rule: KindRule,
    slot: usize,
    insn: Insn,
) -> Result<(Vec<Fact>, Vec<Together>), Refusal>
    requires formed { IsFormed program.now.image.code.items }
    requires within { slot < length program.now.image.code.items }
    ensures facts { IfOk result (λ known. known.0.items ≡ facts_in (program_in program.now) rule insn (row_at (table (program_in program.now)) slot)) }
    ensures together { IfOk result (λ known. known.1.items ≡ together_in (program_in program.now) rule slot insn (row_at (table (program_in program.now)) slot)) }
    ensures no_memory { IfErr result (λ refusal. refusal ≡ Refusal.NoMemory) }
{
    let mut facts = Vec::new(alloc);
    let mut together = Vec::new(alloc);
    let Ok(known) = row_before(alloc, program, slot) else {
        return Err(Refusal::NoMemory);
    };
    let Ok(pairs) = pairs_before(alloc, program, slot) else {
        return Err(Refusal::NoMemory);
    };
    let Some(row) = known else {
        return Ok((facts, together));
    };
    let callee = callee_in(&program.sigs, insn);
    let look = Look {
        rule,
        callee: &callee,
        row: &row,
        insn,
    };
    if facts_of(look, &mut facts).is_err() || together_of(look, pairs, &mut together).is_err() {
        return Err(Refusal::NoMemory);
    }
    Ok((facts, together))
}

/// A program that breaks a rule over kinds, explained.
fn broken(alloc: Global, program: &Candidate, refused: Refused) -> Result<Explanation, Refusal>
    requires formed { IsFormed program.now.image.code.items }
    requires refused { IsRefused (program_in program.now) refused.rule refused.slot }
    ensures explained { IfOk result (IsVerdict (program_in program.now)) }
    ensures no_memory { IfErr result (λ refusal. refusal ≡ Refusal.NoMemory) }
{
    let Rule::Kinds(rule) = refused.rule else {
        return Err(Refusal::NoMemory);
    };
    let slot = refused.slot as usize;
    let insn = program.image.code[slot];
    let (facts, together) = known_at(alloc, program, rule, slot, insn)?;
    Ok(Explanation::Broken {
        refused,
        insn,
        facts,
        together,
    })
}

/// What the verifier says of the program that bytes are, which may call helpers with these Sigs, and what it looked at: as
/// [`bpf_admission::admit_program`] judges them. A refusal where the bytes are no program, or memory runs out.
pub fn explain(alloc: Global, bytes: &[u8], sigs: &Sigs) -> Result<Explanation, Refusal>
    ensures explained { IfOk result (IsExplained bytes.now sigs.now) }
    ensures unexplained { IfErr result (IsUnexplained bytes.now) }
{
    let image = read_program(alloc, bytes)?;
    if let Some(fault) = form_fault(&image.code) {
        return Ok(malformed(alloc, &image, fault));
    }
    let Ok(sigs) = sigs.copy(alloc) else {
        return Err(Refusal::NoMemory);
    };
    let program = Candidate { image, sigs };
    match judge(alloc, &program) {
        Ok(()) => accepted(alloc, &program),
        Err(refused) => broken(alloc, &program, refused),
    }
}
