//! What is known of the answers of an accepted program.

ghost use Rattle.std.specs.Prelude.{◌≡◌, ◌<◌, ◌++◌, OnOk, IfOk, IfErr, slice_get, length};
ghost use Rattle.bpf_image.specs.Form.{IsFormed};
ghost use Rattle.bpf_verifier.specs.Candidates.{program_in};
ghost use Rattle.bpf_verifier.specs.Table.{table};
ghost use Rattle.bpf_verifier.specs.Rows.{row_at};
ghost use Rattle.bpf_explain.specs.Answered.{exit_answers, answers_at, answers_before};

use crate::answer::Answer;
use bpf_admission::Refusal;
use bpf_insn::{Insn, Register};
use bpf_verifier::{Candidate, kind_of, row_before};
use std::alloc::Global;

/// Adds what is known of the answer of an exit to which a row of kinds leads.
fn add_exit(
    alloc: Global,
    program: &Candidate,
    slot: usize,
    answers: &mut Vec<Answer>,
) -> Result<(), Refusal>
    requires formed { IsFormed program.now.image.code.items }
    requires within { slot < length program.now.image.code.items }
    ensures added { OnOk result (answers.new.items ≡ answers.old.items ++ exit_answers slot (row_at (table (program_in program.now)) slot)) }
    ensures no_memory { IfErr result (λ refusal. refusal ≡ Refusal.NoMemory) }
{
    let Ok(known) = row_before(alloc, program, slot) else {
        return Err(Refusal::NoMemory);
    };
    let Some(row) = known else {
        return Ok(());
    };
    let kind = kind_of(&row, Register::R0);
    let slot = slot as u32;
    if answers.push(Answer { slot, kind }).is_err() {
        return Err(Refusal::NoMemory);
    }
    Ok(())
}

/// Adds what is known of the answer where a slot is an exit.
fn add_answer(
    alloc: Global,
    program: &Candidate,
    slot: usize,
    answers: &mut Vec<Answer>,
) -> Result<(), Refusal>
    requires formed { IsFormed program.now.image.code.items }
    requires within { slot < length program.now.image.code.items }
    ensures added { OnOk result (answers.new.items ≡ answers.old.items ++ answers_at slot (slice_get program.now.image.code.items slot) (row_at (table (program_in program.now)) slot)) }
    ensures no_memory { IfErr result (λ refusal. refusal ≡ Refusal.NoMemory) }
{
    match program.image.code[slot] {
        Insn::Exit => add_exit(alloc, program, slot, answers),
        _ => Ok(()),
    }
}

/// What is known of the answers, exit by exit.
pub(crate) fn answers_of(alloc: Global, program: &Candidate) -> Result<Vec<Answer>, Refusal>
    requires { IsFormed program.now.image.code.items }
    ensures found { IfOk result (λ answers. answers.items ≡ answers_before (program_in program.now) (length program.now.image.code.items)) }
    ensures no_memory { IfErr result (λ refusal. refusal ≡ Refusal.NoMemory) }
{
    let mut answers = Vec::new(alloc);
    for slot in 0..program.image.code.len() {
        add_answer(alloc, program, slot, &mut answers)?;
    }
    Ok(answers)
}
