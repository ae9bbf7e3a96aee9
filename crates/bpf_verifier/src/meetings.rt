//! Pairs that wait for the slots to which jumps lead.

ghost use Rattle.std.specs.Prelude.{◌≡◌, ◌<◌, ◌≤◌, ◌+◌, ℕ, Some, IfOk, OnErr, List, Option, length, slice_get, vec_len};
ghost use Rattle.bpf_copies.specs.Names.{goes_on};
ghost use Rattle.bpf_semantics.specs.declared.profile.Profile.TheVariants.{Second};
ghost use Rattle.bpf_verifier.specs.Candidates.{program_in};
ghost use Rattle.bpf_verifier.specs.Program.{Program};
ghost use Rattle.bpf_verifier.specs.Registers.{Row};
ghost use Rattle.bpf_verifier.specs.PairSteps.{met, pairs_by_jump, pairs_by_next, pairs_come, pairs_behind, pairs_at};
ghost use Rattle.bpf_verifier.specs.Table.{table};
ghost use Rattle.bpf_verifier.specs.Meetings.{pairs_of, brought_at, Meets};

use crate::candidate::Candidate;
use crate::pair::Pairs;
use crate::pairs::{are_none, no_pairs, pairs_met};
use bpf_copies::place_of;
use bpf_image::form::target_of;
use bpf_insn::Insn;
use bpf_ranges::Profile;
use std::alloc::{AllocError, Global};

/// What jumps have brought of pairs to a slot.
#[derive(Drop)]
pub enum Brought {
    /// No jump leads there so far.
    Nothing,
    /// Some do, and no pair was known before one of them.
    NoPair,
    /// These are known on all ways so far.
    Known(Box<Pairs>),
}

/// Joins the pairs before a jump into those that wait where it leads.
fn join_into(alloc: Global, kept: &mut Brought, pairs: Pairs) -> Result<(), AllocError>
    ensures joined { IfOk result (λ _. pairs_of kept.new ≡ met (pairs_of kept.old) pairs) }
    ensures refused { OnErr result (pairs_of kept.new ≡ pairs_of kept.old) }
{
    match kept {
        Brought::Known(old) => **old = pairs_met(**old, pairs),
        Brought::NoPair => {},
        Brought::Nothing => {
            if are_none(pairs) {
                *kept = Brought::NoPair;
            } else {
                *kept = Brought::Known(Box::new(alloc, pairs)?);
            }
        }
    }
    Ok(())
}

/// The same, if there is a jump.
fn join_target(
    alloc: Global,
    waiting: &mut Vec<Brought>,
    target: Option<i64>,
    pairs: Pairs,
) -> Result<(), AllocError>
    ensures long { IfOk result (λ _. vec_len waiting.new ≡ vec_len waiting.old) }
    ensures pairs { IfOk result (λ _. (k : ℕ) → k < vec_len waiting.old → brought_at waiting.new.items k ≡ pairs_by_jump k target pairs (brought_at waiting.old.items k)) }
    ensures refused { OnErr result ((k : ℕ) → brought_at waiting.new.items k ≡ brought_at waiting.old.items k) }
{
    if let Some(place) = place_of(target, waiting.len()) {
        join_into(alloc, &mut waiting[place], pairs)?;
    }
    Ok(())
}

/// Whether an instruction may go on to the next slot.
fn goes_on(insn: Insn) -> bool
    ensures { result ≡ goes_on insn }
{
    !matches!(insn, Insn::Jump { .. } | Insn::Exit)
}

/// The pairs at the next slot: those behind an instruction that goes on there, and those that wait for it.
fn go_on(insn: Insn, next: Pairs, waits: &Brought) -> Pairs
    ensures { result ≡ pairs_come (pairs_by_next insn next (pairs_of waits.now)) }
{
    let goes = goes_on(insn);
    match waits {
        Brought::NoPair => no_pairs(),
        Brought::Known(old) => { if goes { pairs_met(**old, next) } else { **old } }
        Brought::Nothing => { if goes { next } else { no_pairs() } }
    }
}

/// The pairs that jumps of lower slots bring to those behind a slot. What was brought to a slot stays when the pass has been there.
#[derive(Drop)]
pub struct Meetings {
    alloc: Global,
    pub waiting: Vec<Brought>,
}

impl Meetings {
    /// Before the first of so many slots.
    pub fn none_yet(alloc: Global, slots: usize) -> Result<Meetings, AllocError>
        ensures { IfOk result (λ meetings. (p : Program) (rows : List (Option Row)) → Meets p rows slots 0 meetings) }
    {
        let mut waiting = Vec::with_capacity(alloc, slots)?;
        for _ in 0..slots {
            waiting.push(Brought::Nothing)?;
        }
        Ok(Meetings { alloc, waiting })
    }

    /// Goes over the instruction of a slot, before and behind which pairs are known, and tells those at the next slot. Where memory runs
    /// out, what waits is as it was.
    pub fn meet(
        &mut self,
        at: usize,
        insn: Insn,
        pairs: Pairs,
        next: Pairs,
    ) -> Result<Pairs, AllocError>
        requires few { vec_len self.old.waiting ≤ 4097 }
        requires within { at + 1 < vec_len self.old.waiting }
        ensures here { IfOk result (λ here. (p : Program) (rows : List (Option Row)) → slice_get p.code at ≡ Some insn → pairs ≡ pairs_at p rows at → next ≡ pairs_behind p rows at pairs → (slots : ℕ) → Meets p rows slots at self.old → here ≡ pairs_at p rows (at + 1)) }
        ensures follows { IfOk result (λ _. (p : Program) (rows : List (Option Row)) → slice_get p.code at ≡ Some insn → pairs ≡ pairs_at p rows at → (slots : ℕ) → Meets p rows slots at self.old → Meets p rows slots (at + 1) self.new) }
        ensures waiting { OnErr result ((k : ℕ) → brought_at self.new.waiting.items k ≡ brought_at self.old.waiting.items k) }
    {
        join_target(self.alloc, &mut self.waiting, target_of(at, insn), pairs)?;
        Ok(go_on(insn, next, &self.waiting[at + 1]))
    }

    /// The same of a slot of a program, by its table, where pairs are known by the second profile alone.
    pub fn go_over(
        &mut self,
        program: &Candidate,
        at: usize,
        pairs: Pairs,
        next: Pairs,
    ) -> Result<Pairs, AllocError>
        requires within { at < length program.now.image.code.items }
        requires pairs { pairs ≡ pairs_at (program_in program.now) (table (program_in program.now)) at }
        requires next { next ≡ pairs_behind (program_in program.now) (table (program_in program.now)) at pairs }
        requires old { program.now.image.profile ≡ Second → Meets (program_in program.now) (table (program_in program.now)) (length program.now.image.code.items + 1) at self.old }
        ensures here { IfOk result (λ here. here ≡ pairs_at (program_in program.now) (table (program_in program.now)) (at + 1)) }
        ensures follows { IfOk result (λ _. program.now.image.profile ≡ Second → Meets (program_in program.now) (table (program_in program.now)) (length program.now.image.code.items + 1) (at + 1) self.new) }
        ensures waiting { OnErr result ((k : ℕ) → brought_at self.new.waiting.items k ≡ brought_at self.old.waiting.items k) }
    {
        match program.image.profile {
            Profile::First => Ok(no_pairs()),
            Profile::Second => self.meet(at, program.image.code[at], pairs, next),
        }
    }
}
