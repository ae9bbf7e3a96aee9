//! Names on the way through a program's slots.

ghost use Rattle.std.specs.Prelude.{◌≡◌, ◌<◌, ◌≤◌, ◌+◌, ℕ, Some, None, IfOk, OnErr, List, slice_get, vec_len};
ghost use Rattle.bpf_insn.specs.declared.Insn.{Insn};
ghost use Rattle.bpf_copies.specs.Names.{joined, by_jump, by_next, come, goes_on};
ghost use Rattle.bpf_copies.specs.Courses.{unboxed, held_at, Follows};
ghost use Rattle.bpf_copies.specs.declared.bounds.Bounds.{Bounds};

use crate::bounds::Bounds;
use crate::led::place_of;
use crate::name::Name;
use crate::naming::{join_names, new_names, rename};
use crate::spare::{Spare, Waiting};
use bpf_image::form::target_of;
use bpf_insn::Insn;
use std::alloc::{AllocError, Global};

/// The names before a slot, and those that jumps of lower slots bring to the slots behind it.
#[derive(Drop)]
pub struct Course {
    pub here: [Name; 11],
    pub waiting: Vec<Waiting>,
    spare: Spare,
}

/// Joins names into those that wait for a slot.
fn join_into(
    slot: u32,
    spare: &mut Spare,
    kept: &mut Waiting,
    names: &[Name; 11],
) -> Result<(), AllocError>
    requires { slot ≤ 4096 }
    ensures joined { IfOk result (λ _. unboxed kept.new ≡ joined slot (unboxed kept.old) names.now) }
    ensures refused { OnErr result (unboxed kept.new ≡ unboxed kept.old) }
{
    match kept {
        Some(old) => **old = join_names(slot, old, names),
        None => *kept = Some(spare.boxed(names)?),
    }
    Ok(())
}

/// Joins the names before a jump, if there is one, into those that wait where it leads.
fn join_target(
    spare: &mut Spare,
    waiting: &mut Vec<Waiting>,
    target: Option<i64>,
    names: &[Name; 11],
) -> Result<(), AllocError>
    requires { vec_len waiting.old ≤ 4097 }
    ensures long { IfOk result (λ _. vec_len waiting.new ≡ vec_len waiting.old) }
    ensures names { IfOk result (λ _. (k : ℕ) → k < vec_len waiting.old → held_at waiting.new.items k ≡ by_jump k target names.now (held_at waiting.old.items k)) }
    ensures refused { OnErr result ((k : ℕ) → held_at waiting.new.items k ≡ held_at waiting.old.items k) }
{
    if let Some(place) = place_of(target, waiting.len()) {
        join_into(place as u32, spare, &mut waiting[place], names)?;
    }
    Ok(())
}

/// Whether an instruction may go on to the next slot.
fn goes_on(insn: Insn) -> bool
    ensures { result ≡ goes_on insn }
{
    !matches!(insn, Insn::Jump { .. } | Insn::Exit)
}

/// Goes over an instruction, whose operand is within bounds, to the next slot, for which names may wait.
fn go_on(slot: u32, known: Bounds, insn: Insn, waits: &Waiting, names: &mut [Name; 11])
    requires { slot ≤ 4096 }
    ensures { names.new ≡ come slot (by_next slot known insn names.old (unboxed waits.now)) }
{
    if goes_on(insn) {
        rename(slot, known, insn, names);
        if let Some(kept) = waits {
            *names = join_names(slot, kept, names);
        }
    } else {
        *names = match waits {
            Some(kept) => **kept,
            None => new_names(slot),
        };
    }
}

impl Course {
    /// Before the first of so many slots.
    pub fn new(alloc: Global, slots: usize) -> Result<Course, AllocError>
        ensures { IfOk result (λ course. (code : List Insn) (known : ℕ → Bounds) → Follows code known slots 0 course) }
    {
        let mut waiting = Vec::with_capacity(alloc, slots)?;
        for _ in 0..slots {
            waiting.push(None)?;
        }
        Ok(Course {
            here: new_names(0),
            waiting,
            spare: Spare::new(alloc),
        })
    }

    /// Goes over the instruction of a slot to the next one. It is said within which bounds its operand is, where that is a register.
    /// Where memory runs out, the names before the slot are as they were, and so are those that wait.
    pub fn advance(&mut self, at: usize, insn: Insn, known: Bounds) -> Result<(), AllocError>
        requires few { vec_len self.old.waiting ≤ 4097 }
        requires within { at + 1 < vec_len self.old.waiting }
        ensures follows { IfOk result (λ _. (code : List Insn) (knows : ℕ → Bounds) → slice_get code at ≡ Some insn → knows at ≡ known → Follows code knows (vec_len self.old.waiting) at self.old → Follows code knows (vec_len self.old.waiting) (at + 1) self.new) }
        ensures here { OnErr result (self.new.here ≡ self.old.here) }
        ensures waiting { OnErr result ((k : ℕ) → held_at self.new.waiting.items k ≡ held_at self.old.waiting.items k) }
    {
        join_target(
            &mut self.spare,
            &mut self.waiting,
            target_of(at, insn),
            &self.here,
        )?;
        let waits = self.waiting[at + 1].take();
        go_on(at as u32 + 1, known, insn, &waits, &mut self.here);
        self.spare.keep(waits);
        Ok(())
    }
}
