//! Summaries of what is held, and parts of states, at the keys of a vnode.

ghost use Rattle.std.specs.Prelude.{◌≡◌, OnOk, IfOk, IfErr, false};
ghost use Rattle.key_state.specs.Parts.{summary_of};
ghost use Rattle.vnode.specs.Parts.{RefusesPartAt, RefusesBroughtAt, brought, lacks_of};
ghost use Rattle.vnode.specs.States.{AreInPlace, state_at};

use crate::fault::PartFault;
use crate::states::States;
use crate::steps::merge_refusal;
use journal::{Journal, Merged};
use key_state::{Held, Key, KeyState, Part, PreparedPart, Summary};
use std::alloc::{AllocError, Global};

// A copy of a key and the summary of the state at it. A key that is kept shares its bytes with its copy, so that the bytes of the
// caller's key may go.
pub(crate) fn summary_at(
    alloc: Global,
    states: &States,
    key: &Key,
) -> Result<(Key, Summary), AllocError>
    requires placed { AreInPlace states.now }
    ensures key { IfOk result (λ told. told.0 ≡ key.now) }
    ensures summary { IfOk result (λ told. told.1 ≡ summary_of (state_at states.now key.now)) }
{
    match states.get_key_value(key) {
        Some((kept, stored)) => {
            let state = KeyState::of(alloc, stored)?;
            Ok((kept.copy()?, state.summary(alloc)?))
        }
        None => Ok((key.copy()?, KeyState::new(alloc).summary(alloc)?)),
    }
}

/// What the merge of a part takes: what its entry keeps, but for the state, and the part with memory for its whole state.
pub fn merged_part_of<'a>(
    alloc: Global,
    key: &Key,
    from: u32,
    at: u64,
    part: &'a Part,
) -> Result<(Box<Merged>, PreparedPart<'a>), AllocError>
    ensures { IfOk result (λ made. (made.0.value.key ≡ key.now) × (made.0.value.from ≡ from) × (made.0.value.at ≡ at) × (made.1 ≡ part.now)) }
{
    let merged = Merged {
        key: key.copy()?,
        from,
        at,
        state: KeyState::new(alloc),
    };
    Ok((Box::new(alloc, merged)?, PreparedPart::new(alloc, part)?))
}

// Makes a state that came the one that is brought: where a part came in its place, the whole one for which the part
// stands at the own state.
pub(crate) fn make_whole(
    own: &KeyState,
    journal: &Journal,
    came: &mut KeyState,
    part: Option<PreparedPart<'_>>,
) -> Result<(), PartFault>
    ensures held { OnOk result (lacks_of part.entry own.now ≡ false) }
    ensures whole { OnOk result (came.new ≡ brought part.entry came.old own.now) }
    ensures why { IfErr result (RefusesBroughtAt journal.now.log part.entry came.old own.now) }
{
    let Some(prepared) = part else {
        return Ok(());
    };
    let clock = prepared.part().clock();
    match own.whole_in(prepared) {
        Ok(whole) => {
            *came = whole;
            Ok(())
        }
        Err(key_state::PartFault::Missing) => Err(PartFault::Missing),
        Err(key_state::PartFault::Merge(_)) => Err(PartFault::Refused(merge_refusal(
            own.clock().can_join(clock),
            journal,
        ))),
    }
}

// Why a part is refused that lacks a content or finds no memory: for the first limit that it passes, or for memory. Takes none.
fn part_refusal(state: &Held, journal: &Journal, part: &Part) -> PartFault
    ensures { RefusesPartAt journal.now.log part.now state.now result }
{
    if state.lacks(part) {
        return PartFault::Missing;
    }
    PartFault::Refused(merge_refusal(state.can_join(part.clock()), journal))
}

// Why a merge into a state is refused that finds no memory, or a part that lacks a content: of what came, a state or a part in its place.
pub(crate) fn brought_refusal(
    own: &Held,
    journal: &Journal,
    came: &KeyState,
    part: &Option<PreparedPart<'_>>,
) -> PartFault
    ensures { RefusesBroughtAt journal.now.log part.now came.now own.now result }
{
    match part {
        Some(prepared) => part_refusal(own, journal, prepared.part()),
        None => PartFault::Refused(merge_refusal(own.can_merge(came), journal)),
    }
}

// Why a part at a key is refused that lacks a content or finds no memory.
pub(crate) fn part_refusal_at(
    alloc: Global,
    states: &States,
    journal: &Journal,
    key: &Key,
    part: &Part,
) -> PartFault
    requires placed { AreInPlace states.now }
    ensures { RefusesPartAt journal.now.log part.now (state_at states.now key.now) result }
{
    match states.get(key) {
        Some(state) => part_refusal(state.held(), journal, part),
        None => part_refusal(&Held::nothing(alloc), journal, part),
    }
}
