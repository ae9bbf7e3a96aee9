//! Contents that are written anew.

ghost use Rattle.std.specs.Prelude.{◌≡◌, ◌≤◌, ◌∷◌, [], IfOk, length};
ghost use Rattle.kept_fold.specs.Folds.{anew, numbered, record_anew};

use dvv::{Clock, Dot, MAX_COUNTER};
use key_state::{Key, KeyState, Sibling};
use record_codec::Record;
use std::alloc::{AllocError, Global};

/// The record of a key with the contents of siblings, written anew under an identifier.
pub(crate) fn record_anew(
    alloc: Global,
    id: u32,
    key: Key,
    siblings: &[Sibling],
) -> Result<Record, AllocError>
    requires some { 1 ≤ length siblings.now }
    ensures { IfOk result (λ one. one ≡ record_anew id key siblings.now) }
{
    let at = siblings.len() as u64;
    let state = anew(alloc, id, siblings)?;
    Ok(Record {
        key,
        from: id,
        at,
        state,
    })
}

/// The state of these contents: each was put under the identifier, and no put had seen another.
fn anew(alloc: Global, id: u32, siblings: &[Sibling]) -> Result<KeyState, AllocError>
    requires some { 1 ≤ length siblings.now }
    ensures { IfOk result (λ state. state ≡ anew id siblings.now) }
{
    let last = Dot {
        vnode: id,
        n: siblings.len() as u64,
    };
    let clock = clock_to(alloc, last)?;
    let contents = numbered(alloc, id, siblings)?;
    KeyState::from_parts(clock, contents)
}

/// The clock that counts an event and those before it alone. More than [`MAX_COUNTER`] are as many as there is no memory for.
fn clock_to(alloc: Global, last: Dot) -> Result<Clock, AllocError>
    requires first { 1 ≤ last.n }
    ensures { IfOk result (λ clock. clock ≡ last ∷ []) }
{
    if last.n > MAX_COUNTER {
        return Err(AllocError);
    }
    let mut entries = Vec::new(alloc);
    entries.push(last)?;
    Ok(Clock::from_entries(entries))
}

/// The contents of siblings, in order, under the dots of an identifier from 1 on.
fn numbered(alloc: Global, id: u32, siblings: &[Sibling]) -> Result<Vec<Sibling>, AllocError>
    ensures { IfOk result (λ contents. contents.items ≡ numbered id 1 siblings.now) }
{
    let mut contents = Vec::with_capacity(alloc, siblings.len())?;
    for (place, sibling) in siblings.iter().enumerate() {
        let dot = Dot {
            vnode: id,
            n: place as u64 + 1,
        };
        let content = sibling.content.copy()?;
        contents.push(Sibling { dot, content })?;
    }
    Ok(contents)
}
