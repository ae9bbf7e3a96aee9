//! Parts with the memory that their whole states take.

ghost use Rattle.std.specs.Prelude.{◌≡◌, ◌≢◌, ◌↔◌, Err, IsTrue, IfOk};
ghost use Rattle.key_state.specs.Parts.{whole_of, lacks_some};
ghost use Rattle.key_state.specs.State.{IsState};

use crate::content::{Sibling, Siblings};
use crate::exchange::content_of;
use crate::fault::{MergeFault, PartFault};
use crate::full::Full;
use crate::held::Held;
use crate::part::Part;
use crate::state::KeyState;
use std::alloc::{AllocError, Global};
use std::marker::Model;
use std::sync::Arc;

/// A part, and the memory that the whole state takes for which it stands: a copy of its clock, and room for its siblings. Whoever holds
/// what was left out builds the whole state in it, and asks for no memory.
#[derive(Drop)]
pub struct PreparedPart<'a> {
    part: &'a Part,
    siblings: Vec<Sibling>,
    // Has the clock, and no siblings yet.
    full: Box<Full>,
    held: Arc<Held>,
}

impl<'a> Model for PreparedPart<'a> {
    ghost use Rattle.std.specs.Prelude.{◌≡◌, ◌≤◌, [], length, vec_capacity};
    ghost use Rattle.key_state.specs.Parts.{Partial};

    ghost Value = { Partial };

    ghost view = { λ p. p.part.now };

    ghost invariant = { λ p. (p.full.value.clock ≡ p.part.now.clock) × (p.siblings.items ≡ []) × (length p.part.now.siblings ≤ vec_capacity p.siblings) };
}

impl<'a> PreparedPart<'a> {
    /// Takes the memory for the whole state of a part.
    pub fn new(alloc: Global, part: &'a Part) -> Result<Self, AllocError>
        ensures { IfOk result (λ prepared. prepared ≡ part.now) }
    {
        let full = Full::new(Siblings::new(alloc), part.clock().copy(alloc)?);
        Ok(PreparedPart {
            part,
            siblings: Vec::with_capacity(alloc, part.siblings().len())?,
            full: Box::new(alloc, full)?,
            held: Arc::new(alloc, Held::nothing(alloc))?,
        })
    }

    /// The part.
    pub fn part(&self) -> &'a Part
        ensures { result.now ≡ self.now }
    {
        self.part
    }
}

impl KeyState {
    /// The whole state that a part stands for, in the memory that was taken for it: a content that was left out is the own one under its
    /// dot. Refused where such a dot isn't held, which is told first, and where a content has as many owners as can be counted.
    pub fn whole_in(&self, prepared: PreparedPart<'_>) -> Result<KeyState, PartFault>
        ensures ok { IfOk result (λ whole. whole ≡ whole_of prepared.entry self.now) }
        ensures state { IfOk result (λ whole. IsState whole) }
        ensures missing { result ≡ Err PartFault.Missing ↔ IsTrue (lacks_some self.now prepared.entry) }
        ensures full { result ≢ Err (PartFault.Merge MergeFault.ClockFull) }
    {
        let PreparedPart {
            part,
            mut siblings,
            full,
            held,
        } = prepared;
        for sent in part.siblings() {
            let Some(content) = content_of(self.siblings(), sent) else {
                return Err(PartFault::Missing);
            };
            let Ok(content) = content.copy() else {
                return Err(self.uncopied(part));
            };
            let sibling = Sibling {
                dot: sent.dot,
                content,
            };
            match siblings.push(sibling) {
                Ok(()) => {}
                Err(_) => unreachable!(),
            }
        }
        match KeyState::in_held(held, full, siblings) {
            Ok(whole) => Ok(whole),
            Err(_) => Err(self.uncopied(part)),
        }
    }

    // Why there is no whole state of a part where a content has as many owners as can be counted: one that is missing is told first.
    fn uncopied(&self, part: &Part) -> PartFault
        ensures missing { result ≡ PartFault.Missing ↔ IsTrue (lacks_some self.now part.now) }
        ensures full { result ≢ PartFault.Merge MergeFault.ClockFull }
    {
        if self.lacks(part) {
            return PartFault::Missing;
        }
        PartFault::Merge(MergeFault::NoMemory)
    }
}
