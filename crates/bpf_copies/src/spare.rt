//! Names that wait, and room for them.

ghost use Rattle.std.specs.Prelude.{◌≡◌, IfOk, OnErr};

use crate::name::Name;
use std::alloc::{AllocError, Global};

/// Names that wait for a slot, if a jump leads there.
pub type Waiting = Option<Box<[Name; 11]>>;

/// Room for names that are to wait: that of the last that wait no more, if there is some, and else new.
#[derive(Drop)]
pub struct Spare {
    alloc: Global,
    room: Waiting,
}

impl Spare {
    /// No room is there yet.
    pub fn new(alloc: Global) -> Spare {
        Spare { alloc, room: None }
    }

    /// A copy of names. Where memory runs out there was no room, and there is none.
    pub fn boxed(&mut self, names: &[Name; 11]) -> Result<Box<[Name; 11]>, AllocError>
        ensures copy { IfOk result (λ copy. copy.value ≡ names.now) }
        ensures refused { OnErr result (self.new ≡ self.old) }
    {
        match self.room.take() {
            Some(mut copy) => {
                *copy = *names;
                Ok(copy)
            }
            None => Ok(Box::new(self.alloc, *names)?),
        }
    }

    /// Keeps the room of names that wait no more, if some waited.
    pub fn keep(&mut self, names: Waiting) {
        if names.is_some() {
            self.room = names;
        }
    }
}
