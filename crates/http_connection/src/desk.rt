//! What all connections of a worker share.

ghost use Rattle.std.specs.Prelude.{◌≡◌, ◌≤◌, ◌++◌, ℕ, List, IfOk, IfSome, OnOk};
ghost use Rattle.http_parse.specs.Finds.{Finds};
ghost use Rattle.http_parse.specs.Known.{IsKnownOf};
ghost use Rattle.http_response.specs.Answer.{answer};

use crate::limits::{KEPT_TEXT_BYTES, LOOKS_PER_RENEWAL};
use crate::spare::Spare;
use http_parse::{Asking, KnownHead, Tables, first_request};
use http_request::Ask;
use http_response::{Reply, push_answer};
use std::alloc::{AllocError, Global};

/// What all connections of a worker share: the tables that requests are read by, the room for a body that is made up, the room for what is
/// known of a head, and a buffer each for the bytes that come and for the answers.
#[derive(Drop)]
pub struct Desk {
    alloc: Global,
    tables: Tables,
    text: Vec<u8>,
    spare: Option<Box<KnownHead>>,
    looks: u32,
    pub(crate) incoming: Spare,
    pub(crate) outgoing: Spare,
}

impl Desk {
    /// A desk with its tables. The error is want of memory.
    pub fn new(alloc: Global) -> Result<Desk, AllocError> {
        Ok(Desk {
            alloc,
            tables: Tables::new(alloc)?,
            text: Vec::new(alloc),
            spare: None,
            looks: 0,
            incoming: Spare::new(alloc),
            outgoing: Spare::new(alloc),
        })
    }

    /// What the bytes come to, whose head is known or isn't, and what stays known of it: all while the body is missing, and else nothing.
    pub(crate) fn look(
        &mut self,
        known: Option<Box<KnownHead>>,
        copies: u32,
        bytes: &[u8],
    ) -> Result<(Asking, Option<Box<KnownHead>>), AllocError>
        requires some { 1 ≤ copies }
        requires few { copies ≤ 3 }
        requires known { IfSome known (λ head. IsKnownOf head.value bytes.now) }
        ensures finds { IfOk result (λ told. Finds copies bytes.now told.0) }
        ensures known { IfOk result (λ told. IfSome told.1 (λ head. IsKnownOf head.value bytes.now)) }
    {
        self.count_look();
        let mut head = self.head_of(known)?;
        let asking = first_request(self.alloc, &self.tables, copies, &mut head, bytes)?;
        let kept = self.keep(head, &asking);
        Ok((asking, kept))
    }

    // Counts a look, and makes the media types anew at times.
    fn count_look(&mut self) {
        self.looks = self.looks.wrapping_add(1);
        if self.looks % LOOKS_PER_RENEWAL == 0 {
            self.tables.renew(self.alloc);
        }
    }

    // What is known of a head, or room for it: the spare one, or another.
    fn head_of(&mut self, known: Option<Box<KnownHead>>) -> Result<Box<KnownHead>, AllocError>
        ensures { (bytes : List ℕ) → IfSome known (λ head. IsKnownOf head.value bytes) → IfOk result (λ head. IsKnownOf head.value bytes) }
    {
        if let Some(head) = known {
            return Ok(head);
        }
        match self.spare.take() {
            Some(mut head) => {
                head.clear();
                Ok(head)
            }
            None => Ok(Box::new(self.alloc, KnownHead::new(self.alloc))?),
        }
    }

    // What is kept of what is known of a head: all of it while the body is missing. Else its room is spare again.
    fn keep(&mut self, head: Box<KnownHead>, asking: &Asking) -> Option<Box<KnownHead>>
        ensures { IfSome result (λ kept. kept ≡ head) }
    {
        if let Asking::Body { .. } = asking {
            return Some(head);
        }
        self.spare = Some(head);
        None
    }

    /// Adds the answer to a request. The room of a large body is given back. The error is want of memory: a front of the answer may stand
    /// there.
    pub(crate) fn push_answer(
        &mut self,
        out: &mut Vec<u8>,
        copies: u32,
        ask: &Ask,
        reply: &Reply,
        ends: bool,
    ) -> Result<(), AllocError>
        ensures { OnOk result (out.new.items ≡ out.old.items ++ answer copies ask.now reply.now ends) }
    {
        let pushed = push_answer(out, &mut self.text, copies, ask, reply, ends);
        if self.text.capacity() > KEPT_TEXT_BYTES {
            self.text = Vec::new(self.alloc);
        }
        pushed
    }
}
