//! Bytes that wait: they come behind the others, and go from the front.

ghost use Rattle.std.specs.Prelude.{◌≡◌, ◌<◌, ◌≤◌, ◌+◌, ◌++◌, [], length, take, drop, OnOk, OnErr};
ghost use Rattle.std.specs.Vec.{vec_capacity};
ghost use Rattle.http_response.specs.Answer.{answer};
ghost use Rattle.http_connection.specs.Room.{kept};

use crate::desk::Desk;
use crate::limits::USUAL_ANSWER_BYTES;
use crate::spare::Spare;
use http_request::Ask;
use http_response::Reply;
use std::alloc::{AllocError, Global};
use std::mem;

/// Bytes that wait, in order. Their buffer grows as it must; the first of them take it from a spare one, and the last of them hand it back.
#[derive(Drop)]
pub(crate) struct Queue {
    alloc: Global,
    bytes: Vec<u8>,
    start: usize,
    ghost ordered: { start ≤ length bytes.items },
    ghost small: { length bytes.items ≤ start → vec_capacity bytes ≤ kept },
}

impl Queue {
    ghost use Rattle.http_connection.specs.Waiting.{waiting};

    /// None wait. It takes no memory.
    pub(crate) fn new(alloc: Global) -> Queue
        ensures { waiting result ≡ [] }
    {
        Queue {
            alloc,
            bytes: Vec::new(alloc),
            start: 0,
        }
    }

    /// The bytes that wait.
    pub(crate) fn unread(&self) -> &[u8]
        ensures { result.now ≡ waiting self.now }
    {
        &self.bytes[self.start..]
    }

    /// The room of the buffer.
    pub(crate) fn room(&self) -> usize
        ensures room { result ≡ vec_capacity self.now.bytes }
        ensures small { waiting self.now ≡ [] → result ≤ kept }
    {
        self.bytes.capacity()
    }

    /// These wait, too, behind the others. The error is want of memory: the others wait then.
    pub(crate) fn push(&mut self, spare: &mut Spare, bytes: &[u8]) -> Result<(), AllocError>
        ensures ok { OnOk result (waiting self.new ≡ waiting self.old ++ bytes.now) }
        ensures err { OnErr result (waiting self.new ≡ waiting self.old) }
    {
        if bytes.is_empty() {
            return Ok(());
        }
        if self.bytes.len() <= self.start {
            return self.push_first(spare, bytes);
        }
        self.close_up();
        self.bytes.reserve(bytes.len())?;
        self.bytes.extend_from_slice(bytes)
    }

    // These wait, of none so far.
    fn push_first(&mut self, spare: &mut Spare, bytes: &[u8]) -> Result<(), AllocError>
        requires none { length self.old.bytes.items ≤ self.old.start }
        requires some { 0 < length bytes.now }
        ensures ok { OnOk result (waiting self.new ≡ waiting self.old ++ bytes.now) }
        ensures err { OnErr result (self.new ≡ self.old) }
    {
        let mut buffer = spare.take();
        buffer.extend_from_slice(bytes)?;
        self.bytes = buffer;
        self.start = 0;
        Ok(())
    }

    /// The answer to a request waits, too, behind the others. The error is want of memory: none wait then.
    pub(crate) fn push_answer(
        &mut self,
        desk: &mut Desk,
        copies: u32,
        ask: &Ask,
        reply: &Reply,
        ends: bool,
    ) -> Result<(), AllocError>
        ensures ok { OnOk result (waiting self.new ≡ waiting self.old ++ answer copies ask.now reply.now ends) }
        ensures err { OnErr result (waiting self.new ≡ []) }
    {
        self.give_up_gone();
        if self.bytes.len() <= self.start {
            self.bytes = desk.outgoing.take();
            self.start = 0;
        }
        let pushed = match self.bytes.reserve(USUAL_ANSWER_BYTES) {
            Ok(()) => desk.push_answer(&mut self.bytes, copies, ask, reply, ends),
            Err(error) => Err(error),
        };
        if pushed.is_err() || self.bytes.len() <= self.start {
            self.bytes = Vec::new(self.alloc);
            self.start = 0;
        }
        pushed
    }

    /// So many of them go.
    pub(crate) fn take(&mut self, spare: &mut Spare, len: usize)
        requires { len ≤ length (waiting self.old) }
        ensures { waiting self.new ≡ drop len (waiting self.old) }
    {
        if len == self.bytes.len() - self.start {
            self.clear(spare);
        } else {
            self.start += len;
        }
    }

    /// The first `len` of them become these, which are no more.
    pub(crate) fn change_front(&mut self, len: usize, front: &[u8])
        requires some { 0 < length front.now }
        requires shorter { length front.now ≤ len }
        requires fits { len ≤ length (waiting self.old) }
        ensures { waiting self.new ≡ front.now ++ drop len (waiting self.old) }
    {
        let start = self.start + len - front.len();
        write_at(&mut self.bytes, start, front);
        self.start = start;
    }

    // None wait any longer, and the buffer is handed back.
    fn clear(&mut self, spare: &mut Spare)
        ensures { waiting self.new ≡ [] }
    {
        self.start = 0;
        spare.put_back(mem::replace(&mut self.bytes, Vec::new(self.alloc)));
    }

    /// Gives up the room of what went, where that is no less than what waits: so the buffer holds no more than twice what waits, however
    /// long some do.
    pub(crate) fn give_up_gone(&mut self)
        ensures { waiting self.new ≡ waiting self.old }
    {
        let waiting = self.bytes.len().saturating_sub(self.start);
        if waiting > 0 && waiting <= self.start {
            self.close_up();
            self.bytes.shrink_to_fit();
        }
    }

    // Moves the bytes that wait to the front of the buffer.
    fn close_up(&mut self)
        ensures { waiting self.new ≡ waiting self.old }
    {
        if self.start > 0 {
            let len = self.bytes.len() - self.start;
            self.bytes.copy_within(self.start.., 0);
            self.bytes.truncate(len);
            self.start = 0;
        }
    }
}

// Writes bytes over others, from a place on.
fn write_at(bytes: &mut [u8], at: usize, new: &[u8])
    requires { at + length new.now ≤ length bytes.old }
    ensures { bytes.new ≡ take at bytes.old ++ (new.now ++ drop (at + length new.now) bytes.old) }
{
    bytes[at..at + new.len()].copy_from_slice(new);
}
