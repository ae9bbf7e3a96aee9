//! What one connection keeps, and one step of it, without any device.

ghost use Rattle.std.specs.Prelude.{◌≡◌, ◌<◌, ◌≤◌, ◌++◌, ◌⊎◌, ℕ, List, [], false, length, drop, IfOk, IfSome, OnOk, OnErr};
ghost use Rattle.http_request.specs.Fits.{FitsAsk};
ghost use Rattle.http_parse.specs.Finds.{Finds};
ghost use Rattle.http_parse.specs.declared.request.Asking.TheVariants.{First, GoOn};
ghost use Rattle.http_response.specs.declared.reply.Reply.{Reply};
ghost use Rattle.http_response.specs.Answer.{answer};
ghost use Rattle.http_connection.specs.Dialogue.{Does, call_of};
ghost use Rattle.http_connection.specs.Turns.{Steps, Halts};
ghost use Rattle.http_connection.specs.Pending.{IsPending, Lacks};

use crate::backend::Backend;
use crate::call::make_call;
use crate::desk::Desk;
use crate::queue::Queue;
use crate::turn::{Step, Wanted};
use http_parse::laws::heads_stay_known;
use http_parse::{Asking, KnownHead};
use http_request::{Ask, What};
use std::alloc::{AllocError, Global};
use std::marker::Model;

/// What one connection keeps: the bytes that came and wait to be read, what is known of their head, and the answers that wait to be
/// written, in buffers that go from connection to connection by the desk. While nothing waits either way it holds 512 bytes at most, with
/// all that it owns.
#[derive(Drop)]
pub struct Talk {
    inbox: Queue,
    outbox: Queue,
    known: Option<Box<KnownHead>>,
    awaited: Option<Wanted>,
}

impl Model for Talk {
    ghost use Rattle.std.specs.Prelude.{◌+◌, IfSome, is_none};
    ghost use Rattle.std.specs.Vec.{vec_capacity};
    ghost use Rattle.http_parse.specs.Known.{IsKnownOf};
    ghost use Rattle.http_connection.specs.Talking.{Talking};

    ghost Value = { Talking };

    ghost use Rattle.http_connection.specs.Waiting.{waiting};
    ghost use Rattle.http_connection.specs.Pending.{Lacks};

    ghost view = { λ t. record {
      waits = waiting t.inbox;
      is_due = is_none t.awaited;
      unsent = waiting t.outbox;
      room = vec_capacity t.inbox.bytes + vec_capacity t.outbox.bytes;
    } };

    ghost invariant = { λ t. IfSome t.known (λ head. IsKnownOf head.value (waiting t.inbox)) × IfSome t.awaited (λ wanted. Lacks wanted (waiting t.inbox)) };
}

impl Talk {
    /// A connection of which nothing came. It takes no memory.
    pub fn new(alloc: Global) -> Talk
        ensures waits { result.waits ≡ [] }
        ensures unsent { result.unsent ≡ [] }
    {
        Talk {
            inbox: Queue::new(alloc),
            outbox: Queue::new(alloc),
            known: None,
            awaited: None,
        }
    }

    /// Bytes came: they wait behind those that came before. The error is want of memory: they are lost then, and all else stays.
    pub fn hear(&mut self, desk: &mut Desk, bytes: &[u8]) -> Result<(), AllocError>
        ensures ok { OnOk result (self.new.waits ≡ self.old.waits ++ bytes.now) }
        ensures err { OnErr result (self.new.waits ≡ self.old.waits) }
        ensures unsent { self.new.unsent ≡ self.old.unsent }
    {
        heads_stay_known();
        self.inbox.push(&mut desk.incoming, bytes)?;
        self.awaited = still_awaited(self.awaited, bytes, self.inbox.unread().len());
        Ok(())
    }

    /// How many bytes wait to be read.
    pub fn waiting(&self) -> usize
        ensures { result ≡ length self.now.waits }
    {
        self.inbox.unread().len()
    }

    /// Whether a whole request may wait: where it is not so, none does, and a step would answer none before more bytes come. At the end
    /// of the input a step is due in any case: a head may be bad whose last line did not end.
    pub fn is_due(&self) -> bool
        ensures value { result ≡ self.now.is_due }
        ensures pending { result ≡ false → IsPending self.now.waits }
    {
        self.awaited.is_none()
    }

    /// Answers the first request of the bytes that wait, if it is whole: whatever may come behind them.
    ///
    /// The error is want of memory. The request's call may be made then, but it has no answer: what waits to be written is what waited
    /// before, or nothing, and the connection is over.
    pub fn step<B: Backend>(&mut self, desk: &mut Desk, backend: &mut B) -> Result<Step, AllocError>
        ensures steps { IfOk result (λ step. Steps B.gives (B.copies backend.old) step self.old.waits self.new.waits
            backend.old backend.new self.old.unsent self.new.unsent) }
        ensures halts { OnErr result (Halts B.gives (B.copies backend.old) self.old.waits backend.old backend.new) }
        ensures keeps { OnErr result ((self.new.unsent ≡ self.old.unsent) ⊎ (self.new.unsent ≡ [])) }
        ensures stays { B.copies backend.new ≡ B.copies backend.old }
    {
        let copies = backend.copies();
        let asking = self.first_request(desk, copies)?;
        match asking {
            Asking::Head => Ok(Step::Waits(Wanted::Line)),
            Asking::Body { needs } => Ok(Step::Waits(Wanted::Bytes(needs))),
            Asking::GoOn { head, len } => self.tell_to_go_on(desk, backend, copies, head, len),
            Asking::First { ask, ends, len } => {
                self.answer(desk, backend, copies, &ask, ends, len)
            }
        }
    }

    /// The answers that wait to be written.
    pub fn unsent(&self) -> &[u8]
        ensures { result.now ≡ self.now.unsent }
    {
        self.outbox.unread()
    }

    /// So many bytes of the answers that wait were written.
    pub fn sent(&mut self, desk: &mut Desk, n: usize)
        requires { n ≤ length self.old.unsent }
        ensures unsent { self.new.unsent ≡ drop n self.old.unsent }
        ensures waits { self.new.waits ≡ self.old.waits }
        ensures is_due { self.new.is_due ≡ self.old.is_due }
    {
        self.outbox.take(&mut desk.outgoing, n);
        self.outbox.give_up_gone();
    }

    // What the bytes that wait come to. What is known of their head is kept while its body is missing.
    fn first_request(&mut self, desk: &mut Desk, copies: u32) -> Result<Asking, AllocError>
        requires some { 1 ≤ copies }
        requires few { copies ≤ 3 }
        ensures finds { IfOk result (Finds copies self.old.waits) }
        ensures waits { self.new.waits ≡ self.old.waits }
        ensures unsent { self.new.unsent ≡ self.old.unsent }
    {
        let known = self.known.take();
        let (asking, known) = desk.look(known, copies, self.inbox.unread())?;
        self.known = known;
        self.awaited = wanted_by(&asking);
        Ok(asking)
    }

    // Answers a request, and takes it from the bytes that wait.
    fn answer<B: Backend>(
        &mut self,
        desk: &mut Desk,
        backend: &mut B,
        copies: u32,
        ask: &Ask,
        ends: bool,
        len: usize,
    ) -> Result<Step, AllocError>
        requires copies { copies ≡ B.copies backend.old }
        requires finds { Finds copies self.old.waits (First ask.now ends len) }
        ensures steps { IfOk result (λ step. Steps B.gives (B.copies backend.old) step self.old.waits self.new.waits
            backend.old backend.new self.old.unsent self.new.unsent) }
        ensures halts { OnErr result (Halts B.gives (B.copies backend.old) self.old.waits backend.old backend.new) }
        ensures forgets { OnErr result (self.new.unsent ≡ []) }
        ensures stays { B.copies backend.new ≡ B.copies backend.old }
    {
        self.push_reply(desk, backend, copies, ask, ends)?;
        self.take(desk, len);
        Ok(if ends { Step::Last } else { Step::Answered })
    }

    // Tells a client that it may go on: its request stays with those that wait, with a head that expects nothing.
    fn tell_to_go_on<B: Backend>(
        &mut self,
        desk: &mut Desk,
        backend: &mut B,
        copies: u32,
        head: Vec<u8>,
        len: usize,
    ) -> Result<Step, AllocError>
        requires copies { copies ≡ B.copies backend.old }
        requires finds { Finds copies self.old.waits (GoOn head len) }
        ensures steps { IfOk result (λ step. Steps B.gives (B.copies backend.old) step self.old.waits self.new.waits
            backend.old backend.new self.old.unsent self.new.unsent) }
        ensures halts { OnErr result (Halts B.gives (B.copies backend.old) self.old.waits backend.old backend.new) }
        ensures forgets { OnErr result (self.new.unsent ≡ []) }
        ensures stays { B.copies backend.new ≡ B.copies backend.old }
    {
        let ask = Ask {
            what: What::Continue,
            head_only: false,
            if_none_match: None,
        };
        self.push_reply(desk, backend, copies, &ask, false)?;
        self.change_head(len, head.as_slice());
        Ok(Step::Answered)
    }

    // Changes the head of the first request of the bytes that wait for a shorter one.
    fn change_head(&mut self, len: usize, head: &[u8])
        requires some { 0 < length head.now }
        requires shorter { length head.now ≤ len }
        requires fits { len ≤ length self.old.waits }
        ensures waits { self.new.waits ≡ head.now ++ drop len self.old.waits }
        ensures unsent { self.new.unsent ≡ self.old.unsent }
    {
        self.known = None;
        self.awaited = None;
        self.inbox.change_front(len, head);
    }

    // Makes the call of a request, and adds its answer to those that wait.
    fn push_reply<B: Backend>(
        &mut self,
        desk: &mut Desk,
        backend: &mut B,
        copies: u32,
        ask: &Ask,
        ends: bool,
    ) -> Result<(), AllocError>
        requires copies { copies ≡ B.copies backend.old }
        requires fits { FitsAsk copies ask.now }
        ensures does { (reply : Reply) × Does B.gives backend.old (call_of ask.now) reply backend.new
            × OnOk result (self.new.unsent ≡ self.old.unsent ++ answer copies ask.now reply ends) }
        ensures forgets { OnErr result (self.new.unsent ≡ []) }
        ensures stays { B.copies backend.new ≡ B.copies backend.old }
        ensures waits { self.new.waits ≡ self.old.waits }
    {
        let reply = make_call(backend, ask);
        self.outbox.push_answer(desk, copies, ask, &reply, ends)
    }

    // Takes a request from the bytes that wait.
    fn take(&mut self, desk: &mut Desk, len: usize)
        requires { len ≤ length self.old.waits }
        ensures waits { self.new.waits ≡ drop len self.old.waits }
        ensures unsent { self.new.unsent ≡ self.old.unsent }
    {
        self.known = None;
        self.awaited = None;
        self.inbox.take(&mut desk.incoming, len);
    }

    /// The room of the buffers, in bytes.
    pub fn room(&self) -> usize
        ensures room { result ≡ self.now.room }
        ensures small { self.now.waits ≡ [] → self.now.unsent ≡ [] → result ≤ 384 }
    {
        self.inbox.room() + self.outbox.room()
    }
}

// What has to come still, with these bytes, the last of so many that wait.
fn still_awaited(awaited: Option<Wanted>, bytes: &[u8], waiting: usize) -> Option<Wanted>
    ensures { (before : List ℕ) → waiting ≡ length (before ++ bytes.now) → IfSome awaited (λ wanted. Lacks wanted before)
        → IfSome result (λ wanted. Lacks wanted (before ++ bytes.now)) }
{
    match awaited {
        Some(wanted) => {
            if wanted.came(bytes, waiting) {
                None
            } else {
                awaited
            }
        }
        None => None,
    }
}

// What has to come before the bytes are worth another look.
fn wanted_by(asking: &Asking) -> Option<Wanted>
    ensures { (copies : ℕ) (waits : List ℕ) → Finds copies waits asking.now → IfSome result (λ wanted. Lacks wanted waits) }
{
    match asking {
        Asking::Head => Some(Wanted::Line),
        Asking::Body { needs } => Some(Wanted::Bytes(*needs)),
        Asking::GoOn { .. } | Asking::First { .. } => None,
    }
}
