//! One connection of a hall.

ghost use Rattle.std.specs.Prelude.{◌≡◌, ◌<◌, ◌≤◌, ◌^◌, ℕ, List, ◌++◌, length, [], IfOk, OnOk};
ghost use Rattle.http_connection.specs.Pending.{IsPending};
ghost use Rattle.http_connection.specs.Dialogue.{Exchange, Runs};
ghost use Rattle.http_connections.specs.Sockets.{Socket, Sockets};
ghost use Rattle.http_connections.specs.Spoken.{Serves, Left, Attended, Moves, Attends, standing_of};
ghost use Rattle.http_connections.specs.Unsent.{held};

use crate::buffer::Buffer;
use crate::socket_ring::{Closing, Heard, Ring, Told};
use http_connection::{
    Backend, Desk, FLUSH_BYTES, Failed, FrontFault, ROUNDS_PER_TURN, Step, Talk,
};
use std::alloc::Global;

/// Whether requests are still taken.
#[derive(Clone, Copy, Debug, PartialEq, Eq)]
pub(crate) enum Phase {
    /// They are.
    Open,
    /// The client sends nothing more. What waits is looked at once more: its last line may be of no head.
    Ended,
    /// They are not; what is not written yet goes out.
    Closing,
}

/// What one round came to.
#[derive(Clone, Copy, Debug, PartialEq, Eq)]
pub(crate) enum Round {
    /// There may be more to do.
    Again,
    /// There is nothing to do before the client does something.
    Rests,
    /// All is answered and written, and the connection ends.
    Done,
}

/// What a connection waits for, or its client.
#[derive(Clone, Copy, Debug, PartialEq, Eq)]
pub enum Standing {
    /// Nothing waits: the client asks nothing.
    Idle,
    /// A front of a request came, and the rest is awaited.
    Asking,
    /// Answers wait to be written.
    Telling,
}

/// A connection's place in the hall.
#[derive(Drop)]
pub(crate) struct Seat {
    phase: Phase,
    talk: Talk,
}

impl Seat {
    /// The seat of a connection that just came.
    pub(crate) fn new(alloc: Global) -> Seat
        ensures serves { (s : Socket) (copies : ℕ) → s.heard ≡ [] → s.written ≡ [] → Serves copies result s [] }
        ensures held { held result ≡ 0 }
    {
        Seat {
            phase: Phase::Open,
            talk: Talk::new(alloc),
        }
    }

    /// What it waits for.
    pub(crate) fn standing(&self) -> Standing
        ensures { result ≡ standing_of self.now }
    {
        if !self.talk.unsent().is_empty() {
            Standing::Telling
        } else if self.talk.waiting() > 0 {
            Standing::Asking
        } else {
            Standing::Idle
        }
    }

    /// How many bytes of its answers wait to be written.
    pub(crate) fn held(&self) -> usize
        ensures held { result ≡ held self.now }
        ensures small { result < 2 ^ 63 }
    {
        self.talk.unsent().len()
    }

    /// A bounded piece of work: what is there is read, what was asked is answered, and what is answered is written, until the connection
    /// rests or ends, or had its share. Answers how it ends, if it does. One that is idle then has no buffers.
    pub(crate) fn serve<R: Ring, B: Backend>(
        &mut self,
        alloc: Global,
        number: u64,
        desk: &mut Desk,
        buffer: &mut Buffer,
        ring: &mut R,
        backend: &mut B,
    ) -> Option<Closing>
        ensures attends { (old : Sockets) (xs : List Exchange) → R.shows ring.old old → Serves (B.copies backend.old) self.old (old number) xs
            → Attends B.gives (R.shows ring.new) number old backend.old backend.new xs (Attended (B.copies backend.old) result self.new) }
        ensures stays { B.copies backend.new ≡ B.copies backend.old }
    {
        let ended = self.attend(number, desk, buffer, ring, backend);
        self.settle(alloc);
        ended
    }

    /// The same where the worker is full: answers that wait are written, and nothing is read nor asked of the backend. Where it is not its
    /// client that holds it up it is reported once more.
    pub(crate) fn write_out<R: Ring>(
        &mut self,
        number: u64,
        desk: &mut Desk,
        ring: &mut R,
    ) -> Option<Closing>
        ensures moves { (copies : ℕ) (old : Sockets) (xs : List Exchange) → R.shows ring.old old → Serves copies self.old (old number) xs
            → Moves (R.shows ring.new) number old (λ s. Attended copies result self.new s xs) }
        ensures fewer { held self.new ≤ held self.old }
    {
        match self.push_out(number, desk, ring) {
            Ok(Round::Again) => call_again(number, ring),
            Ok(Round::Rests) => None,
            Ok(Round::Done) => Some(Closing::InOrder),
            Err(fault) => Some(Closing::Broken(fault)),
        }
    }

    // Writes some of what waits to be written, if anything does; one that closes ends where nothing does.
    fn push_out<R: Ring>(
        &mut self,
        number: u64,
        desk: &mut Desk,
        ring: &mut R,
    ) -> Result<Round, FrontFault>
        ensures leaves { (copies : ℕ) (old : Sockets) (xs : List Exchange) → R.shows ring.old old → Serves copies self.old (old number) xs
            → Moves (R.shows ring.new) number old (λ s. Left copies result self.new s xs) }
        ensures fewer { held self.new ≤ held self.old }
    {
        if !self.talk.unsent().is_empty() {
            self.tell(number, desk, ring)
        } else if self.phase == Phase::Closing {
            Ok(Round::Done)
        } else {
            Ok(Round::Again)
        }
    }

    // The piece of work, but for the buffers.
    fn attend<R: Ring, B: Backend>(
        &mut self,
        number: u64,
        desk: &mut Desk,
        buffer: &mut Buffer,
        ring: &mut R,
        backend: &mut B,
    ) -> Option<Closing>
        ensures attends { (old : Sockets) (xs : List Exchange) → R.shows ring.old old → Serves (B.copies backend.old) self.old (old number) xs
            → Attends B.gives (R.shows ring.new) number old backend.old backend.new xs (Attended (B.copies backend.old) result self.new) }
        ensures stays { B.copies backend.new ≡ B.copies backend.old }
    {
        for _ in 0..ROUNDS_PER_TURN {
            match self.round(number, desk, buffer, ring, backend) {
                Ok(Round::Again) => {}
                Ok(Round::Rests) => return None,
                Ok(Round::Done) => return Some(Closing::InOrder),
                Err(fault) => return Some(Closing::Broken(fault)),
            }
        }
        call_again(number, ring)
    }

    // Gives its buffers back where nothing waits: so an idle connection has none.
    fn settle(&mut self, alloc: Global)
        ensures phase { self.new.phase ≡ self.old.phase }
        ensures waits { self.new.talk.waits ≡ self.old.talk.waits }
        ensures unsent { self.new.talk.unsent ≡ self.old.talk.unsent }
    {
        if self.talk.waiting() == 0 && self.talk.unsent().is_empty() {
            self.talk = Talk::new(alloc);
        }
    }

    // One thing: a request is answered, or some bytes are written, or read.
    fn round<R: Ring, B: Backend>(
        &mut self,
        number: u64,
        desk: &mut Desk,
        buffer: &mut Buffer,
        ring: &mut R,
        backend: &mut B,
    ) -> Result<Round, FrontFault>
        ensures leaves { (old : Sockets) (xs : List Exchange) → R.shows ring.old old → Serves (B.copies backend.old) self.old (old number) xs
            → Attends B.gives (R.shows ring.new) number old backend.old backend.new xs (Left (B.copies backend.old) result self.new) }
        ensures stays { B.copies backend.new ≡ B.copies backend.old }
    {
        match self.phase {
            Phase::Closing => self.finish(number, desk, ring),
            Phase::Open if self.talk.unsent().len() >= FLUSH_BYTES => self.tell(number, desk, ring),
            Phase::Open if !self.talk.is_due() => self.exchange(number, desk, buffer, ring),
            Phase::Open => match self.talk.step(desk, backend)? {
                Step::Answered => Ok(Round::Again),
                Step::Last => {
                    self.phase = Phase::Closing;
                    Ok(Round::Again)
                }
                Step::Waits(_) => self.exchange(number, desk, buffer, ring),
            },
            Phase::Ended => match self.talk.step(desk, backend)? {
                Step::Answered => {
                    self.phase = Phase::Open;
                    Ok(Round::Again)
                }
                Step::Last => {
                    self.phase = Phase::Closing;
                    Ok(Round::Again)
                }
                Step::Waits(_) => {
                    self.phase = Phase::Closing;
                    Ok(Round::Again)
                }
            },
        }
    }

    // No request waits whole: writes what waits to be written, and reads where nothing does.
    fn exchange<R: Ring>(
        &mut self,
        number: u64,
        desk: &mut Desk,
        buffer: &mut Buffer,
        ring: &mut R,
    ) -> Result<Round, FrontFault>
        requires open { self.old.phase ≡ Phase.Open }
        requires pending { IsPending self.old.talk.waits }
        ensures { (copies : ℕ) (old : Sockets) (xs : List Exchange) → R.shows ring.old old → Serves copies self.old (old number) xs
            → Moves (R.shows ring.new) number old (λ s. Left copies result self.new s xs) }
    {
        if self.talk.unsent().is_empty() {
            self.hear(number, desk, buffer, ring)
        } else {
            self.tell(number, desk, ring)
        }
    }

    // Writes what waits to be written; the connection ends where nothing does.
    fn finish<R: Ring>(
        &mut self,
        number: u64,
        desk: &mut Desk,
        ring: &mut R,
    ) -> Result<Round, FrontFault>
        requires { self.old.phase ≡ Phase.Closing }
        ensures { (copies : ℕ) (old : Sockets) (xs : List Exchange) → R.shows ring.old old → Serves copies self.old (old number) xs
            → Moves (R.shows ring.new) number old (λ s. Left copies result self.new s xs) }
    {
        if self.talk.unsent().is_empty() {
            Ok(Round::Done)
        } else {
            self.tell(number, desk, ring)
        }
    }

    // Writes some of what waits to be written.
    fn tell<R: Ring>(
        &mut self,
        number: u64,
        desk: &mut Desk,
        ring: &mut R,
    ) -> Result<Round, FrontFault>
        requires { 0 < length self.old.talk.unsent }
        ensures leaves { (copies : ℕ) (old : Sockets) (xs : List Exchange) → R.shows ring.old old → Serves copies self.old (old number) xs
            → Moves (R.shows ring.new) number old (λ s. Left copies result self.new s xs) }
        ensures fewer { held self.new ≤ held self.old }
    {
        match ring.write(number, self.talk.unsent()) {
            Ok(Told::Bytes(n)) => {
                self.talk.sent(desk, n);
                Ok(Round::Again)
            }
            Ok(Told::NotNow) => Ok(Round::Rests),
            Err(Failed) => Err(FrontFault::Write),
        }
    }

    // Reads once, where no request waits whole and nothing waits to be written.
    fn hear<R: Ring>(
        &mut self,
        number: u64,
        desk: &mut Desk,
        buffer: &mut Buffer,
        ring: &mut R,
    ) -> Result<Round, FrontFault>
        requires open { self.old.phase ≡ Phase.Open }
        requires pending { IsPending self.old.talk.waits }
        requires written { self.old.talk.unsent ≡ [] }
        ensures { (copies : ℕ) (old : Sockets) (xs : List Exchange) → R.shows ring.old old → Serves copies self.old (old number) xs
            → Moves (R.shows ring.new) number old (λ s. Left copies result self.new s xs) }
    {
        match ring.read(number, &mut buffer.bytes) {
            Ok(Heard::Bytes(n)) => {
                self.talk.hear(desk, &buffer.bytes[..n])?;
                Ok(Round::Again)
            }
            Ok(Heard::End) => {
                self.phase = Phase::Ended;
                Ok(Round::Again)
            }
            Ok(Heard::NotNow) => Ok(Round::Rests),
            Err(Failed) => Err(FrontFault::Read),
        }
    }
}

// Asks that a connection is reported once more.
fn call_again<R: Ring>(number: u64, ring: &mut R) -> Option<Closing>
    ensures { (copies : ℕ) (seat : Seat) (old : Sockets) (xs : List Exchange) → R.shows ring.old old → Serves copies seat (old number) xs
        → Moves (R.shows ring.new) number old (λ s. Attended copies result seat s xs) }
{
    match ring.call_again(number) {
        Ok(()) => None,
        Err(Failed) => Some(Closing::Broken(FrontFault::Read)),
    }
}
