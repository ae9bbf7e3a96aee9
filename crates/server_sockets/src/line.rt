//! One connection's socket.

ghost use Rattle.std.specs.Prelude.{◌≡◌, ◌<◌, ◌≤◌, ◌-◌, ◌&&◌, length, min, nat_lt, not, false, IfOk, if◌then◌else◌};
ghost use Rattle.http_connections.specs.Spoken.{FitsHeard, FitsTold};
ghost use Rattle.server_sockets.specs.Streams.{GivesBytes, TakesBytes, gone};

use crate::limits::{BUSY_BYTES, DROPPED_BYTES, DROPPING_READS};
use crate::outcome::{Unmade, heard_by, told_by};
use crate::watch::Watch;
use http_connection::Failed;
use http_connections::{Heard, Standing, Told};
use mio::event::Source;
use mio::net::TcpStream;
use mio::{Interest, Registry, Token};
use std::io::{ErrorKind, Read, Write};
use std::mem;
use std::net::Shutdown;

/// What is done with a connection.
#[derive(Clone, Copy, Debug, PartialEq, Eq)]
pub(crate) enum Course {
    /// It is served.
    Served,
    /// All was written. What the client still sends is dropped, so many bytes at most.
    Drains(usize),
}

/// Whether a connection is over.
#[derive(Clone, Copy, Debug, PartialEq, Eq)]
pub(crate) enum Drained {
    /// More may come.
    NotYet,
    /// More may be there.
    Again,
    /// It is over.
    Over,
}

/// What the next read of a connection may find.
#[derive(Clone, Copy, Debug, PartialEq, Eq)]
enum Inflow {
    /// Bytes may be there.
    Ready,
    /// The last read found no more than was there: nothing is, until the socket is reported once more.
    Dry,
    /// Its client sends nothing more, or it failed, which is reported once: what is left is read to its end.
    Closing,
}

/// One connection's socket, over any stream: so it is said which bytes reads and writes move, where a stream's are known.
#[derive(Drop)]
pub(crate) struct Line<S> {
    stream: S,
    inflow: Inflow,
    pub(crate) course: Course,
    /// For how long its client has kept it waiting.
    pub(crate) watch: Watch,
    /// Whether some bytes of its answers were taken since the watch was looked at.
    pub(crate) has_taken: bool,
    /// Whether it was not read from, since nothing is read now.
    pub(crate) is_held: bool,
    /// Whether it stands among those that are called again.
    pub(crate) is_called: bool,
    /// So many bytes were read and written since it was last noted how it stands.
    moved: usize,
    /// Whether that was much, when it was noted last.
    pub(crate) moves_much: bool,
    /// So many bytes of the answers that wait to be written tell of nothing that isn't in the log.
    may_go: usize,
    /// So many bytes waited to be written when it was last not written to for the log's sake; 0 where it wasn't since its last credit.
    waits: usize,
    /// Whether it stands among those whose answers wait for the log.
    pub(crate) is_untold: bool,
}

impl Line<TcpStream> {
    pub(crate) fn new(stream: TcpStream, now: u64) -> Line<TcpStream> {
        // Where the system knows none of this, answers are slower.
        let _ = stream.set_nodelay(true);
        Line {
            stream,
            inflow: Inflow::Ready,
            course: Course::Served,
            watch: Watch::new(now),
            has_taken: false,
            is_held: false,
            is_called: false,
            moved: 0,
            moves_much: false,
            may_go: 0,
            waits: 0,
            is_untold: false,
        }
    }

    /// Tells the client that no more comes. Whether what it still sends is to be dropped.
    pub(crate) fn hang_up(&mut self) -> bool {
        self.course = Course::Drains(DROPPED_BYTES);
        self.stream.shutdown(Shutdown::Write).is_ok()
    }
}

impl<S: Read + Write + Source> Line<S> {
    /// Has it reported under a number.
    pub(crate) fn register(&mut self, registry: &Registry, number: u64) -> Result<(), Failed> {
        let both = Interest::READABLE | Interest::WRITABLE;
        let token = Token(number as usize);
        if registry.register(&mut self.stream, token, both).is_err() {
            return Err(Failed);
        }
        Ok(())
    }

    /// Has it reported once more, if it is ready.
    pub(crate) fn register_again(&mut self, registry: &Registry, number: u64) -> Result<(), Failed>
        ensures kept { S.keeps self.old.stream self.new.stream }
        ensures may_go { self.new.may_go ≡ self.old.may_go }
    {
        let both = Interest::READABLE | Interest::WRITABLE;
        let token = Token(number as usize);
        if registry.reregister(&mut self.stream, token, both).is_err() {
            return Err(Failed);
        }
        Ok(())
    }

    /// It was reported, and whether its client sends nothing more, or it failed.
    pub(crate) fn report(&mut self, closes: bool) {
        if closes {
            self.inflow = Inflow::Closing;
        } else if self.inflow == Inflow::Dry {
            self.inflow = Inflow::Ready;
        }
    }

    /// Reads some bytes. One that was interrupted is reported once more.
    pub(crate) fn read(
        &mut self,
        registry: &Registry,
        number: u64,
        buf: &mut [u8],
    ) -> Result<Heard, Failed>
        requires { 0 < length buf.old }
        ensures fits { IfOk result (FitsHeard (length buf.new)) }
        ensures given { IfOk result (GivesBytes S.remaining S.keeps self.old.stream self.new.stream buf.new) }
    {
        if self.inflow == Inflow::Dry {
            return Ok(Heard::NotNow);
        }
        match heard_by(self.stream.read(buf)) {
            Ok(heard) => {
                self.note_heard(heard, buf.len());
                Ok(heard)
            }
            Err(Unmade::Interrupted) => {
                self.register_again(registry, number)?;
                Ok(Heard::NotNow)
            }
            Err(Unmade::Failed) => Err(Failed),
        }
    }

    // A read came to that, with so much room. One that left room has read all that was there.
    fn note_heard(&mut self, heard: Heard, room: usize)
        ensures { self.new.stream ≡ self.old.stream }
    {
        if let Heard::Bytes(n) = heard {
            if n < room && self.inflow == Inflow::Ready {
                self.inflow = Inflow::Dry;
            }
            self.moved = self.moved.saturating_add(n);
        }
    }

    /// Tells the client bytes of its answers, where the log has all that its worker did, or not. Where it doesn't no more are written than
    /// are known to tell of nothing else, and it is noted how many wait where none are. One that was interrupted is reported once more.
    pub(crate) fn tell(
        &mut self,
        registry: &Registry,
        number: u64,
        bytes: &[u8],
        is_logged: bool,
    ) -> Result<Told, Failed>
        requires { 0 < length bytes.now }
        ensures fits { IfOk result (FitsTold (length bytes.now)) }
        ensures taken { IfOk result (TakesBytes S.contents S.keeps self.old.stream self.new.stream bytes.now) }
        ensures logged { IfOk result (λ told. is_logged ≡ false → gone told ≤ self.old.may_go) }
        ensures credit { IfOk result (λ told. self.new.may_go ≡ self.old.may_go - gone told) }
        ensures waits { is_logged ≡ false → self.old.may_go ≡ 0 → self.new.waits ≡ length bytes.now }
    {
        let most = self.sendable(bytes.len(), is_logged);
        if most == 0 {
            self.waits = bytes.len();
            return Ok(Told::NotNow);
        }
        self.write(registry, number, &bytes[..most])
    }

    // How many of so many bytes may be written, where the log has all that the worker did, or not.
    fn sendable(&self, len: usize, is_logged: bool) -> usize
        ensures { result ≡ (if is_logged then len else min len self.now.may_go) }
    {
        if is_logged { len } else { len.min(self.may_go) }
    }

    /// Writes some bytes. One that was interrupted is reported once more.
    fn write(&mut self, registry: &Registry, number: u64, bytes: &[u8]) -> Result<Told, Failed>
        requires { 0 < length bytes.now }
        ensures fits { IfOk result (FitsTold (length bytes.now)) }
        ensures taken { IfOk result (TakesBytes S.contents S.keeps self.old.stream self.new.stream bytes.now) }
        ensures credit { IfOk result (λ told. self.new.may_go ≡ self.old.may_go - gone told) }
    {
        match told_by(self.stream.write(bytes)) {
            Ok(told) => {
                self.note_told(told);
                Ok(told)
            }
            Err(Unmade::Interrupted) => {
                self.register_again(registry, number)?;
                Ok(Told::NotNow)
            }
            Err(Unmade::Failed) => Err(Failed),
        }
    }

    // A write came to that.
    fn note_told(&mut self, told: Told)
        ensures stream { self.new.stream ≡ self.old.stream }
        ensures credit { self.new.may_go ≡ self.old.may_go - gone told }
    {
        if let Told::Bytes(n) = told {
            self.has_taken = true;
            self.moved = self.moved.saturating_add(n);
            self.may_go = self.may_go.saturating_sub(n);
        }
    }

    /// Whether it waits for the log and stands not yet among those that do.
    pub(crate) fn is_to_wait(&self) -> bool
        ensures { result ≡ (not self.now.is_untold && nat_lt 0 self.now.waits) }
    {
        !self.is_untold && 0 < self.waits
    }

    /// The log has all that its worker did: what waited then may be written. For the time for which it waited its client is not to blame.
    pub(crate) fn credit(&mut self, now: u64)
        ensures may_go { self.new.may_go ≡ self.old.waits }
        ensures waits { self.new.waits ≡ 0 }
        ensures told { self.new.is_untold ≡ false }
        ensures since { self.new.watch.since ≡ now }
    {
        self.may_go = self.waits;
        self.waits = 0;
        self.is_untold = false;
        self.watch.since = now;
    }

    /// It stands so in the hall now, and is read from or not. For the time for which it wasn't its client is not to blame. Answers how many
    /// bytes were read and written since this was noted last.
    pub(crate) fn note(&mut self, standing: Standing, reads: bool, now: u64) -> usize {
        self.watch = self.watch.after(standing, self.has_taken, now);
        self.has_taken = false;
        if self.is_held && reads {
            self.is_held = false;
            self.watch.since = now;
        }
        let moved = mem::replace(&mut self.moved, 0);
        self.moves_much = moved >= BUSY_BYTES;
        moved
    }

    /// Reads and drops what the client sends.
    pub(crate) fn drain(&mut self, room: &mut [u8]) -> Drained {
        for _ in 0..DROPPING_READS {
            let Course::Drains(left) = self.course else {
                return Drained::NotYet;
            };
            let most = left.min(room.len());
            match self.stream.read(&mut room[..most]) {
                Ok(n) if 0 < n && n < left => self.course = Course::Drains(left - n),
                Ok(_) => return Drained::Over,
                Err(error) if error.kind() == ErrorKind::WouldBlock => return Drained::NotYet,
                Err(error) if error.kind() == ErrorKind::Interrupted => {}
                Err(_) => return Drained::Over,
            }
        }
        Drained::Again
    }
}
