//! The sockets of one worker.

ghost use Rattle.std.specs.Prelude.{◌≡◌, ◌≢◌, ◌<◌, ◌≤◌, ◌+◌, ◌-◌, ◌^◌, ◌↔◌, ◌||◌, ℕ, length, max, min, false, IsTrue, IfOk, OnErr};
ghost use Rattle.http_connections.specs.Spoken.{FitsTold};
ghost use Rattle.server_sockets.specs.Limits.{is_too_slow};

use crate::limits::{DROPPED_PIECE_BYTES, LINGER_MS};
use crate::line::{Course, Drained, Line};
use crate::looks::Looks;
use crate::unlogged::Unlogged;
use http_connection::{Failed, FrontFault};
use http_connections::{Closing, Heard, Ring, Standing, Told};
use mio::net::TcpStream;
use mio::{Events, Poll};
use std::alloc::{AllocError, Global};
use std::collections::{BTreeMap, VecDeque};
use std::thread::yield_now;
use std::time::Duration;
use std::{io, mem};

/// Whether connections are read from.
#[derive(Clone, Copy, Debug, PartialEq, Eq)]
pub(crate) enum Reading {
    /// They are.
    Allowed,
    /// They are not now.
    Held,
    /// They are not any more: to the hall it is as if each client sent nothing more.
    Over,
}

/// The sockets of one worker.
#[derive(Drop)]
pub(crate) struct Sockets {
    alloc: Global,
    poll: Poll,
    /// How often it is looked for something to do before the next sleep.
    looks: Looks,
    lines: BTreeMap<u64, Line<TcpStream>>,
    /// No connection had this number, or a greater one.
    next: u64,
    /// The connection that waits to be taken.
    coming: Option<TcpStream>,
    reading: Reading,
    /// The connections that were not read from, since nothing is read now.
    held: Vec<u64>,
    /// Whether the worker did something that the log doesn't have yet.
    unlogged: Unlogged,
    /// The connections whose answers wait for the log.
    untold: Vec<u64>,
    /// The connections that are attended once more, in turn, behind those that are reported.
    called: VecDeque<u64>,
    /// The connections whose last bytes are dropped, each with the time at which that ends.
    draining: VecDeque<(u64, u64)>,
    /// Room for bytes that are dropped.
    room: Vec<u8>,
    /// The time at which this turn has ended its wait, at the latest.
    now: u64,
    /// So many connections ended for want of memory.
    lacks: u32,
}

impl Sockets {
    pub(crate) fn new(alloc: Global, poll: Poll, unlogged: Unlogged) -> Result<Sockets, AllocError>
        ensures { IfOk result (λ sockets. sockets.next ≡ 0) }
    {
        Ok(Sockets {
            alloc,
            poll,
            looks: Looks::new(),
            lines: BTreeMap::new(alloc),
            next: 0,
            coming: None,
            reading: Reading::Allowed,
            held: Vec::new(alloc),
            unlogged,
            untold: Vec::new(alloc),
            called: VecDeque::new(alloc),
            draining: VecDeque::new(alloc),
            room: vec![in alloc; 0; DROPPED_PIECE_BYTES]?,
            now: 0,
            lacks: 0,
        })
    }

    /// How many connections there are.
    pub(crate) fn len(&self) -> usize {
        self.lines.len()
    }

    /// How many ended for want of memory since this was asked last.
    pub(crate) fn take_lacks(&mut self) -> u32
        ensures next { self.new.next ≡ self.old.next }
    {
        mem::replace(&mut self.lacks, 0)
    }

    // One more ended for want of memory.
    fn lack(&mut self)
        ensures next { self.new.next ≡ self.old.next }
    {
        self.lacks = self.lacks.saturating_add(1);
    }

    /// From now on it is so with reading, and this is the time.
    pub(crate) fn obey(&mut self, reading: Reading, now: u64)
        ensures next { self.new.next ≡ self.old.next }
    {
        self.reading = reading;
        self.now = now;
    }

    /// Waits until something is to be done, at most so long.
    pub(crate) fn wait(&mut self, events: &mut Events, most: Duration) -> io::Result<()>
        ensures next { self.new.next ≡ self.old.next }
    {
        let most = self.longest_wait(most);
        if most != Duration::ZERO {
            let is_found = self.look(events)?;
            self.looks = self.looks.after(is_found);
            if is_found {
                return Ok(());
            }
        }
        self.poll.poll(events, Some(most))
    }

    // Looks for something to do, as often as that may pay. Between two looks other threads may have the processor. Whether something is.
    fn look(&mut self, events: &mut Events) -> io::Result<bool>
        ensures next { self.new.next ≡ self.old.next }
    {
        for _ in 0..self.looks.count {
            self.poll.poll(events, Some(Duration::ZERO))?;
            if !events.is_empty() {
                return Ok(true);
            }
            yield_now();
        }
        Ok(false)
    }

    // How long is waited, if it is at most so long: not at all where connections are called again, or where some were held, or waited for the
    // log, and don't any more.
    fn longest_wait(&self, most: Duration) -> Duration {
        let is_freed = self.reading != Reading::Held && !self.held.is_empty();
        let is_logged = !self.untold.is_empty() && !self.unlogged.is_noted();
        if is_freed || is_logged || !self.called.is_empty() {
            Duration::ZERO
        } else if self.draining.is_empty() {
            most
        } else {
            most.min(Duration::from_millis(LINGER_MS))
        }
    }

    /// A connection was reported, and whether its client sends nothing more, or it failed. Whether it is attended at once: one that is
    /// called again, or of which much was read and written when it was last attended, has its turn behind others.
    pub(crate) fn report(&mut self, number: u64, closes: bool) -> bool
        ensures next { self.new.next ≡ self.old.next }
    {
        let Some(line) = self.lines.get_mut(&number) else {
            return false;
        };
        line.report(closes);
        if line.moves_much {
            return self.call(number).is_err();
        }
        !line.is_called
    }

    /// A connection waits to be taken.
    pub(crate) fn offer(&mut self, stream: TcpStream)
        ensures next { self.new.next ≡ self.old.next }
    {
        self.coming = Some(stream);
    }

    /// The connections that were held, where they are not held any more.
    pub(crate) fn take_held(&mut self) -> Vec<u64>
        ensures next { self.new.next ≡ self.old.next }
    {
        if self.reading == Reading::Held {
            return Vec::new(self.alloc);
        }
        mem::replace(&mut self.held, Vec::new(self.alloc))
    }

    /// Whether answers wait for the log.
    pub(crate) fn has_untold(&self) -> bool {
        !self.untold.is_empty()
    }

    /// The connections whose answers waited for the log, which has all that the worker did: what waits of them may be written now.
    pub(crate) fn take_untold(&mut self) -> Vec<u64>
        ensures next { self.new.next ≡ self.old.next }
    {
        let untold = mem::replace(&mut self.untold, Vec::new(self.alloc));
        for number in &untold {
            self.credit(*number);
        }
        untold
    }

    // What waits of a connection may be written.
    fn credit(&mut self, number: u64)
        ensures next { self.new.next ≡ self.old.next }
    {
        let now = self.now;
        if let Some(line) = self.lines.get_mut(&number) {
            line.credit(now);
        }
    }

    // A connection that was not written to waits for the log, if that is why.
    fn await_log(&mut self, number: u64) -> Result<(), Failed>
        ensures next { self.new.next ≡ self.old.next }
    {
        let Some(line) = self.lines.get_mut(&number) else {
            return Err(Failed);
        };
        if !line.is_to_wait() {
            return Ok(());
        }
        if self.untold.push(number).is_err() {
            self.lacks = self.lacks.saturating_add(1);
            return Err(Failed);
        }
        line.is_untold = true;
        Ok(())
    }

    // Tells a connection bytes of its answers, or has it wait for the log.
    fn send(&mut self, number: u64, bytes: &[u8]) -> Result<Told, Failed>
        requires { 0 < length bytes.now }
        ensures next { self.new.next ≡ self.old.next }
        ensures fits { IfOk result (FitsTold (length bytes.now)) }
    {
        let told = self.tell(number, bytes)?;
        if told == Told::NotNow {
            self.await_log(number)?;
        }
        Ok(told)
    }

    // Tells a connection bytes of its answers, all of them or those that tell of nothing that the log lacks.
    fn tell(&mut self, number: u64, bytes: &[u8]) -> Result<Told, Failed>
        requires { 0 < length bytes.now }
        ensures next { self.new.next ≡ self.old.next }
        ensures fits { IfOk result (FitsTold (length bytes.now)) }
    {
        let is_logged = !self.unlogged.is_noted();
        match self.lines.get_mut(&number) {
            Some(line) => line.tell(self.poll.registry(), number, bytes, is_logged),
            None => Err(Failed),
        }
    }

    /// The connection that is called again and whose turn it is.
    pub(crate) fn next_called(&mut self) -> Option<u64>
        ensures next { self.new.next ≡ self.old.next }
    {
        let Some(number) = self.called.pop_front() else {
            return None;
        };
        if let Some(line) = self.lines.get_mut(&number) {
            line.is_called = false;
        }
        Some(number)
    }

    // A connection is called again.
    fn call(&mut self, number: u64) -> Result<(), Failed>
        ensures next { self.new.next ≡ self.old.next }
    {
        let Some(line) = self.lines.get_mut(&number) else {
            return Err(Failed);
        };
        if line.is_called {
            return Ok(());
        }
        if self.called.push_back(number).is_err() {
            self.lacks = self.lacks.saturating_add(1);
            return Err(Failed);
        }
        line.is_called = true;
        Ok(())
    }

    /// A connection stands so in the hall now. Answers how many bytes of it were read and written since this was noted last.
    pub(crate) fn note(&mut self, number: u64, standing: Standing) -> usize
        ensures next { self.new.next ≡ self.old.next }
    {
        let (reads, now) = (self.reading != Reading::Held, self.now);
        match self.lines.get_mut(&number) {
            Some(line) => line.note(standing, reads, now),
            None => 0,
        }
    }

    /// Drops what the client of a connection sends that is closed but for that.
    pub(crate) fn drain(&mut self, number: u64)
        ensures next { self.new.next ≡ self.old.next }
    {
        let Some(line) = self.lines.get_mut(&number) else {
            return;
        };
        let is_over = match line.drain(&mut self.room) {
            Drained::NotYet => false,
            Drained::Again => line.register_again(self.poll.registry(), number).is_err(),
            Drained::Over => true,
        };
        if is_over {
            self.lines.remove(&number);
        }
    }

    /// Closes the connections whose last bytes were dropped for long enough.
    pub(crate) fn end_draining(&mut self, now: u64)
        ensures next { self.new.next ≡ self.old.next }
    {
        for _ in 0..self.draining.len() {
            match self.draining.front() {
                Some((_, until)) if *until <= now => {}
                _ => return,
            }
            if let Some((number, _)) = self.draining.pop_front() {
                self.lines.remove(&number);
            }
        }
    }

    /// The first connection from a number on.
    pub(crate) fn first_from(&self, from: u64) -> Option<u64> {
        self.lines.range(from..).next().map(|(number, _)| *number)
    }

    /// The first connection from a number on whose client has kept it waiting for too long, where the worker was told to stop at that
    /// moment, if it was.
    pub(crate) fn first_overdue(&self, from: u64, stopped: Option<u64>, now: u64) -> Option<u64> {
        self.lines
            .range(from..)
            .find(|(_, line)| is_overdue(line, stopped, now))
            .map(|(number, _)| *number)
    }

    /// The connection that has been idle longest.
    pub(crate) fn longest_idle(&self) -> Option<u64> {
        let mut longest: Option<(u64, u64)> = None;
        for (number, line) in &self.lines {
            let is_longer = match longest {
                Some((_, since)) => line.watch.since < since,
                None => true,
            };
            if is_longer && is_idle(line) {
                longest = Some((*number, line.watch.since));
            }
        }
        longest.map(|(number, _)| number)
    }

    // Takes a connection, under the next number.
    fn enter(&mut self, stream: TcpStream) -> Result<u64, Failed>
        ensures entered { IfOk result (λ number. (number ≡ self.old.next) × (number < 2 ^ 64 - 1) × (self.new.next ≡ number + 1)) }
        ensures refused { OnErr result (self.new.next ≡ self.old.next) }
    {
        let number = self.next;
        if number >= u64::MAX - 1 {
            return Err(Failed);
        }
        let mut line = Line::new(stream, self.now);
        line.register(self.poll.registry(), number)?;
        if self.lines.insert(number, line).is_err() {
            self.lack();
            return Err(Failed);
        }
        self.next = number + 1;
        Ok(number)
    }

    // A connection is not read from now.
    fn hold(&mut self, number: u64) -> Result<(), Failed>
        ensures next { self.new.next ≡ self.old.next }
    {
        let Some(line) = self.lines.get_mut(&number) else {
            return Err(Failed);
        };
        if line.is_held {
            return Ok(());
        }
        if self.held.push(number).is_err() {
            self.lacks = self.lacks.saturating_add(1);
            return Err(Failed);
        }
        line.is_held = true;
        Ok(())
    }

    // Tells a client that no more comes, and drops what it still sends for a while.
    fn close_in_order(&mut self, number: u64)
        ensures next { self.new.next ≡ self.old.next }
    {
        let until = self.now.saturating_add(LINGER_MS);
        let drains = match self.lines.get_mut(&number) {
            Some(line) => line.hang_up() && self.draining.push_back((number, until)).is_ok(),
            None => false,
        };
        if drains {
            self.drain(number);
        } else {
            self.lines.remove(&number);
        }
    }

    // The number is never given to a connection that comes later.
    fn skip(&mut self, number: u64)
        ensures { self.new.next ≡ max self.old.next (min (number + 1) (2 ^ 64 - 1)) }
    {
        if self.next <= number {
            self.next = number.saturating_add(1);
        }
    }
}

// Whether the client of a connection has kept it waiting for too long.
fn is_overdue(line: &Line<TcpStream>, stopped: Option<u64>, now: u64) -> bool
    ensures drains { line.now.course ≢ Course.Served → result ≡ false }
    ensures served { line.now.course ≡ Course.Served → result ≡ is_too_slow line.now.watch (line.now.is_held || line.now.is_untold) stopped now }
{
    let is_held = line.is_held || line.is_untold;
    line.course == Course::Served && line.watch.is_given_up(is_held, stopped, now)
}

// Whether a connection is between two requests.
fn is_idle(line: &Line<TcpStream>) -> bool
    ensures { IsTrue result ↔ ((line.now.course ≡ Course.Served) × (line.now.watch.standing ≡ Standing.Idle)) }
{
    line.course == Course::Served && line.watch.standing == Standing::Idle
}

impl Ring for Sockets {
    ghost use Rattle.server_sockets.specs.Shows.{Shows, Answers};

    ghost shows = { λ it sockets. Shows it.next sockets };

    ghost accepts = { λ old answer _. Answers old.coming old.next answer };

    fn accept(&mut self) -> Result<Option<u64>, Failed> {
        match self.coming.take() {
            Some(stream) => match self.enter(stream) {
                Ok(number) => Ok(Some(number)),
                Err(Failed) => Err(Failed),
            },
            None => Ok(None),
        }
    }

    fn read(&mut self, number: u64, buf: &mut [u8]) -> Result<Heard, Failed> {
        self.skip(number);
        match self.reading {
            Reading::Allowed => match self.lines.get_mut(&number) {
                Some(line) => line.read(self.poll.registry(), number, buf),
                None => Err(Failed),
            },
            Reading::Held => {
                self.hold(number)?;
                Ok(Heard::NotNow)
            }
            Reading::Over => Ok(Heard::End),
        }
    }

    fn write(&mut self, number: u64, bytes: &[u8]) -> Result<Told, Failed> {
        self.skip(number);
        self.send(number, bytes)
    }

    fn call_again(&mut self, number: u64) -> Result<(), Failed> {
        self.skip(number);
        self.call(number)
    }

    fn close(&mut self, number: u64, closing: Closing) {
        self.skip(number);
        match closing {
            Closing::InOrder => self.close_in_order(number),
            Closing::Broken(FrontFault::NoMemory) => {
                self.lack();
                self.lines.remove(&number);
            }
            Closing::Broken(_) | Closing::GivenUp => {
                self.lines.remove(&number);
            }
        }
    }
}
