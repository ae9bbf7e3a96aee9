//! One worker with many connections.

ghost use Rattle.std.specs.Prelude.{◌≡◌, ℕ, None, IfOk};
ghost use Rattle.http_connections.specs.Sockets.{Sockets as History, unborn};
ghost use Rattle.server_sockets.specs.Orders.{reading_of};
ghost use Rattle.server_sockets.specs.Work.{Stays, Works, seats_of, shows};

use crate::inlet::Inlet;
use crate::limits::{
    CALLED_BYTES_PER_TURN, CALLED_PER_TURN, REPORTED_PER_TURN, SEATED_PER_TURN, SWEEP_MS,
    WAIT_FAILED_REST_MS,
};
use crate::orders::{Orders, Stance, Turned};
use crate::sockets::{Reading, Sockets};
use crate::unlogged::Unlogged;
use crate::watch::{full_since, is_full_for_long, while_full};
use http_connection::Backend;
use http_connections::Hall;
use mio::{Events, Poll, Token, Waker};
use std::alloc::Global;
use std::net::{Net, TcpListener, TcpStream};
use std::sync::Wait;
use std::thread::Parker;
use std::time::Duration;
use std::{io, mem};

/// What is reported where the worker is woken.
const WAKER: Token = Token(usize::MAX);

/// A worker: a hall, its sockets, and the room for what is reported.
#[derive(Drop)]
pub struct Worker {
    alloc: Global,
    hall: Hall,
    sockets: Sockets,
    events: Events,
    /// The numbers of the connections that were reported.
    reported: Vec<u64>,
    /// When clients that are too slow were last looked for.
    swept: u64,
    /// When it was told to stop, if it was: each connection was told then that it is to end.
    stopped: Option<u64>,
    /// Since when it has been full of answers that nobody takes, if it is, and no request was begun since.
    filled: Option<u64>,
    rest: Parker,
}

/// A worker without connections, and its inlet. The worker then needs `Wait` alone. The error is the system's, or want of memory.
pub fn open<R: Net<Listener = TcpListener, Stream = TcpStream>>(
    alloc: Global,
    rt: &R,
) -> io::Result<(Worker, Inlet)>
    ensures seats { IfOk result (λ made. (n : ℕ) → seats_of made.0 n ≡ None) }
    ensures shows { IfOk result (λ made. (history : History) → ((n : ℕ) → history n ≡ unborn) → shows made.0 history) }
{
    let poll = Poll::new(rt)?;
    let waker = Waker::new(poll.registry(), WAKER)?;
    let mut reported = Vec::new(alloc);
    reported.reserve(REPORTED_PER_TURN)?;
    let (unlogged, again) = Unlogged::pair(alloc)?;
    let worker = Worker {
        alloc,
        hall: Hall::new(alloc)?,
        sockets: Sockets::new(alloc, poll, unlogged)?,
        events: Events::with_capacity(alloc, REPORTED_PER_TURN)?,
        reported,
        swept: 0,
        stopped: None,
        filled: None,
        rest: Parker::new(),
    };
    Ok((worker, Inlet::new(alloc, waker, again)))
}

impl Worker {
    /// One turn: it waits at most `most` for something to do, seats what was offered, attends the connections that were reported, then some
    /// of those that had their share before and are called again, and gives up those whose clients are too slow. Each connection has a
    /// bounded share of it, so that who asks for little waits for nobody who asks for much. Where it has been full of answers for a tenth of a
    /// second it closes connections, those that hold most first.
    pub fn turn<R: Wait, B: Backend>(
        &mut self,
        rt: &R,
        inlet: &Inlet,
        backend: &mut B,
        orders: &Orders,
        most: Duration,
    ) -> Turned
        ensures { Works B.gives B.copies self.old self.new backend.old backend.new }
    {
        self.sockets.obey(reading(orders), latest(orders.now, most));
        self.wait(rt, most);
        self.seat(rt, inlet, orders.stance);
        self.attend_reported(backend);
        self.attend_held(backend);
        self.attend_called(backend);
        self.stop(orders, backend);
        self.sockets.end_draining(orders.now);
        self.give_up_overdue(orders.now);
        self.relieve(orders.now);
        Turned {
            open: self.sockets.len(),
            lacks: self.sockets.take_lacks(),
        }
    }

    /// The log has all that the worker did: writes the answers that waited for it. What these connections ask further is answered, and where
    /// something of it is noted these answers wait again.
    pub fn release<B: Backend>(&mut self, backend: &mut B)
        ensures { Works B.gives B.copies self.old self.new backend.old backend.new }
    {
        let untold = self.sockets.take_untold();
        self.attend_all(&untold, backend);
    }

    /// Closes the connection that has been idle longest, and tells whether there was one.
    pub fn shed(&mut self) -> bool
        ensures { Stays self.old self.new }
    {
        match self.sockets.longest_idle() {
            Some(number) => {
                self.hall.give_up(number, &mut self.sockets);
                true
            }
            None => false,
        }
    }

    // Waits until something is to be done. Where that fails, nothing is reported, and the worker rests.
    fn wait<R: Wait>(&mut self, rt: &R, most: Duration)
        ensures { Stays self.old self.new }
    {
        if self.sockets.wait(&mut self.events, most).is_err() {
            self.rest
                .park_timeout(rt, Duration::from_millis(WAIT_FAILED_REST_MS));
        }
        note_reported(&self.events, &mut self.sockets, &mut self.reported);
    }

    // Seats the connections that were offered. Where more were than one turn takes, the next one doesn't wait.
    fn seat<R: Wait>(&mut self, rt: &R, inlet: &Inlet, stance: Stance)
        ensures { Stays self.old self.new }
    {
        for _ in 0..SEATED_PER_TURN {
            let Some(stream) = inlet.take(rt) else {
                return;
            };
            if stance != Stance::Stopping {
                self.sockets.offer(stream);
                // One that fails ends alone.
                let _ = self.hall.admit(&mut self.sockets);
            }
        }
        inlet.wake();
    }

    // Attends the connections that were reported.
    fn attend_reported<B: Backend>(&mut self, backend: &mut B)
        ensures { Works B.gives B.copies self.old self.new backend.old backend.new }
    {
        let reported = mem::replace(&mut self.reported, Vec::new(self.alloc));
        self.attend_all(&reported, backend);
        self.reported = reported;
    }

    // Attends the connections that were held and are not any more.
    fn attend_held<B: Backend>(&mut self, backend: &mut B)
        ensures { Works B.gives B.copies self.old self.new backend.old backend.new }
    {
        let held = self.sockets.take_held();
        self.attend_all(&held, backend);
    }

    // Attends some connections.
    fn attend_all<B: Backend>(&mut self, numbers: &[u64], backend: &mut B)
        ensures { Works B.gives B.copies self.old self.new backend.old backend.new }
    {
        for number in numbers {
            self.attend(*number, backend);
        }
    }

    // Attends connections that are called again, in turn: so many times in all, or until much was read and written.
    fn attend_called<B: Backend>(&mut self, backend: &mut B)
        ensures { Works B.gives B.copies self.old self.new backend.old backend.new }
    {
        let mut moved = 0usize;
        for _ in 0..CALLED_PER_TURN {
            if moved >= CALLED_BYTES_PER_TURN {
                return;
            }
            match self.attend_next(backend) {
                Some(more) => moved = moved.saturating_add(more),
                None => return,
            }
        }
    }

    // Attends the connection that is called again and whose turn it is. Answers how many bytes of it were read and written.
    fn attend_next<B: Backend>(&mut self, backend: &mut B) -> Option<usize>
        ensures { Works B.gives B.copies self.old self.new backend.old backend.new }
    {
        match self.sockets.next_called() {
            Some(number) => Some(self.attend(number, backend)),
            None => None,
        }
    }

    // Attends a connection. Answers how many bytes of it were read and written.
    fn attend<B: Backend>(&mut self, number: u64, backend: &mut B) -> usize
        ensures { Works B.gives B.copies self.old self.new backend.old backend.new }
    {
        self.filled = while_full(self.filled, self.hall.is_full());
        self.hall.attend(number, &mut self.sockets, backend);
        match self.hall.standing(number) {
            Some(standing) => self.sockets.note(number, standing),
            None => {
                self.sockets.drain(number);
                0
            }
        }
    }

    // Attends all connections, where the worker stops and that was not done since, so that each closes as soon as its answers are written.
    fn stop<B: Backend>(&mut self, orders: &Orders, backend: &mut B)
        ensures { Works B.gives B.copies self.old self.new backend.old backend.new }
    {
        if self.stopped.is_some() || orders.stance != Stance::Stopping {
            return;
        }
        self.stopped = Some(orders.now);
        self.attend_each(backend);
    }

    // Attends all connections, once.
    fn attend_each<B: Backend>(&mut self, backend: &mut B)
        ensures { Works B.gives B.copies self.old self.new backend.old backend.new }
    {
        let mut from = 0;
        for _ in 0..self.sockets.len() {
            let Some(number) = self.sockets.first_from(from) else {
                return;
            };
            self.attend(number, backend);
            from = number.saturating_add(1);
        }
    }

    // Gives up the connections whose clients are too slow, where they were not looked for lately.
    fn give_up_overdue(&mut self, now: u64)
        ensures { Stays self.old self.new }
    {
        if now.saturating_sub(self.swept) < SWEEP_MS {
            return;
        }
        self.swept = now;
        self.sweep(now);
    }

    // Closes connections, those that hold most first, where the worker has been full for as long as it may, until half of that waits.
    fn relieve(&mut self, now: u64)
        ensures { Stays self.old self.new }
    {
        // Answers that wait for the log are nobody's fault.
        let is_full = self.hall.is_full() && !self.sockets.has_untold();
        self.filled = full_since(self.filled, is_full, now);
        if is_full_for_long(self.filled, now) {
            self.filled = None;
            self.hall.relieve(&mut self.sockets);
        }
    }

    // Gives up the connections whose clients are too slow.
    fn sweep(&mut self, now: u64)
        ensures { Stays self.old self.new }
    {
        let mut from = 0;
        for _ in 0..self.sockets.len() {
            let Some(number) = self.sockets.first_overdue(from, self.stopped, now) else {
                return;
            };
            self.hall.give_up(number, &mut self.sockets);
            from = number.saturating_add(1);
        }
    }
}

// Keeps the numbers of the connections that were reported and are attended at once, and what was reported of each.
fn note_reported(events: &Events, sockets: &mut Sockets, reported: &mut Vec<u64>)
    ensures next { sockets.new.next ≡ sockets.old.next }
{
    reported.clear();
    for event in events {
        let Token(number) = event.token();
        let closes = event.is_read_closed() || event.is_error();
        if sockets.report(number as u64, closes) {
            // There is room for each: so many are reported at the most.
            let _ = reported.push(number as u64);
        }
    }
}

// Whether connections are read from.
fn reading(orders: &Orders) -> Reading
    ensures { result ≡ reading_of orders.entry.now.stance orders.entry.now.may_read }
{
    match orders.stance {
        Stance::Stopping => Reading::Over,
        Stance::Serving | Stance::Finishing => {
            if orders.may_read {
                Reading::Allowed
            } else {
                Reading::Held
            }
        }
    }
}

// The time at which a wait of at most so long has ended.
fn latest(now: u64, most: Duration) -> u64 {
    now.saturating_add(u64::try_from(most.as_millis()).unwrap_or(u64::MAX))
}
