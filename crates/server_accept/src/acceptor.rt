//! One thread takes the connections that come, and hands them out to the workers in turn.

ghost use Rattle.std.specs.Prelude.{◌≡◌, None};
ghost use Rattle.server_accept.specs.Rests.{borne, may_tell, rest_after, tells};

use crate::console::{Console, Said};
use crate::roster::Roster;
use crate::timer::Timer;
use libc::EMFILE;
use mio::net::{TcpListener, TcpStream};
use mio::{Events, Interest, Poll, Token, Waker};
use server_sockets::Stance;
use server_sockets::limits::{
    ACCEPT_REPORT_MS, ACCEPT_REST_MS, ACCEPTED_PER_TURN, OFFER_AGAIN_MS, SHED_GRACE_MS,
};
use std::alloc::Global;
use std::io;
use std::io::{Eprint, ErrorKind, Stderr, Stdin};
use std::sync::Wait;
use std::thread::Parker;
use std::time::Duration;

/// That a connection came.
const DOOR: Token = Token(0);

/// That something came on standard input.
const INPUT: Token = Token(1);

/// That someone woke it.
const WAKER: Token = Token(2);

/// The system's number for a system that may have no more open.
const ENFILE: i32 = 23;

/// What a try to take a connection came to.
enum Came {
    /// One came.
    One(TcpStream),
    /// One came and went again, or the try was interrupted: there may be another.
    Gone,
    /// None waits.
    None,
    /// None could be taken, for want of descriptors, say.
    Failed(io::Error),
}

/// How it bears that no connection could be taken: it rests, longer each time in a row, and tells of the first.
#[derive(Clone, Copy, Debug)]
struct Patience {
    /// How long it rested last, in milliseconds; nothing where all that waited were taken since.
    millis: u64,
    /// When it tries again.
    until: u64,
    /// When it told last.
    told: Option<u64>,
}

impl Patience {
    fn new() -> Patience
        ensures { result ≡ record { millis = 0; until = 0; told = None } }
    {
        Patience {
            millis: 0,
            until: 0,
            told: None,
        }
    }

    /// A connection came: there may be more.
    fn go_on(&mut self)
        ensures { self.new ≡ record self.old { until = 0 } }
    {
        self.until = 0;
    }

    /// All that waited were taken: what fails next is the first of a row.
    fn renew(&mut self)
        ensures { self.new ≡ record self.old { millis = 0 } }
    {
        self.millis = 0;
    }

    /// None could be taken now. Whether that is told.
    fn bear(&mut self, now: u64) -> bool
        ensures told { result ≡ tells self.old now }
        ensures borne { self.new ≡ borne self.old now }
    {
        let is_told = self.millis == 0 && is_due(self.told, now);
        self.millis = next_rest(self.millis);
        self.until = now.saturating_add(self.millis);
        if is_told {
            self.told = Some(now);
        }
        is_told
    }
}

/// Whether it is told again that no connection can be taken, where it was told last at that time.
fn is_due(told: Option<u64>, now: u64) -> bool
    ensures { result ≡ may_tell told now }
{
    match told {
        Some(told) => now.saturating_sub(told) >= ACCEPT_REPORT_MS,
        None => true,
    }
}

/// How long it rests after one more failure in a row, in milliseconds: 1, and twice as long each time, but never more than a second.
fn next_rest(millis: u64) -> u64
    ensures { result ≡ rest_after millis }
{
    millis.saturating_mul(2).max(1).min(ACCEPT_REST_MS)
}

/// What an acceptor begins with.
#[derive(Drop)]
pub struct Setup {
    /// Where connections come.
    pub listener: TcpListener,
    /// How many may come in all; any number where that isn't said.
    pub count: Option<u32>,
    /// Where the server is told to stop.
    pub input: Stdin,
    /// Whether it makes snapshots, which it may be told there, too.
    pub makes_snapshots: bool,
    /// Where is told what goes wrong.
    pub err: Stderr,
}

/// Takes connections and hands them out to workers in turn, and hears what is said on standard input.
#[derive(Drop)]
pub struct Acceptor {
    poll: Poll,
    events: Events<Global>,
    /// Where connections come, as long as they may.
    listener: Option<TcpListener>,
    console: Console,
    /// Whether snapshots may be asked for.
    makes_snapshots: bool,
    err: Stderr,
    timer: Timer,
    /// What it rests on where it can't wait for anything.
    rest: Parker,
    patience: Patience,
    /// How many may still come; any number where that isn't said.
    left: Option<u32>,
    /// When the last one came.
    came: u64,
    /// Whether more may wait than were taken.
    is_ready: bool,
    /// One that came, and that no worker took yet.
    held: Option<TcpStream>,
    /// The worker whose turn it is.
    turn: usize,
}

impl Acceptor {
    /// One over a poll of its own. The error: the system can't wait for connections, or memory was refused.
    pub(crate) fn new(alloc: Global, poll: Poll, setup: Setup) -> io::Result<Acceptor> {
        let Setup {
            mut listener,
            count,
            input,
            makes_snapshots,
            err,
        } = setup;
        let registry = poll.registry();
        registry.register(&mut listener, DOOR, Interest::READABLE)?;
        let console = Console::new(input);
        console.register(registry, INPUT);
        let events = Events::with_capacity(alloc, 4)?;
        Ok(Acceptor {
            poll,
            events,
            listener: Some(listener),
            console,
            makes_snapshots,
            err,
            timer: Timer::new(),
            rest: Parker::new(),
            patience: Patience::new(),
            left: count,
            came: 0,
            is_ready: true,
            held: None,
            turn: 0,
        })
    }

    /// One turn: it waits at most so long for something to do, hears what is said, and hands out what came.
    pub fn turn<R: Wait>(&mut self, rt: &R, roster: &Roster, most: Duration) {
        let most = self.wait_of(most);
        if self.poll.poll(&mut self.events, Some(most)).is_err() {
            self.rest.park_timeout(rt, most);
        }
        self.look(roster);
        if roster.ending.stance() == Stance::Stopping {
            self.close();
        }
        if self.listener.is_some() {
            let now = self.timer.now();
            self.hand_out(rt, roster, now);
        }
    }

    // How long is waited for something, if it is at most so long: where connections wait to be handed out, until they may be.
    fn wait_of(&self, most: Duration) -> Duration {
        if self.listener.is_none() || !self.is_ready {
            return most;
        }
        let millis = if self.held.is_some() {
            OFFER_AGAIN_MS
        } else {
            self.patience.until.saturating_sub(self.timer.last)
        };
        most.min(Duration::from_millis(millis))
    }

    // Looks at what was reported.
    fn look(&mut self, roster: &Roster) {
        let mut has_input = false;
        for event in &self.events {
            match event.token() {
                DOOR => self.is_ready = true,
                INPUT => has_input = true,
                _ => {}
            }
        }
        if has_input {
            let said = self.console.hear(self.poll.registry(), INPUT);
            self.obey(said, roster);
        }
    }

    // Does what was said.
    fn obey(&self, said: Said, roster: &Roster) {
        let unknown = if self.makes_snapshots {
            said.others
        } else {
            said.others.saturating_add(said.snapshots)
        };
        for _ in 0..unknown {
            let _ = self.err.eprintln("unknown line");
        }
        if self.makes_snapshots && said.snapshots > 0 {
            roster.snapshots.ask();
        }
        for _ in 0..said.stops {
            roster.stop();
        }
    }

    // No connection is taken any more, and those that wait are let go.
    fn close(&mut self) {
        self.listener = None;
        self.held = None;
    }

    // Hands out the connections that wait, so many at the most. After the last that may come it tells the workers.
    fn hand_out<R: Wait>(&mut self, rt: &R, roster: &Roster, now: u64) {
        for _ in 0..ACCEPTED_PER_TURN {
            if !self.hand_held(rt, roster) {
                return;
            }
            if self.left == Some(0) {
                self.close();
                roster.finish();
                return;
            }
            if !self.is_ready || now < self.patience.until {
                return;
            }
            match self.accept() {
                Came::One(stream) => self.keep(stream, now),
                Came::Gone => {}
                Came::None => {
                    self.is_ready = false;
                    self.patience.renew();
                }
                Came::Failed(error) => self.bear(&error, roster, now),
            }
        }
    }

    // Hands out the one that is held. Whether none is held then.
    fn hand_held<R: Wait>(&mut self, rt: &R, roster: &Roster) -> bool {
        if let Some(stream) = self.held.take() {
            if let Err(back) = roster.hand(rt, &mut self.turn, stream) {
                self.held = Some(back);
            }
        }
        self.held.is_none()
    }

    // Takes one of the connections that wait.
    fn accept(&self) -> Came {
        let Some(listener) = &self.listener else {
            return Came::None;
        };
        match listener.accept() {
            Ok((stream, _)) => Came::One(stream),
            Err(error) => match error.kind() {
                ErrorKind::WouldBlock => Came::None,
                ErrorKind::Interrupted | ErrorKind::ConnectionAborted => Came::Gone,
                _ => Came::Failed(error),
            },
        }
    }

    // One came now.
    fn keep(&mut self, stream: TcpStream, now: u64) {
        self.patience.go_on();
        self.came = now;
        self.left = self.left.map(|left| left.saturating_sub(1));
        self.held = Some(stream);
    }

    // None could be taken now. Where descriptors run out, and none came lately, a worker lets its longest idle connection go.
    fn bear(&mut self, error: &io::Error, roster: &Roster, now: u64) {
        if is_want_of_descriptors(error) && now.saturating_sub(self.came) >= SHED_GRACE_MS {
            roster.shed(&mut self.turn);
        }
        if self.patience.bear(now) {
            // What can't be told is lost.
            let _ = self
                .err
                .eprintln("no connection could be taken; trying again");
        }
    }
}

/// Whether a connection couldn't be taken since the process, or the system, may have no more open.
fn is_want_of_descriptors(error: &io::Error) -> bool {
    matches!(error.raw_os_error(), Some(EMFILE | ENFILE))
}

/// What wakes an acceptor of this poll.
pub(crate) fn waker_of(poll: &Poll) -> io::Result<Waker> {
    Waker::new(poll.registry(), WAKER)
}
