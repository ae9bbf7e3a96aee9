//! What somebody looks at who does something beside the workers.

ghost use Rattle.std.specs.Prelude.{◌≡◌, ◌&&◌, IfOk, IfSome, not};
ghost use Rattle.dvvstore.specs.Asides.{IsWholeList};

use crate::crew::scribe::Filing;
use kept_hooks::{Requests, Writes};
use server_accept::Lobby;
use server_sockets::Stance;
use std::alloc::AllocError;
use std::sync::atomic::AtomicBool;
use std::sync::atomic::Ordering::SeqCst;
use std::sync::{Mutex, Wait};
use std::thread::Parker;
use std::time::Duration;

/// How long something goes on that is done beside the workers.
#[derive(Clone, Copy, Debug, PartialEq, Eq)]
pub enum Until {
    /// Until the server is told to stop.
    Stop,
    /// Until all workers have ended: the server had been told to stop when it began.
    End,
}

impl Until {
    /// Whether it goes on, by whether the server was told to stop, and whether all workers have ended.
    fn goes_on(self, is_stopping: bool, is_over: bool) -> bool
        ensures stop { self ≡ Until.Stop → result ≡ (not is_stopping && not is_over) }
        ensures end { self ≡ Until.End → result ≡ not is_over }
    {
        match self {
            Until::Stop => !is_stopping && !is_over,
            Until::End => !is_over,
        }
    }
}

/// What somebody looks at who does something beside the workers.
#[derive(Clone, Copy)]
pub struct Signs<'a> {
    /// Where what is said to the server is heard.
    pub lobby: &'a Lobby,
    pub(crate) requests: &'a Mutex<Requests>,
    pub(crate) over: &'a AtomicBool,
    pub(crate) bell: &'a Parker,
    pub(crate) writes: &'a Writes,
    pub(crate) trailing: &'a AtomicBool,
    /// Who has this alone writes the file of the requests that make hooks what they are.
    pub(crate) filing: &'a Mutex<Filing>,
    /// How long that goes on which is done by these signs.
    pub(crate) until: Until,
}

impl<'a> Signs<'a> {
    /// The same signs, for what begins now.
    pub fn from_now(&self) -> Signs<'a> {
        Signs {
            until: if self.is_stopping() {
                Until::End
            } else {
                Until::Stop
            },
            ..*self
        }
    }

    /// Whether that goes on which is done by these signs.
    pub fn go_on(&self) -> bool {
        self.until.goes_on(self.is_stopping(), self.is_over())
    }

    /// Whether the server was told to stop.
    fn is_stopping(&self) -> bool {
        self.lobby.roster.ending.stance() == Stance::Stopping
    }

    /// Whether all workers have ended.
    pub fn is_over(&self) -> bool {
        self.over.load(SeqCst)
    }

    /// Waits at most so long, and no longer than until all workers have ended. Of several threads that do so at a time one alone waits.
    pub fn wait<R: Wait>(&self, rt: &R, most: Duration) {
        if !self.is_over() {
            self.bell.park_timeout(rt, most);
        }
    }

    /// Whether so much waits to be followed that snapshots wait for it.
    pub fn is_trailing(&self) -> bool {
        self.trailing.load(SeqCst)
    }

    /// Whether something was written, as far as is noted.
    pub fn is_written(&self) -> bool {
        self.writes.is_noted()
    }

    /// Notes that something was written, or that all that was is known: what is written from now on is noted again.
    pub fn note_written(&self, written: bool) {
        if written {
            self.writes.note();
        } else {
            self.writes.forget();
        }
    }

    /// The requests that make the hooks what they are. None where one of them is lacking.
    pub fn requests<R: Wait>(&self, rt: &R) -> Result<Option<Vec<u8>>, AllocError>
        ensures { IfOk result (λ bytes. IfSome bytes (λ bytes. IsWholeList bytes.items)) }
    {
        self.requests.lock(rt).bytes()
    }
}
