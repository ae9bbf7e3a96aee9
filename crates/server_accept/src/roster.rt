//! The workers, as the thread that accepts sees them.

ghost use Rattle.std.specs.Prelude.{◌≡◌, IfSome};
ghost use Rattle.server_accept.specs.Waiting.{HasHadNone};

use crate::ending::Ending;
use crate::snapshots::Snapshots;
use mio::net::TcpStream;
use server_sockets::{Inlet, Worker};
use std::sync::atomic::Ordering::SeqCst;
use std::sync::atomic::{AtomicBool, AtomicU64};
use std::sync::{Mutex, Wait};

/// A worker that nobody has taken yet, so that no connection ever came to it.
#[derive(Drop)]
struct Waiting {
    worker: Worker,
    ghost none: { HasHadNone worker },
}

/// A worker, until a thread takes it, and where it is told what others want of it.
#[derive(Drop)]
pub struct Post {
    waiting: Mutex<Option<Waiting>>,
    /// Where its connections come.
    pub inlet: Inlet,
    is_to_shed: AtomicBool,
    /// How many of its worker's turns have ended.
    turns: AtomicU64,
}

impl Post {
    /// The post of a worker with this inlet.
    pub(crate) fn new(worker: Worker, inlet: Inlet) -> Post
        requires none { HasHadNone worker }
    {
        Post {
            waiting: Mutex::new(Some(Waiting { worker })),
            inlet,
            is_to_shed: AtomicBool::new(false),
            turns: AtomicU64::new(0),
        }
    }

    /// Hands the worker over to the thread that is to run it: the first that asks. No connection ever came to it.
    pub fn take_worker<R: Wait>(&self, rt: &R) -> Option<Worker>
        ensures none { IfSome result HasHadNone }
    {
        let waiting = self.waiting.lock(rt).take()?;
        Some(waiting.worker)
    }

    /// Whether the worker was asked, since it last looked, to let its longest idle connection go.
    pub fn is_to_shed(&self) -> bool {
        self.is_to_shed.swap(false, SeqCst)
    }

    /// A turn of the worker has ended.
    pub fn note_turn(&self) {
        self.turns.fetch_add(1, SeqCst);
    }

    /// How many of the worker's turns have ended. What was begun in a turn has ended where this is another number than then.
    pub fn turns(&self) -> u64 {
        self.turns.load(SeqCst)
    }

    // Asks it to.
    fn ask_to_shed(&self) {
        self.is_to_shed.store(true, SeqCst);
        self.inlet.wake();
    }
}

/// The workers' posts, and how far the end has come.
#[derive(Drop)]
pub struct Roster {
    /// The posts, in the order of their places.
    pub posts: Vec<Post>,
    /// How far the end has come.
    pub ending: Ending,
    /// Whether a snapshot is asked for.
    pub snapshots: Snapshots,
}

impl Roster {
    /// Workers with these posts.
    pub(crate) fn new(posts: Vec<Post>) -> Roster
        ensures { result.posts ≡ posts }
    {
        Roster {
            posts,
            ending: Ending::new(),
            snapshots: Snapshots::new(),
        }
    }

    /// Has all workers look up from their waits.
    pub fn wake_all(&self) {
        for post in &self.posts {
            post.inlet.wake();
        }
    }

    /// Tells all workers to stop: in order, the first time, and the second time at once.
    pub(crate) fn stop(&self) {
        self.ending.stop();
        self.wake_all();
    }

    /// Tells all workers that no more connections come.
    pub(crate) fn finish(&self) {
        self.ending.finish();
        self.wake_all();
    }

    /// Hands a connection to the first worker from a place on that takes it. It comes back where none does, as where none has begun.
    pub(crate) fn hand<R: Wait>(
        &self,
        rt: &R,
        turn: &mut usize,
        mut stream: TcpStream,
    ) -> Result<(), TcpStream> {
        for _ in 0..self.posts.len() {
            let Some(post) = self.next(turn) else {
                break;
            };
            match post.inlet.offer(rt, stream) {
                Ok(()) => return Ok(()),
                Err(back) => stream = back,
            }
        }
        Err(stream)
    }

    /// Asks the next worker to let its longest idle connection go.
    pub(crate) fn shed(&self, turn: &mut usize) {
        if let Some(post) = self.next(turn) {
            post.ask_to_shed();
        }
    }

    // The post whose turn it is, and whose it is then.
    fn next(&self, turn: &mut usize) -> Option<&Post> {
        let place = if *turn < self.posts.len() { *turn } else { 0 };
        *turn = place.saturating_add(1);
        self.posts.get(place)
    }
}
