//! What the thread that accepts and the workers share.

ghost use Rattle.std.specs.Prelude.{◌≡◌, IfOk, vec_len};

use crate::acceptor::{Acceptor, Setup, waker_of};
use crate::roster::{Post, Roster};
use mio::{Poll, Waker};
use std::alloc::Global;
use std::io;
use std::net::{Net, TcpListener, TcpStream};
use std::sync::{Mutex, Wait};
use std::time::Duration;

/// An acceptor under a lock, so that any thread may have a turn of it, and the roster of the workers that it hands connections to.
#[derive(Drop)]
pub struct Lobby {
    acceptor: Mutex<Acceptor>,
    waker: Waker,
    /// The workers.
    pub roster: Roster,
}

impl Lobby {
    /// One turn of the acceptor, which waits at most so long: [`Acceptor::turn`]. Where another thread has one, its end is waited for.
    pub fn accept<R: Wait>(&self, rt: &R, most: Duration) {
        self.acceptor.lock(rt).turn(rt, &self.roster, most);
    }

    /// Tells the server to stop, as a line `stop` on its standard input does.
    pub fn stop(&self) {
        self.roster.stop();
        self.wake();
    }

    /// Has the acceptor look up from its wait.
    pub fn wake(&self) {
        // One that can't be woken looks up when its wait is over.
        let _ = self.waker.wake();
    }
}

/// A lobby with so many workers, where connections for them come. The error: the system has no descriptor for one, or memory was refused.
pub fn open<R: Net<Listener = TcpListener, Stream = TcpStream>>(
    alloc: Global,
    rt: &R,
    count: usize,
    setup: Setup,
) -> io::Result<Lobby>
    ensures { IfOk result (λ lobby. vec_len lobby.roster.posts ≡ count) }
{
    let mut posts = Vec::new(alloc);
    for _ in 0..count {
        let (worker, inlet) = server_sockets::open(alloc, rt)?;
        posts.push(Post::new(worker, inlet))?;
    }
    let poll = Poll::new(rt)?;
    let waker = waker_of(&poll)?;
    let acceptor = Acceptor::new(alloc, poll, setup)?;
    Ok(Lobby {
        acceptor: Mutex::new(acceptor),
        waker,
        roster: Roster::new(posts),
    })
}
