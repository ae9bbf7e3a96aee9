//! Where connections are handed over to a worker.

use crate::unlogged::Unlogged;
use mio::Waker;
use mio::net::TcpStream;
use std::alloc::Global;
use std::collections::VecDeque;
use std::sync::atomic::AtomicBool;
use std::sync::atomic::Ordering::SeqCst;
use std::sync::{Mutex, Wait};

/// Where connections are handed over to a worker, by the thread that accepts them.
#[derive(Drop)]
pub struct Inlet {
    offered: Mutex<VecDeque<TcpStream>>,
    waker: Waker,
    has_begun: AtomicBool,
    is_over: AtomicBool,
    /// Whether the worker did something that the log doesn't have yet.
    pub unlogged: Unlogged,
}

impl Inlet {
    /// The inlet of a worker that has not begun, and is woken so.
    pub(crate) fn new(alloc: Global, waker: Waker, unlogged: Unlogged) -> Inlet {
        Inlet {
            offered: Mutex::new(VecDeque::new(alloc)),
            waker,
            has_begun: AtomicBool::new(false),
            is_over: AtomicBool::new(false),
            unlogged,
        }
    }

    /// Hands a connection over, and wakes the worker. The connection is handed back where the worker hasn't begun or takes no more, or
    /// where there is no memory.
    pub fn offer<R: Wait>(&self, rt: &R, stream: TcpStream) -> Result<(), TcpStream> {
        self.put(rt, stream)?;
        self.wake();
        Ok(())
    }

    // Puts a connection behind those that were offered.
    fn put<R: Wait>(&self, rt: &R, stream: TcpStream) -> Result<(), TcpStream> {
        let mut offered = self.offered.lock(rt);
        if !self.has_begun.load(SeqCst) || self.is_over.load(SeqCst) {
            return Err(stream);
        }
        match offered.push_back(stream) {
            Ok(()) => Ok(()),
            Err(refused) => Err(refused.value),
        }
    }

    /// The worker has begun.
    pub fn begin(&self) {
        self.has_begun.store(true, SeqCst);
    }

    /// The worker takes no more. What was offered before is taken by its next turn.
    pub fn end(&self) {
        self.is_over.store(true, SeqCst);
    }

    /// Has the worker look up from its wait. One that can't be woken looks up when its wait is over.
    pub fn wake(&self) {
        let _ = self.waker.wake();
    }

    /// Takes the connection that was offered first.
    pub(crate) fn take<R: Wait>(&self, rt: &R) -> Option<TcpStream> {
        self.offered.lock(rt).pop_front()
    }
}
