//! Clients in memory: what comes from each, and what each takes, is said step by step. No server has any: tests and examples do.

ghost use Rattle.std.specs.Prelude.{◌≡◌, ◌<◌, ◌≤◌, ℕ, ◌+◌, ◌++◌, [], true, false, length, take, slice_get, Some, None, Ok, IfOk, OnOk, OnErr};
ghost use Rattle.http_connections.specs.Sockets.{Socket, unborn, after_accept, after_read, after_write, after_call, after_close};
ghost use Rattle.http_connections.specs.Spoken.{FitsHeard, FitsTold};
ghost use Rattle.http_connections.specs.Clients.{Alters, socket_of};
ghost use Rattle.http_connections.specs.declared.clients.Client.{Client as Given};

use crate::socket_ring::{Closing, Heard, Ring, Told};
use http_connection::Failed;
use std::alloc::{AllocError, Global};

/// Where a client stands.
#[derive(Clone, Copy, Debug, PartialEq, Eq)]
pub enum Stage {
    /// Its connection was not taken yet.
    NotYet,
    /// It was.
    Here,
    /// It was closed.
    Gone(Closing),
}

/// One client. A test says what it sends and takes by the first four fields; the others tell what became of it.
#[derive(Drop)]
pub struct Client {
    /// The bytes that came from it and were not read yet.
    pub coming: Vec<u8>,
    /// It sends nothing more.
    pub hangs_up: bool,
    /// So many more bytes it takes.
    pub room: usize,
    /// Every read and write of it fails.
    pub fails: bool,
    /// Where it stands.
    pub stage: Stage,
    /// The bytes of it that were read.
    pub heard: Vec<u8>,
    /// The bytes that were written to it.
    pub written: Vec<u8>,
    /// Its last read answered that nothing is there now.
    pub is_dry: bool,
    /// Its last write answered that nothing is taken now.
    pub is_stuffed: bool,
    /// It is to be reported once more.
    pub is_called: bool,
    /// A read of it answered that nothing comes any more.
    pub has_ended: bool,
    /// A call on it failed.
    pub has_failed: bool,
}

impl Client {
    // A client that just connected.
    fn new(alloc: Global) -> Client {
        Client {
            coming: Vec::new(alloc),
            hangs_up: false,
            room: 0,
            fails: false,
            stage: Stage::NotYet,
            heard: Vec::new(alloc),
            written: Vec::new(alloc),
            is_dry: false,
            is_stuffed: false,
            is_called: false,
            has_ended: false,
            has_failed: false,
        }
    }

    // Whether nothing was done with it yet.
    fn is_untouched(&self) -> bool
        ensures { result ≡ true → socket_of self.now ≡ unborn }
    {
        self.stage == Stage::NotYet
            && self.heard.is_empty()
            && self.written.is_empty()
            && !self.is_dry
            && !self.is_stuffed
            && !self.is_called
            && !self.has_ended
            && !self.has_failed
    }

    // Reads what is coming.
    fn read(&mut self, buf: &mut [u8]) -> Result<Heard, Failed>
        requires { 0 < length buf.old }
        ensures fits { IfOk result (FitsHeard (length buf.new)) }
        ensures after { socket_of self.new ≡ after_read result buf.new (socket_of self.old) }
    {
        self.is_called = false;
        let n = self.coming.len().min(buf.len());
        if self.fails {
            self.has_failed = true;
            Err(Failed)
        } else if n > 0 {
            self.hear(buf, n)
        } else if self.hangs_up {
            self.has_ended = true;
            Ok(Heard::End)
        } else {
            self.is_dry = true;
            Ok(Heard::NotNow)
        }
    }

    // Gives a front of what is coming.
    fn hear(&mut self, buf: &mut [u8], n: usize) -> Result<Heard, Failed>
        requires some { 0 < n }
        requires room { n ≤ length buf.old }
        requires came { n ≤ length self.old.coming.items }
        ensures fits { IfOk result (FitsHeard (length buf.new)) }
        ensures after { socket_of self.new ≡ after_read result buf.new (socket_of self.old) }
    {
        self.is_called = false;
        match give(&mut self.coming, &mut self.heard, buf, n) {
            Ok(()) => {
                self.is_dry = false;
                Ok(Heard::Bytes(n))
            }
            Err(AllocError) => {
                self.has_failed = true;
                Err(Failed)
            }
        }
    }

    // Takes a front of what is written.
    fn take(&mut self, bytes: &[u8], n: usize) -> Result<Told, Failed>
        requires some { 0 < n }
        requires room { n ≤ self.old.room }
        requires there { n ≤ length bytes.now }
        ensures fits { IfOk result (FitsTold (length bytes.now)) }
        ensures after { socket_of self.new ≡ after_write result bytes.now (socket_of self.old) }
    {
        self.is_called = false;
        match push_front(&mut self.written, bytes, n) {
            Ok(()) => {
                self.room -= n;
                self.is_stuffed = false;
                Ok(Told::Bytes(n))
            }
            Err(AllocError) => {
                self.has_failed = true;
                Err(Failed)
            }
        }
    }

    // Takes what it has room for.
    fn write(&mut self, bytes: &[u8]) -> Result<Told, Failed>
        requires { 0 < length bytes.now }
        ensures fits { IfOk result (FitsTold (length bytes.now)) }
        ensures after { socket_of self.new ≡ after_write result bytes.now (socket_of self.old) }
    {
        let n = self.room.min(bytes.len());
        if self.fails {
            self.is_called = false;
            self.has_failed = true;
            Err(Failed)
        } else if n > 0 {
            self.take(bytes, n)
        } else {
            self.is_called = false;
            self.is_stuffed = true;
            Ok(Told::NotNow)
        }
    }

    // Its connection is taken, if that was not so yet.
    fn greet(&mut self) -> bool
        ensures yes { result ≡ true → (socket_of self.old ≡ unborn) × (socket_of self.new ≡ after_accept (socket_of self.old)) }
        ensures no { result ≡ false → self.new ≡ self.old }
    {
        let is_new = self.is_untouched();
        if is_new {
            self.stage = Stage::Here;
            self.is_called = true;
        }
        is_new
    }

    // It is to be reported.
    fn call(&mut self)
        ensures { socket_of self.new ≡ after_call (Ok tt) (socket_of self.old) }
    {
        self.is_called = true;
    }

    // It is closed.
    fn close(&mut self, closing: Closing)
        ensures { socket_of self.new ≡ after_close closing (socket_of self.old) }
    {
        self.stage = Stage::Gone(closing);
    }
}

// Gives the first bytes of those that are coming, and keeps them as heard.
fn give(
    coming: &mut Vec<u8>,
    heard: &mut Vec<u8>,
    buf: &mut [u8],
    n: usize,
) -> Result<(), AllocError>
    requires came { n ≤ length coming.old.items }
    requires room { n ≤ length buf.old }
    ensures ok { OnOk result (heard.new.items ≡ heard.old.items ++ take n buf.new) }
    ensures err { OnErr result (heard.new.items ≡ heard.old.items) }
{
    buf[..n].copy_from_slice(&coming[..n]);
    heard.extend_from_slice(&buf[..n])?;
    coming.drain(..n);
    Ok(())
}

// Adds the first bytes.
fn push_front(written: &mut Vec<u8>, bytes: &[u8], n: usize) -> Result<(), AllocError>
    requires { n ≤ length bytes.now }
    ensures ok { OnOk result (written.new.items ≡ written.old.items ++ take n bytes.now) }
    ensures err { OnErr result (written.new.items ≡ written.old.items) }
{
    written.extend_from_slice(&bytes[..n])
}

/// Clients, by their numbers.
#[derive(Drop)]
pub struct Clients {
    alloc: Global,
    /// The clients that connected.
    pub clients: Vec<Client>,
    taken: usize,
}

impl Clients {
    /// No clients.
    pub fn new(alloc: Global) -> Clients
        ensures { result.clients.items ≡ [] }
    {
        Clients {
            alloc,
            clients: Vec::new(alloc),
            taken: 0,
        }
    }

    /// One more client connects: its number is how many did before. Nothing came from it yet, and it takes nothing.
    pub fn connect(&mut self) -> Result<(), AllocError>
        ensures { OnOk result (length self.new.clients.items ≡ length self.old.clients.items + 1) }
    {
        self.clients.push(Client::new(self.alloc))?;
        Ok(())
    }
}

impl Ring for Clients {
    ghost use Rattle.http_connections.specs.Clients.{Shows, IsNext};

    ghost shows = { λ it sockets. Shows it.clients.items sockets };

    ghost accepts = { λ old answer _. IsNext old.taken answer };

    fn accept(&mut self) -> Result<Option<u64>, Failed> {
        let number = self.taken;
        if accept_at(&mut self.clients, number) {
            self.taken = number.saturating_add(1);
            Ok(Some(number as u64))
        } else {
            Ok(None)
        }
    }

    fn read(&mut self, number: u64, buf: &mut [u8]) -> Result<Heard, Failed> {
        read_at(&mut self.clients, number as usize, buf)
    }

    fn write(&mut self, number: u64, bytes: &[u8]) -> Result<Told, Failed> {
        write_at(&mut self.clients, number as usize, bytes)
    }

    fn call_again(&mut self, number: u64) -> Result<(), Failed> {
        call_at(&mut self.clients, number as usize);
        Ok(())
    }

    fn close(&mut self, number: u64, closing: Closing) {
        close_at(&mut self.clients, number as usize, closing);
    }
}

// Takes the connection of a client.
fn accept_at(clients: &mut Vec<Client>, i: usize) -> bool
    ensures yes { result ≡ true → (c : Given) × (slice_get clients.old.items i ≡ Some c) × (socket_of c ≡ unborn)
        × Alters i after_accept clients.old.items clients.new.items }
    ensures no { result ≡ false → (n : ℕ) → slice_get clients.new.items n ≡ slice_get clients.old.items n }
{
    match clients.get_mut(i) {
        Some(client) => client.greet(),
        None => false,
    }
}

// Reads from a client; one that is not there fails.
fn read_at(clients: &mut Vec<Client>, i: usize, buf: &mut [u8]) -> Result<Heard, Failed>
    requires { 0 < length buf.old }
    ensures fits { IfOk result (FitsHeard (length buf.new)) }
    ensures alters { Alters i (after_read result buf.new) clients.old.items clients.new.items }
    ensures absent { slice_get clients.old.items i ≡ None → (s : Socket) → (after_read result buf.new s).heard ≡ s.heard }
{
    match clients.get_mut(i) {
        Some(client) => client.read(buf),
        None => Err(Failed),
    }
}

// Writes to a client; one that is not there fails.
fn write_at(clients: &mut Vec<Client>, i: usize, bytes: &[u8]) -> Result<Told, Failed>
    requires { 0 < length bytes.now }
    ensures fits { IfOk result (FitsTold (length bytes.now)) }
    ensures alters { Alters i (after_write result bytes.now) clients.old.items clients.new.items }
{
    match clients.get_mut(i) {
        Some(client) => client.write(bytes),
        None => Err(Failed),
    }
}

// A client is to be reported.
fn call_at(clients: &mut Vec<Client>, i: usize)
    ensures { Alters i (after_call (Ok tt)) clients.old.items clients.new.items }
{
    if let Some(client) = clients.get_mut(i) {
        client.call();
    }
}

// Closes a client.
fn close_at(clients: &mut Vec<Client>, i: usize, closing: Closing)
    ensures { Alters i (after_close closing) clients.old.items clients.new.items }
{
    if let Some(client) = clients.get_mut(i) {
        client.close(closing);
    }
}
