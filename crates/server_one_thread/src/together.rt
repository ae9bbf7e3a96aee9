//! Several connections to a store of one thread, whose bytes come in any order.

ghost use Rattle.std.specs.Prelude.{◌≡◌, ◌≢◌, ◌⊎◌, ◌++◌, ℕ, List, IfOk, OnOk, IsTrue, Some, slice_get};
ghost use Rattle.hook_registry.specs.Changes.{Change};
ghost use Rattle.hook_registry.specs.Tables.{Shows};
ghost use Rattle.http_connections.specs.declared.clients.Client.{Client as Told};
ghost use Rattle.http_connections.specs.Clients.{Shows as Connects, socket_of};
ghost use Rattle.http_connections.specs.Halls.{AllStand, Log, seat_at};
ghost use Rattle.http_connections.specs.Sockets.{Sockets, unborn};
ghost use Rattle.server_one_thread.specs.Journals.{AreJournals};
ghost use Rattle.server_one_thread.specs.Past.{Now};
ghost use Rattle.server_one_thread.specs.Stores.{IsOfOneThread};
ghost use Rattle.server_one_thread.specs.Together.{IsCome, IsDone, IsDoneAt, Plays, ServesAll, bytes_in};

use http_connection::{Backend, FrontFault};
use http_connections::{Client, Clients, Closing, Hall, Ring, Stage};
use std::alloc::{AllocError, Global};

/// What comes from a client.
#[derive(Clone, Copy)]
pub enum Arrival<'a> {
    /// Some bytes.
    Bytes(&'a [u8]),
    /// The end: it sends nothing more.
    End,
    /// A failure: its connection breaks off.
    Failure,
}

impl Arrival<'_> {
    // How many bytes come.
    fn len(&self) -> usize {
        match self {
            Arrival::Bytes(bytes) => bytes.len(),
            Arrival::End | Arrival::Failure => 0,
        }
    }
}

/// What comes next, and from which client: the first is 0.
#[derive(Clone, Copy)]
pub struct Delivery<'a> {
    /// The number of the client.
    pub client: usize,
    /// What comes from it.
    pub arrival: Arrival<'a>,
}

/// Answers so many clients, each on a connection of its own, on a store of one thread: each is attended as soon as something comes from it,
/// in the order of the deliveries, until all that it asked is answered. Answers what was read of each and written to it, and how its
/// connection ended, if it did. A delivery of a client that there isn't is passed over.
///
/// What is written to a client are the answers to all requests of the bytes that came from it, in order, unless a failure came, too: then
/// it is a front of them. One log has the exchanges of all, in the order of their calls. Whatever the changes of the hooks so far are, each
/// answer is that of the store with these changes and those that were answered before it, on whichever connection; what it tells of the
/// writes is what the journals say at that moment.
///
/// The error is want of memory, be it for one connection alone, which then broke off.
pub fn answer_all<B: Backend>(
    alloc: Global,
    clients: usize,
    deliveries: &[Delivery<'_>],
    store: &mut B,
) -> Result<Vec<Client>, AllocError>
    ensures { IfOk result (λ told. (now : B → Now) (changes : List Change) → IsOfOneThread B.gives B.copies now
        → Shows changes (now store.old).hooks → AreJournals (now store.old).peers.logs
        → ServesAll clients deliveries.now told.items (now store.old) (now store.new) changes) }
{
    hook_registry::laws::changes_add_up();
    hook_registry::laws::hook_is_of_changes();
    journal::laws::journals_go_on();
    journal::laws::siblings_are_current();
    journal::laws::merges_are_current();
    let mut ring = connected(alloc, clients)?;
    let mut hall = Hall::new(alloc)?;
    http_connections::laws::halls_begin::<B>();
    admit_all(&mut hall, &mut ring, clients);
    look_at_all(&mut hall, &mut ring, clients, store);
    attend_all(&mut hall, &mut ring, deliveries, store)?;
    if ring.clients.len() == clients && are_done(alloc, &ring.clients, deliveries)? {
        Ok(ring.clients)
    } else {
        Err(AllocError)
    }
}

// So many clients that connected, of which nothing came yet.
fn connected(alloc: Global, count: usize) -> Result<Clients, AllocError>
    ensures { IfOk result (λ ring. Connects ring.clients.items (λ _. unborn)) }
{
    let mut ring = Clients::new(alloc);
    for _ in 0..count {
        ring.clients.push(silent(alloc))?;
    }
    Ok(ring)
}

// A client of which nothing came yet, and that takes all that it is sent.
fn silent(alloc: Global) -> Client
    ensures { socket_of result ≡ unborn }
{
    Client {
        coming: Vec::new(alloc),
        hangs_up: false,
        room: usize::MAX,
        fails: false,
        stage: Stage::NotYet,
        heard: Vec::new(alloc),
        written: Vec::new(alloc),
        is_dry: false,
        is_stuffed: false,
        is_called: false,
        has_ended: false,
        has_failed: false,
    }
}

// Seats so many connections.
fn admit_all(hall: &mut Hall, ring: &mut Clients, count: usize)
    ensures { (copies : ℕ) (log : Log) (old : Sockets) → Connects ring.old.clients.items old → AllStand copies log old (seat_at hall.old)
        → (new : Sockets) × Connects ring.new.clients.items new × AllStand copies log new (seat_at hall.new) }
{
    for _ in 0..count {
        let _ = hall.admit(ring);
    }
}

// Attends each client: nothing came from it yet.
fn look_at_all<B: Backend>(hall: &mut Hall, ring: &mut Clients, count: usize, store: &mut B)
    ensures { (start : B) → Plays B.gives B.copies start store.old ring.old.clients.items hall.old → Plays B.gives B.copies start store.new ring.new.clients.items hall.new }
{
    for client in 0..count {
        attend(hall, ring, client, 0, store);
    }
}

// Attends each client as soon as something comes from it.
fn attend_all<B: Backend>(
    hall: &mut Hall,
    ring: &mut Clients,
    deliveries: &[Delivery<'_>],
    store: &mut B,
) -> Result<(), AllocError>
    ensures { (start : B) → Plays B.gives B.copies start store.old ring.old.clients.items hall.old → Plays B.gives B.copies start store.new ring.new.clients.items hall.new }
{
    for delivery in deliveries {
        deliver(&mut ring.clients, delivery)?;
        attend(hall, ring, delivery.client, delivery.arrival.len(), store);
    }
    Ok(())
}

// Attends a client from which so many bytes came, until it is not to be attended once more. Each time many rounds are made, and each round
// reads, answers or writes one byte at least: so it is enough to try as often as there are bytes, and twice for what waited.
fn attend<B: Backend>(
    hall: &mut Hall,
    ring: &mut Clients,
    client: usize,
    bytes: usize,
    store: &mut B,
)
    ensures { (start : B) → Plays B.gives B.copies start store.old ring.old.clients.items hall.old → Plays B.gives B.copies start store.new ring.new.clients.items hall.new }
{
    for _ in 0..bytes.saturating_add(2) {
        hall.attend(client as u64, ring, store);
        if !is_called(&ring.clients, client) {
            break;
        }
    }
}

// Whether a client is to be attended once more.
fn is_called(clients: &[Client], number: usize) -> bool {
    match clients.get(number) {
        Some(client) => client.is_called,
        None => false,
    }
}

// Something comes from a client, if there is one of its number.
fn deliver(clients: &mut Vec<Client>, delivery: &Delivery<'_>) -> Result<(), AllocError>
    ensures { (sockets : Sockets) → Connects clients.old.items sockets → Connects clients.new.items sockets }
{
    match clients.get_mut(delivery.client) {
        Some(client) => arrive(client, delivery.arrival),
        None => Ok(()),
    }
}

// Something comes from a client, and was not read yet.
fn arrive(client: &mut Client, arrival: Arrival<'_>) -> Result<(), AllocError>
    ensures { socket_of client.new ≡ socket_of client.old }
{
    match arrival {
        Arrival::Bytes(bytes) => client.coming.extend_from_slice(bytes),
        Arrival::End => {
            client.hangs_up = true;
            Ok(())
        }
        Arrival::Failure => {
            client.fails = true;
            Ok(())
        }
    }
}

/// All that came from one client.
#[derive(Drop)]
struct Came {
    /// The bytes.
    bytes: Vec<u8>,
    /// Whether their end came.
    ends: bool,
    /// Whether a failure came.
    fails: bool,
}

impl Came {
    // It came next, if it came from this client.
    fn add(&mut self, number: usize, delivery: &Delivery<'_>) -> Result<(), AllocError>
        ensures own { OnOk result (delivery.now.client ≡ number → self.new.bytes.items ≡ self.old.bytes.items ++ bytes_in delivery.now.arrival) }
        ensures other { OnOk result (delivery.now.client ≢ number → self.new.bytes.items ≡ self.old.bytes.items) }
        ensures ends { IsTrue self.new.ends → IsTrue self.old.ends ⊎ ((delivery.now.client ≡ number) × (delivery.now.arrival ≡ Arrival.End)) }
        ensures fails { IsTrue self.new.fails → IsTrue self.old.fails ⊎ ((delivery.now.client ≡ number) × (delivery.now.arrival ≡ Arrival.Failure)) }
    {
        if delivery.client == number {
            match delivery.arrival {
                Arrival::Bytes(bytes) => self.bytes.extend_from_slice(bytes)?,
                Arrival::End => self.ends = true,
                Arrival::Failure => self.fails = true,
            }
        }
        Ok(())
    }
}

// All that came from a client.
fn came_from(alloc: Global, number: usize, deliveries: &[Delivery<'_>]) -> Result<Came, AllocError>
    ensures { IfOk result (λ came. IsCome number deliveries.now came) }
{
    let mut came = Came {
        bytes: Vec::new(alloc),
        ends: false,
        fails: false,
    };
    for place in 0..deliveries.len() {
        came.add(number, &deliveries[place])?;
    }
    Ok(came)
}

// Whether what was read of each client and what wasn't are what came from it, and nothing is left to do for it.
fn are_done(
    alloc: Global,
    clients: &[Client],
    deliveries: &[Delivery<'_>],
) -> Result<bool, AllocError>
    ensures { IfOk result (λ done. IsTrue done → (n : ℕ) (client : Told) → slice_get clients.now n ≡ Some client → IsDone n deliveries.now client) }
{
    for number in 0..clients.len() {
        let came = came_from(alloc, number, deliveries)?;
        if !is_done(&clients[number], &came) {
            return Ok(false);
        }
    }
    Ok(true)
}

// The same of one client, from which this came.
fn is_done(client: &Client, came: &Came) -> bool
    ensures all { IsTrue result → client.now.heard.items ++ client.now.coming.items ≡ came.now.bytes.items }
    ensures done { IsTrue result → IsDoneAt client.now came.now.ends came.now.fails client.now.stage }
{
    is_all(&client.heard, &client.coming, &came.bytes) && is_at_end(client, came.ends, came.fails)
}

// Whether bytes are these two parts, one behind the other.
fn is_all(heard: &[u8], coming: &[u8], all: &[u8]) -> bool
    ensures { IsTrue result → heard.now ++ coming.now ≡ all.now }
{
    if all.len() < heard.len() {
        return false;
    }
    let (front, rest) = all.split_at(heard.len());
    front == heard && rest == coming
}

// Whether nothing is left to do for a client, where its end came, or a failure.
fn is_at_end(client: &Client, ends: bool, fails: bool) -> bool
    ensures { IsTrue result → IsDoneAt client.now ends fails client.now.stage }
{
    match client.stage {
        Stage::Here => {
            client.is_dry && !client.is_stuffed && !client.is_called && client.coming.is_empty()
        }
        Stage::Gone(Closing::InOrder) => !client.has_ended || (ends && client.coming.is_empty()),
        Stage::Gone(Closing::Broken(FrontFault::Read | FrontFault::Write)) => fails,
        Stage::NotYet | Stage::Gone(Closing::GivenUp | Closing::Broken(FrontFault::NoMemory)) =>
            false,
    }
}
