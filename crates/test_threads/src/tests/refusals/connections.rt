//! Connections over HTTP of one request: what is written is its answer, or tells of want of memory, or is a beginning of the answer where
//! the front itself lacks memory; and what a client finds afterwards is what it was told.

use crate::tests::refusals::refusing::{End, Trial, begin, end_beside, in_turn, was_met};
use bpf_helpers::Table;
use hook_registry::Registry;
use http_connection::{Front, FrontFault, MemorySink, MemorySource};
use peers::Local;
use server_one_thread::{one_thread, serve};
use server_store::Store;
use std::alloc::Global;
use std::env::Env;
use std::sync::Wait;
use std::test::Fail;

/// A request, and its answer.
type Exchange = (&'static [u8], &'static [u8]);

/// The read of the key that is written.
const READ: &[u8] = b"GET /buckets/b/keys/k HTTP/1.1\r\nHost: h\r\n\r\n";

const NOTHING: &[u8] =
    b"HTTP/1.1 404 Not Found\r\nContent-Type: text/plain\r\nContent-Length: 10\r\nX-Content-Type-Options: nosniff\r\nServer: dvvstore\r\nVary: Accept\r\n\r\nnot found\n";

const FOUND: &[u8] =
    b"HTTP/1.1 200 OK\r\nContent-Type: text/plain\r\nX-Riak-Vclock: AgABAAAAAAAAAAAAAAE=\r\nContent-Length: 1\r\nX-Content-Type-Options: nosniff\r\nServer: dvvstore\r\nETag: \"0-1\"\r\nVary: Accept\r\n\r\na";

/// A write, a hook that refuses all and is bound, a write that it refuses, and a read, one after the other on one store.
const EXCHANGES: [Exchange; 5] = [
    (
        b"PUT /buckets/b/keys/k?at=0 HTTP/1.1\r\nHost: h\r\nContent-Type: text/plain\r\nContent-Length: 1\r\n\r\na",
        b"HTTP/1.1 204 No Content\r\nX-Riak-Tag: 0-1\r\nX-Content-Type-Options: nosniff\r\nServer: dvvstore\r\n\r\n",
    ),
    (
        b"PUT /hooks/no HTTP/1.1\r\nHost: h\r\nContent-Length: 32\r\n\r\nRBPF\x01\x01\x00\x00\x80\x00\x00\x00\x00\x00\x00\x00\xb7\x00\x00\x00\x01\x01\x00\x00\x95\x00\x00\x00\x00\x00\x00\x00",
        b"HTTP/1.1 204 No Content\r\nX-Content-Type-Options: nosniff\r\nServer: dvvstore\r\n\r\n",
    ),
    (
        b"PUT /buckets/b/props HTTP/1.1\r\nHost: h\r\nContent-Length: 28\r\n\r\n{\"props\":{\"precommit\":\"no\"}}",
        b"HTTP/1.1 204 No Content\r\nX-Content-Type-Options: nosniff\r\nServer: dvvstore\r\n\r\n",
    ),
    (
        b"PUT /buckets/b/keys/k HTTP/1.1\r\nHost: h\r\nContent-Length: 1\r\n\r\nb",
        b"HTTP/1.1 403 Forbidden\r\nContent-Type: text/plain\r\nContent-Length: 5\r\nX-Content-Type-Options: nosniff\r\nServer: dvvstore\r\n\r\nX3 1\n",
    ),
    (READ, FOUND),
];

/// What a request is told where there was no memory for its call, and where too few vnodes had it.
const REFUSALS: [&[u8]; 2] = [
    b"HTTP/1.1 500 Internal Server Error\r\nContent-Type: text/plain\r\nContent-Length: 3\r\nX-Content-Type-Options: nosniff\r\nServer: dvvstore\r\n\r\nE1\n",
    b"HTTP/1.1 503 Service Unavailable\r\nContent-Type: text/plain\r\nContent-Length: 3\r\nX-Content-Type-Options: nosniff\r\nServer: dvvstore\r\n\r\nQ1\n",
];

/// Three vnodes of one thread, and no hook.
type Three = Store<Local, Registry>;

/// Whether a connection with one request has this answer.
fn is_answered(
    alloc: Global,
    store: &mut Three,
    request: &[u8],
    told: &[u8],
) -> Result<bool, Fail> {
    let mut front = Front::new(alloc)?;
    let mut source = MemorySource::new(request);
    let mut sink = MemorySink::new(alloc);
    let count = serve(&mut front, &mut source, &mut sink, store)?;
    Ok(count == 1 && sink.bytes.as_slice() == told)
}

/// These requests are answered, one after the other.
fn answer_all(alloc: Global, store: &mut Three, exchanges: &[Exchange]) -> Result<(), Fail> {
    for (request, told) in exchanges {
        if !is_answered(alloc, store, request, told)? {
            return Err(Fail::new("another answer"));
        }
    }
    Ok(())
}

/// Whether the key is found; or, before its write was answered, isn't.
fn stands(alloc: Global, store: &mut Three, is_written: bool) -> Result<bool, Fail> {
    Ok(
        is_answered(alloc, store, READ, FOUND)?
            || !is_written && is_answered(alloc, store, READ, NOTHING)?,
    )
}

/// Whether this tells of want of memory: the call's, or the front's own.
fn is_refusal(back: Result<u64, FrontFault>, written: &[u8]) -> bool {
    match back {
        Ok(count) => count == 1 && REFUSALS.contains(&written),
        Err(fault) => fault == FrontFault::NoMemory && written.is_empty(),
    }
}

/// A request behind others.
#[derive(Drop)]
struct Serve {
    before: &'static [Exchange],
    exchange: Exchange,
}

impl Serve {
    /// What was written to this request, by what `serve` gave back, and what stands then.
    fn end(
        &self,
        alloc: Global,
        store: &mut Three,
        met: bool,
        back: Result<u64, FrontFault>,
        written: &[u8],
    ) -> Result<(bool, End), Fail> {
        let is_told = back == Ok(1) && written == self.exchange.1;
        let is_written = is_told || !self.before.is_empty();
        let stands = stands(alloc, store, is_written)?;
        // A vnode's want of memory shows in no answer while enough others have it.
        Ok((
            met,
            end_beside(met, stands && is_told, stands && is_refusal(back, written)),
        ))
    }

    /// The request on this store.
    fn goes_on<R: Env>(
        &self,
        rt: &R,
        alloc: Global,
        store: &mut Three,
    ) -> Result<(bool, End), Fail> {
        answer_all(alloc, store, self.before)?;
        let mut front = Front::new(alloc)?;
        let mut source = MemorySource::new(self.exchange.0);
        let mut sink = MemorySink::new(alloc);
        sink.bytes.reserve(256)?;
        begin(rt);
        let back = serve(&mut front, &mut source, &mut sink, store);
        let met = was_met(rt);
        self.end(alloc, store, met, back, sink.bytes.as_slice())
    }
}

impl Trial for Serve {
    fn goes<R: Env + Wait>(&self, rt: &R, alloc: Global) -> Result<(bool, End), Fail> {
        let vnodes = Local::open_first(alloc, 3, 0, 0)?;
        let mut store = one_thread(alloc, vnodes, Table::new(alloc));
        self.goes_on(rt, alloc, &mut store)
    }
}

#[test]
fn serve_is_refused(rt: HostRuntime) -> Result<(), Fail> {
    for number in 0..EXCHANGES.len() {
        let serve = Serve {
            before: &EXCHANGES[..number],
            exchange: EXCHANGES[number],
        };
        in_turn(&rt, rt.alloc(), &serve)?;
    }
    Ok(())
}
