//! Connections whose bytes are cut, that end early, or whose devices fail.

use crate::tests::opening::open;
use crate::tests::rows::{HOOKS, HTTP_SIBLINGS, RESOLVERS, Row};
use http_connection::{Front, FrontFault, MemorySink, MemorySource};
use std::alloc::{AllocError, Global};
use std::test::Fail;
use test_support::expect;

/// The bytes of the requests, and those of the answers to them.
pub(crate) fn bytes_of(alloc: Global, rows: &[Row]) -> Result<(Vec<u8>, Vec<u8>), AllocError> {
    let mut asked = Vec::new(alloc);
    let mut told = Vec::new(alloc);
    for (request, answer) in rows {
        asked.extend_from_slice(request)?;
        told.extend_from_slice(answer)?;
    }
    Ok((asked, told))
}

/// What a connection comes to on a store of its own.
fn connect(
    alloc: Global,
    front: &mut Front,
    source: &mut MemorySource<'_>,
    sink: &mut MemorySink,
) -> Result<Result<u64, FrontFault>, AllocError> {
    let mut store = open(alloc, 0)?;
    Ok(server_one_thread::serve(front, source, sink, &mut store))
}

/// A connection that brings these bytes is told these, where they come in and go out in pieces of at most so many. By how many writes.
fn writes_of(
    alloc: Global,
    front: &mut Front,
    asked: &[u8],
    told: &[u8],
    requests: usize,
    step: usize,
) -> Result<u64, Fail> {
    let mut source = MemorySource::in_pieces(asked, step, None);
    let mut sink = MemorySink::in_pieces(alloc, step, None);
    let count = connect(alloc, front, &mut source, &mut sink)??;
    expect(
        count == requests as u64 && sink.bytes.as_slice() == told,
        &(step, asked.len()),
    )?;
    Ok(sink.writes)
}

/// The most bytes in a piece.
const STEPS: [usize; 5] = [1, 2, 3, 61, 200];

/// The requests are answered in each of these sizes of pieces by one front, and then together by one write.
fn in_steps(
    alloc: Global,
    front: &mut Front,
    asked: &[u8],
    told: &[u8],
    requests: usize,
) -> Result<(), Fail> {
    for step in STEPS {
        writes_of(alloc, front, asked, told, requests, step)?;
    }
    let writes = writes_of(alloc, front, asked, told, requests, usize::MAX)?;
    expect(writes == 1, &writes)
}

/// The same of the requests of some rows.
fn in_pieces(alloc: Global, rows: &[Row]) -> Result<(), Fail> {
    let (asked, told) = bytes_of(alloc, rows)?;
    let mut front = Front::new(alloc)?;
    in_steps(alloc, &mut front, &asked, &told, rows.len())
}

#[test]
fn pieces_of_each_size(rt: HostRuntime) -> Result<(), Fail> {
    in_pieces(rt.alloc(), &HTTP_SIBLINGS)?;
    in_pieces(rt.alloc(), &HOOKS)?;
    in_pieces(rt.alloc(), &RESOLVERS)
}

/// A client that closes after any byte of a request gets the answers to those before it, by one front.
fn close_in_each(
    alloc: Global,
    front: &mut Front,
    asked: &[u8],
    told: &[u8],
    rows: &[Row],
) -> Result<(), Fail> {
    let (mut first, mut told_before) = (0usize, 0usize);
    for (number, (request, answer)) in rows.iter().enumerate() {
        let last = first.saturating_add(request.len());
        let told = cut(told, told_before);
        for end in first..last {
            writes_of(alloc, front, cut(asked, end), told, number, usize::MAX)?;
        }
        first = last;
        told_before = told_before.saturating_add(answer.len());
    }
    Ok(())
}

/// The same of the requests of some rows.
fn close_after_each(alloc: Global, rows: &[Row]) -> Result<(), Fail> {
    let (asked, told) = bytes_of(alloc, rows)?;
    let mut front = Front::new(alloc)?;
    close_in_each(alloc, &mut front, &asked, &told, rows)
}

/// So many first bytes.
fn cut(bytes: &[u8], len: usize) -> &[u8] {
    bytes.get(..len).unwrap_or(bytes)
}

/// A client that closes after any byte gets the answers to its whole requests, and the next client none of it.
#[test]
fn closed_early(rt: HostRuntime) -> Result<(), Fail> {
    close_after_each(rt.alloc(), &HTTP_SIBLINGS)?;
    close_after_each(rt.alloc(), &HOOKS)?;
    close_after_each(rt.alloc(), &RESOLVERS)
}

/// A device of a connection.
#[derive(Clone, Copy)]
enum Device {
    Source,
    Sink,
}

/// What a connection came to, and how often its source and its sink failed.
type End = (Result<u64, FrontFault>, u64, u64);

/// Whether a connection had ended before its device could fail at this call, by one front: each request was answered then. Else that it
/// failed was told, and a front of the answers was written.
fn has_ended(
    alloc: Global,
    front: &mut Front,
    asked: &[u8],
    told: &[u8],
    device: Device,
    call: u64,
) -> Result<bool, Fail> {
    let (read, write, failed): (_, _, End) = match device {
        Device::Source => (Some(call), None, (Err(FrontFault::Read), 1, 0)),
        Device::Sink => (None, Some(call), (Err(FrontFault::Write), 0, 1)),
    };
    let mut source = MemorySource::in_pieces(asked, 7, read);
    let mut sink = MemorySink::in_pieces(alloc, 7, write);
    let back = connect(alloc, front, &mut source, &mut sink)?;
    let end = (back, source.failures, sink.failures);
    let has_failed = end == failed && told.starts_with(&sink.bytes);
    let has_ended = end == (Ok(9), 0, 0) && told == sink.bytes.as_slice();
    expect(has_failed || has_ended, &call)?;
    Ok(has_ended)
}

/// At how many calls a device may fail until the connection has ended before.
fn first_without_failure(
    alloc: Global,
    front: &mut Front,
    asked: &[u8],
    told: &[u8],
    device: Device,
) -> Result<u64, Fail> {
    for call in 0..1_000 {
        if has_ended(alloc, front, asked, told, device, call)? {
            return Ok(call);
        }
    }
    Err(Fail::new("no end"))
}

/// The same of the requests of some rows.
fn calls_that_fail(alloc: Global, rows: &[Row], device: Device) -> Result<u64, Fail> {
    let (asked, told) = bytes_of(alloc, rows)?;
    let mut front = Front::new(alloc)?;
    first_without_failure(alloc, &mut front, &asked, &told, device)
}

/// Whichever read or write fails, that is told, and a front of the answers was written. 625 bytes that come seven at a time are 90 reads
/// and one that finds the end; nine answers, each of which goes out before the next request has come, are 243 writes of at most seven
/// bytes.
#[test]
fn devices_that_fail(rt: HostRuntime) -> Result<(), Fail> {
    let reads = calls_that_fail(rt.alloc(), &HTTP_SIBLINGS, Device::Source)?;
    let writes = calls_that_fail(rt.alloc(), &HTTP_SIBLINGS, Device::Sink)?;
    expect((reads, writes) == (91, 243), &(reads, writes))
}
