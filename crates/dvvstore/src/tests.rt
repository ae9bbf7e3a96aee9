//! The program's own workers, over loopback.

ghost use Rattle.std.specs.Prelude.{◌≡◌, IfOk, vec_len};

mod keeping;
mod memory;
mod starting;

use crate::host::Host;
use crate::keeper::{Door, Stay, Unbegun};
use crate::session;
use crate::session::{Left, Making};
use crate::spread::Spread;
use crate::system_folder::SystemFolder;
use audit_faults::{Followed, WatchFault};
use bpf_helpers::Table;
use dvv::VNODES_PER_NUMBER;
use kept_folder::Held;
use log_desk::NoLedger;
use mio::net::TcpListener;
use server_accept::{Lobby, Setup, open};
use std::alloc::{AllocError, Global};
use std::io::{Read as _, Write as _};
use std::net::{Ipv4Addr, Net, SocketAddr, TcpListener as StdListener, TcpStream};
use std::test::Fail;
use std::time::Duration;
use std::{io, thread};
use test_support::expect;
use vnode::Seed;

/// How many clients there are, each with a connection of its own.
const CLIENTS: usize = 3;

/// The first identifier.
const FIRST: u32 = 1_792 * VNODES_PER_NUMBER;

/// A hook that rejects is installed.
const INSTALL: &[u8] =
    b"PUT /hooks/no HTTP/1.1\r\nHost: h\r\nContent-Length: 32\r\n\r\nRBPF\x01\x01\x00\x00\x80\x00\x00\x00\x00\x00\x00\x00\xb7\x00\x00\x00\x01\x01\x00\x00\x95\x00\x00\x00\x00\x00\x00\x00";

/// It is bound to a bucket.
const BIND: &[u8] =
    b"PUT /buckets/b/props HTTP/1.1\r\nHost: h\r\nContent-Length: 28\r\n\r\n{\"props\":{\"precommit\":\"no\"}}";

/// A key of that bucket is written.
const WRITE_B: &[u8] = b"PUT /buckets/b/keys/k HTTP/1.1\r\nHost: h\r\nContent-Length: 1\r\n\r\nb";

/// The hook rejects that.
const REJECTED: &[u8] =
    b"HTTP/1.1 403 Forbidden\r\nContent-Type: text/plain\r\nContent-Length: 5\r\nX-Content-Type-Options: nosniff\r\nServer: dvvstore\r\n\r\nX3 1\n";

/// What was asked is done.
const DONE: &[u8] =
    b"HTTP/1.1 204 No Content\r\nX-Content-Type-Options: nosniff\r\nServer: dvvstore\r\n\r\n";

/// A key of another bucket is written.
const WRITE_C: &[u8] =
    b"PUT /buckets/c/keys/k HTTP/1.1\r\nHost: h\r\nContent-Type: text/plain\r\nContent-Length: 1\r\n\r\nc";

/// It is read.
const READ_C: &[u8] = b"GET /buckets/c/keys/k HTTP/1.1\r\nHost: h\r\n\r\n";

/// A key is read.
const READ_B: &[u8] = b"GET /buckets/b/keys/k HTTP/1.1\r\nHost: h\r\n\r\n";

/// The first write of a key, at the first vnode.
const WRITTEN: &[u8] =
    b"HTTP/1.1 204 No Content\r\nX-Riak-Tag: 458752-1\r\nX-Content-Type-Options: nosniff\r\nServer: dvvstore\r\n\r\n";

/// Which client asks what, and what it is told.
type Line = (usize, &'static [u8], &'static [u8]);

/// What is asked by whom, and what the client is told, in order. The first identifier is 1,792 times 256.
const TALK: [Line; 9] = [
    (
        0,
        READ_B,
        b"HTTP/1.1 404 Not Found\r\nContent-Type: text/plain\r\nContent-Length: 10\r\nX-Content-Type-Options: nosniff\r\nServer: dvvstore\r\nVary: Accept\r\n\r\nnot found\n",
    ),
    (
        0,
        b"PUT /buckets/b/keys/k HTTP/1.1\r\nHost: h\r\nContent-Type: text/plain\r\nContent-Length: 1\r\n\r\na",
        WRITTEN,
    ),
    (
        1,
        READ_B,
        b"HTTP/1.1 200 OK\r\nContent-Type: text/plain\r\nX-Riak-Vclock: AgABAAAHAAAAAAAAAAE=\r\nContent-Length: 1\r\nX-Content-Type-Options: nosniff\r\nServer: dvvstore\r\nETag: \"458752-1\"\r\nVary: Accept\r\n\r\na",
    ),
    // A hook that rejects is installed and bound by one, and is in force for the others.
    (0, INSTALL, DONE),
    (0, BIND, DONE),
    (1, WRITE_B, REJECTED),
    // What each stores, another reads.
    (1, WRITE_C, WRITTEN),
    (
        2,
        READ_C,
        b"HTTP/1.1 200 OK\r\nContent-Type: text/plain\r\nX-Riak-Vclock: AgABAAAHAAAAAAAAAAE=\r\nContent-Length: 1\r\nX-Content-Type-Options: nosniff\r\nServer: dvvstore\r\nETag: \"458752-1\"\r\nVary: Accept\r\n\r\nc",
    ),
    (
        2,
        b"PUT /buckets/d/keys/k HTTP/1.1\r\nHost: h\r\nConnection: close\r\nContent-Length: 1\r\n\r\nd",
        b"HTTP/1.1 204 No Content\r\nX-Riak-Tag: 458753-1\r\nConnection: close\r\nX-Content-Type-Options: nosniff\r\nServer: dvvstore\r\n\r\n",
    ),
];

/// A value of so many bytes 0 is written in place of the one that was read.
const LARGE_BYTES: usize = 65_536;

const WRITE_LARGE: &[u8] =
    b"PUT /buckets/c/keys/k HTTP/1.1\r\nHost: h\r\nX-Riak-Vclock: AgABAAAHAAAAAAAAAAE=\r\nContent-Type: text/plain\r\nContent-Length: 65536\r\n\r\n";

const WRITTEN_LARGE: &[u8] =
    b"HTTP/1.1 204 No Content\r\nX-Riak-Tag: 458752-2\r\nX-Content-Type-Options: nosniff\r\nServer: dvvstore\r\n\r\n";

/// What stands before it where it is read.
const LARGE_HEAD: &[u8] =
    b"HTTP/1.1 200 OK\r\nContent-Type: text/plain\r\nX-Riak-Vclock: AgABAAAHAAAAAAAAAAI=\r\nContent-Length: 65536\r\nX-Content-Type-Options: nosniff\r\nServer: dvvstore\r\nETag: \"458752-2\"\r\nVary: Accept\r\n\r\n";

/// So often it is asked for before an answer is read: the answers are more than the 4 MiB that the system takes at the most.
const LARGE_READS: usize = 72;

/// So many seconds an answer is waited for.
const PATIENCE: u64 = 10;

/// Whether a client that asks this is told that.
fn is_told(client: &mut TcpStream, asked: &[u8], told: &[u8]) -> io::Result<bool> {
    let mut answer = [0u8; 256];
    let Some(answer) = answer.get_mut(..told.len()) else {
        return Ok(false);
    };
    client.write_all(asked)?;
    client.read_exact(answer)?;
    Ok(&*answer == told)
}

/// Clients that have connected.
fn clients_of<R: Net<Listener = StdListener, Stream = TcpStream>>(
    alloc: Global,
    rt: &R,
    addr: SocketAddr,
) -> io::Result<Vec<TcpStream>> {
    let mut clients = Vec::new(alloc);
    for _ in 0..CLIENTS {
        let client = TcpStream::connect(rt, addr)?;
        client.set_read_timeout(Some(Duration::from_secs(PATIENCE)))?;
        clients.push(client)?;
    }
    Ok(clients)
}

/// How many lines of the talk the clients are told as they should be.
fn talk(clients: &mut [TcpStream]) -> io::Result<usize> {
    for (place, (who, asked, told)) in TALK.iter().enumerate() {
        let Some(client) = clients.get_mut(*who) else {
            return Ok(place);
        };
        if !is_told(client, asked, told)? {
            return Ok(place);
        }
    }
    Ok(TALK.len())
}

/// Writes the large value.
fn write_large(alloc: Global, client: &mut TcpStream) -> io::Result<bool> {
    let value = vec![in alloc; 0u8; LARGE_BYTES]?;
    client.write_all(WRITE_LARGE)?;
    is_told(client, &value, WRITTEN_LARGE)
}

/// Whether a client that asks for the large value time after time, and reads nothing meanwhile, is told all of it each time.
fn reads_large(alloc: Global, client: &mut TcpStream) -> io::Result<bool> {
    for _ in 0..LARGE_READS {
        client.write_all(READ_C)?;
    }
    let mut told = LARGE_HEAD.to_vec(alloc)?;
    told.extend_from_slice(&vec![in alloc; 0u8; LARGE_BYTES]?)?;
    let mut answer = vec![in alloc; 0u8; told.len()]?;
    for _ in 0..LARGE_READS {
        client.read_exact(&mut answer)?;
        if answer != told {
            return Ok(false);
        }
    }
    Ok(true)
}

/// How many lines of the talk clients are told as they should be that connect there, and, where they leave only once the server hung up,
/// how many of them see that it did; none where one isn't told answers whole that the system takes in pieces. The server is told to stop
/// where it doesn't count connections.
fn visit<R: Net<Listener = StdListener, Stream = TcpStream>>(
    alloc: Global,
    rt: &R,
    addr: SocketAddr,
    lobby: &Lobby,
    counts: bool,
) -> io::Result<(usize, usize)> {
    let mut clients = clients_of(alloc, rt, addr)?;
    let lines = talk(&mut clients)?;
    let Some(client) = clients.first_mut() else {
        return Ok((lines, 0));
    };
    if !write_large(alloc, client)? || !reads_large(alloc, client)? {
        return Ok((lines, 0));
    }
    if counts {
        return Ok((lines, CLIENTS));
    }
    lobby.stop();
    let mut ended = 0usize;
    for client in &mut clients {
        if client.read(&mut [0u8; 1])? == 0 {
            ended = ended.saturating_add(1);
        }
    }
    Ok((lines, ended))
}

/// The tables of two workers, without a helper of their own.
fn two_tables(alloc: Global) -> Result<Vec<Table>, AllocError>
    ensures { IfOk result (λ tables. vec_len tables ≡ 2) }
{
    let mut tables = Vec::new(alloc);
    tables.push(Table::new(alloc))?;
    tables.push(Table::new(alloc))?;
    Ok(tables)
}

/// What is said of the journals of a store that is forgotten.
fn said_of(left: Result<Left, Unbegun>) -> Followed {
    match left {
        Ok(Left::Kept(served)) => served.closed.said.said(),
        _ => Err(WatchFault::Lost),
    }
}

/// Two workers answer three clients, each over what all do, and it is said of the journals that they are one run: where three connections
/// may come, once these have ended, and where any number may, once the server is told to stop.
#[test]
fn two_workers(rt: HostRuntime) -> Result<(), Fail> {
    for count in [Some(CLIENTS as u32), None] {
        let alloc = rt.alloc();
        let listener = TcpListener::bind(&rt, SocketAddr::from((Ipv4Addr::LOCALHOST, 0)))?;
        let addr = listener.local_addr()?;
        let setup = Setup {
            listener,
            count,
            input: rt.stdin(),
            makes_snapshots: false,
            err: rt.stderr(),
        };
        let lobby = open(alloc, &rt, 2, setup)?;
        let tables = two_tables(alloc)?;
        let (lent, hall) = (&rt, &lobby);
        let err = rt.stderr();
        let (answered, said) = thread::join(
            lent,
            || { visit(alloc, lent, addr, hall, count.is_some()) },
            ||
                requires { vec_len tables ≡ 2 }
            {
                let host = Host { alloc, rt: lent };
                let making = Making {
                    first: FIRST,
                    seed: Seed::fixed(),
                    spread: Spread {
                        vnodes: 3,
                        copies: 3,
                    },
                };
                let stay = Stay {
                    folder: None::<SystemFolder<'_>>,
                    held: Held::nothing(alloc),
                    door: Door::<'_, HostRuntime>::Open(hall),
                    ledger: &NoLedger,
                    err,
                };
                said_of(session::live(&host, making, tables, stay, &mut io::sink()))
            },
        );
        expect(answered? == (TALK.len(), CLIENTS), &FIRST)?;
        expect(said == Ok(()), &said)?;
    }
    Ok(())
}
