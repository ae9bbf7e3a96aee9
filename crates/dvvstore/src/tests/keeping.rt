//! What was acknowledged is there at the next start, from the last snapshot and from a stop.

ghost use Rattle.std.specs.Prelude.{◌≡◌, ◌≤◌, vec_len};

use crate::host::Host;
use crate::keeper::{Door, Stay, Unbegun};
use crate::network::{Said, finish};
use crate::reasons::bind;
use crate::session;
use crate::session::{Left, Making};
use crate::spread::Spread;
use crate::tests::memory::{Pages, Shared};
use crate::tests::{
    BIND, DONE, INSTALL, PATIENCE, READ_C, REJECTED, WRITE_B, WRITE_C, is_told, two_tables,
};
use bpf_helpers::Table;
use commands::server::{Ended, Says as _, Unserved};
use dvv::VNODES_PER_NUMBER;
use kept_folder::{HOOKS, Held, Opened};
use log_desk::NoLedger;
use server_accept::{Bound, Lobby, Setup, open};
use std::alloc::Global;
use std::io::Stderr;
use std::net::{Net, SocketAddr, TcpListener, TcpStream};
use std::sync::{Mutex, Wait};
use std::test::Fail;
use std::thread::{Parker, Threads};
use std::time::Duration;
use std::{io, thread};
use test_support::expect;
use vnode::Seed;

/// One more key is written.
const WRITE_D: &[u8] =
    b"PUT /buckets/d/keys/k HTTP/1.1\r\nHost: h\r\nContent-Type: text/plain\r\nContent-Length: 1\r\n\r\nd";

/// It is read.
const READ_D: &[u8] = b"GET /buckets/d/keys/k HTTP/1.1\r\nHost: h\r\n\r\n";

/// The first write of a key, at the vnode with index 0.
const WRITTEN_AT_0: &[u8] =
    b"HTTP/1.1 204 No Content\r\nX-Riak-Tag: 0-1\r\nX-Content-Type-Options: nosniff\r\nServer: dvvstore\r\n\r\n";

/// At that with index 1.
const WRITTEN_AT_1: &[u8] =
    b"HTTP/1.1 204 No Content\r\nX-Riak-Tag: 1-1\r\nX-Content-Type-Options: nosniff\r\nServer: dvvstore\r\n\r\n";

/// At that with index 3.
const WRITTEN_AT_3: &[u8] =
    b"HTTP/1.1 204 No Content\r\nX-Riak-Tag: 3-1\r\nX-Content-Type-Options: nosniff\r\nServer: dvvstore\r\n\r\n";

/// The key of bucket c, as it was written at the vnode with index 0.
const C_AT_0: &[u8] =
    b"HTTP/1.1 200 OK\r\nContent-Type: text/plain\r\nX-Riak-Vclock: AgABAAAAAAAAAAAAAAE=\r\nContent-Length: 1\r\nX-Content-Type-Options: nosniff\r\nServer: dvvstore\r\nETag: \"0-1\"\r\nVary: Accept\r\n\r\nc";

/// As at that with index 3.
const C_AT_3: &[u8] =
    b"HTTP/1.1 200 OK\r\nContent-Type: text/plain\r\nX-Riak-Vclock: AgABAwAAAAAAAAAAAAE=\r\nContent-Length: 1\r\nX-Content-Type-Options: nosniff\r\nServer: dvvstore\r\nETag: \"3-1\"\r\nVary: Accept\r\n\r\nc";

/// The key of bucket d, as it was written at the vnode with index 1.
const D_AT_1: &[u8] =
    b"HTTP/1.1 200 OK\r\nContent-Type: text/plain\r\nX-Riak-Vclock: AgABAQAAAAAAAAAAAAE=\r\nContent-Length: 1\r\nX-Content-Type-Options: nosniff\r\nServer: dvvstore\r\nETag: \"1-1\"\r\nVary: Accept\r\n\r\nd";

/// What a client asks, and what it is told.
type Line = (&'static [u8], &'static [u8]);

/// A hook that rejects is installed and bound, and a key is written.
const FIRST: [Line; 3] = [(INSTALL, DONE), (BIND, DONE), (WRITE_C, WRITTEN_AT_0)];

/// Another key is written, behind the first snapshot.
const LATER: [Line; 1] = [(WRITE_D, WRITTEN_AT_1)];

/// The first key is there, and the hook judges.
const BOTH: [Line; 2] = [(READ_C, C_AT_0), (WRITE_B, REJECTED)];

/// So is the other key.
const STOPPED: [Line; 1] = [(READ_D, D_AT_1)];

/// What a client of one start asks, of so many vnodes where it begins with no file, before a snapshot and behind it. Another is waited for
/// then: it has begun behind all that was asked first. Where nothing is asked behind it none is waited for.
#[derive(Clone, Copy)]
struct Round {
    vnodes: u32,
    first: &'static [Line],
    later: &'static [Line],
}

/// The first start, one from its last snapshot, and one from its stop.
const ROUNDS: [Round; 3] = [
    Round {
        vnodes: 3,
        first: &FIRST,
        later: &LATER,
    },
    Round {
        vnodes: 3,
        first: &BOTH,
        later: &[],
    },
    Round {
        vnodes: 3,
        first: &STOPPED,
        later: &[],
    },
];

/// Two keys are written to one vnode.
const TO_ONE: [Line; 2] = [(WRITE_C, WRITTEN_AT_0), (WRITE_D, WRITTEN_AT_0)];

/// They are there.
const OF_ONE: [Line; 2] = [
    (READ_C, C_AT_0),
    (
        READ_D,
        b"HTTP/1.1 200 OK\r\nContent-Type: text/plain\r\nX-Riak-Vclock: AgABAAAAAAAAAAAAAAE=\r\nContent-Length: 1\r\nX-Content-Type-Options: nosniff\r\nServer: dvvstore\r\nETag: \"0-1\"\r\nVary: Accept\r\n\r\nd",
    ),
];

/// Two keys are written to four vnodes, at the places that the digests of the keys give.
const TO_FOUR: [Line; 2] = [(WRITE_C, WRITTEN_AT_3), (WRITE_D, WRITTEN_AT_1)];

/// They are there.
const OF_FOUR: [Line; 2] = [(READ_C, C_AT_3), (READ_D, D_AT_1)];

/// Two keys are written to sixteen vnodes.
const TO_SIXTEEN: [Line; 2] = [
    (WRITE_C, WRITTEN_AT_3),
    (
        WRITE_D,
        b"HTTP/1.1 204 No Content\r\nX-Riak-Tag: 13-1\r\nX-Content-Type-Options: nosniff\r\nServer: dvvstore\r\n\r\n",
    ),
];

/// They are there.
const OF_SIXTEEN: [Line; 2] = [
    (READ_C, C_AT_3),
    (
        READ_D,
        b"HTTP/1.1 200 OK\r\nContent-Type: text/plain\r\nX-Riak-Vclock: AgABDQAAAAAAAAAAAAE=\r\nContent-Length: 1\r\nX-Content-Type-Options: nosniff\r\nServer: dvvstore\r\nETag: \"13-1\"\r\nVary: Accept\r\n\r\nd",
    ),
];

/// Starts of one, four and sixteen vnodes, each with the start behind it, which has as many as there are files, whatever is asked for.
const SPREADS: [[Round; 2]; 3] = [
    [
        Round {
            vnodes: 1,
            first: &TO_ONE,
            later: &[],
        },
        Round {
            vnodes: 2,
            first: &OF_ONE,
            later: &[],
        },
    ],
    [
        Round {
            vnodes: 4,
            first: &TO_FOUR,
            later: &[],
        },
        Round {
            vnodes: 2,
            first: &OF_FOUR,
            later: &[],
        },
    ],
    [
        Round {
            vnodes: 16,
            first: &TO_SIXTEEN,
            later: &[],
        },
        Round {
            vnodes: 2,
            first: &OF_SIXTEEN,
            later: &[],
        },
    ],
];

/// What a client asks, and where.
#[derive(Clone, Copy)]
struct Errand {
    addr: SocketAddr,
    round: Round,
}

/// What a client saw of a start.
#[derive(Drop)]
struct Seen {
    /// Whether each line was told as it should be.
    is_right: bool,
    /// The files that its last snapshot put.
    snapshot: Pages,
}

/// A start that has read its folder.
#[derive(Drop)]
struct Begun {
    number: u32,
    held: Held,
    spread: Spread,
    tables: Vec<Table>,
    ghost few: { number ≤ 16777215 },
    ghost two: { vec_len tables ≡ 2 },
}

/// Where a start answers.
#[derive(Drop)]
struct Hall {
    lobby: Lobby,
    addr: SocketAddr,
    err: Stderr,
}

/// Whether a client is told each line as it should be.
fn are_told(client: &mut TcpStream, lines: &[Line]) -> io::Result<bool> {
    for (asked, told) in lines {
        if !is_told(client, asked, told)? {
            return Ok(false);
        }
    }
    Ok(true)
}

/// The files of a folder, once its hooks' requests were put.
fn put_in<R: Wait>(folder: Shared<'_, R>) -> io::Result<Option<Pages>> {
    let pages = folder.pages.lock(folder.rt).copy()?;
    match pages.get(folder.alloc, HOOKS)? {
        Some(bytes) if !bytes.is_empty() => Ok(Some(pages)),
        _ => Ok(None),
    }
}

/// Waits until a snapshot has put all files from now on, and copies them as they are then. It may have begun before.
fn snapshot_of<R: Wait>(folder: Shared<'_, R>) -> io::Result<Pages> {
    let rest = Parker::new();
    folder.pages.lock(folder.rt).set(HOOKS, &[])?;
    for _ in 0..100 * PATIENCE {
        if let Some(pages) = put_in(folder)? {
            return Ok(pages);
        }
        rest.park_timeout(folder.rt, Duration::from_millis(10));
    }
    Ok(Pages::new(folder.alloc))
}

/// A client that has connected.
fn client_at<R: Net<Listener = TcpListener, Stream = TcpStream>>(
    rt: &R,
    addr: SocketAddr,
) -> io::Result<TcpStream> {
    let client = TcpStream::connect(rt, addr)?;
    client.set_read_timeout(Some(Duration::from_secs(PATIENCE)))?;
    Ok(client)
}

/// Asks what a round asks of the server at an address.
fn asks<R: Net<Listener = TcpListener, Stream = TcpStream> + Wait>(
    folder: Shared<'_, R>,
    addr: SocketAddr,
    round: Round,
) -> io::Result<Seen> {
    let mut client = client_at(folder.rt, addr)?;
    let is_first = are_told(&mut client, round.first)?;
    if round.later.is_empty() {
        return Ok(Seen {
            is_right: is_first,
            snapshot: Pages::new(folder.alloc),
        });
    }
    snapshot_of(folder)?;
    let is_later = are_told(&mut client, round.later)?;
    Ok(Seen {
        is_right: is_first && is_later,
        snapshot: snapshot_of(folder)?,
    })
}

/// The same, and stops the server.
fn visit<R: Net<Listener = TcpListener, Stream = TcpStream> + Wait>(
    folder: Shared<'_, R>,
    lobby: &Lobby,
    asked: &Errand,
) -> io::Result<Seen> {
    let seen = asks(folder, asked.addr, asked.round);
    lobby.stop();
    seen
}

/// A start that reads a folder. Each key has one copy, at one of so many vnodes, or of those whose files were read.
fn begin<R: Threads + Wait + Sync>(mut folder: Shared<'_, R>, vnodes: u32) -> Result<Begun, Fail> {
    let Shared { rt, alloc, .. } = folder;
    let Ok(Opened { number, held }) = kept_folder::open(alloc, rt, &mut folder, 0) else {
        return Err(Fail::from("not opened"));
    };
    let tables = two_tables(alloc)?;
    let spread = Spread::among(held.vnodes().or(Some(vnodes)), 2, 1);
    Ok(Begun {
        number,
        held,
        spread,
        tables,
    })
}

/// Opens a lobby over loopback.
fn hall_of(rt: &HostRuntime) -> Result<Hall, Fail> {
    let err = rt.stderr();
    let Bound { listener, addr } = bind(rt, "127.0.0.1:0", err)?;
    let setup = Setup {
        listener,
        count: None,
        input: rt.stdin(),
        makes_snapshots: true,
        err,
    };
    let lobby = open(rt.alloc(), rt, 2, setup)?;
    Ok(Hall { lobby, addr, err })
}

/// Serves what a folder held, until it is stopped.
fn serve<R: Threads + Wait + Sync>(
    folder: Shared<'_, R>,
    begun: Begun,
    hall: &Hall,
) -> Result<Left, Unbegun> {
    let Shared { rt, alloc, .. } = folder;
    let Begun {
        number,
        held,
        spread,
        tables,
    } = begun;
    let making = Making {
        first: number * VNODES_PER_NUMBER,
        seed: Seed::fixed(),
        spread,
    };
    let stay = Stay {
        folder: Some(folder),
        held,
        door: Door::<'_, HostRuntime>::Open(&hall.lobby),
        ledger: &NoLedger,
        err: hall.err,
    };
    session::live(&Host { alloc, rt }, making, tables, stay, &mut io::sink())
}

/// Serves what a folder held while a client asks what a round asks.
fn both<R: Threads + Wait + Sync + Net<Listener = TcpListener, Stream = TcpStream>>(
    folder: Shared<'_, R>,
    begun: Begun,
    hall: &Hall,
    round: Round,
) -> (io::Result<Seen>, Result<Left, Unbegun>) {
    let lobby = &hall.lobby;
    let asked = &Errand {
        addr: hall.addr,
        round,
    };
    thread::join(
        folder.rt,
        || { visit(folder, lobby, asked) },
        || { serve(folder, begun, hall) },
    )
}

/// Whether what is left of a store is kept in its folder, and its journals are one run.
fn is_kept<R: Wait>(mut folder: Shared<'_, R>, number: u32, left: Result<Left, Unbegun>) -> bool {
    let Ok(Left::Kept(served)) = left else {
        return false;
    };
    let alloc = folder.alloc;
    match finish(alloc, &mut folder, number, served, &mut io::sink()) {
        Ok(Ended::Kept(said)) => said.said() == Ok(()),
        _ => false,
    }
}

/// What a client saw of one start, where all that it saw is right, and what is left of the store is kept.
fn round_over<R: Threads + Wait + Sync + Net<Listener = TcpListener, Stream = TcpStream>>(
    folder: Shared<'_, R>,
    hall: &Hall,
    round: Round,
) -> Result<Pages, Fail> {
    let begun = begin(folder, round.vnodes)?;
    let number = begun.number;
    let (seen, left) = both(folder, begun, hall, round);
    let Seen { is_right, snapshot } = seen?;
    expect(is_right, &"told")?;
    expect(is_kept(folder, number, left), &"kept")?;
    Ok(snapshot)
}

/// A store is kept in a folder: a hook is bound and keys are written, snapshots are made by themselves, and the store is stopped. Whoever
/// begins from the last snapshot has the first key, and from the stop both; the hook judges in either.
#[test]
fn what_was_acknowledged(rt: HostRuntime) -> Result<(), Fail> {
    let (lent, alloc) = (&rt, rt.alloc());
    let [first, snapped, stopped] = ROUNDS;
    let kept = Mutex::new(Pages::new(alloc));
    kept.lock(lent).set("settings", b"snapshot 1\n")?;
    let folder = Shared {
        rt: lent,
        alloc,
        pages: &kept,
    };
    let copied = Mutex::new(round_over(folder, &hall_of(lent)?, first)?);
    let copy = Shared {
        rt: lent,
        alloc,
        pages: &copied,
    };
    round_over(copy, &hall_of(lent)?, snapped)?;
    round_over(folder, &hall_of(lent)?, stopped)?;
    Ok(())
}

/// Whether what one start writes the next one reads, in a folder of their own.
fn is_read_again<R: Threads + Wait + Sync + Net<Listener = TcpListener, Stream = TcpStream>>(
    rt: &R,
    alloc: Global,
    halls: &[Hall; 2],
    rounds: [Round; 2],
) -> Result<(), Fail> {
    let [first, second] = halls;
    let [written, read] = rounds;
    let kept = Mutex::new(Pages::new(alloc));
    let folder = Shared {
        rt,
        alloc,
        pages: &kept,
    };
    round_over(folder, first, written)?;
    round_over(folder, second, read)?;
    Ok(())
}

/// A store has any number of vnodes, and at its next start as many as it had.
#[test]
fn any_number_of_vnodes(rt: HostRuntime) -> Result<(), Fail> {
    for rounds in SPREADS {
        let halls = [hall_of(&rt)?, hall_of(&rt)?];
        is_read_again(&rt, rt.alloc(), &halls, rounds)?;
    }
    Ok(())
}
