//! What the command `serve` comes to: a store that there is no memory for, and what is said of the journals at the end.

use audit_faults::{AuditFault, EntryFault, Followed, WatchFault};
use bpf_helpers::Table;
use commands::files::{Files, Part};
use commands::own::command_with_helpers;
use commands::server::{Post, ServesOnly, Serving, Unserved};
use commands::streams::Streams;
use std::alloc::Global;
use std::io;
use std::io::Write;
use std::test::Fail;
use test_support::expect;

/// A folder without files.
#[derive(Drop)]
struct Bare;

impl Files for Bare {
    fn read(&self, _alloc: Global, _name: &str) -> io::Result<Vec<u8>> {
        Err(io::Error::from(io::ErrorKind::NotFound))
    }

    fn read_part(&self, _alloc: Global, _name: &str, _most: usize) -> io::Result<Part> {
        Err(io::Error::from(io::ErrorKind::NotFound))
    }

    fn write(&mut self, _name: &str, _bytes: &[u8]) -> io::Result<()> {
        Err(io::Error::from(io::ErrorKind::PermissionDenied))
    }
}

/// A server that no connection comes to, where it has memory for a store. It keeps with how many tables of helpers, for how many
/// connections, and with how many copies it was asked to serve.
#[derive(Drop)]
struct Deserted {
    says: Result<Followed, Unserved>,
    asked: Option<(usize, Option<u32>, u32)>,
}

impl Serving for Deserted {
    fn serve<O: Write>(
        &mut self,
        _alloc: Global,
        _table: Table,
        more: Vec<Table>,
        post: &Post<'_>,
        out: &mut O,
    ) -> Result<Followed, Unserved> {
        let said = self.says?;
        writeln!(out, "listening {}", post.addr)?;
        self.asked = Some((1 + more.len(), post.count, post.copies));
        Ok(said)
    }
}

/// Words, what is said of the journals then, with how many tables of helpers, for how many connections and with how many copies it was
/// served, what is printed, and the status.
type Row = (
    &'static [&'static str],
    Result<Followed, Unserved>,
    Option<(usize, Option<u32>, u32)>,
    &'static str,
    u8,
);

const FINE: Result<Followed, Unserved> = Ok(Ok(()));

const ALL_WELL: &str = "listening here\naudit ok\n";

const FOUR: &[&str] = &["serve", "here", "4", "3"];

const BY_FOUR: Option<(usize, Option<u32>, u32)> = Some((4, Some(3), 1));

const ROWS: &[Row] = &[
    (
        &["serve", "nowhere", "16"],
        Err(Unserved::NoMemory),
        None,
        "E1\n",
        1,
    ),
    // As many workers serve as are asked for, each with a table of its own.
    (
        &["serve", "here", "1"],
        FINE,
        Some((1, None, 1)),
        ALL_WELL,
        0,
    ),
    (
        &["serve", "here", "2", "1"],
        FINE,
        Some((2, Some(1), 1)),
        ALL_WELL,
        0,
    ),
    (
        &["serve", "here", "9"],
        FINE,
        Some((9, None, 1)),
        ALL_WELL,
        0,
    ),
    (
        &["serve", "here", "15", "4294967295"],
        FINE,
        Some((15, Some(4_294_967_295), 1)),
        ALL_WELL,
        0,
    ),
    (
        &["serve", "here", "16", "7"],
        FINE,
        Some((16, Some(7), 1)),
        ALL_WELL,
        0,
    ),
    // So many copies as are asked for.
    (
        &["serve", "here", "1", "copies", "3"],
        FINE,
        Some((1, None, 3)),
        ALL_WELL,
        0,
    ),
    (
        &["serve", "here", "2", "1", "copies", "2"],
        FINE,
        Some((2, Some(1), 2)),
        ALL_WELL,
        0,
    ),
    // What is said of the journals is told after the address, and is the status.
    (
        FOUR,
        Ok(Err(WatchFault::NoMemory)),
        BY_FOUR,
        "listening here\naudit E1\n",
        1,
    ),
    (
        FOUR,
        Ok(Err(WatchFault::Found(AuditFault::NoMemory))),
        BY_FOUR,
        "listening here\naudit E1\n",
        1,
    ),
    (
        FOUR,
        Ok(Err(WatchFault::Lost)),
        BY_FOUR,
        "listening here\naudit handed out\n",
        1,
    ),
    (
        FOUR,
        Ok(Err(WatchFault::Found(AuditFault::Found {
            code: EntryFault::Twice,
            vnode: 1,
            place: 0,
        }))),
        BY_FOUR,
        "listening here\naudit A1 1 0\n",
        1,
    ),
    (
        FOUR,
        Ok(Err(WatchFault::Found(AuditFault::Found {
            code: EntryFault::Falls,
            vnode: 0,
            place: 4_294_967_295,
        }))),
        BY_FOUR,
        "listening here\naudit A2 0 4294967295\n",
        1,
    ),
    (
        FOUR,
        Ok(Err(WatchFault::Found(AuditFault::Found {
            code: EntryFault::NoSource,
            vnode: 458_752,
            place: 10,
        }))),
        BY_FOUR,
        "listening here\naudit A3 458752 10\n",
        1,
    ),
    (
        FOUR,
        Ok(Err(WatchFault::Found(AuditFault::Found {
            code: EntryFault::OtherState,
            vnode: 4_294_967_295,
            place: 7,
        }))),
        BY_FOUR,
        "listening here\naudit A4 4294967295 7\n",
        1,
    ),
    (
        FOUR,
        Ok(Err(WatchFault::Found(AuditFault::Found {
            code: EntryFault::GivenUp,
            vnode: 458_752,
            place: 16_384,
        }))),
        BY_FOUR,
        "listening here\naudit A5 458752 16384\n",
        1,
    ),
    (
        FOUR,
        Ok(Err(WatchFault::Found(AuditFault::Found {
            code: EntryFault::Late,
            vnode: 3,
            place: 4,
        }))),
        BY_FOUR,
        "listening here\naudit A6 3 4\n",
        1,
    ),
    (
        FOUR,
        Ok(Err(WatchFault::Found(AuditFault::Found {
            code: EntryFault::Illegal,
            vnode: 1,
            place: 4_294_967_296,
        }))),
        BY_FOUR,
        "listening here\naudit A7 1 4294967296\n",
        1,
    ),
];

/// Whether words come to what their row says, with nothing beside it.
fn comes_to(alloc: Global, row: &Row) -> bool {
    let (words, says, asked, told, status) = row;
    let mut server = ServesOnly(Deserted {
        says: *says,
        asked: None,
    });
    let mut streams = Streams {
        out: Vec::new(alloc),
        err: Vec::new(alloc),
    };
    let done = command_with_helpers(alloc, words, &mut Bare, &mut server, &mut streams);
    done == Ok(*status)
        && server.0.asked == *asked
        && streams.out.as_slice() == told.as_bytes()
        && streams.err.is_empty()
}

#[test]
fn what_serving_comes_to(rt: HostRuntime) -> Result<(), Fail> {
    for (place, row) in ROWS.iter().enumerate() {
        expect(comes_to(rt.alloc(), row), &place)?;
    }
    Ok(())
}
