//! The bytes of connections, in the place of a network.

ghost use Rattle.std.specs.Prelude.{◌≡◌, OnOk, IfErr};
ghost use Rattle.commands.specs.Command.{Listened};

use crate::asking::ask;
use crate::folder::{Folder, read_ending};
use crate::texts::first_difference;
use audit_faults::{Followed, WatchFault};
use bpf_helpers::Table;
use commands::files::Files;
use commands::server::{Post, ServesOnly, Serving, Unserved};
use hook_registry::Registry;
use http_connection::Backend;
use peers::Local;
use server_one_thread::{answers_to, one_thread};
use server_store::Store;
use std::alloc::{AllocError, Global};
use std::io::Write;
use std::{io, rt};

/// What stands between two connections of a file: the separator of records.
pub const SEPARATOR: u8 = 0x1e;

/// How many vnodes there are.
const VNODES: u32 = 3;

/// The number of the start: always the same, so that tags and contexts are.
const INCARNATION: u16 = 0;

/// One connection, whose requests are all at hand.
#[derive(Drop)]
struct Dialogue<'a> {
    /// The bytes that the client sends.
    requests: &'a [u8],
    /// The bytes that it is answered.
    answers: Vec<u8>,
}

impl Dialogue<'_> {
    /// Tells the address, and answers the connection.
    fn answer<B: Backend, O: Write>(
        &mut self,
        alloc: Global,
        store: &mut B,
        addr: &str,
        out: &mut O,
    ) -> Result<Followed, Unserved>
        ensures told { OnOk result (Listened (O.contents out.old) (O.contents out.new)) }
        ensures unserved { IfErr result (λ why. why ≡ Unserved.Unreadable) }
    {
        writeln!(out, "listening {addr}")?;
        match answers_to(alloc, self.requests, store) {
            Ok(answers) => {
                self.answers = answers;
                // The journals are gone with the store: nothing is said of them.
                Ok(Err(WatchFault::Lost))
            }
            Err(_) => Err(Unserved::Unreadable),
        }
    }
}

impl Serving for Dialogue<'_> {
    fn serve<O: Write>(
        &mut self,
        alloc: Global,
        table: Table,
        more: Vec<Table>,
        post: &Post<'_>,
        out: &mut O,
    ) -> Result<Followed, Unserved> {
        drop(more);
        let mut store = open(alloc, table)?;
        self.answer(alloc, &mut store, post.addr, out)
    }
}

/// The store that is served.
pub fn open(alloc: Global, table: Table) -> Result<Store<Local, Registry>, Unserved> {
    match Local::open(alloc, VNODES, INCARNATION) {
        Ok(vnodes) => Ok(one_thread(alloc, vnodes, table)),
        Err(AllocError) => Err(Unserved::NoMemory),
    }
}

/// Tells of how many connections the requests are answered by what stands beside them, and of each other one from which byte on
/// they aren't.
pub fn try_dialogue<R: rt::Files + AllocGlobal>(
    rt: &R,
    name: &str,
    told: &mut Vec<u8>,
) -> io::Result<()> {
    let alloc = rt.alloc();
    let mut http = Folder { rt, path: "http/" };
    let requests = read_ending(alloc, &http, name, "requests")?;
    let answers = read_ending(alloc, &http, name, "answers")?;
    let as_written = try_connections(alloc, &mut http, name, &requests, &answers, told)?;
    writeln!(told, "http/{name}.requests as written on {as_written}")
}

/// How many connections are answered as is written. Tells of each other one.
fn try_connections<F: Files>(
    alloc: Global,
    files: &mut F,
    name: &str,
    requests: &[u8],
    answers: &[u8],
    told: &mut Vec<u8>,
) -> io::Result<u32> {
    let mut answers = answers.split(|byte| *byte == SEPARATOR);
    let mut as_written = 0u32;
    for requests in requests.split(|byte| *byte == SEPARATOR) {
        let want = answers.next().unwrap_or(&[]);
        match answered_otherwise(alloc, files, requests, want)? {
            None => as_written = as_written.saturating_add(1),
            Some(at) => writeln!(
                told,
                "http/{name}.requests something else from byte {at} on"
            )?,
        }
    }
    Ok(as_written)
}

/// From which byte on a client is answered something else to the bytes that it sends, by the store that dvvstore serves; a client that
/// isn't served is answered nothing.
fn answered_otherwise<F: Files>(
    alloc: Global,
    files: &mut F,
    requests: &[u8],
    want: &[u8],
) -> io::Result<Option<usize>> {
    let mut server = ServesOnly(Dialogue {
        requests,
        answers: Vec::new(alloc),
    });
    ask(alloc, &["serve", "memory", "1", "1"], files, &mut server)?;
    Ok(first_difference(&server.0.answers, want))
}
