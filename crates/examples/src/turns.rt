//! The bytes of several clients of one store, which come in pieces in some order.

ghost use Rattle.std.specs.Prelude.{◌≡◌, OnOk, IfErr};
ghost use Rattle.commands.specs.Command.{Listened};

use crate::asking::ask;
use crate::dialogue::{SEPARATOR, open};
use crate::folder::{Folder, read_ending};
use audit_faults::{Followed, WatchFault};
use bpf_helpers::Table;
use commands::files::Files;
use commands::server::{Post, ServesOnly, Serving, Unserved};
use http_connection::Backend;
use http_connections::Client;
use server_one_thread::{Arrival, Delivery, answer_all};
use std::alloc::{AllocError, Global};
use std::io::Write;
use std::{io, rt};

/// What stands between two pieces of a play, and between the answers to two clients: the separator of units.
const UNIT: u8 = 0x1f;

/// Several connections, whose bytes come in this order.
#[derive(Drop)]
struct Play<'a> {
    /// What comes, and from whom.
    deliveries: Vec<Delivery<'a>>,
    /// How many clients there are.
    clients: usize,
    /// What was read of each of them and written to it.
    told: Vec<Client>,
}

impl Play<'_> {
    /// Tells the address, and answers the connections.
    fn answer<B: Backend, O: Write>(
        &mut self,
        alloc: Global,
        store: &mut B,
        addr: &str,
        out: &mut O,
    ) -> Result<Followed, Unserved>
        ensures told { OnOk result (Listened (O.contents out.old) (O.contents out.new)) }
        ensures unserved { IfErr result (λ why. why ≡ Unserved.Unreadable) }
    {
        writeln!(out, "listening {addr}")?;
        match answer_all(alloc, self.clients, &self.deliveries, store) {
            Ok(told) => {
                self.told = told;
                // The journals are gone with the store: nothing is said of them.
                Ok(Err(WatchFault::Lost))
            }
            Err(AllocError) => Err(Unserved::Unreadable),
        }
    }
}

impl Serving for Play<'_> {
    fn serve<O: Write>(
        &mut self,
        alloc: Global,
        table: Table,
        more: Vec<Table>,
        post: &Post<'_>,
        out: &mut O,
    ) -> Result<Followed, Unserved> {
        drop(more);
        let mut store = open(alloc, table)?;
        self.answer(alloc, &mut store, post.addr, out)
    }
}

/// Tells in how many plays each client is answered what stands beside them, and of each other play its number, from 0.
pub fn try_turns<R: rt::Files + AllocGlobal>(
    rt: &R,
    name: &str,
    told: &mut Vec<u8>,
) -> io::Result<()> {
    let alloc = rt.alloc();
    let mut http = Folder { rt, path: "http/" };
    let turns = read_ending(alloc, &http, name, "turns")?;
    let answers = read_ending(alloc, &http, name, "told")?;
    let as_written = try_plays(alloc, &mut http, name, &turns, &answers, told)?;
    writeln!(told, "http/{name}.turns as written in {as_written}")
}

/// In how many plays each client is answered as is written. Tells of each other one.
fn try_plays<F: Files>(
    alloc: Global,
    files: &mut F,
    name: &str,
    turns: &[u8],
    answers: &[u8],
    told: &mut Vec<u8>,
) -> io::Result<u32> {
    let mut answers = answers.split(|byte| *byte == SEPARATOR);
    let mut as_written = 0u32;
    for (number, pieces) in turns.split(|byte| *byte == SEPARATOR).enumerate() {
        if is_answered(alloc, files, pieces, answers.next().unwrap_or(&[]))? {
            as_written = as_written.saturating_add(1);
        } else {
            writeln!(told, "http/{name}.turns something else in {number}")?;
        }
    }
    Ok(as_written)
}

/// Whether each client of a play is answered what is written, by the store that dvvstore serves.
fn is_answered<F: Files>(
    alloc: Global,
    files: &mut F,
    pieces: &[u8],
    want: &[u8],
) -> io::Result<bool> {
    let mut server = ServesOnly(Play {
        deliveries: deliveries_of(alloc, pieces)?,
        clients: want.split(|byte| *byte == UNIT).count(),
        told: Vec::new(alloc),
    });
    ask(alloc, &["serve", "memory", "1", "1"], files, &mut server)?;
    let ServesOnly(play) = server;
    Ok(play.told.len() == play.clients && are_told(&play, want))
}

/// Whether of each client first bytes of its own were read, and what was written to it is what is to be.
fn are_told(play: &Play<'_>, want: &[u8]) -> bool {
    let mut want = want.split(|byte| *byte == UNIT);
    for (number, client) in play.told.iter().enumerate() {
        let want = want.next().unwrap_or(&[]);
        if client.written.as_slice() != want
            || !were_sent(&client.heard, &play.deliveries, number)
        {
            return false;
        }
    }
    true
}

/// Whether bytes are the first of those that come from a client.
fn were_sent(heard: &[u8], deliveries: &[Delivery<'_>], client: usize) -> bool {
    let mut left = heard;
    for delivery in deliveries {
        let piece = piece_from(delivery, client);
        let (front, rest) = left.split_at(left.len().min(piece.len()));
        if !piece.starts_with(front) {
            return false;
        }
        left = rest;
    }
    left.is_empty()
}

/// The bytes that come from a client by a delivery.
fn piece_from<'a>(delivery: &Delivery<'a>, client: usize) -> &'a [u8] {
    match delivery.arrival {
        Arrival::Bytes(bytes) if delivery.client == client => bytes,
        _ => &[],
    }
}

/// What the pieces of a play are.
fn deliveries_of(alloc: Global, pieces: &[u8]) -> io::Result<Vec<Delivery<'_>>> {
    let mut deliveries = Vec::new(alloc);
    for piece in pieces.split(|byte| *byte == UNIT) {
        let Some(delivery) = delivery_of(piece) else {
            return Err(io::Error::from(io::ErrorKind::InvalidData));
        };
        deliveries.push(delivery)?;
    }
    Ok(deliveries)
}

/// What a piece is: its client's digit, and `<` with bytes behind it, `.` for their end, or `!` for a connection that breaks.
fn delivery_of(piece: &[u8]) -> Option<Delivery<'_>> {
    let (digit, arrival) = match piece {
        [digit @ b'0'..=b'9', b'<', bytes @ ..] => (digit, Arrival::Bytes(bytes)),
        [digit @ b'0'..=b'9', b'.'] => (digit, Arrival::End),
        [digit @ b'0'..=b'9', b'!'] => (digit, Arrival::Failure),
        _ => return None,
    };
    Some(Delivery {
        client: usize::from(digit - b'0'),
        arrival,
    })
}
