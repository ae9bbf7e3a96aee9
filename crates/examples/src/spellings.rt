//! Records and contexts in the rows of a file, spelled rightly and wrongly: of each is told what it says and whether it is written
//! again as it stands, or why it isn't read.

use crate::contexts::tell_context;
use crate::folder::{Folder, read_ending};
use crate::records::tell_record;
use crate::texts::{push_digits, tell_difference};
use std::alloc::Global;
use std::io::Write;
use std::{io, rt};

/// What the bytes of rows spell.
#[derive(Clone, Copy)]
pub enum Kind {
    /// A record, and what may follow it.
    Record,
    /// A causal context.
    Context,
}

/// Tells whether the rows of a file are told as is written beside them.
pub fn try_spellings<R: rt::Files + AllocGlobal>(
    rt: &R,
    kind: Kind,
    name: &str,
    told: &mut Vec<u8>,
) -> io::Result<()> {
    let alloc = rt.alloc();
    let folder = Folder {
        rt,
        path: "spellings/",
    };
    let rows = read_ending(alloc, &folder, name, "rows")?;
    let want = read_ending(alloc, &folder, name, "told")?;
    write!(told, "spellings/{name}.rows ")?;
    tell_rows(alloc, kind, &rows, &want, told)
}

/// Tells whether each of some rows is told, in a line, as is written. Lines that begin with `#` are comments.
fn tell_rows(
    alloc: Global,
    kind: Kind,
    rows: &[u8],
    want: &[u8],
    told: &mut Vec<u8>,
) -> io::Result<()> {
    let mut got = Vec::new(alloc);
    for line in rows.split(|byte| *byte == b'\n') {
        if !matches!(line, [] | [b'#', ..]) {
            tell_row(alloc, kind, line, &mut got)?;
        }
    }
    tell_difference(&got, want, told)
}

/// Tells of a row its name and what its bytes spell, in a line. Its parts are the name, text, and digits in hexadecimal: its bytes are
/// those of the text, and behind them those that the digits spell.
fn tell_row(alloc: Global, kind: Kind, line: &[u8], got: &mut Vec<u8>) -> io::Result<()> {
    let mut parts = line.split(|byte| *byte == b'|');
    got.write_all(parts.next().unwrap_or(&[]))?;
    let text = parts.next().unwrap_or(&[]);
    let bytes = bytes_of(alloc, text, parts.next().unwrap_or(&[]))?;
    tell_bytes(alloc, kind, &bytes, got)?;
    got.write_all(b"\n")
}

/// The bytes of a text, and behind them those that digits in hexadecimal spell.
fn bytes_of(alloc: Global, text: &[u8], digits: &[u8]) -> io::Result<Vec<u8>> {
    let mut bytes = text.to_vec(alloc)?;
    push_digits(alloc, digits, 1, &mut bytes)?;
    Ok(bytes)
}

/// Tells what bytes spell.
fn tell_bytes(alloc: Global, kind: Kind, bytes: &[u8], got: &mut Vec<u8>) -> io::Result<()> {
    match kind {
        Kind::Record => tell_record(alloc, bytes, got),
        Kind::Context => tell_context(alloc, bytes, got),
    }
}
