//! Programs in rows of a file, tried one after another.

use crate::asking::tell_command;
use crate::both::Counts;
use crate::desk::Desk;
use crate::folder::{Folder, read_ending};
use crate::texts::{push_digits, tell_difference};
use commands::files::Files;
use std::alloc::Global;
use std::io::Write;
use std::{io, rt};

/// Tells whether the rows of a file are told, each behind its name, as is written beside them. The words are those of a command, on the
/// files `file`, the program of a row, and `new`, its input.
pub fn try_rows<R: rt::Files + AllocGlobal>(
    rt: &R,
    words: &[&str],
    name: &str,
    counts: &mut Counts,
    told: &mut Vec<u8>,
) -> io::Result<()> {
    let alloc = rt.alloc();
    let folder = Folder { rt, path: "rows/" };
    let rows = read_ending(alloc, &folder, name, "rows")?;
    let want = read_ending(alloc, &folder, name, "told")?;
    write!(told, "rows/{name}.rows ")?;
    let mut desk = Desk::new(alloc, &folder);
    tell_rows(alloc, words, &rows, &want, &mut desk, counts, told)
}

/// Tells whether each of some rows, a line each, is told as is written.
fn tell_rows<F: Files>(
    alloc: Global,
    words: &[&str],
    rows: &[u8],
    want: &[u8],
    desk: &mut Desk<'_, F>,
    counts: &mut Counts,
    told: &mut Vec<u8>,
) -> io::Result<()> {
    let mut got = Vec::new(alloc);
    for line in rows.split(|byte| *byte == b'\n') {
        if !line.is_empty() {
            try_row(alloc, words, line, desk, counts, &mut got)?;
        }
    }
    tell_difference(&got, want, told)
}

/// Tells the name of a row, what the command says of its program, and its status. The parts of a row are its name, the program and its
/// input, these two in hexadecimal, and a comment.
fn try_row<F: Files>(
    alloc: Global,
    words: &[&str],
    line: &[u8],
    desk: &mut Desk<'_, F>,
    counts: &mut Counts,
    got: &mut Vec<u8>,
) -> io::Result<()> {
    let mut parts = line.split(|byte| *byte == b'|');
    got.write_all(parts.next().unwrap_or(&[]))?;
    got.write_all(b"\n")?;
    desk.clear();
    push_digits(alloc, parts.next().unwrap_or(&[]), 1, &mut desk.file)?;
    push_digits(alloc, parts.next().unwrap_or(&[]), 1, &mut desk.new)?;
    counts.count(alloc, desk, "file", "new")?;
    tell_command(alloc, words, desk, got)
}
