//! Commands in the trials of a file, done one after another.
//!
//! A trial begins with a dollar sign. Its first line has its name and, each behind a bar, the words of its commands, which one space parts.
//! The lines behind that are the file `file`, which may end in hexadecimal, behind a tilde: digits in groups, each of them so often as a
//! star tells. Behind a greater-than sign and a line feed stands what has to come of each command: its output, its status, its error, and
//! what it made of the file `new`. An empty line ends the trial. What stands before the first trial is a comment.

use crate::asking::tell_command;
use crate::desk::Desk;
use crate::folder::{Folder, read_ending};
use crate::texts::{parted, push_digits, text_of, words_in};
use commands::files::Files;
use sha1::Sha1;
use std::alloc::Global;
use std::io::Write;
use std::{io, rt};

/// Tells how many trials of a file come to what is written, and of each other one what it comes to.
pub fn try_trials<R: rt::Files + AllocGlobal>(
    rt: &R,
    name: &str,
    told: &mut Vec<u8>,
) -> io::Result<()> {
    let alloc = rt.alloc();
    let folder = Folder {
        rt,
        path: "commands/",
    };
    let trials = read_ending(alloc, &folder, name, "trials")?;
    let as_written = count_trials(alloc, &trials, &mut Desk::new(alloc, &folder), told)?;
    writeln!(told, "commands/{name}.trials as written {as_written}")
}

/// How many trials come to what is written. Tells what each other one comes to.
fn count_trials<F: Files>(
    alloc: Global,
    trials: &[u8],
    desk: &mut Desk<'_, F>,
    told: &mut Vec<u8>,
) -> io::Result<u32> {
    let mut got = Vec::new(alloc);
    let mut as_written = 0u32;
    let (_, trials) = parted(trials, b'$');
    for trial in trials.split(|byte| *byte == b'$') {
        if is_as_written(alloc, trial, desk, &mut got)? {
            as_written = as_written.saturating_add(1);
        } else {
            tell_otherwise(trial, &got, told)?;
        }
    }
    Ok(as_written)
}

/// Tells a trial, and what it comes to.
fn tell_otherwise(trial: &[u8], got: &[u8], told: &mut Vec<u8>) -> io::Result<()> {
    told.write_all(trial)?;
    told.write_all(b"comes to")?;
    told.write_all(got)
}

/// Whether a trial comes to what is written. What it comes to is told anew.
fn is_as_written<F: Files>(
    alloc: Global,
    trial: &[u8],
    desk: &mut Desk<'_, F>,
    got: &mut Vec<u8>,
) -> io::Result<bool> {
    let (asked, want) = parted(trial, b'>');
    got.clear();
    got.write_all(b"\n")?;
    do_trial(alloc, asked, desk, got)?;
    got.write_all(b"\n")?;
    Ok(got.as_slice() == want)
}

/// Lays out the file of a trial, does its commands, and tells what comes of each.
fn do_trial<F: Files>(
    alloc: Global,
    asked: &[u8],
    desk: &mut Desk<'_, F>,
    got: &mut Vec<u8>,
) -> io::Result<()> {
    let (line, text) = parted(asked, b'\n');
    desk.clear();
    push_file(alloc, text, &mut desk.file)?;
    let mut parts = line.split(|byte| *byte == b'|');
    let _name = parts.next();
    for words in parts {
        do_words(alloc, words, desk, got)?;
    }
    Ok(())
}

/// Does what words ask for, and tells what comes of it.
fn do_words<F: Files>(
    alloc: Global,
    text: &[u8],
    desk: &mut Desk<'_, F>,
    got: &mut Vec<u8>,
) -> io::Result<()> {
    let words = words_in(alloc, text)?;
    tell_command(alloc, &words, desk, got)?;
    tell_new(alloc, desk, got)
}

/// Tells how long the file `new` is, and its digest, where a command has written it.
fn tell_new<F: Files>(alloc: Global, desk: &mut Desk<'_, F>, got: &mut Vec<u8>) -> io::Result<()> {
    if !desk.is_written {
        return Ok(());
    }
    desk.is_written = false;
    let len = desk.new.len();
    let digest = hex::encode(alloc, Sha1::digest(&desk.new).as_slice())?;
    writeln!(got, "new {len} bytes, SHA-1 {digest}")
}

/// Adds the bytes of a text, whose end may be in hexadecimal.
fn push_file(alloc: Global, text: &[u8], file: &mut Vec<u8>) -> io::Result<()> {
    let (plain, digits) = parted(text, b'~');
    file.write_all(plain)?;
    for group in digits.split(|byte| matches!(*byte, b' ' | b'\n')) {
        push_group(alloc, group, file)?;
    }
    Ok(())
}

/// Adds the bytes that digits spell, so often as is told behind them.
fn push_group(alloc: Global, group: &[u8], file: &mut Vec<u8>) -> io::Result<()> {
    let (digits, times) = parted(group, b'*');
    push_digits(alloc, digits, times_of(times)?, file)
}

/// How often: once where nothing is told.
fn times_of(digits: &[u8]) -> io::Result<u32> {
    if digits.is_empty() {
        return Ok(1);
    }
    match text_of(digits)?.parse() {
        Ok(times) => Ok(times),
        Err(_) => Err(io::Error::from(io::ErrorKind::InvalidData)),
    }
}
