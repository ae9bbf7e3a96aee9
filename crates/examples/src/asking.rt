//! What a command of dvvstore comes to.

use commands::files::Files;
use commands::own::command_with_helpers;
use commands::server::{Offline, Server};
use commands::streams::Streams;
use std::alloc::Global;
use std::io;
use std::io::Write;

/// What a command has written, and its status.
#[derive(Drop)]
pub struct Said {
    pub streams: Streams<Vec<u8>, Vec<u8>>,
    pub status: u8,
}

/// Does what the words ask for. No clause says what comes of it: the examples look at that.
pub fn ask<F: Files, S: Server>(
    alloc: Global,
    words: &[&str],
    files: &mut F,
    server: &mut S,
) -> io::Result<Said>
    requires { S.ready }
{
    let mut streams = Streams {
        out: Vec::new(alloc),
        err: Vec::new(alloc),
    };
    let status = command_with_helpers(alloc, words, files, server, &mut streams)?;
    Ok(Said { streams, status })
}

/// Does what the words ask for, without a network, and tells its output, its status and its error.
pub fn tell_command<F: Files>(
    alloc: Global,
    words: &[&str],
    files: &mut F,
    told: &mut Vec<u8>,
) -> io::Result<()> {
    let said = ask(alloc, words, files, &mut Offline)?;
    tell_said(&said, told)
}

/// Tells what a command has written, and its status.
fn tell_said(said: &Said, told: &mut Vec<u8>) -> io::Result<()> {
    let Said { streams, status } = said;
    told.write_all(&streams.out)?;
    writeln!(told, "status {status}")?;
    told.write_all(&streams.err)
}
