//! A store that keeps siblings, with hooks in BPF: the program.
#![tactic(auto)]

mod beginning;
mod crew;
mod disk;
mod host;
mod keeper;
mod limits;
mod network;
mod reasons;
mod saver;
mod session;
mod spread;
mod start;
mod system_folder;
#[cfg(test)]
mod tests;

use crate::disk::Disk;
use crate::network::Network;
use commands::own::command_with_helpers;
use commands::streams::Streams;
use std::alloc::{AllocError, Global};
use std::env::Args;
use std::io::Write as _;
use std::process::ExitCode;
use std::{env, io};

/// What stands behind the program's name. Words that are no text are those of no command: none.
fn arguments(rt: &HostRuntime) -> Result<Vec<String>, AllocError> {
    match env::args(rt) {
        Ok(all) => behind_the_name(rt.alloc(), all),
        Err(error) if error.kind() == io::ErrorKind::OutOfMemory => Err(AllocError),
        Err(_) => Ok(Vec::new(rt.alloc())),
    }
}

/// All arguments but the first.
fn behind_the_name(alloc: Global, all: Args<Global>) -> Result<Vec<String>, AllocError> {
    let mut arguments = Vec::new(alloc);
    for argument in all.skip(1) {
        arguments.push(argument)?;
    }
    Ok(arguments)
}

/// The arguments, as they are lent.
fn lent(alloc: Global, arguments: &[String]) -> Result<Vec<&str>, AllocError> {
    let mut words = Vec::new(alloc);
    for argument in arguments {
        words.push(argument.as_str())?;
    }
    Ok(words)
}

/// Tells on the output that memory was refused, for the words or for the tables of helpers, and gives the status.
fn refused(rt: &HostRuntime) -> io::Result<ExitCode> {
    rt.stdout().write_all(b"E1\n")?;
    Ok(ExitCode::from(1))
}

fn main(rt: HostRuntime) -> io::Result<ExitCode> {
    let alloc = rt.alloc();
    let Ok(arguments) = arguments(&rt) else {
        return refused(&rt);
    };
    let Ok(words) = lent(alloc, &arguments) else {
        return refused(&rt);
    };
    let mut disk = Disk {
        rt: &rt,
        alloc,
        err: rt.stderr(),
    };
    let mut network = Network {
        rt: &rt,
        files: &rt,
        input: rt.stdin(),
        err: rt.stderr(),
    };
    let mut streams = Streams {
        out: rt.stdout(),
        err: rt.stderr(),
    };
    match command_with_helpers(alloc, &words, &mut disk, &mut network, &mut streams) {
        Ok(status) => Ok(ExitCode::from(status)),
        Err(AllocError) => refused(&rt),
    }
}
