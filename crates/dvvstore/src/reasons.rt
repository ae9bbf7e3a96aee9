//! Why a file or an address can't be had, in a line on standard error.

ghost use Rattle.std.specs.Prelude.{◌≡◌};

use server_accept::Bound;
use std::io;
use std::io::{Eprint, ErrorKind, Stderr};
use std::net::Net;

/// What came of an operation on what has a name. Where it failed, why is told first; want of memory isn't told under the name.
pub fn reasoned<T>(err: Stderr, name: &str, came: io::Result<T>) -> io::Result<T>
    ensures { result ≡ came }
{
    if let Err(error) = &came {
        if error.kind() != ErrorKind::OutOfMemory {
            // What can't be told is lost.
            let _ = err.eprintln(format_args!("{name}: {error}"));
        }
    }
    came
}

/// Binds an address as [`server_accept::bind`] does. Where it can't be bound, why is told first.
pub fn bind<R: Net>(rt: &R, addr: &str, err: Stderr) -> io::Result<Bound> {
    reasoned(err, addr, server_accept::bind(rt, addr))
}
