//! An address that is bound.

ghost use Rattle.std.specs.Prelude.{◌≡◌, ◌++◌, ◌∷◌, [], ℕ, List, OnOk, codes};
ghost use Rattle.std.specs.Io.KnownBytes.{Appends};

use mio::net::TcpListener;
use std::io;
use std::io::{ErrorKind, Write};
use std::net::{Net, SocketAddr, ToSocketAddrs as _};

/// An address that is bound. So many connections wait there to be taken as the system lets.
#[derive(Drop)]
pub struct Bound {
    /// Where they are taken.
    pub listener: TcpListener,
    /// The address, with the port that the system chose where any would do.
    pub addr: SocketAddr,
}

/// Binds the first address of a name that can be bound. The error: the name has none, or the last of them can't be bound.
pub fn bind<R: Net>(rt: &R, name: &str) -> io::Result<Bound> {
    let mut last = io::Error::from(ErrorKind::AddrNotAvailable);
    for addr in name.to_socket_addrs(rt)? {
        match TcpListener::bind(rt, addr) {
            Ok(listener) => {
                let addr = listener.local_addr()?;
                return Ok(Bound { listener, addr });
            }
            Err(error) => last = error,
        }
    }
    Err(last)
}

/// Tells on `out` at which address a server listens. The error: `out` can't be written.
pub fn tell_listening<O: Write>(addr: SocketAddr, out: &mut O) -> io::Result<()>
    ensures { OnOk result ((bound : List ℕ) × Appends (O.contents out.old) (O.contents out.new) (codes "listening " ++ bound ++ 10 ∷ [])) }
{
    writeln!(out, "listening {addr}")?;
    out.flush()
}
