//! Why a file lists no servers.

use std::alloc::{AllocError, AllocFailed};
use std::fmt;

/// What is wrong with a line. It shows the reason in a few words.
#[derive(Clone, Copy)]
pub enum Wrong {
    /// It isn't the line that has to stand first: `vnodes` and a number of 1 to 16.
    NoVnodes,
    /// It is none of the lines that may stand behind the first: `server`, or behind one of these `here`.
    NoServer,
    /// A server's number isn't above the one before it, or past 59.
    NotRising,
    /// The server's vnodes would have indexes past 253 on the ring.
    TooManyVnodes,
    /// An address isn't 3 to 255 visible characters of ASCII, a colon among them.
    NoAddress,
    /// No line `server` has the number that is said to be here.
    NotHere,
    /// It isn't the line that has to stand last: `secret` and 64 hexadecimal digits.
    NoSecret,
    /// Something stands behind the secret.
    Behind,
    /// It is spelled otherwise: numbers have no leading zeros, words are parted by one space, digits are lowercase, and each line has an end.
    Spelling,
}

impl fmt::Display for Wrong {
    fn fmt<W: fmt::Write>(&self, f: &mut fmt::Formatter<W>) -> fmt::Result {
        f.write_str(match self {
            Wrong::NoVnodes => "vnodes and a number of 1 to 16 come first",
            Wrong::NoServer => "server, its number and its address are wanted, and then here",
            Wrong::NotRising => "numbers of servers rise, up to 59",
            Wrong::TooManyVnodes => "a ring has at most 254 vnodes",
            Wrong::NoAddress => "no address of a host, a colon and a port",
            Wrong::NotHere => "no server has this number",
            Wrong::NoSecret => "secret and 64 hexadecimal digits come last",
            Wrong::Behind => "nothing stands behind the secret",
            Wrong::Spelling => "not as it has to be spelled",
        })
    }
}

/// Why a file lists no servers. It shows the number of the line, and the reason.
#[derive(Clone, Copy)]
pub enum MembersFault {
    /// The first line that is wrong, counted from 1; past the last one where a line is lacking.
    Line { line: usize, wrong: Wrong },
    /// Memory ran out.
    NoMemory,
}

impl fmt::Display for MembersFault {
    fn fmt<W: fmt::Write>(&self, f: &mut fmt::Formatter<W>) -> fmt::Result {
        match self {
            MembersFault::Line { line, wrong } => write!(f, "line {line}: {wrong}"),
            MembersFault::NoMemory => f.write_str("out of memory"),
        }
    }
}

impl From<AllocError> for MembersFault {
    fn from(_error: AllocError) -> MembersFault {
        MembersFault::NoMemory
    }
}

impl<T: Drop> From<AllocFailed<T>> for MembersFault {
    fn from(_error: AllocFailed<T>) -> MembersFault {
        MembersFault::NoMemory
    }
}
