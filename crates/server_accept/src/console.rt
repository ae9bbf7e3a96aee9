//! What is said on standard input.

ghost use Rattle.std.specs.Prelude.{◌≡◌, ◌≤◌, ◌<◌, ◌+◌, ◌-◌, ◌^◌, min, take, Some, None};
ghost use Rattle.std.specs.Option.{option_copied};
ghost use Rattle.server_accept.specs.Lines.{said_with};

use mio::unix::SourceFd;
use mio::{Interest, Registry, Token};
use server_sockets::limits::CONSOLE_PIECE_BYTES;
use std::io::{ErrorKind, Read as _, Stdin};
use std::os::fd::AsRawFd as _;

/// The line that stops a server.
const STOP: &[u8] = b"stop";

/// The line that asks for a snapshot.
const SNAPSHOT: &[u8] = b"snapshot";

/// No line that says something is longer.
const MAX_LINE_BYTES: usize = SNAPSHOT.len();

/// What lines said: how many were `stop`, `snapshot`, and something else.
#[derive(Clone, Copy, Debug, PartialEq, Eq)]
pub struct Said {
    /// Those that were `stop`.
    pub stops: u32,
    /// Those that were `snapshot`.
    pub snapshots: u32,
    /// The others.
    pub others: u32,
}

impl Said {
    /// Nothing.
    fn nothing() -> Said
        ensures { result ≡ record { stops = 0; snapshots = 0; others = 0 } }
    {
        Said {
            stops: 0,
            snapshots: 0,
            others: 0,
        }
    }

    // Counts a line. Of one that is too long there is no text.
    fn count(&mut self, text: Option<&[u8]>)
        ensures { self.new ≡ said_with self.old (option_copied text.entry) }
    {
        match text {
            Some(text) if text == STOP => self.stops = self.stops.saturating_add(1),
            Some(text) if text == SNAPSHOT => self.snapshots = self.snapshots.saturating_add(1),
            _ => self.others = self.others.saturating_add(1),
        }
    }
}

/// A line as far as it came.
#[derive(Clone, Copy, Debug)]
struct Line {
    /// Its first bytes.
    front: [u8; MAX_LINE_BYTES],
    /// How many bytes it has.
    len: usize,
}

impl Line {
    /// An empty one.
    fn new() -> Line
        ensures { result.len ≡ 0 }
    {
        Line {
            front: [0; MAX_LINE_BYTES],
            len: 0,
        }
    }

    // Adds a byte.
    fn add(&mut self, byte: u8)
        ensures len { self.new.len ≡ min (self.old.len + 1) (2 ^ 64 - 1) }
    {
        if let Some(place) = self.front.get_mut(self.len) {
            *place = byte;
        }
        self.len = self.len.saturating_add(1);
    }

    /// Its bytes, unless it is too long to say something.
    fn text(&self) -> Option<&[u8]>
        ensures short { self.now.len ≤ 8 → option_copied result ≡ Some (take self.now.len self.now.front) }
        ensures long { 8 < self.now.len → option_copied result ≡ None }
    {
        self.front.get(..self.len)
    }
}

/// Standard input, of which lines are read. A file, which nobody can wait for, is not read; nor is anything after its end, which stops
/// nothing.
#[derive(Drop)]
pub(crate) struct Console {
    input: Stdin,
    line: Line,
}

impl Console {
    pub(crate) fn new(input: Stdin) -> Console {
        Console {
            input,
            line: Line::new(),
        }
    }

    /// Has it reported under a token, if it can be.
    pub(crate) fn register(&self, registry: &Registry, token: Token) {
        let fd = self.input.as_raw_fd();
        let _ = registry.register(&mut SourceFd(&fd), token, Interest::READABLE);
    }

    /// Reads once what came, and is reported again where there is more. What the lines said that ended.
    pub(crate) fn hear(&mut self, registry: &Registry, token: Token) -> Said {
        let mut bytes = [0u8; CONSOLE_PIECE_BYTES];
        let fd = self.input.as_raw_fd();
        let mut source = SourceFd(&fd);
        let read = match self.input.read(&mut bytes) {
            Err(error) if is_for_now(error.kind()) => Some(0),
            Ok(0) | Err(_) => None,
            Ok(n) => Some(n),
        };
        let kept = match read {
            Some(_) => registry.reregister(&mut source, token, Interest::READABLE),
            None => registry.deregister(&mut source),
        };
        // What is not reported is not read.
        let _ = kept;
        self.take(bytes.get(..read.unwrap_or(0)).unwrap_or(&[]))
    }

    // Goes on by these bytes.
    fn take(&mut self, bytes: &[u8]) -> Said {
        let mut said = Said::nothing();
        for &byte in bytes {
            if byte == b'\n' {
                said.count(self.line.text());
                self.line = Line::new();
            } else {
                self.line.add(byte);
            }
        }
        said
    }
}

/// Whether a read that failed so is to be made again.
fn is_for_now(kind: ErrorKind) -> bool {
    matches!(kind, ErrorKind::WouldBlock | ErrorKind::Interrupted)
}
