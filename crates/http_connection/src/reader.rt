//! Readers and writers of std's, whose calls contracts see. Only tests reach them: the sockets of a server are those of a ring.

ghost use Rattle.std.specs.Prelude.{◌≡◌, ℕ, List, Option};
ghost use Rattle.std.specs.Io.{ReadsAtMost, WritesAtMost};
ghost use Rattle.std.specs.Io.KnownBytes.{ReadConsumes, WriteAppends};
ghost use Rattle.http_connection.specs.Streams.{Back};

use std::io;
use std::io::{Read, Write};

/// A reader whose calls contracts see: each reader of std's is one.
pub trait Reader {
    /// The bytes that reads will give from here on, where they are known.
    ghost remaining: { Self → Option (List ℕ) };

    /// From one state, a call may come back so and leave the other.
    ghost comes_back: { Self → Back → Self → Type 0 };

    /// Reads some bytes to the front of `buf`, and answers how many.
    fn read_some(&mut self, buf: &mut [u8]) -> io::Result<usize>
        ensures bound { ReadsAtMost result buf.new }
        ensures bytes { ReadConsumes (remaining self.old) (remaining self.new) result buf.new }
        ensures back { comes_back self.old result self.new };
}

impl<R: Read> Reader for R {
    ghost remaining = { λ r. R.remaining r };

    ghost comes_back = { λ _ _ _. Unit {0} };

    fn read_some(&mut self, buf: &mut [u8]) -> io::Result<usize> {
        self.read(buf)
    }
}

/// A writer whose calls contracts see: each writer of std's is one.
pub trait Writer {
    /// The bytes that were written, where they are known.
    ghost contents: { Self → Option (List ℕ) };

    /// From one state, a call may come back so and leave the other.
    ghost comes_back: { Self → Back → Self → Type 0 };

    /// Writes some bytes of the front of `bytes`, and answers how many.
    fn write_some(&mut self, bytes: &[u8]) -> io::Result<usize>
        ensures bound { WritesAtMost result bytes.now }
        ensures bytes { WriteAppends (contents self.old) (contents self.new) result bytes.now }
        ensures back { comes_back self.old result self.new };
}

impl<W: Write> Writer for W {
    ghost contents = { λ w. W.contents w };

    ghost comes_back = { λ _ _ _. Unit {0} };

    fn write_some(&mut self, bytes: &[u8]) -> io::Result<usize> {
        self.write(bytes)
    }
}
