//! A source and a sink over any reader and writer of std's. Only tests reach them: the sockets of a server are those of a ring.

ghost use Rattle.std.specs.Prelude.{◌≡◌, ◌<◌, ◌⊎◌, ℕ, List, length, Option};
ghost use Rattle.http_connection.specs.Device.{Rises};
ghost use Rattle.http_connection.specs.Streams.{EndsInFailure, EndsInNothing};

use crate::device::{Failed, Sink, Source};
use crate::reader::{Reader, Writer};
use std::io::ErrorKind;

/// A reader. A read that was interrupted is tried again. It gives up after `2^64 - 1` reads, which counts as a failed one.
#[derive(Drop)]
pub struct ReadSource<R: Reader> {
    reader: R,
    failures: u64,
    reads_left: u64,
}

impl<R: Reader> ReadSource<R> {
    /// A reader of which no read failed yet.
    pub fn new(reader: R) -> Self {
        ReadSource {
            reader,
            failures: 0,
            reads_left: u64::MAX,
        }
    }

    // One read more has failed.
    fn fail(&mut self) -> Failed
        ensures counted { Rises self.old.failures self.new.failures }
        ensures reader { self.new.reader ≡ self.old.reader }
        ensures left { self.new.reads_left ≡ self.old.reads_left }
    {
        self.failures = self.failures.saturating_add(1);
        Failed
    }
}

impl<R: Reader> Source for ReadSource<R> {
    ghost remaining = { λ s. R.remaining s.reader };

    ghost failures = { λ s. s.failures };

    ghost reads_left = { λ s. s.reads_left };

    // the reader's own call failed, or there were as many as there may be
    ghost fails = { λ _ new. EndsInFailure R.comes_back new.reader ⊎ (new.reads_left ≡ 0) };

    fn read(&mut self, buf: &mut [u8]) -> Result<usize, Failed> {
        'tries: while self.reads_left > 0 {
            self.reads_left -= 1;
            match self.reader.read_some(buf) {
                Ok(n) => return Ok(n),
                Err(error) if error.kind() == ErrorKind::Interrupted => {}
                Err(_) => return Err(self.fail()),
            }
        }
        Err(self.fail())
    }
}

/// A writer. A write that was interrupted is tried again; one that takes nothing counts as a failed one, and so does one after
/// `2^64 - 1` writes.
#[derive(Drop)]
pub struct WriteSink<W: Writer> {
    writer: W,
    failures: u64,
    writes_left: u64,
}

impl<W: Writer> WriteSink<W> {
    /// A writer of which no write failed yet.
    pub fn new(writer: W) -> Self {
        WriteSink {
            writer,
            failures: 0,
            writes_left: u64::MAX,
        }
    }

    // One write more has failed.
    fn fail(&mut self) -> Failed
        ensures counted { Rises self.old.failures self.new.failures }
        ensures writer { self.new.writer ≡ self.old.writer }
        ensures left { self.new.writes_left ≡ self.old.writes_left }
    {
        self.failures = self.failures.saturating_add(1);
        Failed
    }
}

impl<W: Writer> Sink for WriteSink<W> {
    ghost contents = { λ s. W.contents s.writer };

    ghost failures = { λ s. s.failures };

    // the writer's own call failed or took nothing, or there were as many as there may be
    ghost fails = { λ _ new. EndsInFailure W.comes_back new.writer ⊎ (EndsInNothing W.comes_back new.writer ⊎ (new.writes_left ≡ 0)) };

    fn write(&mut self, bytes: &[u8]) -> Result<usize, Failed> {
        'tries: while self.writes_left > 0 {
            self.writes_left -= 1;
            match self.writer.write_some(bytes) {
                Ok(0) => return Err(self.fail()),
                Ok(n) => return Ok(n),
                Err(refused) if refused.kind() == ErrorKind::Interrupted => {}
                Err(_) => return Err(self.fail()),
            }
        }
        Err(self.fail())
    }
}
