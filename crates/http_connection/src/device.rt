//! Readers and writers that count their failed calls.

ghost use Rattle.std.specs.Prelude.{◌≡◌, ℕ, ◌<◌, ◌≤◌, List, length, Option, IfOk, OnOk, OnErr, []};
ghost use Rattle.std.specs.Io.{ReadsAtMost, WritesAtMost};
ghost use Rattle.std.specs.Io.KnownBytes.{ReadConsumes, WriteAppends};
ghost use Rattle.http_connection.specs.Device.{Rises, Sends};

/// A read or a write failed.
#[derive(Clone, Copy, PartialEq, Eq)]
pub struct Failed;

/// A reader that counts its failed calls. The count stays at its greatest.
pub trait Source {
    /// The bytes that reads will give from here on, where they are known.
    ghost remaining: { Self → Option (List ℕ) };

    /// How many reads have failed.
    ghost failures: { Self → ℕ };

    /// How many more reads can give bytes, before one fails or the source ends. No read makes them more.
    ghost reads_left: { Self → ℕ };

    /// From one state, a read may fail and leave the other.
    ghost fails: { Self → Self → Type 0 };

    /// Reads some bytes to the front of `buf`, and answers how many. None come only at the end.
    fn read(&mut self, buf: &mut [u8]) -> Result<usize, Failed>
        requires { 0 < length buf.old }
        ensures bound { ReadsAtMost result buf.new }
        ensures bytes { ReadConsumes (remaining self.old) (remaining self.new) result buf.new }
        ensures counted { OnOk result (failures self.new ≡ failures self.old) }
        ensures failed { OnErr result (Rises (failures self.old) (failures self.new)) }
        ensures fails { OnErr result (fails self.old self.new) }
        ensures left { OnOk result (reads_left self.new ≤ reads_left self.old) }
        ensures ends { IfOk result (λ n. 0 < n → reads_left self.new < reads_left self.old) };
}

/// A writer that counts its failed calls. The count stays at its greatest.
pub trait Sink {
    /// The bytes that were written, where they are known.
    ghost contents: { Self → Option (List ℕ) };

    /// How many writes have failed.
    ghost failures: { Self → ℕ };

    /// From one state, a write may fail and leave the other.
    ghost fails: { Self → Self → Type 0 };

    /// Writes some bytes of the front of `bytes`, one at least, and answers how many.
    fn write(&mut self, bytes: &[u8]) -> Result<usize, Failed>
        requires { 0 < length bytes.now }
        ensures bound { WritesAtMost result bytes.now }
        ensures some { IfOk result (λ n. 0 < n) }
        ensures bytes { WriteAppends (contents self.old) (contents self.new) result bytes.now }
        ensures counted { OnOk result (failures self.new ≡ failures self.old) }
        ensures failed { OnErr result (Rises (failures self.old) (failures self.new)) }
        ensures fails { OnErr result (fails self.old self.new) };
}

/// Writes all the bytes; where a write fails, a front of them was written.
pub(crate) fn send<W: Sink>(sink: &mut W, bytes: &[u8]) -> Result<(), Failed>
    ensures ok { OnOk result (Sends (W.contents sink.old) (W.contents sink.new) bytes.now []) }
    ensures err { OnErr result ((left : List ℕ) × Sends (W.contents sink.old) (W.contents sink.new) bytes.now left) }
    ensures counted { OnOk result (W.failures sink.new ≡ W.failures sink.old) }
    ensures failed { OnErr result (Rises (W.failures sink.old) (W.failures sink.new)) }
    ensures fails { OnErr result ((mid : W) × W.fails mid sink.new) }
{
    let mut rest = bytes;
    while !rest.is_empty() {
        let n = sink.write(rest)?;
        rest = &rest[n..];
    }
    Ok(())
}
