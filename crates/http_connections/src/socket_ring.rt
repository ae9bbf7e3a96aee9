//! The sockets of one worker.

ghost use Rattle.std.specs.Prelude.{◌≡◌, ◌<◌, ◌≤◌, ℕ, length, Option, Result, IfOk};
ghost use Rattle.http_connection.specs.declared.device.Failed.{Failed as Failure};
ghost use Rattle.http_connections.specs.Sockets.{Sockets, Accepts, Changes, after_read, after_write, after_call, after_close};
ghost use Rattle.http_connections.specs.Spoken.{FitsHeard, FitsTold};

use http_connection::{Failed, FrontFault};

/// What a read came to.
#[derive(Clone, Copy, Debug, PartialEq, Eq)]
pub enum Heard {
    /// So many bytes, one at least.
    Bytes(usize),
    /// The client sends nothing more.
    End,
    /// Nothing is there now.
    NotNow,
}

/// What a write came to.
#[derive(Clone, Copy, Debug, PartialEq, Eq)]
pub enum Told {
    /// So many bytes were taken, one at least.
    Bytes(usize),
    /// Nothing is taken now.
    NotNow,
}

/// How a connection ends.
#[derive(Clone, Copy, Debug, PartialEq, Eq)]
pub enum Closing {
    /// All that was asked is answered, and every answer written.
    InOrder,
    /// It broke off.
    Broken(FrontFault),
    /// It was given up, as one whose client is too slow.
    GivenUp,
}

/// The sockets of one worker. Connections are known by numbers that are never used again. No call waits: "not now" is an answer.
pub trait Ring {
    /// The sockets came to this: what their reads gave and their writes took so far.
    ghost shows: { Self → Sockets → Type 0 };

    /// An accept answers so, from one state of the ring to another.
    ghost accepts: { Self → Result (Option ℕ) Failure → Self → Type 0 };

    /// Takes the next connection, if one waits. It will be reported.
    fn accept(&mut self) -> Result<Option<u64>, Failed>
        ensures answers { accepts self.old result self.new }
        ensures came { (old : Sockets) → shows self.old old → (new : Sockets) × shows self.new new × Accepts result old new };

    /// Reads some bytes of a connection to the front of `buf`.
    fn read(&mut self, number: u64, buf: &mut [u8]) -> Result<Heard, Failed>
        requires { 0 < length buf.old }
        ensures fits { IfOk result (FitsHeard (length buf.new)) }
        ensures changes { (old : Sockets) → shows self.old old
            → (new : Sockets) × shows self.new new × Changes number (after_read result buf.new) old new };

    /// Writes some bytes of the front of `bytes` to a connection.
    fn write(&mut self, number: u64, bytes: &[u8]) -> Result<Told, Failed>
        requires { 0 < length bytes.now }
        ensures fits { IfOk result (FitsTold (length bytes.now)) }
        ensures changes { (old : Sockets) → shows self.old old
            → (new : Sockets) × shows self.new new × Changes number (after_write result bytes.now) old new };

    /// Asks that a connection is reported once more, though it was left before it had nothing to give or take.
    fn call_again(&mut self, number: u64) -> Result<(), Failed>
        ensures { (old : Sockets) → shows self.old old
            → (new : Sockets) × shows self.new new × Changes number (after_call result) old new };

    /// Closes a connection: in order, so that its client can read all that was written, or at once.
    fn close(&mut self, number: u64, closing: Closing)
        ensures { (old : Sockets) → shows self.old old
            → (new : Sockets) × shows self.new new × Changes number (after_close closing) old new };
}
