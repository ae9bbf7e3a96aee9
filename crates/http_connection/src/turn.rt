//! What the front comes to with one request, and with one turn.

ghost use Rattle.std.specs.Prelude.{◌≡◌};

use http_request::MAX_HEAD_BYTES;

/// What has to come before the bytes that wait are worth a look.
#[derive(Clone, Copy)]
pub enum Wanted {
    /// A line feed, or more bytes than a head has.
    Line,
    /// So many bytes with those that wait.
    Bytes(usize),
}

impl Wanted {
    ghost use Rattle.http_connection.specs.Pending.{has_come};

    /// Whether it came with these bytes, the last of so many that wait.
    pub(crate) fn came(self, bytes: &[u8], waiting: usize) -> bool
        ensures { result ≡ has_come self bytes.now waiting }
    {
        match self {
            Wanted::Line => waiting > MAX_HEAD_BYTES || bytes.contains(&b'\n'),
            Wanted::Bytes(needs) => waiting >= needs,
        }
    }
}

/// What the bytes that wait came to.
#[derive(Clone, Copy)]
pub enum Step {
    /// No whole request waits, and none does until this comes.
    Waits(Wanted),
    /// A request was answered, and others may follow.
    Answered,
    /// A request was answered, and the connection ends.
    Last,
}

/// What one turn came to.
#[derive(Clone, Copy)]
pub(crate) enum Turn {
    /// More bytes were read.
    Read,
    /// A request was answered, and others may follow.
    Answered,
    /// A request was answered, and the connection ends.
    Last,
    /// The input ended.
    Over,
}
