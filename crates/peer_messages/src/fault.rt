//! Why bytes are no message.

ghost use Rattle.std.specs.Prelude.{◌≡◌};
ghost use Rattle.peer_messages.specs.Faults.{unread_of};

use record_codec::WireFault;
use thiserror::Error;

/// Why a message isn't read.
#[derive(Clone, Copy, Debug, PartialEq, Eq, Drop, Error)]
pub enum Unread {
    /// The bytes are no message's spelling.
    #[error("no message of a server")]
    Malformed,
    /// Memory ran out.
    #[error("out of memory")]
    NoMemory,
}

impl Unread {
    /// What a fault of a record's fields is here.
    pub(crate) fn of(fault: WireFault) -> Unread
        ensures { result ≡ unread_of fault }
    {
        match fault {
            WireFault::NoMemory => Unread::NoMemory,
            _ => Unread::Malformed,
        }
    }
}
