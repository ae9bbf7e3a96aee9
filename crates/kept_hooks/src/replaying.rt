//! Requests that are served to the store which begins from them.

ghost use Rattle.std.specs.Prelude.{◌≡◌, ◌++◌, ℕ, List, [], Some, IfOk, OnOk};
ghost use Rattle.http_connection.specs.Dialogue.{Completes};
ghost use Rattle.kept_hooks.specs.Replays.{no_contents};

use http_connection::{Backend, Front, FrontFault, MemorySink, MemorySource};
use std::alloc::{AllocError, Global};
use thiserror::Error;

/// The answer to a request that was done and has nothing to tell.
const NO_CONTENT: &[u8] =
    b"HTTP/1.1 204 No Content\r\nX-Content-Type-Options: nosniff\r\nServer: dvvstore\r\n\r\n";

/// Why a store doesn't begin from requests.
#[derive(Clone, Copy, Debug, PartialEq, Eq, Error)]
pub enum ReplayFault {
    /// The request at this place, counted from 0, was answered otherwise than by 204, or isn't whole.
    #[error("refused {0}")]
    Refused(u64),
    /// Memory ran out.
    #[error("E1")]
    NoMemory,
}

impl From<AllocError> for ReplayFault {
    fn from(_: AllocError) -> ReplayFault {
        ReplayFault::NoMemory
    }
}

impl From<FrontFault> for ReplayFault {
    fn from(_: FrontFault) -> ReplayFault {
        ReplayFault::NoMemory
    }
}

/// Has a store answer requests, all of which are at hand, as it answers those of a connection, and sees that each is answered by 204.
/// Answers how many there were.
pub(crate) fn replay<B: Backend>(
    alloc: Global,
    requests: &[u8],
    store: &mut B,
) -> Result<u64, ReplayFault>
    ensures done { IfOk result (λ count. Completes B.gives (B.copies store.old) requests.now store.old store.new [] (Some (no_contents count)) count) }
{
    let mut front = Front::new(alloc)?;
    let mut source = MemorySource::new(requests);
    let mut sink = MemorySink::new(alloc);
    let count = front.serve(&mut source, &mut sink, store)?;
    see_done(&sink.bytes, count)?;
    Ok(count)
}

/// Sees that these bytes are the answers to so many requests that were done.
fn see_done(answers: &[u8], count: u64) -> Result<(), ReplayFault>
    ensures { OnOk result (answers.now ≡ no_contents count) }
{
    let mut left = answers;
    for place in 0..count {
        match left.strip_prefix(NO_CONTENT) {
            Some(rest) => left = rest,
            None => return Err(ReplayFault::Refused(place)),
        }
    }
    if left.is_empty() {
        Ok(())
    } else {
        Err(ReplayFault::Refused(count))
    }
}
