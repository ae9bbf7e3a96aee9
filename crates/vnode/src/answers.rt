//! What a put and a merge answer.

use dvv::Dot;
use key_state::Shared;

/// What a put did.
#[derive(Drop)]
pub struct PutAnswer {
    /// The dot of what was put.
    pub dot: Dot,
    /// The place of its entry in the journal.
    pub place: u64,
    /// The state that was at its key before.
    pub was: Shared,
}

/// What a merge did.
#[derive(Drop)]
pub struct MergeAnswer {
    /// Whether siblings or clock of the key changed.
    pub changed: bool,
    /// The place of its entry in the journal.
    pub place: u64,
    /// The state that was at the key before.
    pub was: Shared,
}
