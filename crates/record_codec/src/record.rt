//! What a record carries.

use key_state::{Key, KeyState};

/// The state of a key, with whose it is and when it was read.
#[derive(Drop)]
pub struct Record {
    /// The key.
    pub key: Key,
    /// The identifier of the vnode whose state it is.
    pub from: u32,
    /// The place of that vnode's journal at which the state was read.
    pub at: u64,
    /// The siblings and the clock.
    pub state: KeyState,
}
