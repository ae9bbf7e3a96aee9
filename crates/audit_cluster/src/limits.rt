//! How much a watch keeps, lets wait, and takes in a turn.

use audit_follower::Recent;

/// Of which of the last entries of each vnode the answers are kept: a merge may name any of these.
pub const RECENT: Recent = Recent {
    always: 256,
    entries: 16_384,
    bytes: 33_554_432,
};

/// So many entries may wait behind a vnode at which nothing happens.
pub(crate) const MOST_BEHIND_ENTRIES: usize = 8_192;

/// So many bytes of contents may.
pub(crate) const MOST_BEHIND_BYTES: u64 = 33_554_432;

/// So many blocks of keys of a vnode are shared in a turn: more than are filled between two turns, and so few that none takes long.
pub(crate) const SHARED_AT_ONCE_BLOCKS: usize = 4;
