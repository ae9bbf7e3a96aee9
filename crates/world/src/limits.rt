//! Limits of a world.

use dvv::VNODES_PER_INCARNATION;

/// The most vnodes: the index of a vnode has 16 bits of its identifier.
pub const MAX_VNODES: usize = VNODES_PER_INCARNATION as usize;

/// The most entries made before a dump or a load. No memory holds so many, and as many stamps are left as a list has events.
pub(crate) const MAX_ENTRIES_MADE: u64 = 1 << 62;
