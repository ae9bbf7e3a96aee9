//! Limits of what is folded, and its identifiers.

/// The most entries of former starts in the clock of a key that stays as it is.
pub const MAX_FORMER_ENTRIES: usize = 32;

/// The index of the identifiers under which starts write contents anew: no vnode of a store has it, and contexts spell it.
pub const FOLD_INDEX: u32 = 254;
