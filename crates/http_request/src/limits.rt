//! The limits of requests.

/// The most bytes of a head, the empty line at its end among them.
pub const MAX_HEAD_BYTES: usize = 32_768;

/// The most field lines of a head.
pub const MAX_LINES: usize = 64;

/// The most bytes of a body, which may have none.
pub const MAX_BODY_BYTES: usize = 65_536;

/// The most bytes of a body in chunks, with the lines and the ends of these and with the trailer section: a chunk of one byte takes six, so a
/// longest body may come in such chunks.
pub const MAX_CODED_BYTES: usize = 458_752;

/// The most copies that a store has of a key. It has one at least.
pub const MAX_COPIES: u32 = 3;

/// The most bytes of a hook's name. It has one at least.
pub const MAX_HOOK_NAME_BYTES: usize = 64;
