//! The limits of connections: what is read and written at once, and what is kept of buffers.

/// The most bytes of a connection that wait to be looked at: the longest request has less.
pub(crate) const MAX_UNREAD_BYTES: usize = 524_288;

/// So many bytes are read at once, at most: those of the largest body.
pub const READ_PIECE_BYTES: usize = 65_536;

/// With so many bytes the answers wait no longer for others: they are worth a write of their own.
pub const FLUSH_BYTES: usize = 65_536;

/// Room for a usual answer, made at once, so that its parts need no growths.
pub(crate) const USUAL_ANSWER_BYTES: usize = 512;

/// The most room for made-up bodies that is kept from one answer to the next: a greater one is given back to the system.
pub(crate) const KEPT_TEXT_BYTES: usize = 65_536;

/// The most room of a buffer that goes from connection to connection: a larger one is given back to the system.
pub(crate) const KEPT_BUFFER_BYTES: usize = 65_536;

/// After so many looks the media types are made anew, so threads that count owners of the same bytes seldom wait for one another.
pub(crate) const LOOKS_PER_RENEWAL: u32 = 64;

/// So many rounds a connection has before others have their turn: enough for a request or a few, and at most some tenth of a millisecond.
pub const ROUNDS_PER_TURN: u32 = 8;
