//! The limits of sockets, of those who accept connections among them: how long, how much and how often.

// ---- clients

/// For so long a connection may be idle between two requests, in milliseconds: ten minutes.
pub(crate) const IDLE_LIMIT_MS: u64 = 600_000;

/// For so long a request may be coming, and a client may take nothing of its answers, in milliseconds: a minute.
pub(crate) const STALL_LIMIT_MS: u64 = 60_000;

/// Once a worker is told to stop each of its connections has so long in all, in milliseconds, however its client takes its answers: ten
/// seconds, less what a limit may be late by.
pub(crate) const STOP_LIMIT_MS: u64 = 8_000;

/// Once a worker has been full of answers for so long, in milliseconds, it closes connections that hold most of them. Meanwhile others wait.
pub(crate) const FULL_LIMIT_MS: u64 = 100;

/// Clients that are too slow are looked for so often, in milliseconds: their limits are late by no more.
pub(crate) const SWEEP_MS: u64 = 1_000;

/// For so long what a client still sends after its last answer is dropped, in milliseconds, so that it can read that answer.
pub(crate) const LINGER_MS: u64 = 250;

/// At most so many bytes are dropped then.
pub(crate) const DROPPED_BYTES: usize = 262_144;

/// So many bytes are dropped at a time.
pub(crate) const DROPPED_PIECE_BYTES: usize = 16_384;

/// So many reads that drop bytes are made at once: others wait for them.
pub(crate) const DROPPING_READS: u32 = 64;

// ---- a worker's turn

/// At most so many connections are reported for one turn.
pub(crate) const REPORTED_PER_TURN: usize = 256;

/// At most so many connections are seated in one turn.
pub(crate) const SEATED_PER_TURN: u32 = 256;

/// Connections that are called again are attended at most so many times in one turn.
pub(crate) const CALLED_PER_TURN: u32 = 64;

/// They are until so many bytes were read and written.
pub(crate) const CALLED_BYTES_PER_TURN: usize = 1_048_576;

/// One of which so many bytes were read and written when it was attended takes its turn behind others, when it is reported next.
pub(crate) const BUSY_BYTES: usize = 65_536;

/// A worker rests so long after its wait failed, in milliseconds.
pub(crate) const WAIT_FAILED_REST_MS: u64 = 10;

/// A worker looks at most so many times for something to do before it sleeps: for one or two tenths of a millisecond. A client that reads
/// many answers at once sends its next requests about so much later, and where processors are virtual a thread that sleeps is often woken
/// no sooner.
pub(crate) const MAX_LOOKS: u32 = 256;

/// Where looking found nothing, it is tried again before each so many-th sleep.
pub(crate) const SLEEPS_PER_LOOK: u32 = 64;

// ---- the thread that accepts

/// At most so many connections are taken in one turn.
pub const ACCEPTED_PER_TURN: u32 = 256;

/// Who accepts rests at the most so long after no connection could be taken, in milliseconds.
pub const ACCEPT_REST_MS: u64 = 1_000;

/// So long at least is between two times that it tells that none can be taken, in milliseconds.
pub const ACCEPT_REPORT_MS: u64 = 1_000;

/// It waits so long before it offers a connection again that no worker took, in milliseconds.
pub const OFFER_AGAIN_MS: u64 = 2;

/// For so long after a connection came no idle one is let go, in milliseconds: it may be that one, not read yet.
pub const SHED_GRACE_MS: u64 = 100;

/// So many bytes of standard input are read at a time: some lines.
pub const CONSOLE_PIECE_BYTES: usize = 256;
