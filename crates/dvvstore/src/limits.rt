//! The limits of the server: how much may wait, how often is looked, and how long is rested.

/// Who may do what with a folder that is made, and with its files, as Unix has it: their owner all, and nobody else anything.
pub(crate) const FOLDER_MODE: u32 = 0o700;

pub(crate) const FILE_MODE: u32 = 0o600;

/// The most vnodes that a store has: as many as a folder has files of records.
pub(crate) const MAX_VNODES: u32 = 16;

/// So many vnodes there are for each worker, where nothing else says how many: so workers seldom wait for one.
pub(crate) const VNODES_PER_WORKER: u32 = 2;

/// How many numbers of starts there are. Where nothing is kept there is one for each second, and then again from the first: for 194 days.
pub(crate) const START_NUMBERS: u64 = 16_777_216;

/// The second, since 1970, from which on the minutes are counted below whose number no start of a store that is kept is numbered: the first
/// one of 2026.
pub(crate) const COUNTED_FROM_S: u64 = 1_767_225_600;

/// How many seconds a minute has.
pub(crate) const MINUTE_S: u64 = 60;

/// How many milliseconds a second has.
pub(crate) const SECOND_MS: u64 = 1_000;

// ---- following

/// So many stamps are followed in one turn, in some two tenths of a millisecond. Connections that come meanwhile wait, and so may a thread
/// that shares the processor.
pub(crate) const FOLLOWED_PIECE_STAMPS: u64 = 256;

/// Workers rest where so many entries wait to be followed, or more, or the contents of as many.
pub(crate) const PAUSE_ENTRIES: usize = 100_000;

/// They rest until fewer than so many do: for some ten milliseconds at a time, so that no client waits longer than that for its turn.
pub(crate) const RESUME_ENTRIES: usize = 98_000;

/// Snapshots wait where so many entries wait to be followed: well before workers have to.
pub(crate) const SNAPSHOTS_PAUSE_ENTRIES: usize = 20_000;

/// For each entry that may wait, so many bytes of contents may: 64 MiB for 100,000.
pub(crate) const CONTENT_BYTES_PER_ENTRY: u64 = 671;

/// Where fewer entries wait to be followed, who follows leaves the processor to others between its turns.
pub(crate) const FEW_ENTRIES: usize = 4_096;

/// How long who follows waits for a connection before its next turn where nothing is to be followed, in milliseconds.
pub(crate) const FOLLOW_TICK_MS: u64 = 20;

/// How long it does where little is, in milliseconds.
pub(crate) const FOLLOW_BREATH_MS: u64 = 1;

// ---- workers

/// The name of a bucket has no more bytes than this.
pub(crate) const MAX_NAME_BYTES: usize = 65_535;

/// How long a worker waits at the most for something to do, in milliseconds.
pub(crate) const WORKER_WAIT_MS: u64 = 500;

/// How long it does where it also accepts and follows, or reads nothing, in milliseconds.
pub(crate) const WORKER_NAP_MS: u64 = 5;

// ---- a beginning

/// Behind so many records who takes them over looks whether it is to wait: as many as a block of a vnode's journal has entries.
pub(crate) const LOAD_LOOK_RECORDS: usize = 1_024;

/// So many entries may wait to be followed before it is: some 64 MB, and half a second's work of who follows. With fewer a start would take
/// as long as that work does.
pub(crate) const LOAD_AHEAD_ENTRIES: usize = 524_288;

/// How long it waits then, in milliseconds.
pub(crate) const LOAD_REST_MS: u64 = 2;

/// So many stamps of a beginning are followed in one turn: no client waits yet.
pub(crate) const LOAD_PIECE_STAMPS: u64 = 4_096;

/// How long who follows a beginning waits where there is nothing to follow, in milliseconds.
pub(crate) const LOAD_NAP_MS: u64 = 1;

// ---- snapshots

/// How long is waited before it is looked again whether a snapshot is due or asked for, in milliseconds.
pub(crate) const SNAPSHOT_TICK_MS: u64 = 100;

/// A snapshot that is wanted, since something can't be kept in the log, begins so long after the last one ended, in milliseconds.
pub(crate) const WANTED_REST_MS: u64 = 1_000;

/// At most so many keys of a vnode are read in a spell: half of the entries of which the follower keeps what they answered. So what a
/// client's call answered is kept for longer than a spell lasts.
pub(crate) const SPELL_KEYS: u32 = 8_192;

/// A spell lasts so long at the most, in microseconds.
pub(crate) const SPELL_US: u64 = 5_000;

/// The clock is looked at behind so many reads.
pub(crate) const CLOCK_LOOK_READS: u32 = 64;

/// Workers are waited for at most so long behind a spell, in milliseconds.
pub(crate) const TURN_WAIT_MS: u64 = 100;

/// A rest is so many times as long as the spell before it lasted: so a thread has a seventh of a processor.
pub(crate) const REST_PER_SPELL: u64 = 6;

/// It is so many times as long as the thread waited for a processor in that spell, where that is longer.
pub(crate) const REST_PER_WAIT: u64 = 16;

/// It is at most so long, in microseconds.
pub(crate) const MAX_REST_US: u64 = 100_000;
