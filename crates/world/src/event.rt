//! Events of a world, and the replies to them.

use crate::hook::Hook;
use dvv::{Clock, Dot};
use hook_run::Resolution;
use key_state::{Content, Key, KeyState, Part, Summary};
use vnode::{Copied, VnodeFault};

/// What a put had seen.
#[derive(Drop)]
pub enum Seen {
    /// The events of a clock.
    Clock(Clock),
    /// The context that an earlier get answered, by the place of that event.
    Get(usize),
}

/// What happens. A vnode goes by its index, and an earlier event by its place in the list of events.
#[derive(Drop)]
pub enum Event {
    /// A write at a vnode.
    Put {
        vnode: usize,
        key: Key,
        seen: Seen,
        content: Content,
    },
    /// A read of siblings and context.
    Get {
        vnode: usize,
        key: Key,
    },
    /// A read of the dots and the clock that a vnode holds under a key, for parts.
    Summarize {
        vnode: usize,
        key: Key,
    },
    /// A copy of a key's state, as a message to any vnode.
    Send {
        vnode: usize,
        key: Key,
    },
    /// A copy of a key's state without the contents of those dots that an earlier summary told, whatever vnode and key that was of, as a
    /// message to any vnode.
    SendPart {
        vnode: usize,
        key: Key,
        summary: usize,
    },
    /// An earlier message, of all or of a part, reaches a vnode. It may reach any vnode, at any time, any number of times, or none.
    Deliver {
        message: usize,
        vnode: usize,
    },
    /// A vnode starts again, and has lost nothing.
    Restart {
        vnode: usize,
    },
    /// A copy of the state of each key of which a vnode knows something, for loads.
    Dump {
        vnode: usize,
    },
    /// The identifier of an index is closed. The index goes on under that of another incarnation, which knows what an earlier dump copied
    /// and no more.
    Load {
        dump: usize,
        vnode: usize,
        incarnation: u16,
    },
    /// A resolver runs on the siblings that an earlier get answered.
    ResolveRead {
        get: usize,
        hook: Hook,
    },
    /// The content that an earlier run of a resolver chose is put, with the context that the run's get answered.
    ResolveWrite {
        run: usize,
        vnode: usize,
    },
}

/// The state of a key as an entry of a vnode's journal copied it.
#[derive(Drop)]
pub struct Message {
    pub key: Key,
    /// The vnode's identifier.
    pub from: u32,
    /// The place of the entry in its journal.
    pub at: u64,
    pub state: KeyState,
}

/// A part of the state of a key as an entry of a vnode's journal copied it.
#[derive(Drop)]
pub struct PartMessage {
    pub key: Key,
    /// The vnode's identifier.
    pub from: u32,
    /// The place of the entry in its journal.
    pub at: u64,
    pub part: Part,
}

/// Copies of the states of a vnode's keys, in the order of the keys' bytes, each by an entry of its journal.
#[derive(Drop)]
pub struct Copies {
    /// The vnode's identifier.
    pub from: u32,
    /// The place of the first copy's entry. Those of the others follow.
    pub first: usize,
    pub held: Vec<Copied>,
}

/// What an event replies.
#[derive(Drop)]
pub enum Reply {
    /// The identifier of a put's write.
    Stored(Dot),
    /// What a get answers: siblings, and the clock that stands for their context.
    Found(KeyState),
    /// What a summary tells: dots, and the clock that stands for their context.
    Summarized(Summary),
    /// What a send copied. It is also what a part's send replies that finds no memory for the part alone: the whole state is sent.
    Sent(Message),
    /// What a part's send copied.
    SentPart(PartMessage),
    /// Whether a delivery changed siblings or clock.
    Changed(bool),
    /// A content that was left out of a delivered part isn't held at its vnode (M2), and nothing happened.
    Missing,
    /// A vnode has started again.
    Restarted,
    /// What a dump copied, in the order of the keys' bytes.
    Dumped(Copies),
    /// How many keys were loaded.
    Loaded(usize),
    /// What a resolver decided.
    Resolved(Resolution),
    /// The named run chose no content, and nothing was put.
    Nothing,
    /// The event changed nothing: its vnode refused, or an event that it names was refused so.
    Refused(VnodeFault),
}
