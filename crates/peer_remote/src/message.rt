//! What servers ask of one another, and the link between them.

ghost use Rattle.std.specs.Prelude.{IfSome};
ghost use Rattle.peer_remote.specs.Questions.{question_of};

use dvv::{Clock, Dot};
use key_state::{Content, Key, KeyState, Part, Summary};
use vnode::VnodeFault;

/// What is asked of a vnode of another server, lent. The vnode goes by its index on the ring.
#[derive(Clone, Copy)]
pub enum Ask<'a> {
    /// To write a content, as one who had seen what the clock counts.
    Put {
        vnode: u8,
        key: &'a Key,
        seen: &'a Clock,
        content: &'a Content,
    },
    /// To merge the state that the vnode `from` answered, by the read at place `at` of its journal.
    Merge {
        vnode: u8,
        key: &'a Key,
        from: u32,
        at: u64,
        state: &'a KeyState,
    },
    /// For the state of a key.
    Read {
        vnode: u8,
        key: &'a Key,
    },
    /// For the summary of the state of a key.
    Summary {
        vnode: u8,
        key: &'a Key,
    },
    /// To merge a part of the state that the vnode `from` answered, by the read at place `at` of its journal.
    Part {
        vnode: u8,
        key: &'a Key,
        from: u32,
        at: u64,
        part: &'a Part,
    },
}

/// What is asked of a vnode, as who is asked has it: the variants of [`Ask`], which say what each is.
#[derive(Drop)]
pub enum Question {
    Put {
        vnode: u8,
        key: Key,
        seen: Clock,
        content: Content,
    },
    Merge {
        vnode: u8,
        key: Key,
        from: u32,
        at: u64,
        state: KeyState,
    },
    Read {
        vnode: u8,
        key: Key,
    },
    Summary {
        vnode: u8,
        key: Key,
    },
    Part {
        vnode: u8,
        key: Key,
        from: u32,
        at: u64,
        part: Part,
    },
}

/// What a server tells of a call on one of its vnodes.
#[derive(Drop)]
pub enum Told {
    /// The dot of a put.
    Dot(Dot),
    /// A state, whole or of a part, was merged. Whether that changed something.
    Changed(bool),
    /// The state that the vnode `from` answered, by the read at place `at` of its journal.
    State {
        from: u32,
        at: u64,
        state: KeyState,
    },
    /// The summary that it answered.
    Summary {
        from: u32,
        at: u64,
        summary: Summary,
    },
    /// A content that was left out of a part isn't held.
    Missing,
    /// The vnode refused it.
    Refused(VnodeFault),
}

/// A link to other servers. What comes of a question was sent by the server that was asked, in answer to that very question; it may be lost.
pub trait Link {
    ghost use Rattle.peer_remote.specs.declared.message.Question.{Question as OneQuestion};
    ghost use Rattle.peer_remote.specs.declared.message.Told.{Told as Answer};

    /// The server of the vnode has sent this answer to this question, at some time.
    ghost sent: { OneQuestion → Answer → Type 0 };

    /// Asks the server of a vnode, and waits for its answer for so long as answers are waited for. None where it is lost: then it isn't
    /// known whether the call was made, and it isn't asked again.
    fn ask(&mut self, ask: &Ask<'_>) -> Option<Told>
        ensures { IfSome result (λ answer. sent (question_of ask.now) answer) };
}
