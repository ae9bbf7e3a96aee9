//! What a seat of the stamp word knows. No value of these types is made, but Size.

use crate::{Reply, Request};
use journal::Entry;
use std::collections::LinkedList;
use vnode::PartFault;

/// What a vnode tells.
pub enum News {
    /// A request, and what came of it.
    Call {
        /// What was asked.
        request: Request,
        /// What came of it.
        outcome: Result<Reply, PartFault>,
    },
    /// A part of the journal was handed out.
    HandOut {
        /// The place of the first entry that was handed out.
        first: u64,
        /// What was handed out, oldest first.
        entries: LinkedList<Entry>,
    },
}

/// What the caller of a vnode was told.
pub struct Told {
    /// The vnode's identifier.
    pub vnode: u32,
    /// The place of the call's entry, or where it made none how many entries there were.
    pub at: u64,
    /// The stamp that was drawn for it.
    pub stamp: u64,
    /// What was told.
    pub news: News,
}

/// All that one vnode has told, in order.
pub struct History {
    /// The vnode's identifier.
    pub vnode: u32,
    /// What it told, oldest first.
    pub told: LinkedList<Told>,
}

/// What a seat knows. A pass has one part, and a vnode's seat has its history.
pub struct View {
    /// How many passes it stands for.
    pub parts: u64,
    /// How many stamps it drew.
    pub drawn: u64,
    /// A stamp that was drawn, and of which nothing was told yet.
    pub pending: LinkedList<u64>,
    /// What it was told, oldest first.
    pub told: LinkedList<Told>,
    /// A call that has its entry, and of which it is still to be told.
    pub owed: LinkedList<Told>,
    /// The histories that it keeps.
    pub histories: LinkedList<History>,
}

/// How many vnodes and passes there are, and the identifier of the first vnode.
#[derive(Clone, Copy)]
pub struct Size {
    /// The identifier of the first vnode. The others follow it.
    pub first: u32,
    /// How many vnodes there are.
    pub vnodes: usize,
    /// How many passes there are, 64 at most.
    pub passes: usize,
}
