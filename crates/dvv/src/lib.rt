//! Dots and clocks: version vectors, and the events that they stand for (Preguiça, Baquero, Almeida, Fonte,
//! Gonçalves, "Dotted Version Vectors", 2010). Limits and refusals are this store's profile.
#![tactic(auto)]

ghost use Rattle.std.specs.Prelude.{◌≡◌, ◌↔◌, IsTrue};

mod clock;
mod fault;
mod walk;

pub use clock::{Clock, Entries};
pub use fault::ClockFault;

/// The greatest counter of a clock's entry.
pub const MAX_COUNTER: u64 = 1 << 62;

/// The most entries of a clock, one for each vnode.
pub const MAX_ENTRIES: usize = 1024;

/// A vnode's identifier is the number of the start that made it times this, and its index, which is below this: of 32 bits the number has the
/// upper 24, and the index the lower 8.
pub const VNODES_PER_NUMBER: u32 = 256;

/// In a script's world a vnode's identifier is its incarnation times this, and its index, which is below this: each has 16 bits. So it is in
/// contexts of the second version.
pub const VNODES_PER_INCARNATION: u32 = 65_536;

/// One event: the n-th of a vnode, from 1. Dots are in order of vnode, then of n. The default has number 0, and is no event.
#[derive(Clone, Copy, Default, PartialEq, Eq, PartialOrd, Ord)]
pub struct Dot {
    pub vnode: u32,
    pub n: u64,
}

impl Dot {
    ghost use Rattle.dvv.specs.Dots.{IsBefore, is_before};

    /// Whether this event comes before another: by vnode, then by n.
    pub fn is_before(self, other: Dot) -> bool
        ensures order { IsTrue result ↔ IsBefore self other }
        ensures test { result ≡ is_before self other }
    {
        self < other
    }
}
