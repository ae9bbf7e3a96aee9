//! Entries that were handed out: a journal goes on from them, and they take no memory there.

ghost use Rattle.std.specs.Prelude.{◌≡◌, ◌++◌, All};
ghost use Rattle.journal.specs.Blocks.{all_of, IsFullBlock};
ghost use Rattle.journal.specs.Fronts.{front_of};

use crate::entry::Entry;
use std::marker::Model;
use std::snapshot::Snapshot;

/// Full blocks, and what stood before them, which only clauses see. They are seen as all these entries.
#[derive(Drop)]
#[cycle(front)]
pub struct Past {
    front: Option<Snapshot<Past>>,
    blocks: Vec<Vec<Entry>>,
}

impl Model for Past {
    ghost use Rattle.std.specs.Prelude.{List, ℕ, ◌++◌, ◌≤◌, length};
    ghost use Rattle.std.proofs.Common.{arith, length-append};
    ghost use Rattle.journal.specs.Entry.{Entry};
    ghost use Rattle.journal.specs.Blocks.{all_of};
    ghost use Rattle.journal.specs.Fronts.{front_of};

    ghost Value = { List Entry };

    ghost view = { λ s. front_of s.front ++ all_of s.blocks.items };

    ghost invariant = { λ s. 1 ≤ length (all_of s.blocks.items) };

    ghost size = { length };

    ghost size_decreases = { λ a h. Prim.grind (arith, length-append) };
}

/// Full blocks of entries that a journal handed out, oldest first.
#[derive(Drop)]
pub struct Handout {
    /// The place of the first of them.
    pub first: usize,
    pub blocks: Vec<Vec<Entry>>,
}

/// Entries that were handed out, if any. It takes no more than a byte, whatever their number.
pub type Front = Option<Snapshot<Past>>;

/// The front with the entries of these blocks behind it, and the blocks again.
pub(crate) fn hand_out(front: Front, blocks: Vec<Vec<Entry>>) -> (Front, Vec<Vec<Entry>>)
    requires { All IsFullBlock blocks.items }
    ensures front { front_of result.0 ≡ front_of front ++ all_of blocks.items }
    ensures blocks { result.1.items ≡ blocks.items }
{
    if blocks.is_empty() {
        return (front, blocks);
    }
    let past = Past { front, blocks };
    let front = Snapshot::of(&past);
    let Past { blocks, .. } = past;
    (Some(front), blocks)
}
