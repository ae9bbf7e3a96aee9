//! The first entries of journals that are to come, in a heap: the next one of all is found at once.

ghost use Rattle.std.specs.Prelude.{◌≡◌, MatchOption, OnOk, IsPermutation, [], ◌∷◌};
ghost use Rattle.std.specs.BinaryHeap.{IsHeap, heap_items};
ghost use Rattle.std.specs.Cmp.{partial_order_from_own_ties};
ghost use Rattle.std.specs.Cmp.Rules.{comparing};
ghost use Rattle.std.specs.Ordering.{as_partial_cmp};
ghost use Rattle.std.proofs.Common.{rules};
ghost use Rattle.std.proofs.Props.{props};
ghost use Rattle.audit_replay.specs.Turns.{Leaves, head_cmp};

use std::alloc::{AllocError, Global};
use std::cmp::Ordering;
use std::collections::BinaryHeap;
use std::marker::Model;

/// The first entry of a journal that is to come. They are ordered by stamp, and then by vnode.
#[derive(Clone, Copy, Drop, PartialEq, Eq)]
pub(crate) struct Head {
    pub(crate) stamp: u64,
    pub(crate) vnode: u32,
    pub(crate) index: usize,
}

impl Ord for Head {
    ghost cmp = { head_cmp };

    ghost total = { Prim.search (comparing, rules) };

    ghost matches_partial_cmp = { Prim.search (comparing, rules) };

    ghost matches_eq = { Prim.search (comparing, rules) };

    /// The next one of all is the greatest.
    fn cmp(&self, other: &Head) -> Ordering {
        other
            .stamp
            .cmp(&self.stamp)
            .then(other.vnode.cmp(&self.vnode))
            .then(other.index.cmp(&self.index))
    }
}

impl PartialOrd for Head {
    ghost partial_cmp = { as_partial_cmp head_cmp };

    ghost laws = { partial_order_from_own_ties (Prim.search (comparing, rules)) (Prim.search (comparing, rules)) };

    fn partial_cmp(&self, other: &Head) -> Option<Ordering> {
        Some(self.cmp(other))
    }
}

/// Heads, of which the first is known.
#[derive(Drop)]
pub(crate) struct Heads {
    heap: BinaryHeap<Head>,
    ghost ordered: { IsHeap head_cmp (heap_items heap) } by { Prim.hlevel props },
}

impl Model for Heads {
    ghost use Rattle.std.specs.Prelude.{List};
    ghost use Rattle.std.specs.BinaryHeap.{heap_items};
    ghost use Rattle.audit_replay.specs.declared.heads.Head.{Head};

    ghost Value = { List Head };

    ghost view = { λ h. heap_items h.heap };
}

impl Heads {
    /// None.
    pub(crate) fn new(alloc: Global) -> Heads
        ensures { result ≡ [] }
    {
        Heads {
            heap: BinaryHeap::new(alloc),
        }
    }

    /// One more.
    pub(crate) fn push(&mut self, head: Head) -> Result<(), AllocError>
        ensures { OnOk result (IsPermutation (head ∷ self.old) self.new) }
    {
        self.heap.push(head)?;
        Ok(())
    }

    /// The next one of all goes.
    pub(crate) fn pop(&mut self) -> Option<Head>
        ensures { MatchOption result (self.old ≡ []) (λ head. Leaves self.old head self.new) }
    {
        self.heap.pop()
    }
}
