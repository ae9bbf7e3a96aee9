//! A pass, and the table that passes and vnodes share.

ghost use Rattle.std.specs.Prelude.{◌≡◌, ◌≤◌};
ghost use Rattle.cluster_stamps.specs.Rule.{stamps_each};

use cluster_stamps::Card;
use std::marker::{Brand, Model, PhantomData};
use vnode::Hint;

/// Names one stamp word. Each call of a program that opens a cluster picks it.
pub trait Room {
    ghost use Rattle.atomic_table.specs.Seated.{TableId};

    ghost table: { TableId };
}

impl Room for Brand {
    ghost use Rattle.cluster_vnode.specs.Calls.{no_table};

    ghost table = { no_table };
}

/// What one thread calls with. Contracts see what it has drawn and was told.
#[derive(Drop)]
pub struct Pass<B: Room> {
    pub(crate) card: Card,
    pub(crate) drawn: u64,
    /// What is remembered of the key that calls are about.
    pub(crate) hint: Hint,
    pub(crate) room: PhantomData<B>,
}

impl<B: Room> Model for Pass<B> {
    ghost use Rattle.std.specs.Prelude.{◌≡◌, ◌≤◌, []};
    ghost use Rattle.cluster_stamps.specs.declared.view.View.{View};
    ghost use Rattle.cluster_stamps.specs.Rule.{stamps_each};
    ghost use Rattle.cluster_vnode.specs.Calls.{pass_view};

    ghost Value = { View };

    ghost view = { λ p. p.card.me.0 };

    ghost invariant = { λ p. (p.card.table_id ≡ B.table) × (p.card.me ≡ (pass_view p.drawn p.card.me.0.told, [])) × (p.drawn ≤ stamps_each) };
}

impl<B: Room> Pass<B> {
    /// How many stamps it has drawn: 2^48 at most.
    pub fn drawn(&self) -> u64
        ensures drawn { result ≡ self.now.drawn }
        ensures limit { result ≤ stamps_each }
    {
        self.drawn
    }

    /// What is remembered of the key that calls are about.
    pub fn hint(&self) -> &Hint {
        &self.hint
    }

    /// Calls to come are about a key of which this is remembered: none of their vnodes makes its hash anew.
    pub fn expect(&mut self, hint: Hint)
        ensures { self.new ≡ self.old }
    {
        self.hint = hint;
    }
}
