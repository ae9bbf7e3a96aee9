//! The stamp word.

ghost use Rattle.std.specs.Prelude.{◌≡◌, ℕ, ◌+◌, ◌*◌, ◌^◌, ◌<◌, ◌≤◌, List, [], ◌∷◌, length, IfOk};
ghost use Rattle.cluster_stamps.specs.declared.view.History.{History};
ghost use Rattle.cluster_stamps.specs.Rule.{newcomer, drew, dropped, learned, IsAboveAll, IsWithin, IsWhole, TellsOf, AppendsOf, Settles, Looks, nothing, together, without_pass, pass_of, less_one, one_part, less_history, first_history, stamps_each, entries, IsSound, call_of, hand_out_of};
ghost use Rattle.journal.specs.Blocks.{all_of};

use crate::Reply;
use crate::law::{
    All, Append, Asking, Blank, Both, Draw, FirstHistory, Forget, Law, Look, Naming, Note, OnePart,
    PassOff, Settle,
};
use crate::view::{Size, View};
use atomic_table::{Seat, Table};
use journal::Handout;
use std::alloc::{AllocError, Global};
use std::marker::Brand;
use vnode::PartFault;

/// The most stamps that one pass draws.
pub const STAMPS_EACH: u64 = 1 << 48;

/// What one thread, or one vnode, knows of the word. It has no bytes.
pub type Card = Seat<(), View>;

/// The word that counts the stamps drawn.
#[derive(Drop)]
pub struct Stamps {
    /// The word, and what is known beside it.
    pub table: Table<(), View, Size, Law, Global>,
    pub ghost one: { table.shared.table_id.words ≡ 1 },
    pub ghost none: { table.shared.table_id.slots ≡ 0 },
}

impl Stamps {
    /// A word that nobody has drawn from, and the seat that has all parts and all histories. No vnode has told anything.
    pub fn new(alloc: Global, size: &Size) -> Result<(Stamps, Card), AllocError>
        requires { size.now.passes ≤ 64 }
        ensures { IfOk result (λ r. (r.0.table.shared.key ≡ size.now) × (r.1.table_id ≡ r.0.table.shared.table_id) × (r.1.me ≡ (newcomer size.now, []))) }
    {
        let (table, card) = Table::of_words(alloc, &[0], size)?;
        Ok((Stamps { table }, card))
    }

    /// Draws the next stamp, which no other call draws. It is above those of all that the card's pass was told, by whatever vnode.
    pub fn draw(&self, card: &mut Card) -> u64
        requires table { card.old.table_id ≡ self.now.table.shared.table_id }
        requires room { card.old.me.0.drawn < stamps_each * card.old.me.0.parts }
        requires none { card.old.me.0.pending ≡ [] }
        ensures table { card.new.table_id ≡ card.old.table_id }
        ensures drew { card.new.me ≡ (drew card.old.me.0 result, card.old.me.1) }
        ensures above { IsAboveAll result card.old.me.0.told }
    {
        self.table.shared.fetch_add::<Draw>(card, 0, 1)
    }

    /// The vnode whose history the card has answered a call of the request that `Q` names, and the card's pass is told: an entry is made
    /// and settled, or a refusal noted.
    pub fn tell<Q: Asking>(
        &self,
        card: &mut Card,
        vnode: u32,
        at: usize,
        stamp: u64,
        outcome: &Result<Reply, PartFault>,
    )
        requires table { card.old.table_id ≡ self.now.table.shared.table_id }
        requires pass { 0 < card.old.me.0.parts }
        requires stamp { card.old.me.0.pending ≡ stamp ∷ [] }
        requires settled { card.old.me.0.owed ≡ [] }
        requires vnode { (h : History) × (card.old.me.0.histories ≡ h ∷ []) × (vnode ≡ h.vnode) × (at ≡ entries h.told) }
        ensures table { card.new.table_id ≡ card.old.table_id }
        ensures told { TellsOf (call_of vnode at stamp Q.request outcome.now) card.old.me.0 card.new.me.0 × (card.new.me.1 ≡ card.old.me.1) }
    {
        if outcome.is_ok() {
            self.append::<Q>(card, vnode, at, stamp, outcome);
            self.settle(card);
        } else {
            self.note::<Q>(card, vnode, at, stamp, outcome);
        }
    }

    /// Drops the stamp that is pending.
    pub fn forget(&self, card: &mut Card)
        requires { card.old.table_id ≡ self.now.table.shared.table_id }
        ensures table { card.new.table_id ≡ card.old.table_id }
        ensures dropped { card.new.me ≡ (dropped card.old.me.0, card.old.me.1) }
    {
        self.table.shared.load::<Forget>(card, 0);
    }

    fn note_as<Q: Asking, N: Naming>(
        &self,
        card: &mut Card,
        vnode: u32,
        at: usize,
        stamp: u64,
        outcome: &Result<Reply, PartFault>,
    )
        requires { (N.call ≡ call_of vnode at stamp Q.request outcome.now) × (card.old.table_id ≡ self.now.table.shared.table_id) × (0 < card.old.me.0.parts) × (card.old.me.0.pending ≡ stamp ∷ []) × (card.old.me.0.owed ≡ []) × ((h : History) × (card.old.me.0.histories ≡ h ∷ []) × (vnode ≡ h.vnode) × (at ≡ entries h.told)) }
        ensures table { card.new.table_id ≡ card.old.table_id }
        ensures told { TellsOf N.call card.old.me.0 card.new.me.0 × (card.new.me.1 ≡ card.old.me.1) }
    {
        self.table.shared.load::<Note<N>>(card, 0);
    }

    /// The vnode whose history the card has refused a call, and the card's pass is told.
    pub fn note<Q: Asking>(
        &self,
        card: &mut Card,
        vnode: u32,
        at: usize,
        stamp: u64,
        outcome: &Result<Reply, PartFault>,
    )
        requires table { card.old.table_id ≡ self.now.table.shared.table_id }
        requires pass { 0 < card.old.me.0.parts }
        requires stamp { card.old.me.0.pending ≡ stamp ∷ [] }
        requires settled { card.old.me.0.owed ≡ [] }
        requires vnode { (h : History) × (card.old.me.0.histories ≡ h ∷ []) × (vnode ≡ h.vnode) × (at ≡ entries h.told) }
        ensures table { card.new.table_id ≡ card.old.table_id }
        ensures told { TellsOf (call_of vnode at stamp Q.request outcome.now) card.old.me.0 card.new.me.0 × (card.new.me.1 ≡ card.old.me.1) }
    {
        self.note_as::<Q, Brand>(card, vnode, at, stamp, outcome);
    }

    fn tell_hand_out_as<N: Naming>(
        &self,
        card: &mut Card,
        vnode: u32,
        at: usize,
        stamp: u64,
        handout: &Handout,
    )
        requires { (N.call ≡ hand_out_of vnode at stamp handout.now.first (all_of handout.now.blocks.items)) × (card.old.table_id ≡ self.now.table.shared.table_id) × (0 < card.old.me.0.parts) × (card.old.me.0.pending ≡ stamp ∷ []) × (card.old.me.0.owed ≡ []) × ((h : History) × (card.old.me.0.histories ≡ h ∷ []) × (vnode ≡ h.vnode) × (at ≡ entries h.told)) }
        ensures table { card.new.table_id ≡ card.old.table_id }
        ensures told { TellsOf N.call card.old.me.0 card.new.me.0 × (card.new.me.1 ≡ card.old.me.1) }
    {
        self.table.shared.load::<Note<N>>(card, 0);
    }

    /// The vnode whose history the card has handed out a part of its journal, and the card's pass is told.
    pub fn tell_hand_out(
        &self,
        card: &mut Card,
        vnode: u32,
        at: usize,
        stamp: u64,
        handout: &Handout,
    )
        requires table { card.old.table_id ≡ self.now.table.shared.table_id }
        requires pass { 0 < card.old.me.0.parts }
        requires stamp { card.old.me.0.pending ≡ stamp ∷ [] }
        requires settled { card.old.me.0.owed ≡ [] }
        requires vnode { (h : History) × (card.old.me.0.histories ≡ h ∷ []) × (vnode ≡ h.vnode) × (at ≡ entries h.told) }
        ensures table { card.new.table_id ≡ card.old.table_id }
        ensures told { TellsOf (hand_out_of vnode at stamp handout.now.first (all_of handout.now.blocks.items)) card.old.me.0 card.new.me.0 × (card.new.me.1 ≡ card.old.me.1) }
    {
        self.tell_hand_out_as::<Brand>(card, vnode, at, stamp, handout);
    }

    fn append_as<Q: Asking, N: Naming>(
        &self,
        card: &mut Card,
        vnode: u32,
        at: usize,
        stamp: u64,
        outcome: &Result<Reply, PartFault>,
    )
        requires { (N.call ≡ call_of vnode at stamp Q.request outcome.now) × (card.old.table_id ≡ self.now.table.shared.table_id) × (0 < card.old.me.0.parts) × (card.old.me.0.pending ≡ stamp ∷ []) × (card.old.me.0.owed ≡ []) × ((h : History) × (card.old.me.0.histories ≡ h ∷ []) × (vnode ≡ h.vnode) × (at ≡ entries h.told)) }
        ensures table { card.new.table_id ≡ card.old.table_id }
        ensures told { AppendsOf N.call card.old.me.0 card.new.me.0 × (card.new.me.1 ≡ card.old.me.1) }
    {
        self.table.shared.load::<Append<N>>(card, 0);
    }

    /// The vnode whose history the card has made an entry, with the stamp that is pending.
    pub fn append<Q: Asking>(
        &self,
        card: &mut Card,
        vnode: u32,
        at: usize,
        stamp: u64,
        outcome: &Result<Reply, PartFault>,
    )
        requires table { card.old.table_id ≡ self.now.table.shared.table_id }
        requires pass { 0 < card.old.me.0.parts }
        requires stamp { card.old.me.0.pending ≡ stamp ∷ [] }
        requires settled { card.old.me.0.owed ≡ [] }
        requires vnode { (h : History) × (card.old.me.0.histories ≡ h ∷ []) × (vnode ≡ h.vnode) × (at ≡ entries h.told) }
        ensures table { card.new.table_id ≡ card.old.table_id }
        ensures told { AppendsOf (call_of vnode at stamp Q.request outcome.now) card.old.me.0 card.new.me.0 × (card.new.me.1 ≡ card.old.me.1) }
    {
        self.append_as::<Q, Brand>(card, vnode, at, stamp, outcome);
    }

    /// The pass is told of the entry that it is owed.
    pub fn settle(&self, card: &mut Card)
        requires { card.old.table_id ≡ self.now.table.shared.table_id }
        ensures table { card.new.table_id ≡ card.old.table_id }
        ensures told { Settles card.old.me.0 card.new.me.0 × (card.new.me.1 ≡ card.old.me.1) }
    {
        self.table.shared.load::<Settle>(card, 0);
    }

    /// What the card's pass was told of the card's vnode lies within the journal of now.
    pub fn look(&self, card: &mut Card)
        requires { card.old.table_id ≡ self.now.table.shared.table_id }
        ensures table { card.new.table_id ≡ card.old.table_id }
        ensures looked { Looks card.old.me.0 card.new.me.0 × (card.new.me.1 ≡ card.old.me.1) }
    {
        self.table.shared.load::<Look>(card, 0);
    }

    /// A card that knows nothing.
    pub fn blank(&self) -> Card
        ensures { (result.table_id ≡ self.now.table.shared.table_id) × (result.me ≡ (nothing, [])) }
    {
        self.table.shared.load_new_seat::<Blank>(0).1
    }

    /// All that the card knows, on a card of its own.
    pub fn take_all(&self, card: &mut Card) -> Card
        requires table { card.old.table_id ≡ self.now.table.shared.table_id }
        requires settled { card.old.me.0.owed ≡ [] }
        ensures left { (card.new.table_id ≡ card.old.table_id) × (card.new.me ≡ (nothing, card.old.me.1)) }
        ensures taken { (result.table_id ≡ card.old.table_id) × (result.me ≡ (card.old.me.0, [])) }
    {
        self.table.shared.split_seat::<All>(card)
    }

    /// The pass, on a card of its own.
    pub fn take_pass(&self, card: &mut Card) -> Card
        requires table { card.old.table_id ≡ self.now.table.shared.table_id }
        requires settled { card.old.me.0.owed ≡ [] }
        ensures left { (card.new.table_id ≡ card.old.table_id) × (card.new.me ≡ (without_pass card.old.me.0, card.old.me.1)) }
        ensures taken { (result.table_id ≡ card.old.table_id) × (result.me ≡ (pass_of card.old.me.0, [])) }
    {
        self.table.shared.split_seat::<PassOff>(card)
    }

    /// One of the card's parts, as a pass of its own.
    pub fn take_part(&self, card: &mut Card) -> Card
        requires table { card.old.table_id ≡ self.now.table.shared.table_id }
        requires part { (0 < card.old.me.0.parts) × (card.old.me.0.told ≡ []) × (card.old.me.0.drawn ≡ 0) × (card.old.me.0.owed ≡ []) }
        ensures left { (card.new.table_id ≡ card.old.table_id) × (card.new.me ≡ (less_one card.old.me.0, card.old.me.1)) }
        ensures taken { (result.table_id ≡ card.old.table_id) × (result.me ≡ (one_part, [])) }
    {
        self.table.shared.split_seat::<OnePart>(card)
    }

    /// The card keeps its first history alone. All else goes to a card of its own.
    pub fn take_rest(&self, card: &mut Card) -> Card
        requires table { card.old.table_id ≡ self.now.table.shared.table_id }
        requires none { (card.old.me.0.pending ≡ []) × (card.old.me.0.owed ≡ []) }
        ensures left { (card.new.table_id ≡ card.old.table_id) × (card.new.me ≡ (first_history card.old.me.0, card.old.me.1)) }
        ensures taken { (result.table_id ≡ card.old.table_id) × (result.me ≡ (less_history card.old.me.0, [])) }
    {
        self.table.shared.split_seat::<FirstHistory>(card)
    }

    /// Two cards become one.
    pub fn join(&self, card: &mut Card, other: Card)
        requires table { (card.old.table_id ≡ self.now.table.shared.table_id) × (other.table_id ≡ self.now.table.shared.table_id) × (other.me.1 ≡ []) }
        requires none { (card.old.me.0.pending ≡ []) × (other.me.0.pending ≡ []) × (card.old.me.0.owed ≡ []) × (other.me.0.owed ≡ []) }
        ensures { (card.new.table_id ≡ card.old.table_id) × (card.new.me ≡ (together card.old.me.0 other.me.0, card.old.me.1)) }
    {
        self.table.shared.join_seat::<Both>(card, other)
    }

    /// Who has all passes and all histories knows that what was told is what the vnodes have told.
    pub fn close(self, card: Card)
        requires table { card.table_id ≡ self.table.shared.table_id }
        requires all { (self.table.shared.key.passes ≤ card.me.0.parts) × (length card.me.0.histories ≡ self.table.shared.key.vnodes) × (card.me.0.owed ≡ []) }
        ensures { IsWhole card.me.0.told card.me.0.histories }
    {
        let Stamps { table } = self;
        let closed = table.close_with(card);
        closed.free();
    }
}
