//! A vnode under a lock, beside what its seat of the stamp word knows.

ghost use Rattle.std.specs.Prelude.{◌≡◌, ◌+◌, ◌*◌, ◌<◌, ◌≤◌, [], ◌∷◌, ◌++◌, length, IfOk, IfErr, IfSome, IfNone, OnOk, Err, false, vec_len, is_ok, if◌then◌else◌};
ghost use Rattle.cluster_stamps.specs.Rule.{together, nothing, without_pass, pass_of, stamps_each, IsWithin, call_of, hand_out_of, outcome_count};
ghost use Rattle.std.specs.Prelude.{List};
ghost use Rattle.journal.specs.Blocks.{AreHandedOut, all_of};
ghost use Rattle.journal.specs.Entry.{Entry as Entered};
ghost use Rattle.journal.specs.Journals.{IsJournal};
ghost use Rattle.journal.specs.Logs.{max_entries};
ghost use Rattle.vnode.specs.Keys.{AreUnsorted};
ghost use Rattle.ring.specs.Places.{ring_place};
ghost use Rattle.cluster_stamps.specs.Answered.{asked};
ghost use Rattle.cluster_vnode.specs.Answers.{IsVnodes, entries_told, wants_memory, lacks_memory, log_of};
ghost use Rattle.cluster_vnode.specs.Calls.{pass_view, told_then, IsTold, IsNews, IsFault, IsHandedOut, outcome_ok};

use crate::fault::{CallFault, Receipt};
use crate::pass::{Pass, Room};
use cluster_stamps::{Asking, Card, Prepared, Reply, Stamps, answer};
use journal::{Entry, Handout};
use key_state::Key;
use std::alloc::AllocError;
use std::marker::{Brand, Model, PhantomData};
use vnode::{BlockSpot, Hint, KeyBlock, Names, PartFault, Vnode, VnodeFault};

// The vnode's card takes in what the pass knows.
fn lend(stamps: &Stamps, card: &mut Card, pass: &mut Card)
    requires table { (card.old.table_id ≡ stamps.now.table.shared.table_id) × (pass.old.table_id ≡ stamps.now.table.shared.table_id) }
    requires none { (card.old.me.0.pending ≡ []) × (pass.old.me.0.pending ≡ []) × (card.old.me.0.owed ≡ []) × (pass.old.me.0.owed ≡ []) }
    ensures card { (card.new.table_id ≡ card.old.table_id) × (card.new.me ≡ (together card.old.me.0 pass.old.me.0, card.old.me.1)) }
    ensures pass { (pass.new.table_id ≡ pass.old.table_id) × (pass.new.me ≡ (nothing, pass.old.me.1)) }
{
    let mine = stamps.take_all(pass);
    stamps.join(card, mine);
}

// The pass gets back what is its own.
fn give_back(stamps: &Stamps, card: &mut Card, pass: &mut Card)
    requires table { (card.old.table_id ≡ stamps.now.table.shared.table_id) × (pass.old.table_id ≡ stamps.now.table.shared.table_id) }
    requires none { (pass.old.me.0 ≡ nothing) × (card.old.me.0.owed ≡ []) }
    ensures card { (card.new.table_id ≡ card.old.table_id) × (card.new.me ≡ (without_pass card.old.me.0, card.old.me.1)) }
    ensures pass { (pass.new.table_id ≡ pass.old.table_id) × (pass.new.me ≡ (pass_of card.old.me.0, pass.old.me.1)) }
{
    let mine = stamps.take_pass(card);
    stamps.join(pass, mine);
}

// Whether a refusal is for memory.
fn wants_memory(fault: PartFault) -> bool
    ensures { result ≡ wants_memory fault }
{
    matches!(fault, PartFault::Refused(VnodeFault::NoMemory))
}

// Whether a request was refused for memory.
fn lacks_memory(outcome: &Result<Reply, PartFault>) -> bool
    ensures { result ≡ lacks_memory outcome.now }
{
    match outcome {
        Ok(_) => false,
        Err(fault) => wants_memory(*fault),
    }
}

// What a call came to.
struct Asked {
    at: usize,
    stamp: u64,
    outcome: Result<Reply, PartFault>,
}

// Asks the vnode, and tells the pass of the request that `Q` names. A request that is refused for memory leaves nothing but a gap in the
// stamps.
fn ask<Q: Asking>(
    stamps: &Stamps,
    vnode: &mut Vnode,
    card: &mut Card,
    pass: &mut Card,
    prepared: Prepared<'_>,
) -> Asked
    requires prepared { asked prepared ≡ Q.request }
    requires table { (card.old.table_id ≡ stamps.now.table.shared.table_id) × (pass.old.table_id ≡ stamps.now.table.shared.table_id) }
    requires vnode { IsVnodes vnode.old card.old.me.0 }
    requires pass { pass.old.me.0 ≡ pass_view pass.old.me.0.drawn pass.old.me.0.told }
    requires room { pass.old.me.0.drawn < stamps_each }
    ensures table { (card.new.table_id ≡ card.old.table_id) × (pass.new.table_id ≡ pass.old.table_id) × (card.new.me.1 ≡ card.old.me.1) }
    ensures vnode { IsVnodes vnode.new card.new.me.0 }
    ensures id { vnode.new.vnode ≡ vnode.old.vnode }
    ensures pass { pass.new.me ≡ (pass_view (pass.old.me.0.drawn + 1) (told_then pass.old.me.0.told (call_of vnode.old.vnode result.at result.stamp Q.request result.outcome)), pass.old.me.1) }
    ensures call { lacks_memory result.outcome ≡ false → IsTold (call_of vnode.old.vnode result.at result.stamp Q.request result.outcome) pass.old.me.0.told }
    ensures short { OnOk result.outcome (result.at < max_entries) }
    ensures place { result.at ≡ length vnode.old.entries }
    ensures entries { length vnode.new.entries ≡ length vnode.old.entries + outcome_count result.outcome }
{
    lend(stamps, card, pass);
    let stamp = stamps.draw(card);
    let at = vnode.journal().len();
    let outcome = answer(vnode, stamp, prepared);
    if lacks_memory(&outcome) {
        stamps.forget(card);
        give_back(stamps, card, pass);
        return Asked { at, stamp, outcome };
    }
    stamps.tell::<Q>(card, vnode.id(), at, stamp, &outcome);
    give_back(stamps, card, pass);
    Asked { at, stamp, outcome }
}

/// What lies under a vnode's lock. Contracts see the view of its seat, which tells how many entries its journal has.
#[derive(Drop)]
pub struct Locked<B: Room> {
    vnode: Vnode,
    card: Card,
    room: PhantomData<B>,
}

impl<B: Room> Model for Locked<B> {
    ghost use Rattle.std.specs.Prelude.{◌≡◌, []};
    ghost use Rattle.cluster_stamps.specs.declared.view.View.{View};
    ghost use Rattle.cluster_vnode.specs.Answers.{IsVnodes};

    ghost Value = { View };

    ghost view = { λ l. l.card.me.0 };

    ghost invariant = { λ l. (l.card.table_id ≡ B.table) × (l.card.me.1 ≡ []) × IsVnodes l.vnode l.card.me.0 };
}

impl<B: Room> Locked<B> {
    /// Makes a call of the pass, which can draw a stamp, on this vnode, which has this identifier.
    pub fn make(
        &mut self,
        stamps: &Stamps,
        pass: &mut Pass<B>,
        id: u32,
        prepared: Prepared<'_>,
    ) -> Result<(Reply, Receipt), CallFault>
        requires table { stamps.now.table.shared.table_id ≡ B.table }
        requires room { pass.old.drawn < stamps_each }
        ensures ok { IfOk result (λ r. (r.1.vnode ≡ id) × IsNews pass.old pass.new (call_of id r.1.place r.1.stamp (asked prepared.entry) (outcome_ok r.0))) }
        ensures err { IfErr result (IsFault pass.old pass.new id (asked prepared.entry)) }
        ensures drawn { pass.new.drawn ≤ pass.old.drawn + 1 }
        ensures place { IfOk result (λ r. r.1.place ≡ entries_told self.old) }
        ensures entries { entries_told self.new ≡ entries_told self.old + (if is_ok result then 1 else 0) }
    {
        let Locked { vnode, card, .. } = self;
        // Each vnode lies under the lock of its place. What is known of a lock doesn't say so: hence the test, which finds it so.
        if vnode.id() != id {
            return Err(CallFault::Refused(VnodeFault::NoMemory));
        }
        vnode.expect(&pass.hint);
        let Asked { at, stamp, outcome } = ask::<Brand>(
            stamps,
            vnode,
            card,
            &mut pass.card,
            prepared,
        );
        pass.drawn += 1;
        match outcome {
            Ok(reply) => Ok((
                reply,
                Receipt {
                    vnode: id,
                    place: at as u64,
                    stamp,
                },
            )),
            Err(PartFault::Missing) => Err(CallFault::Missing),
            Err(PartFault::Refused(fault)) => Err(CallFault::Refused(fault)),
        }
    }
}

// The keys of the vnode, in any order, and that all that the pass was told of it lies within its journal.
fn look(
    stamps: &Stamps,
    vnode: &Vnode,
    card: &mut Card,
    pass: &mut Card,
) -> Result<Names, AllocError>
    requires table { (card.old.table_id ≡ stamps.now.table.shared.table_id) × (pass.old.table_id ≡ stamps.now.table.shared.table_id) }
    requires vnode { IsVnodes vnode.now card.old.me.0 }
    requires pass { pass.old.me.0 ≡ pass_view pass.old.me.0.drawn pass.old.me.0.told }
    ensures table { (card.new.table_id ≡ card.old.table_id) × (pass.new.table_id ≡ pass.old.table_id) × (card.new.me.1 ≡ card.old.me.1) }
    ensures vnode { IsVnodes vnode.now card.new.me.0 }
    ensures pass { pass.new.me ≡ (pass_view pass.old.me.0.drawn pass.old.me.0.told, pass.old.me.1) }
    ensures within { IsWithin vnode.now.vnode (length vnode.now.entries) pass.old.me.0.told }
    ensures keys { IfOk result (λ names. AreUnsorted vnode.now names.keys) }
{
    lend(stamps, card, pass);
    stamps.look(card);
    give_back(stamps, card, pass);
    vnode.unsorted_keys()
}

// Tells the pass what the vnode's journal has handed out, and answers the stamp of it.
fn tell_hand_out(
    stamps: &Stamps,
    vnode: &Vnode,
    card: &mut Card,
    pass: &mut Card,
    handout: &Handout,
) -> u64
    requires table { (card.old.table_id ≡ stamps.now.table.shared.table_id) × (pass.old.table_id ≡ stamps.now.table.shared.table_id) }
    requires vnode { IsVnodes vnode.now card.old.me.0 }
    requires pass { pass.old.me.0 ≡ pass_view pass.old.me.0.drawn pass.old.me.0.told }
    requires room { pass.old.me.0.drawn < stamps_each }
    requires out { AreHandedOut vnode.now.entries handout.now.first handout.now.blocks.items }
    ensures table { (card.new.table_id ≡ card.old.table_id) × (pass.new.table_id ≡ pass.old.table_id) × (card.new.me.1 ≡ card.old.me.1) }
    ensures vnode { IsVnodes vnode.now card.new.me.0 }
    ensures pass { pass.new.me ≡ (pass_view (pass.old.me.0.drawn + 1) (pass.old.me.0.told ++ hand_out_of vnode.now.vnode (length vnode.now.entries) result handout.now.first (all_of handout.now.blocks.items) ∷ []), pass.old.me.1) }
    ensures told { IsTold (hand_out_of vnode.now.vnode (length vnode.now.entries) result handout.now.first (all_of handout.now.blocks.items)) pass.old.me.0.told }
{
    lend(stamps, card, pass);
    let stamp = stamps.draw(card);
    let at = vnode.journal().len();
    stamps.tell_hand_out(card, vnode.id(), at, stamp, handout);
    give_back(stamps, card, pass);
    stamp
}

impl<B: Room> Locked<B> {
    /// The keys of this vnode, which has this identifier, in any order.
    pub fn unsorted_keys(
        &mut self,
        stamps: &Stamps,
        pass: &mut Pass<B>,
        id: u32,
    ) -> Result<Names, AllocError>
        requires { stamps.now.table.shared.table_id ≡ B.table }
        ensures same { (pass.new.told ≡ pass.old.told) × (pass.new.drawn ≡ pass.old.drawn) }
        ensures ok { IfOk result (λ names. (front : List Entered) × IsJournal id front × AreUnsorted (log_of id front) names.keys × IsWithin id (length front) pass.old.told) }
    {
        let Locked { vnode, card, .. } = self;
        // As in `make`.
        if vnode.id() != id {
            return Err(AllocError);
        }
        let _journal = vnode.journal();
        look(stamps, vnode, card, &mut pass.card)
    }

    /// A full block of this vnode's keys, shared.
    pub fn key_block(&self, at: BlockSpot) -> Option<KeyBlock> {
        self.vnode.key_block(at)
    }

    /// Takes the memory of another vnode's block of keys in place of that of its own one there, where both have the same keys in
    /// the same order.
    pub fn share_keys(&mut self, at: BlockSpot, block: KeyBlock)
        ensures { self.new ≡ self.old }
    {
        self.vnode.share_keys(at, block);
    }

    /// The place of a key on a ring of three vnodes, where this one was told it. Where the key lies here is remembered for the look-ups of
    /// others.
    pub fn ring_place(&self, hint: &mut Hint, key: &Key) -> Option<u32>
        ensures { IfSome result (λ told. told ≡ ring_place key.now.bucket key.now.key) }
    {
        self.vnode.ring_place(hint, key)
    }

    /// Keeps the place of a key, whose hash may be known, on a ring of three vnodes, where this one has a state of it and there is memory.
    pub fn learn_ring_place(&mut self, hint: &Hint, key: &Key, told: u32)
        requires { told ≡ ring_place key.now.bucket key.now.key }
        ensures { self.new ≡ self.old }
    {
        self.vnode.expect(hint);
        self.vnode.learn_ring_place(key, told);
    }

    /// Hands out the full blocks of the journal of this vnode, which has this identifier. The pass, which can draw a stamp, is told what is
    /// handed out. None, and it is told nothing, where no block is full. An empty block with memory is taken over where the journal has
    /// none.
    pub fn hand_out(
        &mut self,
        stamps: &Stamps,
        pass: &mut Pass<B>,
        id: u32,
        next: &mut Vec<Entry>,
    ) -> Option<Handout>
        requires table { stamps.now.table.shared.table_id ≡ B.table }
        requires pass { pass.old.drawn < stamps_each }
        requires empty { next.old.items ≡ [] }
        ensures empty { next.new.items ≡ [] }
        ensures some { IfSome result (λ handout. IsHandedOut pass.old pass.new id handout.first handout.blocks.items) }
        ensures block { IfSome result (λ handout. (0 < vec_len handout.blocks) × (pass.new.drawn ≡ pass.old.drawn + 1)) }
        ensures none { IfNone result (pass.new ≡ pass.old) }
        ensures drawn { pass.new.drawn ≤ pass.old.drawn + 1 }
    {
        let Locked { vnode, card, .. } = self;
        // As in `make`.
        if vnode.id() != id {
            return None;
        }
        let handout = vnode.settle(next).0;
        if handout.blocks.is_empty() {
            return None;
        }
        tell_hand_out(stamps, vnode, card, &mut pass.card, &handout);
        pass.drawn += 1;
        Some(handout)
    }

    /// A vnode beside the seat that has its history.
    pub fn new(vnode: Vnode, card: Card) -> Locked<B>
        requires table { (card.table_id ≡ B.table) × (card.me.1 ≡ []) }
        requires vnode { IsVnodes vnode card.me.0 }
    {
        Locked {
            vnode,
            card,
            room: PhantomData,
        }
    }

    /// The vnode and its seat.
    pub fn into_parts(self) -> (Vnode, Card)
        ensures table { (result.1.table_id ≡ B.table) × (result.1.me.1 ≡ []) }
        ensures vnode { IsVnodes result.0 result.1.me.0 }
    {
        let Locked { vnode, card, .. } = self;
        (vnode, card)
    }
}
