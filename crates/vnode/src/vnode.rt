//! A vnode: what its journal says happened.

ghost use Rattle.ring.specs.Places.{ring_place};
ghost use Rattle.std.specs.Prelude.{◌≡◌, ◌≢◌, ◌↔◌, Contains, IsTrue, OnOk, OnErr, IfOk, IfErr, IfSome, [], false, length, Err, List, ◌+◌, ◌^◌, ◌≤◌, ◌<◌, ◌⊎◌, All};

use crate::answers::{MergeAnswer, PutAnswer};
use crate::fault::{PartFault, VnodeFault};
use crate::hint::Hint;
use crate::key_blocks::KeyBlock;
use crate::names::Names;
use crate::parts::{merged_part_of, part_refusal_at, summary_at};
use crate::seed::Seed;
use crate::states::{BlockSpot, States};
use crate::steps::{
    Copied, Placed, all_copies_in, copies_at, has_places_for, is_at, keys_in, listed_in, merge_at,
    merge_refusal_at, merged_of, put_at, put_refusal_at, read_all_at, write_of,
};
use dvv::Clock;
use journal::{Entry, Handout, Journal, Merged, Write};
use key_state::{Content, Key, KeyState, Part, PreparedPart, Summary};
use std::alloc::{AllocError, Global};
use std::marker::Model;
use std::snapshot::Snapshot;

/// One vnode. It is seen as its journal: at each key it has the state that the journal leaves there. It takes at most 939,524,096 keys
/// ([`VnodeFault::NoMemory`]).
#[derive(Drop)]
pub struct Vnode {
    alloc: Global,
    states: States,
    journal: Journal,
}

impl Model for Vnode {
    ghost use Rattle.journal.specs.Logs.{Log};
    ghost use Rattle.vnode.specs.States.{Replays};

    ghost Value = { Log };

    ghost view = { λ v. v.journal.log };

    ghost invariant = { λ v. Replays v.states v.journal.log };
}

impl Vnode {
    ghost use Rattle.journal.specs.Entry.{Put, Merge, Read, Restart};
    ghost use Rattle.journal.specs.Logs.{Log, with_entry, with_entries, max_entries};
    ghost use Rattle.key_state.specs.declared.content.Key.{Key};
    ghost use Rattle.key_state.specs.State.{State, empty};
    ghost use Rattle.std.specs.List.Sorted.{IsStrictlySortedBy};
    ghost use Rattle.journal.specs.Keys.{key_cmp};
    ghost use Rattle.journal.specs.Replay.{Leaves, IsReplay, IsNextDot, IsKeyOf};
    ghost use Rattle.journal.specs.Limits.{TakesEntry, AcceptsPut, AcceptsMerge};
    ghost use Rattle.journal.specs.Journals.{IsJournal};
    ghost use Rattle.journal.specs.Answers.{TellsChange};
    ghost use Rattle.key_state.specs.Parts.{summary_of, lacks_some, whole_of};
    ghost use Rattle.vnode.specs.declared.fault.PartFault.{PartFault};
    ghost use Rattle.vnode.specs.declared.fault.VnodeFault.{VnodeFault};
    ghost use Rattle.journal.specs.Blocks.{AreHandedOut, all_of};
    ghost use Rattle.vnode.specs.Keys.{AreKeys, AreUnsorted, reads_of};
    ghost use Rattle.vnode.specs.States.{keys_of, state_at, AreInPlace};
    ghost use Rattle.vnode.specs.Refusals.{RefusesPut, RefusesMerge, RefusesEntry};
    ghost use Rattle.vnode.specs.Parts.{RefusesPart, RefusesBrought, brought, lacks_of};

    /// A vnode at which nothing has happened, for keys that no stranger chooses.
    pub fn new(alloc: Global, id: u32) -> Self
        ensures { result ≡ record { vnode = id; entries = [] } }
    {
        Vnode::seeded(alloc, id, Seed::fixed())
    }

    /// A vnode at which nothing has happened. The hashes of its keys begin with a seed, by which strangers who choose keys can't make it
    /// slow.
    pub fn seeded(alloc: Global, id: u32, seed: Seed) -> Self
        ensures { result ≡ record { vnode = id; entries = [] } }
    {
        Vnode {
            alloc,
            states: States::new(alloc, id, seed),
            journal: Journal::new(alloc, id),
        }
    }

    /// Its identifier.
    pub fn id(&self) -> u32
        ensures { result ≡ self.now.vnode }
    {
        self.journal.vnode()
    }

    /// What happened here.
    pub fn journal(&self) -> &Journal
        ensures journal { result.now.log ≡ self.now }
        ensures legal { IsJournal self.now.vnode self.now.entries }
        ensures leaves { (key : Key) → (state : State) × IsReplay self.now.entries key state }
    {
        &self.journal
    }

    /// The keys at which something is known, in any order: [`in_order`] sorts them, where nobody waits for the vnode.
    pub fn unsorted_keys(&self) -> Result<Names, AllocError>
        ensures { IfOk result (λ names. AreUnsorted self.now names.keys) }
    {
        listed_in(self.alloc, &self.states)
    }

    /// The keys at which something is known, in the order of bytes.
    pub fn keys(&self) -> Result<Vec<Key>, AllocError>
        ensures keys { IfOk result (λ keys. (k : Key) → Contains keys.items k ↔ IsKeyOf self.now.entries k) }
        ensures rising { IfOk result (λ keys. IsStrictlySortedBy key_cmp keys.items) }
    {
        keys_in(self.alloc, &self.states)
    }

    /// Writes a content that had seen what the context counts. Its entry takes the parts over. Memory is asked for nothing but what the
    /// vnode itself keeps.
    pub fn put(&mut self, stamp: u64, write: Box<Write>) -> Result<PutAnswer, VnodeFault>
        ensures dot { IfOk result (λ put. IsNextDot self.old.entries write.value.key self.old.vnode put.dot) }
        ensures place { IfOk result (λ put. put.place ≡ length self.old.entries) }
        ensures was { IfOk result (λ put. IsReplay self.old.entries write.value.key put.was) }
        ensures entry { IfOk result (λ put. self.new ≡ with_entry self.old (Put stamp write.value.key write.value.seen write.value.content put.dot)) }
        ensures accepts { OnOk result (AcceptsPut self.old.vnode self.old.entries write.value.key write.value.seen) }

        // Each refusal comes exactly where its limit is the first that is passed; no memory is asked for before.
        ensures why { IfErr result (RefusesPut self.old write.value.key write.value.seen) }
        ensures exact { (fault : VnodeFault) → fault ≢ VnodeFault.NoMemory → RefusesPut self.old write.value.key write.value.seen fault → result ≡ Err fault }
        ensures err { OnErr result (self.new ≡ self.old) }
        ensures legal { IsJournal self.new.vnode self.new.entries }
    {
        let Placed { dot, left, was } = put_at(
            self.alloc,
            &mut self.states,
            &mut self.journal,
            &write,
        )?;
        let entry = Entry::put_leaving(stamp, write, dot, left);
        Ok(PutAnswer {
            dot,
            place: self.journal.append(entry),
            was,
        })
    }

    /// As [`put`](Vnode::put), of parts that are lent, and copied.
    pub fn put_lent(
        &mut self,
        stamp: u64,
        key: &Key,
        seen: &Clock,
        content: &Content,
    ) -> Result<PutAnswer, VnodeFault>
        ensures dot { IfOk result (λ put. IsNextDot self.old.entries key.now self.old.vnode put.dot) }
        ensures place { IfOk result (λ put. put.place ≡ length self.old.entries) }
        ensures was { IfOk result (λ put. IsReplay self.old.entries key.now put.was) }
        ensures entry { IfOk result (λ put. self.new ≡ with_entry self.old (Put stamp key.now seen.now content.now put.dot)) }
        ensures accepts { OnOk result (AcceptsPut self.old.vnode self.old.entries key.now seen.now) }

        // Want of memory is told only where no limit is passed.
        ensures why { IfErr result (RefusesPut self.old key.now seen.now) }
        ensures exact { (fault : VnodeFault) → fault ≢ VnodeFault.NoMemory → RefusesPut self.old key.now seen.now fault → result ≡ Err fault }
        ensures err { OnErr result (self.new ≡ self.old) }
        ensures legal { IsJournal self.new.vnode self.new.entries }
    {
        match write_of(self.alloc, key, seen, content) {
            Ok(write) => self.put(stamp, write),
            Err(_) => Err(self.put_refusal(key, seen)),
        }
    }

    // Why a put is refused that finds no memory.
    fn put_refusal(&self, key: &Key, seen: &Clock) -> VnodeFault
        ensures why { RefusesPut self.now key.now seen.now result }
        ensures exact { (fault : VnodeFault) → RefusesPut self.now key.now seen.now fault → result ≡ fault }
        ensures legal { IsJournal self.now.vnode self.now.entries }
    {
        put_refusal_at(self.alloc, &self.states, &self.journal, key, seen)
    }

    /// Merges the state that the vnode `from` answered at place `at` of its journal. The entry takes the parts over. Memory is asked for
    /// nothing but what the vnode itself keeps.
    pub fn merge(&mut self, stamp: u64, merged: Box<Merged>) -> Result<MergeAnswer, VnodeFault>
        ensures changed { IfOk result (λ merge. TellsChange self.old.entries (Merge stamp merged.value.key merged.value.from merged.value.at merged.value.state) merged.value.key merge.changed) }
        ensures place { IfOk result (λ merge. merge.place ≡ length self.old.entries) }
        ensures was { IfOk result (λ merge. IsReplay self.old.entries merged.value.key merge.was) }
        ensures entry { OnOk result (self.new ≡ with_entry self.old (Merge stamp merged.value.key merged.value.from merged.value.at merged.value.state)) }
        ensures accepts { OnOk result (AcceptsMerge self.old.entries merged.value.key merged.value.state) }

        ensures why { IfErr result (RefusesMerge self.old merged.value.key merged.value.state) }
        ensures exact { (fault : VnodeFault) → fault ≢ VnodeFault.NoMemory → RefusesMerge self.old merged.value.key merged.value.state fault → result ≡ Err fault }
        ensures err { OnErr result (self.new ≡ self.old) }
        ensures legal { IsJournal self.new.vnode self.new.entries }
    {
        match self.merge_brought(stamp, merged, None) {
            Ok(merge) => Ok(merge),
            Err(PartFault::Refused(fault)) => Err(fault),
            // Nothing was left out of a whole state.
            Err(PartFault::Missing) => unreachable!(),
        }
    }

    // Merges what came: the state that `merged` has, or a part in its place, for which it takes the whole one over.
    fn merge_brought(
        &mut self,
        stamp: u64,
        mut merged: Box<Merged>,
        part: Option<PreparedPart<'_>>,
    ) -> Result<MergeAnswer, PartFault>
        ensures held { OnOk result (Leaves self.old.entries merged.value.key (λ own. lacks_of part.entry own ≡ false)) }
        ensures changed { IfOk result (λ merge. Leaves self.old.entries merged.value.key (λ own. TellsChange self.old.entries (Merge stamp merged.value.key merged.value.from merged.value.at (brought part.entry merged.value.state own)) merged.value.key merge.changed)) }
        ensures place { IfOk result (λ merge. merge.place ≡ length self.old.entries) }
        ensures was { IfOk result (λ merge. IsReplay self.old.entries merged.value.key merge.was) }
        ensures entry { OnOk result (Leaves self.old.entries merged.value.key (λ own. self.new ≡ with_entry self.old (Merge stamp merged.value.key merged.value.from merged.value.at (brought part.entry merged.value.state own)))) }
        ensures accepts { OnOk result (Leaves self.old.entries merged.value.key (λ own. AcceptsMerge self.old.entries merged.value.key (brought part.entry merged.value.state own))) }

        ensures why { IfErr result (RefusesBrought self.old merged.value.key part.entry merged.value.state) }
        ensures exact { (fault : PartFault) → fault ≢ PartFault.Refused VnodeFault.NoMemory → RefusesBrought self.old merged.value.key part.entry merged.value.state fault → result ≡ Err fault }
        ensures err { OnErr result (self.new ≡ self.old) }
        ensures legal { IsJournal self.new.vnode self.new.entries }
    {
        let Merged { key, state, .. } = &mut *merged;
        let (changed, was) = merge_at(
            self.alloc,
            &mut self.states,
            &mut self.journal,
            key,
            state,
            part,
        )?;
        Ok(MergeAnswer {
            changed,
            place: self.journal.append(Entry::merge(stamp, merged)),
            was,
        })
    }

    /// As [`merge`](Vnode::merge), of parts that are lent, and copied.
    pub fn merge_lent(
        &mut self,
        stamp: u64,
        key: &Key,
        from: u32,
        at: u64,
        state: &KeyState,
    ) -> Result<MergeAnswer, VnodeFault>
        ensures changed { IfOk result (λ merge. TellsChange self.old.entries (Merge stamp key.now from at state.now) key.now merge.changed) }
        ensures place { IfOk result (λ merge. merge.place ≡ length self.old.entries) }
        ensures was { IfOk result (λ merge. IsReplay self.old.entries key.now merge.was) }
        ensures entry { OnOk result (self.new ≡ with_entry self.old (Merge stamp key.now from at state.now)) }
        ensures accepts { OnOk result (AcceptsMerge self.old.entries key.now state.now) }

        // Want of memory is told only where no limit is passed.
        ensures why { IfErr result (RefusesMerge self.old key.now state.now) }
        ensures exact { (fault : VnodeFault) → fault ≢ VnodeFault.NoMemory → RefusesMerge self.old key.now state.now fault → result ≡ Err fault }
        ensures err { OnErr result (self.new ≡ self.old) }
        ensures legal { IsJournal self.new.vnode self.new.entries }
    {
        match merged_of(self.alloc, key, from, at, state) {
            Ok(merged) => self.merge(stamp, merged),
            Err(_) => Err(self.merge_refusal(key, state)),
        }
    }

    // Why a merge is refused that finds no memory.
    fn merge_refusal(&self, key: &Key, state: &KeyState) -> VnodeFault
        ensures why { RefusesMerge self.now key.now state.now result }
        ensures exact { (fault : VnodeFault) → RefusesMerge self.now key.now state.now fault → result ≡ fault }
        ensures legal { IsJournal self.now.vnode self.now.entries }
    {
        merge_refusal_at(self.alloc, &self.states, &self.journal, key, state)
    }

    /// Copies the state of a key. Answers it, and the place of the entry.
    pub fn read(&mut self, stamp: u64, key: &Key) -> Result<(KeyState, u64), VnodeFault>
        ensures state { IfOk result (λ read. IsReplay self.old.entries key.now read.0) }
        ensures place { IfOk result (λ read. read.1 ≡ length self.old.entries) }
        ensures entry { OnOk result (self.new ≡ with_entry self.old (Read stamp key.now)) }
        ensures accepts { OnOk result (TakesEntry self.old.entries) }

        ensures why { IfErr result (RefusesEntry self.old) }
        ensures exact { (fault : VnodeFault) → fault ≢ VnodeFault.NoMemory → RefusesEntry self.old fault → result ≡ Err fault }
        ensures err { OnErr result (self.new ≡ self.old) }
        ensures legal { IsJournal self.new.vnode self.new.entries }
    {
        self.journal.reserve()?;
        let (own, state) = copies_at(self.alloc, &self.states, key)?;
        let place = self.journal.append(Entry::read(stamp, own));
        Ok((state, place))
    }

    /// Writes down that a key was read, where nobody waits for what it answers: nothing is looked up. The entry takes the key over. Answers
    /// the place of the entry.
    pub fn note_read(&mut self, stamp: u64, key: Key) -> Result<u64, VnodeFault>
        ensures state { (state : State) × IsReplay self.old.entries key state }
        ensures place { IfOk result (λ place. place ≡ length self.old.entries) }
        ensures entry { OnOk result (self.new ≡ with_entry self.old (Read stamp key)) }
        ensures accepts { OnOk result (TakesEntry self.old.entries) }

        ensures why { IfErr result (RefusesEntry self.old) }
        ensures exact { (fault : VnodeFault) → fault ≢ VnodeFault.NoMemory → RefusesEntry self.old fault → result ≡ Err fault }
        ensures err { OnErr result (self.new ≡ self.old) }
        ensures legal { IsJournal self.new.vnode self.new.entries }
    {
        self.journal.reserve()?;
        Ok(self.journal.append(Entry::read(stamp, key)))
    }

    /// Whether a state is that of a key. It is no event: nothing is written down.
    pub fn holds(&self, key: &Key, state: &KeyState) -> bool
        ensures { IsTrue result ↔ IsReplay self.now.entries key.now state.now }
    {
        is_at(self.alloc, &self.states, key, state)
    }

    /// The summary of what is held under a key. Answers it, and the place of the entry: it is a read of the key.
    pub fn summary(&mut self, stamp: u64, key: &Key) -> Result<(Summary, u64), VnodeFault>
        ensures summary { IfOk result (λ read. Leaves self.old.entries key.now (λ state. read.0 ≡ summary_of state)) }
        ensures place { IfOk result (λ read. read.1 ≡ length self.old.entries) }
        ensures entry { OnOk result (self.new ≡ with_entry self.old (Read stamp key.now)) }
        ensures accepts { OnOk result (TakesEntry self.old.entries) }

        ensures why { IfErr result (RefusesEntry self.old) }
        ensures exact { (fault : VnodeFault) → fault ≢ VnodeFault.NoMemory → RefusesEntry self.old fault → result ≡ Err fault }
        ensures err { OnErr result (self.new ≡ self.old) }
        ensures legal { IsJournal self.new.vnode self.new.entries }
    {
        self.journal.reserve()?;
        let (own, summary) = summary_at(self.alloc, &self.states, key)?;
        let place = self.journal.append(Entry::read(stamp, own));
        Ok((summary, place))
    }

    /// Merges a part of the state that the vnode `from` answered at place `at` of its journal: a content that was left out is the own
    /// one under its dot. The entry takes `merged` over, whose state becomes the whole one. Memory is asked for nothing but what the
    /// vnode itself keeps.
    pub fn merge_part(
        &mut self,
        stamp: u64,
        merged: Box<Merged>,
        part: PreparedPart<'_>,
    ) -> Result<MergeAnswer, PartFault>
        ensures held { OnOk result (Leaves self.old.entries merged.value.key (λ own. lacks_some own part.entry ≡ false)) }
        ensures changed { IfOk result (λ merge. Leaves self.old.entries merged.value.key (λ own. TellsChange self.old.entries (Merge stamp merged.value.key merged.value.from merged.value.at (whole_of part.entry own)) merged.value.key merge.changed)) }
        ensures place { IfOk result (λ merge. merge.place ≡ length self.old.entries) }
        ensures was { IfOk result (λ merge. IsReplay self.old.entries merged.value.key merge.was) }
        ensures entry { OnOk result (Leaves self.old.entries merged.value.key (λ own. self.new ≡ with_entry self.old (Merge stamp merged.value.key merged.value.from merged.value.at (whole_of part.entry own)))) }
        ensures accepts { OnOk result (Leaves self.old.entries merged.value.key (λ own. AcceptsMerge self.old.entries merged.value.key (whole_of part.entry own))) }

        ensures why { IfErr result (RefusesPart self.old merged.value.key part.entry) }
        ensures exact { (fault : PartFault) → fault ≢ PartFault.Refused VnodeFault.NoMemory → RefusesPart self.old merged.value.key part.entry fault → result ≡ Err fault }
        ensures err { OnErr result (self.new ≡ self.old) }
        ensures legal { IsJournal self.new.vnode self.new.entries }
    {
        self.merge_brought(stamp, merged, Some(part))
    }

    /// As [`merge_part`](Vnode::merge_part), of a key and a part that are lent: the key is copied, and the entry holds the whole state.
    pub fn merge_part_lent(
        &mut self,
        stamp: u64,
        key: &Key,
        from: u32,
        at: u64,
        part: &Part,
    ) -> Result<MergeAnswer, PartFault>
        ensures held { OnOk result (Leaves self.old.entries key.now (λ own. lacks_some own part.now ≡ false)) }
        ensures changed { IfOk result (λ merge. Leaves self.old.entries key.now (λ own. TellsChange self.old.entries (Merge stamp key.now from at (whole_of part.now own)) key.now merge.changed)) }
        ensures place { IfOk result (λ merge. merge.place ≡ length self.old.entries) }
        ensures was { IfOk result (λ merge. IsReplay self.old.entries key.now merge.was) }
        ensures entry { OnOk result (Leaves self.old.entries key.now (λ own. self.new ≡ with_entry self.old (Merge stamp key.now from at (whole_of part.now own)))) }
        ensures accepts { OnOk result (Leaves self.old.entries key.now (λ own. AcceptsMerge self.old.entries key.now (whole_of part.now own))) }

        // Want of memory is told only where nothing is lacking and no limit is passed.
        ensures why { IfErr result (RefusesPart self.old key.now part.now) }
        ensures exact { (fault : PartFault) → fault ≢ PartFault.Refused VnodeFault.NoMemory → RefusesPart self.old key.now part.now fault → result ≡ Err fault }
        ensures err { OnErr result (self.new ≡ self.old) }
        ensures legal { IsJournal self.new.vnode self.new.entries }
    {
        match merged_part_of(self.alloc, key, from, at, part) {
            Ok((merged, prepared)) => self.merge_part(stamp, merged, prepared),
            Err(_) => Err(self.part_refusal(key, part)),
        }
    }

    // Why a part is refused that lacks a content or finds no memory.
    fn part_refusal(&self, key: &Key, part: &Part) -> PartFault
        ensures why { RefusesPart self.now key.now part.now result }
        ensures exact { (fault : PartFault) → RefusesPart self.now key.now part.now fault → result ≡ fault }
        ensures legal { IsJournal self.now.vnode self.now.entries }
    {
        part_refusal_at(self.alloc, &self.states, &self.journal, key, part)
    }

    /// Whether the journal has places for a read of each key at which something is known.
    pub fn can_read_all(&self) -> bool
        ensures { (keys : List Key) × AreKeys self.now keys × (IsTrue result ↔ (length self.now.entries + length keys ≤ max_entries)) }
    {
        has_places_for(&self.journal, &self.states)
    }

    /// Copies the state of each key at which something is known, in the order of bytes of the keys. Answers them, and the place of the
    /// first entry: each copy has one, with stamps in a row. Where one is refused there is none of them.
    pub fn read_all(&mut self, stamp: u64) -> Result<(Vec<Copied>, usize), VnodeFault>
        requires { stamp + max_entries ≤ 2 ^ 64 }
        ensures keys { IfOk result (λ read. AreKeys self.old (keys_of read.0.items)) }
        ensures states { IfOk result (λ read. All (λ c. IsReplay self.old.entries c.key c.state) read.0.items) }
        ensures place { IfOk result (λ read. read.1 ≡ length self.old.entries) }
        ensures entries { IfOk result (λ read. self.new ≡ with_entries self.old (reads_of stamp (keys_of read.0.items))) }
        ensures places { IfOk result (λ read. length self.old.entries + length (keys_of read.0.items) ≤ max_entries) }

        // Want of memory is told only where the journal has places for all of them.
        ensures full { (keys : List Key) × AreKeys self.old keys × (result ≡ Err VnodeFault.JournalFull ↔ (max_entries < length self.old.entries + length keys)) }
        ensures why { IfErr result (λ fault. (fault ≡ VnodeFault.JournalFull) ⊎ (fault ≡ VnodeFault.NoMemory)) }
        ensures err { OnErr result (self.new ≡ self.old) }
        ensures legal { IsJournal self.new.vnode self.new.entries }
    {
        read_all_at(self.alloc, &self.states, &mut self.journal, stamp)
    }

    /// Copies of the keys at which something is known, in the order of bytes, and of their states. It is no event: no entry says that they
    /// were read. Memory alone may be refused.
    pub fn copies(&self) -> Result<Vec<Copied>, AllocError>
        ensures keys { IfOk result (λ copies. AreKeys self.now (keys_of copies.items)) }
        ensures states { IfOk result (λ copies. All (λ c. IsReplay self.now.entries c.key c.state) copies.items) }
    {
        all_copies_in(self.alloc, &self.states)
    }

    /// Starts again. Nothing is lost. Answers the place of the entry.
    pub fn restart(&mut self, stamp: u64) -> Result<u64, VnodeFault>
        ensures place { IfOk result (λ place. place ≡ length self.old.entries) }
        ensures entry { OnOk result (self.new ≡ with_entry self.old (Restart stamp)) }
        ensures accepts { OnOk result (TakesEntry self.old.entries) }

        ensures why { IfErr result (RefusesEntry self.old) }
        ensures exact { (fault : VnodeFault) → fault ≢ VnodeFault.NoMemory → RefusesEntry self.old fault → result ≡ Err fault }
        ensures err { OnErr result (self.new ≡ self.old) }
        ensures legal { IsJournal self.new.vnode self.new.entries }
    {
        self.journal.reserve()?;
        Ok(self.journal.append(Entry::restart(stamp)))
    }

    /// Hands out the full blocks of the journal that are still here, and shows to clauses the journal as that leaves it: at most a block of
    /// its entries is here. Nothing else changes: the vnode answers as before. An empty block with memory is taken over where the journal
    /// has none, so that the next time that one is full no memory is asked for.
    pub fn settle(&mut self, next: &mut Vec<Entry>) -> (Handout, Snapshot<Journal>)
        requires empty { next.old.items ≡ [] }
        ensures empty { next.new.items ≡ [] }
        ensures same { self.new ≡ self.old }
        ensures out { AreHandedOut self.old.entries result.0.first result.0.blocks.items }
        ensures journal { result.1.value.log ≡ self.old }
        // The journal goes on behind what was handed out, and little is left in it.
        ensures next { result.1.value.first ≡ result.0.first + length (all_of result.0.blocks.items) }
        ensures rest { length self.old.entries ≤ result.1.value.first + 1024 }
    {
        let handout = self.journal.settle(next);
        (handout, Snapshot::of(&self.journal))
    }

    /// Has the look-ups to come begin by that hash: at vnodes of one seed a key's hash is made once. It is no event.
    pub fn expect(&mut self, hint: &Hint)
        ensures { self.new ≡ self.old }
    {
        self.states.expect(hint);
    }

    /// The place of a key on a ring of three vnodes, where [`Vnode::learn_ring_place`] was told it. The look-up begins by what is
    /// remembered of the key, and where it lies here is remembered from then on. It is no event.
    pub fn ring_place(&self, hint: &mut Hint, key: &Key) -> Option<u32>
        ensures { IfSome result (λ told. told ≡ ring_place key.now.bucket key.now.key) }
    {
        self.states.ring_place(hint, key)
    }

    /// Keeps the place of a key on a ring of three vnodes, where it has a state of the key and there is memory, so that who
    /// asks for it needs no digest. It is no event.
    pub fn learn_ring_place(&mut self, key: &Key, told: u32)
        requires { told ≡ ring_place key.now.bucket key.now.key }
        ensures { self.new ≡ self.old }
    {
        self.states.learn_ring_place(key, told);
    }

    /// Where the first full block of its keys lies that it hasn't compared with another vnode's.
    pub fn uncompared(&self) -> Option<BlockSpot> {
        self.states.uncompared()
    }

    /// A full block of its keys, shared. None where it has none there, or its owners can't be counted further.
    pub fn key_block(&self, at: BlockSpot) -> Option<KeyBlock> {
        self.states.key_block(at)
    }

    /// Takes the memory of another vnode's block of keys in place of that of its own one there, where both have the same
    /// keys in the same order: so two vnodes of one seed at which the same happened hold their lists of keys once.
    pub fn share_keys(&mut self, at: BlockSpot, block: KeyBlock)
        ensures { self.new ≡ self.old }
    {
        self.states.share_keys(at, block);
    }
}
