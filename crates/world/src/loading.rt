//! Loads: an index goes on under another identifier, with what a dump copied.

ghost use Rattle.bpf_helpers.specs.declared.sig.Entry.{Entry as Helper};
ghost use Rattle.std.specs.Prelude.{◌≡◌, ◌<◌, ◌≤◌, ◌^◌, ◌+◌, ◌⊎◌, List, length, slice_index_or, IfOk, IfErr, OnOk, OnErr};
ghost use Rattle.journal.specs.Entry.{Merge};
ghost use Rattle.world.specs.declared.event.Event.TheVariants as event;
ghost use Rattle.journal.specs.Logs.{with_entry, max_entries};
ghost use Rattle.std.specs.List.Sorted.{IsStrictlySortedBy};
ghost use Rattle.journal.specs.Keys.{key_cmp};
ghost use Rattle.vnode.specs.States.{keys_of};
ghost use Rattle.journal.specs.Replay.{IsReplay};
ghost use Rattle.journal.specs.Journals.{IsJournal};
ghost use Rattle.world.specs.Knowledge.{Knowledge, id_under};
ghost use Rattle.world.specs.Happening.{Happens, IsNewId};
ghost use Rattle.world.specs.Represents.{Represents};
ghost use Rattle.world.specs.Appending.{AreCopies, LoadsAll, merges_of_copies};
ghost use Rattle.key_state.specs.State.{empty};
ghost use Rattle.journal.specs.Limits.{TakesEntry};
ghost use Rattle.world.specs.Stamped.{AreStamped};
ghost use Rattle.world.specs.Running.{Remember, ReplyAt, IsDumpedOrRefused};
ghost use Rattle.world.specs.Sources.{GoOn, sources_of, sources_told, sources_loaded};

use crate::event::{Copies, Reply};
use crate::limits::MAX_ENTRIES_MADE;
use crate::run::{Run, identifier};
use crate::turn::Turn;
use std::alloc::Global;
use std::mem;
use vnode::{Copied, Vnode, VnodeFault};

impl Run {
    /// A load, and its reply. A dump passes no limit of a journal that has nothing, since each of its keys stands once.
    pub(crate) fn load(
        &mut self,
        turn: Turn<'_>,
        dump: usize,
        vnode: usize,
        incarnation: u16,
    ) -> Reply
        requires inside { vnode < length self.old.vnodes.items }
        requires index { vnode < 65536 }
        requires dumped { ReplyAt turn.replies.now dump IsDumpedOrRefused }
        ensures step { (listed : List Helper) (old : Knowledge) → Represents self.old.vnodes.items old → length old.ids ≡ length self.old.vnodes.items → Remember turn.entry.replies.now old → IsNewId old (id_under incarnation vnode) → (new : Knowledge) × Happens listed old (event.Load dump vnode incarnation) result new × Represents self.new.vnodes.items new }
        ensures goes { GoOn self.old.vnodes.items self.new.vnodes.items (sources_loaded (sources_told (slice_index_or turn.entry.replies.now dump Reply.Nothing)) vnode result (sources_of self.old.vnodes.items)) }
        ensures more { length self.old.vnodes.items ≤ length self.new.vnodes.items }
        ensures stamps { AreStamped self.old.vnodes.items self.old.made → AreStamped self.new.vnodes.items self.new.made }
        ensures few { (self.new.made ≤ self.old.made + 1) ⊎ (self.new.made ≤ 2 ^ 63) }
    {
        let copies = match turn.copies_of(dump) {
            Ok(copies) => copies,
            Err(refusal) => return Reply::Refused(refusal),
        };
        if self.made > MAX_ENTRIES_MADE {
            return Reply::Refused(VnodeFault::NoMemory);
        }
        let id = identifier(incarnation, vnode);
        match self.load_at(turn.alloc, vnode, id, copies) {
            Ok(()) => Reply::Loaded(copies.held.len()),
            Err(refusal) => Reply::Refused(refusal),
        }
    }

    /// The index goes on under a new identifier with copies, and the vnode that it had stands behind the others. Only memory can lack.
    fn load_at(
        &mut self,
        alloc: Global,
        at: usize,
        id: u32,
        copies: &Copies,
    ) -> Result<(), VnodeFault>
        requires inside { at < length self.old.vnodes.items }
        requires are { AreCopies copies.now }
        requires room { self.old.made ≤ 2 ^ 62 }
        ensures loaded { OnOk result (LoadsAll self.old.vnodes.items self.new.vnodes.items at id self.old.made copies.now) }
        ensures why { IfErr result (λ fault. fault ≡ VnodeFault.NoMemory) }
        ensures err { OnErr result (self.new.vnodes.items ≡ self.old.vnodes.items) }
        ensures stamps { AreStamped self.old.vnodes.items self.old.made → AreStamped self.new.vnodes.items self.new.made }
        ensures few { self.new.made ≤ 2 ^ 63 }
    {
        self.vnodes.try_reserve(1)?;
        let fresh = loaded(
            alloc,
            self.made,
            id,
            copies.from,
            copies.first,
            &copies.held,
        )?;
        self.made += copies.held.len() as u64;
        let closed = mem::replace(&mut self.vnodes[at], fresh);
        self.vnodes.push_reserved(closed);
        Ok(())
    }
}

// A vnode of this identifier that has merged copies of rising keys, and at which nothing else happened. Only memory can lack.
fn loaded(
    alloc: Global,
    stamp: u64,
    id: u32,
    from: u32,
    first: usize,
    held: &[Copied],
) -> Result<Vnode, VnodeFault>
    requires rising { IsStrictlySortedBy key_cmp (keys_of held.now) }
    requires places { first + length held.now ≤ max_entries }
    requires room { stamp ≤ 2 ^ 62 }
    ensures vnode { IfOk result (λ vnode. vnode ≡ record { vnode = id; entries = merges_of_copies stamp from first held.now }) }
    ensures legal { IfOk result (λ vnode. IsJournal vnode.vnode vnode.entries) }
    ensures why { IfErr result (λ fault. fault ≡ VnodeFault.NoMemory) }
{
    let mut vnode = Vnode::new(alloc, id);
    for (index, one) in held.iter().enumerate() {
        let at = (first + index) as u64;
        merge_copy(&mut vnode, stamp + index as u64, from, at, one)?;
    }
    // What every journal keeps is told with it.
    let _journal = vnode.journal();
    Ok(vnode)
}

// Merges a copy at a vnode that knows nothing of its key: only memory can lack.
fn merge_copy(
    vnode: &mut Vnode,
    stamp: u64,
    from: u32,
    at: u64,
    one: &Copied,
) -> Result<(), VnodeFault>
    requires unknown { IsReplay vnode.old.entries one.now.key empty }
    requires place { TakesEntry vnode.old.entries }
    ensures merged { OnOk result (vnode.new ≡ with_entry vnode.old (Merge stamp one.now.key from at one.now.state)) }
    ensures why { IfErr result (λ fault. fault ≡ VnodeFault.NoMemory) }
    ensures legal { IsJournal vnode.new.vnode vnode.new.entries }
{
    // What every state keeps is told with its siblings.
    let _siblings = one.state.siblings();
    match vnode.merge_lent(stamp, &one.key, from, at, &one.state) {
        Ok(_merged) => Ok(()),
        Err(fault) => Err(fault),
    }
}
