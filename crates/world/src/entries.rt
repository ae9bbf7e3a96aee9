//! Entries of vnodes' journals: one more at a vnode of a run, or one for each of its keys.

ghost use Rattle.std.specs.Prelude.{◌≡◌, ◌↔◌, ◌<◌, ◌≤◌, ◌^◌, ◌+◌, ◌⊎◌, List, [], ◌++◌, length, slice_set, slice_index_or, IfOk, IfErr, OnOk, OnErr};
ghost use Rattle.key_state.specs.declared.content.Key.{Key as StoredKey};
ghost use Rattle.journal.specs.Entry.{Put, Merge, Read, Restart};
ghost use Rattle.journal.specs.Logs.{max_entries};
ghost use Rattle.journal.specs.Replay.{IsReplay, Leaves};
ghost use Rattle.journal.specs.Answers.{TellsChange};
ghost use Rattle.world.specs.Represents.{log_at};
ghost use Rattle.vnode.specs.Refusals.{RefusesPut, RefusesMerge, RefusesEntry};
ghost use Rattle.world.specs.Appending.{Appends, IsCopyOf, MergesPart, CopiesAll};
ghost use Rattle.vnode.specs.Keys.{AreKeys};
ghost use Rattle.key_state.specs.State.{State};
ghost use Rattle.key_state.specs.Parts.{summary_of};
ghost use Rattle.vnode.specs.Parts.{RefusesPart};
ghost use Rattle.world.specs.Stamped.{AreStamped};
ghost use Rattle.world.specs.Sources.{GoOn, sources_of, sources_told};

use crate::event::{Copies, Message, PartMessage, Reply};
use crate::run::Run;
use dvv::{Clock, Dot};
use key_state::{Content, Key, KeyState, Summary};
use vnode::{PartFault, Vnode, VnodeFault};

impl Run {
    /// Puts at a vnode. The entry's stamp is the number of entries made so far; so it is below.
    pub(crate) fn put_at(
        &mut self,
        at: usize,
        key: &Key,
        seen: &Clock,
        content: &Content,
    ) -> Result<Dot, VnodeFault>
        requires inside { at < length self.old.vnodes.items }
        requires room { self.old.made + 1 < 2 ^ 64 }
        ensures stored { IfOk result (λ dot. Appends self.old.vnodes.items self.new.vnodes.items at (Put self.old.made key.now seen.now content.now dot)) }
        ensures refused { IfErr result (RefusesPut (log_at self.old.vnodes.items at) key.now seen.now) }
        ensures err { OnErr result (self.new.vnodes.items ≡ self.old.vnodes.items) }
        ensures goes { GoOn self.old.vnodes.items self.new.vnodes.items (sources_of self.old.vnodes.items) }
        ensures stamps { AreStamped self.old.vnodes.items self.old.made → AreStamped self.new.vnodes.items self.new.made }
        ensures few { self.new.made ≤ self.old.made + 1 }
    {
        let vnode = &mut self.vnodes[at];
        match vnode.put_lent(self.made, key, seen, content) {
            Ok(put) => {
                self.made += 1;
                Ok(put.dot)
            }
            Err(fault) => Err(fault),
        }
    }

    /// Merges a message at a vnode.
    pub(crate) fn merge_at(&mut self, at: usize, message: &Message) -> Result<bool, VnodeFault>
        requires inside { at < length self.old.vnodes.items }
        requires room { self.old.made + 1 < 2 ^ 64 }
        ensures merged { OnOk result (Appends self.old.vnodes.items self.new.vnodes.items at (Merge self.old.made message.now.key message.now.from message.now.at message.now.state)) }
        ensures changed { IfOk result (λ changed. TellsChange (log_at self.old.vnodes.items at).entries (Merge self.old.made message.now.key message.now.from message.now.at message.now.state) message.now.key changed) }
        ensures refused { IfErr result (RefusesMerge (log_at self.old.vnodes.items at) message.now.key message.now.state) }
        ensures err { OnErr result (self.new.vnodes.items ≡ self.old.vnodes.items) }
        ensures goes { OnOk result (GoOn self.old.vnodes.items self.new.vnodes.items (slice_set (sources_of self.old.vnodes.items) at (slice_index_or (sources_of self.old.vnodes.items) at [] ++ sources_told (Reply.Sent message.now)))) }
        ensures stamps { AreStamped self.old.vnodes.items self.old.made → AreStamped self.new.vnodes.items self.new.made }
        ensures few { self.new.made ≤ self.old.made + 1 }
    {
        let vnode = &mut self.vnodes[at];
        match vnode.merge_lent(
            self.made,
            &message.key,
            message.from,
            message.at,
            &message.state,
        ) {
            Ok(merge) => {
                self.made += 1;
                Ok(merge.changed)
            }
            Err(fault) => Err(fault),
        }
    }

    /// Merges a part at a vnode.
    pub(crate) fn merge_part_at(
        &mut self,
        at: usize,
        message: &PartMessage,
    ) -> Result<bool, PartFault>
        requires inside { at < length self.old.vnodes.items }
        requires room { self.old.made + 1 < 2 ^ 64 }
        ensures merged { IfOk result (λ changed. (own : State) × MergesPart self.old.vnodes.items self.new.vnodes.items at self.old.made message.now changed own) }
        ensures refused { IfErr result (RefusesPart (log_at self.old.vnodes.items at) message.now.key message.now.part) }
        ensures err { OnErr result (self.new.vnodes.items ≡ self.old.vnodes.items) }
        ensures goes { OnOk result (GoOn self.old.vnodes.items self.new.vnodes.items (slice_set (sources_of self.old.vnodes.items) at (slice_index_or (sources_of self.old.vnodes.items) at [] ++ sources_told (Reply.SentPart message.now)))) }
        ensures stamps { AreStamped self.old.vnodes.items self.old.made → AreStamped self.new.vnodes.items self.new.made }
        ensures few { self.new.made ≤ self.old.made + 1 }
    {
        let vnode = &mut self.vnodes[at];
        match vnode.merge_part_lent(
            self.made,
            &message.key,
            message.from,
            message.at,
            &message.part,
        ) {
            Ok(merge) => {
                self.made += 1;
                Ok(merge.changed)
            }
            Err(fault) => Err(fault),
        }
    }

    /// Reads a key at a vnode. The place of the entry is that of the answer.
    pub(crate) fn read_at(&mut self, at: usize, key: &Key) -> Result<(KeyState, u64), VnodeFault>
        requires inside { at < length self.old.vnodes.items }
        requires room { self.old.made + 1 < 2 ^ 64 }
        ensures read { OnOk result (Appends self.old.vnodes.items self.new.vnodes.items at (Read self.old.made key.now)) }
        ensures state { IfOk result (λ found. IsReplay (log_at self.old.vnodes.items at).entries key.now found.0) }
        ensures place { IfOk result (λ found. found.1 ≡ length (log_at self.old.vnodes.items at).entries) }
        ensures refused { IfErr result (RefusesEntry (log_at self.old.vnodes.items at)) }
        ensures err { OnErr result (self.new.vnodes.items ≡ self.old.vnodes.items) }
        ensures goes { GoOn self.old.vnodes.items self.new.vnodes.items (sources_of self.old.vnodes.items) }
        ensures stamps { AreStamped self.old.vnodes.items self.old.made → AreStamped self.new.vnodes.items self.new.made }
        ensures few { self.new.made ≤ self.old.made + 1 }
    {
        let vnode = &mut self.vnodes[at];
        match vnode.read(self.made, key) {
            Ok(found) => {
                self.made += 1;
                Ok(found)
            }
            Err(fault) => Err(fault),
        }
    }

    /// Reads the summary of a key at a vnode.
    pub(crate) fn summary_at(&mut self, at: usize, key: &Key) -> Result<Summary, VnodeFault>
        requires inside { at < length self.old.vnodes.items }
        requires room { self.old.made + 1 < 2 ^ 64 }
        ensures read { OnOk result (Appends self.old.vnodes.items self.new.vnodes.items at (Read self.old.made key.now)) }
        ensures summary { IfOk result (λ summary. Leaves (log_at self.old.vnodes.items at).entries key.now (λ state. summary ≡ summary_of state)) }
        ensures refused { IfErr result (RefusesEntry (log_at self.old.vnodes.items at)) }
        ensures err { OnErr result (self.new.vnodes.items ≡ self.old.vnodes.items) }
        ensures goes { GoOn self.old.vnodes.items self.new.vnodes.items (sources_of self.old.vnodes.items) }
        ensures stamps { AreStamped self.old.vnodes.items self.old.made → AreStamped self.new.vnodes.items self.new.made }
        ensures few { self.new.made ≤ self.old.made + 1 }
    {
        let vnode = &mut self.vnodes[at];
        match vnode.summary(self.made, key) {
            Ok((summary, _)) => {
                self.made += 1;
                Ok(summary)
            }
            Err(fault) => Err(fault),
        }
    }

    /// Starts a vnode again.
    pub(crate) fn restart_at(&mut self, at: usize) -> Result<(), VnodeFault>
        requires inside { at < length self.old.vnodes.items }
        requires room { self.old.made + 1 < 2 ^ 64 }
        ensures restarted { OnOk result (Appends self.old.vnodes.items self.new.vnodes.items at (Restart self.old.made)) }
        ensures refused { IfErr result (RefusesEntry (log_at self.old.vnodes.items at)) }
        ensures err { OnErr result (self.new.vnodes.items ≡ self.old.vnodes.items) }
        ensures goes { GoOn self.old.vnodes.items self.new.vnodes.items (sources_of self.old.vnodes.items) }
        ensures stamps { AreStamped self.old.vnodes.items self.old.made → AreStamped self.new.vnodes.items self.new.made }
        ensures few { self.new.made ≤ self.old.made + 1 }
    {
        let vnode = &mut self.vnodes[at];
        match vnode.restart(self.made) {
            Ok(_) => {
                self.made += 1;
                Ok(())
            }
            Err(fault) => Err(fault),
        }
    }

    /// Reads a key at a vnode, as a message.
    pub(crate) fn message_at(&mut self, at: usize, key: &Key) -> Result<Message, VnodeFault>
        requires inside { at < length self.old.vnodes.items }
        requires room { self.old.made + 1 < 2 ^ 64 }
        ensures read { OnOk result (Appends self.old.vnodes.items self.new.vnodes.items at (Read self.old.made key.now)) }
        ensures copy { IfOk result (λ message. IsCopyOf (log_at self.old.vnodes.items at) key.now message) }
        ensures refused { IfErr result (RefusesEntry (log_at self.old.vnodes.items at)) }
        ensures err { OnErr result (self.new.vnodes.items ≡ self.old.vnodes.items) }
        ensures goes { GoOn self.old.vnodes.items self.new.vnodes.items (sources_of self.old.vnodes.items) }
        ensures stamps { AreStamped self.old.vnodes.items self.old.made → AreStamped self.new.vnodes.items self.new.made }
        ensures few { self.new.made ≤ self.old.made + 1 }
    {
        let Ok(copy) = key.copy() else {
            return Err(want_of_memory(&self.vnodes[at]));
        };
        let from = self.vnodes[at].id();
        match self.read_at(at, key) {
            Ok((state, place)) => Ok(Message {
                key: copy,
                from,
                at: place,
                state,
            }),
            Err(refusal) => Err(refusal),
        }
    }

    /// Reads each key at a vnode. The stamps of the entries are the numbers from those made so far on.
    pub(crate) fn dump_at(&mut self, at: usize) -> Result<Copies, VnodeFault>
        requires inside { at < length self.old.vnodes.items }
        requires room { self.old.made ≤ 2 ^ 62 }
        ensures copied { IfOk result (λ copies. CopiesAll self.old.vnodes.items self.new.vnodes.items at self.old.made copies) }
        ensures full { IfErr result (λ fault. (keys : List StoredKey) × AreKeys (log_at self.old.vnodes.items at) keys × (fault ≡ VnodeFault.JournalFull ↔ (max_entries < length (log_at self.old.vnodes.items at).entries + length keys))) }
        ensures why { IfErr result (λ fault. (fault ≡ VnodeFault.JournalFull) ⊎ (fault ≡ VnodeFault.NoMemory)) }
        ensures err { OnErr result (self.new.vnodes.items ≡ self.old.vnodes.items) }
        ensures goes { GoOn self.old.vnodes.items self.new.vnodes.items (sources_of self.old.vnodes.items) }
        ensures stamps { AreStamped self.old.vnodes.items self.old.made → AreStamped self.new.vnodes.items self.new.made }
        ensures few { self.new.made ≤ 2 ^ 63 }
    {
        let vnode = &mut self.vnodes[at];
        let from = vnode.id();
        match vnode.read_all(self.made) {
            Ok((held, first)) => {
                self.made += held.len() as u64;
                Ok(Copies { from, first, held })
            }
            Err(fault) => Err(fault),
        }
    }
}

// Want of memory for an entry at a vnode; a full journal is told before it.
fn want_of_memory(vnode: &Vnode) -> VnodeFault
    ensures { RefusesEntry vnode.now result }
{
    if vnode.journal().is_full() {
        VnodeFault::JournalFull
    } else {
        VnodeFault::NoMemory
    }
}

/// Want of memory for a dump of a vnode; a journal that has no places for it is told before.
pub(crate) fn no_memory_for_all(vnode: &Vnode) -> VnodeFault
    ensures why { (result ≡ VnodeFault.JournalFull) ⊎ (result ≡ VnodeFault.NoMemory) }
    ensures full { (keys : List StoredKey) × AreKeys vnode.now keys × (result ≡ VnodeFault.JournalFull ↔ (max_entries < length vnode.now.entries + length keys)) }
{
    if vnode.can_read_all() {
        VnodeFault::NoMemory
    } else {
        VnodeFault::JournalFull
    }
}
