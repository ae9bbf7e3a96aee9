//! An entry happens again.

ghost use Rattle.std.specs.Prelude.{◌≡◌, IfOk, OnOk, OnErr, Err};
ghost use Rattle.journal.specs.Entry.{Put, Merge, Read, Restart};
ghost use Rattle.journal.specs.Journals.{MayFollow};
ghost use Rattle.journal.specs.Logs.{with_entry};
ghost use Rattle.audit_replay.specs.Again.{Tells};
ghost use Rattle.audit_replay.specs.Followed.{IsToKeep};
ghost use Rattle.audit_replay.specs.Reran.{HasOneMore};

use crate::kept::Kept;
use dvv::Dot;
use journal::{BLOCK, Entry, Merged, Taken, Write};
use key_state::Key;
use std::alloc::{AllocError, Global};
use thiserror::Error;
use vnode::{Vnode, VnodeFault};

/// What an entry answers when it happens again.
#[derive(Drop)]
pub(crate) enum Again {
    /// A put its dot.
    Numbered(Dot),
    /// A merge whether siblings or clock of its key changed.
    Changed(bool),
    /// A read the state of its key, which isn't looked up here.
    Noted,
    /// A restart nothing.
    Done,
}

/// Why an entry doesn't happen again.
#[derive(Clone, Copy, Debug, PartialEq, Eq, Error)]
pub(crate) enum Refusal {
    /// It may not follow those before it: a limit would be passed, or a put's dot isn't the next one.
    #[error("illegal")]
    Illegal,
    /// A growth was refused.
    #[error("E1")]
    NoMemory,
}

impl From<VnodeFault> for Refusal {
    ghost use Rattle.std.specs.Prelude.{◌≡◌};
    ghost use Rattle.audit_replay.specs.Again.{refusal_of};

    ghost from_gives = { λ fault refusal. refusal ≡ refusal_of fault };

    fn from(fault: VnodeFault) -> Self {
        match fault {
            VnodeFault::NoMemory => Refusal::NoMemory,
            _ => Refusal::Illegal,
        }
    }
}

impl From<AllocError> for Refusal {
    ghost use Rattle.std.specs.Prelude.{◌≡◌};
    ghost use Rattle.audit_replay.specs.declared.again.Refusal.TheVariants.{NoMemory};

    ghost from_gives = { λ _ refusal. refusal ≡ NoMemory };

    fn from(_error: AllocError) -> Self {
        Refusal::NoMemory
    }
}

// A put happens again, and gets its dot. Where it leaves the state that it left before, it shares its memory.
fn put_again(
    vnode: &mut Vnode,
    stamp: u64,
    write: Box<Write>,
    dot: Dot,
) -> Result<(Again, Kept), Refusal>
    ensures legal { OnOk result (MayFollow vnode.old.vnode vnode.old.entries (Put stamp write.value.key write.value.seen write.value.content dot)) }
    ensures entry { OnOk result (vnode.new ≡ with_entry vnode.old (Put stamp write.value.key write.value.seen write.value.content dot)) }
    ensures answer { IfOk result (λ again. Tells vnode.old.vnode vnode.old.entries (Put stamp write.value.key write.value.seen write.value.content dot) again.0) }
    ensures kept { IfOk result (λ again. IsToKeep vnode.old.entries (Put stamp write.value.key write.value.seen write.value.content dot) again.1) }
    ensures illegal { result ≡ Err Refusal.Illegal → MayFollow vnode.old.vnode vnode.old.entries (Put stamp write.value.key write.value.seen write.value.content dot) → ⊥ }
    ensures id { vnode.new.vnode ≡ vnode.old.vnode }
    ensures stays { OnErr result (HasOneMore vnode.old vnode.new) }
{
    let key = write.key.copy()?;
    let put = vnode.put(stamp, write)?;
    if put.dot != dot {
        return Err(Refusal::Illegal);
    }
    Ok((Again::Numbered(put.dot), Kept::Was(key, put.was)))
}

// A merge happens again.
fn merge_again(vnode: &mut Vnode, stamp: u64, merged: Box<Merged>) -> Result<(Again, Kept), Refusal>
    ensures legal { OnOk result (MayFollow vnode.old.vnode vnode.old.entries (Merge stamp merged.value.key merged.value.from merged.value.at merged.value.state)) }
    ensures entry { OnOk result (vnode.new ≡ with_entry vnode.old (Merge stamp merged.value.key merged.value.from merged.value.at merged.value.state)) }
    ensures answer { IfOk result (λ again. Tells vnode.old.vnode vnode.old.entries (Merge stamp merged.value.key merged.value.from merged.value.at merged.value.state) again.0) }
    ensures kept { IfOk result (λ again. IsToKeep vnode.old.entries (Merge stamp merged.value.key merged.value.from merged.value.at merged.value.state) again.1) }
    ensures illegal { result ≡ Err Refusal.Illegal → MayFollow vnode.old.vnode vnode.old.entries (Merge stamp merged.value.key merged.value.from merged.value.at merged.value.state) → ⊥ }
    ensures id { vnode.new.vnode ≡ vnode.old.vnode }
    ensures err { OnErr result (vnode.new ≡ vnode.old) }
{
    let key = merged.key.copy()?;
    let merge = vnode.merge(stamp, merged)?;
    Ok((Again::Changed(merge.changed), Kept::Was(key, merge.was)))
}

// A read happens again. Nothing is looked up.
fn read_again(vnode: &mut Vnode, stamp: u64, key: Key) -> Result<(Again, Kept), Refusal>
    ensures legal { OnOk result (MayFollow vnode.old.vnode vnode.old.entries (Read stamp key)) }
    ensures entry { OnOk result (vnode.new ≡ with_entry vnode.old (Read stamp key)) }
    ensures answer { IfOk result (λ again. Tells vnode.old.vnode vnode.old.entries (Read stamp key) again.0) }
    ensures kept { IfOk result (λ again. IsToKeep vnode.old.entries (Read stamp key) again.1) }
    ensures illegal { result ≡ Err Refusal.Illegal → MayFollow vnode.old.vnode vnode.old.entries (Read stamp key) → ⊥ }
    ensures id { vnode.new.vnode ≡ vnode.old.vnode }
    ensures err { OnErr result (vnode.new ≡ vnode.old) }
{
    let own = key.copy()?;
    vnode.note_read(stamp, key)?;
    Ok((Again::Noted, Kept::Read(own)))
}

// A restart happens again.
fn restart_again(vnode: &mut Vnode, stamp: u64) -> Result<(Again, Kept), Refusal>
    ensures legal { OnOk result (MayFollow vnode.old.vnode vnode.old.entries (Restart stamp)) }
    ensures entry { OnOk result (vnode.new ≡ with_entry vnode.old (Restart stamp)) }
    ensures answer { IfOk result (λ again. Tells vnode.old.vnode vnode.old.entries (Restart stamp) again.0) }
    ensures kept { IfOk result (λ again. IsToKeep vnode.old.entries (Restart stamp) again.1) }
    ensures illegal { result ≡ Err Refusal.Illegal → MayFollow vnode.old.vnode vnode.old.entries (Restart stamp) → ⊥ }
    ensures id { vnode.new.vnode ≡ vnode.old.vnode }
    ensures err { OnErr result (vnode.new ≡ vnode.old) }
{
    vnode.restart(stamp)?;
    Ok((Again::Done, Kept::Other))
}

// The vnode settles, where it has a full block and more.
fn settle(alloc: Global, vnode: &mut Vnode)
    ensures { vnode.new ≡ vnode.old }
{
    let journal = vnode.journal();
    if journal.len() - journal.first() > BLOCK {
        let _ = vnode.settle(&mut Vec::new(alloc));
    }
}

/// An entry, which is taken over, happens again at a vnode that has those before it. The vnode settles: it keeps at most a block of its
/// entries in memory. Answers what the vnode answers, but not the state that a read does, and what is to be kept of the entry: of a put and
/// of a merge the state that it replaced, which is shared.
///
/// `Illegal` where the entry may not follow those at the vnode. A put with another dot than the next one is found after it was
/// written, and stays there under that one; else nothing changes. `NoMemory` where a growth was refused: nothing changes.
pub(crate) fn happen(
    alloc: Global,
    vnode: &mut Vnode,
    entry: Entry,
) -> Result<(Again, Kept), Refusal>
    ensures legal { OnOk result (MayFollow vnode.old.vnode vnode.old.entries entry) }
    ensures entry { OnOk result (vnode.new ≡ with_entry vnode.old entry) }
    ensures answer { IfOk result (λ again. Tells vnode.old.vnode vnode.old.entries entry again.0) }
    ensures kept { IfOk result (λ again. IsToKeep vnode.old.entries entry again.1) }
    ensures illegal { result ≡ Err Refusal.Illegal → MayFollow vnode.old.vnode vnode.old.entries entry → ⊥ }
    ensures id { vnode.new.vnode ≡ vnode.old.vnode }
    ensures stays { OnErr result (HasOneMore vnode.old vnode.new) }
{
    let again = match entry.taken() {
        Taken::Put { stamp, write, dot } => put_again(vnode, stamp, write, dot),
        Taken::Merge { stamp, merged } => merge_again(vnode, stamp, merged),
        Taken::Read { stamp, key } => read_again(vnode, stamp, key),
        Taken::Restart { stamp } => restart_again(vnode, stamp),
    };
    settle(alloc, vnode);
    again
}
