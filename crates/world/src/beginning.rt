//! Beginnings of runs from records.

ghost use Rattle.std.specs.Prelude.{◌≡◌, ◌≤◌, length, OnOk, IfErr};
ghost use Rattle.journal.specs.Entry.{Merge};
ghost use Rattle.journal.specs.Journals.{IsJournal};
ghost use Rattle.journal.specs.Limits.{TakesEntry};
ghost use Rattle.journal.specs.Logs.{with_entry, with_entries, max_entries};
ghost use Rattle.vnode.specs.declared.fault.VnodeFault.{VnodeFault as Refusal};
ghost use Rattle.vnode.specs.Refusals.{RefusesMerge};
ghost use Rattle.world.specs.declared.beginning.BeginFault.TheVariants as begin;
ghost use Rattle.world.specs.Beginning.{RefusesRecordsAt, merges_of};

use record_codec::Record;
use std::alloc::AllocError;
use thiserror::Error;
use vnode::{Vnode, VnodeFault};

/// Why a run doesn't begin from records.
#[derive(Clone, Copy, Debug, PartialEq, Eq, Error)]
pub enum BeginFault {
    /// The first vnode refuses to merge the record at this place, counted from 0.
    #[error("{fault}")]
    Record { place: usize, fault: VnodeFault },
    /// A growth for the vnodes or the list of replies was refused.
    #[error("E1")]
    NoMemory,
}

impl From<AllocError> for BeginFault {
    ghost use Rattle.std.specs.Prelude.{◌≡◌};
    ghost use Rattle.world.specs.declared.beginning.BeginFault.TheVariants.{NoMemory};

    ghost from_gives = { λ _ fault. fault ≡ NoMemory };

    fn from(_error: AllocError) -> Self {
        BeginFault::NoMemory
    }
}

// Merges a record at a vnode. Its place is the entry's stamp.
fn merge_one(vnode: &mut Vnode, place: usize, given: &Record) -> Result<(), BeginFault>
    ensures merged { OnOk result (vnode.new ≡ with_entry vnode.old (Merge place given.now.key given.now.from given.now.at given.now.state)) }
    ensures takes { OnOk result (TakesEntry vnode.old.entries) }
    ensures refused { IfErr result (λ fault. (why : Refusal) × (fault ≡ begin.Record place why) × RefusesMerge vnode.old given.now.key given.now.state why) }
{
    match vnode.merge_lent(place as u64, &given.key, given.from, given.at, &given.state) {
        Ok(_) => Ok(()),
        Err(fault) => Err(BeginFault::Record { place, fault }),
    }
}

// Merges records at a vnode, in order, with stamps from 0 on.
pub(crate) fn merge_all(vnode: &mut Vnode, records: &[Record]) -> Result<(), BeginFault>
    ensures merged { OnOk result (vnode.new ≡ with_entries vnode.old (merges_of 0 records.now)) }
    ensures legal { OnOk result (IsJournal vnode.new.vnode vnode.new.entries) }
    ensures few { OnOk result (length records.now ≤ max_entries) }
    ensures refused { IfErr result (RefusesRecordsAt vnode.old records.now) }
{
    for (place, given) in records.iter().enumerate() {
        merge_one(vnode, place, given)?;
    }
    // What every journal keeps is told with it.
    let _journal = vnode.journal();
    Ok(())
}
