//! Whether each merge has its state from an earlier read: the entries of journals happen again, in the order of their stamps.

ghost use Rattle.std.specs.Prelude.{[], ◌≡◌, ◌<◌, ◌≤◌, ◌+◌, IfOk, IfErr, OnOk, None, length, slice_set};
ghost use Rattle.journal.specs.Logs.{max_entries};
ghost use Rattle.world.specs.Represents.{AreDistinct, empty_logs};
ghost use Rattle.audit_faults.specs.Codes.{IsOneOf, IsOfSource};
ghost use Rattle.audit_replay.specs.Faulty.{NoneFalls, NoneTwice, AllHaveSources, IsFault};
ghost use Rattle.audit_replay.specs.Fronts.{HasRun};
ghost use Rattle.audit_replay.specs.Interleaved.{IsInterleaving, ids_of};
ghost use Rattle.audit_replay.specs.Rerun.{AreLegal};
ghost use Rattle.audit_replay.specs.Runs.{IsRunFrom};
ghost use Rattle.audit_replay.specs.Turns.{IsNextBelow, count_at};

use crate::heads::Head;
use crate::kept::Recent;
use crate::rerun::Rerun;
use crate::start::Start;
use crate::turns::{entry_at, heads_of, join, next_of, vnode_at};
use audit_faults::AuditFault;
use journal::Whole;
use std::alloc::{AllocError, Global};

// Whose the journals are.
fn identifiers(alloc: Global, journals: &[Whole<'_>]) -> Result<Vec<u32>, AllocError>
    ensures { IfOk result (λ ids. ids.items ≡ ids_of journals.now) }
{
    let mut ids = Vec::new(alloc);
    for index in 0..journals.len() {
        ids.push(vnode_at(journals, index))?;
    }
    Ok(ids)
}

// Nothing has happened again, and of what will, all answers are kept.
fn open(alloc: Global, journals: &[Whole<'_>]) -> Result<Rerun, AllocError>
    requires distinct { AreDistinct (ids_of journals.now) }
    ensures logs { IfOk result (λ rerun. rerun.logs ≡ empty_logs (ids_of journals.now)) }
    ensures run { IfOk result (λ rerun. IsRunFrom rerun.fronts rerun.logs) }
    ensures fault { IfOk result (λ rerun. rerun.fault ≡ None) }
    ensures all { IfOk result (λ rerun. max_entries ≤ rerun.recent.always) }
    ensures fronts { IfOk result (λ rerun. rerun.fronts ≡ []) }
{
    let ids = identifiers(alloc, journals)?;
    let all = Recent {
        always: usize::MAX,
        entries: usize::MAX,
        bytes: u64::MAX,
    };
    Rerun::new(alloc, &ids, all, Start::empty(alloc))
}

// The next entry happens again. Its stamp is above all before it, it may follow them, and no answer was given up: so all that can be
// wrong with it is its source.
fn go_on(
    journals: &[Whole<'_>],
    counts: &mut [usize],
    head: Head,
    place: usize,
    rerun: &mut Rerun,
) -> Result<(), AuditFault>
    requires distinct { AreDistinct (ids_of journals.now) }
    requires rising { NoneFalls journals.now }
    requires single { NoneTwice journals.now }
    requires legal { AreLegal journals.now }
    requires run { HasRun journals.now counts.old rerun.old.logs }
    requires going { rerun.old.fault ≡ None }
    requires all { max_entries ≤ rerun.old.recent.always }
    requires fronts { rerun.old.fronts ≡ [] }
    requires next { IsNextBelow journals.now counts.old (length journals.now) head }
    requires place { place ≡ count_at counts.old head.index }
    requires limit { place < max_entries }
    ensures run { OnOk result (HasRun journals.now counts.new rerun.new.logs) }
    ensures counts { OnOk result (counts.new ≡ slice_set counts.old head.index (count_at counts.old head.index + 1)) }
    ensures going { OnOk result (rerun.new.fault ≡ None) }
    ensures all { rerun.new.recent ≡ rerun.old.recent }
    ensures fronts { rerun.new.fronts ≡ rerun.old.fronts }
    ensures err { IfErr result (IsFault journals.now) }
    ensures codes { IfErr result (IsOneOf IsOfSource) }
{
    let Some(entry) = entry_at(journals, head.index, place) else {
        unreachable!()
    };
    rerun.go_on_lent(head.index, entry)?;
    counts[head.index] = place + 1;
    Ok(())
}

/// Tests that each merge has its state from an earlier read, as the entries happen again in the order of their stamps.
pub fn check_sources(alloc: Global, journals: &[Whole<'_>]) -> Result<(), AuditFault>
    requires distinct { AreDistinct (ids_of journals.now) }
    requires rising { NoneFalls journals.now }
    requires single { NoneTwice journals.now }
    requires legal { AreLegal journals.now }
    ensures ok { OnOk result (IsInterleaving journals.now) }
    ensures sources { OnOk result (AllHaveSources journals.now) }
    ensures err { IfErr result (IsFault journals.now) }
    ensures codes { IfErr result (IsOneOf IsOfSource) }
{
    let mut rerun = open(alloc, journals)?;
    let mut counts = vec![in alloc; 0; journals.len()]?;
    let mut heads = heads_of(alloc, journals, &counts)?;
    while let Some((head, place)) = next_of(journals, &counts, &mut heads) {
        go_on(journals, &mut counts, head, place, &mut rerun)?;
        join(journals, &counts, head.index, &mut heads)?;
    }
    Ok(())
}
