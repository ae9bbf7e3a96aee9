//! The audit.

ghost use Rattle.std.specs.Prelude.{IfErr, OnOk};
ghost use Rattle.world.specs.Represents.{AreDistinct};
ghost use Rattle.audit_faults.specs.Codes.{IsOneOf, IsOfWhole};
ghost use Rattle.audit_replay.specs.Faulty.{IsFault, IsFaultless};
ghost use Rattle.audit_replay.specs.Interleaved.{IsInterleaving, ids_of};
ghost use Rattle.audit_replay.specs.Rerun.{AreLegal};

use audit_faults::AuditFault;
use audit_replay::{check_rising, check_single, check_sources};
use journal::Whole;
use std::alloc::Global;

/// Whether the journals of some vnodes are one run of the world, in the order of their stamps: each put accepted with its dot,
/// each merge the delivery of what the earlier read that it names answered.
///
/// The first fault is told: a stamp that falls, at the lowest vnode by identifier and there at the lowest place; then a stamp in
/// two journals, the lowest one, at the second-lowest of its vnodes; then in the order of stamps a merge without a source or
/// with another state. `NoMemory` where a growth was refused: one count for each vnode after the stamps of each journal were
/// tested, and then the vnodes' own growths as the entries happen again. The journal of a vnode that was closed belongs to the
/// others, for merges from it have their source there.
pub fn audit(alloc: Global, journals: &[Whole<'_>]) -> Result<(), AuditFault>
    requires distinct { AreDistinct (ids_of journals.now) }
    requires legal { AreLegal journals.now }
    ensures yes { OnOk result (IsInterleaving journals.now) }
    ensures faultless { OnOk result (IsFaultless journals.now) }
    ensures no { IfErr result (IsFault journals.now) }
    ensures codes { IfErr result (IsOneOf IsOfWhole) }
{
    check_rising(journals)?;
    check_single(alloc, journals)?;
    check_sources(alloc, journals)
}
