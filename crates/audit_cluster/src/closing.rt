//! The audit of what gathered vnodes hold.

ghost use Rattle.std.specs.Prelude.{◌≡◌, Err, IfErr, IfOk};
ghost use Rattle.audit_replay.specs.Rerun.{AreLegal};
ghost use Rattle.audit_cluster.specs.Audits.{IsAuditOf};
ghost use Rattle.cluster_vnode.specs.Gathers.{Differ};

use audit_journals::{AuditFault, audit};
use journal::Whole;
use std::alloc::{AllocError, Global};
use thiserror::Error;
use vnode::Vnode;

/// Why the journals of gathered vnodes aren't found to be one run. A fault of the audit is shown as the audit shows it.
#[derive(Clone, Copy, Debug, PartialEq, Eq, Drop, Error)]
pub enum CloseFault {
    /// The audit says so, or memory ran out.
    #[error("{0}")]
    Audit(AuditFault),
    /// Entries of a journal were handed out, so it isn't here to be audited.
    #[error("handed out")]
    HandedOut,
}

impl From<AuditFault> for CloseFault {
    ghost use Rattle.std.specs.Prelude.{◌≡◌};
    ghost use Rattle.audit_cluster.specs.declared.closing.CloseFault.TheVariants.{Audit};

    ghost from_gives = { λ given fault. fault ≡ Audit given };

    fn from(fault: AuditFault) -> Self {
        CloseFault::Audit(fault)
    }
}

impl From<AllocError> for CloseFault {
    ghost use Rattle.std.specs.Prelude.{◌≡◌};
    ghost use Rattle.audit_faults.specs.declared.fault.AuditFault.TheVariants.{NoMemory};
    ghost use Rattle.audit_cluster.specs.declared.closing.CloseFault.TheVariants.{Audit};

    ghost from_gives = { λ _ fault. fault ≡ Audit NoMemory };

    fn from(_error: AllocError) -> Self {
        CloseFault::Audit(AuditFault::NoMemory)
    }
}

/// What an audit says of the journals of gathered vnodes: that they are one run, or the first fault.
pub type Audited = Result<(), CloseFault>;

/// Audits the journals of vnodes, no two of which have one identifier.
///
/// The fault is that of [`audit`]. `HandedOut` where entries of one of the journals were handed out. `NoMemory` where a growth was
/// refused, of the list of journals or of the audit.
pub fn audit_vnodes(alloc: Global, vnodes: &[Vnode]) -> Audited
    requires differ { Differ vnodes.now }
    ensures audited { IsAuditOf vnodes.now result }
{
    let journals = journals_of(alloc, vnodes)?;
    audit(alloc, &journals)?;
    Ok(())
}

/// The journals of vnodes.
fn journals_of<'a>(alloc: Global, vnodes: &'a [Vnode]) -> Result<Vec<Whole<'a>>, CloseFault>
    ensures logs { IfOk result (λ journals. journals.items ≡ vnodes.now) }
    ensures legal { IfOk result (λ journals. AreLegal journals.items) }
    ensures unsaid { IfErr result (λ fault. IsAuditOf vnodes.now (Err fault)) }
{
    let mut journals = Vec::with_capacity(alloc, vnodes.len())?;
    for vnode in vnodes {
        let Some(journal) = vnode.journal().whole() else {
            return Err(CloseFault::HandedOut);
        };
        journals.push_reserved(journal);
    }
    Ok(journals)
}
