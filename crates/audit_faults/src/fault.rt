//! What is wrong with entries, and why they aren't taken, stop happening again, or aren't found to be one run.

use std::alloc::AllocError;
use thiserror::Error;

/// What is wrong with an entry, shown as its code. An audit of whole journals tells the first four alone: it gives no answer up, takes
/// the entries in the order of their stamps, and each may follow those before it at its vnode.
#[derive(Clone, Copy, Debug, PartialEq, Eq, Drop, Error)]
pub enum EntryFault {
    /// Its stamp stands in two journals.
    #[error("A1")]
    Twice,
    /// Its stamp is not above the one before it in its journal.
    #[error("A2")]
    Falls,
    /// A merge names no earlier read of its key.
    #[error("A3")]
    NoSource,
    /// A merge's state isn't what the read that it names answered.
    #[error("A4")]
    OtherState,
    /// A merge names an entry of which the answer was given up: whether it is right isn't known.
    #[error("A5")]
    GivenUp,
    /// Its stamp is below one that was followed before it was taken.
    #[error("A6")]
    Late,
    /// It may not follow those before it at its vnode.
    #[error("A7")]
    Illegal,
}

/// Why entries of vnodes aren't found to be one run of the world: the first fault, or want of memory. A fault is shown as its code, the
/// vnode's identifier and the place.
#[derive(Clone, Copy, Debug, PartialEq, Eq, Drop, Error)]
pub enum AuditFault {
    /// What is wrong with the entry at this place of the journal of the vnode with this identifier. Places are counted from 0, and there
    /// are at most 2^62.
    #[error("{code} {vnode} {place}")]
    Found {
        code: EntryFault,
        vnode: u32,
        place: usize,
    },
    /// A growth was refused.
    #[error("E1")]
    NoMemory,
}

impl From<AllocError> for AuditFault {
    ghost use Rattle.std.specs.Prelude.{◌≡◌};
    ghost use Rattle.audit_faults.specs.declared.fault.AuditFault.TheVariants.{NoMemory};

    ghost from_gives = { λ _ fault. fault ≡ NoMemory };

    fn from(_error: AllocError) -> Self {
        AuditFault::NoMemory
    }
}

/// Why a follower doesn't take entries, the first in this order.
#[derive(Clone, Copy, Debug, PartialEq, Eq, Drop, Error)]
pub enum TakeFault {
    /// No vnode with this identifier is followed.
    #[error("unknown vnode")]
    Unknown,
    /// They don't begin where the last ones of their vnode ended.
    #[error("gap")]
    Gap,
    /// A growth was refused.
    #[error("E1")]
    NoMemory,
}

impl From<AllocError> for TakeFault {
    ghost use Rattle.std.specs.Prelude.{◌≡◌};
    ghost use Rattle.audit_faults.specs.declared.fault.TakeFault.TheVariants.{NoMemory};

    ghost from_gives = { λ _ fault. fault ≡ NoMemory };

    fn from(_error: AllocError) -> Self {
        TakeFault::NoMemory
    }
}

/// Why journals that were followed aren't found to be one run. What a follower found is shown as it shows it.
#[derive(Clone, Copy, Debug, PartialEq, Eq, Drop, Error)]
pub enum WatchFault {
    /// The follower found it.
    #[error("{0}")]
    Found(AuditFault),
    /// Entries of a journal were handed out, and not all of them were taken.
    #[error("handed out")]
    Lost,
    /// A growth was refused.
    #[error("E1")]
    NoMemory,
}

impl From<AllocError> for WatchFault {
    ghost use Rattle.std.specs.Prelude.{◌≡◌};
    ghost use Rattle.audit_faults.specs.declared.fault.WatchFault.TheVariants.{NoMemory};

    ghost from_gives = { λ _ fault. fault ≡ NoMemory };

    fn from(_error: AllocError) -> Self {
        WatchFault::NoMemory
    }
}

impl From<AuditFault> for WatchFault {
    ghost use Rattle.std.specs.Prelude.{◌≡◌};
    ghost use Rattle.audit_faults.specs.declared.fault.WatchFault.TheVariants.{Found};

    ghost from_gives = { λ given fault. fault ≡ Found given };

    fn from(fault: AuditFault) -> Self {
        WatchFault::Found(fault)
    }
}

impl From<TakeFault> for WatchFault {
    ghost use Rattle.audit_faults.specs.Unsaid.{IsNoYes};

    ghost from_gives = { λ given fault. IsNoYes fault };

    fn from(fault: TakeFault) -> Self {
        match fault {
            TakeFault::Unknown | TakeFault::Gap => WatchFault::Lost,
            TakeFault::NoMemory => WatchFault::NoMemory,
        }
    }
}

/// What is said of journals that were followed: that they are one run, or the fault.
pub type Followed = Result<(), WatchFault>;
