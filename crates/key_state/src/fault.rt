//! Why a put or a merge is refused.

ghost use Rattle.std.specs.Prelude.{◌≡◌};

use dvv::ClockFault;
use std::alloc::AllocError;
use thiserror::Error;

/// What a put is refused for by the state alone, the first in this order.
#[derive(Clone, Copy, Debug, PartialEq, Eq, Error)]
pub enum PutRefusal {
    /// Its context counts an event that the key's clock doesn't.
    #[error("P1")]
    ContextAhead,
    /// Over 64 siblings would be left.
    #[error("P2")]
    TooManySiblings,
    /// The clock would pass a limit: a counter over 2^62, or over 1,024 entries.
    #[error("P3")]
    ClockFull,
}

/// Why a put is refused, the first in this order.
#[derive(Clone, Copy, Debug, PartialEq, Eq, Error)]
pub enum PutFault {
    /// Its context counts an event that the key's clock doesn't.
    #[error("P1")]
    ContextAhead,
    /// Over 64 siblings would be left.
    #[error("P2")]
    TooManySiblings,
    /// The clock would pass a limit: a counter over 2^62, or over 1,024 entries.
    #[error("P3")]
    ClockFull,
    /// A growth was refused.
    #[error("E1")]
    NoMemory,
}

impl From<PutRefusal> for PutFault {
    ghost use Rattle.key_state.specs.Faults.{fault_of};

    ghost from_gives = { λ refusal fault. fault ≡ fault_of refusal };

    fn from(refusal: PutRefusal) -> Self {
        match refusal {
            PutRefusal::ContextAhead => PutFault::ContextAhead,
            PutRefusal::TooManySiblings => PutFault::TooManySiblings,
            PutRefusal::ClockFull => PutFault::ClockFull,
        }
    }
}

impl From<AllocError> for PutFault {
    ghost use Rattle.key_state.specs.declared.fault.PutFault.TheVariants.{NoMemory};

    ghost from_gives = { λ _ fault. fault ≡ NoMemory };

    fn from(_error: AllocError) -> Self {
        PutFault::NoMemory
    }
}

/// Why a merge is refused, the first in this order.
#[derive(Clone, Copy, Debug, PartialEq, Eq, Error)]
pub enum MergeFault {
    /// The union of the clocks has over 1,024 entries.
    #[error("M1")]
    ClockFull,
    /// A growth was refused.
    #[error("E1")]
    NoMemory,
}

impl From<AllocError> for MergeFault {
    ghost use Rattle.key_state.specs.declared.fault.MergeFault.TheVariants.{NoMemory};

    ghost from_gives = { λ _ fault. fault ≡ NoMemory };

    fn from(_error: AllocError) -> Self {
        MergeFault::NoMemory
    }
}

/// Why the merge of a part is refused, the first in this order. It is shown as its number.
#[derive(Clone, Copy, Debug, PartialEq, Eq, Error)]
pub enum PartFault {
    /// A dot whose content was left out isn't held now.
    #[error("M2")]
    Missing,
    /// The merge of the whole state is refused.
    #[error("{0}")]
    Merge(MergeFault),
}

impl From<AllocError> for PartFault {
    ghost use Rattle.key_state.specs.declared.fault.MergeFault.TheVariants.{NoMemory};
    ghost use Rattle.key_state.specs.declared.fault.PartFault.TheVariants.{Merge};

    ghost from_gives = { λ _ fault. fault ≡ Merge NoMemory };

    fn from(_error: AllocError) -> Self {
        PartFault::Merge(MergeFault::NoMemory)
    }
}

impl From<MergeFault> for PartFault {
    ghost use Rattle.key_state.specs.declared.fault.PartFault.TheVariants.{Merge};

    ghost from_gives = { λ refusal fault. fault ≡ Merge refusal };

    fn from(refusal: MergeFault) -> Self {
        PartFault::Merge(refusal)
    }
}
