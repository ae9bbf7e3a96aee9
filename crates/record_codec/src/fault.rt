//! Why a record isn't read.

ghost use Rattle.std.specs.Prelude.{◌≡◌};
ghost use Rattle.record_codec.specs.declared.fault.WireFault.TheVariants.{NoMemory};

use std::alloc::{AllocError, AllocFailed};
use thiserror::Error;

/// Why the input begins with no record: the first of the reasons that stand in it, in this order. It is shown as its
/// number.
#[derive(Clone, Copy, Debug, PartialEq, Eq, Drop, Error)]
pub enum WireFault {
    /// The input ends before eight bytes, or, behind the mark, before all that the length says.
    #[error("W1")]
    Cut,
    /// The first four bytes are neither `DVR1` nor `DVR2`.
    #[error("W2")]
    Mark,
    /// The digest isn't the body's.
    #[error("W3")]
    Digest,
    /// The body is no record's.
    #[error("W4")]
    NotCanonical,
    /// Memory ran out.
    #[error("E1")]
    NoMemory,
}

impl From<AllocError> for WireFault {
    ghost from_gives = { λ _ fault. fault ≡ NoMemory };

    fn from(_error: AllocError) -> WireFault {
        WireFault::NoMemory
    }
}

impl<T: Drop> From<AllocFailed<T>> for WireFault {
    ghost from_gives = { λ _ fault. fault ≡ NoMemory };

    fn from(_error: AllocFailed<T>) -> WireFault {
        WireFault::NoMemory
    }
}
