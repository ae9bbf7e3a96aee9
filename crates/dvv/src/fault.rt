//! Why a clock is refused.

ghost use Rattle.std.specs.Prelude.{◌≡◌};
ghost use Rattle.dvv.specs.declared.fault.ClockFault.TheVariants.{NoMemory};

use std::alloc::{AllocError, AllocFailed};
use thiserror::Error;

/// Why a clock is not made or changed. It shows its number.
#[derive(Clone, Copy, Debug, PartialEq, Eq, Error)]
pub enum ClockFault {
    /// A growth was refused.
    #[error("E1")]
    NoMemory,
    /// The counter would be past [`MAX_COUNTER`](crate::MAX_COUNTER). Told before [`ClockFault::TooManyEntries`].
    #[error("C1")]
    CounterPastLimit,
    /// There would be more than [`MAX_ENTRIES`](crate::MAX_ENTRIES) entries.
    #[error("C2")]
    TooManyEntries,
}

impl From<AllocError> for ClockFault {
    ghost from_gives = { λ _ fault. fault ≡ NoMemory };

    fn from(_error: AllocError) -> Self {
        ClockFault::NoMemory
    }
}

impl<T: Drop> From<AllocFailed<T>> for ClockFault {
    ghost from_gives = { λ _ fault. fault ≡ NoMemory };

    fn from(_error: AllocFailed<T>) -> Self {
        ClockFault::NoMemory
    }
}
