//! Why a connection breaks off.

ghost use Rattle.std.specs.Prelude.{◌≡◌};
ghost use Rattle.http_connection.specs.declared.fault.FrontFault.TheVariants.{NoMemory};

use std::alloc::AllocError;
use thiserror::Error;

/// Why a connection breaks off. The calls made before stand, and what was written is a front of their answers. It is shown
/// as its number.
#[derive(Clone, Copy, Debug, PartialEq, Eq, Error)]
pub enum FrontFault {
    /// A read failed.
    #[error("F1")]
    Read,
    /// A write failed.
    #[error("F2")]
    Write,
    /// A growth was refused.
    #[error("E1")]
    NoMemory,
}

impl From<AllocError> for FrontFault {
    ghost from_gives = { λ _ fault. fault ≡ NoMemory };

    fn from(_: AllocError) -> FrontFault {
        FrontFault::NoMemory
    }
}
