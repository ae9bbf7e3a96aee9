//! Why a registry isn't changed, and why a look-up answers nothing.

ghost use Rattle.std.specs.Prelude.{◌≡◌};
ghost use Rattle.hook_registry.specs.declared.fault.HookFault.TheVariants.{NoMemory};

use std::alloc::{AllocError, AllocFailed};
use thiserror::Error;

/// Why a registry isn't changed. It is shown as its number.
#[derive(Clone, Copy, Debug, PartialEq, Eq, Drop, Error)]
pub enum HookFault {
    /// No program has the name.
    #[error("G1")]
    NameUnknown,
    /// The program of a name is of another kind.
    #[error("G2")]
    KindDiffers,
    /// Memory ran out.
    #[error("E1")]
    NoMemory,
}

impl From<AllocError> for HookFault {
    ghost from_gives = { λ _ fault. fault ≡ NoMemory };

    fn from(_error: AllocError) -> HookFault {
        HookFault::NoMemory
    }
}

impl<T: Drop> From<AllocFailed<T>> for HookFault {
    ghost from_gives = { λ _ fault. fault ≡ NoMemory };

    fn from(_error: AllocFailed<T>) -> HookFault {
        HookFault::NoMemory
    }
}

/// Why a look-up of a hook answers nothing: the registry can't be seen now, or the program can have no further owner. It is
/// shown as its number.
#[derive(Clone, Copy, Debug, PartialEq, Eq, Drop, Error)]
#[error("G3")]
pub struct NotSeen;

/// Why a look-up of a bound name answers nothing. It is shown as its number.
#[derive(Clone, Copy, Debug, PartialEq, Eq, Drop, Error)]
pub enum NameFault {
    /// The registry can't be seen now.
    #[error("G3")]
    NotSeen,
    /// Memory ran out.
    #[error("E1")]
    NoMemory,
}

impl From<AllocError> for NameFault {
    ghost use Rattle.hook_registry.specs.declared.fault.NameFault.TheVariants as name;

    ghost from_gives = { λ _ fault. fault ≡ name.NoMemory };

    fn from(_error: AllocError) -> NameFault {
        NameFault::NoMemory
    }
}
