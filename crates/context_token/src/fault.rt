//! Why a text is no token.

ghost use Rattle.std.specs.Prelude.{◌≡◌};
ghost use Rattle.context_token.specs.declared.fault.TokenFault.TheVariants.{NoMemory};

use std::alloc::AllocError;
use thiserror::Error;

/// Why a text is no token. Faults are told in this order: not base64; no bytes; the version; too few bytes for a
/// count; too many entries; not as many bytes as the entries take; vnodes that don't rise; a counter past its limits,
/// or an index of 255 in version 2 or 3. It shows its number.
#[derive(Clone, Copy, Debug, PartialEq, Eq, Error)]
pub enum TokenFault {
    /// The text is no padded base64 of any bytes.
    #[error("K1")]
    NotBase64,
    /// The first byte is none of 1, 2 and 3.
    #[error("K2")]
    Version,
    /// A vnode is not above the one before it: by its identifier in version 1, by index and then incarnation in
    /// version 2, by index and then number in version 3.
    #[error("K3")]
    NotRising,
    /// Bytes are missing, or stand after the last entry.
    #[error("K4")]
    Cut,
    /// More than 1,024 entries, a counter that is 0 or past `2^62`, or an index of 255 in version 2 or 3.
    #[error("K5")]
    PastLimit,
    /// A growth was refused.
    #[error("E1")]
    NoMemory,
}

impl From<AllocError> for TokenFault {
    ghost from_gives = { λ _ fault. fault ≡ NoMemory };

    fn from(_error: AllocError) -> Self {
        TokenFault::NoMemory
    }
}
