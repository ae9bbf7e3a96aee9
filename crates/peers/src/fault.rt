//! Why a call on a vnode gives no answer.

use thiserror::Error;
use vnode::VnodeFault;

/// Why a call on a vnode gave no answer.
#[derive(Clone, Copy, Debug, PartialEq, Eq, Error)]
pub enum PeerFault {
    /// No answer came. Whether the call was made there isn't known.
    #[error("lost")]
    Lost,
    /// The vnode refused it.
    #[error("{0}")]
    Refused(VnodeFault),
}
