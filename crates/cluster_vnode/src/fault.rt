//! Receipts, and why a call or a gathering is refused.

use thiserror::Error;
use vnode::VnodeFault;

/// Why a call was refused.
#[derive(Clone, Copy, Debug, PartialEq, Eq, Error)]
pub enum CallFault {
    /// The pass has drawn 2^48 stamps.
    #[error("S1")]
    PassSpent,
    /// A content that was left out of a part isn't held there now.
    #[error("M2")]
    Missing,
    /// The vnode refused it, or there was no memory.
    #[error("{0}")]
    Refused(VnodeFault),
}

/// Where the entry of a call stands.
#[derive(Clone, Copy, PartialEq, Eq, Drop)]
pub struct Receipt {
    /// The vnode's identifier.
    pub vnode: u32,
    /// The entry's place in the vnode's journal.
    pub place: u64,
    /// The entry's stamp.
    pub stamp: u64,
}

/// Why a cluster isn't gathered.
#[derive(Clone, Copy, Debug, PartialEq, Eq, Error)]
pub enum GatherFault {
    /// Fewer passes came than the cluster was opened with.
    #[error("missing")]
    Missing,
    /// A growth was refused.
    #[error("E1")]
    NoMemory,
}
