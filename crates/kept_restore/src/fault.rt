//! Why a vnode doesn't take records over.

use cluster::CallFault;
use thiserror::Error;

/// Why a vnode doesn't take records over. Those before the place that it tells, which is counted from 0, were merged.
#[derive(Clone, Copy, Debug, PartialEq, Eq, Error)]
pub enum LoadFault {
    /// The record at the place was refused.
    #[error("{fault} {place}")]
    Refused { place: usize, fault: CallFault },
    /// The record at the place was merged at another place of the journal: somebody else called the vnode before.
    #[error("called before {place}")]
    Elsewhere { place: usize },
}
