//! Vnodes under a lock each, which threads call with a pass. What a pass was told is what one thread would have been answered there.
#![tactic(auto)]

mod cluster;
mod guard;

pub use cluster::Cluster;
pub use cluster_vnode::{CallFault, GatherFault, Pass, Receipt, Room, hand_outs_are_a_front};
pub use guard::{CallAndRead, VnodeGuard};
