//! The vnodes of a cluster as peers: each call that a quorum or an exchange makes is one call of the cluster, by one pass.
#![tactic(auto)]

mod calling;
pub mod laws;

pub use calling::ClusterPeers;
