//! Gets and puts over the vnodes of a key's preference list, whoever reaches them (Riak KV documentation, reads, writes and
//! quorums; this store's profile), with the bucket's hooks. Each call on a vnode is one event there, or it was lost or refused.
#![tactic(auto)]

mod fault;
mod getting;
mod hooking;
mod putting;
mod resolving;

pub use fault::{QuorumFault, ResolveFault, Unfit};
pub use getting::get;
pub use hooking::Hooking;
pub use putting::{PutRequest, put};
pub use resolving::{Resolved, resolve};
