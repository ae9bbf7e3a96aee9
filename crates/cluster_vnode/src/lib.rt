//! A vnode under its lock, which threads call with a pass: what a pass was told is what one thread would have been answered there. Passes
//! and vnodes are dealt from one card, and gathered again.
#![tactic(auto)]

mod dealing;
mod fault;
mod gathering;
mod laws;
mod locked;
mod pass;

pub use dealing::{deal_passes, deal_vnodes};
pub use fault::{CallFault, GatherFault, Receipt};
pub use gathering::gathered;
pub use laws::{gathered_are_journals, hand_outs_are_a_front, receipts_stand};
pub use locked::Locked;
pub use pass::{Pass, Room};
