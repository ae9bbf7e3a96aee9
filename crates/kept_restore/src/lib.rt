//! Records that the vnodes of a cluster take over before anybody else calls them.
#![tactic(auto)]

mod beginning;
mod fault;
pub mod laws;
mod loads;
mod side_by_side;

pub use beginning::{Loader, Unloaded, fronts_of};
pub use fault::LoadFault;
pub use loads::{Loading, Throttle};
pub use side_by_side::processors;
