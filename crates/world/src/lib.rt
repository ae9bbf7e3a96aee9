//! Interleavings of events over vnodes, resolvers' runs among them, and what each vnode knows.
#![tactic(auto)]

mod beginning;
mod entries;
mod event;
mod happening;
mod hook;
pub mod laws;
mod limits;
mod loading;
pub mod record_laws;
mod run;
mod turn;
mod world;

pub use beginning::BeginFault;
pub use event::{Copies, Event, Message, PartMessage, Reply, Seen};
pub use hook::Hook;
pub use hook_run::Resolution;
pub use key_state::{Part, Summary};
pub use limits::MAX_VNODES;
pub use vnode::Copied;
pub use world::World;
