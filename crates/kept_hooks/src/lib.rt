//! The requests that install and bind the hooks of a store: those that are in force are written down as the store makes them, and served to
//! the store that begins from them.
#![tactic(auto)]

mod alone;
mod beginning;
pub mod laws;
mod list;
mod noting;
mod recorder;
mod refused;
mod replaying;
mod request;
mod standing;
mod writes;

pub use beginning::{BegunHooks, begin_hooks};
pub use list::Requests;
pub use noting::{ChangeList, Notes};
pub use recorder::Recorder;
pub use refused::RefusedHook;
pub use replaying::ReplayFault;
pub use writes::Writes;
