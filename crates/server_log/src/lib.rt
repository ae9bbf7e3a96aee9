//! What goes wrong in a server that isn't everyday, as it is noted and as who runs it is told, and how often that is: at most once a second and kind.
#![tactic(auto)]

mod bucket;
mod limits;
mod line;
mod noted;
mod ration;
mod trouble;

pub use bucket::Bucket;
pub use line::Line;
pub use noted::{Note, Noted};
pub use ration::{Kept, Ration};
pub use trouble::{HookTrouble, Trouble};
