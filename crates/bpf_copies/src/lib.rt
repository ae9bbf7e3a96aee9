//! Registers that hold copies of one value.
#![tactic(auto)]

mod bounds;
mod course;
mod led;
mod name;
mod naming;
mod spare;

pub use bounds::Bounds;
pub use course::Course;
pub use led::place_of;
pub use name::Name;
pub use naming::{are_alike, distance_from, new_names};
