//! A crew: workers on threads, a thread that hands them connections and follows what they do, and one that makes snapshots beside them.

mod abreast;
pub mod aside;
mod pace;
pub mod reporter;
mod running;
pub mod scribe;
mod signs;
mod working;

pub use running::{Crew, Served, serve};
pub use signs::{Signs, Until};
pub use working::{Lookout, Seat};
