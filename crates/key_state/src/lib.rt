//! Contents, siblings and the state of a key.
#![tactic(auto)]

mod bytes;
mod content;
mod exchange;
mod fault;
mod few;
mod full;
mod held;
pub mod laws;
mod limits;
mod merging;
mod names;
mod part;
mod placing;
mod prepared;
mod shared;
mod state;

pub use bytes::Bytes;
pub use content::{Content, Key, Sibling};
pub use fault::{MergeFault, PartFault, PutFault, PutRefusal};
pub use held::{Held, Stored};
pub use limits::{MAX_BUCKET_BYTES, MAX_KEY_BYTES, MAX_MEDIA_BYTES, MAX_SIBLINGS, MAX_VALUE_BYTES};
pub use part::{Part, PartSibling, Summary};
pub use prepared::PreparedPart;
pub use shared::Shared;
pub use state::KeyState;
