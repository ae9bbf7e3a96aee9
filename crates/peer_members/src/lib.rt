//! The servers of a ring: the file `cluster` of a folder, which who runs it has written.
//!
//!     vnodes 4
//!     server 0 10.0.0.1:8099
//!     server 1 10.0.0.2:8099
//!     here 1
//!     secret 6f1c0b...
//!
//! All servers of a ring have the same lines `vnodes` and `server`; a digest of these tells whether they do.
#![tactic(auto)]

mod fault;
mod limits;
mod members;
mod reading;
mod writing;

pub use fault::{MembersFault, Wrong};
pub use limits::{MAX_ADDRESS_BYTES, MAX_RING_VNODES, MAX_SERVERS, MAX_VNODES};
pub use members::{Members, Server};
pub use reading::read;
