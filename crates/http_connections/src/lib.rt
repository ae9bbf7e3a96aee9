//! One worker with many connections: a hall of seats, one for each connection, over the sockets of a ring.
//!
//! `HallStands` of `specs/Halls.antt` says what all connections together come to, and `IsBounded` of `specs/Unsent.antt` how many bytes of
//! answers wait at the most.
#![tactic(auto)]

mod buffer;
mod clients;
mod hall;
pub mod laws;
mod limits;
mod seat;
mod seats;
mod socket_ring;

pub use clients::{Client, Clients, Stage};
pub use hall::Hall;
pub use seat::Standing;
pub use socket_ring::{Closing, Heard, Ring, Told};
