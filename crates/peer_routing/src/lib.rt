//! The vnodes of a ring of servers as peers: a server's own vnodes are called, those of others are asked, whoever reaches them.
#![tactic(auto)]

mod router;

pub use router::Router;
