//! The answers to requests, and their bytes (this store's profile of HTTP/1.1, RFC 9110 and RFC 9112, of multipart bodies,
//! RFC 2046, and of Riak KV's HTTP API).
//!
//! `answer` of `specs/Answer.antt` says the bytes of each answer.
#![tactic(auto)]

mod answer;
mod boundary;
mod field;
mod found;
mod known;
mod laws;
mod parts;
mod reply;
mod words;

pub use answer::push_answer;
pub use laws::least_boundary;
pub use reply::{Bound, Reply};
