//! A front on a store of one thread: what the bytes of a connection, the calls, the hooks and the journals come to together.
//!
//! `Serves` of `specs/Exchanges.antt` says it: the bytes that are written are the answers to the requests of the bytes that were read, in
//! order, and what each answer tells is said by the changes of the hooks and by the journals of the vnodes at that moment.
#![tactic(auto)]

pub mod laws;
mod opening;
pub mod passes;
mod serving;
mod together;
mod whole;

pub use opening::one_thread;
pub use serving::serve;
pub use together::{Arrival, Delivery, answer_all};
pub use whole::answers_to;
