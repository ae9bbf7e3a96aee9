//! Frames between servers: numbered, bounded, and with a tag by a key that both ends made of a secret and of their hellos. Who hasn't the
//! secret can neither make nor change one, nor repeat one or put it elsewhere in the order. The format is this store's profile.
#![tactic(auto)]

mod hello;
pub mod laws;
mod limits;
mod seal;

pub use hello::{Greeting, Hello, HelloFault, Side, connection_key, push_hello, read_hello};
pub use limits::{HELLO_BYTES, MAX_BODY_BYTES};
pub use seal::{Opened, Seal, SealFault};
