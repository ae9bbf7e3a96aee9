//! Tags of messages by a secret that two share: HMAC (RFC 2104; FIPS 198-1) with SHA-256.
#![tactic(auto)]

mod comparing;
mod tagging;

pub use comparing::constant_time_eq;
pub use tagging::{TAG_BYTES, tag};
