//! Records: the state of a key as bytes, for a dump that another process loads.
//!
//! A record is a mark, the length of its body, the body, and the body's SHA-1. Behind the mark `DVR1` the body has the
//! record's place in four bytes, and behind `DVR2` in eight, where four don't hold it. Each state of a key has one
//! spelling, so a record that is damaged is told, and a good one is read as it was written. The format is this store's
//! profile. What a record is made of can be read and written by itself, for other formats: keys, dots, clocks, contents,
//! siblings and states.
#![tactic(auto)]

mod fault;
mod form;
pub mod laws;
mod lists;
mod read;
mod record;
mod sharing;
mod write;

pub use fault::WireFault;
pub use lists::{Unread, Unspelled, are_contents, is_content, record_bytes, records_in};
pub use read::{
    clock_at, content_at, dot_at, key_at, read_record, record_length, state_at, u32_at, u64_at,
};
pub use record::Record;
pub use write::{has_record, put_clock, put_content, put_dot, put_key, put_siblings, write_record};
