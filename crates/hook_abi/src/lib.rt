//! What a hook reads, and what its answer means.
//!
//! A hook is a BPF program that a key's siblings are shown to: before a write, or where a read finds several of them.
//! [`fill_input`] lays a content and siblings out in the program's input window, and [`read_answer`] reads its R0 and
//! its output window. Both formats are this store's profile.
#![tactic(auto)]

mod answer;
mod input;
mod writer;
mod written;

pub use answer::{BadAnswer, Verdict, read_answer};
pub use input::{TooLarge, fill_input};
pub use written::octet_stream;
