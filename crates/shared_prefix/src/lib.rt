//! A list that threads share and that only grows: each thread has a prefix of it. The list stands nowhere; its length is one word.
#![tactic(auto)]

mod prefix;

pub use prefix::{Book, Front, Naming, Opened};
