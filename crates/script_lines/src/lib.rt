//! Lines of scripts: how they are parted, and how each is spelled.
#![tactic(auto)]

mod bad;
mod cut;
mod line;
mod words;

pub use bad::{BadLine, Misspelling};
pub use cut::first_line;
pub use line::{Context, Line, Question, Spelling, line_of};
pub use words::{MAX_WORD_BYTES, is_word, number};
