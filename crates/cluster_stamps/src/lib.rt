//! What is asked of a vnode and what it answers, the word from which stamps are drawn, and what vnodes and passes know beside it: what the
//! passes were told is what the vnodes have told.
#![tactic(auto)]

mod answering;
mod law;
mod request;
mod view;
mod whole;
mod word;

pub use answering::answer;
pub use law::Asking;
pub use request::{Prepared, Reply, Request};
pub use view::{History, News, Size, Told, View};
pub use whole::Whole;
pub use word::{Card, STAMPS_EACH, Stamps};
