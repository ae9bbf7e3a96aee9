//! What tests build with: code and images from slots by what they do, how a test tells of a row, and helpers for tables. No function here
//! but those of helpers tells by a clause what it answers: a test knows of an answer what it compares, and no more.
#![tactic(auto)]

mod code;
pub mod helpers;

pub use code::{Slot, code_of, expect, hook_image_of, image_of};
