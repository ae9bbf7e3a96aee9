//! What is known of an answer.

use bpf_ranges::Kind;

/// An exit, and what is known there of the answer.
#[derive(Clone, Copy)]
pub struct Answer {
    pub slot: u32,
    pub kind: Kind,
}
