//! The verifier: which programs are accepted, and that these never go wrong.
#![tactic(auto)]

mod callee;
mod candidate;
mod cell_part;
mod cells;
mod edges;
mod kinds;
mod meetings;
mod naming;
mod pair;
mod pairs;
mod pieces;
pub mod rule;
mod rules;
mod slots;
mod span;
mod sum;
mod sums;
pub mod verified;
pub mod verifying;
mod waiting;
mod windows;

// What the pass does at one slot: the rules on its instruction, the kinds after it, those that its jump takes along, and the sums, the names
// and the pairs that are known there.
pub use bpf_image::{FormRule, Image, ImageFault, ImageKind, raw_image, read_image};
pub use callee::{Called, callee_in};
pub use candidate::Candidate;
pub use cells::{is_touched, span_given, span_of};
pub use edges::{narrowed_edge, taken_edge};
pub use kinds::kind_of;
pub use meetings::{Brought, Meetings};
pub use naming::tell_named;
pub use pair::{Pair, Pairs};
pub use pairs::{narrow, no_pairs, pairs_met, pairs_over, pairs_told};
pub use rule::{KindRule, Refused, Rule};
pub use rules::advance;
pub use span::Span;
pub use sum::Sum;
pub use sums::{KnownSums, Sums, tell};
pub use verified::Verified;
pub use verifying::{judge, pairs_before, row_before, verify};
