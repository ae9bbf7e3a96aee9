//! What the verifier knows of a register, and what an instruction leaves of that knowledge: below, of numbers, by their ranges
//! and bits; above it, of kinds, which are numbers, addresses, or nothing known.
#![tactic(auto)]

mod arithmetic;
mod bits;
mod comparison;
mod kind;
mod laws;
mod narrowing;
mod number;
mod operation;
mod pointer;
mod range;
mod refinement;
mod word;

pub use bits::Bits;
pub use bpf_semantics::Profile;
pub use kind::{Bad, Kind, Part, join, kind_in};
pub use laws::kinds_are_sound;
pub use number::Number;
pub use operation::{transfer, transfer_swap};
pub use range::Range;
pub use refinement::refine;
pub use word::Word;
