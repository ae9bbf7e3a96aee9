//! What the verifier looked at: of a program that it refuses, the instruction, the rule in words and what was known where the rule is
//! broken; of one that it accepts, what is known of its answers.
#![tactic(auto)]

mod answer;
mod answers;
mod explaining;
mod explanation;
mod fact;
mod instruction;
mod looks;
mod rules;
mod text;
mod together;

pub use answer::Answer;
pub use explaining::explain;
pub use explanation::Explanation;
pub use fact::{Fact, Place};
pub use text::text_of;
pub use together::{Most, Together};
