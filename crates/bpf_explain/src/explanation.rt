//! What the verifier looked at.

use crate::answer::Answer;
use crate::fact::Fact;
use crate::together::Together;
use bpf_insn::Insn;
use bpf_verifier::Refused;

/// What the verifier says of a program, and what it looked at.
#[derive(Drop)]
pub enum Explanation {
    /// It is accepted, and has so many slots; what is known of the answer at each exit.
    Accepted {
        slots: u32,
        answers: Vec<Answer>,
    },
    /// It breaks this rule, by this instruction; what is known of what the rule looks at, and the pairs of registers among it of which
    /// the greatest sum is known.
    Broken {
        refused: Refused,
        insn: Insn,
        facts: Vec<Fact>,
        together: Vec<Together>,
    },
}
