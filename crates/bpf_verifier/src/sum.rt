//! Sums that registers are known to hold.

use bpf_insn::{Operand, Register};

/// What is known of a register beside its kind: it holds the sum, modulo 2^64, of what a register and an operand hold.
#[derive(Clone, Copy)]
pub struct Sum {
    pub of: Register,
    pub left: Register,
    pub right: Operand,
}
