//! Pairs of registers of which the greatest sum is known.

use bpf_insn::Register;

/// What is known of two registers beside their kinds: the numbers that they hold, as whole numbers, are at most so much together.
#[derive(Clone, Copy)]
pub struct Pair {
    pub left: Register,
    pub right: Register,
    pub most: u64,
}

/// The pairs that are known at a slot: no more than four, the last that came first.
#[derive(Clone, Copy)]
pub struct Pairs {
    pub first: Option<Pair>,
    pub second: Option<Pair>,
    pub third: Option<Pair>,
    pub fourth: Option<Pair>,
}
