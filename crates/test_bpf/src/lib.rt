//! Tests of the parts that stand low, by cases worked out by hand: arithmetic, instructions, windows of memory, kinds, programs of the
//! greatest size, programs step by step, a host's helpers, clocks, and states of a key.
#![tactic(auto)]

#[cfg(test)]
mod tests;
