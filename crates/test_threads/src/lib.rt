//! Tests of vnodes that threads call: what requests come to, which calls are made at the same time, whose journals are one run,
//! what a follower finds of them; and calls of which one allocation is refused, each in turn.
#![tactic(auto)]

#[cfg(test)]
mod tests;
