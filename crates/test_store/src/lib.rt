//! Tests of a store's parts together: puts, gets, read repair and exchange over the vnodes of one thread, of which calls or answers are
//! lost; hooks of puts and gets; and the audit of journals, of which some are no run. What a client can see of all this stands in the
//! scripts and dialogues of `examples`.
#![tactic(auto)]

#[cfg(test)]
mod parts;
#[cfg(test)]
mod tests;
