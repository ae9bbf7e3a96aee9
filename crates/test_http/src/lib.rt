//! Tests of the HTTP front over sources and sinks in memory, and of halls.
#![tactic(auto)]

#[cfg(test)]
mod tests;
