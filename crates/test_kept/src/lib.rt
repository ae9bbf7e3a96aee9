//! Tests of what a store keeps: its folder, whose operations end after so many, the requests that change its hooks, and the keys that
//! many starts have written.
#![tactic(auto)]

#[cfg(test)]
mod tests;
