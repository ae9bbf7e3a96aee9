//! Tests of what the servers of a ring say to one another: tags, lists of servers, hellos, frames and messages, rings of vnodes, and which
//! servers hold a key.
#![tactic(auto)]

#[cfg(test)]
mod tests;
