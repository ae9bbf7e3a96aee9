//! Tests of the registry of hooks that threads share, on one thread and on several.
#![tactic(auto)]

#[cfg(test)]
mod tests;
