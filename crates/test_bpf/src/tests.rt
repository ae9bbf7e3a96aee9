//! The tests by what they try.

mod arithmetic;
mod clocks;
mod encoding;
mod helping;
mod kinds;
mod runs;
mod states;
mod verdicts;
mod windows;
