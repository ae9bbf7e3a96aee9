//! The tests by what is tried.

mod alike;
mod folds;
mod hooks;
mod logs;
mod memory;
mod replacing;
mod settings;
mod starts;
