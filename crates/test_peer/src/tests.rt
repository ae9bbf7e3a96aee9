//! The tests.

mod frames;
mod members;
mod messages;
mod rings;
mod rows;
mod tags;
