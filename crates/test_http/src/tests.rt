//! The tests by what is tried. What requests come to on one store stands in the dialogues of the examples.

mod commanding;
mod connections;
mod halls;
mod interrupted;
mod noting;
mod opening;
mod rows;
