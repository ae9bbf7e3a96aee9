//! One registry, by what is tried.

mod installing;
mod parts;
mod sharing;
mod working;
