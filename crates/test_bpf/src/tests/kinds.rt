//! The tables of kinds, row by row, by cases worked out by hand.

mod comparisons;
mod joins;
mod known;
mod operations;
mod pointers;
mod wider;
mod words;

const MAX: u64 = u64::MAX;

const HALF: u64 = 1 << 63;

const MAX_32: u64 = 0xffff_ffff;

const HALF_32: u64 = 1 << 31;

const PAST_32: u64 = 1 << 32;
