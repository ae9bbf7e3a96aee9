//! By which of the two tables of kinds a program is verified.

/// The second table knows bits of numbers, wraps sums, and tells where nothing is left of a number.
#[derive(Clone, Copy, PartialEq, Eq)]
pub enum Profile {
    First,
    Second,
}
