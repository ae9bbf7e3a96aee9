//! Where a command tells.

/// Where a command tells what it comes to, and what goes beside that.
#[derive(Drop)]
pub struct Streams<O, E> {
    /// What it comes to.
    pub out: O,
    /// What stands beside it: why a line of a script is bad, and the name of a failure.
    pub err: E,
}
