//! What is known of a place.

use bpf_ranges::Kind;

/// What a row of kinds has a kind of.
#[derive(Clone, Copy)]
pub enum Place {
    /// The register of a number, 0 to 10.
    Register(u32),
    /// A cell of the stack, a whole word of 8 bytes, counted from the lowest.
    Cell(u32),
}

/// A place, and what is known of it.
#[derive(Clone, Copy)]
pub struct Fact {
    pub place: Place,
    pub kind: Kind,
}
