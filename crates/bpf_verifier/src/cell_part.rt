//! Parts of the stack's cells.

use bpf_ranges::Part;

/// A part of a cell, all of it or one half.
#[derive(Clone, Copy)]
pub struct CellPart {
    pub cell: usize,
    pub part: Part,
}
