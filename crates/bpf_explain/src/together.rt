//! What is known of two registers together.

use bpf_insn::Register;
use bpf_semantics::Region;

/// Two registers of which the greatest sum is known.
#[derive(Clone, Copy)]
pub struct Together {
    pub left: Register,
    pub right: Register,
    pub most: Most,
}

/// The greatest sum of two registers.
#[derive(Clone, Copy)]
pub enum Most {
    /// Where neither points into a window: a number.
    Number(u64),
    /// Where one of them does: an address there, by its offset, which counts as a pointer's: in the stack from its end, else from the
    /// window's first byte.
    Address { region: Region, offset: i128 },
}
