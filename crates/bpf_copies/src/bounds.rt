//! What is known of a number.

ghost use Rattle.std.specs.Prelude.{◌≡◌};
ghost use Rattle.bpf_copies.specs.Names.{single, unbounded};

use bpf_insn::Operand;

/// The least and the greatest number that a register may hold.
#[derive(Clone, Copy)]
pub struct Bounds {
    pub least: u64,
    pub most: u64,
}

impl Bounds {
    /// Those of a register of which nothing is known.
    pub fn none() -> Bounds
        ensures { result ≡ unbounded }
    {
        Bounds {
            least: 0,
            most: u64::MAX,
        }
    }
}

/// The one number that an operand holds, if it is known: a constant, or that of a register within bounds.
pub(crate) fn single(known: Bounds, operand: Operand) -> Option<u64>
    ensures { result ≡ single known operand }
{
    match operand {
        Operand::Immediate(n) => Some(i64::from(n).cast_unsigned()),
        Operand::Register(_) if known.least == known.most => Some(known.least),
        Operand::Register(_) => None,
    }
}
