//! The rules that a program may break.

ghost use Rattle.std.specs.Prelude.{◌≡◌};

use bpf_image::FormRule;

/// A rule over the kinds of the registers, and of the stack's cells, before a slot.
#[derive(Clone, Copy, PartialEq, Eq)]
pub enum KindRule {
    /// V20: a register is read that is not set on every path, or not of one kind.
    UnsetRead,
    /// V21: the frame pointer is written.
    FrameWritten,
    /// V22: arithmetic on a pointer, or a comparison of one.
    PointerOperand,
    /// V23: a pointer's offset is further than 2^20 from its window, by the second table than 2^33, or not known to be near.
    FarOffset,
    /// V24: a load or store that does not lie in its window, or whose address is a number.
    OutsideWindow,
    /// V25: a store to the input.
    InputStored,
    /// V26: a pointer is stored, by the second table otherwise than into one whole cell of the stack.
    PointerStored,
    /// V27: no helper has the number.
    UnknownHelper,
    /// V28: an argument of a call that its helper is not known to take.
    ArgumentRule,
    /// V29: the answer is a pointer.
    PointerAnswer,
    /// V30: what is read of the stack may be part of a pointer, or is a whole cell of which nothing is known. By the first table
    /// never.
    StackRead,
}

/// Why a program is not accepted.
#[derive(Clone, Copy, PartialEq, Eq)]
pub enum Rule {
    /// A rule of form, V10 to V14.
    Form(FormRule),
    /// A rule over kinds, V20 to V30.
    Kinds(KindRule),
    /// Memory ran out.
    NoMemory,
}

/// A rule that a program breaks, and the slot that breaks it. Want of memory is told with slot 0.
#[derive(Clone, Copy, PartialEq, Eq)]
pub struct Refused {
    pub rule: Rule,
    pub slot: u32,
}

impl KindRule {
    ghost use Rattle.std.specs.Prelude.{◌≡◌};
    ghost use Rattle.bpf_verifier.specs.Numbers.{kind_rule_number};

    /// The rule's number, 20 to 30.
    pub fn number(self) -> u8
        ensures { result ≡ kind_rule_number self }
    {
        match self {
            KindRule::UnsetRead => 20,
            KindRule::FrameWritten => 21,
            KindRule::PointerOperand => 22,
            KindRule::FarOffset => 23,
            KindRule::OutsideWindow => 24,
            KindRule::InputStored => 25,
            KindRule::PointerStored => 26,
            KindRule::UnknownHelper => 27,
            KindRule::ArgumentRule => 28,
            KindRule::PointerAnswer => 29,
            KindRule::StackRead => 30,
        }
    }
}

impl Rule {
    ghost use Rattle.std.specs.Prelude.{◌≡◌};
    ghost use Rattle.bpf_verifier.specs.Numbers.{rule_number};

    /// The rule's number after the letter V, if memory did not run out.
    pub fn number(self) -> Option<u8>
        ensures { result ≡ rule_number self }
    {
        match self {
            Rule::Form(rule) => Some(rule.number()),
            Rule::Kinds(rule) => Some(rule.number()),
            Rule::NoMemory => None,
        }
    }
}
