//! The instructions of BPF, and how they are spelled as bytes.
#![tactic(auto)]

ghost use Rattle.std.specs.Prelude.{◌≡◌, ◌<◌, ◌≤◌, ◌↔◌, IfSome, IsNone};

pub mod decode;
pub mod encode;
mod form;
mod laws;
mod slot;

use bpf_alu::{Cond, Op, SwapBits, SwapKind, Width};
pub use decode::{DecodeFault, Refusal};
use form::{AluCode, Form, Source};
pub use laws::{code_is_paired, instructions_break_no_rule};
use slot::Slot;

/// A register. R10 is the frame pointer, which no instruction writes.
#[derive(Clone, Copy, PartialEq, Eq)]
pub enum Register {
    R0,
    R1,
    R2,
    R3,
    R4,
    R5,
    R6,
    R7,
    R8,
    R9,
    R10,
}

/// A second operand.
#[derive(Clone, Copy, PartialEq, Eq)]
pub enum Operand {
    Register(Register),
    Immediate(i32),
}

/// How many bytes a load or a store moves: 1, 2, 4 or 8.
#[derive(Clone, Copy, PartialEq, Eq)]
pub enum Size {
    Byte,
    Half,
    Word,
    Double,
}

/// How a load fills the bits above those that it read.
#[derive(Clone, Copy, PartialEq, Eq)]
pub enum Extend {
    Zero,
    Sign,
}

/// How far an unconditional jump goes, counted from the slot after it.
#[derive(Clone, Copy, PartialEq, Eq)]
pub enum Distance {
    Near(i16),
    Far(i32),
}

/// One slot of code.
#[derive(Clone, Copy)]
pub enum Insn {
    Alu {
        op: Op,
        width: Width,
        dst: Register,
        src: Operand,
    },
    Swap {
        kind: SwapKind,
        bits: SwapBits,
        dst: Register,
    },
    Load {
        size: Size,
        extend: Extend,
        dst: Register,
        base: Register,
        offset: i16,
    },
    Store {
        size: Size,
        base: Register,
        offset: i16,
        src: Operand,
    },
    Jump {
        distance: Distance,
    },
    JumpIf {
        cond: Cond,
        width: Width,
        left: Register,
        right: Operand,
        offset: i16,
    },
    Call {
        helper: u32,
    },
    Exit,
    Wide {
        dst: Register,
        value: u64,
    },
    /// The second slot of a wide instruction.
    Tail,
}

impl Register {
    ghost use Rattle.bpf_insn.specs.Encoding.{number as number_of};

    /// The register of this number.
    pub fn from_number(number: u8) -> Option<Register>
        ensures found { IfSome result (λ r. number_of r ≡ number) }
        ensures none { IsNone result ↔ (10 < number) }
    {
        let register = match number {
            0 => Register::R0,
            1 => Register::R1,
            2 => Register::R2,
            3 => Register::R3,
            4 => Register::R4,
            5 => Register::R5,
            6 => Register::R6,
            7 => Register::R7,
            8 => Register::R8,
            9 => Register::R9,
            10 => Register::R10,
            _ => return None,
        };
        Some(register)
    }

    /// The register's number, which is at most 10.
    pub fn number(self) -> u8
        ensures number { result ≡ number_of self }
        ensures at_most { result ≤ 10 }
    {
        self as u8
    }
}

impl Size {
    ghost use Rattle.bpf_insn.specs.Encoding.{size_bytes};

    /// How many bytes the size is.
    pub fn bytes(self) -> usize
        ensures { result ≡ size_bytes self }
    {
        match self {
            Size::Byte => 1,
            Size::Half => 2,
            Size::Word => 4,
            Size::Double => 8,
        }
    }
}
