//! What the table of operations says in special cases, as laws of its definition.
ghost use Rattle.std.specs.Prelude.{◌≡◌, ℕ, ◌-◌, ◌%◌, ◌^◌, ◌<◌};
ghost use Rattle.bpf_alu.specs.Value.{bits, value};
ghost use Rattle.bpf_alu.specs.declared.Op.{Op};
ghost use Rattle.bpf_alu.specs.declared.Width.{Width};

use crate::{Op, Width};

/// Division by zero gives zero, and modulo zero leaves the bits of the destination that are read.
pub fn by_zero()
    ensures quotient { (w : Width) (a : ℕ) → value Op.Div w a 0 ≡ 0 }
    ensures signed_quotient { (w : Width) (a : ℕ) → value Op.SignedDiv w a 0 ≡ 0 }
    ensures remainder { (w : Width) (a : ℕ) → value Op.Mod w a 0 ≡ a % 2 ^ bits w }
    ensures signed_remainder { (w : Width) (a : ℕ) → value Op.SignedMod w a 0 ≡ a % 2 ^ bits w }
{}

/// The least number divided by -1 is itself, and leaves nothing.
pub fn least_by_minus_one()
    ensures quotient { (w : Width) → value Op.SignedDiv w (2 ^ (bits w - 1)) (2 ^ bits w - 1) ≡ 2 ^ (bits w - 1) }
    ensures remainder { (w : Width) → value Op.SignedMod w (2 ^ (bits w - 1)) (2 ^ bits w - 1) ≡ 0 }
{}

/// A result has no more bits than its operation, so one of 32 bits zeroes the high half.
pub fn within_width()
    ensures { (op : Op) (w : Width) (a b : ℕ) → value op w a b < 2 ^ bits w }
{}
