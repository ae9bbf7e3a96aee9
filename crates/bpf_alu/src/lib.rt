//! The arithmetic of BPF: operations, conditions and byte swaps of 32 and 64 bits.
#![tactic(auto)]

ghost use Rattle.std.specs.Prelude.{◌≡◌, ◌^◌, ◌<◌, ◌%◌};
ghost use Rattle.bpf_alu.specs.Value.{bits, wrapped, signed, signed_quotient, signed_remainder, exact, value, compares, condition, swapped};

mod laws;

pub use laws::{by_zero, least_by_minus_one, within_width};

/// How many bits an operation works on.
#[derive(Clone, Copy, PartialEq, Eq)]
pub enum Width {
    W32,
    W64,
}

/// An arithmetic operation. `Movsx` extends the sign of its operand's low bits.
#[derive(Clone, Copy, PartialEq, Eq)]
pub enum Op {
    Add,
    Sub,
    Mul,
    Div,
    SignedDiv,
    Or,
    And,
    Xor,
    Lsh,
    Rsh,
    Arsh,
    Neg,
    Mod,
    SignedMod,
    Mov,
    Movsx8,
    Movsx16,
    Movsx32,
}

/// A condition of a jump.
#[derive(Clone, Copy, PartialEq, Eq)]
pub enum Cond {
    Equal,
    NotEqual,
    Greater,
    GreaterEqual,
    Less,
    LessEqual,
    SignedGreater,
    SignedGreaterEqual,
    SignedLess,
    SignedLessEqual,
    AnySet,
}

/// What a byte swap does.
#[derive(Clone, Copy, PartialEq, Eq)]
pub enum SwapKind {
    ToLittle,
    ToBig,
    Swap,
}

/// How many bits a byte swap works on.
#[derive(Clone, Copy, PartialEq, Eq)]
pub enum SwapBits {
    B16,
    B32,
    B64,
}

/// What an operation leaves in its destination, of the destination's value `a` and the operand `b`.
#[inline(always)]
pub fn eval(op: Op, width: Width, a: u64, b: u64) -> u64
    ensures { result ≡ value op width a b }
{
    let exact = apply(op, width, low_bits(width, a), low_bits(width, b));
    low_bits(width, exact)
}

/// Whether a jump on the condition is taken.
#[inline(always)]
pub fn holds(cond: Cond, width: Width, a: u64, b: u64) -> bool
    ensures { result ≡ condition cond width a b }
{
    let a = low_bits(width, a);
    let b = low_bits(width, b);
    match cond {
        Cond::Equal => a == b,
        Cond::NotEqual => a != b,
        Cond::Greater => a > b,
        Cond::GreaterEqual => a >= b,
        Cond::Less => a < b,
        Cond::LessEqual => a <= b,
        Cond::SignedGreater => to_signed(width, a) > to_signed(width, b),
        Cond::SignedGreaterEqual => to_signed(width, a) >= to_signed(width, b),
        Cond::SignedLess => to_signed(width, a) < to_signed(width, b),
        Cond::SignedLessEqual => to_signed(width, a) <= to_signed(width, b),
        Cond::AnySet => a & b != 0,
    }
}

/// What a byte swap leaves of a number.
#[inline(always)]
pub fn swap(kind: SwapKind, bits: SwapBits, a: u64) -> u64
    ensures { result ≡ swapped kind bits a }
{
    let low = match bits {
        SwapBits::B16 => a & 0xffff,
        SwapBits::B32 => a & 0xffff_ffff,
        SwapBits::B64 => a,
    };
    match (kind, bits) {
        (SwapKind::ToLittle, _) => low,
        (_, SwapBits::B16) => u64::from((low as u16).swap_bytes()),
        (_, SwapBits::B32) => u64::from((low as u32).swap_bytes()),
        (_, SwapBits::B64) => low.swap_bytes(),
    }
}

/// The operation on operands that were cut to the width, with a result of 64 bits.
#[inline(always)]
fn apply(op: Op, width: Width, a: u64, b: u64) -> u64
    requires a { a < 2 ^ bits width }
    requires b { b < 2 ^ bits width }
    ensures { result ≡ wrapped 64 (exact op (bits width) a b) }
{
    let count = shift_count(width, b);
    match op {
        Op::Add => a.wrapping_add(b),
        Op::Sub => a.wrapping_sub(b),
        Op::Mul => a.wrapping_mul(b),
        Op::Div => a.checked_div(b).unwrap_or(0),
        Op::SignedDiv => divide_signed(width, a, b),
        Op::Or => a | b,
        Op::And => a & b,
        Op::Xor => a ^ b,
        Op::Lsh => a << count,
        Op::Rsh => a >> count,
        Op::Arsh => (to_signed(width, a) >> count).cast_unsigned(),
        Op::Neg => 0u64.wrapping_sub(a),
        Op::Mod => a.checked_rem(b).unwrap_or(a),
        Op::SignedMod => remainder_signed(width, a, b),
        Op::Mov => b,
        Op::Movsx8 => i64::from(((b & 0xff) as u8).cast_signed()).cast_unsigned(),
        Op::Movsx16 => i64::from(((b & 0xffff) as u16).cast_signed()).cast_unsigned(),
        Op::Movsx32 => to_signed(Width::W32, b & 0xffff_ffff).cast_unsigned(),
    }
}

/// The bits of a number that an operation of this width reads.
#[inline(always)]
fn low_bits(width: Width, a: u64) -> u64
    ensures { result ≡ a % 2 ^ bits width }
{
    match width {
        Width::W32 => a & 0xffff_ffff,
        Width::W64 => a,
    }
}

/// The signed number that the bits stand for.
#[inline(always)]
fn to_signed(width: Width, a: u64) -> i64
    requires { a < 2 ^ bits width }
    ensures { result ≡ signed (bits width) a }
{
    match width {
        Width::W32 => i64::from((a as u32).cast_signed()),
        Width::W64 => a.cast_signed(),
    }
}

/// How far a shift goes.
#[inline(always)]
fn shift_count(width: Width, b: u64) -> u32
    ensures { result ≡ b % bits width }
{
    match width {
        Width::W32 => (b & 31) as u32,
        Width::W64 => (b & 63) as u32,
    }
}

/// The quotient of two signed numbers, rounded toward zero.
#[inline(always)]
fn divide_signed(width: Width, a: u64, b: u64) -> u64
    requires a { a < 2 ^ bits width }
    requires b { b < 2 ^ bits width }
    ensures { result ≡ wrapped 64 (signed_quotient (bits width) a b) }
{
    if b == 0 {
        return 0;
    }
    let quotient = to_signed(width, a).wrapping_div(to_signed(width, b));
    quotient.cast_unsigned()
}

/// What the quotient leaves of the dividend.
#[inline(always)]
fn remainder_signed(width: Width, a: u64, b: u64) -> u64
    requires a { a < 2 ^ bits width }
    requires b { b < 2 ^ bits width }
    ensures { result ≡ wrapped 64 (signed_remainder (bits width) a b) }
{
    let dividend = to_signed(width, a);
    if b == 0 {
        return dividend.cast_unsigned();
    }
    dividend.wrapping_rem(to_signed(width, b)).cast_unsigned()
}
