//! Numbers through an operation: one function for each row of the table.

ghost use Rattle.std.specs.Prelude.{◌≡◌, ◌<◌, ◌≤◌, ◌^◌, ◌-◌, ◌*◌, ◌+◌, ◌%◌, min, max, IfSome};
ghost use Rattle.bpf_alu.specs.Value.{bits, byte_count};
ghost use Rattle.bpf_ranges.specs.Numbers.{IsRange, IsNumber, up_to, full, cut, cut_by, range_else, ones_above, shifted_right, are_single, difference_range, shifted_left, are_positive, signed_range_of, extended, range_by, range_result, cut_number, bits_right, bits_after, numbers, swapped_range, swapped_number};

use crate::bits::{Bits, low_ones};
use crate::number::{Number, ones};
use crate::range::Range;
use bpf_alu::{Op, SwapBits, SwapKind, Width, eval, swap};
use bpf_semantics::Profile;

/// The greatest number of a width.
pub fn greatest(width: Width) -> u64
    ensures { result ≡ 2 ^ bits width - 1 }
{
    match width {
        Width::W32 => 0xffff_ffff,
        Width::W64 => u64::MAX,
    }
}

/// The number of bits of a width.
fn bits_of(width: Width) -> u64
    ensures { result ≡ bits width }
{
    match width {
        Width::W32 => 32,
        Width::W64 => 64,
    }
}

/// The low bits of a number.
fn low_bits(width: Width, n: u64) -> u64
    ensures { result ≡ n % 2 ^ bits width }
{
    match width {
        Width::W32 => n & 0xffff_ffff,
        Width::W64 => n,
    }
}

/// An operand, cut to the width.
fn cut_to(width: Width, r: Range) -> Range
    ensures { result ≡ cut (bits width) r }
{
    if r.hi <= greatest(width) {
        r
    } else if r.is_single() {
        Range::single(low_bits(width, r.lo))
    } else {
        Range::full(width)
    }
}

/// An operand, cut to the width by a profile.
fn cut_by_profile(profile: Profile, width: Width, r: Range) -> Range
    ensures { result ≡ cut_by profile (bits width) r }
{
    match profile {
        Profile::First => cut_to(width, r),
        Profile::Second => r.low(bits_of(width)),
    }
}

fn sum_of(width: Width, a: Range, b: Range) -> Range
    requires left { IsRange a }
    requires right { IsRange b }
    ensures { result ≡ range_else Op.Add (bits width) a b }
{
    match a.hi.checked_add(b.hi) {
        Some(hi) if hi <= greatest(width) => Range {
            lo: a.lo + b.lo,
            hi,
        },
        _ => Range::full(width),
    }
}

fn difference_of(width: Width, a: Range, b: Range) -> Range
    requires left { IsRange a }
    requires right { IsRange b }
    ensures { result ≡ range_else Op.Sub (bits width) a b }
{
    if a.lo >= b.hi {
        Range {
            lo: a.lo - b.hi,
            hi: a.hi - b.lo,
        }
    } else {
        Range::full(width)
    }
}

fn product_of(width: Width, a: Range, b: Range) -> Range
    requires left { IsRange a }
    requires right { IsRange b }
    ensures { result ≡ range_else Op.Mul (bits width) a b }
{
    match a.hi.checked_mul(b.hi) {
        Some(hi) if hi <= greatest(width) => Range {
            lo: a.lo * b.lo,
            hi,
        },
        _ => Range::full(width),
    }
}

fn quotient_of(width: Width, a: Range, b: Range) -> Range
    requires left { IsRange a }
    requires right { IsRange b }
    ensures { result ≡ range_else Op.Div (bits width) a b }
{
    if b.lo >= 1 {
        Range {
            lo: a.lo / b.hi,
            hi: a.hi / b.lo,
        }
    } else {
        Range::up_to(a.hi)
    }
}

fn remainder_of(width: Width, a: Range, b: Range) -> Range
    requires left { IsRange a }
    requires right { IsRange b }
    ensures { result ≡ range_else Op.Mod (bits width) a b }
{
    if b.lo >= 1 {
        Range::up_to(a.hi.min(b.hi - 1))
    } else {
        Range::up_to(a.hi)
    }
}

fn common_bits_of(a: Range, b: Range) -> Range
    ensures { result ≡ up_to (min a.hi b.hi) }
{
    Range::up_to(a.hi.min(b.hi))
}

fn united_bits_of(a: Range, b: Range) -> Range
    ensures { result ≡ up_to (ones_above (max a.hi b.hi)) }
{
    Range::up_to(ones(a.hi.max(b.hi)))
}

fn left_shift_of(width: Width, a: Range, b: Range) -> Range
    requires left { IsRange a }
    requires right { IsRange b }
    ensures { result ≡ range_else Op.Lsh (bits width) a b }
{
    let count = b.lo % bits_of(width);
    match a.hi.checked_mul(1 << count) {
        Some(hi) if b.is_single() && hi <= greatest(width) => Range {
            lo: a.lo << count,
            hi,
        },
        _ => Range::full(width),
    }
}

fn right_shift_of(width: Width, a: Range, b: Range) -> Range
    requires left { IsRange a }
    requires right { IsRange b }
    ensures { result ≡ shifted_right (bits width) a b }
{
    if b.is_single() {
        let count = b.lo % bits_of(width);
        Range {
            lo: a.lo >> count,
            hi: a.hi >> count,
        }
    } else {
        Range::up_to(a.hi)
    }
}

fn arithmetic_shift_of(width: Width, a: Range, b: Range) -> Range
    requires left { IsRange a }
    requires right { IsRange b }
    ensures { result ≡ range_else Op.Arsh (bits width) a b }
{
    if a.hi <= greatest(width) / 2 {
        right_shift_of(width, a, b)
    } else {
        Range::full(width)
    }
}

/// By the second profile a sum wraps.
fn wrapped_sum_of(width: Width, a: Range, b: Range) -> Range
    ensures { result ≡ range_by Profile.Second Op.Add (bits width) a b }
{
    let lo = u128::from(a.lo) + u128::from(b.lo);
    let hi = u128::from(a.hi) + u128::from(b.hi);
    Range::wrapped(width, lo, hi)
}

/// By the second profile a difference wraps.
fn wrapped_difference_of(width: Width, a: Range, b: Range) -> Range
    requires left { b.lo ≤ 2 ^ bits width }
    requires right { b.hi ≤ 2 ^ bits width }
    ensures { result ≡ difference_range (bits width) a b }
{
    let size: u128 = match width {
        Width::W32 => 1 << 32,
        Width::W64 => 1 << 64,
    };
    let lo = u128::from(a.lo) + (size - u128::from(b.hi));
    let hi = u128::from(a.hi) + (size - u128::from(b.lo));
    Range::wrapped(width, lo, hi)
}

/// A number that is shifted to the left, and fits.
fn moved_up(n: u64, count: u64) -> u64
    requires short { count < 64 }
    requires fits { n * 2 ^ count < 2 ^ 64 }
    ensures { result ≡ n * 2 ^ count }
{
    n << count
}

/// By the second profile the count of a shift to the left may be a range.
fn wide_left_shift_of(width: Width, a: Range, b: Range) -> Range
    requires left { IsRange a }
    requires right { IsRange b }
    ensures { result ≡ shifted_left (bits width) a b }
{
    if b.hi >= bits_of(width) {
        return left_shift_of(width, a, b);
    }
    match a.hi.checked_mul(1 << b.hi) {
        Some(hi) if hi <= greatest(width) => Range {
            lo: moved_up(a.lo, b.lo),
            hi,
        },
        _ => left_shift_of(width, a, b),
    }
}

/// Whether no number of two ranges is a negative one.
fn are_positive(width: Width, a: Range, b: Range) -> bool
    ensures { result ≡ are_positive (bits width) a b }
{
    let half = greatest(width) / 2;
    a.hi <= half && b.hi <= half
}

/// By the second profile numbers without a sign are divided as such.
fn signed_quotient_of(width: Width, a: Range, b: Range) -> Range
    requires left { IsRange a }
    requires right { IsRange b }
    ensures { result ≡ range_by Profile.Second Op.SignedDiv (bits width) a b }
{
    if are_positive(width, a, b) {
        quotient_of(width, a, b)
    } else {
        Range::full(width)
    }
}

fn signed_remainder_of(width: Width, a: Range, b: Range) -> Range
    requires left { IsRange a }
    requires right { IsRange b }
    ensures { result ≡ range_by Profile.Second Op.SignedMod (bits width) a b }
{
    if are_positive(width, a, b) {
        remainder_of(width, a, b)
    } else {
        Range::full(width)
    }
}

/// The low `count` bits of an operand, with their sign extended, where they have one sign.
fn extended_of(count: u64, width: Width, b: Range) -> Range
    requires some { 1 ≤ count }
    requires short { count ≤ 32 }
    requires operand { IsRange b }
    ensures { result ≡ extended count (bits width) b }
{
    let low = b.low(count);
    let half = 1 << (count - 1);
    if low.hi < half {
        low
    } else if low.lo >= half {
        let ones = greatest(width) - low_ones(count);
        Range {
            lo: low.lo + ones,
            hi: low.hi + ones,
        }
    } else {
        Range::full(width)
    }
}

/// The range of a result, of operands that were cut to the width and are not all single numbers.
fn range_of_op(op: Op, width: Width, a: Range, b: Range) -> Range
    requires left { IsRange a }
    requires right { IsRange b }
    ensures { result ≡ range_else op (bits width) a b }
{
    match op {
        Op::Mov => b,
        Op::Add => sum_of(width, a, b),
        Op::Sub => difference_of(width, a, b),
        Op::Mul => product_of(width, a, b),
        Op::Div => quotient_of(width, a, b),
        Op::Mod => remainder_of(width, a, b),
        Op::And => common_bits_of(a, b),
        Op::Or | Op::Xor => united_bits_of(a, b),
        Op::Lsh => left_shift_of(width, a, b),
        Op::Rsh => right_shift_of(width, a, b),
        Op::Arsh => arithmetic_shift_of(width, a, b),
        Op::Neg | Op::SignedDiv | Op::SignedMod | Op::Movsx8 | Op::Movsx16 | Op::Movsx32 =>
            Range::full(width),
    }
}

/// Whether all operands that the operation reads are single numbers.
fn reads_single(op: Op, a: Range, b: Range) -> bool
    ensures { result ≡ are_single op a b }
{
    match op {
        Op::Mov | Op::Movsx8 | Op::Movsx16 | Op::Movsx32 => b.is_single(),
        Op::Neg => a.is_single(),
        _ => a.is_single() && b.is_single(),
    }
}

/// The range of a result by a profile, of operands that were cut to the width and are not all single numbers.
fn range_by_profile(profile: Profile, op: Op, width: Width, a: Range, b: Range) -> Range
    requires left { IsRange a }
    requires right { IsRange b }
    requires left_fits { a.hi < 2 ^ bits width }
    requires fits { b.hi < 2 ^ bits width }
    ensures { result ≡ range_by profile op (bits width) a b }
{
    match (profile, op) {
        (Profile::Second, Op::Add) => wrapped_sum_of(width, a, b),
        (Profile::Second, Op::Sub) => wrapped_difference_of(width, a, b),
        (Profile::Second, Op::Neg) => wrapped_difference_of(width, Range::single(0), a),
        (Profile::Second, Op::Lsh) => wide_left_shift_of(width, a, b),
        (Profile::Second, Op::SignedDiv) => signed_quotient_of(width, a, b),
        (Profile::Second, Op::SignedMod) => signed_remainder_of(width, a, b),
        (Profile::Second, Op::Movsx8) => extended_of(8, width, b),
        (Profile::Second, Op::Movsx16) => extended_of(16, width, b),
        (Profile::Second, Op::Movsx32) => extended_of(32, width, b),
        _ => range_of_op(op, width, a, b),
    }
}

/// The range of what an operation leaves, of the ranges of what it reads.
fn result_range(profile: Profile, op: Op, width: Width, a: Range, b: Range) -> Range
    requires left { IsRange a }
    requires right { IsRange b }
    ensures { result ≡ range_result profile op width a b }
{
    let a = cut_by_profile(profile, width, a);
    let b = cut_by_profile(profile, width, b);
    if reads_single(op, a, b) {
        Range::single(eval(op, width, a.lo, b.lo))
    } else {
        range_by_profile(profile, op, width, a, b)
    }
}

/// What is known of an operand of a width.
fn cut_number_to(width: Width, a: Number) -> Number
    requires { IsNumber a }
    ensures { result ≡ cut_number width a }
{
    Number {
        range: cut_to(width, a.range),
        bits: a.bits.cut(width),
    }
}

fn bits_shifted_right(width: Width, by: Range, known: Bits) -> Bits
    ensures { result ≡ bits_right (bits width) by known }
{
    if by.is_single() {
        known.moved_right(by.lo % bits_of(width))
    } else {
        Bits::nothing()
    }
}

/// The bits of what an operation leaves, of operands that were cut to the width.
fn bits_of_op(op: Op, width: Width, a: Number, b: Number) -> Bits
    ensures { result ≡ bits_after op width a b }
{
    match op {
        Op::Mov => b.bits,
        Op::And => a.bits.both_set(b.bits),
        Op::Or => a.bits.either_set(b.bits),
        Op::Xor => a.bits.one_set(b.bits),
        Op::Add | Op::Sub => Bits::low_result(op, width, a.bits, b.bits),
        Op::Lsh if b.range.is_single() => { a.bits.moved_left(width, b.range.lo % bits_of(width)) }
        Op::Rsh => bits_shifted_right(width, b.range, a.bits),
        Op::Arsh if a.range.hi <= greatest(width) / 2 => bits_shifted_right(width, b.range, a.bits),
        _ => Bits::nothing(),
    }
}

/// The bits of what an operation leaves, of what is known of what it reads.
fn result_bits(op: Op, width: Width, a: Number, b: Number) -> Bits
    requires left { IsNumber a }
    requires right { IsNumber b }
    ensures { result ≡ bits_after op width (cut_number width a) (cut_number width b) }
{
    bits_of_op(op, width, cut_number_to(width, a), cut_number_to(width, b))
}

/// How many bits a byte swap works on.
fn swapped_bits(bits: SwapBits) -> u64
    ensures { result ≡ 8 * byte_count bits }
{
    match bits {
        SwapBits::B16 => 16,
        SwapBits::B32 => 32,
        SwapBits::B64 => 64,
    }
}

/// The range of what a byte swap leaves, by the first profile.
fn range_turned(kind: SwapKind, bits: SwapBits, a: Range) -> Range
    ensures { result ≡ swapped_range Profile.First kind bits a }
{
    if a.is_single() {
        return Range::single(swap(kind, bits, a.lo));
    }
    match bits {
        SwapBits::B16 => Range::up_to(0xffff),
        SwapBits::B32 => Range::up_to(0xffff_ffff),
        SwapBits::B64 => Range::up_to(u64::MAX),
    }
}

/// The range of what a byte swap leaves.
fn range_swapped(profile: Profile, kind: SwapKind, bits: SwapBits, a: Range) -> Range
    ensures { result ≡ swapped_range profile kind bits a }
{
    match (profile, kind) {
        (Profile::Second, SwapKind::ToLittle) => a.low(swapped_bits(bits)),
        _ => range_turned(kind, bits, a),
    }
}

impl Number {
    /// What an operation leaves of two numbers. A move reads the second alone, a negation the first alone.
    pub fn operated(profile: Profile, op: Op, width: Width, a: Number, b: Number) -> Option<Number>
        requires left { IsNumber a }
        requires right { IsNumber b }
        ensures table { result ≡ numbers profile op width a b }
        ensures number { IfSome result IsNumber }
    {
        let range = result_range(profile, op, width, a.range, b.range);
        Number::settled(profile, range, result_bits(op, width, a, b))
    }

    /// What a byte swap leaves of a number.
    pub fn swapped(self, profile: Profile, kind: SwapKind, bits: SwapBits) -> Option<Number>
        ensures table { result ≡ swapped_number profile kind bits self }
        ensures number { IfSome result IsNumber }
    {
        let range = range_swapped(profile, kind, bits, self.range);
        Number::settled(profile, range, Bits::nothing())
    }
}
