//! The second table of kinds, where it differs from the first: bits that are known, sums that wrap, and where nothing is left.

use super::comparisons::{Pair, Row as Compared, narrow};
use super::joins::{Joined, are_joined};
use super::known::Known::{Bits, Dead, Num, One, Stack, Unset};
use super::known::{FULL, Known};
use super::operations::{Row, Swapped, leave, tell_swaps};
use super::{HALF, HALF_32, MAX, MAX_32, PAST_32};
use bpf_alu::Cond::*;
use bpf_alu::Op;
use bpf_alu::Op::*;
use bpf_alu::SwapBits::*;
use bpf_alu::SwapKind::*;
use bpf_alu::Width::*;
use bpf_ranges::Bad;
use bpf_ranges::Profile::Second;
use std::test::Fail;
use test_support::expect;

/// The bits that no number of 32 bits has.
const HIGH: u64 = !MAX_32;

const BYTE: Known = Bits(0, 255, !255, 0);

const WORD: Known = Bits(0, MAX_32, HIGH, 0);

/// The multiples of eight.
const EIGHTS: Known = Bits(0, MAX - 7, 7, 0);

/// The nibbles, moved up by four bits.
const NIBBLES: Known = Bits(0, 0xf0, !0xf0, 0);

/// The farthest offset of a pointer.
const FAR_OFFSET: i64 = 1 << 33;

const FAR: u64 = 1 << 33;

const MOVES: &[Row] = &[
    (W64, Unset, EIGHTS, Ok(EIGHTS)),
    (W32, Unset, FULL, Ok(WORD)),
    (W32, Unset, EIGHTS, Ok(Bits(0, MAX_32 - 7, HIGH | 7, 0))),
    (W32, Unset, Num(PAST_32, PAST_32 + 255), Ok(BYTE)),
    (W32, Unset, Num(MAX_32, PAST_32), Ok(WORD)),
    (W64, One(1), Dead, Ok(Dead)),
];

const SUMS: &[Row] = &[
    (W64, Bits(1, 4, !7, 0), One(MAX), Ok(Bits(0, 3, !3, 0))),
    (W64, Bits(0, 4, !7, 0), One(MAX), Ok(FULL)),
    (W64, EIGHTS, One(5), Ok(Bits(5, MAX - 2, 2, 5))),
    (W32, Bits(1, 4, !7, 0), One(MAX_32), Ok(Bits(0, 3, !3, 0))),
    (
        W32,
        Num(PAST_32, PAST_32 + 1),
        One(0),
        Ok(Bits(0, 1, !1, 0)),
    ),
    (W64, Dead, BYTE, Ok(Dead)),
    (W64, Stack(0, 0), Dead, Ok(Stack(0, 0))),
    (W64, Stack(-256, -256), NIBBLES, Ok(Stack(-256, -16))),
    (W64, Stack(0, 0), Num(0, FAR), Ok(Stack(0, FAR_OFFSET))),
    (W64, Stack(0, 0), Num(0, FAR + 1), Err(Bad::V23)),
];

const DIFFERENCES: &[Row] = &[
    (W64, Bits(0, 3, !3, 0), One(4), Ok(Num(MAX - 3, MAX))),
    (W64, Bits(5, 9, !15, 0), Bits(1, 6, !7, 0), Ok(FULL)),
    (
        W64,
        Bits(5, 9, !15, 0),
        Bits(1, 5, !7, 0),
        Ok(Bits(0, 8, !15, 0)),
    ),
    (
        W32,
        Bits(0, 1, !1, 0),
        One(2),
        Ok(Bits(MAX_32 - 1, MAX_32, HIGH, 0)),
    ),
    (W64, NIBBLES, One(16), Ok(Bits(0, MAX - 15, 15, 0))),
];

const PRODUCTS: &[Row] = &[
    (W64, EIGHTS, One(2), Ok(FULL)),
    (W64, BYTE, One(3), Ok(Bits(0, 765, !1023, 0))),
];

const AND: &[Row] = &[
    (W64, FULL, One(0xf0), Ok(NIBBLES)),
    (W64, FULL, One(!7), Ok(EIGHTS)),
    (W32, FULL, One(!7), Ok(Bits(0, MAX_32 - 7, HIGH | 7, 0))),
];

const OR: &[Row] = &[
    (W64, FULL, One(0xf0), Ok(Bits(0xf0, MAX, 0, 0xf0))),
    (W64, BYTE, One(1), Ok(Bits(1, 255, !255, 1))),
    (W32, FULL, One(0xf0), Ok(Bits(0xf0, MAX_32, HIGH, 0xf0))),
];

const XOR: &[Row] = &[(
    W64,
    Bits(0x10, 0x1f, !0x1f, 0x10),
    One(0x30),
    Ok(Bits(0x20, 0x2f, !0x2f, 0x20)),
)];

const LEFT_SHIFTS: &[Row] = &[
    (W64, BYTE, One(4), Ok(Bits(0, 0xff0, !0xff0, 0))),
    (W64, FULL, One(4), Ok(Bits(0, MAX - 15, 15, 0))),
    (W64, BYTE, BYTE, Ok(FULL)),
    (W64, One(1), Bits(0, 3, !3, 0), Ok(Bits(1, 8, !15, 0))),
    (W64, BYTE, Bits(0, 56, !63, 0), Ok(Num(0, 255 << 56))),
    (W64, BYTE, Bits(0, 57, !63, 0), Ok(FULL)),
    (
        W32,
        One(1),
        Bits(0, 31, !31, 0),
        Ok(Bits(1, HALF_32, HIGH, 0)),
    ),
    (W32, One(1), Bits(0, 32, !63, 0), Ok(WORD)),
    (
        W32,
        BYTE,
        One(28),
        Ok(Bits(0, 0xf000_0000, HIGH | 0xfff_ffff, 0)),
    ),
];

const RIGHT_SHIFTS: &[Row] = &[
    (W64, Bits(0, 0xff0, !0xff0, 0), One(4), Ok(BYTE)),
    (W64, NIBBLES, One(3), Ok(Bits(0, 30, !30, 0))),
];

const SIGNED_SHIFTS: &[Row] = &[
    (W64, BYTE, One(4), Ok(Bits(0, 15, !15, 0))),
    (W64, EIGHTS, One(3), Ok(FULL)),
];

const QUOTIENTS: &[Row] = &[
    (W64, BYTE, One(16), Ok(Bits(0, 15, !15, 0))),
    (W64, BYTE, One(0), Ok(BYTE)),
];

const REMAINDERS: &[Row] = &[(W64, FULL, One(10), Ok(Bits(0, 9, !15, 0)))];

/// The numbers of 64 bits that have no sign, and those of 32.
const POSITIVE: Known = Bits(0, HALF - 1, HALF, 0);

const POSITIVE_32: Known = Bits(0, HALF_32 - 1, !(HALF_32 - 1), 0);

const SIGNED_QUOTIENTS: &[Row] = &[
    (W64, BYTE, BYTE, Ok(BYTE)),
    (W64, BYTE, One(16), Ok(Bits(0, 15, !15, 0))),
    (W64, POSITIVE, One(1), Ok(POSITIVE)),
    (W64, Num(0, HALF), One(2), Ok(FULL)),
    (W64, BYTE, One(HALF - 1), Ok(One(0))),
    (W64, BYTE, One(HALF), Ok(FULL)),
    (
        W32,
        POSITIVE_32,
        One(2),
        Ok(Bits(0, HALF_32 / 2 - 1, !(HALF_32 / 2 - 1), 0)),
    ),
    (W32, WORD, One(2), Ok(WORD)),
];

const SIGNED_REMAINDERS: &[Row] = &[
    (W64, BYTE, BYTE, Ok(BYTE)),
    (W64, BYTE, One(16), Ok(Bits(0, 15, !15, 0))),
    (W64, BYTE, Bits(1, 4, !7, 0), Ok(Bits(0, 3, !3, 0))),
    (W64, FULL, One(16), Ok(FULL)),
    (W64, BYTE, One(MAX - 2), Ok(FULL)),
    (W32, BYTE, One(16), Ok(Bits(0, 15, !15, 0))),
    (W32, WORD, One(16), Ok(WORD)),
];

const BYTES_EXTENDED: &[Row] = &[
    (W64, Unset, BYTE, Ok(FULL)),
    (W64, Unset, Bits(0, 127, !127, 0), Ok(Bits(0, 127, !127, 0))),
    (W64, Unset, Bits(0, 128, !255, 0), Ok(FULL)),
    (W64, Unset, Bits(128, 255, !255, 0), Ok(Num(MAX - 127, MAX))),
    (W64, Unset, Num(261, 265), Ok(Bits(5, 9, !15, 0))),
    (W64, Unset, Num(250, 260), Ok(FULL)),
    (W32, Unset, BYTE, Ok(WORD)),
    (
        W32,
        Unset,
        Bits(128, 255, !255, 0),
        Ok(Bits(MAX_32 - 127, MAX_32, HIGH, 0)),
    ),
];

const HALVES_EXTENDED: &[Row] = &[
    (W64, Unset, BYTE, Ok(BYTE)),
    (
        W64,
        Unset,
        Bits(0, 0x7fff, !0x7fff, 0),
        Ok(Bits(0, 0x7fff, !0x7fff, 0)),
    ),
    (W64, Unset, Bits(0, 0x8000, !0xffff, 0), Ok(FULL)),
    (W32, Unset, BYTE, Ok(BYTE)),
];

/// A word whose sign is extended, which an instruction of 64 bits alone does.
const WORDS_EXTENDED: &[Row] = &[
    (W64, Unset, BYTE, Ok(BYTE)),
    (W64, Unset, POSITIVE_32, Ok(POSITIVE_32)),
    (W64, Unset, WORD, Ok(FULL)),
    (
        W64,
        Unset,
        Bits(HALF_32, MAX_32, HIGH, 0),
        Ok(Num(MAX - HALF_32 + 1, MAX)),
    ),
    (W64, Unset, One(HALF_32), Ok(One(MAX - HALF_32 + 1))),
    (W64, Unset, Dead, Ok(Dead)),
];

const NEGATIONS: &[Row] = &[
    (W64, BYTE, Unset, Ok(FULL)),
    (W64, Bits(1, 8, !15, 0), Unset, Ok(Num(MAX - 7, MAX))),
    (W64, Num(MAX - 7, MAX), Unset, Ok(Bits(1, 8, !15, 0))),
    (W32, BYTE, Unset, Ok(WORD)),
    (
        W32,
        Bits(1, 8, !15, 0),
        Unset,
        Ok(Bits(MAX_32 - 7, MAX_32, HIGH, 0)),
    ),
    (W64, Dead, Unset, Ok(Dead)),
];

/// Operations, and what they leave.
const OPERATIONS: &[(Op, &[Row])] = &[
    (Mov, MOVES),
    (Add, SUMS),
    (Sub, DIFFERENCES),
    (Mul, PRODUCTS),
    (And, AND),
    (Or, OR),
    (Xor, XOR),
    (Lsh, LEFT_SHIFTS),
    (Rsh, RIGHT_SHIFTS),
    (Arsh, SIGNED_SHIFTS),
    (Div, QUOTIENTS),
    (Mod, REMAINDERS),
    (SignedDiv, SIGNED_QUOTIENTS),
    (SignedMod, SIGNED_REMAINDERS),
    (Movsx8, BYTES_EXTENDED),
    (Movsx16, HALVES_EXTENDED),
    (Movsx32, WORDS_EXTENDED),
    (Neg, NEGATIONS),
];

const SWAPS: &[Swapped] = &[
    (ToBig, B16, BYTE, Ok(Bits(0, 0xffff, !0xffff, 0))),
    (ToLittle, B16, BYTE, Ok(BYTE)),
    (
        ToLittle,
        B16,
        Num(0x1_0005, 0x1_0009),
        Ok(Bits(5, 9, !15, 0)),
    ),
    (
        ToLittle,
        B16,
        Bits(0, 0x1_0000, !0x1_ffff, 0),
        Ok(Bits(0, 0xffff, !0xffff, 0)),
    ),
    (ToLittle, B32, BYTE, Ok(BYTE)),
    (ToLittle, B64, EIGHTS, Ok(Num(0, MAX - 7))),
    (Swap, B64, BYTE, Ok(FULL)),
    (ToBig, B64, One(1), Ok(One(1 << 56))),
    (ToBig, B16, Dead, Ok(Dead)),
];

#[test]
fn wider_operations(_rt: HostRuntime) -> Result<(), Fail> {
    for (op, rows) in OPERATIONS {
        leave(Second, *op, rows)?;
    }
    tell_swaps(Second, SWAPS)
}

const NONE: Pair = (Dead, Dead);

const ANY: Pair = (FULL, One(10));

/// The even numbers, and the odd ones.
const PARITIES: Pair = (Bits(0, MAX - 1, 1, 0), Bits(1, MAX, 0, 1));

const ONES: Pair = (One(3), One(9));

const WIDE: Pair = (FULL, One(255));

const EQUALITY: &[Compared] = &[
    (
        Equal,
        W64,
        (BYTE, One(0)),
        ((One(0), One(0)), (Bits(1, 255, !255, 0), One(0))),
    ),
    (
        NotEqual,
        W64,
        (One(255), BYTE),
        ((One(255), Bits(0, 254, !255, 0)), (One(255), One(255))),
    ),
    (
        NotEqual,
        W64,
        (BYTE, One(0)),
        ((Bits(1, 255, !255, 0), One(0)), (One(0), One(0))),
    ),
    (
        Equal,
        W64,
        (BYTE, One(7)),
        ((One(7), One(7)), (BYTE, One(7))),
    ),
    (Equal, W64, (One(3), One(3)), ((One(3), One(3)), NONE)),
    (Equal, W64, PARITIES, (NONE, PARITIES)),
    (
        Equal,
        W64,
        (EIGHTS, BYTE),
        (
            (Bits(0, 0xf8, !0xf8, 0), Bits(0, 0xf8, !0xf8, 0)),
            (EIGHTS, BYTE),
        ),
    ),
    (Equal, W64, (Dead, One(1)), (NONE, NONE)),
    (Equal, W32, WIDE, (WIDE, WIDE)),
];

const MASKS: &[Compared] = &[
    (
        AnySet,
        W64,
        (FULL, One(!255)),
        ((FULL, One(!255)), (BYTE, One(!255))),
    ),
    (
        AnySet,
        W64,
        (FULL, One(8)),
        (
            (Bits(8, MAX, 0, 8), One(8)),
            (Bits(0, MAX - 8, 8, 0), One(8)),
        ),
    ),
    (AnySet, W64, (FULL, BYTE), ((FULL, BYTE), (FULL, BYTE))),
    (AnySet, W64, (One(1), One(8)), (NONE, (One(1), One(8)))),
    (
        AnySet,
        W32,
        (FULL, One(8)),
        ((FULL, One(8)), (FULL, One(8))),
    ),
];

const UNDER_TEN: Pair = (Bits(0, 9, !15, 0), One(10));

const FROM_TEN: Pair = (Num(10, MAX), One(10));

const UP_TO_TEN: Pair = (Bits(0, 10, !15, 0), One(10));

const ABOVE_TEN: Pair = (Num(11, MAX), One(10));

const ORDER: &[Compared] = &[
    (GreaterEqual, W64, ANY, (FROM_TEN, UNDER_TEN)),
    (Less, W64, ANY, (UNDER_TEN, FROM_TEN)),
    (LessEqual, W64, ANY, (UP_TO_TEN, ABOVE_TEN)),
    (Greater, W64, ANY, (ABOVE_TEN, UP_TO_TEN)),
    (
        SignedLessEqual,
        W64,
        ANY,
        (ANY, (Bits(11, HALF - 1, HALF, 0), One(10))),
    ),
    (Greater, W64, ONES, (NONE, ONES)),
    (Greater, W32, WIDE, (WIDE, WIDE)),
    (
        Greater,
        W32,
        (WORD, One(255)),
        ((Bits(256, MAX_32, HIGH, 0), One(255)), (BYTE, One(255))),
    ),
    (
        SignedLess,
        W64,
        ANY,
        (ANY, (Bits(10, HALF - 1, HALF, 0), One(10))),
    ),
    (
        SignedGreater,
        W64,
        (FULL, One(MAX)),
        ((POSITIVE, One(MAX)), (Num(HALF, MAX), One(MAX))),
    ),
    (
        SignedGreaterEqual,
        W32,
        (WORD, One(10)),
        (
            (Bits(10, HALF_32 - 1, !(HALF_32 - 1), 0), One(10)),
            (WORD, One(10)),
        ),
    ),
];

#[test]
fn wider_conditions(_rt: HostRuntime) -> Result<(), Fail> {
    narrow(Second, EQUALITY)?;
    narrow(Second, MASKS)?;
    narrow(Second, ORDER)?;
    Ok(())
}

const JOINS: &[Joined] = &[
    (BYTE, One(256), Bits(0, 256, !511, 0)),
    (One(5), One(7), Bits(5, 7, !7, 5)),
    (One(8), One(24), Bits(8, 24, !24, 8)),
    (Dead, BYTE, BYTE),
    (BYTE, Dead, BYTE),
    (Stack(-8, 0), Dead, Stack(-8, 0)),
    (Unset, Dead, Unset),
    (Dead, Dead, Dead),
    (BYTE, Unset, Unset),
];

#[test]
fn wider_joins(_rt: HostRuntime) -> Result<(), Fail> {
    for row in JOINS {
        expect(are_joined(Second, row), &"join")?;
    }
    Ok(())
}
