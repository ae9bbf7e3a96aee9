//! What operations leave, row by row.

use super::known::Known::{Input, Num, One, Stack, Unset};
use super::known::{FULL, FULL_32, Known, is_kind};
use super::pointers::{MASKED_POINTER, POINTER_DIFFERENCES, POINTER_FACTOR, POINTER_SUMS};
use super::{HALF, HALF_32, MAX, MAX_32, PAST_32};
use bpf_alu::Op::*;
use bpf_alu::SwapBits::*;
use bpf_alu::SwapKind::*;
use bpf_alu::Width::*;
use bpf_alu::{Op, SwapBits, SwapKind, Width};
use bpf_ranges::{Bad, Kind, Profile, transfer, transfer_swap};
use std::test::Fail;
use test_support::expect;

/// A width, what is known of the destination and of the source, and what is known of the destination after it.
pub type Row = (Width, Known, Known, Result<Known, Bad>);

/// Whether a result is known so.
fn is_known(profile: Profile, known: Result<Kind, Bad>, want: Result<Known, Bad>) -> bool {
    match (known, want) {
        (Ok(kind), Ok(want)) => kind == want.kind(profile),
        (Err(bad), Err(why)) => bad == why,
        _ => false,
    }
}

/// Whether an operation leaves what its row says.
fn leaves(profile: Profile, op: Op, row: &Row) -> bool {
    let (width, a, b, want) = *row;
    let (a, b) = (a.kind(profile), b.kind(profile));
    is_kind(a) && is_kind(b) && is_known(profile, transfer(profile, op, width, a, b), want)
}

/// Tells what an operation leaves.
pub fn leave(profile: Profile, op: Op, rows: &[Row]) -> Result<(), Fail> {
    for (place, row) in rows.iter().enumerate() {
        expect(leaves(profile, op, row), &place)?;
    }
    Ok(())
}

const MOVES: &[Row] = &[
    (W64, Unset, Num(3, 9), Ok(Num(3, 9))),
    (W64, Unset, Input(-4, 4), Ok(Input(-4, 4))),
    (W64, One(7), FULL, Ok(FULL)),
    (W32, Unset, Num(3, 9), Ok(Num(3, 9))),
    (W32, Unset, Num(0, MAX_32), Ok(FULL_32)),
    (W32, Unset, Num(0, PAST_32), Ok(FULL_32)),
    (W32, Unset, Num(PAST_32, PAST_32 + 1), Ok(FULL_32)),
    (W32, Unset, One(PAST_32 + 5), Ok(One(5))),
    (W32, Unset, One(MAX), Ok(One(MAX_32))),
    (W32, Unset, Input(0, 0), Err(Bad::V22)),
];

const SUMS: &[Row] = &[
    (W64, Num(0, 5), Num(1, 2), Ok(Num(1, 7))),
    (W64, Num(1, MAX), One(0), Ok(Num(1, MAX))),
    (W64, Num(1, MAX), Num(0, 1), Ok(FULL)),
    (W64, One(HALF), Num(0, HALF - 1), Ok(Num(HALF, MAX))),
    (W64, One(HALF), Num(0, HALF), Ok(FULL)),
    (W64, One(MAX), One(1), Ok(One(0))),
    (W32, Num(1, MAX_32), One(0), Ok(Num(1, MAX_32))),
    (W32, Num(1, MAX_32), Num(0, 1), Ok(FULL_32)),
    (W32, One(MAX_32), One(1), Ok(One(0))),
    (W32, Num(PAST_32, PAST_32 + 1), One(0), Ok(FULL_32)),
    (W32, One(PAST_32 + 7), Num(1, 2), Ok(Num(8, 9))),
];

const DIFFERENCES: &[Row] = &[
    (W64, Num(5, 9), Num(1, 3), Ok(Num(2, 8))),
    (W64, Num(5, 9), Num(1, 5), Ok(Num(0, 8))),
    (W64, Num(5, 9), Num(1, 6), Ok(FULL)),
    (W64, Num(HALF, MAX), Num(0, HALF), Ok(FULL)),
    (W64, Num(HALF, MAX), Num(1, HALF), Ok(Num(0, MAX - 1))),
    (W64, One(0), One(1), Ok(One(MAX))),
    (W32, Num(5, 9), Num(1, 5), Ok(Num(0, 8))),
    (W32, Num(5, 9), Num(1, 6), Ok(FULL_32)),
    (W32, One(0), One(1), Ok(One(MAX_32))),
];

const PRODUCTS: &[Row] = &[
    (W64, Num(2, 3), Num(4, 5), Ok(Num(8, 15))),
    (W64, FULL, One(1), Ok(FULL)),
    (
        W64,
        One(PAST_32),
        Num(1, MAX_32),
        Ok(Num(PAST_32, MAX - MAX_32)),
    ),
    (W64, One(PAST_32), Num(1, PAST_32), Ok(FULL)),
    (W64, One(HALF), One(2), Ok(One(0))),
    (
        W32,
        One(65536),
        Num(1, 65535),
        Ok(Num(65536, MAX_32 - 65535)),
    ),
    (W32, One(65536), Num(1, 65536), Ok(FULL_32)),
    (W32, One(65536), One(65537), Ok(One(65536))),
];

const QUOTIENTS: &[Row] = &[
    (W64, Num(10, 20), Num(2, 5), Ok(Num(2, 10))),
    (W64, Num(10, 20), Num(0, 5), Ok(Num(0, 20))),
    (W64, Num(10, 20), One(0), Ok(Num(0, 20))),
    (W64, FULL, One(1), Ok(FULL)),
    (W64, FULL, One(MAX), Ok(Num(0, 1))),
    (W64, One(7), One(0), Ok(One(0))),
    (W32, FULL, One(2), Ok(Num(0, HALF_32 - 1))),
    (W32, Num(1, 9), One(PAST_32), Ok(Num(0, 9))),
];

const SIGNED_QUOTIENTS: &[Row] = &[
    (W64, Num(10, 20), One(2), Ok(FULL)),
    (W64, One(MAX - 6), One(2), Ok(One(MAX - 2))),
    (W64, One(HALF), One(MAX), Ok(One(HALF))),
    (W32, Num(10, 20), One(2), Ok(FULL_32)),
    (W32, One(HALF_32), One(MAX_32), Ok(One(HALF_32))),
    (W32, One(7), One(0), Ok(One(0))),
];

const REMAINDERS: &[Row] = &[
    (W64, Num(10, 20), Num(3, 5), Ok(Num(0, 4))),
    (W64, Num(1, 3), Num(1, 10), Ok(Num(0, 3))),
    (W64, Num(10, 20), Num(0, 5), Ok(Num(0, 20))),
    (W64, FULL, One(1), Ok(One(0))),
    (W64, FULL, Num(1, MAX), Ok(Num(0, MAX - 1))),
    (W64, One(7), One(0), Ok(One(7))),
    (W32, One(PAST_32 + 7), One(0), Ok(One(7))),
    (W32, FULL, Num(0, 5), Ok(FULL_32)),
    (W32, FULL, Num(1, 5), Ok(Num(0, 4))),
];

const SIGNED_REMAINDERS: &[Row] = &[
    (W64, Num(10, 20), One(3), Ok(FULL)),
    (W64, One(MAX - 6), One(3), Ok(One(MAX))),
    (W32, Num(10, 20), One(3), Ok(FULL_32)),
    (W32, One(HALF_32), One(MAX_32), Ok(One(0))),
];

const COMMON_BITS: &[Row] = &[
    (W64, Num(4, 12), Num(2, 10), Ok(Num(0, 10))),
    (W64, One(255), FULL, Ok(Num(0, 255))),
    (W64, FULL, FULL, Ok(FULL)),
    (W64, One(12), One(10), Ok(One(8))),
    (W32, FULL, One(255), Ok(Num(0, 255))),
    (W32, FULL, One(PAST_32 + 15), Ok(Num(0, 15))),
];

const UNITED_BITS: &[Row] = &[
    (W64, Num(1, 5), Num(1, 8), Ok(Num(0, 15))),
    (W64, Num(0, 7), Num(0, 7), Ok(Num(0, 7))),
    (W64, Num(0, 8), Num(0, 7), Ok(Num(0, 15))),
    (W64, One(0), Num(0, 1), Ok(Num(0, 1))),
    (W64, One(0), One(0), Ok(One(0))),
    (W64, Num(0, PAST_32), One(0), Ok(Num(0, 2 * PAST_32 - 1))),
    (W64, Num(0, HALF), One(0), Ok(FULL)),
    (W64, Num(0, HALF - 1), One(0), Ok(Num(0, HALF - 1))),
    (W32, Num(0, PAST_32), One(0), Ok(FULL_32)),
    (W32, Num(0, HALF_32), One(0), Ok(FULL_32)),
    (
        W32,
        Num(0, HALF_32 - 1),
        One(PAST_32),
        Ok(Num(0, HALF_32 - 1)),
    ),
];

const TWELVE_OR_TEN: &[Row] = &[(W64, One(12), One(10), Ok(One(14)))];

const TWELVE_XOR_TEN: &[Row] = &[(W64, One(12), One(10), Ok(One(6)))];

const LEFT_SHIFTS: &[Row] = &[
    (W64, Num(1, 3), One(4), Ok(Num(16, 48))),
    (W64, Num(1, 3), Num(0, 1), Ok(FULL)),
    (W64, Num(1, 3), One(64), Ok(Num(1, 3))),
    (W64, Num(0, 1), One(63), Ok(Num(0, HALF))),
    (W64, Num(0, 2), One(63), Ok(FULL)),
    (W64, One(3), One(63), Ok(One(HALF))),
    (W32, Num(1, 3), One(32), Ok(Num(1, 3))),
    (W32, Num(0, 1), One(31), Ok(Num(0, HALF_32))),
    (W32, Num(0, 2), One(31), Ok(FULL_32)),
];

const RIGHT_SHIFTS: &[Row] = &[
    (W64, Num(16, 48), One(4), Ok(Num(1, 3))),
    (W64, Num(16, 48), Num(0, 1), Ok(Num(0, 48))),
    (W64, Num(16, 48), One(68), Ok(Num(1, 3))),
    (W64, FULL, One(63), Ok(Num(0, 1))),
    (W32, FULL, One(31), Ok(Num(0, 1))),
    (W32, Num(16, 48), One(36), Ok(Num(1, 3))),
];

const SIGNED_SHIFTS: &[Row] = &[
    (W64, Num(16, 48), One(4), Ok(Num(1, 3))),
    (W64, Num(16, 48), Num(0, 1), Ok(Num(0, 48))),
    (W64, Num(0, HALF - 1), One(62), Ok(Num(0, 1))),
    (W64, Num(0, HALF), One(62), Ok(FULL)),
    (W64, One(MAX), One(63), Ok(One(MAX))),
    (W32, Num(0, HALF_32 - 1), One(30), Ok(Num(0, 1))),
    (W32, Num(0, HALF_32), One(30), Ok(FULL_32)),
    (W32, One(HALF_32), One(31), Ok(One(MAX_32))),
];

const NEGATIONS: &[Row] = &[
    (W64, Num(1, 2), Unset, Ok(FULL)),
    (W64, One(1), Unset, Ok(One(MAX))),
    (W64, One(0), Unset, Ok(One(0))),
    (W32, Num(1, 2), Unset, Ok(FULL_32)),
    (W32, One(PAST_32 + 1), Unset, Ok(One(MAX_32))),
    (W64, Stack(0, 0), One(1), Err(Bad::V22)),
];

const BYTES_EXTENDED: &[Row] = &[
    (W64, Unset, Num(0, 1), Ok(FULL)),
    (W64, Unset, One(0x180), Ok(One(MAX - 127))),
    (W32, Unset, Num(0, 1), Ok(FULL_32)),
    (W32, Unset, One(0x80), Ok(One(MAX_32 - 127))),
    (W64, One(0), Stack(0, 0), Err(Bad::V22)),
];

const HALVES_EXTENDED: &[Row] = &[
    (W64, Unset, One(0x8000), Ok(One(MAX - 32767))),
    (W32, Unset, One(0x7fff), Ok(One(0x7fff))),
];

const WORDS_EXTENDED: &[Row] = &[
    (W64, Unset, One(HALF_32), Ok(One(MAX - HALF_32 + 1))),
    (W64, Unset, Num(0, 1), Ok(FULL)),
];

/// Operations, and what they leave.
const OPERATIONS: &[(Op, &[Row])] = &[
    (Mov, MOVES),
    (Add, SUMS),
    (Sub, DIFFERENCES),
    (Mul, PRODUCTS),
    (Div, QUOTIENTS),
    (SignedDiv, SIGNED_QUOTIENTS),
    (Mod, REMAINDERS),
    (SignedMod, SIGNED_REMAINDERS),
    (And, COMMON_BITS),
    (Or, UNITED_BITS),
    (Xor, UNITED_BITS),
    (Or, TWELVE_OR_TEN),
    (Xor, TWELVE_XOR_TEN),
    (Lsh, LEFT_SHIFTS),
    (Rsh, RIGHT_SHIFTS),
    (Arsh, SIGNED_SHIFTS),
    (Neg, NEGATIONS),
    (Movsx8, BYTES_EXTENDED),
    (Movsx16, HALVES_EXTENDED),
    (Movsx32, WORDS_EXTENDED),
    (Add, POINTER_SUMS),
    (Sub, POINTER_DIFFERENCES),
    (And, MASKED_POINTER),
    (Mul, POINTER_FACTOR),
];

#[test]
fn operations(_rt: HostRuntime) -> Result<(), Fail> {
    for (op, rows) in OPERATIONS {
        leave(Profile::First, *op, rows)?;
    }
    Ok(())
}

/// A byte swap, what is known before it, and what after it.
pub type Swapped = (SwapKind, SwapBits, Known, Result<Known, Bad>);

const SWAPS: &[Swapped] = &[
    (ToBig, B16, One(0x1234), Ok(One(0x3412))),
    (ToLittle, B16, One(0x12345), Ok(One(0x2345))),
    (Swap, B32, One(0x1122_3344), Ok(One(0x4433_2211))),
    (ToBig, B64, One(1), Ok(One(1 << 56))),
    (ToBig, B16, Num(0, 1), Ok(Num(0, 65535))),
    (ToLittle, B32, Num(0, 1), Ok(FULL_32)),
    (ToLittle, B64, Num(0, 1), Ok(FULL)),
    (Swap, B64, Stack(0, 0), Err(Bad::V22)),
    (ToBig, B32, Input(0, 8), Err(Bad::V22)),
];

/// Whether a byte swap leaves what its row says.
fn is_swapped(profile: Profile, row: &Swapped) -> bool {
    let (kind, bits, a, want) = *row;
    let a = a.kind(profile);
    is_kind(a) && is_known(profile, transfer_swap(profile, kind, bits, a), want)
}

/// Tells what byte swaps leave.
pub fn tell_swaps(profile: Profile, rows: &[Swapped]) -> Result<(), Fail> {
    for (place, row) in rows.iter().enumerate() {
        expect(is_swapped(profile, row), &place)?;
    }
    Ok(())
}

#[test]
fn swaps(_rt: HostRuntime) -> Result<(), Fail> {
    tell_swaps(Profile::First, SWAPS)
}
