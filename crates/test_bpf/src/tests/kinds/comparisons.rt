//! What conditions tell of their operands, row by row.

use super::known::Known::{Input, Num, One, Stack, Unset};
use super::known::{FULL, FULL_32, Known, is_kind};
use super::{HALF, HALF_32, MAX, MAX_32, PAST_32};
use bpf_alu::Cond::*;
use bpf_alu::Width::*;
use bpf_alu::{Cond, Width};
use bpf_ranges::{Kind, Profile, refine};
use std::test::Fail;
use test_support::expect;

/// What is known of two operands.
pub type Pair = (Known, Known);

/// A condition, its width, what is known before it, and what is known where it holds and where it does not.
pub type Row = (Cond, Width, Pair, (Pair, Pair));

/// The kinds that say what is known of two operands.
fn kinds_of(profile: Profile, (a, b): Pair) -> (Kind, Kind) {
    (a.kind(profile), b.kind(profile))
}

/// Whether a condition leaves so much of what is known.
fn narrows(profile: Profile, row: &Row) -> bool {
    let (cond, width, before, (taken, passed)) = *row;
    let (a, b) = kinds_of(profile, before);
    is_kind(a)
        && is_kind(b)
        && refine(profile, cond, width, a, b, true) == kinds_of(profile, taken)
        && refine(profile, cond, width, a, b, false) == kinds_of(profile, passed)
}

/// Tells what conditions leave of what is known.
pub fn narrow(profile: Profile, rows: &[Row]) -> Result<(), Fail> {
    for (place, row) in rows.iter().enumerate() {
        expect(narrows(profile, row), &place)?;
    }
    Ok(())
}

const PAIR: Pair = (Num(0, 10), Num(5, 20));

/// The numbers that both of the pair may be.
const COMMON: Pair = (Num(5, 10), Num(5, 10));

/// The pair where the first is greater.
const GREATER: Pair = (Num(6, 10), Num(5, 9));

const APART: Pair = (Num(0, 3), Num(5, 9));

const TOUCHING: Pair = (Num(0, 5), Num(5, 9));

const WIDE: Pair = (Num(0, PAST_32), One(7));

const EQUALITY: &[Row] = &[
    (Equal, W64, PAIR, (COMMON, PAIR)),
    (NotEqual, W64, PAIR, (PAIR, COMMON)),
    (Equal, W32, PAIR, (COMMON, PAIR)),
    (Equal, W64, APART, (APART, APART)),
    (Equal, W64, TOUCHING, ((One(5), One(5)), TOUCHING)),
    (Equal, W32, WIDE, (WIDE, WIDE)),
    (Equal, W64, WIDE, ((One(7), One(7)), WIDE)),
    (AnySet, W64, PAIR, (PAIR, PAIR)),
];

const ANY: Pair = (FULL, One(255));

const ABOVE_BYTE: Pair = (Num(256, MAX), One(255));

const IN_BYTE: Pair = (Num(0, 255), One(255));

const ANY_32: Pair = (FULL_32, One(255));

const ABOVE_BYTE_32: Pair = (Num(256, MAX_32), One(255));

const PAST: Pair = (Num(0, PAST_32), One(255));

const UNSIGNED_ORDER: &[Row] = &[
    (Greater, W64, PAIR, (GREATER, PAIR)),
    (GreaterEqual, W64, PAIR, (COMMON, PAIR)),
    (Less, W64, PAIR, (PAIR, COMMON)),
    (LessEqual, W64, PAIR, (PAIR, GREATER)),
    (Greater, W64, ANY, (ABOVE_BYTE, IN_BYTE)),
    (Greater, W32, ANY, (ANY, ANY)),
    (Greater, W32, ANY_32, (ABOVE_BYTE_32, IN_BYTE)),
    (Greater, W32, PAST, (PAST, PAST)),
];

/// A condition, its width, and what is known of two operands before it and after it, whether it holds or not.
type Kept = (Cond, Width, Pair);

/// Tells that conditions leave what is known as it is.
fn keeps(rows: &[Kept]) -> Result<(), Fail> {
    for (place, &(cond, width, pair)) in rows.iter().enumerate() {
        let row = (cond, width, pair, (pair, pair));
        expect(narrows(Profile::First, &row), &place)?;
    }
    Ok(())
}

const NOTHING_LEFT: &[Kept] = &[
    (Greater, W64, (FULL, One(MAX))),
    (Less, W64, (One(MAX), FULL)),
    (Greater, W64, (One(0), Num(0, 5))),
    (Less, W64, (Num(10, 20), Num(0, 5))),
    (LessEqual, W64, (Num(10, 20), Num(0, 5))),
];

/// Where no number is left on one way, what was known stays.
const WITHIN: Pair = (Num(0, HALF - 1), One(10));

const WITHIN_32: Pair = (Num(0, HALF_32 - 1), One(10));

const BELOW: Pair = (Num(0, 9), One(10));

const UP_TO: Pair = (Num(0, 10), One(10));

const FROM: Pair = (Num(10, HALF - 1), One(10));

const FROM_32: Pair = (Num(10, HALF_32 - 1), One(10));

const ABOVE: Pair = (Num(11, HALF - 1), One(10));

const ABOVE_32: Pair = (Num(11, HALF_32 - 1), One(10));

const SIGNED_ORDER: &[Row] = &[
    (SignedLess, W64, WITHIN, (BELOW, FROM)),
    (SignedLessEqual, W64, WITHIN, (UP_TO, ABOVE)),
    (SignedGreater, W64, WITHIN, (ABOVE, UP_TO)),
    (SignedGreaterEqual, W64, WITHIN, (FROM, BELOW)),
    (SignedLess, W32, WITHIN_32, (BELOW, FROM_32)),
    (SignedLessEqual, W32, WITHIN_32, (UP_TO, ABOVE_32)),
    (SignedGreater, W32, WITHIN_32, (ABOVE_32, UP_TO)),
    (SignedGreaterEqual, W32, WITHIN_32, (FROM_32, BELOW)),
];

/// Signed orders narrow numbers below half of the width, as if they had no sign.
const SIGNED: [Cond; 4] = [
    SignedLess,
    SignedLessEqual,
    SignedGreater,
    SignedGreaterEqual,
];

const PAST_HALF: &[(Width, Pair)] = &[
    (W64, (Num(0, HALF), One(10))),
    (W64, (One(10), Num(0, HALF))),
    (W64, (FULL, One(10))),
    (W32, (Num(0, HALF_32), One(10))),
    (W32, (One(10), Num(0, HALF_32))),
    (W32, (FULL_32, One(10))),
];

/// Tells that a condition narrows nothing that reaches half of the width.
fn keeps_past_half(cond: Cond) -> Result<(), Fail> {
    for &(width, pair) in PAST_HALF {
        keeps(&[(cond, width, pair)])?;
    }
    Ok(())
}

/// Signed orders narrow nothing that reaches half of the width.
#[test]
fn signed_order_past_half(_rt: HostRuntime) -> Result<(), Fail> {
    for cond in &SIGNED {
        keeps_past_half(*cond)?;
    }
    Ok(())
}

const NO_NUMBERS: &[Kept] = &[
    (Equal, W64, (Unset, One(1))),
    (Equal, W64, (One(1), Unset)),
    (Equal, W64, (Stack(0, 8), One(1))),
    (Equal, W64, (Num(0, 1), Input(0, 8))),
];

#[test]
fn conditions_that_narrow(_rt: HostRuntime) -> Result<(), Fail> {
    narrow(Profile::First, EQUALITY)?;
    narrow(Profile::First, UNSIGNED_ORDER)?;
    narrow(Profile::First, SIGNED_ORDER)?;
    Ok(())
}

#[test]
fn conditions_that_keep(_rt: HostRuntime) -> Result<(), Fail> {
    keeps(NOTHING_LEFT)?;
    keeps(NO_NUMBERS)?;
    Ok(())
}
