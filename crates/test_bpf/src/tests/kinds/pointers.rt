//! Sums and differences of pointers, and the operations that take none.

use super::known::Known::{Input, Num, One, Stack};
use super::operations::Row;
use super::{HALF, MAX};
use bpf_alu::Width::*;
use bpf_ranges::Bad;

/// The farthest offset of a pointer by the first profile.
const FAR_OFFSET: i64 = 1 << 20;

const FAR: u64 = 1 << 20;

pub const POINTER_SUMS: &[Row] = &[
    (W64, Stack(-8, 0), Num(1, 2), Ok(Stack(-7, 2))),
    (W64, Num(1, 2), Stack(-8, 0), Ok(Stack(-7, 2))),
    (W64, Stack(-8, 0), One(MAX), Ok(Stack(-9, -1))),
    (W64, Stack(-8, 0), Num(MAX - 1, MAX), Ok(Stack(-10, -1))),
    (W64, Stack(-8, 0), Num(HALF - 1, HALF), Err(Bad::V23)),
    (W64, Stack(-8, 0), Num(0, MAX), Err(Bad::V23)),
    (W64, Input(0, 0), Num(0, FAR), Ok(Input(0, FAR_OFFSET))),
    (W64, Input(0, 0), Num(0, FAR + 1), Err(Bad::V23)),
    (W64, Input(0, 0), Num(HALF, MAX), Err(Bad::V23)),
    (
        W64,
        Input(0, 0),
        Num(MAX - FAR + 1, MAX),
        Ok(Input(-FAR_OFFSET, -1)),
    ),
    (W64, Input(0, 0), Num(MAX - FAR, MAX), Err(Bad::V23)),
    (W64, Input(0, 0), Input(0, 0), Err(Bad::V22)),
    (W32, Input(0, 0), One(1), Err(Bad::V22)),
];

pub const POINTER_DIFFERENCES: &[Row] = &[
    (W64, Stack(-8, 0), Num(1, 2), Ok(Stack(-10, -1))),
    (W64, Stack(-8, 0), One(MAX), Ok(Stack(-7, 1))),
    (W64, Input(0, 0), Num(0, FAR), Ok(Input(-FAR_OFFSET, 0))),
    (W64, Input(0, 0), Num(0, FAR + 1), Err(Bad::V23)),
    (W64, One(1), Input(0, 0), Err(Bad::V22)),
    (W64, Input(0, 0), Input(0, 0), Err(Bad::V22)),
    (W32, Input(0, 0), One(1), Err(Bad::V22)),
];

pub const MASKED_POINTER: &[Row] = &[(W64, Input(0, 0), One(1), Err(Bad::V22))];

pub const POINTER_FACTOR: &[Row] = &[(W64, One(1), Input(0, 0), Err(Bad::V22))];
