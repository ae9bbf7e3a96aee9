//! What is known of the two words of a cell.

use super::joins::{Joined, are_joined};
use super::known::Known::{Dead, Num, One, Stack, Unset, Words};
use super::known::{FULL, FULL_32, Half, Known, is_kind};
use super::{MAX, MAX_32, PAST_32};
use bpf_ranges::{Part, Profile};

const SMALL: Half = Some((3, 9));

const ANY: Half = Some((0, 0xffff_ffff));

const ZERO: Half = Some((0, 0));

/// What is known of a cell, which part of it is read, and what is known of that.
type Read = (Known, Part, Known);

const READS: &[Read] = &[
    (Num(3, 9), Part::Whole, Num(3, 9)),
    (Num(3, 9), Part::Low, Num(3, 9)),
    (Num(3, 9), Part::High, Num(0, 0)),
    (Num(PAST_32 + 3, PAST_32 + 9), Part::Low, Num(3, 9)),
    (Num(PAST_32 + 3, PAST_32 + 9), Part::High, Num(1, 1)),
    (Num(MAX_32, PAST_32), Part::Low, FULL_32),
    (Num(MAX_32, PAST_32), Part::High, Num(0, 1)),
    (FULL, Part::Low, FULL_32),
    (FULL, Part::High, FULL_32),
    (One(MAX), Part::Low, Num(MAX_32, MAX_32)),
    (Dead, Part::Whole, Dead),
    (Dead, Part::Low, FULL_32),
    (Stack(-8, 0), Part::Whole, Stack(-8, 0)),
    (Stack(-8, 0), Part::Low, Unset),
    (Stack(-8, 0), Part::High, Unset),
    (Unset, Part::Low, Unset),
    (Words(SMALL, ZERO), Part::Whole, Num(3, 9)),
    (
        Words(SMALL, Some((1, 2))),
        Part::Whole,
        Num(PAST_32 + 3, 2 * PAST_32 + 9),
    ),
    (Words(ANY, ANY), Part::Whole, FULL),
    (Words(SMALL, None), Part::Whole, Unset),
    (Words(None, SMALL), Part::Whole, Unset),
    (Words(SMALL, None), Part::Low, Num(3, 9)),
    (Words(SMALL, None), Part::High, Unset),
    (Words(None, SMALL), Part::Low, Unset),
    (Words(None, SMALL), Part::High, Num(3, 9)),
];

/// Whether a part of a cell is read so by the first profile, which knows no bits.
fn is_read(row: &Read) -> bool {
    let cell = row.0.kind(Profile::First);
    is_kind(cell) && cell.part(Profile::First, row.1) == row.2.kind(Profile::First)
}

#[test]
fn parts_are_read(rt: HostRuntime) {
    for row in READS {
        assert!(rt; is_read(row));
    }
}

/// What is known of a cell, which part of it is written, what is known of what is stored there, and of the cell then.
type Written = (Known, Part, Known, Known);

const WRITES: &[Written] = &[
    (Stack(-8, 0), Part::Whole, Num(3, 9), Num(3, 9)),
    (Num(3, 9), Part::Whole, Stack(-8, 0), Stack(-8, 0)),
    (Words(SMALL, None), Part::Whole, Num(1, 2), Num(1, 2)),
    (Stack(-8, 0), Part::Low, Num(3, 9), Words(SMALL, None)),
    (Stack(-8, 0), Part::High, Num(3, 9), Words(None, SMALL)),
    (Unset, Part::Low, Num(3, 9), Words(SMALL, None)),
    (One(0), Part::Low, Num(3, 9), Words(SMALL, ZERO)),
    (One(0), Part::High, Num(3, 9), Words(ZERO, SMALL)),
    (FULL, Part::Low, Num(3, 9), Words(SMALL, ANY)),
    (Dead, Part::High, Num(3, 9), Words(ANY, SMALL)),
    (Words(SMALL, None), Part::High, One(0), Words(SMALL, ZERO)),
    (Words(SMALL, None), Part::Low, One(0), Words(ZERO, None)),
    (One(0), Part::Low, FULL, Words(ANY, ZERO)),
    (
        One(0),
        Part::Low,
        Num(PAST_32 + 3, PAST_32 + 9),
        Words(SMALL, ZERO),
    ),
    (One(0), Part::Low, Dead, Words(ANY, ZERO)),
];

/// Whether a cell is known so after a part of it was written.
fn is_written(row: &Written) -> bool {
    let cell = row.0.kind(Profile::First);
    let stored = row.2.kind(Profile::First);
    is_kind(cell) && is_kind(stored) && cell.with_part(row.1, stored) == row.3.kind(Profile::First)
}

#[test]
fn parts_are_written(rt: HostRuntime) {
    for row in WRITES {
        assert!(rt; is_written(row));
    }
}

const JOINS: &[Joined] = &[
    (
        Words(SMALL, None),
        Words(Some((5, 20)), ZERO),
        Words(Some((3, 20)), None),
    ),
    (Words(SMALL, ZERO), Num(20, 20), Words(Some((3, 20)), ZERO)),
    (Num(20, 20), Words(SMALL, ZERO), Words(Some((3, 20)), ZERO)),
    (Words(SMALL, ZERO), Dead, Words(SMALL, ZERO)),
    (Dead, Words(None, ZERO), Words(None, ZERO)),
    (Words(SMALL, ZERO), Stack(-8, 0), Unset),
    (Stack(-8, 0), Words(SMALL, ZERO), Unset),
    (Words(SMALL, ZERO), Unset, Unset),
    (Unset, Words(SMALL, ZERO), Unset),
];

#[test]
fn words_join(rt: HostRuntime) {
    for row in JOINS {
        assert!(rt; are_joined(Profile::First, row));
    }
}
