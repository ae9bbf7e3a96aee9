//! What is known where two ways meet, and ranges of numbers.

use super::MAX;
use super::known::Known::{Input, Num, One, Stack, Unset};
use super::known::{FULL, Known, is_kind};
use bpf_ranges::{Kind, Number, Profile, Range, join};

/// What is known on two ways, and where they meet.
pub type Joined = (Known, Known, Known);

const JOINS: &[Joined] = &[
    (Num(0, 5), Num(3, 9), Num(0, 9)),
    (One(1), One(7), Num(1, 7)),
    (One(MAX), One(0), FULL),
    (Stack(-8, 0), Stack(-16, -4), Stack(-16, 0)),
    (Stack(-8, 0), Input(-8, 0), Unset),
    (Stack(0, 0), One(0), Unset),
    (One(0), Stack(0, 0), Unset),
    (Unset, One(0), Unset),
    (Input(0, 0), Unset, Unset),
    (Unset, Unset, Unset),
];

/// Whether two ways meet so.
pub fn are_joined(profile: Profile, row: &Joined) -> bool {
    let (a, b) = (row.0.kind(profile), row.1.kind(profile));
    is_kind(a) && is_kind(b) && join(profile, a, b) == row.2.kind(profile)
}

#[test]
fn joins(rt: HostRuntime) {
    for row in JOINS {
        assert!(rt; are_joined(Profile::First, row));
    }
}

/// Whether a range has these ends, and whether it is of one number.
fn is_range(range: Range, lo: u64, hi: u64, single: bool) -> bool {
    range == Range { lo, hi } && range.is_single() == single
}

#[test]
fn ranges(rt: HostRuntime) {
    let up_to = Range::up_to(7);
    let told = is_range(Range::single(7), 7, 7, true)
        && is_range(up_to, 0, 7, false)
        && Kind::Num(Number::of(up_to)) == Num(0, 7).kind(Profile::First);
    assert!(rt; told);
}
