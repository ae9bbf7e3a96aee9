//! What is told of journals: of some that are one run nothing, and of others where they are none.

use crate::parts::building::key_of;
use crate::parts::judging::{Told, judge};
use crate::tests::audits::Step::{Merge, Put, Read, Restart};
use crate::tests::verdicts::shown_content;
use audit_journals::EntryFault;
use journal::{Entry, Journal};
use key_state::{Key, KeyState};
use peers::Answer;
use std::alloc::{AllocError, Global};
use std::mem::swap;
use std::test::Fail;
use test_support::expect;
use vnode::Vnode;

/// What happens at a vnode. What reads answer is kept, and named by its number from 1 on; 0 is the answer of none, which found nothing.
#[derive(Clone, Copy)]
enum Step {
    /// A put that had seen what a read answered, of a value or of a delete.
    Put(usize, Option<&'static [u8]>),
    Read,
    /// A merge of what a read answered, as that of the vnode and the place at hand, else of its own.
    Merge(Option<(u32, u64)>, usize),
    Restart,
}

/// The index of a vnode, a stamp, a key of one byte, and what happens there.
type At = (usize, u64, u8, Step);

const A: Option<&[u8]> = Some(b"a");

const B: Option<&[u8]> = Some(b"b");

/// The mark of a delete.
const GONE: Option<&[u8]> = None;

/// Vnodes with these identifiers, at which nothing happened.
fn open(alloc: Global, ids: &[u32]) -> Result<Vec<Vnode>, AllocError> {
    let mut vnodes = Vec::new(alloc);
    for id in ids {
        vnodes.push(Vnode::new(alloc, *id))?;
    }
    Ok(vnodes)
}

/// The answer with this number.
fn answered(answers: &[Answer], number: usize) -> Result<&Answer, Fail> {
    match answers.get(number) {
        Some(answer) => Ok(answer),
        None => Err(Fail::new("no such read")),
    }
}

/// Makes a step at a vnode.
fn happen(
    alloc: Global,
    vnode: &mut Vnode,
    answers: &mut Vec<Answer>,
    stamp: u64,
    key: &Key,
    step: Step,
) -> Result<(), Fail> {
    match step {
        Put(seen, value) => {
            let content = shown_content(alloc, value)?;
            let seen = answered(answers, seen)?.state.clock();
            let _put = vnode.put_lent(stamp, key, seen, &content)?;
        }
        Read => {
            let from = vnode.id();
            let (state, at) = vnode.read(stamp, key)?;
            answers.push(Answer { from, at, state })?;
        }
        Merge(named, number) => {
            let Answer { from, at, state } = answered(answers, number)?;
            let (from, at) = named.unwrap_or((*from, *at));
            let _merged = vnode.merge_lent(stamp, key, from, at, state)?;
        }
        Restart => {
            let _place = vnode.restart(stamp)?;
        }
    }
    Ok(())
}

/// Makes steps in turn, whose stamps are so much greater.
fn play(
    alloc: Global,
    vnodes: &mut [Vnode],
    answers: &mut Vec<Answer>,
    steps: &[At],
    later: u64,
) -> Result<(), Fail> {
    for &(index, stamp, key, step) in steps {
        let Some(vnode) = vnodes.get_mut(index) else {
            return Err(Fail::new("no such vnode"));
        };
        let key = key_of(alloc, &[key])?;
        happen(
            alloc,
            vnode,
            answers,
            stamp.saturating_add(later),
            &key,
            step,
        )?;
    }
    Ok(())
}

/// The answer of no read.
fn no_read(alloc: Global) -> Result<Vec<Answer>, AllocError> {
    let mut answers = Vec::new(alloc);
    answers.push(Answer {
        from: 0,
        at: 0,
        state: KeyState::new(alloc),
    })?;
    Ok(answers)
}

/// What is told of the journals of vnodes, which is the same where the first and the last change places.
fn judge_both_ways(alloc: Global, vnodes: &mut [Vnode]) -> Result<Told, Fail> {
    let told = judge(alloc, vnodes)?;
    if let [first, .., last] = vnodes {
        swap(first, last);
    }
    if judge(alloc, vnodes)? == told {
        Ok(told)
    } else {
        Err(Fail::new("something else the other way round"))
    }
}

/// What is told of vnodes with these identifiers, at which steps happen and then further ones. Of so many of them, from the first on, the
/// journals aren't judged.
fn tell(alloc: Global, ids: &[u32], aside: usize, steps: &[At], then: &[At]) -> Result<Told, Fail> {
    let mut vnodes = open(alloc, ids)?;
    let mut answers = no_read(alloc)?;
    play(alloc, &mut vnodes, &mut answers, steps, 0)?;
    play(alloc, &mut vnodes, &mut answers, then, 0)?;
    let aside = aside.min(vnodes.len());
    judge_both_ways(alloc, &mut vnodes[aside..])
}

/// The greatest identifier.
const LAST: u32 = u32::MAX;

/// Puts, reads, merges and restarts at three vnodes, of two keys; and merges of an earlier state, at its own vnode too.
const ROUND: &[At] = &[
    (0, 0, b'k', Read),
    (0, 1, b'k', Put(1, GONE)),
    (0, 2, b'k', Read),
    (1, 3, b'k', Merge(None, 2)),
    (2, 10, b'k', Read),
    (2, 11, b'k', Put(3, GONE)),
    (2, 12, b'k', Read),
    (0, 13, b'k', Merge(None, 4)),
    (1, 20, b'k', Restart),
    (1, 30, b'l', Read),
    (1, 31, b'l', Put(5, A)),
    (1, 32, b'l', Read),
    (2, 33, b'l', Merge(None, 6)),
    (0, 40, b'k', Read),
    (1, 50, b'k', Read),
    (1, 51, b'k', Put(8, B)),
    (1, 52, b'k', Read),
    (0, 53, b'k', Merge(None, 9)),
    (0, 60, b'k', Merge(None, 7)),
    (2, u64::MAX, b'k', Merge(None, 7)),
];

/// One that is set aside puts a `b` and reads. Then the one with the same identifier puts an `a` and reads.
const OTHER: &[At] = &[
    (0, 0, b'k', Put(0, B)),
    (0, 1, b'k', Read),
    (1, 0, b'k', Put(0, A)),
    (1, 1, b'k', Read),
];

const TWICE: EntryFault = EntryFault::Twice;

const FALLS: EntryFault = EntryFault::Falls;

const UNREAD: EntryFault = EntryFault::NoSource;

const ANOTHER: EntryFault = EntryFault::OtherState;

/// Identifiers of vnodes, how many of them aren't judged, steps and further ones, and what is told.
type Row = (&'static [u32], usize, &'static [At], &'static [At], Told);

const ROWS: &[Row] = &[
    // No vnode, vnodes at which nothing happened, restarts alone, and writes that go round.
    (&[], 0, &[], &[], None),
    (&[1, 0], 0, &[], &[], None),
    (
        &[LAST, 1, 0],
        0,
        &[(0, 0, b'k', Restart), (0, u64::MAX, b'k', Restart)],
        &[],
        None,
    ),
    (&[20, 10, 30], 0, ROUND, &[], None),
    // One stamp in two journals.
    (
        &[0, 1],
        0,
        &[(0, 5, b'k', Put(0, A)), (1, 5, b'k', Put(0, A))],
        &[],
        Some((TWICE, 1, 0)),
    ),
    // A merge of another content than its read answered.
    (
        &[0, 0, 1],
        1,
        OTHER,
        &[(2, 2, b'k', Merge(Some((0, 1)), 1))],
        Some((ANOTHER, 1, 0)),
    ),
    // Of two merges that with the lower stamp is told, at whichever vnode and for whichever fault.
    (
        &[0, 0, 3, 2],
        1,
        OTHER,
        &[
            (2, 4, b'k', Merge(Some((0, 1)), 1)),
            (3, 6, b'k', Merge(Some((0, 9)), 1)),
        ],
        Some((ANOTHER, 3, 0)),
    ),
    (
        &[0, 0, 3, 2],
        1,
        OTHER,
        &[
            (2, 4, b'k', Merge(Some((0, 9)), 1)),
            (3, 6, b'k', Merge(Some((0, 1)), 1)),
        ],
        Some((UNREAD, 3, 0)),
    ),
    (
        &[0, 0, 3, 2],
        1,
        OTHER,
        &[
            (2, 6, b'k', Merge(Some((0, 1)), 1)),
            (3, 4, b'k', Merge(Some((0, 9)), 1)),
        ],
        Some((UNREAD, 2, 0)),
    ),
    (
        &[0, 0, 3, 2],
        1,
        OTHER,
        &[
            (2, 6, b'k', Merge(Some((0, 9)), 1)),
            (3, 4, b'k', Merge(Some((0, 1)), 1)),
        ],
        Some((ANOTHER, 2, 0)),
    ),
];

#[test]
fn journals_are_judged(rt: HostRuntime) -> Result<(), Fail> {
    for (number, row) in ROWS.iter().enumerate() {
        let (ids, aside, steps, then, want) = *row;
        expect(tell(rt.alloc(), ids, aside, steps, then)? == want, &number)?;
    }
    Ok(())
}

/// Vnode 7 takes a put, a read, a put, a read, and a read of another key.
const SENT: &[At] = &[
    (0, 1, b'k', Put(0, GONE)),
    (0, 2, b'k', Read),
    (0, 3, b'k', Put(0, GONE)),
    (0, 4, b'k', Read),
    (0, 5, b'l', Read),
];

/// A merge at vnode 5 of what the first read answered: its stamp and its key, the vnode and the place that it names, and what is
/// told.
type Named = (u64, u8, (u32, u64), Told);

/// The merges, one at a time.
const MERGES: &[Named] = &[
    (9, b'k', (7, 1), None),
    (9, b'k', (7, 3), Some((ANOTHER, 5, 0))),
    (9, b'k', (7, 0), Some((UNREAD, 5, 0))),
    (9, b'k', (7, 2), Some((UNREAD, 5, 0))),
    (9, b'k', (7, 4), Some((UNREAD, 5, 0))),
    (9, b'k', (7, 5), Some((UNREAD, 5, 0))),
    (9, b'k', (7, u64::MAX), Some((UNREAD, 5, 0))),
    (9, b'l', (7, 1), Some((UNREAD, 5, 0))),
    (9, b'l', (7, 4), Some((ANOTHER, 5, 0))),
    (9, b'k', (6, 1), Some((UNREAD, 5, 0))),
    (9, b'k', (5, 0), Some((UNREAD, 5, 0))),
    (0, b'k', (7, 1), Some((UNREAD, 5, 0))),
    (2, b'k', (7, 1), Some((TWICE, 7, 1))),
    (3, b'k', (7, 1), Some((TWICE, 7, 2))),
];

/// One at a time.
#[test]
fn a_merge_has_its_source(rt: HostRuntime) -> Result<(), Fail> {
    for &(stamp, key, named, want) in MERGES {
        let merge = (1, stamp, key, Merge(Some(named), 1));
        expect(
            tell(rt.alloc(), &[7, 5], 0, SENT, &[merge])? == want,
            &named.1,
        )?;
    }
    Ok(())
}

/// The stamps of restarts at vnodes 9, 3 and 5, and what is told.
type Stamps = ([&'static [u64]; 3], Told);

/// The first place of the lowest vnode whose stamp isn't above the one before, whatever else is wrong; and then the lowest stamp
/// that stands twice, at the second-lowest of its vnodes.
const STAMPS: &[Stamps] = &[
    ([&[4, 6, 8, 9], &[1, 2, 3, 5], &[10, 11, 12]], None),
    (
        [&[4, 6, 6, 5], &[1, 2, 3, 7], &[10, 11, 12]],
        Some((FALLS, 9, 2)),
    ),
    (
        [&[4, 6, 5, 8], &[1, 2, 3, 7], &[10, 11, 12]],
        Some((FALLS, 9, 2)),
    ),
    (
        [&[4, 3, 5, 8], &[1, 2, 7, 6], &[10, 11, 12]],
        Some((FALLS, 3, 3)),
    ),
    (
        [&[4, 4, 5, 8], &[4, 9, 0, 0], &[9, 8, 7]],
        Some((FALLS, 3, 2)),
    ),
    ([&[1, 4, 7, 9], &[2, 5, 8, 10], &[3, 6, 11]], None),
    (
        [&[1, 4, 7, 9], &[2, 5, 7, 10], &[3, 6, 7]],
        Some((TWICE, 5, 2)),
    ),
    (
        [&[1, 4, 7, 9], &[2, 4, 7, 10], &[3, 5, 7]],
        Some((TWICE, 9, 1)),
    ),
    (
        [&[7, 8, 9, 20], &[1, 2, 3, 30], &[3, 4, 7]],
        Some((TWICE, 5, 0)),
    ),
    (
        [&[0, 8, 9, 20], &[1, 2, 3, 30], &[0, 4, 7]],
        Some((TWICE, 9, 0)),
    ),
];

/// Starts a vnode again with each of these stamps.
fn restart(vnode: &mut Vnode, stamps: &[u64]) -> Result<(), Fail> {
    for stamp in stamps {
        let _place = vnode.restart(*stamp)?;
    }
    Ok(())
}

/// What is told of restarts of vnodes 9, 3 and 5.
fn tell_restarts(alloc: Global, stamps: &[&[u64]; 3]) -> Result<Told, Fail> {
    let mut vnodes = open(alloc, &[9, 3, 5])?;
    for (vnode, stamps) in vnodes.iter_mut().zip(stamps) {
        restart(vnode, stamps)?;
    }
    judge_both_ways(alloc, &mut vnodes)
}

#[test]
fn a_stamp_falls_or_stands_twice(rt: HostRuntime) -> Result<(), Fail> {
    for (number, (stamps, want)) in STAMPS.iter().enumerate() {
        expect(tell_restarts(rt.alloc(), stamps)? == *want, &number)?;
    }
    Ok(())
}

/// Vnode 1 reads a key, puts an `a` that had seen what it read, and reads again; vnode 0 merges that, and does the same in its turn.
const TURNS: &[At] = &[
    (1, 0, b'k', Read),
    (1, 1, b'k', Put(1, A)),
    (1, 2, b'k', Read),
    (0, 3, b'k', Merge(None, 2)),
    (0, 4, b'k', Read),
    (0, 5, b'k', Put(3, A)),
    (0, 6, b'k', Read),
    (1, 7, b'k', Merge(None, 4)),
];

/// Makes so many such turns of two vnodes.
fn take_turns(alloc: Global, vnodes: &mut [Vnode], count: u64) -> Result<(), Fail> {
    for turn in 0..count {
        let mut answers = no_read(alloc)?;
        play(alloc, vnodes, &mut answers, TURNS, turn.saturating_mul(8))?;
    }
    Ok(())
}

/// What is told of two vnodes after 1,250 such turns, and whether each then has 5,000 entries.
fn tell_many(alloc: Global) -> Result<(Told, bool), Fail> {
    let mut vnodes = open(alloc, &[0, 1])?;
    take_turns(alloc, &mut vnodes, 1250)?;
    let same = vnodes.iter().all(|vnode| vnode.journal().len() == 5000);
    Ok((judge_both_ways(alloc, &mut vnodes)?, same))
}

/// Ten thousand entries, of which each journal has some blocks.
#[test]
fn many_entries(rt: HostRuntime) -> Result<(), Fail> {
    expect(tell_many(rt.alloc())? == (None, true), &1250)
}

#[test]
fn a_journal_takes_an_entry(rt: HostRuntime) -> Result<(), Fail> {
    let mut journal = Journal::new(rt.alloc(), 7);
    let place = journal.push(Entry::restart(5))?;
    expect((place, journal.len()) == (0, 1), &place)
}
