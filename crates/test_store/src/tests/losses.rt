//! Each call and each answer of an operation is lost in turn.

use crate::parts::building::three_losing;
use crate::parts::judging::{Told, judge};
use crate::tests::late::deliver_late;
use crate::tests::operations::{Operation, operate_losing};
use crate::tests::shown::all_are_kept;
use peers::Local;
use quorum::QuorumFault;
use std::alloc::Global;
use std::test::Fail;
use test_support::expect;
use vnode::VnodeFault;

/// What an operation comes to of which something was lost: why it was refused, and how many calls have failed by its end; whether at its
/// end and once late copies came each put that was acknowledged has its copies and no vnode shows what a write that it knows had seen; and
/// what the audit tells at last.
type Outcome = (Option<QuorumFault>, u64, [bool; 2], Told);

fn outcome_at(
    alloc: Global,
    local: &mut Local,
    operation: Operation,
    calls: &[u64],
    answers: &[u64],
) -> Result<Outcome, Fail> {
    let (refused, failed) = operate_losing(alloc, local, operation, calls, answers)?;
    let stored = operation.stored(refused.is_some());
    let kept = all_are_kept(alloc, local, stored)?;
    deliver_late(alloc, local)?;
    let still = all_are_kept(alloc, local, stored)?;
    Ok((
        refused,
        failed,
        [kept, still],
        judge(alloc, local.vnodes())?,
    ))
}

/// What an operation comes to over three vnodes of which these calls are lost, and these answers.
fn outcome(
    alloc: Global,
    operation: Operation,
    calls: &[u64],
    answers: &[u64],
) -> Result<Outcome, Fail> {
    let mut local = three_losing(alloc, &[])?;
    outcome_at(alloc, &mut local, operation, calls, answers)
}

/// An operation, and some of its calls by their numbers, from one to before another: why the operation is refused where such a call is
/// lost, its answer, or it and all calls after it; and how many calls have failed by its end where its answer is lost, of which one fails
/// anyhow.
type Row = (Operation, (usize, usize), [Option<QuorumFault>; 3], u64);

const FEW: Option<QuorumFault> = Some(QuorumFault::TooFew);

const AHEAD: Option<QuorumFault> = Some(QuorumFault::Refused(VnodeFault::ContextAhead));

const ROWS: [Row; 13] = [
    // Of the put call 0 is the first put, which fails anyhow, 1 and 2 bring vnode 1's state, 3 and 4 that of vnode 2, 5 is the second put,
    // 6 the read of what it left, and 7 and 8 are the copies. There is no call 9.
    (Operation::Put, (0, 1), [FEW, FEW, FEW], 1),
    (Operation::Put, (1, 2), [AHEAD, AHEAD, FEW], 3),
    (Operation::Put, (2, 3), [AHEAD, None, FEW], 2),
    (Operation::Put, (3, 5), [None, None, FEW], 2),
    (Operation::Put, (5, 7), [FEW, FEW, FEW], 2),
    (Operation::Put, (7, 8), [None, None, FEW], 2),
    (Operation::Put, (8, 9), [None, None, None], 2),
    (Operation::Put, (9, 10), [None, None, None], 1),
    // Of the get calls 0 to 2 are the reads, and 3 to 6 the repair. There is no call 7. A copy was lost before.
    (Operation::GetAndRepair, (0, 1), [None, None, FEW], 2),
    (Operation::GetAndRepair, (1, 7), [None, None, None], 2),
    (Operation::GetAndRepair, (7, 8), [None, None, None], 1),
    // Of the exchange call 0 names the keys of vnode 0, 1 to 6 bring them to vnode 1: for each a summary, a state and a part. Call 7 names
    // the keys of vnode 1, and 8 to 14 bring them to vnode 0, of which two are alike by then. There is no call 15. A copy was lost before.
    (Operation::Exchange, (0, 15), [None, None, None], 2),
    (Operation::Exchange, (15, 16), [None, None, None], 1),
];

/// More numbers than an operation has calls.
const NUMBERS: &[u64] = &[
    0, 1, 2, 3, 4, 5, 6, 7, 8, 9, 10, 11, 12, 13, 14, 15, 16, 17, 18, 19,
];

/// Loses the call of a number, its answer, and it and all calls after it. Fails where something that was acknowledged is lost, or the
/// operation isn't refused as its row says.
fn lose_at(alloc: Global, row: &Row, number: usize) -> Result<(), Fail> {
    let from = NUMBERS.get(number..).unwrap_or(&[]);
    let one = from.get(..1).unwrap_or(&[]);
    let (operation, _, [call, answer, all], failed) = *row;
    let unmade = outcome(alloc, operation, one, &[])?;
    expect(is_sound(&unmade, call), &number)?;
    let unheard = outcome(alloc, operation, &[], one)?;
    expect(is_sound(&unheard, answer) && unheard.1 == failed, &number)?;
    let cut = outcome(alloc, operation, from, &[])?;
    expect(is_sound(&cut, all), &number)
}

/// Whether an operation is refused so, and nothing that was acknowledged is lost.
fn is_sound(outcome: &Outcome, want: Option<QuorumFault>) -> bool {
    let (refused, _, kept, told) = *outcome;
    (refused, kept, told) == (want, [true, true], None)
}

#[test]
fn what_is_acknowledged_is_kept(rt: HostRuntime) -> Result<(), Fail> {
    let rows = ROWS;
    for row in &rows {
        for number in row.1.0..row.1.1 {
            lose_at(rt.alloc(), row, number)?;
        }
    }
    Ok(())
}
