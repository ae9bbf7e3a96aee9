//! Gets and read repair behind puts of which calls or answers are lost.

use crate::parts::building::{content_of, is_value, key_of, lengths, shows, three_losing};
use crate::parts::calling::put_unhooked;
use crate::tests::operations::get_and_repair;
use dvv::{Clock, Dot};
use key_state::Key;
use peers::Local;
use quorum::{PutRequest, QuorumFault};
use std::alloc::Global;
use std::test::Fail;
use test_support::expect;

/// A put at vnode 0: which of its calls are lost and of which the answers are, what it answers, whether the get after it finds it and how
/// many vnodes the repair after that reaches, and the journals' lengths after the put and after the repair.
struct Row {
    lost: &'static [u64],
    unheard: &'static [u64],
    put: Result<Dot, QuorumFault>,
    found: (bool, u64),
    lengths: [[usize; 3]; 2],
}

const STORED: Result<Dot, QuorumFault> = Ok(Dot { vnode: 0, n: 1 });

const FEW: Result<Dot, QuorumFault> = Err(QuorumFault::TooFew);

/// A call whose answer is lost is made: what it stored stays, and what it should have told is missing.
const ROWS: &[Row] = &[
    Row {
        lost: &[],
        unheard: &[],
        put: STORED,
        found: (true, 0),
        lengths: [[2, 1, 1], [3, 2, 2]],
    },
    Row {
        lost: &[3],
        unheard: &[],
        put: STORED,
        found: (true, 2),
        lengths: [[2, 1, 0], [3, 2, 3]],
    },
    Row {
        lost: &[2, 3],
        unheard: &[],
        put: FEW,
        found: (true, 2),
        lengths: [[2, 0, 0], [3, 2, 2]],
    },
    Row {
        lost: &[0],
        unheard: &[],
        put: FEW,
        found: (false, 0),
        lengths: [[0, 0, 0], [1, 1, 1]],
    },
    Row {
        lost: &[],
        unheard: &[0],
        put: FEW,
        found: (true, 2),
        lengths: [[1, 0, 0], [2, 2, 2]],
    },
    Row {
        lost: &[],
        unheard: &[1],
        put: FEW,
        found: (true, 2),
        lengths: [[2, 0, 0], [3, 2, 2]],
    },
    Row {
        lost: &[],
        unheard: &[2],
        put: STORED,
        found: (true, 0),
        lengths: [[2, 1, 1], [3, 2, 2]],
    },
    Row {
        lost: &[],
        unheard: &[2, 3],
        put: FEW,
        found: (true, 0),
        lengths: [[2, 1, 1], [3, 2, 2]],
    },
];

/// What a put, and the get and read repair after it, come to, and the journals' lengths after the put and after the repair.
type Outcome = (Result<Dot, QuorumFault>, (bool, u64), [[usize; 3]; 2]);

/// Whether a get finds the value `a`, put first at vnode 0, or else nothing, and how many vnodes the repair after it reaches.
fn find(alloc: Global, local: &mut Local, key: &Key) -> Result<(bool, u64), Fail> {
    let (state, reached) = get_and_repair(alloc, local, key)?;
    let found = shows(&state, &[(0, 1)]) && is_value(&state, b"text/plain", b"a");
    if state.siblings().is_empty() == found {
        return Err(Fail::new("neither the put nor nothing"));
    }
    Ok((found, reached))
}

/// What they come to over these vnodes.
fn put_and_repair(alloc: Global, local: &mut Local, key: &Key) -> Result<Outcome, Fail> {
    let request = PutRequest {
        coordinator: 0,
        others: &[1, 2],
        key,
        seen: &Clock::new(alloc),
        content: &content_of(alloc, b"a")?,
        w: 2,
    };
    let back = put_unhooked(alloc, local, request);
    let after_put = lengths(local);
    let found = find(alloc, local, key)?;
    Ok((back, found, [after_put, lengths(local)]))
}

/// Whether they come to what a row says.
fn is_as_told(alloc: Global, row: &Row) -> Result<bool, Fail> {
    let key = key_of(alloc, b"k")?;
    let mut local = three_losing(alloc, row.lost)?;
    local.lose_answers(Vec::from_slice(alloc, row.unheard)?);
    let outcome = put_and_repair(alloc, &mut local, &key)?;
    Ok(outcome == (row.put, row.found, row.lengths))
}

#[test]
fn lost_calls(rt: HostRuntime) -> Result<(), Fail> {
    for (number, row) in ROWS.iter().enumerate() {
        expect(is_as_told(rt.alloc(), row)?, &number)?;
    }
    Ok(())
}
