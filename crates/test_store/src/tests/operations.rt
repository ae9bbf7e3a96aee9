//! What the tests lose calls of, over three vnodes, and the puts that come before and are acknowledged.

use crate::parts::building::{clock_of, content_of, key_of};
use crate::parts::calling::{get, put_unhooked};
use dvv::Dot;
use key_state::{Key, KeyState};
use peers::{Local, Peers};
use quorum::{PutRequest, QuorumFault};
use repair::{exchange, repair};
use std::alloc::{AllocError, Global};
use std::test::Fail;

/// What is done over the vnodes, once they are ready for it.
#[derive(Clone, Copy)]
pub(super) enum Operation {
    Put,
    GetAndRepair,
    Exchange,
}

/// A put of a key and a value of one byte each, under a dot. Who puts has seen so many events of one vnode. Of two copies one is vnode 1's.
#[derive(Clone, Copy)]
pub(super) struct Stored {
    pub key: u8,
    pub dot: Dot,
    pub value: u8,
    pub seen: (u32, u64),
    pub copies: usize,
}

/// Vnode 1 alone holds `a`. Then `b` is put at vnode 0 in its place, with two copies: the context is ahead of what vnode 0 knows, so the
/// others' states are brought there, and the put is tried once more.
const IN_PLACE: &[Stored] = &[
    Stored {
        key: b'k',
        dot: Dot { vnode: 1, n: 1 },
        value: b'a',
        seen: (0, 0),
        copies: 1,
    },
    Stored {
        key: b'k',
        dot: Dot { vnode: 0, n: 1 },
        value: b'b',
        seen: (1, 1),
        copies: 2,
    },
];

/// Vnodes 0 and 1 hold `a`, and vnode 2 `b`, which has not seen it.
const BESIDE: &[Stored] = &[
    Stored {
        key: b'k',
        dot: Dot { vnode: 0, n: 1 },
        value: b'a',
        seen: (0, 0),
        copies: 2,
    },
    Stored {
        key: b'k',
        dot: Dot { vnode: 2, n: 1 },
        value: b'b',
        seen: (0, 0),
        copies: 1,
    },
];

/// Vnodes 0 and 1 hold `a` of key `k`, and vnode 0 then `b` in its place. Key `o` is at vnode 0 alone, and key `t` at vnode 1.
const APART: &[Stored] = &[
    Stored {
        key: b'k',
        dot: Dot { vnode: 0, n: 1 },
        value: b'a',
        seen: (0, 0),
        copies: 2,
    },
    Stored {
        key: b'k',
        dot: Dot { vnode: 0, n: 2 },
        value: b'b',
        seen: (0, 1),
        copies: 1,
    },
    Stored {
        key: b'o',
        dot: Dot { vnode: 0, n: 1 },
        value: b'c',
        seen: (0, 0),
        copies: 1,
    },
    Stored {
        key: b't',
        dot: Dot { vnode: 1, n: 1 },
        value: b'd',
        seen: (0, 0),
        copies: 1,
    },
];

impl Operation {
    /// The puts that are acknowledged by the end of the operation, which was refused or not.
    pub(super) fn stored(self, refused: bool) -> &'static [Stored] {
        match self {
            Operation::Put if refused => &IN_PLACE[..1],
            Operation::Put => IN_PLACE,
            Operation::GetAndRepair => BESIDE,
            Operation::Exchange => APART,
        }
    }
}

/// From now on the calls of these numbers are lost, and the answers of those, and no others.
pub(super) fn lose(
    alloc: Global,
    local: &mut Local,
    calls: &[u64],
    answers: &[u64],
) -> Result<(), AllocError> {
    local.lose(Vec::from_slice(alloc, calls)?);
    local.lose_answers(Vec::from_slice(alloc, answers)?);
    Ok(())
}

/// What a put answers.
fn put(alloc: Global, local: &mut Local, put: &Stored) -> Result<Result<Dot, QuorumFault>, Fail> {
    let key = key_of(alloc, &[put.key])?;
    let seen = clock_of(alloc, put.seen.0, put.seen.1)?;
    let content = content_of(alloc, &[put.value])?;
    let request = PutRequest {
        coordinator: 0,
        others: &[1, 2],
        key: &key,
        seen: &seen,
        content: &content,
        w: 2,
    };
    if put.copies == 1 {
        let alone = PutRequest {
            coordinator: put.dot.vnode as usize,
            others: &[],
            w: 1,
            ..request
        };
        return Ok(put_unhooked(alloc, local, alone));
    }
    Ok(put_unhooked(alloc, local, request))
}

/// Makes puts, each of which is answered by its dot. Of the first the copy for vnode 2 is lost.
fn put_all(alloc: Global, local: &mut Local, puts: &[Stored]) -> Result<(), Fail> {
    lose(alloc, local, &[3], &[])?;
    for one in puts {
        if put(alloc, local, one)? != Ok(one.dot) {
            return Err(Fail::new("another dot"));
        }
    }
    Ok(lose(alloc, local, &[], &[])?)
}

/// Gets a key at three vnodes, of which one is to answer, and repairs what is found. Answers that, and how many vnodes are reached.
pub(super) fn get_and_repair(
    alloc: Global,
    local: &mut Local,
    key: &Key,
) -> Result<(KeyState, u64), QuorumFault> {
    let (state, answers) = get(alloc, local, key, &[0, 1, 2], 1)?;
    let reached = repair(local, key, &answers);
    Ok((state, reached))
}

/// Makes an operation. Answers why it was refused, if it was.
fn operate(
    alloc: Global,
    local: &mut Local,
    operation: Operation,
) -> Result<Option<QuorumFault>, Fail> {
    match operation {
        Operation::Put => Ok(put(alloc, local, &IN_PLACE[1])?.err()),
        Operation::GetAndRepair => {
            let key = key_of(alloc, b"k")?;
            Ok(get_and_repair(alloc, local, &key).err())
        }
        Operation::Exchange => {
            let _exchanged = exchange(alloc, local, 0, 1);
            Ok(None)
        }
    }
}

/// Makes an operation of which these calls are lost, and these answers, over vnodes that are made ready for it. Answers why it was refused,
/// if it was, and how many calls have failed by its end.
pub(super) fn operate_losing(
    alloc: Global,
    local: &mut Local,
    operation: Operation,
    calls: &[u64],
    answers: &[u64],
) -> Result<(Option<QuorumFault>, u64), Fail> {
    put_all(alloc, local, operation.stored(true))?;
    lose(alloc, local, calls, answers)?;
    let refused = operate(alloc, local, operation)?;
    lose(alloc, local, &[], &[])?;
    Ok((refused, local.failures()))
}
