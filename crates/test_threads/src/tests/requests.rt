//! What each request comes to.

ghost use Rattle.std.specs.Prelude.{◌≡◌, []};
ghost use Rattle.cluster_stamps.specs.Rule.{newcomer};

use crate::tests::building::{TWO_BY_ONE, key_of};
use crate::tests::running::gathered;
use audit_cluster::{CloseFault, audit_vnodes};
use cluster::{CallFault, Cluster, Pass, Receipt, Room};
use cluster_peers::ClusterPeers;
use cluster_stamps::{Card, Reply, Request, Stamps};
use dvv::{Clock, ClockFault, Dot};
use journal::BLOCK;
use key_state::{Content, KeyState, Part};
use repair::exchange;
use std::alloc::{AllocError, Global};
use std::marker::Brand;
use std::sync::Wait;
use std::test::Fail;
use test_support::expect;
use vnode::{Seed, VnodeFault};

/// What a call came to, as far as the test compares it.
#[derive(Clone, Copy, Debug, PartialEq, Eq)]
enum Came {
    /// The dot of a put: vnode and number.
    Put(u32, u64),
    /// Whether a merge changed something.
    Changed(bool),
    /// A state: how many siblings it has, and vnode and number of the last one's dot.
    State(usize, Option<(u32, u64)>),
    /// A summary: how many dots it has, and vnode and number of the last one.
    Summary(usize, Option<(u32, u64)>),
    /// Whether the merge of a part changed something.
    Built(bool),
    /// A vnode started again.
    Done,
}

/// What one holds of a state, for whom a part of it is made.
#[derive(Clone, Copy, Debug)]
enum Held {
    Nothing,
    All,
}

/// What is asked.
#[derive(Clone, Copy, Debug)]
enum Ask {
    /// A put of a tombstone by one who had seen the first event of each of so many vnodes.
    Put(u32),
    /// A merge of the state after vnode 0's first put, as it answered that at place 1.
    Merge,
    /// A read.
    Read,
    /// A summary.
    Summary,
    /// A merge of a part of the state after vnode 0's first put, for one who holds so much of it.
    Part(Held),
    /// A vnode is to start again.
    Restart,
}

/// What a call comes to, and vnode, place and stamp of its receipt.
type Answer = Result<(Came, (u32, u64, u64)), CallFault>;

/// A call: the index of the vnode, the key's name, what is asked, and what it is to come to.
type Row = (usize, u8, Ask, Answer);

/// The first event of each of so many vnodes.
fn clock_over(alloc: Global, vnodes: u32) -> Result<Clock, ClockFault> {
    let mut clock = Clock::new(alloc);
    for vnode in 0..vnodes {
        let n = clock.counter(vnode) + 1;
        clock.add(Dot { vnode, n })?;
    }
    Ok(clock)
}

/// The state after vnode 0's first put.
fn first_state(alloc: Global) -> Result<KeyState, Fail> {
    let mut state = KeyState::new(alloc);
    state.put(0, &Clock::new(alloc), Content::Tombstone)?;
    Ok(state)
}

/// A part of a state for one who holds so much of it.
fn part_of(alloc: Global, state: &KeyState, held: Held) -> Result<Part, AllocError> {
    let summary = match held {
        Held::Nothing => KeyState::new(alloc).summary(alloc)?,
        Held::All => state.summary(alloc)?,
    };
    state.part(alloc, &summary)
}

/// A request of the key with this name.
fn request_of(alloc: Global, name: u8, ask: Ask) -> Result<Request, Fail> {
    let key = key_of(alloc, &[name])?;
    Ok(match ask {
        Ask::Put(vnodes) => Request::Put {
            key,
            seen: clock_over(alloc, vnodes)?,
            content: Content::Tombstone,
        },
        Ask::Merge => Request::Merge {
            key,
            from: 0,
            at: 1,
            state: first_state(alloc)?,
        },
        Ask::Read => Request::Read { key },
        Ask::Summary => Request::Summary { key },
        Ask::Part(held) => Request::Part {
            key,
            from: 0,
            at: 1,
            part: part_of(alloc, &first_state(alloc)?, held)?,
        },
        Ask::Restart => Request::Restart,
    })
}

/// What a reply is.
fn outcome_of(reply: &Reply) -> Came {
    match reply {
        Reply::Dot(Dot { vnode, n }) => Came::Put(*vnode, *n),
        Reply::Changed(changed) => Came::Changed(*changed),
        Reply::State(state) => {
            let siblings = state.siblings();
            let last = siblings
                .last()
                .map(|sibling| (sibling.dot.vnode, sibling.dot.n));
            Came::State(siblings.len(), last)
        }
        Reply::Summary(summary) => {
            let dots = summary.dots();
            Came::Summary(dots.len(), dots.last().map(|dot| (dot.vnode, dot.n)))
        }
        Reply::Built { changed, .. } => Came::Built(*changed),
        Reply::Done => Came::Done,
    }
}

/// What a call on one of two vnodes comes to.
fn answer_of<B: Room, R: Wait>(
    rt: &R,
    cluster: &Cluster<B>,
    pass: &mut Pass<B>,
    vnode: usize,
    request: &Request,
) -> Answer
    requires { cluster.now.vnodes ≡ 2 }
{
    let (
        reply,
        Receipt {
            vnode,
            place,
            stamp,
        },
    ) = cluster.call(rt, pass, vnode % 2, request)?;
    Ok((outcome_of(&reply), (vnode, place, stamp)))
}

/// Vnode 0 takes a put and reads it. Vnode 1 merges that twice, and takes a put that had seen it. Then vnode 0 starts again, refuses
/// a put that had seen too much, whose stamp is drawn, and has two siblings after a put that had seen nothing. Of a key that vnode 1
/// doesn't hold it refuses a part without a content, whose stamp is drawn; it merges the part with it, and then that without it, and tells
/// what it holds. Of the key where its own put took the content's place it refuses the part.
const ROWS: &[Row] = &[
    (0, b'k', Ask::Put(0), Ok((Came::Put(0, 1), (0, 0, 0)))),
    (
        0,
        b'k',
        Ask::Read,
        Ok((Came::State(1, Some((0, 1))), (0, 1, 1))),
    ),
    (1, b'k', Ask::Merge, Ok((Came::Changed(true), (1, 0, 2)))),
    (1, b'k', Ask::Merge, Ok((Came::Changed(false), (1, 1, 3)))),
    (1, b'k', Ask::Put(1), Ok((Came::Put(1, 1), (1, 2, 4)))),
    (
        1,
        b'k',
        Ask::Read,
        Ok((Came::State(1, Some((1, 1))), (1, 3, 5))),
    ),
    (
        0,
        b'k',
        Ask::Read,
        Ok((Came::State(1, Some((0, 1))), (0, 2, 6))),
    ),
    (0, b'k', Ask::Restart, Ok((Came::Done, (0, 3, 7)))),
    (
        0,
        b'k',
        Ask::Put(2),
        Err(CallFault::Refused(VnodeFault::ContextAhead)),
    ),
    (0, b'k', Ask::Put(0), Ok((Came::Put(0, 2), (0, 4, 9)))),
    (
        0,
        b'k',
        Ask::Read,
        Ok((Came::State(2, Some((0, 2))), (0, 5, 10))),
    ),
    (1, b'p', Ask::Part(Held::All), Err(CallFault::Missing)),
    (
        1,
        b'p',
        Ask::Part(Held::Nothing),
        Ok((Came::Built(true), (1, 4, 12))),
    ),
    (
        1,
        b'p',
        Ask::Part(Held::All),
        Ok((Came::Built(false), (1, 5, 13))),
    ),
    (
        1,
        b'p',
        Ask::Summary,
        Ok((Came::Summary(1, Some((0, 1))), (1, 6, 14))),
    ),
    (1, b'k', Ask::Part(Held::All), Err(CallFault::Missing)),
];

/// The calls, one after the other. Then each vnode takes by an exchange what it lacks: both lack a sibling of the one key, and the first
/// the other key. A second exchange takes nothing. The pass comes back.
fn rows_are<B: Room, R: Wait>(
    rt: &R,
    alloc: Global,
    cluster: &Cluster<B>,
    mut pass: Pass<B>,
) -> Result<Pass<B>, Fail>
    requires { cluster.now.vnodes ≡ 2 }
{
    for row in ROWS {
        let (vnode, name, ask, want) = row;
        let request = request_of(alloc, *name, *ask)?;
        expect(
            answer_of(rt, cluster, &mut pass, *vnode, &request) == *want,
            row,
        )?;
    }
    let mut peers = ClusterPeers::new(alloc, rt, cluster, pass);
    let first = exchange(alloc, &mut peers, 0, 1);
    let again = exchange(alloc, &mut peers, 0, 1);
    let taken = (first.taken, again.taken);
    let whole_at_once = (first.whole_at_once, again.whole_at_once);
    expect(taken == (3, 0) && whole_at_once == (0, 0), &taken)?;
    Ok(peers.into_pass())
}

/// After as many reads as a block has entries, vnode 0 hands out one block, which begins at this place.
fn block_is_handed_out<B: Room, R: Wait>(
    rt: &R,
    alloc: Global,
    cluster: &Cluster<B>,
    pass: &mut Pass<B>,
    first: usize,
) -> Result<(), Fail>
    requires { cluster.now.vnodes ≡ 2 }
{
    let read = request_of(alloc, b'k', Ask::Read)?;
    for _ in 0..BLOCK {
        let _ = cluster.call(rt, pass, 0, &read)?;
    }
    let Some(handout) = cluster.hand_out(rt, pass, 0, &mut Vec::new(alloc)) else {
        return Err(Fail::new("nothing is handed out"));
    };
    expect(handout.first == first && handout.blocks.len() == 1, &first)
}

/// All of this. What is handed out follows what was handed out before. The pass comes back.
fn all_is_answered<B: Room, R: Wait>(
    rt: &R,
    alloc: Global,
    cluster: &Cluster<B>,
    pass: Pass<B>,
) -> Result<Pass<B>, Fail>
    requires { cluster.now.vnodes ≡ 2 }
{
    let mut pass = rows_are(rt, alloc, cluster, pass)?;
    block_is_handed_out(rt, alloc, cluster, &mut pass, 0)?;
    block_is_handed_out(rt, alloc, cluster, &mut pass, BLOCK)?;
    Ok(pass)
}

/// The same by the pass of a new cluster. Journals with a part handed out aren't whole.
fn by_one_pass<B: Room, R: Wait>(
    rt: &R,
    alloc: Global,
    stamps: Stamps,
    card: Card,
) -> Result<(), Fail>
    requires table { (stamps.table.shared.table_id ≡ B.table) × (card.table_id ≡ B.table) }
    requires size { stamps.table.shared.key ≡ record { first = 0; vnodes = 2; passes = 1 } }
    requires card { card.me ≡ (newcomer stamps.table.shared.key, []) }
{
    let (cluster, mut passes) = Cluster::<B>::open(
        alloc,
        Seed::fixed(),
        stamps,
        card,
        &TWO_BY_ONE,
    )?;
    let Some(pass) = passes.pop() else {
        return Err(Fail::new("no pass"));
    };
    passes.push(all_is_answered(rt, alloc, &cluster, pass)?)?;
    let vnodes = gathered(cluster, passes)?;
    let end = audit_vnodes(alloc, &vnodes);
    expect(end == Err(CloseFault::HandedOut), &end)
}

/// Puts, reads, merges, summaries, parts and a restart: replies and receipts; the calls of an exchange; and blocks that are handed out.
#[test]
fn each_request_is_answered(rt: HostRuntime) -> Result<(), Fail> {
    let (stamps, card) = Stamps::new(rt.alloc(), &TWO_BY_ONE)?;
    by_one_pass::<Brand, _>(&rt, rt.alloc(), stamps, card)
}
