//! A call on a vnode of a cluster.

ghost use Rattle.std.specs.Prelude.{◌≡◌, []};
ghost use Rattle.cluster_stamps.specs.Rule.{newcomer};

use crate::tests::refusals::refusing::{End, Trial, begin, end_of, in_turn, was_met};
use cluster::{CallFault, Cluster, Pass, Room};
use cluster_stamps::{Card, Request, Size, Stamps};
use dvv::Clock;
use key_state::{Content, Key};
use std::alloc::Global;
use std::env::Env;
use std::marker::Brand;
use std::sync::Wait;
use std::test::Fail;
use vnode::{Seed, VnodeFault};

/// One vnode, and one pass.
const ALONE: Size = Size {
    first: 0,
    vnodes: 1,
    passes: 1,
};

/// How many entries a call came to, by a call after it: what the vnode's journal has before that is its receipt's place.
fn entries_before<B: Room, R: Wait>(
    rt: &R,
    cluster: &Cluster<B>,
    pass: &mut Pass<B>,
) -> Option<u64> {
    if cluster.count() != 1 {
        return None;
    }
    match cluster.call(rt, pass, 0, &Request::Restart) {
        Ok((_, receipt)) => Some(receipt.place),
        Err(_) => None,
    }
}

/// A put at a cluster of one vnode: it has its receipt, at the place of its entry; or there is no memory, no receipt, and no entry.
fn put<B: Room, R: Env + Wait>(
    rt: &R,
    cluster: &Cluster<B>,
    pass: &mut Pass<B>,
    request: &Request,
) -> (bool, End) {
    if cluster.count() != 1 {
        return (false, End::Wrong);
    }
    begin(rt);
    let back = cluster.call(rt, pass, 0, request);
    let met = was_met(rt);
    let entries = entries_before(rt, cluster, pass);
    let end = match back {
        Ok((_, receipt)) => end_of(receipt.place == 0 && entries == Some(1), false),
        Err(fault) => end_of(
            false,
            fault == CallFault::Refused(VnodeFault::NoMemory) && entries == Some(0),
        ),
    };
    (met, end)
}

/// A put at a new cluster over the word.
fn put_first<B: Room, R: Env + Wait>(
    rt: &R,
    alloc: Global,
    stamps: Stamps,
    card: Card,
    request: &Request,
) -> Result<(bool, End), Fail>
    requires table { (stamps.table.shared.table_id ≡ B.table) × (card.table_id ≡ B.table) }
    requires size { stamps.table.shared.key ≡ record { first = 0; vnodes = 1; passes = 1 } }
    requires card { card.me ≡ (newcomer stamps.table.shared.key, []) }
{
    let (cluster, mut passes) = Cluster::<B>::open(alloc, Seed::fixed(), stamps, card, &ALONE)?;
    Ok(put(rt, &cluster, &mut passes[0], request))
}

/// `Cluster::call`.
struct Call;

impl Trial for Call {
    fn goes<R: Env + Wait>(&self, rt: &R, alloc: Global) -> Result<(bool, End), Fail> {
        let request = Request::Put {
            key: Key::new(alloc, b"b", b"k")?,
            seen: Clock::new(alloc),
            content: Content::Tombstone,
        };
        let (stamps, card) = Stamps::new(alloc, &ALONE)?;
        put_first::<Brand, R>(rt, alloc, stamps, card, &request)
    }
}

#[test]
fn call_is_refused(rt: HostRuntime) -> Result<(), Fail> {
    in_turn(&rt, rt.alloc(), &Call)
}
