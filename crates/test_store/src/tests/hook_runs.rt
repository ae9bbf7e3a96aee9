//! A hook whose helper a table lacks, and a resolver beside a put.

use crate::parts::building::{
    clock_of, content_of, key_of, lengths, put_alone, shows, three_losing,
};
use crate::parts::calling::{put, resolve_hooked, two_siblings};
use crate::parts::hooking::{program, registry_of};
use crate::parts::programs::{CALLS_64, PRE_COMMIT, RESOLVER, answer, hook};
use bpf_helpers::{ArgRule, Body, Helper, Sig, Table};
use bpf_image::ImageKind;
use dvv::{Clock, Dot};
use hook_registry::Registry;
use quorum::{Hooking, PutRequest, QuorumFault, ResolveFault, Resolved};
use std::alloc::{AllocError, Global};
use std::sync::Arc;
use std::test::Fail;
use test_support::expect;
use test_support::helpers::first_sibling;

/// A table with the helper 64, which answers 256: the refusal 0 of a pre-commit hook.
fn table_of_64(alloc: Global) -> Result<Table, Fail> {
    let sig = Sig::new([ArgRule::Unused; 5], (256, 256)).ok_or("a Sig")?;
    let body: Body = Box::new(alloc, first_sibling)?;
    let mut table = Table::new(alloc);
    table
        .add(Helper::new(64, sig, body))
        .map_err(|_| "no room")?;
    Ok(table)
}

/// Bucket `b` with a pre-commit hook that calls the helper 64, and a table with this helper or none.
fn hooking_of_64(alloc: Global, window: u16, has_helper: bool) -> Result<Hooking<Registry>, Fail> {
    let table = table_of_64(alloc)?;
    let hook = hook(alloc, &table.listed, PRE_COMMIT, window, 0, &CALLS_64)?;
    let registry = registry_of(alloc, ImageKind::PreCommit, Arc::new(alloc, hook)?)?;
    let at_hand = if has_helper { table } else { Table::new(alloc) };
    Ok(Hooking::new(alloc, registry, at_hand))
}

/// What a put of `a` at vnode 0 answers, and how many entries the vnodes' journals then have.
type Put = (Result<Dot, QuorumFault>, [usize; 3]);

fn put_a(alloc: Global, hooking: &mut Hooking<Registry>) -> Result<Put, AllocError> {
    let key = key_of(alloc, b"k")?;
    let content = content_of(alloc, b"a")?;
    let mut local = three_losing(alloc, &[])?;
    let seen = Clock::new(alloc);
    let request = PutRequest {
        coordinator: 0,
        others: &[1, 2],
        key: &key,
        seen: &seen,
        content: &content,
        w: 2,
    };
    let back = put(&mut local, hooking, request);
    Ok((back, lengths(&local)))
}

/// The input window of a hook, whether its helper is at hand, and why a put is refused. 40 bytes are too short for any content.
const PUTS: &[(u16, bool, QuorumFault)] = &[
    (41, true, QuorumFault::Rejected(0)),
    (40, true, QuorumFault::TooLarge),
    (41, false, QuorumFault::Disagrees),
    (40, false, QuorumFault::Disagrees),
];

/// The table is looked at before the window's length. The coordinator was read, and no other call is made.
#[test]
fn table_without_the_helper(rt: HostRuntime) -> Result<(), Fail> {
    for &(window, has_helper, fault) in PUTS {
        let mut hooking = hooking_of_64(rt.alloc(), window, has_helper)?;
        let back = put_a(rt.alloc(), &mut hooking)?;
        expect(back == (Err(fault), [1, 0, 0]), &window)?;
    }
    Ok(())
}

/// A put of a third value at a vnode where two siblings of one byte stand, of which the writer had seen so many. The bucket's hook lets
/// all through; its input window of 66 bytes has room for the new value and one sibling.
fn put_a_third(alloc: Global, seen: u64) -> Result<Result<Dot, QuorumFault>, Fail> {
    let key = key_of(alloc, b"k")?;
    let mut local = three_losing(alloc, &[])?;
    put_alone(alloc, &mut local, 0, &key, b"a")?;
    put_alone(alloc, &mut local, 0, &key, b"b")?;
    let hook = program(alloc, PRE_COMMIT, 66, &answer(0))?;
    let registry = registry_of(alloc, ImageKind::PreCommit, hook)?;
    let mut hooking = Hooking::new(alloc, registry, Table::new(alloc));
    let request = PutRequest {
        coordinator: 0,
        others: &[],
        key: &key,
        seen: &clock_of(alloc, 0, seen)?,
        content: &content_of(alloc, b"c")?,
        w: 1,
    };
    Ok(put(&mut local, &mut hooking, request))
}

/// Where the siblings don't fit a hook's window it is shown those that the writer hadn't seen.
#[test]
fn siblings_that_a_writer_saw_lock_no_key(rt: HostRuntime) -> Result<(), Fail> {
    let third = Dot { vnode: 0, n: 3 };
    let rows = [
        (0, Err(QuorumFault::TooLarge)),
        (1, Ok(third)),
        (2, Ok(third)),
    ];
    for (seen, want) in rows {
        expect(put_a_third(rt.alloc(), seen)? == want, &seen)?;
    }
    Ok(())
}

/// What a resolve comes to that takes the second of two siblings, after a put since the get: why it was cut short, if it was, and whether
/// its answer has siblings of these dots.
fn take_after_a_put(
    alloc: Global,
    dots: &[(u32, u64)],
) -> Result<(Option<ResolveFault>, bool), Fail> {
    let key = key_of(alloc, b"k")?;
    let hook = program(alloc, RESOLVER, 128, &answer(257))?;
    let (mut local, got, answers) = two_siblings(alloc, &key)?;
    put_alone(alloc, &mut local, 0, &key, b"c")?;
    let Resolved { state, cut, .. } = resolve_hooked(
        alloc, &mut local, hook, 0, &key, got, &answers,
    )?;
    Ok((cut, shows(&state, dots)))
}

/// What was put since the get stays a sibling.
#[test]
fn a_resolver_has_seen_what_the_get_saw(rt: HostRuntime) -> Result<(), Fail> {
    let (cut, found) = take_after_a_put(rt.alloc(), &[(0, 2), (0, 3)])?;
    expect(cut.is_none() && found, &257)
}
