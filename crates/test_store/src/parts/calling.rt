//! The calls that the tests try, over vnodes of any kind.

ghost use Rattle.std.specs.Prelude.{◌∷◌, ◌<◌, ◌≤◌, ◌^◌, length, IfOk};
ghost use Rattle.ring.specs.Places.{AreDifferent};

use crate::parts::building::{put_alone, three_losing};
use crate::parts::hooking::registry_of;
use bpf_helpers::Table;
use bpf_image::ImageKind;
use bpf_verifier::Verified;
use dvv::Dot;
use hook_registry::{Hooks, Registry};
use key_state::{Key, KeyState};
use peers::{Answer, Local, Peers};
use quorum::{Hooking, PutRequest, QuorumFault, Resolved};
use std::alloc::Global;
use std::sync::Arc;
use std::test::Fail;

/// Puts a content.
pub(crate) fn put<P: Peers, H: Hooks>(
    peers: &mut P,
    hooking: &mut Hooking<H>,
    request: PutRequest<'_>,
) -> Result<Dot, QuorumFault>
    requires few { length request.others.now < 2 ^ 32 }
    requires different { AreDifferent (request.coordinator ∷ request.others.now) }
{
    quorum::put(peers, hooking, request)
}

/// Puts a content with no hook at all.
pub(crate) fn put_unhooked<P: Peers>(
    alloc: Global,
    peers: &mut P,
    request: PutRequest<'_>,
) -> Result<Dot, QuorumFault>
    requires few { length request.others.now < 2 ^ 32 }
    requires different { AreDifferent (request.coordinator ∷ request.others.now) }
{
    let mut hooking = Hooking::new(alloc, Registry::new(alloc), Table::new(alloc));
    put(peers, &mut hooking, request)
}

/// Gets a key, and what each vnode answered, each at most once.
pub(crate) fn get<P: Peers>(
    alloc: Global,
    peers: &mut P,
    key: &Key,
    vnodes: &[usize],
    r: usize,
) -> Result<(KeyState, Vec<Answer>), QuorumFault>
    requires { AreDifferent vnodes.now }
    ensures { IfOk result (λ found. length found.1.items ≤ length vnodes.now) }
{
    quorum::get(alloc, peers, key, vnodes, r)
}

/// Resolves what a get answered where bucket `b` has this resolver, which calls no helper.
pub(crate) fn resolve_hooked<P: Peers>(
    alloc: Global,
    peers: &mut P,
    hook: Arc<Verified>,
    coordinator: usize,
    key: &Key,
    got: KeyState,
    answers: &[Answer],
) -> Result<Resolved, Fail> {
    let registry = registry_of(alloc, ImageKind::Resolver, hook)?;
    let mut hooking = Hooking::new(alloc, registry, Table::new(alloc));
    Ok(quorum::resolve(peers, &mut hooking, coordinator, key, got, answers))
}

/// Vnode 0 holds `a`, vnode 1 `b`, vnode 2 nothing, and none has seen the other's. Each has been read by a get.
pub(crate) fn two_siblings(
    alloc: Global,
    key: &Key,
) -> Result<(Local, KeyState, Vec<Answer>), Fail> {
    let mut local = three_losing(alloc, &[])?;
    put_alone(alloc, &mut local, 0, key, b"a")?;
    put_alone(alloc, &mut local, 1, key, b"b")?;
    let (state, answers) = get(alloc, &mut local, key, &[0, 1, 2], 3)?;
    Ok((local, state, answers))
}
