//! A put: the bucket's pre-commit hook, then the coordinator, then its state to the other vnodes of the list.

ghost use Rattle.std.specs.Prelude.{◌≡◌, ◌+◌, ◌≤◌, ◌<◌, ◌∷◌, ◌++◌, List, length, Bool, Option, Some, Result, Ok, Err, IfOk, ◌^◌, nat_le, if◌then◌else◌};
ghost use Rattle.bpf_verifier.specs.Program.{Program};
ghost use Rattle.hook_registry.specs.declared.fault.NotSeen.{NotSeen as LookUpFault};
ghost use Rattle.peers.specs.declared.fault.PeerFault.{PeerFault as Failure};
ghost use Rattle.peers.specs.Calls.{Call, PutAt, Made};
ghost use Rattle.peers.specs.Counts.{HasRisen};
ghost use Rattle.ring.specs.Places.{AreDifferent};
ghost use Rattle.quorum.specs.Faults.{fault_of};
ghost use Rattle.bpf_helpers.specs.declared.sig.Entry.{Entry as Helper};
ghost use Rattle.quorum.specs.Judged.{AfterJudged, IsJudgedPut, or_same};
ghost use Rattle.quorum.specs.Puts.{Brought, gathers, merges, copies, AfterPut, IsPut, StoresCopies, is_ahead, put_of, reads_behind, IsReadFor};

use crate::fault::QuorumFault;
use crate::hooking::{Hooking, hook_of};
use bpf_image::ImageKind;
use bpf_verifier::Verified;
use dvv::{Clock, Dot};
use hook_registry::Hooks;
use key_state::{Content, Key};
use peers::{Answer, PeerFault, Peers};
use vnode::VnodeFault;

/// What a put is asked to do, and where.
#[derive(Clone, Copy)]
pub struct PutRequest<'a> {
    /// The vnode that stores the write first, and gives it its dot.
    pub coordinator: usize,
    /// The other vnodes of the key's list.
    pub others: &'a [usize],
    /// The key that is written.
    pub key: &'a Key,
    /// What the writer had seen of the key.
    pub seen: &'a Clock,
    /// What is stored.
    pub content: &'a Content,
    /// How many vnodes must have a copy, the coordinator among them.
    pub w: usize,
}

/// Puts a content at the coordinator, as one who had seen what the request's clock counts, and brings the state that this left to the
/// other vnodes of the list. Where there are others, that state comes with the put's dot, by one call; where there are none, the put is
/// the only call. Where the context is ahead of the coordinator, the others' states are brought to it and the put is tried once more. An
/// Ok means that at least w vnodes answered that they have a copy, the coordinator among them. The coordinator and the others are
/// different vnodes.
///
/// The bucket's pre-commit hook, if it has one, first decides on the content and the siblings that are read at the
/// coordinator; where these don't fit its input window, on the content and those of them that the request's clock doesn't count.
/// It may change the value: the media type is then kept, and a tombstone becomes a value of `application/octet-stream`.
///
/// `Unseen` where the hook's look-up was refused; `Disagrees`, `TooLarge`, `BadVerdict` and `Rejected`, the first that
/// stands, where it lets nothing through, and `Refused` with `NoMemory` where memory ran out for its windows or for the value
/// that it wrote: in all these nothing is put. `TooFew` where the coordinator did not answer, or fewer than w copies were
/// stored; `Refused` with what the coordinator refused. What was stored stays.
pub fn put<P: Peers, H: Hooks>(
    peers: &mut P,
    hooking: &mut Hooking<H>,
    request: PutRequest<'_>,
) -> Result<Dot, QuorumFault>
    requires few_others { length request.others.now < 2 ^ 32 }
    requires different { AreDifferent (request.coordinator ∷ request.others.now) }
    // The coordinator stored it, and with it at least w vnodes answered that they have a copy.
    ensures stored { IfOk result (λ dot. (calls : List Call) × Made P.happens peers.old calls peers.new × StoresCopies request.entry.coordinator request.entry.others.now request.entry.key.now request.entry.w request.entry.seen.now dot calls) }
    // Too few copies come only of calls that were lost or refused.
    ensures few { result ≡ Err QuorumFault.TooFew → request.entry.w ≤ 1 + length request.entry.others.now → HasRisen (P.failures peers.old) (P.failures peers.new) }
    // What the look-up found, which calls are made, and what is answered to what came back.
    ensures calls { (found : Result (Option Program) LookUpFault) × (calls : List Call) × H.finds hooking.old.hooks request.entry.key.now.bucket ImageKind.PreCommit found hooking.new.hooks
        × Made P.happens peers.old calls peers.new × IsJudgedPut hooking.old.table.listed request.entry.coordinator request.entry.others.now request.entry.key.now request.entry.w request.entry.seen.now request.entry.content.now found calls result }
    ensures table { hooking.new.table ≡ hooking.old.table }
    ensures origin { P.origin peers.new ≡ P.origin peers.old }
{
    match hook_of(&mut hooking.hooks, request.key, ImageKind::PreCommit) {
        Ok(Some(hook)) => put_judged(peers, hooking, &hook, request),
        Ok(None) => put_content(peers, request),
        Err(_) => Err(QuorumFault::Unseen),
    }
}

// Puts what a pre-commit hook makes of a content.
fn put_judged<P: Peers, H: Hooks>(
    peers: &mut P,
    hooking: &mut Hooking<H>,
    hook: &Verified,
    request: PutRequest<'_>,
) -> Result<Dot, QuorumFault>
    requires { length request.others.now < 2 ^ 32 }
    ensures calls { (calls : List Call) × Made P.happens peers.old calls peers.new × IsJudgedPut hooking.old.table.listed request.entry.coordinator request.entry.others.now request.entry.key.now request.entry.w request.entry.seen.now request.entry.content.now (Ok (Some hook.now)) calls result }
    ensures hooks { hooking.new.hooks ≡ hooking.old.hooks }
    ensures table { hooking.new.table ≡ hooking.old.table }
{
    match peers.state_of(request.coordinator, request.key) {
        Ok(answer) => {
            let judged = hooking.judge(
                hook,
                request.content,
                request.seen,
                answer.state.siblings(),
            );
            put_passed(peers, request, judged)
        }
        Err(fault) => Err(quorum_fault(fault)),
    }
}

// Puts a content, or what a pre-commit hook changed it to, where the hook let one of these through.
fn put_passed<P: Peers>(
    peers: &mut P,
    request: PutRequest<'_>,
    judged: Result<Option<Content>, QuorumFault>,
) -> Result<Dot, QuorumFault>
    requires { length request.others.now < 2 ^ 32 }
    ensures { (listed : List Helper) → (calls : List Call) × Made P.happens peers.old calls peers.new × AfterJudged listed request.entry.coordinator request.entry.others.now request.entry.key.now request.entry.w request.entry.seen.now request.entry.content.now (or_same request.entry.content.now judged) calls result }
{
    match judged {
        Ok(Some(changed)) => put_content(
            peers,
            PutRequest {
                content: &changed,
                ..request
            },
        ),
        Ok(None) => put_content(peers, request),
        Err(fault) => Err(fault),
    }
}

// Puts a content at the coordinator, once more where its context was ahead and the others' states were brought, and brings
// the coordinator's state to the others.
fn put_content<P: Peers>(peers: &mut P, request: PutRequest<'_>) -> Result<Dot, QuorumFault>
    requires { length request.others.now < 2 ^ 32 }
    ensures { (calls : List Call) × Made P.happens peers.old calls peers.new × IsPut request.entry.coordinator request.entry.others.now request.entry.key.now request.entry.w request.entry.seen.now request.entry.content.now calls result }
{
    let first = store(peers, request);
    if is_ahead(&first) {
        gather(peers, request.coordinator, request.key, request.others);
        let second = store(peers, request);
        return finish(peers, request, second);
    }
    finish(peers, request, first)
}

// What a coordinator that took a put answered: the dot, and where there are other vnodes what the read behind it came to.
type Stored = (Dot, Option<Result<Answer, PeerFault>>);

// Puts a content at the coordinator. Where there are other vnodes its state is read behind it, by the same call: it is for them.
fn store<P: Peers>(peers: &mut P, request: PutRequest<'_>) -> Result<Stored, PeerFault>
    ensures calls { Made P.happens peers.old (PutAt request.entry.coordinator request.entry.key.now request.entry.seen.now request.entry.content.now (put_of result) ∷ reads_behind request.entry.coordinator request.entry.key.now result) peers.new }
    ensures read { IsReadFor request.entry.others.now result }
{
    let PutRequest {
        coordinator,
        others,
        key,
        seen,
        content,
        ..
    } = request;
    if others.is_empty() {
        let dot = peers.put_at(coordinator, key, seen, content)?;
        return Ok((dot, None));
    }
    let (dot, own) = peers.put_and_read_at(coordinator, key, seen, content)?;
    Ok((dot, Some(own)))
}

// Whether a put was refused since its context is ahead.
fn is_ahead(back: &Result<Stored, PeerFault>) -> bool
    ensures { result ≡ is_ahead (put_of back.now) }
{
    matches!(back, Err(PeerFault::Refused(VnodeFault::ContextAhead)))
}

// Brings the state of each of these vnodes to the coordinator. What fails is passed over.
fn gather<P: Peers>(peers: &mut P, coordinator: usize, key: &Key, vnodes: &[usize])
    ensures { (brought : List Brought) × Made P.happens peers.old (gathers coordinator key.now vnodes.now brought) peers.new × (length brought ≡ length vnodes.now) }
{
    for &i in vnodes {
        if let Ok(answer) = peers.state_of(i, key) {
            let _ = peers.merge_at(coordinator, key, answer.from, answer.at, &answer.state);
        }
    }
}

// Merges an answered state into each of these vnodes, and counts the copies, the coordinator's among them.
fn spread<P: Peers>(peers: &mut P, key: &Key, answer: &Answer, vnodes: &[usize]) -> usize
    requires { length vnodes.now < 2 ^ 32 }
    ensures { (backs : List (Result Bool Failure)) × Made P.happens peers.old (merges key.now answer.now vnodes.now backs) peers.new × (length backs ≡ length vnodes.now) × (result ≡ copies backs) }
{
    let mut stored = 1;
    for &i in vnodes {
        if peers
            .merge_at(i, key, answer.from, answer.at, &answer.state)
            .is_ok()
        {
            stored += 1;
        }
    }
    stored
}

// After the coordinator stored it: the state that was read behind it goes to the others, if there are any.
fn replicate<P: Peers>(
    peers: &mut P,
    request: PutRequest<'_>,
    dot: Dot,
    own: Option<Result<Answer, PeerFault>>,
) -> Result<Dot, QuorumFault>
    requires few { length request.others.now < 2 ^ 32 }
    requires read { IsReadFor request.others.now (Ok (dot, own)) }
    ensures { (calls : List Call) × Made P.happens peers.old calls peers.new × AfterPut request.entry.coordinator request.entry.others.now request.entry.key.now request.entry.w (Ok dot) (reads_behind request.entry.coordinator request.entry.key.now (Ok (dot, own)) ++ calls) result }
{
    match own {
        None => enough(request.w, 1, dot),
        Some(Ok(own)) => enough(
            request.w,
            spread(peers, request.key, &own, request.others),
            dot,
        ),
        Some(Err(fault)) => Err(quorum_fault(fault)),
    }
}

// What a put answers of so many copies: its dot where w are there.
fn enough(w: usize, copies: usize, dot: Dot) -> Result<Dot, QuorumFault>
    ensures { result ≡ (if nat_le w copies then Ok dot else Err QuorumFault.TooFew) }
{
    if w <= copies {
        Ok(dot)
    } else {
        Err(QuorumFault::TooFew)
    }
}

// After the coordinator's last put.
fn finish<P: Peers>(
    peers: &mut P,
    request: PutRequest<'_>,
    back: Result<Stored, PeerFault>,
) -> Result<Dot, QuorumFault>
    requires few { length request.others.now < 2 ^ 32 }
    requires read { IsReadFor request.others.now back }
    ensures { (calls : List Call) × Made P.happens peers.old calls peers.new × AfterPut request.entry.coordinator request.entry.others.now request.entry.key.now request.entry.w (put_of back) (reads_behind request.entry.coordinator request.entry.key.now back ++ calls) result }
{
    match back {
        Ok((dot, own)) => replicate(peers, request, dot, own),
        Err(fault) => Err(quorum_fault(fault)),
    }
}

// What a coordinator's failure answers.
fn quorum_fault(fault: PeerFault) -> QuorumFault
    ensures { result ≡ fault_of fault }
{
    match fault {
        PeerFault::Lost => QuorumFault::TooFew,
        PeerFault::Refused(fault) => QuorumFault::Refused(fault),
    }
}
