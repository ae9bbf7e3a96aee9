//! A resolve: what a bucket's resolver makes of a get that found several siblings.

ghost use Rattle.std.specs.Prelude.{◌≡◌, ◌<◌, ◌∷◌, List, Bool, Option, Some, None, Result, Ok, Err, MatchResult};
ghost use Rattle.std.specs.Option.{option_copied};
ghost use Rattle.key_state.specs.State.{State};
ghost use Rattle.peers.specs.declared.fault.PeerFault.{PeerFault as Failure};
ghost use Rattle.dvv.specs.declared.Dot.{Dot};
ghost use Rattle.hook_registry.specs.declared.fault.NotSeen.{NotSeen};
ghost use Rattle.bpf_verifier.specs.Program.{Program};
ghost use Rattle.peers.specs.Calls.{Call, PutAt, Made};
ghost use Rattle.quorum.specs.Resolves.{is_others, others_of, brings, AllTaken, OneFailed, AfterChoice, AfterCommit, Commits, AfterRun, AfterLookUp, IsResolve, IsUnfit, UnfitOf, end_of, state_told, cut_of, unfit_by};
ghost use Rattle.quorum.specs.declared.fault.ResolveFault.{ResolveFault as Unmade};

use crate::fault::{ResolveFault, Unfit};
use crate::hooking::{Hooking, hook_of};
use bpf_image::ImageKind;
use dvv::{Clock, VNODES_PER_NUMBER};
use hook_registry::Hooks;
use hook_run::{Resolution, Unresolved};
use key_state::{Content, Key, KeyState};
use peers::{Answer, PeerFault, Peers};

/// What a get answers once its bucket's resolver was asked.
#[derive(Drop)]
pub struct Resolved {
    /// The coordinator's state after what the resolver chose was put there, else the get's own answer.
    pub state: KeyState,
    /// Why what the resolver was to write is left out. None where it was put, or nothing was to be written.
    pub cut: Option<ResolveFault>,
    /// Why the resolver chose nothing, where it was run and failed.
    pub unfit: Option<Unfit>,
}

/// What becomes of a get's answer, once its states were repaired: where it has two siblings or more and its bucket has a
/// resolver, this runs on them. Where it writes, each state that another vnode answered is merged into the coordinator, the
/// content is put there with the clock of the get's answer, and the coordinator's state is read: that is the answer. No
/// pre-commit hook runs on this put, and it isn't brought to other vnodes.
///
/// Else the get's own answer stands, and also where the look-up, the run, one of these merges, the put or the read was
/// refused or lost, or memory ran out for the resolver's windows or for what it wrote: `cut` tells which. No further call is made then;
/// what was stored stays. It stands, too, where the resolver was shown too much or its answer has no meaning, as `unfit` tells.
///
/// Which vnode answered is told by its identifier's index, the lower 8 bits.
pub fn resolve<P: Peers, H: Hooks>(
    peers: &mut P,
    hooking: &mut Hooking<H>,
    coordinator: usize,
    key: &Key,
    got: KeyState,
    answers: &[Answer],
) -> Resolved
    // Which calls are made, and what is answered to what came back.
    ensures calls { (calls : List Call) × (told : Result (Option State) Unmade) × Made P.happens peers.old calls peers.new
        × IsResolve coordinator key.now answers.now got.clock (λ old found new. H.finds old key.now.bucket ImageKind.Resolver found new) hooking.old.hooks hooking.new.hooks hooking.old.table.listed got.siblings calls told
        × (result.state ≡ state_told got told) × (result.cut ≡ cut_of told) }
    // Why a resolver that was run chose nothing.
    ensures unfit { IsUnfit (λ old found new. H.finds old key.now.bucket ImageKind.Resolver found new) hooking.old.hooks hooking.new.hooks hooking.old.table.listed got.siblings result.unfit }
    ensures table { hooking.new.table ≡ hooking.old.table }
    ensures origin { P.origin peers.new ≡ P.origin peers.old }
{
    let (told, unfit) = settle(peers, hooking, coordinator, key, &got, answers);
    match told {
        Ok(Some(state)) => Resolved {
            state,
            cut: None,
            unfit,
        },
        Ok(None) => Resolved {
            state: got,
            cut: None,
            unfit,
        },
        Err(fault) => Resolved {
            state: got,
            cut: Some(fault),
            unfit,
        },
    }
}

// The coordinator's state after what a resolver chose was put there, where anything was to be put; and why it chose nothing, where it
// failed.
fn settle<P: Peers, H: Hooks>(
    peers: &mut P,
    hooking: &mut Hooking<H>,
    coordinator: usize,
    key: &Key,
    got: &KeyState,
    answers: &[Answer],
) -> (Result<Option<KeyState>, ResolveFault>, Option<Unfit>)
    ensures calls { (calls : List Call) × Made P.happens peers.old calls peers.new
        × IsResolve coordinator key.now answers.now got.now.clock (λ old found new. H.finds old key.now.bucket ImageKind.Resolver found new) hooking.old.hooks hooking.new.hooks hooking.old.table.listed got.now.siblings calls result.0 }
    ensures unfit { IsUnfit (λ old found new. H.finds old key.now.bucket ImageKind.Resolver found new) hooking.old.hooks hooking.new.hooks hooking.old.table.listed got.now.siblings result.1 }
    ensures table { hooking.new.table ≡ hooking.old.table }
{
    if got.siblings().len() < 2 {
        return (Ok(None), None);
    }
    run_resolver(peers, hooking, coordinator, key, got, answers)
}

// The coordinator's state after what the bucket's resolver chose was put there, where it has one and that chose anything; and why it chose
// nothing, where it failed.
fn run_resolver<P: Peers, H: Hooks>(
    peers: &mut P,
    hooking: &mut Hooking<H>,
    coordinator: usize,
    key: &Key,
    got: &KeyState,
    answers: &[Answer],
) -> (Result<Option<KeyState>, ResolveFault>, Option<Unfit>)
    ensures calls { (calls : List Call) × Made P.happens peers.old calls peers.new × (found : Result (Option Program) NotSeen)
        × H.finds hooking.old.hooks key.now.bucket ImageKind.Resolver found hooking.new.hooks
        × AfterLookUp coordinator key.now answers.now got.now.clock hooking.old.table.listed got.now.siblings found calls result.0
        × UnfitOf hooking.old.table.listed got.now.siblings found result.1 }
    ensures table { hooking.new.table ≡ hooking.old.table }
{
    match hook_of(&mut hooking.hooks, key, ImageKind::Resolver) {
        Ok(Some(hook)) => {
            let ran = hooking.choose(&hook, got.siblings());
            let unfit = unfit_of(&ran);
            let told = commit_choice(peers, coordinator, key, got, answers, ran);
            (told, unfit)
        }
        Ok(None) => (Ok(None), None),
        Err(_) => (Err(ResolveFault::Unseen), None),
    }
}

// Why a run chose nothing, where it failed.
fn unfit_of(ran: &Result<Resolution, Unresolved>) -> Option<Unfit>
    ensures { result ≡ unfit_by ran.now }
{
    match ran {
        Ok(Resolution::TooLarge) => Some(Unfit::TooLarge),
        Ok(Resolution::Bad(bad)) => Some(Unfit::Bad(*bad)),
        _ => None,
    }
}

// Commits the content that a resolver chose among the siblings of a get's answer, if any.
fn commit_choice<P: Peers>(
    peers: &mut P,
    coordinator: usize,
    key: &Key,
    got: &KeyState,
    answers: &[Answer],
    ran: Result<Resolution, Unresolved>,
) -> Result<Option<KeyState>, ResolveFault>
    ensures { (calls : List Call) × Made P.happens peers.old calls peers.new × AfterRun coordinator key.now answers.now got.now.clock got.now.siblings ran calls result }
{
    match ran {
        Ok(resolution) => {
            let tombstone = Content::Tombstone;
            let chosen = resolution.chosen(got.siblings(), &tombstone);
            commit_chosen(peers, coordinator, key, got.clock(), answers, chosen)
        }
        Err(fault) => Err(ResolveFault::Undecided(fault)),
    }
}

// Commits a content, if there is one.
fn commit_chosen<P: Peers>(
    peers: &mut P,
    coordinator: usize,
    key: &Key,
    seen: &Clock,
    answers: &[Answer],
    chosen: Option<&Content>,
) -> Result<Option<KeyState>, ResolveFault>
    ensures { (calls : List Call) × Made P.happens peers.old calls peers.new × AfterChoice coordinator key.now answers.now seen.now (option_copied chosen.entry) calls result }
{
    match chosen {
        Some(content) => written(commit(peers, coordinator, key, seen, answers, content)),
        None => Ok(None),
    }
}

// What a commit comes to.
fn written(back: Result<KeyState, PeerFault>) -> Result<Option<KeyState>, ResolveFault>
    ensures { result ≡ end_of back }
{
    match back {
        Ok(state) => Ok(Some(state)),
        Err(fault) => Err(ResolveFault::Cut(fault)),
    }
}

// Merges each other vnode's answered state into the coordinator, puts the content there, and reads.
fn commit<P: Peers>(
    peers: &mut P,
    coordinator: usize,
    key: &Key,
    seen: &Clock,
    answers: &[Answer],
    content: &Content,
) -> Result<KeyState, PeerFault>
    ensures { (calls : List Call) × Made P.happens peers.old calls peers.new × Commits coordinator key.now answers.now seen.now content.now calls result }
{
    match bring_others(peers, coordinator, key, answers) {
        Ok(()) => put_and_read(peers, coordinator, key, seen, content),
        Err(fault) => Err(fault),
    }
}

// Puts the content at the coordinator, and reads behind it, by one call.
fn put_and_read<P: Peers>(
    peers: &mut P,
    coordinator: usize,
    key: &Key,
    seen: &Clock,
    content: &Content,
) -> Result<KeyState, PeerFault>
    ensures { (back : Result Dot Failure) × (rest : List Call) × Made P.happens peers.old (PutAt coordinator key.now seen.now content.now back ∷ rest) peers.new × AfterCommit coordinator key.now back rest result }
{
    match peers.put_and_read_at(coordinator, key, seen, content) {
        Ok((_, Ok(own))) => Ok(own.state),
        Ok((_, Err(fault))) => Err(fault),
        Err(fault) => Err(fault),
    }
}

// Merges each other vnode's answered state into the coordinator, up to the first that isn't taken.
fn bring_others<P: Peers>(
    peers: &mut P,
    coordinator: usize,
    key: &Key,
    answers: &[Answer],
) -> Result<(), PeerFault>
    ensures { (backs : List (Result Bool Failure)) × Made P.happens peers.old (brings coordinator key.now (others_of coordinator answers.now) backs) peers.new
        × MatchResult result (λ _. AllTaken (others_of coordinator answers.now) backs) (λ fault. OneFailed (others_of coordinator answers.now) backs fault) }
{
    for answer in answers {
        if is_others(coordinator, answer) {
            if let Err(fault) = peers.merge_at(
                coordinator,
                key,
                answer.from,
                answer.at,
                &answer.state,
            ) {
                return Err(fault);
            }
        }
    }
    Ok(())
}

// Whether an answer is another vnode's.
fn is_others(coordinator: usize, answer: &Answer) -> bool
    ensures { result ≡ is_others coordinator answer.now }
{
    (answer.from % VNODES_PER_NUMBER) as usize != coordinator
}
