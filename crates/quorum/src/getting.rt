//! A get: each vnode of the list is read, and what came is merged.

ghost use Rattle.std.specs.Prelude.{◌≡◌, ◌+◌, ◌≤◌, ◌<◌, ℕ, [], List, length, IfOk, OnOk, Result, Err, vec_capacity};
ghost use Rattle.key_state.specs.declared.content.Key.{Key as StoredKey};
ghost use Rattle.key_state.specs.Known.{Write, AreUnique, NoneSawItself, Shows, ShowsKnown};
ghost use Rattle.journal.specs.Replay.{IsMergeOf};
ghost use Rattle.journal.specs.Brought.{AllShow, all_writes};
ghost use Rattle.peers.specs.declared.peers.Answer.{Answer as Answered};
ghost use Rattle.peers.specs.declared.fault.PeerFault.{PeerFault};
ghost use Rattle.peers.specs.Calls.{Made};
ghost use Rattle.peers.specs.Counts.{HasRisen};
ghost use Rattle.ring.specs.Places.{AreDifferent};
ghost use Rattle.quorum.specs.Gets.{reads, answers, states_of, PassesClock, MayLackMemory, EachShows, GetsAnswer};

use crate::fault::QuorumFault;
use key_state::{Key, KeyState, MergeFault};
use peers::{Answer, Peers};
use std::alloc::Global;

/// Reads the key at each of these vnodes, in order, no two of them alike. Answers the merge of all states that came, and
/// these, at most one of each vnode.
///
/// `TooFew` just where fewer than r vnodes answered; else `Refused`, at the first merge that can't be made: with
/// `MergedClockFull` just where its clock passes the limit, and with `NoMemory` where a growth was refused for one that
/// doesn't. `NoMemory` too, with no vnode read, where there is no room for what will come. The reads made are events that
/// stand.
pub fn get<P: Peers>(
    alloc: Global,
    peers: &mut P,
    key: &Key,
    vnodes: &[usize],
    r: usize,
) -> Result<(KeyState, Vec<Answer>), QuorumFault>
    requires different { AreDifferent vnodes.now }
    // Which calls are made, and what is answered to what came back.
    ensures calls { (backs : List (Result Answered PeerFault)) × Made P.happens peers.old (reads key.now vnodes.now backs) peers.new × GetsAnswer key.now vnodes.now r backs result }
    // Too few answers come only of calls that were lost or refused.
    ensures few { result ≡ Err QuorumFault.TooFew → r ≤ length vnodes.now → HasRisen (P.failures peers.old) (P.failures peers.new) }
    ensures within { IfOk result (λ found. length found.1.items ≤ length vnodes.now) }
    // Where each state that came shows some known writes, the answer shows what is current among all of these, and their context.
    ensures current { IfOk result (λ found. (knowns : List (List Write)) → AllShow (states_of found.1.items) knowns → ShowsKnown found.0 (all_writes knowns)) }
    // The same, told by sets of writes: of vnodes of one world, where no identifier stands for two writes and none had seen
    // itself, the answer shows the union of what each that came shows.
    ensures union { IfOk result (λ found. (knowns : List (List Write)) → EachShows knowns (states_of found.1.items) → AreUnique (all_writes knowns) → NoneSawItself (all_writes knowns) → Shows (all_writes knowns) found.0) }
    ensures origin { P.origin peers.new ≡ P.origin peers.old }
{
    journal::laws::merges_are_current();
    key_state::laws::forms_agree();
    let mut found = Vec::with_capacity(alloc, vnodes.len())?;
    read_all(peers, key, vnodes, &mut found);
    if found.len() < r {
        return Err(QuorumFault::TooFew);
    }
    match merge_all(alloc, &found) {
        Ok(merged) => Ok((merged, found)),
        Err(fault) => Err(QuorumFault::from(fault)),
    }
}

// Reads the key at each of these vnodes, in order, and keeps what came.
fn read_all<P: Peers>(peers: &mut P, key: &Key, vnodes: &[usize], found: &mut Vec<Answer>)
    requires none { found.old.items ≡ [] }
    requires room { length vnodes.now ≤ vec_capacity found.old }
    ensures reads { (backs : List (Result Answered PeerFault)) × Made P.happens peers.old (reads key.now vnodes.now backs) peers.new × (length backs ≡ length vnodes.now) × (found.new.items ≡ answers backs) }
{
    for &i in vnodes {
        if let Ok(answer) = peers.state_of(i, key) {
            let Ok(()) = found.push(answer) else {
                unreachable!()
            };
        }
    }
}

// The merge of what came.
fn merge_all(alloc: Global, found: &[Answer]) -> Result<KeyState, MergeFault>
    ensures merge { IfOk result (λ merged. (key : StoredKey) → IsMergeOf key (states_of found.now) merged) }
    ensures fits { OnOk result ((key : StoredKey) → PassesClock key (states_of found.now) → ⊥) }
    ensures full { result ≡ Err MergeFault.ClockFull → (key : StoredKey) → PassesClock key (states_of found.now) }
    ensures memory { result ≡ Err MergeFault.NoMemory → (key : StoredKey) → MayLackMemory key (states_of found.now) }
{
    journal::laws::merges_go_on();
    journal::laws::replays_are_one();
    let mut merged = KeyState::new(alloc);
    for answer in found {
        match merged.merge(&answer.state) {
            Ok(_) => {}
            Err(fault) => return Err(fault),
        }
    }
    Ok(merged)
}
