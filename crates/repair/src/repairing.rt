//! Read repair: what came of a get goes to the vnodes that it would change.

ghost use Rattle.std.specs.Prelude.{◌≡◌, ◌+◌, ◌<◌, ◌≤◌, ◌^◌, List, [], length, count_by, is_ok, Bool, Result, IsTrue};
ghost use Rattle.peers.specs.declared.fault.PeerFault.{PeerFault};
ghost use Rattle.peers.specs.Calls.{Made};
ghost use Rattle.repair.specs.Repairs.{deliveries, deliveries_of, tries};

use dvv::VNODES_PER_NUMBER;
use key_state::Key;
use peers::{Answer, Peers};

/// Read repair: each answered state goes to every other vnode that answered and whose answered state it would change,
/// sender by sender. Answers how many took it. A delivery that is lost or refused is passed over.
pub fn repair<P: Peers>(peers: &mut P, key: &Key, answers: &[Answer]) -> u64
    requires { length answers.now < 2 ^ 32 }
    ensures calls { (backs : List (Result Bool PeerFault)) × Made P.happens peers.old (tries key.now (deliveries answers.now) backs) peers.new
        × (length backs ≡ length (deliveries answers.now)) × (result ≡ count_by is_ok backs) }
    ensures origin { P.origin peers.new ≡ P.origin peers.old }
{
    if are_alike(answers) {
        return 0;
    }
    let mut delivered = 0;
    for sender in answers {
        delivered += deliver(peers, key, sender, answers);
    }
    delivered
}

// Whether all answered states have the same dots and the same clock, as they have nearly always: then none would change another.
fn are_alike(answers: &[Answer]) -> bool
    ensures { IsTrue result → deliveries answers.now ≡ [] }
{
    let Some((first, others)) = answers.split_first() else {
        return true;
    };
    // What every state keeps is told with its siblings.
    let _siblings = first.state.siblings();
    others
        .iter()
        .all(|answer| answer.state.has_dots_of(&first.state))
}

// Delivers one answered state to each vnode whose answered state it would change. Answers how many took it.
fn deliver<P: Peers>(peers: &mut P, key: &Key, sender: &Answer, answers: &[Answer]) -> u64
    requires { length answers.now < 2 ^ 32 }
    ensures few { result ≤ length answers.now }
    ensures calls { (backs : List (Result Bool PeerFault)) × Made P.happens peers.old (tries key.now (deliveries_of answers.now sender.now) backs) peers.new
        × (length backs ≡ length (deliveries_of answers.now sender.now)) × (result ≡ count_by is_ok backs) }
{
    let mut delivered = 0;
    for receiver in answers {
        if receiver.state.is_changed_by(&sender.state) {
            let index = (receiver.from % VNODES_PER_NUMBER) as usize;
            if peers
                .merge_at(index, key, sender.from, sender.at, &sender.state)
                .is_ok()
            {
                delivered += 1;
            }
        }
    }
    delivered
}
