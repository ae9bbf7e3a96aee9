//! Exchange: of each key of one vnode what the other lacks goes there, and back.

ghost use Rattle.std.specs.Prelude.{◌≡◌, ◌+◌, ◌^◌, ◌<◌, ◌≤◌, ◌++◌, List, length, count_by, is_ok, Bool, Result, cond, false};
ghost use Rattle.std.specs.List.{AllByRecursion};
ghost use Rattle.key_state.specs.Parts.{part_of};
ghost use Rattle.peers.specs.declared.fault.PeerFault.{PeerFault};
ghost use Rattle.peers.specs.Calls.{Call, Made};
ghost use Rattle.repair.specs.Exchanges.{Sent, Sending, sends, sendings, sends_all, whole_goes, IsFair, is_taken, is_received, is_whole, is_whole_at_once, BringsKeys};

use key_state::{Key, Part};
use peers::{Answer, PartAnswer, Peers, SummaryAnswer};
use std::alloc::Global;

/// What an exchange came to.
#[derive(Clone, Copy, Drop)]
pub struct Exchanged {
    /// How many states were taken.
    pub taken: u64,
    /// How many states were sent whole at once, since there was no memory for the part, whether or not they were taken.
    pub whole_at_once: u64,
}

impl Exchanged {
    // Nothing was sent.
    fn nothing() -> Exchanged
        ensures taken { result.taken ≡ 0 }
        ensures whole { result.whole_at_once ≡ 0 }
    {
        Exchanged {
            taken: 0,
            whole_at_once: 0,
        }
    }

    // One key more, of which this came.
    fn note(&mut self, outcome: Outcome)
        requires taken { self.old.taken + 1 < 2 ^ 64 }
        requires whole { self.old.whole_at_once + 1 < 2 ^ 64 }
        ensures taken { self.new.taken ≡ self.old.taken + cond outcome.is_taken 1 0 }
        ensures whole { self.new.whole_at_once ≡ self.old.whole_at_once + cond outcome.is_whole_at_once 1 0 }
    {
        if outcome.is_taken {
            self.taken += 1;
        }
        if outcome.is_whole_at_once {
            self.whole_at_once += 1;
        }
    }
}

// What came of one key.
#[derive(Clone, Copy, Drop)]
struct Outcome {
    is_taken: bool,
    is_whole_at_once: bool,
}

/// Brings each key of vnode i to vnode j, and then each of j to i, keys in the order in which `keys_of` names them. The receiver tells
/// its summary, and where it isn't that of the sender's state the part that lacks there is sent; the whole state where the receiver no
/// longer holds a content that was left out, and where there is no memory for the part. Answers how many states were taken, and how many
/// went whole at once. A call that is lost or refused is passed over.
pub fn exchange<P: Peers>(alloc: Global, peers: &mut P, i: usize, j: usize) -> Exchanged
    ensures calls { (there back : List Call) × (n m : Exchanged) × Made P.happens peers.old (there ++ back) peers.new × BringsKeys i j there n × BringsKeys j i back m
        × (result.taken ≡ n.taken + m.taken) × (result.whole_at_once ≡ n.whole_at_once + m.whole_at_once) }
    ensures origin { P.origin peers.new ≡ P.origin peers.old }
{
    let there = bring_keys(alloc, peers, i, j);
    let back = bring_keys(alloc, peers, j, i);
    Exchanged {
        taken: there.taken + back.taken,
        whole_at_once: there.whole_at_once + back.whole_at_once,
    }
}

// Brings each key of a vnode to another.
fn bring_keys<P: Peers>(alloc: Global, peers: &mut P, from: usize, to: usize) -> Exchanged
    ensures few { result.taken < 2 ^ 62 }
    ensures few_whole { result.whole_at_once < 2 ^ 62 }
    ensures calls { (calls : List Call) × Made P.happens peers.old calls peers.new × BringsKeys from to calls result }
{
    match peers.keys_of(from) {
        Ok(keys) => bring_all(alloc, peers, &keys, from, to),
        Err(_) => Exchanged::nothing(),
    }
}

// Brings each of these keys to another vnode.
fn bring_all<P: Peers>(
    alloc: Global,
    peers: &mut P,
    keys: &[Key],
    from: usize,
    to: usize,
) -> Exchanged
    ensures few { result.taken ≤ length keys.now }
    ensures few_whole { result.whole_at_once ≤ length keys.now }
    ensures calls { (all : List Sent) × Made P.happens peers.old (sends_all from to keys.now all) peers.new × (length all ≡ length keys.now) × AllByRecursion IsFair all
        × (result.taken ≡ count_by is_taken all) × (result.whole_at_once ≡ count_by is_whole_at_once all) }
{
    let mut exchanged = Exchanged::nothing();
    for key in keys {
        let outcome = bring(alloc, peers, key, from, to);
        exchanged.note(outcome);
    }
    exchanged
}

// Brings the state of a key to another vnode, where it differs there.
fn bring<P: Peers>(alloc: Global, peers: &mut P, key: &Key, from: usize, to: usize) -> Outcome
    ensures { (sent : Sent) × Made P.happens peers.old (sends from to key.now sent) peers.new × IsFair sent × (result.is_taken ≡ is_taken sent) × (result.is_whole_at_once ≡ is_whole_at_once sent) }
{
    let nothing = Outcome {
        is_taken: false,
        is_whole_at_once: false,
    };
    let told = match peers.summary_at(to, key) {
        Ok(told) => told,
        Err(_) => return nothing,
    };
    let own = match peers.state_of(from, key) {
        Ok(own) => own,
        Err(_) => return nothing,
    };
    if told.summary.is_of(&own.state) {
        return nothing;
    }
    send(alloc, peers, key, &told, &own, to)
}

// Sends to a vnode what it lacks of a state, by the summary that it told.
fn send<P: Peers>(
    alloc: Global,
    peers: &mut P,
    key: &Key,
    told: &SummaryAnswer,
    own: &Answer,
    to: usize,
) -> Outcome
    ensures { (sending : Sending) × Made P.happens peers.old (sendings to key.now told.now.summary own.now sending) peers.new × (result.is_taken ≡ is_received sending) × (result.is_whole_at_once ≡ is_whole sending) }
{
    match own.state.part(alloc, &told.summary) {
        Ok(part) => Outcome {
            is_taken: send_part(peers, key, told, own, &part, to),
            is_whole_at_once: false,
        },
        Err(_) => Outcome {
            is_taken: send_whole(peers, key, own, to),
            is_whole_at_once: true,
        },
    }
}

// Sends the part of a state, and the whole state where a content lacks. Answers whether it was taken.
fn send_part<P: Peers>(
    peers: &mut P,
    key: &Key,
    told: &SummaryAnswer,
    own: &Answer,
    part: &Part,
    to: usize,
) -> bool
    requires { part.now ≡ part_of own.now.state told.now.summary }
    ensures { (sending : Sending) × Made P.happens peers.old (sendings to key.now told.now.summary own.now sending) peers.new × (result ≡ is_received sending) × (is_whole sending ≡ false) }
{
    match peers.merge_part_at(to, key, own.from, own.at, part) {
        Ok(PartAnswer::Merged(_)) => true,
        Ok(PartAnswer::Missing) => send_whole(peers, key, own, to),
        Err(_) => false,
    }
}

// Sends a state whole. Answers whether it was taken.
fn send_whole<P: Peers>(peers: &mut P, key: &Key, own: &Answer, to: usize) -> bool
    ensures { (back : Result Bool PeerFault) × P.happens peers.old (whole_goes to key.now own.now back) peers.new × (result ≡ is_ok back) }
{
    peers
        .merge_at(to, key, own.from, own.at, &own.state)
        .is_ok()
}
