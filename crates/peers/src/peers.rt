//! The vnodes, as whoever reaches them: calls, and what came back.

ghost use Rattle.std.specs.Prelude.{◌≡◌, ℕ, IfSome};
ghost use Rattle.ring.specs.Places.{ring_place};
ghost use Rattle.peers.specs.Counts.{fails_within};

use crate::fault::PeerFault;
use dvv::{Clock, Dot};
use key_state::{Content, Key, KeyState, Part, Summary};

/// What a vnode's read answered.
#[derive(Drop)]
pub struct Answer {
    /// The identifier of the vnode.
    pub from: u32,
    /// The place of the read in its journal.
    pub at: u64,
    /// The state of the key there.
    pub state: KeyState,
}

/// What a vnode answered of the summary of a key. It is a read there.
#[derive(Drop)]
pub struct SummaryAnswer {
    /// The identifier of the vnode.
    pub from: u32,
    /// The place of the read in its journal.
    pub at: u64,
    /// The summary of the state of the key there.
    pub summary: Summary,
}

/// What a vnode answered to a part of a state. Neither is a failure.
#[derive(Clone, Copy, PartialEq, Eq)]
pub enum PartAnswer {
    /// The whole state was merged. Whether that changed something.
    Merged(bool),
    /// A content that was left out isn't held there now. It is no event there: nothing was changed.
    Missing,
}

/// Vnodes that may be out of reach, by their indexes. A call on an index that has no vnode is lost.
pub trait Peers {
    ghost use Rattle.peers.specs.Calls.{Call, PutAt, MergeAt, StateOf, SummaryAt, MergePartAt, KeysOf, Made, puts_and_reads};
    ghost use Rattle.peers.specs.Counts.{Counts};

    /// From one state, a call may come back so and leave the other.
    ghost happens: { Self → Call → Self → Type 0 };

    /// How many calls were lost or refused. The count stays at its greatest.
    ghost failures: { Self → ℕ };

    /// What no call changes, as whom a borrowed part was lent by.
    ghost origin: { Self → ℕ };

    /// Puts at a vnode, as one who had seen what the clock counts. Answers the dot of the put.
    fn put_at(
        &mut self,
        i: usize,
        key: &Key,
        seen: &Clock,
        content: &Content,
    ) -> Result<Dot, PeerFault>
        ensures { happens self.old (PutAt i key.now seen.now content.now result) self.new };

    /// Merges a state that the vnode `from` answered, by the read at place `at` of its journal, into another. Answers
    /// whether that changed something.
    fn merge_at(
        &mut self,
        i: usize,
        key: &Key,
        from: u32,
        at: u64,
        state: &KeyState,
    ) -> Result<bool, PeerFault>
        ensures { happens self.old (MergeAt i key.now from at state.now result) self.new };

    /// Reads at a vnode.
    fn state_of(&mut self, i: usize, key: &Key) -> Result<Answer, PeerFault>
        ensures { happens self.old (StateOf i key.now result) self.new };

    /// Puts at a vnode, and where that was stored reads behind it, so that the state that the put left comes with its dot. The two are
    /// a put and a read, as if they were made one by one; who holds the vnode meanwhile lets no other call come between them.
    fn put_and_read_at(
        &mut self,
        i: usize,
        key: &Key,
        seen: &Clock,
        content: &Content,
    ) -> Result<(Dot, Result<Answer, PeerFault>), PeerFault>
        ensures { Made happens self.old (puts_and_reads i key.now seen.now content.now result) self.new }
    {
        let dot = self.put_at(i, key, seen, content)?;
        Ok((dot, self.state_of(i, key)))
    }

    /// Reads at a vnode the summary of what is held under a key.
    fn summary_at(&mut self, i: usize, key: &Key) -> Result<SummaryAnswer, PeerFault>
        ensures { happens self.old (SummaryAt i key.now result) self.new };

    /// Merges into another a part of the state that the vnode `from` answered, by the read at place `at` of its journal: a content
    /// that was left out is the one that is held there under its dot.
    fn merge_part_at(
        &mut self,
        i: usize,
        key: &Key,
        from: u32,
        at: u64,
        part: &Part,
    ) -> Result<PartAnswer, PeerFault>
        ensures { happens self.old (MergePartAt i key.now from at part.now result) self.new };

    /// The keys of a vnode whose clock isn't empty, in the order of bytes. It is no event there.
    fn keys_of(&mut self, i: usize) -> Result<Vec<Key>, PeerFault>
        ensures { happens self.old (KeysOf i result) self.new };

    /// Calls to come are about this key: what finding it takes may be made once for all of them. It is no event.
    fn expect(&mut self, key: &Key)
        ensures { self.new ≡ self.old };

    /// The place of a key on a ring of three vnodes, where one of these vnodes was told it. It is no event there.
    fn ring_place(&mut self, key: &Key) -> Option<u32>
        ensures same { self.new ≡ self.old }
        ensures place { IfSome result (λ told. told ≡ ring_place key.now.bucket key.now.key) };

    /// Tells the place of a key on a ring of three vnodes, so that who asks for it needs no digest. It is no event, and may come to
    /// nothing.
    fn learn_ring_place(&self, key: &Key, told: u32)
        requires { told ≡ ring_place key.now.bucket key.now.key };

    /// How many calls were lost or refused.
    fn failures(&self) -> u64
        ensures { result ≡ failures self.now };

    /// A call that was lost or refused counts, and no other.
    ghost counted: { (old new : Self) (call : Call) → happens old call new → Counts call (failures old) (failures new) };

    /// No call changes the origin.
    ghost stays: { (old new : Self) (call : Call) → happens old call new → origin new ≡ origin old };
}

/// Whether a put, or the read behind it, was lost or refused.
pub fn fails_within(back: &Result<(Dot, Result<Answer, PeerFault>), PeerFault>) -> bool
    ensures { result ≡ fails_within back.now }
{
    !matches!(back, Ok((_, Ok(_))))
}
