//! A server's own vnodes and those of others, as one ring.

ghost use Rattle.std.specs.Prelude.{◌≡◌, ◌+◌, ◌-◌, ◌^◌, min, if◌then◌else◌};
ghost use Rattle.peer_routing.specs.Rings.{own_index};

use dvv::{Clock, Dot};
use key_state::{Content, Key, KeyState, Part};
use peers::{Answer, PartAnswer, PeerFault, Peers, SummaryAnswer, fails_within};

/// A server's own vnodes, which are so many from an index of the ring on, those of others, and how many calls on all of them were lost or
/// refused.
#[derive(Drop)]
pub struct Router<P, Q> {
    own: P,
    first: usize,
    count: usize,
    others: Q,
    failures: u64,
}

impl<P, Q> Router<P, Q> {
    /// `count` own vnodes, of which the first has the index `first` on the ring, and whoever reaches the others, before any call.
    pub fn new(own: P, first: usize, count: usize, others: Q) -> Router<P, Q>
        ensures own { result.own ≡ own }
        ensures first { result.first ≡ first }
        ensures count { result.count ≡ count }
        ensures others { result.others ≡ others }
        ensures none { result.failures ≡ 0 }
    {
        Router {
            own,
            first,
            count,
            others,
            failures: 0,
        }
    }

    /// Which of the own vnodes an index of the ring is, if it is one of theirs.
    fn own_index(&self, i: usize) -> Option<usize>
        ensures { result ≡ own_index self.now.first self.now.count i }
    {
        if self.first <= i && i - self.first < self.count {
            Some(i - self.first)
        } else {
            None
        }
    }

    /// Counts a call that was lost or refused. The count stays at its greatest.
    fn count_failure(&mut self, failed: bool)
        ensures { self.new ≡ record self.old { failures = if failed then min (self.old.failures + 1) (2 ^ 64 - 1) else self.old.failures } }
    {
        if failed {
            self.failures = self.failures.saturating_add(1);
        }
    }
}

impl<P: Peers, Q: Peers> Peers for Router<P, Q> {
    ghost use Rattle.std.specs.Prelude.{refl};
    ghost use Rattle.peer_routing.specs.Rings.{RingStep, ring_view};

    ghost happens = { λ old call new. RingStep P.happens Q.happens (ring_view old.own old.first old.count old.others old.failures) call (ring_view new.own new.first new.count new.others new.failures) };

    ghost failures = { λ r. r.failures };

    ghost origin = { λ r. 0 };

    ghost counted = { λ old new call h. h.counted };

    ghost stays = { λ old new call h. refl };

    fn put_at(
        &mut self,
        i: usize,
        key: &Key,
        seen: &Clock,
        content: &Content,
    ) -> Result<Dot, PeerFault> {
        let back = match self.own_index(i) {
            Some(at) => self.own.put_at(at, key, seen, content),
            None => self.others.put_at(i, key, seen, content),
        };
        self.count_failure(back.is_err());
        back
    }

    fn put_and_read_at(
        &mut self,
        i: usize,
        key: &Key,
        seen: &Clock,
        content: &Content,
    ) -> Result<(Dot, Result<Answer, PeerFault>), PeerFault> {
        let back = match self.own_index(i) {
            Some(at) => self.own.put_and_read_at(at, key, seen, content),
            None => self.others.put_and_read_at(i, key, seen, content),
        };
        self.count_failure(fails_within(&back));
        back
    }

    fn merge_at(
        &mut self,
        i: usize,
        key: &Key,
        from: u32,
        at: u64,
        state: &KeyState,
    ) -> Result<bool, PeerFault> {
        let back = match self.own_index(i) {
            Some(own) => self.own.merge_at(own, key, from, at, state),
            None => self.others.merge_at(i, key, from, at, state),
        };
        self.count_failure(back.is_err());
        back
    }

    fn state_of(&mut self, i: usize, key: &Key) -> Result<Answer, PeerFault> {
        let back = match self.own_index(i) {
            Some(at) => self.own.state_of(at, key),
            None => self.others.state_of(i, key),
        };
        self.count_failure(back.is_err());
        back
    }

    fn summary_at(&mut self, i: usize, key: &Key) -> Result<SummaryAnswer, PeerFault> {
        let back = match self.own_index(i) {
            Some(at) => self.own.summary_at(at, key),
            None => self.others.summary_at(i, key),
        };
        self.count_failure(back.is_err());
        back
    }

    fn merge_part_at(
        &mut self,
        i: usize,
        key: &Key,
        from: u32,
        at: u64,
        part: &Part,
    ) -> Result<PartAnswer, PeerFault> {
        let back = match self.own_index(i) {
            Some(own) => self.own.merge_part_at(own, key, from, at, part),
            None => self.others.merge_part_at(i, key, from, at, part),
        };
        self.count_failure(back.is_err());
        back
    }

    fn keys_of(&mut self, i: usize) -> Result<Vec<Key>, PeerFault> {
        let back = match self.own_index(i) {
            Some(at) => self.own.keys_of(at),
            None => self.others.keys_of(i),
        };
        self.count_failure(back.is_err());
        back
    }

    fn expect(&mut self, key: &Key) {
        self.own.expect(key);
        self.others.expect(key);
    }

    fn ring_place(&mut self, key: &Key) -> Option<u32> {
        self.own.ring_place(key)
    }

    fn learn_ring_place(&self, key: &Key, told: u32) {
        self.own.learn_ring_place(key, told);
    }

    fn failures(&self) -> u64 {
        self.failures
    }
}
