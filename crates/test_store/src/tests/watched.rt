//! Vnodes of one thread that count what is sent to them.

use dvv::{Clock, Dot};
use key_state::{Content, Key, KeyState, Part};
use peers::{Answer, Local, PartAnswer, PeerFault, Peers, SummaryAnswer};

/// Vnodes, and what was sent to them: parts, contents in parts, and whole states.
#[derive(Drop)]
pub(super) struct Watched {
    pub local: Local,
    pub sent: [usize; 3],
}

impl Watched {
    /// Vnodes to which nothing was sent yet.
    pub(super) fn new(local: Local) -> Watched {
        Watched {
            local,
            sent: [0; 3],
        }
    }
}

impl Peers for Watched {
    ghost use Rattle.std.specs.Prelude.{refl};
    ghost use Rattle.peers.specs.Locals.{LocalStep};

    ghost happens = { λ old call new. LocalStep old.local call new.local };

    ghost failures = { λ w. w.local.failures };

    ghost origin = { λ w. 0 };

    ghost counted = { λ old new call h. h.count };

    ghost stays = { λ old new call h. refl };

    fn put_at(
        &mut self,
        i: usize,
        key: &Key,
        seen: &Clock,
        content: &Content,
    ) -> Result<Dot, PeerFault> {
        self.local.put_at(i, key, seen, content)
    }

    fn merge_at(
        &mut self,
        i: usize,
        key: &Key,
        from: u32,
        at: u64,
        state: &KeyState,
    ) -> Result<bool, PeerFault> {
        self.sent[2] = self.sent[2].saturating_add(1);
        self.local.merge_at(i, key, from, at, state)
    }

    fn state_of(&mut self, i: usize, key: &Key) -> Result<Answer, PeerFault> {
        self.local.state_of(i, key)
    }

    fn summary_at(&mut self, i: usize, key: &Key) -> Result<SummaryAnswer, PeerFault> {
        self.local.summary_at(i, key)
    }

    fn merge_part_at(
        &mut self,
        i: usize,
        key: &Key,
        from: u32,
        at: u64,
        part: &Part,
    ) -> Result<PartAnswer, PeerFault> {
        self.sent[0] = self.sent[0].saturating_add(1);
        self.sent[1] = self.sent[1].saturating_add(part.contents());
        self.local.merge_part_at(i, key, from, at, part)
    }

    fn keys_of(&mut self, i: usize) -> Result<Vec<Key>, PeerFault> {
        self.local.keys_of(i)
    }

    fn expect(&mut self, key: &Key) {
        self.local.expect(key);
    }

    fn ring_place(&mut self, key: &Key) -> Option<u32> {
        self.local.ring_place(key)
    }

    fn learn_ring_place(&self, key: &Key, told: u32) {
        self.local.learn_ring_place(key, told);
    }

    fn failures(&self) -> u64 {
        self.local.failures()
    }
}
