//! The vnodes of other servers as peers.

ghost use Rattle.std.specs.Prelude.{◌≡◌, ◌+◌, ◌-◌, ◌^◌, min, if◌then◌else◌};

use crate::asking;
use crate::message::Link;
use dvv::{Clock, Dot};
use key_state::{Content, Key, KeyState, Part};
use peers::{Answer, PartAnswer, PeerFault, Peers, SummaryAnswer};

/// The vnodes of other servers, by their indexes on the ring, over a link; and how many calls on them were lost or refused.
#[derive(Drop)]
pub struct Remote<L> {
    link: L,
    failures: u64,
}

impl<L> Remote<L> {
    /// The vnodes that a link reaches, before any call.
    pub fn new(link: L) -> Remote<L>
        ensures link { result.link ≡ link }
        ensures none { result.failures ≡ 0 }
    {
        Remote { link, failures: 0 }
    }

    /// Counts a call that was lost or refused. The count stays at its greatest.
    fn count(&mut self, failed: bool)
        ensures { self.new ≡ record self.old { failures = if failed then min (self.old.failures + 1) (2 ^ 64 - 1) else self.old.failures } }
    {
        if failed {
            self.failures = self.failures.saturating_add(1);
        }
    }
}

impl<L: Link> Peers for Remote<L> {
    ghost use Rattle.std.specs.Prelude.{refl};
    ghost use Rattle.peer_remote.specs.Asking.{RemoteStep};

    ghost happens = { λ old call new. RemoteStep L.sent old.failures call new.failures };

    ghost failures = { λ r. r.failures };

    ghost origin = { λ r. 0 };

    ghost counted = { λ old new call h. h.counted };

    ghost stays = { λ old new call h. refl };

    fn put_at(
        &mut self,
        i: usize,
        key: &Key,
        seen: &Clock,
        content: &Content,
    ) -> Result<Dot, PeerFault> {
        let back = asking::put(&mut self.link, i, key, seen, content);
        self.count(back.is_err());
        back
    }

    fn merge_at(
        &mut self,
        i: usize,
        key: &Key,
        from: u32,
        at: u64,
        state: &KeyState,
    ) -> Result<bool, PeerFault> {
        let back = asking::merge(&mut self.link, i, key, from, at, state);
        self.count(back.is_err());
        back
    }

    fn state_of(&mut self, i: usize, key: &Key) -> Result<Answer, PeerFault> {
        let back = asking::state_of(&mut self.link, i, key);
        self.count(back.is_err());
        back
    }

    fn summary_at(&mut self, i: usize, key: &Key) -> Result<SummaryAnswer, PeerFault> {
        let back = asking::summary_at(&mut self.link, i, key);
        self.count(back.is_err());
        back
    }

    fn merge_part_at(
        &mut self,
        i: usize,
        key: &Key,
        from: u32,
        at: u64,
        part: &Part,
    ) -> Result<PartAnswer, PeerFault> {
        let back = asking::merge_part(&mut self.link, i, key, from, at, part);
        self.count(back.is_err());
        back
    }

    /// Is lost: other servers' keys are not named.
    fn keys_of(&mut self, _i: usize) -> Result<Vec<Key>, PeerFault> {
        self.count(true);
        Err(PeerFault::Lost)
    }

    fn expect(&mut self, _key: &Key) {}

    fn ring_place(&mut self, _key: &Key) -> Option<u32> {
        None
    }

    fn learn_ring_place(&self, _key: &Key, _told: u32) {}

    fn failures(&self) -> u64 {
        self.failures
    }
}
