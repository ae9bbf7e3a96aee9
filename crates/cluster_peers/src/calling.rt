//! The vnodes of a cluster as peers, by one pass.

ghost use Rattle.std.specs.Prelude.{◌≡◌, ◌≢◌, Ok, Err, ◌^◌, ◌-◌, ◌+◌, min, if◌then◌else◌};
ghost use Rattle.cluster_stamps.specs.declared.request.Request.TheVariants as request;
ghost use Rattle.peers.specs.Calls.{Made, puts_and_reads};
ghost use Rattle.peers.specs.declared.fault.PeerFault.TheVariants.{Lost, Refused};
ghost use Rattle.peers.specs.declared.peers.PartAnswer.TheVariants.{Missing};
ghost use Rattle.cluster_vnode.specs.declared.fault.CallFault.{CallFault};
ghost use Rattle.cluster_peers.specs.Peering.{IsPut, IsPutAndRead, IsMerge, IsRead, IsReadBack, IsReadAs, IsSummary, IsPart, IsKeys, MatchCall, ReachStep};

use cluster::{CallAndRead, CallFault, Cluster, Pass, Receipt, Room};
use cluster_stamps::{Prepared, Reply};
use dvv::{Clock, Dot};
use key_state::{Content, Key, KeyState, Part};
use peers::{Answer, PartAnswer, PeerFault, Peers, SummaryAnswer, fails_within};
use std::alloc::Global;
use std::marker::Model;
use std::sync::Wait;
use vnode::VnodeFault;

/// The vnodes of a cluster, by a pass of its own. A call on a vnode is one call of the cluster, under that vnode's lock; a put and the read
/// behind it are made under one. A call on an index that has no vnode is lost, and so is one where the pass has drawn all its stamps.
#[derive(Drop)]
pub struct ClusterPeers<'a, B: Room, R: Wait> {
    alloc: Global,
    rt: &'a R,
    cluster: &'a Cluster<B>,
    pass: Pass<B>,
    failures: u64,
}

impl<'a, B: Room, R: Wait> Model for ClusterPeers<'a, B, R> {
    ghost use Rattle.cluster_peers.specs.Peering.{Reach};

    ghost Value = { Reach };

    ghost view = { λ p. record { size = p.cluster.now; pass = p.pass; failures = p.failures } };
}

// Why a call that was no part came back without a reply.
fn no_reply(fault: CallFault) -> PeerFault
    requires { fault ≢ CallFault.Missing }
    ensures { MatchCall fault (result ≡ Lost) ⊥ (λ why. result ≡ Refused why) }
{
    match fault {
        CallFault::PassSpent => PeerFault::Lost,
        CallFault::Missing => unreachable!(),
        CallFault::Refused(fault) => PeerFault::Refused(fault),
    }
}

// What a read came to.
fn read_answer(back: Result<(Reply, Receipt), CallFault>) -> Result<Answer, PeerFault>
    requires { IsReadBack back }
    ensures { IsReadAs back result }
{
    match back {
        Ok((reply, receipt)) => match reply {
            Reply::State(state) => Ok(Answer {
                from: receipt.vnode,
                at: receipt.place,
                state,
            }),
            _ => unreachable!(),
        },
        Err(fault) => Err(no_reply(fault)),
    }
}

// What a part that was refused came to.
fn part_refused(fault: CallFault) -> Result<PartAnswer, PeerFault>
    ensures { MatchCall fault (result ≡ Err Lost) (result ≡ Ok Missing) (λ why. result ≡ Err (Refused why)) }
{
    match fault {
        CallFault::PassSpent => Err(PeerFault::Lost),
        CallFault::Missing => Ok(PartAnswer::Missing),
        CallFault::Refused(fault) => Err(PeerFault::Refused(fault)),
    }
}

impl<'a, B: Room, R: Wait> ClusterPeers<'a, B, R> {
    /// The vnodes of a cluster, by a pass, with no call made yet.
    pub fn new(alloc: Global, rt: &'a R, cluster: &'a Cluster<B>, pass: Pass<B>) -> Self
        ensures { result ≡ record { size = cluster.now; pass = pass; failures = 0 } }
    {
        ClusterPeers {
            alloc,
            rt,
            cluster,
            pass,
            failures: 0,
        }
    }

    /// The pass, as the calls have left it.
    pub fn into_pass(self) -> Pass<B>
        ensures { result ≡ self.entry.pass }
    {
        self.pass
    }

    // Counts a call that was lost or refused.
    fn count(&mut self, failed: bool)
        ensures { self.new ≡ record self.old { failures = if failed then min (self.old.failures + 1) (2 ^ 64 - 1) else self.old.failures } }
    {
        if failed {
            self.failures = self.failures.saturating_add(1);
        }
    }
}

// One call of the cluster each, which isn't counted yet.
impl<B: Room, R: Wait> ClusterPeers<'_, B, R> {
    // Puts at a vnode.
    fn put(
        &mut self,
        i: usize,
        key: &Key,
        seen: &Clock,
        content: &Content,
    ) -> Result<Dot, PeerFault>
        ensures put { IsPut self.old.size self.old.pass self.new.pass i (request.Put key.now seen.now content.now) result }
        ensures same { (self.new.size ≡ self.old.size) × (self.new.failures ≡ self.old.failures) }
    {
        if i >= self.cluster.count() {
            return Err(PeerFault::Lost);
        }
        let Ok(put) = Prepared::put(self.alloc, key, seen, content) else {
            return Err(PeerFault::Refused(VnodeFault::NoMemory));
        };
        match self.cluster.call_prepared(self.rt, &mut self.pass, i, put) {
            Ok((Reply::Dot(dot), _)) => Ok(dot),
            Ok(_) => unreachable!(),
            Err(fault) => Err(no_reply(fault)),
        }
    }

    // Puts at a vnode, and where that was stored reads there behind it, under one lock: the read's entry is the next behind the put's.
    fn put_and_read(
        &mut self,
        i: usize,
        key: &Key,
        seen: &Clock,
        content: &Content,
    ) -> Result<(Dot, Result<Answer, PeerFault>), PeerFault>
        ensures both { IsPutAndRead self.old.size self.old.pass self.new.pass i key.now seen.now content.now result }
        ensures same { (self.new.size ≡ self.old.size) × (self.new.failures ≡ self.old.failures) }
    {
        if i >= self.cluster.count() {
            return Err(PeerFault::Lost);
        }
        let Ok(put) = Prepared::put(self.alloc, key, seen, content) else {
            return Err(PeerFault::Refused(VnodeFault::NoMemory));
        };
        let back = self
            .cluster
            .lock(self.rt, i)
            .call_and_read(&mut self.pass, put, key);
        match back {
            Ok(
                CallAndRead {
                    call: (Reply::Dot(dot), _),
                    read,
                },
            ) => Ok((dot, read_answer(read))),
            Ok(_) => unreachable!(),
            Err(fault) => Err(no_reply(fault)),
        }
    }

    // Merges at a vnode.
    fn merge(
        &mut self,
        i: usize,
        key: &Key,
        from: u32,
        at: u64,
        state: &KeyState,
    ) -> Result<bool, PeerFault>
        ensures merge { IsMerge self.old.size self.old.pass self.new.pass i (request.Merge key.now from at state.now) result }
        ensures same { (self.new.size ≡ self.old.size) × (self.new.failures ≡ self.old.failures) }
    {
        if i >= self.cluster.count() {
            return Err(PeerFault::Lost);
        }
        let Ok(merge) = Prepared::merge(self.alloc, key, from, at, state) else {
            return Err(PeerFault::Refused(VnodeFault::NoMemory));
        };
        match self
            .cluster
            .call_prepared(self.rt, &mut self.pass, i, merge)
        {
            Ok((Reply::Changed(changed), _)) => Ok(changed),
            Ok(_) => unreachable!(),
            Err(fault) => Err(no_reply(fault)),
        }
    }

    // Reads at a vnode.
    fn read(&mut self, i: usize, key: &Key) -> Result<Answer, PeerFault>
        ensures read { IsRead self.old.size self.old.pass self.new.pass i (request.Read key.now) result }
        ensures same { (self.new.size ≡ self.old.size) × (self.new.failures ≡ self.old.failures) }
    {
        if i >= self.cluster.count() {
            return Err(PeerFault::Lost);
        }
        read_answer(
            self.cluster
                .call_prepared(self.rt, &mut self.pass, i, Prepared::Read(key)),
        )
    }

    // Reads the summary of what a vnode holds.
    fn summary(&mut self, i: usize, key: &Key) -> Result<SummaryAnswer, PeerFault>
        ensures summary { IsSummary self.old.size self.old.pass self.new.pass i (request.Summary key.now) result }
        ensures same { (self.new.size ≡ self.old.size) × (self.new.failures ≡ self.old.failures) }
    {
        if i >= self.cluster.count() {
            return Err(PeerFault::Lost);
        }
        match self
            .cluster
            .call_prepared(self.rt, &mut self.pass, i, Prepared::Summary(key))
        {
            Ok((reply, receipt)) => match reply {
                Reply::Summary(summary) => Ok(SummaryAnswer {
                    from: receipt.vnode,
                    at: receipt.place,
                    summary,
                }),
                _ => unreachable!(),
            },
            Err(fault) => Err(no_reply(fault)),
        }
    }

    // Merges a part at a vnode.
    fn merge_part(
        &mut self,
        i: usize,
        key: &Key,
        from: u32,
        at: u64,
        part: &Part,
    ) -> Result<PartAnswer, PeerFault>
        ensures part { IsPart self.old.size self.old.pass self.new.pass i (request.Part key.now from at part.now) result }
        ensures same { (self.new.size ≡ self.old.size) × (self.new.failures ≡ self.old.failures) }
    {
        if i >= self.cluster.count() {
            return Err(PeerFault::Lost);
        }
        let Ok(prepared) = Prepared::part(self.alloc, key, from, at, part) else {
            return Err(PeerFault::Refused(VnodeFault::NoMemory));
        };
        match self
            .cluster
            .call_prepared(self.rt, &mut self.pass, i, prepared)
        {
            Ok((Reply::Built { changed, .. }, _)) => Ok(PartAnswer::Merged(changed)),
            Ok(_) => unreachable!(),
            Err(fault) => part_refused(fault),
        }
    }

    // Names the keys of a vnode.
    fn keys(&mut self, i: usize) -> Result<Vec<Key>, PeerFault>
        ensures keys { IsKeys self.old.size self.old.pass self.new.pass i result }
        ensures same { (self.new.size ≡ self.old.size) × (self.new.failures ≡ self.old.failures) }
    {
        if i >= self.cluster.count() {
            return Err(PeerFault::Lost);
        }
        match self.cluster.keys_of(self.rt, &mut self.pass, i) {
            Ok(keys) => Ok(keys),
            Err(_) => Err(PeerFault::Refused(VnodeFault::NoMemory)),
        }
    }
}

impl<B: Room, R: Wait> Peers for ClusterPeers<'_, B, R> {
    ghost use Rattle.std.specs.Prelude.{refl};
    ghost use Rattle.cluster_peers.specs.Peering.{PassStep};

    ghost happens = { λ old call new. PassStep old.size old.pass old.failures call new.pass new.failures 0 0 new.size };

    ghost failures = { λ p. p.failures };

    ghost origin = { λ p. 0 };

    ghost counted = { λ old new call h. h.count };

    ghost stays = { λ old new call h. refl };

    fn put_at(
        &mut self,
        i: usize,
        key: &Key,
        seen: &Clock,
        content: &Content,
    ) -> Result<Dot, PeerFault> {
        let back = self.put(i, key, seen, content);
        self.count(back.is_err());
        back
    }

    fn put_and_read_at(
        &mut self,
        i: usize,
        key: &Key,
        seen: &Clock,
        content: &Content,
    ) -> Result<(Dot, Result<Answer, PeerFault>), PeerFault>
        ensures made { Made ReachStep self.old (puts_and_reads i key.now seen.now content.now result) self.new }
        ensures both { IsPutAndRead self.old.size self.old.pass self.new.pass i key.now seen.now content.now result }
    {
        let back = self.put_and_read(i, key, seen, content);
        self.count(fails_within(&back));
        back
    }

    fn merge_at(
        &mut self,
        i: usize,
        key: &Key,
        from: u32,
        at: u64,
        state: &KeyState,
    ) -> Result<bool, PeerFault> {
        let back = self.merge(i, key, from, at, state);
        self.count(back.is_err());
        back
    }

    fn state_of(&mut self, i: usize, key: &Key) -> Result<Answer, PeerFault> {
        let back = self.read(i, key);
        self.count(back.is_err());
        back
    }

    fn summary_at(&mut self, i: usize, key: &Key) -> Result<SummaryAnswer, PeerFault> {
        let back = self.summary(i, key);
        self.count(back.is_err());
        back
    }

    fn merge_part_at(
        &mut self,
        i: usize,
        key: &Key,
        from: u32,
        at: u64,
        part: &Part,
    ) -> Result<PartAnswer, PeerFault> {
        let back = self.merge_part(i, key, from, at, part);
        self.count(back.is_err());
        back
    }

    fn keys_of(&mut self, i: usize) -> Result<Vec<Key>, PeerFault> {
        let back = self.keys(i);
        self.count(back.is_err());
        back
    }

    fn expect(&mut self, key: &Key) {
        self.pass.expect(self.cluster.hint(key));
    }

    fn ring_place(&mut self, key: &Key) -> Option<u32> {
        let mut hint = self.pass.hint().copy();
        let told = self.cluster.ring_place(self.rt, &mut hint, key);
        self.pass.expect(hint);
        told
    }

    fn learn_ring_place(&self, key: &Key, told: u32) {
        self.cluster
            .learn_ring_place(self.rt, self.pass.hint(), key, told);
    }

    fn failures(&self) -> u64 {
        self.failures
    }
}
