//! The vnodes under their locks, and the word from which stamps are drawn.
ghost use Rattle.std.specs.Prelude.{◌≡◌, ℕ, ◌+◌, ◌<◌, ◌≤◌, ◌^◌, [], map, IfOk, IfErr, IfSome, IfNone, OnOk, vec_len};
ghost use Rattle.std.specs.List.{flat_map, All, Contains};
ghost use Rattle.ring.specs.Places.{ring_place};
ghost use Rattle.cluster_stamps.specs.Answered.{asked};
ghost use Rattle.cluster_stamps.specs.declared.view.Told.{Told};
ghost use Rattle.cluster_stamps.specs.Rule.{newcomer, times, call_of};
ghost use Rattle.cluster_vnode.specs.Gathers.{IsGathered, AreCounted, Stands, Differ, journal_stamps};
ghost use Rattle.cluster_vnode.specs.GatherFaults.{IsGatherFault};
ghost use Rattle.cluster_vnode.specs.Calls.{pass_view, IsNews, IsFault, IsHandedOut, AreKeysOf, AreUnsortedOf, outcome_ok};

use crate::guard::VnodeGuard;
use cluster_stamps::{Card, Prepared, Reply, Request, STAMPS_EACH, Size, Stamps};
use cluster_vnode::{
    CallFault, GatherFault, Locked, Pass, Receipt, Room, deal_passes, deal_vnodes, gathered,
};
use journal::{Entry, Handout};
use key_state::Key;
use std::alloc::{AllocError, Global};
use std::hint::spin_loop;
use std::marker::{Model, PhantomData};
use std::sync::{Mutex, MutexGuard, Wait};
use vnode::{BlockSpot, Hint, KeyBlock, Names, Seed, Vnode, VnodeFault, in_order};

/// How often a vnode's lock is tried before the thread sleeps until it is free. The processor is told each time that the thread waits, and
/// lets it pause: so all take 12 microseconds, and 60 or more on a processor that pauses longer.
const TRIES: u32 = 1_000;

/// Vnodes under a lock each. Contracts see the identifier of the first, and how many vnodes and passes there are.
#[derive(Drop)]
pub struct Cluster<B: Room> {
    alloc: Global,
    stamps: Stamps,
    vnodes: Vec<Mutex<Locked<B>>>,
    first: u32,
    passes: usize,
    /// What the hashes of its vnodes' keys begin with.
    seed: Seed,
    room: PhantomData<B>,
}

impl<B: Room> Model for Cluster<B> {
    ghost use Rattle.std.specs.Prelude.{◌≡◌, ◌+◌, ◌≤◌, ◌^◌, vec_len};
    ghost use Rattle.cluster_stamps.specs.declared.view.Size.{Size};

    ghost Value = { Size };

    ghost view = { λ c. record { first = c.first; vnodes = vec_len c.vnodes; passes = c.passes } };

    ghost invariant = { λ c. (c.stamps.table.shared.table_id ≡ B.table) × (c.stamps.table.shared.key ≡ record { first = c.first; vnodes = vec_len c.vnodes; passes = c.passes }) × (c.first + vec_len c.vnodes ≤ 2 ^ 32) };
}

impl<B: Room> Cluster<B> {
    /// How many vnodes there are.
    pub fn count(&self) -> usize
        ensures { result ≡ self.now.vnodes }
    {
        self.vnodes.len()
    }

    // A vnode under its lock. Who holds it is through within microseconds, and a thread that sleeps wakes much later: so it is tried for a
    // while.
    fn locked<'a, R: Wait>(&'a self, rt: &R, vnode: usize) -> MutexGuard<'a, Locked<B>>
        requires { vnode < self.now.vnodes }
    {
        let vnode = &self.vnodes[vnode];
        for _ in 0..TRIES {
            if let Some(guard) = vnode.try_lock() {
                return guard;
            }
            spin_loop();
        }
        vnode.lock(rt)
    }

    /// The vnode of an index under its lock, which is held until the guard is let go. Several calls can be made on it meanwhile. Who holds
    /// it and asks for the same vnode again waits forever.
    pub fn lock<'a, R: Wait>(&'a self, rt: &R, vnode: usize) -> VnodeGuard<'a, B>
        requires { vnode < self.now.vnodes }
        ensures { result.id ≡ self.now.first + vnode }
    {
        VnodeGuard::new(
            self.locked(rt, vnode),
            &self.stamps,
            self.first + vnode as u32,
        )
    }

    /// Makes a call on the vnode of an index, under its lock. The answer is that of one thread at the receipt's place, which is above all
    /// that the pass was told of there. Refused where the pass has drawn all its stamps; else where there is no memory for copies of the
    /// request's parts, which are made before the lock is asked for, and no stamp is drawn; else as the vnode refuses it.
    pub fn call<R: Wait>(
        &self,
        rt: &R,
        pass: &mut Pass<B>,
        vnode: usize,
        request: &Request,
    ) -> Result<(Reply, Receipt), CallFault>
        requires { vnode < self.now.vnodes }
        ensures ok { IfOk result (λ r. (r.1.vnode ≡ self.now.first + vnode) × IsNews pass.old pass.new (call_of (self.now.first + vnode) r.1.place r.1.stamp request.now (outcome_ok r.0))) }
        ensures err { IfErr result (IsFault pass.old pass.new (self.now.first + vnode) request.now) }
        ensures drawn { pass.new.drawn ≤ pass.old.drawn + 1 }
    {
        if pass.drawn() >= STAMPS_EACH {
            return Err(CallFault::PassSpent);
        }
        match Prepared::new(self.alloc, request) {
            Ok(prepared) => self.call_prepared(rt, pass, vnode, prepared),
            Err(_) => Err(CallFault::Refused(VnodeFault::NoMemory)),
        }
    }

    /// As [`call`](Cluster::call), of a request whose parts the vnode may keep: nothing is copied. Refused where the pass has drawn all its
    /// stamps, and else as the vnode refuses it.
    pub fn call_prepared<R: Wait>(
        &self,
        rt: &R,
        pass: &mut Pass<B>,
        vnode: usize,
        prepared: Prepared<'_>,
    ) -> Result<(Reply, Receipt), CallFault>
        requires { vnode < self.now.vnodes }
        ensures ok { IfOk result (λ r. (r.1.vnode ≡ self.now.first + vnode) × IsNews pass.old pass.new (call_of (self.now.first + vnode) r.1.place r.1.stamp (asked prepared.entry) (outcome_ok r.0))) }
        ensures err { IfErr result (IsFault pass.old pass.new (self.now.first + vnode) (asked prepared.entry)) }
        ensures drawn { pass.new.drawn ≤ pass.old.drawn + 1 }
    {
        self.lock(rt, vnode).call(pass, prepared)
    }
}

impl<B: Room> Cluster<B> {
    /// The keys of a vnode after some front of its journal, which has all that the pass was told of there, in the order of bytes. It
    /// is no event there.
    pub fn keys_of<R: Wait>(
        &self,
        rt: &R,
        pass: &mut Pass<B>,
        vnode: usize,
    ) -> Result<Vec<Key>, AllocError>
        requires { vnode < self.now.vnodes }
        ensures same { (pass.new.told ≡ pass.old.told) × (pass.new.drawn ≡ pass.old.drawn) }
        ensures ok { IfOk result (λ keys. AreKeysOf self.now pass.old vnode keys.items) }
    {
        let unsorted = self.unsorted_keys(rt, pass, vnode)?;
        let keys = in_order(self.alloc, &unsorted)?;
        Ok(keys)
    }

    // The same in any order, most of them shared with the vnode: so others that call it don't wait until they are copied.
    fn unsorted_keys<R: Wait>(
        &self,
        rt: &R,
        pass: &mut Pass<B>,
        vnode: usize,
    ) -> Result<Names, AllocError>
        requires { vnode < self.now.vnodes }
        ensures same { (pass.new.told ≡ pass.old.told) × (pass.new.drawn ≡ pass.old.drawn) }
        ensures ok { IfOk result (λ names. AreUnsortedOf self.now pass.old vnode names.keys) }
    {
        let mut guard = self.locked(rt, vnode);
        guard.unsorted_keys(&self.stamps, pass, self.first + vnode as u32)
    }
}

impl<B: Room> Cluster<B> {
    /// A full block of a vnode's keys, shared, under its lock. It is no event there.
    pub fn key_block<R: Wait>(&self, rt: &R, vnode: usize, at: BlockSpot) -> Option<KeyBlock>
        requires { vnode < self.now.vnodes }
    {
        self.locked(rt, vnode).key_block(at)
    }

    /// Has a vnode take the memory of the first vnode's full block of keys in place of that of its own one there, where both have
    /// the same keys in the same order. It is no event there. They are compared before its lock is taken, and once more under it:
    /// then the keys are near the processor, and nobody waits for them to be fetched.
    pub fn share_keys<R: Wait>(&self, rt: &R, vnode: usize, at: BlockSpot)
        requires { vnode < self.now.vnodes }
    {
        if vnode == 0 {
            return;
        }
        let (Some(first), Some(own)) = (self.key_block(rt, 0, at), self.key_block(rt, vnode, at))
        else {
            return;
        };
        if own.is_same(&first) {
            self.locked(rt, vnode).share_keys(at, first);
        }
    }
}

impl<B: Room> Cluster<B> {
    /// What look-ups of a key at its vnodes begin by: for a pass whose calls are about this key.
    pub fn hint(&self, key: &Key) -> Hint {
        self.seed.hint(key)
    }

    /// The place of a key on a ring of three vnodes, where one of them was told it, under that one's lock: which one says what is
    /// remembered of the key. It is no event there. Where the key lies at that vnode is remembered, too, for the look-ups of the others,
    /// which all have it.
    pub fn ring_place<R: Wait>(&self, rt: &R, hint: &mut Hint, key: &Key) -> Option<u32>
        ensures { IfSome result (λ told. told ≡ ring_place key.now.bucket key.now.key) }
    {
        let vnode = hint.one_of(self.count())?;
        self.locked(rt, vnode).ring_place(hint, key)
    }

    /// Tells a vnode the place of a key on a ring of three vnodes, under its lock: which one says what is remembered of the key. It is no
    /// event there, and comes to nothing where nothing is remembered, the vnode has no state of the key, or there is no memory.
    pub fn learn_ring_place<R: Wait>(&self, rt: &R, hint: &Hint, key: &Key, told: u32)
        requires { told ≡ ring_place key.now.bucket key.now.key }
    {
        if let Some(vnode) = hint.one_of(self.count()) {
            self.locked(rt, vnode).learn_ring_place(hint, key, told);
        }
    }
}

impl<B: Room> Cluster<B> {
    /// Hands out the full blocks of the journal of a vnode, under its lock. It is no event, and changes nothing that a call answers. The
    /// pass is told what is handed out: it stands in the journal that [`gather`](Cluster::gather) gives, from that place on. None, and
    /// nothing is handed out, where the pass has drawn all its stamps or no block is full. An empty block with memory is taken over where
    /// the journal has none: so no call has to ask for one while others wait for the vnode.
    pub fn hand_out<R: Wait>(
        &self,
        rt: &R,
        pass: &mut Pass<B>,
        vnode: usize,
        next: &mut Vec<Entry>,
    ) -> Option<Handout>
        requires vnode { vnode < self.now.vnodes }
        requires empty { next.old.items ≡ [] }
        ensures empty { next.new.items ≡ [] }
        ensures some { IfSome result (λ handout. IsHandedOut pass.old pass.new (self.now.first + vnode) handout.first handout.blocks.items) }
        ensures block { IfSome result (λ handout. (0 < vec_len handout.blocks) × (pass.new.drawn ≡ pass.old.drawn + 1)) }
        ensures none { IfNone result (pass.new ≡ pass.old) }
        ensures drawn { pass.new.drawn ≤ pass.old.drawn + 1 }
    {
        if pass.drawn() >= STAMPS_EACH {
            return None;
        }
        let mut guard = self.locked(rt, vnode);
        guard.hand_out(&self.stamps, pass, self.first + vnode as u32, next)
    }
}

impl<B: Room> Cluster<B> {
    /// The vnodes, once all passes are back. Whatever a pass was told stands in the journal of its vnode, each entry was told to one pass,
    /// no two have one stamp, and no two vnodes one identifier. Where it is refused, all is handed back.
    pub fn gather(
        self,
        passes: Vec<Pass<B>>,
    ) -> Result<Vec<Vnode>, (Cluster<B>, Vec<Pass<B>>, GatherFault)>
        ensures ok { IfOk result (λ vs. IsGathered (flat_map (λ p. p.told) passes.items) vs.items × (vec_len vs ≡ self.vnodes)) }
        ensures counted { IfOk result (λ vs. AreCounted (flat_map (λ p. p.told) passes.items) vs.items) }
        ensures apart { IfOk result (λ vs. (x : ℕ) → (times x (map (λ t. t.stamp) (flat_map (λ p. p.told) passes.items)) ≤ 1) × (times x (journal_stamps vs.items) ≤ 1)) }
        ensures stands { IfOk result (λ vs. (t : Told) → Contains (flat_map (λ p. p.told) passes.items) t → Stands vs.items t) }
        ensures differ { IfOk result (λ vs. Differ vs.items) }
        ensures all { OnOk result (self.passes ≤ vec_len passes) }
        ensures err { IfErr result (λ e. (e.0 ≡ self) × (e.1.items ≡ passes.items) × IsGatherFault e.2 (vec_len passes) self.passes) }
    {
        if passes.len() < self.passes {
            return Err((self, passes, GatherFault::Missing));
        }
        let Ok(out) = Vec::with_capacity(self.alloc, self.vnodes.len()) else {
            return Err((self, passes, GatherFault::NoMemory));
        };
        let Cluster { stamps, vnodes, .. } = self;
        Ok(gathered(stamps, vnodes, passes, out))
    }
}

impl<B: Room> Cluster<B> {
    /// Vnodes and passes of this size, over a word that nobody has drawn from. The vnodes have nothing written, and are made by a seed.
    /// There may be no memory for them.
    pub fn open(
        alloc: Global,
        seed: Seed,
        stamps: Stamps,
        mut card: Card,
        size: &Size,
    ) -> Result<(Cluster<B>, Vec<Pass<B>>), AllocError>
        requires table { (stamps.table.shared.table_id ≡ B.table) × (card.table_id ≡ B.table) }
        requires size { stamps.table.shared.key ≡ size.now }
        requires few { size.now.first + size.now.vnodes ≤ 2 ^ 32 }
        requires card { card.me ≡ (newcomer stamps.table.shared.key, []) }
        ensures { IfOk result (λ r. (r.0 ≡ size.now) × (vec_len r.1 ≡ size.now.passes) × All (λ p. p ≡ pass_view 0 []) r.1.items) }
    {
        let mut vnodes = Vec::with_capacity(alloc, size.vnodes)?;
        let mut passes = Vec::with_capacity(alloc, size.passes)?;
        deal_passes(&stamps, &mut card, &mut passes, size.passes);
        deal_vnodes(seed, &stamps, card, &mut vnodes, size);
        let cluster = Cluster {
            alloc,
            stamps,
            vnodes,
            first: size.first,
            passes: size.passes,
            seed,
            room: PhantomData,
        };
        Ok((cluster, passes))
    }
}
