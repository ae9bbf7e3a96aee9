//! The store, and the calls on its keys.

ghost use Rattle.std.specs.Prelude.{◌≡◌, ◌<◌, ◌≤◌, ℕ, IsTrue, List, nat_lt};
ghost use Rattle.std.specs.List.{list_any};
ghost use Rattle.key_state.specs.Limits.{IsKey};
ghost use Rattle.ring.specs.Places.{copies_in, place_in, ring_place};
ghost use Rattle.server_store.specs.Calls.{Gets, Puts};
ghost use Rattle.server_store.specs.Noting.{of_read};
ghost use Rattle.server_store.specs.View.{shown};
ghost use Rattle.server_log.specs.Notes.{no_notes, noted_of};

use crate::noting::{of_fault, of_put, of_resolver};
use dvv::{Clock, Dot};
use hook_registry::Hooks;
use key_state::{Content, Key, KeyState};
use peers::Peers;
use quorum::{Hooking, PutRequest, QuorumFault, ResolveFault, Unfit};
use ring::{MAX_COPIES, Placement};
use server_log::{Note, Noted};
use std::alloc::Global;
use std::mem;

/// What a read of a key comes to. Where the bucket's resolver wrote nothing though it was to, the siblings are answered, and why is told
/// beside.
#[derive(Drop)]
pub struct Read {
    /// What is answered.
    pub answer: Result<KeyState, QuorumFault>,
    /// Why what the resolver was to write is left out, or why it wasn't run.
    pub cut: Option<ResolveFault>,
    /// Why the resolver chose nothing, where it was run and failed.
    pub unfit: Option<Unfit>,
}

/// Vnodes, the hooks of buckets with the helpers that they may call, where keys stand, and what is noted of troubles. An index past
/// the vnodes that there are is one that can't be reached.
#[derive(Drop)]
pub struct Store<P, H> {
    /// The vnodes, as whoever reaches them.
    pub peers: P,
    /// The hooks, and the helpers that they may call.
    pub hooking: Hooking<H>,
    /// Where keys stand among the vnodes.
    pub placement: Placement,
    /// What went wrong in reads and writes and isn't everyday, since it was taken last.
    pub noted: Noted,
    pub(crate) alloc: Global,
}

impl<P, H> Store<P, H> {
    /// A store of these vnodes and hooks, without a note of troubles.
    pub fn new(alloc: Global, peers: P, hooking: Hooking<H>, placement: Placement) -> Store<P, H>
        ensures peers { result.peers ≡ peers }
        ensures hooking { result.hooking ≡ hooking }
        ensures placement { result.placement ≡ placement }
        ensures noted { result.noted.kinds ≡ no_notes }
    {
        Store {
            peers,
            hooking,
            placement,
            noted: Noted::new(),
            alloc,
        }
    }

    /// Takes what is noted of troubles since it was taken last, and begins anew: how many reads and writes came to each, and the bucket of
    /// the last. A pre-commit hook that rejects is no trouble, nor is a refusal that clients bring about; want of memory is one, in reads
    /// and writes.
    pub fn take_troubles(&mut self) -> Noted
        ensures taken { result ≡ self.old.noted }
        ensures anew { self.new.noted.kinds ≡ no_notes }
        ensures peers { self.new.peers ≡ self.old.peers }
        ensures hooking { self.new.hooking ≡ self.old.hooking }
        ensures placement { self.new.placement ≡ self.old.placement }
    {
        mem::replace(&mut self.noted, Noted::new())
    }

    /// Whether a trouble is noted that [`Store::take_troubles`] would take: what is noted is moved only where it is to be told.
    pub fn has_troubles(&self) -> bool
        ensures { result ≡ list_any (λ note. nat_lt 0 note.count) self.now.noted.kinds }
    {
        self.noted.iter().any(|note| has_come(note))
    }

    /// How many copies of a key there are, 1 to 3.
    pub fn copies(&self) -> u32
        ensures copies { result ≡ copies_in self.now.placement }
        ensures some { 1 ≤ result }
        ensures few { result ≤ 3 }
    {
        self.placement.copies()
    }
}

// Whether one of its kind came.
fn has_come(note: &Note) -> bool
    ensures { result ≡ nat_lt 0 note.now.count }
{
    note.count > 0
}

// The vnode at which a key's preference list begins, and whether the vnodes are to be told it.
#[derive(Clone, Copy)]
struct Stand {
    place: u32,
    is_untold: bool,
}

// Whether vnodes are told where keys stand: on a ring of three, each with a copy of each key. With fewer copies the vnode that would be
// told has most often not the key, and keeps nothing.
fn are_told(placement: &Placement) -> bool
    ensures three { IsTrue result → placement.now.vnodes ≡ 3 }
    ensures few { copies_in placement.now ≤ 3 }
    ensures places { IsTrue result → (bucket key : List ℕ) → place_in placement.now bucket key ≡ ring_place bucket key }
{
    placement.copies() == MAX_COPIES && placement.is_ring_of_three()
}

// Where a key stands. Vnodes on a ring of three may have been told, where each of them has a copy, and else its digest says it. Calls to
// come are about this key.
fn stand_of<P: Peers>(peers: &mut P, placement: &Placement, key: &Key) -> Stand
    requires { IsKey key.now }
    ensures place { result.place ≡ place_in placement.now key.now.bucket key.now.key }
    ensures within { result.place < placement.now.vnodes }
    ensures untold { IsTrue result.is_untold → result.place ≡ ring_place key.now.bucket key.now.key }
    ensures few { copies_in placement.now ≤ 3 }
    ensures same { peers.new ≡ peers.old }
{
    peers.expect(key);
    let is_ring = are_told(placement);
    if is_ring {
        if let Some(place) = peers.ring_place(key) {
            return Stand {
                place,
                is_untold: false,
            };
        }
    }
    Stand {
        place: placement.place_of(key.bucket(), key.key()),
        is_untold: is_ring,
    }
}

impl<P: Peers, H> Store<P, H> {
    // Tells the vnodes where a key stands that they hold, where none of them knew.
    fn tell_stand(&self, key: &Key, stand: Stand)
        requires { IsTrue stand.is_untold → stand.place ≡ ring_place key.now.bucket key.now.key }
    {
        if stand.is_untold {
            self.peers.learn_ring_place(key, stand.place);
        }
    }
}

impl<P: Peers, H: Hooks> Store<P, H> {
    /// Reads a key as [`Store::read`] does.
    pub fn get(&mut self, key: &Key, r: u32, at: u32) -> Result<KeyState, QuorumFault>
        requires key { IsKey key.now }
        requires at { at < copies_in self.old.placement }
        ensures { Gets P.happens H.finds (shown self.old.peers self.old.hooking.hooks self.old.hooking.table.listed self.old.placement self.old.noted.kinds) key.now r at result (shown self.new.peers self.new.hooking.hooks self.new.hooking.table.listed self.new.placement self.new.noted.kinds) }
    {
        self.read(key, r, at).answer
    }

    /// Reads a key at each vnode of its preference list, brings what came to those that it would change, and asks the bucket's
    /// resolver where siblings came. The vnode at the index `at` of the list coordinates.
    ///
    /// As [`quorum::get`]: `TooFew` where fewer than `r` vnodes answered, else `Refused`. What was stored stays. Want of memory is noted,
    /// and a resolver that decides nothing or whose choice isn't written.
    pub fn read(&mut self, key: &Key, r: u32, at: u32) -> Read
        requires key { IsKey key.now }
        requires at { at < copies_in self.old.placement }
        ensures gets { Gets P.happens H.finds (shown self.old.peers self.old.hooking.hooks self.old.hooking.table.listed self.old.placement self.old.noted.kinds) key.now r at result.answer (shown self.new.peers self.new.hooking.hooks self.new.hooking.table.listed self.new.placement self.new.noted.kinds) }
        // What is noted is what is answered here.
        ensures noted { self.new.noted.kinds ≡ noted_of self.old.noted.kinds (of_read result.answer result.cut result.unfit) key.now.bucket }
    {
        let stand = stand_of(&mut self.peers, &self.placement, key);
        let list = self.placement.preferred(stand.place);
        let coordinator = self.placement.vnode_at(stand.place, at);
        let read = quorum::get(
            self.alloc,
            &mut self.peers,
            key,
            list.as_slice(),
            r as usize,
        );
        match read {
            Ok((got, answers)) => {
                // No vnode keeps it where nothing is known.
                if !got.clock().entries().is_empty() {
                    self.tell_stand(key, stand);
                }
                repair::repair(&mut self.peers, key, &answers);
                let resolved = quorum::resolve(
                    &mut self.peers,
                    &mut self.hooking,
                    coordinator,
                    key,
                    got,
                    &answers,
                );
                self.noted
                    .note(of_resolver(resolved.cut, resolved.unfit), key.bucket());
                Read {
                    answer: Ok(resolved.state),
                    cut: resolved.cut,
                    unfit: resolved.unfit,
                }
            }
            Err(fault) => {
                self.noted.note(of_fault(fault), key.bucket());
                Read {
                    answer: Err(fault),
                    cut: None,
                    unfit: None,
                }
            }
        }
    }

    /// Puts a content, a tombstone too, as one who had seen what the clock counts. The vnode at the index `at` of the key's
    /// preference list coordinates.
    ///
    /// Faults as [`quorum::put`]'s. What was stored stays. Want of memory is noted, and a pre-commit hook that decides nothing.
    pub fn put(
        &mut self,
        key: &Key,
        seen: &Clock,
        content: &Content,
        w: u32,
        at: u32,
    ) -> Result<Dot, QuorumFault>
        requires key { IsKey key.now }
        requires at { at < copies_in self.old.placement }
        ensures { Puts P.happens H.finds (shown self.old.peers self.old.hooking.hooks self.old.hooking.table.listed self.old.placement self.old.noted.kinds) key.now seen.now content.now w at result (shown self.new.peers self.new.hooking.hooks self.new.hooking.table.listed self.new.placement self.new.noted.kinds) }
    {
        let stand = stand_of(&mut self.peers, &self.placement, key);
        let others = self.placement.others(stand.place, at);
        let request = PutRequest {
            coordinator: self.placement.vnode_at(stand.place, at),
            others: others.as_slice(),
            key,
            seen,
            content,
            w: w as usize,
        };
        let back = quorum::put(&mut self.peers, &mut self.hooking, request);
        self.tell_stand(key, stand);
        self.noted.note(of_put(&back), key.bucket());
        back
    }
}
