//! A store whose changes of hooks are written down, and whose writes are noted.

ghost use Rattle.std.specs.Prelude.{◌≡◌, IfErr, OnOk};
ghost use Rattle.bpf_admission.specs.declared.refusal.Refusal.TheVariants as refusal;
ghost use Rattle.hook_registry.specs.declared.fault.HookFault.TheVariants as fault;
ghost use Rattle.http_request.specs.Fits.{Fits};
ghost use Rattle.http_request.specs.declared.ask.Call.TheVariants as call;
ghost use Rattle.http_response.specs.declared.reply.Reply.TheVariants as reply;
ghost use Rattle.kept_hooks.specs.Recorded.{WhereBound};

use crate::noting::{ChangeList, Notes};
use bpf_admission::Refusal;
use dvv::{Clock, Dot};
use hook_registry::{HookChanges, HookFault, Hooks, NameFault};
use http_connection::Backend;
use http_request::Change;
use http_response::Bound;
use key_state::{Bytes, Content, Key, KeyState};
use peers::Peers;
use quorum::QuorumFault;
use server_log::Noted;
use server_store::NotingBackend;
use std::sync::{Mutex, Wait};

/// A store that writes down what changed its hooks, in a list that it shares with other stores of the same hooks, and notes once a call is
/// done that may have written something: a key, by a resolver too, or which hooks there are, or are bound. Before it is done it notes the
/// key, or that hooks are changed, so that this can be read behind it and be kept before the call is answered.
///
/// The list stays locked while the change is made, so that it has the changes in their order. A change that was refused for want of memory
/// may stand all the same: that is written down, too. Who takes the note of a write and reads the store then has what was written, or finds
/// another note later.
#[derive(Drop)]
pub struct Recorder<'a, K: Backend + Drop, R: Wait, L: ChangeList + Drop, N: Notes> {
    /// The store.
    pub store: K,
    list: &'a Mutex<L>,
    notes: &'a N,
    rt: &'a R,
}

impl<'a, K: Backend + Drop, R: Wait, L: ChangeList + Drop, N: Notes> Recorder<'a, K, R, L, N> {
    /// A store, where its changes of hooks are written down, and where its writes are noted.
    pub fn new(store: K, list: &'a Mutex<L>, notes: &'a N, rt: &'a R) -> Recorder<'a, K, R, L, N>
        ensures { result.store ≡ store }
    {
        Recorder {
            store,
            list,
            notes,
            rt,
        }
    }
}

impl<K: Backend + Drop, R: Wait, L: ChangeList + Drop, N: Notes> Backend
    for Recorder<'_, K, R, L, N> {
    ghost gives = { λ old call reply new. K.gives old.store call reply new.store };

    ghost copies = { λ s. K.copies s.store };

    ghost stays = { λ old new call reply h. K.stays old.store new.store call reply h };

    fn copies(&self) -> u32 {
        self.store.copies()
    }

    fn get(&mut self, key: &Key, r: u32, at: u32) -> Result<KeyState, QuorumFault>
        requires { Fits (K.copies self.old.store) (call.Get key.now r at) }
        ensures given { K.gives self.old.store (call.Get key.now r at) (reply.Got result) self.new.store }
        ensures noted { N.read_noted }
        ensures asked { N.asked_noted key.now }
    {
        self.notes.note_asked(key);
        let got = self.store.get(key, r, at);
        self.notes.note_read();
        got
    }

    fn put(
        &mut self,
        key: &Key,
        seen: &Clock,
        content: &Content,
        w: u32,
        at: u32,
    ) -> Result<Dot, QuorumFault>
        requires { Fits (K.copies self.old.store) (call.Put key.now seen.now content.now w at) }
        ensures given { K.gives self.old.store (call.Put key.now seen.now content.now w at) (reply.Stored result) self.new.store }
        ensures noted { N.write_noted }
        ensures key { N.key_noted key.now }
    {
        self.notes.note_key(key);
        let done = self.store.put(key, seen, content, w, at);
        self.notes.note();
        done
    }

    fn install(&mut self, name: &Bytes, image: &Bytes) -> Result<(), Refusal>
        ensures given { K.gives self.old.store (call.Install name.now image.now) (reply.Installed result) self.new.store }
        ensures listed { OnOk result (L.listed (call.Install name.now image.now)) }
        ensures doubted { IfErr result (λ why. why ≡ refusal.NoMemory → L.doubted) }
        ensures noted { N.write_noted }
        ensures hooks { N.hooks_noted }
    {
        self.notes.note_hooks();
        let mut list = self.list.lock(self.rt);
        let done = self.store.install(name, image);
        match &done {
            Ok(()) => list.install(name, image),
            Err(Refusal::NoMemory) => list.doubt(),
            Err(_) => {}
        }
        self.notes.note();
        done
    }

    fn remove(&mut self, name: &Bytes) -> Result<(), HookFault>
        ensures given { K.gives self.old.store (call.Remove name.now) (reply.Removed result) self.new.store }
        ensures listed { OnOk result (L.listed (call.Remove name.now)) }
        ensures doubted { IfErr result (λ why. why ≡ fault.NoMemory → L.doubted) }
        ensures noted { N.write_noted }
        ensures hooks { N.hooks_noted }
    {
        self.notes.note_hooks();
        let mut list = self.list.lock(self.rt);
        let done = self.store.remove(name);
        match &done {
            Ok(()) => list.remove(name),
            Err(HookFault::NoMemory) => list.doubt(),
            Err(_) => {}
        }
        self.notes.note();
        done
    }

    fn props(&mut self, bucket: &Bytes) -> Result<Bound, NameFault> {
        self.store.props(bucket)
    }

    fn set_props(
        &mut self,
        bucket: &Bytes,
        precommit: &Change,
        resolver: &Change,
    ) -> Result<(), HookFault>
        ensures given { K.gives self.old.store (call.SetProps bucket.now precommit.now resolver.now) (reply.Set result) self.new.store }
        ensures listed { OnOk result (L.listed (call.SetProps bucket.now precommit.now resolver.now)) }
        ensures doubted { IfErr result (λ why. why ≡ fault.NoMemory → L.doubted) }
        ensures resolver { WhereBound resolver.now N.resolver_noted }
        ensures noted { N.write_noted }
        ensures hooks { N.hooks_noted }
    {
        self.notes.note_hooks();
        if matches!(resolver, Change::Bound(_)) {
            self.notes.note_resolver();
        }
        let mut list = self.list.lock(self.rt);
        let done = self.store.set_props(bucket, precommit, resolver);
        match &done {
            Ok(()) => list.bind(bucket, precommit, resolver),
            Err(HookFault::NoMemory) => list.doubt(),
            Err(_) => {}
        }
        self.notes.note();
        done
    }
}

impl<
    P: Peers,
    H: Hooks + HookChanges,
    K: NotingBackend<P, H> + Drop,
    R: Wait,
    L: ChangeList + Drop,
    N: Notes,
> NotingBackend<P, H> for Recorder<'_, K, R, L, N> {
    ghost shows = { λ s. K.shows s.store };

    ghost as_shown = { λ old new call reply gives. K.as_shown old.store new.store call reply gives };

    ghost as_many = { λ s. K.as_many s.store };

    fn has_troubles(&self) -> bool {
        self.store.has_troubles()
    }

    fn take_troubles(&mut self) -> Noted {
        self.store.take_troubles()
    }
}
