//! The store as the front calls it.

ghost use Rattle.ring.specs.Places.{copies_in};
ghost use Rattle.server_store.specs.View.{shown};
ghost use Rattle.server_store.specs.Gives.{Gives};

use crate::store::Store;
use bpf_admission::Refusal;
use bpf_image::ImageKind;
use dvv::{Clock, Dot};
use hook_registry::{HookChanges, HookFault, Hooks, NameFault};
use http_connection::Backend;
use http_request::Change;
use http_response::Bound;
use key_state::{Bytes, Content, Key, KeyState};
use peers::Peers;
use quorum::QuorumFault;

impl<P: Peers, H: Hooks + HookChanges> Backend for Store<P, H> {
    ghost use Rattle.server_store.specs.Gives.{gives_keep};

    ghost gives = { λ old call reply new. Gives P.happens H.finds H.names H.takes (shown old.peers old.hooking.hooks old.hooking.table.listed old.placement old.noted.kinds) (shown new.peers new.hooking.hooks new.hooking.table.listed new.placement new.noted.kinds) call reply };

    ghost copies = { λ s. copies_in s.placement };

    ghost stays = { λ old new call reply h. gives_keep P.happens H.finds H.names H.takes (shown old.peers old.hooking.hooks old.hooking.table.listed old.placement old.noted.kinds) (shown new.peers new.hooking.hooks new.hooking.table.listed new.placement new.noted.kinds) call reply h };

    fn copies(&self) -> u32 {
        Store::copies(self)
    }

    fn get(&mut self, key: &Key, r: u32, at: u32) -> Result<KeyState, QuorumFault> {
        Store::get(self, key, r, at)
    }

    fn put(
        &mut self,
        key: &Key,
        seen: &Clock,
        content: &Content,
        w: u32,
        at: u32,
    ) -> Result<Dot, QuorumFault> {
        Store::put(self, key, seen, content, w, at)
    }

    fn install(&mut self, name: &Bytes, image: &Bytes) -> Result<(), Refusal> {
        Store::install(self, name, image.as_slice())
    }

    fn remove(&mut self, name: &Bytes) -> Result<(), HookFault> {
        Store::remove(self, name)
    }

    fn props(&mut self, bucket: &Bytes) -> Result<Bound, NameFault> {
        let precommit = match self.bound(bucket, ImageKind::PreCommit) {
            Ok(name) => name,
            Err(fault) => return Err(fault),
        };
        let resolver = match self.bound(bucket, ImageKind::Resolver) {
            Ok(name) => name,
            Err(fault) => return Err(fault),
        };
        Ok(Bound {
            precommit,
            resolver,
        })
    }

    fn set_props(
        &mut self,
        bucket: &Bytes,
        precommit: &Change,
        resolver: &Change,
    ) -> Result<(), HookFault> {
        self.bind(bucket, precommit, resolver)
    }
}
