//! The hooks of a store that begins from a list, before it has keys.

ghost use Rattle.std.specs.Prelude.{◌≡◌, ◌++◌, ◌∷◌, [], true, OnOk};
ghost use Rattle.kept_hooks.specs.Alone.{Changes, alone_of};

use crate::list::Requests;
use crate::refused::{RefusedHook, let_go, stand_in_of};
use bpf_admission::{Refusal, admit_image};
use bpf_helpers::Sigs;
use dvv::{Clock, Dot};
use hook_registry::{HookChanges, HookFault, NameFault};
use http_connection::Backend;
use http_request::Change;
use http_response::Bound;
use key_state::{Bytes, Content, Key, KeyState};
use quorum::QuorumFault;
use server_store::{bindings_of, install_program};
use std::alloc::Global;

/// The hooks of a store, before it has keys: they may be changed, each change is written down, and nothing is read or written.
#[derive(Drop)]
pub(crate) struct HooksAlone<'a, H> {
    alloc: Global,
    sigs: &'a Sigs,
    pub(crate) hooks: &'a mut H,
    /// The requests that make the hooks what they are.
    pub(crate) requests: Requests,
    /// The hooks among them that aren't let in. Their names have a stand-in, which lets requests bind them.
    pub(crate) refused: Vec<RefusedHook>,
}

impl<'a, H> HooksAlone<'a, H> {
    /// Hooks that may call helpers with these signatures.
    pub(crate) fn new(alloc: Global, sigs: &'a Sigs, hooks: &'a mut H) -> HooksAlone<'a, H>
        ensures sigs { result.sigs.now ≡ sigs.now }
        ensures hooks { result.hooks.now ≡ hooks.entry.now }
        ensures lent { result.hooks.ghost_name ≡ hooks.entry.ghost_name }
        ensures requests { result.requests ≡ record { requests = []; whole = true } }
        ensures refused { result.refused.items ≡ [] }
    {
        HooksAlone {
            alloc,
            sigs,
            hooks,
            requests: Requests::new(alloc),
            refused: Vec::new(alloc),
        }
    }
}

impl<H: HookChanges> Backend for HooksAlone<'_, H> {
    ghost use Rattle.std.specs.Prelude.{refl};

    ghost gives = { λ old call reply new. (new.hooks.ghost_name ≡ old.hooks.ghost_name) × (new.sigs.now ≡ old.sigs.now)
        × Changes H.takes old.sigs.now (alone_of old.hooks.now old.requests old.refused.items) call reply (alone_of new.hooks.now new.requests new.refused.items) };

    ghost copies = { λ s. 1 };

    ghost stays = { λ old new call reply h. refl };

    fn copies(&self) -> u32 {
        1
    }

    fn get(&mut self, _key: &Key, _r: u32, _at: u32) -> Result<KeyState, QuorumFault> {
        Err(QuorumFault::TooFew)
    }

    fn put(
        &mut self,
        _key: &Key,
        _seen: &Clock,
        _content: &Content,
        _w: u32,
        _at: u32,
    ) -> Result<Dot, QuorumFault> {
        Err(QuorumFault::TooFew)
    }

    fn install(&mut self, name: &Bytes, image: &Bytes) -> Result<(), Refusal> {
        match admit_image(self.alloc, image.as_slice(), self.sigs) {
            Ok(verified) => {
                install_program(self.alloc, self.hooks, name, verified)?;
                let_go(&mut self.refused, name);
            }
            Err(Refusal::NoMemory) => return Err(Refusal::NoMemory),
            Err(refusal) => {
                let verified = stand_in_of(self.alloc, image, self.sigs)?;
                install_program(self.alloc, self.hooks, name, verified)?;
                let_go(&mut self.refused, name);
                refuse(&mut self.refused, name, refusal)?;
            }
        }
        self.requests.install(name, image);
        Ok(())
    }

    fn remove(&mut self, name: &Bytes) -> Result<(), HookFault> {
        self.hooks.remove(name)?;
        let_go(&mut self.refused, name);
        self.requests.remove(name);
        Ok(())
    }

    fn props(&mut self, _bucket: &Bytes) -> Result<Bound, NameFault> {
        Err(NameFault::NotSeen)
    }

    fn set_props(
        &mut self,
        bucket: &Bytes,
        precommit: &Change,
        resolver: &Change,
    ) -> Result<(), HookFault> {
        let bindings = bindings_of(self.alloc, precommit, resolver)?;
        self.hooks.bind(bucket, &bindings)?;
        self.requests.bind(bucket, precommit, resolver);
        Ok(())
    }
}

/// Writes down that the hook of a name is refused.
fn refuse(refused: &mut Vec<RefusedHook>, name: &Bytes, refusal: Refusal) -> Result<(), Refusal>
    ensures { OnOk result (refused.new.items ≡ refused.old.items ++ record { name = name.now; refusal = refusal } ∷ []) }
{
    let Ok(name) = name.copy() else {
        return Err(Refusal::NoMemory);
    };
    match refused.push(RefusedHook { name, refusal }) {
        Ok(()) => Ok(()),
        Err(_) => Err(Refusal::NoMemory),
    }
}
