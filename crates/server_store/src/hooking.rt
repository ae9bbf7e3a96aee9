//! The calls on the store's hooks.

ghost use Rattle.std.specs.Prelude.{◌≡◌, ◌⊎◌, Err, IfErr, Ok, OnErr, OnOk};
ghost use Rattle.hook_registry.specs.Changes.{Install};
ghost use Rattle.hook_registry.specs.declared.fault.HookFault.{HookFault as OneFault};
ghost use Rattle.server_store.specs.Changes.{Installs, Removes, Names, Binds};
ghost use Rattle.server_store.specs.View.{shown};

use crate::bindings::bindings_of;
use crate::store::Store;
use bpf_admission::{Refusal, admit_image};
use bpf_image::ImageKind;
use bpf_verifier::Verified;
use hook_registry::{HookChanges, HookFault, Hooks, NameFault};
use http_request::Change;
use key_state::Bytes;
use std::alloc::Global;
use std::sync::Arc;

impl<P, H: HookChanges> Store<P, H> {
    /// Installs the hook of an image under a name, in place of the one that had it.
    ///
    /// Refused as [`admit_image`] refuses the image, `NoMemory` too where memory lacks here.
    pub fn install(&mut self, name: &Bytes, image: &[u8]) -> Result<(), Refusal>
        ensures { Installs H.takes (shown self.old.peers self.old.hooking.hooks self.old.hooking.table.listed self.old.placement self.old.noted.kinds) name.now image.now result (shown self.new.peers self.new.hooking.hooks self.new.hooking.table.listed self.new.placement self.new.noted.kinds) }
    {
        let verified = match admit_image(self.alloc, image, &self.hooking.table.listed) {
            Ok(verified) => verified,
            Err(refusal) => return Err(refusal),
        };
        install_program(self.alloc, &mut self.hooking.hooks, name, verified)
    }

    /// Takes a name from its hook. What is bound to the name stays bound to it.
    ///
    /// `NameUnknown` where no hook has the name.
    pub fn remove(&mut self, name: &Bytes) -> Result<(), HookFault>
        ensures { Removes H.takes (shown self.old.peers self.old.hooking.hooks self.old.hooking.table.listed self.old.placement self.old.noted.kinds) name.now result (shown self.new.peers self.new.hooking.hooks self.new.hooking.table.listed self.new.placement self.new.noted.kinds) }
    {
        self.hooking.hooks.remove(name)
    }

    /// Changes which hooks are bound to a bucket, both or none.
    ///
    /// `NameUnknown` where a name has no hook; `KindDiffers` where each has one, and one of them is of another kind.
    pub fn bind(
        &mut self,
        bucket: &Bytes,
        precommit: &Change,
        resolver: &Change,
    ) -> Result<(), HookFault>
        ensures { Binds H.takes (shown self.old.peers self.old.hooking.hooks self.old.hooking.table.listed self.old.placement self.old.noted.kinds) bucket.now precommit.now resolver.now result (shown self.new.peers self.new.hooking.hooks self.new.hooking.table.listed self.new.placement self.new.noted.kinds) }
    {
        match bindings_of(self.alloc, precommit, resolver) {
            Ok(bindings) => self.hooking.hooks.bind(bucket, &bindings),
            Err(_) => Err(HookFault::NoMemory),
        }
    }
}

impl<P, H: Hooks> Store<P, H> {
    /// The name of the hook that is bound to a bucket and a kind.
    pub fn bound(&mut self, bucket: &Bytes, kind: ImageKind) -> Result<Option<Bytes>, NameFault>
        ensures { Names H.names (shown self.old.peers self.old.hooking.hooks self.old.hooking.table.listed self.old.placement self.old.noted.kinds) bucket.now kind result (shown self.new.peers self.new.hooking.hooks self.new.hooking.table.listed self.new.placement self.new.noted.kinds) }
    {
        self.hooking.hooks.bound(bucket, kind)
    }
}

/// Gives a program a name among hooks, in place of the program that had it. The refusal is want of memory: here, or of the hooks.
pub fn install_program<H: HookChanges>(
    alloc: Global,
    hooks: &mut H,
    name: &Bytes,
    program: Verified,
) -> Result<(), Refusal>
    ensures given { OnOk result (H.takes hooks.old (Install name.now program) (Ok tt) hooks.new) }
    ensures refused { OnErr result ((hooks.new ≡ hooks.old) ⊎ ((fault : OneFault) × H.takes hooks.old (Install name.now program) (Err fault) hooks.new)) }
    ensures why { IfErr result (λ why. why ≡ Refusal.NoMemory) }
{
    let Ok(program) = Arc::new(alloc, program) else {
        return Err(Refusal::NoMemory);
    };
    let Ok(name) = name.copy() else {
        return Err(Refusal::NoMemory);
    };
    match hooks.install(name, program) {
        Ok(()) => Ok(()),
        Err(_) => Err(Refusal::NoMemory),
    }
}
