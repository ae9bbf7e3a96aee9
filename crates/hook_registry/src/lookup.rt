//! Where hooks are looked up.

ghost use Rattle.std.specs.Prelude.{◌≡◌, ℕ, List, Option, Result, IfOk, MatchResult};
ghost use Rattle.bpf_image.specs.declared.image.ImageKind.{ImageKind as Kind};
ghost use Rattle.bpf_verifier.specs.Program.{Program};
ghost use Rattle.hook_registry.specs.declared.fault.NotSeen.{NotSeen as Unseen};
ghost use Rattle.hook_registry.specs.declared.fault.NameFault.{NameFault as Fault};
ghost use Rattle.hook_registry.specs.declared.fault.NameFault.TheVariants.{NoMemory};
ghost use Rattle.hook_registry.specs.Tables.{bound_in, hook_in, programs_of};

use crate::fault::{NameFault, NotSeen};
use crate::registry::Registry;
use bpf_image::ImageKind;
use bpf_verifier::Verified;
use key_state::Bytes;
use std::sync::Arc;

/// Where hooks are looked up. Contracts see which look-ups may come back how, by a relation between what there is
/// before and after.
pub trait Hooks {
    /// A look-up of a hook may come back so.
    ghost finds: { Self → List ℕ → Kind → Result (Option Program) Unseen → Self → Type 0 };

    /// A look-up of a bound name may come back so.
    ghost names: { Self → List ℕ → Kind → Result (Option (List ℕ)) Fault → Self → Type 0 };

    /// The program that is bound to a bucket and a kind.
    fn hook_of(&mut self, bucket: &[u8], kind: ImageKind) -> Result<Option<Arc<Verified>>, NotSeen>
        ensures { finds self.old bucket.now kind (programs_of result) self.new };

    /// The name that is bound to a bucket and a kind.
    fn bound(&mut self, bucket: &Bytes, kind: ImageKind) -> Result<Option<Bytes>, NameFault>
        ensures { names self.old bucket.now kind result self.new };
}

impl Hooks for Registry {
    ghost finds = { λ before bucket kind answer after. (after ≡ before) × IfOk answer (λ hook. hook ≡ hook_in before bucket kind) };

    ghost names = { λ before bucket kind answer after. (after ≡ before) × MatchResult answer (λ name. name ≡ bound_in before.bindings bucket kind) (λ fault. fault ≡ NoMemory) };

    fn hook_of(
        &mut self,
        bucket: &[u8],
        kind: ImageKind,
    ) -> Result<Option<Arc<Verified>>, NotSeen> {
        Registry::hook_of(self, bucket, kind)
    }

    fn bound(&mut self, bucket: &Bytes, kind: ImageKind) -> Result<Option<Bytes>, NameFault> {
        Ok(Registry::bound(self, bucket, kind)?)
    }
}
