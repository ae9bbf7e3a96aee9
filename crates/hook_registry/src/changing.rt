//! Where hooks are installed, given up and bound.

ghost use Rattle.std.specs.Prelude.{Result};
ghost use Rattle.std.specs.Arc.{arc_value};
ghost use Rattle.hook_registry.specs.declared.fault.HookFault.{HookFault as Fault};
ghost use Rattle.hook_registry.specs.Changes.{Change, Bind, Install, Remove};
ghost use Rattle.hook_registry.specs.Tables.{Takes};

use crate::fault::HookFault;
use crate::registry::Registry;
use bpf_image::ImageKind;
use bpf_verifier::Verified;
use key_state::Bytes;
use std::sync::Arc;

/// Where hooks are installed, given up and bound. Contracts see which changes may come back how, by a relation between what
/// there is before and after.
pub trait HookChanges {
    /// A change may come back so.
    ghost takes: { Self → Change → Result Unit Fault → Self → Type 0 };

    /// Gives a program a name, in place of the program that had it.
    fn install(&mut self, name: Bytes, program: Arc<Verified>) -> Result<(), HookFault>
        ensures { takes self.old (Install name (arc_value program)) result self.new };

    /// Takes a name from its program. What is bound to the name stays bound to it.
    fn remove(&mut self, name: &Bytes) -> Result<(), HookFault>
        ensures { takes self.old (Remove name.now) result self.new };

    /// Binds names to kinds of a bucket's hooks, or none: all of them, or where it is refused nothing. Of two bindings
    /// of one kind the last counts.
    fn bind(
        &mut self,
        bucket: &Bytes,
        bindings: &[(ImageKind, Option<Bytes>)],
    ) -> Result<(), HookFault>
        ensures { takes self.old (Bind bucket.now bindings.now) result self.new };
}

impl HookChanges for Registry {
    ghost takes = { Takes };

    fn install(&mut self, name: Bytes, program: Arc<Verified>) -> Result<(), HookFault> {
        Ok(Registry::install(self, name, program)?)
    }

    fn remove(&mut self, name: &Bytes) -> Result<(), HookFault> {
        Registry::remove(self, name)
    }

    fn bind(
        &mut self,
        bucket: &Bytes,
        bindings: &[(ImageKind, Option<Bytes>)],
    ) -> Result<(), HookFault> {
        Registry::bind(self, bucket, bindings)
    }
}
