//! How a change is made under the lock, shown to all readers, and told to the worker that made it.

ghost use Rattle.std.specs.Prelude.{◌≡◌, OnErr, OnOk, IfErr};
ghost use Rattle.std.specs.Sync.Mutex.{mutex_guard_value};
ghost use Rattle.std.specs.Arc.{arc_value};
ghost use mathlib.Core.List.{IsPrefix};
ghost use Rattle.hook_registry.specs.declared.fault.HookFault.{HookFault as Fault};
ghost use Rattle.hook_registry.specs.Changes.{Bind, Install, Remove};
ghost use Rattle.hook_sharing.specs.Taking.{Takes, Judged};

use crate::{HookReader, Installer, Rack};
use bpf_image::ImageKind;
use bpf_verifier::Verified;
use hook_registry::{HookChanges, HookFault};
use key_state::Bytes;
use shared_prefix::Naming;
use std::sync::{Arc, Mutex, MutexGuard, Wait};

/// The installer, taken once it has all that the reader knows. Of a reader of its own registry it has that at once.
pub(crate) fn caught_up<'a, J: Naming, T: Rack<J> + Drop, R: Wait + Drop>(
    rt: &R,
    installer: &'a Mutex<Installer<J, T, R>>,
    reader: &HookReader<J, T>,
) -> MutexGuard<'a, Installer<J, T, R>>
    ensures { IsPrefix reader.now (mutex_guard_value result).made }
{
    for _ in rt.forever() {
        let guard = installer.lock(rt);
        if guard.has_all(reader) {
            return guard;
        }
    }
    unreachable!()
}

// Shows all readers the changes so far, and tells one of them.
fn publish_to<J: Naming, T: Rack<J> + Drop, R: Wait + Drop>(
    installer: &mut Installer<J, T, R>,
    reader: &mut HookReader<J, T>,
) -> Result<(), HookFault>
    requires { IsPrefix reader.old installer.old.made }
    ensures ok { OnOk result (reader.new ≡ installer.old.made) }
    ensures err { IfErr result (λ fault. fault ≡ Fault.NoMemory) }
    ensures same { OnErr result (reader.new ≡ reader.old) }
{
    let note = installer.publish()?;
    reader.learn(&note);
    Ok(())
}

/// Gives a program a name.
pub(crate) fn install<J: Naming, T: Rack<J> + Drop, R: Wait + Drop>(
    installer: &mut Installer<J, T, R>,
    reader: &mut HookReader<J, T>,
    name: Bytes,
    program: Arc<Verified>,
) -> Result<(), HookFault>
    requires { IsPrefix reader.old installer.old.made }
    ensures { Judged installer.old.made reader.old (Install name (arc_value program)) result reader.new }
{
    installer.install(name, program)?;
    publish_to(installer, reader)
}

/// Takes a name from its program.
pub(crate) fn remove<J: Naming, T: Rack<J> + Drop, R: Wait + Drop>(
    installer: &mut Installer<J, T, R>,
    reader: &mut HookReader<J, T>,
    name: &Bytes,
) -> Result<(), HookFault>
    requires { IsPrefix reader.old installer.old.made }
    ensures { Judged installer.old.made reader.old (Remove name.now) result reader.new }
{
    installer.remove(name)?;
    publish_to(installer, reader)
}

/// Binds names to kinds of a bucket's hooks.
pub(crate) fn bind<J: Naming, T: Rack<J> + Drop, R: Wait + Drop>(
    installer: &mut Installer<J, T, R>,
    reader: &mut HookReader<J, T>,
    bucket: &Bytes,
    bindings: &[(ImageKind, Option<Bytes>)],
) -> Result<(), HookFault>
    requires { IsPrefix reader.old installer.old.made }
    ensures { Judged installer.old.made reader.old (Bind bucket.now bindings.now) result reader.new }
{
    installer.bind(bucket, bindings)?;
    publish_to(installer, reader)
}
