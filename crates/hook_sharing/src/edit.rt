//! How a change is made.

ghost use Rattle.std.specs.Prelude.{◌≡◌, OnOk, OnErr, IfOk};
ghost use Rattle.hook_registry.specs.Tables.{ChangesBy};
ghost use Rattle.hook_readers.specs.Edits.{change_of};

use bpf_image::ImageKind;
use hook_readers::Edit;
use hook_registry::Registry;
use key_state::Bytes;
use std::alloc::{AllocError, Global};
use std::sync::Arc;

/// Changes a registry so.
pub(crate) fn apply(edit: &Edit, registry: &mut Registry) -> Result<(), AllocError>
    ensures ok { OnOk result (ChangesBy registry.old registry.new (change_of edit.now)) }
    ensures err { OnErr result (registry.new ≡ registry.old) }
{
    match edit {
        Edit::Install { name, program } => {
            let name = name.copy()?;
            let program = Arc::try_clone(program)?;
            registry.install(name, program)
        }
        Edit::Remove { name } => match registry.remove(name) {
            Ok(()) => Ok(()),
            Err(_) => Err(AllocError),
        },
        Edit::Bind { bucket, bindings } => match registry.bind(bucket, bindings) {
            Ok(()) => Ok(()),
            Err(_) => Err(AllocError),
        },
    }
}

/// The same bindings.
pub(crate) fn copy_of(
    alloc: Global,
    bindings: &[(ImageKind, Option<Bytes>)],
) -> Result<Vec<(ImageKind, Option<Bytes>)>, AllocError>
    ensures { IfOk result (λ copy. copy.items ≡ bindings.now) }
{
    let mut copy = Vec::with_capacity(alloc, bindings.len())?;
    for (kind, name) in bindings {
        let name = match name {
            Some(name) => Some(name.copy()?),
            None => None,
        };
        copy.push((*kind, name))?;
    }
    Ok(copy)
}
