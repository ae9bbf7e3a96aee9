//! The bindings that changes of what is bound to a bucket make.

ghost use Rattle.std.specs.Prelude.{◌≡◌, ◌++◌, IfOk, OnOk};
ghost use Rattle.server_store.specs.Changes.{bindings_of, binding_of};

use bpf_image::ImageKind;
use http_request::Change;
use key_state::Bytes;
use std::alloc::{AllocError, Global};

/// The bindings that changes of both kinds make: of each kind that changes its name, or none where it is unbound.
pub fn bindings_of(
    alloc: Global,
    precommit: &Change,
    resolver: &Change,
) -> Result<Vec<(ImageKind, Option<Bytes>)>, AllocError>
    ensures { IfOk result (λ bindings. bindings.items ≡ bindings_of precommit.now resolver.now) }
{
    let mut bindings = Vec::new(alloc);
    push_binding(&mut bindings, ImageKind::PreCommit, precommit)?;
    push_binding(&mut bindings, ImageKind::Resolver, resolver)?;
    Ok(bindings)
}

// Adds the binding that a change of one kind makes, if any.
fn push_binding(
    bindings: &mut Vec<(ImageKind, Option<Bytes>)>,
    kind: ImageKind,
    change: &Change,
) -> Result<(), AllocError>
    ensures { OnOk result (bindings.new.items ≡ bindings.old.items ++ binding_of kind change.now) }
{
    match change {
        Change::Kept => Ok(()),
        Change::Unbound => Ok(bindings.push((kind, None))?),
        Change::Bound(name) => {
            let name = name.copy()?;
            Ok(bindings.push((kind, Some(name)))?)
        }
    }
}
