//! The names that are bound to a bucket's kinds of hooks.

ghost use Rattle.std.specs.Prelude.{◌≡◌, IfOk, None};
ghost use Rattle.bpf_image.specs.declared.image.ImageKind.{ImageKind as Kind};
ghost use Rattle.hook_registry.specs.Bindings.{bound_by};
ghost use Rattle.hook_registry.specs.Changes.{is_kind};
ghost use Rattle.std.specs.Prelude.{if◌then◌else◌};

use bpf_image::ImageKind;
use key_state::Bytes;
use std::alloc::AllocError;

/// A name for each kind, or none.
#[derive(Drop)]
pub(crate) struct Bindings {
    pub(crate) plain: Option<Bytes>,
    pub(crate) pre_commit: Option<Bytes>,
    pub(crate) resolver: Option<Bytes>,
}

impl Bindings {
    /// None bound.
    pub(crate) fn new() -> Bindings
        ensures { (kind : Kind) → bound_by result kind ≡ None }
    {
        Bindings {
            plain: None,
            pre_commit: None,
            resolver: None,
        }
    }

    /// The name that is bound to a kind.
    pub(crate) fn bound(&self, kind: ImageKind) -> &Option<Bytes>
        ensures { result.now ≡ bound_by self.now kind }
    {
        match kind {
            ImageKind::Plain => &self.plain,
            ImageKind::PreCommit => &self.pre_commit,
            ImageKind::Resolver => &self.resolver,
        }
    }

    /// Binds a name to a kind, or none.
    pub(crate) fn bind(&mut self, kind: ImageKind, name: Option<Bytes>)
        ensures { (other : Kind) → bound_by self.new other ≡ (if is_kind kind other then name else bound_by self.old other) }
    {
        match kind {
            ImageKind::Plain => self.plain = name,
            ImageKind::PreCommit => self.pre_commit = name,
            ImageKind::Resolver => self.resolver = name,
        }
    }

    /// The same bindings.
    pub(crate) fn copy(&self) -> Result<Bindings, AllocError>
        ensures { IfOk result (λ copy. copy ≡ self.now) }
    {
        Ok(Bindings {
            plain: copy_of(&self.plain)?,
            pre_commit: copy_of(&self.pre_commit)?,
            resolver: copy_of(&self.resolver)?,
        })
    }
}

/// The same name, or none.
pub(crate) fn copy_of(name: &Option<Bytes>) -> Result<Option<Bytes>, AllocError>
    ensures { IfOk result (λ copy. copy ≡ name.now) }
{
    match name {
        Some(name) => Ok(Some(name.copy()?)),
        None => Ok(None),
    }
}
