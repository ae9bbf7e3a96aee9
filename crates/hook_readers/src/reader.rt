//! Where threads look hooks up.

ghost use Rattle.std.specs.Prelude.{◌≡◌, ◌⊎◌, OnErr, IfOk, IfSome};
ghost use Rattle.std.specs.Option.{option_map};
ghost use Rattle.std.specs.Arc.{arc_value};
ghost use mathlib.Core.List.{IsPrefix};
ghost use Rattle.hook_registry.specs.Changes.{hook_at, bound_at};
ghost use Rattle.hook_readers.specs.Edits.{changes_of, Finds, Names};

use crate::edit::Edit;
use crate::rack::Rack;
use bpf_image::ImageKind;
use bpf_verifier::Verified;
use hook_registry::{Hooks, NameFault, NotSeen};
use key_state::Bytes;
use left_right::ReadHandle;
use shared_prefix::{Front, Naming};
use std::marker::Model;
use std::sync::Arc;

/// Word of what was published. Contracts see the changes.
#[derive(Drop)]
pub struct Note<J: Naming> {
    front: Front<Edit, J>,
}

impl<J: Naming> Model for Note<J> {
    ghost use Rattle.std.specs.Prelude.{List};
    ghost use Rattle.hook_registry.specs.Changes.{Change};
    ghost use Rattle.hook_readers.specs.Edits.{changes_of};

    ghost Value = { List Change };

    ghost view = { λ n. changes_of n.front };
}

impl<J: Naming> Note<J> {
    /// Word of a front.
    pub fn new(front: Front<Edit, J>) -> Note<J>
        ensures { result ≡ changes_of front }
    {
        Note { front }
    }

    /// What is told.
    pub fn front(&self) -> &Front<Edit, J>
        ensures { changes_of result.now ≡ self.now }
    {
        &self.front
    }
}

/// A reader of the registry. Contracts see the changes that it has seen or was told of.
#[derive(Drop)]
pub struct HookReader<J: Naming, T: Drop> {
    handle: ReadHandle<T>,
    known: Front<Edit, J>,
}

impl<J: Naming, T: Drop> Model for HookReader<J, T> {
    ghost use Rattle.std.specs.Prelude.{List};
    ghost use Rattle.hook_registry.specs.Changes.{Change};
    ghost use Rattle.hook_readers.specs.Edits.{changes_of};

    ghost Value = { List Change };

    ghost view = { λ r. changes_of r.known };
}

impl<J: Naming, T: Drop> HookReader<J, T> {
    /// A reader of a handle, told of what was published.
    pub fn new(handle: ReadHandle<T>, note: &Note<J>) -> HookReader<J, T>
        ensures { result ≡ note.now }
    {
        HookReader {
            handle,
            known: note.front.again(),
        }
    }

    /// What it has seen or was told of.
    pub fn known(&self) -> &Front<Edit, J>
        ensures { changes_of result.now ≡ self.now }
    {
        &self.known
    }

    /// Takes in what was published: each later look-up sees it.
    pub fn learn(&mut self, note: &Note<J>)
        ensures one { (self.new ≡ self.old) ⊎ (self.new ≡ note.now) }
        ensures before { IsPrefix self.old self.new }
        ensures told { IsPrefix note.now self.new }
    {
        self.known = self.known.longer(&note.front);
    }
}

impl<J: Naming, T: Rack<J> + Drop> HookReader<J, T> {
    /// The hook of a bucket and a kind, of a list of published changes that has all that this reader has seen or was told of.
    /// It takes no memory and waits for nobody; `NotSeen` where the registry can't be read now, or the program can have no
    /// further owner.
    pub fn hook_of(
        &mut self,
        bucket: &[u8],
        kind: ImageKind,
    ) -> Result<Option<Arc<Verified>>, NotSeen>
        ensures later { IsPrefix self.old self.new }
        ensures hook { IfOk result (λ hook. option_map arc_value hook ≡ hook_at self.new bucket.now kind) }
        ensures err { OnErr result (self.new ≡ self.old) }
    {
        hook_registry::laws::hook_is_of_changes();
        let Some(guard) = self.handle.enter() else {
            return Err(NotSeen);
        };
        let Some(known) = caught_up(guard.front(), &self.known) else {
            return Err(NotSeen);
        };
        let hook = guard.registry().hook_of(bucket, kind)?;
        self.known = known;
        Ok(hook)
    }

    /// The name that is bound to a bucket and a kind, of such a list.
    pub fn bound(&mut self, bucket: &Bytes, kind: ImageKind) -> Result<Option<Bytes>, NameFault>
        ensures later { IsPrefix self.old self.new }
        ensures name { IfOk result (λ name. name ≡ bound_at self.new bucket.now kind) }
        ensures err { OnErr result (self.new ≡ self.old) }
    {
        let Some(guard) = self.handle.enter() else {
            return Err(NameFault::NotSeen);
        };
        let Some(known) = caught_up(guard.front(), &self.known) else {
            return Err(NameFault::NotSeen);
        };
        let name = guard.registry().bound(bucket, kind)?;
        self.known = known;
        Ok(name)
    }
}

/// The front that a reader sees, where it has all that the reader knew.
fn caught_up<J: Naming>(front: &Front<Edit, J>, known: &Front<Edit, J>) -> Option<Front<Edit, J>>
    ensures whole { IfSome result (λ seen. seen ≡ front.now) }
    ensures later { IfSome result (λ seen. IsPrefix (changes_of known.now) (changes_of seen)) }
{
    if front.len() < known.len() {
        return None;
    }
    Some(front.longer(known))
}

impl<J: Naming, T: Rack<J> + Drop> Hooks for HookReader<J, T> {
    ghost finds = { Finds };

    ghost names = { Names };

    fn hook_of(
        &mut self,
        bucket: &[u8],
        kind: ImageKind,
    ) -> Result<Option<Arc<Verified>>, NotSeen> {
        HookReader::hook_of(self, bucket, kind)
    }

    fn bound(&mut self, bucket: &Bytes, kind: ImageKind) -> Result<Option<Bytes>, NameFault> {
        HookReader::bound(self, bucket, kind)
    }
}
