//! Where the registry is changed.

ghost use Rattle.std.specs.Prelude.{◌≡◌, ◌↔◌, ◌<◌, ◌^◌, ◌++◌, ◌∷◌, [], IfOk, IsTrue, MatchResult, OnOk, OnErr};
ghost use mathlib.Core.List.{IsPrefix};
ghost use Rattle.hook_registry.specs.Tables.{Shows};
ghost use Rattle.hook_registry.specs.Changes.{bound_at};
ghost use Rattle.left_right.specs.Handles.{published};
ghost use Rattle.hook_readers.specs.Edits.{change_of, changes_of};
ghost use Rattle.hook_sharing.specs.Standing.{Takes};

use crate::edit::{apply, copy_of};
use crate::opening::{Ground, NoReader};
use crate::outlet::Outlet;
use bpf_image::ImageKind;
use bpf_verifier::Verified;
use hook_readers::{Edit, HookReader, Note, Rack};
use hook_registry::{HookChanges, HookFault, Registry};
use key_state::Bytes;
use shared_prefix::Naming;
use std::alloc::{AllocError, Global};
use std::marker::Model;
use std::sync::{Arc, Wait};

/// Installs hooks, gives them up and binds them. Readers see it once it is published. Contracts see all changes so far, and
/// those that are published.
pub struct Installer<J: Naming, T: Rack<J> + Drop, R: Wait + Drop> {
    outlet: Outlet<J, T, R>,
    // What all changes so far make.
    registry: Registry,
    alloc: Global,
}

impl<J: Naming, T: Rack<J> + Drop, R: Wait + Drop> Model for Installer<J, T, R> {
    ghost use Rattle.std.specs.Prelude.{◌++◌};
    ghost use Rattle.hook_registry.specs.Tables.{Shows};
    ghost use Rattle.left_right.specs.Handles.{published};
    ghost use Rattle.hook_readers.specs.Edits.{changes_of};
    ghost use Rattle.hook_sharing.specs.Standing.{Standing};

    ghost Value = { Standing };

    ghost view = { λ i. record { made = changes_of (i.outlet.front ++ i.outlet.waiting.items); published = changes_of (T.state (published i.outlet.writer)) } };

    ghost invariant = { λ i. Shows (changes_of (i.outlet.front ++ i.outlet.waiting.items)) i.registry };
}

impl<J: Naming, T: Rack<J> + Drop, R: Wait + Drop> Installer<J, T, R> {
    /// Opens a registry where nothing is installed, with room for so many readers.
    pub fn open(
        alloc: Global,
        rt: R,
        ground: Ground<J, T>,
        readers: usize,
    ) -> Result<Installer<J, T, R>, AllocError>
        requires ground { (ground.front ≡ []) × (T.state ground.first ≡ []) × (T.state ground.second ≡ []) }
        requires readers { (0 < readers) × (readers < 2 ^ 32) }
        ensures { IfOk result (λ installer. installer ≡ record { made = []; published = [] }) }
    {
        let registry = Registry::seeded(alloc, ground.hasher);
        match Outlet::new(alloc, rt, ground, readers) {
            Ok(outlet) => Ok(Installer {
                outlet,
                registry,
                alloc,
            }),
            Err(fault) => Err(fault),
        }
    }

    /// A reader that knows all that is published. `NoReader` where each place for one is taken, or memory runs out.
    pub fn reader(&self) -> Result<HookReader<J, T>, NoReader>
        ensures { IfOk result (λ reader. reader ≡ self.now.published) }
    {
        match self.outlet.handle() {
            Ok(handle) => Ok(HookReader::new(handle, &self.note())),
            Err(_) => Err(NoReader),
        }
    }

    /// A note of all that is published.
    pub fn note(&self) -> Note<J>
        ensures { result ≡ self.now.published }
    {
        Note::new(self.outlet.shown().front().again())
    }

    /// Whether all that a reader knows is published, at the head of what is; it is then among all changes, at their head. Of a reader of
    /// this registry it always is.
    pub fn has_all(&self, reader: &HookReader<J, T>) -> bool
        ensures published { IsTrue result ↔ IsPrefix reader.now self.now.published }
        ensures made { IsTrue result → IsPrefix reader.now self.now.made }
    {
        self.outlet.shows_all(reader.known())
    }

    /// Shows readers all changes so far, and answers a note of them. It waits for those that still look into what was shown
    /// before the last time. Where it is refused readers see what they saw, and the changes go out with the next.
    pub fn publish(&mut self) -> Result<Note<J>, AllocError>
        ensures ok { IfOk result (λ note. (note ≡ self.old.made) × (self.new ≡ record { made = self.old.made; published = self.old.made })) }
        ensures err { OnErr result (self.new ≡ self.old) }
    {
        let front = self.outlet.publish()?;
        Ok(Note::new(front))
    }

    /// The name that all changes so far, published or not, bind to a bucket and a kind.
    pub fn bound(&self, bucket: &Bytes, kind: ImageKind) -> Result<Option<Bytes>, AllocError>
        ensures { IfOk result (λ name. name ≡ bound_at self.now.made bucket.now kind) }
    {
        self.registry.bound(bucket, kind)
    }

    // Makes one change more.
    fn change(&mut self, edit: Edit) -> Result<(), AllocError>
        ensures ok { OnOk result (self.new ≡ record { made = self.old.made ++ change_of edit ∷ []; published = self.old.published }) }
        ensures err { OnErr result (self.new ≡ self.old) }
    {
        hook_registry::laws::changes_add_up();
        self.outlet.reserve()?;
        apply(&edit, &mut self.registry)?;
        self.outlet.take_in(edit);
        Ok(())
    }
}

impl<J: Naming, T: Rack<J> + Drop, R: Wait + Drop> Drop for Installer<J, T, R> {
    // It waits for those that still look into what was published. All parts are let go here, one by one: a call that takes the outlet has
    // no proof.
    fn drop(self) {
        let Self {
            outlet,
            registry,
            alloc: _,
        } = self;
        let Outlet {
            writer,
            book: _,
            front: _,
            held_back: _,
            waiting: _,
        } = outlet;
        drop(writer);
        drop(registry);
    }
}

impl<J: Naming, T: Rack<J> + Drop, R: Wait + Drop> HookChanges for Installer<J, T, R> {
    ghost takes = { Takes };

    fn install(&mut self, name: Bytes, program: Arc<Verified>) -> Result<(), HookFault> {
        let _shown = &self.registry;
        Ok(self.change(Edit::Install { name, program })?)
    }

    fn remove(&mut self, name: &Bytes) -> Result<(), HookFault> {
        if !self.registry.has(name) {
            return Err(HookFault::NameUnknown);
        }
        let name = name.copy()?;
        Ok(self.change(Edit::Remove { name })?)
    }

    fn bind(
        &mut self,
        bucket: &Bytes,
        bindings: &[(ImageKind, Option<Bytes>)],
    ) -> Result<(), HookFault> {
        self.registry.allows(bindings)?;
        let bucket = bucket.copy()?;
        let bindings = copy_of(self.alloc, bindings)?;
        Ok(self.change(Edit::Bind { bucket, bindings })?)
    }
}
