//! What one worker has of the hooks.

ghost use Rattle.std.specs.Prelude.{◌≡◌};
ghost use Rattle.hook_readers.specs.Edits.{Finds, Names};
ghost use Rattle.hook_sharing.specs.Taking.{Takes};

use crate::{HookReader, Installer, Rack, making};
use bpf_image::ImageKind;
use bpf_verifier::Verified;
use hook_registry::{HookChanges, HookFault, Hooks, NameFault, NotSeen};
use key_state::Bytes;
use shared_prefix::Naming;
use std::marker::Model;
use std::sync::{Arc, Mutex, Wait};

/// Hooks that are looked up in a reader, and changed by a maker. Contracts see the changes that the reader has seen or was told of. A
/// look-up waits for nobody, whatever the maker is: it has nothing to wait by.
#[derive(Drop)]
pub struct ReadHooks<J: Naming, T: Rack<J> + Drop, M: Drop> {
    reader: HookReader<J, T>,
    maker: M,
}

impl<J: Naming, T: Rack<J> + Drop, M: Drop> Model for ReadHooks<J, T, M> {
    ghost use Rattle.std.specs.Prelude.{List};
    ghost use Rattle.hook_registry.specs.Changes.{Change};

    ghost Value = { List Change };

    ghost view = { λ w. w.reader };
}

impl<J: Naming, T: Rack<J> + Drop, M: Drop> ReadHooks<J, T, M> {
    /// Where hooks are looked up.
    pub(crate) fn reader(&self) -> &HookReader<J, T>
        ensures { result.now ≡ self.now }
    {
        &self.reader
    }
}

/// What all workers change hooks by: the installer, behind its lock.
#[derive(Drop)]
pub struct Maker<'a, J: Naming, T: Rack<J> + Drop, R: Wait + Drop> {
    installer: &'a Mutex<Installer<J, T, R>>,
    rt: &'a R,
}

/// The hooks of one worker: a reader of its own, and the installer that all workers change hooks by.
///
/// A change is shown to all workers at once, and the worker that made it sees it from its next look-up on. Where memory lacks for
/// showing it, the change is answered with `NoMemory`, although it stands among all changes and is shown with the next.
pub type WorkerHooks<'a, J, T, R> = ReadHooks<J, T, Maker<'a, J, T, R>>;

impl<'a, J: Naming, T: Rack<J> + Drop, R: Wait + Drop> ReadHooks<J, T, Maker<'a, J, T, R>> {
    /// The hooks of a worker that has this reader.
    pub fn new(
        reader: HookReader<J, T>,
        installer: &'a Mutex<Installer<J, T, R>>,
        rt: &'a R,
    ) -> WorkerHooks<'a, J, T, R>
        ensures { result ≡ reader }
    {
        ReadHooks {
            reader,
            maker: Maker { installer, rt },
        }
    }
}

impl<J: Naming, T: Rack<J> + Drop, M: Drop> Hooks for ReadHooks<J, T, M> {
    ghost finds = { Finds };

    ghost names = { Names };

    fn hook_of(
        &mut self,
        bucket: &[u8],
        kind: ImageKind,
    ) -> Result<Option<Arc<Verified>>, NotSeen> {
        self.reader.hook_of(bucket, kind)
    }

    fn bound(&mut self, bucket: &Bytes, kind: ImageKind) -> Result<Option<Bytes>, NameFault> {
        self.reader.bound(bucket, kind)
    }
}

impl<J: Naming, T: Rack<J> + Drop, R: Wait + Drop> HookChanges
    for ReadHooks<J, T, Maker<'_, J, T, R>> {
    ghost takes = { Takes };

    fn install(&mut self, name: Bytes, program: Arc<Verified>) -> Result<(), HookFault> {
        let mut installer = making::caught_up(self.maker.rt, self.maker.installer, &self.reader);
        making::install(&mut installer, &mut self.reader, name, program)
    }

    fn remove(&mut self, name: &Bytes) -> Result<(), HookFault> {
        let mut installer = making::caught_up(self.maker.rt, self.maker.installer, &self.reader);
        making::remove(&mut installer, &mut self.reader, name)
    }

    fn bind(
        &mut self,
        bucket: &Bytes,
        bindings: &[(ImageKind, Option<Bytes>)],
    ) -> Result<(), HookFault> {
        let mut installer = making::caught_up(self.maker.rt, self.maker.installer, &self.reader);
        making::bind(&mut installer, &mut self.reader, bucket, bindings)
    }
}
