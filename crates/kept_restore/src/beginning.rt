//! What the files of a folder hold, taken over by the vnodes of a cluster.

ghost use Rattle.std.specs.Prelude.{◌≡◌, ◌+◌, ◌<◌, ◌≤◌, ℕ, None, IfOk, OnOk, length, map, slice_index_or};
ghost use Rattle.kept_file.specs.Files.{records_at};
ghost use Rattle.kept_restore.specs.Beginnings.{HaveLoaded, fronts_to};
ghost use Rattle.kept_restore.specs.Loads.{HasLoaded};

use crate::fault::LoadFault;
use crate::loads::{Loading, Throttle};
use crate::side_by_side::processors;
use cluster::{Pass, Room};
use kept_file::KeptFile;
use record_codec::Record;
use std::alloc::{AllocError, Global};
use std::sync::Wait;
use std::thread;
use std::thread::Threads;
use thiserror::Error;

/// Which vnode doesn't take its records over, by its index, and why.
#[derive(Clone, Copy, Debug, PartialEq, Eq, Error)]
#[error("vnode-{index}.records: {fault}")]
pub struct Unloaded {
    /// The vnode's index.
    pub index: usize,
    /// Why it doesn't take them over.
    pub fault: LoadFault,
}

/// Who has a vnode take over what is its own.
#[derive(Drop)]
pub struct Loader<B: Room> {
    /// What it calls the vnode with.
    pub pass: Pass<B>,
    /// Why the vnode doesn't take that over, if it doesn't.
    pub fault: Option<LoadFault>,
}

impl<B: Room> Loader<B> {
    /// One that has called nobody.
    pub fn new(pass: Pass<B>) -> Loader<B>
        ensures { result.pass ≡ pass }
    {
        Loader { pass, fault: None }
    }
}

impl<B: Room + Send + Sync, R: Threads + Wait + Sync, T: Throttle + Sync> Loading<'_, B, R, T> {
    /// Has the vnodes of a cluster, which nobody has called before, each merge the records of the file that is its own by index, each once
    /// and in order: they are the first entries of its journal. There is a loader for each, by index, whose pass is told of each merge there
    /// and of nothing else. They go on side by side, on as many threads as there are processors, and each is throttled on its own. The error
    /// is that of the first vnode that has one.
    pub fn load_all(&self, loaders: &mut [Loader<B>], files: &[KeptFile]) -> Result<(), Unloaded>
        requires vnodes { length loaders.old ≤ self.now.cluster.now.vnodes }
        ensures loaded { OnOk result (HaveLoaded self.now.cluster.now.first 0 files.now (map (λ l. l.pass) loaders.old) (map (λ l. l.pass) loaders.new)) }
    {
        thread::for_each_mut(
            self.rt,
            loaders,
            processors(self.rt),
            &|index: usize, loader: &mut Loader<B>|
                requires { index < self.now.cluster.now.vnodes }
                ensures { loader.new.fault ≡ None → HasLoaded loader.old.pass loader.new.pass (self.entry.now.cluster.now.first + index) (records_at files.entry.now index) }
            { self.load_own(loader, index, files) },
        );
        all_loaded(loaders)
    }

    /// Has the vnode with an index take over what is its own.
    fn load_own(&self, loader: &mut Loader<B>, index: usize, files: &[KeptFile])
        requires inside { index < self.now.cluster.now.vnodes }
        ensures loaded { loader.new.fault ≡ None → HasLoaded loader.old.pass loader.new.pass (self.now.cluster.now.first + index) (records_at files.now index) }
    {
        loader.fault = self
            .load(&mut loader.pass, index, records_of(files, index))
            .err();
    }
}

/// Whether all vnodes have taken over what is their own. The error is that of the first that hasn't.
fn all_loaded<B: Room>(loaders: &[Loader<B>]) -> Result<(), Unloaded>
    ensures { OnOk result ((index : ℕ) (d : _) → index < length loaders.now → (slice_index_or loaders.now index d).fault ≡ None) }
{
    for (index, loader) in loaders.iter().enumerate() {
        if let Some(fault) = loader.fault {
            return Err(Unloaded { index, fault });
        }
    }
    Ok(())
}

/// How many records each of so many vnodes begins with, by index.
pub fn fronts_of(alloc: Global, files: &[KeptFile], vnodes: usize) -> Result<Vec<usize>, AllocError>
    ensures { IfOk result (λ fronts. fronts.items ≡ fronts_to files.now vnodes) }
{
    let mut fronts = Vec::new(alloc);
    for index in 0..vnodes {
        fronts.push(records_of(files, index).len())?;
    }
    Ok(fronts)
}

/// The records that the vnode with an index begins with.
fn records_of(files: &[KeptFile], index: usize) -> &[Record]
    ensures { result.now ≡ records_at files.now index }
{
    for file in files {
        if file.from.is_of(index) {
            return &file.records;
        }
    }
    &[]
}
