//! The files of a folder.

ghost use Rattle.std.specs.Prelude.{ℕ, List, Option, None, IfOk, OnOk, Contains, map, string_bytes};
ghost use Rattle.kept_folder.specs.Reads.{bytes_in};
ghost use Rattle.kept_folder.specs.Steps.{Begun, Forced, NamesForced, Renamed, Step};

use std::alloc::{AllocError, Global};
use std::io::Write;
use thiserror::Error;

/// Why an operation on a file wasn't done.
#[derive(Clone, Copy, Debug, PartialEq, Eq, Error)]
pub enum FileFault {
    /// The system refused it.
    #[error("refused by the system")]
    Refused,
    /// The folder was moved or removed, and another may stand in its place.
    #[error("the folder was moved or removed")]
    Moved,
    /// Memory ran out.
    #[error("E1")]
    NoMemory,
}

impl From<AllocError> for FileFault {
    fn from(_: AllocError) -> FileFault {
        FileFault::NoMemory
    }
}

/// The files of a folder, by their names in it.
pub trait Folder {
    /// A file that is written.
    type File: Write + Drop + Send;

    // Under a name these bytes may be found, or none where there is no file.
    ghost finds: { Self → List ℕ → Option (List ℕ) → Type 0 };

    // A step was done, and the folder is another.
    ghost does: { Self → Step → Self → Type 0 };

    /// The bytes of a file. There may be no file of the name.
    fn read(&self, alloc: Global, name: &str) -> Result<Option<Vec<u8>>, FileFault>
        ensures { IfOk result (λ found. finds self.now name.now (bytes_in found)) };

    /// The names of the files that there are, in any order. Names that are no text are left out: none of them can be asked for.
    fn names(&self, alloc: Global) -> Result<Vec<String>, FileFault>
        ensures absent { IfOk result (λ names. (name : List ℕ) → (Contains (map string_bytes names.items) name → ⊥) → finds self.now name None) };

    /// Begins a file anew: what stood under the name is gone.
    fn create(&mut self, name: &str) -> Result<Self::File, FileFault>
        ensures { IfOk result (λ file. does self.old (Begun name.now (Self.File.contents file)) self.new) };

    /// Forces what was written to a file to the device.
    fn force(&mut self, file: Self::File) -> Result<(), FileFault>
        ensures { OnOk result (does self.old (Forced (Self.File.contents file)) self.new) };

    /// Gives a file another name, at once: what stood under that is gone.
    fn rename(&mut self, from: &str, to: &str) -> Result<(), FileFault>
        ensures { OnOk result (does self.old (Renamed from.now to.now) self.new) };

    /// Forces the names of the folder's files to the device.
    fn force_names(&mut self) -> Result<(), FileFault>
        ensures { OnOk result (does self.old NamesForced self.new) };
}
