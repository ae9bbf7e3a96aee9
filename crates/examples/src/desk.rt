//! The files of a row and of a trial.

use crate::folder::part_of;
use commands::files::{Files, Part};
use std::alloc::Global;
use std::io;

/// The file `file`, the file `new`, which alone can be written, and those of a folder.
#[derive(Drop)]
pub struct Desk<'a, F> {
    folder: &'a F,
    pub file: Vec<u8>,
    pub new: Vec<u8>,
    /// Whether the file `new` was written since that was last told.
    pub is_written: bool,
}

impl<'a, F> Desk<'a, F> {
    /// Beside the files of a folder two that are empty.
    pub fn new(alloc: Global, folder: &'a F) -> Desk<'a, F> {
        Desk {
            folder,
            file: Vec::new(alloc),
            new: Vec::new(alloc),
            is_written: false,
        }
    }

    /// Makes the two files empty.
    pub fn clear(&mut self) {
        self.file.clear();
        self.new.clear();
    }
}

impl<F: Files> Files for Desk<'_, F> {
    fn read(&self, alloc: Global, name: &str) -> io::Result<Vec<u8>> {
        match name {
            "file" => Ok(self.file.to_vec(alloc)?),
            "new" => Ok(self.new.to_vec(alloc)?),
            _ => self.folder.read(alloc, name),
        }
    }

    fn read_part(&self, alloc: Global, name: &str, most: usize) -> io::Result<Part> {
        Ok(part_of(self.read(alloc, name)?, most))
    }

    fn write(&mut self, name: &str, bytes: &[u8]) -> io::Result<()> {
        if name != "new" {
            return Err(io::Error::from(io::ErrorKind::PermissionDenied));
        }
        self.is_written = true;
        self.new.clear();
        Ok(self.new.extend_from_slice(bytes)?)
    }
}
