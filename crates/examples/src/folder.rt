//! The folders of the examples.

use commands::files::{Files, Part};
use std::alloc::Global;
use std::{fs, io, rt};

/// The files of a folder, which are read by their names in it.
#[derive(Drop)]
pub struct Folder<'a, R> {
    pub rt: &'a R,
    /// Where the folder is: nothing, or its path and a slash.
    pub path: &'a str,
}

/// The bytes of the file of a name and an ending.
pub fn read_ending<F: Files>(
    alloc: Global,
    files: &F,
    name: &str,
    ending: &str,
) -> io::Result<Vec<u8>> {
    let file = format!(in alloc; "{name}.{ending}")?;
    files.read(alloc, file.as_str())
}

/// At most so many of a file's bytes, and how many it has.
pub fn part_of(mut bytes: Vec<u8>, most: usize) -> Part {
    let len = bytes.len() as u64;
    bytes.truncate(most);
    Part { bytes, len }
}

impl<R: rt::Files + AllocGlobal> Files for Folder<'_, R> {
    fn read(&self, alloc: Global, name: &str) -> io::Result<Vec<u8>> {
        let path = self.path;
        fs::read(self.rt, format!(in alloc; "{path}{name}")?.as_str())
    }

    fn read_part(&self, alloc: Global, name: &str, most: usize) -> io::Result<Part> {
        Ok(part_of(self.read(alloc, name)?, most))
    }

    /// Nothing is changed: a file can be written as it stands, and not otherwise.
    fn write(&mut self, name: &str, bytes: &[u8]) -> io::Result<()> {
        if self.read(self.rt.alloc(), name)?.as_slice() == bytes {
            return Ok(());
        }
        Err(io::Error::from(io::ErrorKind::PermissionDenied))
    }
}
