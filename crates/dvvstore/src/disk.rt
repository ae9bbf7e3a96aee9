//! The files of the system.

use crate::reasons::reasoned;
use commands::files::{Files, Part};
use std::alloc::Global;
use std::fs::OpenFile as _;
use std::io::{Read as _, Stderr, Write as _};
use std::{fs, io, rt};

/// The files of the system, of which nothing is known. Why one can't be had is told on standard error.
#[derive(Drop)]
pub struct Disk<'a, R> {
    pub rt: &'a R,
    pub alloc: Global,
    /// Where that is told.
    pub err: Stderr,
}

impl<R: rt::Files> Disk<'_, R> {
    /// The beginning of a file.
    fn part(&self, alloc: Global, name: &str, most: usize) -> io::Result<Part> {
        let file = fs::File::open(self.rt, name)?;
        let told = file.metadata()?.len();
        let mut bytes = Vec::new(alloc);
        file.take(most as u64).read_to_end(&mut bytes)?;
        let len = told.max(bytes.len() as u64);
        Ok(Part { bytes, len })
    }

    /// Makes a file hold these bytes. They stand beside the file until all are stored, and then under its name: a write that fails leaves
    /// the file as it was.
    fn replace(&self, name: &str, bytes: &[u8]) -> io::Result<()> {
        let beside = format!(in self.alloc; "{name}.part")?;
        self.store(&beside, bytes)?;
        fs::rename(self.rt, beside.as_str(), name)
    }

    /// Makes a new file hold these bytes, on the device too.
    fn store(&self, name: &str, bytes: &[u8]) -> io::Result<()> {
        let mut file = fs::File::create(self.rt, name)?;
        file.write_all(bytes)?;
        file.sync_all()
    }
}

impl<R: rt::Files + AllocGlobal> Files for Disk<'_, R> {
    fn read(&self, _alloc: Global, name: &str) -> io::Result<Vec<u8>> {
        reasoned(self.err, name, fs::read(self.rt, name))
    }

    fn read_part(&self, alloc: Global, name: &str, most: usize) -> io::Result<Part> {
        reasoned(self.err, name, self.part(alloc, name, most))
    }

    fn write(&mut self, name: &str, bytes: &[u8]) -> io::Result<()> {
        reasoned(self.err, name, self.replace(name, bytes))
    }
}
