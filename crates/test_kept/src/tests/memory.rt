//! A folder in memory, which ends after so many operations: then what was forced stands, and of the rest nothing.

use kept_folder::{FileFault, Folder, Opened, open};
use std::alloc::Global;
use std::io;
use std::io::Write;
use std::thread::Threads;

/// More operations than any test does.
pub const MANY: u64 = 1_000;

/// A start, or a replacement, does four: it creates a file, forces it, renames it, and forces the names.
pub const WHOLE: u64 = 4;

/// The minute of the starts that are no later than the first.
pub const MINUTE: u32 = 7;

/// What a start finds and takes.
pub fn begin<R: Threads + Sync>(rt: &R, alloc: Global, folder: &mut Memory) -> Option<Opened> {
    open(alloc, rt, folder, MINUTE).ok()
}

/// A file's name and bytes.
#[derive(Drop)]
struct Named {
    name: String,
    bytes: Vec<u8>,
}

/// A file that is written.
#[derive(Drop)]
pub struct MemoryFile {
    name: String,
    bytes: Vec<u8>,
}

impl Write for MemoryFile {
    fn write(&mut self, buf: &[u8]) -> io::Result<usize> {
        match self.bytes.extend_from_slice(buf) {
            Ok(()) => Ok(buf.len()),
            Err(_) => Err(io::Error::from(io::ErrorKind::OutOfMemory)),
        }
    }

    fn flush(&mut self) -> io::Result<()> {
        Ok(())
    }
}

/// Files in memory.
#[derive(Drop)]
pub struct Memory {
    alloc: Global,
    files: Vec<Named>,
    left: u64,
}

impl Memory {
    /// An empty folder, of which so many operations are done. Those behind them are refused.
    pub fn new(alloc: Global, operations: u64) -> Memory {
        Memory {
            alloc,
            files: Vec::new(alloc),
            left: operations,
        }
    }

    /// The process is over, and another has this folder, of which so many operations are done.
    pub fn begin_again(&mut self, operations: u64) {
        self.left = operations;
    }

    /// Lays a file into the folder. No operation is counted.
    pub fn lay(&mut self, name: &str, bytes: &[u8]) -> Result<(), FileFault> {
        self.set(
            String::from_str(self.alloc, name)?,
            bytes.to_vec(self.alloc)?,
        )
    }

    // Counts an operation.
    fn spend(&mut self) -> Result<(), FileFault> {
        if self.left == 0 {
            return Err(FileFault::Refused);
        }
        self.left -= 1;
        Ok(())
    }

    // The place of a file.
    fn place_of(&self, name: &str) -> Option<usize> {
        self.files
            .iter()
            .position(|file| file.name.as_str() == name)
    }

    // Makes a file hold these bytes.
    fn set(&mut self, name: String, bytes: Vec<u8>) -> Result<(), FileFault> {
        if let Some(place) = self.place_of(name.as_str()) {
            if place < self.files.len() {
                self.files[place].bytes = bytes;
            }
            return Ok(());
        }
        match self.files.push(Named { name, bytes }) {
            Ok(()) => Ok(()),
            Err(_) => Err(FileFault::NoMemory),
        }
    }
}

impl Folder for Memory {
    type File = MemoryFile;

    ghost finds = { λ _ _ _. Unit {0} };

    ghost does = { λ _ _ _. Unit {0} };

    fn read(&self, alloc: Global, name: &str) -> Result<Option<Vec<u8>>, FileFault> {
        for file in &self.files {
            if file.name.as_str() == name {
                return Ok(Some(file.bytes.as_slice().to_vec(alloc)?));
            }
        }
        Ok(None)
    }

    fn names(&self, alloc: Global) -> Result<Vec<String>, FileFault> {
        let mut names = Vec::new(alloc);
        for file in &self.files {
            let name = String::from_str(alloc, file.name.as_str())?;
            if names.push(name).is_err() {
                return Err(FileFault::NoMemory);
            }
        }
        Ok(names)
    }

    fn create(&mut self, name: &str) -> Result<MemoryFile, FileFault> {
        self.spend()?;
        let empty = Vec::new(self.alloc);
        self.set(String::from_str(self.alloc, name)?, empty)?;
        Ok(MemoryFile {
            name: String::from_str(self.alloc, name)?,
            bytes: Vec::new(self.alloc),
        })
    }

    fn force(&mut self, file: MemoryFile) -> Result<(), FileFault> {
        self.spend()?;
        let MemoryFile { name, bytes } = file;
        self.set(name, bytes)
    }

    fn rename(&mut self, from: &str, to: &str) -> Result<(), FileFault> {
        self.spend()?;
        let Some(bytes) = self.read(self.alloc, from)? else {
            return Err(FileFault::Refused);
        };
        self.set(String::from_str(self.alloc, to)?, bytes)
    }

    fn force_names(&mut self) -> Result<(), FileFault> {
        self.spend()
    }
}
