//! The folder of a store that is kept, in the system's files.

use crate::limits::{FILE_MODE, FOLDER_MODE};
use kept_folder::{FileFault, Folder, LogFolder, keep_requests};
use log_desk::HooksFile;
use log_system::SystemLog;
use std::alloc::{AllocError, Global};
use std::fs::OpenFile as _;
use std::io::{ErrorKind, Read as _};
use std::os::unix::fs::{DirBuilderExt as _, MetadataExt as _, OpenOptionsExt as _};
use std::{fs, io};
use thiserror::Error;

/// The file that a process locks while the folder is its own.
const LOCK: &str = "lock";

/// Why a folder isn't taken.
#[derive(Clone, Copy, Debug, PartialEq, Eq, Error)]
pub enum Untaken {
    /// Another process has it.
    #[error("in use")]
    InUse,
    /// The system refused it.
    #[error("folder: {0}")]
    Fault(FileFault),
}

impl From<AllocError> for Untaken {
    fn from(_: AllocError) -> Untaken {
        Untaken::Fault(FileFault::NoMemory)
    }
}

impl From<io::Error> for Untaken {
    fn from(error: io::Error) -> Untaken {
        Untaken::Fault(fault_of(&error))
    }
}

/// Which file a file is, whatever names it has.
#[derive(Clone, Copy, Debug, PartialEq, Eq)]
struct Node {
    device: u64,
    number: u64,
}

impl Node {
    fn of(metadata: &fs::Metadata) -> Node {
        Node {
            device: metadata.dev(),
            number: metadata.ino(),
        }
    }
}

/// That a folder is this process's own as long as this value lives: the folder's file `lock` is locked, which the system undoes however the
/// process ends.
#[derive(Drop)]
pub struct Lock<'a> {
    rt: &'a HostRuntime,
    alloc: Global,
    path: &'a str,
    /// The file that is locked.
    file: fs::File,
    /// Which one that is.
    node: Node,
}

impl Lock<'_> {
    /// The files of the folder.
    pub fn folder(&self) -> SystemFolder<'_> {
        SystemFolder {
            rt: self.rt,
            alloc: self.alloc,
            path: self.path,
            held: self.node,
        }
    }
}

/// Takes the folder with a path, which is made where it is missing, its owner's alone: its own name is forced to the device, too.
pub fn take<'a>(rt: &'a HostRuntime, alloc: Global, path: &'a str) -> Result<Lock<'a>, Untaken> {
    fs::DirBuilder::new()
        .recursive(true)
        .mode(FOLDER_MODE)
        .create(rt, path)?;
    force_name(rt, alloc, path)?;
    let file = begun(rt, format!(in alloc; "{path}/{LOCK}")?.as_str())?;
    let node = Node::of(&file.metadata()?);
    match file.try_lock() {
        Ok(()) => Ok(Lock {
            rt,
            alloc,
            path,
            file,
            node,
        }),
        Err(fs::TryLockError::WouldBlock) => Err(Untaken::InUse),
        Err(fs::TryLockError::Error(error)) => Err(Untaken::from(error)),
    }
}

/// Begins the file with a path anew. One that wasn't there is its owner's alone.
fn begun(rt: &HostRuntime, path: &str) -> io::Result<fs::File> {
    fs::OpenOptions::new()
        .write(true)
        .create(true)
        .truncate(true)
        .mode(FILE_MODE)
        .open(rt, path)
}

/// Forces the name of a folder to the device, where the one around it can be opened: who may not read that may still use this.
fn force_name(rt: &HostRuntime, alloc: Global, path: &str) -> io::Result<()> {
    let around = format!(in alloc; "{path}/..")?;
    match fs::File::open(rt, around.as_str()) {
        Ok(folder) => folder.sync_all(),
        Err(_) => Ok(()),
    }
}

/// The files of a folder that is taken. Threads may each be handed them, so the system is no parameter of this type.
///
/// They are found by the folder's path. So before one is begun or gets another name, it is looked whether the file `lock` there is still
/// the one that is locked: nothing is written where the folder was moved or removed, whatever stands in its place.
#[derive(Clone, Copy)]
pub struct SystemFolder<'a> {
    rt: &'a HostRuntime,
    alloc: Global,
    path: &'a str,
    /// The file that is locked.
    held: Node,
}

impl<'a> SystemFolder<'a> {
    /// Those of a folder that nobody has: none of its files is written.
    #[cfg(test)]
    pub fn nowhere(rt: &'a HostRuntime, alloc: Global) -> SystemFolder<'a> {
        SystemFolder {
            rt,
            alloc,
            path: "nowhere",
            held: Node {
                device: 0,
                number: 0,
            },
        }
    }

    // The path of a file.
    fn path_of(&self, name: &str) -> Result<String, FileFault> {
        let path = self.path;
        Ok(format!(in self.alloc; "{path}/{name}")?)
    }

    // The names of the files, but those that are no text: nobody can ask for these.
    fn listed(&self, alloc: Global) -> io::Result<Vec<String>> {
        let mut names = Vec::new(alloc);
        for entry in fs::read_dir(self.rt, self.path)? {
            match entry {
                Ok(entry) => names.push(String::from_str(alloc, entry.file_name())?)?,
                Err(error) if error.kind() == ErrorKind::InvalidFilename => {}
                Err(error) => return Err(error),
            }
        }
        Ok(names)
    }

    // Looks whether the folder is still there.
    fn look(&self) -> Result<(), FileFault> {
        let path = self.path_of(LOCK)?;
        match fs::metadata(self.rt, path.as_str()) {
            Ok(found) if Node::of(&found) == self.held => Ok(()),
            Ok(_) => Err(FileFault::Moved),
            Err(error) if error.kind() == ErrorKind::NotFound => Err(FileFault::Moved),
            Err(error) => Err(fault_of(&error)),
        }
    }
}

impl Folder for SystemFolder<'_> {
    type File = fs::File;

    // Nothing is known of the system's files.
    ghost finds = { λ _ _ _. Unit {0} };

    ghost does = { λ _ _ _. Unit {0} };

    fn read(&self, alloc: Global, name: &str) -> Result<Option<Vec<u8>>, FileFault> {
        let path = self.path_of(name)?;
        let mut file = match fs::File::open(self.rt, path.as_str()) {
            Ok(file) => file,
            Err(error) if error.kind() == ErrorKind::NotFound => return Ok(None),
            Err(error) => return Err(fault_of(&error)),
        };
        let mut bytes = Vec::new(alloc);
        done(file.read_to_end(&mut bytes))?;
        Ok(Some(bytes))
    }

    fn names(&self, alloc: Global) -> Result<Vec<String>, FileFault> {
        done(self.listed(alloc))
    }

    fn create(&mut self, name: &str) -> Result<fs::File, FileFault> {
        self.look()?;
        let path = self.path_of(name)?;
        done(begun(self.rt, path.as_str()))
    }

    fn force(&mut self, file: fs::File) -> Result<(), FileFault> {
        done(file.sync_all())
    }

    fn rename(&mut self, from: &str, to: &str) -> Result<(), FileFault> {
        self.look()?;
        let from = self.path_of(from)?;
        let to = self.path_of(to)?;
        done(fs::rename(self.rt, from.as_str(), to.as_str()))
    }

    fn force_names(&mut self) -> Result<(), FileFault> {
        let folder = done(fs::File::open(self.rt, self.path))?;
        done(folder.sync_all())
    }
}

impl SystemFolder<'_> {
    // The path of the log with a number.
    fn log_path(&self, number: u64) -> Result<String, FileFault> {
        let path = self.path;
        Ok(format!(in self.alloc; "{path}/log-{number}")?)
    }
}

impl LogFolder for SystemFolder<'_> {
    type Log = SystemLog;

    ghost holds = { λ _ _ _. Unit {0} };

    ghost begins = { λ _ _ _. Unit {0} };

    ghost removes = { λ _ _ _. Unit {0} };

    fn begin_log(&mut self, number: u64) -> Result<SystemLog, FileFault> {
        self.look()?;
        let path = self.log_path(number)?;
        done(begun(self.rt, path.as_str()))?;
        let opened = fs::OpenOptions::new()
            .append(true)
            .open(self.rt, path.as_str());
        let file = done(opened)?;
        self.force_names()?;
        Ok(SystemLog::over(file, &[]))
    }

    fn open_log(&self, alloc: Global, number: u64) -> Result<(SystemLog, Vec<u8>), FileFault> {
        self.look()?;
        let path = self.log_path(number)?;
        let mut bytes = Vec::new(alloc);
        let mut held = done(fs::File::open(self.rt, path.as_str()))?;
        done(held.read_to_end(&mut bytes))?;
        let opened = fs::OpenOptions::new()
            .append(true)
            .open(self.rt, path.as_str());
        let file = done(opened)?;
        let log = SystemLog::over(file, &bytes);
        Ok((log, bytes))
    }

    fn remove_log(&mut self, number: u64) -> Result<(), FileFault> {
        self.look()?;
        let path = self.log_path(number)?;
        done(fs::remove_file(self.rt, path.as_str()))
    }
}

impl HooksFile for SystemFolder<'_> {
    ghost keeps = { λ _ _ _. Unit {0} };

    fn keep_hooks(&mut self, alloc: Global, requests: &[u8]) -> bool {
        keep_requests(alloc, self, Some(requests)).is_ok()
    }
}

/// What an operation of the system came to.
fn done<T: Drop>(came: io::Result<T>) -> Result<T, FileFault> {
    match came {
        Ok(value) => Ok(value),
        Err(error) => Err(fault_of(&error)),
    }
}

/// Why the system didn't do an operation.
fn fault_of(error: &io::Error) -> FileFault {
    if error.kind() == ErrorKind::OutOfMemory {
        FileFault::NoMemory
    } else {
        FileFault::Refused
    }
}
