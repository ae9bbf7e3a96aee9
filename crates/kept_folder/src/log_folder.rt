//! Where a folder keeps its logs, and how a log ends.

ghost use Rattle.std.specs.Prelude.{◌≡◌, ◌++◌, ℕ, List, [], ◌∷◌, IfOk, OnOk, IsTrue};
ghost use Rattle.kept_file.specs.Files.{end_of};
ghost use Rattle.kept_folder.specs.Ends.{IsEndedBehind};
ghost use Rattle.log_file.specs.LogFiles as file;
ghost use Rattle.record_codec.specs.Lists.{AreSpelledBy};

use crate::files::FileFault;
use key_state::{Key, KeyState};
use log_file::{Device, DeviceFault, LogFile};
use log_tail::records_in_front;
use record_codec::{Unspelled, record_bytes};
use std::alloc::{AllocError, Global};

/// Bucket and key of the record that ends a file.
const END: &[u8] = b"end";

impl From<DeviceFault> for FileFault {
    fn from(_: DeviceFault) -> FileFault {
        FileFault::Refused
    }
}

/// The logs of a folder, by their numbers.
pub trait LogFolder {
    /// The file of a log, which is appended to and forced.
    type Log: Device + Drop + Send;

    /// These bytes stand in the log with a number.
    ghost holds: { Self → ℕ → List ℕ → Type 0 };

    /// The log with a number was begun.
    ghost begins: { Self → ℕ → Self → Type 0 };

    /// The log with a number was removed.
    ghost removes: { Self → ℕ → Self → Type 0 };

    /// Begins the log with a number: it is empty, and its name is forced to the device.
    fn begin_log(&mut self, number: u64) -> Result<Self::Log, FileFault>
        ensures begun { OnOk result (begins self.old number self.new) }
        ensures empty { IfOk result (λ log. Self.Log.seen log ≡ []) }
        ensures trusted { IfOk result (λ log. IsTrue (Self.Log.is_trusted log)) };

    /// Opens the log with a number, and reads it.
    fn open_log(&self, alloc: Global, number: u64) -> Result<(Self::Log, Vec<u8>), FileFault>
        ensures held { IfOk result (λ x. holds self.now number x.1.items) }
        ensures read { IfOk result (λ x. Self.Log.seen x.0 ≡ x.1.items) }
        ensures trusted { IfOk result (λ x. IsTrue (Self.Log.is_trusted x.0)) };

    /// Removes the log with a number. Its name may be gone on the device only once the names are forced.
    fn remove_log(&mut self, number: u64) -> Result<(), FileFault>
        ensures { OnOk result (removes self.old number self.new) };
}

/// Ends the log with a number in order, whatever a crash made of its end: it is cut behind its last whole record, the record that tells how
/// many stand there is written behind that, and all is forced.
///
/// An error is the system's, or want of memory: the log may have been cut then, or ended.
pub fn end_log<F: LogFolder>(
    alloc: Global,
    folder: &F,
    number: u64,
) -> Result<LogFile<F::Log>, FileFault>
    ensures ended { IfOk result (λ log. (bytes : List ℕ) × F.holds folder.now number bytes × IsEndedBehind bytes (file.forced log)) }
{
    let (device, bytes) = folder.open_log(alloc, number)?;
    let (records, taken) = records_in_front(alloc, &bytes)?;
    let end = end_bytes(alloc, records.len() as u64)?;
    let log = forced_with(LogFile::new(device, taken), &end)?;
    Ok(log)
}

/// A log to which bytes were appended, and which was forced.
fn forced_with<D: Device + Drop>(mut log: LogFile<D>, bytes: &[u8]) -> Result<LogFile<D>, FileFault>
    ensures { IfOk result (λ all. file.forced all ≡ file.appended log ++ bytes.now) }
{
    log.append(bytes)?;
    log.force()?;
    Ok(log)
}

/// The record that ends a log in which so many records stand before it.
pub fn end_bytes(alloc: Global, count: u64) -> Result<Vec<u8>, AllocError>
    ensures { IfOk result (λ bytes. AreSpelledBy (end_of 0 count ∷ []) bytes.items) }
{
    let key = Key::new(alloc, END, END)?;
    let nothing = KeyState::new(alloc);
    match record_bytes(alloc, &key, 0, count, &nothing) {
        Ok(bytes) => Ok(bytes),
        Err(Unspelled::NoMemory | Unspelled::PastLimit) => Err(AllocError),
    }
}
