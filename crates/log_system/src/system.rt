//! A log's file as a device, by the history of its calls.

ghost use Rattle.std.specs.Prelude.{◌≡◌, length, true};
ghost use Rattle.log_system.specs.Calls.{faults_of, has_failed_no_force, only_now, standing, MayHaveLeft, MayLeave};

use crate::history::History;
use log_file::{Device, DeviceFault};
use std::fs;
use std::io::{ErrorKind, Result as IoResult, Write as _};

/// The file of a log, in the system's files.
#[derive(Drop)]
pub struct SystemLog {
    file: fs::File,
    history: History,
}

impl SystemLog {
    ghost use Rattle.log_system.specs.Logs.{bytes_of, is_trusted};

    /// The log of a file that was opened to be appended to, and in which these bytes stand. No more than that is supposed of it: none of
    /// them is known to be forced.
    pub fn over(file: fs::File, bytes: &[u8]) -> SystemLog
        ensures bytes { bytes_of result ≡ bytes.now }
        ensures trusted { is_trusted result ≡ true }
    {
        let history = History::found(bytes);
        SystemLog { file, history }
    }
}

impl Device for SystemLog {
    ghost seen = { λ log. standing log.history.calls };

    ghost may_leave = { λ log. MayLeave log.history.calls };

    ghost moment = { λ log. length log.history.calls };

    ghost left_since = { λ log. MayHaveLeft log.history.calls };

    ghost is_trusted = { λ log. has_failed_no_force log.history.calls };

    ghost faults = { λ log. faults_of log.history.calls };

    ghost only_now = { λ log c left. only_now log.history.calls c left };

    fn append(&mut self, bytes: &[u8]) -> Result<(), DeviceFault> {
        let came = made(self.file.write_all(bytes));
        self.history.wrote(bytes, came.is_ok());
        came
    }

    fn cut(&mut self, len: usize) -> Result<(), DeviceFault> {
        let came = made(self.file.set_len(len as u64));
        self.history.shortened(len, came.is_ok());
        came
    }

    fn force(&mut self) -> Result<(), DeviceFault> {
        let came = made(self.file.sync_data());
        self.history.synced(came.is_ok());
        came
    }
}

/// What a call of the system came to.
fn made(came: IoResult<()>) -> Result<(), DeviceFault> {
    match came {
        Ok(()) => Ok(()),
        Err(error) if error.kind() == ErrorKind::StorageFull => Err(DeviceFault::Full),
        Err(_) => Err(DeviceFault::Failed),
    }
}
