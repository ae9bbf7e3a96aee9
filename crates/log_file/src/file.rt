//! The file of a log that is appended to, and forced now and then.

ghost use Rattle.std.specs.Prelude.{◌≡◌, ◌⊎◌, ◌+◌, ◌^◌, ◌≤◌, ◌++◌, ℕ, List, [], length, take, true, false, IsTrue, IsErr, OnOk, OnErr};
ghost use Rattle.log_file.specs.Devices.{BeginsWith, HasRisen, LeavesOnly};

use crate::device::{Device, DeviceFault};

/// The file of a log: what was appended, of which a front was forced.
#[derive(Drop)]
pub struct LogFile<D: Device> {
    device: D,
    /// So many bytes of it were appended.
    appended_len: usize,
    /// So many of these were forced.
    forced_len: usize,
    /// Whether nothing stands behind what was appended.
    has_no_rest: bool,
    /// Whether no force has failed.
    is_trusted: bool,
    ghost ordered: { forced_len ≤ appended_len },
    ghost within: { appended_len ≤ length (D.seen device) },
    ghost whole: { IsTrue has_no_rest → appended_len ≡ length (D.seen device) },
    ghost trusted: { is_trusted ≡ D.is_trusted device },
    ghost kept: { (c : List ℕ) → D.may_leave device c → take forced_len c ≡ take forced_len (D.seen device) },
}

impl<D: Device> LogFile<D> {
    ghost use Rattle.log_file.specs.LogFiles.{appended, device_of, forced, is_trusted};

    /// A log whose file is the first `len` bytes of a device on which no force has failed: none of them is known to be forced. What
    /// stands behind them is cut before anything is written. A new log has 0.
    pub fn new(device: D, len: usize) -> LogFile<D>
        requires within { len ≤ length (D.seen device) }
        requires trusted { IsTrue (D.is_trusted device) }
        ensures device { device_of result ≡ device }
        ensures appended { appended result ≡ take len (D.seen device) }
        ensures forced { forced result ≡ [] }
        ensures trusted { is_trusted result ≡ true }
    {
        LogFile {
            device,
            appended_len: len,
            forced_len: 0,
            has_no_rest: false,
            is_trusted: true,
        }
    }

    /// The device.
    pub fn device(&self) -> &D
        ensures { result.now ≡ device_of self.now }
    {
        &self.device
    }

    /// Appends bytes: all of them, or none. Whatever crash comes meanwhile, the file begins with what was forced before.
    ///
    /// An error is the device's; `Full`, too, where the file would have more bytes than a machine can count. What was appended stays.
    pub fn append(&mut self, bytes: &[u8]) -> Result<(), DeviceFault>
        ensures appended { OnOk result (appended self.new ≡ appended self.old ++ bytes.now) }
        ensures refused { OnErr result (appended self.new ≡ appended self.old) }
        ensures forced { forced self.new ≡ forced self.old }
        ensures trusted { is_trusted self.new ≡ is_trusted self.old }
        ensures any_moment { LeavesOnly D.moment D.left_since (device_of self.old) (device_of self.new) (BeginsWith (forced self.old)) }
        ensures later { D.faults (device_of self.old) ≤ D.faults (device_of self.new) }
        ensures cause { IsErr result → HasRisen (D.faults (device_of self.old)) (D.faults (device_of self.new)) ⊎ (2 ^ 64 ≤ length (appended self.old) + length bytes.now) }
    {
        self.cut_rest()?;
        let Some(appended_len) = self.appended_len.checked_add(bytes.len()) else {
            return Err(DeviceFault::Full);
        };
        self.write(appended_len, bytes)
    }

    // Takes away what stands behind what was appended.
    fn cut_rest(&mut self) -> Result<(), DeviceFault>
        ensures whole { OnOk result (IsTrue self.new.has_no_rest) }
        ensures appended { appended self.new ≡ appended self.old }
        ensures len { self.new.appended_len ≡ self.old.appended_len }
        ensures forced { forced self.new ≡ forced self.old }
        ensures trusted { is_trusted self.new ≡ is_trusted self.old }
        ensures any_moment { LeavesOnly D.moment D.left_since (device_of self.old) (device_of self.new) (BeginsWith (forced self.old)) }
        ensures later { D.faults (device_of self.old) ≤ D.faults (device_of self.new) }
        ensures cause { IsErr result → HasRisen (D.faults (device_of self.old)) (D.faults (device_of self.new)) }
    {
        if self.has_no_rest {
            return Ok(());
        }
        self.device.cut(self.appended_len)?;
        self.has_no_rest = true;
        Ok(())
    }

    // Writes bytes behind what was appended, after which there are so many.
    fn write(&mut self, appended_len: usize, bytes: &[u8]) -> Result<(), DeviceFault>
        requires whole { IsTrue self.old.has_no_rest }
        requires len { appended_len ≡ self.old.appended_len + length bytes.now }
        ensures appended { OnOk result (appended self.new ≡ appended self.old ++ bytes.now) }
        ensures refused { OnErr result (appended self.new ≡ appended self.old) }
        ensures forced { forced self.new ≡ forced self.old }
        ensures trusted { is_trusted self.new ≡ is_trusted self.old }
        ensures any_moment { LeavesOnly D.moment D.left_since (device_of self.old) (device_of self.new) (BeginsWith (forced self.old)) }
        ensures later { D.faults (device_of self.old) ≤ D.faults (device_of self.new) }
        ensures cause { IsErr result → HasRisen (D.faults (device_of self.old)) (D.faults (device_of self.new)) }
    {
        match self.device.append(bytes) {
            Ok(()) => {
                self.appended_len = appended_len;
                Ok(())
            }
            Err(fault) => {
                self.has_no_rest = false;
                Err(fault)
            }
        }
    }

    /// Forces all that was appended to the device. Once that failed it fails for good, and nothing more is ever taken for forced.
    pub fn force(&mut self) -> Result<(), DeviceFault>
        ensures forced { OnOk result (forced self.new ≡ appended self.old) }
        ensures appended { appended self.new ≡ appended self.old }
        ensures refused { OnErr result (forced self.new ≡ forced self.old) }
        ensures broken { OnErr result (is_trusted self.new ≡ false) }
        ensures trusted { OnOk result (is_trusted self.new ≡ true) }
        ensures for_good { is_trusted self.old ≡ false → IsErr result }
        ensures any_moment { LeavesOnly D.moment D.left_since (device_of self.old) (device_of self.new) (BeginsWith (forced self.old)) }
        ensures later { D.faults (device_of self.old) ≤ D.faults (device_of self.new) }
        ensures cause { IsErr result → HasRisen (D.faults (device_of self.old)) (D.faults (device_of self.new)) ⊎ (is_trusted self.old ≡ false) }
    {
        if !self.is_trusted {
            return Err(DeviceFault::Failed);
        }
        match self.device.force() {
            Ok(()) => {
                self.forced_len = self.appended_len;
                Ok(())
            }
            Err(fault) => {
                self.is_trusted = false;
                Err(fault)
            }
        }
    }

    /// Whatever crash comes now, the file begins with what was forced; and what a process that is killed leaves begins with all that was
    /// appended. It does nothing: this is a law.
    pub fn outlives(&self)
        ensures crash { (c : List ℕ) → D.may_leave (device_of self.now) c → BeginsWith (forced self.now) c }
        ensures kill { BeginsWith (appended self.now) (D.seen (device_of self.now)) }
    {}
}
