//! The log writer: it writes sheets to a log's file, batch by batch, and forces them.

ghost use Rattle.std.specs.Prelude.{◌≡◌, ◌≢◌, ◌↔◌, ◌⊎◌, ◌≤◌, ◌^◌, ◌++◌, ℕ, List, [], false, length, IfErr, IfOk, IsErr, IsTrue, OnErr, OnOk};
ghost use Rattle.log_file.specs.Devices.{HasRisen};
ghost use Rattle.log_file.specs.LogFiles.{appended, device_of, forced};
ghost use Rattle.log_writer.specs.Sheets.{bytes_of, StandsIn};

use crate::buffer::Batch;
use crate::prefixes::{Forced, Written};
use crate::sheet::Sheet;
use log_file::{Device, DeviceFault, LogFile};
use shared_prefix::{Front, Naming};
use std::marker::Model;
use std::mem;
use thiserror::Error;

/// Why a batch isn't written.
#[derive(Clone, Copy, Debug, PartialEq, Eq, Drop, Error)]
pub enum WriteFault {
    /// The file refused it.
    #[error("{0}")]
    File(DeviceFault),
    /// It doesn't begin behind the last that was written.
    #[error("a batch is out of turn")]
    OutOfTurn,
}

/// A log's file with the lists of the sheets that it has. Contracts see its device, the list of the sheets that no log of this writer has,
/// with these those of its earlier logs, and with these the lists of those that were written, and of those that were forced.
#[derive(Drop)]
pub struct LogWriter<D: Device, J: Naming> {
    log: LogFile<D>,
    skipped: Front<Sheet, J>,
    earlier: Front<Sheet, J>,
    written: Front<Sheet, J>,
    forced: Front<Sheet, J>,
}

impl<D: Device, J: Naming> Model for LogWriter<D, J> {
    ghost use Rattle.std.specs.Prelude.{◌≡◌, ◌++◌};
    ghost use Rattle.log_writer.specs.Sheets.{bytes_of, Logged};
    ghost use Rattle.log_file.specs.LogFiles as file;

    ghost Value = { Logged D };

    ghost view = { λ w. record { device = file.device_of w.log; skipped = w.skipped; earlier = w.earlier; written = w.written; forced = w.forced; is_trusted = file.is_trusted w.log } };

    ghost invariant = { λ w. (bytes_of w.written ≡ bytes_of w.earlier ++ file.appended w.log) × (bytes_of w.forced ≡ bytes_of w.earlier ++ file.forced w.log) };
}

impl<D: Device, J: Naming> LogWriter<D, J> {
    ghost use Rattle.log_file.specs.LogFiles as file;

    /// The writer of a new log, behind sheets that it skips: none of its logs has them, and it never says that they were written.
    pub fn new(log: LogFile<D>, skipped: &Front<Sheet, J>) -> LogWriter<D, J>
        requires appended { file.appended log ≡ [] }
        requires forced { file.forced log ≡ [] }
        ensures { result ≡ record { device = file.device_of log; skipped = skipped.now; earlier = skipped.now; written = skipped.now; forced = skipped.now; is_trusted = file.is_trusted log } }
    {
        LogWriter {
            log,
            skipped: skipped.again(),
            earlier: skipped.again(),
            written: skipped.again(),
            forced: skipped.again(),
        }
    }

    /// Writes a batch behind all that was written, and tells the list of that.
    ///
    /// `OutOfTurn` where the batch begins behind another sheet. `File` where the file refused it: it may be written again. What was written
    /// stays.
    pub fn write(&mut self, batch: &Batch<J>) -> Result<Written<J>, WriteFault>
        ensures in_turn { IfOk result (λ _. batch.now.before ≡ self.old.written) }
        ensures told { IfOk result (λ written. (written ≡ record { before = self.old.skipped; upto = batch.now.upto }) × (self.new.written ≡ batch.now.upto)) }
        ensures refused { OnErr result (self.new.written ≡ self.old.written) }
        ensures skipped { self.new.skipped ≡ self.old.skipped }
        ensures earlier { self.new.earlier ≡ self.old.earlier }
        ensures forced { self.new.forced ≡ self.old.forced }
        ensures trusted { self.new.is_trusted ≡ self.old.is_trusted }
        ensures out_of_turn { IfErr result (λ fault. fault ≡ WriteFault.OutOfTurn ↔ batch.now.before ≢ self.old.written) }
        ensures cause { IsErr result → HasRisen (D.faults self.old.device) (D.faults self.new.device) ⊎ (2 ^ 64 ≤ length (bytes_of batch.now.upto)) ⊎ (batch.now.before ≢ self.old.written) }
    {
        if !self.is_next(batch) {
            return Err(WriteFault::OutOfTurn);
        }
        match self.log.append(batch.bytes()) {
            Ok(()) => {
                self.written = batch.upto().again();
                Ok(Written::new(self.skipped.again(), batch.upto().again()))
            }
            Err(fault) => Err(WriteFault::File(fault)),
        }
    }

    // Whether a batch begins behind all that was written.
    fn is_next(&self, batch: &Batch<J>) -> bool
        ensures { IsTrue result ↔ (batch.now.before ≡ self.now.written) }
    {
        let longer = self.written.longer(batch.before());
        longer.len() == self.written.len() && longer.len() == batch.before().len()
    }

    /// Forces the file, and with it all sheets that were written. Tells the list of them.
    ///
    /// An error is the file's. Once it was refused it is refused for good: the next log has to begin.
    pub fn force(&mut self) -> Result<Forced<J>, DeviceFault>
        ensures told { IfOk result (λ forced. (forced ≡ record { before = self.old.skipped; upto = self.old.written }) × (self.new.forced ≡ self.old.written)) }
        ensures refused { OnErr result (self.new.forced ≡ self.old.forced) }
        ensures broken { OnErr result (self.new.is_trusted ≡ false) }
        ensures trusted { OnOk result (self.new.is_trusted ≡ self.old.is_trusted) }
        ensures for_good { self.old.is_trusted ≡ false → IsErr result }
        ensures skipped { self.new.skipped ≡ self.old.skipped }
        ensures earlier { self.new.earlier ≡ self.old.earlier }
        ensures written { self.new.written ≡ self.old.written }
        ensures cause { IsErr result → HasRisen (D.faults self.old.device) (D.faults self.new.device) ⊎ (self.old.is_trusted ≡ false) }
    {
        self.log.force()?;
        self.forced = self.written.again();
        Ok(Forced::new(self.skipped.again(), self.written.again()))
    }

    /// Begins the next log behind this one, all of whose sheets are forced first. Hands this one's file out.
    ///
    /// An error is the file's, and the next log comes back: this one goes on.
    pub fn begin(&mut self, next: LogFile<D>) -> Result<LogFile<D>, (DeviceFault, LogFile<D>)>
        requires appended { file.appended next ≡ [] }
        requires forced { file.forced next ≡ [] }
        ensures begun { OnOk result (self.new ≡ record { device = file.device_of next; skipped = self.old.skipped; earlier = self.old.written; written = self.old.written; forced = self.old.written; is_trusted = file.is_trusted next }) }
        ensures handed { IfOk result (λ log. bytes_of self.old.written ≡ bytes_of self.old.earlier ++ file.forced log) }
        ensures back { IfErr result (λ e. e.1 ≡ next) }
        ensures refused { OnErr result ((self.new.skipped ≡ self.old.skipped) × (self.new.earlier ≡ self.old.earlier) × (self.new.written ≡ self.old.written) × (self.new.forced ≡ self.old.forced)) }
    {
        if let Err(fault) = self.log.force() {
            return Err((fault, next));
        }
        self.forced = self.written.again();
        self.earlier = self.written.again();
        Ok(mem::replace(&mut self.log, next))
    }

    /// Whatever crash comes now, the file begins with the sheets that were forced, behind those of earlier logs; and what a process that is
    /// killed leaves begins with all that were written. It does nothing: this is a law.
    pub fn outlives(&self)
        ensures crash { (left : List ℕ) → D.may_leave self.now.device left → StandsIn self.now.earlier self.now.forced left }
        ensures kill { StandsIn self.now.earlier self.now.written (D.seen self.now.device) }
    {
        self.log.outlives();
    }
}
