//! The pen: whoever has it writes the log.

ghost use Rattle.std.specs.Prelude.{◌≡◌, None, Some, false, true, IfSome, IsTrue, OnErr, OnOk};
ghost use Rattle.kept_folder.specs.declared.settings.SyncPolicy.{SyncPolicy as OnePolicy};
ghost use Rattle.log_desk.specs.Keeping.{IsKeptAs, is_due};
ghost use Rattle.log_desk.specs.Pens.{forced_of, is_given_up, written_of, IsEnded};

use crate::kept::{Covered, Kept};
use crate::limits::SYNC_INTERVAL_MS;
use crate::tray::Tray;
use kept_folder::SyncPolicy;
use log_file::{Device, LogFile};
use log_writer::{Batch, Forced, LogWriter, Receipt, Sheet, Written};
use shared_prefix::{Front, Naming};
use std::sync::{Mutex, Wait};

/// A log cannot be written or forced.
#[derive(Clone, Copy, Debug, PartialEq, Eq)]
pub(crate) struct Stuck;

/// The log that is written.
#[derive(Drop)]
pub(crate) enum Current<D: Device + Drop, J: Naming> {
    /// This one.
    Open(LogWriter<D, J>),
    /// None, since it was given up: the next one begins behind these sheets, which no log has from where this one ended.
    GivenUp(Front<Sheet, J>),
}

/// What writes the log, what it has written, and what it has forced.
#[derive(Drop)]
pub(crate) struct Pen<D: Device + Drop, J: Naming> {
    log: Current<D, J>,
    /// What was taken to be written and isn't yet.
    batch: Option<Batch<J>>,
    written: Option<Written<J>>,
    forced: Option<Forced<J>>,
    covered: Option<Covered<J>>,
    /// Whether something was written since it was forced last.
    is_behind: bool,
    /// When it was forced last, in milliseconds.
    forced_at: u64,
    /// The number of the oldest log that there is, and of the newest.
    pub(crate) oldest: u64,
    pub(crate) newest: u64,
    /// Whether what waits couldn't be written when that was tried last.
    pub(crate) is_stuck: bool,
}

impl<D: Device + Drop, J: Naming> Pen<D, J> {
    /// The pen of a log with a number, where the oldest log that there is has that number.
    pub(crate) fn new(log: LogWriter<D, J>, oldest: u64, newest: u64) -> Pen<D, J> {
        Pen {
            log: Current::Open(log),
            batch: None,
            written: None,
            forced: None,
            covered: None,
            is_behind: false,
            forced_at: 0,
            oldest,
            newest,
            is_stuck: false,
        }
    }

    /// Whether the log was given up.
    pub(crate) fn is_given_up(&self) -> bool
        ensures { result ≡ is_given_up self.now.log }
    {
        match &self.log {
            Current::Open(_) => false,
            Current::GivenUp(_) => true,
        }
    }

    /// What shows that the sheet of a receipt is kept, as is set, if it is.
    pub(crate) fn kept(&self, sync: SyncPolicy, receipt: &Receipt<J>) -> Option<Kept<J>>
        ensures { IfSome result (IsKeptAs sync receipt.now) }
    {
        let covered = covered_with(self.covered.as_ref(), receipt);
        if covered.is_some() {
            return covered;
        }
        match sync {
            SyncPolicy::Always => forced_with(self.forced.as_ref(), receipt),
            SyncPolicy::EverySecond | SyncPolicy::Never => {
                written_with(self.written.as_ref(), receipt)
            }
        }
    }

    /// Writes what waits, and forces it where that is due at a time in milliseconds. Where that succeeds nothing waits that was taken.
    pub(crate) fn work<R: Wait>(
        &mut self,
        rt: &R,
        tray: &Mutex<Tray<J>>,
        sync: SyncPolicy,
        now: u64,
    ) -> Result<(), Stuck>
        ensures all { OnOk result (self.new.batch ≡ None) }
        ensures covered { self.new.covered ≡ self.old.covered }
    {
        self.write(rt, tray)?;
        if is_due(sync, now.saturating_sub(self.forced_at)) {
            self.force(now)?;
        }
        Ok(())
    }

    /// Forces what was written, where that is due once a second and isn't done.
    pub(crate) fn force_due(&mut self, now: u64) -> Result<(), Stuck>
        ensures batch { self.new.batch ≡ self.old.batch }
        ensures covered { self.new.covered ≡ self.old.covered }
    {
        if self.is_behind && is_due(SyncPolicy::EverySecond, now.saturating_sub(self.forced_at)) {
            self.force(now)?;
        }
        Ok(())
    }

    /// Ends the log in order: what waits is written, and the record that ends it, and all is forced. What is put down from now on is the next
    /// log's.
    pub(crate) fn end<R: Wait>(
        &mut self,
        rt: &R,
        tray: &Mutex<Tray<J>>,
        now: u64,
    ) -> Result<(), Stuck>
        ensures all { OnOk result (self.new.batch ≡ None) }
        ensures ended { OnOk result (IsEnded (written_of self.new.log)) }
        ensures forced { OnOk result (forced_of self.new.log ≡ written_of self.new.log) }
        ensures covered { self.new.covered ≡ self.old.covered }
    {
        self.write(rt, tray)?;
        let Some(last) = tray.lock(rt).end() else {
            return Err(Stuck);
        };
        self.write_batch(last)?;
        self.force(now)
    }

    /// The next log begins behind this one, which has ended.
    pub(crate) fn go_on(&mut self, device: D) -> Result<(), Stuck>
        requires trusted { IsTrue (D.is_trusted device) }
        ensures behind { written_of self.new.log ≡ written_of self.old.log }
        ensures batch { self.new.batch ≡ self.old.batch }
        ensures covered { self.new.covered ≡ self.old.covered }
    {
        let Current::Open(log) = &mut self.log else {
            return Err(Stuck);
        };
        match log.begin(LogFile::new(device, 0)) {
            Ok(_ended) => {
                self.newest = self.newest.saturating_add(1);
                Ok(())
            }
            Err(_) => Err(Stuck),
        }
    }

    /// Gives the log up: nothing more is written to it. What waits goes to no log, and isn't told to be kept before the next one begins.
    pub(crate) fn give_up<R: Wait>(&mut self, rt: &R, tray: &Mutex<Tray<J>>)
        ensures given_up { is_given_up self.new.log ≡ true }
        ensures waits { self.new.batch ≡ None }
        ensures written { self.new.written ≡ self.old.written }
        ensures forced { self.new.forced ≡ self.old.forced }
        ensures covered { self.new.covered ≡ self.old.covered }
    {
        let waiting = tray.lock(rt).give_up();
        self.log = Current::GivenUp(waiting.upto().again());
        self.batch = None;
    }

    /// The next log begins, where one was given up and a snapshot that began later is whole: so that has what the one given up had, or was to
    /// have.
    pub(crate) fn begin_again(&mut self, device: D)
        requires trusted { IsTrue (D.is_trusted device) }
        ensures goes_on { is_given_up self.new.log ≡ false }
        ensures behind { written_of self.new.log ≡ written_of self.old.log }
        ensures covered { is_given_up self.old.log ≡ true → self.new.covered ≡ Some (written_of self.old.log) }
    {
        let Current::GivenUp(list) = &self.log else {
            return;
        };
        let log = LogWriter::new(LogFile::new(device, 0), list);
        self.covered = Some(Covered::new(list.again()));
        self.log = Current::Open(log);
        self.newest = self.newest.saturating_add(1);
        self.is_stuck = false;
    }

    // Writes what waits: first what was taken before.
    fn write<R: Wait>(&mut self, rt: &R, tray: &Mutex<Tray<J>>) -> Result<(), Stuck>
        ensures all { OnOk result (self.new.batch ≡ None) }
        ensures covered { self.new.covered ≡ self.old.covered }
    {
        if self.is_given_up() {
            return Err(Stuck);
        }
        if let Some(batch) = self.batch.take() {
            self.write_batch(batch)?;
        }
        let batch = tray.lock(rt).take();
        self.write_batch(batch)
    }

    // Writes a batch. One that can't be written is kept, to be written first.
    fn write_batch(&mut self, batch: Batch<J>) -> Result<(), Stuck>
        ensures in_turn { OnOk result (batch.before ≡ written_of self.old.log) }
        ensures written { OnOk result (written_of self.new.log ≡ batch.upto) }
        ensures waits { OnErr result (self.new.batch ≡ Some batch) }
        ensures batch { OnOk result (self.new.batch ≡ self.old.batch) }
        ensures covered { self.new.covered ≡ self.old.covered }
    {
        let Current::Open(log) = &mut self.log else {
            self.batch = Some(batch);
            return Err(Stuck);
        };
        match log.write(&batch) {
            Ok(written) => {
                self.written = Some(written);
                self.is_behind = true;
                Ok(())
            }
            Err(_) => {
                self.batch = Some(batch);
                Err(Stuck)
            }
        }
    }

    // Forces what was written.
    fn force(&mut self, now: u64) -> Result<(), Stuck>
        ensures forced { OnOk result (forced_of self.new.log ≡ written_of self.old.log) }
        ensures written { written_of self.new.log ≡ written_of self.old.log }
        ensures batch { self.new.batch ≡ self.old.batch }
        ensures covered { self.new.covered ≡ self.old.covered }
    {
        let Current::Open(log) = &mut self.log else {
            return Err(Stuck);
        };
        match log.force() {
            Ok(forced) => {
                self.forced = Some(forced);
                self.is_behind = false;
                self.forced_at = now;
                Ok(())
            }
            Err(_) => Err(Stuck),
        }
    }
}

// What shows that the sheet of a receipt was forced, by what was, if it was.
fn forced_with<J: Naming>(forced: Option<&Forced<J>>, receipt: &Receipt<J>) -> Option<Kept<J>>
    ensures { IfSome result (IsKeptAs SyncPolicy.Always receipt.now) }
{
    let forced = forced?;
    if forced.has(receipt) {
        Some(Kept::Forced(forced.again()))
    } else {
        None
    }
}

// What shows that the sheet of a receipt was written, by what was, if it was.
fn written_with<J: Naming>(written: Option<&Written<J>>, receipt: &Receipt<J>) -> Option<Kept<J>>
    ensures every_second { IfSome result (IsKeptAs SyncPolicy.EverySecond receipt.now) }
    ensures never { IfSome result (IsKeptAs SyncPolicy.Never receipt.now) }
{
    let written = written?;
    if written.has(receipt) {
        Some(Kept::Written(written.again()))
    } else {
        None
    }
}

// What shows that the sheet of a receipt is covered by a snapshot, by what is, if it is.
fn covered_with<J: Naming>(covered: Option<&Covered<J>>, receipt: &Receipt<J>) -> Option<Kept<J>>
    ensures { (sync : OnePolicy) → IfSome result (IsKeptAs sync receipt.now) }
{
    let covered = covered?;
    if covered.has(receipt) {
        Some(Kept::Covered(covered.again()))
    } else {
        None
    }
}

// Whether what was written is to be forced, so many milliseconds after that was done last.
fn is_due(sync: SyncPolicy, passed_ms: u64) -> bool
    ensures { result ≡ is_due sync passed_ms }
{
    match sync {
        SyncPolicy::Always => true,
        SyncPolicy::EverySecond => passed_ms >= SYNC_INTERVAL_MS,
        SyncPolicy::Never => false,
    }
}
