//! What workers and who makes snapshots have of a log.

ghost use Rattle.std.specs.Prelude.{IfSome};
ghost use Rattle.log_writer.specs.declared.sheet.Sheet.{Sheet as OneSheet};

use crate::page::{Page, PageFault};
use log_writer::Sheet;
use std::sync::Wait;

/// Where workers put down what they noted, so that it is kept.
pub trait Ledger {
    /// What a worker has of a sheet that it put down.
    type Receipt: Drop + Send;

    /// What shows that a sheet is kept.
    type Kept: Drop + Send;

    /// A sheet was put down, and this is its receipt.
    ghost put: { Self → OneSheet → Self.Receipt → Type 0 };

    /// That shows that the sheet of a receipt is kept, as is set.
    ghost shows: { Self → Self.Receipt → Self.Kept → Type 0 };

    /// Whether anything is kept here: else nothing is to be put down.
    fn is_kept(&self) -> bool;

    /// Takes a sheet of so many records behind all others. None where memory was refused: nothing was taken then.
    fn put_down<R: Wait>(&self, rt: &R, sheet: &Sheet, records: u64) -> Option<Self::Receipt>
        ensures { IfSome result (put self.now sheet.now) };

    /// Has the sheet of a receipt be kept, as is set, at a time in milliseconds: with all that wait. None where it can't be now: the same may
    /// be asked again.
    fn keep<R: Wait>(&self, rt: &R, receipt: &Self::Receipt, now: u64) -> Option<Self::Kept>
        ensures { IfSome result (shows self.now receipt.now) };

    /// Forces what was written, where that is set to be once a second, at a time in milliseconds.
    fn force_due<R: Wait>(&self, rt: &R, now: u64);

    /// Has the requests that make hooks what they are be kept. Whether they are. Of two such calls one is to have ended before the other's
    /// requests are looked up.
    fn keep_hooks<R: Wait>(&self, rt: &R, requests: &[u8]) -> bool;

    /// How many snapshots have begun so far.
    fn begun(&self) -> u64;

    /// The number of the last snapshot that is whole, as [`begun`](Ledger::begun) counted it when it began; 0 where none is.
    fn whole(&self) -> u64;

    /// A snapshot is wanted, since something can't be noted or kept.
    fn want_snapshot(&self);
}

/// The pages of a ledger, which snapshots turn.
pub trait Pages: Ledger {
    /// Whether a snapshot is wanted, and why it is, where the log is at fault.
    fn wanted<R: Wait>(&self, rt: &R) -> Option<PageFault>;

    /// A snapshot begins, at a time in milliseconds. The log ends in order and the next one begins. Where that can't be, nothing more is
    /// written to it, and the next one begins once the snapshot is whole.
    fn turn<R: Wait>(&self, rt: &R, now: u64) -> Page;

    /// The snapshot is whole that began with that page: what it has is removed. The error: what can't be removed or begun stands, and the next
    /// snapshot does it.
    fn settle<R: Wait>(&self, rt: &R, page: Page) -> Result<(), PageFault>;

    /// All that was kept stands in other files, and nobody puts anything down any more: the logs are removed. The error: one can't be.
    fn close<R: Wait>(&self, rt: &R) -> Result<(), PageFault>;
}

/// Nothing is kept.
#[derive(Clone, Copy)]
pub struct NoLedger;

impl Ledger for NoLedger {
    type Receipt = ();

    type Kept = ();

    ghost put = { λ _ _ _. Unit {0} };

    ghost shows = { λ _ _ _. Unit {0} };

    fn is_kept(&self) -> bool {
        false
    }

    fn put_down<R: Wait>(&self, _rt: &R, _sheet: &Sheet, _records: u64) -> Option<()> {
        None
    }

    fn keep<R: Wait>(&self, _rt: &R, _receipt: &(), _now: u64) -> Option<()> {
        Some(())
    }

    fn force_due<R: Wait>(&self, _rt: &R, _now: u64) {}

    fn keep_hooks<R: Wait>(&self, _rt: &R, _requests: &[u8]) -> bool {
        true
    }

    fn begun(&self) -> u64 {
        0
    }

    fn whole(&self) -> u64 {
        0
    }

    fn want_snapshot(&self) {}
}

impl Pages for NoLedger {
    fn wanted<R: Wait>(&self, _rt: &R) -> Option<PageFault> {
        None
    }

    fn turn<R: Wait>(&self, _rt: &R, _now: u64) -> Page {
        Page {
            last: 0,
            snapshot: 0,
        }
    }

    fn settle<R: Wait>(&self, _rt: &R, _page: Page) -> Result<(), PageFault> {
        Ok(())
    }

    fn close<R: Wait>(&self, _rt: &R) -> Result<(), PageFault> {
        Ok(())
    }
}
