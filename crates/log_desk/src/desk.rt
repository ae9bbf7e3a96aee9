//! The desk, which workers and who makes snapshots share.

ghost use Rattle.std.specs.Prelude.{◌≡◌, ◌++◌, ◌∷◌, [], IfOk, List};
ghost use Rattle.log_writer.specs.declared.sheet.Sheet.{Sheet as OneSheet};
ghost use Rattle.log_desk.specs.Desks.{sync_of};
ghost use Rattle.log_desk.specs.Keeping.{IsKeptAs};
ghost use Rattle.shared_prefix.specs.Lists.{book_of};

use crate::hooks_file::HooksFile;
use crate::kept::Kept;
use crate::ledger::{Ledger, Pages};
use crate::page::{Page, PageFault};
use crate::pen::Pen;
use crate::tray::Tray;
use kept_folder::{FileFault, Folder, LogFolder, Logs, SyncPolicy, end_log};
use log_file::LogFile;
use log_writer::{LogBuffer, LogWriter, Receipt, Sheet};
use shared_prefix::{Naming, Opened};
use std::alloc::Global;
use std::sync::atomic::Ordering::SeqCst;
use std::sync::atomic::{AtomicBool, AtomicU64};
use std::sync::{Mutex, Wait};

/// The desk of a log: a tray where sheets wait, and a pen that one has at a time.
#[derive(Drop)]
pub struct Desk<F: LogFolder, J: Naming> {
    alloc: Global,
    sync: SyncPolicy,
    folder: Mutex<F>,
    tray: Mutex<Tray<J>>,
    pen: Mutex<Pen<F::Log, J>>,
    /// Whether somebody wants a snapshot, since he couldn't note what he did.
    is_wanted: AtomicBool,
    /// How many snapshots have begun.
    begun: AtomicU64,
    /// The number of the last that is whole.
    whole: AtomicU64,
}

/// A desk with the next log of a folder, behind the logs that a start found there, if it found some. The newest of these is ended in order
/// first. The error: the newest can't be ended, or the next not begun.
pub fn open<F: LogFolder + Drop, J: Naming>(
    alloc: Global,
    mut folder: F,
    sync: SyncPolicy,
    logs: Option<Logs>,
    list: Opened<Sheet>,
) -> Result<Desk<F, J>, FileFault>
    requires list { book_of list ≡ J.book }
    ensures set { IfOk result (λ desk. sync_of desk ≡ sync) }
{
    let (book, none) = list.named::<J>();
    let (oldest, newest) = match logs {
        Some(logs) => {
            end_log(alloc, &folder, logs.last)?;
            (logs.first, logs.last.saturating_add(1))
        }
        None => (0, 0),
    };
    let device = folder.begin_log(newest)?;
    let log = LogWriter::new(LogFile::new(device, 0), &none);
    Ok(Desk {
        alloc,
        sync,
        folder: Mutex::new(folder),
        tray: Mutex::new(Tray::new(alloc, LogBuffer::new(alloc, book, &none))),
        pen: Mutex::new(Pen::new(log, oldest, newest)),
        is_wanted: AtomicBool::new(false),
        begun: AtomicU64::new(0),
        whole: AtomicU64::new(0),
    })
}

impl<F: LogFolder + HooksFile, J: Naming + Send> Ledger for Desk<F, J> {
    type Receipt = Receipt<J>;

    type Kept = Kept<J>;

    ghost put = { λ _ sheet receipt. (before : List OneSheet) × (receipt ≡ before ++ sheet ∷ []) };

    ghost shows = { λ desk receipt kept. IsKeptAs (sync_of desk) receipt kept };

    fn is_kept(&self) -> bool {
        true
    }

    fn put_down<R: Wait>(&self, rt: &R, sheet: &Sheet, records: u64) -> Option<Receipt<J>> {
        self.tray.lock(rt).put_down(sheet, records)
    }

    fn keep<R: Wait>(&self, rt: &R, receipt: &Receipt<J>, now: u64) -> Option<Kept<J>> {
        let mut pen = self.pen.lock(rt);
        let kept = pen.kept(self.sync, receipt);
        if kept.is_some() {
            return kept;
        }
        pen.is_stuck = pen.work(rt, &self.tray, self.sync, now).is_err();
        pen.kept(self.sync, receipt)
    }

    fn force_due<R: Wait>(&self, rt: &R, now: u64) {
        if self.sync == SyncPolicy::EverySecond {
            let mut pen = self.pen.lock(rt);
            if pen.force_due(now).is_err() {
                pen.is_stuck = true;
            }
        }
    }

    fn keep_hooks<R: Wait>(&self, rt: &R, requests: &[u8]) -> bool {
        self.folder.lock(rt).keep_hooks(self.alloc, requests)
    }

    fn begun(&self) -> u64 {
        self.begun.load(SeqCst)
    }

    fn whole(&self) -> u64 {
        self.whole.load(SeqCst)
    }

    fn want_snapshot(&self) {
        self.is_wanted.store(true, SeqCst);
    }
}

impl<F: Folder + LogFolder + HooksFile, J: Naming + Send> Pages for Desk<F, J> {
    fn wanted<R: Wait>(&self, rt: &R) -> Option<PageFault> {
        let pen = self.pen.lock(rt);
        if pen.is_stuck || pen.is_given_up() {
            return Some(PageFault::Unwritten(pen.newest));
        }
        self.is_wanted.load(SeqCst).then_some(PageFault::Unnoted)
    }

    fn turn<R: Wait>(&self, rt: &R, now: u64) -> Page {
        self.is_wanted.store(false, SeqCst);
        let snapshot = self.begun.fetch_add(1, SeqCst).saturating_add(1);
        let mut folder = self.folder.lock(rt);
        let mut pen = self.pen.lock(rt);
        let last = pen.newest;
        let has_ended = pen.end(rt, &self.tray, now).is_ok();
        let has_begun = has_ended
            && match folder.begin_log(last.saturating_add(1)) {
                Ok(device) => pen.go_on(device).is_ok(),
                Err(_) => false,
            };
        if !has_begun {
            pen.give_up(rt, &self.tray);
        }
        Page { last, snapshot }
    }

    fn settle<R: Wait>(&self, rt: &R, page: Page) -> Result<(), PageFault> {
        let mut folder = self.folder.lock(rt);
        let oldest = self.pen.lock(rt).oldest;
        for number in oldest..=page.last {
            if folder.remove_log(number).is_err() {
                return Err(PageFault::Unremoved(number));
            }
            self.pen.lock(rt).oldest = number.saturating_add(1);
        }
        let mut pen = self.pen.lock(rt);
        if pen.is_given_up() {
            let next = pen.newest.saturating_add(1);
            if folder.force_names().is_err() {
                return Err(PageFault::Unbegun(next));
            }
            match folder.begin_log(next) {
                Ok(device) => pen.begin_again(device),
                Err(_) => return Err(PageFault::Unbegun(next)),
            }
        }
        self.whole.store(page.snapshot, SeqCst);
        Ok(())
    }

    fn close<R: Wait>(&self, rt: &R) -> Result<(), PageFault> {
        let mut folder = self.folder.lock(rt);
        let pen = self.pen.lock(rt);
        for number in pen.oldest..=pen.newest {
            if folder.remove_log(number).is_err() {
                return Err(PageFault::Unremoved(number));
            }
        }
        Ok(())
    }
}
