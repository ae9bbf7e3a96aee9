//! The tray: where sheets wait for the pen.

ghost use Rattle.std.specs.Prelude.{◌≡◌, ◌++◌, ◌∷◌, [], IfNone, IfSome};
ghost use Rattle.kept_file.specs.Files.{end_of};
ghost use Rattle.log_writer.specs.declared.sheet.Sheet.{Sheet as OneSheet};
ghost use Rattle.record_codec.specs.Lists.{AreSpelledBy};

use kept_folder::end_bytes;
use log_writer::{Batch, LogBuffer, Receipt, Sheet};
use shared_prefix::Naming;
use std::alloc::Global;

/// Sheets that wait, and how many records the log has with them.
#[derive(Drop)]
pub(crate) struct Tray<J: Naming> {
    alloc: Global,
    buffer: LogBuffer<J>,
    /// So many records were put down since the log began.
    records: u64,
}

impl<J: Naming> Tray<J> {
    /// A tray of a log that begins now.
    pub(crate) fn new(alloc: Global, buffer: LogBuffer<J>) -> Tray<J>
        ensures { result.buffer ≡ buffer }
    {
        Tray {
            alloc,
            buffer,
            records: 0,
        }
    }

    /// Takes a sheet of so many records. None where memory was refused: nothing was taken then.
    pub(crate) fn put_down(&mut self, sheet: &Sheet, records: u64) -> Option<Receipt<J>>
        ensures receipt { IfSome result (λ receipt. receipt ≡ self.old.buffer.upto ++ sheet.now ∷ []) }
        ensures waits { IfSome result (λ receipt. self.new.buffer ≡ record { before = self.old.buffer.before; upto = receipt }) }
        ensures refused { IfNone result (self.new.buffer ≡ self.old.buffer) }
    {
        match self.buffer.put_down(sheet) {
            Ok(receipt) => {
                self.records = self.records.saturating_add(records);
                Some(receipt)
            }
            Err(_) => None,
        }
    }

    /// Hands out what waits.
    pub(crate) fn take(&mut self) -> Batch<J>
        ensures taken { result ≡ self.old.buffer }
        ensures left { self.new.buffer ≡ record { before = self.old.buffer.upto; upto = self.old.buffer.upto } }
    {
        self.buffer.take()
    }

    /// Hands out what waits, and behind it the record that ends the log. What comes from now on is the next log's. None where memory was
    /// refused: all waits on then.
    pub(crate) fn end(&mut self) -> Option<Batch<J>>
        ensures taken { IfSome result (λ batch. batch.before ≡ self.old.buffer.before) }
        ensures ended { IfSome result (λ batch. (end : OneSheet) × (batch.upto ≡ self.old.buffer.upto ++ end ∷ []) × AreSpelledBy (end_of 0 self.old.records ∷ []) end.bytes.items) }
        ensures left { IfSome result (λ batch. self.new.buffer ≡ record { before = batch.upto; upto = batch.upto }) }
        ensures refused { IfNone result (self.new.buffer ≡ self.old.buffer) }
    {
        let bytes = end_bytes(self.alloc, self.records).ok()?;
        self.buffer.put_down(&Sheet { bytes }).ok()?;
        self.records = 0;
        Some(self.buffer.take())
    }

    /// Hands out what waits, which no log gets. What comes from now on is the next log's.
    pub(crate) fn give_up(&mut self) -> Batch<J>
        ensures taken { result ≡ self.old.buffer }
        ensures left { self.new.buffer ≡ record { before = self.old.buffer.upto; upto = self.old.buffer.upto } }
    {
        self.records = 0;
        self.buffer.take()
    }
}
