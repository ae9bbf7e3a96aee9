//! The log buffer: workers hand their sheets over to it, and there they wait to be written.

ghost use Rattle.std.specs.Prelude.{◌≡◌, ◌++◌, ◌∷◌, [], IfOk, IfSome, OnErr};
ghost use Rattle.log_writer.specs.Sheets.{bytes_of};

use crate::prefixes::Receipt;
use crate::sheet::Sheet;
use shared_prefix::{Book, Front, Naming};
use std::alloc::{AllocError, Global};
use std::marker::Model;
use std::mem;
use thiserror::Error;

/// Why a sheet isn't taken.
#[derive(Clone, Copy, Debug, PartialEq, Eq, Drop, Error)]
pub enum BufferFault {
    /// Memory was refused.
    #[error("out of memory")]
    NoMemory,
    /// The list has as many sheets as it may have, or somebody else adds to it.
    #[error("the list of sheets has ended")]
    Ended,
}

impl From<AllocError> for BufferFault {
    fn from(_: AllocError) -> BufferFault {
        BufferFault::NoMemory
    }
}

/// Sheets that wait to be written, one after another. Contracts see the lists of all sheets before them and up to them.
#[derive(Drop)]
pub struct Batch<J: Naming> {
    before: Front<Sheet, J>,
    upto: Front<Sheet, J>,
    bytes: Vec<u8>,
}

impl<J: Naming> Model for Batch<J> {
    ghost use Rattle.std.specs.Prelude.{◌≡◌, ◌++◌};
    ghost use Rattle.log_writer.specs.Sheets.{bytes_of, Span};

    ghost Value = { Span };

    ghost view = { λ b. record { before = b.before; upto = b.upto } };

    ghost invariant = { λ b. bytes_of b.upto ≡ bytes_of b.before ++ b.bytes.items };
}

impl<J: Naming> Batch<J> {
    // No sheet, behind these.
    fn empty(alloc: Global, list: &Front<Sheet, J>) -> Batch<J>
        ensures { result ≡ record { before = list.now; upto = list.now } }
    {
        Batch {
            before: list.again(),
            upto: list.again(),
            bytes: Vec::new(alloc),
        }
    }

    /// The sheets' bytes.
    pub fn bytes(&self) -> &[u8]
        ensures { bytes_of self.now.upto ≡ bytes_of self.now.before ++ result.now }
    {
        &self.bytes
    }

    /// The list of all sheets before them.
    pub fn before(&self) -> &Front<Sheet, J>
        ensures { result.now ≡ self.now.before }
    {
        &self.before
    }

    /// The list of all sheets up to them.
    pub fn upto(&self) -> &Front<Sheet, J>
        ensures { result.now ≡ self.now.upto }
    {
        &self.upto
    }
}

/// Where workers hand over their sheets. Contracts see the list of those that were taken to be written, and of all.
#[derive(Drop)]
pub struct LogBuffer<J: Naming> {
    alloc: Global,
    book: Book<Sheet, J>,
    batch: Batch<J>,
}

impl<J: Naming> Model for LogBuffer<J> {
    ghost use Rattle.log_writer.specs.Sheets.{Span};

    ghost Value = { Span };

    ghost view = { λ b. b.batch };
}

impl<J: Naming> LogBuffer<J> {
    /// A buffer behind the sheets that a list has.
    pub fn new(alloc: Global, book: Book<Sheet, J>, list: &Front<Sheet, J>) -> LogBuffer<J>
        ensures { result ≡ record { before = list.now; upto = list.now } }
    {
        LogBuffer {
            alloc,
            book,
            batch: Batch::empty(alloc, list),
        }
    }

    /// Takes a sheet behind all others. The receipt is the list of all, of which it is the last.
    ///
    /// Where it is refused nothing changes.
    pub fn put_down(&mut self, sheet: &Sheet) -> Result<Receipt<J>, BufferFault>
        ensures told { IfOk result (λ receipt. (receipt ≡ self.old.upto ++ sheet.now ∷ []) × (self.new ≡ record { before = self.old.before; upto = receipt })) }
        ensures refused { OnErr result (self.new ≡ self.old) }
    {
        let len = self.batch.bytes.len();
        self.batch.bytes.extend_from_slice(&sheet.bytes)?;
        match with_one_more(&self.book, &self.batch.upto, sheet) {
            Some(upto) => {
                self.batch.upto = upto.again();
                Ok(Receipt::new(upto))
            }
            None => {
                self.batch.bytes.truncate(len);
                Err(BufferFault::Ended)
            }
        }
    }

    /// Hands out the sheets that wait, to be written.
    pub fn take(&mut self) -> Batch<J>
        ensures taken { result ≡ self.old }
        ensures left { self.new ≡ record { before = self.old.upto; upto = self.old.upto } }
    {
        let empty = Batch::empty(self.alloc, &self.batch.upto);
        mem::replace(&mut self.batch, empty)
    }
}

// A list, with a sheet that is added to it. None where it can't be added.
fn with_one_more<J: Naming>(
    book: &Book<Sheet, J>,
    list: &Front<Sheet, J>,
    sheet: &Sheet,
) -> Option<Front<Sheet, J>>
    ensures { IfSome result (λ longer. longer ≡ list.now ++ sheet.now ∷ []) }
{
    if list.is_full() {
        return None;
    }
    let mut longer = list.again();
    longer.grow(book, sheet).then_some(longer)
}
