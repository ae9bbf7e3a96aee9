//! Prefixes of the list of all sheets: up to one that was handed over, those that were written, and those that were forced.

ghost use Rattle.std.specs.Prelude.{◌≡◌, ◌↔◌, IsTrue};
ghost use mathlib.Core.List.{IsPrefix};
ghost use Rattle.log_writer.specs.Sheets.{IsAmong};

use crate::sheet::Sheet;
use shared_prefix::{Front, Naming};
use std::marker::Model;

/// What a worker has of a sheet that it handed over: the list up to that sheet. [`LogBuffer::put_down`](crate::LogBuffer::put_down) alone
/// makes one.
#[derive(Drop)]
pub struct Receipt<J: Naming> {
    list: Front<Sheet, J>,
}

impl<J: Naming> Model for Receipt<J> {
    ghost use Rattle.std.specs.Prelude.{List};
    ghost use Rattle.log_writer.specs.declared.sheet.Sheet.{Sheet};

    ghost Value = { List Sheet };

    ghost view = { λ r. r.list };
}

impl<J: Naming> Receipt<J> {
    // Of the list up to a sheet.
    pub(crate) fn new(list: Front<Sheet, J>) -> Receipt<J>
        ensures { result ≡ list }
    {
        Receipt { list }
    }

    /// Whether its sheet is in a list, and all that were handed over before it.
    pub fn is_in(&self, list: &Front<Sheet, J>) -> bool
        ensures { IsTrue result ↔ IsPrefix self.now list.now }
    {
        has_all(list, &self.list)
    }
}

/// Sheets that were written: they outlive a process that is killed. [`LogWriter::write`](crate::LogWriter::write) alone makes one. Contracts
/// see the list of those that its logs skip, and the list up to the last.
#[derive(Drop)]
pub struct Written<J: Naming> {
    skipped: Front<Sheet, J>,
    list: Front<Sheet, J>,
}

impl<J: Naming> Model for Written<J> {
    ghost use Rattle.log_writer.specs.Sheets.{Span};

    ghost Value = { Span };

    ghost view = { λ w. record { before = w.skipped; upto = w.list } };
}

impl<J: Naming> Written<J> {
    // That these were, but for some.
    pub(crate) fn new(skipped: Front<Sheet, J>, list: Front<Sheet, J>) -> Written<J>
        ensures { result ≡ record { before = skipped; upto = list } }
    {
        Written { skipped, list }
    }

    /// The same once more.
    pub fn again(&self) -> Written<J>
        ensures { result ≡ self.now }
    {
        Written {
            skipped: self.skipped.again(),
            list: self.list.again(),
        }
    }

    /// Whether the sheet of a receipt is among them. So are all that were handed over before it, but for those that are skipped.
    pub fn has(&self, receipt: &Receipt<J>) -> bool
        ensures { IsTrue result ↔ IsAmong receipt.now self.now }
    {
        !receipt.is_in(&self.skipped) && receipt.is_in(&self.list)
    }
}

/// Sheets that were forced: they outlive every crash. [`LogWriter::force`](crate::LogWriter::force) alone makes one. Contracts
/// see the list of those that its logs skip, and the list up to the last.
#[derive(Drop)]
pub struct Forced<J: Naming> {
    skipped: Front<Sheet, J>,
    list: Front<Sheet, J>,
}

impl<J: Naming> Model for Forced<J> {
    ghost use Rattle.log_writer.specs.Sheets.{Span};

    ghost Value = { Span };

    ghost view = { λ f. record { before = f.skipped; upto = f.list } };
}

impl<J: Naming> Forced<J> {
    // That these were, but for some.
    pub(crate) fn new(skipped: Front<Sheet, J>, list: Front<Sheet, J>) -> Forced<J>
        ensures { result ≡ record { before = skipped; upto = list } }
    {
        Forced { skipped, list }
    }

    /// The same once more.
    pub fn again(&self) -> Forced<J>
        ensures { result ≡ self.now }
    {
        Forced {
            skipped: self.skipped.again(),
            list: self.list.again(),
        }
    }

    /// Whether the sheet of a receipt is among them. So are all that were handed over before it, but for those that are skipped.
    pub fn has(&self, receipt: &Receipt<J>) -> bool
        ensures { IsTrue result ↔ IsAmong receipt.now self.now }
    {
        !receipt.is_in(&self.skipped) && receipt.is_in(&self.list)
    }
}

// Whether a list has all of another, at its head.
fn has_all<J: Naming>(list: &Front<Sheet, J>, other: &Front<Sheet, J>) -> bool
    ensures { IsTrue result ↔ IsPrefix other.now list.now }
{
    list.longer(other).len() == list.len()
}
