//! That a sheet is kept.

ghost use Rattle.std.specs.Prelude.{◌≡◌, ◌↔◌, IsTrue};
ghost use mathlib.Core.List.{IsPrefix};

use log_writer::{Forced, Receipt, Sheet, Written};
use shared_prefix::{Front, Naming};
use std::marker::Model;

/// Sheets that were put down before a log was given up: a snapshot that began later is whole, so its files have what they note. The desk
/// alone makes one.
#[derive(Drop)]
pub struct Covered<J: Naming> {
    list: Front<Sheet, J>,
}

impl<J: Naming> Model for Covered<J> {
    ghost use Rattle.std.specs.Prelude.{List};
    ghost use Rattle.log_writer.specs.declared.sheet.Sheet.{Sheet};

    ghost Value = { List Sheet };

    ghost view = { λ c. c.list };
}

impl<J: Naming> Covered<J> {
    // That these are.
    pub(crate) fn new(list: Front<Sheet, J>) -> Covered<J>
        ensures { result ≡ list }
    {
        Covered { list }
    }

    /// The same once more.
    pub fn again(&self) -> Covered<J>
        ensures { result ≡ self.now }
    {
        Covered {
            list: self.list.again(),
        }
    }

    /// Whether the sheet of a receipt is among them, and all that were put down before it.
    pub fn has(&self, receipt: &Receipt<J>) -> bool
        ensures { IsTrue result ↔ IsPrefix receipt.now self.now }
    {
        receipt.is_in(&self.list)
    }
}

/// What shows that a sheet is kept.
#[derive(Drop)]
pub enum Kept<J: Naming> {
    /// The sheets that were written: they outlive a process that is killed.
    Written(Written<J>),
    /// The sheets that were forced: they outlive every crash.
    Forced(Forced<J>),
    /// The sheets that no log has, and that other files have.
    Covered(Covered<J>),
}
