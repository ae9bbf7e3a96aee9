//! What is said of the journals at the end, and how it is told.
ghost use Rattle.std.specs.Prelude.{◌≡◌, IfOk, OnOk};
ghost use Rattle.std.specs.Io.KnownBytes.{Appends};
ghost use Rattle.commands.specs.Audited.{audit_text, audit_status, code_text};

use crate::failure::Failure;
use audit_faults::{AuditFault, EntryFault, Followed, WatchFault};
use std::fmt;
use std::io::Write;

/// The line that tells what is said of the journals.
#[derive(Clone, Copy, Drop)]
pub struct AuditLine(pub Followed);

/// The name of a fault.
fn name_of(code: EntryFault) -> &'static str
    ensures { result.now ≡ code_text code }
{
    match code {
        EntryFault::Twice => "A1",
        EntryFault::Falls => "A2",
        EntryFault::NoSource => "A3",
        EntryFault::OtherState => "A4",
        EntryFault::GivenUp => "A5",
        EntryFault::Late => "A6",
        EntryFault::Illegal => "A7",
    }
}

impl fmt::Display for AuditLine {
    ghost use Rattle.std.specs.Prelude.{Some};
    ghost use Rattle.commands.specs.Audited.{audit_text};

    ghost output = { λ line. Some (audit_text line.0) };

    fn fmt<W: fmt::Write>(&self, f: &mut fmt::Formatter<W>) -> fmt::Result {
        match self.0 {
            Ok(()) => f.write_str("audit ok\n"),
            Err(WatchFault::Lost) => f.write_str("audit handed out\n"),
            Err(WatchFault::NoMemory | WatchFault::Found(AuditFault::NoMemory)) => f.write_str(
                "audit E1\n",
            ),
            Err(WatchFault::Found(AuditFault::Found { code, vnode, place })) => {
                let name = name_of(code);
                write!(f, "audit {name} {vnode} {place}\n")
            }
        }
    }
}

/// Tells what is said of the journals, and gives the status of the program: 0 where it is a yes, else 1.
pub fn tell<O: Write>(audited: Followed, out: &mut O) -> Result<u8, Failure>
    ensures told { OnOk result (Appends (O.contents out.old) (O.contents out.new) (audit_text audited)) }
    ensures status { IfOk result (λ status. status ≡ audit_status audited) }
{
    let line = AuditLine(audited);
    write!(out, "{line}")?;
    Ok(match audited {
        Ok(()) => 0,
        Err(_) => 1,
    })
}
