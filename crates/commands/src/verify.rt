//! The command `verify IMAGE`.
ghost use Rattle.std.specs.Prelude.{IfOk};
ghost use Rattle.commands.specs.Command.{Judged};
ghost use Rattle.commands.specs.Verdict.{IsVerdict};

use crate::failure::Failure;
use crate::files::{Files, read_program};
use bpf_admission::{Refusal, admit_program};
use bpf_helpers::Table;
use std::alloc::Global;
use std::fmt;
use std::io::Write;

/// What the verifier says of a program.
#[derive(Clone, Copy)]
pub enum Verdict {
    /// It is let in, and has so many slots.
    Accepted(u32),
    /// It is not.
    Refused(Refusal),
}

impl Verdict {
    ghost use Rattle.std.specs.Prelude.{◌≡◌};
    ghost use Rattle.commands.specs.Verdict.{verdict_status};

    /// The status of the program: 0 where the program is let in, else 1.
    pub fn status(&self) -> u8
        ensures { result ≡ verdict_status self.now }
    {
        match self {
            Verdict::Accepted(_) => 0,
            Verdict::Refused(_) => 1,
        }
    }
}

impl fmt::Display for Verdict {
    ghost use Rattle.std.specs.Prelude.{Some};
    ghost use Rattle.commands.specs.Verdict.{verdict_text};

    ghost output = { λ verdict. Some (verdict_text verdict) };

    fn fmt<W: fmt::Write>(&self, f: &mut fmt::Formatter<W>) -> fmt::Result {
        match self {
            Verdict::Accepted(slots) => write!(f, "accepted {slots}\n"),
            Verdict::Refused(refusal) => write!(f, "refused {refusal}\n"),
        }
    }
}

/// The verdict on the program of these bytes, which may call the table's helpers.
pub fn verdict_on(alloc: Global, table: &Table, bytes: &[u8]) -> Verdict
    ensures { IsVerdict table.now.listed bytes.now result }
{
    match admit_program(alloc, bytes, &table.listed) {
        Ok(verified) => Verdict::Accepted(verified.image().code.len() as u32),
        Err(refusal) => Verdict::Refused(refusal),
    }
}

/// Tells on `out` the verdict on the program in the file `image`, and gives the status.
pub fn verify<F: Files, O: Write>(
    alloc: Global,
    table: &Table,
    image: &str,
    files: &F,
    out: &mut O,
) -> Result<u8, Failure>
    ensures { IfOk result (Judged table.now.listed (F.held files.now image.now) (O.contents out.old) (O.contents out.new)) }
{
    let image = read_program(files, alloc, image)?;
    let verdict = verdict_on(alloc, table, &image);
    write!(out, "{verdict}")?;
    Ok(verdict.status())
}
