//! The version of the program, and of what it writes.
ghost use Rattle.std.specs.Prelude.{◌≡◌, IfOk, OnOk};
ghost use Rattle.std.specs.Io.KnownBytes.{Appends};
ghost use Rattle.commands.specs.Version.{version_text};

use crate::failure::Failure;
use std::io::Write;

/// The program's version, the word before the number of a folder's last start, the marks of records, and the logic of the toolchain that
/// proves it, as `rt version` names it.
const VERSION: &[u8] = b"\
dvvstore 0.9.0\n\
folder number\n\
records DVR1 DVR2\n\
toolchain rattle logic dac8208d650f15bf\n";

/// Prints the version of the program and of what it writes, a line each, and gives the status, which is 0.
pub fn version<O: Write>(out: &mut O) -> Result<u8, Failure>
    ensures told { OnOk result (Appends (O.contents out.old) (O.contents out.new) version_text) }
    ensures status { IfOk result (λ status. status ≡ 0) }
{
    out.write_all(VERSION)?;
    Ok(0)
}
