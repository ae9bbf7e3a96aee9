//! The commands, in a line each.
ghost use Rattle.std.specs.Prelude.{◌≡◌, IfOk, OnOk};
ghost use Rattle.std.specs.Io.KnownBytes.{Appends};
ghost use Rattle.commands.specs.Help.{help_text};

use crate::failure::Failure;
use std::io::Write;

/// The commands with their words, and what each does.
const COMMANDS: &[u8] = b"\
dvvstore run IMAGE INPUT                         verifies a program and runs it on the bytes of a file\n\
dvvstore verify IMAGE                            says whether a program is accepted, or by which rule it is not\n\
dvvstore explain IMAGE                           says what is known where a rule is broken, or of an accepted program's answers\n\
dvvstore sim SCRIPT                              runs a script over simulated vnodes\n\
dvvstore dump FILE SCRIPT V                      runs a script, and writes what vnode V knows then into FILE\n\
dvvstore load FILE INCARNATION SCRIPT            runs a script whose vnode 0 begins with the records of FILE\n\
dvvstore serve ADDR WORKERS [COUNT] [copies N]   serves a store over HTTP: 1 to 16 workers, COUNT connections or no end, 1 to 3 copies\n\
dvvstore keep FOLDER ADDR WORKERS [COUNT]        serves a store in the same way, and keeps what it holds in FOLDER\n\
dvvstore help                                    prints these lines\n\
dvvstore version                                 prints the version of the program, of what it writes, and of its toolchain\n";

/// Prints the commands, a line each, and gives the status, which is 0.
pub fn help<O: Write>(out: &mut O) -> Result<u8, Failure>
    ensures told { OnOk result (Appends (O.contents out.old) (O.contents out.new) help_text) }
    ensures status { IfOk result (λ status. status ≡ 0) }
{
    out.write_all(COMMANDS)?;
    Ok(0)
}
