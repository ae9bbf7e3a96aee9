//! The command `dump FILE SCRIPT V`.
ghost use Rattle.std.specs.Prelude.{◌≡◌, ◌++◌, ◌∷◌, [], ◌<◌, ◌≤◌, List, ℕ, IfOk, Option, string_bytes};
ghost use Rattle.script_run.specs.Dumping.{IsDumpReply};
ghost use Rattle.world.specs.declared.event.Reply.{Reply as OneReply};
ghost use Rattle.commands.specs.Dumped.{Dumps, DumpedFile, EndsWith, Wrote, WroteCopies};

use crate::failure::Failure;
use crate::files::{Files, Paths};
use crate::records::spelled;
use crate::simulate::FileImages;
use crate::streams::Streams;
use bpf_helpers::Table;
use record_codec::Unspelled;
use script_replies::refusal_number;
use script_run::{Dumping, run_and_dump};
use std::alloc::Global;
use std::io::Write;
use world::{Copies, Reply};

/// Runs the script of the paths, tells on `out` what its lines print and on `err` why a line is bad, and then makes the file of the paths
/// hold the records of what the vnode at an index knows. Gives the status. No file is written behind a bad line, nor where the dump is
/// refused, which is told on `out`.
pub fn dump<F: Files, O: Write, E: Write>(
    alloc: Global,
    table: &Table,
    paths: Paths<'_>,
    vnode: u32,
    files: &mut F,
    streams: &mut Streams<O, E>,
) -> Result<u8, Failure>
    ensures status { IfOk result (λ status. status ≤ 2) }
    ensures dumped { IfOk result (DumpedFile table.now.listed vnode (F.held files.old paths.entry.script.now) (F.held files.new paths.entry.file.now) (O.contents streams.old.out) (O.contents streams.new.out)) }
    ensures unwritten { IfOk result (λ status. 0 < status → files.new ≡ files.old) }
{
    let script = files.read(alloc, paths.script)?;
    let images = FileImages {
        files: &*files,
        sigs: &table.listed,
    };
    let Ok((text, dumping)) = run_and_dump(alloc, &script, vnode as usize, table, &images) else {
        streams.out.write_all(b"E1\n")?;
        return Ok(1);
    };
    streams.out.write_all(text.as_bytes())?;
    match dumping {
        Dumping::Done(world) => {
            write_last(alloc, paths.file, world.replies(), files, &mut streams.out)
        },
        Dumping::NoVnode => Err(Failure::Usage),
        Dumping::BadLine(why) => {
            // A reason that can't be told leaves the output alone to tell of the line.
            let _ = writeln!(streams.err, "{why}");
            Ok(2)
        }
    }
}

/// Makes a file hold the records of the dump with whose reply these end, or tells why it has none. Gives the status.
fn write_last<F: Files, O: Write>(
    alloc: Global,
    file: &str,
    replies: &[Reply],
    files: &mut F,
    out: &mut O,
) -> Result<u8, Failure>
    requires { (last : OneReply) × IsDumpReply last × EndsWith replies.now last }
    ensures wrote { IfOk result (Wrote replies.now (F.held files.new file.now) (O.contents out.old) (O.contents out.new)) }
    ensures unwritten { IfOk result (λ status. 0 < status → files.new ≡ files.old) }
{
    let Some((last, _)) = replies.split_last() else {
        unreachable!();
    };
    match last {
        Reply::Dumped(copies) => write_copies(alloc, file, copies, files, out),
        Reply::Refused(refusal) => {
            let number = refusal_number(*refusal);
            write!(out, "{number}\n")?;
            Ok(1)
        }
        _ => unreachable!(),
    }
}

/// Makes a file hold the records of copies. Gives the status.
fn write_copies<F: Files, O: Write>(
    alloc: Global,
    file: &str,
    copies: &Copies,
    files: &mut F,
    out: &mut O,
) -> Result<u8, Failure>
    ensures wrote { IfOk result (WroteCopies copies.now (F.held files.new file.now) (O.contents out.old) (O.contents out.new)) }
    ensures unwritten { IfOk result (λ status. 0 < status → files.new ≡ files.old) }
{
    match spelled(alloc, copies) {
        Ok(bytes) => {
            files.write(file, &bytes)?;
            Ok(0)
        }
        Err(Unspelled::PastLimit) => Err(Failure::Unreadable),
        Err(Unspelled::NoMemory) => {
            out.write_all(b"E1\n")?;
            Ok(1)
        }
    }
}
