//! The command `load FILE INCARNATION SCRIPT`.
ghost use Rattle.std.specs.Prelude.{◌≡◌, ◌≤◌, ◌++◌, List, ℕ, IfOk, codes, decimal};
ghost use Rattle.std.specs.Io.KnownBytes.{Appends};
ghost use Rattle.commands.specs.Dumped.{Loads, LoadedFile};
ghost use Rattle.commands.specs.Outcome.{line};
ghost use Rattle.record_codec.specs.Lists.{AreSpelledBy};

use crate::failure::Failure;
use crate::files::{Files, Paths};
use crate::records::{fault_number, name_incarnation};
use crate::simulate::FileImages;
use crate::streams::Streams;
use bpf_helpers::Table;
use record_codec::{Record, Unread, records_in};
use script_events::Images;
use script_replies::refusal_number;
use script_run::run_from;
use std::alloc::Global;
use std::io::Write;
use world::BeginFault;

/// Records, and the incarnation under which they are loaded.
#[derive(Clone, Copy)]
struct Loaded<'a> {
    records: &'a [Record],
    incarnation: u16,
}

/// Loads the records of the file of the paths into the first of the vnodes, all of which begin under an incarnation, and runs the script
/// of the paths then. Tells on `out` how many records there were and what the script's lines print, and on `err` why a line is bad, and
/// gives the status. Nothing is run where a record has a fault or is refused, and which one is told. That the records name the incarnation,
/// so that a put may take the identifier of a write that they tell of, is told on `err` beforehand.
pub fn load<F: Files, O: Write, E: Write>(
    alloc: Global,
    table: &Table,
    paths: Paths<'_>,
    incarnation: u16,
    files: &F,
    streams: &mut Streams<O, E>,
) -> Result<u8, Failure>
    ensures status { IfOk result (λ status. status ≤ 2) }
    ensures loaded { IfOk result (LoadedFile table.now.listed incarnation (F.held files.now paths.entry.file.now) (F.held files.now paths.entry.script.now) (O.contents streams.old.out) (O.contents streams.new.out)) }
{
    let bytes = files.read(alloc, paths.file)?;
    let script = files.read(alloc, paths.script)?;
    let images = FileImages {
        files,
        sigs: &table.listed,
    };
    match records_in(alloc, &bytes, &[]) {
        Ok(records) => {
            let loaded = Loaded {
                records: &records,
                incarnation,
            };
            run_loaded(alloc, table, loaded, &script, &images, streams)
        }
        Err(Unread::Faulty { place, fault }) => {
            tell_refused(fault_number(fault), place, &mut streams.out)
        }
        Err(Unread::NoMemory) => {
            streams.out.write_all(b"E1\n")?;
            Ok(1)
        }
    }
}

/// Tells why a record isn't taken, and which, by its number from 0. The status is 1.
fn tell_refused<O: Write>(why: &str, place: usize, out: &mut O) -> Result<u8, Failure>
    ensures status { IfOk result (λ status. status ≡ 1) }
    ensures told { IfOk result (λ _. Appends (O.contents out.old) (O.contents out.new) (line (codes "refused " ++ why.now ++ codes " " ++ decimal place))) }
{
    write!(out, "refused {why} {place}\n")?;
    Ok(1)
}

/// Tells where records name the incarnation of the vnode that begins with them. What can't be told is lost: the lines run as they do.
fn warn_of_names<E: Write>(records: &[Record], incarnation: u16, err: &mut E) {
    if name_incarnation(records, incarnation) {
        let _ = writeln!(
            err,
            "the records name incarnation {incarnation}: a put may take the identifier of another write"
        );
    }
}

/// Runs a script whose first vnode begins with records.
fn run_loaded<I: Images, O: Write, E: Write>(
    alloc: Global,
    table: &Table,
    loaded: Loaded<'_>,
    script: &[u8],
    images: &I,
    streams: &mut Streams<O, E>,
) -> Result<u8, Failure>
    requires { table.now.listed ≡ I.listed images.now }
    ensures status { IfOk result (λ status. status ≤ 2) }
    ensures loaded { (bytes : List ℕ) → AreSpelledBy loaded.entry.records.now bytes → IfOk result (Loads table.now.listed bytes loaded.entry.incarnation script.now (O.contents streams.old.out) (O.contents streams.new.out)) }
{
    let Loaded {
        records,
        incarnation,
    } = loaded;
    warn_of_names(records, incarnation, &mut streams.err);
    match run_from(alloc, script, incarnation, records, table, images) {
        Ok((text, why)) => {
            let count = records.len();
            write!(streams.out, "loaded {count}\n{text}")?;
            match why {
                None => Ok(0),
                Some(why) => {
                    // A reason that can't be told leaves the output alone to tell of the line.
                    let _ = writeln!(streams.err, "{why}");
                    Ok(2)
                }
            }
        }
        Err(BeginFault::Record { place, fault }) => {
            tell_refused(refusal_number(fault), place, &mut streams.out)
        }
        Err(BeginFault::NoMemory) => {
            streams.out.write_all(b"E1\n")?;
            Ok(1)
        }
    }
}
