//! Scripts whose first vnode has merged records before the first line.

ghost use Rattle.std.specs.Prelude.{◌≡◌, ◌∷◌, [], IfErr, IfOk, MatchOption, string_bytes};
ghost use Rattle.script_events.specs.Scripts.{IsRunnableFrom};
ghost use Rattle.script_run.specs.Loading.{PrintsAllFrom, PrintsFrom, PrintsUpToFrom};
ghost use Rattle.world.specs.Beginning.{RefusesRecords};
ghost use Rattle.world.specs.Knowledge.{id_under};

use crate::printing::print_answers;
use bpf_helpers::Table;
use record_codec::Record;
use script_events::{BadAt, Images, Script, parse_from};
use script_lines::BadLine;
use std::alloc::Global;
use std::fmt::Write as _;
use world::record_laws::dumps_begin;
use world::{BeginFault, World};

/// Runs a script over vnodes that begin under an incarnation, the first of which has merged the records. Gives what the lines print, as
/// [`sim`](crate::sim) prints it, and why the bad line is bad, if one is; a load under this incarnation is, as is one under 0. There is one
/// vnode where the script has none. The error is the refusal of a record, before any line is done, or want of memory.
pub fn run_from<'a, I: Images>(
    alloc: Global,
    bytes: &'a [u8],
    incarnation: u16,
    records: &[Record],
    table: &Table,
    images: &I,
) -> Result<(String, Option<BadLine<'a>>), BeginFault>
    requires { table.now.listed ≡ I.listed images.now }
    ensures printed { IfOk result (λ printed. MatchOption printed.1 (PrintsAllFrom (I.listed images.now) incarnation records.now bytes.now (string_bytes printed.0)) (λ _. PrintsUpToFrom (I.listed images.now) incarnation records.now bytes.now (string_bytes printed.0))) }
    ensures refused { IfErr result (RefusesRecords (id_under incarnation 0) records.now) }
{
    let (script, bad) = parse_from(alloc, &[0, incarnation], bytes, images)?;
    let mut text = text_from(alloc, incarnation, records, table, &script)?;
    match bad {
        Some(BadAt { line, why }) => {
            writeln!(text, "bad line {line}")?;
            Ok((text, Some(why)))
        }
        None => Ok((text, None)),
    }
}

// What the lines of a script print over the replies of a run of its events.
fn text_from(
    alloc: Global,
    incarnation: u16,
    records: &[Record],
    table: &Table,
    script: &Script,
) -> Result<String, BeginFault>
    requires { IsRunnableFrom (0 ∷ incarnation ∷ []) table.now.listed script.now }
    ensures printed { IfOk result (λ text. PrintsFrom table.now.listed incarnation records.now script.now (string_bytes text)) }
    ensures refused { IfErr result (RefusesRecords (id_under incarnation 0) records.now) }
{
    dumps_begin();
    let vnodes = script.vnodes.max(1);
    let world = World::run_from(alloc, vnodes, incarnation, records, table, &script.events)?;
    Ok(print_answers(alloc, table, &script.answered, world.replies())?)
}
