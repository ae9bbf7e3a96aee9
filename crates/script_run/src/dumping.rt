//! Scripts behind whose lines a vnode is dumped.

ghost use Rattle.std.specs.Prelude.{◌≡◌, ◌<◌, IfOk, string_bytes};
ghost use Rattle.script_events.specs.Scripts.{IsRunnable};
ghost use Rattle.script_run.specs.Dumping.{Dumps, DumpsBehind};

use crate::printing::{print_answers, text_of};
use bpf_helpers::Table;
use script_events::{BadAt, Images, Script, parse};
use script_lines::BadLine;
use std::alloc::{AllocError, Global};
use std::fmt::Write as _;
use world::{Event, World};

/// What comes of a dump behind a script's lines.
#[derive(Drop)]
pub enum Dumping<'a> {
    /// All lines were done, and then the dump, which had the last reply of this run.
    Done(World),
    /// All lines were done, and the script has no such vnode.
    NoVnode,
    /// A line is bad. Those before it were done.
    BadLine(BadLine<'a>),
}

/// Runs a script, and a dump of a vnode behind its lines. Gives what the lines print, as [`sim`](crate::sim) prints it, and what comes of
/// the dump, for which nothing is printed. There is no dump behind a bad line, nor of a vnode that the script doesn't have. The error is
/// want of memory for the script as a whole.
pub fn run_and_dump<'a, I: Images>(
    alloc: Global,
    bytes: &'a [u8],
    vnode: usize,
    table: &Table,
    images: &I,
) -> Result<(String, Dumping<'a>), AllocError>
    requires { table.now.listed ≡ I.listed images.now }
    ensures { IfOk result (λ done. Dumps (I.listed images.now) bytes.now vnode (string_bytes done.0) done.1) }
{
    let (script, bad) = parse(alloc, bytes, images)?;
    if let Some(BadAt { line, why }) = bad {
        let mut text = text_of(alloc, table, &script)?;
        writeln!(text, "bad line {line}")?;
        return Ok((text, Dumping::BadLine(why)));
    }
    if vnode >= script.vnodes {
        return Ok((text_of(alloc, table, &script)?, Dumping::NoVnode));
    }
    let (text, world) = ran_with_dump(alloc, table, script, vnode)?;
    Ok((text, Dumping::Done(world)))
}

// Runs the events of a script and a dump behind them. Gives what the script's lines print, and the run.
fn ran_with_dump(
    alloc: Global,
    table: &Table,
    script: Script,
    vnode: usize,
) -> Result<(String, World), AllocError>
    requires runnable { IsRunnable table.now.listed script }
    requires within { vnode < script.vnodes }
    ensures { IfOk result (λ done. DumpsBehind table.now.listed script vnode (string_bytes done.0) done.1) }
{
    let mut events = script.events;
    events.push(Event::Dump { vnode })?;
    let world = World::run(alloc, script.vnodes, table, &events)?;
    let Some((_, told)) = world.replies().split_last() else {
        unreachable!();
    };
    let text = print_answers(alloc, table, &script.answered, told)?;
    Ok((text, world))
}
