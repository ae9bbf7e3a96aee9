//! What a script prints.

ghost use Rattle.std.specs.Prelude.{◌≡◌, ◌<◌, ◌≤◌, ◌++◌, ℕ, true, List, length, count_by, string_bytes, IfOk, OnOk, MatchOption, Result as Outcome};
ghost use Rattle.hook_abi.specs.Verdicts.{Meaning};
ghost use Rattle.hook_run.specs.declared.deciding.RunFault.{RunFault};
ghost use Rattle.script_replies.specs.Texts.{decision_text};
ghost use Rattle.script_events.specs.Scripts.{IsRunnable, tells_event};
ghost use Rattle.script_run.specs.Printing.{Decides, AddsCheck, AddsLine, Tells, Prints, PrintsAll, PrintsUpTo, Simulated};

use bpf_helpers::Table;
use hook_run::{Room, decide};
use key_state::KeyState;
use script_events::{Answered, BadAt, Check, Images, Script, parse};
use script_lines::BadLine;
use script_replies::{print_reply, print_run_fault, print_verdict, token_fault_number};
use std::alloc::{AllocError, Global};
use std::fmt::Write as _;
use std::io;
use world::{Reply, World};

/// Runs a script and writes what its lines print. Gives the status: 0 where all lines were read, 2 where one is bad (what
/// the lines before it print is written, and then `bad line L`; why goes to `err`, one line), and 1 where memory was refused
/// for the script as a whole (`E1`).
///
/// The hooks come from `images` and call the helpers of `table`, which has those that the images were verified with.
///
/// What is written is what the lines that were read print over the replies of a run of their events, and these are as many as
/// ask for something; which line asks for which event is for tests to show.
pub fn sim<I: Images, O: io::Write, E: io::Write>(
    alloc: Global,
    script: &[u8],
    table: &Table,
    images: &I,
    out: &mut O,
    err: &mut E,
) -> io::Result<u8>
    requires { table.now.listed ≡ I.listed images.now }
    ensures status { IfOk result (λ status. status ≤ 2) }
    ensures simulated { IfOk result (Simulated (I.listed images.now) script.now (O.contents out.old) (O.contents out.new)) }
{
    let Ok((text, why)) = printed(alloc, script, table, images) else {
        out.write_all(b"E1\n")?;
        return Ok(1);
    };
    out.write_all(text.as_bytes())?;
    match why {
        None => Ok(0),
        Some(why) => {
            // A reason that can't be told leaves the output alone to tell of the line.
            let _ = writeln!(err, "{why}");
            Ok(2)
        }
    }
}

// What a script prints, and why its bad line is bad.
fn printed<'a, I: Images>(
    alloc: Global,
    bytes: &'a [u8],
    table: &Table,
    images: &I,
) -> Result<(String, Option<BadLine<'a>>), AllocError>
    requires { table.now.listed ≡ I.listed images.now }
    ensures { IfOk result (λ printed. MatchOption printed.1 (PrintsAll (I.listed images.now) bytes.now (string_bytes printed.0)) (λ _. PrintsUpTo (I.listed images.now) bytes.now (string_bytes printed.0))) }
{
    let (script, bad) = parse(alloc, bytes, images)?;
    let mut text = text_of(alloc, table, &script)?;
    match bad {
        Some(BadAt { line, why }) => {
            writeln!(text, "bad line {line}")?;
            Ok((text, Some(why)))
        }
        None => Ok((text, None)),
    }
}

// What the lines of a script print over the replies of a run of its events.
pub(crate) fn text_of(alloc: Global, table: &Table, script: &Script) -> Result<String, AllocError>
    requires { IsRunnable table.now.listed script.now }
    ensures { IfOk result (λ text. Prints table.now.listed script.now (string_bytes text)) }
{
    let world = World::run(alloc, script.vnodes, table, &script.events)?;
    print_answers(alloc, table, &script.answered, world.replies())
}

// What lines print over the replies of their events.
pub(crate) fn print_answers(
    alloc: Global,
    table: &Table,
    answered: &[Answered],
    replies: &[Reply],
) -> Result<String, AllocError>
    requires { count_by tells_event answered.now ≡ length replies.now }
    ensures { IfOk result (λ text. Tells table.now.listed answered.now replies.now (string_bytes text)) }
{
    let mut text = String::new(alloc);
    let mut room = Room::new(alloc);
    let mut left = replies;
    for answer in answered {
        left = print_answer(alloc, &mut room, table, answer, left, &mut text)?;
    }
    Ok(text)
}

// Prints what a line answered, and gives the replies that it leaves to the lines behind it.
fn print_answer<'a>(
    alloc: Global,
    room: &mut Room,
    table: &Table,
    answer: &Answered,
    replies: &'a [Reply],
    text: &mut String,
) -> Result<&'a [Reply], AllocError>
    requires { tells_event answer.now ≡ true → 0 < length replies.now }
    ensures { IfOk result (λ left. AddsLine table.now.listed answer.now replies.now left.now (string_bytes text.old) (string_bytes text.new)) }
{
    match answer {
        Answered::Refused(fault) => {
            let number = token_fault_number(*fault);
            writeln!(text, "{number}")?;
            Ok(replies)
        }
        Answered::NotLetIn(refusal) => {
            writeln!(text, "refused {refusal}")?;
            Ok(replies)
        }
        Answered::Nothing => {
            text.push_str("nothing\n")?;
            Ok(replies)
        }
        Answered::Reply => {
            print_reply(alloc, &replies[0], text)?;
            Ok(&replies[1..])
        }
        Answered::Checked(check) => {
            print_checked(alloc, room, table, check, &replies[0], text)?;
            Ok(&replies[1..])
        }
    }
}

// Prints what a check answered, over the reply of its get.
fn print_checked(
    alloc: Global,
    room: &mut Room,
    table: &Table,
    check: &Check,
    reply: &Reply,
    text: &mut String,
) -> Result<(), AllocError>
    ensures { OnOk result (AddsCheck table.now.listed check.now reply.now (string_bytes text.old) (string_bytes text.new)) }
{
    match reply {
        Reply::Found(state) => print_decision(alloc, room, table, check, state, text),
        reply => print_reply(alloc, reply, text),
    }
}

// Prints what a hook says of a new content beside the siblings of a state.
fn print_decision(
    alloc: Global,
    room: &mut Room,
    table: &Table,
    check: &Check,
    state: &KeyState,
    text: &mut String,
) -> Result<(), AllocError>
    ensures { OnOk result ((decided : Outcome Meaning RunFault) × Decides table.now.listed check.now state.now decided × (string_bytes text.new ≡ string_bytes text.old ++ decision_text decided)) }
{
    match decide(
        room,
        check.hook.program(),
        table,
        Some(&check.new),
        state.siblings(),
    ) {
        Ok(verdict) => print_verdict(alloc, &verdict, text),
        Err(fault) => print_run_fault(fault, text),
    }
}
