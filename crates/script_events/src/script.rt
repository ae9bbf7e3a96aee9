//! Whole scripts.

ghost use Rattle.std.specs.Prelude.{◌≡◌, ◌+◌, ◌<◌, ℕ, false, List, Some, IfOk, OnOk, MatchOption};
ghost use Rattle.bpf_helpers.specs.declared.sig.Entry.{Entry};
ghost use Rattle.script_lines.specs.Lines.{lines_in};
ghost use Rattle.script_events.specs.Scripts.{IsRunnable, IsRunnableFrom, IsOneMore, tells_event, lines_of, AnswersFor, AnswersUpTo};
ghost use Rattle.script_events.specs.Asking.{AreAnsweredBy, AreAnsweredUpTo, IsToldMore};
ghost use Rattle.world.specs.declared.event.Event.{Event};

use crate::check::Check;
use crate::images::Images;
use crate::names::{Names, Places};
use crate::reading::Reader;
use bpf_admission::Refusal;
use context_token::TokenFault;
use script_lines::BadLine;
use std::alloc::{AllocError, Global};
use world::Event;

/// The most vnodes of a script.
pub const MAX_VNODES: usize = 255;

/// What a line that was read prints.
#[derive(Drop)]
pub enum Answered {
    /// The reply of the next event.
    Reply,
    /// What a hook says of a new content, beside the siblings that the next event finds.
    Checked(Check),
    /// The refusal of its token.
    Refused(TokenFault),
    /// The refusal of its image.
    NotLetIn(Refusal),
    /// That there is nothing to be written.
    Nothing,
}

/// A script: its events, and what its lines print, in order.
#[derive(Drop)]
pub struct Script {
    pub vnodes: usize,
    pub events: Vec<Event>,
    pub answered: Vec<Answered>,
}

/// A line that may not stand where it stands, by its number from 1, and why.
#[derive(Clone, Copy)]
pub struct BadAt<'a> {
    pub line: usize,
    pub why: BadLine<'a>,
}

/// The script that these bytes spell, up to its first bad line, and that line. Nothing behind it was read. A line whose file
/// can't be read is bad. Each vnode begins under incarnation 0.
pub fn parse<'a, I: Images>(
    alloc: Global,
    bytes: &'a [u8],
    images: &I,
) -> Result<(Script, Option<BadAt<'a>>), AllocError>
    ensures runnable { IfOk result (λ parsed. IsRunnable (I.listed images.now) parsed.0) }
    ensures read { IfOk result (λ parsed. MatchOption parsed.1 (AnswersFor parsed.0 (lines_in bytes.now)) (λ bad. AnswersUpTo parsed.0 bytes.now bad.line)) }
    ensures asked { IfOk result (λ parsed. MatchOption parsed.1 (AreAnsweredBy (I.found images.now) parsed.0 (lines_in bytes.now)) (λ bad. AreAnsweredUpTo (I.found images.now) parsed.0 bytes.now bad.line)) }
{
    parse_from(alloc, &[0], bytes, images)
}

/// The same, where these incarnations are in use at each index from the start on: a load under one of them is a bad line.
pub fn parse_from<'a, I: Images>(
    alloc: Global,
    used: &[u16],
    bytes: &'a [u8],
    images: &I,
) -> Result<(Script, Option<BadAt<'a>>), AllocError>
    ensures runnable { IfOk result (λ parsed. IsRunnableFrom used.now (I.listed images.now) parsed.0) }
    ensures read { IfOk result (λ parsed. MatchOption parsed.1 (AnswersFor parsed.0 (lines_in bytes.now)) (λ bad. AnswersUpTo parsed.0 bytes.now bad.line)) }
    ensures asked { IfOk result (λ parsed. MatchOption parsed.1 (AreAnsweredBy (I.found images.now) parsed.0 (lines_in bytes.now)) (λ bad. AreAnsweredUpTo (I.found images.now) parsed.0 bytes.now bad.line)) }
{
    let mut reader = Reader {
        alloc,
        script: Script {
            vnodes: 0,
            events: Vec::new(alloc),
            answered: Vec::new(alloc),
        },
        names: Names {
            events: Places::new(alloc),
            runs: Places::new(alloc),
        },
    };
    let bad = match reader.read_lines(used, images, bytes)? {
        Some((number, why)) => Some(BadAt { line: number, why }),
        None => None,
    };
    Ok((reader.script, bad))
}

/// Adds an event that may come.
pub(crate) fn push(script: &mut Script, event: Event) -> Result<(), AllocError>
    ensures more { OnOk result (IsOneMore script.old event Answered.Reply script.new) }
    ensures answers { OnOk result (lines_of script.new ≡ lines_of script.old + 1) }
{
    push_answered(script, event, Answered::Reply)
}

/// Adds an event that may come, and what its line prints.
pub(crate) fn push_answered(
    script: &mut Script,
    event: Event,
    answered: Answered,
) -> Result<(), AllocError>
    ensures more { OnOk result (IsOneMore script.old event answered script.new) }
    ensures answers { OnOk result (lines_of script.new ≡ lines_of script.old + 1) }
{
    script.events.push(event)?;
    script.answered.push(answered)?;
    Ok(())
}

/// Adds what a line prints that tells of no event.
pub(crate) fn push_told(script: &mut Script, answered: Answered) -> Result<(), AllocError>
    requires { tells_event answered ≡ false }
    ensures told { OnOk result (IsToldMore script.old answered script.new) }
    ensures runnable { (used : List ℕ) (listed : List Entry) → IsRunnableFrom used listed script.old → OnOk result (IsRunnableFrom used listed script.new) }
    ensures answers { OnOk result (lines_of script.new ≡ lines_of script.old + 1) }
{
    script.answered.push(answered)?;
    Ok(())
}
