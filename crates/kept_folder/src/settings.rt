//! What who runs a store has written into its folder.

ghost use Rattle.std.specs.Prelude.{◌≡◌, ◌≤◌, ◌<◌, ◌++◌, ◌∷◌, List, [], IfOk, IfSome, IsTrue, None, Some, length, unwrap_or};
ghost use Rattle.std.specs.List.{flat_map};
ghost use Rattle.kept_folder.specs.declared.settings.Line.{Line as OneLine};
ghost use Rattle.kept_folder.specs.Settings.{IsSetBy, MayStand, Says, sync_or, text_of};

use crate::limits::SNAPSHOT_INTERVAL_S;
use crate::lines::{line_end, number_in};
use crate::names::{
    COPIES_WORD, NUMBER_WORD, SNAPSHOT_WORD, SYNC_ALWAYS, SYNC_EVERY_SECOND, SYNC_NEVER,
};
use kept_file::MAX_NUMBER;
use ring::MAX_COPIES;
use std::alloc::{AllocError, Global};

/// When what was written to the log is forced to the device.
#[derive(Clone, Copy, Debug, PartialEq, Eq)]
pub enum SyncPolicy {
    /// Before a write is acknowledged: what was acknowledged outlives a crash of the system.
    Always,
    /// Once a second: such a crash loses what was acknowledged in about the last second.
    EverySecond,
    /// When the system likes: such a crash loses what it hadn't written yet.
    Never,
}

/// What is set of a store that is kept.
#[derive(Clone, Copy, Debug, PartialEq, Eq)]
pub struct Settings {
    /// So many seconds after a snapshot the next one begins. Where it is 0 there are only those that are asked for.
    pub every: u32,
    /// A start's number is no less than this, which is at most 16,777,215.
    pub least: u32,
    /// So many copies of each key are wanted, 1 to 3.
    pub copies: u32,
    /// When the log is forced to the device. A process that is killed loses nothing of it in any case.
    pub sync: SyncPolicy,
}

/// What is set where nothing is written.
pub(crate) const USUAL: Settings = Settings {
    every: SNAPSHOT_INTERVAL_S,
    least: 0,
    copies: 1,
    sync: SyncPolicy::Always,
};

/// A line of what is set.
#[derive(Clone, Copy)]
pub(crate) enum Line {
    /// The seconds from a snapshot to the next.
    Snapshot(u32),
    /// The least number of a start.
    Number(u32),
    /// How many copies of each key are wanted.
    Copies(u32),
    /// When the log is forced.
    Sync(SyncPolicy),
}

/// What lines say: those of a kind once at most.
#[derive(Clone, Copy)]
struct Written {
    every: Option<u32>,
    least: Option<u32>,
    copies: Option<u32>,
    sync: Option<SyncPolicy>,
}

/// The settings that bytes are, if they are some: a line or more, each of another kind.
pub(crate) fn settings_in(alloc: Global, bytes: &[u8]) -> Result<Option<Settings>, AllocError>
    ensures { IfOk result (λ found. IfSome found (λ settings. IsSetBy (Some bytes.now) settings)) }
{
    if bytes.is_empty() {
        return Ok(None);
    }
    match written_in(alloc, bytes)? {
        Some(written) => Ok(Some(written.settings())),
        None => Ok(None),
    }
}

/// What the lines say that bytes are, if they are lines of different kinds.
fn written_in(alloc: Global, bytes: &[u8]) -> Result<Option<Written>, AllocError>
    ensures { IfOk result (λ found. IfSome found (λ written. (lines : List OneLine) × (bytes.now ≡ flat_map text_of lines) × Says lines written.every written.least written.copies written.sync)) }
{
    let mut written = Written {
        every: None,
        least: None,
        copies: None,
        sync: None,
    };
    let mut left = bytes;
    while !left.is_empty() {
        let (front, rest) = left.split_at(line_end(left));
        let Some(line) = line_in(alloc, front)? else {
            return Ok(None);
        };
        if !written.add(line) {
            return Ok(None);
        }
        left = rest;
    }
    Ok(Some(written))
}

/// The line that bytes are, if they are one.
fn line_in(alloc: Global, bytes: &[u8]) -> Result<Option<Line>, AllocError>
    ensures line { IfOk result (λ found. IfSome found (λ line. bytes.now ≡ text_of line)) }
    ensures right { IfOk result (λ found. IfSome found (λ line. MayStand line [])) }
{
    if let Some(every) = number_in(alloc, SNAPSHOT_WORD, bytes)? {
        return Ok(Some(Line::Snapshot(every)));
    }
    if let Some(copies) = number_in(alloc, COPIES_WORD, bytes)? {
        return Ok(copies_line(copies));
    }
    if let Some(sync) = policy_in(bytes) {
        return Ok(Some(Line::Sync(sync)));
    }
    match number_in(alloc, NUMBER_WORD, bytes)? {
        Some(least) if least <= MAX_NUMBER => Ok(Some(Line::Number(least))),
        _ => Ok(None),
    }
}

/// When the log is forced by a line that says it, if that is what bytes are.
fn policy_in(bytes: &[u8]) -> Option<SyncPolicy>
    ensures { IfSome result (λ sync. bytes.now ≡ text_of (Line.Sync sync)) }
{
    if bytes == SYNC_ALWAYS {
        Some(SyncPolicy::Always)
    } else if bytes == SYNC_EVERY_SECOND {
        Some(SyncPolicy::EverySecond)
    } else if bytes == SYNC_NEVER {
        Some(SyncPolicy::Never)
    } else {
        None
    }
}

/// The line that asks for so many copies, if there may be as many.
fn copies_line(copies: u32) -> Option<Line>
    ensures { IfSome result (λ line. (text_of line ≡ text_of (Line.Copies copies)) × MayStand line []) }
{
    if 0 < copies && copies <= MAX_COPIES {
        Some(Line::Copies(copies))
    } else {
        None
    }
}

impl Written {
    /// Adds what a line says. Whether it is the first of its kind; else nothing is to be done with what is written.
    fn add(&mut self, line: Line) -> bool
        ensures { (lines : List OneLine) → MayStand line [] → Says lines self.old.every self.old.least self.old.copies self.old.sync → IsTrue result
            → Says (lines ++ line ∷ []) self.new.every self.new.least self.new.copies self.new.sync }
    {
        match line {
            Line::Snapshot(every) => is_first(&mut self.every, every),
            Line::Number(least) => is_first(&mut self.least, least),
            Line::Copies(copies) => is_first(&mut self.copies, copies),
            Line::Sync(sync) => is_first(&mut self.sync, sync),
        }
    }

    /// What is set, with the usual where nothing is written.
    fn settings(self) -> Settings
        ensures every { result.every ≡ unwrap_or self.every 60 }
        ensures least { result.least ≡ unwrap_or self.least 0 }
        ensures copies { result.copies ≡ unwrap_or self.copies 1 }
        ensures sync { result.sync ≡ sync_or self.sync }
    {
        Settings {
            every: self.every.unwrap_or(USUAL.every),
            least: self.least.unwrap_or(USUAL.least),
            copies: self.copies.unwrap_or(USUAL.copies),
            sync: self.sync.unwrap_or(USUAL.sync),
        }
    }
}

/// Has a value stand where none does yet.
fn is_first<T: Copy>(known: &mut Option<T>, value: T) -> bool
    ensures { IsTrue result → (known.old ≡ None) × (known.new ≡ Some value) }
{
    if known.is_some() {
        return false;
    }
    *known = Some(value);
    true
}
