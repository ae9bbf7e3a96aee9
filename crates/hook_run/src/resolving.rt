//! What a resolver makes of the siblings of a key, and the content that is then put.

ghost use Rattle.std.specs.Prelude.{◌≡◌, IfErr, IfOk, MatchResult, OnErr, OnOk, Ok, Err};
ghost use Rattle.std.specs.Option.{option_copied};
ghost use Rattle.hook_abi.specs.Verdicts.{meaning_of};
ghost use Rattle.bpf_helpers.specs.Closures.{calls_told};
ghost use Rattle.hook_run.specs.Resolving.{IsResolution, IsResolutionBy, IsUnresolved, IsWritten, WritesValue, chosen_by, resolution_of};
ghost use Rattle.hook_run.specs.Rooms.{HasRoomFor, IsKept, grown};

use crate::deciding::{Room, RunFault, decide};
use bpf_helpers::{Closures, Table};
use bpf_verifier::Verified;
use hook_abi::{BadAnswer, Verdict, octet_stream};
use key_state::{Content, Sibling};
use std::alloc::{AllocError, Global};

/// What a resolver made of siblings.
#[derive(Drop)]
pub enum Resolution {
    /// The siblings stay as they are.
    Keep,
    /// The content of the sibling at this place, from 0, is to be put.
    Take(u32),
    /// This value, of the media type `application/octet-stream`, is to be put.
    Write(Content),
    /// A tombstone is to be put.
    Delete,
    /// Nothing: there are over 64 siblings, or its input window is too short for them.
    TooLarge,
    /// Nothing: its answer has no meaning.
    Bad(BadAnswer),
}

/// Why a resolver came to nothing.
#[derive(Clone, Copy, PartialEq, Eq, Drop)]
pub enum Unresolved {
    /// The table doesn't have each helper that the program was verified with, under the same Sig.
    Disagrees,
    /// Memory ran out, for the windows or for the value that it wrote.
    NoMemory,
}

impl Resolution {
    /// The content that is to be put, if any: that of the sibling taken, the value written, or a tombstone, which the caller lends.
    /// Nothing is copied.
    pub fn chosen<'a>(
        &'a self,
        siblings: &'a [Sibling],
        tombstone: &'a Content,
    ) -> Option<&'a Content>
        requires { tombstone.now ≡ Content.Tombstone }
        ensures { option_copied result ≡ chosen_by self.now siblings.now }
    {
        match self {
            Resolution::Take(place) => siblings.get(*place as usize).map(|s| &s.content),
            Resolution::Write(content) => Some(content),
            Resolution::Delete => Some(tombstone),
            Resolution::Keep | Resolution::TooLarge | Resolution::Bad(_) => None,
        }
    }
}

/// Runs a hook as the resolver of siblings. A hook of another kind, whose verdicts are others, keeps them.
///
/// `Disagrees` where the table lacks a helper of the hook; `NoMemory` where a window could not grow, or the value that the hook
/// wrote could not be kept, and so in a room that fits the hook only where it wrote one. Nothing is copied but that value. No
/// window shrinks, and the room of a resolution, `TooLarge` and `Bad` among them, fits the hook from then on: its windows have grown
/// to the hook's where they were shorter, and no further. At `Disagrees` the room is as it was; at `NoMemory` each window is, or has
/// grown to the hook's.
pub fn resolve(
    alloc: Global,
    room: &mut Room,
    hook: &Verified,
    table: &Table,
    siblings: &[Sibling],
) -> Result<Resolution, Unresolved>
    ensures resolution { MatchResult result (IsResolution table.now.listed hook.now siblings.now) (IsUnresolved table.now.listed hook.now siblings.now) }
    ensures told { let calls = calls_told (⟦<Table as Closures>⟧.tells table.now) hook.now.sigs in MatchResult result (IsResolutionBy calls table.now.listed hook.now siblings.now) (IsUnresolved table.now.listed hook.now siblings.now) }
    ensures enough { HasRoomFor room.old hook.now → IfErr result (λ unresolved. unresolved ≡ Unresolved.NoMemory → WritesValue table.now.listed hook.now siblings.now) }
    ensures kept { IsKept room.old room.new }
    ensures fits { OnOk result (HasRoomFor room.new hook.now) }
    ensures grown { OnOk result (room.new ≡ grown room.old hook.now) }
    ensures disagrees { IfErr result (λ unresolved. unresolved ≡ Unresolved.Disagrees → room.new ≡ room.old) }
{
    match decide(room, hook, table, None, siblings) {
        Ok(verdict) => match resolved(alloc, verdict) {
            Ok(resolution) => Ok(resolution),
            Err(_) => Err(Unresolved::NoMemory),
        },
        Err(fault) => undecided(fault),
    }
}

/// What a verdict comes to. Refused for want of memory alone.
fn resolved(alloc: Global, verdict: Verdict) -> Result<Resolution, AllocError>
    ensures resolution { IfOk result (λ resolution. resolution_of (Ok (meaning_of verdict.entry)) ≡ Ok resolution) }
    ensures wrote { OnErr result (IsWritten (meaning_of verdict.entry)) }
{
    match verdict {
        Verdict::Take(place) => Ok(Resolution::Take(place)),
        Verdict::Write(bytes) => Ok(Resolution::Write(octet_stream(alloc, bytes)?)),
        Verdict::Delete => Ok(Resolution::Delete),
        Verdict::Pass | Verdict::Reject(_) | Verdict::Keep => Ok(Resolution::Keep),
    }
}

/// What it comes to where there is no verdict.
fn undecided(fault: RunFault) -> Result<Resolution, Unresolved>
    ensures { result ≡ resolution_of (Err fault) }
{
    match fault {
        RunFault::Disagrees => Err(Unresolved::Disagrees),
        RunFault::TooLarge => Ok(Resolution::TooLarge),
        RunFault::Bad(bad) => Ok(Resolution::Bad(bad)),
        RunFault::NoMemory => Err(Unresolved::NoMemory),
    }
}
