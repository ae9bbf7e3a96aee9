//! What a bucket's hooks make of the siblings of a key.

ghost use Rattle.std.specs.Prelude.{◌≡◌, ◌↔◌, List, Option, Some, None, Result, Ok, Err, IfOk, IsTrue, MatchResult};
ghost use Rattle.key_state.specs.State.{kept};
ghost use Rattle.hook_abi.specs.Verdicts.{Meaning, meaning_of};
ghost use Rattle.hook_run.specs.declared.deciding.RunFault.{RunFault as Failure};
ghost use Rattle.hook_run.specs.Decisions.{IsDecision};
ghost use Rattle.hook_run.specs.Resolving.{IsResolution, IsUnresolved};
ghost use Rattle.hook_registry.specs.Tables.{programs_of};
ghost use Rattle.quorum.specs.Judged.{IsRuling, Judges, or_same, rewritten};

use crate::fault::QuorumFault;
use bpf_helpers::Table;
use bpf_image::ImageKind;
use bpf_verifier::Verified;
use dvv::Clock;
use hook_abi::{BadAnswer, Verdict, octet_stream};
use hook_registry::{Hooks, NotSeen};
use hook_run::{Resolution, Room, Unresolved, decide};
use key_state::{Bytes, Content, Key, Sibling};
use std::alloc::{AllocError, Global};
use std::sync::Arc;

/// What the hooks of buckets are found and run with.
#[derive(Drop)]
pub struct Hooking<H> {
    /// Where they are looked up.
    pub hooks: H,
    /// The helpers that they may call.
    pub table: Table,
    room: Room,
    alloc: Global,
}

/// The program that is bound to the bucket of a key and a kind.
pub(crate) fn hook_of<H: Hooks>(
    hooks: &mut H,
    key: &Key,
    kind: ImageKind,
) -> Result<Option<Arc<Verified>>, NotSeen>
    ensures { H.finds hooks.old key.now.bucket kind (programs_of result) hooks.new }
{
    hooks.hook_of(key.bucket(), kind)
}

impl<H> Hooking<H> {
    /// Hooks that are looked up here and run with this table.
    pub fn new(alloc: Global, hooks: H, table: Table) -> Hooking<H>
        ensures hooks { result.hooks ≡ hooks }
        ensures table { result.table ≡ table }
    {
        Hooking {
            hooks,
            table,
            room: Room::new(alloc),
            alloc,
        }
    }

    // What a pre-commit hook makes of a new content beside the coordinator's siblings: the content that it changed, or none
    // where it passes as it is. Where not all siblings fit its input window, it is shown those alone that the writer hadn't seen: what
    // others put at once locks no key for a write that has seen it.
    pub(crate) fn judge(
        &mut self,
        hook: &Verified,
        content: &Content,
        seen: &Clock,
        siblings: &[Sibling],
    ) -> Result<Option<Content>, QuorumFault>
        ensures judges { (ruled : Result Meaning Failure) × IsRuling self.old.table.listed hook.now seen.now content.now siblings.now ruled × Judges content.now ruled (or_same content.now result) }
        ensures hooks { self.new.hooks ≡ self.old.hooks }
        ensures table { self.new.table ≡ self.old.table }
    {
        let judged = self.judge_beside(hook, content, siblings);
        if !is_too_large(&judged) {
            return judged;
        }
        let left = unseen_of(self.alloc, siblings, seen)?;
        self.judge_beside(hook, content, &left)
    }

    // What a pre-commit hook makes of a new content beside these siblings.
    fn judge_beside(
        &mut self,
        hook: &Verified,
        content: &Content,
        siblings: &[Sibling],
    ) -> Result<Option<Content>, QuorumFault>
        ensures judges { (decided : Result Meaning Failure) × IsDecision hook.now (Some content.now) siblings.now self.old.table.listed decided × Judges content.now decided (or_same content.now result) }
        ensures hooks { self.new.hooks ≡ self.old.hooks }
        ensures table { self.new.table ≡ self.old.table }
    {
        match decide(&mut self.room, hook, &self.table, Some(content), siblings) {
            Ok(verdict) => judged(self.alloc, content, verdict),
            Err(fault) => Err(QuorumFault::from(fault)),
        }
    }

    // What a resolver makes of siblings.
    pub(crate) fn choose(
        &mut self,
        hook: &Verified,
        siblings: &[Sibling],
    ) -> Result<Resolution, Unresolved>
        ensures chooses { MatchResult result (IsResolution self.old.table.listed hook.now siblings.now) (IsUnresolved self.old.table.listed hook.now siblings.now) }
        ensures hooks { self.new.hooks ≡ self.old.hooks }
        ensures table { self.new.table ≡ self.old.table }
    {
        hook_run::resolve(self.alloc, &mut self.room, hook, &self.table, siblings)
    }
}

// Whether a hook was shown more than its input window holds.
fn is_too_large(judged: &Result<Option<Content>, QuorumFault>) -> bool
    ensures { IsTrue result ↔ (judged.now ≡ Err QuorumFault.TooLarge) }
{
    matches!(judged, Err(QuorumFault::TooLarge))
}

// Copies of the siblings that a writer hadn't seen.
fn unseen_of(alloc: Global, siblings: &[Sibling], seen: &Clock) -> Result<Vec<Sibling>, AllocError>
    ensures { IfOk result (λ unseen. unseen.items ≡ kept seen.now siblings.now) }
{
    let mut unseen = Vec::new(alloc);
    for sibling in siblings {
        if !seen.covers(sibling.dot) {
            unseen.push(sibling.copy()?)?;
        }
    }
    Ok(unseen)
}

// What a pre-commit hook's verdict makes of the new content.
fn judged(
    alloc: Global,
    content: &Content,
    verdict: Verdict,
) -> Result<Option<Content>, QuorumFault>
    ensures { Judges content.now (Ok (meaning_of verdict.entry)) (or_same content.now result) }
{
    match verdict {
        Verdict::Pass => Ok(None),
        Verdict::Write(bytes) => Ok(Some(rewritten(alloc, content, bytes)?)),
        Verdict::Reject(code) => Err(QuorumFault::Rejected(code)),
        Verdict::Keep | Verdict::Delete | Verdict::Take(_) => {
            Err(QuorumFault::BadVerdict(BadAnswer::UnknownCode))
        }
    }
}

// The content with the value that a hook wrote, its media type shared with this one.
fn rewritten(alloc: Global, content: &Content, written: &[u8]) -> Result<Content, AllocError>
    ensures { IfOk result (λ changed. changed ≡ rewritten content.now written.now) }
{
    match content {
        Content::Value { media, .. } => Ok(Content::Value {
            media: media.copy()?,
            bytes: Bytes::from_slice(alloc, written)?,
        }),
        Content::Tombstone => octet_stream(alloc, written),
    }
}
