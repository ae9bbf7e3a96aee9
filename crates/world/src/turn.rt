//! What an event of a run is given, and what it reads of the events before it.

ghost use Rattle.std.specs.Option.{option_copied};
ghost use Rattle.std.specs.Prelude.{◌≡◌, ℕ, ◌<◌, List, slice_get, Some, IfOk, IfErr};
ghost use Rattle.bpf_verifier.specs.Program.{Program};
ghost use Rattle.world.specs.declared.event.Event.TheVariants as event;
ghost use Rattle.journal.specs.Logs.{Log};
ghost use Rattle.world.specs.Knowledge.{Knowledge, left_by, Failed};
ghost use Rattle.world.specs.Happening.{Happens, Means};
ghost use Rattle.world.specs.Represents.{Represents};
ghost use Rattle.world.specs.Appending.{AreCopies};
ghost use Rattle.world.specs.Running.{Remember, IsReadyContext, ReplyAt, IsSummarizedOrRefused, IsRefusedContext, Recall, IsReadyRun, IsGetAt, IsRunAt, IsChoiceOf, IsFoundOrRefused, IsResolvedOrRefused, IsDumpedOrRefused};
ghost use Rattle.world.specs.Resolving.{MayRun};

use crate::event::{Copies, Event, Reply, Seen};
use crate::hook::Hook;
use bpf_helpers::Table;
use dvv::Clock;
use hook_run::{Resolution, Room, Unresolved, resolve};
use key_state::{Content, Key, KeyState, Summary};
use std::alloc::Global;
use vnode::VnodeFault;

/// What an event of a run is given: memory, the table of helpers, and the events before it, each with its reply.
#[derive(Clone, Copy)]
pub(crate) struct Turn<'a> {
    pub(crate) alloc: Global,
    pub(crate) table: &'a Table,
    /// The events before this one, in order.
    pub(crate) before: &'a [Event],
    /// What those events replied.
    pub(crate) replies: &'a [Reply],
}

/// What an earlier run of a resolver left to be put: a content, if any, under a key, and the context that its get answered.
#[derive(Clone, Copy)]
pub(crate) struct Choice<'a> {
    pub(crate) key: &'a Key,
    pub(crate) seen: &'a Clock,
    pub(crate) content: Option<&'a Content>,
}

impl<'a> Turn<'a> {
    /// The events that a put had seen, or why the get that it names was refused.
    pub(crate) fn context(self, seen: &'a Seen) -> Result<&'a Clock, VnodeFault>
        requires ready { IsReadyContext self.replies.now seen.now }
        ensures means { IfOk result (λ clock. (old : Knowledge) → Remember self.entry.replies.now old → Means old seen.now clock.now) }
        ensures refused { IfErr result (λ refusal. (old : Knowledge) → Remember self.entry.replies.now old → IsRefusedContext old seen.now refusal) }
    {
        match seen {
            Seen::Clock(clock) => Ok(clock),
            Seen::Get(get) => match &self.replies[*get] {
                Reply::Found(state) => Ok(state.clock()),
                Reply::Refused(refusal) => Err(*refusal),
                _ => unreachable!(),
            },
        }
    }

    /// What an earlier summary told, or why it was refused.
    pub(crate) fn told_by(self, summary: usize) -> Result<&'a Summary, VnodeFault>
        requires replied { ReplyAt self.replies.now summary IsSummarizedOrRefused }
        ensures told { IfOk result (λ told. slice_get self.entry.replies.now summary ≡ Some (Reply.Summarized told.now)) }
        ensures refused { IfErr result (λ refusal. slice_get self.entry.replies.now summary ≡ Some (Reply.Refused refusal)) }
    {
        match &self.replies[summary] {
            Reply::Summarized(summary) => Ok(summary),
            Reply::Refused(refusal) => Err(*refusal),
            _ => unreachable!(),
        }
    }

    /// What an earlier dump copied, or why it was refused.
    pub(crate) fn copies_of(self, dump: usize) -> Result<&'a Copies, VnodeFault>
        requires dumped { ReplyAt self.replies.now dump IsDumpedOrRefused }
        ensures copied { IfOk result (λ copies. slice_get self.entry.replies.now dump ≡ Some (Reply.Dumped copies.now)) }
        ensures are { IfOk result (λ copies. AreCopies copies.now) }
        ensures refused { IfErr result (λ refusal. slice_get self.entry.replies.now dump ≡ Some (Reply.Refused refusal)) }
    {
        match &self.replies[dump] {
            Reply::Dumped(copies) => Ok(copies),
            Reply::Refused(refusal) => Err(*refusal),
            _ => unreachable!(),
        }
    }

    /// The state that an earlier get answered, or why it was refused.
    fn answer_of(self, get: usize) -> Result<&'a KeyState, VnodeFault>
        requires answered { ReplyAt self.replies.now get IsFoundOrRefused }
        ensures found { IfOk result (λ state. slice_get self.entry.replies.now get ≡ Some (Reply.Found state.now)) }
        ensures refused { IfErr result (λ refusal. slice_get self.entry.replies.now get ≡ Some (Reply.Refused refusal)) }
    {
        match &self.replies[get] {
            Reply::Found(state) => Ok(state),
            Reply::Refused(refusal) => Err(*refusal),
            _ => unreachable!(),
        }
    }

    /// What an earlier run decided, or why it was refused.
    fn resolution_of(self, run: usize) -> Result<&'a Resolution, VnodeFault>
        requires replied { ReplyAt self.replies.now run IsResolvedOrRefused }
        ensures resolved { IfOk result (λ resolution. slice_get self.entry.replies.now run ≡ Some (Reply.Resolved resolution.now)) }
        ensures refused { IfErr result (λ refusal. slice_get self.entry.replies.now run ≡ Some (Reply.Refused refusal)) }
    {
        match &self.replies[run] {
            Reply::Resolved(resolution) => Ok(resolution),
            Reply::Refused(refusal) => Err(*refusal),
            _ => unreachable!(),
        }
    }

    /// The get that an earlier run names.
    fn get_of(self, run: usize) -> usize
        requires { IsRunAt self.before.now run }
        ensures { (hook : Program) × (slice_get self.entry.before.now run ≡ Some (event.ResolveRead result hook)) }
    {
        match &self.before[run] {
            Event::ResolveRead { get, .. } => *get,
            _ => unreachable!(),
        }
    }

    /// The key that an earlier get names.
    fn key_of(self, get: usize) -> &'a Key
        requires { IsGetAt self.before.now get }
        ensures { (vnode : ℕ) × (slice_get self.entry.before.now get ≡ Some (event.Get vnode result.now)) }
    {
        match &self.before[get] {
            Event::Get { key, .. } => key,
            _ => unreachable!(),
        }
    }

    /// What an earlier run left to be put, or why it was refused. A tombstone is lent for a delete.
    pub(crate) fn choice_of(
        self,
        run: usize,
        tombstone: &'a Content,
    ) -> Result<Choice<'a>, VnodeFault>
        requires ready { IsReadyRun self.before.now self.replies.now run }
        requires tombstone { tombstone.now ≡ Content.Tombstone }
        ensures chosen { IfOk result (λ choice. (old : Knowledge) → Remember self.entry.replies.now old → Recall self.entry.before.now self.entry.replies.now old → IsChoiceOf old run choice.key.now choice.seen.now (option_copied choice.content)) }
        ensures refused { IfErr result (λ refusal. (old : Knowledge) → Remember self.entry.replies.now old → Recall self.entry.before.now self.entry.replies.now old → left_by old run ≡ Failed refusal) }
    {
        let resolution = match self.resolution_of(run) {
            Ok(resolution) => resolution,
            Err(refusal) => return Err(refusal),
        };
        let get = self.get_of(run);
        match self.answer_of(get) {
            Ok(state) => Ok(Choice {
                key: self.key_of(get),
                seen: state.clock(),
                content: resolution.chosen(state.siblings(), tombstone),
            }),
            Err(refusal) => Err(refusal),
        }
    }

    /// A resolver's run, and its reply.
    pub(crate) fn resolve_read(self, room: &mut Room, get: usize, hook: &Hook) -> Reply
        requires answered { ReplyAt self.replies.now get IsFoundOrRefused }
        requires may { MayRun self.table.now.listed hook.now }
        ensures step { (logs : List Log) (old : Knowledge) → Represents logs old → Remember self.entry.replies.now old → (new : Knowledge) × Happens self.entry.table.now.listed old (event.ResolveRead get hook.now) result new × Represents logs new }
        ensures kind { IsResolvedOrRefused result }
    {
        let state = match self.answer_of(get) {
            Ok(state) => state,
            Err(refusal) => return Reply::Refused(refusal),
        };
        match resolve(
            self.alloc,
            room,
            hook.program(),
            self.table,
            state.siblings(),
        ) {
            Ok(resolution) => Reply::Resolved(resolution),
            Err(Unresolved::NoMemory) => Reply::Refused(VnodeFault::NoMemory),
            Err(Unresolved::Disagrees) => unreachable!(),
        }
    }
}
