//! Lines that run hooks in files.

ghost use Rattle.std.specs.Prelude.{◌≡◌, ◌+◌, ◌<◌, ℕ, List, [], length, Some, Ok, IfErr, IfOk, OnErr, OnOk, MatchOption};
ghost use Rattle.bpf_helpers.specs.declared.sig.Entry.{Entry};
ghost use Rattle.bpf_helpers.specs.Entries.{AgreesWith};
ghost use Rattle.script_events.specs.Asking.{AddsCheck, AreAllKnown, AreKept, AreKnown, Checks, Commits, IsRefusedSo, Resolves, StandsFor, at_name, reading_of};
ghost use Rattle.script_events.specs.Scripts.{IsOneMore, IsRunnableFrom, lines_of};
ghost use Rattle.world.specs.Resolving.{MayRun};
ghost use Rattle.world.specs.Running.{IsGetAt};
ghost use Rattle.world.specs.declared.event.Event.{Event};

use crate::check::Check;
use crate::images::{Images, NoHook};
use crate::names::{Sort, found, name_place, unname_place};
use crate::reading::Reader;
use crate::script::{Answered, push, push_answered, push_told};
use crate::spelling::{content_of, key_of};
use bpf_admission::Refusal;
use bpf_image::ImageKind;
use script_lines::BadLine;
use std::alloc::{AllocError, Global};
use std::collections::BTreeMap;
use world::{Event, Hook};

/// What was answered of the images in files: the hook, or the image's refusal.
type Kept<'a> = BTreeMap<&'a [u8], Result<Hook, Refusal>>;

/// The hooks in files, each of which is asked for once.
#[derive(Drop)]
pub(crate) struct FileHooks<'a> {
    pub(crate) resolvers: Kept<'a>,
    pub(crate) checks: Kept<'a>,
}

impl<'a> FileHooks<'a> {
    /// No file was asked for.
    pub(crate) fn new(alloc: Global) -> FileHooks<'a>
        ensures resolvers { result.resolvers.entries ≡ [] }
        ensures checks { result.checks.entries ≡ [] }
    {
        FileHooks {
            resolvers: Kept::new(alloc),
            checks: Kept::new(alloc),
        }
    }
}

impl<'a> Reader<'a> {
    /// A run of a resolver on what the get of a name answered, or the refusal of its image.
    pub(crate) fn read_resolve<I: Images>(
        &mut self,
        images: &I,
        hooks: &mut FileHooks<'a>,
        name: &'a [u8],
        file: &'a str,
    ) -> Result<Option<BadLine<'a>>, AllocError>
        requires { AreAllKnown (I.found images.now) (I.listed images.now) hooks.old }
        ensures known { AreAllKnown (I.found images.now) (I.listed images.now) hooks.new }
        ensures runnable { (used : List ℕ) → IsRunnableFrom used (I.listed images.now) self.old.script → OnOk result (IsRunnableFrom used (I.listed images.now) self.new.script) }
        ensures answers { IfOk result (λ bad. MatchOption bad (lines_of self.new.script ≡ lines_of self.old.script + 1) (λ _. lines_of self.new.script ≡ lines_of self.old.script)) }
        ensures asks { IfOk result (λ bad. MatchOption bad (Resolves (I.found images.now) name.now file.now (reading_of self.old) (reading_of self.new)) (λ _. self.new.script ≡ self.old.script)) }
    {
        let Some(get) = found(&self.script.events, &self.names.events, name, Sort::Get) else {
            return Ok(Some(BadLine::NoGet(name)));
        };
        match hook_in(
            self.alloc,
            &mut hooks.resolvers,
            images,
            file,
            ImageKind::Resolver,
        ) {
            Ok(hook) => {
                self.push_run(name, get, hook)?;
                Ok(None)
            }
            Err(NoHook::Refused(refusal)) => {
                unname_place(&mut self.names.runs, name);
                push_told(&mut self.script, Answered::NotLetIn(refusal))?;
                Ok(None)
            }
            Err(NoHook::Unreadable) => Ok(Some(BadLine::NoFile(file))),
        }
    }

    /// Adds a run of a resolver on what a get answered, and keeps its place under the get's name.
    fn push_run(&mut self, name: &'a [u8], get: usize, hook: Hook) -> Result<(), AllocError>
        requires { IsGetAt self.old.script.events.items get }
        ensures runnable { (used : List ℕ) (listed : List Entry) → MayRun listed hook → IsRunnableFrom used listed self.old.script → OnOk result (IsRunnableFrom used listed self.new.script) }
        ensures answers { OnOk result (lines_of self.new.script ≡ lines_of self.old.script + 1) }
        ensures more { OnOk result (IsOneMore self.old.script (Event.ResolveRead get hook) Answered.Reply self.new.script) }
        ensures runs { OnOk result (StandsFor (at_name self.old.names.runs) name.now (Some (length self.old.script.events.items)) (at_name self.new.names.runs)) }
        ensures names { self.new.names.events ≡ self.old.names.events }
    {
        name_place(&mut self.names.runs, name, self.script.events.len())?;
        push(&mut self.script, Event::ResolveRead { get, hook })
    }

    /// A put of what the latest run of a name chose, or nothing where the get of that name has no such run.
    pub(crate) fn read_commit(
        &mut self,
        vnode: usize,
        name: &'a [u8],
    ) -> Result<Option<BadLine<'a>>, AllocError>
        ensures runnable { (used : List ℕ) (listed : List Entry) → IsRunnableFrom used listed self.old.script → OnOk result (IsRunnableFrom used listed self.new.script) }
        ensures answers { IfOk result (λ bad. MatchOption bad (lines_of self.new.script ≡ lines_of self.old.script + 1) (λ _. lines_of self.new.script ≡ lines_of self.old.script)) }
        ensures asks { IfOk result (λ bad. MatchOption bad (Commits vnode name.now (reading_of self.old) (reading_of self.new)) (λ _. self.new.script ≡ self.old.script)) }
    {
        if vnode >= self.script.vnodes {
            return Ok(Some(BadLine::NoVnode(vnode)));
        }
        if let Some(run) = found(&self.script.events, &self.names.runs, name, Sort::Run) {
            push(&mut self.script, Event::ResolveWrite { run, vnode })?;
            return Ok(None);
        }
        if found(&self.script.events, &self.names.events, name, Sort::Get).is_none() {
            return Ok(Some(BadLine::NoGet(name)));
        }
        push_told(&mut self.script, Answered::Nothing)?;
        Ok(None)
    }

    /// A get, and what a hook says of a new value beside its answer, or the refusal of its image.
    pub(crate) fn read_check<I: Images>(
        &mut self,
        images: &I,
        hooks: &mut FileHooks<'a>,
        at: (usize, &[u8]),
        value: &[u8],
        file: &'a str,
    ) -> Result<Option<BadLine<'a>>, AllocError>
        requires { AreAllKnown (I.found images.now) (I.listed images.now) hooks.old }
        ensures known { AreAllKnown (I.found images.now) (I.listed images.now) hooks.new }
        ensures runnable { (used : List ℕ) → IsRunnableFrom used (I.listed images.now) self.old.script → OnOk result (IsRunnableFrom used (I.listed images.now) self.new.script) }
        ensures answers { IfOk result (λ bad. MatchOption bad (lines_of self.new.script ≡ lines_of self.old.script + 1) (λ _. lines_of self.new.script ≡ lines_of self.old.script)) }
        ensures asks { IfOk result (λ bad. MatchOption bad (Checks (I.found images.now) at.entry.0 at.entry.1.now value.now file.now (reading_of self.old) (reading_of self.new)) (λ _. self.new.script ≡ self.old.script)) }
    {
        let (vnode, key) = at;
        if vnode >= self.script.vnodes {
            return Ok(Some(BadLine::NoVnode(vnode)));
        }
        match hook_in(
            self.alloc,
            &mut hooks.checks,
            images,
            file,
            ImageKind::PreCommit,
        ) {
            Ok(hook) => {
                self.push_check(vnode, key, value, hook)?;
                Ok(None)
            }
            Err(NoHook::Refused(refusal)) => {
                push_told(&mut self.script, Answered::NotLetIn(refusal))?;
                Ok(None)
            }
            Err(NoHook::Unreadable) => Ok(Some(BadLine::NoFile(file))),
        }
    }

    /// Adds a get, and what a hook says of a new value beside its answer.
    fn push_check(
        &mut self,
        vnode: usize,
        key: &[u8],
        value: &[u8],
        hook: Hook,
    ) -> Result<(), AllocError>
        requires within { vnode < self.old.script.vnodes }
        requires pre_commit { hook.kind ≡ ImageKind.PreCommit }
        ensures runnable { (used : List ℕ) (listed : List Entry) → IsRunnableFrom used listed self.old.script → OnOk result (IsRunnableFrom used listed self.new.script) }
        ensures answers { OnOk result (lines_of self.new.script ≡ lines_of self.old.script + 1) }
        ensures checks { OnOk result (AddsCheck vnode key.now value.now hook self.old.script self.new.script) }
        ensures names { self.new.names ≡ self.old.names }
    {
        let key = key_of(self.alloc, key)?;
        let new = content_of(self.alloc, Some(value))?;
        let check = Check { hook, new };
        push_answered(
            &mut self.script,
            Event::Get { vnode, key },
            Answered::Checked(check),
        )
    }
}

// The hook of a kind in a file: what was kept of it, or what the images answer, which is kept then.
fn hook_in<'a, I: Images>(
    alloc: Global,
    kept: &mut Kept<'a>,
    images: &I,
    file: &'a str,
    kind: ImageKind,
) -> Result<Hook, NoHook>
    requires { AreKnown (I.found images.now) (I.listed images.now) kind kept.old }
    ensures known { AreKnown (I.found images.now) (I.listed images.now) kind kept.new }
    ensures found { IfOk result (λ hook. I.found images.now file.now kind (Ok hook)) }
    ensures runs { IfOk result (λ hook. (hook.kind ≡ kind) × AgreesWith (I.listed images.now) hook.sigs) }
    ensures refused { IfErr result (IsRefusedSo (I.found images.now) file.now kind) }
{
    match kept.get(file.as_bytes()) {
        Some(Ok(hook)) => return Ok(hook.share()?),
        Some(Err(refusal)) => return Err(NoHook::Refused(*refusal)),
        None => {}
    }
    match images.hook(alloc, file, kind) {
        Ok(program) => {
            let hook = Hook::new(alloc, program)?;
            keep(kept, file, Ok(hook.share()?))?;
            Ok(hook)
        }
        Err(NoHook::Refused(refusal)) => {
            keep(kept, file, Err(refusal))?;
            Err(NoHook::Refused(refusal))
        }
        Err(NoHook::Unreadable) => Err(NoHook::Unreadable),
    }
}

// Keeps what was answered of a file.
fn keep<'a>(
    kept: &mut Kept<'a>,
    file: &'a str,
    answer: Result<Hook, Refusal>,
) -> Result<(), AllocError>
    ensures stands { OnOk result (StandsFor (at_name kept.old) file.now (Some answer) (at_name kept.new)) }
    ensures kept { OnErr result (AreKept (at_name kept.old) (at_name kept.new)) }
{
    kept.insert(file.as_bytes(), answer)?;
    Ok(())
}
