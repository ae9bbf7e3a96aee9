//! The lines of a script, read one after another.

ghost use Rattle.std.specs.Prelude.{◌≡◌, ◌+◌, ◌++◌, ◌∷◌, [], ℕ, List, if◌then◌else◌, IfOk, OnOk, MatchOption};
ghost use Rattle.script_lines.specs.Lines.{lines_in};
ghost use Rattle.script_events.specs.Asking.{AreAllKnown, AreAnsweredBy, AreAnsweredUpTo, Asks, ComeTo, reading_of};
ghost use Rattle.script_events.specs.Scripts.{IsRunnableFrom, lines_of, asks, AnswersFor, AnswersUpTo};

use crate::hooking::FileHooks;
use crate::images::Images;
use crate::names::Names;
use crate::script::Script;
use script_lines::{BadLine, Line, Spelling, first_line, line_of};
use std::alloc::{AllocError, Global};

/// A script while its lines are read, and what their names stand for so far.
#[derive(Drop)]
pub(crate) struct Reader<'a> {
    pub(crate) alloc: Global,
    pub(crate) script: Script,
    pub(crate) names: Names<'a>,
}

impl<'a> Reader<'a> {
    /// Adds what the lines of some bytes ask for, up to the first that may not stand there, and tells its number from 1, and why.
    pub(crate) fn read_lines<I: Images>(
        &mut self,
        used: &[u16],
        images: &I,
        bytes: &'a [u8],
    ) -> Result<Option<(usize, BadLine<'a>)>, AllocError>
        requires runnable { IsRunnableFrom used.now (I.listed images.now) self.old.script }
        requires empty { lines_of self.old.script ≡ 0 }
        requires start { ComeTo (I.found images.now) [] (reading_of self.old) }
        ensures runnable { OnOk result (IsRunnableFrom used.now (I.listed images.now) self.new.script) }
        ensures read { IfOk result (λ bad. MatchOption bad (AnswersFor self.new.script (lines_in bytes.now)) (λ at. AnswersUpTo self.new.script bytes.now at.0)) }
        ensures asked { IfOk result (λ bad. MatchOption bad (AreAnsweredBy (I.found images.now) self.new.script (lines_in bytes.now)) (λ at. AreAnsweredUpTo (I.found images.now) self.new.script bytes.now at.0)) }
    {
        let mut hooks = FileHooks::new(self.alloc);
        let mut number: usize = 0;
        let mut left = bytes;
        while let Some((line, rest)) = first_line(left) {
            left = rest;
            number += 1;
            if let Some(why) = self.read(used, images, &mut hooks, line)? {
                return Ok(Some((number, why)));
            }
        }
        Ok(None)
    }

    /// Adds what the bytes of a line ask for, if anything, or tells why they may not stand there.
    fn read<I: Images>(
        &mut self,
        used: &[u16],
        images: &I,
        hooks: &mut FileHooks<'a>,
        bytes: &'a [u8],
    ) -> Result<Option<BadLine<'a>>, AllocError>
        requires runnable { IsRunnableFrom used.now (I.listed images.now) self.old.script }
        requires known { AreAllKnown (I.found images.now) (I.listed images.now) hooks.old }
        ensures known { AreAllKnown (I.found images.now) (I.listed images.now) hooks.new }
        ensures runnable { OnOk result (IsRunnableFrom used.now (I.listed images.now) self.new.script) }
        ensures answers { IfOk result (λ bad. MatchOption bad (lines_of self.new.script ≡ lines_of self.old.script + (if asks bytes.now then 1 else 0)) (λ _. lines_of self.new.script ≡ lines_of self.old.script)) }
        ensures asks { IfOk result (λ bad. MatchOption bad ((lines : List (List ℕ)) → ComeTo (I.found images.now) lines (reading_of self.old) → ComeTo (I.found images.now) (lines ++ bytes.now ∷ []) (reading_of self.new)) (λ _. self.new.script ≡ self.old.script)) }
    {
        match line_of(self.alloc, bytes)? {
            Spelling::PassedOver => Ok(None),
            Spelling::Line(line) => self.read_line(used, images, hooks, line),
            Spelling::Bad(why) => Ok(Some(BadLine::Misspelled(why))),
        }
    }

    /// Adds what a line asks for, or tells why it may not stand there.
    fn read_line<I: Images>(
        &mut self,
        used: &[u16],
        images: &I,
        hooks: &mut FileHooks<'a>,
        line: Line<'a>,
    ) -> Result<Option<BadLine<'a>>, AllocError>
        requires runnable { IsRunnableFrom used.now (I.listed images.now) self.old.script }
        requires known { AreAllKnown (I.found images.now) (I.listed images.now) hooks.old }
        ensures known { AreAllKnown (I.found images.now) (I.listed images.now) hooks.new }
        ensures runnable { OnOk result (IsRunnableFrom used.now (I.listed images.now) self.new.script) }
        ensures answers { IfOk result (λ bad. MatchOption bad (lines_of self.new.script ≡ lines_of self.old.script + 1) (λ _. lines_of self.new.script ≡ lines_of self.old.script)) }
        ensures asks { IfOk result (λ bad. MatchOption bad (Asks (I.found images.now) line.entry (reading_of self.old) (reading_of self.new)) (λ _. self.new.script ≡ self.old.script)) }
    {
        match line {
            Line::Vnodes(count) => Ok(self.read_vnodes(count)),
            Line::Put {
                vnode,
                key,
                value,
                context,
            } => self.read_put(vnode, key, value, context),
            Line::Ask {
                question,
                vnode,
                key,
                name,
            } => self.read_question(question, vnode, key, name),
            Line::Part {
                vnode,
                key,
                summary,
                name,
            } => self.read_part(vnode, key, summary, name),
            Line::Deliver { name, vnode } => self.read_deliver(name, vnode),
            Line::Restart { vnode } => self.read_restart(vnode),
            Line::Dump { vnode, name } => self.read_dump(vnode, name),
            Line::Load {
                vnode,
                incarnation,
                name,
            } => self.read_load(used, vnode, incarnation, name),
            Line::Resolve { name, file } => self.read_resolve(images, hooks, name, file),
            Line::Commit { vnode, name } => self.read_commit(vnode, name),
            Line::Check {
                vnode,
                key,
                value,
                file,
            } => self.read_check(images, hooks, (vnode, key), value, file),
        }
    }
}
