//! Lines whose replies have a name: gets, summaries, sends and dumps.

ghost use Rattle.std.specs.Prelude.{◌≡◌, ◌+◌, ◌<◌, ℕ, List, Some, IfOk, OnOk, MatchOption};
ghost use Rattle.bpf_helpers.specs.declared.sig.Entry.{Entry};
ghost use Rattle.script_events.specs.Asking.{AddsNamed, SendsPart, question_event, reading_of, sim_key};
ghost use Rattle.script_events.specs.Scripts.{IsOneMore, IsRunnableFrom, lines_of};
ghost use Rattle.world.specs.Running.{IsSummaryAt, MayComeFrom};
ghost use Rattle.world.specs.declared.event.Event.{Event};

use crate::names::{Sort, found, name_place};
use crate::reading::Reader;
use crate::script::{Answered, push};
use crate::spelling::key_of;
use key_state::Key;
use script_lines::{BadLine, Question};
use std::alloc::AllocError;
use world::Event;

impl<'a> Reader<'a> {
    /// A get, a send or a summary, and its place under its name.
    pub(crate) fn read_question(
        &mut self,
        question: Question,
        vnode: usize,
        key: &[u8],
        name: &'a [u8],
    ) -> Result<Option<BadLine<'a>>, AllocError>
        ensures runnable { (used : List ℕ) (listed : List Entry) → IsRunnableFrom used listed self.old.script → OnOk result (IsRunnableFrom used listed self.new.script) }
        ensures answers { IfOk result (λ bad. MatchOption bad (lines_of self.new.script ≡ lines_of self.old.script + 1) (λ _. lines_of self.new.script ≡ lines_of self.old.script)) }
        ensures asks { IfOk result (λ bad. MatchOption bad (AddsNamed (reading_of self.old) (question_event question vnode (sim_key key.now)) name.now (reading_of self.new)) (λ _. self.new.script ≡ self.old.script)) }
    {
        if vnode >= self.script.vnodes {
            return Ok(Some(BadLine::NoVnode(vnode)));
        }
        let place = self.script.events.len();
        let key = key_of(self.alloc, key)?;
        push(&mut self.script, event_of(question, vnode, key))?;
        name_place(&mut self.names.events, name, place)?;
        Ok(None)
    }

    /// A send of a part for the latest summary of a name, and its place under its own name.
    pub(crate) fn read_part(
        &mut self,
        vnode: usize,
        key: &[u8],
        summary: &'a [u8],
        name: &'a [u8],
    ) -> Result<Option<BadLine<'a>>, AllocError>
        ensures runnable { (used : List ℕ) (listed : List Entry) → IsRunnableFrom used listed self.old.script → OnOk result (IsRunnableFrom used listed self.new.script) }
        ensures answers { IfOk result (λ bad. MatchOption bad (lines_of self.new.script ≡ lines_of self.old.script + 1) (λ _. lines_of self.new.script ≡ lines_of self.old.script)) }
        ensures asks { IfOk result (λ bad. MatchOption bad (SendsPart vnode key.now summary.now name.now (reading_of self.old) (reading_of self.new)) (λ _. self.new.script ≡ self.old.script)) }
    {
        if vnode >= self.script.vnodes {
            return Ok(Some(BadLine::NoVnode(vnode)));
        }
        let Some(summary) = found(
            &self.script.events,
            &self.names.events,
            summary,
            Sort::Summary,
        ) else {
            return Ok(Some(BadLine::NoSummary(summary)));
        };
        let place = self.script.events.len();
        self.push_part(vnode, key, summary)?;
        name_place(&mut self.names.events, name, place)?;
        Ok(None)
    }

    /// Adds a send of a part for an earlier summary.
    fn push_part(&mut self, vnode: usize, key: &[u8], summary: usize) -> Result<(), AllocError>
        requires within { vnode < self.old.script.vnodes }
        requires earlier { IsSummaryAt self.old.script.events.items summary }
        ensures runnable { (used : List ℕ) (listed : List Entry) → IsRunnableFrom used listed self.old.script → OnOk result (IsRunnableFrom used listed self.new.script) }
        ensures more { OnOk result (IsOneMore self.old.script (Event.SendPart vnode (sim_key key.now) summary) Answered.Reply self.new.script) }
        ensures names { OnOk result (self.new.names ≡ self.old.names) }
        ensures answers { OnOk result (lines_of self.new.script ≡ lines_of self.old.script + 1) }
    {
        let key = key_of(self.alloc, key)?;
        let part = Event::SendPart {
            vnode,
            key,
            summary,
        };
        push(&mut self.script, part)
    }

    /// A dump, and its place under its name.
    pub(crate) fn read_dump(
        &mut self,
        vnode: usize,
        name: &'a [u8],
    ) -> Result<Option<BadLine<'a>>, AllocError>
        ensures runnable { (used : List ℕ) (listed : List Entry) → IsRunnableFrom used listed self.old.script → OnOk result (IsRunnableFrom used listed self.new.script) }
        ensures answers { IfOk result (λ bad. MatchOption bad (lines_of self.new.script ≡ lines_of self.old.script + 1) (λ _. lines_of self.new.script ≡ lines_of self.old.script)) }
        ensures asks { IfOk result (λ bad. MatchOption bad (AddsNamed (reading_of self.old) (Event.Dump vnode) name.now (reading_of self.new)) (λ _. self.new.script ≡ self.old.script)) }
    {
        if vnode >= self.script.vnodes {
            return Ok(Some(BadLine::NoVnode(vnode)));
        }
        let place = self.script.events.len();
        push(&mut self.script, Event::Dump { vnode })?;
        name_place(&mut self.names.events, name, place)?;
        Ok(None)
    }
}

// The event that asks a question.
fn event_of(question: Question, vnode: usize, key: Key) -> Event
    ensures event { result ≡ question_event question vnode key }
    ensures may_come { (used : List ℕ) (vnodes : ℕ) (listed : List Entry) (before : List Event) → vnode < vnodes → MayComeFrom used vnodes listed before result }
{
    match question {
        Question::Get => Event::Get { vnode, key },
        Question::Send => Event::Send { vnode, key },
        Question::Sum => Event::Summarize { vnode, key },
    }
}
