//! Lines that ask for an event at a vnode: puts, deliveries, restarts and loads, and the line that tells how many vnodes there are.

ghost use Rattle.std.specs.Prelude.{◌≡◌, ◌+◌, ◌<◌, ℕ, true, false, List, Some, IfOk, OnOk, IsTrue, MatchOption, ◌↔◌};
ghost use Rattle.bpf_helpers.specs.declared.sig.Entry.{Entry};
ghost use Rattle.script_events.specs.Asking.{AddsOnly, Counts, Delivers, IsHad, Loads, Puts, content_of, reading_of, sim_key};
ghost use Rattle.script_events.specs.Scripts.{IsOneMore, IsRunnableFrom, lines_of};
ghost use Rattle.world.specs.Running.{IsUsed, IsEarlierContext};
ghost use Rattle.world.specs.declared.event.Event.{Event};

use crate::names::{Sort, found};
use crate::reading::Reader;
use crate::script::{Answered, MAX_VNODES, push, push_told};
use crate::spelling::{content_of, key_of};
use context_token::{TokenFault, read_bytes};
use dvv::Clock;
use script_lines::{BadLine, Context};
use std::alloc::AllocError;
use world::{Event, Seen};

/// What a put's word comes to.
#[derive(Drop)]
pub(crate) enum Had<'a> {
    /// What its writer had seen.
    Seen(Seen),
    /// The fault of its token.
    NoToken(TokenFault),
    /// No get of that name.
    NoGet(&'a [u8]),
}

impl<'a> Reader<'a> {
    /// The first line tells how many vnodes there are, and no other does.
    pub(crate) fn read_vnodes(&mut self, count: usize) -> Option<BadLine<'a>>
        ensures runnable { (used : List ℕ) (listed : List Entry) → IsRunnableFrom used listed self.old.script → IsRunnableFrom used listed self.new.script }
        ensures answers { MatchOption result (lines_of self.new.script ≡ lines_of self.old.script + 1) (λ _. lines_of self.new.script ≡ lines_of self.old.script) }
        ensures asks { MatchOption result (Counts count (reading_of self.old) (reading_of self.new)) (λ _. self.new.script ≡ self.old.script) }
    {
        if self.script.vnodes != 0 {
            return Some(BadLine::VnodesAgain);
        }
        if count == 0 || count > MAX_VNODES {
            return Some(BadLine::VnodeCount);
        }
        self.script.vnodes = count;
        None
    }

    /// A put, or the refusal of its token.
    pub(crate) fn read_put(
        &mut self,
        vnode: usize,
        key: &[u8],
        value: Option<&[u8]>,
        context: Context<'a>,
    ) -> Result<Option<BadLine<'a>>, AllocError>
        ensures runnable { (used : List ℕ) (listed : List Entry) → IsRunnableFrom used listed self.old.script → OnOk result (IsRunnableFrom used listed self.new.script) }
        ensures answers { IfOk result (λ bad. MatchOption bad (lines_of self.new.script ≡ lines_of self.old.script + 1) (λ _. lines_of self.new.script ≡ lines_of self.old.script)) }
        ensures asks { IfOk result (λ bad. MatchOption bad (Puts vnode key.now value.entry context.entry (reading_of self.old) (reading_of self.new)) (λ _. self.new.script ≡ self.old.script)) }
    {
        if vnode >= self.script.vnodes {
            return Ok(Some(BadLine::NoVnode(vnode)));
        }
        match self.seen_by(context)? {
            Had::Seen(seen) => {
                self.push_put(vnode, key, value, seen)?;
                Ok(None)
            }
            Had::NoToken(fault) => {
                push_told(&mut self.script, Answered::Refused(fault))?;
                Ok(None)
            }
            Had::NoGet(name) => Ok(Some(BadLine::NoGet(name))),
        }
    }

    /// What a put had seen, by its word.
    fn seen_by(&self, context: Context<'a>) -> Result<Had<'a>, AllocError>
        ensures { IfOk result (IsHad context.entry (reading_of self.now)) }
    {
        match context {
            Context::Nothing => Ok(Had::Seen(Seen::Clock(Clock::new(self.alloc)))),
            Context::OfGet(name) => {
                match found(&self.script.events, &self.names.events, name, Sort::Get) {
                    Some(get) => Ok(Had::Seen(Seen::Get(get))),
                    None => Ok(Had::NoGet(name)),
                }
            }
            Context::Token(text) => match read_bytes(self.alloc, text) {
                Ok(clock) => Ok(Had::Seen(Seen::Clock(clock))),
                Err(TokenFault::NoMemory) => Err(AllocError),
                Err(fault) => Ok(Had::NoToken(fault)),
            },
        }
    }

    /// Adds a put whose writer had seen this.
    fn push_put(
        &mut self,
        vnode: usize,
        key: &[u8],
        value: Option<&[u8]>,
        seen: Seen,
    ) -> Result<(), AllocError>
        requires within { vnode < self.old.script.vnodes }
        requires earlier { IsEarlierContext self.old.script.events.items seen }
        ensures runnable { (used : List ℕ) (listed : List Entry) → IsRunnableFrom used listed self.old.script → OnOk result (IsRunnableFrom used listed self.new.script) }
        ensures more { OnOk result (IsOneMore self.old.script (Event.Put vnode (sim_key key.now) seen (content_of value.entry)) Answered.Reply self.new.script) }
        ensures names { OnOk result (self.new.names ≡ self.old.names) }
        ensures answers { OnOk result (lines_of self.new.script ≡ lines_of self.old.script + 1) }
    {
        let key = key_of(self.alloc, key)?;
        let content = content_of(self.alloc, value)?;
        let put = Event::Put {
            vnode,
            key,
            seen,
            content,
        };
        push(&mut self.script, put)
    }

    /// A delivery of what the latest send of a name sent, of all or of a part.
    pub(crate) fn read_deliver(
        &mut self,
        name: &'a [u8],
        vnode: usize,
    ) -> Result<Option<BadLine<'a>>, AllocError>
        ensures runnable { (used : List ℕ) (listed : List Entry) → IsRunnableFrom used listed self.old.script → OnOk result (IsRunnableFrom used listed self.new.script) }
        ensures answers { IfOk result (λ bad. MatchOption bad (lines_of self.new.script ≡ lines_of self.old.script + 1) (λ _. lines_of self.new.script ≡ lines_of self.old.script)) }
        ensures asks { IfOk result (λ bad. MatchOption bad (Delivers name.now vnode (reading_of self.old) (reading_of self.new)) (λ _. self.new.script ≡ self.old.script)) }
    {
        let Some(message) = found(&self.script.events, &self.names.events, name, Sort::Message)
        else {
            return Ok(Some(BadLine::NoSend(name)));
        };
        if vnode >= self.script.vnodes {
            return Ok(Some(BadLine::NoVnode(vnode)));
        }
        push(&mut self.script, Event::Deliver { message, vnode })?;
        Ok(None)
    }

    /// A restart of a vnode.
    pub(crate) fn read_restart(&mut self, vnode: usize) -> Result<Option<BadLine<'a>>, AllocError>
        ensures runnable { (used : List ℕ) (listed : List Entry) → IsRunnableFrom used listed self.old.script → OnOk result (IsRunnableFrom used listed self.new.script) }
        ensures answers { IfOk result (λ bad. MatchOption bad (lines_of self.new.script ≡ lines_of self.old.script + 1) (λ _. lines_of self.new.script ≡ lines_of self.old.script)) }
        ensures asks { IfOk result (λ bad. MatchOption bad (AddsOnly (reading_of self.old) (Event.Restart vnode) (reading_of self.new)) (λ _. self.new.script ≡ self.old.script)) }
    {
        if vnode >= self.script.vnodes {
            return Ok(Some(BadLine::NoVnode(vnode)));
        }
        push(&mut self.script, Event::Restart { vnode })?;
        Ok(None)
    }

    /// A load of what the latest dump of a name copied, under an incarnation that its index never had.
    pub(crate) fn read_load(
        &mut self,
        used: &[u16],
        vnode: usize,
        incarnation: u16,
        name: &'a [u8],
    ) -> Result<Option<BadLine<'a>>, AllocError>
        ensures runnable { (listed : List Entry) → IsRunnableFrom used.now listed self.old.script → OnOk result (IsRunnableFrom used.now listed self.new.script) }
        ensures answers { IfOk result (λ bad. MatchOption bad (lines_of self.new.script ≡ lines_of self.old.script + 1) (λ _. lines_of self.new.script ≡ lines_of self.old.script)) }
        ensures asks { IfOk result (λ bad. MatchOption bad (Loads vnode incarnation name.now (reading_of self.old) (reading_of self.new)) (λ _. self.new.script ≡ self.old.script)) }
    {
        let Some(dump) = found(&self.script.events, &self.names.events, name, Sort::Dump) else {
            return Ok(Some(BadLine::NoDump(name)));
        };
        if vnode >= self.script.vnodes {
            return Ok(Some(BadLine::NoVnode(vnode)));
        }
        if is_used(used, &self.script.events, vnode, incarnation) {
            return Ok(Some(BadLine::UsedIncarnation(vnode, incarnation)));
        }
        let load = Event::Load {
            dump,
            vnode,
            incarnation,
        };
        push(&mut self.script, load)?;
        Ok(None)
    }
}

// Whether an index had an incarnation: from the start on, or by a load.
fn is_used(used: &[u16], events: &[Event], vnode: usize, incarnation: u16) -> bool
    ensures { IsTrue result ↔ IsUsed used.now events.now vnode incarnation }
{
    if used.contains(&incarnation) {
        return true;
    }
    for event in events {
        if is_load(event, vnode, incarnation) {
            return true;
        }
    }
    false
}

// Whether an event is a load that an index goes on from under an incarnation.
fn is_load(event: &Event, vnode: usize, incarnation: u16) -> bool
    ensures { IsTrue result ↔ ((dump : ℕ) × (event.now ≡ Event.Load dump vnode incarnation)) }
{
    match event {
        Event::Load {
            vnode: index,
            incarnation: number,
            ..
        } => *index == vnode && *number == incarnation,
        _ => false,
    }
}
