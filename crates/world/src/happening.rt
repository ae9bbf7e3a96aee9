//! Events, each with its reply.

ghost use Rattle.bpf_helpers.specs.declared.sig.Entry.{Entry as Helper};
ghost use Rattle.std.specs.Prelude.{◌≡◌, ℕ, ◌<◌, ◌≤◌, ◌^◌, ◌+◌, ◌⊎◌, List, length, slice_index_or, Some};
ghost use Rattle.journal.specs.Entry.{Put, Restart};
ghost use Rattle.world.specs.declared.event.Event.TheVariants as event;
ghost use Rattle.world.specs.Knowledge.{Knowledge};
ghost use Rattle.world.specs.Happening.{Happens};
ghost use Rattle.world.specs.Represents.{Represents};
ghost use Rattle.world.specs.Appending.{without};
ghost use Rattle.world.specs.Stamped.{AreStamped};
ghost use Rattle.world.specs.Running.{IsMessageOf, IsPartMessageOf, Remember, IsReady, IsReadyContext, ReplyAt, IsSummarizedOrRefused, IsSentOrRefused, IsMessageOrRefused, MayReply, Recall, IsReadyRun, IsFoundOrRefused, IsDumpedOrRefused, IsNewFor};
ghost use Rattle.world.specs.Sources.{GoOn, sources_of, sources_told, sources_delivered, sources_after};

use crate::entries::no_memory_for_all;
use crate::event::{Event, Message, PartMessage, Reply, Seen};
use crate::limits::MAX_ENTRIES_MADE;
use crate::run::Run;
use crate::turn::Turn;
use hook_run::Room;
use key_state::{Content, Key, Summary};
use std::alloc::Global;
use vnode::PartFault;

impl Run {
    /// One event after others, and its reply. A load has one more vnode, closed, behind the others.
    pub(crate) fn happen(&mut self, room: &mut Room, turn: Turn<'_>, event: &Event) -> Reply
        requires ready { IsReady (length self.old.vnodes.items) turn.table.now.listed turn.before.now turn.replies.now event.now }
        requires room { self.old.made + 1 < 2 ^ 64 }
        ensures step { (old : Knowledge) → Represents self.old.vnodes.items old → length old.ids ≡ length self.old.vnodes.items → Remember turn.entry.replies.now old → Recall turn.entry.before.now turn.entry.replies.now old → IsNewFor old event.now → (new : Knowledge) × Happens turn.entry.table.now.listed old event.now result new × Represents self.new.vnodes.items new }
        ensures goes { GoOn self.old.vnodes.items self.new.vnodes.items (sources_after turn.entry.replies.now event.now result (sources_of self.old.vnodes.items)) }
        ensures kind { MayReply event.now result }
        ensures more { length self.old.vnodes.items ≤ length self.new.vnodes.items }
        ensures stamps { AreStamped self.old.vnodes.items self.old.made → AreStamped self.new.vnodes.items self.new.made }
        ensures few { (self.new.made ≤ self.old.made + 1) ⊎ (self.new.made ≤ 2 ^ 63) }
    {
        match event {
            Event::Put {
                vnode,
                key,
                seen,
                content,
            } => self.put(turn, *vnode, key, seen, content),
            Event::Get { vnode, key } => self.get(*vnode, key),
            Event::Summarize { vnode, key } => self.summarize(*vnode, key),
            Event::Send { vnode, key } => self.send(*vnode, key),
            Event::SendPart {
                vnode,
                key,
                summary,
            } => self.send_part(turn, *vnode, key, *summary),
            Event::Deliver { message, vnode } => self.deliver(turn, *message, *vnode),
            Event::Restart { vnode } => self.restart(*vnode),
            Event::Dump { vnode } => self.dump(*vnode),
            Event::Load {
                dump,
                vnode,
                incarnation,
            } => self.load(turn, *dump, *vnode, *incarnation),
            Event::ResolveRead { get, hook } => turn.resolve_read(room, *get, hook),
            Event::ResolveWrite { run, vnode } => self.resolve_write(turn, *run, *vnode),
        }
    }

    /// A put, and its reply.
    fn put(
        &mut self,
        turn: Turn<'_>,
        vnode: usize,
        key: &Key,
        seen: &Seen,
        content: &Content,
    ) -> Reply
        requires inside { vnode < length self.old.vnodes.items }
        requires room { self.old.made + 1 < 2 ^ 64 }
        requires ready { IsReadyContext turn.replies.now seen.now }
        ensures step { (listed : List Helper) (old : Knowledge) → Represents self.old.vnodes.items old → Remember turn.entry.replies.now old → (new : Knowledge) × Happens listed old (event.Put vnode key.now seen.now content.now) result new × Represents self.new.vnodes.items new }
        ensures goes { GoOn self.old.vnodes.items self.new.vnodes.items (sources_of self.old.vnodes.items) }
        ensures stamps { AreStamped self.old.vnodes.items self.old.made → AreStamped self.new.vnodes.items self.new.made }
        ensures few { self.new.made ≤ self.old.made + 1 }
    {
        let clock = match turn.context(seen) {
            Ok(clock) => clock,
            Err(refusal) => return Reply::Refused(refusal),
        };
        match self.put_at(vnode, key, clock, content) {
            Ok(dot) => Reply::Stored(dot),
            Err(refusal) => Reply::Refused(refusal),
        }
    }

    /// A get, and its reply.
    fn get(&mut self, vnode: usize, key: &Key) -> Reply
        requires inside { vnode < length self.old.vnodes.items }
        requires room { self.old.made + 1 < 2 ^ 64 }
        ensures step { (listed : List Helper) (old : Knowledge) → Represents self.old.vnodes.items old → (new : Knowledge) × Happens listed old (event.Get vnode key.now) result new × Represents self.new.vnodes.items new }
        ensures goes { GoOn self.old.vnodes.items self.new.vnodes.items (sources_of self.old.vnodes.items) }
        ensures kind { IsFoundOrRefused result }
        ensures stamps { AreStamped self.old.vnodes.items self.old.made → AreStamped self.new.vnodes.items self.new.made }
        ensures few { self.new.made ≤ self.old.made + 1 }
    {
        match self.read_at(vnode, key) {
            Ok((state, _)) => Reply::Found(state),
            Err(refusal) => Reply::Refused(refusal),
        }
    }

    /// A summary, and its reply.
    fn summarize(&mut self, vnode: usize, key: &Key) -> Reply
        requires inside { vnode < length self.old.vnodes.items }
        requires room { self.old.made + 1 < 2 ^ 64 }
        ensures step { (listed : List Helper) (old : Knowledge) → Represents self.old.vnodes.items old → (new : Knowledge) × Happens listed old (event.Summarize vnode key.now) result new × Represents self.new.vnodes.items new }
        ensures goes { GoOn self.old.vnodes.items self.new.vnodes.items (sources_of self.old.vnodes.items) }
        ensures kind { IsSummarizedOrRefused result }
        ensures stamps { AreStamped self.old.vnodes.items self.old.made → AreStamped self.new.vnodes.items self.new.made }
        ensures few { self.new.made ≤ self.old.made + 1 }
    {
        match self.summary_at(vnode, key) {
            Ok(summary) => Reply::Summarized(summary),
            Err(refusal) => Reply::Refused(refusal),
        }
    }

    /// A send, and its reply.
    fn send(&mut self, vnode: usize, key: &Key) -> Reply
        requires inside { vnode < length self.old.vnodes.items }
        requires room { self.old.made + 1 < 2 ^ 64 }
        ensures step { (listed : List Helper) (old : Knowledge) → Represents self.old.vnodes.items old → (new : Knowledge) × Happens listed old (event.Send vnode key.now) result new × Represents self.new.vnodes.items new }
        ensures goes { GoOn self.old.vnodes.items self.new.vnodes.items (sources_of self.old.vnodes.items) }
        ensures kind { IsSentOrRefused result }
        ensures stamps { AreStamped self.old.vnodes.items self.old.made → AreStamped self.new.vnodes.items self.new.made }
        ensures few { self.new.made ≤ self.old.made + 1 }
    {
        match self.message_at(vnode, key) {
            Ok(message) => Reply::Sent(message),
            Err(refusal) => Reply::Refused(refusal),
        }
    }

    /// A send of a part, and its reply.
    fn send_part(&mut self, turn: Turn<'_>, vnode: usize, key: &Key, summary: usize) -> Reply
        requires inside { vnode < length self.old.vnodes.items }
        requires room { self.old.made + 1 < 2 ^ 64 }
        requires told { ReplyAt turn.replies.now summary IsSummarizedOrRefused }
        ensures step { (listed : List Helper) (old : Knowledge) → Represents self.old.vnodes.items old → Remember turn.entry.replies.now old → (new : Knowledge) × Happens listed old (event.SendPart vnode key.now summary) result new × Represents self.new.vnodes.items new }
        ensures goes { GoOn self.old.vnodes.items self.new.vnodes.items (sources_of self.old.vnodes.items) }
        ensures kind { IsMessageOrRefused result }
        ensures stamps { AreStamped self.old.vnodes.items self.old.made → AreStamped self.new.vnodes.items self.new.made }
        ensures few { self.new.made ≤ self.old.made + 1 }
    {
        let told = match turn.told_by(summary) {
            Ok(told) => told,
            Err(refusal) => return Reply::Refused(refusal),
        };
        match self.message_at(vnode, key) {
            Ok(message) => sent_without(turn.alloc, message, told),
            Err(refusal) => Reply::Refused(refusal),
        }
    }

    /// A delivery, and its reply.
    fn deliver(&mut self, turn: Turn<'_>, message: usize, vnode: usize) -> Reply
        requires inside { vnode < length self.old.vnodes.items }
        requires room { self.old.made + 1 < 2 ^ 64 }
        requires sent { ReplyAt turn.replies.now message IsMessageOrRefused }
        ensures step { (listed : List Helper) (old : Knowledge) → Represents self.old.vnodes.items old → Remember turn.entry.replies.now old → (new : Knowledge) × Happens listed old (event.Deliver message vnode) result new × Represents self.new.vnodes.items new }
        ensures goes { GoOn self.old.vnodes.items self.new.vnodes.items (sources_delivered (sources_told (slice_index_or turn.entry.replies.now message Reply.Nothing)) vnode result (sources_of self.old.vnodes.items)) }
        ensures stamps { AreStamped self.old.vnodes.items self.old.made → AreStamped self.new.vnodes.items self.new.made }
        ensures few { self.new.made ≤ self.old.made + 1 }
    {
        match &turn.replies[message] {
            Reply::Sent(sent) => self.deliver_whole(vnode, sent),
            Reply::SentPart(sent) => self.deliver_part(vnode, sent),
            Reply::Refused(refusal) => Reply::Refused(*refusal),
            _ => unreachable!(),
        }
    }

    /// A delivery of a message, and its reply.
    fn deliver_whole(&mut self, vnode: usize, sent: &Message) -> Reply
        requires inside { vnode < length self.old.vnodes.items }
        requires room { self.old.made + 1 < 2 ^ 64 }
        ensures step { (listed : List Helper) (old : Knowledge) (place : ℕ) → Represents self.old.vnodes.items old → IsMessageOf old place sent.now → (new : Knowledge) × Happens listed old (event.Deliver place vnode) result new × Represents self.new.vnodes.items new }
        ensures goes { GoOn self.old.vnodes.items self.new.vnodes.items (sources_delivered (sources_told (Reply.Sent sent.now)) vnode result (sources_of self.old.vnodes.items)) }
        ensures stamps { AreStamped self.old.vnodes.items self.old.made → AreStamped self.new.vnodes.items self.new.made }
        ensures few { self.new.made ≤ self.old.made + 1 }
    {
        match self.merge_at(vnode, sent) {
            Ok(changed) => Reply::Changed(changed),
            Err(refusal) => Reply::Refused(refusal),
        }
    }

    /// A delivery of a part, and its reply.
    fn deliver_part(&mut self, vnode: usize, sent: &PartMessage) -> Reply
        requires inside { vnode < length self.old.vnodes.items }
        requires room { self.old.made + 1 < 2 ^ 64 }
        ensures step { (listed : List Helper) (old : Knowledge) (place : ℕ) → Represents self.old.vnodes.items old → IsPartMessageOf old place sent.now → (new : Knowledge) × Happens listed old (event.Deliver place vnode) result new × Represents self.new.vnodes.items new }
        ensures goes { GoOn self.old.vnodes.items self.new.vnodes.items (sources_delivered (sources_told (Reply.SentPart sent.now)) vnode result (sources_of self.old.vnodes.items)) }
        ensures stamps { AreStamped self.old.vnodes.items self.old.made → AreStamped self.new.vnodes.items self.new.made }
        ensures few { self.new.made ≤ self.old.made + 1 }
    {
        match self.merge_part_at(vnode, sent) {
            Ok(changed) => Reply::Changed(changed),
            Err(PartFault::Missing) => Reply::Missing,
            Err(PartFault::Refused(refusal)) => Reply::Refused(refusal),
        }
    }

    /// A restart, and its reply.
    fn restart(&mut self, vnode: usize) -> Reply
        requires inside { vnode < length self.old.vnodes.items }
        requires room { self.old.made + 1 < 2 ^ 64 }
        ensures step { (listed : List Helper) (old : Knowledge) → Represents self.old.vnodes.items old → (new : Knowledge) × Happens listed old (event.Restart vnode) result new × Represents self.new.vnodes.items new }
        ensures goes { GoOn self.old.vnodes.items self.new.vnodes.items (sources_of self.old.vnodes.items) }
        ensures stamps { AreStamped self.old.vnodes.items self.old.made → AreStamped self.new.vnodes.items self.new.made }
        ensures few { self.new.made ≤ self.old.made + 1 }
    {
        match self.restart_at(vnode) {
            Ok(()) => Reply::Restarted,
            Err(refusal) => Reply::Refused(refusal),
        }
    }

    /// A dump, and its reply.
    fn dump(&mut self, vnode: usize) -> Reply
        requires inside { vnode < length self.old.vnodes.items }
        ensures step { (listed : List Helper) (old : Knowledge) → Represents self.old.vnodes.items old → (new : Knowledge) × Happens listed old (event.Dump vnode) result new × Represents self.new.vnodes.items new }
        ensures goes { GoOn self.old.vnodes.items self.new.vnodes.items (sources_of self.old.vnodes.items) }
        ensures kind { IsDumpedOrRefused result }
        ensures stamps { AreStamped self.old.vnodes.items self.old.made → AreStamped self.new.vnodes.items self.new.made }
        ensures few { (self.new.made ≤ self.old.made + 1) ⊎ (self.new.made ≤ 2 ^ 63) }
    {
        if self.made > MAX_ENTRIES_MADE {
            return Reply::Refused(no_memory_for_all(&self.vnodes[vnode]));
        }
        match self.dump_at(vnode) {
            Ok(copies) => Reply::Dumped(copies),
            Err(refusal) => Reply::Refused(refusal),
        }
    }

    /// A put of what a run chose, and its reply.
    fn resolve_write(&mut self, turn: Turn<'_>, run: usize, vnode: usize) -> Reply
        requires inside { vnode < length self.old.vnodes.items }
        requires room { self.old.made + 1 < 2 ^ 64 }
        requires ready { IsReadyRun turn.before.now turn.replies.now run }
        ensures step { (listed : List Helper) (old : Knowledge) → Represents self.old.vnodes.items old → Remember turn.entry.replies.now old → Recall turn.entry.before.now turn.entry.replies.now old → (new : Knowledge) × Happens listed old (event.ResolveWrite run vnode) result new × Represents self.new.vnodes.items new }
        ensures goes { GoOn self.old.vnodes.items self.new.vnodes.items (sources_of self.old.vnodes.items) }
        ensures stamps { AreStamped self.old.vnodes.items self.old.made → AreStamped self.new.vnodes.items self.new.made }
        ensures few { self.new.made ≤ self.old.made + 1 }
    {
        let tombstone = Content::Tombstone;
        let choice = match turn.choice_of(run, &tombstone) {
            Ok(choice) => choice,
            Err(refusal) => return Reply::Refused(refusal),
        };
        let content = match choice.content {
            Some(content) => content,
            None => return Reply::Nothing,
        };
        match self.put_at(vnode, choice.key, choice.seen, content) {
            Ok(dot) => Reply::Stored(dot),
            Err(refusal) => Reply::Refused(refusal),
        }
    }
}

// A message without the contents of the dots that a summary holds; the whole message where there is no memory for that.
fn sent_without(alloc: Global, message: Message, summary: &Summary) -> Reply
    ensures { (result ≡ Reply.SentPart (without message summary.now)) ⊎ (result ≡ Reply.Sent message) }
{
    match message.state.part(alloc, summary) {
        Ok(part) => Reply::SentPart(PartMessage {
            key: message.key,
            from: message.from,
            at: message.at,
            part,
        }),
        Err(_) => Reply::Sent(message),
    }
}
