//! Exchange by summaries: only the contents that the other side lacks are sent.

ghost use Rattle.std.specs.List.{list_any};
ghost use Rattle.std.specs.Prelude.{◌≡◌, ◌≢◌, ◌↔◌, ◌<◌, ◌&&◌, not, false, IsTrue, OnOk, OnErr, IfOk, option_copied};
ghost use Rattle.dvv.specs.Clock.{covers, vnodes_together, most_entries};
ghost use Rattle.key_state.specs.State.{IsState, HaveSameDots, Merges, AreInOrder, content_at, is_changed_by};
ghost use Rattle.key_state.specs.Parts.{names, summary_of, part_of, whole_of, content_of, lacks_content, lacks_some};

use crate::content::{Content, Sibling};
use crate::fault::{MergeFault, PartFault};
use crate::part::{Part, PartSibling, Summary};
use crate::prepared::PreparedPart;
use crate::state::KeyState;
use dvv::Dot;
use std::alloc::{AllocError, Global};

impl KeyState {
    /// The dots that are held, and the clock.
    pub fn summary(&self, alloc: Global) -> Result<Summary, AllocError>
        ensures { IfOk result (λ summary. summary ≡ summary_of self.now) }
    {
        let mut dots = Vec::with_capacity(alloc, self.siblings().len())?;
        for sibling in self.siblings() {
            dots.push(sibling.dot)?;
        }
        Ok(Summary {
            dots,
            clock: self.clock().copy(alloc)?,
        })
    }

    /// The part of this state for a side that told this summary: the clock, the dots, and the contents of those dots that the
    /// summary doesn't hold. Their bytes are shared with this state's.
    pub fn part(&self, alloc: Global, summary: &Summary) -> Result<Part, AllocError>
        ensures { IfOk result (λ part. part ≡ part_of self.now summary.now) }
    {
        let mut siblings = Vec::with_capacity(alloc, self.siblings().len())?;
        for sibling in self.siblings() {
            let content = if summary.holds(sibling.dot) {
                None
            } else {
                Some(sibling.content.copy()?)
            };
            siblings.push(PartSibling {
                dot: sibling.dot,
                content,
            })?;
        }
        Ok(Part {
            siblings,
            clock: self.clock().copy(alloc)?,
        })
    }

    /// Whether some content that was left out of a part isn't held. Takes no memory.
    pub fn lacks(&self, part: &Part) -> bool
        ensures { result ≡ lacks_some self.now part.now }
    {
        lacks(self.siblings(), part)
    }

    /// The whole state that a part stands for: a content that was left out is the own one under its dot. Refused with no memory
    /// taken where such a dot isn't held.
    pub fn whole_of(&self, alloc: Global, part: &Part) -> Result<KeyState, PartFault>
        ensures ok { IfOk result (λ whole. whole ≡ whole_of part.now self.now) }
        ensures state { IfOk result (λ whole. IsState whole) }
        ensures missing { result ≡ Err PartFault.Missing ↔ IsTrue (lacks_some self.now part.now) }
        ensures full { result ≢ Err (PartFault.Merge MergeFault.ClockFull) }
    {
        // Told before any memory is asked for.
        if self.lacks(part) {
            return Err(PartFault::Missing);
        }
        self.whole_in(PreparedPart::new(alloc, part)?)
    }

    /// Merges the whole state that a part stands for, as [`merge`](KeyState::merge) does, and tells whether siblings or clock
    /// changed. Refused with nothing changed where a dot whose content was left out isn't held now, and where a merge is.
    pub fn merge_part(&mut self, part: &Part) -> Result<bool, PartFault>
        ensures ok { OnOk result (Merges self.old (whole_of part.now self.old) self.new) }
        ensures state { OnOk result (IsState self.new) }
        ensures told { IfOk result (λ changed. changed ≡ is_changed_by self.old (whole_of part.now self.old)) }
        ensures changed { IfOk result (λ changed. IsTrue changed ↔ (self.new ≢ self.old)) }
        ensures dots { IfOk result (λ changed. IsTrue changed ↔ (HaveSameDots self.old self.new → ⊥)) }
        // One that changes nothing is never refused for want of memory.
        ensures idle { lacks_some self.old part.now ≡ false → is_changed_by self.old (whole_of part.now self.old) ≡ false → result ≡ Ok false }

        ensures missing { result ≡ Err PartFault.Missing ↔ IsTrue (lacks_some self.old part.now) }
        ensures full { result ≡ Err (PartFault.Merge MergeFault.ClockFull) ↔ ((lacks_some self.old part.now ≡ false) × (most_entries < vnodes_together self.old.clock part.now.clock)) }
        ensures err { OnErr result (self.new ≡ self.old) }
    {
        match self.whole_of(self.allocator(), part) {
            Ok(whole) => Ok(self.merge(&whole)?),
            Err(PartFault::Missing) => Err(PartFault::Missing),
            Err(PartFault::Merge(_)) => self.merge_without_memory(part),
        }
    }

    // What the merge of a part comes to that finds no memory for the whole state: it changes nothing, or is refused.
    fn merge_without_memory(&self, part: &Part) -> Result<bool, PartFault>
        requires { lacks_some self.now part.now ≡ false }
        ensures ok { OnOk result (Merges self.now (whole_of part.now self.now) self.now) }
        ensures told { IfOk result (λ changed. (changed ≡ false) × (changed ≡ is_changed_by self.now (whole_of part.now self.now))) }
        ensures idle { is_changed_by self.now (whole_of part.now self.now) ≡ false → result ≡ Ok false }
        ensures missing { result ≢ Err PartFault.Missing }
        ensures full { result ≡ Err (PartFault.Merge MergeFault.ClockFull) ↔ (most_entries < vnodes_together self.now.clock part.now.clock) }
        ensures own { IsState self.now }
    {
        if !self.is_changed_by_part(part) {
            return Ok(false);
        }
        if !self.clock().can_join(part.clock()) {
            return Err(PartFault::Merge(MergeFault::ClockFull));
        }
        Err(PartFault::Merge(MergeFault::NoMemory))
    }

    // Whether the merge of a part would change anything here.
    fn is_changed_by_part(&self, part: &Part) -> bool
        requires { lacks_some self.now part.now ≡ false }
        ensures changed { result ≡ is_changed_by self.now (whole_of part.now self.now) }
        ensures state { IsState (whole_of part.now self.now) }
        ensures own { IsState self.now }
    {
        // What every part keeps is told with its siblings.
        let _siblings = part.siblings();
        let own = self.siblings();
        !part.clock().le(self.clock()) || drops_some(part, own)
    }
}

// Whether one of the siblings is covered by a part's clock and not among its dots.
fn drops_some(part: &Part, own: &[Sibling]) -> bool
    ensures { result ≡ list_any (λ s. covers part.now.clock s.dot && not (names part.now s.dot)) own.now }
{
    own.iter().any(|sibling| part.clock().covers(sibling.dot) && !part.names(sibling.dot))
}

// Whether some content that was left out of a part is none of these siblings'.
pub(crate) fn lacks(own: &[Sibling], part: &Part) -> bool
    requires { AreInOrder own.now }
    ensures { result ≡ lacks_content own.now part.now.siblings }
{
    for sent in part.siblings() {
        if content_of(own, sent).is_none() {
            return true;
        }
    }
    false
}

// The content of a part's sibling: the one that was sent, or the own one under its dot.
pub(crate) fn content_of<'a>(own: &'a [Sibling], sent: &'a PartSibling) -> Option<&'a Content>
    requires { AreInOrder own.now }
    ensures { option_copied result ≡ content_of own.now sent.now }
{
    match &sent.content {
        Some(content) => Some(content),
        None => own_content(own, sent.dot),
    }
}

// The content of the sibling with a dot.
fn own_content(own: &[Sibling], dot: Dot) -> Option<&Content>
    requires { AreInOrder own.now }
    ensures { option_copied result ≡ content_at own.now dot }
{
    let at = own.partition_point(|sibling| sibling.dot.is_before(dot));
    match own.get(at) {
        Some(sibling) if sibling.dot == dot => Some(&sibling.content),
        _ => None,
    }
}
