//! What is told of a state, and what of a state is sent to one who holds some of it.

ghost use Rattle.std.specs.Prelude.{◌≡◌, ◌↔◌, IsTrue, IfOk, map};
ghost use Rattle.key_state.specs.declared.content.Sibling.{Sibling as OneSibling};
ghost use Rattle.key_state.specs.Parts.{summary_of, holds, names, contents_in, IsPart};

use crate::content::{Content, Sibling};
use crate::state::KeyState;
use dvv::{Clock, Dot};
use std::alloc::{AllocError, Global};
use std::marker::Model;

/// The dots that a state of a key holds, and its clock: what another side has to know to send only what is lacking.
#[derive(Drop)]
pub struct Summary {
    pub(crate) dots: Vec<Dot>,
    pub(crate) clock: Clock,
}

impl Model for Summary {
    ghost use Rattle.key_state.specs.Parts.{Summarized, AreDotsInOrder};

    ghost Value = { Summarized };

    ghost view = { λ s. record { dots = s.dots.items; clock = s.clock } };

    ghost invariant = { λ s. AreDotsInOrder s.dots.items };
}

impl Summary {
    /// The dots, rising.
    pub fn dots(&self) -> &[Dot]
        ensures { result.now ≡ self.now.dots }
    {
        &self.dots
    }

    /// The clock.
    pub fn clock(&self) -> &Clock
        ensures { result.now ≡ self.now.clock }
    {
        &self.clock
    }

    /// Whether a dot is held.
    pub fn holds(&self, dot: Dot) -> bool
        ensures { result ≡ holds self.now dot }
    {
        let at = self.dots.partition_point(|held| held.is_before(dot));
        at < self.dots.len() && self.dots[at] == dot
    }

    /// Whether it is the summary of this state.
    #[tactic(auto, using(crate::proofs::Compared::same_dots))]
    pub fn is_of(&self, state: &KeyState) -> bool
        ensures { IsTrue result ↔ (self.now ≡ summary_of state.now) }
    {
        self.clock.entries() == state.clock().entries() && are_dots_of(&self.dots, state.siblings())
    }
}

/// A sibling of a part. Its content is left out where the other side holds it.
#[derive(Drop)]
pub struct PartSibling {
    pub dot: Dot,
    pub content: Option<Content>,
}

impl PartSibling {
    /// The same sibling, its bytes shared with this one.
    pub fn copy(&self) -> Result<PartSibling, AllocError>
        ensures { IfOk result (λ copy. copy ≡ self.now) }
    {
        let content = match &self.content {
            Some(content) => Some(content.copy()?),
            None => None,
        };
        Ok(PartSibling {
            dot: self.dot,
            content,
        })
    }
}

/// A state of a key of which some contents are left out: those that the side for which it was made holds.
#[derive(Drop)]
pub struct Part {
    pub(crate) siblings: Vec<PartSibling>,
    pub(crate) clock: Clock,
}

impl Model for Part {
    ghost use Rattle.key_state.specs.Parts.{Partial, IsPart};

    ghost Value = { Partial };

    ghost view = { λ p. record { siblings = p.siblings.items; clock = p.clock } };

    ghost invariant = { λ p. IsPart (record { siblings = p.siblings.items; clock = p.clock }) };
}

impl Part {
    /// The siblings, rising by dot.
    pub fn siblings(&self) -> &[PartSibling]
        ensures all { result.now ≡ self.now.siblings }
        ensures part { IsPart self.now }
    {
        &self.siblings
    }

    /// The clock.
    pub fn clock(&self) -> &Clock
        ensures { result.now ≡ self.now.clock }
    {
        &self.clock
    }

    /// The same part, its contents' bytes shared with this one.
    pub fn copy(&self, alloc: Global) -> Result<Part, AllocError>
        ensures { IfOk result (λ copy. copy ≡ self.now) }
    {
        let mut siblings = Vec::with_capacity(alloc, self.siblings.len())?;
        for sibling in self.siblings() {
            siblings.push(sibling.copy()?)?;
        }
        Ok(Part {
            siblings,
            clock: self.clock().copy(alloc)?,
        })
    }

    // Whether one of its siblings has a dot.
    pub(crate) fn names(&self, dot: Dot) -> bool
        ensures { result ≡ names self.now dot }
    {
        self.siblings.iter().any(|sibling| sibling.dot == dot)
    }

    /// How many contents it has.
    pub fn contents(&self) -> usize
        ensures { result ≡ contents_in self.now }
    {
        let mut count = 0;
        for sibling in &self.siblings {
            if sibling.content.is_some() {
                count += 1;
            }
        }
        count
    }
}

// Whether these are the dots of some siblings, in their order.
fn are_dots_of(dots: &[Dot], siblings: &[Sibling]) -> bool
    ensures { IsTrue result ↔ (dots.now ≡ map (λ (s : OneSibling). s.dot) siblings.now) }
{
    dots.len() == siblings.len()
        && dots
            .iter()
            .zip(siblings)
            .all(|(dot, sibling)| *dot == sibling.dot)
}
