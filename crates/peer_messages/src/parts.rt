//! Parts of states and summaries, as bytes.

ghost use Rattle.std.specs.Prelude.{◌≡◌, ◌<◌, ◌^◌, ◌++◌, IfOk, OnOk, length, map};
ghost use Rattle.std.specs.List.{flat_map};
ghost use Rattle.key_state.specs.Parts.{IsPart};
ghost use Rattle.record_codec.specs.Reading.{Gives, chain_at, no_dot};
ghost use Rattle.peer_messages.specs.Limits.{AreSentContents, IsSentContent, IsSentPart, IsShortPart, IsShortSummary};
ghost use Rattle.peer_messages.specs.Messages.{emptied, left_out_dot, left_out_dots, part, part_sibling, part_siblings, sent_content, summary};
ghost use Rattle.peer_messages.specs.Filling.{bare_of, bare_siblings, filled, left_out};
ghost use Rattle.peer_messages.specs.Reading.{are_left_out, dots_of, next_part, part_at, part_sibling_at, part_siblings_at, sent_content_at, summary_at};

use crate::kinds::LEFT_OUT;
use crate::limits::{NO_DOT, follows};
use dvv::{Clock, Dot};
use key_state::{Content, KeyState, Part, PartSibling, Sibling, Summary};
use record_codec::{
    WireFault, clock_at, content_at, dot_at, put_clock, put_content, put_dot, u32_at,
};
use std::alloc::{AllocError, Global};

// ---- written

/// Adds a part.
pub(crate) fn put_part(out: &mut Vec<u8>, whole: &Part) -> Result<(), AllocError>
    requires { IsShortPart whole.now }
    ensures written { OnOk result (out.new.items ≡ out.old.items ++ part whole.now) }
    ensures sent { OnOk result (IsSentPart whole.now) }
{
    put_clock(out, whole.clock())?;
    put_part_siblings(out, whole.siblings())
}

/// Adds the siblings of a part behind their number.
fn put_part_siblings(out: &mut Vec<u8>, all: &[PartSibling]) -> Result<(), AllocError>
    requires few { length all.now < 2 ^ 32 }
    requires contents { AreSentContents all.now }
    ensures { OnOk result (out.new.items ≡ out.old.items ++ part_siblings all.now) }
{
    out.extend_from_slice(&(all.len() as u32).to_be_bytes())?;
    put_each(out, all)
}

/// Adds siblings of a part.
fn put_each(out: &mut Vec<u8>, all: &[PartSibling]) -> Result<(), AllocError>
    requires { AreSentContents all.now }
    ensures { OnOk result (out.new.items ≡ out.old.items ++ flat_map part_sibling all.now) }
{
    for one in all {
        put_part_sibling(out, one)?;
    }
    Ok(())
}

/// Adds a sibling of a part.
fn put_part_sibling(out: &mut Vec<u8>, one: &PartSibling) -> Result<(), AllocError>
    requires { IsSentContent one.now.content }
    ensures { OnOk result (out.new.items ≡ out.old.items ++ part_sibling one.now) }
{
    put_dot(out, one.dot)?;
    put_sent_content(out, &one.content)
}

/// Adds a content, or what stands for one that was left out.
fn put_sent_content(out: &mut Vec<u8>, one: &Option<Content>) -> Result<(), AllocError>
    requires { IsSentContent one.now }
    ensures { OnOk result (out.new.items ≡ out.old.items ++ sent_content one.now) }
{
    match one {
        Some(content) => put_content(out, content),
        None => out.extend_from_slice(&[LEFT_OUT]),
    }
}

/// Adds a summary.
#[tactic(auto, using(crate::proofs::PartFormats::summary_is_sent))]
pub(crate) fn put_summary(out: &mut Vec<u8>, whole: &Summary) -> Result<(), AllocError>
    requires { IsShortSummary whole.now }
    ensures written { OnOk result (out.new.items ≡ out.old.items ++ summary whole.now) }
    ensures sent { OnOk result (IsSentPart (emptied whole.now)) }
{
    put_clock(out, whole.clock())?;
    put_left_out(out, whole.dots())
}

/// Adds dots whose contents were left out, behind their number.
fn put_left_out(out: &mut Vec<u8>, dots: &[Dot]) -> Result<(), AllocError>
    requires { length dots.now < 2 ^ 32 }
    ensures { OnOk result (out.new.items ≡ out.old.items ++ left_out_dots dots.now) }
{
    out.extend_from_slice(&(dots.len() as u32).to_be_bytes())?;
    put_each_left_out(out, dots)
}

/// Adds such dots.
fn put_each_left_out(out: &mut Vec<u8>, dots: &[Dot]) -> Result<(), AllocError>
    ensures { OnOk result (out.new.items ≡ out.old.items ++ flat_map left_out_dot dots.now) }
{
    for one in dots {
        put_one_left_out(out, *one)?;
    }
    Ok(())
}

/// Adds such a dot.
fn put_one_left_out(out: &mut Vec<u8>, one: Dot) -> Result<(), AllocError>
    ensures { OnOk result (out.new.items ≡ out.old.items ++ left_out_dot one) }
{
    put_dot(out, one)?;
    out.extend_from_slice(&[LEFT_OUT])
}

// ---- read

/// The part at the front.
#[tactic(auto, unfolding(crate::specs::Reading::part_at))]
pub(crate) fn part_at(alloc: Global, bytes: &[u8]) -> Result<(Part, &[u8]), WireFault>
    ensures { Gives (λ x. (x.0, x.1.now)) result (part_at bytes.now) }
{
    let (clock, rest) = clock_at(alloc, bytes)?;
    let (siblings, rest) = part_siblings_at(alloc, &clock, rest)?;
    Ok((part_of(alloc, clock, &siblings)?, rest))
}

/// The siblings of a part.
#[tactic(auto, unfolding(crate::specs::Reading::part_siblings_at))]
fn part_siblings_at<'a>(
    alloc: Global,
    clock: &Clock,
    bytes: &'a [u8],
) -> Result<(Vec<PartSibling>, &'a [u8]), WireFault>
    ensures { Gives (λ x. (x.0.items, x.1.now)) result (part_siblings_at clock.now bytes.now) }
{
    let (count, rest) = u32_at(bytes)?;
    each_at(alloc, clock, count, rest)
}

/// So many siblings of a part.
fn each_at<'a>(
    alloc: Global,
    clock: &Clock,
    count: u32,
    bytes: &'a [u8],
) -> Result<(Vec<PartSibling>, &'a [u8]), WireFault>
    ensures { Gives (λ x. (x.0.items, x.1.now)) result (chain_at part_sibling_at (next_part clock.now) count no_dot bytes.now) }
{
    let mut siblings = Vec::new(alloc);
    let mut last = NO_DOT;
    let mut rest = bytes;
    for _ in 0..count {
        let (sibling, after) = part_sibling_at(alloc, rest)?;
        last = next_part(clock, last, &sibling)?;
        siblings.push(sibling)?;
        rest = after;
    }
    Ok((siblings, rest))
}

/// The dot of a sibling of a part, if it may stand after one with another dot.
fn next_part(clock: &Clock, last: Dot, sibling: &PartSibling) -> Result<Dot, WireFault>
    ensures { Gives (λ next. next) result (next_part clock.now last sibling.now) }
{
    if follows(clock, last, sibling.dot) {
        Ok(sibling.dot)
    } else {
        Err(WireFault::NotCanonical)
    }
}

#[tactic(auto, unfolding(crate::specs::Reading::part_sibling_at))]
fn part_sibling_at(alloc: Global, bytes: &[u8]) -> Result<(PartSibling, &[u8]), WireFault>
    ensures { Gives (λ x. (x.0, x.1.now)) result (part_sibling_at bytes.now) }
{
    let (dot, rest) = dot_at(bytes)?;
    let (content, rest) = sent_content_at(alloc, rest)?;
    Ok((PartSibling { dot, content }, rest))
}

/// A content, or none where it was left out.
#[tactic(auto, unfolding(crate::specs::Reading::sent_content_at))]
fn sent_content_at(alloc: Global, bytes: &[u8]) -> Result<(Option<Content>, &[u8]), WireFault>
    ensures { Gives (λ x. (x.0, x.1.now)) result (sent_content_at bytes.now) }
{
    let Some((tag, rest)) = bytes.split_first() else {
        return Err(WireFault::NotCanonical);
    };
    if *tag == LEFT_OUT {
        return Ok((None, rest));
    }
    let (content, rest) = content_at(alloc, bytes)?;
    Ok((Some(content), rest))
}

/// The summary at the front.
#[tactic(auto, unfolding(crate::specs::Reading::summary_at))]
pub(crate) fn summary_at(alloc: Global, bytes: &[u8]) -> Result<(Summary, &[u8]), WireFault>
    ensures { Gives (λ x. (x.0, x.1.now)) result (summary_at bytes.now) }
{
    let (part, rest) = part_at(alloc, bytes)?;
    if !are_left_out(part.siblings()) {
        return Err(WireFault::NotCanonical);
    }
    Ok((summary_of(alloc, &part)?, rest))
}

/// Whether all contents were left out.
fn are_left_out(siblings: &[PartSibling]) -> bool
    ensures { result ≡ are_left_out siblings.now }
{
    siblings.iter().all(|sibling| sibling.content.is_none())
}

// ---- made of states, which alone have parts and summaries

/// The summary of a part's dots.
#[tactic(auto, using(crate::proofs::Order::filled_in_order, crate::proofs::Order::filled_covered, crate::proofs::Order::dots_of_filled))]
fn summary_of(alloc: Global, part: &Part) -> Result<Summary, AllocError>
    ensures { IfOk result (λ summary. summary ≡ dots_of part.now) }
{
    let siblings = filled(alloc, part.siblings())?;
    let clock = part.clock().copy(alloc)?;
    KeyState::from_parts(clock, siblings)?.summary(alloc)
}

/// The part that has these siblings.
#[tactic(auto, using(crate::proofs::Order::filled_in_order, crate::proofs::Order::filled_covered))]
fn part_of(alloc: Global, clock: Clock, siblings: &[PartSibling]) -> Result<Part, AllocError>
    requires { IsPart (record { siblings = siblings.now; clock = clock }) }
    ensures { IfOk result (λ part. part ≡ record { siblings = siblings.now; clock = clock }) }
{
    let held = held_of(alloc, &clock, siblings)?;
    let filled = filled(alloc, siblings)?;
    let state = KeyState::from_parts(clock, filled)?;
    let part = state.part(alloc, &held)?;
    Ok(part)
}

/// What who is sent siblings holds of them.
#[tactic(auto, using(crate::proofs::Order::bare_in_order, crate::proofs::Order::bare_covered))]
fn held_of(alloc: Global, clock: &Clock, siblings: &[PartSibling]) -> Result<Summary, AllocError>
    requires { IsPart (record { siblings = siblings.now; clock = clock.now }) }
    ensures { IfOk result (λ held. held ≡ record { dots = left_out siblings.now; clock = clock.now }) }
{
    let bare = bare_siblings(alloc, siblings)?;
    let clock = clock.copy(alloc)?;
    KeyState::from_parts(clock, bare)?.summary(alloc)
}

/// Siblings of a part as siblings, with tombstones for what was left out.
#[tactic(auto, using(crate::proofs::Listing::maps_one))]
fn filled(alloc: Global, siblings: &[PartSibling]) -> Result<Vec<Sibling>, AllocError>
    ensures { IfOk result (λ all. all.items ≡ map filled siblings.now) }
{
    let mut all = Vec::with_capacity(alloc, siblings.len())?;
    for sibling in siblings {
        all.push(filled_one(sibling)?)?;
    }
    Ok(all)
}

/// Such a sibling.
fn filled_one(sibling: &PartSibling) -> Result<Sibling, AllocError>
    ensures { IfOk result (λ one. one ≡ filled sibling.now) }
{
    let content = match &sibling.content {
        Some(content) => content.copy()?,
        None => Content::Tombstone,
    };
    Ok(Sibling {
        dot: sibling.dot,
        content,
    })
}

/// Those siblings of a part whose contents were left out, with tombstones.
fn bare_siblings(alloc: Global, siblings: &[PartSibling]) -> Result<Vec<Sibling>, AllocError>
    ensures { IfOk result (λ all. all.items ≡ bare_siblings siblings.now) }
{
    let mut all = Vec::new(alloc);
    for sibling in siblings {
        push_bare(&mut all, sibling)?;
    }
    Ok(all)
}

/// Appends a sibling with a tombstone, if its content was left out.
fn push_bare(all: &mut Vec<Sibling>, sibling: &PartSibling) -> Result<(), AllocError>
    ensures { OnOk result (all.new.items ≡ all.old.items ++ bare_of sibling.now) }
{
    if sibling.content.is_none() {
        all.push(Sibling {
            dot: sibling.dot,
            content: Content::Tombstone,
        })?;
    }
    Ok(())
}
