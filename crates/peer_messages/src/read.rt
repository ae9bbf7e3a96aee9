//! Reading messages.

ghost use Rattle.std.specs.Prelude.{◌≡◌, IfOk, MatchResult};
ghost use Rattle.record_codec.specs.Reading.{Gives};
ghost use Rattle.peer_remote.specs.declared.message.Question.{Question as OneQuestion};
ghost use Rattle.peer_remote.specs.declared.message.Told.{Told as Answer};
ghost use Rattle.peer_messages.specs.Limits.{IsQuestion, IsTold};
ghost use Rattle.peer_messages.specs.Messages.{question_text, told_text};
ghost use Rattle.peer_messages.specs.Reading.{about_at, merge_at, merge_part_at, put_at, question_in, refused_at, source_at, telling_at, told_dot_at, told_in, told_state_at, told_summary_at};

use crate::fault::Unread;
use crate::kinds::{
    CHANGED, DOT, MERGE, MISSING, PART, PUT, READ, REFUSED, SAME, STATE, SUMMARIZED, SUMMARY,
    fault_of,
};
use crate::parts::{part_at, summary_at};
use key_state::Key;
use peer_remote::{Question, Told};
use record_codec::{WireFault, clock_at, content_at, dot_at, key_at, state_at, u32_at, u64_at};
use std::alloc::Global;

/// The question that bytes spell, all of them.
pub fn read_ask(alloc: Global, bytes: &[u8]) -> Result<Question, Unread>
    // What is read is spelled so.
    ensures found { IfOk result (λ question. IsQuestion question × (bytes.now ≡ question_text question)) }
    // What is spelled is read, unless memory runs out.
    ensures only { (question : OneQuestion) → IsQuestion question → bytes.now ≡ question_text question → MatchResult result (λ x. x ≡ question) (λ fault. fault ≡ Unread.NoMemory) }
{
    match question_in(alloc, bytes) {
        Ok(question) => Ok(question),
        Err(fault) => Err(Unread::of(fault)),
    }
}

/// The answer that bytes spell, all of them.
pub fn read_told(alloc: Global, bytes: &[u8]) -> Result<Told, Unread>
    // What is read is spelled so.
    ensures found { IfOk result (λ told. IsTold told × (bytes.now ≡ told_text told)) }
    // What is spelled is read, unless memory runs out.
    ensures only { (told : Answer) → IsTold told → bytes.now ≡ told_text told → MatchResult result (λ x. x ≡ told) (λ fault. fault ≡ Unread.NoMemory) }
{
    match told_in(alloc, bytes) {
        Ok(told) => Ok(told),
        Err(fault) => Err(Unread::of(fault)),
    }
}

/// The question that all of these bytes are.
#[tactic(auto, unfolding(crate::specs::Reading::question_in, crate::specs::Reading::question_at))]
fn question_in(alloc: Global, bytes: &[u8]) -> Result<Question, WireFault>
    ensures { Gives (λ question. question) result (question_in bytes.now) }
{
    let [kind, vnode, rest @ ..] = bytes else {
        return Err(WireFault::NotCanonical);
    };
    let (key, rest) = key_at(alloc, rest)?;
    let (question, rest) = about_at(alloc, *kind, *vnode, key, rest)?;
    if !rest.is_empty() {
        return Err(WireFault::NotCanonical);
    }
    Ok(question)
}

/// The question of a kind, whose key was read.
#[tactic(auto, unfolding(crate::specs::Reading::about_at))]
fn about_at(
    alloc: Global,
    kind: u8,
    vnode: u8,
    key: Key,
    bytes: &[u8],
) -> Result<(Question, &[u8]), WireFault>
    ensures { Gives (λ x. (x.0, x.1.now)) result (about_at kind vnode key bytes.now) }
{
    match kind {
        PUT => put_at(alloc, vnode, key, bytes),
        MERGE => merge_at(alloc, vnode, key, bytes),
        READ => Ok((Question::Read { vnode, key }, bytes)),
        SUMMARY => Ok((Question::Summary { vnode, key }, bytes)),
        PART => merge_part_at(alloc, vnode, key, bytes),
        _ => Err(WireFault::NotCanonical),
    }
}

/// A put: the context and the content.
#[tactic(auto, unfolding(crate::specs::Reading::put_at))]
fn put_at(alloc: Global, vnode: u8, key: Key, bytes: &[u8]) -> Result<(Question, &[u8]), WireFault>
    ensures { Gives (λ x. (x.0, x.1.now)) result (put_at vnode key bytes.now) }
{
    let (seen, rest) = clock_at(alloc, bytes)?;
    let (content, rest) = content_at(alloc, rest)?;
    let question = Question::Put {
        vnode,
        key,
        seen,
        content,
    };
    Ok((question, rest))
}

/// A merge: the read and its state.
#[tactic(auto, unfolding(crate::specs::Reading::merge_at))]
fn merge_at(
    alloc: Global,
    vnode: u8,
    key: Key,
    bytes: &[u8],
) -> Result<(Question, &[u8]), WireFault>
    ensures { Gives (λ x. (x.0, x.1.now)) result (merge_at vnode key bytes.now) }
{
    let ((from, at), rest) = source_at(bytes)?;
    let (state, rest) = state_at(alloc, rest)?;
    let question = Question::Merge {
        vnode,
        key,
        from,
        at,
        state,
    };
    Ok((question, rest))
}

/// A merge of a part: the read and the part.
#[tactic(auto, unfolding(crate::specs::Reading::merge_part_at))]
fn merge_part_at(
    alloc: Global,
    vnode: u8,
    key: Key,
    bytes: &[u8],
) -> Result<(Question, &[u8]), WireFault>
    ensures { Gives (λ x. (x.0, x.1.now)) result (merge_part_at vnode key bytes.now) }
{
    let ((from, at), rest) = source_at(bytes)?;
    let (part, rest) = part_at(alloc, rest)?;
    let question = Question::Part {
        vnode,
        key,
        from,
        at,
        part,
    };
    Ok((question, rest))
}

/// A read: the vnode, and the place in its journal.
#[tactic(auto, unfolding(crate::specs::Reading::source_at))]
fn source_at(bytes: &[u8]) -> Result<((u32, u64), &[u8]), WireFault>
    ensures { Gives (λ x. (x.0, x.1.now)) result (source_at bytes.now) }
{
    let (from, rest) = u32_at(bytes)?;
    let (at, rest) = u64_at(rest)?;
    Ok(((from, at), rest))
}

/// The answer that all of these bytes are.
#[tactic(auto, unfolding(crate::specs::Reading::told_in, crate::specs::Reading::told_at))]
fn told_in(alloc: Global, bytes: &[u8]) -> Result<Told, WireFault>
    ensures { Gives (λ told. told) result (told_in bytes.now) }
{
    let [kind, rest @ ..] = bytes else {
        return Err(WireFault::NotCanonical);
    };
    let (told, rest) = telling_at(alloc, *kind, rest)?;
    if !rest.is_empty() {
        return Err(WireFault::NotCanonical);
    }
    Ok(told)
}

/// The answer of a kind.
#[tactic(auto, unfolding(crate::specs::Reading::telling_at))]
fn telling_at(alloc: Global, kind: u8, bytes: &[u8]) -> Result<(Told, &[u8]), WireFault>
    ensures { Gives (λ x. (x.0, x.1.now)) result (telling_at kind bytes.now) }
{
    match kind {
        DOT => told_dot_at(bytes),
        SAME => Ok((Told::Changed(false), bytes)),
        CHANGED => Ok((Told::Changed(true), bytes)),
        STATE => told_state_at(alloc, bytes),
        SUMMARIZED => told_summary_at(alloc, bytes),
        MISSING => Ok((Told::Missing, bytes)),
        REFUSED => refused_at(bytes),
        _ => Err(WireFault::NotCanonical),
    }
}

/// The dot of a put.
#[tactic(auto, unfolding(crate::specs::Reading::told_dot_at))]
fn told_dot_at(bytes: &[u8]) -> Result<(Told, &[u8]), WireFault>
    ensures { Gives (λ x. (x.0, x.1.now)) result (told_dot_at bytes.now) }
{
    let (dot, rest) = dot_at(bytes)?;
    Ok((Told::Dot(dot), rest))
}

/// A read and its state.
#[tactic(auto, unfolding(crate::specs::Reading::told_state_at))]
fn told_state_at(alloc: Global, bytes: &[u8]) -> Result<(Told, &[u8]), WireFault>
    ensures { Gives (λ x. (x.0, x.1.now)) result (told_state_at bytes.now) }
{
    let ((from, at), rest) = source_at(bytes)?;
    let (state, rest) = state_at(alloc, rest)?;
    Ok((Told::State { from, at, state }, rest))
}

/// A read and its summary.
#[tactic(auto, unfolding(crate::specs::Reading::told_summary_at))]
fn told_summary_at(alloc: Global, bytes: &[u8]) -> Result<(Told, &[u8]), WireFault>
    ensures { Gives (λ x. (x.0, x.1.now)) result (told_summary_at bytes.now) }
{
    let ((from, at), rest) = source_at(bytes)?;
    let (summary, rest) = summary_at(alloc, rest)?;
    Ok((Told::Summary { from, at, summary }, rest))
}

/// Why a vnode refused.
#[tactic(auto, unfolding(crate::specs::Reading::refused_at))]
fn refused_at(bytes: &[u8]) -> Result<(Told, &[u8]), WireFault>
    ensures { Gives (λ x. (x.0, x.1.now)) result (refused_at bytes.now) }
{
    let Some((byte, rest)) = bytes.split_first() else {
        return Err(WireFault::NotCanonical);
    };
    match fault_of(*byte) {
        Some(fault) => Ok((Told::Refused(fault), rest)),
        None => Err(WireFault::NotCanonical),
    }
}
