//! Writing messages.

ghost use Rattle.std.specs.Prelude.{◌≡◌, ◌<◌, ◌^◌, ◌++◌, ◌∷◌, [], ◌↔◌, Err, OnOk};
ghost use Rattle.record_codec.specs.Records.{key, state};
ghost use Rattle.record_codec.specs.declared.lists.Unspelled.TheVariants.{PastLimit};
ghost use Rattle.key_state.specs.Limits.{IsKey};
ghost use Rattle.peer_remote.specs.Questions.{question_of};
ghost use Rattle.peer_messages.specs.Limits.{IsQuestion, IsSentPart, IsSentState, IsShort, IsShortPart, IsShortQuestion, IsShortState, IsShortSummary, IsSource, IsTold};
ghost use Rattle.peer_messages.specs.Messages.{emptied, part, question_text, source, summary, told_text};

use crate::kinds::{
    CHANGED, DOT, MERGE, MISSING, PART, PUT, READ, REFUSED, SAME, STATE, SUMMARIZED, SUMMARY,
    fault_byte,
};
use crate::limits::{is_short, is_short_question};
use crate::parts::{put_part, put_summary};
use key_state::{Key, KeyState, Part, Summary};
use peer_remote::{Ask, Told};
use record_codec::{Unspelled, put_clock, put_content, put_dot, put_key, put_siblings};
use std::alloc::AllocError;

/// Writes what is asked in place of what a buffer held. `PastLimit` exactly where a key, a content or a number of siblings is past its
/// limit. After an error the buffer holds no message.
pub fn write_ask(out: &mut Vec<u8>, ask: &Ask<'_>) -> Result<(), Unspelled>
    ensures written { OnOk result (IsQuestion (question_of ask.now) × (out.new.items ≡ question_text (question_of ask.now))) }
    ensures past_limit { result ≡ Err PastLimit ↔ (IsShortQuestion (question_of ask.now) → ⊥) }
{
    out.clear();
    if !is_short_question(ask) {
        return Err(Unspelled::PastLimit);
    }
    Ok(put_ask(out, ask)?)
}

/// Writes what is told in place of what a buffer held. `PastLimit` exactly where a content or a number of siblings is past its limit, or
/// a summary's dots don't rise or aren't covered by its clock, as those of each state do. After an error the buffer holds no message.
pub fn write_told(out: &mut Vec<u8>, told: &Told) -> Result<(), Unspelled>
    ensures written { OnOk result (IsTold told.now × (out.new.items ≡ told_text told.now)) }
    ensures past_limit { result ≡ Err PastLimit ↔ (IsShort told.now → ⊥) }
{
    out.clear();
    if !is_short(told) {
        return Err(Unspelled::PastLimit);
    }
    Ok(put_told(out, told)?)
}

/// Adds what is asked.
fn put_ask(out: &mut Vec<u8>, ask: &Ask<'_>) -> Result<(), AllocError>
    requires { IsShortQuestion (question_of ask.now) }
    ensures written { OnOk result (out.new.items ≡ out.old.items ++ question_text (question_of ask.now)) }
    ensures question { OnOk result (IsQuestion (question_of ask.now)) }
{
    match ask {
        Ask::Put {
            vnode,
            key,
            seen,
            content,
        } => {
            put_head(out, PUT, *vnode, key)?;
            put_clock(out, seen)?;
            put_content(out, content)
        }
        Ask::Merge {
            vnode,
            key,
            from,
            at,
            state,
        } => {
            put_head(out, MERGE, *vnode, key)?;
            put_read_state(out, *from, *at, state)
        }
        Ask::Read { vnode, key } => put_head(out, READ, *vnode, key),
        Ask::Summary { vnode, key } => put_head(out, SUMMARY, *vnode, key),
        Ask::Part {
            vnode,
            key,
            from,
            at,
            part,
        } => {
            put_head(out, PART, *vnode, key)?;
            put_read_part(out, *from, *at, part)
        }
    }
}

/// Adds a question's kind, the vnode's index and the key.
fn put_head(out: &mut Vec<u8>, kind: u8, vnode: u8, one: &Key) -> Result<(), AllocError>
    requires { IsKey one.now }
    ensures written { OnOk result (out.new.items ≡ out.old.items ++ (kind ∷ vnode ∷ key one.now)) }
    ensures narrow { vnode < 2 ^ 8 }
{
    out.extend_from_slice(&[kind, vnode])?;
    put_key(out, one)
}

/// Adds a read: the vnode, and the place in its journal.
fn put_source(out: &mut Vec<u8>, from: u32, at: u64) -> Result<(), AllocError>
    ensures written { OnOk result (out.new.items ≡ out.old.items ++ source from at) }
    ensures narrow { IsSource from at }
{
    out.extend_from_slice(&from.to_be_bytes())?;
    out.extend_from_slice(&at.to_be_bytes())
}

/// Adds a state.
fn put_state(out: &mut Vec<u8>, whole: &KeyState) -> Result<(), AllocError>
    requires { IsShortState whole.now }
    ensures written { OnOk result (out.new.items ≡ out.old.items ++ state whole.now) }
    ensures sent { OnOk result (IsSentState whole.now) }
{
    put_clock(out, whole.clock())?;
    put_siblings(out, whole.siblings())
}

/// Adds a read and the state that it answered.
fn put_read_state(out: &mut Vec<u8>, from: u32, at: u64, whole: &KeyState) -> Result<(), AllocError>
    requires { IsShortState whole.now }
    ensures written { OnOk result (out.new.items ≡ out.old.items ++ (source from at ++ state whole.now)) }
    ensures source { IsSource from at }
    ensures sent { OnOk result (IsSentState whole.now) }
{
    put_source(out, from, at)?;
    put_state(out, whole)
}

/// Adds a read and a part of the state that it answered.
fn put_read_part(out: &mut Vec<u8>, from: u32, at: u64, some: &Part) -> Result<(), AllocError>
    requires { IsShortPart some.now }
    ensures written { OnOk result (out.new.items ≡ out.old.items ++ (source from at ++ part some.now)) }
    ensures source { IsSource from at }
    ensures sent { OnOk result (IsSentPart some.now) }
{
    put_source(out, from, at)?;
    put_part(out, some)
}

/// Adds a read and the summary that it answered.
fn put_read_summary(
    out: &mut Vec<u8>,
    from: u32,
    at: u64,
    short: &Summary,
) -> Result<(), AllocError>
    requires { IsShortSummary short.now }
    ensures written { OnOk result (out.new.items ≡ out.old.items ++ (source from at ++ summary short.now)) }
    ensures source { IsSource from at }
    ensures sent { OnOk result (IsSentPart (emptied short.now)) }
{
    put_source(out, from, at)?;
    put_summary(out, short)
}

/// Adds what is told.
fn put_told(out: &mut Vec<u8>, told: &Told) -> Result<(), AllocError>
    requires { IsShort told.now }
    ensures written { OnOk result (out.new.items ≡ out.old.items ++ told_text told.now) }
    ensures told { OnOk result (IsTold told.now) }
{
    match told {
        Told::Dot(dot) => {
            out.push(DOT)?;
            put_dot(out, *dot)
        }
        Told::Changed(false) => out.extend_from_slice(&[SAME]),
        Told::Changed(true) => out.extend_from_slice(&[CHANGED]),
        Told::State { from, at, state } => {
            out.push(STATE)?;
            put_read_state(out, *from, *at, state)
        }
        Told::Summary { from, at, summary } => {
            out.push(SUMMARIZED)?;
            put_read_summary(out, *from, *at, summary)
        }
        Told::Missing => out.extend_from_slice(&[MISSING]),
        Told::Refused(fault) => out.extend_from_slice(&[REFUSED, fault_byte(*fault)]),
    }
}
