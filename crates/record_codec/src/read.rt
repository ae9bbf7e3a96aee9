//! Reading a record.

ghost use Rattle.std.specs.Prelude.{◌≡◌, List, ℕ, ◌≤◌, ◌<◌, ◌+◌, ◌^◌, ◌++◌, ◌↔◌, length, IfOk, IfErr, IfSome, OnErr, take, None, IsTrue, Err, MatchResult};
ghost use Rattle.sha1.specs.Sha1.{sha1};
ghost use Rattle.std.specs.Int.{w16, w32, w64};
ghost use Rattle.record_codec.specs.Reading.{Gives, chain_at, clock_at, content_at, dot_at, key_at, next_entry, next_sibling, no_dot, number_at, place_at, record_in, sent_at, sibling_at, siblings_at, state_at, taken_at, text_at, value_at};
ghost use Rattle.record_codec.specs.Records.{Begins, HasFault, IsOfFrame, IsWhole, body_in, body_length, digest_in, mark};
ghost use Rattle.key_state.specs.declared.content.Content.TheVariants.{Value};
ghost use Rattle.record_codec.specs.declared.fault.WireFault.{WireFault as OneFault};
ghost use Rattle.record_codec.specs.declared.form.Form.TheVariants.{Wide};
ghost use Rattle.record_codec.specs.declared.record.Record.{Record as OneRecord};

use crate::fault::WireFault;
use crate::form::{FIRST_WIDE, Form};
use crate::record::Record;
use crate::write::{DIGEST_BYTES, HEAD_BYTES, TOMBSTONE, VALUE};
use dvv::{Clock, Dot, MAX_COUNTER, MAX_ENTRIES};
use key_state::{
    Bytes, Content, Key, KeyState, MAX_BUCKET_BYTES, MAX_KEY_BYTES, MAX_MEDIA_BYTES,
    MAX_VALUE_BYTES, Sibling,
};
use sha1::Sha1;
use std::alloc::{AllocError, Global};

/// No event: before each that there is.
const NO_DOT: Dot = Dot { vnode: 0, n: 0 };

/// A number of two bytes.
fn u16_at(bytes: &[u8]) -> Result<(u16, &[u8]), WireFault>
    ensures { Gives (λ x. (x.0, x.1.now)) result (number_at w16 bytes.now) }
{
    match bytes.split_first_chunk::<2>() {
        Some((front, rest)) => Ok((u16::from_be_bytes(*front), rest)),
        None => Err(WireFault::NotCanonical),
    }
}

/// A number of four bytes.
pub fn u32_at(bytes: &[u8]) -> Result<(u32, &[u8]), WireFault>
    ensures { Gives (λ x. (x.0, x.1.now)) result (number_at w32 bytes.now) }
{
    match bytes.split_first_chunk::<4>() {
        Some((front, rest)) => Ok((u32::from_be_bytes(*front), rest)),
        None => Err(WireFault::NotCanonical),
    }
}

/// A number of eight bytes.
pub fn u64_at(bytes: &[u8]) -> Result<(u64, &[u8]), WireFault>
    ensures { Gives (λ x. (x.0, x.1.now)) result (number_at w64 bytes.now) }
{
    match bytes.split_first_chunk::<8>() {
        Some((front, rest)) => Ok((u64::from_be_bytes(*front), rest)),
        None => Err(WireFault::NotCanonical),
    }
}

/// So many bytes, where that number lies within its limits.
fn taken_at(
    bytes: &[u8],
    len: usize,
    least: usize,
    most: usize,
) -> Result<(&[u8], &[u8]), WireFault>
    ensures { Gives (λ x. (x.0.now, x.1.now)) result (taken_at least most len bytes.now) }
{
    if len < least || len > most || len > bytes.len() {
        return Err(WireFault::NotCanonical);
    }
    Ok(bytes.split_at(len))
}

/// Bytes behind their length in two bytes, which is from 1 to a greatest number.
fn short_text_at(bytes: &[u8], most: usize) -> Result<(&[u8], &[u8]), WireFault>
    ensures { Gives (λ x. (x.0.now, x.1.now)) result (text_at w16 1 most bytes.now) }
{
    let (len, rest) = u16_at(bytes)?;
    taken_at(rest, len as usize, 1, most)
}

/// Bytes behind their length in four bytes, which is at most so great.
fn long_text_at(bytes: &[u8], most: usize) -> Result<(&[u8], &[u8]), WireFault>
    ensures { Gives (λ x. (x.0.now, x.1.now)) result (text_at w32 0 most bytes.now) }
{
    let (len, rest) = u32_at(bytes)?;
    taken_at(rest, len as usize, 0, most)
}

/// The key at the front, and the bytes behind it. The only faults are `NotCanonical`, where no key within its limits is spelled
/// there, and `NoMemory`; the same holds of what follows here.
#[tactic(auto, unfolding(crate::specs::Reading::key_at))]
pub fn key_at(alloc: Global, bytes: &[u8]) -> Result<(Key, &[u8]), WireFault>
    ensures { Gives (λ x. (x.0, x.1.now)) result (key_at bytes.now) }
{
    let (bucket, rest) = short_text_at(bytes, MAX_BUCKET_BYTES)?;
    let (key, rest) = short_text_at(rest, MAX_KEY_BYTES)?;
    Ok((Key::new(alloc, bucket, key)?, rest))
}

/// The dot at the front.
#[tactic(auto, unfolding(crate::specs::Reading::dot_at))]
pub fn dot_at(bytes: &[u8]) -> Result<(Dot, &[u8]), WireFault>
    ensures { Gives (λ x. (x.0, x.1.now)) result (dot_at bytes.now) }
{
    let (vnode, rest) = u32_at(bytes)?;
    let (n, rest) = u64_at(rest)?;
    Ok((Dot { vnode, n }, rest))
}

#[tactic(auto, unfolding(crate::specs::Reading::value_at))]
fn value_at(alloc: Global, bytes: &[u8]) -> Result<(Content, &[u8]), WireFault>
    ensures { Gives (λ x. (x.0, x.1.now)) result (value_at bytes.now) }
{
    let (media, rest) = short_text_at(bytes, MAX_MEDIA_BYTES)?;
    let (bytes, rest) = long_text_at(rest, MAX_VALUE_BYTES)?;
    Ok((value_of(alloc, media, bytes)?, rest))
}

/// The content that is a value of these bytes.
fn value_of(alloc: Global, media: &[u8], bytes: &[u8]) -> Result<Content, AllocError>
    ensures { IfOk result (λ content. content ≡ Value media.now bytes.now) }
{
    Ok(Content::Value {
        media: Bytes::from_slice(alloc, media)?,
        bytes: Bytes::from_slice(alloc, bytes)?,
    })
}

/// The content at the front.
#[tactic(auto, unfolding(crate::specs::Reading::content_at))]
pub fn content_at(alloc: Global, bytes: &[u8]) -> Result<(Content, &[u8]), WireFault>
    ensures { Gives (λ x. (x.0, x.1.now)) result (content_at bytes.now) }
{
    match bytes {
        [TOMBSTONE, rest @ ..] => Ok((Content::Tombstone, rest)),
        [VALUE, rest @ ..] => value_at(alloc, rest),
        _ => Err(WireFault::NotCanonical),
    }
}

#[tactic(auto, unfolding(crate::specs::Reading::sibling_at))]
fn sibling_at(alloc: Global, bytes: &[u8]) -> Result<(Sibling, &[u8]), WireFault>
    ensures { Gives (λ x. (x.0, x.1.now)) result (sibling_at bytes.now) }
{
    let (dot, rest) = dot_at(bytes)?;
    let (content, rest) = content_at(alloc, rest)?;
    Ok((Sibling { dot, content }, rest))
}

/// The clock at the front.
#[tactic(auto, unfolding(crate::specs::Reading::clock_at))]
pub fn clock_at(alloc: Global, bytes: &[u8]) -> Result<(Clock, &[u8]), WireFault>
    ensures { Gives (λ x. (x.0, x.1.now)) result (clock_at bytes.now) }
{
    let (count, rest) = u16_at(bytes)?;
    if count as usize > MAX_ENTRIES {
        return Err(WireFault::NotCanonical);
    }
    let (entries, rest) = each_entry_at(alloc, count, rest)?;
    Ok((Clock::from_entries(entries), rest))
}

/// So many entries of a clock.
fn each_entry_at(alloc: Global, count: u16, bytes: &[u8]) -> Result<(Vec<Dot>, &[u8]), WireFault>
    ensures { Gives (λ x. (x.0.items, x.1.now)) result (chain_at dot_at next_entry count 0 bytes.now) }
{
    let mut entries = Vec::new(alloc);
    let mut bound = 0;
    let mut rest = bytes;
    for _ in 0..count {
        let (entry, after) = dot_at(rest)?;
        bound = next_entry(bound, entry)?;
        entries.push(entry)?;
        rest = after;
    }
    Ok((entries, rest))
}

/// Where the vnodes of further entries begin, if this one may stand after those below a bound.
fn next_entry(bound: u64, entry: Dot) -> Result<u64, WireFault>
    ensures { Gives (λ next. next) result (next_entry bound entry) }
{
    if (entry.vnode as u64) < bound || entry.n < 1 || entry.n > MAX_COUNTER {
        return Err(WireFault::NotCanonical);
    }
    Ok(entry.vnode as u64 + 1)
}

#[tactic(auto, unfolding(crate::specs::Reading::siblings_at))]
fn siblings_at<'a>(
    alloc: Global,
    clock: &Clock,
    bytes: &'a [u8],
) -> Result<(Vec<Sibling>, &'a [u8]), WireFault>
    ensures { Gives (λ x. (x.0.items, x.1.now)) result (siblings_at clock.now bytes.now) }
{
    let (count, rest) = u32_at(bytes)?;
    each_sibling_at(alloc, clock, count, rest)
}

/// So many siblings.
fn each_sibling_at<'a>(
    alloc: Global,
    clock: &Clock,
    count: u32,
    bytes: &'a [u8],
) -> Result<(Vec<Sibling>, &'a [u8]), WireFault>
    ensures { Gives (λ x. (x.0.items, x.1.now)) result (chain_at sibling_at (next_sibling clock.now) count no_dot bytes.now) }
{
    let mut siblings = Vec::new(alloc);
    let mut last = NO_DOT;
    let mut rest = bytes;
    for _ in 0..count {
        let (sibling, after) = sibling_at(alloc, rest)?;
        last = next_sibling(clock, last, &sibling)?;
        siblings.push(sibling)?;
        rest = after;
    }
    Ok((siblings, rest))
}

/// The dot of a sibling, if it may stand after one with another dot.
fn next_sibling(clock: &Clock, last: Dot, sibling: &Sibling) -> Result<Dot, WireFault>
    ensures { Gives (λ next. next) result (next_sibling clock.now last sibling.now) }
{
    if last.is_before(sibling.dot) && clock.covers(sibling.dot) {
        Ok(sibling.dot)
    } else {
        Err(WireFault::NotCanonical)
    }
}

/// The state at the front.
#[tactic(auto, unfolding(crate::specs::Reading::state_at))]
pub fn state_at(alloc: Global, bytes: &[u8]) -> Result<(KeyState, &[u8]), WireFault>
    ensures { Gives (λ x. (x.0, x.1.now)) result (state_at bytes.now) }
{
    let (clock, rest) = clock_at(alloc, bytes)?;
    let (siblings, rest) = siblings_at(alloc, &clock, rest)?;
    Ok((KeyState::from_parts(clock, siblings)?, rest))
}

/// The place of a record of a form.
#[tactic(auto, unfolding(crate::specs::Reading::place_at))]
fn place_at(form: Form, bytes: &[u8]) -> Result<(u64, &[u8]), WireFault>
    ensures { Gives (λ x. (x.0, x.1.now)) result (place_at form bytes.now) }
{
    match form {
        Form::Narrow => {
            let (at, rest) = u32_at(bytes)?;
            Ok((at as u64, rest))
        }
        Form::Wide => wide_place_at(bytes),
    }
}

/// The place of a record of the wide form.
#[tactic(auto, unfolding(crate::specs::Reading::place_at))]
fn wide_place_at(bytes: &[u8]) -> Result<(u64, &[u8]), WireFault>
    ensures { Gives (λ x. (x.0, x.1.now)) result (place_at Wide bytes.now) }
{
    let (at, rest) = u64_at(bytes)?;
    if at < FIRST_WIDE {
        return Err(WireFault::NotCanonical);
    }
    Ok((at, rest))
}

/// Whose state it is, the place at which it was read, and the state.
#[tactic(auto, unfolding(crate::specs::Reading::sent_at, crate::specs::Reading::placed_at))]
fn sent_at(
    alloc: Global,
    form: Form,
    bytes: &[u8],
) -> Result<(u32, u64, KeyState, &[u8]), WireFault>
    ensures { Gives (λ x. ((x.0, (x.1, x.2)), x.3.now)) result (sent_at form bytes.now) }
{
    let (from, rest) = u32_at(bytes)?;
    let (at, rest) = place_at(form, rest)?;
    let (state, rest) = state_at(alloc, rest)?;
    Ok((from, at, state, rest))
}

/// The record of a form whose body these bytes are, all of them.
#[tactic(auto, unfolding(crate::specs::Reading::record_in, crate::specs::Reading::body_at))]
fn record_in(alloc: Global, form: Form, body: &[u8]) -> Result<Record, WireFault>
    ensures { Gives (λ record_. record_) result (record_in form body.now) }
{
    let (key, rest) = key_at(alloc, body)?;
    let (from, at, state, rest) = sent_at(alloc, form, rest)?;
    if !rest.is_empty() {
        return Err(WireFault::NotCanonical);
    }
    Ok(Record {
        key,
        from,
        at,
        state,
    })
}

/// Whether these bytes are the digest of a body.
fn is_digest(body: &[u8], digest: &[u8]) -> bool
    ensures { IsTrue result ↔ (sha1 body.now ≡ digest.now) }
{
    Sha1::digest(body).as_slice() == digest
}

/// A record as bytes that are lent.
#[derive(Clone, Copy)]
struct Frame<'a> {
    /// The form that its mark tells.
    form: Form,
    /// Its body.
    body: &'a [u8],
    /// What it gives as the body's digest.
    digest: &'a [u8],
}

/// The record at the front, as its head says where its parts are. Whether body and digest match isn't tested.
fn frame_at(bytes: &[u8]) -> Result<Frame<'_>, WireFault>
    ensures whole { IfOk result (λ frame. IsWhole bytes.now) }
    ensures form { IfOk result (λ frame. take 4 bytes.now ≡ mark frame.form) }
    ensures body { IfOk result (λ frame. frame.body.now ≡ body_in bytes.now) }
    ensures digest { IfOk result (λ frame. frame.digest.now ≡ digest_in bytes.now) }
    ensures fault { IfErr result (HasFault bytes.now) }
    ensures cut { OnErr result (IsWhole bytes.now → ⊥) }
{
    let Some((head, rest)) = bytes.split_first_chunk::<4>() else {
        return Err(WireFault::Cut);
    };
    let Some((len, rest)) = rest.split_first_chunk::<4>() else {
        return Err(WireFault::Cut);
    };
    let Some(form) = Form::marked(*head) else {
        return Err(WireFault::Mark);
    };
    let len = u32::from_be_bytes(*len) as usize;
    if rest.len() < len + DIGEST_BYTES {
        return Err(WireFault::Cut);
    }
    let (body, rest) = rest.split_at(len);
    let digest = &rest[..DIGEST_BYTES];
    Ok(Frame { form, body, digest })
}

/// How long a record with a body is.
fn length_around(body: &[u8]) -> usize
    ensures { result ≡ 28 + length body.now }
{
    HEAD_BYTES + body.len() + DIGEST_BYTES
}

/// How long the record at the front of the input is, as its head says it. None where the input doesn't begin with a mark, or ends before
/// all that the length says. Neither the body nor its digest is looked at.
pub fn record_length(bytes: &[u8]) -> Option<usize>
    ensures some { IfSome result (λ len. IsWhole bytes.now × (len ≡ 28 + body_length bytes.now)) }
    ensures within { IfSome result (λ len. len ≤ length bytes.now) }
    ensures none { result ≡ None → IsWhole bytes.now → ⊥ }
{
    match frame_at(bytes) {
        Ok(frame) => Some(length_around(frame.body)),
        Err(_) => None,
    }
}

/// The record at the front, whose digest is right, and its length.
fn right_frame_at(bytes: &[u8]) -> Result<(Frame<'_>, usize), WireFault>
    ensures whole { IfOk result (λ x. IsWhole bytes.now) }
    ensures form { IfOk result (λ x. take 4 bytes.now ≡ mark x.0.form) }
    ensures digest { IfOk result (λ x. sha1 (body_in bytes.now) ≡ digest_in bytes.now) }
    ensures body { IfOk result (λ x. x.0.body.now ≡ body_in bytes.now) }
    ensures len { IfOk result (λ x. x.1 ≡ 28 + body_length bytes.now) }
    ensures fault { IfErr result (HasFault bytes.now) }
{
    let frame = match frame_at(bytes) {
        Ok(frame) => frame,
        Err(fault) => return Err(fault),
    };
    if !is_digest(frame.body, frame.digest) {
        return Err(WireFault::Digest);
    }
    let len = length_around(frame.body);
    Ok((frame, len))
}

/// The record at the front of the input, and its length; anything may follow it.
///
/// Else the first fault in the order of [`WireFault`]. Nothing is kept of an input that is refused.
pub fn read_record(alloc: Global, bytes: &[u8]) -> Result<(Record, usize), WireFault>
    // What is read begins the input.
    ensures found { IfOk result (λ x. Begins bytes.now x.0 x.1) }
    ensures within { IfOk result (λ x. x.1 ≤ length bytes.now) }
    // What begins the input is read, unless memory runs out.
    ensures only { (r : OneRecord) (len : ℕ) → Begins bytes.now r len → MatchResult result (λ x. (x.0 ≡ r) × (x.1 ≡ len)) (λ fault. fault ≡ WireFault.NoMemory) }
    // Which fault it is. Memory runs out only on the body of a record whose frame is right.
    ensures fault { IfErr result (HasFault bytes.now) }
    // A fault of the frame is told exactly where it stands.
    ensures exact { (fault : OneFault) → IsOfFrame fault → (result ≡ Err fault) ↔ HasFault bytes.now fault }
{
    let (frame, len) = match right_frame_at(bytes) {
        Ok(front) => front,
        Err(fault) => return Err(fault),
    };
    let record_ = record_in(alloc, frame.form, frame.body)?;
    Ok((record_, len))
}
