//! Writing a record.

ghost use Rattle.std.specs.Prelude.{◌≡◌, ℕ, ◌≤◌, ◌<◌, ◌+◌, ◌-◌, ◌*◌, ◌^◌, ◌↔◌, ◌++◌, length, IfOk, OnOk, IsTrue, IsSome};
ghost use Rattle.std.specs.Option.{SomeIff};
ghost use Rattle.std.specs.List.{flat_map};
ghost use Rattle.std.specs.Int.{w16, w32, to_be_bytes};
ghost use Rattle.dvv.specs.Clock.{IsClock};
ghost use Rattle.key_state.specs.Limits.{IsContent, IsKey};
ghost use Rattle.key_state.specs.State.{IsState};
ghost use Rattle.record_codec.specs.Records.{AreContents, AreNarrow, IsRecord, body, clock, content, dot, form_of, key, long_text, mark, place, short_text, sibling, siblings, spelling, state};
ghost use Rattle.record_codec.specs.declared.record.Record.{Record};

use crate::form::Form;
use dvv::{Clock, Dot};
use key_state::{Content, Key, KeyState, Sibling};
use sha1::Sha1;
use std::alloc::{AllocError, Global};

/// The bytes before the body: the mark, and the body's length.
pub(crate) const HEAD_BYTES: usize = 8;

/// The bytes of a SHA-1.
pub(crate) const DIGEST_BYTES: usize = 20;

/// The bytes of a dot.
const DOT_BYTES: usize = 12;

/// What stands before a content: a tombstone or a value.
pub(crate) const TOMBSTONE: u8 = 0;

pub(crate) const VALUE: u8 = 1;

/// A body's length is below this.
const BODY_LIMIT_BYTES: usize = 1 << 32;

/// Whether a key's state has a record that names this place: whether its body would be below 4,294,967,296 bytes.
pub fn has_record(key: &Key, at: u64, state: &KeyState) -> bool
    ensures { (from : ℕ) → IsTrue result ↔ (length (body (record { key = key.now; from = from; at = at; state = state.now })) < 2 ^ 32) }
{
    body_len(key, at, state).is_some()
}

/// The one spelling of a record: of this key's state, which is the state of the vnode `from` at the place `at` of its
/// journal. The only error is that memory ran out.
pub fn write_record(
    alloc: Global,
    key: &Key,
    from: u32,
    at: u64,
    state: &KeyState,
) -> Result<Vec<u8>, AllocError>
    requires key { IsKey key.now }
    requires contents { AreContents state.now.siblings }
    requires short { length (body (record { key = key.now; from = from; at = at; state = state.now })) < 2 ^ 32 }
    ensures written { IfOk result (λ bytes. bytes.items ≡ spelling (record { key = key.now; from = from; at = at; state = state.now })) }

    // It is a record's, so it is read as it was, whatever follows it.
    ensures is_record { OnOk result (IsRecord (record { key = key.now; from = from; at = at; state = state.now })) }
{
    let Some(len) = body_len(key, at, state) else {
        unreachable!();
    };
    let mut out = Vec::with_capacity(alloc, HEAD_BYTES + len + DIGEST_BYTES)?;
    put_head(&mut out, Form::of(at), len as u32)?;
    put_body(&mut out, key, from, at, state)?;
    let digest = Sha1::digest(&out[HEAD_BYTES..]);
    out.extend_from_slice(&digest)?;
    Ok(out)
}

/// Adds the mark of a form, and the length of a body.
fn put_head(out: &mut Vec<u8>, form: Form, len: u32) -> Result<(), AllocError>
    ensures { OnOk result (out.new.items ≡ out.old.items ++ mark form ++ to_be_bytes w32 len) }
{
    out.extend_from_slice(&form.mark())?;
    out.extend_from_slice(&len.to_be_bytes())
}

/// Adds a record's body.
fn put_body(
    out: &mut Vec<u8>,
    key: &Key,
    from: u32,
    at: u64,
    state: &KeyState,
) -> Result<(), AllocError>
    requires key { IsKey key.now }
    requires few { length state.now.siblings < 2 ^ 32 }
    requires contents { AreContents state.now.siblings }
    ensures written { OnOk result (out.new.items ≡ out.old.items ++ body (record { key = key.now; from = from; at = at; state = state.now })) }
    ensures narrow { OnOk result (AreNarrow state.now.clock) }
    ensures state { OnOk result (IsState state.now) }
{
    put_key(out, key)?;
    out.extend_from_slice(&from.to_be_bytes())?;
    put_place(out, at)?;
    put_clock(out, state.clock())?;
    put_siblings(out, state.siblings())
}

/// Adds a place, in the bytes of its form.
fn put_place(out: &mut Vec<u8>, at: u64) -> Result<(), AllocError>
    ensures { OnOk result (out.new.items ≡ out.old.items ++ place at) }
{
    match Form::of(at) {
        Form::Narrow => out.extend_from_slice(&(at as u32).to_be_bytes()),
        Form::Wide => out.extend_from_slice(&at.to_be_bytes()),
    }
}

/// How long a record's body is, where it is below its limit.
fn body_len(key: &Key, at: u64, state: &KeyState) -> Option<usize>
    ensures { (from : ℕ) → SomeIff result (length (body (record { key = key.now; from = from; at = at; state = state.now })) < 2 ^ 32) (length (body (record { key = key.now; from = from; at = at; state = state.now }))) }
{
    let fixed = 2 * 2 + 4 + Form::of(at).place_len() + 2 + 4;
    let mut room = BODY_LIMIT_BYTES - 1 - fixed;
    room = room.checked_sub(key.bucket().len())?;
    room = room.checked_sub(key.key().len())?;
    room = room.checked_sub(DOT_BYTES * state.clock().entries().len())?;
    room = room_after(state.siblings(), room)?;
    Some(BODY_LIMIT_BYTES - 1 - room)
}

/// What is left of so many bytes after siblings, where these fit.
fn room_after(siblings: &[Sibling], room: usize) -> Option<usize>
    ensures { SomeIff result (length (flat_map sibling siblings.now) ≤ room) (room - length (flat_map sibling siblings.now)) }
{
    let mut left = room;
    for sibling in siblings {
        left = room_after_sibling(sibling, left)?;
    }
    Some(left)
}

/// What is left of so many bytes after a sibling, where it fits.
fn room_after_sibling(one: &Sibling, room: usize) -> Option<usize>
    ensures { SomeIff result (length (sibling one.now) ≤ room) (room - length (sibling one.now)) }
{
    let room = room.checked_sub(DOT_BYTES)?;
    match &one.content {
        Content::Value { media, bytes } => {
            let room = room.checked_sub(1 + 2 + 4)?;
            let room = room.checked_sub(media.as_slice().len())?;
            room.checked_sub(bytes.as_slice().len())
        }
        Content::Tombstone => room.checked_sub(1),
    }
}

/// Adds a key.
pub fn put_key(out: &mut Vec<u8>, whole: &Key) -> Result<(), AllocError>
    requires { IsKey whole.now }
    ensures { OnOk result (out.new.items ≡ out.old.items ++ key whole.now) }
{
    put_short_text(out, whole.bucket())?;
    put_short_text(out, whole.key())
}

/// Adds the entries of a clock behind their number.
pub fn put_clock(out: &mut Vec<u8>, whole: &Clock) -> Result<(), AllocError>
    ensures written { OnOk result (out.new.items ≡ out.old.items ++ clock whole.now) }
    ensures narrow { OnOk result (AreNarrow whole.now) }
    ensures clock { IsClock whole.now }
{
    let entries = whole.entries();
    out.extend_from_slice(&(entries.len() as u16).to_be_bytes())?;
    put_dots(out, entries)
}

/// Adds dots.
fn put_dots(out: &mut Vec<u8>, dots: &[Dot]) -> Result<(), AllocError>
    ensures written { OnOk result (out.new.items ≡ out.old.items ++ flat_map dot dots.now) }
    ensures narrow { OnOk result (AreNarrow dots.now) }
{
    for one in dots {
        put_dot(out, *one)?;
    }
    Ok(())
}

/// Adds a dot.
pub fn put_dot(out: &mut Vec<u8>, one: Dot) -> Result<(), AllocError>
    ensures written { OnOk result (out.new.items ≡ out.old.items ++ dot one) }
    ensures narrow { one.vnode < 2 ^ 32 }
    ensures counter { one.n < 2 ^ 64 }
{
    out.extend_from_slice(&one.vnode.to_be_bytes())?;
    out.extend_from_slice(&one.n.to_be_bytes())
}

/// Adds siblings behind their number.
pub fn put_siblings(out: &mut Vec<u8>, all: &[Sibling]) -> Result<(), AllocError>
    requires few { length all.now < 2 ^ 32 }
    requires contents { AreContents all.now }
    ensures { OnOk result (out.new.items ≡ out.old.items ++ siblings all.now) }
{
    out.extend_from_slice(&(all.len() as u32).to_be_bytes())?;
    put_each_sibling(out, all)
}

/// Adds siblings.
fn put_each_sibling(out: &mut Vec<u8>, all: &[Sibling]) -> Result<(), AllocError>
    requires { AreContents all.now }
    ensures { OnOk result (out.new.items ≡ out.old.items ++ flat_map sibling all.now) }
{
    for one in all {
        put_sibling(out, one)?;
    }
    Ok(())
}

/// Adds a sibling.
fn put_sibling(out: &mut Vec<u8>, one: &Sibling) -> Result<(), AllocError>
    requires { IsContent one.now.content }
    ensures { OnOk result (out.new.items ≡ out.old.items ++ sibling one.now) }
{
    put_dot(out, one.dot)?;
    put_content(out, &one.content)
}

/// Adds a content.
pub fn put_content(out: &mut Vec<u8>, one: &Content) -> Result<(), AllocError>
    requires { IsContent one.now }
    ensures { OnOk result (out.new.items ≡ out.old.items ++ content one.now) }
{
    match one {
        Content::Value { media, bytes } => {
            out.push(VALUE)?;
            put_short_text(out, media.as_slice())?;
            put_long_text(out, bytes.as_slice())?;
        }
        Content::Tombstone => out.push(TOMBSTONE)?,
    }
    Ok(())
}

/// Adds bytes behind their length in two bytes.
fn put_short_text(out: &mut Vec<u8>, bytes: &[u8]) -> Result<(), AllocError>
    requires { length bytes.now < 2 ^ 16 }
    ensures { OnOk result (out.new.items ≡ out.old.items ++ short_text bytes.now) }
{
    out.extend_from_slice(&(bytes.len() as u16).to_be_bytes())?;
    out.extend_from_slice(bytes)
}

/// Adds bytes behind their length in four bytes.
fn put_long_text(out: &mut Vec<u8>, bytes: &[u8]) -> Result<(), AllocError>
    requires { length bytes.now < 2 ^ 32 }
    ensures { OnOk result (out.new.items ≡ out.old.items ++ long_text bytes.now) }
{
    out.extend_from_slice(&(bytes.len() as u32).to_be_bytes())?;
    out.extend_from_slice(bytes)
}
