//! The input that a hook reads, written from the window's front.

ghost use Rattle.std.specs.Prelude.{◌≡◌, ◌≤◌, ◌<◌, ◌+◌, ◌-◌, ◌*◌, ◌^◌, ◌⊎◌, ◌↔◌, ◌++◌, [], length, take, replicate, IsErr, IfOk, OnOk, OnErr};
ghost use Rattle.std.specs.Option.{SomeIff, option_copied};
ghost use Rattle.hook_abi.specs.Writing.{Writes};
ghost use Rattle.hook_abi.specs.Input.{contents_shown, flag_of, head, layout, new_shown, row, rows, shown, used_by, values, window_of};
ghost use Rattle.key_state.specs.Limits.{most_siblings};

use crate::writer::Writer;
use bpf_image::ImageKind;
use dvv::Dot;
use key_state::{Content, MAX_SIBLINGS, Sibling};
use thiserror::Error;

/// The bytes of an input's head: kind, number of rows, used length and a zero, 4 bytes each.
const HEAD_BYTES: usize = 16;

/// The bytes of a row: vnode and flag (4 each), counter (8), and the value's offset and length (4 each).
const ROW_BYTES: usize = 24;

/// The dot of a content that has none yet.
const NO_DOT: Dot = Dot { vnode: 0, n: 0 };

/// The window is too short for what is to be shown, or there are more than [`MAX_SIBLINGS`] siblings.
#[derive(Clone, Copy, Debug, PartialEq, Eq, Drop, Error)]
#[error("large")]
pub struct TooLarge;

/// Lays out in the whole window what a hook of this kind reads: the new content where there is one, then the siblings.
/// Answers how many bytes are used; zeros follow them to the window's end.
///
/// `TooLarge` where there are over 64 siblings, or the window is shorter than the used bytes; the window is then
/// unchanged. It takes no memory. A window longer than a `u32` tells isn't asked for (an image's are at most 65,536).
pub fn fill_input(
    kind: ImageKind,
    new: Option<&Content>,
    siblings: &[Sibling],
    window: &mut [u8],
) -> Result<u32, TooLarge>
    requires { length window.old < 2 ^ 32 }
    ensures used { IfOk result (λ used. used ≡ used_by (contents_shown (option_copied new.entry) siblings.now)) }
    ensures written { OnOk result (window.new ≡ window_of (length window.old) kind (contents_shown (option_copied new.entry) siblings.now)) }
    ensures fits { OnOk result ((length siblings.now ≤ most_siblings) × (used_by (contents_shown (option_copied new.entry) siblings.now) ≤ length window.old)) }
    ensures large { IsErr result ↔ ((most_siblings < length siblings.now) ⊎ (length window.old < used_by (contents_shown (option_copied new.entry) siblings.now))) }
    ensures unchanged { OnErr result (window.new ≡ window.old) }
{
    if siblings.len() > MAX_SIBLINGS {
        return Err(TooLarge);
    }
    let Some(used) = used_length(new, siblings, window.len()) else {
        return Err(TooLarge);
    };
    let mut writer = Writer::new(window);
    write_used(&mut writer, kind, new, siblings, used as u32);
    writer.zeros();
    Ok(used as u32)
}

/// How many rows the input has.
fn row_count(new: Option<&Content>, siblings: &[Sibling]) -> usize
    requires { length siblings.now ≤ most_siblings }
    ensures { result ≡ length (contents_shown (option_copied new.entry) siblings.now) }
{
    match new {
        Some(_) => 1 + siblings.len(),
        None => siblings.len(),
    }
}

/// How many bytes the input uses, where they fit a window of this length.
fn used_length(new: Option<&Content>, siblings: &[Sibling], len: usize) -> Option<usize>
    requires { length siblings.now ≤ most_siblings }
    ensures { SomeIff result (used_by (contents_shown (option_copied new.entry) siblings.now) ≤ len) (used_by (contents_shown (option_copied new.entry) siblings.now)) }
{
    let room = len.checked_sub(HEAD_BYTES + ROW_BYTES * row_count(new, siblings))?;
    let room = room.checked_sub(new_shown(new).len())?;
    let room = room_after(siblings, room)?;
    Some(len - room)
}

/// What is left of so many bytes after the values of siblings, where these fit.
fn room_after(siblings: &[Sibling], room: usize) -> Option<usize>
    ensures { SomeIff result (length (values siblings.now) ≤ room) (room - length (values siblings.now)) }
{
    let mut left = room;
    for sibling in siblings {
        left = left.checked_sub(shown(&sibling.content).len())?;
    }
    Some(left)
}

/// Writes the used bytes of an input.
fn write_used(
    writer: &mut Writer,
    kind: ImageKind,
    new: Option<&Content>,
    siblings: &[Sibling],
    used: u32,
)
    requires few { length siblings.now ≤ most_siblings }
    requires used { used ≡ used_by (contents_shown (option_copied new) siblings.now) }
    requires room { writer.old.at + used ≤ length writer.old.window.now }
    ensures { Writes writer.old writer.new (layout kind (contents_shown (option_copied new.entry) siblings.now)) }
{
    let count = row_count(new, siblings) as u32;
    let first = HEAD_BYTES as u32 + ROW_BYTES as u32 * count;
    write_head(writer, kind, count, used);
    write_new_row(writer, first, new);
    write_rows(writer, first + new_shown(new).len() as u32, siblings);
    writer.bytes(new_shown(new));
    write_values(writer, siblings);
}

/// Writes a head.
fn write_head(writer: &mut Writer, kind: ImageKind, count: u32, used: u32)
    requires { writer.old.at + HEAD_BYTES ≤ length writer.old.window.now }
    ensures { Writes writer.old writer.new (head kind count used) }
{
    writer.word(u32::from(kind.number()));
    writer.word(count);
    writer.word(used);
    writer.word(0);
}

/// Writes the row of the new content, where there is one.
fn write_new_row(writer: &mut Writer, offset: u32, new: Option<&Content>)
    requires room { writer.old.at + ROW_BYTES * length (contents_shown (option_copied new) []) ≤ length writer.old.window.now }
    requires short { length (new_shown (option_copied new)) < 2 ^ 32 }
    ensures { Writes writer.old writer.new (rows offset (contents_shown (option_copied new.entry) [])) }
{
    if let Some(content) = new {
        write_row(writer, offset, NO_DOT, content);
    }
}

/// Writes one row.
fn write_row(writer: &mut Writer, offset: u32, dot: Dot, content: &Content)
    requires room { writer.old.at + ROW_BYTES ≤ length writer.old.window.now }
    requires short { length (shown content.now) < 2 ^ 32 }
    ensures { Writes writer.old writer.new (row offset (record { dot = dot; content = content.now })) }
{
    writer.word(dot.vnode);
    writer.word(flag(content));
    writer.long(dot.n);
    writer.word(offset);
    writer.word(shown(content).len() as u32);
}

/// Writes the rows of siblings whose values stand one after another from an offset on.
fn write_rows(writer: &mut Writer, first: u32, siblings: &[Sibling])
    requires room { writer.old.at + ROW_BYTES * length siblings.now ≤ length writer.old.window.now }
    requires short { first + length (values siblings.now) < 2 ^ 32 }
    ensures { Writes writer.old writer.new (rows first siblings.now) }
{
    let mut offset = first;
    for sibling in siblings {
        write_row(writer, offset, sibling.dot, &sibling.content);
        offset += shown(&sibling.content).len() as u32;
    }
}

/// Writes the values of siblings.
fn write_values(writer: &mut Writer, siblings: &[Sibling])
    requires { writer.old.at + length (values siblings.now) ≤ length writer.old.window.now }
    ensures { Writes writer.old writer.new (values siblings.now) }
{
    for sibling in siblings {
        writer.bytes(shown(&sibling.content));
    }
}

/// The bytes that a content shows: a tombstone none.
fn shown(content: &Content) -> &[u8]
    ensures { result.now ≡ shown content.now }
{
    match content {
        Content::Value { bytes, .. } => bytes.as_slice(),
        Content::Tombstone => &[],
    }
}

/// The bytes that the new content shows, where there is one.
fn new_shown(new: Option<&Content>) -> &[u8]
    ensures { result.now ≡ new_shown (option_copied new.entry) }
{
    match new {
        Some(content) => shown(content),
        None => &[],
    }
}

/// 1 for a value, 0 for a tombstone.
fn flag(content: &Content) -> u32
    ensures { result ≡ flag_of content.now }
{
    match content {
        Content::Value { .. } => 1,
        Content::Tombstone => 0,
    }
}
