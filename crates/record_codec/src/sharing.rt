//! What several records have alike, held once.

ghost use Rattle.std.specs.Prelude.{◌≡◌, IfSome};

use crate::record::Record;
use key_state::{Content, Key, KeyState, Sibling};
use std::alloc::Global;

/// Those of records in the order of keys that don't come before a key.
pub(crate) fn from_key<'a>(records: &'a [Record], key: &Key) -> &'a [Record] {
    match records.iter().position(|record| record.key >= *key) {
        Some(place) => &records[place..],
        None => &[],
    }
}

/// Has a record take the memory of another's key and state in place of its own, where they are the same. A key whose owners can't be
/// counted further stays.
pub(crate) fn share(one: &mut Record, other: &Record)
    ensures { one.new ≡ one.old }
{
    if one.key != other.key {
        return;
    }
    if let Ok(key) = other.key.copy() {
        one.key = key;
    }
    one.state.share(&other.state);
}

/// Has the state of a lone value take the media type's bytes of another such one, where they have the same.
pub(crate) fn share_media(alloc: Global, state: &mut KeyState, other: &KeyState)
    ensures { state.new ≡ state.old }
{
    if let Some(same) = with_media_of(alloc, state, other) {
        *state = same;
    }
}

/// The state of a lone value, with the media type's bytes of another such one. None where that has another media type, or memory was
/// refused.
fn with_media_of(alloc: Global, state: &KeyState, other: &KeyState) -> Option<KeyState>
    ensures { IfSome result (λ same. same ≡ state.now) }
{
    let ([one], [another]) = (state.siblings(), other.siblings()) else {
        return None;
    };
    let content = value_with(&one.content, &another.content)?;
    let mut siblings = Vec::with_capacity(alloc, 1).ok()?;
    siblings.push_reserved(Sibling {
        dot: one.dot,
        content,
    });
    let clock = state.clock().copy(alloc).ok()?;
    KeyState::from_parts(clock, siblings).ok()
}

/// A value, with the media type's bytes of another. None where that has another media type, or owners can't be counted further.
fn value_with(content: &Content, other: &Content) -> Option<Content>
    ensures { IfSome result (λ same. same ≡ content.now) }
{
    match (content, other) {
        (Content::Value { media, bytes }, Content::Value { media: shared, .. })
            if media == shared => {
            Some(Content::Value {
                media: shared.copy().ok()?,
                bytes: bytes.copy().ok()?,
            })
        }
        _ => None,
    }
}
