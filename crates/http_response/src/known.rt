//! Whether a client has what would be shown.

ghost use Rattle.std.specs.Prelude.{◌≡◌, ◌++◌, ◌==◌, ◌||◌, IfOk, bytes_eq, codes};
ghost use Rattle.std.specs.List.{list_any, slice_split};
ghost use Rattle.std.specs.Option.{option_copied};
ghost use Rattle.http_response.specs.Answer.{has_tag};
ghost use Rattle.http_response.specs.Known as spec;
ghost use Rattle.http_response.specs.View.{etag_by};

use crate::field::{Read, push_entity_tag};
use std::alloc::AllocError;

/// Whether the list of a client's entity tags, if it has one, has that of what would be shown. The text is a buffer.
pub(crate) fn is_known(
    text: &mut Vec<u8>,
    tags: Option<&[u8]>,
    read: Read<'_>,
) -> Result<bool, AllocError>
    ensures { IfOk result (λ known. known ≡ has_tag (option_copied tags.entry) (etag_by read.entry.validator read.entry.context.now)) }
{
    match tags {
        Some(list) if read.validator.is_some() => {
            text.clear();
            push_entity_tag(text, read)?;
            Ok(lists_tag(list, text.as_slice()))
        }
        _ => Ok(false),
    }
}

// Whether the list has the tag, or stands for whatever there is.
fn lists_tag(list: &[u8], tag: &[u8]) -> bool
    ensures { result ≡ spec.lists_tag list.now tag.now }
{
    list == b"*".as_slice() || has_part(list, tag)
}

// Whether a part of the list is the tag.
fn has_part(list: &[u8], tag: &[u8]) -> bool
    ensures { result ≡ list_any (spec.is_tag tag.now) (slice_split spec.is_between list.now) }
{
    list.split(|b| is_between(*b)).any(|part| is_tag(tag, part))
}

// Whether a byte stands between the tags of a list: a comma or a blank.
fn is_between(b: u8) -> bool
    ensures { result ≡ spec.is_between b }
{
    b == b',' || b == b' ' || b == b'\t'
}

// Whether a part of a list is the tag, without the mark of a weak one.
fn is_tag(tag: &[u8], part: &[u8]) -> bool
    ensures { result ≡ spec.is_tag tag.now part.now }
{
    part == tag || is_weak(tag, part)
}

// Whether a part of a list is the tag behind the mark of a weak one.
fn is_weak(tag: &[u8], part: &[u8]) -> bool
    ensures { result ≡ bytes_eq part.now (codes "W/" ++ tag.now) }
{
    match part {
        [b'W', b'/', rest @ ..] => rest == tag,
        _ => false,
    }
}
