//! What a read finds to show.

ghost use Rattle.std.specs.Prelude.{◌≡◌, ◌++◌, ◌==◌, ◌||◌, IfOk, List, bytes_eq};
ghost use Rattle.std.specs.List.{find, list_all};
ghost use Rattle.std.specs.Option.{option_copied};
ghost use Rattle.dvv.specs.declared.Dot.{Dot as Event};
ghost use Rattle.key_state.specs.declared.content.Sibling.{Sibling as Item};
ghost use Rattle.http_response.specs.Answer as spec;
ghost use Rattle.http_response.specs.Parts.{tag_of};
ghost use Rattle.http_response.specs.View.{etag_by, found};

use crate::field::{Read, Validator, push_tag};
use dvv::{Clock, Dot};
use http_request::Form;
use key_state::{Content, Sibling};
use std::alloc::AllocError;

/// What a read finds to show.
#[derive(Clone, Copy)]
pub(crate) enum Found<'s> {
    /// Nothing.
    Nothing,
    /// Tombstones alone.
    Deleted,
    /// One value, with the event of its write.
    One {
        dot: Dot,
        media: &'s [u8],
        bytes: &'s [u8],
    },
    /// Several siblings, as a list of their tags.
    Listed(&'s [Sibling]),
    /// Several siblings, in parts.
    InParts(&'s [Sibling]),
}

impl Found<'_> {
    /// What is told of the key beside what is shown.
    pub(crate) fn read(self, context: &Clock) -> Read<'_>
        ensures context { result.context.now ≡ context.now }
        ensures etag { etag_by result.validator context.now ≡ spec.etag_of context.now (found self.entry) }
        ensures deleted { result.deleted ≡ spec.is_deleted (found self.entry) }
    {
        Read {
            context,
            validator: self.validator(),
            deleted: self.is_deleted(),
        }
    }

    // Whether tombstones alone are found.
    fn is_deleted(self) -> bool
        ensures { result ≡ spec.is_deleted (found self.entry) }
    {
        matches!(self, Found::Deleted)
    }

    // What the entity tag is made of.
    fn validator(self) -> Validator
        ensures { (context : List Event) → etag_by result context ≡ spec.etag_of context (found self.entry) }
    {
        match self {
            Found::Nothing | Found::Deleted => Validator::Nothing,
            Found::One { dot, .. } => Validator::Write(dot),
            Found::Listed(_) => Validator::List,
            Found::InParts(_) => Validator::Parts,
        }
    }
}

/// What is found of a key among its siblings: the one of a tag, or all of them. The text is a buffer for tags.
pub(crate) fn found_of<'s>(
    text: &mut Vec<u8>,
    form: &Form,
    siblings: &'s [Sibling],
) -> Result<Found<'s>, AllocError>
    ensures { IfOk result (λ f. found f ≡ spec.found_of form.now siblings.now) }
{
    match form {
        Form::One(tag) => found_tagged(text, siblings, tag.as_slice()),
        Form::Text => Ok(found_among(siblings, Found::Listed(siblings))),
        Form::Parts => Ok(found_among(siblings, Found::InParts(siblings))),
    }
}

// What is found by a tag.
fn found_tagged<'s>(
    text: &mut Vec<u8>,
    siblings: &'s [Sibling],
    tag: &[u8],
) -> Result<Found<'s>, AllocError>
    ensures { IfOk result (λ f. found f ≡ spec.found_sibling (find (λ s. bytes_eq (tag_of s.dot) tag.now) siblings.now)) }
{
    let sibling = find_tag(text, siblings, tag)?;
    Ok(found_sibling(sibling))
}

// What is found among all siblings, where several are shown so.
fn found_among<'s>(siblings: &'s [Sibling], several: Found<'s>) -> Found<'s>
    ensures { (shows : List Item → spec.Found) → found several.entry ≡ shows siblings.now → found result ≡ spec.found_among shows siblings.now }
{
    match siblings {
        [] => Found::Nothing,
        [sibling] => found_content(sibling),
        _ => found_several(siblings, several),
    }
}

// Tombstones alone, or several siblings that are shown so.
fn found_several<'s>(siblings: &'s [Sibling], several: Found<'s>) -> Found<'s>
    ensures { (shows : List Item → spec.Found) → found several.entry ≡ shows siblings.now → found result ≡ spec.found_several shows siblings.now }
{
    if are_tombstones(siblings) {
        Found::Deleted
    } else {
        several
    }
}

fn are_tombstones(siblings: &[Sibling]) -> bool
    ensures { result ≡ list_all (λ s. spec.is_tombstone s.content) siblings.now }
{
    siblings.iter().all(|s| is_tombstone(&s.content))
}

fn is_tombstone(content: &Content) -> bool
    ensures { result ≡ spec.is_tombstone content.now }
{
    matches!(content, Content::Tombstone)
}

fn found_sibling(sibling: Option<&Sibling>) -> Found<'_>
    ensures { found result ≡ spec.found_sibling (option_copied sibling.entry) }
{
    match sibling {
        None => Found::Nothing,
        Some(sibling) => found_content(sibling),
    }
}

fn found_content(sibling: &Sibling) -> Found<'_>
    ensures { found result ≡ spec.found_content sibling.now.dot sibling.now.content }
{
    match &sibling.content {
        Content::Tombstone => Found::Deleted,
        Content::Value { media, bytes } => Found::One {
            dot: sibling.dot,
            media: media.as_slice(),
            bytes: bytes.as_slice(),
        },
    }
}

// The sibling of a tag.
fn find_tag<'s>(
    text: &mut Vec<u8>,
    siblings: &'s [Sibling],
    tag: &[u8],
) -> Result<Option<&'s Sibling>, AllocError>
    ensures { IfOk result (λ o. option_copied o ≡ find (λ s. bytes_eq (tag_of s.dot) tag.now) siblings.now) }
{
    for sibling in siblings {
        text.clear();
        push_tag(text, sibling.dot)?;
        if text.as_slice() == tag {
            return Ok(Some(sibling));
        }
    }
    Ok(None)
}
