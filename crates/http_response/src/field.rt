//! The pieces of an answer.

ghost use Rattle.std.specs.Prelude.{◌≡◌, ◌++◌, List, OnOk, Some, codes, decimal, is_some};
ghost use Rattle.std.specs.Option.{option_copied};
ghost use Rattle.dvv.specs.declared.Dot.{Dot as Event};
ghost use Rattle.context_token.specs.Token.{token};
ghost use Rattle.http_response.specs.Answer.{closing, deletion, length_of, or_nothing, own_fields, print_answer, quoted, shown_body, vclock_of};
ghost use Rattle.http_response.specs.Parts.{line, field_line, tag_of};
ghost use Rattle.http_response.specs.View.{parts_of, context_of, etag_by, read_end};

use dvv::{Clock, Dot};
use std::alloc::AllocError;

/// How an answer is told.
#[derive(Clone, Copy)]
pub(crate) struct Telling {
    /// The connection ends behind it.
    pub(crate) ends: bool,
    /// It is shown without its body, whose length it tells.
    pub(crate) head_only: bool,
}

/// What is told of a key, beside what is shown of it.
#[derive(Clone, Copy)]
pub(crate) struct Read<'c> {
    pub(crate) context: &'c Clock,
    pub(crate) validator: Validator,
    /// Tombstones alone are found.
    pub(crate) deleted: bool,
}

/// What the entity tag of what is shown of a key is made of (RFC 9110, 8.8.3).
#[derive(Clone, Copy)]
pub(crate) enum Validator {
    /// There is none: nothing is shown.
    Nothing,
    /// One value: the tag of its write.
    Write(Dot),
    /// Siblings as a list: the context, which each write of the key changes.
    List,
    /// Siblings as parts: the context, and that they are parts.
    Parts,
}

impl Validator {
    /// Whether there is an entity tag.
    pub(crate) fn is_some(self) -> bool
        ensures { (context : List Event) → result ≡ is_some (etag_by self context) }
    {
        !matches!(self, Validator::Nothing)
    }
}

/// The parts of an answer; what is told of a key has a lifetime of its own.
#[derive(Clone, Copy)]
pub(crate) struct Answer<'a, 'c> {
    pub(crate) status: &'a [u8],
    pub(crate) media: Option<&'a [u8]>,
    pub(crate) read: Option<Read<'c>>,
    pub(crate) tag: Option<&'a [u8]>,
    pub(crate) allow: Option<&'a [u8]>,
    pub(crate) body: Option<&'a [u8]>,
}

/// Adds the bytes of an answer.
pub(crate) fn push_parts(out: &mut Vec<u8>, answer: &Answer, how: Telling) -> Result<(), AllocError>
    ensures { OnOk result (out.new.items ≡ out.old.items ++ print_answer (parts_of answer.now) how) }
{
    push_status(out, answer.status)?;
    push_field(out, b"Content-Type", answer.media)?;
    push_context(out, answer.read)?;
    push_field(out, b"X-Riak-Tag", answer.tag)?;
    push_close(out, how.ends)?;
    push_length(out, answer.body)?;
    push_field(out, b"Allow", answer.allow)?;
    push_own_fields(out)?;
    push_read_end(out, answer.read)?;
    push_body(out, how.head_only, answer.body)?;
    Ok(())
}

// Adds the first line.
fn push_status(out: &mut Vec<u8>, status: &[u8]) -> Result<(), AllocError>
    ensures { OnOk result (out.new.items ≡ out.old.items ++ line (codes "HTTP/1.1 " ++ status.now)) }
{
    out.extend_from_slice(b"HTTP/1.1 ")?;
    out.extend_from_slice(status)?;
    out.extend_from_slice(b"\r\n")
}

// Adds a context, where there is one.
fn push_context(out: &mut Vec<u8>, read: Option<Read<'_>>) -> Result<(), AllocError>
    ensures { OnOk result (out.new.items ≡ out.old.items ++ field_line (codes "X-Riak-Vclock") (context_of read.entry)) }
{
    match read {
        None => Ok(()),
        Some(read) => push_clock(out, read.context),
    }
}

// Adds the context that a clock is, unless nothing was ever written.
fn push_clock(out: &mut Vec<u8>, clock: &Clock) -> Result<(), AllocError>
    ensures { OnOk result (out.new.items ≡ out.old.items ++ field_line (codes "X-Riak-Vclock") (vclock_of clock.now)) }
{
    if clock.entries().is_empty() {
        return Ok(());
    }
    out.extend_from_slice(b"X-Riak-Vclock: ")?;
    context_token::write_to(clock, out)?;
    out.extend_from_slice(b"\r\n")?;
    Ok(())
}

// Adds the line that tells that the connection ends, where it does.
fn push_close(out: &mut Vec<u8>, ends: bool) -> Result<(), AllocError>
    ensures { OnOk result (out.new.items ≡ out.old.items ++ field_line (codes "Connection") (closing ends)) }
{
    if ends {
        push_field(out, b"Connection", Some(b"close"))?;
    }
    Ok(())
}

// Adds a field, where there is one.
pub(crate) fn push_field(
    out: &mut Vec<u8>,
    name: &[u8],
    said: Option<&[u8]>,
) -> Result<(), AllocError>
    ensures { OnOk result (out.new.items ≡ out.old.items ++ field_line name.now (option_copied said.entry)) }
{
    if let Some(said) = said {
        out.extend_from_slice(name)?;
        out.extend_from_slice(b": ")?;
        out.extend_from_slice(said)?;
        out.extend_from_slice(b"\r\n")?;
    }
    Ok(())
}

// Adds the length of the body, where there is one.
fn push_length(out: &mut Vec<u8>, body: Option<&[u8]>) -> Result<(), AllocError>
    ensures { OnOk result (out.new.items ≡ out.old.items ++ field_line (codes "Content-Length") (length_of (option_copied body.entry))) }
{
    match body {
        None => Ok(()),
        Some(body) => {
            out.extend_from_slice(b"Content-Length: ")?;
            push_number(out, body.len() as u64)?;
            out.extend_from_slice(b"\r\n")
        }
    }
}

// Adds the fields of each answer.
fn push_own_fields(out: &mut Vec<u8>) -> Result<(), AllocError>
    ensures { OnOk result (out.new.items ≡ out.old.items ++ own_fields) }
{
    out.extend_from_slice(b"X-Content-Type-Options: nosniff\r\nServer: dvvstore\r\n")
}

// Adds what is told of a key behind the fields of each answer, and the empty line.
fn push_read_end(out: &mut Vec<u8>, read: Option<Read<'_>>) -> Result<(), AllocError>
    ensures { OnOk result (out.new.items ≡ out.old.items ++ read_end read.entry) }
{
    match read {
        None => out.extend_from_slice(b"\r\n"),
        Some(read) => push_told_end(out, read),
    }
}

// Adds the entity tag, where there is one, that `Accept` chose what is shown, whether tombstones alone are found, and the empty line.
fn push_told_end(out: &mut Vec<u8>, read: Read<'_>) -> Result<(), AllocError>
    ensures { OnOk result (out.new.items ≡ out.old.items ++ read_end (Some read.entry)) }
{
    push_etag(out, read)?;
    out.extend_from_slice(b"Vary: Accept\r\n")?;
    push_deletion(out, read.deleted)?;
    out.extend_from_slice(b"\r\n")?;
    Ok(())
}

// Adds the line that tells that tombstones alone are found, where it is so.
fn push_deletion(out: &mut Vec<u8>, deleted: bool) -> Result<(), AllocError>
    ensures { OnOk result (out.new.items ≡ out.old.items ++ field_line (codes "X-Riak-Deleted") (deletion deleted)) }
{
    if deleted {
        push_field(out, b"X-Riak-Deleted", Some(b"true"))?;
    }
    Ok(())
}

// Adds the entity tag, where there is one, as a line.
fn push_etag(out: &mut Vec<u8>, read: Read<'_>) -> Result<(), AllocError>
    ensures { OnOk result (out.new.items ≡ out.old.items ++ field_line (codes "ETag") (etag_by read.entry.validator read.entry.context.now)) }
{
    if !read.validator.is_some() {
        return Ok(());
    }
    out.extend_from_slice(b"ETag: ")?;
    push_entity_tag(out, read)?;
    out.extend_from_slice(b"\r\n")?;
    Ok(())
}

/// Adds the entity tag, where there is one.
pub(crate) fn push_entity_tag(out: &mut Vec<u8>, read: Read<'_>) -> Result<(), AllocError>
    ensures { OnOk result (out.new.items ≡ out.old.items ++ or_nothing (etag_by read.entry.validator read.entry.context.now)) }
{
    match read.validator {
        Validator::Nothing => Ok(()),
        Validator::Write(dot) => push_write_tag(out, dot),
        Validator::List => push_context_tag(out, read.context, b"\""),
        Validator::Parts => push_context_tag(out, read.context, b"-parts\""),
    }
}

// Adds the entity tag of one value.
fn push_write_tag(out: &mut Vec<u8>, dot: Dot) -> Result<(), AllocError>
    ensures { OnOk result (out.new.items ≡ out.old.items ++ quoted (tag_of dot)) }
{
    out.extend_from_slice(b"\"")?;
    push_tag(out, dot)?;
    out.extend_from_slice(b"\"")?;
    Ok(())
}

// Adds the entity tag of siblings, up to its end.
fn push_context_tag(out: &mut Vec<u8>, context: &Clock, end: &[u8]) -> Result<(), AllocError>
    ensures { OnOk result (out.new.items ≡ out.old.items ++ (codes "\"" ++ token context.now ++ end.now)) }
{
    out.extend_from_slice(b"\"")?;
    context_token::write_to(context, out)?;
    out.extend_from_slice(end)
}

// Adds the body, where there is one and more than the head is asked for.
fn push_body(out: &mut Vec<u8>, head_only: bool, body: Option<&[u8]>) -> Result<(), AllocError>
    ensures { OnOk result (out.new.items ≡ out.old.items ++ shown_body head_only (option_copied body.entry)) }
{
    match body {
        Some(body) if !head_only => out.extend_from_slice(body),
        _ => Ok(()),
    }
}

/// Adds a number in decimal.
pub(crate) fn push_number(out: &mut Vec<u8>, n: u64) -> Result<(), AllocError>
    ensures { OnOk result (out.new.items ≡ out.old.items ++ decimal n) }
{
    let mut digits = itoa::Buffer::new();
    out.extend_from_slice(digits.format(n).as_bytes())
}

/// Adds the tag of an event.
pub(crate) fn push_tag(out: &mut Vec<u8>, dot: Dot) -> Result<(), AllocError>
    ensures { OnOk result (out.new.items ≡ out.old.items ++ tag_of dot) }
{
    push_number(out, dot.vnode as u64)?;
    out.extend_from_slice(b"-")?;
    push_number(out, dot.n)
}
