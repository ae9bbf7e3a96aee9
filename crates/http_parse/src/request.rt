//! The first request of the bytes at hand.

ghost use Rattle.std.specs.Prelude.{◌≡◌, ◌≤◌, ◌-◌, true, length, drop, IfOk};
ghost use Rattle.httparse.specs.Spans.{span_bytes};
ghost use Rattle.http_request.specs.Ask.{asked_by_none, asked_by_method};
ghost use Rattle.http_request.specs.declared.ask.What.TheVariants.{Refused};
ghost use Rattle.http_parse.specs.Finds.{Finds};
ghost use Rattle.http_parse.specs.Heads.{StandsAt};
ghost use Rattle.http_request.specs.Limits.{longest_head};
ghost use Rattle.http_parse.specs.Framed.{framing, IsSmall};
ghost use Rattle.http_parse.specs.Reading.{HasRead};
ghost use Rattle.http_parse.specs.Bodies.{EndsAt, IsWithinBytes, sized_ends, coded_ends, body_by};
ghost use Rattle.http_parse.specs.Known.{IsKnownOf, Keeps, Leaves, kept_of};
ghost use Rattle.http_parse.specs.Targets.{IsTargetOf};
ghost use Rattle.http_parse.specs.declared.request.Asking.TheVariants.{First};

use crate::anew::head_anew;
use crate::asked::asked_by;
use crate::chunks::{Coded, CodedBody};
use crate::fields::{Framing, closes, framing_of, waits_to_go_on};
use crate::firsts::fields_of;
use crate::head::{HeadAt, read_head};
use crate::known::KnownHead;
use crate::tables::Tables;
use crate::target::{Target, target_of};
use crate::whole::Request;
use http_request::{Ask, Refusal, What};
use httparse::spans::{HeaderSpan, RequestSpans};
use std::alloc::{AllocError, Global};

/// What the bytes at hand come to.
#[derive(Drop)]
pub enum Asking {
    /// No whole head is there yet. A head ends with a line feed, so the bytes are worth another look after a new one, or with
    /// more than [`MAX_HEAD_BYTES`](http_request::MAX_HEAD_BYTES) bytes, which are too many.
    Head,
    /// The head is whole, and its body isn't. So many bytes from the first on are the whole request, and with fewer there is
    /// none yet.
    Body { needs: usize },
    /// The first request's client waits to be told to go on. What is read next is the same request without what it expects: its
    /// head is this one, and stood in so many of the bytes, which are more.
    GoOn { head: Vec<u8>, len: usize },
    /// The first request: what it asks for, whether the connection ends after the answer, and how many of the bytes are
    /// its own. Where the connection ends nothing behind them is read.
    First { ask: Ask, ends: bool, len: usize },
}

/// What the bytes at hand come to, where each key has so many copies, 1 to 3. The bytes may be cut anywhere: what is told of
/// them holds whatever follows. What is known of their head isn't found again. The error is want of memory.
pub fn first_request(
    alloc: Global,
    tables: &Tables,
    copies: u32,
    known: &mut KnownHead,
    bytes: &[u8],
) -> Result<Asking, AllocError>
    requires some { 1 ≤ copies }
    requires few { copies ≤ 3 }
    requires known { IsKnownOf known.old bytes.now }
    ensures finds { IfOk result (Finds copies bytes.now) }
    ensures known { IsKnownOf known.new bytes.now }
    ensures leaves { IfOk result (λ asking. Leaves asking bytes.now known.new) }
{
    if let Some(spans) = known.spans {
        return request_with(alloc, tables, copies, known, bytes, spans);
    }
    match read_head(bytes, &mut known.lines) {
        HeadAt::Unfinished => Ok(Asking::Head),
        HeadAt::Bad => Ok(no_head(bytes.len())),
        HeadAt::Whole(spans) => {
            known.body = CodedBody::new(alloc);
            request_with(alloc, tables, copies, known, bytes, spans)
        }
    }
}

// What a request with a whole head comes to. The head is kept while its body is missing.
fn request_with(
    alloc: Global,
    tables: &Tables,
    copies: u32,
    known: &mut KnownHead,
    bytes: &[u8],
    spans: RequestSpans,
) -> Result<Asking, AllocError>
    requires some { 1 ≤ copies }
    requires few { copies ≤ 3 }
    requires head { StandsAt bytes.now known.old.lines spans }
    requires body { HasRead known.old.body (drop spans.len bytes.now) }
    ensures finds { IfOk result (Finds copies bytes.now) }
    ensures known { IsKnownOf known.new bytes.now }
    ensures leaves { IfOk result (λ asking. Leaves asking bytes.now known.new) }
{
    known.spans = None;
    let asking = request_at(
        alloc,
        tables,
        copies,
        bytes,
        spans,
        &known.lines,
        &mut known.body,
    )?;
    known.spans = kept(&asking, spans);
    Ok(asking)
}

// The head that an answer leaves known.
fn kept(asking: &Asking, spans: RequestSpans) -> Option<RequestSpans>
    ensures { result ≡ kept_of asking.now spans }
{
    match asking {
        Asking::Body { .. } => Some(spans),
        Asking::Head | Asking::GoOn { .. } | Asking::First { .. } => None,
    }
}

// What a request with a whole head comes to.
fn request_at(
    alloc: Global,
    tables: &Tables,
    copies: u32,
    bytes: &[u8],
    spans: RequestSpans,
    lines: &[HeaderSpan],
    read: &mut CodedBody,
) -> Result<Asking, AllocError>
    requires some { 1 ≤ copies }
    requires few { copies ≤ 3 }
    requires head { StandsAt bytes.now lines.now spans }
    requires read { HasRead read.old (drop spans.len bytes.now) }
    ensures finds { IfOk result (Finds copies bytes.now) }
    ensures keeps { IfOk result (λ asking. Keeps asking (drop spans.len bytes.now) read.new) }
{
    match target_of(spans.path.of(bytes)) {
        Some(target) => request_to(alloc, tables, copies, bytes, spans, lines, read, target),
        None => Ok(no_head(spans.len)),
    }
}

// The first request, where its head is none and the connection ends.
fn no_head(len: usize) -> Asking
    ensures { result ≡ First asked_by_none true len }
{
    Asking::First {
        ask: Ask {
            what: What::Refused(Refusal::BadHead),
            head_only: false,
            if_none_match: None,
        },
        ends: true,
        len,
    }
}

// The first request, where it is refused and the connection ends.
fn broken(method: &[u8], refusal: Refusal, len: usize) -> Asking
    ensures { result ≡ First (asked_by_method method.now (Refused refusal)) true len }
{
    Asking::First {
        ask: asked_by(method, What::Refused(refusal)),
        ends: true,
        len,
    }
}

// What a request with a whole head comes to, where these are the parts of its target.
fn request_to(
    alloc: Global,
    tables: &Tables,
    copies: u32,
    bytes: &[u8],
    spans: RequestSpans,
    lines: &[HeaderSpan],
    read: &mut CodedBody,
    target: Target<'_>,
) -> Result<Asking, AllocError>
    requires some { 1 ≤ copies }
    requires few { copies ≤ 3 }
    requires head { StandsAt bytes.now lines.now spans }
    requires read { HasRead read.old (drop spans.len bytes.now) }
    requires target { IsTargetOf (span_bytes bytes.now spans.path) target.path.now target.query.now }
    ensures finds { IfOk result (Finds copies bytes.now) }
    ensures keeps { IfOk result (λ asking. Keeps asking (drop spans.len bytes.now) read.new) }
{
    let lines = &lines[..spans.headers];
    let method = spans.method.of(bytes);
    let fields = fields_of(bytes, lines);
    let framed = match framing_of(bytes, lines, &fields, method, spans.version) {
        Err(refusal) => return Ok(broken(method, refusal, spans.len)),
        Ok(framed) => framed,
    };
    if waits_to_go_on(spans.version, &fields, framed) {
        let head = head_anew(alloc, bytes, method, spans.path, lines)?;
        return Ok(Asking::GoOn {
            head,
            len: spans.len,
        });
    }
    let len = match body_at(bytes, spans.len, framed, read)? {
        BodyAt::Unfinished { needs } => return Ok(Asking::Body { needs }),
        BodyAt::Bad(refusal) => return Ok(broken(method, refusal, spans.len)),
        BodyAt::Whole { len } => len,
    };
    let joined = read.take(alloc);
    let request = Request {
        method,
        path: target.path,
        query: target.query,
        bytes,
        lines,
        fields: &fields,
        body: body_of(&bytes[spans.len..len], framed, joined.as_slice()),
        types: &tables.types,
    };
    let ask = request.ask(alloc, &tables.routes, copies)?;
    let ends = closes(spans.version, &fields);
    Ok(Asking::First { ask, ends, len })
}

// What the body behind a head comes to.
#[derive(Clone, Copy)]
enum BodyAt {
    // It isn't whole, nor is it with fewer bytes than so many from the first of the head on.
    Unfinished { needs: usize },
    // It is none.
    Bad(Refusal),
    // It is whole, and the request has so many bytes.
    Whole { len: usize },
}

// What the body comes to behind a head of so many bytes.
fn body_at(
    bytes: &[u8],
    start: usize,
    framed: Framing,
    read: &mut CodedBody,
) -> Result<BodyAt, AllocError>
    requires start { start ≤ length bytes.now }
    requires head { start ≤ longest_head }
    requires small { IsSmall framed }
    requires read { HasRead read.old (drop start bytes.now) }
    ensures { IfOk result (λ at. EndsAt at (framing framed) bytes.now start read.new) }
{
    match framed {
        Framing::Sized(len) => Ok(sized_at(bytes.len(), start + len)),
        Framing::Chunked => Ok(coded_at(bytes.len(), start, read.look(&bytes[start..])?)),
    }
}

// The same of a request whose length was said, of which so many bytes are there.
fn sized_at(here: usize, len: usize) -> BodyAt
    ensures { result ≡ sized_ends here len }
{
    if here < len {
        BodyAt::Unfinished { needs: len }
    } else {
        BodyAt::Whole { len }
    }
}

// The same where the body comes in chunks.
fn coded_at(here: usize, start: usize, coded: Coded) -> BodyAt
    requires start { start ≤ here }
    requires within { IsWithinBytes coded (here - start) }
    requires head { start ≤ longest_head }
    ensures { result ≡ coded_ends here start coded }
{
    match coded {
        Coded::Unfinished => BodyAt::Unfinished { needs: here + 1 },
        Coded::Whole(len) => BodyAt::Whole { len: start + len },
        Coded::Bad(refusal) => BodyAt::Bad(refusal),
    }
}

// The body: these bytes, or the data of its chunks.
fn body_of<'b>(bytes: &'b [u8], framed: Framing, joined: &'b [u8]) -> &'b [u8]
    ensures { result.now ≡ body_by (framing framed) bytes.now joined.now }
{
    match framed {
        Framing::Sized(_) => bytes,
        Framing::Chunked => joined,
    }
}
