//! A body in chunks, read as its bytes come.

ghost use Rattle.std.specs.Prelude.{◌≡◌, ◌≢◌, ◌<◌, ◌≤◌, List, ℕ, length, take, drop, IfOk, IfSome, IfNone};
ghost use Rattle.http_request.specs.Limits.{longest_body, longest_coded, most_lines};
ghost use Rattle.http_parse.specs.Reading as spec;
ghost use Rattle.http_parse.specs.Reading.{HasRead, HasStopped, StopsBehind, Comes, FindsTrailers, behind};
ghost use Rattle.http_parse.specs.declared.chunks.Trailers.{Trailers};

use http_request::{MAX_BODY_BYTES, MAX_CODED_BYTES, MAX_HEAD_BYTES, MAX_LINES, Refusal};
use http1::chunked::ChunkedDecoder;
use httparse::Status;
use httparse::spans::{EMPTY_HEADER_SPAN, HeaderSpan, Span, parse_headers};
use std::alloc::{AllocError, Global};
use std::mem;

/// What was read of a body in chunks, from the first of the bytes behind the head on. It is kept from one look at the bytes to the next, so that no
/// chunk is read twice.
#[derive(Drop)]
pub(crate) struct CodedBody {
    decoder: ChunkedDecoder,
    /// So many of the bytes were read.
    read: usize,
    /// The data of the chunks so far, which may be one piece too many.
    joined: Vec<u8>,
}

/// What a body in chunks comes to.
#[derive(Clone, Copy)]
pub(crate) enum Coded {
    /// It isn't whole.
    Unfinished,
    /// It is whole, and takes so many of the bytes behind the head.
    Whole(usize),
    /// It is none.
    Bad(Refusal),
}

// Why no more chunks are read.
#[derive(Clone, Copy)]
enum Stop {
    // Behind the last of the bytes.
    Rest,
    // Behind the last chunk.
    Last,
    // There are more data than a body has.
    Large,
    // A chunk is bad.
    Bad,
}

// What stands at the front of the bytes behind the last chunk.
#[derive(Clone, Copy)]
enum Trailers {
    // A trailer section of so many bytes.
    Whole(usize),
    Unfinished,
    Bad,
}

impl CodedBody {
    /// Nothing was read.
    pub(crate) fn new(alloc: Global) -> CodedBody
        ensures { (bytes : List ℕ) → HasRead result bytes }
    {
        CodedBody {
            decoder: ChunkedDecoder::new(MAX_CODED_BYTES),
            read: 0,
            joined: Vec::new(alloc),
        }
    }

    /// Takes the data of the chunks so far. It takes no memory.
    pub(crate) fn take(&mut self, alloc: Global) -> Vec<u8>
        ensures { result.items ≡ self.old.joined.items }
    {
        mem::replace(&mut self.joined, Vec::new(alloc))
    }

    /// What the body comes to that these bytes begin with, of which a front was read. The error is want of memory.
    pub(crate) fn look(&mut self, bytes: &[u8]) -> Result<Coded, AllocError>
        requires { HasRead self.old bytes.now }
        ensures { IfOk result (λ coded. Comes coded bytes.now self.new) }
    {
        let coded = longest_front(bytes);
        match self.read_chunks(coded)? {
            Stop::Rest => Ok(unfinished(coded.len())),
            Stop::Large => Ok(Coded::Bad(Refusal::Large)),
            Stop::Bad => Ok(Coded::Bad(Refusal::BadLength)),
            Stop::Last => Ok(self.look_behind(coded)),
        }
    }

    // What the body comes to, of whose bytes these are the first, where all chunks were read.
    fn look_behind(&self, coded: &[u8]) -> Coded
        requires { self.now.read ≤ length coded.now }
        ensures { (trailers : Trailers) × FindsTrailers (drop self.now.read coded.now) trailers × (result ≡ behind self.now.read (length coded.now) trailers) }
    {
        match trailers_at(&coded[self.read..]) {
            Trailers::Whole(len) => Coded::Whole(self.read + len),
            Trailers::Unfinished => unfinished(coded.len()),
            Trailers::Bad => Coded::Bad(Refusal::BadLength),
        }
    }

    // Reads as many chunks as there are, and tells why no more.
    fn read_chunks(&mut self, coded: &[u8]) -> Result<Stop, AllocError>
        requires short { length coded.now ≤ longest_coded }
        requires read { HasRead self.old coded.now }
        ensures { IfOk result (λ stop. HasStopped stop coded.now self.new) }
    {
        'pieces: loop {
            if let Some(stop) = self.read_piece(coded)? {
                return Ok(stop);
            }
        }
    }

    // Reads a piece of data, or tells why there is none.
    fn read_piece(&mut self, coded: &[u8]) -> Result<Option<Stop>, AllocError>
        requires short { length coded.now ≤ longest_coded }
        requires read { HasRead self.old coded.now }
        ensures stops { IfOk result (λ piece. IfSome piece (λ stop. HasStopped stop coded.now self.new)) }
        ensures goes { IfOk result (λ piece. IfNone piece (HasRead self.new coded.now × (self.old.read < self.new.read))) }
    {
        let rest = &coded[self.read..];
        let mut decoder = self.decoder;
        let Ok(span) = decoder.decode(rest) else {
            return Ok(Some(Stop::Bad));
        };
        self.joined.extend_from_slice(span.of(rest))?;
        self.decoder = decoder;
        self.read += span.end;
        Ok(self.stop_behind(span))
    }

    // Why no more is read behind this piece, which was read.
    fn stop_behind(&self, piece: Span) -> Option<Stop>
        ensures some { IfSome result (λ stop. StopsBehind stop self.now piece) }
        ensures none { IfNone result ((piece.start ≢ piece.end) × (length self.now.joined.items ≤ longest_body)) }
    {
        if piece.start == piece.end {
            return Some(if self.decoder.is_done() {
                Stop::Last
            } else {
                Stop::Rest
            });
        }
        if self.joined.len() > MAX_BODY_BYTES {
            Some(Stop::Large)
        } else {
            None
        }
    }
}

// As many of the bytes as a body in chunks has at most.
fn longest_front(bytes: &[u8]) -> &[u8]
    ensures { result.now ≡ take longest_coded bytes.now }
{
    if bytes.len() <= MAX_CODED_BYTES {
        bytes
    } else {
        &bytes[..MAX_CODED_BYTES]
    }
}

// What a body comes to that isn't whole, where so many bytes are there: with as many as it may have there is none.
fn unfinished(len: usize) -> Coded
    ensures { result ≡ spec.unfinished len }
{
    if len < MAX_CODED_BYTES {
        Coded::Unfinished
    } else {
        Coded::Bad(Refusal::BadLength)
    }
}

// The trailer section at the front of the bytes.
fn trailers_at(bytes: &[u8]) -> Trailers
    ensures { FindsTrailers bytes.now result }
{
    let mut lines = [EMPTY_HEADER_SPAN; MAX_LINES];
    trailers_in(bytes, &mut lines)
}

fn trailers_in(bytes: &[u8], lines: &mut [HeaderSpan]) -> Trailers
    requires { length lines.old ≡ most_lines }
    ensures { FindsTrailers bytes.now result }
{
    match parse_headers(bytes, lines) {
        Ok(Status::Complete(found)) => {
            if found.0 <= MAX_HEAD_BYTES {
                Trailers::Whole(found.0)
            } else {
                Trailers::Bad
            }
        }
        Ok(Status::Partial) => {
            if bytes.len() <= MAX_HEAD_BYTES {
                Trailers::Unfinished
            } else {
                Trailers::Bad
            }
        }
        Err(_) => Trailers::Bad,
    }
}
