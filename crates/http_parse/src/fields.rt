//! What the fields of a head say.

ghost use Rattle.std.specs.Prelude.{◌≡◌, ◌==◌, ℕ, ◌+◌, ◌<◌, ◌≤◌, ◌^◌, List, length, map, drop, take, All, IsTrue, ◌&&◌, ◌||◌, codes, bytes_eq, reverse, [], ◌∷◌, IfSome, IfNone, Option, Some, None, IfOk, IfErr, OnOk};
ghost use Rattle.std.specs.Str.Parse.{digits_value};
ghost use Rattle.std.specs.Option.{option_copied};
ghost use Rattle.std.specs.List.{list_all, list_any, before_first, slice_split};
ghost use Rattle.std.specs.Str.{str_to_ascii_lowercase};
ghost use Rattle.httparse.specs.Grammar.{trim_ows, skip_ows};
ghost use Rattle.std.specs.Char.{is_ascii_digit};
ghost use Rattle.httparse.specs.Spans.{header_bytes, IsHeaderWithin};
ghost use Rattle.http_request.specs.Fields as spec;
ghost use Rattle.http_request.specs.Limits.{longest_body};
ghost use Rattle.http_parse.specs.Expects.{expected};
ghost use Rattle.http_parse.specs.Framed.{framing, coding, sized_by, IsSmall, fault_by_length};
ghost use Rattle.http_parse.specs.declared.fields.Framing.TheVariants.{Chunked};
ghost use Rattle.http_parse.specs.Firsts.{AreFirst, accepted};

use crate::firsts::Fields;
use crate::number::{is_number, small_number};
use http_request::Refusal;
use httparse::spans::HeaderSpan;
use memchr::memchr;

/// Whether the field has this name, whose case does not matter.
pub(crate) fn is_named(bytes: &[u8], line: HeaderSpan, name: &[u8]) -> bool
    requires within { IsHeaderWithin (length bytes.now) line }
    requires lower { str_to_ascii_lowercase name.now ≡ name.now }
    ensures { result ≡ spec.is_named name.now (header_bytes bytes.now line) }
{
    line.name.of(bytes).eq_ignore_ascii_case(name)
}

// The digits of a number, without the zeros in front.
fn without_zeros(text: &[u8]) -> &[u8]
    ensures { result.now ≡ spec.without_zeros text.now }
{
    let mut rest = text;
    while let [b'0', tail @ ..] = rest {
        rest = tail;
    }
    rest
}

// Whether each field of this name has a number equal to this one.
fn all_equal(bytes: &[u8], lines: &[HeaderSpan], name: &[u8], number: &[u8]) -> bool
    requires within { All (IsHeaderWithin (length bytes.now)) lines.now }
    requires lower { str_to_ascii_lowercase name.now ≡ name.now }
    ensures { result ≡ list_all (λ u. spec.is_number u && bytes_eq (spec.without_zeros u) (spec.without_zeros number.now))
        (spec.values_of name.now (map (header_bytes bytes.now) lines.now)) }
{
    for line in lines {
        if is_named(bytes, *line, name) {
            let value = line.value.of(bytes);
            if !is_number(value) || without_zeros(value) != without_zeros(number) {
                return false;
            }
        }
    }
    true
}

/// Whether the value of a field, where it stands, accepts this element, in lower case.
pub(crate) fn accepts(value: Option<&[u8]>, element: &[u8]) -> bool
    requires { str_to_ascii_lowercase element.now ≡ element.now }
    ensures { result ≡ accepted element.now (option_copied value.entry) }
{
    match value {
        None => false,
        Some(value) => any_weighed(value, element),
    }
}

// Whether some element of a list is this one, with a weight.
fn any_weighed(value: &[u8], element: &[u8]) -> bool
    requires { str_to_ascii_lowercase element.now ≡ element.now }
    ensures { result ≡ spec.has_weighed element.now value.now }
{
    let mut rest = value;
    while let Some(at) = comma_in(rest) {
        if is_weighed(&rest[..at], element) {
            return true;
        }
        rest = &rest[at + 1..];
    }
    is_weighed(rest, element)
}

// Whether a part of a list is this element, and none of its parameters gives it no weight.
fn is_weighed(part: &[u8], element: &[u8]) -> bool
    requires { str_to_ascii_lowercase element.now ≡ element.now }
    ensures { result ≡ spec.is_weighed element.now part.now }
{
    is_element(part, element) && !has_no_weight(part)
}

// Whether a parameter of a part gives it no weight.
fn has_no_weight(part: &[u8]) -> bool
    ensures { result ≡ list_any spec.is_no_weight (slice_split (λ b. b == 59) part.now) }
{
    let mut rest = part;
    while let Some(at) = semicolon_in(rest) {
        if is_no_weight(&rest[..at]) {
            return true;
        }
        rest = &rest[at + 1..];
    }
    is_no_weight(rest)
}

// Where the first semicolon stands.
fn semicolon_in(text: &[u8]) -> Option<usize>
    ensures found { IfSome result (λ at. (at < length text.now) × (slice_split (λ b. b == 59) text.now
        ≡ take at text.now ∷ slice_split (λ b. b == 59) (drop (at + 1) text.now))) }
    ensures none { IfNone result (slice_split (λ b. b == 59) text.now ≡ text.now ∷ []) }
    ensures fits { length text.now < 2 ^ 64 }
{
    memchr(b';', text)
}

// Whether it is a weight of nothing.
fn is_no_weight(parameter: &[u8]) -> bool
    ensures { result ≡ spec.is_no_weight parameter.now }
{
    let said = trimmed(parameter);
    said.eq_ignore_ascii_case(b"q=0")
        || said.eq_ignore_ascii_case(b"q=0.")
        || said.eq_ignore_ascii_case(b"q=0.0")
        || said.eq_ignore_ascii_case(b"q=0.00")
        || said.eq_ignore_ascii_case(b"q=0.000")
}

/// Whether some element of a list is this one.
pub(crate) fn any_element(value: &[u8], element: &[u8]) -> bool
    requires { str_to_ascii_lowercase element.now ≡ element.now }
    ensures { result ≡ list_any (bytes_eq element.now) (spec.elements_of value.now) }
{
    let mut rest = value;
    while let Some(at) = comma_in(rest) {
        if is_element(&rest[..at], element) {
            return true;
        }
        rest = &rest[at + 1..];
    }
    is_element(rest, element)
}

// Where the first comma stands.
fn comma_in(text: &[u8]) -> Option<usize>
    ensures found { IfSome result (λ at. (at < length text.now) × (slice_split (λ b. b == 44) text.now
        ≡ take at text.now ∷ slice_split (λ b. b == 44) (drop (at + 1) text.now))) }
    ensures none { IfNone result (slice_split (λ b. b == 44) text.now ≡ text.now ∷ []) }
    ensures fits { length text.now < 2 ^ 64 }
{
    memchr(b',', text)
}

// Whether an element of a list, without its parameters and the space around it, is this one.
fn is_element(part: &[u8], element: &[u8]) -> bool
    requires { str_to_ascii_lowercase element.now ≡ element.now }
    ensures { result ≡ bytes_eq element.now (str_to_ascii_lowercase (trim_ows (before_first (λ b. b == 59) part.now))) }
{
    let front = before_semicolon(part);
    trimmed(front).eq_ignore_ascii_case(element)
}

// The bytes before the first semicolon, or all of them.
fn before_semicolon(part: &[u8]) -> &[u8]
    ensures { result.now ≡ before_first (λ b. b == 59) part.now }
{
    match memchr(b';', part) {
        Some(at) => &part[..at],
        None => part,
    }
}

// The bytes without the spaces and tabs at both ends.
fn trimmed(text: &[u8]) -> &[u8]
    ensures { result.now ≡ trim_ows text.now }
{
    without_space_behind(without_space_before(text))
}

fn without_space_before(text: &[u8]) -> &[u8]
    ensures { result.now ≡ skip_ows text.now }
{
    let mut rest = text;
    while let [b' ' | b'\t', tail @ ..] = rest {
        rest = tail;
    }
    rest
}

fn without_space_behind(text: &[u8]) -> &[u8]
    ensures { result.now ≡ reverse (skip_ows (reverse text.now)) }
{
    let mut rest = text;
    while let [front @ .., b' ' | b'\t'] = rest {
        rest = front;
    }
    rest
}

/// What a client expects before it sends a body.
#[derive(Clone, Copy)]
pub(crate) enum Expected {
    /// Nothing.
    Nothing,
    /// To be told to go on.
    GoOn,
    /// Something that there isn't.
    Other,
}

/// What the first `Expect` field says; of HTTP/1.0 it says nothing (RFC 9110, 10.1.1).
pub(crate) fn expected_of(version: u8, fields: &Fields<'_>) -> Expected
    ensures { (pairs : List spec.Pair) → AreFirst fields.now pairs → expected result ≡ spec.expected_of version pairs }
{
    match fields.expect {
        Some(value) if version != 0 => expected_by(value),
        _ => Expected::Nothing,
    }
}

// What an `Expect` field says.
fn expected_by(value: &[u8]) -> Expected
    ensures { expected result ≡ spec.expected_by (Some value.now) }
{
    if value.eq_ignore_ascii_case(b"100-continue") {
        Expected::GoOn
    } else {
        Expected::Other
    }
}

/// Where the body of a request ends (RFC 9112, 6).
#[derive(Clone, Copy)]
pub(crate) enum Framing {
    /// It has so many bytes.
    Sized(usize),
    /// It comes in chunks.
    Chunked,
}

// How a body is transferred.
#[derive(Clone, Copy)]
enum Coding {
    // As it is.
    Plain,
    // In chunks.
    InChunks,
    // By what there isn't.
    Unknown,
}

/// Where the body of a request of this version ends, or what is wrong with its fields.
pub(crate) fn framing_of(
    bytes: &[u8],
    lines: &[HeaderSpan],
    fields: &Fields<'_>,
    method: &[u8],
    version: u8,
) -> Result<Framing, Refusal>
    requires within { All (IsHeaderWithin (length bytes.now)) lines.now }
    requires first { AreFirst fields.now (map (header_bytes bytes.now) lines.now) }
    ensures fault { IfErr result (λ refusal. spec.fault_among version method.now (map (header_bytes bytes.now) lines.now) ≡ Some refusal) }
    ensures ok { OnOk result (spec.fault_among version method.now (map (header_bytes bytes.now) lines.now) ≡ None) }
    ensures framing { IfOk result (λ framed. framing framed ≡ spec.framing_among (map (header_bytes bytes.now) lines.now)) }
    ensures small { IfOk result IsSmall }
{
    let framed = told_framing(bytes, lines, fields, method, version)?;
    match expected_of(version, fields) {
        Expected::Other => Err(Refusal::Expectation),
        Expected::Nothing | Expected::GoOn => Ok(framed),
    }
}

// Where the fields tell that the body ends, or what is wrong with them.
fn told_framing(
    bytes: &[u8],
    lines: &[HeaderSpan],
    fields: &Fields<'_>,
    method: &[u8],
    version: u8,
) -> Result<Framing, Refusal>
    requires within { All (IsHeaderWithin (length bytes.now)) lines.now }
    requires first { AreFirst fields.now (map (header_bytes bytes.now) lines.now) }
    ensures fault { IfErr result (λ refusal. spec.framing_fault version method.now (map (header_bytes bytes.now) lines.now) ≡ Some refusal) }
    ensures ok { OnOk result (spec.framing_fault version method.now (map (header_bytes bytes.now) lines.now) ≡ None) }
    ensures framing { IfOk result (λ framed. framing framed ≡ spec.framing_among (map (header_bytes bytes.now) lines.now)) }
    ensures small { IfOk result IsSmall }
{
    match coding_of(bytes, lines, fields) {
        Coding::Plain => sized(told_length(bytes, lines, fields, method)),
        Coding::InChunks => told_chunks(version, fields),
        Coding::Unknown => Err(Refusal::Coding),
    }
}

// The framing of a body by its length.
fn sized(len: Result<usize, Refusal>) -> Result<Framing, Refusal>
    ensures { result ≡ sized_by len }
{
    match len {
        Ok(len) => Ok(Framing::Sized(len)),
        Err(refusal) => Err(refusal),
    }
}

// How a body is transferred.
fn coding_of(bytes: &[u8], lines: &[HeaderSpan], fields: &Fields<'_>) -> Coding
    requires within { All (IsHeaderWithin (length bytes.now)) lines.now }
    requires first { AreFirst fields.now (map (header_bytes bytes.now) lines.now) }
    ensures { coding result ≡ spec.coding_among (map (header_bytes bytes.now) lines.now) }
{
    let Some(said) = fields.transfer_encoding else {
        return Coding::Plain;
    };
    let once = is_said_once(bytes, lines, b"transfer-encoding");
    if is_chunked(said, once) {
        Coding::InChunks
    } else {
        Coding::Unknown
    }
}

// Whether a coding is `chunked`, and the only one.
fn is_chunked(said: &[u8], once: bool) -> bool
    ensures { result ≡ (bytes_eq (str_to_ascii_lowercase said.now) (codes "chunked") && once) }
{
    said.eq_ignore_ascii_case(b"chunked") && once
}

// Whether one field has this name, and no other.
fn is_said_once(bytes: &[u8], lines: &[HeaderSpan], name: &[u8]) -> bool
    requires within { All (IsHeaderWithin (length bytes.now)) lines.now }
    requires lower { str_to_ascii_lowercase name.now ≡ name.now }
    ensures { result ≡ (length (spec.values_of name.now (map (header_bytes bytes.now) lines.now)) == 1) }
{
    let mut count = 0usize;
    for line in lines {
        count += usize::from(is_named(bytes, *line, name));
    }
    count == 1
}

// What is wrong with the fields of a body in chunks, if anything is.
fn told_chunks(version: u8, fields: &Fields<'_>) -> Result<Framing, Refusal>
    ensures fault { (pairs : List spec.Pair) → AreFirst fields.now pairs → IfErr result (λ refusal. spec.chunks_fault version pairs ≡ Some refusal) }
    ensures ok { (pairs : List spec.Pair) → AreFirst fields.now pairs → OnOk result (spec.chunks_fault version pairs ≡ None) }
    ensures chunked { IfOk result (λ framed. framed ≡ Chunked) }
{
    if version == 0 || fields.content_length.is_some() {
        Err(Refusal::BadLength)
    } else {
        Ok(Framing::Chunked)
    }
}

// How many bytes of body the fields tell, or what is wrong with them.
fn told_length(
    bytes: &[u8],
    lines: &[HeaderSpan],
    fields: &Fields<'_>,
    method: &[u8],
) -> Result<usize, Refusal>
    requires within { All (IsHeaderWithin (length bytes.now)) lines.now }
    requires first { AreFirst fields.now (map (header_bytes bytes.now) lines.now) }
    ensures fault { IfErr result (λ refusal. fault_by_length method.now (map (header_bytes bytes.now) lines.now) ≡ Some refusal) }
    ensures ok { OnOk result (fault_by_length method.now (map (header_bytes bytes.now) lines.now) ≡ None) }
    ensures length { IfOk result (λ len. len ≡ spec.length_among (map (header_bytes bytes.now) lines.now)) }
    ensures small { IfOk result (λ len. len ≤ longest_body) }
{
    let Some(said) = fields.content_length else {
        return if needs_length(method) {
            Err(Refusal::NoLength)
        } else {
            Ok(0)
        };
    };
    if !is_number(said) {
        return Err(Refusal::BadLength);
    }
    if !all_equal(bytes, lines, b"content-length", said) {
        return Err(Refusal::BadLength);
    }
    match small_number(said) {
        Some(len) => Ok(len),
        None => Err(Refusal::Large),
    }
}

// Whether the method needs a body.
fn needs_length(method: &[u8]) -> bool
    ensures { result ≡ spec.needs_length method.now }
{
    method == b"PUT".as_slice() || method == b"POST".as_slice()
}

/// Whether the client of a request with such a body waits to be told to go on.
pub(crate) fn waits_to_go_on(version: u8, fields: &Fields<'_>, framed: Framing) -> bool
    ensures { (pairs : List spec.Pair) → AreFirst fields.now pairs → result ≡ spec.waits_by version pairs (framing framed) }
{
    match expected_of(version, fields) {
        Expected::GoOn => has_body(framed),
        Expected::Nothing | Expected::Other => false,
    }
}

// Whether there is a body, which may have no byte where it comes in chunks.
fn has_body(framed: Framing) -> bool
    ensures { result ≡ spec.has_body (framing framed) }
{
    match framed {
        Framing::Sized(len) => len > 0,
        Framing::Chunked => true,
    }
}

/// Whether the connection ends after the answer: HTTP/1.0, or a `close` element.
pub(crate) fn closes(version: u8, fields: &Fields<'_>) -> bool
    ensures { result ≡ (version == 0) || fields.now.closes }
{
    version == 0 || fields.closes
}
