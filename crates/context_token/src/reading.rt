//! A text as a clock.

ghost use Rattle.std.specs.Prelude.{◌≡◌, ◌≢◌, ◌*◌, ◌<◌, ◌≤◌, ◌⊎◌, List, ℕ, length, take, drop, IsTrue, IfOk, IfErr, Ok, Err};
ghost use Rattle.base64.specs.Engines.{standard};
ghost use Rattle.base64.specs.GeneralPurpose.{encode_of, decode_of, IsBytes};
ghost use Rattle.dvv.specs.declared.Dot.{Dot as Entry};
ghost use Rattle.dvv.specs.Clock.{IsClock};
ghost use Rattle.context_token.specs.Layouts.{layout};
ghost use Rattle.context_token.specs.Token.{IsToken, entries_of, counts, checked, read_entries, read_bytes, read_text, HasToken, Fails, Gives};

use crate::fault::TokenFault;
use crate::version::{FIRST_MARK, SECOND_MARK, THIRD_MARK, Version};
use base64::DecodeAllocError;
use base64::engine::general_purpose::STANDARD;
use dvv::{Clock, Dot, MAX_COUNTER, MAX_ENTRIES};
use std::alloc::{AllocError, Global};

/// The clock of a text, or the first fault in the order of [`TokenFault`]. Each clock has one text of version 1, and one
/// of version 2 and one of version 3 where these can tell each of its vnodes; no other text is read as it.
pub fn read(alloc: Global, text: &str) -> Result<Clock, TokenFault>
    // Which answer it is.
    ensures exact { Gives result (read_text text.now) }
    // What is read is spelled so.
    ensures canonical { IfOk result (λ clock. HasToken clock × IsToken text.now clock) }
    // What is spelled so is read, unless memory runs out.
    ensures reads { (clock : List Entry) → HasToken clock → IsToken text.now clock → Gives result (Ok clock) }
    // What is no base64 is no bytes' base64.
    ensures base64 { result ≡ Err TokenFault.NotBase64 → (bytes : List ℕ) → IsBytes bytes → text.now ≢ encode_of standard bytes }
{
    read_bytes(alloc, text.as_bytes())
}

/// The same of bytes that need not be text, as those of a header's value: bytes that are none are
/// [`TokenFault::NotBase64`].
pub fn read_bytes(alloc: Global, text: &[u8]) -> Result<Clock, TokenFault>
    // Which answer it is.
    ensures exact { Gives result (read_text text.now) }
    // What is read is spelled so.
    ensures canonical { IfOk result (λ clock. HasToken clock × IsToken text.now clock) }
    // What is spelled so is read, unless memory runs out.
    ensures reads { (clock : List Entry) → HasToken clock → IsToken text.now clock → Gives result (Ok clock) }
    // What is no base64 is no bytes' base64.
    ensures base64 { result ≡ Err TokenFault.NotBase64 → (bytes : List ℕ) → IsBytes bytes → text.now ≢ encode_of standard bytes }
{
    match decoded(alloc, text) {
        Ok(bytes) => clock_of(alloc, &bytes),
        Err(fault) => Err(fault),
    }
}

// The bytes that the text spells in base64.
fn decoded(alloc: Global, text: &[u8]) -> Result<Vec<u8>, TokenFault>
    ensures ok { IfOk result (λ bytes. decode_of standard text.now ≡ Ok bytes.items) }
    ensures bytes { IfOk result (λ bytes. IsBytes bytes.items) }
    ensures text { IfOk result (λ bytes. text.now ≡ encode_of standard bytes.items) }
    ensures err { IfErr result (λ fault. Fails fault (read_text text.now)) }
    ensures base64 { result ≡ Err TokenFault.NotBase64 → (bytes : List ℕ) → IsBytes bytes → text.now ≢ encode_of standard bytes }
{
    match STANDARD.decode(alloc, text) {
        Ok(bytes) => Ok(bytes),
        Err(DecodeAllocError::OutOfMemory) => Err(TokenFault::NoMemory),
        Err(DecodeAllocError::DecodeError(_)) => Err(TokenFault::NotBase64),
    }
}

// The clock of a token's bytes, by their version.
fn clock_of(alloc: Global, bytes: &[u8]) -> Result<Clock, TokenFault>
    ensures { Gives result (read_bytes bytes.now) }
{
    let [mark, rest @ ..] = bytes else {
        return Err(TokenFault::Cut);
    };
    match *mark {
        FIRST_MARK => counted_entries(alloc, Version::First, rest),
        SECOND_MARK => counted_entries(alloc, Version::Second, rest),
        THIRD_MARK => counted_entries(alloc, Version::Third, rest),
        _ => Err(TokenFault::Version),
    }
}

// The clock of a count and that many entries.
fn counted_entries(alloc: Global, version: Version, bytes: &[u8]) -> Result<Clock, TokenFault>
    ensures { Gives result (read_entries (layout version) bytes.now) }
{
    if bytes.len() < 2 {
        return Err(TokenFault::Cut);
    }
    let (count, rest) = bytes.split_at(2);
    let count = u16::from_be_bytes([count[0], count[1]]) as usize;
    if count > MAX_ENTRIES {
        return Err(TokenFault::PastLimit);
    }
    if rest.len() != version.entry_len() * count {
        return Err(TokenFault::Cut);
    }
    checked(version, entries_of(alloc, version, count, rest)?)
}

// So many entries.
fn entries_of(
    alloc: Global,
    version: Version,
    count: usize,
    bytes: &[u8],
) -> Result<Vec<Dot>, AllocError>
    requires len { length bytes.now ≡ (layout version).entry_len * count }
    requires limit { count ≤ 1024 }
    ensures entries { IfOk result (λ entries. entries.items ≡ entries_of (layout version) count bytes.now) }
{
    let mut entries = Vec::with_capacity(alloc, count)?;
    let mut rest = bytes;
    for _ in 0..count {
        let (entry, after) = rest.split_at(version.entry_len());
        entries.push(version.entry(entry))?;
        rest = after;
    }
    Ok(entries)
}

// The clock of entries that rise and are within their limits.
fn checked(version: Version, mut entries: Vec<Dot>) -> Result<Clock, TokenFault>
    requires len { length entries.items ≤ 1024 }
    ensures { Gives result (checked (layout version) entries.items) }
{
    if !version.are_rising(&entries) {
        return Err(TokenFault::NotRising);
    }
    if !are_within(&entries) || !version.tells_all(&entries) {
        return Err(TokenFault::PastLimit);
    }
    entries.sort_unstable_by_key(|entry| entry.vnode);
    Ok(Clock::from_entries(entries))
}

// Whether each counter is from 1 to the limit.
fn are_within(entries: &[Dot]) -> bool
    ensures { result ≡ counts entries.now }
{
    entries
        .iter()
        .all(|entry| 1 <= entry.n && entry.n <= MAX_COUNTER)
}
