//! Causal contexts: clocks as text.

use crate::clocks::tell_clock;
use context_token::{TokenFault, read, read_bytes, write, write_to};
use dvv::Clock;
use std::alloc::{AllocError, Global};
use std::io::Write;
use std::{io, str};

/// Tells the clock that bytes spell, its text, and whether it is written as these bytes; or why they are no context.
pub fn tell_context(alloc: Global, bytes: &[u8], told: &mut Vec<u8>) -> io::Result<()> {
    match clock_in(alloc, bytes) {
        Ok(clock) => tell_text(alloc, &clock, bytes, told),
        Err(fault) => write!(told, "|{fault}"),
    }
}

/// The clock that bytes spell, which may be no text.
fn clock_in(alloc: Global, bytes: &[u8]) -> Result<Clock, TokenFault> {
    match str::from_utf8(bytes) {
        Ok(text) => read(alloc, text),
        Err(_) => read_bytes(alloc, bytes),
    }
}

/// Tells a clock, its text, and whether it is written as these bytes.
fn tell_text(alloc: Global, clock: &Clock, bytes: &[u8], told: &mut Vec<u8>) -> io::Result<()> {
    tell_clock(clock, told)?;
    told.write_all(b"|")?;
    write_to(clock, told)?;
    let again: &[u8] = if is_text_of(alloc, clock, bytes)? {
        b"|written again"
    } else {
        b"|written otherwise"
    };
    told.write_all(again)
}

/// Whether a clock is written as these bytes.
fn is_text_of(alloc: Global, clock: &Clock, bytes: &[u8]) -> Result<bool, AllocError> {
    Ok(write(alloc, clock)?.as_bytes() == bytes)
}
