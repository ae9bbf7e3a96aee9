//! Texts in parts.

use std::alloc::Global;
use std::io::Write;
use std::{io, str};

/// What stands before a byte, and what behind it: all and nothing, where there is no such byte.
pub fn parted(bytes: &[u8], by: u8) -> (&[u8], &[u8]) {
    let mut parts = bytes.splitn(2, |byte| *byte == by);
    let front = parts.next().unwrap_or(&[]);
    (front, parts.next().unwrap_or(&[]))
}

/// Bytes as text.
pub fn text_of(bytes: &[u8]) -> io::Result<&str> {
    str::from_utf8(bytes).map_err(|_| io::Error::from(io::ErrorKind::InvalidData))
}

/// The words of a text, which one space parts: none of an empty text.
pub fn words_in(alloc: Global, text: &[u8]) -> io::Result<Vec<&str>> {
    let mut words = Vec::new(alloc);
    if !text.is_empty() {
        for word in text.split(|byte| *byte == b' ') {
            words.push(text_of(word)?)?;
        }
    }
    Ok(words)
}

/// Adds the bytes that digits in hexadecimal spell, so many times.
pub fn push_digits(
    alloc: Global,
    digits: &[u8],
    times: u32,
    bytes: &mut Vec<u8>,
) -> io::Result<()> {
    let Ok(spelled) = hex::decode(alloc, digits) else {
        return Err(io::Error::from(io::ErrorKind::InvalidData));
    };
    push_times(&spelled, times, bytes)
}

/// Adds a piece so many times.
fn push_times(piece: &[u8], times: u32, bytes: &mut Vec<u8>) -> io::Result<()> {
    for _ in 0..times {
        bytes.write_all(piece)?;
    }
    Ok(())
}

/// Tells whether two texts are the same, or from which byte on, counted from 0, they aren't.
pub fn tell_difference(one: &[u8], other: &[u8], told: &mut Vec<u8>) -> io::Result<()> {
    match first_difference(one, other) {
        None => writeln!(told, "as written"),
        Some(at) => writeln!(told, "something else from byte {at} on"),
    }
}

/// The first place, from 0, where two texts differ: the end of the shorter, where it is the beginning of the other.
pub fn first_difference(one: &[u8], other: &[u8]) -> Option<usize> {
    let same = one.iter().zip(other).take_while(|(a, b)| a == b).count();
    if same == one.len() && same == other.len() {
        None
    } else {
        Some(same)
    }
}
