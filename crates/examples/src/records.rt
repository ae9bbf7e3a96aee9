//! Records: the states of keys as bytes.

ghost use Rattle.record_codec.specs.Records.{IsRecord};

use crate::clocks::tell_clock;
use dvv::Dot;
use key_state::{Content, Key, Sibling};
use record_codec::{Record, has_record, read_record, write_record};
use std::alloc::{AllocError, Global};
use std::io;
use std::io::Write;

/// At most so many bytes of a name or a value are told.
const SHOWN_BYTES: usize = 16;

/// Tells the record with which bytes begin, how many these are, and whether it is written as they stand; or why there is none.
pub fn tell_record(alloc: Global, bytes: &[u8], told: &mut Vec<u8>) -> io::Result<()> {
    match read_record(alloc, bytes) {
        Ok((record, len)) => tell_found(alloc, &record, &bytes[..len], told),
        Err(fault) => write!(told, "|{fault}"),
    }
}

/// Tells a record that these bytes spell.
fn tell_found(alloc: Global, found: &Record, bytes: &[u8], told: &mut Vec<u8>) -> io::Result<()>
    requires { IsRecord found.now }
{
    let len = bytes.len();
    write!(told, "|{len} bytes")?;
    tell_parts(found, told)?;
    tell_spelling(alloc, found, bytes, told)
}

/// Tells what a record carries.
fn tell_parts(found: &Record, told: &mut Vec<u8>) -> io::Result<()> {
    let Record {
        key,
        from,
        at,
        state,
    } = found;
    tell_key(key, told)?;
    write!(told, "|from {from} at {at}")?;
    tell_clock(state.clock(), told)?;
    tell_siblings(state.siblings(), told)
}

/// Tells a bucket, and a key there.
fn tell_key(key: &Key, told: &mut Vec<u8>) -> io::Result<()> {
    told.write_all(b"|")?;
    tell_short(key.bucket(), told)?;
    told.write_all(b" ")?;
    tell_short(key.key(), told)
}

/// Tells bytes as they stand, or how many they are where they are too many.
fn tell_short(bytes: &[u8], told: &mut Vec<u8>) -> io::Result<()> {
    let len = bytes.len();
    if len > SHOWN_BYTES {
        write!(told, "{len} bytes")
    } else {
        told.write_all(bytes)
    }
}

/// Tells siblings.
fn tell_siblings(siblings: &[Sibling], told: &mut Vec<u8>) -> io::Result<()> {
    told.write_all(b"|siblings")?;
    for sibling in siblings {
        let Dot { vnode, n } = sibling.dot;
        write!(told, " {vnode}-{n}")?;
        tell_content(&sibling.content, told)?;
    }
    Ok(())
}

/// Tells a content: a value behind its media type, or a tombstone.
fn tell_content(content: &Content, told: &mut Vec<u8>) -> io::Result<()> {
    match content {
        Content::Value { media, bytes } => {
            told.write_all(b"=")?;
            tell_short(media.as_slice(), told)?;
            told.write_all(b":")?;
            tell_short(bytes.as_slice(), told)
        }
        Content::Tombstone => told.write_all(b"!"),
    }
}

/// Tells whether a record is written as these bytes.
fn tell_spelling(alloc: Global, found: &Record, bytes: &[u8], told: &mut Vec<u8>) -> io::Result<()>
    requires { IsRecord found.now }
{
    let spelling: &[u8] = if !has_record(&found.key, found.at, &found.state) {
        b"|has no record"
    } else if is_spelling_of(alloc, found, bytes)? {
        b"|written again"
    } else {
        b"|written otherwise"
    };
    told.write_all(spelling)
}

/// Whether a record is written as these bytes.
fn is_spelling_of(alloc: Global, found: &Record, bytes: &[u8]) -> Result<bool, AllocError>
    requires { IsRecord found.now }
{
    let Record {
        key,
        from,
        at,
        state,
    } = found;
    Ok(write_record(alloc, key, *from, *at, state)?.as_slice() == bytes)
}
