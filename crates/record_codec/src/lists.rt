//! Records, one after another, and a record of what may be past its limits.

ghost use Rattle.std.specs.Prelude.{◌≡◌, ◌↔◌, ◌++◌, ◌∷◌, [], IfErr, IfOk, IsTrue, OnOk};
ghost use Rattle.key_state.specs.Limits.{IsContent};
ghost use Rattle.record_codec.specs.Records.{AreContents, IsRecord, spelling};
ghost use Rattle.record_codec.specs.declared.lists.Unread.TheVariants as unread;
ghost use Rattle.record_codec.specs.Lists.{AreSpelledBy, IsUnread, record_of};

use crate::fault::WireFault;
use crate::read::read_record;
use crate::record::Record;
use crate::sharing::{from_key, share, share_media};
use crate::write::{has_record, write_record};
use key_state::{Content, Key, KeyState, MAX_MEDIA_BYTES, MAX_VALUE_BYTES, Sibling};
use std::alloc::{AllocError, Global};

/// Why bytes are not read as records.
#[derive(Clone, Copy)]
pub enum Unread {
    /// The record at this place, counted from 0, has a fault.
    Faulty { place: usize, fault: WireFault },
    /// Memory ran out for the list of records.
    NoMemory,
}

/// Why a state has no record, or something else that is spelled as records are has no spelling.
#[derive(Clone, Copy)]
pub enum Unspelled {
    /// A key, a content, a number of siblings or a body is past its limit.
    PastLimit,
    /// Memory ran out.
    NoMemory,
}

impl From<AllocError> for Unspelled {
    ghost use Rattle.record_codec.specs.declared.lists.Unspelled.TheVariants.{NoMemory};

    ghost from_gives = { λ _ why. why ≡ NoMemory };

    fn from(_: AllocError) -> Unspelled {
        Unspelled::NoMemory
    }
}

/// The bytes of the record of a key's state, which the entry at a place of a vnode's journal answered. `PastLimit` where it has none,
/// `NoMemory` where a growth was refused.
pub fn record_bytes(
    alloc: Global,
    key: &Key,
    from: u32,
    at: u64,
    state: &KeyState,
) -> Result<Vec<u8>, Unspelled>
    ensures is_record { IfOk result (λ bytes. IsRecord (record_of key.now from at state.now) × (bytes.items ≡ spelling (record_of key.now from at state.now))) }
    ensures listed { IfOk result (λ bytes. AreSpelledBy (record_of key.now from at state.now ∷ []) bytes.items) }
{
    if !key.is_within_limits() || !are_contents(state.siblings()) || !has_record(key, at, state) {
        return Err(Unspelled::PastLimit);
    }
    Ok(write_record(alloc, key, from, at, state)?)
}

/// Whether the contents of siblings are within their limits.
pub fn are_contents(siblings: &[Sibling]) -> bool
    ensures { IsTrue result ↔ AreContents siblings.now }
{
    for sibling in siblings {
        if !is_content(&sibling.content) {
            return false;
        }
    }
    true
}

/// Whether a content is within its limits.
pub fn is_content(content: &Content) -> bool
    ensures { IsTrue result ↔ IsContent content.now }
{
    match content {
        Content::Value { media, bytes } => {
            let media = media.as_slice().len();
            1 <= media && media <= MAX_MEDIA_BYTES && bytes.as_slice().len() <= MAX_VALUE_BYTES
        }
        Content::Tombstone => true,
    }
}

/// The records that bytes are, one after another, or the first that has a fault. Those that are among others take their memory: both stand
/// in the order of keys, and where they don't, less is shared.
pub fn records_in(alloc: Global, bytes: &[u8], others: &[Record]) -> Result<Vec<Record>, Unread>
    ensures records { IfOk result (λ records. AreSpelledBy records.items bytes.now) }
    ensures unread { IfErr result (IsUnread bytes.now) }
{
    let mut records = Vec::new(alloc);
    let mut left = bytes;
    let mut rest = others;
    while !left.is_empty() {
        match read_record(alloc, left) {
            Ok((one, len)) => {
                rest = from_key(rest, &one.key);
                keep(alloc, &mut records, rest.first(), one)?;
                left = &left[len..];
            }
            Err(fault) => {
                let place = records.len();
                return Err(Unread::Faulty { place, fault });
            }
        }
    }
    Ok(records)
}

/// Appends a record to a list. It takes the memory of another one, where it is the same, and else its media type's bytes are those of the
/// last one's, where these are the same.
fn keep(
    alloc: Global,
    records: &mut Vec<Record>,
    other: Option<&Record>,
    mut one: Record,
) -> Result<(), Unread>
    ensures kept { OnOk result (records.new.items ≡ records.old.items ++ one ∷ []) }
    ensures short { IfErr result (λ why. why ≡ unread.NoMemory) }
{
    match (other, records.last()) {
        (Some(other), _) => share(&mut one, other),
        (None, Some(last)) => share_media(alloc, &mut one.state, &last.state),
        (None, None) => {}
    }
    match records.push(one) {
        Ok(()) => Ok(()),
        Err(_) => Err(Unread::NoMemory),
    }
}
