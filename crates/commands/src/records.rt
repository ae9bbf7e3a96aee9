//! The records of a dump in a file, one after another.

ghost use Rattle.std.specs.Prelude.{◌≡◌, ◌+◌, IfOk};
ghost use Rattle.record_codec.specs.Lists.{AreSpelledBy};
ghost use Rattle.record_codec.specs.Records.{IsRecord, spelling};
ghost use Rattle.commands.specs.Records.{fault_text, is_of, names_incarnation, record_of, records_of};
ghost use Rattle.std.specs.List.{list_any};

use dvv::{Dot, VNODES_PER_INCARNATION};
use record_codec::{Record, Unspelled, WireFault, record_bytes};
use std::alloc::Global;
use world::{Copied, Copies};

/// The records of copies, one after another.
pub fn spelled(alloc: Global, copies: &Copies) -> Result<Vec<u8>, Unspelled>
    ensures { IfOk result (λ bytes. AreSpelledBy (records_of copies.now) bytes.items) }
{
    let mut bytes = Vec::new(alloc);
    let mut place = Some(copies.first as u64);
    for copy in &copies.held {
        let Some(at) = place else {
            return Err(Unspelled::PastLimit);
        };
        bytes.extend_from_slice(&record_of(alloc, copies.from, at, copy)?)?;
        place = at.checked_add(1);
    }
    Ok(bytes)
}

/// The record of a copy that an entry at a place of a vnode's journal made.
fn record_of(alloc: Global, from: u32, at: u64, copy: &Copied) -> Result<Vec<u8>, Unspelled>
    ensures { IfOk result (λ bytes. IsRecord (record_of from at copy.now) × (bytes.items ≡ spelling (record_of from at copy.now))) }
{
    let Copied { key, state } = copy;
    record_bytes(alloc, key, from, at, state)
}

/// Whether one of the records is of a vnode of an incarnation, or counts writes of one.
pub fn name_incarnation(records: &[Record], incarnation: u16) -> bool
    ensures { result ≡ list_any (names_incarnation incarnation) records.now }
{
    records
        .iter()
        .any(|one| names_incarnation(one, incarnation))
}

/// Whether a record is of a vnode of an incarnation, or counts writes of one.
fn names_incarnation(one: &Record, incarnation: u16) -> bool
    ensures { result ≡ names_incarnation incarnation one.now }
{
    is_of(one.from, incarnation) || counts(one.state.clock().entries(), incarnation)
}

/// Whether a clock counts writes of vnodes of an incarnation.
fn counts(entries: &[Dot], incarnation: u16) -> bool
    ensures { result ≡ list_any (λ entry. is_of entry.vnode incarnation) entries.now }
{
    entries.iter().any(|entry| is_of(entry.vnode, incarnation))
}

/// Whether a vnode's identifier is one of an incarnation.
fn is_of(vnode: u32, incarnation: u16) -> bool
    ensures { result ≡ is_of vnode incarnation }
{
    vnode / VNODES_PER_INCARNATION == u32::from(incarnation)
}

/// The number of a fault.
pub fn fault_number(fault: WireFault) -> &'static str
    ensures { result.now ≡ fault_text fault }
{
    match fault {
        WireFault::Cut => "W1",
        WireFault::Mark => "W2",
        WireFault::Digest => "W3",
        WireFault::NotCanonical => "W4",
        WireFault::NoMemory => "E1",
    }
}
