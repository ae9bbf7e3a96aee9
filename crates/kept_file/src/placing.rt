//! Records of files, as they stand by a placement: that by which the files were written may have had more copies of each key, or fewer.

ghost use Rattle.std.specs.Prelude.{◌≡◌, ◌==◌, ◌≤◌, Contains, IfOk, IsTrue, OnOk, true};
ghost use Rattle.std.specs.List.{list_any};
ghost use Rattle.key_state.specs.Limits.{IsKey};
ghost use Rattle.kept_file.specs.declared.file.KeptFile.{KeptFile as OneFile};
ghost use Rattle.kept_file.specs.Placed.{ArePlaced, CameOf, HasAll, HasThose, IsAddedOrSeen, IsAmong, IsPlacedAt, stands};

use crate::file::{KeptFile, Source};
use key_state::Key;
use record_codec::Record;
use ring::Placement;
use std::alloc::{AllocError, Global};

/// A vnode among those of a placement.
#[derive(Clone, Copy)]
struct Stand<'a> {
    placement: &'a Placement,
    vnode: usize,
}

/// Files, and for each how far the records that were looked for came in it.
#[derive(Drop)]
struct Seen<'a> {
    files: &'a [KeptFile],
    places: Vec<usize>,
}

/// What each vnode of a placement begins with, of what files hold: a file for each, in the order of their indexes. Each vnode has of each key
/// that stands there the state of each file that has one. Of records that differ only by where they were read one is enough. A record whose
/// key is past the limits, as no file has one, stands nowhere.
pub fn placed(
    alloc: Global,
    placement: &Placement,
    files: &[KeptFile],
) -> Result<Vec<KeptFile>, AllocError>
    requires few { placement.now.vnodes ≤ 256 }
    ensures placed { IfOk result (λ placed. ArePlaced placement.now files.now placed.items) }
{
    let mut placed = Vec::new(alloc);
    for vnode in 0..placement.vnodes() {
        let stand = Stand {
            placement,
            vnode: vnode as usize,
        };
        let records = records_for(alloc, stand, files)?;
        placed.push(KeptFile {
            from: Source::Vnode(vnode),
            records,
        })?;
    }
    Ok(placed)
}

/// What a vnode begins with.
fn records_for(
    alloc: Global,
    stand: Stand<'_>,
    files: &[KeptFile],
) -> Result<Vec<Record>, AllocError>
    ensures { IfOk result (λ records. IsPlacedAt stand.entry.placement.now files.now stand.entry.vnode records.items) }
{
    let mut records = Vec::new(alloc);
    for (place, file) in files.iter().enumerate() {
        add_file(alloc, stand, &files[..place], file, &mut records)?;
    }
    Ok(records)
}

/// Adds those records of a file that the vnode begins with and that aren't among those of earlier files, all of which are there.
fn add_file(
    alloc: Global,
    stand: Stand<'_>,
    earlier: &[KeptFile],
    file: &KeptFile,
    records: &mut Vec<Record>,
) -> Result<(), AllocError>
    requires { HasAll stand.placement.now stand.vnode earlier.now records.old.items }
    ensures all { OnOk result (HasAll stand.entry.placement.now stand.entry.vnode earlier.now records.new.items) }
    ensures those { OnOk result (HasThose stand.entry.placement.now stand.entry.vnode file.now.records.items records.new.items) }
    ensures theirs { OnOk result (CameOf stand.entry.placement.now stand.entry.vnode records.old.items file.now.records.items records.new.items) }
{
    let mut seen = Seen {
        files: earlier,
        places: vec![in alloc; 0usize; earlier.len()]?,
    };
    for one in &file.records {
        add_one(alloc, stand, &mut seen, one, records)?;
    }
    Ok(())
}

/// Adds a record, where its key stands at the vnode and it isn't among those of the files that were seen.
fn add_one(
    alloc: Global,
    stand: Stand<'_>,
    seen: &mut Seen<'_>,
    one: &Record,
    records: &mut Vec<Record>,
) -> Result<(), AllocError>
    ensures files { seen.new.files ≡ seen.old.files }
    ensures added { OnOk result (IsAddedOrSeen stand.entry.placement.now stand.entry.vnode seen.old.files.now one.now records.old.items records.new.items) }
{
    if stands(stand, &one.key) && !seen.has(one) {
        records.push(copy_of(alloc, one)?)?;
    }
    Ok(())
}

/// Whether a key stands at the vnode.
fn stands(stand: Stand<'_>, key: &Key) -> bool
    ensures yes { IsTrue result → stands stand.entry.placement.now key.now stand.entry.vnode ≡ true }
    ensures no { IsKey key.now → stands stand.entry.placement.now key.now stand.entry.vnode ≡ true → IsTrue result }
{
    if !key.is_within_limits() {
        return false;
    }
    let place = stand.placement.place_of(key.bucket(), key.key());
    let list = stand.placement.preferred(place);
    has(list.as_slice(), stand.vnode)
}

/// Whether a vnode is among some.
fn has(vnodes: &[usize], vnode: usize) -> bool
    ensures { result ≡ list_any (λ i. i == vnode) vnodes.now }
{
    vnodes.iter().any(|i| *i == vnode)
}

impl Seen<'_> {
    /// Whether a record, but for where it was read, is among those of the files. Both stand in the order of keys, and where they don't,
    /// it may be missed.
    fn has(&mut self, one: &Record) -> bool
        ensures files { self.new.files ≡ self.old.files }
        ensures has { IsTrue result → (file : OneFile) × Contains self.old.files.now file × IsAmong file.records.items one.now }
    {
        let files = self.files;
        for (index, file) in files.iter().enumerate() {
            if let Some(place) = self.places.get_mut(index) {
                *place = place_from(&file.records, *place, &one.key);
                if is_same_at(&file.records, *place, one) {
                    return true;
                }
            }
        }
        false
    }
}

/// The place of the first record, from a place on, that doesn't come before a key; the end where there is none.
fn place_from(records: &[Record], from: usize, key: &Key) -> usize {
    let mut place = from;
    while place < records.len() && records[place].key < *key {
        place += 1;
    }
    place
}

/// Whether the record at a place is a record, but for where it was read.
fn is_same_at(records: &[Record], place: usize, one: &Record) -> bool
    ensures { IsTrue result → IsAmong records.now one.now }
{
    match records.get(place) {
        Some(other) => other.key == one.key && other.state.is_same(&one.state),
        None => false,
    }
}

/// A copy of a record, which shares what it holds.
fn copy_of(alloc: Global, one: &Record) -> Result<Record, AllocError>
    ensures { IfOk result (λ copy. copy ≡ one.now) }
{
    Ok(Record {
        key: one.key.copy()?,
        from: one.from,
        at: one.at,
        state: one.state.copy(alloc)?,
    })
}
