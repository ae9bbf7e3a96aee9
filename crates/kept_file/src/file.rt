//! The file of a vnode's records, and the records that end files.

ghost use Rattle.std.specs.Prelude.{◌≡◌, ◌↔◌, IfErr, IfOk, IsTrue};
ghost use Rattle.kept_file.specs.Files.{IsFileOf, IsUnkept, IsVnodesFile, end_key, end_of, is_of};

use crate::halves::records_beside;
use dvv::VNODES_PER_NUMBER;
use key_state::{Key, KeyState};
use record_codec::{Record, Unread, WireFault};
use std::alloc::Global;
use std::thread::Threads;
use thiserror::Error;

/// Bucket and key of the record that ends a file.
pub(crate) const END: &[u8] = b"end";

/// Which file records were read from.
#[derive(Clone, Copy, Debug, PartialEq, Eq)]
pub enum Source {
    /// That of the vnode with an identifier, whose lower 8 bits are the vnode's index.
    Vnode(u32),
    /// The log with a number. Its records are of any vnode.
    Log(u64),
}

impl Source {
    /// Whether it is the file of the vnode with an index.
    pub fn is_of(self, index: usize) -> bool
        ensures { result ≡ is_of self index }
    {
        match self {
            Source::Vnode(id) => (id % VNODES_PER_NUMBER) as usize == index,
            Source::Log(_) => false,
        }
    }
}

/// The records of a file.
#[derive(Drop)]
pub struct KeptFile {
    /// Which file it is.
    pub from: Source,
    /// Of a vnode's file a record for each key, in the order of keys. Of a log its records in the order in which they were written, without
    /// signs: several may be of one key.
    pub records: Vec<Record>,
}

/// Why bytes are not a whole file of records.
#[derive(Clone, Copy, Debug, PartialEq, Eq, Error)]
pub enum Unkept {
    /// The record at this place, counted from 0, has a fault.
    #[error("{fault} {place}")]
    Faulty { place: usize, fault: WireFault },
    /// Records are lacking, or too many: the last isn't the one that tells how many there are.
    #[error("no end")]
    NoEnd,
    /// Memory ran out.
    #[error("E1")]
    NoMemory,
}

/// The records of a vnode's file. A file that was cut, even behind a record, is told, and so is one that was damaged. Its two halves are
/// taken apart side by side where there are threads for that. Records that are among others, those of another vnode's file, take their
/// memory.
pub fn read_file<R: Threads>(
    alloc: Global,
    rt: &R,
    bytes: &[u8],
    others: &[Record],
) -> Result<KeptFile, Unkept>
    ensures kept { IfOk result (λ file. IsVnodesFile file bytes.now) }
    ensures unkept { IfErr result (IsUnkept bytes.now) }
{
    let (id, records) = read_ended(alloc, rt, bytes, others)?;
    Ok(KeptFile {
        from: Source::Vnode(id),
        records,
    })
}

/// The records before the one that ends a file, and the identifier that this one names.
pub(crate) fn read_ended<R: Threads>(
    alloc: Global,
    rt: &R,
    bytes: &[u8],
    others: &[Record],
) -> Result<(u32, Vec<Record>), Unkept>
    ensures kept { IfOk result (λ x. IsFileOf x.0 x.1.items bytes.now) }
    ensures unkept { IfErr result (IsUnkept bytes.now) }
{
    let mut records = match records_beside(alloc, rt, bytes, others) {
        Ok(records) => records,
        Err(Unread::Faulty { place, fault }) => return Err(Unkept::Faulty { place, fault }),
        Err(Unread::NoMemory) => return Err(Unkept::NoMemory),
    };
    let Some(last) = records.pop() else {
        return Err(Unkept::NoEnd);
    };
    if !is_end(alloc, &last, records.len()) {
        return Err(Unkept::NoEnd);
    }
    Ok((last.from, records))
}

/// Whether a record is the one that ends a file with so many before it.
#[tactic(auto, using(crate::proofs::Ending::end_is))]
fn is_end(alloc: Global, last: &Record, count: usize) -> bool
    ensures { IsTrue result ↔ (last.now ≡ end_of last.now.from count) }
{
    if last.at as usize != count {
        return false;
    }
    if !is_end_key(&last.key) {
        return false;
    }
    last.state.is_same(&KeyState::new(alloc))
}

/// Whether a key is that of the record which ends a file.
#[tactic(auto, using(crate::proofs::Ending::key_is))]
fn is_end_key(key: &Key) -> bool
    ensures { IsTrue result ↔ (key.now ≡ end_key) }
{
    key.bucket() == END && key.key() == END
}
