//! The records of a vnode that serves no more.

ghost use Rattle.std.specs.Prelude.{◌≡◌, ℕ, List, All, length, OnOk, IfErr, IfOk};
ghost use Rattle.std.specs.Io.KnownBytes.{Appends};
ghost use Rattle.journal.specs.Replay.{IsReplay};
ghost use Rattle.vnode.specs.Keys.{AreKeys};
ghost use Rattle.vnode.specs.States.{keys_of};
ghost use Rattle.vnode.specs.declared.steps.Copied.{Copied as OneCopy};
ghost use Rattle.kept_file.specs.Files.{IsFileOf};
ghost use Rattle.record_codec.specs.Lists.{AreSpelledBy};
ghost use Rattle.kept_file.specs.Snapshots.{IsOfWriting, records_held};

use crate::snapshot::{SnapshotFault, write_end, write_record};
use std::alloc::Global;
use std::io::Write;
use vnode::{Copied, Vnode};

/// Writes the file of a vnode that nobody calls any more: the record of each of its keys, as its journal leaves it. Nothing is written down
/// there, so that a full journal is no obstacle. Answers how many keys there are. At an error, which is one of `PastLimit`, `NoMemory` and
/// `Unwritten`, what was written is no whole file.
pub fn write_whole<W: Write>(
    alloc: Global,
    vnode: &Vnode,
    out: &mut W,
) -> Result<usize, SnapshotFault>
    ensures whole { IfOk result (λ count. (held : List OneCopy) × (bytes : List ℕ) × AreKeys vnode.now (keys_of held) × All (λ c. IsReplay vnode.now.entries c.key c.state) held × (count ≡ length held)
        × IsFileOf vnode.now.vnode (records_held vnode.now.vnode (length vnode.now.entries) held) bytes × Appends (W.contents out.old) (W.contents out.new) bytes) }
    ensures why { IfErr result IsOfWriting }
{
    let id = vnode.id();
    let at = vnode.journal().len() as u64;
    let held = vnode.copies()?;
    write_held(alloc, id, at, &held, out)?;
    write_end(alloc, id, held.len(), out)?;
    Ok(held.len())
}

/// Writes the record of each copy, all of which were made at one place of the journal.
fn write_held<W: Write>(
    alloc: Global,
    id: u32,
    at: u64,
    held: &[Copied],
    out: &mut W,
) -> Result<(), SnapshotFault>
    ensures written { OnOk result ((bytes : List ℕ) × AreSpelledBy (records_held id at held.now) bytes × Appends (W.contents out.old) (W.contents out.new) bytes) }
    ensures why { IfErr result IsOfWriting }
{
    for copied in held {
        write_record(alloc, &copied.key, id, at, &copied.state, out)?;
    }
    Ok(())
}
