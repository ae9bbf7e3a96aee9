//! The audit of vnodes' journals.

ghost use Rattle.std.specs.Prelude.{◌≡◌, ◌≢◌, ◌<◌, ℕ, true, length};
ghost use Rattle.audit_replay.specs.Interleaved.{ids_of};
ghost use Rattle.audit_replay.specs.Rerun.{AreLegal};
ghost use Rattle.world.specs.Represents.{AreDistinct, log_at};

use audit_journals::{AuditFault, EntryFault, audit};
use journal::Whole;
use std::alloc::Global;
use std::test::Fail;
use vnode::Vnode;

/// What is told of journals: nothing, or a fault at a vnode and a place.
pub(crate) type Told = Option<(EntryFault, u32, usize)>;

/// Whose journal the one with this index is.
fn id_at(journals: &[Whole<'_>], index: usize) -> u32
    requires { index < length journals.now }
    ensures { result ≡ (log_at journals.now index).vnode }
{
    journals[index].vnode()
}

/// Whether none of some journals is this vnode's.
fn is_new(journals: &[Whole<'_>], vnode: u32) -> bool
    ensures { result ≡ true → (index : ℕ) → index < length journals.now → (log_at journals.now index).vnode ≢ vnode }
{
    for index in 0..journals.len() {
        if id_at(journals, index) == vnode {
            return false;
        }
    }
    true
}

/// What the audit of some journals tells. There is memory for it.
fn told(alloc: Global, journals: &[Whole<'_>]) -> Result<Told, Fail>
    requires distinct { AreDistinct (ids_of journals.now) }
    requires legal { AreLegal journals.now }
{
    match audit(alloc, journals) {
        Ok(()) => Ok(None),
        Err(AuditFault::Found { code, vnode, place }) => Ok(Some((code, vnode, place))),
        Err(AuditFault::NoMemory) => Err(Fail::new("no memory")),
    }
}

/// What is told of the journals of vnodes with different identifiers.
pub(crate) fn judge(alloc: Global, vnodes: &[Vnode]) -> Result<Told, Fail> {
    let mut journals = Vec::with_capacity(alloc, vnodes.len())?;
    for vnode in vnodes {
        let Some(journal) = vnode.journal().whole() else {
            return Err(Fail::new("entries were handed out"));
        };
        if !is_new(&journals, journal.vnode()) {
            return Err(Fail::new("two vnodes with one identifier"));
        }
        journals.push(journal)?;
    }
    told(alloc, &journals)
}
