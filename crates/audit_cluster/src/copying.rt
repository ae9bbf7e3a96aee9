//! Copies of the entries of a journal that are still here.

ghost use Rattle.std.specs.Prelude.{◌≡◌, IfOk, drop};

use journal::{Entry, Journal};
use std::alloc::{AllocError, Global};

/// Copies of the entries of a journal that are still here.
pub(crate) fn rest_of(alloc: Global, journal: &Journal) -> Result<Vec<Entry>, AllocError>
    ensures { IfOk result (λ rest. rest.items ≡ drop journal.now.first journal.now.log.entries) }
{
    let mut rest = Vec::new(alloc);
    for place in journal.first()..journal.len() {
        let Some(entry) = journal.get(place as u64) else {
            unreachable!();
        };
        rest.push(entry.copy(alloc)?)?;
    }
    Ok(rest)
}
