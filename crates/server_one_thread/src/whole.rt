//! The answers to bytes that are all at hand.

ghost use Rattle.std.specs.Prelude.{ℕ, List, [], Some, IfOk};
ghost use Rattle.hook_registry.specs.Changes.{Change};
ghost use Rattle.hook_registry.specs.Tables.{Shows};
ghost use Rattle.server_one_thread.specs.Exchanges.{Serves};
ghost use Rattle.server_one_thread.specs.Journals.{AreJournals};
ghost use Rattle.server_one_thread.specs.Past.{Now};
ghost use Rattle.server_one_thread.specs.Stores.{IsOfOneThread};

use crate::serving::serve;
use http_connection::{Backend, Front, FrontFault, MemorySink, MemorySource};
use std::alloc::Global;

/// The answers to all the requests of a connection whose bytes are these, on a store of one thread: what [`serve`](crate::serve) writes.
/// The fault is want of memory.
pub fn answers_to<B: Backend>(
    alloc: Global,
    bytes: &[u8],
    store: &mut B,
) -> Result<Vec<u8>, FrontFault>
    ensures { IfOk result (λ out. (now : B → Now) (changes : List Change) → IsOfOneThread B.gives B.copies now
        → Shows changes (now store.old).hooks → AreJournals (now store.old).peers.logs
        → (count : ℕ) × Serves bytes.now (now store.old) (now store.new) changes [] (Some out.items) count) }
{
    let mut front = Front::new(alloc)?;
    let mut source = MemorySource::new(bytes);
    let mut sink = MemorySink::new(alloc);
    serve(&mut front, &mut source, &mut sink, store)?;
    Ok(sink.bytes)
}
