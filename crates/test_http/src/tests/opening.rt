//! The store behind the front.

use bpf_helpers::Table;
use hook_registry::Registry;
use peers::Local;
use server_one_thread::one_thread;
use server_store::Store;
use std::alloc::{AllocError, Global};

/// Three vnodes of an incarnation, of one thread, the first of which is each key's place, and no hook.
pub(crate) fn open(alloc: Global, incarnation: u16) -> Result<Store<Local, Registry>, AllocError> {
    let vnodes = Local::open_first(alloc, 3, incarnation, 0)?;
    Ok(one_thread(alloc, vnodes, Table::new(alloc)))
}
