//! The store of one thread, as it begins.

ghost use Rattle.std.specs.Prelude.{◌≡◌, ◌<◌, ◌^◌, [], length};
ghost use Rattle.hook_registry.specs.Tables.{Shows};
ghost use Rattle.server_log.specs.Notes.{no_notes};

use bpf_helpers::Table;
use hook_registry::Registry;
use peers::Local;
use quorum::Hooking;
use server_store::Store;
use std::alloc::Global;

/// A store on these vnodes, one at least, without a hook yet. Hooks may call the helpers of the table.
pub fn one_thread(alloc: Global, vnodes: Local, table: Table) -> Store<Local, Registry>
    requires some { 0 < length vnodes.logs }
    requires few { length vnodes.logs < 2 ^ 32 }
    ensures vnodes { result.peers ≡ vnodes }
    ensures hooks { Shows [] result.hooking.hooks }
    ensures table { result.hooking.table ≡ table }
    ensures placement { result.placement ≡ record { vnodes = length vnodes.logs; copies = 3; first = vnodes.first } }
    ensures noted { result.noted.kinds ≡ no_notes }
{
    let placement = vnodes.placement();
    let hooking = Hooking::new(alloc, Registry::new(alloc), table);
    Store::new(alloc, vnodes, hooking, placement)
}
