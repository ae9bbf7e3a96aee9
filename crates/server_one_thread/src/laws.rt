//! What holds of the vnodes of one thread. Each of these functions does nothing: its contract is the law.

ghost use Rattle.std.specs.Prelude.{ℕ};
ghost use Rattle.peers.specs.Locals.{fresh};
ghost use Rattle.server_one_thread.specs.Journals.{AreJournals};
ghost use Rattle.server_one_thread.specs.Stores.{IsOfOneThread};
ghost use Rattle.server_store.specs.View.{shown};

use hook_registry::Registry;
use http_connection::Backend;
use peers::Local;
use server_store::Store;

/// Vnodes with nothing written have journals, so a connection may begin with them.
pub fn fresh_vnodes_have_journals()
    ensures { (incarnation n : ℕ) → AreJournals (fresh incarnation n) }
{
    journal::laws::journals_go_on();
}

/// A store on the vnodes of one thread and a registry is one of one thread, so [`serve`](crate::serve) says of it what it says of these.
pub fn stores_are_of_one_thread(_store: &Store<Local, Registry>)
    ensures { IsOfOneThread ⟦<Store<Local, Registry> as Backend>⟧.gives ⟦<Store<Local, Registry> as Backend>⟧.copies (λ s. shown s.peers s.hooking.hooks s.hooking.table.listed s.placement s.noted.kinds) }
{}
