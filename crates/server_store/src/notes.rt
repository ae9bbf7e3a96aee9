//! Backends that note what goes wrong.

ghost use Rattle.std.specs.List.{list_any};
ghost use Rattle.std.specs.Prelude.{◌≡◌, nat_lt};
ghost use Rattle.ring.specs.Places.{copies_in};
ghost use Rattle.server_store.specs.View.{shown};
ghost use Rattle.server_log.specs.Notes.{no_notes};

use crate::store::Store;
use hook_registry::{HookChanges, Hooks};
use http_connection::Backend;
use peers::Peers;
use server_log::Noted;

/// A backend over vnodes and hooks that notes what goes wrong in reads and writes, of which the notes can be taken.
pub trait NotingBackend<P: Peers, H: Hooks + HookChanges>: Backend {
    ghost use Rattle.http_request.specs.declared.ask.Call.{Call as Asked};
    ghost use Rattle.http_response.specs.declared.reply.Reply.{Reply as Answered};
    ghost use Rattle.server_store.specs.Gives.{Gives};
    ghost use Rattle.server_store.specs.View.{StoreView};

    /// What it holds.
    ghost shows: { Self → StoreView P H };

    /// Whether a trouble is noted.
    fn has_troubles(&self) -> bool
        ensures { result ≡ list_any (λ note. nat_lt 0 note.count) (shows self.now).noted };

    /// Takes what is noted of troubles since it was taken last, and begins anew. All else stays.
    fn take_troubles(&mut self) -> Noted
        ensures taken { result.kinds ≡ (shows self.old).noted }
        ensures anew { shows self.new ≡ shown (shows self.old).peers (shows self.old).hooks (shows self.old).listed (shows self.old).placement no_notes };

    /// A call does to it what one does to a store that holds this.
    ghost as_shown: { (old new : Self) (call : Asked) (reply : Answered) → Self.gives old call reply new → Gives P.happens H.finds H.names H.takes (shows old) (shows new) call reply };

    /// It has as many copies of a key as a store that holds this.
    ghost as_many: { (backend : Self) → Self.copies backend ≡ copies_in (shows backend).placement };
}

impl<P: Peers, H: Hooks + HookChanges> NotingBackend<P, H> for Store<P, H> {
    ghost use Rattle.std.specs.Prelude.{refl};
    ghost use Rattle.server_store.specs.View.{shown};

    ghost shows = { λ s. shown s.peers s.hooking.hooks s.hooking.table.listed s.placement s.noted.kinds };

    ghost as_shown = { λ old new call reply gives. gives };

    ghost as_many = { λ s. refl };

    fn has_troubles(&self) -> bool {
        Store::has_troubles(self)
    }

    fn take_troubles(&mut self) -> Noted {
        Store::take_troubles(self)
    }
}
