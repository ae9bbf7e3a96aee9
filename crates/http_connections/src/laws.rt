//! Laws of halls and of rings.

ghost use Rattle.std.specs.Prelude.{◌≡◌, ℕ, [], Option, None};
ghost use Rattle.http_connections.specs.Sockets.{Socket, Sockets, Changes, changed_at, unborn};
ghost use Rattle.http_connections.specs.Halls.{AllRestBut, HallStands};
ghost use Rattle.http_connections.specs.declared.seat.Seat.{Seat as Place};

use http_connection::Backend;

/// Before anybody came, a hall where nobody is seated stands, and its log is empty.
pub fn halls_begin<B: Backend>()
    ensures stands { (start : B) (sockets : Sockets) (seats : ℕ → Option Place) → ((n : ℕ) → sockets n ≡ unborn) → ((n : ℕ) → seats n ≡ None)
        → HallStands B.gives B.copies start start sockets seats }
    ensures rest { (sockets : Sockets) (seats : ℕ → Option Place) → ((n : ℕ) → seats n ≡ None) → AllRestBut [] 0 sockets seats }
{}

/// Whatever a call makes of one connection, there is a history where it is so, and where no other is touched: so a ring of whose
/// clients nothing is known may show every history.
pub fn histories_go_on()
    ensures { (n : ℕ) (f : Socket → Socket) (old : Sockets) → Changes n f old (changed_at n f old) }
{}
