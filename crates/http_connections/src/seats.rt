//! The seats of a hall, and how much of their answers waits to be written.

ghost use Rattle.std.specs.Prelude.{◌≡◌, ◌≢◌, ◌+◌, ◌<◌, ℕ, List, [], Option, Some, None, IfSome, OnOk, OnErr, is_some};
ghost use Rattle.std.specs.BTreeMap.{get, values};
ghost use Rattle.std.specs.Option.{option_copied};
ghost use Rattle.std.specs.Ordering.{nat_cmp};
ghost use Rattle.http_connection.specs.Dialogue.{Exchange};
ghost use Rattle.http_connections.specs.Sockets.{Socket, Sockets};
ghost use Rattle.http_connections.specs.Spoken.{Serves, Attended, Attends, Moves};
ghost use Rattle.http_connections.specs.Unsent.{IsBounded, OthersStay, full, held_at, most_held, unsent_of};
ghost use Rattle.http_connections.specs.declared.seat.Seat.{Seat as Place};

use crate::buffer::Buffer;
use crate::seat::Seat;
use crate::socket_ring::{Closing, Ring};
use http_connection::{Backend, Desk};
use std::alloc::{AllocError, Global};
use std::collections::BTreeMap;

/// The seats of a hall, by the numbers of their connections, and how much of their answers waits to be written.
#[derive(Drop)]
pub(crate) struct Seats {
    by_number: BTreeMap<u64, Seat>,
    /// So many bytes of answers wait, of all connections together.
    unsent: usize,
    ghost counted: { unsent ≡ unsent_of by_number },
    ghost bounded: { IsBounded by_number },
}

impl Seats {
    /// No seats.
    pub(crate) fn new(alloc: Global) -> Seats
        ensures { (n : ℕ) → get nat_cmp result.by_number n ≡ None }
    {
        Seats {
            by_number: BTreeMap::new(alloc),
            unsent: 0,
        }
    }

    /// The seat of a connection.
    pub(crate) fn get(&self, number: u64) -> Option<&Seat>
        ensures { option_copied result ≡ get nat_cmp self.now.by_number number }
    {
        self.by_number.get(&number)
    }

    /// Whether a connection has a seat.
    pub(crate) fn contains_key(&self, number: u64) -> bool
        ensures { result ≡ is_some (get nat_cmp self.now.by_number number) }
    {
        self.by_number.contains_key(&number)
    }

    /// Gives a connection that just came its seat. The error is want of memory.
    pub(crate) fn seat(&mut self, alloc: Global, number: u64) -> Result<(), AllocError>
        ensures seated { OnOk result ((it : Place) × (get nat_cmp self.new.by_number number ≡ Some it)
            × ((s : Socket) (copies : ℕ) → s.heard ≡ [] → s.written ≡ [] → Serves copies it s [])) }
        ensures err { OnErr result (get nat_cmp self.new.by_number number ≡ get nat_cmp self.old.by_number number) }
        ensures others { OthersStay number self.old.by_number self.new.by_number }
    {
        if let Some(before) = self.by_number.insert(number, Seat::new(alloc))? {
            self.unsent -= before.held();
        }
        Ok(())
    }

    /// Takes the seat of a connection away.
    pub(crate) fn unseat(&mut self, number: u64)
        ensures gone { get nat_cmp self.new.by_number number ≡ None }
        ensures others { OthersStay number self.old.by_number self.new.by_number }
        ensures less { unsent_of self.new.by_number + held_at self.old.by_number number ≡ unsent_of self.old.by_number }
    {
        if let Some(seat) = self.by_number.remove(&number) {
            self.unsent -= seat.held();
        }
    }

    /// Serves a connection, if it has a seat, and answers how it ends, if it does.
    pub(crate) fn serve<R: Ring, B: Backend>(
        &mut self,
        alloc: Global,
        number: u64,
        desk: &mut Desk,
        buffer: &mut Buffer,
        ring: &mut R,
        backend: &mut B,
    ) -> Option<Closing>
        requires room { unsent_of self.old.by_number < full }
        ensures attends { (old : Sockets) (xs : List Exchange) (seat : Place) → R.shows ring.old old → get nat_cmp self.old.by_number number ≡ Some seat
            → Serves (B.copies backend.old) seat (old number) xs → (it : Place) × (get nat_cmp self.new.by_number number ≡ Some it)
            × Attends B.gives (R.shows ring.new) number old backend.old backend.new xs (Attended (B.copies backend.old) result it) }
        ensures absent { get nat_cmp self.old.by_number number ≡ None
            → (result ≡ None) × (get nat_cmp self.new.by_number number ≡ None) × (ring.new ≡ ring.old) × (backend.new ≡ backend.old) }
        ensures others { OthersStay number self.old.by_number self.new.by_number }
        ensures stays { B.copies backend.new ≡ B.copies backend.old }
    {
        match self.by_number.get_mut(&number) {
            Some(seat) => {
                let held = seat.held();
                let ended = seat.serve(alloc, number, desk, buffer, ring, backend);
                self.unsent = self.unsent - held + seat.held();
                ended
            }
            None => None,
        }
    }

    /// Writes answers of a connection, if it has a seat, and answers how it ends, if it does.
    pub(crate) fn write_out<R: Ring>(
        &mut self,
        number: u64,
        desk: &mut Desk,
        ring: &mut R,
    ) -> Option<Closing>
        ensures moves { (copies : ℕ) (old : Sockets) (xs : List Exchange) (seat : Place) → R.shows ring.old old
            → get nat_cmp self.old.by_number number ≡ Some seat → Serves copies seat (old number) xs
            → (it : Place) × (get nat_cmp self.new.by_number number ≡ Some it) × Moves (R.shows ring.new) number old (λ s. Attended copies result it s xs) }
        ensures absent { get nat_cmp self.old.by_number number ≡ None
            → (result ≡ None) × (get nat_cmp self.new.by_number number ≡ None) × (ring.new ≡ ring.old) }
        ensures others { OthersStay number self.old.by_number self.new.by_number }
    {
        match self.by_number.get_mut(&number) {
            Some(seat) => {
                let held = seat.held();
                let ended = seat.write_out(number, desk, ring);
                self.unsent = self.unsent - held + seat.held();
                ended
            }
            None => None,
        }
    }

    /// How many bytes of answers wait to be written, of all connections together.
    pub(crate) fn unsent(&self) -> usize
        ensures value { result ≡ unsent_of self.now.by_number }
        ensures bounded { IsBounded self.now.by_number }
    {
        self.unsent
    }

    /// A connection that holds most of them, if any holds something.
    pub(crate) fn fullest(&self) -> Option<u64>
        ensures most { IfSome result (λ n. (held_at self.now.by_number n ≡ most_held (values self.now.by_number)) × (0 < held_at self.now.by_number n)) }
        ensures none { result ≡ None → unsent_of self.now.by_number ≡ 0 }
    {
        let mut most = 0;
        let mut fullest = None;
        for (number, seat) in self.by_number.iter() {
            if seat.held() > most {
                most = seat.held();
                fullest = Some(*number);
            }
        }
        fullest
    }
}
