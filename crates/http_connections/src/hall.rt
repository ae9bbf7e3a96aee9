//! The connections of one worker.

ghost use Rattle.std.specs.Prelude.{◌≡◌, ◌+◌, ◌<◌, ◌≤◌, ℕ, List, [], true, false, Option, None, Some, Result, Ok, IfOk, IfSome, OnOk, OnErr, option_map};
ghost use Rattle.http_connection.specs.Dialogue.{Exchange};
ghost use Rattle.http_connection.specs.declared.device.Failed.{Failed as Failure};
ghost use Rattle.http_connections.specs.Sockets.{Socket, Sockets, OnlyAt, Changes, unborn, after_accept};
ghost use Rattle.http_connections.specs.Spoken.{Serves, Attended, Attends, standing_of};
ghost use Rattle.http_connections.specs.Halls.{Log, AllStand, AllRestBut, Goes, HallStands, IsOfOne, OnlySeat, RestsAt, Greets, comes_to, seat_at};
ghost use Rattle.http_connections.specs.Unsent.{full, half_full};
ghost use Rattle.http_connections.specs.Full.{HoldsMost, IsFull, IsWithin, Sheds, held_in, unsent_in};
ghost use Rattle.http_connections.specs.declared.seat.Seat.{Seat as Place};

use crate::buffer::Buffer;
use crate::limits::{FULL_BYTES, HALF_FULL_BYTES};
use crate::seat::{Seat, Standing};
use crate::seats::Seats;
use crate::socket_ring::{Closing, Ring};
use http_connection::{Backend, Desk, Failed, FrontFault};
use std::alloc::{AllocError, Global};

/// The connections of one worker, each with its seat, and the room that they share.
///
/// Where 64 MiB of their answers wait to be written the hall is full: no request is begun and nothing is read, until less waits. So fewer wait
/// at any time, but for those of one connection, which may have 64 KiB and one answer.
#[derive(Drop)]
pub struct Hall {
    alloc: Global,
    desk: Desk,
    buffer: Buffer,
    seats: Seats,
}

impl Hall {
    /// A hall where nobody is seated. The error is want of memory.
    pub fn new(alloc: Global) -> Result<Hall, AllocError>
        ensures { IfOk result (λ hall. (n : ℕ) → seat_at hall n ≡ None) }
    {
        Ok(Hall {
            alloc,
            desk: Desk::new(alloc)?,
            buffer: Buffer::new(alloc)?,
            seats: Seats::new(alloc),
        })
    }

    /// Seats the next connection, if one waits, and tells whether one did. One for which there is no memory is closed at once. The error is
    /// the ring's.
    pub fn admit<R: Ring>(&mut self, ring: &mut R) -> Result<bool, Failed>
        ensures { (answer : Result (Option ℕ) Failure) × (mid : R) × R.accepts ring.old answer mid × (result ≡ comes_to answer)
            × ((copies : ℕ) (log : Log) (old : Sockets) → R.shows ring.old old → AllStand copies log old (seat_at self.old)
            → (new : Sockets) × R.shows ring.new new × AllStand copies log new (seat_at self.new) × Greets answer old new (seat_at self.new)) }
    {
        match ring.accept() {
            Ok(None) => Ok(false),
            Ok(Some(number)) => {
                self.greet(number, ring);
                Ok(true)
            }
            Err(Failed) => Err(Failed),
        }
    }

    // Seats a connection that just came, or closes it, where there is no memory.
    fn greet<R: Ring>(&mut self, number: u64, ring: &mut R)
        ensures { (copies : ℕ) (log : Log) (old mid : Sockets) → R.shows ring.old mid → AllStand copies log old (seat_at self.old)
            → old number ≡ unborn → Changes number after_accept old mid
            → (new : Sockets) × R.shows ring.new new × AllStand copies log new (seat_at self.new) × Greets (Ok (Some number)) old new (seat_at self.new) }
    {
        match self.seat(number) {
            Ok(()) => {}
            Err(AllocError) => ring.close(number, Closing::Broken(FrontFault::NoMemory)),
        }
    }

    // Gives a connection that just came its seat.
    fn seat(&mut self, number: u64) -> Result<(), AllocError>
        ensures seated { OnOk result ((it : Place) × (seat_at self.new number ≡ Some it)
            × ((s : Socket) (copies : ℕ) → s.heard ≡ [] → s.written ≡ [] → Serves copies it s [])) }
        ensures err { OnErr result (seat_at self.new number ≡ seat_at self.old number) }
        ensures others { OnlySeat number (seat_at self.old) (seat_at self.new) }
    {
        self.seats.seat(self.alloc, number)
    }

    // Takes the seat of a connection away.
    fn unseat(&mut self, number: u64)
        ensures gone { seat_at self.new number ≡ None }
        ensures others { OnlySeat number (seat_at self.old) (seat_at self.new) }
        ensures less { unsent_in self.new + held_in self.old number ≡ unsent_in self.old }
    {
        self.seats.unseat(number);
    }

    /// Does a bounded piece of work for one connection: what it sent is read, its whole requests make their calls and are answered, and the
    /// answers are written, until it has nothing to give or take now, or ends, or had its share. No other connection is touched, and no
    /// call is made but those of its own exchanges. Where the hall is full answers are written alone. One that nobody has, as one that ended
    /// meanwhile, is passed over.
    pub fn attend<R: Ring, B: Backend>(&mut self, number: u64, ring: &mut R, backend: &mut B)
        ensures goes { (log : Log) (old : Sockets) → R.shows ring.old old → AllStand (B.copies backend.old) log old (seat_at self.old)
            → (new : Sockets) × R.shows ring.new new × (goes : Goes B.gives (B.copies backend.old) log backend.old backend.new new (seat_at self.new)) × IsOfOne number goes.made
            × OnlyAt number old new × RestsAt number new (seat_at self.new) }
        ensures stays { B.copies backend.new ≡ B.copies backend.old }
        ensures stands { (start : B) (old : Sockets) → R.shows ring.old old → HallStands B.gives B.copies start backend.old old (seat_at self.old)
            → (new : Sockets) × R.shows ring.new new × HallStands B.gives B.copies start backend.new new (seat_at self.new) × OnlyAt number old new
            × RestsAt number new (seat_at self.new) }
        ensures others { OnlySeat number (seat_at self.old) (seat_at self.new) }
        ensures quiet { IsFull self.old → backend.new ≡ backend.old }
    {
        if let Some(closing) = self.attend_seat(number, ring, backend) {
            self.unseat(number);
            ring.close(number, closing);
        }
    }

    // Attends a connection, if it has a seat, and answers how it ends, if it does.
    fn attend_seat<R: Ring, B: Backend>(
        &mut self,
        number: u64,
        ring: &mut R,
        backend: &mut B,
    ) -> Option<Closing>
        ensures attends { (old : Sockets) (xs : List Exchange) (seat : Place) → R.shows ring.old old → seat_at self.old number ≡ Some seat
            → Serves (B.copies backend.old) seat (old number) xs → (it : Place) × (seat_at self.new number ≡ Some it)
            × Attends B.gives (R.shows ring.new) number old backend.old backend.new xs (Attended (B.copies backend.old) result it) }
        ensures absent { seat_at self.old number ≡ None → (result ≡ None) × (seat_at self.new number ≡ None) × (ring.new ≡ ring.old) × (backend.new ≡ backend.old) }
        ensures others { OnlySeat number (seat_at self.old) (seat_at self.new) }
        ensures stays { B.copies backend.new ≡ B.copies backend.old }
        ensures quiet { IsFull self.old → backend.new ≡ backend.old }
    {
        if self.is_full() {
            self.seats.write_out(number, &mut self.desk, ring)
        } else {
            self.seats.serve(
                self.alloc,
                number,
                &mut self.desk,
                &mut self.buffer,
                ring,
                backend,
            )
        }
    }

    /// How many bytes of answers wait to be written, of all connections together.
    pub fn unsent(&self) -> usize
        ensures value { result ≡ unsent_in self.now }
        ensures bounded { IsWithin self.now }
    {
        self.seats.unsent()
    }

    /// Whether so many wait that no request is begun.
    pub fn is_full(&self) -> bool
        ensures full { result ≡ true → IsFull self.now }
        ensures room { result ≡ false → unsent_in self.now < full }
    {
        self.unsent() >= FULL_BYTES
    }

    /// Attends each of the connections that were reported.
    pub fn turn<R: Ring, B: Backend>(&mut self, reported: &[u64], ring: &mut R, backend: &mut B)
        ensures stands { (start : B) (old : Sockets) → R.shows ring.old old → HallStands B.gives B.copies start backend.old old (seat_at self.old)
            → (new : Sockets) × R.shows ring.new new × HallStands B.gives B.copies start backend.new new (seat_at self.new)
            × (AllRestBut reported.now 0 old (seat_at self.old) → AllRestBut [] 0 new (seat_at self.new)) }
    {
        for number in reported {
            self.attend(*number, ring, backend);
        }
    }

    /// What a connection waits for. Nobody has one that ended.
    pub fn standing(&self, number: u64) -> Option<Standing>
        ensures { result ≡ option_map standing_of (seat_at self.now number) }
    {
        self.seats.get(number).map(Seat::standing)
    }

    /// Gives a connection up: it is closed at once, and no other is touched. One that nobody has is passed over.
    pub fn give_up<R: Ring>(&mut self, number: u64, ring: &mut R)
        ensures stands { (copies : ℕ) (log : Log) (old : Sockets) → R.shows ring.old old → AllStand copies log old (seat_at self.old)
            → (new : Sockets) × R.shows ring.new new × AllStand copies log new (seat_at self.new) × OnlyAt number old new }
        ensures gone { seat_at self.new number ≡ None }
        ensures others { OnlySeat number (seat_at self.old) (seat_at self.new) }
        ensures less { unsent_in self.new + held_in self.old number ≡ unsent_in self.old }
    {
        if self.seats.contains_key(number) {
            self.unseat(number);
            ring.close(number, Closing::GivenUp);
        }
    }

    /// Closes connections at once, each time one that holds most of the answers that wait, until no more than half of what fills the hall waits.
    pub fn relieve<R: Ring>(&mut self, ring: &mut R)
        ensures stands { (copies : ℕ) (log : Log) (old : Sockets) → R.shows ring.old old → AllStand copies log old (seat_at self.old)
            → (new : Sockets) × R.shows ring.new new × AllStand copies log new (seat_at self.new) }
        ensures sheds { Sheds self.old self.new }
        ensures enough { unsent_in self.new ≤ half_full }
    {
        while self.unsent() > HALF_FULL_BYTES {
            self.give_up_fullest(ring);
        }
    }

    // Closes a connection that holds most.
    fn give_up_fullest<R: Ring>(&mut self, ring: &mut R)
        requires some { 0 < unsent_in self.old }
        ensures stands { (copies : ℕ) (log : Log) (old : Sockets) → R.shows ring.old old → AllStand copies log old (seat_at self.old)
            → (new : Sockets) × R.shows ring.new new × AllStand copies log new (seat_at self.new) }
        ensures closed { (n : ℕ) × HoldsMost n self.old × (seat_at self.new n ≡ None) × OnlySeat n (seat_at self.old) (seat_at self.new) }
        ensures fewer { unsent_in self.new < unsent_in self.old }
    {
        if let Some(number) = self.seats.fullest() {
            self.give_up(number, ring);
        }
    }
}
