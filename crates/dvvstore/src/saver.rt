//! Snapshots of a store that is kept, beside its workers.

ghost use Rattle.std.specs.Prelude.{◌≡◌, ◌<◌, ◌≤◌, ◌+◌, ◌/◌, ◌-◌, ◌^◌, ◌&&◌, ◌||◌, ℕ, List, [], Ok, IfOk, OnOk, false, map, max, min, nat_eq, nat_le, not, sum, vec_capacity, vec_len};
ghost use Rattle.dvvstore.specs.Asides.{AllRead, AreAllKept, AreListed, IsKept, IsKeptBy, IsRestKept, Reads};

mod stride;

use crate::crew::{Signs, Until};
use crate::limits::{SECOND_MS, SNAPSHOT_TICK_MS, WANTED_REST_MS};
use crate::saver::stride::Stride;
use cluster::{Cluster, Pass, Room};
use cluster_peers::ClusterPeers;
use dvv::VNODES_PER_NUMBER;
use kept_file::{SnapshotFault, Subject};
use kept_folder::{
    FileFault, Folder, HOOKS, Unreplaced, WriteFault, keep_requests, keep_served, keep_start,
};
use kept_restore::processors;
use log_desk::{Page, Pages};
use server_accept::Timer;
use std::alloc::Global;
use std::io::{Eprint, Stderr};
use std::sync::Wait;
use std::thread;
use std::thread::Threads;
use std::time::Duration;

/// When a snapshot is made, where something was written since the last one began.
#[derive(Clone, Copy, Debug)]
struct Schedule {
    /// So many milliseconds after one the next is made; none by itself where it is 0.
    every: u64,
    /// When the last one ended.
    last: u64,
    /// For so many milliseconds after it none is made by itself: as many as a vnode had keys. A read takes a place of its vnode's journal,
    /// and so a journal lasts months.
    least: u64,
    /// Whether one has begun since the server was told to stop.
    has_last: bool,
}

impl Schedule {
    /// The first one is made so many seconds from now on.
    fn new(every: u32, now: u64) -> Schedule {
        Schedule {
            every: u64::from(every).saturating_mul(SECOND_MS),
            last: now,
            least: 0,
            has_last: false,
        }
    }

    /// Whether one is due. The first is that could go on until all workers have ended: whoever kills the server while it waits for
    /// clients loses nothing then that was acknowledged before it was told to stop.
    fn is_due(&self, until: Until, now: u64) -> bool
        ensures stop { until ≡ Until.Stop → result ≡ (not (nat_eq self.now.every 0) && nat_le (max self.now.every self.now.least) (now - self.now.last)) }
        ensures end { until ≡ Until.End → result ≡ (not self.now.has_last || not (nat_eq self.now.every 0) && nat_le (max self.now.every self.now.least) (now - self.now.last)) }
    {
        let is_first = until == Until::End && !self.has_last;
        let rested = now.saturating_sub(self.last);
        is_first || self.every != 0 && rested >= self.every.max(self.least)
    }

    /// One has ended, of vnodes with so many keys each.
    fn note(&mut self, until: Until, keys: u64, now: u64)
        ensures every { self.new.every ≡ self.old.every }
        ensures last { self.new.last ≡ now }
        ensures least { self.new.least ≡ keys }
        ensures has_last { self.new.has_last ≡ false → (self.old.has_last ≡ false) × (until ≡ Until.Stop) }
    {
        self.last = now;
        self.least = keys;
        self.has_last = self.has_last || until == Until::End;
    }
}

/// Who makes snapshots of a store.
#[derive(Drop)]
pub struct Saver<F> {
    /// Where they are kept.
    pub shelf: Shelf<F>,
    /// So many seconds after a snapshot the next one is made; only where it is asked for where it is 0.
    pub every: u32,
    /// Where snapshots are told.
    pub err: Stderr,
    ghost numbers: { shelf.first + 16 ≤ 2 ^ 32 },
}

impl<F: Folder + Copy + Send + Sync> Saver<F> {
    /// Makes snapshots until all workers have ended, by calls on the vnodes through passes: what each is told comes behind what it was told
    /// before. One that is under way when the server is told to stop is given up, and another begins. The passes come back.
    #[tactic(auto, using(crate::proofs::Growing::all_read_same))]
    pub fn run<B: Room + Send + Sync, R: Threads + Wait + Sync, L: Pages>(
        &mut self,
        rt: &R,
        cluster: &Cluster<B>,
        mut spares: Vec<Pass<B>>,
        signs: &Signs<'_>,
        ledger: &L,
    ) -> Vec<Pass<B>>
        requires few { vec_len spares ≤ 16 }
        ensures read { AllRead cluster.now.first spares.items result.items }
        ensures count { vec_len result ≡ vec_len spares }
    {
        let mut timer = Timer::new();
        let mut schedule = Schedule::new(self.every, timer.now());
        for _ in rt.forever() {
            signs.wait(rt, Duration::from_millis(SNAPSHOT_TICK_MS));
            if signs.is_over() {
                break;
            }
            let signs = signs.from_now();
            let is_asked = signs.lobby.roster.snapshots.take()
                || self.is_wanted(rt, ledger, timer.now().saturating_sub(schedule.last));
            if is_asked || (signs.is_written() && schedule.is_due(signs.until, timer.now())) {
                let page = ledger.turn(rt, timer.now());
                let (back, keys) = self.save(rt, cluster, spares, &signs);
                if keys > 0 {
                    self.settle(rt, ledger, page);
                }
                spares = back;
                let keys = (keys / cluster.count().max(1)) as u64;
                schedule.note(signs.until, keys, timer.now());
            }
        }
        spares
    }

    /// Whether a ledger wants a snapshot, and the last one ended long enough ago, so many milliseconds. Why is told, if it can be.
    fn is_wanted<R: Wait, L: Pages>(&self, rt: &R, ledger: &L, rested: u64) -> bool {
        if rested < WANTED_REST_MS {
            return false;
        }
        let Some(fault) = ledger.wanted(rt) else {
            return false;
        };
        let _ = self.err.eprintln(format_args!("{fault}"));
        true
    }

    /// Removes the logs whose records are all in a snapshot that is whole. What can't be is told, and left to the next one.
    fn settle<R: Wait, L: Pages>(&self, rt: &R, ledger: &L, page: Page) {
        if let Err(fault) = ledger.settle(rt, page) {
            let _ = self.err.eprintln(format_args!("{fault}"));
        }
    }

    /// Makes a snapshot, and tells it, or why some of it is not kept. One that is given up is not told. Answers how many keys were read: none
    /// where not all is kept.
    fn save<B: Room + Send + Sync, R: Threads + Wait + Sync>(
        &mut self,
        rt: &R,
        cluster: &Cluster<B>,
        spares: Vec<Pass<B>>,
        signs: &Signs<'_>,
    ) -> (Vec<Pass<B>>, usize)
        requires few { vec_len spares ≤ 16 }
        ensures read { AllRead cluster.now.first spares.items result.0.items }
        ensures count { vec_len result.0 ≡ vec_len spares }
        ensures kept { 0 < result.1 → IsKept F.finds F.does self.old.shelf.first self.old.shelf.folder spares.items result.0.items self.new.shelf.folder result.1 }
    {
        let mut timer = Timer::new();
        let begin = timer.now();
        signs.note_written(false);
        let (spares, came) = self.write(rt, cluster, spares, signs);
        if came.is_err() {
            signs.note_written(true);
        }
        self.tell(&came, timer.now().saturating_sub(begin));
        match came {
            Ok(keys) => (spares, keys),
            Err(_) => (spares, 0),
        }
    }

    /// Tells a snapshot that took so many milliseconds, or why some of it is not kept. One that is given up is not told. What can't be told is
    /// lost.
    fn tell(&self, came: &Result<usize, Unreplaced>, millis: u64) {
        let _ = match came {
            Ok(keys) => self
                .err
                .eprintln(format_args!("snapshot {keys} keys {millis} ms")),
            Err(unreplaced) if is_given_up(unreplaced) => Ok(()),
            Err(unreplaced) => self.err.eprintln(format_args!("not kept {unreplaced}")),
        };
    }

    /// Replaces the files of a folder by what vnodes hold that serve, and by the requests that install and bind their hooks. Answers how
    /// many keys the vnodes have. Where a vnode's file isn't replaced those of the others may be, and that of the requests isn't. Behind
    /// them stands the number of the start, and how many vnodes have files.
    fn write<B: Room + Send + Sync, R: Threads + Wait + Sync>(
        &mut self,
        rt: &R,
        cluster: &Cluster<B>,
        spares: Vec<Pass<B>>,
        signs: &Signs<'_>,
    ) -> (Vec<Pass<B>>, Result<usize, Unreplaced>)
        requires few { vec_len spares ≤ 16 }
        ensures read { AllRead cluster.now.first spares.items result.0.items }
        ensures count { vec_len result.0 ≡ vec_len spares }
        ensures put { IfOk result.1 (IsKept F.finds F.does self.old.shelf.first self.old.shelf.folder spares.items result.0.items self.new.shelf.folder) }
    {
        let filed = spares.len() as u32;
        let (spares, came) = self.write_vnodes(rt, cluster, spares, signs);
        (spares, self.write_rest(rt, signs, came, filed))
    }

    /// Replaces the file of the requests that install and bind hooks, and has the number of the start be there and how many vnodes have files,
    /// where the files of so many were replaced, of which came so many keys.
    fn write_rest<R: Wait>(
        &mut self,
        rt: &R,
        signs: &Signs<'_>,
        came: Result<usize, Unreplaced>,
        filed: u32,
    ) -> Result<usize, Unreplaced>
        ensures put { IfOk result (λ keys. (came ≡ Ok keys) × IsRestKept F.finds F.does (self.old.shelf.first / 256) filed self.old.shelf.folder self.new.shelf.folder) }
    {
        let keys = came?;
        let number = self.shelf.number();
        self.shelf.write_requests(rt, signs)?;
        keep_start(self.shelf.alloc, &mut self.shelf.folder, number, filed)?;
        Ok(keys)
    }

    /// Replaces the files of the vnodes, side by side, on as many threads as there are processors: each is read by a pass of its own.
    /// Answers how many keys they have together.
    fn write_vnodes<B: Room + Send + Sync, R: Threads + Wait + Sync>(
        &self,
        rt: &R,
        cluster: &Cluster<B>,
        spares: Vec<Pass<B>>,
        signs: &Signs<'_>,
    ) -> (Vec<Pass<B>>, Result<usize, Unreplaced>)
        requires few { vec_len spares ≤ 16 }
        ensures read { AllRead cluster.now.first spares.items result.0.items }
        ensures count { vec_len result.0 ≡ vec_len spares }
        ensures put { IfOk result.1 (AreAllKept F.does self.now.shelf.folder self.now.shelf.first spares.items result.0.items) }
    {
        let shelf = &self.shelf;
        let (Ok(sides), Ok(back)) = (
            Vec::with_capacity(shelf.alloc, spares.len()),
            Vec::with_capacity(shelf.alloc, spares.len()),
        ) else {
            return (spares, Err(no_memory()));
        };
        let mut sides = sides_of(shelf.alloc, rt, cluster, spares, sides);
        thread::for_each_mut(
            rt,
            &mut sides,
            processors(rt),
            &|index: usize, side: &mut Side<'_, B, R>|
                requires { (index < 16) × (shelf.now.first + 16 ≤ 2 ^ 32) }
                ensures { Reads (side.old.peers.size.first + index) side.old.peers.pass side.new.peers.pass
                    × IfOk side.new.came (IsKeptBy F.does shelf.entry.now.folder (shelf.entry.now.first + index) index side.old.peers.pass side.new.peers.pass) }
            { shelf.write_side(rt, side, index, signs) },
        );
        let came = all_keys(&sides);
        (passes_of(sides, back), came)
    }
}

/// Where the files of a store stand.
#[derive(Clone, Copy)]
pub struct Shelf<F> {
    /// What their bytes are put together in.
    pub alloc: Global,
    /// Where they are kept.
    pub folder: F,
    /// The identifier of the vnode with index 0.
    pub first: u32,
}

impl<F> Shelf<F> {
    /// The number of the start: the upper three bytes of the identifiers of its vnodes.
    fn number(&self) -> u32
        ensures { result ≡ self.now.first / 256 }
    {
        self.first / VNODES_PER_NUMBER
    }
}

impl<F: Folder + Copy> Shelf<F> {
    /// Replaces the file of the vnode with an index, as it is read by one of the sides.
    fn write_side<B: Room, R: Wait>(
        &self,
        rt: &R,
        side: &mut Side<'_, B, R>,
        index: usize,
        signs: &Signs<'_>,
    )
        requires numbers { self.now.first + 16 ≤ 2 ^ 32 }
        requires inside { index < 16 }
        ensures read { Reads (side.old.peers.size.first + index) side.old.peers.pass side.new.peers.pass }
        ensures put { IfOk side.new.came (IsKeptBy F.does self.now.folder (self.now.first + index) index side.old.peers.pass side.new.peers.pass) }
    {
        let mut shelf = *self;
        side.came = shelf.write_vnode(rt, &mut side.peers, signs, index);
    }
}

impl<F: Folder> Shelf<F> {
    /// Replaces the file of the requests that install and bind hooks. It stays where one of them is lacking, or memory for them.
    fn write_requests<R: Wait>(&mut self, rt: &R, signs: &Signs<'_>) -> Result<(), Unreplaced>
        ensures put { OnOk result (AreListed F.does self.old.folder self.new.folder) }
        ensures first { self.new.first ≡ self.old.first }
    {
        let _filing = signs.filing.lock(rt);
        match signs.requests(rt) {
            Ok(Some(requests)) => keep_requests(self.alloc, &mut self.folder, Some(&requests)),
            _ => keep_requests(self.alloc, &mut self.folder, None),
        }
    }

    /// Replaces the file of a vnode that serves. Answers how many keys it had.
    fn write_vnode<B: Room, R: Wait>(
        &mut self,
        rt: &R,
        peers: &mut ClusterPeers<'_, B, R>,
        signs: &Signs<'_>,
        index: usize,
    ) -> Result<usize, Unreplaced>
        requires numbers { self.old.first + 16 ≤ 2 ^ 32 }
        requires inside { index < 16 }
        ensures read { Reads (peers.old.size.first + index) peers.old.pass peers.new.pass }
        ensures put { IfOk result (IsKeptBy F.does self.old.folder (self.old.first + index) index peers.old.pass peers.new.pass) }
    {
        let subject = Subject {
            index,
            id: self.first + index as u32,
        };
        let mut pace = Stride::new(rt, *signs);
        keep_served(self.alloc, &mut self.folder, peers, subject, &mut pace)
    }
}

/// How one of the vnodes is read, and what came of that.
#[derive(Drop)]
struct Side<'a, B: Room, R: Wait> {
    /// The vnodes, by a pass.
    peers: ClusterPeers<'a, B, R>,
    /// How many keys the vnode had, or why its file isn't replaced.
    came: Result<usize, Unreplaced>,
}

/// A side for each pass, in a list that has room for them.
fn sides_of<'a, B: Room, R: Wait>(
    alloc: Global,
    rt: &'a R,
    cluster: &'a Cluster<B>,
    passes: Vec<Pass<B>>,
    mut sides: Vec<Side<'a, B, R>>,
) -> Vec<Side<'a, B, R>>
    requires none { sides.items ≡ [] }
    requires room { vec_len passes ≤ vec_capacity sides }
    ensures each { map (λ s. s.peers) result.items ≡ map (λ p. record { size = cluster.now; pass = p; failures = 0 }) passes.items }
    ensures count { vec_len result ≡ vec_len passes }
{
    for pass in passes {
        sides.push_reserved(Side {
            peers: ClusterPeers::new(alloc, rt, cluster, pass),
            came: Ok(0),
        });
    }
    sides
}

/// The passes of sides, in a list that has room for them.
fn passes_of<B: Room, R: Wait>(sides: Vec<Side<'_, B, R>>, mut passes: Vec<Pass<B>>) -> Vec<Pass<B>>
    requires none { passes.items ≡ [] }
    requires room { vec_len sides ≤ vec_capacity passes }
    ensures each { result.items ≡ map (λ s. s.peers.pass) sides.entry.items }
    ensures count { vec_len result ≡ vec_len sides.entry }
{
    for side in sides {
        passes.push_reserved(side.peers.into_pass());
    }
    passes
}

/// How many keys vnodes have together, or the first of the files that aren't replaced.
fn all_keys<B: Room, R: Wait>(sides: &[Side<'_, B, R>]) -> Result<usize, Unreplaced>
    ensures { IfOk result (λ keys. (counts : List ℕ) × (map (λ s. s.came) sides.now ≡ map Ok counts) × (keys ≡ min (sum counts) (2 ^ 64 - 1))) }
{
    let mut keys = 0usize;
    for side in sides {
        keys = keys.saturating_add(side.came?);
    }
    Ok(keys)
}

/// That memory was refused before a file was begun.
fn no_memory() -> Unreplaced {
    Unreplaced {
        name: HOOKS,
        fault: WriteFault::File(FileFault::NoMemory),
    }
}

/// Whether a snapshot was given up.
fn is_given_up(unreplaced: &Unreplaced) -> bool {
    unreplaced.fault == WriteFault::Records(SnapshotFault::GivenUp)
}
