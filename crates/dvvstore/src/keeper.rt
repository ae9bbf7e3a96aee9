//! A store that a folder keeps, from what it held to what is to be written.

ghost use Rattle.std.specs.Prelude.{◌≡◌, ◌+◌, ◌*◌, ◌<◌, ◌≤◌, ◌^◌, IfOk, OnOk, map, vec_len};
ghost use Rattle.std.specs.Option.{option_map};
ghost use Rattle.cluster_stamps.specs.declared.view.Size.{Size};
ghost use Rattle.kept_fold.specs.Folds.{AreFolded};
ghost use Rattle.dvvstore.specs.Keeping.{HasBegun, HasBegunWith, Leaves, LeavesServed, Tells, fronts_for, hooks_for, left_as};
ghost use Rattle.dvvstore.specs.Visits.{AreBegun, AreStarts, HaveBegun, begun};

use crate::crew;
use crate::crew::{Crew, Lookout, Seat, Served};
use crate::host::Host;
use crate::saver::{Saver, Shelf};
use crate::session::Left;
use audit_cluster::Spot;
use bpf_helpers::Sigs;
use cluster::{Cluster, Pass, Room};
use hook_registry::{HookChanges, Hooks};
use kept_file::KeptFile;
use kept_fold::fold_files;
use kept_folder::{Folder, HOOKS, Held, Settings};
use kept_hooks::{BegunHooks, ReplayFault, Requests};
use kept_restore::laws::loads_stand;
use kept_restore::{Unloaded, fronts_of};
use log_desk::Pages;
use server_accept::{Bound, Lobby, Setup, open, tell_listening};
use std::alloc::{AllocError, Global};
use std::io;
use std::io::{Eprint as _, ErrorKind, Stderr, Stdin, Write};
use std::net::{Net, SocketAddr, TcpListener, TcpStream};
use std::sync::Wait;
use std::thread::Threads;
use thiserror::Error;

/// Why a store doesn't begin with what its folder held.
#[derive(Clone, Copy, Debug, PartialEq, Eq, Error)]
pub enum Unbegun {
    /// A vnode doesn't take its records over.
    #[error("{0}")]
    Records(Unloaded),
    /// A request that changes hooks isn't done.
    #[error("{HOOKS}: {0}")]
    Hooks(ReplayFault),
    /// The output can't be written, or the system has no descriptor for a worker.
    #[error("unreadable")]
    Unreadable,
    /// Memory ran out.
    #[error("E1")]
    NoMemory,
}

impl From<Unloaded> for Unbegun {
    ghost use Rattle.dvvstore.specs.declared.keeper.Unbegun.TheVariants.{Records};

    ghost from_gives = { λ unloaded why. why ≡ Records unloaded };

    fn from(unloaded: Unloaded) -> Unbegun {
        Unbegun::Records(unloaded)
    }
}

impl From<AllocError> for Unbegun {
    ghost use Rattle.dvvstore.specs.declared.keeper.Unbegun.TheVariants.{NoMemory};

    ghost from_gives = { λ _ why. why ≡ NoMemory };

    fn from(_: AllocError) -> Unbegun {
        Unbegun::NoMemory
    }
}

impl From<io::Error> for Unbegun {
    ghost use Rattle.dvvstore.specs.declared.keeper.Unbegun.TheVariants.{Unreadable};

    ghost from_gives = { λ _ why. why ≡ Unreadable };

    fn from(_: io::Error) -> Unbegun {
        Unbegun::Unreadable
    }
}

/// What a store has begun with that a folder keeps.
#[derive(Drop)]
pub struct Begun<B: Room> {
    /// The passes by which that was brought to its vnodes, which make snapshots later.
    pub spares: Vec<Pass<B>>,
    /// So many of the first entries of each vnode were there then.
    pub fronts: Vec<usize>,
    /// The identifier of the first vnode.
    pub first: u32,
}

/// An address at which a store is to answer.
#[derive(Drop)]
pub struct Address<'a, N> {
    /// What workers that wait for connections are made by.
    pub rt: &'a N,
    /// The address, which is bound: who connects waits until the store has begun.
    pub bound: Bound,
    /// How many connections may come in all; any number where that isn't said.
    pub count: Option<u32>,
    /// Where the server is told what to do.
    pub input: Stdin,
}

/// Where connections come to.
#[derive(Drop)]
pub enum Door<'a, N> {
    /// A lobby that is open.
    Open(&'a Lobby),
    /// An address, where a lobby is opened once the store has begun. With how many records it has is told then, and the address.
    Closed(Address<'a, N>),
}

/// What a store begins with, who keeps it, and where it answers.
#[derive(Drop)]
pub struct Stay<'a, N, F, L> {
    /// The folder that keeps it; none of a store that is forgotten.
    pub folder: Option<F>,
    /// What that held: nothing where there is none. The records are let go once the vnodes have them.
    pub held: Held,
    /// Where the store answers.
    pub door: Door<'a, N>,
    /// Where what is written is kept before it is answered, if it is.
    pub ledger: &'a L,
    /// Where what can't wait is told.
    pub err: Stderr,
}

impl<N, F: Drop, L> Stay<'_, N, F, L> {
    /// How many of the first entries of each of so many vnodes were there before: none are named where no folder keeps the store.
    pub fn fronts(&self, alloc: Global, vnodes: usize) -> Result<Vec<usize>, AllocError>
        ensures { IfOk result (λ fronts. fronts.items ≡ fronts_for self.now.folder vnodes self.now.held.files.items) }
    {
        match &self.folder {
            Some(_) => fronts_of(alloc, &self.held.files, vnodes),
            None => Ok(Vec::new(alloc)),
        }
    }

    /// The same, with the keys folded that many starts have written, by the start with a number.
    pub fn folded(self, alloc: Global, number: u32) -> Result<Self, AllocError>
        requires few { number ≤ 16777215 }
        ensures folder { IfOk result (λ stay. stay.folder ≡ self.entry.folder) }
        ensures hooks { IfOk result (λ stay. stay.held.hooks ≡ self.entry.held.hooks) }
        ensures files { IfOk result (λ stay. AreFolded number self.entry.held.files.items stay.held.files.items) }
        ensures door { IfOk result (λ stay. stay.door ≡ self.entry.door) }
    {
        let Stay {
            folder,
            held,
            door,
            ledger,
            err,
        } = self;
        let Held {
            last,
            filed,
            settings,
            hooks,
            files,
            logs,
        } = held;
        let files = fold_files(alloc, files, number)?;
        let held = Held {
            last,
            filed,
            settings,
            hooks,
            files,
            logs,
        };
        Ok(Stay {
            folder,
            held,
            door,
            ledger,
            err,
        })
    }
}

/// A store that has begun, with a seat for each worker.
#[derive(Drop)]
pub struct Staffed<B: Room + Spot, H> {
    /// The vnodes.
    pub cluster: Cluster<B>,
    /// The seats.
    pub seats: Vec<Seat<B, H>>,
    /// Who follows what workers do.
    pub lookout: Lookout<B>,
    /// With what it has begun.
    pub begun: Begun<B>,
}

/// Has hooks begin with the requests that a folder held, opens the door, and has the workers of the seats answer the connections that come
/// there.
pub fn live<
    B: Room + Spot + Send + Sync,
    H: Hooks + HookChanges + Send + Drop,
    R: Threads + Wait + Sync,
    N: Net<Listener = TcpListener, Stream = TcpStream>,
    F: Folder + Copy + Send + Sync,
    O: Write,
    L: Pages + Sync,
>(
    host: &Host<'_, R>,
    staffed: Staffed<B, H>,
    stay: Stay<'_, N, F, L>,
    out: &mut O,
) -> Result<Left, Unbegun>
    requires some { 0 < vec_len staffed.seats }
    requires all { staffed.cluster.passes ≤ 2 * vec_len staffed.seats + vec_len staffed.begun.spares + 1 }
    requires few { vec_len staffed.begun.spares ≤ 16 }
    requires spot { staffed.cluster.first ≡ B.first }
    requires begun { HasBegunWith stay.folder staffed.cluster.first staffed.cluster.vnodes stay.held.files.items staffed.begun }
    requires spares { vec_len staffed.begun.spares ≡ staffed.cluster.vnodes }
    requires numbers { staffed.begun.first + 16 ≤ 2 ^ 32 }
    ensures told { Tells stay.entry.door result (O.contents out.old) (O.contents out.new) }
    ensures kept { Leaves stay.entry.folder staffed.cluster.first staffed.cluster.vnodes stay.entry.held.files.items result }
    ensures served { LeavesServed H.finds H.names H.takes (fronts_for stay.entry.folder staffed.cluster.vnodes stay.entry.held.files.items) staffed.cluster.vnodes (AreStarts H.takes (hooks_for stay.entry.folder stay.entry.held.hooks.items) (map (λ s. begun staffed.cluster s.pass s.hooking.hooks s.hooking.table.listed s.placement) staffed.seats.items)) result }
{
    let Stay {
        folder,
        held,
        door,
        ledger,
        err,
    } = stay;
    let Staffed {
        cluster,
        mut seats,
        mut lookout,
        begun,
    } = staffed;
    let Held {
        settings,
        hooks,
        files,
        ..
    } = held;
    begin_seats(
        host.alloc,
        &mut seats,
        &mut lookout,
        hooks_of(&folder, &hooks),
    )?;
    let loaded = loaded_in(&files);
    // Else each state would be kept until the end that a key had at the start.
    drop(files);
    let Begun {
        spares,
        fronts,
        first,
    } = begun;
    let workers = seats.len();
    let crew = Crew {
        seats,
        lookout,
        spares,
        saver: saver_of(host.alloc, folder, settings, first, err),
    };
    loads_stand();
    match door {
        Door::Open(lobby) => left_of(crew::serve(host, cluster, crew, lobby, &fronts, ledger)),
        Door::Closed(address) => {
            let addr = address.bound.addr;
            let lobby = open_lobby(host.alloc, address, workers, err)?;
            tell_begun(loaded, addr, out)?;
            left_of(crew::serve(host, cluster, crew, &lobby, &fronts, ledger))
        }
    }
}

/// What is left of a store that was served.
fn left_of(served: Result<Served, AllocError>) -> Result<Left, Unbegun>
    ensures { result ≡ left_as served }
{
    match served {
        Ok(served) => Ok(Left::Kept(served)),
        Err(AllocError) => Ok(Left::Lost),
    }
}

/// Who makes snapshots of a store, whose vnodes are numbered from the first on, where a folder keeps it.
fn saver_of<F>(
    alloc: Global,
    folder: Option<F>,
    settings: Settings,
    first: u32,
    err: Stderr,
) -> Option<Saver<F>>
    requires { first + 16 ≤ 2 ^ 32 }
{
    match folder {
        Some(folder) => Some(Saver {
            shelf: Shelf {
                alloc,
                folder,
                first,
            },
            every: settings.every,
            err,
        }),
        None => None,
    }
}

/// Opens a lobby for so many workers at an address. The error: memory was refused, or the system has no descriptor for a worker.
fn open_lobby<N: Net<Listener = TcpListener, Stream = TcpStream>>(
    alloc: Global,
    address: Address<'_, N>,
    workers: usize,
    err: Stderr,
) -> Result<Lobby, Unbegun> {
    let Address {
        rt,
        bound,
        count,
        input,
    } = address;
    let setup = Setup {
        listener: bound.listener,
        count,
        input,
        makes_snapshots: true,
        err,
    };
    match open(alloc, rt, workers, setup) {
        Ok(lobby) => Ok(lobby),
        Err(error) if error.kind() == ErrorKind::OutOfMemory => Err(Unbegun::NoMemory),
        Err(_) => Err(Unbegun::Unreadable),
    }
}

/// Tells with how many records a store begins, and at which address it listens. The error: the output can't be written.
fn tell_begun<O: Write>(loaded: usize, addr: SocketAddr, out: &mut O) -> io::Result<()>
    ensures told { OnOk result (HasBegun (O.contents out.old) (O.contents out.new)) }
{
    writeln!(out, "loaded {loaded}")?;
    tell_listening(addr, out)
}

/// How many records there are.
fn loaded_in(files: &[KeptFile]) -> usize {
    let mut loaded = 0usize;
    for file in files {
        loaded = loaded.saturating_add(file.records.len());
    }
    loaded
}

/// The requests that a folder held which keeps a store, if one does.
fn hooks_of<'a, F>(folder: &Option<F>, held: &'a [u8]) -> Option<&'a [u8]>
    ensures { option_map (λ hooks. hooks.now) result ≡ hooks_for folder.now held.now }
{
    match folder {
        Some(_) => Some(held),
        None => None,
    }
}

/// Has the hooks of the last of some seats begin with the requests that a folder held, if one did; the others come to know of them by their
/// own look-ups. The requests are written down once more. What is refused of them is told on standard error.
fn begin_seats<B: Room + Spot, H: HookChanges + Drop>(
    alloc: Global,
    seats: &mut Vec<Seat<B, H>>,
    lookout: &mut Lookout<B>,
    held: Option<&[u8]>,
) -> Result<(), Unbegun>
    requires some { 0 < vec_len seats.old }
    ensures count { OnOk result (vec_len seats.new ≡ vec_len seats.old) }
    ensures starts { OnOk result ((size : Size) → AreBegun H.takes (option_map (λ h. h.now) held.entry) lookout.new.requests (map (λ s. begun size s.pass s.hooking.hooks s.hooking.table.listed s.placement) seats.old.items)
        (map (λ s. begun size s.pass s.hooking.hooks s.hooking.table.listed s.placement) seats.new.items)) }
{
    let Some(held) = held else {
        return Ok(());
    };
    let Some(mut seat) = seats.pop() else {
        unreachable!();
    };
    let table = &seat.hooking.table;
    let hooks = &mut seat.hooking.hooks;
    lookout.requests = begin_hooks(alloc, &table.listed, hooks, held, lookout.err)?;
    seats.push_reserved(seat);
    Ok(())
}

/// Has hooks that may call helpers with these signatures begin with requests. Those of them that are refused are told, and the others are
/// done.
fn begin_hooks<H: HookChanges>(
    alloc: Global,
    sigs: &Sigs,
    hooks: &mut H,
    held: &[u8],
    err: Stderr,
) -> Result<Requests, Unbegun>
    ensures made { IfOk result (λ requests. HaveBegun H.takes sigs.now held.now hooks.old requests hooks.new) }
{
    let BegunHooks { requests, refused } = match kept_hooks::begin_hooks(alloc, sigs, hooks, held) {
        Ok(begun) => begun,
        Err(ReplayFault::NoMemory) => return Err(Unbegun::NoMemory),
        Err(fault) => return Err(Unbegun::Hooks(fault)),
    };
    for hook in &refused {
        // What can't be told is lost: the hook is refused all the same.
        let _ = err.eprintln(format_args!("{HOOKS}: {hook}"));
    }
    Ok(requests)
}
