//! The network of the system.

ghost use Rattle.std.specs.Prelude.{◌≡◌, ◌≢◌, ◌<◌, ◌≤◌, ◌++◌, ◌∷◌, [], ℕ, List, IfOk, IfErr, OnOk, map, vec_len};
ghost use Rattle.std.specs.Io.KnownBytes.{Appends};
ghost use Rattle.commands.specs.Command.{HasKept, HasRefused};
ghost use Rattle.kept_file.specs.Placed.{ArePlaced};
ghost use Rattle.dvvstore.specs.Crews.{by_digest};
ghost use Rattle.shared_prefix.specs.Lists.{book_of};
ghost use Rattle.dvvstore.specs.Keeping.{ArePutOf, AreFilesPut, HasEnded, IsRefusal, IsUnkept, Keeps};
ghost use Rattle.dvvstore.specs.Over.{IsOpened, KeptOver, ended_says};

use crate::crew::Served;
use crate::host::Host;
use crate::keeper::{Address, Door, Stay, Unbegun};
use crate::limits::MAX_VNODES;
use crate::reasons::bind;
use crate::session;
use crate::session::{Left, Making};
use crate::spread::{Spread, copies_of};
use crate::start::{minute_at, start_at};
use crate::system_folder::{SystemFolder, take};
use audit_cluster::{Closed, Verdict};
use audit_faults::Followed;
use bpf_helpers::Table;
use commands::server::{Ended, Post, Says, Server, Site, Unserved};
use dvv::VNODES_PER_NUMBER;
use kept_file::placed;
use kept_folder::{
    FileFault, Folder, Held, LogFolder, Logs, OpenFault, Opened, Unreplaced, keep_all, keep_start,
};
use kept_hooks::Requests;
use log_desk::{HooksFile, NoLedger, PageFault, Pages};
use log_writer::Sheet;
use server_accept::{Bound, Setup, open, tell_listening};
use shared_prefix::Naming;
use std::alloc::{AllocError, Global};
use std::fmt::Display;
use std::io;
use std::io::{Eprint as _, ErrorKind, Stderr, Stdin, Write};
use std::marker::Brand;
use std::net::{Net, TcpListener, TcpStream};
use std::random::RandomSource;
use std::rt::Clock;
use std::sync::Wait;
use std::thread::{Parker, Threads};
use std::time::Duration;
use thiserror::Error;
use vnode::{Seed, Vnode};

/// What is said of the journals of a store: a yes is that of who has followed them, since nobody else can make one.
#[derive(Drop)]
pub struct Said(Verdict);

impl Says for Said {
    ghost says = { λ said. said.0 };

    fn said(&self) -> Followed {
        self.0.said()
    }
}

/// The network and the files of the system, and the streams on which who runs a server says and is told things.
#[derive(Drop)]
pub struct Network<'a, R> {
    pub rt: &'a R,
    /// Where folders are.
    pub files: &'a HostRuntime,
    /// Where the server is told to stop.
    pub input: Stdin,
    /// Where is told what can't wait.
    pub err: Stderr,
}

impl<'a, R> Network<'a, R> {
    /// What a store runs on.
    fn host(&self, alloc: Global) -> Host<'a, R> {
        Host { alloc, rt: self.rt }
    }
}

impl<R: Clock + Wait> Network<'_, R> {
    /// The number of this start, once the second that it took is over. Vnodes hold nothing then, so they take other identifiers than those
    /// of the starts before, of which clients may still have contexts. Where the clock can't be read it is 0.
    fn begin(&self) -> u32
        ensures { result < 16777216 }
    {
        let Ok(taken) = self.rt.since_1970() else {
            return 0;
        };
        let start = start_at(taken.as_secs(), taken.subsec_millis());
        let rest = Parker::new();
        let mut left = start.left;
        for _ in self.rt.forever() {
            rest.park_timeout(self.rt, Duration::from_millis(left));
            match self.rt.since_1970() {
                Ok(now) if now.as_secs() == taken.as_secs() => left = start_at(
                    now.as_secs(),
                    now.subsec_millis(),
                ).left,
                _ => break,
            }
        }
        start.number
    }

    /// How many minutes of 2026 and of later years are over. Where the clock can't be read it is 0.
    fn minute(&self) -> u32 {
        match self.rt.since_1970() {
            Ok(now) => minute_at(now.as_secs()),
            Err(_) => 0,
        }
    }
}

impl<
    R: Clock
        + Threads
        + Wait
        + Net<Listener = TcpListener, Stream = TcpStream>
        + RandomSource
        + Sync,
> Server for Network<'_, R> {
    ghost use denote.Param.Send.{IsSync};

    type Said = Said;

    ghost ready = { IsSync R.row };

    fn serve<O: Write>(
        &mut self,
        alloc: Global,
        table: Table,
        mut more: Vec<Table>,
        post: &Post<'_>,
        out: &mut O,
    ) -> Result<Said, Unserved> {
        if more.push(table).is_err() {
            return Err(Unserved::NoMemory);
        }
        let seed = Seed::random(self.rt)?;
        let Bound { listener, addr } = bind(self.rt, post.addr, self.err)?;
        let setup = Setup {
            listener,
            count: post.count,
            input: self.input,
            makes_snapshots: false,
            err: self.err,
        };
        let lobby = match open(alloc, self.rt, more.len(), setup) {
            Ok(opened) => opened,
            Err(error) if error.kind() == ErrorKind::OutOfMemory => {
                return Err(Unserved::NoMemory);
            }
            Err(_) => return Err(Unserved::Unreadable),
        };
        tell_listening(addr, out)?;
        let making = Making {
            first: self.begin() * VNODES_PER_NUMBER,
            seed,
            spread: Spread::usual(more.len(), copies_of(post.copies)),
        };
        let stay = Stay {
            folder: None::<SystemFolder<'_>>,
            held: Held::nothing(alloc),
            door: Door::<'_, R>::Open(&lobby),
            ledger: &NoLedger,
            err: self.err,
        };
        match session::live(&self.host(alloc), making, more, stay, &mut io::sink()) {
            Ok(Left::Kept(served)) => Ok(said_of(served)),
            _ => Ok(Said(Verdict::no_memory())),
        }
    }

    fn keep<O: Write>(
        &mut self,
        alloc: Global,
        table: Table,
        mut more: Vec<Table>,
        site: &Site<'_>,
        out: &mut O,
    ) -> Result<Ended<Said>, Unserved> {
        if more.push(table).is_err() {
            return Err(Unserved::NoMemory);
        }
        let seed = Seed::random(self.rt)?;
        let lock = match take(self.files, alloc, site.folder) {
            Ok(lock) => lock,
            Err(why) => return Err(refused(alloc, out, &why)),
        };
        // Before a number is taken: starts at an address that can't be had use none up.
        let bound = bind(self.rt, site.addr, self.err)?;
        let mut folder = lock.folder();
        let keeping = Keeping {
            minute: self.minute(),
            seed,
            tables: more,
            address: Address {
                rt: self.rt,
                bound,
                count: site.count,
                input: self.input,
            },
            err: self.err,
        };
        keep_over(&self.host(alloc), &mut folder, keeping, out)
    }
}

/// A start of a store that a folder keeps.
#[derive(Drop)]
struct Keeping<'a, N> {
    /// How many minutes of 2026 and of later years are over.
    minute: u32,
    /// What the hashes of keys begin with.
    seed: Seed,
    /// The helpers that the hooks of each worker may call.
    tables: Vec<Table>,
    /// Where the store is to answer.
    address: Address<'a, N>,
    /// Where what can't wait is told.
    err: Stderr,
}

/// Has a store begin with what a folder holds, wherever that placed it, answer connections until it is stopped, and be written into the
/// folder again. Where all is kept, each file of it is of what was served, and what was served has begun with what the folder held.
fn keep_over<
    R: Threads + Wait + Sync,
    N: Net<Listener = TcpListener, Stream = TcpStream>,
    F: Folder + LogFolder + HooksFile + Copy + Send + Sync,
    O: Write,
>(
    host: &Host<'_, R>,
    folder: &mut F,
    keeping: Keeping<'_, N>,
    out: &mut O,
) -> Result<Ended<Said>, Unserved>
    requires some { 0 < vec_len keeping.tables }
    requires few { vec_len keeping.tables ≤ 16 }
    ensures told { IfOk result (HasKept (O.contents out.old) (O.contents out.new)) }
    ensures refused { IfErr result (λ why. why ≡ Unserved.Refused → HasRefused (O.contents out.old) (O.contents out.new)) }
    ensures untold { IfErr result (λ why. why ≡ Unserved.NoMemory → O.contents out.new ≡ O.contents out.old) }
    ensures kept { IfOk result (KeptOver F.finds F.does keeping.entry.minute (map (λ t. t.listed) keeping.entry.tables.items) folder.old folder.new) }
{
    let opened = match kept_folder::open(host.alloc, host.rt, folder, keeping.minute) {
        Ok(opened) => opened,
        Err(OpenFault::NoMemory) => return Err(Unserved::NoMemory),
        Err(why) => return Err(refused(host.alloc, out, &why)),
    };
    keep_logged::<Brand, R, N, F, O>(
        host,
        folder,
        opened,
        shared_prefix::Opened::new(),
        keeping,
        out,
    )
}

/// The same of a folder that was opened, with a log of what is written, whose list of sheets is new.
fn keep_logged<
    J: Naming + Send + Sync,
    R: Threads + Wait + Sync,
    N: Net<Listener = TcpListener, Stream = TcpStream>,
    F: Folder + LogFolder + HooksFile + Copy + Send + Sync,
    O: Write,
>(
    host: &Host<'_, R>,
    folder: &mut F,
    opened: Opened,
    list: shared_prefix::Opened<Sheet>,
    keeping: Keeping<'_, N>,
    out: &mut O,
) -> Result<Ended<Said>, Unserved>
    requires list { book_of list ≡ J.book }
    requires some { 0 < vec_len keeping.tables }
    requires few { vec_len keeping.tables ≤ 16 }
    requires number { opened.number ≤ 16777215 }
    requires copies { (0 < opened.held.settings.copies) × (opened.held.settings.copies ≤ 3) }
    ensures told { IfOk result (HasKept (O.contents out.old) (O.contents out.new)) }
    ensures refused { IfErr result (λ why. why ≡ Unserved.Refused → HasRefused (O.contents out.old) (O.contents out.new)) }
    ensures untold { IfErr result (λ why. why ≡ Unserved.NoMemory → O.contents out.new ≡ O.contents out.old) }
    ensures kept { (minute : ℕ) (before : F) → IsOpened F.finds F.does minute before opened folder.old → IfOk result (KeptOver F.finds F.does minute (map (λ t. t.listed) keeping.entry.tables.items) before folder.new) }
{
    let (err, settings, logs) = (keeping.err, opened.held.settings, opened.held.logs);
    tell_cut(err, logs);
    let desk = match log_desk::open::<F, J>(host.alloc, *folder, settings.sync, logs, list) {
        Ok(desk) => desk,
        Err(FileFault::NoMemory) => return Err(Unserved::NoMemory),
        Err(fault) => return Err(refused(host.alloc, out, &Unlogged(fault))),
    };
    let ended = keep_opened(host, folder, opened, keeping, &desk, out)?;
    if matches!(&ended, Ended::Kept(_)) {
        tell_left(err, desk.close(host.rt));
    }
    Ok(ended)
}

/// Tells which log is left behind a stop, if one is. What can't be told is lost.
fn tell_left(err: Stderr, came: Result<(), PageFault>) {
    if let Err(fault) = came {
        let _ = err.eprintln(format_args!("{fault}"));
    }
}

/// Why no log is begun.
#[derive(Clone, Copy, Debug, PartialEq, Eq, Error)]
#[error("log: {0}")]
struct Unlogged(FileFault);

/// The same, where what is written is kept by a ledger before it is answered.
fn keep_opened<
    R: Threads + Wait + Sync,
    N: Net<Listener = TcpListener, Stream = TcpStream>,
    F: Folder + Copy + Send + Sync,
    O: Write,
    L: Pages + Sync,
>(
    host: &Host<'_, R>,
    folder: &mut F,
    opened: Opened,
    keeping: Keeping<'_, N>,
    ledger: &L,
    out: &mut O,
) -> Result<Ended<Said>, Unserved>
    requires some { 0 < vec_len keeping.tables }
    requires few { vec_len keeping.tables ≤ 16 }
    requires number { opened.number ≤ 16777215 }
    requires copies { (0 < opened.held.settings.copies) × (opened.held.settings.copies ≤ 3) }
    ensures told { IfOk result (HasKept (O.contents out.old) (O.contents out.new)) }
    ensures refused { IfErr result (λ why. why ≡ Unserved.Refused → HasRefused (O.contents out.old) (O.contents out.new)) }
    ensures untold { IfErr result (λ why. why ≡ Unserved.NoMemory → O.contents out.new ≡ O.contents out.old) }
    ensures kept { (minute : ℕ) (before : F) → IsOpened F.finds F.does minute before opened folder.old → IfOk result (KeptOver F.finds F.does minute (map (λ t. t.listed) keeping.entry.tables.items) before folder.new) }
{
    let Keeping {
        seed,
        tables,
        address,
        err,
        ..
    } = keeping;
    let Opened { number, held } = opened;
    let spread = Spread::among(held.vnodes(), tables.len(), held.settings.copies);
    let Ok(held) = held_for(host.alloc, spread, held) else {
        return Err(Unserved::NoMemory);
    };
    let making = Making {
        first: number * VNODES_PER_NUMBER,
        seed,
        spread,
    };
    let stay = Stay {
        folder: Some(*folder),
        held,
        door: Door::Closed(address),
        ledger,
        err,
    };
    match session::live(host, making, tables, stay, out) {
        Ok(Left::Kept(served)) => finish(host.alloc, folder, number, served, out),
        Ok(Left::Lost) => lose(host.alloc, out),
        Err(why) => Err(unserved(host.alloc, out, why)),
    }
}

/// What a folder holds, with the records of each vnode where keys are spread so: the folder may have been written where they were spread
/// otherwise. What else it holds stays.
fn held_for(alloc: Global, spread: Spread, held: Held) -> Result<Held, AllocError>
    ensures placed { IfOk result (λ now. ArePlaced (by_digest spread.vnodes spread.copies) held.files.items now.files.items) }
    ensures settings { IfOk result (λ now. now.settings ≡ held.settings) }
    ensures hooks { IfOk result (λ now. now.hooks ≡ held.hooks) }
{
    let Held {
        last,
        filed,
        settings,
        hooks,
        files,
        logs,
    } = held;
    let files = placed(alloc, &spread.placement(), &files)?;
    Ok(Held {
        last,
        filed,
        settings,
        hooks,
        files,
        logs,
    })
}

/// Tells how many bytes of the newest log are passed over, if any are. What can't be told is lost.
fn tell_cut(err: Stderr, logs: Option<Logs>) {
    if let Some(Logs { last, torn, .. }) = logs {
        if torn > 0 {
            let _ = err.eprintln(format_args!("log-{last}: {torn} bytes cut"));
        }
    }
}

/// What is said of the journals of a store that was served.
fn said_of(served: Served) -> Said
    ensures { result.0 ≡ served.closed.said }
{
    let Served { closed, .. } = served;
    let Closed { said, .. } = closed;
    Said(said)
}

/// Tells a word and why it is said, in a line. The error: the output can't be written, or memory was refused.
fn tell<O: Write, D: Display>(alloc: Global, out: &mut O, word: &str, why: &D) -> io::Result<()>
    ensures told { OnOk result ((text : List ℕ) × Appends (O.contents out.old) (O.contents out.new) (word.now ++ 32 ∷ text ++ 10 ∷ [])) }
{
    let text = format!(in alloc; "{why}")?;
    writeln!(out, "{word} {text}")
}

/// Tells why a folder isn't taken.
fn refused<O: Write, D: Display>(alloc: Global, out: &mut O, why: &D) -> Unserved
    ensures told { result ≡ Unserved.Refused → HasRefused (O.contents out.old) (O.contents out.new) }
    ensures memory { result ≢ Unserved.NoMemory }
{
    match tell(alloc, out, "refused", why) {
        Ok(()) => Unserved::Refused,
        Err(_) => Unserved::Unreadable,
    }
}

/// Why a store isn't served that doesn't begin: where what its folder held isn't taken, that is told.
fn unserved<O: Write>(alloc: Global, out: &mut O, why: Unbegun) -> Unserved
    ensures refused { result ≡ Unserved.Refused → IsRefusal why × HasRefused (O.contents out.old) (O.contents out.new) }
    ensures memory { result ≡ Unserved.NoMemory → (why ≡ Unbegun.NoMemory) × (O.contents out.new ≡ O.contents out.old) }
{
    match why {
        Unbegun::Unreadable => Unserved::Unreadable,
        Unbegun::NoMemory => Unserved::NoMemory,
        Unbegun::Records(_) => refused(alloc, out, &why),
        Unbegun::Hooks(_) => refused(alloc, out, &why),
    }
}

/// Tells that nothing is left of a store, since memory was refused.
fn lose<O: Write>(alloc: Global, out: &mut O) -> Result<Ended<Said>, Unserved>
    ensures told { IfOk result (HasEnded (O.contents out.old) (O.contents out.new)) }
    ensures why { IfErr result (λ why. why ≡ Unserved.Unreadable) }
    ensures unkept { IfOk result (λ ended. IsUnkept ended) }
{
    tell(alloc, out, "not kept", &Unbegun::NoMemory)?;
    Ok(Ended::Unkept(Said(Verdict::no_memory())))
}

/// Writes what is left of a store into its folder, with the number of its start and how many vnodes have files, and tells how many records
/// that is, or why not all is written.
pub(crate) fn finish<F: Folder, O: Write>(
    alloc: Global,
    folder: &mut F,
    number: u32,
    served: Served,
    out: &mut O,
) -> Result<Ended<Said>, Unserved>
    ensures told { IfOk result (HasEnded (O.contents out.old) (O.contents out.new)) }
    ensures why { IfErr result (λ why. why ≡ Unserved.Unreadable) }
    ensures says { IfOk result (λ ended. ended_says ended ≡ served.closed.said) }
    ensures put { IfOk result (Keeps F.finds F.does number served folder.old folder.new) }
{
    let Served { closed, requests } = served;
    let Closed { vnodes, said } = closed;
    let said = Said(said);
    match write_all(alloc, folder, number, &vnodes, &requests) {
        Ok(kept) => {
            writeln!(out, "kept {kept}")?;
            Ok(Ended::Kept(said))
        }
        Err(why) => {
            tell(alloc, out, "not kept", &why)?;
            Ok(Ended::Unkept(said))
        }
    }
}

/// Replaces all files of a folder by what vnodes hold that nobody calls any more, and by the requests that make their hooks what they are,
/// and has the number of the start be there and how many vnodes have files. Answers how many records are written.
fn write_all<F: Folder>(
    alloc: Global,
    folder: &mut F,
    number: u32,
    vnodes: &[Vnode],
    requests: &Requests,
) -> Result<usize, Unreplaced>
    ensures put { OnOk result (ArePutOf F.finds F.does number vnodes.now requests.now folder.old folder.new) }
{
    let kept = write_files(alloc, folder, vnodes, requests)?;
    let filed = vnodes.len().min(MAX_VNODES as usize) as u32;
    keep_start(alloc, folder, number, filed)?;
    Ok(kept)
}

/// The same of the files of vnodes and of that of the requests.
fn write_files<F: Folder>(
    alloc: Global,
    folder: &mut F,
    vnodes: &[Vnode],
    requests: &Requests,
) -> Result<usize, Unreplaced>
    ensures put { OnOk result (AreFilesPut F.does vnodes.now requests.now folder.old folder.new) }
{
    match requests.bytes() {
        Ok(Some(requests)) => keep_all(alloc, folder, vnodes, Some(&requests)),
        // One of them is lacking, or memory for them.
        _ => keep_all(alloc, folder, vnodes, None),
    }
}
