//! The commands of the program.
ghost use Rattle.std.specs.Prelude.{◌≡◌, ℕ, ◌<◌, ◌≤◌, List, Option, OnOk, IfOk, IsErr, vec_len};
ghost use Rattle.std.specs.Borrow.{Bor};
ghost use Rattle.commands.specs.Words.{request_of};
ghost use Rattle.commands.specs.Command.{Explained, Helped, Judged, KeptFolder, Ran, Served, SimulatedFile, Versioned};
ghost use Rattle.commands.specs.Dumped.{DumpedFile, LoadedFile};

use crate::audited::tell;
use crate::dump::dump;
use crate::explained::explain;
use crate::failure::Failure;
use crate::files::{Files, Paths};
use crate::help::help;
use crate::load::load;
use crate::run::run;
use crate::server::{Ended, Post, Says as _, Server, Site, Unserved};
use crate::simulate::simulate;
use crate::streams::Streams;
use crate::tables::Tables;
use crate::verify::verify;
use crate::version::version;
use crate::words::{Request, parse};
use std::alloc::Global;
use std::io::Write;

/// The status where memory was refused for the store, and that of a program that is not accepted.
pub(crate) const REFUSED: u8 = 1;

/// The status after a [`Failure`].
const FAILED: u8 = 2;

/// Does what the words ask for. Gives the status of the program: 0 where it is done, 1 where it was refused, and 2 after a bad line of a
/// script, which is told on `out` and why on `err`, or a [`Failure`], whose name is then all that stands on `err`. Programs that are run
/// may call the helpers of the first of the tables; where the store is served, the others are those of further workers.
pub fn command<F: Files, S: Server, O: Write, E: Write>(
    alloc: Global,
    tables: Tables,
    words: &[&str],
    files: &mut F,
    server: &mut S,
    streams: &mut Streams<O, E>,
) -> u8
    requires ready { S.ready }
    requires few { vec_len tables.more < 16 }
    ensures status { result ≤ 2 }
    ensures ran { (image input : Bor (List ℕ)) → request_of words.now ≡ Some (Request.Run image input) → result < 2 → Ran tables.first.listed (F.held files.old image.now) (F.held files.old input.now) (O.contents streams.old.out) (O.contents streams.new.out) result }
    ensures judged { (image : Bor (List ℕ)) → request_of words.now ≡ Some (Request.Verify image) → result < 2 → Judged tables.first.listed (F.held files.old image.now) (O.contents streams.old.out) (O.contents streams.new.out) result }
    ensures explained { (image : Bor (List ℕ)) → request_of words.now ≡ Some (Request.Explain image) → result < 2 → Explained tables.first.listed (F.held files.old image.now) (O.contents streams.old.out) (O.contents streams.new.out) result }
    ensures simulated { (script : Bor (List ℕ)) → request_of words.now ≡ Some (Request.Sim script) → result < 2 → SimulatedFile tables.first.listed (F.held files.old script.now) (O.contents streams.old.out) (O.contents streams.new.out) result }
    ensures dumped { (file script : Bor (List ℕ)) (vnode : ℕ) → request_of words.now ≡ Some (Request.Dump file script vnode) → result < 2 → DumpedFile tables.first.listed vnode (F.held files.old script.now) (F.held files.new file.now) (O.contents streams.old.out) (O.contents streams.new.out) result }
    ensures unwritten { (file script : Bor (List ℕ)) (vnode : ℕ) → request_of words.now ≡ Some (Request.Dump file script vnode) → result ≡ 1 → files.new ≡ files.old }
    ensures loaded { (file script : Bor (List ℕ)) (incarnation : ℕ) → request_of words.now ≡ Some (Request.Load file incarnation script) → result < 2 → LoadedFile tables.first.listed incarnation (F.held files.old file.now) (F.held files.old script.now) (O.contents streams.old.out) (O.contents streams.new.out) result }
    ensures served { (addr : Bor (List ℕ)) (workers : ℕ) (count : Option ℕ) (copies : ℕ) → request_of words.now ≡ Some (Request.Serve addr workers count copies) → result < 2 → Served (O.contents streams.old.out) (O.contents streams.new.out) result }
    ensures kept { (folder addr : Bor (List ℕ)) (workers : ℕ) (count : Option ℕ) → request_of words.now ≡ Some (Request.Keep folder addr workers count) → result < 2 → KeptFolder (O.contents streams.old.out) (O.contents streams.new.out) result }
    ensures helped { request_of words.now ≡ Some Request.Help → result < 2 → Helped (O.contents streams.old.out) (O.contents streams.new.out) result }
    ensures versioned { request_of words.now ≡ Some Request.Version → result < 2 → Versioned (O.contents streams.old.out) (O.contents streams.new.out) result }
    ensures wrong_words { request_of words.now ≡ None → result ≡ 2 }
    ensures untouched { request_of words.now ≡ None → streams.new.out ≡ streams.old.out }
{
    match done(alloc, tables, words, files, server, streams) {
        Ok(status) => status,
        Err(failure) => {
            // A failure that cannot be told leaves the status alone to tell of it.
            let _ = writeln!(streams.err, "{failure}");
            FAILED
        }
    }
}

/// Does what the words ask for, and gives the status. The error is not told yet.
fn done<F: Files, S: Server, O: Write, E: Write>(
    alloc: Global,
    tables: Tables,
    words: &[&str],
    files: &mut F,
    server: &mut S,
    streams: &mut Streams<O, E>,
) -> Result<u8, Failure>
    requires ready { S.ready }
    requires few { vec_len tables.more < 16 }
    ensures status { IfOk result (λ status. status ≤ 2) }
    ensures ran { (image input : Bor (List ℕ)) → request_of words.now ≡ Some (Request.Run image input) → IfOk result (λ status. status < 2 → Ran tables.first.listed (F.held files.old image.now) (F.held files.old input.now) (O.contents streams.old.out) (O.contents streams.new.out) status) }
    ensures judged { (image : Bor (List ℕ)) → request_of words.now ≡ Some (Request.Verify image) → IfOk result (λ status. status < 2 → Judged tables.first.listed (F.held files.old image.now) (O.contents streams.old.out) (O.contents streams.new.out) status) }
    ensures explained { (image : Bor (List ℕ)) → request_of words.now ≡ Some (Request.Explain image) → IfOk result (λ status. status < 2 → Explained tables.first.listed (F.held files.old image.now) (O.contents streams.old.out) (O.contents streams.new.out) status) }
    ensures simulated { (script : Bor (List ℕ)) → request_of words.now ≡ Some (Request.Sim script) → IfOk result (λ status. status < 2 → SimulatedFile tables.first.listed (F.held files.old script.now) (O.contents streams.old.out) (O.contents streams.new.out) status) }
    ensures dumped { (file script : Bor (List ℕ)) (vnode : ℕ) → request_of words.now ≡ Some (Request.Dump file script vnode) → IfOk result (λ status. status < 2 → DumpedFile tables.first.listed vnode (F.held files.old script.now) (F.held files.new file.now) (O.contents streams.old.out) (O.contents streams.new.out) status) }
    ensures unwritten { (file script : Bor (List ℕ)) (vnode : ℕ) → request_of words.now ≡ Some (Request.Dump file script vnode) → IfOk result (λ status. status ≡ 1 → files.new ≡ files.old) }
    ensures loaded { (file script : Bor (List ℕ)) (incarnation : ℕ) → request_of words.now ≡ Some (Request.Load file incarnation script) → IfOk result (λ status. status < 2 → LoadedFile tables.first.listed incarnation (F.held files.old file.now) (F.held files.old script.now) (O.contents streams.old.out) (O.contents streams.new.out) status) }
    ensures served { (addr : Bor (List ℕ)) (workers : ℕ) (count : Option ℕ) (copies : ℕ) → request_of words.now ≡ Some (Request.Serve addr workers count copies) → IfOk result (λ status. status < 2 → Served (O.contents streams.old.out) (O.contents streams.new.out) status) }
    ensures kept { (folder addr : Bor (List ℕ)) (workers : ℕ) (count : Option ℕ) → request_of words.now ≡ Some (Request.Keep folder addr workers count) → IfOk result (λ status. status < 2 → KeptFolder (O.contents streams.old.out) (O.contents streams.new.out) status) }
    ensures helped { request_of words.now ≡ Some Request.Help → IfOk result (λ status. status < 2 → Helped (O.contents streams.old.out) (O.contents streams.new.out) status) }
    ensures versioned { request_of words.now ≡ Some Request.Version → IfOk result (λ status. status < 2 → Versioned (O.contents streams.old.out) (O.contents streams.new.out) status) }
    ensures wrong_words { request_of words.now ≡ None → IsErr result × (streams.new.out ≡ streams.old.out) }
{
    match parse(words) {
        Some(Request::Help) => help(&mut streams.out),
        Some(Request::Version) => version(&mut streams.out),
        Some(Request::Run { image, input }) => {
            run(alloc, &tables.first, image, input, files, &mut streams.out)
        }
        Some(Request::Verify { image }) => verify(
            alloc,
            &tables.first,
            image,
            files,
            &mut streams.out,
        ),
        Some(Request::Explain { image }) => explain(
            alloc,
            &tables.first,
            image,
            files,
            &mut streams.out,
        ),
        Some(Request::Sim { script }) => simulate(alloc, &tables.first, script, files, streams),
        Some(
            Request::Dump {
                file,
                script,
                vnode,
            },
        ) => dump(
            alloc,
            &tables.first,
            Paths { file, script },
            vnode,
            files,
            streams,
        ),
        Some(
            Request::Load {
                file,
                incarnation,
                script,
            },
        ) => load(
            alloc,
            &tables.first,
            Paths { file, script },
            incarnation,
            files,
            streams,
        ),
        Some(
            Request::Serve {
                addr,
                count,
                copies,
                ..
            },
        ) => serve(
            alloc,
            tables,
            &Post {
                addr,
                count,
                copies,
            },
            server,
            &mut streams.out,
        ),
        Some(
            Request::Keep {
                folder,
                addr,
                count,
                ..
            },
        ) => keep(
            alloc,
            tables,
            &Site {
                folder,
                addr,
                count,
            },
            server,
            &mut streams.out,
        ),
        None => Err(Failure::Usage),
    }
}

/// Serves the store at an address, tells what is said of its journals then, and gives the status. Want of memory before that is told
/// on `out`.
fn serve<S: Server, O: Write>(
    alloc: Global,
    tables: Tables,
    post: &Post<'_>,
    server: &mut S,
    out: &mut O,
) -> Result<u8, Failure>
    requires ready { S.ready }
    requires few { vec_len tables.more < 16 }
    ensures status { IfOk result (λ status. status ≤ 2) }
    ensures served { IfOk result (Served (O.contents out.old) (O.contents out.new)) }
{
    let Tables { first, more } = tables;
    match server.serve(alloc, first, more, post, out) {
        Ok(audited) => tell(audited.said(), out),
        Err(Unserved::NoMemory) => {
            out.write_all(b"E1\n")?;
            Ok(REFUSED)
        }
        Err(Unserved::Refused | Unserved::Unreadable) => Err(Failure::Unreadable),
    }
}

/// Serves the store that a folder keeps, tells what is said of its journals then, and gives the status. Want of memory before anything is
/// told is told on `out`.
fn keep<S: Server, O: Write>(
    alloc: Global,
    tables: Tables,
    site: &Site<'_>,
    server: &mut S,
    out: &mut O,
) -> Result<u8, Failure>
    requires ready { S.ready }
    requires few { vec_len tables.more < 16 }
    ensures status { IfOk result (λ status. status ≤ 2) }
    ensures kept { IfOk result (KeptFolder (O.contents out.old) (O.contents out.new)) }
{
    let Tables { first, more } = tables;
    match server.keep(alloc, first, more, site, out) {
        Ok(Ended::Kept(audited)) => tell(audited.said(), out),
        Ok(Ended::Unkept(audited)) => {
            tell(audited.said(), out)?;
            Ok(REFUSED)
        }
        Err(Unserved::Refused) => Ok(REFUSED),
        Err(Unserved::NoMemory) => {
            out.write_all(b"E1\n")?;
            Ok(REFUSED)
        }
        Err(Unserved::Unreadable) => Err(Failure::Unreadable),
    }
}
