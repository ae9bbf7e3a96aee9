//! The helpers that hooks of this program may call.

ghost use Rattle.std.specs.Prelude.{◌≡◌, ◌≤◌, ◌<◌, ◌+◌, ◌%◌, ◌^◌, slice_index, ℕ, List, length, max, IfOk, OnOk, IsSome, ◌++◌, ◌∷◌, [], Option, None, Some};
ghost use Rattle.std.specs.Borrow.{Bor};
ghost use Rattle.bpf_helpers.specs.Text.{order_of, place_of, spelled};
ghost use Rattle.bpf_helpers.specs.Layout.{newest_of};
ghost use Rattle.bpf_helpers.specs.Shapes.{shape_of, written_shape};
ghost use Rattle.bpf_helpers.specs.declared.sig.Entry.{Entry};
ghost use Rattle.bpf_helpers.specs.Entries.{IsAdmitted};
ghost use Rattle.bpf_helpers.specs.Answers.{IsCallableOn, AnswersOn};
ghost use Rattle.commands.specs.Command.{Explained, Helped, Judged, KeptFolder, Ran, Served, SimulatedFile, Versioned};
ghost use Rattle.commands.specs.Dumped.{DumpedFile, LoadedFile};
ghost use Rattle.commands.specs.Own.{one_number, shapes_of, own_shapes};
ghost use Rattle.commands.specs.Words.{request_of};

use crate::command::command;
use crate::files::Files;
use crate::server::Server;
use crate::streams::Streams;
use crate::tables::OwnTables;
use crate::words::{MOST_WORKERS, Request, parse};
use bpf_helpers::{
    ArgRule, Body, Helper, HelperFault, Sig, Table, decimal, find, newest, order, written_sig,
};
use std::alloc::{AllocError, Global};
use std::io::Write;

/// The Sig of a written helper.
fn own_written(number: u32) -> Sig
    requires { IsSome (written_shape number) }
    ensures { written_shape number ≡ Some (shape_of result) }
{
    match written_sig(number) {
        Some(sig) => sig,
        None => unreachable!(),
    }
}

/// Adds a helper whose number is free.
fn add(table: &mut Table, number: u32, sig: Sig, body: Body) -> Result<(), AllocError>
    requires admitted { IsAdmitted table.old.listed (record { number = number; sig = sig }) }
    requires callable { IsCallableOn sig.args (Body.pre body) }
    requires answers { AnswersOn number sig.args sig.lo sig.hi (Body.post body) }
    ensures added { OnOk result (table.new.listed ≡ table.old.listed ++ (record { number = number; sig = sig }) ∷ []) }
    ensures shapes { OnOk result (shapes_of table.new.listed ≡ shapes_of table.old.listed ++ (number, shape_of sig) ∷ []) }
{
    match table.add(Helper::new(number, sig, body)) {
        Ok(()) => Ok(()),
        Err((_, HelperFault::NoMemory)) => Err(AllocError),
        Err((_, HelperFault::Taken | HelperFault::Number | HelperFault::Signature)) =>
            unreachable!(),
    }
}

/// Does what the words ask for, as [`command`] does, where hooks may call the written helpers 16 to 19 and two of this program: 64, a
/// number modulo 8, and 65, modulo 9. Where the store is served, each worker has a table of its own. Fails only for want of memory for
/// these.
pub fn command_with_helpers<F: Files, S: Server, O: Write, E: Write>(
    alloc: Global,
    words: &[&str],
    files: &mut F,
    server: &mut S,
    streams: &mut Streams<O, E>,
) -> Result<u8, AllocError>
    requires ready { S.ready }
    ensures status { IfOk result (λ status. status ≤ 2) }
    ensures ran { (image input : Bor (List ℕ)) → request_of words.now ≡ Some (Request.Run image input) → IfOk result (λ status. status < 2 → (sigs : List Entry) × (shapes_of sigs ≡ own_shapes) × Ran sigs (F.held files.old image.now) (F.held files.old input.now) (O.contents streams.old.out) (O.contents streams.new.out) status) }
    ensures judged { (image : Bor (List ℕ)) → request_of words.now ≡ Some (Request.Verify image) → IfOk result (λ status. status < 2 → (sigs : List Entry) × (shapes_of sigs ≡ own_shapes) × Judged sigs (F.held files.old image.now) (O.contents streams.old.out) (O.contents streams.new.out) status) }
    ensures explained { (image : Bor (List ℕ)) → request_of words.now ≡ Some (Request.Explain image) → IfOk result (λ status. status < 2 → (sigs : List Entry) × (shapes_of sigs ≡ own_shapes) × Explained sigs (F.held files.old image.now) (O.contents streams.old.out) (O.contents streams.new.out) status) }
    ensures simulated { (script : Bor (List ℕ)) → request_of words.now ≡ Some (Request.Sim script) → IfOk result (λ status. status < 2 → (sigs : List Entry) × (shapes_of sigs ≡ own_shapes) × SimulatedFile sigs (F.held files.old script.now) (O.contents streams.old.out) (O.contents streams.new.out) status) }
    ensures dumped { (file script : Bor (List ℕ)) (vnode : ℕ) → request_of words.now ≡ Some (Request.Dump file script vnode) → IfOk result (λ status. status < 2 → (sigs : List Entry) × (shapes_of sigs ≡ own_shapes) × DumpedFile sigs vnode (F.held files.old script.now) (F.held files.new file.now) (O.contents streams.old.out) (O.contents streams.new.out) status) }
    ensures unwritten { (file script : Bor (List ℕ)) (vnode : ℕ) → request_of words.now ≡ Some (Request.Dump file script vnode) → IfOk result (λ status. status ≡ 1 → files.new ≡ files.old) }
    ensures loaded { (file script : Bor (List ℕ)) (incarnation : ℕ) → request_of words.now ≡ Some (Request.Load file incarnation script) → IfOk result (λ status. status < 2 → (sigs : List Entry) × (shapes_of sigs ≡ own_shapes) × LoadedFile sigs incarnation (F.held files.old file.now) (F.held files.old script.now) (O.contents streams.old.out) (O.contents streams.new.out) status) }
    ensures served { (addr : Bor (List ℕ)) (workers : ℕ) (count : Option ℕ) (copies : ℕ) → request_of words.now ≡ Some (Request.Serve addr workers count copies) → IfOk result (λ status. status < 2 → Served (O.contents streams.old.out) (O.contents streams.new.out) status) }
    ensures kept { (folder addr : Bor (List ℕ)) (workers : ℕ) (count : Option ℕ) → request_of words.now ≡ Some (Request.Keep folder addr workers count) → IfOk result (λ status. status < 2 → KeptFolder (O.contents streams.old.out) (O.contents streams.new.out) status) }
    ensures helped { request_of words.now ≡ Some Request.Help → IfOk result (λ status. status < 2 → Helped (O.contents streams.old.out) (O.contents streams.new.out) status) }
    ensures versioned { request_of words.now ≡ Some Request.Version → IfOk result (λ status. status < 2 → Versioned (O.contents streams.old.out) (O.contents streams.new.out) status) }
    ensures wrong_words { request_of words.now ≡ None → IfOk result (λ status. status ≡ 2) }
    ensures untouched { request_of words.now ≡ None → streams.new.out ≡ streams.old.out }
{
    let mut own = OwnTables::new(alloc);
    for _ in 0..tables_for(words) {
        let mut table = Table::new(alloc);
        let body: Body = Box::new(
            alloc,
            |_numbers: [u64; 5], first: &[u8], second: &[u8]| -> u64
                ensures value { result ≡ order_of first.now second.now }
                ensures range { result ≤ 2 }
            { order(first, second) },
        )?;
        add(&mut table, 16, own_written(16), body)?;
        let body: Body = Box::new(
            alloc,
            |_numbers: [u64; 5], first: &[u8], second: &[u8]| -> u64
                ensures value { result ≡ place_of first.now second.now }
                ensures range { result ≤ max 1 (length first.now) }
            { find(first, second) },
        )?;
        add(&mut table, 17, own_written(17), body)?;
        let body: Body = Box::new(
            alloc,
            |_numbers: [u64; 5], first: &[u8], _second: &[u8]| -> u64
                ensures { result ≡ spelled first.now }
            { decimal(first) },
        )?;
        add(&mut table, 18, own_written(18), body)?;
        let body: Body = Box::new(
            alloc,
            |_numbers: [u64; 5], first: &[u8], _second: &[u8]| -> u64
                ensures value { result ≡ newest_of first.now }
                ensures range { result ≤ 64 }
            { newest(first) },
        )?;
        add(&mut table, 19, own_written(19), body)?;
        let body: Body = Box::new(
            alloc,
            |numbers: [u64; 5], _first: &[u8], _second: &[u8]| -> u64
                ensures value { result ≡ slice_index numbers 0 % 8 }
                ensures range { result ≤ 7 }
            { numbers[0] % 8 },
        )?;
        add(&mut table, 64, one_number((0, 7)), body)?;
        let body: Body = Box::new(
            alloc,
            |numbers: [u64; 5], _first: &[u8], _second: &[u8]| -> u64
                ensures value { result ≡ slice_index numbers 0 % 9 }
                ensures range { result ≤ 8 }
            { numbers[0] % 9 },
        )?;
        add(&mut table, 65, one_number((0, 8)), body)?;
        own.keep(table)?;
    }
    let tables = own.split();
    Ok(command(alloc, tables, words, files, server, streams))
}

/// How many tables what the words ask for takes: one for each worker that serves, else one.
fn tables_for(words: &[&str]) -> u32
    ensures some { 1 ≤ result }
    ensures few { result ≤ 16 }
{
    match parse(words) {
        Some(Request::Serve { workers, .. } | Request::Keep { workers, .. }) => {
            workers.max(1).min(MOST_WORKERS)
        }
        _ => 1,
    }
}

/// The Sig of a helper that reads one number of any size.
fn one_number(range: (u64, u64)) -> Sig
    requires { range.0 ≤ range.1 }
    ensures { shape_of result ≡ record { args = one_number; lo = range.0; hi = range.1 } }
{
    let any = ArgRule::Num {
        lo: 0,
        hi: u64::MAX,
    };
    let unused = ArgRule::Unused;
    match Sig::new([any, unused, unused, unused, unused], range) {
        Some(sig) => sig,
        None => unreachable!(),
    }
}
