//! Programs run as verified code, and driven step by step.

ghost use Rattle.std.specs.Prelude.{◌≤◌, length};
ghost use Rattle.bpf_helpers.specs.Entries.{AgreesWith};

use crate::asking::ask;
use audit_faults::Followed;
use bpf_admission::admit_program;
use bpf_helpers::Table;
use bpf_interpreter::{State, Stop, drive, padded, run};
use bpf_semantics::Windows;
use bpf_verifier::Verified;
use commands::files::Files;
use commands::server::{Post, ServesOnly, Serving, Unserved};
use std::alloc::{AllocError, Global};
use std::io;
use std::io::Write;

/// At most how many steps a program takes: it has no more slots, and runs none of them twice.
const FUEL: u64 = 4096;

/// How many programs came to the same by `run` and by `drive`: answer, steps and output. Those that aren't let in, or whose input has no
/// room, don't count.
#[derive(Clone, Copy)]
pub struct Counts {
    pub alike: u32,
    pub apart: u32,
}

impl Counts {
    /// No program yet.
    pub const NONE: Counts = Counts { alike: 0, apart: 0 };

    /// Counts a program, over the helpers that dvvstore has. It and its input are files of these names.
    pub fn count<F: Files>(
        &mut self,
        alloc: Global,
        files: &mut F,
        program: &str,
        input: &str,
    ) -> io::Result<()> {
        let program = files.read(alloc, program)?;
        let input = files.read(alloc, input)?;
        self.count_bytes(alloc, files, &program, &input)
    }

    fn count_bytes<F: Files>(
        &mut self,
        alloc: Global,
        files: &mut F,
        program: &[u8],
        input: &[u8],
    ) -> io::Result<()> {
        let mut both = ServesOnly(Both {
            program,
            input,
            is_alike: None,
        });
        let words = ["serve", "memory", "1", "1"];
        ask(alloc, &words, files, &mut both)?;
        match both.0.is_alike {
            Some(true) => self.alike = self.alike.saturating_add(1),
            Some(false) => self.apart = self.apart.saturating_add(1),
            None => {}
        }
        Ok(())
    }
}

/// Lends a program the table of helpers of a server, and serves nothing.
#[derive(Drop)]
struct Both<'a> {
    program: &'a [u8],
    input: &'a [u8],
    /// Whether it came to the same both ways; nothing where it isn't run.
    is_alike: Option<bool>,
}

impl Serving for Both<'_> {
    fn serve<O: Write>(
        &mut self,
        alloc: Global,
        table: Table,
        _more: Vec<Table>,
        _post: &Post<'_>,
        _out: &mut O,
    ) -> Result<Followed, Unserved> {
        match is_alike(alloc, &table, self.program, self.input) {
            Ok(is_alike) => {
                self.is_alike = is_alike;
                Err(Unserved::Unreadable)
            }
            Err(AllocError) => Err(Unserved::NoMemory),
        }
    }
}

/// Whether a program comes to the same both ways, where it is let in and its input has room.
fn is_alike(
    alloc: Global,
    table: &Table,
    program: &[u8],
    input: &[u8],
) -> Result<Option<bool>, AllocError> {
    match admit_program(alloc, program, &table.listed) {
        Ok(verified)
            if table.agrees(verified.sigs()) && input.len() <= verified.image().in_len as usize => {
            runs_as_driven(alloc, table, &verified, input).map(Some)
        }
        _ => Ok(None),
    }
}

/// Whether a run of a program gives the answer, the steps and the output of its drive from the start.
fn runs_as_driven(
    alloc: Global,
    table: &Table,
    verified: &Verified,
    input: &[u8],
) -> Result<bool, AllocError>
    requires agrees { AgreesWith table.now.listed verified.now.sigs }
    requires fits { length input.now ≤ verified.now.in_len }
{
    let image = verified.image();
    let window = padded(alloc, input, image.in_len as usize)?;
    let mut output = vec![in alloc; 0u8; image.out_len as usize]?;
    let mut driven = vec![in alloc; 0u8; image.out_len as usize]?;
    let used = input.len() as u32;
    let done = run(verified, table, &window, used, &mut output);
    let windows = Windows {
        stack: [0; 512],
        input: &window,
        output: &mut driven,
    };
    let stop = drive(&mut State::start(windows, used), &image.code, FUEL, table);
    let exit = Stop::Exit {
        answer: done.answer,
        steps: u64::from(done.steps),
    };
    Ok(stop == exit && output.as_slice() == driven.as_slice())
}
