//! The command `sim SCRIPT`.
ghost use Rattle.std.specs.Prelude.{◌≤◌, IfOk};
ghost use Rattle.bpf_helpers.specs.Entries.{AgreesWith};
ghost use Rattle.commands.specs.Command.{SimulatedFile};
ghost use Rattle.commands.specs.Hooks.{IsHookOf};

use crate::failure::Failure;
use crate::files::{Files, read_program};
use crate::streams::Streams;
use bpf_admission::admit_hook;
use bpf_helpers::{Sigs, Table};
use bpf_image::ImageKind;
use bpf_verifier::Verified;
use script_events::{Images, NoHook};
use script_run::sim;
use std::alloc::Global;
use std::io::Write;

/// The images of hooks in files, for a table with these helpers.
#[derive(Drop)]
pub(crate) struct FileImages<'a, F> {
    pub(crate) files: &'a F,
    pub(crate) sigs: &'a Sigs,
    ghost whole: { AgreesWith sigs.now sigs.now },
}

impl<F: Files> Images for FileImages<'_, F> {
    ghost listed = { λ images. images.sigs.now };

    ghost found = { λ images file kind came. IsHookOf (F.held images.files.now file) images.sigs.now kind came };

    fn hook(&self, alloc: Global, file: &str, kind: ImageKind) -> Result<Verified, NoHook> {
        let bytes = read_program(self.files, alloc, file)?;
        match admit_hook(alloc, &bytes, kind, self.sigs) {
            Ok(hook) => Ok(hook),
            Err(refusal) => Err(NoHook::Refused(refusal)),
        }
    }
}

/// Runs the script in the file `script`, whose hooks may call the table's helpers, tells on `out` what its lines print and on `err`
/// why a line is bad, and gives the status.
pub fn simulate<F: Files, O: Write, E: Write>(
    alloc: Global,
    table: &Table,
    script: &str,
    files: &F,
    streams: &mut Streams<O, E>,
) -> Result<u8, Failure>
    ensures status { IfOk result (λ status. status ≤ 2) }
    ensures simulated { IfOk result (SimulatedFile table.now.listed (F.held files.now script.now) (O.contents streams.old.out) (O.contents streams.new.out)) }
{
    let script = files.read(alloc, script)?;
    let images = FileImages {
        files,
        sigs: &table.listed,
    };
    let Streams { out, err } = streams;
    Ok(sim(alloc, &script, table, &images, out, err)?)
}
