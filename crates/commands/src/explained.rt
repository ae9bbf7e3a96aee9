//! The command `explain IMAGE`.
ghost use Rattle.std.specs.Prelude.{◌≡◌, ◌++◌, codes, IfOk, OnOk};
ghost use Rattle.std.specs.Io.KnownBytes.{Appends};
ghost use Rattle.bpf_admission.specs.Admissions.{refusal_text};
ghost use Rattle.bpf_explain.specs.Texts.{explanation_text};
ghost use Rattle.commands.specs.Command.{Explained, explanation_status};
ghost use Rattle.commands.specs.Outcome.{line};

use crate::command::REFUSED;
use crate::failure::Failure;
use crate::files::{Files, read_program};
use bpf_admission::Refusal;
use bpf_explain::{Explanation, text_of};
use bpf_helpers::Table;
use std::alloc::Global;
use std::io::Write;

/// The status where a program is accepted.
const ACCEPTED: u8 = 0;

/// The status that goes with an explanation.
fn status_of(explanation: &Explanation) -> u8
    ensures { result ≡ explanation_status explanation.now }
{
    match explanation {
        Explanation::Accepted { .. } => ACCEPTED,
        Explanation::Broken { .. } => REFUSED,
    }
}

/// Tells on `out` why there is no explanation, and gives the status.
fn refuse<O: Write>(refusal: Refusal, out: &mut O) -> Result<u8, Failure>
    ensures told { OnOk result (Appends (O.contents out.old) (O.contents out.new) (line (codes "refused " ++ refusal_text refusal))) }
    ensures status { IfOk result (λ status. status ≡ 1) }
{
    write!(out, "refused {refusal}\n")?;
    Ok(REFUSED)
}

/// Tells on `out` what the verifier says of the program in the file `image`, and what it looked at, and gives the status.
pub fn explain<F: Files, O: Write>(
    alloc: Global,
    table: &Table,
    image: &str,
    files: &F,
    out: &mut O,
) -> Result<u8, Failure>
    ensures { IfOk result (Explained table.now.listed (F.held files.now image.now) (O.contents out.old) (O.contents out.new)) }
{
    let image = read_program(files, alloc, image)?;
    let explanation = match bpf_explain::explain(alloc, &image, &table.listed) {
        Ok(explanation) => explanation,
        Err(refusal) => return refuse(refusal, out),
    };
    let Ok(text) = text_of(alloc, &explanation) else {
        return refuse(Refusal::NoMemory, out);
    };
    write!(out, "{text}")?;
    Ok(status_of(&explanation))
}
