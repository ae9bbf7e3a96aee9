//! The command `run IMAGE INPUT`.
ghost use Rattle.std.specs.Prelude.{◌≤◌, length, IfOk, List, ℕ, string_bytes, ◌≡◌, replicate};
ghost use Rattle.hex.specs.Hex.{encode_lower};
ghost use Rattle.bpf_semantics.specs.Step.{IsInput, instruction_count};
ghost use Rattle.bpf_helpers.specs.Calls.{calls_of};
ghost use Rattle.bpf_helpers.specs.Entries.{AgreesWith};
ghost use Rattle.bpf_interpreter.specs.Running.{EndsWith};
ghost use Rattle.commands.specs.Command.{Ran};
ghost use Rattle.commands.specs.Outcome.{up_to_last_set};
ghost use Rattle.commands.specs.Run.{ComesTo, IsRunOf};

use crate::failure::Failure;
use crate::files::{Files, read_program};
use crate::outcome::{Outcome, up_to_last_set};
use bpf_admission::admit_program;
use bpf_helpers::Table;
use bpf_interpreter::{Done, padded, run as run_verified};
use bpf_semantics::MAX_WINDOW_BYTES;
use bpf_verifier::Verified;
use std::alloc::{AllocError, Global};
use std::io::Write;

/// At most how many bytes of an input are read: those of the longest window, and one that has no room there.
const MOST_INPUT_BYTES: usize = MAX_WINDOW_BYTES as usize + 1;

/// Runs the program in the file `image` on the bytes of the file `input`, tells on `out` what it came to, and gives the status.
pub fn run<F: Files, O: Write>(
    alloc: Global,
    table: &Table,
    image: &str,
    input: &str,
    files: &F,
    out: &mut O,
) -> Result<u8, Failure>
    ensures { IfOk result (Ran table.now.listed (F.held files.now image.now) (F.held files.now input.now) (O.contents out.old) (O.contents out.new)) }
{
    let image = read_program(files, alloc, image)?;
    let input = files.read_part(alloc, input, MOST_INPUT_BYTES)?.bytes;
    let outcome = outcome_of(alloc, table, &image, &input);
    write!(out, "{outcome}")?;
    Ok(outcome.status())
}

/// What the program of these bytes comes to on an input.
pub fn outcome_of(alloc: Global, table: &Table, image: &[u8], input: &[u8]) -> Outcome
    ensures { ComesTo table.now.listed image.now input.now result }
{
    let verified = match admit_program(alloc, image, &table.listed) {
        Ok(verified) => verified,
        Err(refusal) => return Outcome::Refused(refusal),
    };
    if input.len() > verified.image().in_len as usize {
        return Outcome::RefusedInput;
    }
    match ended(alloc, table, &verified, input) {
        Ok(
            End {
                done: Done { answer, steps },
                output,
            },
        ) => Outcome::Exit {
            answer,
            steps,
            output,
        },
        Err(AllocError) => Outcome::NoMemory,
    }
}

/// How a run ended, and the text of its output.
#[derive(Drop)]
struct End {
    done: Done,
    output: String,
}

/// Runs a program on a window, as [`bpf_interpreter::run`] does: what this command tells rests on the Sigs of helpers alone.
fn run_window(
    verified: &Verified,
    table: &Table,
    window: &[u8],
    used: u32,
    output: &mut [u8],
) -> Done
    requires agrees { AgreesWith table.now.listed verified.now.sigs }
    requires input { IsInput verified.now.in_len window.now used }
    requires output { output.old ≡ replicate verified.now.out_len 0 }
    ensures run { EndsWith (calls_of verified.now.sigs) verified.now.code window.now used verified.now.out_len result.steps result.answer output.new }
    ensures short { result.steps ≤ instruction_count verified.now.code }
{
    run_verified(verified, table, window, used, output)
}

/// Runs a program on an input that has room in its window.
fn ended(alloc: Global, table: &Table, verified: &Verified, input: &[u8]) -> Result<End, AllocError>
    requires agrees { AgreesWith table.now.listed verified.now.sigs }
    requires fits { length input.now ≤ verified.now.in_len }
    ensures { IfOk result (λ end. (bytes : List ℕ) × IsRunOf verified.now input.now end.done.answer end.done.steps bytes × (string_bytes end.output ≡ encode_lower (up_to_last_set bytes))) }
{
    let image = verified.image();
    let window = padded(alloc, input, image.in_len as usize)?;
    let mut output = vec![in alloc; 0u8; image.out_len as usize]?;
    let done = run_window(verified, table, &window, input.len() as u32, &mut output);
    let output = hex::encode(alloc, up_to_last_set(&output))?;
    Ok(End { done, output })
}
