//! What hooks decided, as text.

ghost use Rattle.std.specs.Prelude.{◌≡◌, ◌++◌, OnOk, Err, string_bytes};
ghost use Rattle.hook_abi.specs.Verdicts.{meaning_of};
ghost use Rattle.script_replies.specs.Texts.{written_text, verdict_text, decision_text, IsTold};

use crate::number::bad_answer_number;
use hook_abi::Verdict;
use hook_run::RunFault;
use std::alloc::{AllocError, Global};

/// Adds the line of a verdict. Fails for want of memory alone: the text then ends with a front of the line, or as before.
pub fn print_verdict(
    alloc: Global,
    verdict: &Verdict<'_>,
    text: &mut String,
) -> Result<(), AllocError>
    ensures { OnOk result (string_bytes text.new ≡ string_bytes text.old ++ verdict_text (meaning_of verdict.now)) }
{
    match verdict {
        Verdict::Pass => text.push_str("pass\n"),
        Verdict::Write(bytes) => print_write(alloc, bytes, text),
        Verdict::Reject(code) => writeln!(text, "reject {code}"),
        Verdict::Keep => text.push_str("keep\n"),
        Verdict::Delete => text.push_str("delete\n"),
        Verdict::Take(place) => writeln!(text, "take {place}"),
    }
}

/// Adds the line that tells why a hook decided nothing. Fails for want of memory, which the run's may be: the text then ends with a front
/// of the line, or as before.
pub fn print_run_fault(fault: RunFault, text: &mut String) -> Result<(), AllocError>
    ensures told { OnOk result (IsTold (Err fault)) }
    ensures text { OnOk result (string_bytes text.new ≡ string_bytes text.old ++ decision_text (Err fault)) }
{
    match fault {
        RunFault::Disagrees => text.push_str("X4\n"),
        RunFault::TooLarge => text.push_str("large\n"),
        RunFault::Bad(bad) => {
            let number = bad_answer_number(bad);
            writeln!(text, "bad {number}")
        }
        RunFault::NoMemory => Err(AllocError),
    }
}

// Adds the line of a value that is to be written.
pub(crate) fn print_write(alloc: Global, bytes: &[u8], text: &mut String) -> Result<(), AllocError>
    ensures { OnOk result (string_bytes text.new ≡ string_bytes text.old ++ written_text bytes.now) }
{
    let digits = hex::encode(alloc, bytes)?;
    writeln!(text, "write {digits}")
}
