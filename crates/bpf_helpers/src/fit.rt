//! Whether a call fits the rules of a Sig.

ghost use Rattle.std.specs.Prelude.{◌≡◌, ◌↔◌, IsTrue};
ghost use Rattle.bpf_helpers.specs.Rules.{reads_of};
ghost use Rattle.bpf_helpers.specs.Answers.{FitsRule, FitsRules, FitsRead, FitsReads, Fits};
ghost use Rattle.bpf_helpers.specs.Parts.{given};

use crate::helper::Call;
use crate::sig::{ArgRule, Sig};

/// Whether a call may be made of a helper with this Sig.
pub fn fits(sig: &Sig, call: &Call) -> bool
    ensures { IsTrue result ↔ Fits sig.now.args (given call.now) }
{
    fit_numbers(&sig.args, &call.numbers) && fit_reads(&sig.args, call.first, call.second)
}

/// Whether a number may stand where the rule is.
fn admits(rule: ArgRule, number: u64) -> bool
    ensures { IsTrue result ↔ FitsRule rule number }
{
    match rule {
        ArgRule::Num { lo, hi } => lo <= number && number <= hi,
        ArgRule::Unused | ArgRule::Read { .. } | ArgRule::Len => number == 0,
    }
}

fn fit_numbers(rules: &[ArgRule], numbers: &[u64]) -> bool
    ensures { IsTrue result ↔ FitsRules rules.now numbers.now }
{
    match rules {
        [] => numbers.is_empty(),
        [rule, rules @ ..] => match numbers {
            [] => false,
            [number, numbers @ ..] => admits(*rule, *number) && fit_numbers(rules, numbers),
        },
    }
}

fn fit_reads(rules: &[ArgRule], first: &[u8], second: &[u8]) -> bool
    ensures { IsTrue result ↔ FitsReads (reads_of rules.now) first.now second.now }
{
    match rules {
        [] => first.is_empty() && second.is_empty(),
        [ArgRule::Read { max }, rest @ ..] => first.len() <= *max as usize
            && fit_read(rest, second),
        [_, rest @ ..] => fit_reads(rest, first, second),
    }
}

fn fit_read(rules: &[ArgRule], bytes: &[u8]) -> bool
    ensures { IsTrue result ↔ FitsRead (reads_of rules.now) bytes.now }
{
    match rules {
        [] => bytes.is_empty(),
        [ArgRule::Read { max }, ..] => bytes.len() <= *max as usize,
        [_, rest @ ..] => fit_read(rest, bytes),
    }
}
