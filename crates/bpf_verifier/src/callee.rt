//! What calls call, and what is known of them.

ghost use Rattle.std.specs.Prelude.{◌≡◌, ◌≤◌, length};
ghost use Rattle.bpf_helpers.specs.Calls.{callee_of, arguments_with, used_of};
ghost use Rattle.bpf_ranges.specs.Kinds.{IsKind};
ghost use Rattle.bpf_verifier.specs.Candidates.{program_in};
ghost use Rattle.bpf_verifier.specs.Registers.{any_unset};
ghost use Rattle.bpf_verifier.specs.CallKinds.{callee_from, ends_inside, reaches, is_within, is_argument, are_arguments, is_read, is_written, is_given, first_kind, first_end, later_ends};
ghost use Rattle.bpf_verifier.specs.Answered.{answer_kind, row_after_call};
ghost use Rattle.bpf_verifier.specs.Rules.{callee_in};
ghost use Rattle.bpf_verifier.specs.Table.{AreKinds};

use crate::candidate::Candidate;
use crate::cells::write_by_call;
use crate::kinds::{kind_of, set_kind};
use crate::pair::Pairs;
use crate::pairs::{argument_ends, most_together};
use crate::windows::is_inside;
use bpf_helpers::{ARGUMENT_REGISTERS, ArgRule, Sig, Sigs};
use bpf_insn::{Insn, Register};
use bpf_ranges::{Kind, Profile, Range, kind_in};
use bpf_semantics::{MAX_WINDOW_BYTES, Region};

/// What a call's number stands for.
#[derive(Clone, Copy)]
pub enum Called {
    /// 1: copies bytes.
    Copy,
    /// 2: fills bytes.
    Fill,
    /// 3: compares bytes.
    Same,
    /// A helper, by its Sig.
    Helper(Sig),
    /// Nothing.
    Unknown,
}

/// What a number stands for.
fn callee_of(sigs: &Sigs, helper: u32) -> Called
    ensures { callee_from result ≡ callee_of sigs.now helper }
{
    match helper {
        1 => Called::Copy,
        2 => Called::Fill,
        3 => Called::Same,
        _ => match sigs.sig(helper) {
            Some(sig) => Called::Helper(sig),
            None => Called::Unknown,
        },
    }
}

/// What an instruction calls: nothing, unless it is a call.
pub fn callee_in(sigs: &Sigs, insn: Insn) -> Called
    ensures { callee_from result ≡ callee_in sigs.now insn }
{
    match insn {
        Insn::Call { helper } => callee_of(sigs, helper),
        _ => Called::Unknown,
    }
}

/// Whether a register that these rules use is not known to be set.
fn is_used_unset(row: &[Kind], rules: &[ArgRule], registers: &[Register]) -> bool
    ensures { result ≡ any_unset row.now (used_of rules.now registers.now) }
{
    match rules {
        [] => false,
        [rule, rules @ ..] => match registers {
            [] => false,
            [register, registers @ ..] => {
                let unset = *rule != ArgRule::Unused && kind_of(row, *register) == Kind::Unset;
                unset || is_used_unset(row, rules, registers)
            }
        },
    }
}

/// Whether a register that a call reads is not known to be set.
pub fn is_argument_unset(row: &[Kind], callee: &Called) -> bool
    ensures { result ≡ any_unset row.now (arguments_with (callee_from callee.now)) }
{
    match callee {
        Called::Copy | Called::Fill | Called::Same => {
            kind_of(row, Register::R1) == Kind::Unset
                || kind_of(row, Register::R2) == Kind::Unset
                || kind_of(row, Register::R3) == Kind::Unset
        }
        Called::Helper(sig) => is_used_unset(row, &sig.args, &ARGUMENT_REGISTERS),
        Called::Unknown => false,
    }
}

/// Whether all bytes of the input or the output from a pointer on, up to an address that is known, lie in its window.
fn ends_inside(program: &Candidate, address: Kind, end: Option<u64>) -> bool
    ensures { result ≡ ends_inside (program_in program.now) address end }
{
    let (Kind::Ptr { region, lo, .. }, Some(end)) = (address, end) else {
        return false;
    };
    match region {
        Region::Stack => false,
        Region::Input => 0 <= lo && end <= region.base() + u64::from(program.image.in_len),
        Region::Output => 0 <= lo && end <= region.base() + u64::from(program.image.out_len),
    }
}

/// Whether a pointer, and a length up to a limit, name bytes of one window. Both are at most the end together, if it is known.
fn reaches(program: &Candidate, limit: u32, address: Kind, len: Kind, end: Option<u64>) -> bool
    requires { IsKind address }
    ensures { result ≡ reaches (program_in program.now) limit address len end }
{
    match (address, len) {
        (Kind::Dead, _) | (_, Kind::Dead) => true,
        (_, Kind::Num(n)) if n.range.hi <= u64::from(limit) => {
            is_inside(program, address, 0, n.range.hi as u32) || ends_inside(program, address, end)
        }
        _ => false,
    }
}

/// Whether a kind is known to lie in a range.
fn is_within(lo: u64, hi: u64, kind: Kind) -> bool
    ensures { result ≡ is_within lo hi kind }
{
    match kind {
        Kind::Num(n) => lo <= n.range.lo && n.range.hi <= hi,
        Kind::Dead => true,
        _ => false,
    }
}

/// Whether an argument is as its rule says; a Read needs the kind of the next one, its length, and what both are at most together.
fn is_argument(program: &Candidate, rule: ArgRule, kind: Kind, next: Kind, end: Option<u64>) -> bool
    requires { IsKind kind }
    ensures { result ≡ is_argument (program_in program.now) rule kind next end }
{
    match rule {
        ArgRule::Unused | ArgRule::Len => true,
        ArgRule::Num { lo, hi } => is_within(lo, hi, kind),
        ArgRule::Read { max } => reaches(program, max, kind, next, end),
    }
}

/// The first kind of some.
pub fn first_kind(kinds: &[Kind]) -> Kind
    ensures { result ≡ first_kind kinds.now }
{
    match kinds {
        [] => Kind::Unset,
        [kind, ..] => *kind,
    }
}

/// The first end of some.
fn first_end(ends: &[Option<u64>]) -> Option<u64>
    ensures { result ≡ first_end ends.now }
{
    match ends {
        [] => None,
        [end, ..] => *end,
    }
}

/// The ends behind the first.
fn later_ends(ends: &[Option<u64>]) -> &[Option<u64>]
    ensures { result.now ≡ later_ends ends.now }
{
    match ends {
        [] => ends,
        [_, later @ ..] => later,
    }
}

/// Whether the arguments are as their rules say.
fn are_arguments(
    program: &Candidate,
    rules: &[ArgRule],
    kinds: &[Kind],
    ends: &[Option<u64>],
) -> bool
    requires { AreKinds kinds.now }
    ensures { result ≡ are_arguments (program_in program.now) rules.now kinds.now ends.now }
{
    match rules {
        [] => true,
        [rule, rules @ ..] => match kinds {
            [] => false,
            [kind, kinds @ ..] => {
                is_argument(program, *rule, *kind, first_kind(kinds), first_end(ends))
                    && are_arguments(program, rules, kinds, later_ends(ends))
            }
        },
    }
}

/// Whether a call of the machine's own may read from there.
fn is_read(program: &Candidate, pairs: Pairs, row: &[Kind], address: Register) -> bool
    requires { AreKinds row.now }
    ensures { result ≡ is_read (program_in program.now) pairs row.now address }
{
    let end = most_together(pairs, address, Register::R3);
    let len = kind_of(row, Register::R3);
    reaches(program, MAX_WINDOW_BYTES, kind_of(row, address), len, end)
}

/// Whether a call of the machine's own may write there.
fn is_written(program: &Candidate, pairs: Pairs, row: &[Kind], address: Register) -> bool
    requires { AreKinds row.now }
    ensures { result ≡ is_written (program_in program.now) pairs row.now address }
{
    let is_input = matches!(
        kind_of(row, address),
        Kind::Ptr {
            region: Region::Input,
            ..
        }
    );
    is_read(program, pairs, row, address) && !is_input
}

/// Whether a call fits, whatever the registers hold.
pub fn is_given(program: &Candidate, callee: &Called, pairs: Pairs, row: &[Kind]) -> bool
    requires long { 11 ≤ length row.now }
    requires kinds { AreKinds row.now }
    ensures { result ≡ is_given (program_in program.now) (callee_from callee.now) pairs row.now }
{
    match callee {
        Called::Copy => {
            is_written(program, pairs, row, Register::R1)
                && is_read(program, pairs, row, Register::R2)
        }
        Called::Fill => {
            is_written(program, pairs, row, Register::R1)
                && matches!(kind_of(row, Register::R2), Kind::Num(_) | Kind::Dead)
        }
        Called::Same => {
            is_read(program, pairs, row, Register::R1) && is_read(program, pairs, row, Register::R2)
        }
        Called::Helper(sig) => {
            are_arguments(program, &sig.args, &row[1..6], &argument_ends(pairs))
        }
        Called::Unknown => false,
    }
}

/// What a call answers.
fn answer_kind(profile: Profile, callee: &Called) -> Kind
    ensures table { result ≡ answer_kind profile (callee_from callee.now) }
    ensures kind { IsKind result }
{
    match callee {
        Called::Copy | Called::Fill => kind_in(profile, Range::single(0)),
        Called::Same => kind_in(profile, Range::up_to(1)),
        Called::Helper(sig) => kind_in(
            profile,
            Range {
                lo: sig.lo,
                hi: sig.hi,
            },
        ),
        Called::Unknown => Kind::Unset,
    }
}

/// Goes over a call.
pub fn leave_call(profile: Profile, callee: &Called, row: &mut [Kind])
    requires long { 11 ≤ length row.old }
    requires short { length row.old ≤ 75 }
    requires kinds { AreKinds row.old }
    ensures table { row.new ≡ row_after_call profile (callee_from callee.now) row.old }
    ensures kinds { AreKinds row.new }
{
    write_by_call(profile, callee, row);
    set_kind(row, Register::R0, answer_kind(profile, callee));
    set_kind(row, Register::R1, Kind::Unset);
    set_kind(row, Register::R2, Kind::Unset);
    set_kind(row, Register::R3, Kind::Unset);
    set_kind(row, Register::R4, Kind::Unset);
    set_kind(row, Register::R5, Kind::Unset);
}
