//! Which registers and cells a rule looks at.

ghost use Rattle.std.specs.Prelude.{◌≡◌, ◌≤◌, ◌+◌, ◌^◌, ◌++◌, ◌∷◌, [], OnOk, length};
ghost use Rattle.bpf_helpers.specs.Calls.{used_of, arguments_with};
ghost use Rattle.bpf_semantics.specs.State.{operand_reads};
ghost use Rattle.bpf_verifier.specs.CallKinds.{callee_from, first_kind};
ghost use Rattle.bpf_verifier.specs.Rules.{reads_by};
ghost use Rattle.bpf_verifier.specs.Table.{AreKinds};
ghost use Rattle.bpf_explain.specs.Looks.{is_among, touches, own_touches, helper_touches, call_touches, reads_cell, looks_at_register, looks_at_cell, looks_at, place_at, facts_from, looks_at_pair, window_of, most_from, told_by, pair_among, pairs_among};
ghost use Rattle.bpf_ranges.specs.Kinds.{origin};

use crate::fact::{Fact, Place};
use crate::together::{Most, Together};
use bpf_alu::Op;
use bpf_helpers::{ARGUMENT_REGISTERS, ArgRule};
use bpf_insn::{Insn, Operand, Register};
use bpf_ranges::Kind;
use bpf_semantics::{MAX_WINDOW_BYTES, Region};
use bpf_verifier::{Called, KindRule, Pair, Pairs, Span, is_touched, kind_of, span_given, span_of};
use std::alloc::AllocError;

/// What a rule looks at: an instruction, what it calls, and the row of kinds that reaches it.
#[derive(Clone, Copy)]
pub(crate) struct Look<'a> {
    pub rule: KindRule,
    pub callee: &'a Called,
    pub row: &'a [Kind],
    pub insn: Insn,
}

/// Whether an operand is the register of a number.
fn is_operand(number: usize, operand: Operand) -> bool
    ensures { result ≡ is_among number (operand_reads operand) }
{
    match operand {
        Operand::Register(register) => usize::from(register.number()) == number,
        Operand::Immediate(_) => false,
    }
}

/// Whether a register has a number.
fn has_number(number: usize, register: Register) -> bool
    ensures { result ≡ is_among number (register ∷ []) }
{
    usize::from(register.number()) == number
}

/// Whether the register of a number holds an argument that is read.
fn is_used(number: usize, rules: &[ArgRule], registers: &[Register]) -> bool
    ensures { result ≡ is_among number (used_of rules.now registers.now) }
{
    match rules {
        [] => false,
        [rule, rules @ ..] => match registers {
            [] => false,
            [register, registers @ ..] => {
                let is_it = *rule != ArgRule::Unused && has_number(number, *register);
                is_it || is_used(number, rules, registers)
            }
        },
    }
}

/// Whether the register of a number is an argument of a call.
fn is_argument(number: usize, callee: &Called) -> bool
    ensures { result ≡ is_among number (arguments_with (callee_from callee.now)) }
{
    match callee {
        Called::Copy | Called::Fill | Called::Same => {
            has_number(number, Register::R1)
                || has_number(number, Register::R2)
                || has_number(number, Register::R3)
        }
        Called::Helper(sig) => is_used(number, &sig.args, &ARGUMENT_REGISTERS),
        Called::Unknown => false,
    }
}

/// Whether an instruction reads the register of a number.
fn reads_register(number: usize, callee: &Called, insn: Insn) -> bool
    ensures { result ≡ is_among number (reads_by (callee_from callee.now) insn) }
{
    match insn {
        Insn::Alu {
            op: Op::Mov | Op::Movsx8 | Op::Movsx16 | Op::Movsx32,
            src,
            ..
        } => is_operand(number, src),
        Insn::Alu { dst, src, .. } => has_number(number, dst) || is_operand(number, src),
        Insn::Swap { dst, .. } => has_number(number, dst),
        Insn::Load { base, .. } => has_number(number, base),
        Insn::Store { base, src, .. } => has_number(number, base) || is_operand(number, src),
        Insn::JumpIf { left, right, .. } => has_number(number, left) || is_operand(number, right),
        Insn::Exit => has_number(number, Register::R0),
        Insn::Call { .. } => is_argument(number, callee),
        Insn::Jump { .. } | Insn::Wide { .. } | Insn::Tail => false,
    }
}

/// Whether a rule looks at the register of a number: the frame pointer where it is written, else those that the instruction reads.
fn looks_at_register(look: Look, number: usize) -> bool
    ensures { result ≡ looks_at_register look.entry.rule (callee_from look.entry.callee.now) look.entry.insn number }
{
    match look.rule {
        KindRule::FrameWritten => number == 10,
        _ => reads_register(number, look.callee, look.insn),
    }
}

/// Whether the cell that begins at a place has a byte of a span.
fn touches(span: Option<Span>, place: u32) -> bool
    requires { place ≤ 2 ^ 20 }
    ensures { result ≡ touches span place }
{
    match span {
        Some(span) => is_touched(span, place),
        None => false,
    }
}

/// Whether a call of the machine's own may read the cell at a place through an address.
fn own_touches(row: &[Kind], address: Register, place: u32) -> bool
    requires near { place ≤ 2 ^ 20 }
    requires kinds { AreKinds row.now }
    ensures { result ≡ own_touches row.now address place }
{
    let len = kind_of(row, Register::R3);
    touches(
        span_given(MAX_WINDOW_BYTES, kind_of(row, address), len),
        place,
    )
}

/// The first kind of some.
fn first_kind(kinds: &[Kind]) -> Kind
    ensures { result ≡ first_kind kinds.now }
{
    match kinds {
        [] => Kind::Unset,
        [kind, ..] => *kind,
    }
}

/// Whether a helper may read the cell at a place, by the kinds of its arguments.
fn helper_touches(rules: &[ArgRule], kinds: &[Kind], place: u32) -> bool
    requires near { place ≤ 2 ^ 20 }
    requires kinds { AreKinds kinds.now }
    ensures { result ≡ helper_touches rules.now kinds.now place }
{
    match rules {
        [] => false,
        [ArgRule::Read { max }, rules @ ..] => match kinds {
            [] => false,
            [kind, kinds @ ..] => {
                touches(span_given(*max, *kind, first_kind(kinds)), place)
                    || helper_touches(rules, kinds, place)
            }
        },
        [_, rules @ ..] => match kinds {
            [] => false,
            [_, kinds @ ..] => helper_touches(rules, kinds, place),
        },
    }
}

/// Whether a call may read the cell at a place.
fn call_touches(callee: &Called, row: &[Kind], place: u32) -> bool
    requires near { place ≤ 2 ^ 20 }
    requires long { 11 ≤ length row.now }
    requires kinds { AreKinds row.now }
    ensures { result ≡ call_touches (callee_from callee.now) row.now place }
{
    match callee {
        Called::Copy => own_touches(row, Register::R2, place),
        Called::Same => {
            own_touches(row, Register::R1, place) || own_touches(row, Register::R2, place)
        }
        Called::Helper(sig) => helper_touches(&sig.args, &row[1..6], place),
        Called::Fill | Called::Unknown => false,
    }
}

/// Whether an instruction may read the cell at a place.
fn reads_cell(callee: &Called, row: &[Kind], insn: Insn, place: u32) -> bool
    requires near { place ≤ 2 ^ 20 }
    requires long { 11 ≤ length row.now }
    requires kinds { AreKinds row.now }
    ensures { result ≡ reads_cell (callee_from callee.now) row.now insn place }
{
    match insn {
        Insn::Load {
            size,
            base,
            offset,
            ..
        } => touches(
            span_of(kind_of(row, base), offset, size.bytes() as u32),
            place,
        ),
        Insn::Call { .. } => call_touches(callee, row, place),
        _ => false,
    }
}

/// Whether a rule looks at the cell that begins at a place: that on reads of the stack at those that may be read.
fn looks_at_cell(look: Look, place: u32) -> bool
    requires near { place ≤ 2 ^ 20 }
    requires long { 11 ≤ length look.row.now }
    requires kinds { AreKinds look.row.now }
    ensures { result ≡ looks_at_cell look.entry.rule (callee_from look.entry.callee.now) look.entry.row.now look.entry.insn place }
{
    match look.rule {
        KindRule::StackRead => reads_cell(look.callee, look.row, look.insn, place),
        _ => false,
    }
}

/// The place of which a row has the kind there.
fn place_at(at: usize) -> Place
    requires { at ≤ 75 }
    ensures { result ≡ place_at at }
{
    if at < 11 {
        Place::Register(at as u32)
    } else {
        Place::Cell((at - 11) as u32)
    }
}

/// Whether a rule looks at what a row has the kind of there.
fn looks_at(look: Look, at: usize) -> bool
    requires few { at ≤ 75 }
    requires long { 11 ≤ length look.row.now }
    requires kinds { AreKinds look.row.now }
    ensures { result ≡ looks_at look.entry.rule (callee_from look.entry.callee.now) look.entry.row.now look.entry.insn at }
{
    if at < 11 {
        looks_at_register(look, at)
    } else {
        looks_at_cell(look, 8 * (at - 11) as u32)
    }
}

/// Adds what is known of the places that a rule looks at, of those from one on.
fn add_facts(look: Look, at: usize, kinds: &[Kind], facts: &mut Vec<Fact>) -> Result<(), AllocError>
    requires few { at + length kinds.now ≤ 75 }
    requires long { 11 ≤ length look.row.now }
    requires kinds { AreKinds look.row.now }
    ensures { OnOk result (facts.new.items ≡ facts.old.items ++ facts_from look.entry.rule (callee_from look.entry.callee.now) look.entry.row.now look.entry.insn at kinds.now) }
{
    match kinds {
        [] => Ok(()),
        [kind, kinds @ ..] => {
            if looks_at(look, at) {
                facts.push(Fact {
                    place: place_at(at),
                    kind: *kind,
                })?;
            }
            add_facts(look, at + 1, kinds, facts)
        }
    }
}

/// What is known of the registers and cells that a rule looks at: registers first, each by its number.
pub(crate) fn facts_of(look: Look, facts: &mut Vec<Fact>) -> Result<(), AllocError>
    requires long { 11 ≤ length look.row.now }
    requires short { length look.row.now ≤ 75 }
    requires kinds { AreKinds look.row.now }
    ensures { OnOk result (facts.new.items ≡ facts.old.items ++ facts_from look.entry.rule (callee_from look.entry.callee.now) look.entry.row.now look.entry.insn 0 look.entry.row.now) }
{
    add_facts(look, 0, look.row, facts)
}

/// Whether a rule looks at both registers of a pair.
fn looks_at_pair(look: Look, pair: Pair) -> bool
    ensures { result ≡ looks_at_pair look.entry.rule (callee_from look.entry.callee.now) look.entry.insn pair }
{
    looks_at_register(look, usize::from(pair.left.number()))
        && looks_at_register(look, usize::from(pair.right.number()))
}

/// The window that a register points into, if it is known to.
fn window_of(kind: Kind) -> Option<Region>
    ensures { result ≡ window_of kind }
{
    match kind {
        Kind::Ptr { region, .. } => Some(region),
        Kind::Unset | Kind::Dead | Kind::Num(_) | Kind::Halves { .. } => None,
    }
}

/// The address that offsets into a window count from: the stack's end, or else the window's first byte.
fn origin(region: Region) -> u64
    ensures { result ≡ origin region }
{
    match region {
        Region::Stack => region.base() + 512,
        Region::Input | Region::Output => region.base(),
    }
}

/// The greatest sum of two registers, of which one may point into a window.
fn most_from(region: Option<Region>, most: u64) -> Most
    ensures { result ≡ most_from region most }
{
    match region {
        Some(region) => Most::Address {
            region,
            offset: i128::from(most) - i128::from(origin(region)),
        },
        None => Most::Number(most),
    }
}

/// What a pair tells, by the kinds of its registers.
fn told_by(row: &[Kind], pair: Pair) -> Together
    requires { 11 ≤ length row.now }
    ensures { result ≡ told_by row.now pair }
{
    let left = window_of(kind_of(row, pair.left));
    let right = window_of(kind_of(row, pair.right));
    Together {
        left: pair.left,
        right: pair.right,
        most: most_from(left.or(right), pair.most),
    }
}

/// Adds what a pair tells, if there is one and a rule looks at both of its registers.
fn add_pair(look: Look, pair: Option<Pair>, together: &mut Vec<Together>) -> Result<(), AllocError>
    requires { 11 ≤ length look.row.now }
    ensures { OnOk result (together.new.items ≡ together.old.items ++ pair_among look.entry.rule (callee_from look.entry.callee.now) look.entry.row.now look.entry.insn pair) }
{
    if let Some(pair) = pair {
        if looks_at_pair(look, pair) {
            together.push(told_by(look.row, pair))?;
        }
    }
    Ok(())
}

/// What is known of two registers together that a rule looks at: the pair that came last is the first.
pub(crate) fn together_of(
    look: Look,
    known: Pairs,
    together: &mut Vec<Together>,
) -> Result<(), AllocError>
    requires { 11 ≤ length look.row.now }
    ensures { OnOk result (together.new.items ≡ together.old.items ++ pairs_among look.entry.rule (callee_from look.entry.callee.now) look.entry.row.now look.entry.insn known) }
{
    add_pair(look, known.first, together)?;
    add_pair(look, known.second, together)?;
    add_pair(look, known.third, together)?;
    add_pair(look, known.fourth, together)
}
