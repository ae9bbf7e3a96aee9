//! The verifier.

ghost use Rattle.std.specs.Prelude.{◌≡◌, ◌<◌, ◌≤◌, ◌+◌, ℕ, IfOk, IfErr, IfSome, IfNone, OnOk, pos, List, Option, Some, None, length, replicate, slice_get, slice_set, vec_len};
ghost use Rattle.bpf_helpers.specs.declared.sig.Entry.{Entry};
ghost use Rattle.bpf_image.specs.Form.{IsFormed};
ghost use Rattle.bpf_semantics.specs.declared.profile.Profile.TheVariants.{Second};
ghost use Rattle.bpf_verifier.specs.Program.{program_of, IsSafeProgram};
ghost use Rattle.bpf_verifier.specs.Candidates.{program_in};
ghost use Rattle.bpf_verifier.specs.Registers.{cell_count, entry};
ghost use Rattle.bpf_verifier.specs.Sums.{sums_at};
ghost use Rattle.bpf_verifier.specs.Naming.{names_in};
ghost use Rattle.bpf_verifier.specs.PairSteps.{pairs_next, pairs_at};
ghost use Rattle.bpf_verifier.specs.Table.{IsAccepted, IsFirstRule, AreKinds, broken_at, table};
ghost use Rattle.bpf_verifier.specs.Rows.{StartsZero, IsKnown, HasKinds, IsPass, row_at};
ghost use Rattle.bpf_verifier.specs.Waiting.{waiting, IsPool};
ghost use Rattle.bpf_verifier.specs.Lowered.{AreSlots};
ghost use Rattle.bpf_verifier.specs.Verdict.{IsRefused};
ghost use Rattle.bpf_verifier.specs.Plain.{IsPlain, IsWellBehaved};

use crate::callee::callee_in;
use crate::candidate::Candidate;
use crate::cells::{lowered, span_written};
use crate::edges::{lead_on, narrowed_edge, take_waiting};
use crate::kinds::one_number;
use crate::meetings::Meetings;
use crate::naming::bounds_here;
use crate::pair::Pairs;
use crate::pairs::{narrow, no_pairs, pairs_over, pairs_told, tell_on};
use crate::rule::{KindRule, Refused, Rule};
use crate::rules::advance;
use crate::slots::lower_slot;
use crate::sums::{Sums, named_slots};
use crate::verified::Verified;
use crate::waiting::Waiting;
use bpf_helpers::Sigs;
use bpf_image::{Image, form_fault};
use bpf_insn::code_is_paired;
use bpf_lowering::{Low, tail};
use bpf_ranges::{Kind, Profile, Range, kind_in, kinds_are_sound};
use bpf_semantics::Region;
use std::alloc::Global;

/// The kind of the address of a window: of its first byte, or of the stack's end.
fn address_of(region: Region) -> Kind
    ensures { result ≡ Kind.Ptr region (pos 0) (pos 0) }
{
    Kind::Ptr {
        region,
        lo: 0,
        hi: 0,
    }
}

/// The kinds before the first slot.
fn entry<const N: usize>(program: &Candidate) -> [Kind; N]
    requires long { N ≡ 11 + cell_count program.now.image.profile }
    ensures table { result ≡ entry (program_in program.now) }
    ensures known { IsKnown program.now.image.profile N result }
{
    let image = &program.image;
    let mut row = [one_number(image.profile, 0); N];
    row[0] = Kind::Unset;
    row[1] = address_of(Region::Input);
    row[2] = kind_in(image.profile, Range::up_to(u64::from(image.in_len)));
    row[3] = address_of(Region::Output);
    row[4] = one_number(image.profile, u64::from(image.out_len));
    row[5] = Kind::Unset;
    row[6] = Kind::Unset;
    row[7] = Kind::Unset;
    row[8] = Kind::Unset;
    row[9] = Kind::Unset;
    row[10] = address_of(Region::Stack);
    row
}

/// Want of memory.
fn no_memory() -> Refused
    ensures { result ≡ record { rule = Rule.NoMemory; slot = 0 } }
{
    Refused {
        rule: Rule::NoMemory,
        slot: 0,
    }
}

/// Tests a slot, by the kinds that reach it, and goes over it: to those that reach the next slot. Its jump's edge is joined into
/// what waits for its target; a row is lent to write this edge's kinds to. The pairs that are known go on to the next slot.
fn visit<const N: usize>(
    program: &Candidate,
    at: usize,
    rows: &mut Waiting<N>,
    here: &mut Option<[Kind; N]>,
    sums: &Sums,
    pairs: &mut Pairs,
    taken: &mut [Kind; N],
) -> Result<(), Refused>
    requires long { 11 ≤ N }
    requires short { N ≤ 75 }
    requires formed { IsFormed program.now.image.code.items }
    requires before { (k : ℕ) → k < at → broken_at (program_in program.now) k ≡ None }
    requires within { at < length program.now.image.code.items }
    requires pass { IsPass (program_in program.now) (waiting rows.old) here.old at }
    requires held { sums.now.held ≡ sums_at program.now.image.code.items at }
    requires names { program.now.image.profile ≡ Second → sums.now.names.here ≡ names_in (program_in program.now) (table (program_in program.now)) at }
    requires pairs { pairs.old ≡ pairs_at (program_in program.now) (table (program_in program.now)) at }
    requires pool { IsPool program.now.image.profile rows.old }
    requires here { HasKinds program.now.image.profile rows.old.low here.old }
    requires taken { StartsZero program.now.image.profile rows.old.low taken.old }
    ensures refused { IfErr result (λ refused. IsRefused (program_in program.now) refused.rule refused.slot) }
    ensures unbroken { IfOk result (λ _. broken_at (program_in program.now) at ≡ None) }
    ensures pass { IfOk result (λ _. IsPass (program_in program.now) (waiting rows.new) here.new (at + 1)) }
    ensures pool { IfOk result (λ _. IsPool program.now.image.profile rows.new) }
    ensures here { IfOk result (λ _. HasKinds program.now.image.profile rows.new.low here.new) }
    ensures taken { IfOk result (λ _. StartsZero program.now.image.profile rows.new.low taken.new) }
    ensures pairs { IfOk result (λ _. pairs.new ≡ pairs_next (program_in program.now) (slice_get program.now.image.code.items at) sums.now.held (slice_get (table (program_in program.now)) at) pairs.old) }
{
    let Some(row) = here else {
        *pairs = no_pairs();
        take_waiting(rows, at + 1, here);
        return Ok(());
    };
    let insn = program.image.code[at];
    let callee = callee_in(&program.sigs, insn);
    let profile = program.image.profile;
    rows.low = lowered(rows.low, span_written(&callee, row, insn));
    let before = *pairs;
    let target = narrowed_edge(
        profile,
        rows.low,
        at,
        row,
        insn,
        &sums.names.here,
        before,
        taken,
    );
    let over = pairs_over(insn, row, before);
    if let Some(rule) = advance(program, &callee, before, row, insn) {
        return Err(Refused {
            rule: Rule::Kinds(rule),
            slot: at as u32,
        });
    }
    tell_on(insn, profile, &sums.held, before, row);
    *pairs = pairs_told(insn, profile, &sums.held, row, over);
    narrow(insn, profile, &sums.names.here, before, row);
    let Ok(on) = lead_on(profile, rows, at, row, insn, target, taken) else {
        return Err(no_memory());
    };
    if !on {
        take_waiting(rows, at + 1, here);
    }
    Ok(())
}

/// The lowered code of a program that breaks no rule over kinds, or else the first rule that a slot breaks.
fn check_rows<const N: usize>(alloc: Global, program: &Candidate) -> Result<Vec<Low>, Refused>
    requires formed { IsFormed program.now.image.code.items }
    requires long { N ≡ 11 + cell_count program.now.image.profile }
    requires some { 11 ≤ N }
    requires short { N ≤ 75 }
    ensures ok { OnOk result (IsAccepted (program_in program.now)) }
    ensures lowered { IfOk result (λ lows. AreSlots (program_in program.now) lows.items (length program.now.image.code.items)) }
    ensures refused { IfErr result (λ refused. IsRefused (program_in program.now) refused.rule refused.slot) }
{
    let slots = program.image.code.len();
    // A row waits for slot i until the pass gets there; none waits past the last.
    let Ok(mut rows) = Waiting::new(alloc, slots + 1) else {
        return Err(no_memory());
    };
    let Ok(mut sums) = Sums::new(alloc, program.image.profile, slots + 1) else {
        return Err(no_memory());
    };
    let Ok(mut meetings) = Meetings::none_yet(alloc, named_slots(program.image.profile, slots + 1))
    else {
        return Err(no_memory());
    };
    let Ok(mut lows) = vec![in alloc; tail(); slots] else {
        return Err(no_memory());
    };
    let first: [Kind; N] = entry(program);
    let mut here = Some(first);
    let mut taken = first;
    let mut pairs = no_pairs();
    for at in 0..slots {
        lows[at] = lower_slot(program, at, &here);
        let known = bounds_here(program, at, &here);
        let mut next = pairs;
        visit(
            program, at, &mut rows, &mut here, &sums, &mut next, &mut taken,
        )?;
        let Ok(()) = sums.advance(program, at, known) else {
            return Err(no_memory());
        };
        let Ok(met) = meetings.go_over(program, at, pairs, next) else {
            return Err(no_memory());
        };
        pairs = met;
    }
    Ok(lows)
}

/// The lowered code of a program that breaks no rule over kinds, by its table, or else the first rule that a slot breaks.
fn check_kinds(alloc: Global, program: &Candidate) -> Result<Vec<Low>, Refused>
    requires { IsFormed program.now.image.code.items }
    ensures ok { OnOk result (IsAccepted (program_in program.now)) }
    ensures lowered { IfOk result (λ lows. AreSlots (program_in program.now) lows.items (length program.now.image.code.items)) }
    ensures refused { IfErr result (λ refused. IsRefused (program_in program.now) refused.rule refused.slot) }
{
    match program.image.profile {
        Profile::First => check_rows::<11>(alloc, program),
        Profile::Second => check_rows::<75>(alloc, program),
    }
}

/// The kinds and the pairs that are known before a slot, or the refusal where a lower one breaks a rule.
fn known_before<const N: usize>(
    alloc: Global,
    program: &Candidate,
    slot: usize,
) -> Result<(Option<[Kind; N]>, Pairs), Refused>
    requires formed { IsFormed program.now.image.code.items }
    requires within { slot < length program.now.image.code.items }
    requires long { N ≡ 11 + cell_count program.now.image.profile }
    requires some { 11 ≤ N }
    requires short { N ≤ 75 }
    ensures row { IfOk result (λ known. row_at (table (program_in program.now)) slot ≡ known.0) }
    ensures kinds { IfOk result (λ known. IfSome known.0 (λ row. AreKinds row)) }
    ensures pairs { IfOk result (λ known. known.1 ≡ pairs_at (program_in program.now) (table (program_in program.now)) slot) }
    ensures refused { IfErr result (λ refused. IsRefused (program_in program.now) refused.rule refused.slot) }
{
    let slots = program.image.code.len();
    let Ok(mut rows) = Waiting::new(alloc, slots + 1) else {
        return Err(no_memory());
    };
    let Ok(mut sums) = Sums::new(alloc, program.image.profile, slots + 1) else {
        return Err(no_memory());
    };
    let Ok(mut meetings) = Meetings::none_yet(alloc, named_slots(program.image.profile, slots + 1))
    else {
        return Err(no_memory());
    };
    let first: [Kind; N] = entry(program);
    let mut here = Some(first);
    let mut taken = first;
    let mut pairs = no_pairs();
    for at in 0..slot {
        let known = bounds_here(program, at, &here);
        let mut next = pairs;
        visit(
            program, at, &mut rows, &mut here, &sums, &mut next, &mut taken,
        )?;
        let Ok(()) = sums.advance(program, at, known) else {
            return Err(no_memory());
        };
        let Ok(met) = meetings.go_over(program, at, pairs, next) else {
            return Err(no_memory());
        };
        pairs = met;
    }
    Ok((here, pairs))
}

/// The kinds before a slot, or the refusal where a lower one breaks a rule.
fn kinds_before<const N: usize>(
    alloc: Global,
    program: &Candidate,
    slot: usize,
) -> Result<Option<Vec<Kind>>, Refused>
    requires formed { IsFormed program.now.image.code.items }
    requires within { slot < length program.now.image.code.items }
    requires long { N ≡ 11 + cell_count program.now.image.profile }
    requires some { 11 ≤ N }
    requires short { N ≤ 75 }
    ensures row { IfOk result (λ row. IfSome row (λ kinds. row_at (table (program_in program.now)) slot ≡ Some kinds.items)) }
    ensures none { IfOk result (λ row. IfNone row (row_at (table (program_in program.now)) slot ≡ None)) }
    ensures long { IfOk result (λ row. IfSome row (λ kinds. length kinds.items ≡ 11 + cell_count program.now.image.profile)) }
    ensures kinds { IfOk result (λ row. IfSome row (λ kinds. AreKinds kinds.items)) }
    ensures refused { IfErr result (λ refused. IsRefused (program_in program.now) refused.rule refused.slot) }
{
    let (here, _) = known_before::<N>(alloc, program, slot)?;
    let Some(row) = here else {
        return Ok(None);
    };
    match Vec::from_array(alloc, row) {
        Ok(kinds) => Ok(Some(kinds)),
        Err(_) => Err(no_memory()),
    }
}

/// The kinds of the registers, and behind them those of the stack's cells, before a slot of a program that keeps the rules of form: the
/// row of its table at this slot, or none where no run comes there. Where a lower slot breaks a rule, and for want of memory, a refusal
/// as [`verify`] tells it.
pub fn row_before(
    alloc: Global,
    program: &Candidate,
    slot: usize,
) -> Result<Option<Vec<Kind>>, Refused>
    requires formed { IsFormed program.now.image.code.items }
    requires within { slot < length program.now.image.code.items }
    ensures row { IfOk result (λ row. IfSome row (λ kinds. row_at (table (program_in program.now)) slot ≡ Some kinds.items)) }
    ensures none { IfOk result (λ row. IfNone row (row_at (table (program_in program.now)) slot ≡ None)) }
    ensures long { IfOk result (λ row. IfSome row (λ kinds. length kinds.items ≡ 11 + cell_count program.now.image.profile)) }
    ensures kinds { IfOk result (λ row. IfSome row (λ kinds. AreKinds kinds.items)) }
    ensures refused { IfErr result (λ refused. IsRefused (program_in program.now) refused.rule refused.slot) }
{
    match program.image.profile {
        Profile::First => kinds_before::<11>(alloc, program, slot),
        Profile::Second => kinds_before::<75>(alloc, program, slot),
    }
}

/// The pairs of registers that are known before a slot of a program that keeps the rules of form, by the rows of its table. Where a
/// lower slot breaks a rule, and for want of memory, a refusal as [`verify`] tells it.
pub fn pairs_before(alloc: Global, program: &Candidate, slot: usize) -> Result<Pairs, Refused>
    requires formed { IsFormed program.now.image.code.items }
    requires within { slot < length program.now.image.code.items }
    ensures pairs { IfOk result (λ pairs. pairs ≡ pairs_at (program_in program.now) (table (program_in program.now)) slot) }
    ensures refused { IfErr result (λ refused. IsRefused (program_in program.now) refused.rule refused.slot) }
{
    match program.image.profile {
        Profile::First => Ok(known_before::<11>(alloc, program, slot)?.1),
        Profile::Second => Ok(known_before::<75>(alloc, program, slot)?.1),
    }
}

/// What [`verify`] says of a program that keeps the rules of form, which is only lent.
pub fn judge(alloc: Global, program: &Candidate) -> Result<(), Refused>
    requires { IsFormed program.now.image.code.items }
    ensures accepted { IfOk result (λ _. IsAccepted (program_in program.now)) }
    ensures only { IsAccepted (program_in program.now) → IfErr result (λ refused. refused.rule ≡ Rule.NoMemory) }
    ensures refused { IfErr result (λ refused. IsRefused (program_in program.now) refused.rule refused.slot) }
{
    check_kinds(alloc, program)?;
    Ok(())
}

/// The first rule of form that an image breaks.
fn check_form(image: &Image) -> Result<(), Refused>
    ensures ok { OnOk result (IsFormed image.now.code.items) }
    ensures refused { IfErr result (λ refused. (sigs : List Entry) → IsRefused (program_of image.now sigs) refused.rule refused.slot) }
{
    match form_fault(&image.code) {
        Some(fault) => Err(Refused {
            rule: Rule::Form(fault.rule),
            slot: fault.slot,
        }),
        None => Ok(()),
    }
}

/// Accepts a program that breaks no rule, and keeps a copy of the Sigs of the helpers that it may call. Of one that breaks some,
/// the rules of form are told first; then the lowest slot, and of its rules the lowest. A refusal gives the image up.
pub fn verify(alloc: Global, image: Image, sigs: &Sigs) -> Result<Verified, Refused>
    // What is accepted is the image's program with these Sigs: it breaks no rule, and never goes wrong.
    ensures accepted { IfOk result (λ verified. (verified ≡ program_of image sigs.now) × IsAccepted (program_of image sigs.now)) }
    ensures safe { IfOk result IsSafeProgram }
    // What breaks no rule is accepted, unless memory runs out.
    ensures only { IsAccepted (program_of image sigs.now) → IfErr result (λ refused. refused.rule ≡ Rule.NoMemory) }
    // A refusal is the first rule that is broken.
    ensures refused { IfErr result (λ refused. IsRefused (program_of image sigs.now) refused.rule refused.slot) }
    // A plain program is accepted exactly where it is well behaved, unless memory runs out.
    ensures plain_accepted { IfOk result (λ _. IsPlain image.code.items → IsWellBehaved (program_of image sigs.now)) }
    ensures plain_only { IsPlain image.code.items → IsWellBehaved (program_of image sigs.now) → IfErr result (λ refused. refused.rule ≡ Rule.NoMemory) }
{
    // In code each wide instruction and its second slot stand together.
    code_is_paired();
    check_form(&image)?;
    let Ok(sigs) = sigs.copy(alloc) else {
        return Err(no_memory());
    };
    let program = Candidate { image, sigs };
    let lows = check_kinds(alloc, &program)?;
    // That a table of kinds loses no value is why no run of the program goes wrong.
    kinds_are_sound();
    Ok(Verified::new(program, lows))
}
