//! Edges, which are joined into what waits for their targets.

ghost use Rattle.std.specs.Prelude.{◌≡◌, ◌<◌, ◌≤◌, ◌+◌, ◌++◌, ℕ, ℤ, IfOk, true, false, pos, Some, None, length, slice_set};
ghost use Rattle.bpf_image.specs.Form.{next_of, target_of};
ghost use Rattle.bpf_verifier.specs.Rules.{row_taken};
ghost use Rattle.bpf_verifier.specs.Paired.{narrowed};
ghost use Rattle.bpf_verifier.specs.Table.{join_rows, joined, next_edge, target_edge, AreKinds};
ghost use Rattle.bpf_verifier.specs.Registers.{one_number};
ghost use Rattle.bpf_ranges.specs.Kinds.{IsKind};
ghost use Rattle.bpf_ranges.specs.Transfer.{join_of};
ghost use Rattle.bpf_verifier.specs.Rows.{row_at, push_one, pushed, edge_list, LeadBelow, StartsZero, IsKnown, HaveKinds, HasKinds, Misses};
ghost use Rattle.bpf_verifier.specs.Waiting.{waiting, AreOwned, IsPool};
ghost use Rattle.bpf_semantics.specs.declared.profile.Profile.{Profile};

use crate::kinds::{one_number, write_taken};
use crate::pair::Pairs;
use crate::pairs::narrow;
use crate::waiting::Waiting;
use bpf_copies::Name;
use bpf_image::form::{next_of, target_of};
use bpf_insn::Insn;
use bpf_ranges::{Kind, Profile, join};
use std::alloc::AllocError;

/// Joins a kind into one that was there before. Two that are the zero with which a cell of the stack begins, as most cells do, are
/// joined without more ado.
#[inline(always)]
fn join_kind(profile: Profile, zero: &Kind, kept: &mut Kind, new: &Kind)
    requires zero { zero.now ≡ one_number profile 0 }
    requires old { IsKind kept.old }
    requires kind { IsKind new.now }
    ensures table { kept.new ≡ join_of profile kept.old new.now }
    ensures kind { IsKind kept.new }
{
    if *kept != *zero || *new != *zero {
        *kept = join(profile, *kept, *new);
    }
}

/// Joins a kind onto one that was there before.
#[inline(always)]
fn join_kind_onto(profile: Profile, zero: &Kind, kept: &Kind, new: &mut Kind)
    requires zero { zero.now ≡ one_number profile 0 }
    requires kept { IsKind kept.now }
    requires old { IsKind new.old }
    ensures table { new.new ≡ join_of profile kept.now new.old }
    ensures kind { IsKind new.new }
{
    if *kept != *zero || *new != *zero {
        *new = join(profile, *kept, *new);
    }
}

/// Joins a row into one that was there before. The cells before a place, which are the zero in both, are left.
fn join_row<const N: usize>(profile: Profile, low: usize, kept: &mut [Kind; N], new: &[Kind; N])
    requires registers { 11 ≤ low }
    requires short { low ≤ N }
    requires old { IsKnown profile low kept.old }
    requires new { IsKnown profile low new.now }
    ensures table { kept.new ≡ join_rows profile kept.old new.now }
    ensures known { IsKnown profile low kept.new }
{
    let zero = one_number(profile, 0);
    for i in 0..11 {
        join_kind(profile, &zero, &mut kept[i], &new[i]);
    }
    for cell in low..N {
        join_kind(profile, &zero, &mut kept[cell], &new[cell]);
    }
}

/// Joins a row onto one that was there before. The cells before a place, which are the zero in both, are left.
fn join_row_onto<const N: usize>(
    profile: Profile,
    low: usize,
    kept: &[Kind; N],
    new: &mut [Kind; N],
)
    requires registers { 11 ≤ low }
    requires short { low ≤ N }
    requires kept { IsKnown profile low kept.now }
    requires old { IsKnown profile low new.old }
    ensures table { new.new ≡ join_rows profile kept.now new.old }
    ensures known { IsKnown profile low new.new }
{
    let zero = one_number(profile, 0);
    for i in 0..11 {
        join_kind_onto(profile, &zero, &kept[i], &mut new[i]);
    }
    for cell in low..N {
        join_kind_onto(profile, &zero, &kept[cell], &mut new[cell]);
    }
}

/// Joins what waits for a slot, if anything does, onto an edge's kinds. It waits no more.
fn join_waiting<const N: usize>(
    profile: Profile,
    rows: &mut Waiting<N>,
    slot: usize,
    row: &mut [Kind; N],
)
    requires within { slot < length (waiting rows.old) }
    requires pool { IsPool profile rows.old }
    requires known { IsKnown profile rows.old.low row.old }
    ensures row { Some row.new ≡ joined profile (row_at (waiting rows.old) slot) row.old }
    ensures rows { waiting rows.new ≡ slice_set (waiting rows.old) slot None }
    ensures pool { IsPool profile rows.new }
    ensures low { rows.new.low ≡ rows.old.low }
    ensures known { IsKnown profile rows.new.low row.new }
{
    if let Some(place) = rows.place_of(slot) {
        join_row_onto(profile, rows.low, &rows.held[place].kinds, row);
        rows.release(slot, place);
    }
}

/// Copies a row, over another where there is one.
fn copy_to<const N: usize>(row: &[Kind; N], here: &mut Option<[Kind; N]>)
    ensures { here.new ≡ Some row.now }
{
    match here {
        Some(kinds) => kinds.copy_from_slice(row),
        None => *here = Some(*row),
    }
}

/// Takes a copy of what waits for a slot, if anything does. It waits no more.
pub fn take_waiting<const N: usize>(
    rows: &mut Waiting<N>,
    slot: usize,
    here: &mut Option<[Kind; N]>,
)
    requires within { slot < length (waiting rows.old) }
    requires owned { AreOwned rows.old.held.items rows.old.free }
    ensures here { here.new ≡ row_at (waiting rows.old) slot }
    ensures rows { waiting rows.new ≡ slice_set (waiting rows.old) slot None }
    ensures pool { (profile : Profile) → IsPool profile rows.old → IsPool profile rows.new }
    ensures low { rows.new.low ≡ rows.old.low }
    ensures known { (profile : Profile) → IsPool profile rows.old → HasKinds profile rows.new.low here.new }
{
    match rows.place_of(slot) {
        Some(place) => {
            copy_to(&rows.held[place].kinds, here);
            rows.release(slot, place);
        }
        None => *here = None,
    }
}

/// Joins an edge's kinds into what waits for its target.
fn push_edge<const N: usize>(
    profile: Profile,
    rows: &mut Waiting<N>,
    to: usize,
    row: &[Kind; N],
) -> Result<(), AllocError>
    requires within { to < length (waiting rows.old) }
    requires known { IsKnown profile rows.old.low row.now }
    requires pool { IsPool profile rows.old }
    ensures rows { IfOk result (λ _. waiting rows.new ≡ push_one profile (waiting rows.old) (to, row.now)) }
    ensures pool { IfOk result (λ _. IsPool profile rows.new) }
    ensures low { rows.new.low ≡ rows.old.low }
{
    match rows.place_of(to) {
        Some(place) => {
            join_row(profile, rows.low, &mut rows.held[place].kinds, row);
            Ok(())
        }
        None => rows.wait(to, row),
    }
}

/// The edge of a jump: where it leads. The kinds that it brings there are written over a row, whose cells before a place are the zero
/// before and after.
pub fn taken_edge<const N: usize>(
    profile: Profile,
    low: usize,
    at: usize,
    row: &[Kind; N],
    insn: Insn,
    taken: &mut [Kind; N],
) -> Option<usize>
    requires registers { 11 ≤ low }
    requires short { low ≤ N }
    requires small { at < 4096 }
    requires ahead { (z : ℤ) → target_of at insn ≡ Some z → (k : ℕ) × (z ≡ pos k) }
    requires known { IsKnown profile low row.now }
    requires zeros { StartsZero profile low taken.old }
    ensures edge { edge_list result taken.new ≡ target_edge (target_of at insn) (row_taken profile row.now insn) }
    ensures known { HaveKinds profile low (edge_list result taken.new) }
    ensures zeros { StartsZero profile low taken.new }
{
    match target_of(at, insn) {
        Some(target) => {
            write_taken(profile, low, row, insn, taken);
            Some(target as usize)
        }
        None => None,
    }
}

/// The edge of a jump: where it leads. The kinds that it brings there, with what names and pairs tell of them, are written over a row, whose
/// cells before a place are the zero before and after.
pub fn narrowed_edge<const N: usize>(
    profile: Profile,
    low: usize,
    at: usize,
    row: &[Kind; N],
    insn: Insn,
    names: &[Name; 11],
    pairs: Pairs,
    taken: &mut [Kind; N],
) -> Option<usize>
    requires registers { 11 ≤ low }
    requires short { low ≤ N }
    requires small { at < 4096 }
    requires ahead { (z : ℤ) → target_of at insn ≡ Some z → (k : ℕ) × (z ≡ pos k) }
    requires known { IsKnown profile low row.now }
    requires zeros { StartsZero profile low taken.old }
    ensures edge { edge_list result taken.new ≡ target_edge (target_of at insn) (narrowed insn profile names.now pairs (row_taken profile row.now insn)) }
    ensures known { HaveKinds profile low (edge_list result taken.new) }
    ensures zeros { StartsZero profile low taken.new }
{
    let target = taken_edge(profile, low, at, row, insn, taken)?;
    narrow(insn, profile, names, pairs, taken);
    Some(target)
}

/// Joins a jump's edge, if there is one, into what waits for its target.
fn push_taken<const N: usize>(
    profile: Profile,
    rows: &mut Waiting<N>,
    target: Option<usize>,
    taken: &[Kind; N],
) -> Result<(), AllocError>
    requires within { LeadBelow (length (waiting rows.old)) (edge_list target taken.now) }
    requires known { HaveKinds profile rows.old.low (edge_list target taken.now) }
    requires pool { IsPool profile rows.old }
    ensures rows { IfOk result (λ _. waiting rows.new ≡ pushed profile (waiting rows.old) (edge_list target taken.now)) }
    ensures pool { IfOk result (λ _. IsPool profile rows.new) }
    ensures low { rows.new.low ≡ rows.old.low }
{
    match target {
        Some(target) => push_edge(profile, rows, target, taken),
        None => Ok(()),
    }
}

/// Joins an instruction's edges into what waits for their targets: that of its jump, and that of its own row after it. Where it goes
/// on to the next slot and no jump of its own leads there, the answer is true: what waits for that slot is joined into this row,
/// which goes on in its place. A row that waits for a slot for which none did may find no memory.
pub fn lead_on<const N: usize>(
    profile: Profile,
    rows: &mut Waiting<N>,
    at: usize,
    row: &mut [Kind; N],
    insn: Insn,
    target: Option<usize>,
    taken: &[Kind; N],
) -> Result<bool, AllocError>
    requires small { at < 4096 }
    requires next { (k : ℕ) → next_of at insn ≡ Some k → k < length (waiting rows.old) }
    requires within { LeadBelow (length (waiting rows.old)) (edge_list target taken.now) }
    requires known { IsKnown profile rows.old.low row.old }
    requires taken { HaveKinds profile rows.old.low (edge_list target taken.now) }
    requires pool { IsPool profile rows.old }
    ensures on { IfOk result (λ on. on ≡ true → next_of at insn ≡ Some (at + 1)) }
    ensures joined { IfOk result (λ on. on ≡ true → Some row.new ≡ joined profile (row_at (waiting rows.old) (at + 1)) row.old) }
    ensures misses { IfOk result (λ on. on ≡ true → Misses (at + 1) (edge_list target taken.now)) }
    ensures rest { IfOk result (λ on. on ≡ true → waiting rows.new ≡ pushed profile (slice_set (waiting rows.old) (at + 1) None) (edge_list target taken.now)) }
    ensures all { IfOk result (λ on. on ≡ false → waiting rows.new ≡ pushed profile (waiting rows.old) (next_edge (next_of at insn) row.old ++ edge_list target taken.now)) }
    ensures pool { IfOk result (λ _. IsPool profile rows.new) }
    ensures low { rows.new.low ≡ rows.old.low }
    ensures known { IfOk result (λ _. IsKnown profile rows.new.low row.new) }
{
    let next = next_of(at, insn);
    if next == Some(at + 1) && target != Some(at + 1) {
        join_waiting(profile, rows, at + 1, row);
        push_taken(profile, rows, target, taken)?;
        return Ok(true);
    }
    if let Some(next) = next {
        push_edge(profile, rows, next, row)?;
    }
    push_taken(profile, rows, target, taken)?;
    Ok(false)
}
