//! A run of a hook on the siblings of a key, and its verdict.

ghost use Rattle.std.specs.Prelude.{◌≡◌, ◌≢◌, ◌≤◌, ◌<◌, ◌⊎◌, length, max, take, vec_len, IsOk, IfOk, IfErr, OnOk, OnErr, MatchResult, Ok, Err};
ghost use Rattle.std.specs.Borrow.{sem};
ghost use Rattle.std.specs.Option.{option_copied};
ghost use Rattle.bpf_semantics.specs.Step.{IsInput};
ghost use Rattle.bpf_semantics.specs.Windows.{longest_window};
ghost use Rattle.hook_abi.specs.Input.{contents_shown, used_by, window_of};
ghost use Rattle.bpf_helpers.specs.Entries.{AgreesWith};
ghost use Rattle.bpf_helpers.specs.Closures.{calls_told};
ghost use Rattle.hook_abi.specs.Verdicts.{meaning_of, verdict_of};
ghost use Rattle.hook_run.specs.Decisions.{HasRoom, IsDecision, IsDecisionBy, IsRun, IsRunBy, LacksRoom, told_of};
ghost use Rattle.hook_run.specs.Rooms.{IsKept, IsPartlyGrown, HasRoomFor, grown};
ghost use Rattle.hook_run.specs.Lending.{LeavesRoom};

use bpf_helpers::{Closures, Table};
use bpf_image::ImageKind;
use bpf_interpreter::run;
use bpf_verifier::Verified;
use hook_abi::{BadAnswer, TooLarge, Verdict, fill_input, read_answer};
use key_state::{Content, Sibling};
use std::alloc::{AllocError, Global};
use std::marker::Model;

/// Why a hook decides nothing.
#[derive(Clone, Copy, PartialEq, Eq, Drop)]
pub enum RunFault {
    /// The table doesn't have each helper that the program was verified with, under the same Sig.
    Disagrees,
    /// There are over 64 siblings, or the input window is too short to show the contents.
    TooLarge,
    /// The run's answer has no meaning.
    Bad(BadAnswer),
    /// Memory ran out before the run.
    NoMemory,
}

/// The windows of hooks. They are kept from run to run, grow to the longest that was needed, and never shrink. Contracts see
/// their lengths in bytes.
#[derive(Drop)]
pub struct Room {
    input: Vec<u8>,
    output: Vec<u8>,
}

impl Model for Room {
    ghost use Rattle.std.specs.Prelude.{vec_len};
    ghost use Rattle.hook_run.specs.Rooms.{Lengths};

    ghost Value = { Lengths };

    ghost view = { λ room. record { input = vec_len room.input; output = vec_len room.output } };
}

impl Room {
    /// Room for no byte as yet.
    pub fn new(alloc: Global) -> Room
        ensures { result ≡ record { input = 0; output = 0 } }
    {
        Room {
            input: Vec::new(alloc),
            output: Vec::new(alloc),
        }
    }

    /// Grows the windows that are shorter than a hook's, so that its runs want no memory. None shrinks. Where memory runs out, the
    /// input's window may have grown, and the output's is as it was.
    pub fn fit(&mut self, hook: &Verified) -> Result<(), AllocError>
        ensures fits { OnOk result (HasRoomFor self.new hook.now) }
        ensures grown { OnOk result (self.new ≡ grown self.old hook.now) }
        ensures refused { OnErr result (IsPartlyGrown self.old hook.now self.new) }
        ensures kept { IsKept self.old self.new }
        ensures enough { HasRoomFor self.old hook.now → IsOk result }
    {
        let image = hook.image();
        grow(&mut self.input, image.in_len as usize)?;
        grow(&mut self.output, image.out_len as usize)
    }
}

/// Runs a hook on the siblings of a key, and on a new content where there is one. The verdict is that of a run of the program
/// on their layout; it borrows the output window.
///
/// `Disagrees`, `TooLarge` and `Bad`, the first that stands; `NoMemory` where a window could not grow, and so never in a room that
/// fits the hook. No window shrinks: once a run had windows, its room fits the hook from then on. So the windows have grown to the
/// hook's at `TooLarge` and `Bad` too; at `NoMemory` the input's may have, and at `Disagrees` the room is as it was.
pub fn decide<'a>(
    room: &'a mut Room,
    hook: &Verified,
    table: &Table,
    new: Option<&Content>,
    siblings: &[Sibling],
) -> Result<Verdict<'a>, RunFault>
    ensures decision { MatchResult result (λ verdict. IsDecision hook.now (option_copied new.entry) siblings.now table.now.listed (Ok (meaning_of verdict))) (λ fault. IsDecision hook.now (option_copied new.entry) siblings.now table.now.listed (Err fault)) }
    ensures told { let calls = calls_told (⟦<Table as Closures>⟧.tells table.now) hook.now.sigs in MatchResult result (λ verdict. IsDecisionBy calls hook.now (option_copied new.entry) siblings.now table.now.listed (Ok (meaning_of verdict))) (λ fault. IsDecisionBy calls hook.now (option_copied new.entry) siblings.now table.now.listed (Err fault)) }
    ensures enough { HasRoomFor room.old hook.now → IfErr result (λ fault. fault ≢ RunFault.NoMemory) }
    ensures* left { sem 𝓛 (LeavesRoom hook.now result room.entry) }
{
    if !table.agrees(hook.sigs()) {
        return Err(RunFault::Disagrees);
    }
    if room.fit(hook).is_err() {
        return Err(RunFault::NoMemory);
    }
    let answer = answer_of(
        hook,
        table,
        new,
        siblings,
        &mut room.input,
        &mut room.output,
    )?;
    verdict_in(hook, answer, siblings.len(), &room.output)
}

/// Grows a buffer to so many bytes, if it is shorter.
fn grow(buffer: &mut Vec<u8>, len: usize) -> Result<(), AllocError>
    ensures long { OnOk result (len ≤ vec_len buffer.new) }
    ensures kept { vec_len buffer.old ≤ vec_len buffer.new }
    ensures grown { OnOk result (vec_len buffer.new ≡ max (vec_len buffer.old) len) }
    ensures refused { OnErr result (vec_len buffer.new ≡ vec_len buffer.old) }
    ensures enough { len ≤ vec_len buffer.old → IsOk result }
{
    if buffer.len() < len {
        buffer.resize(len, 0)?;
    }
    Ok(())
}

/// Runs a hook in the fronts of two windows that are no shorter than its own, and answers R0.
fn answer_of(
    hook: &Verified,
    table: &Table,
    new: Option<&Content>,
    siblings: &[Sibling],
    input: &mut [u8],
    output: &mut [u8],
) -> Result<u64, RunFault>
    requires agrees { AgreesWith table.now.listed hook.now.sigs }
    requires input { hook.now.in_len ≤ length input.old }
    requires output { hook.now.out_len ≤ length output.old }
    ensures ran { IfOk result (λ answer. HasRoom hook.now (option_copied new.entry) siblings.now × IsRun hook.now (option_copied new.entry) siblings.now answer (take hook.now.out_len output.new)) }
    ensures told { IfOk result (λ answer. IsRunBy (calls_told (⟦<Table as Closures>⟧.tells table.now) hook.now.sigs) hook.now (option_copied new.entry) siblings.now answer (take hook.now.out_len output.new)) }
    ensures large { IfErr result (λ fault. (fault ≡ RunFault.TooLarge) × LacksRoom hook.now (option_copied new.entry) siblings.now) }
{
    let image = hook.image();
    let input = &mut input[..image.in_len as usize];
    let output = &mut output[..image.out_len as usize];
    let Ok(used) = show(image.kind, new, siblings, input) else {
        return Err(RunFault::TooLarge);
    };
    output.fill(0);
    Ok(run(hook, table, input, used, output).answer)
}

/// What a run means that answered so, on so many siblings, with the front of this window as its output.
fn verdict_in<'a>(
    hook: &Verified,
    answer: u64,
    count: usize,
    output: &'a [u8],
) -> Result<Verdict<'a>, RunFault>
    requires few { count ≤ 64 }
    requires output { hook.now.out_len ≤ length output.now }
    ensures verdict { let told = told_of (verdict_of hook.now.kind answer count (take hook.now.out_len output.now)) in MatchResult result (λ verdict. told ≡ Ok (meaning_of verdict)) (λ fault. told ≡ Err fault) }
    ensures bad { IfErr result (λ fault. fault ≢ RunFault.NoMemory) }
{
    let image = hook.image();
    match read_answer(
        image.kind,
        answer,
        count as u32,
        &output[..image.out_len as usize],
    ) {
        Ok(verdict) => Ok(verdict),
        Err(bad) => Err(RunFault::Bad(bad)),
    }
}

/// Lays out in the whole window what a hook reads, and answers how many bytes are used.
fn show(
    kind: ImageKind,
    new: Option<&Content>,
    siblings: &[Sibling],
    window: &mut [u8],
) -> Result<u32, TooLarge>
    requires { length window.old ≤ longest_window }
    ensures used { IfOk result (λ used. used ≡ used_by (contents_shown (option_copied new.entry) siblings.now)) }
    ensures shown { OnOk result (window.new ≡ window_of (length window.old) kind (contents_shown (option_copied new.entry) siblings.now)) }
    ensures room { OnOk result ((length siblings.now ≤ 64) × (used_by (contents_shown (option_copied new.entry) siblings.now) ≤ length window.old)) }
    ensures large { OnErr result ((64 < length siblings.now) ⊎ (length window.old < used_by (contents_shown (option_copied new.entry) siblings.now))) }
    ensures input { IfOk result (λ used. IsInput (length window.old) window.new used) }
{
    fill_input(kind, new, siblings, window)
}
