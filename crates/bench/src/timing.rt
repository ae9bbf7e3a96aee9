//! The times of programs, from their images on: the least of some rounds, in each of which the same is done often.

ghost use Rattle.std.specs.Prelude.{◌≡◌, ◌≤◌, length};
ghost use Rattle.bpf_helpers.specs.Entries.{AgreesWith};
ghost use Rattle.bpf_semantics.specs.Step.{IsInput};

use bpf_admission::admit_program;
use bpf_helpers::Table;
use bpf_interpreter::{Done, padded, run};
use bpf_verifier::Verified;
use std::alloc::Global;
use std::io;
use std::io::Write;
use std::rt::Clock;
use std::time::Instant;

/// At least how many slots are verified, and how many instructions run, between two looks at the clock.
const BATCH_STEPS: u32 = 65_536;

/// How often work on so many instructions is done between two looks at the clock.
fn batch_of(instructions: u32) -> u32 {
    (BATCH_STEPS / instructions.max(1)).saturating_add(1)
}

/// How many instructions some work is for, and the least nanoseconds that a batch of it took.
#[derive(Clone, Copy)]
struct Least {
    instructions: u32,
    nanoseconds: u128,
}

impl Least {
    /// Of no round yet.
    fn of(instructions: u32) -> Least {
        Least {
            instructions,
            nanoseconds: u128::MAX,
        }
    }

    /// After one more batch, which began at an instant.
    fn and(self, start: Instant, clock: &impl Clock) -> io::Result<Least> {
        let nanoseconds = start.elapsed(clock)?.as_nanos();
        Ok(Least {
            instructions: self.instructions,
            nanoseconds: self.nanoseconds.min(nanoseconds),
        })
    }

    /// Prints the nanoseconds, in hundredths, of an instruction.
    fn print(self, out: &mut impl Write, what: &str, unit: &str) -> io::Result<()> {
        let count = u64::from(self.instructions).max(1);
        let all = count.saturating_mul(u64::from(batch_of(self.instructions)));
        let hundredths = self.nanoseconds.saturating_mul(100) / u128::from(all.max(1));
        writeln!(
            out,
            "{what} {}.{:02} ns, {count} {unit}",
            hundredths / 100,
            hundredths % 100
        )
    }
}

/// What an image and its run took, and what the run came to.
#[derive(Clone, Copy)]
pub struct Figures {
    verifying: Least,
    running: Least,
    answer: u64,
}

impl Figures {
    /// Prints them.
    pub fn print(self, out: &mut impl Write) -> io::Result<()> {
        self.verifying.print(out, "verify", "slots")?;
        self.running.print(out, "run", "instructions")?;
        writeln!(out, "answer {}", self.answer)
    }
}

/// Whether the bytes of an image are let in. What is let in is dropped at once.
fn is_let_in(alloc: Global, table: &Table, bytes: &[u8]) -> bool {
    admit_program(alloc, bytes, &table.listed).is_ok()
}

/// Times the verifier, from the image's bytes on.
fn time_verify(
    clock: &impl Clock,
    alloc: Global,
    table: &Table,
    bytes: &[u8],
    slots: u32,
    turns: u32,
) -> io::Result<Least> {
    let mut least = Least::of(slots);
    for _ in 0..turns {
        let start = Instant::now(clock)?;
        for _ in 0..batch_of(slots) {
            let _ = is_let_in(alloc, table, bytes);
        }
        least = least.and(start, clock)?;
    }
    Ok(least)
}

/// One run, of which some bytes of the input window are used, into an output window that is cleared first.
fn run_once(verified: &Verified, table: &Table, window: &[u8], used: u32, output: &mut [u8]) -> Done
    requires agrees { AgreesWith table.now.listed verified.now.sigs }
    requires input { IsInput verified.now.in_len window.now used }
    requires output { length output.old ≡ verified.now.out_len }
    ensures output { length output.new ≡ length output.old }
{
    output.fill(0);
    run(verified, table, window, used, output)
}

/// Times the run, and tells what it came to.
fn time_run(
    clock: &impl Clock,
    verified: &Verified,
    table: &Table,
    window: &[u8],
    used: u32,
    output: &mut [u8],
    turns: u32,
) -> io::Result<(Least, u64)>
    requires agrees { AgreesWith table.now.listed verified.now.sigs }
    requires input { IsInput verified.now.in_len window.now used }
    requires output { length output.old ≡ verified.now.out_len }
{
    let mut done = run_once(verified, table, window, used, output);
    let mut least = Least::of(done.steps);
    for _ in 0..turns {
        let start = Instant::now(clock)?;
        for _ in 0..batch_of(done.steps) {
            done = run_once(verified, table, window, used, output);
        }
        least = least.and(start, clock)?;
    }
    Ok((least, done.answer))
}

/// Times the run on an input that has room in the window, and tells what it came to.
fn time_on_input(
    clock: &impl Clock,
    alloc: Global,
    verified: &Verified,
    table: &Table,
    input: &[u8],
    turns: u32,
) -> io::Result<(Least, u64)>
    requires agrees { AgreesWith table.now.listed verified.now.sigs }
    requires fits { length input.now ≤ verified.now.in_len }
{
    let image = verified.image();
    let window = padded(alloc, input, image.in_len as usize)?;
    let mut output = vec![in alloc; 0u8; image.out_len as usize]?;
    let used = input.len() as u32;
    time_run(clock, verified, table, &window, used, &mut output, turns)
}

/// Times the run and the verifier, from the image's bytes on, of a program that was let in, on an input that has room in its window.
fn time_both(
    clock: &impl Clock,
    alloc: Global,
    verified: &Verified,
    table: &Table,
    bytes: &[u8],
    input: &[u8],
    turns: u32,
) -> io::Result<Figures>
    requires agrees { AgreesWith table.now.listed verified.now.sigs }
    requires fits { length input.now ≤ verified.now.in_len }
{
    let slots = verified.image().code.len() as u32;
    let verifying = time_verify(clock, alloc, table, bytes, slots, turns)?;
    let (running, answer) = time_on_input(clock, alloc, verified, table, input, turns)?;
    Ok(Figures {
        verifying,
        running,
        answer,
    })
}

/// Times the verifier and the run of an image on an input; nothing where the image calls a helper of a table or is not let in otherwise, or
/// where the input has no room.
pub fn figures_of(
    clock: &impl Clock,
    alloc: Global,
    bytes: &[u8],
    input: &[u8],
    turns: u32,
) -> io::Result<Option<Figures>> {
    let table = Table::new(alloc);
    match admit_program(alloc, bytes, &table.listed) {
        Ok(verified)
            if table.agrees(verified.sigs()) && input.len() <= verified.image().in_len as usize => {
            time_both(clock, alloc, &verified, &table, bytes, input, turns).map(Some)
        }
        _ => Ok(None),
    }
}
