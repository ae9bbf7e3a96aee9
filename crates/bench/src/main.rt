//! Times the verifier and the run of an image that calls no helper of a table: `bench IMAGE TURNS [INPUT]` prints, of so many rounds, the
//! least nanoseconds for a slot and for an instruction.
#![tactic(auto)]

mod timing;

use crate::timing::figures_of;
use std::io::Write;
use std::process::ExitCode;
use std::{env, fs, io};

/// What is printed without words.
const WORDS: &str =
    "bench IMAGE TURNS [INPUT]: nanoseconds a slot of the verifier, and an instruction of the run";

/// Times an image on an input.
fn print_figures(rt: &HostRuntime, image: &[u8], turns: u32, input: &[u8]) -> io::Result<ExitCode> {
    match figures_of(rt, rt.alloc(), image, input, turns)? {
        Some(figures) => {
            figures.print(&mut rt.stdout())?;
            Ok(ExitCode::SUCCESS)
        }
        None => {
            rt.stdout().write_all(b"refused\n")?;
            Ok(ExitCode::FAILURE)
        }
    }
}

/// Times an image on the input of this name, or on zeros.
fn time_on(
    rt: &HostRuntime,
    image: &[u8],
    turns: u32,
    input: Option<&str>,
) -> io::Result<ExitCode> {
    match input {
        Some(name) => print_figures(rt, image, turns, &fs::read(rt, name)?),
        None => print_figures(rt, image, turns, &[]),
    }
}

/// Times the image of this name.
fn bench(rt: &HostRuntime, name: &str, turns: u32, input: Option<&str>) -> io::Result<ExitCode> {
    time_on(rt, &fs::read(rt, name)?, turns, input)
}

fn main(rt: HostRuntime) -> io::Result<ExitCode> {
    let mut words = env::args(&rt)?.skip(1);
    let (Some(name), Some(turns)) = (words.next(), words.next()) else {
        println!(rt; "{WORDS}")?;
        return Ok(ExitCode::SUCCESS);
    };
    let turns = turns.parse().unwrap_or(1);
    match words.next() {
        Some(input) => bench(&rt, name.as_str(), turns, Some(input.as_str())),
        None => bench(&rt, name.as_str(), turns, None),
    }
}
