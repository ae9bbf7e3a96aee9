//! Programs run step by step, also such as the verifier refuses, and what they give. What accepted programs come to stands in
//! rows of the examples.

mod calls;
mod faults;

ghost use Rattle.std.specs.Prelude.{◌≤◌, length};

use bpf_helpers::Table;
use bpf_insn::Insn;
use bpf_insn::decode::decode;
use bpf_interpreter::{State, Stop, drive};
use bpf_semantics::{Fault, Windows};
use std::alloc::Global;
use std::test::Fail;
use test_support::{Slot, code_of};

/// The bytes of an output that nothing was written to.
pub const NONE: [u8; 8] = [0; 8];

/// How a program ends: with an answer after so many steps, with a fault at a slot, or where it wants more fuel.
#[derive(Clone, Copy)]
pub enum Ending {
    Answers(u64, u64),
    Faults(Fault, i64),
    WantsFuel,
}

impl Ending {
    /// What a drive tells of it.
    fn stop(self) -> Stop {
        match self {
            Ending::Answers(answer, steps) => Stop::Exit { answer, steps },
            Ending::Faults(why, slot) => Stop::Fault { why, slot },
            Ending::WantsFuel => Stop::Fuel,
        }
    }
}

/// How code stops on an input with the helpers of a table and so much fuel, and what it leaves in an output of eight bytes.
fn end_of(code: &[Insn], table: &Table, input: &[u8], fuel: u64) -> (Stop, [u8; 8])
    requires { length input.now ≤ 65536 }
{
    let mut output = NONE;
    let windows = Windows {
        stack: [0; 512],
        input,
        output: &mut output,
    };
    let mut state = State::start(windows, input.len() as u32);
    let stop = drive(&mut state, code, fuel, table);
    (stop, output)
}

/// Whether slots end so on an input with the helpers of a table and so much fuel, and leave that in an output of eight bytes.
pub fn ends_so(
    alloc: Global,
    table: &Table,
    slots: &[Slot],
    input: &[u8],
    fuel: u64,
    want: (Ending, [u8; 8]),
) -> Result<bool, Fail> {
    if input.len() > 65_536 {
        return Err(Fail::from("input"));
    }
    let (ending, output) = want;
    match decode(alloc, &code_of(alloc, slots)?) {
        Ok(code) => Ok(end_of(&code, table, input, fuel) == (ending.stop(), output)),
        Err(_) => Err(Fail::from("refused")),
    }
}
