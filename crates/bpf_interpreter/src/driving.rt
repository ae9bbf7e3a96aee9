//! The machine, driven from a state to the end of its run or of its fuel.

ghost use Rattle.std.specs.Prelude.{◌≡◌, ◌<◌, ◌≤◌, ℕ};
ghost use Rattle.bpf_semantics.specs.State.{State as ProgramState};
ghost use Rattle.bpf_semantics.specs.Step.{Finishes, Runs, Faults};
ghost use Rattle.bpf_helpers.specs.Calls.{calls_of};
ghost use Rattle.bpf_interpreter.specs.Settled.{HasOneRun};
ghost use Rattle.bpf_interpreter.specs.Stepped.{state_of, loan_of, Stops};

use crate::state::State;
use crate::stepping::{Next, step};
use bpf_helpers::Table;
use bpf_insn::Insn;
use bpf_semantics::Fault;

/// How a drive ended.
#[derive(Clone, Copy, PartialEq, Eq)]
pub enum Stop {
    Exit { answer: u64, steps: u64 },
    Fault { why: Fault, slot: i64 },
    Fuel,
}

/// Runs the code from a state to its end, for as many steps as there is fuel.
///
/// It follows one run that the table's calls allow, and ends with `Exit` where that run reaches an exit within the fuel, with
/// `Fault` where it reaches a state that faults before the fuel is out, and else with `Fuel`.
pub fn drive(state: &mut State, code: &[Insn], fuel: u64, table: &Table) -> Stop
    // What the answer says of the run, and the state that it ended in.
    ensures stops { Stops (calls_of table.now.listed) code.now fuel (state_of state.old) (state_of state.new) result }
    // Where no call leaves a choice, each answer comes wherever such a run is.
    ensures exit_where { HasOneRun table.now.listed code.now → (n answer : ℕ) (t : ProgramState) → n ≤ fuel → Finishes (calls_of table.now.listed) code.now n (state_of state.old) t answer → result ≡ Stop.Exit answer n }
    ensures fault_where { HasOneRun table.now.listed code.now → (n : ℕ) (t : ProgramState) (why : Fault) → n < fuel → Runs (calls_of table.now.listed) code.now n (state_of state.old) t → Faults (calls_of table.now.listed) code.now t why → result ≡ Stop.Fault why t.slot }
    ensures fuel_where { HasOneRun table.now.listed code.now → (t : ProgramState) → Runs (calls_of table.now.listed) code.now fuel (state_of state.old) t → result ≡ Stop.Fuel }
    ensures input { (state_of state.new).memory.input ≡ (state_of state.old).memory.input }
    ensures loan { loan_of state.new ≡ loan_of state.old }
{
    walk(state, code, fuel, table)
}

/// The same, as a loop.
fn walk(state: &mut State, code: &[Insn], fuel: u64, table: &Table) -> Stop
    ensures stops { Stops (calls_of table.now.listed) code.now fuel (state_of state.old) (state_of state.new) result }
    ensures input { (state_of state.new).memory.input ≡ (state_of state.old).memory.input }
    ensures loan { loan_of state.new ≡ loan_of state.old }
{
    for taken in 0..fuel {
        match step(state, code, table) {
            Ok(Next::Running) => {}
            Ok(Next::Exit(answer)) => {
                return Stop::Exit {
                    answer,
                    steps: taken + 1,
                };
            }
            Err(why) => {
                return Stop::Fault {
                    why,
                    slot: state.slot,
                };
            }
        }
    }
    Stop::Fuel
}
