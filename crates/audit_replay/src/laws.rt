//! What holds of journals that are one run of the world. Each of these functions does nothing: its contract is the law.

ghost use Rattle.std.specs.Prelude.{◌≡◌, ◌<◌, ◌↔◌, ℕ, List, slice_get, take, Some};
ghost use Rattle.dvv.specs.declared.Dot.{Dot};
ghost use Rattle.key_state.specs.declared.content.Content.{Content};
ghost use Rattle.key_state.specs.declared.content.Key.{Key};
ghost use Rattle.key_state.specs.State.{State};
ghost use Rattle.journal.specs.Entry.{Entry, Put};
ghost use Rattle.journal.specs.Logs.{Log};
ghost use Rattle.journal.specs.Replay.{IsReplay};
ghost use Rattle.journal.specs.Stamps.{stamp_of};
ghost use Rattle.world.specs.Knowledge.{Knowledge, IsStateOf, known_at, next_dot};
ghost use Rattle.world.specs.Represents.{log_at};
ghost use Rattle.audit_replay.specs.Beginnings.{IsBehind, steps_behind};
ghost use Rattle.audit_replay.specs.Interleaved.{IsInterleavingFrom, known_before};
ghost use Rattle.audit_replay.specs.Order.{Step};
ghost use Rattle.audit_replay.specs.Turns.{EntryIn};

/// Each entry behind the fronts is a step of the run, and of two steps the one with the greater stamp comes later.
pub fn steps_are_in_order()
    ensures steps { (begin : Knowledge) (fronts : List ℕ) (logs : List Log) (run : IsInterleavingFrom begin fronts logs) (index place : ℕ) (e : Entry) → EntryIn logs index place e → IsBehind fronts index place
        → (number : ℕ) × (slice_get (steps_behind fronts run.order) number ≡ Some (record { vnode = index; place = place; entry = e })) }
    ensures order { (begin : Knowledge) (fronts : List ℕ) (logs : List Log) (run : IsInterleavingFrom begin fronts logs) (m n : ℕ) (s t : Step) → slice_get (steps_behind fronts run.order) m ≡ Some s → slice_get (steps_behind fronts run.order) n ≡ Some t
        → (m < n) ↔ (stamp_of s.entry < stamp_of t.entry) }
{}

/// What the entries before a step's own leave at a key shows the current ones of the writes that its vnode knew before the step, and their
/// context. The dot of a put is the next one that its vnode had to give then.
pub fn steps_are_known()
    ensures state { (begin : Knowledge) (fronts : List ℕ) (logs : List Log) (run : IsInterleavingFrom begin fronts logs) (number : ℕ) (step : Step) (key : Key) (state : State) → slice_get (steps_behind fronts run.order) number ≡ Some step
        → IsReplay (take step.place (log_at logs step.vnode).entries) key state → IsStateOf (known_at (known_before run.happened number) step.vnode key) state }
    ensures dot { (begin : Knowledge) (fronts : List ℕ) (logs : List Log) (run : IsInterleavingFrom begin fronts logs) (number : ℕ) (step : Step) (stamp : ℕ) (key : Key) (seen : List Dot) (content : Content) (dot : Dot)
        → slice_get (steps_behind fronts run.order) number ≡ Some step → step.entry ≡ Put stamp key seen content dot → dot ≡ next_dot (known_before run.happened number) step.vnode key }
{
    world::laws::replays_are_known();
    world::laws::puts_are_of_world();
}
