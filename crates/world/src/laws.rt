//! Laws of the definitions.

ghost use Rattle.std.specs.Prelude.{◌≡◌, ℕ, ◌<◌, ◌≤◌, ◌↔◌, ◌++◌, ◌∷◌, [], false, IsTrue, List, length, map};
ghost use Rattle.dvv.specs.declared.Dot.{Dot};
ghost use Rattle.bpf_helpers.specs.declared.sig.Entry.{Entry as Helper};
ghost use Rattle.key_state.specs.declared.content.Content.{Content};
ghost use Rattle.key_state.specs.declared.content.Key.{Key};
ghost use Rattle.key_state.specs.declared.content.Sibling.{Sibling};
ghost use Rattle.key_state.specs.Known.{Write};
ghost use Rattle.key_state.specs.Parts.{Partial, lacks_some, whole_of};
ghost use Rattle.key_state.specs.State.{State};
ghost use Rattle.journal.specs.Entry.{Entry, Put, Merge, Read, Restart};
ghost use Rattle.journal.specs.Journals.{MayFollow};
ghost use Rattle.journal.specs.Limits.{TakesEntry};
ghost use Rattle.journal.specs.Logs.{Log};
ghost use Rattle.journal.specs.Replay.{IsReplay, LeaveAlike};
ghost use Rattle.world.specs.declared.event.Event.{Event};
ghost use Rattle.world.specs.declared.event.Reply.{Reply};
ghost use Rattle.world.specs.Causality.{IsCausal};
ghost use Rattle.world.specs.Happening.{Run, MayPut, HasPlace, MayDeliver, LookAlike, LacksLeftOut};
ghost use Rattle.world.specs.Knowledge.{Knowledge, opened, known_at, id_of, next_dot, write_of, after_put, after_copy, after_delivery, after_restart, IsStateOf, IsPartOf};
ghost use Rattle.world.specs.Numbering.{IsLawful, WerePut};
ghost use Rattle.world.specs.Represents.{ShowsAt, Represents, AreDistinct, log_at, with_entry_at, empty_logs};

/// Whatever happens, a put had seen only earlier puts of its key, and no identifier of a key stands for two.
pub fn run_is_causal()
    ensures { (listed : List Helper) (ids : List ℕ) (events : List Event) (replies : List Reply) (known : Knowledge) → Run listed (opened ids) events replies known → IsCausal known.puts }
{}

/// Vnodes at which nothing happened know nothing.
pub fn vnodes_open()
    ensures { (ids : List ℕ) → AreDistinct ids → Represents (empty_logs ids) (opened ids) }
{}

/// What is known at a vnode is what its journal shows: the siblings that it leaves at a key are the current writes, and
/// its clock stands for their context. So is each state that it leaves.
pub fn replays_are_known()
    ensures shows { (logs : List Log) (world : Knowledge) (vnode : ℕ) (key : Key) → Represents logs world → vnode < length logs → ShowsAt (log_at logs vnode).entries key (known_at world vnode key) }
    ensures state { (logs : List Log) (world : Knowledge) (vnode : ℕ) (key : Key) (state : State) → Represents logs world → vnode < length logs → IsReplay (log_at logs vnode).entries key state → IsStateOf (known_at world vnode key) state }
{}

/// An entry of a put is the put of the world: its dot is the next identifier, and the write joins what its vnode knows.
pub fn puts_are_of_world()
    ensures { (logs : List Log) (world : Knowledge) (vnode stamp : ℕ) (key : Key) (seen : List Dot) (content : Content) (dot : Dot) → Represents logs world → vnode < length logs → MayFollow (id_of world vnode) (log_at logs vnode).entries (Put stamp key seen content dot)
        → (dot ≡ next_dot world vnode key) × MayPut world vnode key seen × Represents (with_entry_at logs vnode (Put stamp key seen content dot)) (after_put world vnode key (write_of world vnode key seen content)) }
{}

/// An entry of a read is a get or a send.
pub fn reads_are_of_world()
    ensures { (logs : List Log) (world : Knowledge) (vnode stamp : ℕ) (key : Key) → Represents logs world → vnode < length logs → TakesEntry (log_at logs vnode).entries
        → HasPlace world vnode × Represents (with_entry_at logs vnode (Read stamp key)) (after_copy world vnode key) }
{}

/// An entry of a merge is the delivery of the writes that its state shows.
pub fn merges_are_of_world()
    ensures { (logs : List Log) (world : Knowledge) (vnode stamp : ℕ) (key : Key) (from at : ℕ) (state : State) (writes : List Write) → Represents logs world → vnode < length logs → MayFollow (id_of world vnode) (log_at logs vnode).entries (Merge stamp key from at state) → WerePut world key writes → IsStateOf writes state
        → MayDeliver world vnode key writes
        × Represents (with_entry_at logs vnode (Merge stamp key from at state)) (after_delivery world vnode key writes)
        × (LeaveAlike (log_at logs vnode).entries ((log_at logs vnode).entries ++ Merge stamp key from at state ∷ []) key ↔ LookAlike (known_at world vnode key) (known_at world vnode key ++ writes)) }
{}

/// Beside what a vnode has of a key, a part of the state of a world's writes stands for that state, unless it lacks a content there; and it
/// does so exactly where a dot whose content was left out is that of no current write there.
pub fn parts_are_of_world()
    ensures whole { (logs : List Log) (world : Knowledge) (vnode : ℕ) (key : Key) (own : State) (writes held : List Write) (part : Partial) → Represents logs world → vnode < length logs → IsReplay (log_at logs vnode).entries key own → WerePut world key writes → IsPartOf writes held part
        → lacks_some own part ≡ false → IsStateOf writes (whole_of part own) }
    ensures lacks { (logs : List Log) (world : Knowledge) (vnode : ℕ) (key : Key) (own : State) (writes held : List Write) (part : Partial) → Represents logs world → vnode < length logs → IsReplay (log_at logs vnode).entries key own → IsPartOf writes held part
        → IsTrue (lacks_some own part) ↔ LacksLeftOut (known_at world vnode key) writes held }
{}

/// An entry of a restart is a restart.
pub fn restarts_are_of_world()
    ensures { (logs : List Log) (world : Knowledge) (vnode stamp : ℕ) → Represents logs world → vnode < length logs → TakesEntry (log_at logs vnode).entries
        → HasPlace world vnode × Represents (with_entry_at logs vnode (Restart stamp)) (after_restart world vnode) }
{}

/// Some writes have one state. So a resolver decided on what its get answered, whichever state of the writes is looked at.
pub fn states_are_told_by_writes()
    ensures { (known : List Write) (a b : State) → IsStateOf known a → IsStateOf known b → a ≡ b }
{}

/// Two states of one key in one world with equal dots and clocks are equal.
pub fn states_are_told_by_dots_and_clocks()
    ensures { (world : Knowledge) (key : Key) (mine theirs : List Write) (a b : State) → IsLawful world → WerePut world key mine → WerePut world key theirs → IsStateOf mine a → IsStateOf theirs b → map (λ (s : Sibling). s.dot) a.siblings ≡ map (λ (s : Sibling). s.dot) b.siblings → a.clock ≡ b.clock → a ≡ b }
{}
