//! Laws of the definitions.

ghost use Rattle.std.specs.Prelude.{◌≡◌, ◌↔◌, ◌++◌, ◌∷◌, [], List, None, Some, IsTrue, false, is_some, map};
ghost use Rattle.dvv.specs.declared.Dot.{Dot};
ghost use Rattle.dvv.specs.Clock.{Covers, Within};
ghost use Rattle.key_state.specs.declared.content.Content.{Content};
ghost use Rattle.key_state.specs.declared.content.Sibling.{Sibling as OneSibling};
ghost use Rattle.key_state.specs.State.{State, Puts, Merges, IsState, HaveSameDots, content_at};
ghost use Rattle.key_state.specs.Parts.{Summarized, HoldsLeftOut, summary_of, part_of, whole_of, holds, lacks_some, contents_in};
ghost use Rattle.key_state.specs.Limits.{most_siblings, longest_bucket, longest_key, longest_media, longest_value};
ghost use Rattle.key_state.specs.Known.{Write, write_of, IsCurrent, InContext, Shows, AreUnique, NoneSawItself, current_among, context_of, ShowsKnown};

use crate::limits::{
    MAX_BUCKET_BYTES, MAX_KEY_BYTES, MAX_MEDIA_BYTES, MAX_SIBLINGS, MAX_VALUE_BYTES,
};

/// The constants are the limits' numbers.
pub fn limits()
    ensures siblings { MAX_SIBLINGS ≡ most_siblings }
    ensures bucket { MAX_BUCKET_BYTES ≡ longest_bucket }
    ensures key { MAX_KEY_BYTES ≡ longest_key }
    ensures media { MAX_MEDIA_BYTES ≡ longest_media }
    ensures value { MAX_VALUE_BYTES ≡ longest_value }
{}

/// A put keeps what a state shows: the current writes and the context of what is known.
pub fn put_shows()
    ensures { (known : List Write) (old new : State) (dot : Dot) (seen : List Dot) (content : Content) → Shows known old → (Covers old.clock dot → ⊥) → Within seen old.clock → Puts old new dot seen content → Shows (known ++ write_of dot content seen ∷ []) new }
{}

/// So does a merge, where no identifier stands for two writes.
pub fn merge_shows()
    ensures { (mine theirs : List Write) (own other new : State) → Shows mine own → Shows theirs other → AreUnique (mine ++ theirs) → Merges own other new → Shows (mine ++ theirs) new }
{}

/// What is current, and the context, told by sets of writes and computed dot by dot are the same, where no identifier
/// stands for two writes and no write had seen itself.
pub fn forms_agree()
    ensures current { (known : List Write) (dot : Dot) (content : Content) → AreUnique known → NoneSawItself known → (current_among known dot ≡ Some content) ↔ ((write : Write) × IsCurrent known write × (write.dot ≡ dot) × (write.content ≡ content)) }
    ensures context { (known : List Write) (dot : Dot) → IsTrue (context_of known dot) ↔ InContext known dot }
    ensures shows { (known : List Write) (state : State) → AreUnique known → NoneSawItself known → Shows known state ↔ ShowsKnown state known }
{}

/// A state is told by its contents dot by dot and the events that it knows.
pub fn states_are_told_by_contents()
    ensures { (a b : State) → IsState a → IsState b → ((dot : Dot) → content_at a.siblings dot ≡ content_at b.siblings dot) → ((dot : Dot) → Covers a.clock dot ↔ Covers b.clock dot) → a ≡ b }
{}

/// Two states of one key in one world are told by their dots and clocks, where no identifier stands for two writes.
pub fn states_are_told_by_dots()
    ensures { (mine theirs : List Write) (a b : State) → IsState a → IsState b → Shows mine a → Shows theirs b → AreUnique (mine ++ theirs) → HaveSameDots a b → a ≡ b }
{}

/// So are two whose siblings have equal dots in order and whose clocks have equal entries: what a repair compares.
pub fn states_are_told_by_dots_and_clocks()
    ensures { (mine theirs : List Write) (a b : State) → IsState a → IsState b → Shows mine a → Shows theirs b → AreUnique (mine ++ theirs) → map (λ (s : OneSibling). s.dot) a.siblings ≡ map (λ (s : OneSibling). s.dot) b.siblings → a.clock ≡ b.clock → a ≡ b }
{}

/// A part that was made of a state stands for that state where each content that was left out is held: by one who has the
/// state's own contents under these dots, and so by whoever is of the same world and lacks none of them.
pub fn parts_stand_for_their_states()
    ensures held { (own state : State) (summary : Summarized) → IsState state → HoldsLeftOut own state summary → lacks_some own (part_of state summary) ≡ false }
    ensures whole { (own state : State) (summary : Summarized) → IsState state → HoldsLeftOut own state summary → whole_of (part_of state summary) own ≡ state }
    ensures world { (mine theirs : List Write) (own state : State) (summary : Summarized) → IsState state → Shows mine own → Shows theirs state → AreUnique (mine ++ theirs) → lacks_some own (part_of state summary) ≡ false → whole_of (part_of state summary) own ≡ state }
{}

/// A part is lacking exactly where the summary for which it was made holds a dot of the state that is none of the own.
pub fn parts_lack_what_is_held_no_more()
    ensures { (own state : State) (summary : Summarized) → IsTrue (lacks_some own (part_of state summary)) ↔ ((dot : Dot) × IsTrue (holds summary dot) × IsTrue (is_some (content_at state.siblings dot)) × (content_at own.siblings dot ≡ None)) }
{}

/// Where a summary is that of a state itself, the part of that state has no content.
pub fn parts_of_what_is_held_are_empty()
    ensures { (state : State) → contents_in (part_of state (summary_of state)) ≡ 0 }
{}
