//! What holds of exchanges. Each of these functions does nothing: its contract is the law.

ghost use Rattle.std.specs.Prelude.{◌≡◌, ◌++◌, List, false};
ghost use Rattle.key_state.specs.Parts.{summary_of, part_of, whole_of, lacks_some};
ghost use Rattle.key_state.specs.State.{State, IsState};
ghost use Rattle.key_state.specs.Known.{Write, Shows, AreUnique};
ghost use Rattle.peers.specs.declared.peers.Answer.{Answer};
ghost use Rattle.peers.specs.declared.peers.SummaryAnswer.{SummaryAnswer};
ghost use Rattle.repair.specs.Exchanges.{Alike, IsFair};

/// Where an exchange sent nothing for a key since the receiver's summary is that of the sender's state, the receiver's state is the
/// sender's, where no identifier stands for two writes.
pub fn alike_are_equal()
    ensures { (mine theirs : List Write) (held : State) (told : SummaryAnswer) (own : Answer) → IsState own.state → IsState held → told.summary ≡ summary_of held → Shows mine own.state → Shows theirs held → AreUnique (mine ++ theirs) → IsFair (Alike told own) → own.state ≡ held }
{
    key_state::laws::states_are_told_by_dots_and_clocks();
}

/// Where an exchange sent a part and no content that was left out lacked at the receiver, what the part stood for there is the sender's
/// state, where no identifier stands for two writes.
pub fn parts_are_whole()
    ensures { (mine theirs : List Write) (held : State) (told : SummaryAnswer) (own : Answer) → IsState own.state → Shows mine held → Shows theirs own.state → AreUnique (mine ++ theirs) → lacks_some held (part_of own.state told.summary) ≡ false → whole_of (part_of own.state told.summary) held ≡ own.state }
{
    key_state::laws::parts_stand_for_their_states();
}
