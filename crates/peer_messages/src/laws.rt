//! What holds of messages, whatever is done with them. Each of these functions does nothing: its contract is the law.

ghost use Rattle.std.specs.Prelude.{◌≡◌, ℕ, List, ◌++◌};
ghost use Rattle.peer_remote.specs.declared.message.Question.{Question as OneQuestion};
ghost use Rattle.peer_remote.specs.declared.message.Told.{Told as Answer};
ghost use Rattle.peer_messages.specs.Limits.{IsQuestion, IsTold};
ghost use Rattle.peer_messages.specs.Messages.{question_text, told_text};

/// No spelling of a question begins another.
pub fn no_question_begins_another()
    ensures { (a b : OneQuestion) (x y : List ℕ) → IsQuestion a → IsQuestion b → question_text a ++ x ≡ question_text b ++ y → (a ≡ b) × (x ≡ y) }
{}

/// No spelling of an answer begins another.
pub fn no_answer_begins_another()
    ensures { (a b : Answer) (x y : List ℕ) → IsTold a → IsTold b → told_text a ++ x ≡ told_text b ++ y → (a ≡ b) × (x ≡ y) }
{}
