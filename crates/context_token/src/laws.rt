//! Laws of tokens.

ghost use Rattle.std.specs.Prelude.{◌≡◌, List, ℕ, Ok};
ghost use Rattle.dvv.specs.declared.Dot.{Dot};
ghost use Rattle.context_token.specs.Token.{token, read_text, HasToken, IsToken};

/// What a clock's text is read as: that clock.
pub fn one_clock()
    ensures { (clock : List Dot) → HasToken clock → read_text (token clock) ≡ Ok clock }
{}

/// Clocks with one text are one clock.
pub fn one_text()
    ensures { (a b : List Dot) → HasToken a → HasToken b → token a ≡ token b → a ≡ b }
{}

/// A clock's text of any version is read as that clock, so that a text is one clock's.
pub fn any_version()
    ensures read { (clock : List Dot) (text : List ℕ) → HasToken clock → IsToken text clock → read_text text ≡ Ok clock }
    ensures written { (clock : List Dot) → IsToken (token clock) clock }
{}
