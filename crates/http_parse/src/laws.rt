//! Laws of the definitions.

ghost use Rattle.std.specs.Prelude.{ℕ, List, ◌++◌};
ghost use Rattle.http_parse.specs.Known.{IsKnownOf};
ghost use Rattle.http_parse.specs.One.{AsksOne};
ghost use Rattle.http_parse.specs.declared.known.KnownHead.{KnownHead};

/// What the first request of some bytes asks for is one.
pub fn asks_one()
    ensures { (copies : ℕ) (bytes : List ℕ) → AsksOne copies bytes }
{}

/// What is known of the head of some bytes is known of it too when bytes come behind them.
pub fn heads_stay_known()
    ensures { (known : KnownHead) (bytes more : List ℕ) → IsKnownOf known bytes → IsKnownOf known (bytes ++ more) }
{}
