//! What holds of rows of servers, whatever is done with them. Each of these functions does nothing: its contract is the law.

ghost use Rattle.std.specs.Prelude.{◌≡◌, ◌⊎◌, ℕ, List, ◌∷◌, ◌++◌, IsTrue};
ghost use Rattle.ring.specs.Places.{AreDifferent};
ghost use Rattle.peer_placement.specs.Rows.{IsRow, is_among, row_of};

/// A row has three different servers, or all where there are fewer, and each comes before each server that isn't in it.
pub fn rows_are_first()
    ensures { (partition : ℕ) (servers : List ℕ) → AreDifferent servers → IsRow partition servers (row_of partition servers) }
{}

/// Where a server comes or goes, wherever it stands in the list, nothing moves between two others: with it, a row has servers of the row
/// without it, and maybe itself.
pub fn nothing_moves_between_others()
    ensures { (partition s t : ℕ) (before behind : List ℕ) → AreDifferent (before ++ s ∷ behind) → IsTrue (is_among (row_of partition (before ++ s ∷ behind)) t) → (t ≡ s) ⊎ IsTrue (is_among (row_of partition (before ++ behind)) t) }
{}

/// Where a server comes or goes, a row that it isn't in stays the same.
pub fn other_rows_stay()
    ensures { (partition s : ℕ) (before behind : List ℕ) → AreDifferent (before ++ s ∷ behind) → (IsTrue (is_among (row_of partition (before ++ s ∷ behind)) s) → ⊥) → row_of partition (before ++ s ∷ behind) ≡ row_of partition (before ++ behind) }
{}

/// The order in which servers are listed changes nothing: of two lists that differ in the place of one server, both have the same rows.
pub fn order_changes_nothing()
    ensures { (partition s : ℕ) (before between behind : List ℕ) → AreDifferent (before ++ s ∷ (between ++ behind)) → row_of partition (before ++ s ∷ (between ++ behind)) ≡ row_of partition (before ++ (between ++ s ∷ behind)) }
{}
