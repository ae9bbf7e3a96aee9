//! Laws of the definitions.

ghost use Rattle.std.specs.Prelude.{◌≡◌, ◌≤◌, ℕ, List, length, position, unwrap_or};
ghost use Rattle.bpf_helpers.specs.declared.layout.Row.{Row};
ghost use Rattle.bpf_helpers.specs.Layout.{LaysOut, AreRows, is_newest, newest_of};

/// What helper 19 answers of a window that lays out rows as a hook's input does: the index of the first row that is a sibling
/// and that no row is newer than, and 64 where no row is a sibling.
pub fn newest_is_told_by_rows()
    ensures { (window : List ℕ) (rows : List Row) → LaysOut window rows → AreRows rows → length rows ≤ 64 → newest_of window ≡ unwrap_or (position (is_newest rows) rows) 64 }
{}
