//! Laws of what a hook is shown.

ghost use Rattle.std.specs.Prelude.{◌≡◌, ◌<◌, ◌≤◌, ◌^◌, ℕ, All, List, Option, length, take};
ghost use Rattle.key_state.specs.declared.content.Content.{Content};
ghost use Rattle.key_state.specs.declared.content.Sibling.{Sibling};
ghost use Rattle.bpf_image.specs.declared.image.ImageKind.{ImageKind};
ghost use Rattle.hook_abi.specs.Input.{contents_shown, values_at, window_of};
ghost use Rattle.bpf_helpers.specs.Layout.{LaysOut, newest_of};
ghost use Rattle.hook_run.specs.Newest.{newest_row, rows_of_siblings};

/// A window in which contents are shown lays out their rows, and so does its front from the end of the rows on.
pub fn shown_rows_are_laid_out()
    ensures { (len shown : ℕ) (kind : ImageKind) (new : Option Content) (siblings : List Sibling) → values_at (contents_shown new siblings) ≤ shown → LaysOut (take shown (window_of len kind (contents_shown new siblings))) (rows_of_siblings (contents_shown new siblings)) }
{}

/// Helper 19 on a window in which contents are shown, or on its front from the end of the rows on, answers the row of the newest
/// sibling, and 64 where there is none. It tells no more than 64 rows: 64 siblings, or 63 beside a new content.
pub fn newest_sibling_is_told()
    ensures { (len shown : ℕ) (kind : ImageKind) (new : Option Content) (siblings : List Sibling) → values_at (contents_shown new siblings) ≤ shown → length (contents_shown new siblings) ≤ 64 → All (λ s. (s.dot.vnode < 2 ^ 32) × (s.dot.n < 2 ^ 64)) siblings → newest_of (take shown (window_of len kind (contents_shown new siblings))) ≡ newest_row new siblings }
{
    shown_rows_are_laid_out();
    bpf_helpers::laws::newest_is_told_by_rows();
}
