//! What holds of registries, whatever is done with them. Each of these functions does nothing: its contract is the law.

ghost use Rattle.std.specs.Prelude.{◌≡◌, ℕ, List, ◌++◌, ◌∷◌, []};
ghost use Rattle.bpf_image.specs.declared.image.ImageKind.{ImageKind};
ghost use Rattle.hook_registry.specs.Changes.{Change, hook_at};
ghost use Rattle.hook_registry.specs.Tables.{ChangesBy, Shown, Shows, hook_in};

/// A registry that shows a list of changes shows it with each further change at the end.
pub fn changes_add_up()
    ensures { (changes : List Change) (change : Change) (old new : Shown) → Shows changes old → ChangesBy old new change → Shows (changes ++ change ∷ []) new }
{}

/// The hook that a registry shows is the hook of its changes.
pub fn hook_is_of_changes()
    ensures { (changes : List Change) (shown : Shown) (bucket : List ℕ) (kind : ImageKind) → Shows changes shown → hook_in shown bucket kind ≡ hook_at changes bucket kind }
{}
