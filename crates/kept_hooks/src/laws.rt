//! What holds of lists of requests, whatever changes made them. Each of these functions does nothing: its contract is the law.

ghost use Rattle.std.specs.Prelude.{◌≡◌, ◌≢◌, ℕ, List, [], ◌∷◌, ◌++◌, None, true};
ghost use Rattle.bpf_verifier.specs.Program.{Program};
ghost use Rattle.hook_registry.specs.Changes as registry;
ghost use Rattle.http_request.specs.declared.ask.Change.{Change};
ghost use Rattle.server_store.specs.Changes.{bindings_of};
ghost use Rattle.kept_hooks.specs.declared.request.Request.{Request};
ghost use Rattle.kept_hooks.specs.Lists.{installed, removed, bound};
ghost use Rattle.kept_hooks.specs.Standing.{TellsPhases, Stands};

/// A registry that begins from a list is what all changes in order made of it, and no request of the list is refused.
pub fn lists_stand()
    ensures begins { (program : List ℕ → Program) → Stands program [] [] }
    ensures installs { (program : List ℕ → Program) (made : List registry.Change) (requests : List Request) (name image : List ℕ) → TellsPhases program → Stands program made requests
        → Stands program (made ++ registry.Install name (program image) ∷ []) (installed name image requests) }
    ensures removes { (program : List ℕ → Program) (made : List registry.Change) (requests : List Request) (name : List ℕ) → Stands program made requests → registry.program_at made name ≢ None
        → Stands program (made ++ registry.Remove name ∷ []) (removed name requests) }
    ensures binds { (program : List ℕ → Program) (made : List registry.Change) (requests : List Request) (bucket : List ℕ) (precommit resolver : Change) → Stands program made requests
        → registry.are_fitting (registry.program_at made) (bindings_of precommit resolver) ≡ true → Stands program (made ++ registry.Bind bucket (bindings_of precommit resolver) ∷ []) (bound bucket precommit resolver requests) }
{}
