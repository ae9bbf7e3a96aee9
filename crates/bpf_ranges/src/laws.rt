//! What the tables of kinds say of every value, as a law of their definition.

ghost use Rattle.bpf_ranges.specs.Laws.{IsSoundTable};
ghost use Rattle.bpf_semantics.specs.declared.profile.Profile.{Profile};

/// The table of kinds of either profile loses no value: what the kinds before an operation, a byte swap, a comparison or a
/// join admit, the kinds after it admit. Whoever reasons over whole runs of a program stands on this, as the verifier does.
pub fn kinds_are_sound()
    ensures { (profile : Profile) → IsSoundTable profile }
{}
