//! To which slots jumps lead.

ghost use Rattle.std.specs.Prelude.{◌≡◌, ◌<◌, ℕ, pos, false, Some, IfSome, IfNone};
ghost use Rattle.bpf_copies.specs.Led.{is_slot};

/// Where a jump leads, if there is one, among so many slots.
pub fn place_of(target: Option<i64>, slots: usize) -> Option<usize>
    ensures some { IfSome result (λ place. target ≡ Some (pos place)) }
    ensures within { IfSome result (λ place. place < slots) }
    ensures none { IfNone result ((k : ℕ) → k < slots → is_slot k target ≡ false) }
{
    match target {
        Some(target) if target >= 0 && (target as usize) < slots => Some(target as usize),
        _ => None,
    }
}
