//! Laws of answers.

ghost use Rattle.std.specs.Prelude.{◌^◌, ◌<◌, List, length, sum_by};
ghost use Rattle.key_state.specs.declared.content.Sibling.{Sibling};
ghost use Rattle.http_response.specs.Parts.{bytes_of, boundary_of, IsLeastFree};

/// The boundary of a body in parts has the least number whose delimiter stands in no value; there always is one.
pub fn least_boundary()
    ensures { (siblings : List Sibling) → sum_by (λ s. length (bytes_of s.content)) siblings < 2 ^ 64 → IsLeastFree siblings (boundary_of siblings) }
{}
