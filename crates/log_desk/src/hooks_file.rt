//! The file of the requests that make hooks what they are.

ghost use Rattle.std.specs.Prelude.{ℕ, List, IsTrue};

use std::alloc::Global;

/// Where a folder keeps the requests that make hooks what they are.
pub trait HooksFile {
    /// These requests stand in the file now.
    ghost keeps: { Self → List ℕ → Self → Type 0 };

    /// Replaces the file. Whether that was done.
    fn keep_hooks(&mut self, alloc: Global, requests: &[u8]) -> bool
        ensures { IsTrue result → keeps self.old requests.now self.new };
}
