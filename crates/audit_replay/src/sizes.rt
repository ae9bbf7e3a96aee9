//! How many bytes contents have.

ghost use Rattle.std.specs.Prelude.{◌≡◌};
ghost use Rattle.audit_replay.specs.Sizes.{entry_bytes};

use journal::{Entry, Said};

/// The bytes of the contents of an entry: of what a put writes, or of the state that is merged.
pub fn bytes_of_entry(entry: &Entry) -> u64
    ensures { result ≡ entry_bytes entry.now }
{
    match entry.said() {
        Said::Put { content, .. } => content.bytes(),
        Said::Merge { state, .. } => state.bytes(),
        Said::Read { .. } | Said::Restart { .. } => 0,
    }
}
