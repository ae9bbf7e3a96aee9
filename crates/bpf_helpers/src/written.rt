//! The Sigs of the written helpers.

ghost use Rattle.std.specs.Prelude.{◌≡◌, ◌↔◌, IsTrue};
ghost use Rattle.std.specs.Option.{option_map};
ghost use Rattle.bpf_helpers.specs.Shapes.{shape_of, written_shape, IsAsWritten};

use crate::sig::{ArgRule, Entry, Sig};
use bpf_semantics::MAX_WINDOW_BYTES;

/// The written Sig of the number of a written helper, 16 to 19.
pub fn written_sig(number: u32) -> Option<Sig>
    ensures { option_map shape_of result ≡ written_shape number }
{
    let read = ArgRule::Read {
        max: MAX_WINDOW_BYTES,
    };
    let (len, unused) = (ArgRule::Len, ArgRule::Unused);
    let one = [read, len, unused, unused, unused];
    let two = [read, len, read, len, unused];
    match number {
        16 => Sig::new(two, (0, 2)),
        17 => Sig::new(two, (0, u64::from(MAX_WINDOW_BYTES))),
        18 => Sig::new(one, (0, u64::MAX)),
        19 => Sig::new(one, (0, 64)),
        _ => None,
    }
}

/// Whether the Sig is the written one, or the number is not that of a written helper.
pub fn is_as_written(entry: Entry) -> bool
    ensures { IsTrue result ↔ IsAsWritten entry.number entry.sig }
{
    match written_sig(entry.number) {
        Some(written) => entry.sig == written,
        None => true,
    }
}
