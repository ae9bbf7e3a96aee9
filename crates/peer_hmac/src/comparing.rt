//! Comparing tags.

ghost use Rattle.std.specs.Prelude.{◌≡◌, ◌↔◌, IsTrue};

use crate::tagging::TAG_BYTES;

/// Whether two tags are the same. All their bytes are looked at whatever they are, without a branch on any, so how long it takes tells
/// nothing of where they differ.
pub fn constant_time_eq(one: &[u8; 32], other: &[u8; 32]) -> bool
    ensures { IsTrue result ↔ (one.now ≡ other.now) }
{
    let mut differing = 0;
    for i in 0..TAG_BYTES {
        differing = with_difference(differing, one[i], other[i]);
    }
    differing == 0
}

/// The bits in which bytes differ, beside others.
fn with_difference(differing: u8, one: u8, other: u8) -> u8
    ensures { (result ≡ 0) ↔ ((differing ≡ 0) × (one ≡ other)) }
{
    differing | (one ^ other)
}
