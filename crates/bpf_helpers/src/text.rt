//! What the written helpers answer of texts: their order, the place of one in another, and the number that one spells.

ghost use Rattle.std.specs.Prelude.{◌≡◌, ◌≤◌, ◌↔◌, length, max};
ghost use Rattle.bpf_helpers.specs.Text.{order_of, place_of, spelled};

use memchr::memmem;
use std::cmp::Ordering;

/// What [`decimal`] answers of a text that spells no number.
const NO_NUMBER: u64 = u64::MAX;

/// The most digits that [`decimal`] reads: every number of so many fits.
const MAX_DIGITS: usize = 19;

/// 0, 1 or 2: the first text is before, equal to or after the second in the order of their bytes.
pub fn order(first: &[u8], second: &[u8]) -> u64
    ensures value { result ≡ order_of first.now second.now }
    ensures range { result ≤ 2 }
    ensures equal { (result ≡ 1) ↔ (first.now ≡ second.now) }
{
    match first.cmp(second) {
        Ordering::Less => 0,
        Ordering::Equal => 1,
        Ordering::Greater => 2,
    }
}

/// One more than the first place, from 0, at which the needle stands in the text, and 0 where it stands nowhere. An
/// empty needle stands at place 0.
pub fn find(text: &[u8], needle: &[u8]) -> u64
    ensures value { result ≡ place_of text.now needle.now }
    ensures range { result ≤ max 1 (length text.now) }
{
    match memmem::find(text, needle) {
        Some(place) => place as u64 + 1,
        None => 0,
    }
}

/// The number that 1 to 19 ASCII digits spell, leading zeros included, and 2^64 - 1 of any other text.
pub fn decimal(text: &[u8]) -> u64
    ensures { result ≡ spelled text.now }
{
    if text.is_empty() || text.len() > MAX_DIGITS {
        return NO_NUMBER;
    }
    let mut number = 0;
    for digit in text {
        if !digit.is_ascii_digit() {
            return NO_NUMBER;
        }
        number = number * 10 + u64::from(*digit - b'0');
    }
    number
}
