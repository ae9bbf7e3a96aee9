//! What is known of a register, in words that a table can hold.

ghost use Rattle.std.specs.Prelude.{◌↔◌, IsTrue};
ghost use Rattle.bpf_ranges.specs.Kinds.{IsKind, IsWord};

use bpf_ranges::{Bits, Kind, Number, Profile, Range, Word};
use bpf_semantics::Region;

/// What is known of a register.
#[derive(Clone, Copy)]
pub enum Known {
    Unset,
    Dead,
    /// A number of a range.
    Num(u64, u64),
    /// One number: all its bits are known, by the profile that knows any.
    One(u64),
    /// A number of a range, with bits that are 0 and bits that are 1.
    Bits(u64, u64, u64, u64),
    Stack(i64, i64),
    Input(i64, i64),
    /// The two words of a cell, the low one first, each by its ends if it is known.
    Words(Half, Half),
}

/// A word from its least number to its greatest, if it is known.
pub type Half = Option<(u32, u32)>;

pub const FULL: Known = Known::Num(0, u64::MAX);

pub const FULL_32: Known = Known::Num(0, 0xffff_ffff);

/// A word that says it.
fn word(half: Half) -> Option<Word> {
    match half {
        Some((lo, hi)) => Some(Word { lo, hi }),
        None => None,
    }
}

/// A number of a range with some bits.
fn number(lo: u64, hi: u64, zeros: u64, ones: u64) -> Kind {
    Kind::Num(Number {
        range: Range { lo, hi },
        bits: Bits { zeros, ones },
    })
}

impl Known {
    /// The kind that says it by a profile.
    pub fn kind(self, profile: Profile) -> Kind {
        match (self, profile) {
            (Known::Unset, _) => Kind::Unset,
            (Known::Dead, _) => Kind::Dead,
            (Known::Num(lo, hi), _) => number(lo, hi, 0, 0),
            (Known::One(n), Profile::First) => number(n, n, 0, 0),
            (Known::One(n), Profile::Second) => number(n, n, !n, n),
            (Known::Bits(lo, hi, zeros, ones), _) => number(lo, hi, zeros, ones),
            (Known::Stack(lo, hi), _) => Kind::Ptr {
                region: Region::Stack,
                lo,
                hi,
            },
            (Known::Input(lo, hi), _) => Kind::Ptr {
                region: Region::Input,
                lo,
                hi,
            },
            (Known::Words(low, high), _) => Kind::Halves {
                low: word(low),
                high: word(high),
            },
        }
    }
}

/// Whether a word may be known.
fn is_word(word: Option<Word>) -> bool
    ensures { IsTrue result ↔ IsWord word }
{
    match word {
        Some(word) => word.lo <= word.hi,
        None => true,
    }
}

/// Whether a kind may be known of a register or a cell.
pub fn is_kind(kind: Kind) -> bool
    ensures { IsTrue result ↔ IsKind kind }
{
    match kind {
        Kind::Unset | Kind::Dead => true,
        Kind::Num(a) => a.range.lo <= a.range.hi,
        Kind::Ptr { lo, hi, .. } => -(1 << 33) <= lo && lo <= hi && hi <= 1 << 33,
        Kind::Halves { low, high } => is_word(low) && is_word(high),
    }
}
