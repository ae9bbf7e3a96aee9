//! Words of 4 bytes: what a cell of the stack knows of its halves.

ghost use Rattle.std.specs.Prelude.{◌≡◌, ◌≤◌, ◌+◌, ◌*◌, ◌^◌, IfSome};
ghost use Rattle.bpf_ranges.specs.Numbers.{range, IsRange};
ghost use Rattle.bpf_ranges.specs.Kinds.{IsWord, IsKind};
ghost use Rattle.bpf_ranges.specs.Words.{low_of, high_of, any_word, joined_words};

use crate::range::Range;
use bpf_alu::Width;

/// The numbers of 32 bits from `lo` to `hi`, both included.
#[derive(Clone, Copy, PartialEq, Eq)]
pub struct Word {
    pub lo: u32,
    pub hi: u32,
}

impl Word {
    /// Any number of 32 bits.
    pub fn any() -> Word
        ensures table { result ≡ any_word }
        ensures word { IsWord (Some result) }
    {
        Word {
            lo: 0,
            hi: u32::MAX,
        }
    }

    /// The low halves of the numbers of a range.
    pub fn low_of(range: Range) -> Word
        requires { range.lo ≤ range.hi }
        ensures table { result ≡ low_of range }
        ensures word { IsWord (Some result) }
    {
        let low = Range::wrapped(Width::W32, u128::from(range.lo), u128::from(range.hi));
        Word {
            lo: low.lo as u32,
            hi: low.hi as u32,
        }
    }

    /// The high halves of the numbers of a range.
    pub fn high_of(range: Range) -> Word
        requires { range.lo ≤ range.hi }
        ensures table { result ≡ high_of range }
        ensures word { IsWord (Some result) }
    {
        Word {
            lo: (range.lo >> 32) as u32,
            hi: (range.hi >> 32) as u32,
        }
    }

    /// The numbers of this, as numbers of 64 bits.
    pub fn range(self) -> Range
        ensures { result ≡ range self.lo self.hi }
    {
        Range {
            lo: u64::from(self.lo),
            hi: u64::from(self.hi),
        }
    }

    /// The numbers of which this is the low half, and another one the high one.
    pub fn below(self, high: Word) -> Range
        ensures { result ≡ range (self.lo + 2 ^ 32 * high.lo) (self.hi + 2 ^ 32 * high.hi) }
    {
        Range {
            lo: u64::from(self.lo) + (u64::from(high.lo) << 32),
            hi: u64::from(self.hi) + (u64::from(high.hi) << 32),
        }
    }
}

/// The least words over both, where both are known.
pub fn join_words(a: Option<Word>, b: Option<Word>) -> Option<Word>
    requires left { IsWord a }
    requires right { IsWord b }
    ensures table { result ≡ joined_words a b }
    ensures word { IsWord result }
{
    match (a, b) {
        (Some(a), Some(b)) => Some(Word {
            lo: a.lo.min(b.lo),
            hi: a.hi.max(b.hi),
        }),
        _ => None,
    }
}
