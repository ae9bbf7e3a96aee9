//! Kinds of registers, and what two of them have in common.

ghost use Rattle.std.specs.Prelude.{◌≡◌, ◌≤◌, ◌<◌, ◌^◌, ℕ, Option, Some, IfSome};
ghost use Rattle.std.specs.Int.{int_min, int_max};
ghost use Rattle.bpf_ranges.specs.Numbers.{IsNumber};
ghost use Rattle.bpf_ranges.specs.Kinds.{Admits, IsKind, IsWord};
ghost use Rattle.bpf_ranges.specs.Words.{low_word, high_word, joined_words};
ghost use Rattle.bpf_ranges.specs.Transfer.{kind_in, kind_of, number_in, join_of, joined_pointers, word_kind, whole_kind, part_of, with_part, part_value, value_with};

use crate::bits::Bits;
use crate::number::Number;
use crate::range::Range;
use crate::word::{Word, join_words};
use bpf_semantics::{Profile, Region};

/// What is known of a register before an instruction.
#[derive(Clone, Copy, PartialEq, Eq)]
pub enum Kind {
    /// Nothing: it may hold any number, or none.
    Unset,
    /// That no run comes here: there is no number that it could hold.
    Dead,
    Num(Number),
    /// An address from `lo` to `hi` bytes, both included, past the place in the region that offsets count from: the
    /// stack's end, the first byte of the input or of the output.
    Ptr {
        region: Region,
        lo: i64,
        hi: i64,
    },
    /// Of a cell of the stack alone: its two words, each if it is known. Of a half of an address nothing is.
    Halves {
        low: Option<Word>,
        high: Option<Word>,
    },
}

/// What is read or written of a cell of the stack: all its 8 bytes, or the 4 of one half.
#[derive(Clone, Copy, PartialEq, Eq)]
pub enum Part {
    Whole,
    Low,
    High,
}

/// Why an operation on kinds is refused.
#[derive(Clone, Copy, PartialEq, Eq)]
pub enum Bad {
    /// Arithmetic on a pointer that the profile does not know.
    V22,
    /// An offset that is further than 2^20 from its region, by the second profile than 2^33, or not known to be near.
    V23,
}

impl Kind {
    /// What is left of a number, and Dead where nothing is.
    pub fn left(number: Option<Number>) -> Kind
        requires { IfSome number IsNumber }
        ensures table { result ≡ kind_of number }
        ensures kind { IsKind result }
    {
        match number {
            Some(a) => Kind::Num(a),
            None => Kind::Dead,
        }
    }

    /// The number that this is, if it is any: a pointer is some address between its bounds.
    pub fn as_number(self) -> Option<Number>
        requires { IsKind self }
        ensures table { result ≡ number_in self }
        ensures number { IfSome result IsNumber }
    {
        match self {
            Kind::Num(a) => Some(a),
            Kind::Ptr { region, lo, hi } => Some(Number::of_pointer(region, lo, hi)),
            Kind::Unset | Kind::Dead | Kind::Halves { .. } => None,
        }
    }

    /// The low half, if it is known.
    pub fn low_word(self) -> Option<Word>
        requires { IsKind self }
        ensures table { result ≡ low_word self }
        ensures word { IsWord result }
    {
        match self {
            Kind::Num(a) => Some(Word::low_of(a.range)),
            Kind::Dead => Some(Word::any()),
            Kind::Halves { low, .. } => low,
            Kind::Unset | Kind::Ptr { .. } => None,
        }
    }

    /// The high half, if it is known.
    pub fn high_word(self) -> Option<Word>
        requires { IsKind self }
        ensures table { result ≡ high_word self }
        ensures word { IsWord result }
    {
        match self {
            Kind::Num(a) => Some(Word::high_of(a.range)),
            Kind::Dead => Some(Word::any()),
            Kind::Halves { high, .. } => high,
            Kind::Unset | Kind::Ptr { .. } => None,
        }
    }

    /// What a part of a cell that is known so is read as: a half has zeros above it.
    pub fn part(self, profile: Profile, part: Part) -> Kind
        requires { IsKind self }
        ensures table { result ≡ part_of profile part self }
        ensures kind { IsKind result }
        ensures sound { (n : ℕ) → n < 2 ^ 64 → Admits self (Some n) → Admits result (Some (part_value part n)) }
    {
        read_part(profile, part, self)
    }

    /// What is known of a cell, of which this was known, after the low bytes of what a kind admits were written to a part of it.
    pub fn with_part(self, part: Part, stored: Kind) -> Kind
        requires cell { IsKind self }
        requires stored { IsKind stored }
        ensures table { result ≡ with_part part stored self }
        ensures kind { IsKind result }
        ensures sound { (n old : ℕ) → old < 2 ^ 64 → Admits stored (Some n) → Admits self (Some old) → Admits result (Some (value_with part n old)) }
    {
        write_part(part, stored, self)
    }
}

/// A word that is read alone.
fn word_kind(profile: Profile, word: Option<Word>) -> Kind
    requires { IsWord word }
    ensures table { result ≡ word_kind profile word }
    ensures kind { IsKind result }
{
    match word {
        Some(word) => kind_in(profile, word.range()),
        None => Kind::Unset,
    }
}

/// Two words that are read as one number.
fn whole_kind(profile: Profile, low: Option<Word>, high: Option<Word>) -> Kind
    requires low { IsWord low }
    requires high { IsWord high }
    ensures table { result ≡ whole_kind profile low high }
    ensures kind { IsKind result }
{
    match (low, high) {
        (Some(low), Some(high)) => kind_in(profile, low.below(high)),
        _ => Kind::Unset,
    }
}

fn read_part(profile: Profile, part: Part, cell: Kind) -> Kind
    requires { IsKind cell }
    ensures table { result ≡ part_of profile part cell }
    ensures kind { IsKind result }
{
    match part {
        Part::Whole => match cell {
            Kind::Halves { low, high } => whole_kind(profile, low, high),
            _ => cell,
        },
        Part::Low => word_kind(profile, cell.low_word()),
        Part::High => word_kind(profile, cell.high_word()),
    }
}

fn write_part(part: Part, stored: Kind, cell: Kind) -> Kind
    requires stored { IsKind stored }
    requires cell { IsKind cell }
    ensures table { result ≡ with_part part stored cell }
    ensures kind { IsKind result }
{
    match part {
        Part::Whole => stored,
        Part::Low => Kind::Halves {
            low: stored.low_word(),
            high: cell.high_word(),
        },
        Part::High => Kind::Halves {
            low: cell.low_word(),
            high: stored.low_word(),
        },
    }
}

/// Two cells' halves, joined word by word.
fn join_halves(a: Kind, b: Kind) -> Kind
    requires left { IsKind a }
    requires right { IsKind b }
    ensures table { result ≡ Kind.Halves (joined_words (low_word a) (low_word b)) (joined_words (high_word a) (high_word b)) }
    ensures kind { IsKind result }
{
    Kind::Halves {
        low: join_words(a.low_word(), b.low_word()),
        high: join_words(a.high_word(), b.high_word()),
    }
}

/// A pointer between the bounds of two pointers into one region.
fn least_pointer(region: Region, lo: i64, hi: i64, low: i64, high: i64) -> Kind
    ensures { result ≡ Kind.Ptr region (int_min lo low) (int_max hi high) }
{
    Kind::Ptr {
        region,
        lo: lo.min(low),
        hi: hi.max(high),
    }
}

/// A pointer that is one of two: nothing is known where they are of unlike regions.
fn join_pointers(region: Region, lo: i64, hi: i64, other: Region, low: i64, high: i64) -> Kind
    ensures table { result ≡ joined_pointers region lo hi other low high }
    ensures kind { IsKind (Kind.Ptr region lo hi) → IsKind (Kind.Ptr other low high) → IsKind result }
{
    if region == other {
        least_pointer(region, lo, hi, low, high)
    } else {
        Kind::Unset
    }
}

fn join_kinds(profile: Profile, a: Kind, b: Kind) -> Kind
    requires left { IsKind a }
    requires right { IsKind b }
    ensures table { result ≡ join_of profile a b }
    ensures kind { IsKind result }
{
    match (a, b) {
        (Kind::Dead, _) => b,
        (_, Kind::Dead) => a,
        (Kind::Num(x), Kind::Num(y)) => Kind::left(Number::joined(profile, x, y)),
        (
            Kind::Ptr { region, lo, hi },
            Kind::Ptr {
                region: other,
                lo: low,
                hi: high,
            },
        ) => join_pointers(region, lo, hi, other, low, high),
        (Kind::Halves { .. }, Kind::Halves { .. } | Kind::Num(_))
        | (Kind::Num(_), Kind::Halves { .. }) => join_halves(a, b),
        _ => Kind::Unset,
    }
}

/// The least kind that admits what either admits: the least range over both of two numbers and the bits that they share,
/// the least range over two pointers into one region, the other one of Dead, halves word by word, and Unset of any other two.
pub fn join(profile: Profile, a: Kind, b: Kind) -> Kind
    requires left { IsKind a }
    requires right { IsKind b }
    ensures table { result ≡ join_of profile a b }
    ensures kind { IsKind result }
    ensures left { (v : Option ℕ) → Admits a v → Admits result v }
    ensures right { (v : Option ℕ) → Admits b v → Admits result v }
{
    join_kinds(profile, a, b)
}

/// What is known of a number of a range, which is not empty.
pub fn kind_in(profile: Profile, range: Range) -> Kind
    requires { range.lo ≤ range.hi }
    ensures table { result ≡ kind_in profile range }
    ensures kind { IsKind result }
{
    Kind::left(Number::settled(profile, range, Bits::nothing()))
}
