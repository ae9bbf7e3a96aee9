//! Prefixes of a list that only grows. What a thread knows of the list stays a prefix of it, whatever other threads add.
//!
//! Iris has the same as `mono_list` (Iris, `algebra/lib/mono_list.v`): one list that only grows, and any number of its prefixes.

ghost use Rattle.std.specs.Prelude.{◌≡◌, ◌+◌, ◌==◌, ◌<◌, ◌≤◌, ◌^◌, ◌++◌, ◌∷◌, ◌⊎◌, ◌↔◌, [], length, IsTrue, MatchBool};
ghost use mathlib.Core.List.{IsPrefix};
ghost use Rattle.shared_prefix.specs.Rules.{head_of, IsLonger};

use logbook::{Gain, Offer, Plain, Play, Rule, Seen, Start, Word};
use std::marker::{Brand, Model, PhantomData};

/// So many members a list has at the most.
const MAX_MEMBERS: u64 = 1 << 62;

/// The rule of the book.
pub struct Law;

impl<C> Rule<C, u64> for Law {
    ghost use Rattle.std.specs.Prelude.{[]};
    ghost use base.Fml.{ftrue};
    ghost use Rattle.shared_prefix.specs.Rules.{IsKept};

    ghost holds = { λ cells log. IsKept cells log };

    ghost first = { [] };

    ghost hinted = { λ n log. Unit {0} };

    ghost shows = { λ log. [] };

    ghost keeps = { λ names log. ftrue };

    ghost moves = { λ ask before after answer. Unit {0} };
}

/// Callers trade nothing.
pub struct Nothing;

impl<C> Gain<C, u64> for Nothing {
    ghost use base.Fml.{ftrue};

    ghost after = { λ names about answer. ftrue };
}

/// A step that adds a member.
pub struct Add;

impl<C> Play<C, u64> for Add {
    ghost use Rattle.shared_prefix.specs.Rules.{Adds};

    ghost then = { Adds };
}

/// What a step asks for: the member.
impl<C> Plain<C, C, u64> for Add {
    ghost use Rattle.std.specs.Prelude.{None};

    ghost ask = { λ member. member };

    ghost state = { λ member. None };
}

/// Which book it is. Each call of a program picks it.
pub trait Naming {
    ghost use Rattle.logbook.specs.Pages.{Book};

    ghost book: { Book };
}

impl Naming for Brand {
    ghost book = { record { number = 0; log_name = 0; cells_name = 0 } };
}

/// An empty list, which has no name yet.
pub struct Opened<C> {
    head: Word<C, u64, Law>,
    seen: Seen<C, u64, Law>,
    pub ghost empty: { seen.log ≡ [] },
    pub ghost head_is: { head ≡ head_of seen.book },
}

impl<C> Opened<C> {
    ghost use Rattle.shared_prefix.specs.Lists.{book_of};

    /// A list of its own, with no member.
    pub fn new() -> Opened<C> {
        let (seen, mut first, _second) = Seen::open(Start::alone(), 0, 0);
        Opened {
            head: Word::tracked(0, &mut first),
            seen,
        }
    }

    /// The list's word under a name, and the front that has seen nothing.
    pub fn named<J: Naming>(self) -> (Book<C, J>, Front<C, J>)
        requires { book_of self ≡ J.book }
        ensures { result.1 ≡ [] }
    {
        let Opened { head, seen } = self;
        (
            Book {
                head,
                of: PhantomData,
            },
            Front {
                count: 0,
                seen,
                of: PhantomData,
            },
        )
    }
}

/// The word that all threads share: the length of the list.
#[derive(Drop)]
pub struct Book<C, J: Naming> {
    head: Word<C, u64, Law>,
    of: PhantomData<J>,
    ghost head_is: { head ≡ head_of J.book },
}

/// A prefix of the list, as it was seen. Contracts see it as its members.
#[derive(Drop)]
pub struct Front<C, J: Naming> {
    count: u64,
    seen: Seen<C, u64, Law>,
    of: PhantomData<J>,
}

impl<C, J: Naming> Model for Front<C, J> {
    ghost use Rattle.std.specs.Prelude.{◌≡◌, List, length};

    ghost Value = { List C };

    ghost view = { λ f. f.seen.log };

    ghost invariant = { λ f. (f.count ≡ length f.seen.log) × (f.seen.book ≡ J.book) };
}

impl<C, J: Naming> Front<C, J> {
    /// How many members it has.
    pub fn len(&self) -> u64
        ensures length { result ≡ length self.now }
    {
        self.count
    }

    /// Whether it has as many members as a list may have: 2^62.
    pub fn is_full(&self) -> bool
        ensures { IsTrue result ↔ 2 ^ 62 ≤ length self.now }
    {
        self.count >= MAX_MEMBERS
    }

    /// A copy.
    pub fn again(&self) -> Front<C, J>
        ensures { result ≡ self.now }
    {
        Front {
            count: self.count,
            seen: self.seen.again(),
            of: PhantomData,
        }
    }

    /// The longer of two fronts, which begins with the other.
    pub fn longer(&self, other: &Front<C, J>) -> Front<C, J>
        ensures one { (result ≡ self.now) ⊎ (result ≡ other.now) }
        ensures this { IsPrefix self.now result }
        ensures that { IsPrefix other.now result }
    {
        let mut both = self.seen.again();
        both.learn(&other.seen);
        if self.count < other.count {
            other.again()
        } else {
            self.again()
        }
    }

    /// Adds a member to the list where all of that was seen, and says whether it did. It did not where the list is longer: then all of it
    /// is seen. A list that is full doesn't grow ([`is_full`](Front::is_full)).
    pub fn grow(&mut self, book: &Book<C, J>, member: &C) -> bool
        requires room { length self.old < 2 ^ 62 }
        ensures { MatchBool result (self.new ≡ self.old ++ member.now ∷ []) (IsLonger self.old self.new) }
    {
        let mut offer: Offer<C, u64, Law, Nothing> = self.seen.plain::<Nothing, C, Add>(member);
        let mut pen = self.seen.no_pen();
        let count = self.count;
        let found = book
            .head
            .compare_exchange::<Add, Nothing>(
                count,
                count + 1,
                &mut self.seen,
                &mut offer,
                &mut pen,
            );
        self.count = if found == count { count + 1 } else { found };
        found == count
    }
}
