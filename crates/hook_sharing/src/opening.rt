//! Where a shared registry is opened.

ghost use Rattle.std.specs.Prelude.{◌≡◌, []};
ghost use Rattle.hook_sharing.specs.Lists.{list_of};

use crate::published::Published;
use hook_readers::Edit;
use hook_registry::Registry;
use shared_prefix::{Book, Front, Naming, Opened};
use std::alloc::Global;
use std::hash::DefaultHasher;
use thiserror::Error;

/// Why there is no further reader: each place for one is taken. It is shown as its number.
#[derive(Clone, Copy, Debug, PartialEq, Eq, Drop, Error)]
#[error("G3")]
pub struct NoReader;

/// The empty list of changes, which has no name yet.
pub struct Opening {
    list: Opened<Edit>,
    hasher: DefaultHasher,
}

impl Opening {
    /// A list of its own. The hashes of names and buckets begin with what a hasher was given: where that can't be guessed, strangers who
    /// choose names can't make look-ups slow.
    pub fn seeded(hasher: DefaultHasher) -> Opening {
        Opening {
            list: Opened::new(),
            hasher,
        }
    }

    /// The list under a name, with two copies of a registry where nothing is installed.
    pub fn named<J: Naming>(self, alloc: Global) -> Ground<J, Published<J>>
        requires { list_of self ≡ J.book }
        ensures { (result.front ≡ []) × (result.first ≡ []) × (result.second ≡ []) }
    {
        let Opening { list, hasher } = self;
        let (book, front) = list.named::<J>();
        let first = Published::new(Registry::seeded(alloc, hasher), front.again());
        let second = Published::new(Registry::seeded(alloc, hasher), front.again());
        Ground {
            book,
            front,
            first,
            second,
            hasher,
        }
    }
}

/// What an installer begins with: a name for the list, its empty front, and two copies of what readers see.
#[derive(Drop)]
pub struct Ground<J: Naming, T> {
    pub book: Book<Edit, J>,
    pub front: Front<Edit, J>,
    pub first: T,
    pub second: T,
    pub(crate) hasher: DefaultHasher,
}
