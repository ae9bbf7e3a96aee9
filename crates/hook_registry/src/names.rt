//! What stands under names.

ghost use Rattle.std.specs.Prelude.{◌≡◌, List, ℕ, Some, None, if◌then◌else◌, OnOk, OnErr, IfNone};
ghost use Rattle.std.specs.Option.{option_copied};
ghost use Rattle.std.specs.Map.{lookup};
ghost use Rattle.hook_registry.specs.Changes.{is_name};

use std::alloc::{AllocError, Global};
use std::collections::HashMap;
use std::hash::{BuildHasher, DefaultHasher};
use std::marker::Model;

/// What the hashes of names begin with. Nothing that is answered depends on it, only how long it takes: who can guess it can choose names
/// that hash alike.
#[derive(Clone, Copy)]
pub(crate) struct Beginning {
    hasher: DefaultHasher,
}

impl BuildHasher for Beginning {
    type Hasher = DefaultHasher;

    ghost build_hasher = { λ beginning. beginning.hasher };

    fn build_hasher(&self) -> DefaultHasher {
        self.hasher
    }
}

/// Values under names of any bytes, found by the names' hashes. Contracts see each name with its value, in an order that means nothing.
#[derive(Drop)]
pub(crate) struct Names<V: Drop> {
    entries: HashMap<Vec<u8>, V, Beginning>,
    alloc: Global,
}

impl<V: Drop> Model for Names<V> {
    ghost use Rattle.std.specs.Prelude.{List, ℕ};
    ghost use Rattle.hook_registry.specs.Names.{by_bytes};

    ghost Value = { List (List ℕ × V) };

    ghost view = { λ n. by_bytes n.entries.entries };
}

impl<V: Drop> Names<V> {
    /// No name. The hashes of those that come begin with what the hasher was given.
    pub(crate) fn new(alloc: Global, hasher: DefaultHasher) -> Names<V>
        ensures { (name : List ℕ) → lookup (is_name name) result ≡ None }
    {
        Names {
            entries: HashMap::with_hasher(alloc, Beginning { hasher }),
            alloc,
        }
    }

    /// The value under a name.
    pub(crate) fn get(&self, name: &[u8]) -> Option<&V>
        ensures { option_copied result ≡ lookup (is_name name.now) self.now }
    {
        self.entries.get(name)
    }

    /// Puts a value under a name, in place of the one that was there.
    pub(crate) fn insert(&mut self, name: &[u8], value: V) -> Result<(), AllocError>
        ensures ok { OnOk result ((other : List ℕ) → lookup (is_name other) self.new ≡ (if is_name name.now other then Some value else lookup (is_name other) self.old)) }
        ensures err { OnErr result (self.new ≡ self.old) }
    {
        let name = Vec::from_slice(self.alloc, name)?;
        self.entries.insert(name, value)?;
        Ok(())
    }

    /// Takes a name out, and answers what was under it.
    pub(crate) fn remove(&mut self, name: &[u8]) -> Option<V>
        ensures value { result ≡ lookup (is_name name.now) self.old }
        ensures others { (other : List ℕ) → lookup (is_name other) self.new ≡ (if is_name name.now other then None else lookup (is_name other) self.old) }
        ensures none { IfNone result (self.new ≡ self.old) }
    {
        self.entries.remove(name)
    }
}
