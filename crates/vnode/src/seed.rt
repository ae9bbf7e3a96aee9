//! What the hashes of a vnode's keys begin with.

use crate::hint::Hint;
use key_state::Key;
use std::hash::{BuildHasher, DefaultHasher, RandomState};
use std::io;
use std::random::RandomSource;

/// What the hashes of a vnode's keys begin with. Nothing that a vnode answers depends on it, only how long it takes: who
/// can guess a seed can choose keys that hash alike.
#[derive(Clone, Copy)]
pub struct Seed {
    begun: DefaultHasher,
}

impl Seed {
    /// The same seed each time: for keys that no stranger chooses, as those of scripts and tests.
    pub fn fixed() -> Seed {
        Seed {
            begun: DefaultHasher::new(),
        }
    }

    /// The hash of a key by this seed, for look-ups at vnodes that have it.
    pub fn hint(&self, key: &Key) -> Hint {
        Hint::of(self.hash_one(key))
    }

    /// A seed of 128 random bits.
    pub fn random(source: &impl RandomSource) -> io::Result<Seed> {
        let state = RandomState::new(source)?;
        Ok(Seed {
            begun: state.build_hasher(),
        })
    }
}

impl BuildHasher for Seed {
    type Hasher = DefaultHasher;

    ghost build_hasher = { λ seed. seed.begun };

    fn build_hasher(&self) -> DefaultHasher {
        self.begun
    }
}
