//! Where a key lies.

ghost use Rattle.std.specs.Prelude.{◌≡◌, ◌<◌, ◌/◌, ◌^◌};
ghost use Rattle.vnode.specs.States.{shard_count};

/// Where a key lies, if it has a state: what the key's hash says.
#[derive(Clone, Copy)]
pub(crate) struct Spot {
    pub(crate) shard: usize,
    /// The hash, by whose fingerprint the shard finds the key.
    pub(crate) hash: u64,
}

impl Spot {
    /// Where a key of this hash lies. The highest bits pick the shard, which finds it by a fingerprint that depends on all.
    pub(crate) fn of(hash: u64) -> Spot
        ensures spot { result ≡ record { shard = hash / 2 ^ 59; hash = hash } }
        ensures within { result.shard < shard_count }
    {
        Spot {
            shard: (hash >> 59) as usize,
            hash,
        }
    }
}
