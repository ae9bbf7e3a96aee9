//! Where a key stands among the vnodes, and how many copies are enough (Riak KV documentation, consistent hashing and
//! quorums; this store's profile).
#![tactic(auto)]

ghost use Rattle.std.specs.Prelude.{◌≡◌, ◌+◌, ◌/◌, ◌<◌, ◌^◌, length};
ghost use Rattle.ring.specs.Places.{place_of};

mod list;
mod placement;

pub use list::PreferenceList;
pub use placement::Placement;
use sha1::Sha1;

/// The most copies of a key that can be had: the vnodes of its preference list.
pub const MAX_COPIES: u32 = 3;

/// The place of a key: the vnode at which its preference list begins, 0 to below their number. It takes no memory. SHA-1
/// spreads keys here, and is not used for security.
pub fn place(bucket: &[u8], key: &[u8], vnodes: u32) -> u32
    requires some { 0 < vnodes }
    requires short { length bucket.now < 2 ^ 32 }
    ensures place { result ≡ place_of bucket.now key.now vnodes }
    ensures within { result < vnodes }
{
    let len = bucket.len() as u32;
    let mut hasher = Sha1::new();
    hasher.update(&len.to_be_bytes());
    hasher.update(bucket);
    hasher.update(key);
    let [a, b, c, d, e, f, g, h, ..] = hasher.finalize();
    let front = u64::from_be_bytes([a, b, c, d, e, f, g, h]);
    (front % u64::from(vnodes)) as u32
}

/// How many of so many copies are a quorum: more than half.
pub fn quorum(copies: u32) -> u32
    requires { copies < 2 ^ 31 }
    ensures { result ≡ copies / 2 + 1 }
{
    1 + copies / 2
}
