//! The versions of a token: how each spells the entries of a clock.

ghost use Rattle.std.specs.Prelude.{◌≡◌, ◌+◌, ◌^◌, ◌<◌, ◌++◌, length};
ghost use Rattle.std.specs.Int.{w64, to_be_bytes, from_be_bytes};
ghost use Rattle.context_token.specs.Layouts.{layout};
ghost use Rattle.context_token.specs.Token.{rises, tells_all, written_by};

use dvv::{Dot, VNODES_PER_INCARNATION, VNODES_PER_NUMBER};

// The first bytes of tokens.
pub(crate) const FIRST_MARK: u8 = 1;

pub(crate) const SECOND_MARK: u8 = 2;

pub(crate) const THIRD_MARK: u8 = 3;

// The bytes of the longest entry.
pub(crate) const MAX_ENTRY_BYTES: usize = 12;

// In version 3 a start's number is below this.
const NUMBERS: u32 = 1 << 24;

// The greatest index that versions 2 and 3 tell.
const MAX_INDEX: u32 = 254;

#[derive(Clone, Copy)]
pub(crate) enum Version {
    // An entry has the vnode's identifier.
    First,
    // An entry has the vnode's index and its incarnation.
    Second,
    // An entry has the vnode's index and the number of its start.
    Third,
}

impl Version {
    // The version by which a clock of these entries is written.
    pub(crate) fn of(entries: &[Dot]) -> Version
        ensures { result ≡ written_by entries.now }
    {
        if Version::Second.tells_all(entries) {
            Version::Second
        } else if Version::Third.tells_all(entries) {
            Version::Third
        } else {
            Version::First
        }
    }

    // The first byte of a token.
    pub(crate) fn mark(self) -> u8
        ensures { result ≡ (layout self).mark }
    {
        match self {
            Version::First => FIRST_MARK,
            Version::Second => SECOND_MARK,
            Version::Third => THIRD_MARK,
        }
    }

    // How many bytes an entry has.
    pub(crate) fn entry_len(self) -> usize
        ensures { result ≡ (layout self).entry_len }
    {
        match self {
            Version::First => 12,
            Version::Second => 11,
            Version::Third => 12,
        }
    }

    // The number by which the vnodes of a token rise.
    pub(crate) fn order(self, vnode: u32) -> u32
        ensures { result ≡ (layout self).order vnode }
    {
        match self {
            Version::First => vnode,
            Version::Second => vnode % VNODES_PER_INCARNATION * VNODES_PER_INCARNATION
                + vnode / VNODES_PER_INCARNATION,
            Version::Third => vnode % VNODES_PER_NUMBER * NUMBERS + vnode / VNODES_PER_NUMBER,
        }
    }

    // Whether the vnode can be told.
    pub(crate) fn tells(self, vnode: u32) -> bool
        ensures { result ≡ (layout self).tells vnode }
    {
        match self {
            Version::First => true,
            Version::Second => vnode % VNODES_PER_INCARNATION <= MAX_INDEX,
            Version::Third => vnode % VNODES_PER_NUMBER <= MAX_INDEX,
        }
    }

    // Writes the bytes of an entry.
    pub(crate) fn spell(self, entry: Dot, bytes: &mut [u8])
        requires { length bytes.old ≡ (layout self).entry_len }
        ensures bytes { bytes.new ≡ (layout self).bytes entry }
        ensures vnode { entry.vnode < 2 ^ 32 }
    {
        match self {
            Version::First => join(&entry.vnode.to_be_bytes(), entry.n, bytes),
            Version::Second => {
                let [high, low, _, index] = entry.vnode.to_be_bytes();
                join(&[index, high, low], entry.n, bytes);
            }
            Version::Third => {
                let [high, middle, low, index] = entry.vnode.to_be_bytes();
                join(&[index, high, middle, low], entry.n, bytes);
            }
        }
    }

    // The entry that the bytes spell.
    pub(crate) fn entry(self, bytes: &[u8]) -> Dot
        requires { length bytes.now ≡ (layout self).entry_len }
        ensures { result ≡ (layout self).entry bytes.now }
    {
        match self {
            Version::First => {
                let (vnode, n) = bytes.split_at(4);
                Dot {
                    vnode: u32::from_be_bytes([vnode[0], vnode[1], vnode[2], vnode[3]]),
                    n: u64_of(n),
                }
            }
            Version::Second => {
                let (vnode, n) = bytes.split_at(3);
                Dot {
                    vnode: u32::from_be_bytes([vnode[1], vnode[2], 0, vnode[0]]),
                    n: u64_of(n),
                }
            }
            Version::Third => {
                let (vnode, n) = bytes.split_at(4);
                Dot {
                    vnode: u32::from_be_bytes([vnode[1], vnode[2], vnode[3], vnode[0]]),
                    n: u64_of(n),
                }
            }
        }
    }

    // Whether the entries' vnodes rise as in a token.
    pub(crate) fn are_rising(self, entries: &[Dot]) -> bool
        ensures { result ≡ rises (layout self).order entries.now }
    {
        entries.is_sorted_by(|first, second| self.order(first.vnode) < self.order(second.vnode))
    }

    // Whether each entry's vnode can be told.
    pub(crate) fn tells_all(self, entries: &[Dot]) -> bool
        ensures { result ≡ tells_all (layout self) entries.now }
    {
        entries.iter().all(|entry| self.tells(entry.vnode))
    }
}

// Writes a vnode's bytes and those of a number.
fn join(vnode: &[u8], n: u64, bytes: &mut [u8])
    requires { length bytes.old ≡ length vnode.now + 8 }
    ensures { bytes.new ≡ vnode.now ++ to_be_bytes w64 n }
{
    let (front, back) = bytes.split_at_mut(vnode.len());
    front.copy_from_slice(vnode);
    back.copy_from_slice(&n.to_be_bytes());
}

// The number of 8 bytes.
fn u64_of(bytes: &[u8]) -> u64
    requires { length bytes.now ≡ 8 }
    ensures { result ≡ from_be_bytes w64 bytes.now }
{
    u64::from_be_bytes([
        bytes[0], bytes[1], bytes[2], bytes[3], bytes[4], bytes[5], bytes[6], bytes[7],
    ])
}
