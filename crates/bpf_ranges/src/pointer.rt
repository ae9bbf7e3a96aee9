//! Pointers and numbers added and subtracted, and pointers as numbers.

ghost use Rattle.std.specs.Prelude.{◌≡◌, ◌≤◌, ◌<◌, ◌^◌, ◌≤ℤ◌, ◌-ℤ◌, pos, IfOk, IfSome};
ghost use Rattle.bpf_ranges.specs.Numbers.{IsNumber};
ghost use Rattle.bpf_ranges.specs.Kinds.{origin, IsKind};
ghost use Rattle.bpf_ranges.specs.Transfer.{signed_range, is_near, pointer, moved_up, moved_down, address, as_number, pointer_left};

use crate::kind::{Bad, Kind};
use crate::number::Number;
use crate::range::Range;
use bpf_semantics::{Profile, Region};

/// How far a pointer may be from its region by the first profile, in bytes on either side (this store's profile).
const FAR_BYTES: i128 = 1 << 20;

/// And by the second one: as far as two numbers of 32 bits lead.
const FAR_SECOND_BYTES: i128 = 1 << 33;

/// Whether an offset is near enough.
fn is_near(profile: Profile, offset: i128) -> bool
    ensures { result ≡ is_near profile offset }
{
    match profile {
        Profile::First => -FAR_BYTES <= offset && offset <= FAR_BYTES,
        Profile::Second => -FAR_SECOND_BYTES <= offset && offset <= FAR_SECOND_BYTES,
    }
}

/// A pointer, where neither bound is too far.
fn near_pointer(profile: Profile, region: Region, lo: i128, hi: i128) -> Result<Kind, Bad>
    ensures table { result ≡ pointer profile region lo hi }
    ensures kind { lo ≤ℤ hi → IfOk result IsKind }
{
    if is_near(profile, lo) && is_near(profile, hi) {
        Ok(Kind::Ptr {
            region,
            lo: lo as i64,
            hi: hi as i64,
        })
    } else {
        Err(Bad::V23)
    }
}

/// The signed numbers of a range, unless it has negative ones and others.
pub fn as_signed(lo: u64, hi: u64) -> Option<(i64, i64)>
    requires { lo ≤ hi }
    ensures table { result ≡ signed_range lo hi }
    ensures ordered { IfSome result (λ d. d.0 ≤ℤ d.1) }
{
    const HALF: u64 = 1 << 63;
    if hi < HALF {
        Some((lo as i64, hi as i64))
    } else if lo >= HALF {
        Some((lo.cast_signed(), hi.cast_signed()))
    } else {
        None
    }
}

/// A pointer and a number added.
pub fn add_to_pointer(
    profile: Profile,
    region: Region,
    lo: i64,
    hi: i64,
    by: Option<(i64, i64)>,
) -> Result<Kind, Bad>
    requires pointer { IsKind (Kind.Ptr region lo hi) }
    requires ordered { IfSome by (λ d. d.0 ≤ℤ d.1) }
    ensures table { result ≡ moved_up profile region lo hi by }
    ensures kind { IfOk result IsKind }
{
    let Some((low, high)) = by else {
        return Err(Bad::V23);
    };
    let first = i128::from(lo) + i128::from(low);
    let last = i128::from(hi) + i128::from(high);
    near_pointer(profile, region, first, last)
}

/// A number taken from a pointer.
pub fn take_from_pointer(
    profile: Profile,
    region: Region,
    lo: i64,
    hi: i64,
    by: Option<(i64, i64)>,
) -> Result<Kind, Bad>
    requires pointer { IsKind (Kind.Ptr region lo hi) }
    requires ordered { IfSome by (λ d. d.0 ≤ℤ d.1) }
    ensures table { result ≡ moved_down profile region lo hi by }
    ensures kind { IfOk result IsKind }
{
    let Some((low, high)) = by else {
        return Err(Bad::V23);
    };
    let first = i128::from(lo) - i128::from(high);
    let last = i128::from(hi) - i128::from(low);
    near_pointer(profile, region, first, last)
}

/// The address that offsets into a region count from.
fn origin(region: Region) -> i64
    ensures { result ≡ pos (origin region) }
{
    match region {
        Region::Stack => 1 << 40,
        Region::Input => 1 << 41,
        Region::Output => 1 << 42,
    }
}

/// The address at an offset.
fn address(region: Region, offset: i64) -> u64
    requires { IsKind (Kind.Ptr region offset offset) }
    ensures table { result ≡ address region offset }
    ensures small { result < 2 ^ 43 }
{
    (origin(region) + offset).unsigned_abs()
}

/// The offset of an address into a region.
fn offset_at(region: Region, address: u64) -> i64
    requires { address < 2 ^ 43 }
    ensures { result ≡ (pos address -ℤ pos (origin region)) }
{
    address as i64 - origin(region)
}

impl Number {
    /// A pointer as a number: some address between its bounds.
    pub fn of_pointer(region: Region, lo: i64, hi: i64) -> Number
        requires { IsKind (Kind.Ptr region lo hi) }
        ensures table { result ≡ as_number region lo hi }
        ensures number { IsNumber result }
    {
        Number::of(Range {
            lo: address(region, lo),
            hi: address(region, hi),
        })
    }
}

/// A pointer of which a range of addresses is left. It stays where none of them is between its bounds.
pub fn narrow_pointer(region: Region, lo: i64, hi: i64, left: Range) -> Kind
    requires { IsKind (Kind.Ptr region lo hi) }
    ensures table { result ≡ pointer_left region lo hi left }
    ensures kind { IsKind result }
{
    let low = address(region, lo).max(left.lo);
    let high = address(region, hi).min(left.hi);
    if low <= high {
        Kind::Ptr {
            region,
            lo: offset_at(region, low),
            hi: offset_at(region, high),
        }
    } else {
        Kind::Ptr { region, lo, hi }
    }
}
