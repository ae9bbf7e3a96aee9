//! Changes of an installer, and what two readers see of them.

use crate::tests::parts::{BEFORE, Change, RESOLVER, Row, bound, is_bound, kind_of, make_changes};
use hook_registry::{HookFault, NameFault};
use hook_sharing::{HookReader, Installer, Rack};
use shared_prefix::Naming;
use std::alloc::Global;
use std::sync::Wait;
use std::test::Fail;
use test_support::expect;

/// Changes that aren't published. Each is judged by those before it.
const JUDGED: &[Row] = &[
    (Change::Remove(b"no"), Err(HookFault::NameUnknown)),
    (
        Change::Bind(&[(BEFORE, b"no")]),
        Err(HookFault::NameUnknown),
    ),
    (Change::Install(b"no", BEFORE), Ok(())),
    (
        Change::Bind(&[(RESOLVER, b"no")]),
        Err(HookFault::KindDiffers),
    ),
    (
        Change::Bind(&[(RESOLVER, b"no"), (BEFORE, b"on")]),
        Err(HookFault::NameUnknown),
    ),
    (Change::Bind(&[(BEFORE, b"no")]), Ok(())),
    (Change::Install(b"no", RESOLVER), Ok(())),
    (
        Change::Bind(&[(BEFORE, b"no")]),
        Err(HookFault::KindDiffers),
    ),
    (Change::Remove(b"no"), Ok(())),
    (Change::Remove(b"no"), Err(HookFault::NameUnknown)),
];

/// Changes that are judged by all before them, of which a reader sees nothing.
pub(super) fn judged_by_all_changes<J: Naming, T: Rack<J> + Drop, W: Wait + Drop>(
    alloc: Global,
    installer: &mut Installer<J, T, W>,
    reader: &mut HookReader<J, T>,
) -> Result<(), Fail> {
    let judged = make_changes(alloc, installer, JUDGED);
    let seen = kind_of(reader, BEFORE);
    expect(judged && seen == Some(None), &"not published")
}

/// A hook that is put under a name and bound.
const BOUND: &[Row] = &[
    (Change::Install(b"no", BEFORE), Ok(())),
    (Change::Bind(&[(BEFORE, b"no")]), Ok(())),
];

/// Its name is given up.
const GONE: &[Row] = &[(Change::Remove(b"no"), Ok(()))];

/// A hook is seen once it is published, by a reader that is told, from which an old note takes nothing.
pub(super) fn an_old_note<J: Naming, T: Rack<J> + Drop, W: Wait + Drop>(
    alloc: Global,
    installer: &mut Installer<J, T, W>,
    reader: &mut HookReader<J, T>,
) -> Result<(), Fail> {
    let old = installer.note();
    let changed = make_changes(alloc, installer, BOUND);
    reader.learn(&installer.note());
    let none = kind_of(reader, BEFORE);
    reader.learn(&installer.publish()?);
    reader.learn(&old);
    let seen = (none, kind_of(reader, BEFORE), kind_of(reader, RESOLVER));
    expect(
        changed
            && installer.has_all(reader)
            && seen == (Some(None), Some(Some(BEFORE)), Some(None)),
        &"published",
    )
}

/// It is gone once that is published, for a reader that isn't told, too. Its name stays bound.
pub(super) fn gone_once_published<J: Naming, T: Rack<J> + Drop, W: Wait + Drop>(
    alloc: Global,
    installer: &mut Installer<J, T, W>,
    told: &mut HookReader<J, T>,
    other: &mut HookReader<J, T>,
) -> Result<(), Fail> {
    let removed = make_changes(alloc, installer, GONE);
    let before = kind_of(told, BEFORE);
    installer.publish()?;
    let seen = (before, kind_of(other, BEFORE));
    let named = is_bound(alloc, told, BEFORE, b"no") && is_bound(alloc, other, BEFORE, b"no");
    expect(
        removed && named && seen == (Some(Some(BEFORE)), Some(None)),
        &"gone",
    )
}

/// A reader sees nothing once its installer is gone.
pub(super) fn sees_nothing<J: Naming, T: Rack<J> + Drop>(
    alloc: Global,
    reader: &mut HookReader<J, T>,
) -> Result<(), Fail> {
    let hook = kind_of(reader, BEFORE);
    let unseen = matches!(bound(alloc, reader, BEFORE), Err(NameFault::NotSeen));
    expect(unseen && hook == None, &"no installer")
}
