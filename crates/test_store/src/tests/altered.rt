//! Journals of which one content is another, or one entry is missing.

ghost use Rattle.std.specs.Prelude.{[]};

use crate::parts::altering::{Alteration, Altered, alter};
use crate::parts::building::three_losing;
use crate::parts::judging::{Told, judge};
use crate::tests::late::deliver_late;
use crate::tests::operations::{Operation, operate_losing};
use audit_journals::EntryFault;
use bpf_helpers::Table;
use bpf_image::ImageKind;
use bpf_verifier::Verified;
use peers::Local;
use script_events::{Images, NoHook, parse};
use std::alloc::Global;
use std::test::Fail;
use test_support::expect;
use vnode::Vnode;
use world::World;

const CONTENT: Alteration = Alteration::OtherContent;

const MISSING: Alteration = Alteration::Missing;

const ANOTHER: EntryFault = EntryFault::OtherState;

const UNREAD: EntryFault = EntryFault::NoSource;

/// Fails unless the audit says yes to the journals of vnodes, and tells this of them where something is altered.
fn expect_told(alloc: Global, vnodes: &[Vnode], altered: &Altered, want: Told) -> Result<(), Fail> {
    expect(judge(alloc, vnodes)?.is_none(), &altered.1)?;
    let changed = alter(alloc, vnodes, *altered)?;
    expect(judge(alloc, &changed)? == want, &altered.1)
}

/// An operation, what is altered, and what is told then.
type Row = (Operation, Altered, Told);

/// A content is told where a state is first merged that shows it, the last read of a journal where what it answered is first merged.
const OPERATIONS: &[Row] = &[
    (Operation::Put, (1, 0, CONTENT), Some((ANOTHER, 0, 0))),
    (Operation::Put, (0, 3, MISSING), Some((UNREAD, 1, 2))),
    (
        Operation::GetAndRepair,
        (2, 0, CONTENT),
        Some((ANOTHER, 0, 3)),
    ),
    (
        Operation::GetAndRepair,
        (2, 1, MISSING),
        Some((UNREAD, 0, 3)),
    ),
    (Operation::Exchange, (0, 2, CONTENT), Some((ANOTHER, 1, 3))),
    (Operation::Exchange, (1, 8, MISSING), Some((UNREAD, 0, 9))),
];

/// Makes an operation of which nothing is lost, and delivers late copies of what was read.
fn operate_whole(alloc: Global, local: &mut Local, operation: Operation) -> Result<(), Fail> {
    let _refused = operate_losing(alloc, local, operation, &[], &[])?;
    deliver_late(alloc, local)
}

fn expect_of_operation(alloc: Global, row: &Row) -> Result<(), Fail> {
    let (operation, altered, want) = row;
    let mut local = three_losing(alloc, &[])?;
    operate_whole(alloc, &mut local, *operation)?;
    expect_told(alloc, local.vnodes(), altered, *want)
}

#[test]
fn altered_journals_are_told(rt: HostRuntime) -> Result<(), Fail> {
    for row in OPERATIONS {
        expect_of_operation(rt.alloc(), row)?;
    }
    Ok(())
}

/// A vnode is brought back with what it knew before its last put, whose identifier isn't used again.
const BROUGHT_BACK: &[u8] =
    b"vnodes 2\nput 0 k a -\nget 0 k g\ndump 0 d\nput 0 k b @g\nload 0 1 d\nput 0 k c -\nget 0 k h\n";

/// Two keys of a vnode are loaded at another, from where one comes back; then they are loaded at their own.
const LOADED_TWICE: &[u8] =
    b"vnodes 2\nput 0 k a -\ndel 0 b -\ndump 0 d\nload 1 1 d\nsend 1 k m\ndeliver m 0\nload 0 2 d\nload 1 3 d\nput 1 b c -\ndump 1 e\n";

/// A script, what is altered in the journals of its world, and what is told then. A content is told where it is first loaded; that of the
/// put that is lost is told nowhere, since nobody has seen it. So is the last read of a closed journal that a load names.
const SCRIPTS: &[(&[u8], Altered, Told)] = &[
    (BROUGHT_BACK, (0, 0, CONTENT), Some((ANOTHER, 65_536, 0))),
    (BROUGHT_BACK, (0, 3, CONTENT), None),
    (BROUGHT_BACK, (0, 2, MISSING), Some((UNREAD, 65_536, 0))),
    (LOADED_TWICE, (0, 0, CONTENT), Some((ANOTHER, 65_537, 1))),
    (LOADED_TWICE, (0, 1, CONTENT), Some((ANOTHER, 65_537, 0))),
    (LOADED_TWICE, (0, 3, MISSING), Some((UNREAD, 65_537, 1))),
    (LOADED_TWICE, (65_537, 2, MISSING), Some((UNREAD, 0, 4))),
];

/// No images.
struct NoImages;

impl Images for NoImages {
    ghost listed = { λ _. [] };

    fn hook(&self, _alloc: Global, _file: &str, _kind: ImageKind) -> Result<Verified, NoHook> {
        Err(NoHook::Unreadable)
    }
}

/// The world after the lines of a script, none of which is bad.
fn ran(alloc: Global, lines: &[u8]) -> Result<World, Fail> {
    let (script, bad) = parse(alloc, lines, &NoImages)?;
    if bad.is_some() {
        return Err(Fail::new("a bad line"));
    }
    Ok(World::run(alloc, script.vnodes, &Table::new(alloc), &script.events)?)
}

#[test]
fn closed_journals_are_audited(rt: HostRuntime) -> Result<(), Fail> {
    for (script, altered, want) in SCRIPTS {
        let world = ran(rt.alloc(), script)?;
        expect_told(rt.alloc(), world.vnodes(), altered, *want)?;
    }
    Ok(())
}
