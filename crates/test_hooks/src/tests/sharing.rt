//! A registry: its installer and two readers, workers that share it afterwards, and the readers once it is gone.

ghost use Rattle.std.specs.Prelude.{◌≡◌, []};
ghost use Rattle.hook_sharing.specs.Lists.{list_of};

use crate::tests::installing::{
    an_old_note, gone_once_published, judged_by_all_changes, sees_nothing,
};
use crate::tests::working::{WORKERS, four_workers};
use hook_sharing::{Ground, HookReader, Installer, Opening, Rack, open};
use shared_prefix::Naming;
use std::alloc::Global;
use std::hash::DefaultHasher;
use std::marker::Brand;
use std::sync::{Mutex, Wait};
use std::test::Fail;
use std::thread::Threads;
use test_support::expect;

/// What one thread does with an installer and two readers, for which there is all the room for readers.
fn by_one_thread<J: Naming, T: Rack<J> + Drop, W: Wait + Drop>(
    alloc: Global,
    installer: &mut Installer<J, T, W>,
    told: &mut HookReader<J, T>,
    other: &mut HookReader<J, T>,
) -> Result<(), Fail> {
    expect(installer.reader().is_err(), &WORKERS)?;
    judged_by_all_changes(alloc, installer, told)?;
    an_old_note(alloc, installer, told)?;
    gone_once_published(alloc, installer, told, other)
}

/// The workers' turn, with the readers that are theirs. The places that these give back are taken again.
fn by_workers<
    'r,
    J: Naming + Send + Sync,
    T: Rack<J> + Drop + Send + Sync,
    R: Threads + Wait + Sync,
>(
    alloc: Global,
    rt: &'r R,
    mut installer: Mutex<Installer<J, T, &'r R>>,
    readers: Vec<HookReader<J, T>>,
) -> Result<(), Fail> {
    four_workers(alloc, rt, &installer, readers)?;
    expect(installer.get_mut().reader().is_ok(), &WORKERS)
}

/// The same, over what an installer begins with.
fn over_a_ground<
    J: Naming + Send + Sync,
    T: Rack<J> + Drop + Send + Sync,
    R: Threads + Wait + Sync,
>(alloc: Global, rt: &R, ground: Ground<J, T>) -> Result<(), Fail>
    requires { (ground.front ≡ []) × (T.state ground.first ≡ []) × (T.state ground.second ≡ []) }
{
    let (mut installer, mut readers) = open(alloc, rt, ground, WORKERS + 2)?;
    let (Some(mut told), Some(mut other)) = (readers.pop(), readers.pop()) else {
        return Err(Fail::new("no reader"));
    };
    by_one_thread(alloc, installer.get_mut(), &mut told, &mut other)?;
    by_workers(alloc, rt, installer, readers)?;
    sees_nothing(alloc, &mut told)?;
    sees_nothing(alloc, &mut other)
}

/// The same, in a registry of its own.
fn under_a_name<J: Naming + Send + Sync, R: Threads + Wait + Sync>(
    alloc: Global,
    rt: &R,
    opening: Opening,
) -> Result<(), Fail>
    requires { list_of opening ≡ J.book }
{
    over_a_ground(alloc, rt, opening.named::<J>(alloc))
}

#[test]
fn installer_and_workers(rt: HostRuntime) -> Result<(), Fail> {
    under_a_name::<Brand, HostRuntime>(rt.alloc(), &rt, Opening::seeded(DefaultHasher::new()))
}
