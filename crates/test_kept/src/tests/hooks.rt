//! Requests that are served are those that were written down.

mod changing;

use bpf_helpers::{Sigs, Table};
use bpf_image::ImageKind;
use changing::{ALL, STEPS, UNSOUND_STEPS, bucket_from, written};
use hook_registry::Registry;
use http_connection::{Front, MemorySink, MemorySource};
use kept_hooks::{BegunHooks, Notes, Recorder, Requests, Writes, begin_hooks};
use key_state::Bytes;
use peers::Local;
use quorum::Hooking;
use server_store::Store;
use std::alloc::{AllocError, Global};
use std::sync::{Mutex, Wait};
use std::test::Fail;

/// So many requests are left: three images, both bindings of four buckets and one of a fifth, an image of a name that is bound in the other
/// phase, and one that takes a name that is bound.
const COUNT: u64 = 14;

/// The answer to a request that was done and has nothing to tell.
const NO_CONTENT: &[u8] =
    b"HTTP/1.1 204 No Content\r\nX-Content-Type-Options: nosniff\r\nServer: dvvstore\r\n\r\n";

/// A store of three vnodes and no hook.
fn store_of(alloc: Global) -> Result<Store<Local, Registry>, AllocError> {
    let vnodes = Local::open(alloc, 3, 0)?;
    let placement = vnodes.placement();
    let hooking = Hooking::new(alloc, Registry::new(alloc), Table::new(alloc));
    Ok(Store::new(alloc, vnodes, hooking, placement))
}

/// Has a store answer requests, whose changes are written down anew. How many there were, if each was done.
fn served<R: Wait>(
    alloc: Global,
    rt: &R,
    list: &Requests,
    again: &Mutex<Requests>,
    held: &[u8],
) -> Result<Option<u64>, Fail> {
    let writes = Writes::new(list);
    let mut store = Recorder::new(store_of(alloc)?, again, &writes, rt);
    let mut front = Front::new(alloc)?;
    let mut source = MemorySource::new(held);
    let mut sink = MemorySink::new(alloc);
    let count = front.serve(&mut source, &mut sink, &mut store)?;
    let is_done = sink
        .bytes
        .chunks(NO_CONTENT.len())
        .all(|answer| answer == NO_CONTENT);
    Ok(is_done.then_some(count))
}

/// Whether these are the bytes of a list.
fn are_of(list: &Requests, held: &[u8]) -> Result<bool, AllocError> {
    match list.bytes()? {
        Some(bytes) => Ok(bytes.as_slice() == held),
        None => Ok(false),
    }
}

#[test]
fn requests_are_read_back(rt: HostRuntime) -> Result<(), Fail> {
    let list = written(rt.alloc(), &STEPS)?;
    let Some(held) = list.bytes()? else {
        return Err(Fail::from("no memory"));
    };
    let again = Mutex::new(Requests::new(rt.alloc()));
    let count = served(rt.alloc(), &rt, &list, &again, &held)?;
    if count == Some(COUNT) && are_of(&again.into_inner(), &held)? {
        Ok(())
    } else {
        Err(Fail::from("other requests"))
    }
}

/// Whether hooks that begin with requests have those alone, and no hook is refused.
fn is_begun(alloc: Global, held: &[u8]) -> Result<bool, Fail> {
    let sigs = Sigs::new(alloc);
    let mut hooks = Registry::new(alloc);
    match begin_hooks(alloc, &sigs, &mut hooks, held) {
        Ok(begun) => Ok(begun.refused.is_empty() && are_of(&begun.requests, held)?),
        Err(_) => Ok(false),
    }
}

#[test]
fn hooks_begin_with_requests(rt: HostRuntime) -> Result<(), Fail> {
    let list = written(rt.alloc(), &STEPS)?;
    let Some(held) = list.bytes()? else {
        return Err(Fail::from("no memory"));
    };
    if is_begun(rt.alloc(), &held)? {
        Ok(())
    } else {
        Err(Fail::from("other requests"))
    }
}

/// Whether one hook alone was refused, and is told as its name and why.
fn tells_refused(alloc: Global, begun: &BegunHooks) -> Result<bool, Fail> {
    let [refused] = begun.refused.as_slice() else {
        return Ok(false);
    };
    let told = format!(in alloc; "{refused}")?;
    Ok(refused.name.as_slice() == ALL && told.as_str().starts_with("hook ABC"))
}

/// Whether a bucket has its resolver alone, and the name of its pre-commit hook stays bound.
fn has_resolver_alone(hooks: &mut Registry, bucket: &Bytes) -> Result<bool, Fail> {
    let of_name = hooks.hook_of(bucket.as_slice(), ImageKind::PreCommit);
    let is_gone = matches!(of_name, Ok(None));
    let of_keeper = hooks.hook_of(bucket.as_slice(), ImageKind::Resolver);
    let stays = matches!(of_keeper, Ok(Some(_)));
    let bound = hooks.bound(bucket, ImageKind::PreCommit)?;
    Ok(is_gone && stays && bound.is_some())
}

/// Has hooks begin with a list of which one hook is refused.
fn is_passed_over(alloc: Global, bucket: &Bytes, held: &[u8]) -> Result<bool, Fail> {
    let sigs = Sigs::new(alloc);
    let mut hooks = Registry::new(alloc);
    let Ok(begun) = begin_hooks(alloc, &sigs, &mut hooks, held) else {
        return Err(Fail::from("not begun"));
    };
    let told = tells_refused(alloc, &begun)?;
    let left = has_resolver_alone(&mut hooks, bucket)?;
    Ok(told && left && are_of(&begun.requests, held)?)
}

#[test]
fn a_refused_hook_is_passed_over(rt: HostRuntime) -> Result<(), Fail> {
    let alloc = rt.alloc();
    let list = written(alloc, &UNSOUND_STEPS)?;
    let Some(held) = list.bytes()? else {
        return Err(Fail::from("no memory"));
    };
    let bucket = bucket_from(alloc, 0)?;
    if is_passed_over(alloc, &bucket, &held)? {
        Ok(())
    } else {
        Err(Fail::from("others are served"))
    }
}

#[test]
fn reads_are_noted_where_a_resolver_may_be_bound(rt: HostRuntime) -> Result<(), Fail> {
    let alloc = rt.alloc();
    let writes = Writes::new(&Requests::new(alloc));
    Notes::note_read(&writes);
    let before = writes.is_noted();
    Notes::note_resolver(&writes);
    Notes::note_read(&writes);
    let behind = writes.is_noted();
    writes.forget();
    let forgotten = !writes.is_noted();
    let begun = Writes::new(&written(alloc, &UNSOUND_STEPS)?);
    Notes::note_read(&begun);
    if !before && behind && forgotten && begun.is_noted() {
        Ok(())
    } else {
        Err(Fail::from("other notes"))
    }
}
