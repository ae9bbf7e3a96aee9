//! What a store notes of what goes wrong, and how often that is told.

use crate::tests::opening::open;
use server_log::{HookTrouble, Noted, Ration, Trouble};
use server_one_thread::answers_to;
use std::alloc::Global;
use std::test::Fail;
use test_support::expect;

/// A hook is put and bound to the bucket `b`: its kind, the length of its input window, and what it answers.
const HOOKS: [&[u8]; 5] = [
    // A pre-commit hook with room for no content, and one whose answer has no meaning.
    b"PUT /hooks/h HTTP/1.1\r\nHost: h\r\nContent-Length: 32\r\n\r\nRBPF\x01\x01\x00\x00\x28\x00\x00\x00\x00\x00\x00\x00\xb7\x00\x00\x00\x00\x00\x00\x00\x95\x00\x00\x00\x00\x00\x00\x00PUT /buckets/b/props HTTP/1.1\r\nHost: h\r\nContent-Length: 27\r\n\r\n{\"props\":{\"precommit\":\"h\"}}",
    b"PUT /hooks/h HTTP/1.1\r\nHost: h\r\nContent-Length: 32\r\n\r\nRBPF\x01\x01\x00\x00\x80\x00\x00\x00\x00\x00\x00\x00\xb7\x00\x00\x00\x03\x00\x00\x00\x95\x00\x00\x00\x00\x00\x00\x00PUT /buckets/b/props HTTP/1.1\r\nHost: h\r\nContent-Length: 27\r\n\r\n{\"props\":{\"precommit\":\"h\"}}",
    // A pre-commit hook that rejects.
    b"PUT /hooks/h HTTP/1.1\r\nHost: h\r\nContent-Length: 32\r\n\r\nRBPF\x01\x01\x00\x00\x80\x00\x00\x00\x00\x00\x00\x00\xb7\x00\x00\x00\x01\x01\x00\x00\x95\x00\x00\x00\x00\x00\x00\x00PUT /buckets/b/props HTTP/1.1\r\nHost: h\r\nContent-Length: 27\r\n\r\n{\"props\":{\"precommit\":\"h\"}}",
    // A resolver with room for no content, and one that takes a sibling which isn't there.
    b"PUT /hooks/h HTTP/1.1\r\nHost: h\r\nContent-Length: 32\r\n\r\nRBPF\x01\x02\x00\x00\x28\x00\x00\x00\x00\x00\x00\x00\xb7\x00\x00\x00\x00\x01\x00\x00\x95\x00\x00\x00\x00\x00\x00\x00PUT /buckets/b/props HTTP/1.1\r\nHost: h\r\nContent-Length: 26\r\n\r\n{\"props\":{\"resolver\":\"h\"}}",
    b"PUT /hooks/h HTTP/1.1\r\nHost: h\r\nContent-Length: 32\r\n\r\nRBPF\x01\x02\x00\x00\x80\x00\x00\x00\x00\x00\x00\x00\xb7\x00\x00\x00\x09\x01\x00\x00\x95\x00\x00\x00\x00\x00\x00\x00PUT /buckets/b/props HTTP/1.1\r\nHost: h\r\nContent-Length: 26\r\n\r\n{\"props\":{\"resolver\":\"h\"}}",
];

/// Two writes that don't know of each other, and two reads.
const ASKED: &[u8] =
    b"PUT /buckets/b/keys/k?at=0 HTTP/1.1\r\nHost: h\r\nContent-Length: 1\r\n\r\naPUT /buckets/b/keys/k?at=1 HTTP/1.1\r\nHost: h\r\nContent-Length: 1\r\n\r\nbGET /buckets/b/keys/k HTTP/1.1\r\nHost: h\r\n\r\nGET /buckets/b/keys/k HTTP/1.1\r\nHost: h\r\n\r\n";

/// What is noted then, twice each: of a pre-commit hook at each write, of a resolver at each read that finds both siblings.
const NOTED: [Option<Trouble>; 5] = [
    Some(Trouble::PreCommit(HookTrouble::TooLarge)),
    Some(Trouble::PreCommit(HookTrouble::BadAnswer)),
    None,
    Some(Trouble::Resolver(HookTrouble::TooLarge)),
    Some(Trouble::Resolver(HookTrouble::BadAnswer)),
];

/// Whether this trouble alone is noted, twice and last at the bucket `b`, or none.
fn are_noted(noted: &Noted, trouble: Option<Trouble>) -> bool {
    for note in noted.iter() {
        let is_this = trouble == Some(note.trouble);
        let is_named = match &note.bucket {
            Some(bucket) => bucket.name() == b"b".as_slice(),
            None => false,
        };
        if note.count != (if is_this { 2 } else { 0 }) || is_named != is_this {
            return false;
        }
    }
    true
}

/// What is noted of the same requests after a hook was put and bound; once it is taken, nothing is left.
fn taken(alloc: Global, hook: &[u8], trouble: Option<Trouble>) -> Result<Noted, Fail> {
    let mut store = open(alloc, 0)?;
    answers_to(alloc, hook, &mut store)?;
    expect(are_noted(&store.take_troubles(), None), &"before")?;
    answers_to(alloc, ASKED, &mut store)?;
    let noted = store.take_troubles();
    expect(are_noted(&store.take_troubles(), None), &"after")?;
    expect(are_noted(&noted, trouble), &"noted")?;
    Ok(noted)
}

/// How many of the troubles that were noted are told, if all come at this moment.
fn told(noted: &Noted, ration: &mut Ration, now: u64) -> u32 {
    let mut told = 0u32;
    for note in noted.iter() {
        if note.count > 0 && ration.ask(note.trouble, now).is_some() {
            told = told.saturating_add(1);
        }
    }
    told
}

/// A hook that decides nothing is noted each time, with its bucket, and told once a second; one that rejects isn't noted.
#[test]
fn hooks_that_fail(rt: HostRuntime) -> Result<(), Fail> {
    let mut ration = Ration::new();
    for (hook, trouble) in HOOKS.iter().zip(NOTED) {
        let noted = taken(rt.alloc(), hook, trouble)?;
        let once = u32::from(trouble.is_some());
        for (now, count) in [(5, once), (1_004, 0), (1_005, once)] {
            expect(told(&noted, &mut ration, now) == count, &now)?;
        }
    }
    Ok(())
}
