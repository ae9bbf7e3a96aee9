//! What hooks are shown, and the table of their answers.

use crate::parts::building::content_of;
use bpf_image::ImageKind;
use dvv::Dot;
use hook_abi::{BadAnswer, TooLarge, Verdict, fill_input, read_answer};
use key_state::{Content, Sibling};
use std::alloc::{AllocError, Global};
use std::test::Fail;
use test_support::expect;

/// A sibling by its dot, and its value if it is no tombstone.
type Shown = (u32, u64, Option<&'static [u8]>);

/// What is shown to a hook of a kind in a window of so many bytes, of the new contents the first, how many of the bytes are used, and what
/// stands at the window's front.
struct Row {
    kind: ImageKind,
    new: &'static [Shown],
    siblings: &'static [Shown],
    window: u16,
    used: Result<u32, TooLarge>,
    front: &'static [u8],
}

const TWO: &[Shown] = &[(0, 1, Some(b"a")), (1, 1, Some(b"b"))];

/// Head, two rows and two values of one byte, and zeros to the window's end.
const TWO_SIBLINGS: &[u8] = &[
    2, 0, 0, 0, 2, 0, 0, 0, 0x42, 0, 0, 0, 0, 0, 0, 0, //
    0, 0, 0, 0, 1, 0, 0, 0, 1, 0, 0, 0, 0, 0, 0, 0, 0x40, 0, 0, 0, 1, 0, 0, 0, //
    1, 0, 0, 0, 1, 0, 0, 0, 1, 0, 0, 0, 0, 0, 0, 0, 0x41, 0, 0, 0, 1, 0, 0, 0, //
    0x61, 0x62, 0, 0, 0, 0, 0, 0, 0, 0, 0, 0, 0, 0, 0, 0,
];

/// A tombstone and a value, with great numbers.
const GREAT: &[Shown] = &[
    (0x0102_0304, 0x0102_0304_0506_0708, None),
    (u32::MAX, 1 << 62, Some(b"ok")),
];

/// The new content before a tombstone and a value: three rows, and values at 88, 91 and 91.
const NEW_AND_TOMBSTONE: &[u8] = &[
    1, 0, 0, 0, 3, 0, 0, 0, 93, 0, 0, 0, 0, 0, 0, 0, //
    0, 0, 0, 0, 1, 0, 0, 0, 0, 0, 0, 0, 0, 0, 0, 0, 88, 0, 0, 0, 3, 0, 0, 0, //
    4, 3, 2, 1, 0, 0, 0, 0, 8, 7, 6, 5, 4, 3, 2, 1, 91, 0, 0, 0, 0, 0, 0, 0, //
    0xff, 0xff, 0xff, 0xff, 1, 0, 0, 0, 0, 0, 0, 0, 0, 0, 0, 0x40, 91, 0, 0, 0, 2, 0, 0, 0, //
    b'n', b'e', b'w', b'o', b'k',
];

const ROWS: &[Row] = &[
    Row {
        kind: ImageKind::Resolver,
        new: &[],
        siblings: TWO,
        window: 80,
        used: Ok(66),
        front: TWO_SIBLINGS,
    },
    // A window that is too short is left as it was.
    Row {
        kind: ImageKind::Resolver,
        new: &[],
        siblings: TWO,
        window: 65,
        used: Err(TooLarge),
        front: &[0xff; 65],
    },
    Row {
        kind: ImageKind::PreCommit,
        new: &[(0, 0, Some(b"new"))],
        siblings: GREAT,
        window: 93,
        used: Ok(93),
        front: NEW_AND_TOMBSTONE,
    },
    // 64 siblings are shown, a 65th isn't, however long the window is.
    Row {
        kind: ImageKind::Resolver,
        new: &[],
        siblings: &[(0, 1, None); 64],
        window: 2000,
        used: Ok(16 + 24 * 64),
        front: &[2],
    },
    Row {
        kind: ImageKind::Resolver,
        new: &[],
        siblings: &[(0, 1, None); 65],
        window: 2000,
        used: Err(TooLarge),
        front: &[0xff],
    },
];

/// The content with this value, or a tombstone.
pub(super) fn shown_content(alloc: Global, value: Option<&[u8]>) -> Result<Content, AllocError> {
    match value {
        Some(bytes) => content_of(alloc, bytes),
        None => Ok(Content::Tombstone),
    }
}

fn siblings_of(alloc: Global, shown: &[Shown]) -> Result<Vec<Sibling>, AllocError> {
    let mut siblings = Vec::new(alloc);
    for (vnode, n, value) in shown {
        let dot = Dot {
            vnode: *vnode,
            n: *n,
        };
        let content = shown_content(alloc, *value)?;
        siblings.push(Sibling { dot, content })?;
    }
    Ok(siblings)
}

/// Whether an input is laid out as its row says, in a window that held other bytes.
fn is_laid_out(alloc: Global, row: &Row) -> Result<bool, AllocError> {
    let siblings = siblings_of(alloc, row.siblings)?;
    let new = siblings_of(alloc, row.new)?;
    let new = new.first().map(|sibling| &sibling.content);
    let mut window = vec![in alloc; 0xffu8; usize::from(row.window)]?;
    let used = fill_input(row.kind, new, &siblings, &mut window);
    Ok(used == row.used && window.starts_with(row.front))
}

#[test]
fn inputs(rt: HostRuntime) -> Result<(), Fail> {
    for (number, row) in ROWS.iter().enumerate() {
        expect(is_laid_out(rt.alloc(), row)?, &number)?;
    }
    Ok(())
}

/// A hook's kind, its R0 and its output, and what they mean beside two siblings.
type Answer = (
    ImageKind,
    u64,
    &'static [u8],
    Result<Verdict<'static>, BadAnswer>,
);

const PLAIN: ImageKind = ImageKind::Plain;

const BEFORE: ImageKind = ImageKind::PreCommit;

const RESOLVER: ImageKind = ImageKind::Resolver;

const NONE: &[u8] = &[];

const OUTPUT: &[u8] = &[2, 0, 0, 0, b'o', b'k', b'!'];

const WHOLE: &[u8] = &[3, 0, 0, 0, b'o', b'k', b'!'];

const LONG: &[u8] = &[4, 0, 0, 0, b'o', b'k', b'!'];

const HUGE: &[u8] = &[0xff, 0xff, 0xff, 0xff, b'o', b'k', b'!'];

const CUT: &[u8] = &[0, 0, 0];

const EMPTY: &[u8] = &[0, 0, 0, 0];

const ANSWERS: &[Answer] = &[
    (PLAIN, 0, NONE, Ok(Verdict::Pass)),
    (PLAIN, 1, NONE, Ok(Verdict::Pass)),
    (PLAIN, u64::MAX, NONE, Ok(Verdict::Pass)),
    (BEFORE, 0, NONE, Ok(Verdict::Pass)),
    (BEFORE, 1, OUTPUT, Ok(Verdict::Write(b"ok"))),
    (BEFORE, 1, LONG, Err(BadAnswer::LengthPastWindow)),
    (BEFORE, 2, OUTPUT, Err(BadAnswer::UnknownCode)),
    (BEFORE, 255, OUTPUT, Err(BadAnswer::UnknownCode)),
    (BEFORE, 256, NONE, Ok(Verdict::Reject(0))),
    (BEFORE, 257, NONE, Ok(Verdict::Reject(1))),
    (BEFORE, 511, NONE, Ok(Verdict::Reject(255))),
    (BEFORE, 512, NONE, Err(BadAnswer::UnknownCode)),
    (BEFORE, 0x1_0000_0100, NONE, Err(BadAnswer::UnknownCode)),
    (BEFORE, u64::MAX, NONE, Err(BadAnswer::UnknownCode)),
    (RESOLVER, 0, NONE, Ok(Verdict::Keep)),
    (RESOLVER, 1, OUTPUT, Ok(Verdict::Write(b"ok"))),
    (RESOLVER, 1, WHOLE, Ok(Verdict::Write(b"ok!"))),
    (RESOLVER, 1, EMPTY, Ok(Verdict::Write(b""))),
    (RESOLVER, 1, NONE, Err(BadAnswer::LengthPastWindow)),
    (RESOLVER, 1, CUT, Err(BadAnswer::LengthPastWindow)),
    (RESOLVER, 1, LONG, Err(BadAnswer::LengthPastWindow)),
    (RESOLVER, 1, HUGE, Err(BadAnswer::LengthPastWindow)),
    (RESOLVER, 2, NONE, Ok(Verdict::Delete)),
    (RESOLVER, 3, NONE, Err(BadAnswer::UnknownCode)),
    (RESOLVER, 255, NONE, Err(BadAnswer::UnknownCode)),
    (RESOLVER, 256, NONE, Ok(Verdict::Take(0))),
    (RESOLVER, 257, NONE, Ok(Verdict::Take(1))),
    (RESOLVER, 258, NONE, Err(BadAnswer::NoSuchSibling)),
    (RESOLVER, 511, NONE, Err(BadAnswer::NoSuchSibling)),
    (RESOLVER, 512, NONE, Err(BadAnswer::UnknownCode)),
    (RESOLVER, 0x1_0000_0100, NONE, Err(BadAnswer::UnknownCode)),
];

#[test]
fn answers(_rt: HostRuntime) -> Result<(), Fail> {
    for (number, row) in ANSWERS.iter().enumerate() {
        let (kind, r0, output, want) = row;
        expect(read_answer(*kind, *r0, 2, output) == *want, &number)?;
    }
    Ok(())
}
