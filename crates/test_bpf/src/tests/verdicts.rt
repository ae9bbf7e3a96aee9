//! What the verifier tells of programs and windows of the greatest size: with memory enough for them they are told as small ones are.
//! Smaller programs stand in rows of the examples.

use bpf_helpers::Sigs;
use bpf_verifier::{read_image, verify};
use std::alloc::{AllocError, Global};
use std::test::Fail;
use test_support::Slot::{Call, Copied, Exit, Fields, LoadByte, Put, Raised, StoreByte};
use test_support::{Slot, expect, image_of};

/// What is told of a program: how many slots it has, the rule that it breaks and where, or that memory ran out.
#[derive(Clone, Copy, PartialEq, Eq)]
pub enum Told {
    Accepted(usize),
    Refused(u8, u32),
    NoMemory,
}

/// What is told of an image.
fn verdict_of(alloc: Global, bytes: &[u8], sigs: &Sigs) -> Result<Told, Fail> {
    let Ok(image) = read_image(alloc, bytes) else {
        return Err(Fail::new("no image"));
    };
    match verify(alloc, image, sigs) {
        Ok(verified) => Ok(Told::Accepted(verified.image().code.len())),
        Err(refused) => Ok(match refused.rule.number() {
            Some(number) => Told::Refused(number, refused.slot),
            None => Told::NoMemory,
        }),
    }
}

/// Makes an image one of version 2, which is verified by the second table of kinds.
fn make_second(image: &mut [u8]) {
    if let Some(version) = image.get_mut(4) {
        *version = 2;
    }
}

/// Whether a program with windows of these lengths is told so, by either table of kinds.
pub fn is_told(
    alloc: Global,
    sigs: &Sigs,
    in_len: u32,
    out_len: u32,
    code: &[Slot],
    want: Told,
) -> Result<bool, Fail> {
    let (first, second) = verdicts_of(alloc, sigs, in_len, out_len, code)?;
    Ok(first == want && second == want)
}

/// What is told of a program with windows of these lengths by the first table of kinds, and by the second.
fn verdicts_of(
    alloc: Global,
    sigs: &Sigs,
    in_len: u32,
    out_len: u32,
    code: &[Slot],
) -> Result<(Told, Told), Fail> {
    let mut bytes = image_of(alloc, in_len, out_len, code)?;
    let first = verdict_of(alloc, &bytes, sigs)?;
    make_second(&mut bytes);
    Ok((first, verdict_of(alloc, &bytes, sigs)?))
}

/// `r0 = 0`
const CLEAR: Slot = Put(0, 0);

/// How many slots stand between the first and the last of a program of 4,096.
const BETWEEN: u16 = 4094;

/// The length of the longest window.
const LONGEST: u32 = 65_536;

/// A program, told in few words.
enum Program {
    /// Of 4,096 slots: a first one, the same slot over and over, and a last one.
    Straight(&'static [Slot; 3]),
    /// Of 4,096 slots, branches behind this one.
    Branchy(Slot),
    /// Copies so many bytes of the input to the output.
    Copies(i32),
}

/// A program of 4,096 slots: a first one, the same slot over and over, and a last one.
fn straight(alloc: Global, slots: &[Slot; 3]) -> Result<Vec<Slot>, AllocError> {
    let [first, next, last] = *slots;
    let mut code = Vec::new(alloc);
    code.push(first)?;
    for _ in 0..BETWEEN {
        code.push(next)?;
    }
    code.push(last)?;
    Ok(code)
}

/// A program of 4,096 slots that ends at the last. All between the first and the last jump if R2 is their number: every second
/// one to the last slot, and each other over the next one.
fn branchy(alloc: Global, first: Slot) -> Result<Vec<Slot>, AllocError> {
    let mut code = Vec::new(alloc);
    code.push(first)?;
    for at in 0..BETWEEN {
        let to_last = BETWEEN - 1 - at;
        let ahead = if at % 2 == 0 { to_last } else { to_last.min(1) };
        code.push(Fields(0x15, 2, 0, ahead.cast_signed(), i32::from(at)))?;
    }
    code.push(Exit)?;
    Ok(code)
}

/// A program that copies so many bytes of the input to the output.
fn copies(alloc: Global, len: i32) -> Result<Vec<Slot>, AllocError> {
    [
        Copied(2, 1),
        Copied(1, 3),
        Put(3, len),
        Call(1),
        CLEAR,
        Exit,
    ]
    .to_vec(alloc)
}

/// The slots of a program.
fn slots_of(alloc: Global, program: &Program) -> Result<Vec<Slot>, AllocError> {
    match program {
        Program::Straight(slots) => straight(alloc, slots),
        Program::Branchy(first) => branchy(alloc, *first),
        Program::Copies(len) => copies(alloc, *len),
    }
}

/// Programs, and what is told of them.
const PROGRAMS: &[(&str, Program, Told)] = &[
    (
        "moves",
        Program::Straight(&[CLEAR, Put(6, 7), Exit]),
        Told::Accepted(4096),
    ),
    (
        "no answer",
        Program::Straight(&[Put(7, 1), Put(6, 7), Exit]),
        Told::Refused(20, 4095),
    ),
    (
        "a pointer as the answer",
        Program::Straight(&[Copied(0, 1), Put(6, 7), Exit]),
        Told::Refused(29, 4095),
    ),
    (
        "no end",
        Program::Straight(&[CLEAR, Put(6, 7), CLEAR]),
        Told::Refused(13, 4095),
    ),
    (
        "loads of the last byte",
        Program::Straight(&[Raised(1, 65_535), LoadByte(0, 1, 0), Exit]),
        Told::Accepted(4096),
    ),
    (
        "loads past the last byte",
        Program::Straight(&[Raised(1, 65_536), LoadByte(0, 1, 0), Exit]),
        Told::Refused(24, 1),
    ),
    (
        "stores of the last byte, no answer",
        Program::Straight(&[Raised(3, 65_535), StoreByte(3, 0, 1), Exit]),
        Told::Refused(20, 4095),
    ),
    (
        "stores past the last byte",
        Program::Straight(&[Raised(3, 65_536), StoreByte(3, 0, 1), Exit]),
        Told::Refused(24, 1),
    ),
    ("branches", Program::Branchy(CLEAR), Told::Accepted(4096)),
    (
        "branches without an answer",
        Program::Branchy(Put(6, 0)),
        Told::Refused(20, 4095),
    ),
    (
        "branches with a pointer as the answer",
        Program::Branchy(Copied(0, 1)),
        Told::Refused(29, 4095),
    ),
    (
        "a copy of a whole window",
        Program::Copies(65_536),
        Told::Accepted(6),
    ),
    (
        "a copy of one byte more",
        Program::Copies(65_537),
        Told::Refused(28, 3),
    ),
];

/// Programs of which the tables tell something else: what is told by the first, and by the second.
const APART: &[(&str, Program, Told, Told)] = &[
    (
        "sums up to a far offset",
        Program::Straight(&[CLEAR, Raised(1, 257), Exit]),
        Told::Refused(23, 4081),
        Told::Accepted(4096),
    ),
    (
        "sums up to one that is far for both",
        Program::Straight(&[CLEAR, Raised(1, 2_105_000), Exit]),
        Told::Refused(23, 1),
        Told::Refused(23, 4081),
    ),
];

/// Whether a program is told so.
fn is_told_so(alloc: Global, sigs: &Sigs, program: &Program, want: Told) -> Result<bool, Fail> {
    let slots = slots_of(alloc, program)?;
    is_told(alloc, sigs, LONGEST, LONGEST, &slots, want)
}

#[test]
fn greatest_sizes(rt: HostRuntime) -> Result<(), Fail> {
    let sigs = Sigs::new(rt.alloc());
    for (name, program, want) in PROGRAMS {
        expect(is_told_so(rt.alloc(), &sigs, program, *want)?, name)?;
    }
    for (name, program, first, second) in APART {
        let slots = slots_of(rt.alloc(), program)?;
        let told = verdicts_of(rt.alloc(), &sigs, LONGEST, LONGEST, &slots)?;
        expect(told == (*first, *second), name)?;
    }
    Ok(())
}
