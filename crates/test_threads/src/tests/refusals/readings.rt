//! Bytes that are decoded, read as an image, and verified, and a text that is read as a context.

use crate::tests::refusals::refusing::{End, Trial, begin, end_of, in_turn, was_met};
use bpf_helpers::Sigs;
use bpf_image::{ImageFault, read_image};
use bpf_insn::decode::{Refusal, decode};
use bpf_verifier::{Rule, verify};
use context_token::TokenFault;
use std::alloc::Global;
use std::env::Env;
use std::sync::Wait;
use std::test::Fail;
use test_support::{Slot, code_of, image_of};

/// Code with a wide instruction, which has two slots, a jump where register 0 is 5, and a store. It answers 8.
const SLOTS: &[Slot] = &[
    Slot::Wide(0, 7),
    Slot::Fields(0x15, 0, 0, 1, 5),
    Slot::Put(0, 8),
    Slot::StoreByte(10, -1, 3),
    Slot::Exit,
];

/// What is read: that code alone, or as a plain image; that image is verified; or the text of the clock 1:1, 65536:2.
enum Reading {
    Code,
    Image,
    Program,
    Context(&'static str),
}

/// `decode`.
fn end_of_code<R: Env>(rt: &R, alloc: Global) -> Result<(bool, End), Fail> {
    let code = code_of(alloc, SLOTS)?;
    begin(rt);
    let back = decode(alloc, &code);
    let met = was_met(rt);
    let end = match back {
        Ok(read) => end_of(read.len() == 6, false),
        Err(fault) => end_of(false, fault.why == Refusal::Memory && fault.slot == 0),
    };
    Ok((met, end))
}

/// `read_image`.
fn end_of_image<R: Env>(rt: &R, alloc: Global) -> Result<(bool, End), Fail> {
    let bytes = image_of(alloc, 16, 0, SLOTS)?;
    begin(rt);
    let back = read_image(alloc, &bytes);
    let met = was_met(rt);
    let end = match back {
        Ok(image) => end_of(image.code.len() == 6, false),
        Err(fault) => end_of(false, fault == ImageFault::NoMemory),
    };
    Ok((met, end))
}

/// `verify`.
fn end_of_program<R: Env>(rt: &R, alloc: Global) -> Result<(bool, End), Fail> {
    let Ok(image) = read_image(alloc, &image_of(alloc, 16, 0, SLOTS)?) else {
        return Err(Fail::new("no image"));
    };
    begin(rt);
    let back = verify(alloc, image, &Sigs::new(alloc));
    let met = was_met(rt);
    let end = match back {
        Ok(verified) => end_of(verified.image().code.len() == 6, false),
        Err(refused) => end_of(false, refused.rule == Rule::NoMemory && refused.slot == 0),
    };
    Ok((met, end))
}

/// `context_token::read`.
fn end_of_context<R: Env>(rt: &R, alloc: Global, text: &str) -> (bool, End) {
    begin(rt);
    let back = context_token::read(alloc, text);
    let met = was_met(rt);
    let end = match back {
        Ok(clock) => end_of(clock.entries().len() == 2, false),
        Err(fault) => end_of(false, fault == TokenFault::NoMemory),
    };
    (met, end)
}

impl Trial for Reading {
    fn goes<R: Env + Wait>(&self, rt: &R, alloc: Global) -> Result<(bool, End), Fail> {
        match self {
            Reading::Code => end_of_code(rt, alloc),
            Reading::Image => end_of_image(rt, alloc),
            Reading::Program => end_of_program(rt, alloc),
            Reading::Context(text) => Ok(end_of_context(rt, alloc, text)),
        }
    }
}

/// Each reading, contexts of version 1 and of version 2.
const READINGS: [Reading; 5] = [
    Reading::Code,
    Reading::Image,
    Reading::Program,
    Reading::Context("AQACAAAAAQAAAAAAAAABAAEAAAAAAAAAAAAC"),
    Reading::Context("AgACAAABAAAAAAAAAAIBAAAAAAAAAAAAAQ=="),
];

#[test]
fn readings_are_refused(rt: HostRuntime) -> Result<(), Fail> {
    for reading in &READINGS {
        in_turn(&rt, rt.alloc(), reading)?;
    }
    Ok(())
}
