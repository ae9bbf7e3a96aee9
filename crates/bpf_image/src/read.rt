//! Reading images.

ghost use Rattle.std.specs.Prelude.{◌≡◌, ◌+◌, ◌<◌, ◌≤◌, length, drop, slice_index, List, IfOk, IfErr, IfSome, IsNone, MatchResult, ◌↔◌, ◌≢◌};
ghost use Rattle.bpf_insn.specs.declared.Insn.{Insn};
ghost use Rattle.bpf_insn.specs.Refusal.{Spells, IsRefused};
ghost use Rattle.bpf_semantics.specs.Windows.{longest_window};
ghost use Rattle.bpf_image.specs.Image.{kind_number, version_number, number_at, rank, fault_of, HasHead, IsFirstFault, IsCodeFault, IsImage, IsRaw, IsProgram, IsNoProgram};

use crate::image::{Image, ImageFault, ImageKind};
use bpf_insn::decode::decode;
use bpf_insn::{DecodeFault, Refusal};
use bpf_semantics::{MAX_WINDOW_BYTES, Profile};
use std::alloc::Global;

/// How many bytes stand before the code.
const HEAD_BYTES: usize = 16;

/// The mark with which an image begins.
const MARK: &[u8; 4] = b"RBPF";

/// How many bytes each window of raw code has.
const RAW_WINDOW_BYTES: u32 = 4096;

/// What a head says.
#[derive(Clone, Copy)]
struct Head {
    kind: ImageKind,
    profile: Profile,
    in_len: u32,
    out_len: u32,
}

/// The number in the four bytes from a place on.
fn read_number(bytes: &[u8], at: usize) -> u32
    requires { at + 4 ≤ length bytes.now }
    ensures { result ≡ number_at bytes.now at }
{
    u32::from_le_bytes([bytes[at], bytes[at + 1], bytes[at + 2], bytes[at + 3]])
}

/// The table by which an image of this version is verified.
fn profile_of(version: u8) -> Option<Profile>
    ensures found { IfSome result (λ profile. version ≡ version_number profile) }
    ensures none { IsNone result ↔ (version ≢ 1) × (version ≢ 2) }
{
    match version {
        1 => Some(Profile::First),
        2 => Some(Profile::Second),
        _ => None,
    }
}

/// The head of an image.
fn read_head(bytes: &[u8]) -> Result<Head, ImageFault>
    ensures found { IfOk result (λ head. HasHead bytes.now × (slice_index bytes.now 4 ≡ version_number head.profile) × (slice_index bytes.now 5 ≡ kind_number head.kind) × (head.in_len ≡ number_at bytes.now 8) × (head.out_len ≡ number_at bytes.now 12)) }
    ensures small { IfOk result (λ head. (16 ≤ length bytes.now) × (head.in_len ≤ longest_window) × (head.out_len ≤ longest_window)) }
    ensures refused { IfErr result (λ fault. IsFirstFault bytes.now fault × (rank fault < 5)) }
{
    if bytes.len() < HEAD_BYTES {
        return Err(ImageFault::Short);
    }
    if &bytes[..4] != MARK.as_slice() {
        return Err(ImageFault::Mark);
    }
    let Some(profile) = profile_of(bytes[4]) else {
        return Err(ImageFault::Version);
    };
    let kind = match ImageKind::from_number(bytes[5]) {
        Some(kind) if bytes[6] == 0 && bytes[7] == 0 => kind,
        _ => return Err(ImageFault::Kind),
    };
    let in_len = read_number(bytes, 8);
    let out_len = read_number(bytes, 12);
    if in_len > MAX_WINDOW_BYTES || out_len > MAX_WINDOW_BYTES {
        return Err(ImageFault::Window);
    }
    Ok(Head {
        kind,
        profile,
        in_len,
        out_len,
    })
}

/// The bytes after the head.
fn after_head(bytes: &[u8]) -> &[u8]
    requires { 16 ≤ length bytes.now }
    ensures { result.now ≡ drop 16 bytes.now }
{
    &bytes[HEAD_BYTES..]
}

/// Why an image's code is not read.
fn code_fault(fault: DecodeFault) -> ImageFault
    ensures { result ≡ fault_of fault }
{
    match fault.why {
        Refusal::Memory => ImageFault::NoMemory,
        _ => ImageFault::Code(fault),
    }
}

/// The image that the bytes spell. The first fault that stands is told; those of the head take no memory.
pub fn read_image(alloc: Global, bytes: &[u8]) -> Result<Image, ImageFault>
    // What is read is what the bytes spell.
    ensures found { IfOk result (λ image. IsImage bytes.now image.kind image.profile image.in_len image.out_len image.code.items) }
    // What is spelled is read, unless memory runs out.
    ensures only { (code : List Insn) → HasHead bytes.now → Spells code (drop 16 bytes.now) → MatchResult result (λ image. image.code.items ≡ code) (λ fault. fault ≡ ImageFault.NoMemory) }
    // A fault is the first that stands.
    ensures refused { IfErr result (λ fault. IsFirstFault bytes.now fault) }
{
    let head = read_head(bytes)?;
    match decode(alloc, after_head(bytes)) {
        Ok(code) => Ok(Image {
            kind: head.kind,
            profile: head.profile,
            in_len: head.in_len,
            out_len: head.out_len,
            code,
        }),
        Err(fault) => Err(code_fault(fault)),
    }
}

/// The image of code that has no head: a plain program, verified by the second table, with windows of the greatest length that raw code has.
pub fn raw_image(alloc: Global, bytes: &[u8]) -> Result<Image, ImageFault>
    ensures found { IfOk result (λ image. IsRaw bytes.now image.kind image.profile image.in_len image.out_len image.code.items) }
    ensures only { (code : List Insn) → Spells code bytes.now → MatchResult result (λ image. image.code.items ≡ code) (λ fault. fault ≡ ImageFault.NoMemory) }
    ensures refused { IfErr result (λ fault. IsCodeFault bytes.now fault) }
{
    match decode(alloc, bytes) {
        Ok(code) => Ok(Image {
            kind: ImageKind::Plain,
            profile: Profile::Second,
            in_len: RAW_WINDOW_BYTES,
            out_len: RAW_WINDOW_BYTES,
            code,
        }),
        Err(fault) => Err(code_fault(fault)),
    }
}

/// The program that bytes are: an image where they begin with its mark, which is no opcode, and else raw code.
pub fn read_program(alloc: Global, bytes: &[u8]) -> Result<Image, ImageFault>
    ensures found { IfOk result (λ image. IsProgram bytes.now image.kind image.profile image.in_len image.out_len image.code.items) }
    ensures refused { IfErr result (λ fault. IsNoProgram bytes.now fault) }
{
    if bytes.starts_with(MARK) {
        read_image(alloc, bytes)
    } else {
        raw_image(alloc, bytes)
    }
}
