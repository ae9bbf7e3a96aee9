//! Reading code from bytes.
ghost use Rattle.std.specs.Prelude.{◌≡◌, ◌≢◌, ◌≤◌, ◌↔◌, ℕ, List, ◌++◌, length, if◌then◌else◌, IsTrue, IfOk, IfErr, OnOk, MatchResult};
ghost use Rattle.bpf_insn.specs.Refusal.{IsLeftOut, Misuses, IsFirstBroken, IsWellUsed, BeginsWithBroken, IsRefused, Spells};
ghost use Rattle.bpf_insn.specs.declared.Insn.{Insn};
ghost use Rattle.bpf_insn.specs.Encoding.{number as number_of, takes_offset, code_of, offset_of, source_of, src_field, imm_field, is_register, is_immediate, FitsOperand, IsInstruction, slot_of, IsSlot, slot_bytes, spelling, slots, IsNarrow};

use crate::form::{AluCode, Form, Source};
use crate::slot::Slot;
use crate::{Distance, Insn, Operand, Register};
use bpf_alu::{Op, SwapBits, SwapKind, Width};
use std::alloc::{AllocError, Global};
use std::fmt;

/// Why bytes are no code: this store's profile of RFC 9669. `{}` writes its name, `D1` to `D9`, or `E1` for want of memory.
///
/// The three that speak of the length are told first, and at slot 0. Then the lowest slot is told that breaks a rule, and of its
/// rules the first in the order of names, but that a form that is left out is told before all others.
#[derive(Clone, Copy, PartialEq, Eq)]
pub enum Refusal {
    /// The length is not a multiple of 8.
    UnevenLength,
    /// There are no bytes.
    Empty,
    /// There are more slots than [`MAX_SLOTS`].
    TooLong,
    /// No instruction has the opcode.
    UnknownOpcode,
    /// A field that the instruction does not use is not zero, or its offset chooses no operation.
    UnusedField,
    /// A register above R10.
    BadRegister,
    /// A wide instruction with no second slot, or one that has more than its immediate.
    CutWide,
    /// A form that this profile leaves out: atomic and packet instructions, calls within a program and by BTF identifier, and wide
    /// instructions that name a map, a variable or code.
    LeftOut,
    /// A byte swap of another width than 16, 32 or 64 bits.
    BadSwapWidth,
    /// There was no memory for the instructions.
    Memory,
}

impl fmt::Display for Refusal {
    ghost use Rattle.std.specs.Prelude.{Some};
    ghost use Rattle.bpf_insn.specs.Refusal.{name_of};

    ghost output = { λ why. Some (name_of why) };

    fn fmt<W: fmt::Write>(&self, f: &mut fmt::Formatter<W>) -> fmt::Result {
        f.write_str(match self {
            Refusal::UnevenLength => "D1",
            Refusal::Empty => "D2",
            Refusal::TooLong => "D3",
            Refusal::UnknownOpcode => "D4",
            Refusal::UnusedField => "D5",
            Refusal::BadRegister => "D6",
            Refusal::CutWide => "D7",
            Refusal::LeftOut => "D8",
            Refusal::BadSwapWidth => "D9",
            Refusal::Memory => "E1",
        })
    }
}

/// Why bytes are no code, and at which slot.
#[derive(Clone, Copy, PartialEq, Eq)]
pub struct DecodeFault {
    pub slot: u32,
    pub why: Refusal,
}

/// How many slots code may have.
pub const MAX_SLOTS: usize = 4096;

impl DecodeFault {
    /// A refusal that is told with the first slot.
    fn at_start(why: Refusal) -> DecodeFault
        ensures { result ≡ record { slot = 0; why = why } }
    {
        DecodeFault { slot: 0, why }
    }
}

/// The instructions that the bytes spell, one entry for each slot.
pub fn decode(alloc: Global, bytes: &[u8]) -> Result<Vec<Insn>, DecodeFault>
    // What is read is spelled so.
    ensures found { IfOk result (λ code. Spells code.items bytes.now) }
    // What is spelled so is read, unless memory runs out.
    ensures only { (code : List Insn) → Spells code bytes.now → MatchResult result (λ v. v.items ≡ code) (λ fault. fault.why ≡ Refusal.Memory) }
    // A refusal is the first rule that the bytes break.
    ensures refused { IfErr result (λ fault. IsRefused bytes.now fault.slot fault.why) }
{
    read_code(alloc, bytes)
}

/// The same, as a walk over the slots.
fn read_code(alloc: Global, bytes: &[u8]) -> Result<Vec<Insn>, DecodeFault>
    // What is read is spelled so.
    ensures found { IfOk result (λ code. Spells code.items bytes.now) }
    // A refusal is the first rule that the bytes break.
    ensures refused { IfErr result (λ fault. IsRefused bytes.now fault.slot fault.why) }
{
    if bytes.len() % 8 != 0 {
        return Err(DecodeFault::at_start(Refusal::UnevenLength));
    }
    if bytes.is_empty() {
        return Err(DecodeFault::at_start(Refusal::Empty));
    }
    if bytes.len() > 8 * MAX_SLOTS {
        return Err(DecodeFault::at_start(Refusal::TooLong));
    }
    let mut code = Vec::new(alloc);
    let mut rest = bytes;
    while !rest.is_empty() {
        let slot = code.len() as u32;
        match instruction_at(rest) {
            Ok((insn, after)) => {
                if push_slots(&mut code, insn).is_err() {
                    return Err(DecodeFault::at_start(Refusal::Memory));
                }
                rest = after;
            }
            Err(why) => return Err(DecodeFault { slot, why }),
        }
    }
    Ok(code)
}

/// Adds the slots of an instruction.
fn push_slots(code: &mut Vec<Insn>, insn: Insn) -> Result<(), AllocError>
    ensures ok { OnOk result (code.new.items ≡ code.old.items ++ slots insn) }
{
    code.push(insn)?;
    if matches!(insn, Insn::Wide { .. }) {
        code.push(Insn::Tail)?;
    }
    Ok(())
}

/// Whether this profile leaves the form of the slot out by name.
fn is_left_out(slot: &Slot) -> bool
    ensures { IsTrue result ↔ IsLeftOut slot.now }
{
    match slot.opcode {
        0x20 | 0x28 | 0x30 | 0x40 | 0x48 | 0x50 | 0xc3 | 0xdb => true,
        0x85 => slot.src == 1 || slot.src == 2,
        0x18 => 1 <= slot.src && slot.src <= 6,
        _ => false,
    }
}

/// Whether a field that the form does not use is set.
fn is_misused(form: Form, slot: &Slot) -> bool
    ensures { IsTrue result ↔ Misuses form slot.now }
{
    (!form.uses_dst() && slot.dst != 0)
        || (!form.uses_src() && slot.src != 0)
        || (!form.uses_imm() && slot.imm != 0)
        || !form.takes_offset(slot.offset)
}

/// The form of a slot that breaks none of the rules on its fields.
fn form_of(slot: &Slot) -> Result<Form, Refusal>
    ensures ok { IfOk result (λ f. IsWellUsed f slot.now) }
    ensures err { IfErr result (λ why. (more : List ℕ) → IsFirstBroken slot.now more why) }
{
    if is_left_out(slot) {
        return Err(Refusal::LeftOut);
    }
    let Some(form) = Form::of(slot.opcode) else {
        return Err(Refusal::UnknownOpcode);
    };
    if is_misused(form, slot) {
        return Err(Refusal::UnusedField);
    }
    if slot.dst > 10 || slot.src > 10 {
        return Err(Refusal::BadRegister);
    }
    Ok(form)
}

/// The operation of this code that the offset chooses.
fn operation(code: AluCode, width: Width, source: Source, offset: u16) -> Op
    requires { IsTrue (takes_offset (Form.Alu code width source) offset) }
    ensures code { code_of result ≡ code }
    ensures offset { offset_of result ≡ offset }
{
    match (code, offset) {
        (AluCode::Div, 1) => Op::SignedDiv,
        (AluCode::Mod, 1) => Op::SignedMod,
        (AluCode::Mov, 8) => Op::Movsx8,
        (AluCode::Mov, 16) => Op::Movsx16,
        (AluCode::Mov, 32) => Op::Movsx32,
        (AluCode::Add, _) => Op::Add,
        (AluCode::Sub, _) => Op::Sub,
        (AluCode::Mul, _) => Op::Mul,
        (AluCode::Div, _) => Op::Div,
        (AluCode::Or, _) => Op::Or,
        (AluCode::And, _) => Op::And,
        (AluCode::Lsh, _) => Op::Lsh,
        (AluCode::Rsh, _) => Op::Rsh,
        (AluCode::Neg, _) => Op::Neg,
        (AluCode::Mod, _) => Op::Mod,
        (AluCode::Xor, _) => Op::Xor,
        (AluCode::Mov, _) => Op::Mov,
        (AluCode::Arsh, _) => Op::Arsh,
    }
}

/// The operand that the slot names.
fn operand(source: Source, slot: &Slot) -> Operand
    requires register { slot.now.src ≤ 10 }
    ensures source { source_of result ≡ source }
    ensures src { src_field result ≡ (if is_register source then slot.now.src else 0) }
    ensures imm { imm_field result ≡ (if is_immediate source then slot.now.imm else 0) }
    ensures fits { FitsOperand result }
{
    match source {
        Source::Register => Operand::Register(register(slot.src)),
        Source::Immediate => Operand::Immediate(slot.imm.cast_signed()),
    }
}

/// The register of this number.
fn register(number: u8) -> Register
    requires { number ≤ 10 }
    ensures { number_of result ≡ number }
{
    match Register::from_number(number) {
        Some(register) => register,
        None => unreachable!(),
    }
}

/// The instruction of a slot whose form is an operation.
fn arithmetic(code: AluCode, width: Width, source: Source, slot: &Slot) -> Insn
    requires { IsWellUsed (Form.Alu code width source) slot.now }
    ensures instruction { IsInstruction result }
    ensures slot { slot_of result ≡ slot.now }
{
    Insn::Alu {
        op: operation(code, width, source, slot.offset),
        width,
        dst: register(slot.dst),
        src: operand(source, slot),
    }
}

/// The instruction of a slot whose form is not a wide one.
fn build(form: Form, slot: Slot) -> Result<Insn, Refusal>
    requires used { IsWellUsed form slot }
    requires narrow { form ≢ Form.Wide }
    ensures ok { IfOk result (λ insn. IsInstruction insn × IsNarrow insn × (slot_of insn ≡ slot)) }
    ensures err { IfErr result (λ why. (more : List ℕ) → IsFirstBroken slot more why) }
{
    let insn = match form {
        Form::Alu(code, width, source) => arithmetic(code, width, source, &slot),
        Form::Swap(kind) => return swap(kind, slot),
        Form::Load(size, extend) => Insn::Load {
            size,
            extend,
            dst: register(slot.dst),
            base: register(slot.src),
            offset: slot.offset.cast_signed(),
        },
        Form::Store(size, source) => Insn::Store {
            size,
            base: register(slot.dst),
            offset: slot.offset.cast_signed(),
            src: operand(source, &slot),
        },
        Form::Near => Insn::Jump {
            distance: Distance::Near(slot.offset.cast_signed()),
        },
        Form::Far => Insn::Jump {
            distance: Distance::Far(slot.imm.cast_signed()),
        },
        Form::JumpIf(cond, width, source) => Insn::JumpIf {
            cond,
            width,
            left: register(slot.dst),
            right: operand(source, &slot),
            offset: slot.offset.cast_signed(),
        },
        Form::Call => Insn::Call { helper: slot.imm },
        Form::Exit => Insn::Exit,
        Form::Wide => unreachable!(),
    };
    Ok(insn)
}

/// The byte swap of a slot.
fn swap(kind: SwapKind, slot: Slot) -> Result<Insn, Refusal>
    requires { IsWellUsed (Form.Swap kind) slot }
    ensures ok { IfOk result (λ insn. IsInstruction insn × IsNarrow insn × (slot_of insn ≡ slot)) }
    ensures err { IfErr result (λ why. (more : List ℕ) → IsFirstBroken slot more why) }
{
    let bits = match slot.imm {
        16 => SwapBits::B16,
        32 => SwapBits::B32,
        64 => SwapBits::B64,
        _ => return Err(Refusal::BadSwapWidth),
    };
    let dst = register(slot.dst);
    Ok(Insn::Swap { kind, bits, dst })
}

/// The slot that the bytes begin with, and the bytes after it.
fn split_slot(bytes: &[u8]) -> (Slot, &[u8])
    requires { 8 ≤ length bytes.now }
    ensures parts { bytes.now ≡ slot_bytes result.0 ++ result.1.now }
    ensures fits { IsSlot result.0 }
{
    let (first, rest) = bytes.split_at(8);
    let [b0, b1, b2, b3, b4, b5, b6, b7] = first else {
        unreachable!()
    };
    (
        Slot::from_bytes([*b0, *b1, *b2, *b3, *b4, *b5, *b6, *b7]),
        rest,
    )
}

/// The instruction that the bytes begin with, and the bytes after it.
fn instruction_at(bytes: &[u8]) -> Result<(Insn, &[u8]), Refusal>
    requires { 8 ≤ length bytes.now }
    ensures ok { IfOk result (λ read. IsInstruction read.0 × (bytes.now ≡ spelling read.0 ++ read.1.now)) }
    ensures err { IfErr result (λ why. BeginsWithBroken bytes.now why) }
{
    let (slot, rest) = split_slot(bytes);
    let form = form_of(&slot)?;
    if matches!(form, Form::Wide) {
        return wide(slot, rest);
    }
    Ok((build(form, slot)?, rest))
}

/// The wide instruction of a slot and the bytes after it.
fn wide(slot: Slot, rest: &[u8]) -> Result<(Insn, &[u8]), Refusal>
    requires { IsWellUsed Form.Wide slot }
    ensures ok { IfOk result (λ read. IsInstruction read.0 × (slot_bytes slot ++ rest.now ≡ spelling read.0 ++ read.1.now)) }
    ensures err { IfErr result (λ why. IsFirstBroken slot rest.now why) }
{
    if rest.len() < 8 {
        return Err(Refusal::CutWide);
    }
    let (second, rest) = split_slot(rest);
    if second.opcode != 0 || second.dst != 0 || second.src != 0 || second.offset != 0 {
        return Err(Refusal::CutWide);
    }
    let value = u64::from(slot.imm) + (u64::from(second.imm) << 32);
    let dst = register(slot.dst);
    Ok((Insn::Wide { dst, value }, rest))
}
