//! Writing code as bytes.
ghost use Rattle.std.specs.Prelude.{◌≡◌, ◌^◌, ◌<◌, ◌≤◌, ◌++◌, IfOk, OnOk};
ghost use Rattle.std.specs.List.{flat_map};
ghost use Rattle.bpf_insn.specs.Encoding.{IsCode, code_of, offset_of, source_of, src_field, imm_field, opcode as opcode_of, alu_number, cond_number, source_bit, alu_class, jump_class, size_number, mode_number, swap_opcode, slot_of, slot_bytes, spelling, slot, IsSlot};
ghost use Rattle.bpf_alu.specs.Value.{byte_count};

use crate::form::{AluCode, Form, Source};
use crate::slot::Slot;
use crate::{Distance, Extend, Insn, Operand, Size};
use bpf_alu::{Cond, Op, SwapBits, SwapKind, Width};
use std::alloc::{AllocError, Global};

/// The bytes that spell code.
pub fn encode(alloc: Global, code: &[Insn]) -> Result<Vec<u8>, AllocError>
    requires { IsCode code.now }
    ensures { IfOk result (λ bytes. bytes.items ≡ flat_map spelling code.now) }
{
    let mut bytes = Vec::new(alloc);
    for insn in code {
        push_spelling(&mut bytes, *insn)?;
    }
    Ok(bytes)
}

/// Adds the bytes of an instruction. A tail has none of its own.
fn push_spelling(bytes: &mut Vec<u8>, insn: Insn) -> Result<(), AllocError>
    ensures { OnOk result (bytes.new.items ≡ bytes.old.items ++ spelling insn) }
{
    match insn {
        Insn::Tail => Ok(()),
        Insn::Wide { value, .. } => {
            push_slot(bytes, slot_for(insn))?;
            push_slot(bytes, tail((value >> 32) as u32))
        }
        _ => push_slot(bytes, slot_for(insn)),
    }
}

/// Adds the bytes of a slot.
fn push_slot(bytes: &mut Vec<u8>, slot: Slot) -> Result<(), AllocError>
    requires { IsSlot slot }
    ensures { OnOk result (bytes.new.items ≡ bytes.old.items ++ slot_bytes slot) }
{
    bytes.extend_from_slice(&slot.to_bytes())
}

/// The second slot of a wide instruction.
fn tail(imm: u32) -> Slot
    ensures value { result ≡ slot 0 0 0 0 imm }
    ensures fits { IsSlot result }
{
    Slot {
        opcode: 0,
        dst: 0,
        src: 0,
        offset: 0,
        imm,
    }
}

/// The slot of an instruction, the first of a wide one.
fn slot_for(insn: Insn) -> Slot
    ensures value { result ≡ slot_of insn }
    ensures fits { IsSlot result }
{
    let mut slot = tail(0);
    match insn {
        Insn::Alu {
            op,
            width,
            dst,
            src,
        } => {
            slot.opcode = Form::Alu(code_for(op), width, source_for(src)).opcode();
            slot.dst = dst.number();
            slot.src = src_number(src);
            slot.offset = offset_for(op);
            slot.imm = imm_bits(src);
        }
        Insn::Swap { kind, bits, dst } => {
            slot.opcode = Form::Swap(kind).opcode();
            slot.dst = dst.number();
            slot.imm = match bits {
                SwapBits::B16 => 16,
                SwapBits::B32 => 32,
                SwapBits::B64 => 64,
            };
        }
        Insn::Load {
            size,
            extend,
            dst,
            base,
            offset,
        } => {
            slot.opcode = Form::Load(size, extend).opcode();
            slot.dst = dst.number();
            slot.src = base.number();
            slot.offset = offset.cast_unsigned();
        }
        Insn::Store {
            size,
            base,
            offset,
            src,
        } => {
            slot.opcode = Form::Store(size, source_for(src)).opcode();
            slot.dst = base.number();
            slot.src = src_number(src);
            slot.offset = offset.cast_unsigned();
            slot.imm = imm_bits(src);
        }
        Insn::Jump {
            distance: Distance::Near(slots),
        } => {
            slot.opcode = 0x05;
            slot.offset = slots.cast_unsigned();
        }
        Insn::Jump {
            distance: Distance::Far(slots),
        } => {
            slot.opcode = 0x06;
            slot.imm = slots.cast_unsigned();
        }
        Insn::JumpIf {
            cond,
            width,
            left,
            right,
            offset,
        } => {
            slot.opcode = Form::JumpIf(cond, width, source_for(right)).opcode();
            slot.dst = left.number();
            slot.src = src_number(right);
            slot.offset = offset.cast_unsigned();
            slot.imm = imm_bits(right);
        }
        Insn::Call { helper } => {
            slot.opcode = 0x85;
            slot.imm = helper;
        }
        Insn::Exit => slot.opcode = 0x95,
        Insn::Wide { dst, value } => {
            slot.opcode = 0x18;
            slot.dst = dst.number();
            slot.imm = (value & 0xffff_ffff) as u32;
        }
        Insn::Tail => {}
    }
    slot
}

/// Where an operand stands.
fn source_for(src: Operand) -> Source
    ensures { result ≡ source_of src }
{
    match src {
        Operand::Register(_) => Source::Register,
        Operand::Immediate(_) => Source::Immediate,
    }
}

/// The source field of an operand.
fn src_number(src: Operand) -> u8
    ensures value { result ≡ src_field src }
    ensures fits { result ≤ 10 }
{
    match src {
        Operand::Register(r) => r.number(),
        Operand::Immediate(_) => 0,
    }
}

/// The immediate field of an operand.
fn imm_bits(src: Operand) -> u32
    ensures { result ≡ imm_field src }
{
    match src {
        Operand::Register(_) => 0,
        Operand::Immediate(n) => n.cast_unsigned(),
    }
}

/// The code of an operation.
fn code_for(op: Op) -> AluCode
    ensures { result ≡ code_of op }
{
    match op {
        Op::Add => AluCode::Add,
        Op::Sub => AluCode::Sub,
        Op::Mul => AluCode::Mul,
        Op::Div | Op::SignedDiv => AluCode::Div,
        Op::Or => AluCode::Or,
        Op::And => AluCode::And,
        Op::Xor => AluCode::Xor,
        Op::Lsh => AluCode::Lsh,
        Op::Rsh => AluCode::Rsh,
        Op::Arsh => AluCode::Arsh,
        Op::Neg => AluCode::Neg,
        Op::Mod | Op::SignedMod => AluCode::Mod,
        Op::Mov | Op::Movsx8 | Op::Movsx16 | Op::Movsx32 => AluCode::Mov,
    }
}

/// The offset of an operation.
fn offset_for(op: Op) -> u16
    ensures { result ≡ offset_of op }
{
    match op {
        Op::SignedDiv | Op::SignedMod => 1,
        Op::Movsx8 => 8,
        Op::Movsx16 => 16,
        Op::Movsx32 => 32,
        _ => 0,
    }
}
