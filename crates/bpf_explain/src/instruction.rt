//! Instructions as text.

ghost use Rattle.std.specs.Prelude.{◌≡◌, ◌++◌, OnOk, string_bytes};
ghost use Rattle.bpf_explain.specs.Texts.{register_text, operand_text, op_text, alu_text, swap_text, bits_count, extend_text, access_text, cond_text, landing, goto_text, distance_text, condition_text, insn_text};

use bpf_alu::{Cond, Op, SwapBits, SwapKind, Width};
use bpf_insn::{Distance, Extend, Insn, Operand, Register, Size};
use std::alloc::AllocError;

/// Adds a register's name: `r3`, or `w3` where its low half is meant.
fn print_register(width: Width, register: Register, text: &mut String) -> Result<(), AllocError>
    ensures { OnOk result (string_bytes text.new ≡ string_bytes text.old ++ register_text width register) }
{
    let number = register.number();
    match width {
        Width::W32 => write!(text, "w{number}"),
        Width::W64 => write!(text, "r{number}"),
    }
}

/// Adds an operand.
fn print_operand(width: Width, operand: Operand, text: &mut String) -> Result<(), AllocError>
    ensures { OnOk result (string_bytes text.new ≡ string_bytes text.old ++ operand_text width operand) }
{
    match operand {
        Operand::Register(register) => print_register(width, register, text),
        Operand::Immediate(n) => write!(text, "{n}"),
    }
}

/// How an operation is written between its operands.
fn op_text(op: Op) -> &'static str
    ensures { result.now ≡ op_text op }
{
    match op {
        Op::Add => "+=",
        Op::Sub => "-=",
        Op::Mul => "*=",
        Op::Div => "/=",
        Op::SignedDiv => "s/=",
        Op::Or => "|=",
        Op::And => "&=",
        Op::Xor => "^=",
        Op::Lsh => "<<=",
        Op::Rsh => ">>=",
        Op::Arsh => "s>>=",
        Op::Neg => "= -",
        Op::Mod => "%=",
        Op::SignedMod => "s%=",
        Op::Mov => "=",
        Op::Movsx8 => "= (s8)",
        Op::Movsx16 => "= (s16)",
        Op::Movsx32 => "= (s32)",
    }
}

/// Adds an operation. A negation has no other operand.
fn print_alu(
    op: Op,
    width: Width,
    dst: Register,
    src: Operand,
    text: &mut String,
) -> Result<(), AllocError>
    ensures { OnOk result (string_bytes text.new ≡ string_bytes text.old ++ alu_text op width dst src) }
{
    let sign = op_text(op);
    print_register(width, dst, text)?;
    write!(text, " {sign} ")?;
    match op {
        Op::Neg => print_register(width, dst, text),
        _ => print_operand(width, src, text),
    }
}

/// The name of a byte swap.
fn swap_text(kind: SwapKind) -> &'static str
    ensures { result.now ≡ swap_text kind }
{
    match kind {
        SwapKind::ToLittle => "le",
        SwapKind::ToBig => "be",
        SwapKind::Swap => "bswap",
    }
}

/// How many bits a byte swap works on.
fn bits_count(bits: SwapBits) -> u8
    ensures { result ≡ bits_count bits }
{
    match bits {
        SwapBits::B16 => 16,
        SwapBits::B32 => 32,
        SwapBits::B64 => 64,
    }
}

/// The sign of what a load reads.
fn extend_text(extend: Extend) -> &'static str
    ensures { result.now ≡ extend_text extend }
{
    match extend {
        Extend::Zero => "u",
        Extend::Sign => "s",
    }
}

/// Adds the bytes of a load or a store.
fn print_access(
    extend: Extend,
    size: Size,
    base: Register,
    offset: i16,
    text: &mut String,
) -> Result<(), AllocError>
    ensures { OnOk result (string_bytes text.new ≡ string_bytes text.old ++ access_text extend size base offset) }
{
    let sign = extend_text(extend);
    let bits = 8 * size.bytes();
    let number = base.number();
    write!(text, "*({sign}{bits} *)(r{number} + {offset})")
}

/// How a condition is written between its operands.
fn cond_text(cond: Cond) -> &'static str
    ensures { result.now ≡ cond_text cond }
{
    match cond {
        Cond::Equal => "==",
        Cond::NotEqual => "!=",
        Cond::Greater => ">",
        Cond::GreaterEqual => ">=",
        Cond::Less => "<",
        Cond::LessEqual => "<=",
        Cond::SignedGreater => "s>",
        Cond::SignedGreaterEqual => "s>=",
        Cond::SignedLess => "s<",
        Cond::SignedLessEqual => "s<=",
        Cond::AnySet => "&",
    }
}

/// Where a jump leads that counts from the slot after its own.
fn landing(slot: u32, distance: i32) -> i64
    ensures { result ≡ landing slot distance }
{
    i64::from(slot) + 1 + i64::from(distance)
}

/// Adds the slot to which a jump leads.
fn print_goto(slot: u32, distance: i32, text: &mut String) -> Result<(), AllocError>
    ensures { OnOk result (string_bytes text.new ≡ string_bytes text.old ++ goto_text slot distance) }
{
    let target = landing(slot, distance);
    write!(text, "goto {target}")
}

/// Adds the slot to which an unconditional jump leads.
fn print_distance(slot: u32, distance: Distance, text: &mut String) -> Result<(), AllocError>
    ensures { OnOk result (string_bytes text.new ≡ string_bytes text.old ++ distance_text slot distance) }
{
    match distance {
        Distance::Near(slots) => print_goto(slot, i32::from(slots), text),
        Distance::Far(slots) => print_goto(slot, slots, text),
    }
}

/// Adds the condition of a jump.
fn print_condition(
    cond: Cond,
    width: Width,
    left: Register,
    right: Operand,
    text: &mut String,
) -> Result<(), AllocError>
    ensures { OnOk result (string_bytes text.new ≡ string_bytes text.old ++ condition_text cond width left right) }
{
    let sign = cond_text(cond);
    text.push_str("if ")?;
    print_register(width, left, text)?;
    write!(text, " {sign} ")?;
    print_operand(width, right, text)?;
    text.push_str(" ")
}

/// Adds the instruction of a slot.
pub(crate) fn print_insn(slot: u32, insn: Insn, text: &mut String) -> Result<(), AllocError>
    ensures { OnOk result (string_bytes text.new ≡ string_bytes text.old ++ insn_text slot insn) }
{
    match insn {
        Insn::Alu {
            op,
            width,
            dst,
            src,
        } => print_alu(op, width, dst, src, text),
        Insn::Swap { kind, bits, dst } => {
            let number = dst.number();
            let name = swap_text(kind);
            let count = bits_count(bits);
            write!(text, "r{number} = {name}{count} r{number}")
        }
        Insn::Load {
            size,
            extend,
            dst,
            base,
            offset,
        } => {
            let number = dst.number();
            write!(text, "r{number} = ")?;
            print_access(extend, size, base, offset, text)
        }
        Insn::Store {
            size,
            base,
            offset,
            src,
        } => {
            print_access(Extend::Zero, size, base, offset, text)?;
            text.push_str(" = ")?;
            print_operand(Width::W64, src, text)
        }
        Insn::Jump { distance } => print_distance(slot, distance, text),
        Insn::JumpIf {
            cond,
            width,
            left,
            right,
            offset,
        } => {
            print_condition(cond, width, left, right, text)?;
            print_goto(slot, i32::from(offset), text)
        }
        Insn::Call { helper } => write!(text, "call {helper}"),
        Insn::Exit => text.push_str("exit"),
        Insn::Wide { dst, value } => {
            let number = dst.number();
            write!(text, "r{number} = {value} ll")
        }
        Insn::Tail => text.push_str("the second slot of a wide constant"),
    }
}
