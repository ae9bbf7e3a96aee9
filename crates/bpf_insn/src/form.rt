//! What an opcode says.
ghost use Rattle.std.specs.Prelude.{◌≡◌, ◌≢◌, ◌≤◌, ◌/◌, ◌%◌, IfSome, IfNone};
ghost use Rattle.bpf_insn.specs.Encoding.{alu_number, cond_number, source_bit, alu_class, jump_class, size_number, opcode as opcode_of, IsForm, uses_dst, uses_src, uses_imm, takes_offset};
ghost use Rattle.bpf_insn.specs.declared.form.AluCode.{AluCode};
ghost use Rattle.bpf_insn.specs.declared.form.Source.{Source};
ghost use Rattle.bpf_insn.specs.declared.form.Form.{Form};
ghost use Rattle.bpf_insn.specs.declared.Size.{Size};
ghost use Rattle.bpf_insn.specs.declared.Extend.{Extend};
ghost use Rattle.bpf_alu.specs.declared.Cond.{Cond};

use crate::{Extend, Size};
use bpf_alu::{Cond, SwapKind, Width};

/// Where the second operand stands.
#[derive(Clone, Copy)]
pub(crate) enum Source {
    Immediate,
    Register,
}

/// The code of an arithmetic opcode. An offset chooses the operation of Div, Mod and Mov.
#[derive(Clone, Copy)]
pub(crate) enum AluCode {
    Add,
    Sub,
    Mul,
    Div,
    Or,
    And,
    Lsh,
    Rsh,
    Neg,
    Mod,
    Xor,
    Mov,
    Arsh,
}

/// What an opcode says: the kind of instruction, and where its operand stands.
#[derive(Clone, Copy)]
pub(crate) enum Form {
    Alu(AluCode, Width, Source),
    Swap(SwapKind),
    Load(Size, Extend),
    Store(Size, Source),
    Near,
    Far,
    JumpIf(Cond, Width, Source),
    Call,
    Exit,
    Wide,
}

impl Form {
    /// What the opcode says, if some instruction has it.
    pub(crate) fn of(opcode: u8) -> Option<Form>
        ensures found { IfSome result (λ f. IsForm f × (opcode_of f ≡ opcode)) }
        ensures none { IfNone result ((f : Form) → IsForm f → opcode_of f ≢ opcode) }
    {
        match opcode {
            0x05 => Some(Form::Near),
            0x06 => Some(Form::Far),
            0x18 => Some(Form::Wide),
            0x85 => Some(Form::Call),
            0x95 => Some(Form::Exit),
            0xd4 => Some(Form::Swap(SwapKind::ToLittle)),
            0xd7 => Some(Form::Swap(SwapKind::Swap)),
            0xdc => Some(Form::Swap(SwapKind::ToBig)),
            _ => match opcode % 8 {
                1 => load(opcode),
                2 | 3 => store(opcode),
                4 => arithmetic(opcode, Width::W32),
                5 => conditional(opcode, Width::W64),
                6 => conditional(opcode, Width::W32),
                7 => arithmetic(opcode, Width::W64),
                _ => None,
            },
        }
    }

    /// The opcode.
    pub(crate) fn opcode(self) -> u8
        ensures { result ≡ opcode_of self }
    {
        match self {
            Form::Alu(code, width, source) => {
                let class = match width {
                    Width::W32 => 4,
                    Width::W64 => 7,
                };
                code.number() * 16 + source.bit() * 8 + class
            }
            Form::Swap(SwapKind::ToLittle) => 0xd4,
            Form::Swap(SwapKind::ToBig) => 0xdc,
            Form::Swap(SwapKind::Swap) => 0xd7,
            Form::Load(size, Extend::Zero) => 0x61 + size.code() * 8,
            Form::Load(size, Extend::Sign) => 0x81 + size.code() * 8,
            Form::Store(size, source) => 0x62 + size.code() * 8 + source.bit(),
            Form::Near => 0x05,
            Form::Far => 0x06,
            Form::JumpIf(cond, width, source) => {
                let class = match width {
                    Width::W32 => 6,
                    Width::W64 => 5,
                };
                cond_code(cond) * 16 + source.bit() * 8 + class
            }
            Form::Call => 0x85,
            Form::Exit => 0x95,
            Form::Wide => 0x18,
        }
    }

    /// Whether the destination field means something.
    pub(crate) fn uses_dst(self) -> bool
        ensures { result ≡ uses_dst self }
    {
        !matches!(self, Form::Near | Form::Far | Form::Call | Form::Exit)
    }

    /// Whether the source field means something.
    pub(crate) fn uses_src(self) -> bool
        ensures { result ≡ uses_src self }
    {
        match self {
            Form::Load(_, _) => true,
            Form::Alu(_, _, source) | Form::Store(_, source) | Form::JumpIf(_, _, source) => {
                matches!(source, Source::Register)
            }
            _ => false,
        }
    }

    /// Whether the immediate field means something.
    pub(crate) fn uses_imm(self) -> bool
        ensures { result ≡ uses_imm self }
    {
        match self {
            Form::Alu(AluCode::Neg, _, _) => false,
            Form::Swap(_) | Form::Far | Form::Call | Form::Wide => true,
            Form::Alu(_, _, source) | Form::Store(_, source) | Form::JumpIf(_, _, source) => {
                matches!(source, Source::Immediate)
            }
            _ => false,
        }
    }

    /// Whether the offset means something.
    pub(crate) fn takes_offset(self, offset: u16) -> bool
        ensures { result ≡ takes_offset self offset }
    {
        match self {
            Form::Load(_, _) | Form::Store(_, _) | Form::Near | Form::JumpIf(_, _, _) => true,
            Form::Alu(AluCode::Div | AluCode::Mod, _, _) => offset == 0 || offset == 1,
            Form::Alu(AluCode::Mov, Width::W32, Source::Register) => {
                offset == 0 || offset == 8 || offset == 16
            }
            Form::Alu(AluCode::Mov, Width::W64, Source::Register) => {
                offset == 0 || offset == 8 || offset == 16 || offset == 32
            }
            _ => offset == 0,
        }
    }
}

/// The arithmetic code of this number.
fn alu_code(number: u8) -> Option<AluCode>
    ensures found { IfSome result (λ code. alu_number code ≡ number) }
    ensures none { IfNone result ((code : AluCode) → alu_number code ≢ number) }
{
    let code = match number {
        0 => AluCode::Add,
        1 => AluCode::Sub,
        2 => AluCode::Mul,
        3 => AluCode::Div,
        4 => AluCode::Or,
        5 => AluCode::And,
        6 => AluCode::Lsh,
        7 => AluCode::Rsh,
        8 => AluCode::Neg,
        9 => AluCode::Mod,
        10 => AluCode::Xor,
        11 => AluCode::Mov,
        12 => AluCode::Arsh,
        _ => return None,
    };
    Some(code)
}

/// The condition of this number.
fn condition(number: u8) -> Option<Cond>
    ensures found { IfSome result (λ cond. cond_number cond ≡ number) }
    ensures none { IfNone result ((cond : Cond) → cond_number cond ≢ number) }
{
    let cond = match number {
        1 => Cond::Equal,
        2 => Cond::Greater,
        3 => Cond::GreaterEqual,
        4 => Cond::AnySet,
        5 => Cond::NotEqual,
        6 => Cond::SignedGreater,
        7 => Cond::SignedGreaterEqual,
        10 => Cond::Less,
        11 => Cond::LessEqual,
        12 => Cond::SignedLess,
        13 => Cond::SignedLessEqual,
        _ => return None,
    };
    Some(cond)
}

/// The source that the bit of value 8 names.
fn make_source(opcode: u8) -> Source
    ensures { source_bit result ≡ opcode / 8 % 2 }
{
    if opcode / 8 % 2 == 0 {
        Source::Immediate
    } else {
        Source::Register
    }
}

/// The arithmetic form of this opcode.
fn arithmetic(opcode: u8, width: Width) -> Option<Form>
    requires { opcode % 8 ≡ alu_class width }
    ensures found { IfSome result (λ f. IsForm f × (opcode_of f ≡ opcode)) }
    ensures none { IfNone result ((code : AluCode) (source : Source) → IsForm (Form.Alu code width source) → opcode_of (Form.Alu code width source) ≢ opcode) }
{
    let code = alu_code(opcode / 16)?;
    match (code, make_source(opcode)) {
        (AluCode::Neg, Source::Register) => None,
        (code, source) => Some(Form::Alu(code, width, source)),
    }
}

/// The conditional jump of this opcode.
fn conditional(opcode: u8, width: Width) -> Option<Form>
    requires { opcode % 8 ≡ jump_class width }
    ensures found { IfSome result (λ f. IsForm f × (opcode_of f ≡ opcode)) }
    ensures none { IfNone result ((cond : Cond) (source : Source) → opcode_of (Form.JumpIf cond width source) ≢ opcode) }
{
    let cond = condition(opcode / 16)?;
    Some(Form::JumpIf(cond, width, make_source(opcode)))
}

/// The load of this opcode.
fn load(opcode: u8) -> Option<Form>
    ensures found { IfSome result (λ f. IsForm f × (opcode_of f ≡ opcode)) }
    ensures none { IfNone result ((size : Size) (extend : Extend) → IsForm (Form.Load size extend) → opcode_of (Form.Load size extend) ≢ opcode) }
{
    let form = match opcode {
        0x61 => Form::Load(Size::Word, Extend::Zero),
        0x69 => Form::Load(Size::Half, Extend::Zero),
        0x71 => Form::Load(Size::Byte, Extend::Zero),
        0x79 => Form::Load(Size::Double, Extend::Zero),
        0x81 => Form::Load(Size::Word, Extend::Sign),
        0x89 => Form::Load(Size::Half, Extend::Sign),
        0x91 => Form::Load(Size::Byte, Extend::Sign),
        _ => return None,
    };
    Some(form)
}

/// The store of this opcode.
fn store(opcode: u8) -> Option<Form>
    ensures found { IfSome result (λ f. IsForm f × (opcode_of f ≡ opcode)) }
    ensures none { IfNone result ((size : Size) (source : Source) → opcode_of (Form.Store size source) ≢ opcode) }
{
    let form = match opcode {
        0x62 => Form::Store(Size::Word, Source::Immediate),
        0x63 => Form::Store(Size::Word, Source::Register),
        0x6a => Form::Store(Size::Half, Source::Immediate),
        0x6b => Form::Store(Size::Half, Source::Register),
        0x72 => Form::Store(Size::Byte, Source::Immediate),
        0x73 => Form::Store(Size::Byte, Source::Register),
        0x7a => Form::Store(Size::Double, Source::Immediate),
        0x7b => Form::Store(Size::Double, Source::Register),
        _ => return None,
    };
    Some(form)
}

impl AluCode {
    /// The code's number.
    fn number(self) -> u8
        ensures value { result ≡ alu_number self }
        ensures fits { result ≤ 12 }
    {
        match self {
            AluCode::Add => 0,
            AluCode::Sub => 1,
            AluCode::Mul => 2,
            AluCode::Div => 3,
            AluCode::Or => 4,
            AluCode::And => 5,
            AluCode::Lsh => 6,
            AluCode::Rsh => 7,
            AluCode::Neg => 8,
            AluCode::Mod => 9,
            AluCode::Xor => 10,
            AluCode::Mov => 11,
            AluCode::Arsh => 12,
        }
    }
}

impl Source {
    /// The source bit.
    fn bit(self) -> u8
        ensures value { result ≡ source_bit self }
        ensures fits { result ≤ 1 }
    {
        match self {
            Source::Immediate => 0,
            Source::Register => 1,
        }
    }
}

impl Size {
    /// The number of the size.
    fn code(self) -> u8
        ensures value { result ≡ size_number self }
        ensures fits { result ≤ 3 }
    {
        match self {
            Size::Word => 0,
            Size::Half => 1,
            Size::Byte => 2,
            Size::Double => 3,
        }
    }
}

/// The number of a condition.
fn cond_code(cond: Cond) -> u8
    ensures value { result ≡ cond_number cond }
    ensures fits { result ≤ 13 }
{
    match cond {
        Cond::Equal => 1,
        Cond::Greater => 2,
        Cond::GreaterEqual => 3,
        Cond::AnySet => 4,
        Cond::NotEqual => 5,
        Cond::SignedGreater => 6,
        Cond::SignedGreaterEqual => 7,
        Cond::Less => 10,
        Cond::LessEqual => 11,
        Cond::SignedLess => 12,
        Cond::SignedLessEqual => 13,
    }
}
