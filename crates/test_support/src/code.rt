//! Code and images for tests, from slots by what they do, and how a test tells of a row. No function here tells by a clause what it
//! answers: a test knows of an answer what it compares, and no more.

use std::alloc::{AllocError, Global};
use std::fmt::Debug;
use std::test::Fail;

/// Fails the test where a row does not hold, and names the row.
pub fn expect(holds: bool, row: &impl Debug) -> Result<(), Fail> {
    if holds {
        return Ok(());
    }
    Err(Fail::new(format_args!("{row:?}")))
}

/// An instruction, or a slot by its fields.
#[derive(Clone, Copy)]
pub enum Slot {
    /// An opcode, a destination, a source, an offset and an immediate; of a register's number the low four bits.
    Fields(u8, u8, u8, i16, i32),
    /// `dst = n`, of 64 bits in two slots.
    Wide(u8, u64),
    /// `dst = n`
    Put(u8, i32),
    /// `dst = src`
    Copied(u8, u8),
    /// `dst += n`
    Raised(u8, i32),
    /// `dst += src`
    Added(u8, u8),
    /// `dst` is the byte at an offset from the second register.
    LoadByte(u8, u8, i16),
    /// Stores the byte `n` at an offset from the register.
    StoreByte(u8, i16, i32),
    /// Stores four bytes, of the number `n`, at an offset from the register.
    StoreWord(u8, i16, i32),
    /// Goes so many slots past the next.
    Jump(i16),
    /// Calls what stands for the number.
    Call(i32),
    /// Ends the run.
    Exit,
}

/// The bytes of a slot's fields.
fn bytes_of(opcode: u8, dst: u8, src: u8, offset: i16, imm: i32) -> [u8; 8] {
    let [low, high] = offset.to_le_bytes();
    let [i0, i1, i2, i3] = imm.to_le_bytes();
    let registers = (src % 16) * 16 + dst % 16;
    [opcode, registers, low, high, i0, i1, i2, i3]
}

impl Slot {
    /// The bytes of the slot, of a wide instruction those of its first.
    fn first_bytes(self) -> [u8; 8] {
        match self {
            Slot::Fields(opcode, dst, src, offset, imm) => bytes_of(opcode, dst, src, offset, imm),
            Slot::Wide(dst, n) => {
                let [n0, n1, n2, n3, ..] = n.to_le_bytes();
                [0x18, dst, 0, 0, n0, n1, n2, n3]
            }
            Slot::Put(dst, n) => bytes_of(0xb7, dst, 0, 0, n),
            Slot::Copied(dst, src) => bytes_of(0xbf, dst, src, 0, 0),
            Slot::Raised(dst, n) => bytes_of(0x07, dst, 0, 0, n),
            Slot::Added(dst, src) => bytes_of(0x0f, dst, src, 0, 0),
            Slot::LoadByte(dst, base, offset) => bytes_of(0x71, dst, base, offset, 0),
            Slot::StoreByte(base, offset, n) => bytes_of(0x72, base, 0, offset, n),
            Slot::StoreWord(base, offset, n) => bytes_of(0x62, base, 0, offset, n),
            Slot::Jump(ahead) => bytes_of(0x05, 0, 0, ahead, 0),
            Slot::Call(number) => bytes_of(0x85, 0, 0, 0, number),
            Slot::Exit => bytes_of(0x95, 0, 0, 0, 0),
        }
    }
}

/// The bytes of some slots, a wide instruction's second among them.
pub fn code_of(alloc: Global, slots: &[Slot]) -> Result<Vec<u8>, AllocError> {
    let mut code = Vec::new(alloc);
    for slot in slots {
        code.extend_from_slice(&slot.first_bytes())?;
        if let Slot::Wide(_, n) = slot {
            let [.., n4, n5, n6, n7] = n.to_le_bytes();
            code.extend_from_slice(&[0, 0, 0, 0, n4, n5, n6, n7])?;
        }
    }
    Ok(code)
}

/// The bytes of a plain image, with windows of these lengths.
pub fn image_of(
    alloc: Global,
    in_len: u32,
    out_len: u32,
    slots: &[Slot],
) -> Result<Vec<u8>, AllocError> {
    hook_image_of(alloc, 0, in_len, out_len, slots)
}

/// The bytes of an image whose kind has this number, with windows of these lengths.
pub fn hook_image_of(
    alloc: Global,
    kind: u8,
    in_len: u32,
    out_len: u32,
    slots: &[Slot],
) -> Result<Vec<u8>, AllocError> {
    let mut bytes = Vec::new(alloc);
    bytes.extend_from_slice(&[b'R', b'B', b'P', b'F', 1, kind, 0, 0])?;
    bytes.extend_from_slice(&in_len.to_le_bytes())?;
    bytes.extend_from_slice(&out_len.to_le_bytes())?;
    bytes.extend_from_slice(&code_of(alloc, slots)?)?;
    Ok(bytes)
}
