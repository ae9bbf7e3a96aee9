//! The fields of eight bytes.
ghost use Rattle.std.specs.Prelude.{◌≡◌, ◌≤◌, ◌++◌, length};
ghost use Rattle.bpf_insn.specs.Encoding.{IsSlot, slot_bytes};

/// The fields of a slot, as they stand in its bytes.
#[derive(Clone, Copy)]
pub(crate) struct Slot {
    pub opcode: u8,
    pub dst: u8,
    pub src: u8,
    pub offset: u16,
    pub imm: u32,
}

impl Slot {
    /// The slot that eight bytes are.
    pub(crate) fn from_bytes(bytes: [u8; 8]) -> Slot
        ensures bytes { slot_bytes result ≡ bytes }
        ensures fits { IsSlot result }
    {
        let [opcode, registers, offset_low, offset_high, i0, i1, i2, i3] = bytes;
        Slot {
            opcode,
            dst: registers & 0xf,
            src: registers >> 4,
            offset: u16::from_le_bytes([offset_low, offset_high]),
            imm: u32::from_le_bytes([i0, i1, i2, i3]),
        }
    }

    /// The slot's bytes.
    pub(crate) fn to_bytes(self) -> [u8; 8]
        requires { IsSlot self }
        ensures { result ≡ slot_bytes self }
    {
        let [offset_low, offset_high] = self.offset.to_le_bytes();
        let [i0, i1, i2, i3] = self.imm.to_le_bytes();
        [
            self.opcode,
            self.src * 16 + self.dst,
            offset_low,
            offset_high,
            i0,
            i1,
            i2,
            i3,
        ]
    }
}
