//! The memory of a program, and the texts of its states and steps.
#![tactic(auto)]

ghost use Rattle.std.specs.Prelude.{◌≡◌, ◌+◌, ◌*◌, ◌^◌, ◌<◌, ◌≤◌, replicate, length};
ghost use Rattle.bpf_insn.specs.Encoding.{size_bytes};
ghost use Rattle.bpf_semantics.specs.Windows.{base, window, longest_window, little_endian, low_bytes, range, overwritten, read, written};

mod laws;
mod profile;

use bpf_insn::Size;
pub use laws::{
    division_by_zero, limits, memory_is_a_map, narrow_operations_clear_the_high_half,
    steps_keep_the_input,
};
pub use profile::Profile;
use std::fmt;

/// The most bytes of a window that a program is given, and of a range that a call of its reads or writes.
pub const MAX_WINDOW_BYTES: u32 = 65_536;

/// A window of memory.
#[derive(Clone, Copy, PartialEq, Eq)]
pub enum Region {
    Stack,
    Input,
    Output,
}

/// What can go wrong in a step, in the order in which it is told where several things do. `{}` writes its name.
#[derive(Clone, Copy, PartialEq, Eq)]
pub enum Fault {
    /// A register that is read holds nothing.
    Unset,
    /// No window has the bytes of a load or store.
    Address,
    /// A store to the input.
    Input,
    /// No instruction starts at the slot.
    Slot,
    /// An unknown helper, or a call that does not fit it.
    Helper,
    /// A write to the frame pointer.
    ReadOnly,
}

impl fmt::Display for Fault {
    ghost use Rattle.std.specs.Prelude.{Some};
    ghost use Rattle.bpf_semantics.specs.State.{name_of};

    ghost output = { λ fault. Some (name_of fault) };

    fn fmt<W: fmt::Write>(&self, f: &mut fmt::Formatter<W>) -> fmt::Result {
        f.write_str(match self {
            Fault::Unset => "Unset",
            Fault::Address => "Address",
            Fault::Input => "Input",
            Fault::Slot => "Slot",
            Fault::Helper => "Helper",
            Fault::ReadOnly => "ReadOnly",
        })
    }
}

/// The three windows of a program.
#[derive(Drop)]
pub struct Windows<'a> {
    pub stack: [u8; 512],
    pub input: &'a [u8],
    pub output: &'a mut [u8],
    ghost stack_whole: { length stack ≡ 512 },
    ghost input_small: { length input.now ≤ longest_window },
    ghost output_small: { length output.now ≤ longest_window },
}

impl Region {
    /// The address of the window's first byte.
    pub fn base(self) -> u64
        ensures { result ≡ base self }
    {
        match self {
            Region::Stack => (1 << 40) - 512,
            Region::Input => 1 << 41,
            Region::Output => 1 << 42,
        }
    }
}

impl<'a> Windows<'a> {
    ghost use Rattle.std.specs.Prelude.{◌≡◌, ◌≢◌, ◌+◌, ◌-◌, ◌*◌, ◌^◌, ◌<◌, ◌≤◌, ◌↔◌, IsTrue, replicate, length, IfSome, IfNone};
    ghost use Rattle.bpf_insn.specs.Encoding.{size_bytes};
    ghost use Rattle.bpf_semantics.specs.Windows.{Covers, base, overwritten, window, little_endian, low_bytes, read, written};
    ghost use Rattle.bpf_semantics.specs.declared.Region.{Region};
    ghost use Rattle.bpf_semantics.specs.Contents.{memory_of};

    /// The bytes of a window.
    #[inline(always)]
    pub fn bytes(&self, region: Region) -> &[u8]
        ensures { result.now ≡ window (memory_of self.now) region }
    {
        match region {
            Region::Stack => &self.stack,
            Region::Input => self.input,
            Region::Output => self.output,
        }
    }

    /// The place in a window of an address, if the window has that many bytes from there on.
    fn place_in(&self, region: Region, address: u64, n: usize) -> Option<usize>
        ensures found { IfSome result (λ at. Covers (memory_of self.now) region address n × (at ≡ address - base region)) }
        ensures none { IfNone result (¬ Covers (memory_of self.now) region address n) }
    {
        let at = address.checked_sub(region.base())? as usize;
        let len = self.bytes(region).len();
        if n <= len && at <= len - n {
            Some(at)
        } else {
            None
        }
    }

    /// The window that has that many bytes from an address on, and the place there. The input is tried first.
    pub fn locate(&self, address: u64, n: usize) -> Option<(Region, usize)>
        ensures found { IfSome result (λ place. Covers (memory_of self.now) place.0 address n × (place.1 ≡ address - base place.0)) }
        ensures input { IfSome result (λ place. place.0 ≢ Region.Input → ¬ Covers (memory_of self.now) Region.Input address n) }
        ensures none { IfNone result ((region : Region) → ¬ Covers (memory_of self.now) region address n) }
    {
        if let Some(at) = self.place_in(Region::Input, address, n) {
            return Some((Region::Input, at));
        }
        if let Some(at) = self.place_in(Region::Stack, address, n) {
            return Some((Region::Stack, at));
        }
        let at = self.place_in(Region::Output, address, n)?;
        Some((Region::Output, at))
    }

    /// The number that the bytes at a place spell.
    pub fn load(&self, region: Region, at: usize, size: Size) -> u64
        requires { at + size_bytes size ≤ length (window (memory_of self.now) region) }
        ensures value { result ≡ little_endian (read (memory_of self.now) region at (size_bytes size)) }
        ensures fits { result < 2 ^ (8 * size_bytes size) }
    {
        load_from(self.bytes(region), at, size)
    }

    /// Writes the low bytes of a number at a place.
    pub fn store(&mut self, region: Region, at: usize, size: Size, value: u64)
        requires within { at + size_bytes size ≤ length (window (memory_of self.old) region) }
        requires writable { region ≢ Region.Input }
        ensures written { memory_of self.new ≡ written (memory_of self.old) region at (low_bytes (size_bytes size) value) }
        ensures lent { self.new.output.ghost_name ≡ self.old.output.ghost_name }
    {
        match region {
            Region::Stack => store_to(&mut self.stack, at, size, value),
            Region::Output => store_to(self.output, at, size, value),
            Region::Input => unreachable!(),
        }
    }

    /// Writes bytes of a window into other bytes.
    fn read_into(&self, region: Region, from_at: usize, n: usize, target: &mut [u8], at: usize)
        requires source { from_at + n ≤ length (window (memory_of self.now) region) }
        requires target { at + n ≤ length target.old }
        ensures { target.new ≡ overwritten target.old at (read (memory_of self.now) region from_at n) }
    {
        write_at(target, at, &self.bytes(region)[from_at..from_at + n]);
    }

    /// Copies bytes from one place to another. They may overlap: what is written is what stood there before.
    pub fn copy(&mut self, to: Region, to_at: usize, from: Region, from_at: usize, n: usize)
        requires target { to_at + n ≤ length (window (memory_of self.old) to) }
        requires source { from_at + n ≤ length (window (memory_of self.old) from) }
        requires writable { to ≢ Region.Input }
        ensures written { memory_of self.new ≡ written (memory_of self.old) to to_at (read (memory_of self.old) from from_at n) }
        ensures lent { self.new.output.ghost_name ≡ self.old.output.ghost_name }
    {
        match (to, from) {
            (Region::Stack, Region::Stack) => self.stack.copy_within(from_at..from_at + n, to_at),
            (Region::Stack, Region::Input) => {
                let source = self.input;
                let target = &mut self.stack;
                write_at(target, to_at, &source[from_at..from_at + n]);
            }
            (Region::Stack, Region::Output) => {
                let mut stack = self.stack;
                self.read_into(from, from_at, n, &mut stack, to_at);
                self.stack = stack;
            }
            (Region::Output, Region::Output) => {
                let target = &mut *self.output;
                target.copy_within(from_at..from_at + n, to_at);
            }
            (Region::Output, Region::Input) => {
                let source = self.input;
                let target = &mut *self.output;
                write_at(target, to_at, &source[from_at..from_at + n]);
            }
            (Region::Output, Region::Stack) => {
                let source = &self.stack;
                let target = &mut *self.output;
                write_at(target, to_at, &source[from_at..from_at + n]);
            }
            (Region::Input, _) => unreachable!(),
        }
    }

    /// Writes a byte a number of times.
    pub fn fill(&mut self, region: Region, at: usize, n: usize, byte: u8)
        requires within { at + n ≤ length (window (memory_of self.old) region) }
        requires writable { region ≢ Region.Input }
        ensures written { memory_of self.new ≡ written (memory_of self.old) region at (replicate n byte) }
        ensures lent { self.new.output.ghost_name ≡ self.old.output.ghost_name }
    {
        match region {
            Region::Stack => fill_at(&mut self.stack, at, n, byte),
            Region::Output => fill_at(self.output, at, n, byte),
            Region::Input => unreachable!(),
        }
    }

    /// Whether two places hold the same bytes.
    pub fn same(
        &self,
        left: Region,
        left_at: usize,
        right: Region,
        right_at: usize,
        n: usize,
    ) -> bool
        requires left { left_at + n ≤ length (window (memory_of self.now) left) }
        requires right { right_at + n ≤ length (window (memory_of self.now) right) }
        ensures { IsTrue result ↔ (read (memory_of self.now) left left_at n ≡ read (memory_of self.now) right right_at n) }
    {
        self.bytes(left)[left_at..left_at + n] == self.bytes(right)[right_at..right_at + n]
    }
}

/// Writes bytes at a place.
fn write_at(bytes: &mut [u8], at: usize, new: &[u8])
    requires { at + length new.now ≤ length bytes.old }
    ensures { bytes.new ≡ overwritten bytes.old at new.now }
{
    bytes[at..at + new.len()].copy_from_slice(new);
}

/// Writes a byte a number of times from a place on.
fn fill_at(bytes: &mut [u8], at: usize, n: usize, byte: u8)
    requires { at + n ≤ length bytes.old }
    ensures { bytes.new ≡ overwritten bytes.old at (replicate n byte) }
{
    bytes[at..at + n].fill(byte);
}

/// The number that the bytes at a place spell.
fn load_from(bytes: &[u8], at: usize, size: Size) -> u64
    requires { at + size_bytes size ≤ length bytes.now }
    ensures value { result ≡ little_endian (range bytes.now at (size_bytes size)) }
    ensures fits { result < 2 ^ (8 * size_bytes size) }
{
    match size {
        Size::Byte => u64::from(bytes[at]),
        Size::Half => u64::from(u16::from_le_bytes([bytes[at], bytes[at + 1]])),
        Size::Word => u64::from(u32::from_le_bytes([
            bytes[at],
            bytes[at + 1],
            bytes[at + 2],
            bytes[at + 3],
        ])),
        Size::Double => u64::from_le_bytes([
            bytes[at],
            bytes[at + 1],
            bytes[at + 2],
            bytes[at + 3],
            bytes[at + 4],
            bytes[at + 5],
            bytes[at + 6],
            bytes[at + 7],
        ]),
    }
}

/// Writes the low bytes of a number at a place.
fn store_to(bytes: &mut [u8], at: usize, size: Size, value: u64)
    requires { at + size_bytes size ≤ length bytes.old }
    ensures { bytes.new ≡ overwritten bytes.old at (low_bytes (size_bytes size) value) }
{
    let all = value.to_le_bytes();
    let n = size.bytes();
    bytes[at..at + n].copy_from_slice(&all[..n]);
}
