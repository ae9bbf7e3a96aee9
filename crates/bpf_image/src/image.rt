//! Images: a head that names the kind and the windows, and the code.

ghost use Rattle.std.specs.Prelude.{◌≤◌, length};
ghost use Rattle.bpf_insn.specs.Encoding.{IsCode};
ghost use Rattle.bpf_semantics.specs.Windows.{longest_window};

use bpf_insn::{DecodeFault, Insn};
use bpf_semantics::Profile;
use std::fmt;

/// What a program is for.
#[derive(Clone, Copy, PartialEq, Eq)]
pub enum ImageKind {
    /// A program of no hook.
    Plain,
    /// A hook that runs on each new content of a bucket.
    PreCommit,
    /// A hook that runs where a key has siblings.
    Resolver,
}

/// A program: its kind, the table of kinds by which it is verified, the lengths of its windows in bytes, and its code, one entry
/// for each slot.
#[derive(Drop)]
pub struct Image {
    pub kind: ImageKind,
    pub profile: Profile,
    pub in_len: u32,
    pub out_len: u32,
    pub code: Vec<Insn>,
    ghost in_small: { in_len ≤ longest_window },
    ghost out_small: { out_len ≤ longest_window },
    ghost is_code: { ∥ IsCode code.items ∥₁ },
    ghost some_slots: { 1 ≤ length code.items },
    ghost few_slots: { length code.items ≤ 4096 },
}

/// Why bytes are no image. `{}` writes the number of a fault of the head, `I1` to `I5`, and of code its refusal and slot, as
/// `D4 7`; want of memory is `E1 0`.
#[derive(Clone, Copy, PartialEq, Eq)]
pub enum ImageFault {
    /// There are fewer than 16 bytes.
    Short,
    /// The first four bytes are not those of an image.
    Mark,
    /// The version is neither 1 nor 2.
    Version,
    /// The kind is none of the three, or one of the two bytes after it is not zero.
    Kind,
    /// A window has more than 65,536 bytes.
    Window,
    /// The bytes after the head are no code.
    Code(DecodeFault),
    /// Memory ran out.
    NoMemory,
}

impl fmt::Display for ImageFault {
    ghost use Rattle.std.specs.Prelude.{Some};
    ghost use Rattle.bpf_image.specs.Image.{text_of};

    ghost output = { λ fault. Some (text_of fault) };

    fn fmt<W: fmt::Write>(&self, f: &mut fmt::Formatter<W>) -> fmt::Result {
        match self {
            ImageFault::Short => f.write_str("I1"),
            ImageFault::Mark => f.write_str("I2"),
            ImageFault::Version => f.write_str("I3"),
            ImageFault::Kind => f.write_str("I4"),
            ImageFault::Window => f.write_str("I5"),
            ImageFault::Code(DecodeFault { slot, why }) => write!(f, "{why} {slot}"),
            ImageFault::NoMemory => f.write_str("E1 0"),
        }
    }
}

impl ImageKind {
    ghost use Rattle.std.specs.Prelude.{◌≡◌, ◌<◌, ◌↔◌, IfSome, IsNone};
    ghost use Rattle.bpf_image.specs.Image.{kind_number};

    /// The kind's number, in an image and in a hook's input: 0, 1 or 2.
    pub fn number(self) -> u8
        ensures { result ≡ kind_number self }
    {
        match self {
            ImageKind::Plain => 0,
            ImageKind::PreCommit => 1,
            ImageKind::Resolver => 2,
        }
    }

    /// The kind of this number.
    pub fn from_number(number: u8) -> Option<ImageKind>
        ensures found { IfSome result (λ kind. number ≡ kind_number kind) }
        ensures none { IsNone result ↔ (2 < number) }
    {
        match number {
            0 => Some(ImageKind::Plain),
            1 => Some(ImageKind::PreCommit),
            2 => Some(ImageKind::Resolver),
            _ => None,
        }
    }
}
