//! Why bytes are not let in.

use bpf_image::ImageFault;
use bpf_verifier::{Refused, Rule};
use std::fmt;

/// Why bytes are not let in. `{}` writes a fault of the image or its code (`I2`, `D7 0`), the rule that is broken and its slot
/// (`V24 3`), `G2` for another kind, or `E1 0` for want of memory.
///
/// What is told of bytes as a fault or a rule is never want of memory.
#[derive(Clone, Copy, PartialEq, Eq)]
pub enum Refusal {
    /// The bytes are no image, or no code.
    Image(ImageFault),
    /// The program breaks a rule of the verifier.
    Rule(Refused),
    /// The image is of another kind than is asked for.
    OtherKind,
    /// Memory ran out.
    NoMemory,
}

impl From<ImageFault> for Refusal {
    ghost use Rattle.std.specs.Prelude.{◌≡◌};
    ghost use Rattle.bpf_admission.specs.Admissions.{of_fault};

    ghost from_gives = { λ fault refusal. refusal ≡ of_fault fault };

    fn from(fault: ImageFault) -> Refusal {
        match fault {
            ImageFault::NoMemory => Refusal::NoMemory,
            _ => Refusal::Image(fault),
        }
    }
}

impl From<Refused> for Refusal {
    ghost use Rattle.std.specs.Prelude.{◌≡◌};
    ghost use Rattle.bpf_admission.specs.Admissions.{of_rule};

    ghost from_gives = { λ refused refusal. refusal ≡ of_rule refused };

    fn from(refused: Refused) -> Refusal {
        match refused.rule {
            Rule::NoMemory => Refusal::NoMemory,
            _ => Refusal::Rule(refused),
        }
    }
}

impl fmt::Display for Refusal {
    ghost use Rattle.std.specs.Prelude.{Some};
    ghost use Rattle.bpf_admission.specs.Admissions.{refusal_text};

    ghost output = { λ refusal. Some (refusal_text refusal) };

    fn fmt<W: fmt::Write>(&self, f: &mut fmt::Formatter<W>) -> fmt::Result {
        match self {
            Refusal::Image(fault) => write!(f, "{fault}"),
            Refusal::Rule(Refused { rule, slot }) => match rule.number() {
                Some(number) => write!(f, "V{number} {slot}"),
                None => f.write_str("E1 0"),
            },
            Refusal::OtherKind => f.write_str("G2"),
            Refusal::NoMemory => f.write_str("E1 0"),
        }
    }
}
