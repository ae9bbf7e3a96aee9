//! What a run came to, and how it is told.
ghost use Rattle.std.specs.Prelude.{◌≡◌};
ghost use Rattle.commands.specs.Outcome.{or_dash, up_to_last_set};

use bpf_admission::Refusal;
use std::fmt;

/// What a run came to.
#[derive(Drop)]
pub enum Outcome {
    /// The program ended with this answer after this many steps. It left this output, in lower-case hexadecimal up to the last
    /// byte that is not zero.
    Exit {
        answer: u64,
        steps: u32,
        output: String,
    },
    /// The program is not let in.
    Refused(Refusal),
    /// The input is longer than its window.
    RefusedInput,
    /// Memory ran out before the run, or after it for the text of its output.
    NoMemory,
}

impl Outcome {
    ghost use Rattle.std.specs.Prelude.{◌≡◌};
    ghost use Rattle.commands.specs.Outcome.{status_of};

    /// The status of the program: 0 where the run ended with an answer, else 1.
    pub fn status(&self) -> u8
        ensures { result ≡ status_of self.now }
    {
        match self {
            Outcome::Exit { .. } => 0,
            _ => 1,
        }
    }
}

impl fmt::Display for Outcome {
    ghost use Rattle.std.specs.Prelude.{Some};
    ghost use Rattle.commands.specs.Outcome.{text_of};

    ghost output = { λ outcome. Some (text_of outcome) };

    fn fmt<W: fmt::Write>(&self, f: &mut fmt::Formatter<W>) -> fmt::Result {
        match self {
            Outcome::Exit {
                answer,
                steps,
                output,
            } => {
                let shown = or_dash(output);
                write!(f, "answer {answer}\nsteps {steps}\noutput {shown}\n")
            }
            Outcome::Refused(refusal) => write!(f, "refused {refusal}\n"),
            Outcome::RefusedInput => write!(f, "refused input\n"),
            Outcome::NoMemory => f.write_str("refused E1 0\n"),
        }
    }
}

/// The text, or a dash where it is empty.
fn or_dash(text: &str) -> &str
    ensures { result.now ≡ or_dash text.now }
{
    if text.is_empty() { "-" } else { text }
}

/// The bytes up to the last that is not zero.
pub fn up_to_last_set(bytes: &[u8]) -> &[u8]
    ensures { result.now ≡ up_to_last_set bytes.now }
{
    let mut rest = bytes;
    while let Some((last, front)) = rest.split_last() {
        if *last != 0 {
            break;
        }
        rest = front;
    }
    rest
}
