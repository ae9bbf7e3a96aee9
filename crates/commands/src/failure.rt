//! Why a command failed.

use std::{fmt, io};

/// Why a command told nothing on its output, or not all.
#[derive(Clone, Copy)]
pub enum Failure {
    /// The words are those of no command.
    Usage,
    /// A file of the words, or the output, cannot be read or written.
    Unreadable,
}

impl fmt::Display for Failure {
    fn fmt<W: fmt::Write>(&self, f: &mut fmt::Formatter<W>) -> fmt::Result {
        f.write_str(match self {
            Failure::Usage => "usage",
            Failure::Unreadable => "unreadable",
        })
    }
}

impl From<io::Error> for Failure {
    ghost use Rattle.std.specs.Prelude.{◌≡◌};
    ghost use Rattle.commands.specs.declared.failure.Failure.TheVariants.{Unreadable};

    ghost from_gives = { λ _ failure. failure ≡ Unreadable };

    fn from(_: io::Error) -> Failure {
        Failure::Unreadable
    }
}
