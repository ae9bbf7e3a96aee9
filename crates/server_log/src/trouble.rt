//! The kinds of troubles.

ghost use Rattle.std.specs.Prelude.{◌≡◌, ◌<◌};
ghost use Rattle.server_log.specs.Rations.{place_of, hook_place};

use std::fmt;

/// Why a hook that is bound to a bucket decided nothing. It shows its number, and the reason in a few words.
#[derive(Clone, Copy, Debug, PartialEq, Eq)]
pub enum HookTrouble {
    /// The hooks can't be looked up now.
    Unseen,
    /// A helper that it was verified with is missing.
    Disagrees,
    /// What it is to see doesn't fit its input window, or has over 64 siblings.
    TooLarge,
    /// Its answer has no meaning.
    BadAnswer,
}

/// What goes wrong while requests are answered. It shows what it is, in a few words.
#[derive(Clone, Copy, Debug, PartialEq, Eq)]
pub enum Trouble {
    /// Memory was refused: a connection was given up, or a call was answered with `E1`.
    NoMemory,
    /// A pre-commit hook decided nothing, and the write was refused.
    PreCommit(HookTrouble),
    /// A resolver decided nothing, and the siblings stay.
    Resolver(HookTrouble),
    /// What a resolver chose could not be written, and the siblings stay.
    Unwritten,
}

impl HookTrouble {
    fn place(self) -> usize
        ensures { result ≡ hook_place self }
    {
        match self {
            HookTrouble::Unseen => 0,
            HookTrouble::Disagrees => 1,
            HookTrouble::TooLarge => 2,
            HookTrouble::BadAnswer => 3,
        }
    }
}

impl Trouble {
    /// Its place among the kinds.
    pub(crate) fn place(self) -> usize
        ensures place { result ≡ place_of self }
        ensures inside { result < 10 }
    {
        match self {
            Trouble::NoMemory => 0,
            Trouble::Unwritten => 1,
            Trouble::PreCommit(why) => 2 + why.place(),
            Trouble::Resolver(why) => 6 + why.place(),
        }
    }
}

impl fmt::Display for HookTrouble {
    fn fmt<W: fmt::Write>(&self, f: &mut fmt::Formatter<W>) -> fmt::Result {
        f.write_str(match self {
            HookTrouble::Unseen => "G3, hooks can't be looked up now",
            HookTrouble::Disagrees => "X4, a helper that it was verified with is missing",
            HookTrouble::TooLarge => "X1, what it is to see doesn't fit its input window",
            HookTrouble::BadAnswer => "X2, its answer has no meaning",
        })
    }
}

impl fmt::Display for Trouble {
    fn fmt<W: fmt::Write>(&self, f: &mut fmt::Formatter<W>) -> fmt::Result {
        match self {
            Trouble::NoMemory => f.write_str("E1, memory was refused"),
            Trouble::PreCommit(why) => write!(f, "pre-commit hook failed: {why}"),
            Trouble::Resolver(why) => write!(f, "resolver failed: {why}"),
            Trouble::Unwritten => f.write_str(
                "resolver failed: what it chose could not be written",
            ),
        }
    }
}
