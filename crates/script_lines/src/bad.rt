//! Why a line is bad.

use std::fmt;

/// Why the bytes of a line spell none. It shows the reason in a few words.
#[derive(Clone, Copy)]
pub enum Misspelling {
    /// The line doesn't end by a line feed.
    NoLineFeed,
    /// The first word is none of a line.
    NoSuchLine,
    /// There are more or fewer words than a line of its first word has.
    WordCount,
    /// A word is no decimal without sign and leading zeros, or one past `usize::MAX`.
    NoNumber,
    /// An incarnation is at most 65,535.
    NoIncarnation,
    /// A key, a value or a name is no word of 1 to 64 letters and digits.
    NoWord,
    /// A context is none of `-`, `@NAME` and `=TOKEN`.
    NoContext,
    /// The name of a file is no text.
    NoFileName,
}

impl fmt::Display for Misspelling {
    fn fmt<W: fmt::Write>(&self, f: &mut fmt::Formatter<W>) -> fmt::Result {
        f.write_str(match self {
            Misspelling::NoLineFeed => "no line feed at the end",
            Misspelling::NoSuchLine => "no such line",
            Misspelling::WordCount => "too many or too few words",
            Misspelling::NoNumber => "a number that is no decimal",
            Misspelling::NoIncarnation => "an incarnation is at most 65535",
            Misspelling::NoWord => "a word that is not 1 to 64 letters and digits",
            Misspelling::NoContext => "a context that is none of -, @NAME and =TOKEN",
            Misspelling::NoFileName => "a file name that is no text",
        })
    }
}

/// Why a line may not stand where it stands. It shows the reason in a few words.
#[derive(Clone, Copy)]
pub enum BadLine<'a> {
    /// Its bytes spell no line.
    Misspelled(Misspelling),
    /// A script has 1 to 255 vnodes.
    VnodeCount,
    /// There is a line `vnodes` already.
    VnodesAgain,
    /// The script has no vnode of this index.
    NoVnode(usize),
    /// The latest line of this name is no get, or there is none.
    NoGet(&'a [u8]),
    /// The latest line of this name is no summary, or there is none.
    NoSummary(&'a [u8]),
    /// The latest line of this name is no send, neither of all nor of a part, or there is none.
    NoSend(&'a [u8]),
    /// The latest line of this name is no dump, or there is none.
    NoDump(&'a [u8]),
    /// The index of this vnode had this incarnation before.
    UsedIncarnation(usize, u16),
    /// There is no file of this name, or it can't be read.
    NoFile(&'a str),
}

impl fmt::Display for BadLine<'_> {
    fn fmt<W: fmt::Write>(&self, f: &mut fmt::Formatter<W>) -> fmt::Result {
        match self {
            BadLine::Misspelled(why) => write!(f, "{why}"),
            BadLine::VnodeCount => f.write_str("vnodes are 1 to 255"),
            BadLine::VnodesAgain => f.write_str("vnodes stands once"),
            BadLine::NoVnode(vnode) => write!(f, "no vnode {vnode}"),
            BadLine::NoGet(name) => write_named(f, "get", name),
            BadLine::NoSummary(name) => write_named(f, "sum", name),
            BadLine::NoSend(name) => write_named(f, "send", name),
            BadLine::NoDump(name) => write_named(f, "dump", name),
            BadLine::UsedIncarnation(vnode, incarnation) => {
                write!(f, "vnode {vnode} had incarnation {incarnation} before")
            }
            BadLine::NoFile(file) => write!(f, "no file {file}"),
        }
    }
}

// Writes that no line of this kind has the name, which is ASCII.
fn write_named<W: fmt::Write>(f: &mut fmt::Formatter<W>, kind: &str, name: &[u8]) -> fmt::Result {
    write!(f, "no {kind} named ")?;
    for byte in name {
        f.write_char(*byte as char)?;
    }
    Ok(())
}
