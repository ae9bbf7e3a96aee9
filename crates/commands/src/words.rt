//! The words of a command line.
ghost use Rattle.std.specs.Prelude.{◌≡◌};
ghost use Rattle.std.specs.Char.{is_ascii_digit};
ghost use Rattle.std.specs.List.{list_all};
ghost use Rattle.commands.specs.Words.{copies_by, count_of, four_words_of, incarnation_of, is_count, kept_by, number_of, request_of, served_by, three_words_of, vnode_of};

use ring::MAX_COPIES;

/// What the words ask for.
#[derive(Clone, Copy)]
pub enum Request<'a> {
    /// To print the commands.
    Help,
    /// To print the version.
    Version,
    /// To run the program in the file `image` on the bytes of the file `input`.
    Run {
        image: &'a str,
        input: &'a str,
    },
    /// To say whether the program in the file is let in.
    Verify {
        image: &'a str,
    },
    /// To say what the verifier looked at of the program in the file.
    Explain {
        image: &'a str,
    },
    /// To run the script in the file.
    Sim {
        script: &'a str,
    },
    /// To run the script in the file `script`, and to make `file` hold the records of what the vnode at an index knows then. The index
    /// `2^32 - 1` stands for those past it too: no script has so many vnodes.
    Dump {
        file: &'a str,
        script: &'a str,
        vnode: u32,
    },
    /// To load the records of the file `file` under an incarnation, and to run the script in the file `script` then.
    Load {
        file: &'a str,
        incarnation: u16,
        script: &'a str,
    },
    /// To serve the store at an address, by 1 to 16 workers, with 1 to 3 copies of each key: so many connections, or without end.
    Serve {
        addr: &'a str,
        workers: u32,
        count: Option<u32>,
        copies: u32,
    },
    /// The same of a store that is kept in the folder `folder`.
    Keep {
        folder: &'a str,
        addr: &'a str,
        workers: u32,
        count: Option<u32>,
    },
}

/// The most workers.
pub(crate) const MOST_WORKERS: u32 = 16;

/// How many copies of a key there are where no words ask for more.
const USUAL_COPIES: u32 = 1;

/// What the words ask for, where they are those of a command.
pub fn parse<'a>(words: &[&'a str]) -> Option<Request<'a>>
    ensures { result ≡ request_of words.now }
{
    match words {
        [name] => match *name {
            "help" | "--help" => Some(Request::Help),
            "version" | "--version" | "-V" => Some(Request::Version),
            _ => None,
        },
        [name, file] => match *name {
            "verify" => Some(Request::Verify { image: file }),
            "explain" => Some(Request::Explain { image: file }),
            "sim" => Some(Request::Sim { script: file }),
            _ => None,
        },
        [name, first, second] => match *name {
            "run" => Some(Request::Run {
                image: first,
                input: second,
            }),
            "serve" => served(first, second, None, USUAL_COPIES),
            _ => None,
        },
        [name, first, second, third] => three_words(name, first, second, third),
        [name, first, second, third, fourth] => four_words(name, first, second, third, fourth),
        [name, first, second, third, fourth, fifth] => match *name {
            "serve" => served(
                first,
                second,
                Some(count_in(third)?),
                copies_in(fourth, fifth)?,
            ),
            _ => None,
        },
        _ => None,
    }
}

/// What the words of a command with three words behind its name ask for.
fn three_words<'a>(
    name: &str,
    first: &'a str,
    second: &'a str,
    third: &'a str,
) -> Option<Request<'a>>
    ensures { result ≡ three_words_of name.now first.entry second.entry third.entry }
{
    match name {
        "dump" => Some(Request::Dump {
            file: first,
            script: second,
            vnode: vnode_in(third)?,
        }),
        "load" => Some(Request::Load {
            file: first,
            incarnation: incarnation_in(second)?,
            script: third,
        }),
        "serve" => served(first, second, Some(count_in(third)?), USUAL_COPIES),
        "keep" => kept(first, second, third, None),
        _ => None,
    }
}

/// What the words of a command with four words behind its name ask for.
fn four_words<'a>(
    name: &str,
    first: &'a str,
    second: &'a str,
    third: &str,
    fourth: &str,
) -> Option<Request<'a>>
    ensures { result ≡ four_words_of name.now first.entry second.entry third.now fourth.now }
{
    match name {
        "keep" => kept(first, second, third, Some(count_in(fourth)?)),
        "serve" => served(first, second, None, copies_in(third, fourth)?),
        _ => None,
    }
}

/// To keep a store in a folder and serve it at an address, where the word asks for so many workers as there may be.
fn kept<'a>(
    folder: &'a str,
    addr: &'a str,
    workers: &str,
    count: Option<u32>,
) -> Option<Request<'a>>
    ensures { result ≡ kept_by folder.entry addr.entry (count_of workers.now) count }
{
    let workers = count_in(workers)?;
    if workers > MOST_WORKERS {
        return None;
    }
    Some(Request::Keep {
        folder,
        addr,
        workers,
        count,
    })
}

/// To serve at an address with so many copies of each key, where the word asks for so many workers as there may be.
fn served<'a>(addr: &'a str, workers: &str, count: Option<u32>, copies: u32) -> Option<Request<'a>>
    ensures { result ≡ served_by addr.entry (count_of workers.now) count copies }
{
    let workers = count_in(workers)?;
    if workers > MOST_WORKERS {
        return None;
    }
    Some(Request::Serve {
        addr,
        workers,
        count,
        copies,
    })
}

/// Whether a word is a decimal of 1 or more, without sign and leading zeros.
fn is_count(word: &str) -> bool
    ensures { result ≡ is_count word.now }
{
    let digits = word.as_bytes();
    digits.len() > 0 && digits[0] != b'0' && are_digits(digits)
}

/// Whether each byte is a digit.
fn are_digits(text: &[u8]) -> bool
    ensures { result ≡ list_all is_ascii_digit text.now }
{
    text.iter().all(|b| b.is_ascii_digit())
}

/// The number of 1 to `2^32 - 1` that a decimal without sign and leading zeros spells.
fn count_in(word: &str) -> Option<u32>
    ensures { result ≡ count_of word.now }
{
    if !is_count(word) {
        return None;
    }
    word.parse().ok()
}

/// How many copies of each key two words ask for, `copies` and a decimal of 1 to 3.
fn copies_in(word: &str, number: &str) -> Option<u32>
    ensures { result ≡ copies_by word.now number.now }
{
    if word != "copies" {
        return None;
    }
    match count_in(number) {
        Some(copies) if copies <= MAX_COPIES => Some(copies),
        _ => None,
    }
}

/// The number of 0 to `2^32 - 1` that a decimal without sign and leading zeros spells.
fn number_in(word: &str) -> Option<u32>
    ensures { result ≡ number_of word.now }
{
    if word == "0" { Some(0) } else { count_in(word) }
}

/// The index of a vnode that a decimal without sign and leading zeros spells. One past `2^32 - 1` counts as that one, which no script has
/// either.
fn vnode_in(word: &str) -> Option<u32>
    ensures { result ≡ vnode_of word.now }
{
    if word == "0" {
        return Some(0);
    }
    if !is_count(word) {
        return None;
    }
    Some(word.parse().unwrap_or(u32::MAX))
}

/// The incarnation that a decimal without sign and leading zeros spells.
fn incarnation_in(word: &str) -> Option<u16>
    ensures { result ≡ incarnation_of word.now }
{
    u16::try_from(number_in(word)?).ok()
}
