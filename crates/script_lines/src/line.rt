//! One line of a script, as it is spelled.

ghost use Rattle.std.specs.Prelude.{◌≡◌, ◌==◌, ◌∷◌, [], codes, decimal, IfOk, MatchOption, MatchResult, None, Some};
ghost use Rattle.script_lines.specs.Commands.{IsCommand};
ghost use Rattle.script_lines.specs.Grammar.{IsRead, IsReadBehind, context_fault, context_word, fault_at, lent, places_of, question_word};
ghost use Rattle.script_lines.specs.Grammar.{Index, Incarnation, Name, Seen, File};
ghost use Rattle.script_lines.specs.Lines.{words_in};
ghost use Rattle.script_lines.specs.Spelling.{IsSpelling, Spells};

use crate::bad::Misspelling;
use crate::words::{is_word, number};
use std::alloc::{AllocError, Global};
use std::str;

/// What a put had seen, as a line says it.
#[derive(Clone, Copy)]
pub enum Context<'a> {
    /// Nothing.
    Nothing,
    /// What the get of this name answered.
    OfGet(&'a [u8]),
    /// The events of this token.
    Token(&'a [u8]),
}

/// What is asked of a vnode about a key, under a name for the answer.
#[derive(Clone, Copy)]
pub enum Question {
    /// What it knows.
    Get,
    /// A message of all that it knows.
    Send,
    /// A summary of what it knows.
    Sum,
}

/// A line that asks for something. Names and keys are words; a vnode goes by its index.
#[derive(Clone, Copy)]
pub enum Line<'a> {
    Vnodes(usize),
    Put {
        vnode: usize,
        key: &'a [u8],
        value: Option<&'a [u8]>,
        context: Context<'a>,
    },
    Ask {
        question: Question,
        vnode: usize,
        key: &'a [u8],
        name: &'a [u8],
    },
    Part {
        vnode: usize,
        key: &'a [u8],
        summary: &'a [u8],
        name: &'a [u8],
    },
    Deliver {
        name: &'a [u8],
        vnode: usize,
    },
    Restart {
        vnode: usize,
    },
    Dump {
        vnode: usize,
        name: &'a [u8],
    },
    Load {
        vnode: usize,
        incarnation: u16,
        name: &'a [u8],
    },
    Resolve {
        name: &'a [u8],
        file: &'a str,
    },
    Commit {
        vnode: usize,
        name: &'a [u8],
    },
    Check {
        vnode: usize,
        key: &'a [u8],
        value: &'a [u8],
        file: &'a str,
    },
}

/// What the bytes of a line spell.
#[derive(Clone, Copy)]
pub enum Spelling<'a> {
    /// An empty line, or a comment.
    PassedOver,
    /// A line that asks for something.
    Line(Line<'a>),
    /// Nothing that is a line, and why.
    Bad(Misspelling),
}

// What the first word of a line asks for.
#[derive(Clone, Copy)]
enum Command {
    Vnodes,
    Put,
    Del,
    Ask(Question),
    Part,
    Deliver,
    Restart,
    Dump,
    Load,
    Resolve,
    Commit,
    Check,
}

/// What the bytes of a line spell, its line feed among them. The list of its words takes memory.
pub fn line_of<'a>(alloc: Global, bytes: &'a [u8]) -> Result<Spelling<'a>, AllocError>
    ensures passed_over { IfOk result (Spells bytes.now) }
    ensures spelled { IfOk result (IsSpelling bytes.now) }
{
    let Some((b'\n', line)) = bytes.split_last() else {
        return Ok(Spelling::Bad(Misspelling::NoLineFeed));
    };
    match line.first() {
        None | Some(b'#') => Ok(Spelling::PassedOver),
        Some(_) => match line_in(alloc, line)? {
            Ok(line) => Ok(Spelling::Line(line)),
            Err(why) => Ok(Spelling::Bad(why)),
        },
    }
}

// The line that is spelled by bytes before a line feed.
fn line_in<'a>(alloc: Global, line: &'a [u8]) -> Result<Result<Line<'a>, Misspelling>, AllocError>
    ensures { IfOk result (IsRead (words_in line.now)) }
{
    let words = words_of(alloc, line)?;
    Ok(spelled(&words))
}

// The words of a line, which are parted by one space.
fn words_of<'a>(alloc: Global, line: &'a [u8]) -> Result<Vec<&'a [u8]>, AllocError>
    ensures { IfOk result (λ words. lent words.items ≡ words_in line.now) }
{
    let mut words = Vec::with_capacity(alloc, 5)?;
    for word in line.split(
        |byte| -> bool
            ensures { result ≡ (byte.now == 32) }
        { *byte == b' ' },
    ) {
        words.push(word)?;
    }
    Ok(words)
}

// The line of these words.
fn spelled<'a>(words: &[&'a [u8]]) -> Result<Line<'a>, Misspelling>
    ensures { IsRead (lent words.now) result }
{
    let Some((command, arguments)) = words.split_first() else {
        return Err(Misspelling::NoSuchLine);
    };
    match command_of(command) {
        Some(Command::Vnodes) => vnodes(arguments),
        Some(Command::Put) => put(arguments),
        Some(Command::Del) => del(arguments),
        Some(Command::Ask(question)) => ask(question, arguments),
        Some(Command::Part) => part(arguments),
        Some(Command::Deliver) => deliver(arguments),
        Some(Command::Restart) => restart(arguments),
        Some(Command::Dump) => dump(arguments),
        Some(Command::Load) => load(arguments),
        Some(Command::Resolve) => resolve(arguments),
        Some(Command::Commit) => commit(arguments),
        Some(Command::Check) => check(arguments),
        None => Err(Misspelling::NoSuchLine),
    }
}

// The command of this name.
fn command_of(name: &[u8]) -> Option<Command>
    ensures { MatchOption result (places_of name.now ≡ None) (IsCommand name.now) }
{
    match name {
        b"vnodes" => Some(Command::Vnodes),
        b"put" => Some(Command::Put),
        b"del" => Some(Command::Del),
        b"get" => Some(Command::Ask(Question::Get)),
        b"send" => Some(Command::Ask(Question::Send)),
        b"sum" => Some(Command::Ask(Question::Sum)),
        b"part" => Some(Command::Part),
        b"deliver" => Some(Command::Deliver),
        b"restart" => Some(Command::Restart),
        b"dump" => Some(Command::Dump),
        b"load" => Some(Command::Load),
        b"resolve" => Some(Command::Resolve),
        b"commit" => Some(Command::Commit),
        b"check" => Some(Command::Check),
        _ => None,
    }
}

fn vnodes<'a>(arguments: &[&'a [u8]]) -> Result<Line<'a>, Misspelling>
    ensures { IsReadBehind (codes "vnodes") (Index ∷ []) (lent arguments.now) result }
{
    let [count] = arguments else {
        return Err(Misspelling::WordCount);
    };
    Ok(Line::Vnodes(number_of(count)?))
}

fn put<'a>(arguments: &[&'a [u8]]) -> Result<Line<'a>, Misspelling>
    ensures { IsReadBehind (codes "put") (Index ∷ Name ∷ Name ∷ Seen ∷ []) (lent arguments.now) result }
{
    let [vnode, key, value, context] = arguments else {
        return Err(Misspelling::WordCount);
    };
    Ok(Line::Put {
        vnode: number_of(vnode)?,
        key: name_of(key)?,
        value: Some(name_of(value)?),
        context: context_of(context)?,
    })
}

fn del<'a>(arguments: &[&'a [u8]]) -> Result<Line<'a>, Misspelling>
    ensures { IsReadBehind (codes "del") (Index ∷ Name ∷ Seen ∷ []) (lent arguments.now) result }
{
    let [vnode, key, context] = arguments else {
        return Err(Misspelling::WordCount);
    };
    Ok(Line::Put {
        vnode: number_of(vnode)?,
        key: name_of(key)?,
        value: None,
        context: context_of(context)?,
    })
}

fn ask<'a>(question: Question, arguments: &[&'a [u8]]) -> Result<Line<'a>, Misspelling>
    ensures { IsReadBehind (question_word question) (Index ∷ Name ∷ Name ∷ []) (lent arguments.now) result }
{
    let [vnode, key, name] = arguments else {
        return Err(Misspelling::WordCount);
    };
    Ok(Line::Ask {
        question,
        vnode: number_of(vnode)?,
        key: name_of(key)?,
        name: name_of(name)?,
    })
}

fn part<'a>(arguments: &[&'a [u8]]) -> Result<Line<'a>, Misspelling>
    ensures { IsReadBehind (codes "part") (Index ∷ Name ∷ Name ∷ Name ∷ []) (lent arguments.now) result }
{
    let [vnode, key, summary, message] = arguments else {
        return Err(Misspelling::WordCount);
    };
    Ok(Line::Part {
        vnode: number_of(vnode)?,
        key: name_of(key)?,
        summary: name_of(summary)?,
        name: name_of(message)?,
    })
}

fn deliver<'a>(arguments: &[&'a [u8]]) -> Result<Line<'a>, Misspelling>
    ensures { IsReadBehind (codes "deliver") (Name ∷ Index ∷ []) (lent arguments.now) result }
{
    let [message, vnode] = arguments else {
        return Err(Misspelling::WordCount);
    };
    Ok(Line::Deliver {
        name: name_of(message)?,
        vnode: number_of(vnode)?,
    })
}

fn restart<'a>(arguments: &[&'a [u8]]) -> Result<Line<'a>, Misspelling>
    ensures { IsReadBehind (codes "restart") (Index ∷ []) (lent arguments.now) result }
{
    let [vnode] = arguments else {
        return Err(Misspelling::WordCount);
    };
    Ok(Line::Restart {
        vnode: number_of(vnode)?,
    })
}

fn dump<'a>(arguments: &[&'a [u8]]) -> Result<Line<'a>, Misspelling>
    ensures { IsReadBehind (codes "dump") (Index ∷ Name ∷ []) (lent arguments.now) result }
{
    let [vnode, copies] = arguments else {
        return Err(Misspelling::WordCount);
    };
    Ok(Line::Dump {
        vnode: number_of(vnode)?,
        name: name_of(copies)?,
    })
}

fn load<'a>(arguments: &[&'a [u8]]) -> Result<Line<'a>, Misspelling>
    ensures { IsReadBehind (codes "load") (Index ∷ Incarnation ∷ Name ∷ []) (lent arguments.now) result }
{
    let [vnode, incarnation, copies] = arguments else {
        return Err(Misspelling::WordCount);
    };
    Ok(Line::Load {
        vnode: number_of(vnode)?,
        incarnation: incarnation_of(incarnation)?,
        name: name_of(copies)?,
    })
}

fn resolve<'a>(arguments: &[&'a [u8]]) -> Result<Line<'a>, Misspelling>
    ensures { IsReadBehind (codes "resolve") (Name ∷ File ∷ []) (lent arguments.now) result }
{
    let [answer, file] = arguments else {
        return Err(Misspelling::WordCount);
    };
    Ok(Line::Resolve {
        name: name_of(answer)?,
        file: file_of(file)?,
    })
}

fn commit<'a>(arguments: &[&'a [u8]]) -> Result<Line<'a>, Misspelling>
    ensures { IsReadBehind (codes "commit") (Index ∷ Name ∷ []) (lent arguments.now) result }
{
    let [vnode, answer] = arguments else {
        return Err(Misspelling::WordCount);
    };
    Ok(Line::Commit {
        vnode: number_of(vnode)?,
        name: name_of(answer)?,
    })
}

fn check<'a>(arguments: &[&'a [u8]]) -> Result<Line<'a>, Misspelling>
    ensures { IsReadBehind (codes "check") (Index ∷ Name ∷ Name ∷ File ∷ []) (lent arguments.now) result }
{
    let [vnode, key, value, file] = arguments else {
        return Err(Misspelling::WordCount);
    };
    Ok(Line::Check {
        vnode: number_of(vnode)?,
        key: name_of(key)?,
        value: name_of(value)?,
        file: file_of(file)?,
    })
}

// An index or a count.
fn number_of(word: &[u8]) -> Result<usize, Misspelling>
    ensures { MatchResult result (λ n. (fault_at Index word.now ≡ None) × (word.now ≡ decimal n)) (λ why. fault_at Index word.now ≡ Some why) }
{
    match number(word) {
        Some(number) => Ok(number),
        None => Err(Misspelling::NoNumber),
    }
}

// An incarnation of a vnode.
fn incarnation_of(word: &[u8]) -> Result<u16, Misspelling>
    ensures { MatchResult result (λ n. (fault_at Incarnation word.now ≡ None) × (word.now ≡ decimal n)) (λ why. fault_at Incarnation word.now ≡ Some why) }
{
    match u16::try_from(number_of(word)?) {
        Ok(incarnation) => Ok(incarnation),
        Err(_) => Err(Misspelling::NoIncarnation),
    }
}

// A key, a value or a name.
fn name_of<'a>(word: &'a [u8]) -> Result<&'a [u8], Misspelling>
    ensures { MatchResult result (λ name. (fault_at Name word.now ≡ None) × (name.now ≡ word.now)) (λ why. fault_at Name word.now ≡ Some why) }
{
    if is_word(word) {
        Ok(word)
    } else {
        Err(Misspelling::NoWord)
    }
}

// The name of a file, which is text.
fn file_of<'a>(word: &'a [u8]) -> Result<&'a str, Misspelling>
    ensures { MatchResult result (λ file. (fault_at File word.now ≡ None) × (file.now ≡ word.now)) (λ why. fault_at File word.now ≡ Some why) }
{
    match str::from_utf8(word) {
        Ok(file) => Ok(file),
        Err(_) => Err(Misspelling::NoFileName),
    }
}

// The context that a word stands for.
fn context_of<'a>(word: &'a [u8]) -> Result<Context<'a>, Misspelling>
    ensures { MatchResult result (λ context. (context_fault word.now ≡ None) × (context_word context ≡ word.now)) (λ why. context_fault word.now ≡ Some why) }
{
    match word.split_first() {
        Some((b'-', [])) => Ok(Context::Nothing),
        Some((b'@', name)) => Ok(Context::OfGet(name_of(name)?)),
        Some((b'=', token)) => Ok(Context::Token(token)),
        _ => Err(Misspelling::NoContext),
    }
}
