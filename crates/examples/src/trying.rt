//! What each example comes to.

use crate::asking::ask;
use crate::both::Counts;
use crate::dialogue::try_dialogue;
use crate::folder::{Folder, read_ending};
use crate::rows::try_rows;
use crate::spellings::{Kind, try_spellings};
use crate::texts::words_in;
use crate::trials::try_trials;
use crate::turns::try_turns;
use commands::files::Files;
use commands::server::Offline;
use record_codec::WireFault;
use std::alloc::Global;
use std::io::Write;
use std::{fs, io, rt};

/// Tells of each example what it comes to.
pub fn try_all<R: rt::Files + AllocGlobal>(rt: &R, told: &mut Vec<u8>) -> io::Result<()> {
    let list = fs::read(rt, "examples.list")?;
    let mut counts = Counts::NONE;
    try_listed(rt, &list, &mut counts, told)?;
    // No row shows how want of memory for a record is told.
    writeln!(told, "want of memory {}", WireFault::NoMemory)?;
    let Counts { alike, apart } = counts;
    writeln!(told, "run as driven {alike}, otherwise {apart}")
}

/// Tells of the examples of a list, a line each. Empty lines and lines that begin with `#` are comments.
fn try_listed<R: rt::Files + AllocGlobal>(
    rt: &R,
    list: &[u8],
    counts: &mut Counts,
    told: &mut Vec<u8>,
) -> io::Result<()> {
    for line in list.split(|byte| *byte == b'\n') {
        if !matches!(line, [] | [b'#', ..]) {
            let words = words_in(rt.alloc(), line)?;
            try_example(rt, &words, counts, told)?;
        }
    }
    Ok(())
}

/// Tells of the example that the words of a line name.
fn try_example<R: rt::Files + AllocGlobal>(
    rt: &R,
    words: &[&str],
    counts: &mut Counts,
    told: &mut Vec<u8>,
) -> io::Result<()> {
    match words {
        [kind, name] => try_named(rt, kind, name, counts, told),
        [_, path, name, words @ ..] => try_script(rt, path, name, words, told),
        _ => Err(io::Error::from(io::ErrorKind::InvalidData)),
    }
}

/// Tells of the example of this kind and this name.
fn try_named<R: rt::Files + AllocGlobal>(
    rt: &R,
    kind: &str,
    name: &str,
    counts: &mut Counts,
    told: &mut Vec<u8>,
) -> io::Result<()> {
    match kind {
        "program" => try_program(rt, name, counts, told),
        "function" => try_function(rt, name, counts, told),
        "dialogue" => try_dialogue(rt, name, told),
        "trials" => try_trials(rt, name, told),
        "turns" => try_turns(rt, name, told),
        "verify" => try_rows(rt, &["verify", "file"], name, counts, told),
        "records" => try_spellings(rt, Kind::Record, name, told),
        "contexts" => try_spellings(rt, Kind::Context, name, told),
        "run" => try_rows(rt, &["run", "file", "new"], name, counts, told),
        _ => Err(io::Error::from(io::ErrorKind::InvalidData)),
    }
}

/// Tells whether a program is let in, and of how many slots it is.
fn try_program<R: rt::Files + AllocGlobal>(
    rt: &R,
    name: &str,
    counts: &mut Counts,
    told: &mut Vec<u8>,
) -> io::Result<()> {
    let alloc = rt.alloc();
    let mut data = Folder { rt, path: "" };
    counts.count(alloc, &mut data, name, "empty.bin")?;
    write!(told, "{name} ")?;
    let said = ask(alloc, &["verify", name], &mut data, &mut Offline)?;
    told.write_all(&said.streams.out)
}

/// Tells whether a function's image answers to its input what stands beside it.
fn try_function<R: rt::Files + AllocGlobal>(
    rt: &R,
    name: &str,
    counts: &mut Counts,
    told: &mut Vec<u8>,
) -> io::Result<()> {
    let comes_to = if is_answered(rt, name, counts)? {
        "answers as written"
    } else {
        "answers something else"
    };
    writeln!(told, "c/{name}.img {comes_to}")
}

/// Whether a function's image answers to its input what stands beside it. Counts that program.
fn is_answered<R: rt::Files + AllocGlobal>(
    rt: &R,
    name: &str,
    counts: &mut Counts,
) -> io::Result<bool> {
    let alloc = rt.alloc();
    let mut functions = Folder { rt, path: "c/" };
    let image = format!(in alloc; "{name}.img")?;
    let input = format!(in alloc; "{name}.input")?;
    counts.count(alloc, &mut functions, image.as_str(), input.as_str())?;
    let words = ["run", image.as_str(), input.as_str()];
    begins_as_written(alloc, &words, &mut functions, name)
}

/// Whether the output of what the words ask for begins with the answer of this name.
fn begins_as_written<F: Files>(
    alloc: Global,
    words: &[&str],
    files: &mut F,
    name: &str,
) -> io::Result<bool> {
    let answer = read_ending(alloc, &*files, name, "answer")?;
    let said = ask(alloc, words, files, &mut Offline)?;
    Ok(said.streams.out.starts_with(&answer))
}

/// Tells whether the words of a script print what stands beside it, and the status.
fn try_script<R: rt::Files + AllocGlobal>(
    rt: &R,
    path: &str,
    name: &str,
    words: &[&str],
    told: &mut Vec<u8>,
) -> io::Result<()> {
    let (is_same, status) = is_printed(rt, path, words, name)?;
    let comes_to = if is_same {
        "as written"
    } else {
        "something else"
    };
    writeln!(told, "{path}{name}.script {comes_to}, status {status}")
}

/// Whether the words of a script print what stands beside it, and the status.
fn is_printed<R: rt::Files + AllocGlobal>(
    rt: &R,
    path: &str,
    words: &[&str],
    name: &str,
) -> io::Result<(bool, u8)> {
    let mut folder = Folder { rt, path };
    let want = read_ending(rt.alloc(), &folder, name, "stdout")?;
    prints_so(rt.alloc(), words, &mut folder, &want)
}

/// Whether what the words ask for writes this to the output and nothing else, and the status.
fn prints_so<F: Files>(
    alloc: Global,
    words: &[&str],
    files: &mut F,
    want: &[u8],
) -> io::Result<(bool, u8)> {
    let said = ask(alloc, words, files, &mut Offline)?;
    Ok((
        said.streams.out.as_slice() == want && said.streams.err.is_empty(),
        said.status,
    ))
}
