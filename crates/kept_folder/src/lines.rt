//! Lines of a word and a number.

ghost use Rattle.std.specs.Prelude.{◌≡◌, ◌<◌, ◌≤◌, IfOk, IfSome, length, string_bytes};
ghost use Rattle.kept_folder.specs.Numbers.{line_of};

use std::alloc::{AllocError, Global};

/// A line of a word and a number.
pub(crate) fn line_of(alloc: Global, word: &str, number: u32) -> Result<String, AllocError>
    ensures { IfOk result (λ line. string_bytes line ≡ line_of word.now number) }
{
    let line = format!(in alloc; "{word}{number}\n")?;
    Ok(line)
}

/// The number in a line of a word and a decimal without sign or leading zeros, if that is what bytes are.
pub(crate) fn number_in(alloc: Global, word: &str, bytes: &[u8]) -> Result<Option<u32>, AllocError>
    ensures { IfOk result (λ found. IfSome found (λ number. bytes.now ≡ line_of word.now number)) }
{
    let Some(number) = decimal_in(word, bytes) else {
        return Ok(None);
    };
    if line_of(alloc, word, number)?.as_bytes() == bytes {
        Ok(Some(number))
    } else {
        Ok(None)
    }
}

/// The decimal between a word and the end of the line.
fn decimal_in(word: &str, bytes: &[u8]) -> Option<u32> {
    let digits = bytes.strip_prefix(word.as_bytes())?.strip_suffix(b"\n")?;
    std::str::from_utf8(digits).ok()?.parse().ok()
}

/// Where the first line of bytes ends; the end where no line does.
pub(crate) fn line_end(bytes: &[u8]) -> usize
    ensures inside { result ≤ length bytes.now }
    ensures some { 0 < length bytes.now → 0 < result }
{
    for (place, byte) in bytes.iter().enumerate() {
        if *byte == b'\n' {
            return place + 1;
        }
    }
    bytes.len()
}
