//! The words of a line.

ghost use Rattle.std.specs.Prelude.{◌≡◌, ◌≢◌, ◌<◌, ◌≤◌, ◌^◌, ℕ, true, IfSome, IfNone, decimal};
ghost use Rattle.std.specs.List.{list_all};
ghost use Rattle.std.specs.Char.{digit_value, is_ascii_alphanumeric, is_ascii_digit};
ghost use Rattle.script_lines.specs.Lines.{is_decimal, is_number, is_word};

/// The most bytes of a key, a value or a name.
pub const MAX_WORD_BYTES: usize = 64;

/// The number that a decimal without sign and leading zeros spells; none for other words, and past `usize::MAX`.
pub fn number(word: &[u8]) -> Option<usize>
    ensures some { IfSome result (λ n. word.now ≡ decimal n) }
    ensures none { IfNone result ((n : ℕ) → n < 2 ^ 64 → word.now ≢ decimal n) }
{
    if !is_decimal(word) {
        return None;
    }
    let mut value: usize = 0;
    for byte in word {
        let Some(tens) = value.checked_mul(10) else {
            return None;
        };
        let Some(sum) = tens.checked_add(worth(*byte)) else {
            return None;
        };
        value = sum;
    }
    Some(value)
}

// Whether a word is a decimal without sign and leading zeros.
fn is_decimal(word: &[u8]) -> bool
    ensures { result ≡ is_decimal word.now }
{
    is_number(word) && (word.len() == 1 || word[0] != b'0')
}

// Whether there are one or more digits.
fn is_number(word: &[u8]) -> bool
    ensures { result ≡ is_number word.now }
{
    word.len() > 0 && are_digits(word)
}

// Whether there are only digits.
fn are_digits(word: &[u8]) -> bool
    ensures { result ≡ list_all is_ascii_digit word.now }
{
    word.iter().all(|byte| byte.is_ascii_digit())
}

// What a digit is worth.
fn worth(digit: u8) -> usize
    ensures worth { is_ascii_digit digit ≡ true → result ≡ digit_value digit }
    ensures small { result ≤ 15 }
{
    (digit.wrapping_sub(b'0') & 15) as usize
}

/// Whether a word is a key, a value or a name: 1 to 64 letters and digits.
pub fn is_word(word: &[u8]) -> bool
    ensures { result ≡ is_word word.now }
{
    if word.is_empty() || word.len() > MAX_WORD_BYTES {
        return false;
    }
    are_letters_or_digits(word)
}

// Whether there are only letters and digits.
fn are_letters_or_digits(word: &[u8]) -> bool
    ensures { result ≡ list_all is_ascii_alphanumeric word.now }
{
    word.iter().all(|byte| byte.is_ascii_alphanumeric())
}
