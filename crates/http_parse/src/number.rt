//! Numbers in decimal.

ghost use Rattle.std.specs.Prelude.{◌≡◌, ◌≤◌, ◌<◌, ℕ, length, IsTrue, true, false, Option, Some, None, ◌&&◌, if◌then◌else◌, nat_le, IfSome, IfNone};
ghost use Rattle.std.specs.Str.Parse.{digits_value};
ghost use Rattle.std.specs.List.{list_all};
ghost use Rattle.std.specs.Char.{is_ascii_digit, digit_value};
ghost use Rattle.http_request.specs.Limits.{longest_body};
ghost use Rattle.http_request.specs.Fields as fields;
ghost use Rattle.http_request.specs.Target as target;
ghost use Rattle.http_parse.specs.Numbers as spec;

use http_request::MAX_BODY_BYTES;

/// Whether the bytes are one or more digits.
pub(crate) fn is_number(text: &[u8]) -> bool
    ensures { result ≡ fields.is_number text.now }
{
    text.len() > 0 && are_digits(text)
}

fn are_digits(text: &[u8]) -> bool
    ensures { result ≡ list_all is_ascii_digit text.now }
{
    text.iter().all(|b| b.is_ascii_digit())
}

/// The number that digits spell, if it is at most [`MAX_BODY_BYTES`].
pub(crate) fn small_number(digits: &[u8]) -> Option<usize>
    requires { fields.is_number digits.now ≡ true }
    ensures small { IfSome result (λ n. (n ≡ digits_value 10 digits.now) × (n ≤ longest_body)) }
    ensures large { IfNone result (longest_body < digits_value 10 digits.now) }
{
    let mut n = 0usize;
    for digit in digits {
        n = n * 10 + worth(*digit);
        if n > MAX_BODY_BYTES {
            return None;
        }
    }
    Some(n)
}

// What a digit is worth.
fn worth(digit: u8) -> usize
    ensures worth { is_ascii_digit digit ≡ true → result ≡ digit_value digit }
    ensures small { result ≤ 15 }
{
    (digit.wrapping_sub(b'0') & 15) as usize
}

/// Whether the text is a number without zeros in front.
pub(crate) fn is_plain_number(text: &[u8]) -> bool
    ensures { result ≡ target.is_plain_number text.now }
{
    is_number(text) && (text.len() == 1 || text[0] != b'0')
}

/// The number that a text without zeros in front spells, if it is at most [`MAX_BODY_BYTES`].
pub(crate) fn plain_number(text: &[u8]) -> Option<u32>
    ensures { result ≡ spec.plain_number text.now }
{
    if !is_plain_number(text) {
        return None;
    }
    match small_number(text) {
        Some(n) => Some(n as u32),
        None => None,
    }
}
