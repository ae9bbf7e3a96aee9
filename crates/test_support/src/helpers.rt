//! Helpers for tables of tests: the rules of their arguments, and what they answer. The answers are plain functions, which a test
//! boxes by itself: no library hands out what it boxed.

ghost use Rattle.std.specs.Prelude.{◌≡◌, ◌≤◌, length, max};
ghost use Rattle.bpf_helpers.specs.Answers.{IsCallableOn, AnswersOn};
ghost use Rattle.bpf_helpers.specs.Layout.{newest_of};
ghost use Rattle.bpf_helpers.specs.Text.{order_of, place_of, spelled};

use bpf_helpers::{ArgRule, Body, Helper, Sig, decimal, find, newest, order};

/// Any number.
pub const ANY: ArgRule = ArgRule::Num {
    lo: 0,
    hi: u64::MAX,
};

/// No argument.
pub const UNUSED: ArgRule = ArgRule::Unused;

/// The rules of a helper that takes one number.
pub const ONE_NUMBER: [ArgRule; 5] = [ANY, UNUSED, UNUSED, UNUSED, UNUSED];

/// What helper 16 answers: the order of two texts.
pub fn order_told(_numbers: [u64; 5], first: &[u8], second: &[u8]) -> u64
    ensures value { result ≡ order_of first.now second.now }
    ensures range { result ≤ 2 }
{
    order(first, second)
}

/// What helper 17 answers: the place of a text in another.
pub fn place_told(_numbers: [u64; 5], first: &[u8], second: &[u8]) -> u64
    ensures value { result ≡ place_of first.now second.now }
    ensures range { result ≤ max 1 (length first.now) }
{
    find(first, second)
}

/// What helper 18 answers: the number that a text spells.
pub fn decimal_told(_numbers: [u64; 5], first: &[u8], _second: &[u8]) -> u64
    ensures { result ≡ spelled first.now }
{
    decimal(first)
}

/// What helper 19 answers: the newest sibling of a layout.
pub fn newest_told(_numbers: [u64; 5], first: &[u8], _second: &[u8]) -> u64
    ensures value { result ≡ newest_of first.now }
    ensures range { result ≤ 64 }
{
    newest(first)
}

/// The helper of a number that answers an octal digit, 0 to 7, as its closure does. None where no Sig has these rules.
pub fn octal(number: u32, args: [ArgRule; 5], body: Body) -> Option<Helper>
    requires callable { IsCallableOn args (Body.pre body) }
    requires answers { AnswersOn number args 0 7 (Body.post body) }
{
    let sig = Sig::new(args, (0, 7))?;
    Some(Helper::new(number, sig, body))
}

/// The remainder of a number by 8.
pub fn modulo_8(numbers: [u64; 5], _first: &[u8], _second: &[u8]) -> u64
    ensures { result ≤ 7 }
{
    numbers[0] % 8
}

/// The remainder of a number by 9.
pub fn modulo_9(numbers: [u64; 5], _first: &[u8], _second: &[u8]) -> u64
    ensures { result ≤ 8 }
{
    numbers[0] % 9
}

/// 0.
pub fn zero(_numbers: [u64; 5], _first: &[u8], _second: &[u8]) -> u64
    ensures { result ≡ 0 }
{
    0
}

/// 1.
pub fn one(_numbers: [u64; 5], _first: &[u8], _second: &[u8]) -> u64
    ensures { result ≡ 1 }
{
    1
}

/// 2.
pub fn two(_numbers: [u64; 5], _first: &[u8], _second: &[u8]) -> u64
    ensures { result ≡ 2 }
{
    2
}

/// 256, by which a resolver takes the first sibling.
pub fn first_sibling(_numbers: [u64; 5], _first: &[u8], _second: &[u8]) -> u64
    ensures { result ≡ 256 }
{
    256
}
