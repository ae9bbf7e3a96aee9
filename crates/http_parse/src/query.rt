//! What the query of a target asks for.
ghost use Rattle.std.specs.Prelude.{◌≡◌, ◌≤◌, ◌<◌, ◌==◌, ◌&&◌, ◌||◌, ℕ, bytes_eq, codes, ◌∷◌, List, length, map, option_map, Option, Some, None, IfOk, IfSome, IfNone, OnOk};
ghost use Rattle.std.specs.Option.{option_copied};
ghost use Rattle.std.specs.Cow.{cow_str_bytes};
ghost use Rattle.std.specs.Str.Parse.{digits_value};
ghost use Rattle.http_request.specs.Target as spec;
ghost use Rattle.http_parse.specs.Numbers as numbers;
ghost use Rattle.http_parse.specs.Firsts.{or_else};
ghost use Rattle.http_parse.specs.Words.{AreFurther, AreWords, FurtherLeadsTo, WordsLeadTo};
ghost use Rattle.http_parse.specs.Views.{quorums, FitsAsked};

use crate::number::{is_plain_number, plain_number};
use http_request::MAX_COPIES;
use std::alloc::{AllocError, Global};
use std::borrow::CowStr;

/// The words of a query: the value of the first pair of each name that the store reads, as text.
#[derive(Drop)]
pub(crate) struct Words<'q> {
    pub(crate) r: Option<CowStr<'q, Global>>,
    pub(crate) w: Option<CowStr<'q, Global>>,
    pub(crate) at: Option<CowStr<'q, Global>>,
    pub(crate) vtag: Option<CowStr<'q, Global>>,
    pub(crate) further: Further<'q>,
}

/// The words of a query that ask for more than `r` and `w` do, or for what is so here anyway.
#[derive(Drop)]
pub(crate) struct Further<'q> {
    pub(crate) pr: Option<CowStr<'q, Global>>,
    pub(crate) pw: Option<CowStr<'q, Global>>,
    pub(crate) rw: Option<CowStr<'q, Global>>,
    pub(crate) dw: Option<CowStr<'q, Global>>,
    pub(crate) n_val: Option<CowStr<'q, Global>>,
    pub(crate) timeout: Option<CowStr<'q, Global>>,
    pub(crate) sloppy_quorum: Option<CowStr<'q, Global>>,
    pub(crate) basic_quorum: Option<CowStr<'q, Global>>,
    pub(crate) notfound_ok: Option<CowStr<'q, Global>>,
}

// None of them.
fn no_further<'q>() -> Further<'q>
    ensures { (pairs : List (List ℕ × List ℕ)) → FurtherLeadsTo result pairs pairs }
{
    Further {
        pr: None,
        pw: None,
        rw: None,
        dw: None,
        n_val: None,
        timeout: None,
        sloppy_quorum: None,
        basic_quorum: None,
        notfound_ok: None,
    }
}

/// The words of a query.
pub(crate) fn words_of(alloc: Global, query: &[u8]) -> Result<Words<'_>, AllocError>
    ensures { IfOk result (λ words. AreWords words (spec.texts_of query.now)) }
{
    let mut words = Words {
        r: None,
        w: None,
        at: None,
        vtag: None,
        further: no_further(),
    };
    add_words(alloc, query, &mut words)?;
    Ok(words)
}

// Adds the words of a query to none, found in one pass over its pairs.
fn add_words<'q>(alloc: Global, query: &'q [u8], words: &mut Words<'q>) -> Result<(), AllocError>
    requires { WordsLeadTo words.old (spec.texts_of query.now) (spec.texts_of query.now) }
    ensures { OnOk result (AreWords words.new (spec.texts_of query.now)) }
{
    for pair in form_urlencoded::parse(alloc, query) {
        let (name, value) = pair?;
        add_pair(words, name.as_str(), value);
    }
    Ok(())
}

// Adds the word of one pair more.
fn add_pair<'q>(words: &mut Words<'q>, name: &str, value: CowStr<'q, Global>)
    ensures { (rest pairs : List (List ℕ × List ℕ)) → WordsLeadTo words.old ((name.now, cow_str_bytes value.entry) ∷ rest) pairs → WordsLeadTo words.new rest pairs }
{
    match name {
        "r" => keep_first(&mut words.r, value),
        "w" => keep_first(&mut words.w, value),
        "at" => keep_first(&mut words.at, value),
        "vtag" => keep_first(&mut words.vtag, value),
        _ => add_further(&mut words.further, name, value),
    }
}

// Adds the further word of one pair more.
fn add_further<'q>(further: &mut Further<'q>, name: &str, value: CowStr<'q, Global>)
    ensures { (rest pairs : List (List ℕ × List ℕ)) → FurtherLeadsTo further.old ((name.now, cow_str_bytes value.entry) ∷ rest) pairs → FurtherLeadsTo further.new rest pairs }
{
    match name {
        "pr" => keep_first(&mut further.pr, value),
        "pw" => keep_first(&mut further.pw, value),
        "rw" => keep_first(&mut further.rw, value),
        "dw" => keep_first(&mut further.dw, value),
        "n_val" => keep_first(&mut further.n_val, value),
        "timeout" => keep_first(&mut further.timeout, value),
        "sloppy_quorum" => keep_first(&mut further.sloppy_quorum, value),
        "basic_quorum" => keep_first(&mut further.basic_quorum, value),
        "notfound_ok" => keep_first(&mut further.notfound_ok, value),
        _ => {}
    }
}

// Keeps the value, if there was none.
fn keep_first<'q>(word: &mut Option<CowStr<'q, Global>>, value: CowStr<'q, Global>)
    ensures { option_map cow_str_bytes word.new ≡ or_else (option_map cow_str_bytes word.old) (Some (cow_str_bytes value.entry)) }
{
    if word.is_none() {
        *word = Some(value);
    }
}

/// The text of a word.
pub(crate) fn text_of<'a>(word: &'a Option<CowStr<'_, Global>>) -> Option<&'a str>
    ensures { option_copied result ≡ option_map cow_str_bytes word.now }
{
    match word {
        Some(word) => Some(word.as_str()),
        None => None,
    }
}

/// How many copies a query asks for, and which of them coordinates.
#[derive(Clone, Copy)]
pub(crate) struct Asked {
    pub(crate) read: u32,
    pub(crate) write: u32,
    pub(crate) at: u32,
}

/// The copies that the words of a query ask for, of so many; none where one is none that it may be.
pub(crate) fn quorums_of(words: &Words<'_>, copies: u32) -> Option<Asked>
    requires some { 1 ≤ copies }
    requires few { copies ≤ 3 }
    ensures quorums { (pairs : List (List ℕ × List ℕ)) → AreWords words.now pairs → option_map quorums result ≡ spec.quorums_of copies pairs }
    ensures fits { IfSome result (FitsAsked copies) }
{
    if !all_pass(&words.further, copies) {
        return None;
    }
    let read = reads_of(words, copies);
    let write = writes_of(words, copies);
    let at = place_of(text_of(&words.at), copies);
    match (read, write, at) {
        (Some(read), Some(write), Some(at)) => Some(Asked { read, write, at }),
        _ => None,
    }
}

// Whether the words that ask for what is so here anyway do.
fn all_pass(further: &Further<'_>, copies: u32) -> bool
    requires { copies ≤ 3 }
    ensures { (pairs : List (List ℕ × List ℕ)) → AreFurther further.now pairs → result ≡ spec.all_pass copies pairs }
{
    is_no_copy(text_of(&further.dw))
        && is_count(text_of(&further.n_val), copies)
        && is_time(text_of(&further.timeout))
        && is_choice(text_of(&further.sloppy_quorum))
        && is_word(text_of(&further.basic_quorum), "false")
        && is_word(text_of(&further.notfound_ok), "true")
}

// Whether a word, where it stands, asks for no copy.
fn is_no_copy(word: Option<&str>) -> bool
    ensures { result ≡ spec.passes (λ t. bytes_eq t (codes "0") || bytes_eq t (codes "default")) (option_copied word.entry) }
{
    match word {
        None => true,
        Some(word) => word == "0" || word == "default",
    }
}

// Whether a word, where it stands, is this number.
fn is_count(word: Option<&str>, copies: u32) -> bool
    requires { copies ≤ 3 }
    ensures { result ≡ spec.passes (λ t. spec.is_plain_number t && (digits_value 10 t == copies)) (option_copied word.entry) }
{
    match word {
        None => true,
        Some(number) => plain_number(number.as_bytes()) == Some(copies),
    }
}

// Whether a word, where it stands, is a number, of any greatness.
fn is_time(word: Option<&str>) -> bool
    ensures { result ≡ spec.passes spec.is_plain_number (option_copied word.entry) }
{
    match word {
        None => true,
        Some(number) => is_plain_number(number.as_bytes()),
    }
}

// Whether a word, where it stands, is `true` or `false`.
fn is_choice(word: Option<&str>) -> bool
    ensures { result ≡ spec.passes (λ t. bytes_eq t (codes "true") || bytes_eq t (codes "false")) (option_copied word.entry) }
{
    match word {
        None => true,
        Some(word) => word == "true" || word == "false",
    }
}

// Whether a word, where it stands, is this one.
fn is_word(word: Option<&str>, wanted: &str) -> bool
    ensures { result ≡ spec.passes (bytes_eq wanted.now) (option_copied word.entry) }
{
    match word {
        None => true,
        Some(word) => word == wanted,
    }
}

// So many copies have to answer a read.
fn reads_of(words: &Words<'_>, copies: u32) -> Option<u32>
    requires some { 1 ≤ copies }
    requires few { copies ≤ 3 }
    ensures reads { (pairs : List (List ℕ × List ℕ)) → AreWords words.now pairs → result ≡ spec.reads_of copies pairs }
    ensures fits { IfSome result (λ n. (1 ≤ n) × (n ≤ copies)) }
{
    let alone = copies_of(text_of(&words.r), copies);
    greater(alone, further_of(text_of(&words.further.pr), copies))
}

// So many copies have to be stored by a write.
fn writes_of(words: &Words<'_>, copies: u32) -> Option<u32>
    requires some { 1 ≤ copies }
    requires few { copies ≤ 3 }
    ensures writes { (pairs : List (List ℕ × List ℕ)) → AreWords words.now pairs → result ≡ spec.writes_of copies pairs }
    ensures fits { IfSome result (λ n. (1 ≤ n) × (n ≤ copies)) }
{
    let alone = copies_of(text_of(&words.w), copies);
    let first = further_of(text_of(&words.further.pw), copies);
    let second = further_of(text_of(&words.further.rw), copies);
    greater(alone, greater(first, second))
}

// The greater of two numbers, where both are some.
fn greater(a: Option<u32>, b: Option<u32>) -> Option<u32>
    ensures { result ≡ spec.greater a b }
{
    match (a, b) {
        (Some(a), Some(b)) => Some(a.max(b)),
        _ => None,
    }
}

// So many of the copies, by a word of a query that asks for more than another: none, where it is 0.
fn further_of(word: Option<&str>, copies: u32) -> Option<u32>
    requires some { 1 ≤ copies }
    requires few { copies ≤ 3 }
    ensures copies { result ≡ spec.further_of copies (option_copied word.entry) }
    ensures fits { IfSome result (λ n. n ≤ copies) }
{
    if is_no_copy(word) {
        Some(0)
    } else {
        copies_of(word, copies)
    }
}

// So many of the copies, by the word of a query.
fn copies_of(word: Option<&str>, copies: u32) -> Option<u32>
    requires some { 1 ≤ copies }
    requires few { copies ≤ 3 }
    ensures copies { result ≡ spec.copies_of copies (option_copied word.entry) }
    ensures fits { IfSome result (λ n. (1 ≤ n) × (n ≤ copies)) }
{
    let quorum = copies / 2 + 1;
    let Some(word) = word else {
        return Some(quorum);
    };
    match word {
        "quorum" | "default" => Some(quorum),
        "one" => Some(1),
        "all" => Some(copies),
        number => counted(plain_number(number.as_bytes()), copies),
    }
}

// The coordinator's index, by the word of a query.
fn place_of(word: Option<&str>, copies: u32) -> Option<u32>
    requires some { 1 ≤ copies }
    requires few { copies ≤ 3 }
    ensures place { result ≡ spec.place_of copies (option_copied word.entry) }
    ensures fits { IfSome result (λ n. n < copies) }
{
    match word {
        None => Some(0),
        Some(number) => placed(plain_number(number.as_bytes()), copies),
    }
}

// A number of copies, if a store may have as many. One above those that there are counts as all.
fn counted(number: Option<u32>, copies: u32) -> Option<u32>
    requires some { 1 ≤ copies }
    ensures counted { result ≡ numbers.counted copies number }
    ensures fits { IfSome result (λ n. (1 ≤ n) × (n ≤ copies)) }
{
    match number {
        Some(n) if 1 <= n && n <= MAX_COPIES => Some(n.min(copies)),
        _ => None,
    }
}

// An index of a preference list, if that of a store may have as many vnodes. One past the last counts as that.
fn placed(number: Option<u32>, copies: u32) -> Option<u32>
    requires some { 1 ≤ copies }
    ensures placed { result ≡ numbers.placed copies number }
    ensures fits { IfSome result (λ n. n < copies) }
{
    match number {
        Some(n) if n < MAX_COPIES => Some(n.min(copies - 1)),
        _ => None,
    }
}
