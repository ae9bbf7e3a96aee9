//! Explanations as text.

ghost use Rattle.std.specs.Prelude.{◌≡◌, ◌++◌, IfOk, OnOk, flat_map, string_bytes};
ghost use Rattle.bpf_explain.specs.Texts.{numbers_text, offsets_text, region_text, window_text, word_text, kind_text, place_text, fact_text, most_text, together_text, answer_text, broken_text, explanation_text};

use crate::answer::Answer;
use crate::explanation::Explanation;
use crate::fact::{Fact, Place};
use crate::instruction::print_insn;
use crate::rules::rule_words;
use crate::together::{Most, Together};
use bpf_admission::Refusal;
use bpf_insn::Insn;
use bpf_ranges::{Kind, Word};
use bpf_semantics::Region;
use bpf_verifier::Refused;
use std::alloc::{AllocError, Global};

/// Adds one number, or the least and the greatest.
fn print_numbers(lo: u64, hi: u64, text: &mut String) -> Result<(), AllocError>
    ensures { OnOk result (string_bytes text.new ≡ string_bytes text.old ++ numbers_text lo hi) }
{
    if lo == hi {
        write!(text, "{lo}")
    } else {
        write!(text, "{lo} to {hi}")
    }
}

/// Adds one offset, or the least and the greatest.
fn print_offsets(lo: i64, hi: i64, text: &mut String) -> Result<(), AllocError>
    ensures { OnOk result (string_bytes text.new ≡ string_bytes text.old ++ offsets_text lo hi) }
{
    if lo < hi {
        write!(text, "{lo} to {hi}")
    } else {
        write!(text, "{lo}")
    }
}

/// The name of a region.
fn region_text(region: Region) -> &'static str
    ensures { result.now ≡ region_text region }
{
    match region {
        Region::Stack => "stack",
        Region::Input => "input",
        Region::Output => "output",
    }
}

/// Adds into which window a pointer points.
fn print_window(region: Region, text: &mut String) -> Result<(), AllocError>
    ensures { OnOk result (string_bytes text.new ≡ string_bytes text.old ++ window_text region) }
{
    let name = region_text(region);
    write!(text, "pointer to {name} at ")
}

/// Adds what is known of a half of a cell.
fn print_word(word: Option<Word>, text: &mut String) -> Result<(), AllocError>
    ensures { OnOk result (string_bytes text.new ≡ string_bytes text.old ++ word_text word) }
{
    match word {
        Some(word) => {
            text.push_str("number ")?;
            print_numbers(u64::from(word.lo), u64::from(word.hi), text)
        }
        None => text.push_str("nothing known"),
    }
}

/// Adds what is known of a place.
fn print_kind(kind: Kind, text: &mut String) -> Result<(), AllocError>
    ensures { OnOk result (string_bytes text.new ≡ string_bytes text.old ++ kind_text kind) }
{
    match kind {
        Kind::Unset => text.push_str("nothing known"),
        Kind::Dead => text.push_str("no value"),
        Kind::Num(a) => {
            text.push_str("number ")?;
            print_numbers(a.range.lo, a.range.hi, text)
        }
        Kind::Ptr { region, lo, hi } => {
            print_window(region, text)?;
            print_offsets(lo, hi, text)
        }
        Kind::Halves { low, high } => {
            text.push_str("low half ")?;
            print_word(low, text)?;
            text.push_str(", high half ")?;
            print_word(high, text)
        }
    }
}

/// Adds a place.
fn print_place(place: Place, text: &mut String) -> Result<(), AllocError>
    ensures { OnOk result (string_bytes text.new ≡ string_bytes text.old ++ place_text place) }
{
    match place {
        Place::Register(number) => write!(text, "r{number}"),
        Place::Cell(cell) => {
            let offset = 8 * i64::from(cell) - 512;
            write!(text, "stack at {offset}")
        }
    }
}

/// Adds the line of what is known of a place.
fn print_fact(fact: &Fact, text: &mut String) -> Result<(), AllocError>
    ensures { OnOk result (string_bytes text.new ≡ string_bytes text.old ++ fact_text fact.now) }
{
    print_place(fact.place, text)?;
    text.push_str(": ")?;
    print_kind(fact.kind, text)?;
    text.push_str("\n")
}

/// Adds the lines of what is known of places.
fn print_facts(facts: &[Fact], text: &mut String) -> Result<(), AllocError>
    ensures { OnOk result (string_bytes text.new ≡ string_bytes text.old ++ flat_map fact_text facts.now) }
{
    for fact in facts {
        print_fact(fact, text)?;
    }
    Ok(())
}

/// Adds how much two registers are together at most.
fn print_most(most: Most, text: &mut String) -> Result<(), AllocError>
    ensures { OnOk result (string_bytes text.new ≡ string_bytes text.old ++ most_text most) }
{
    match most {
        Most::Number(number) => write!(text, "{number}"),
        Most::Address { region, offset } => {
            let name = region_text(region);
            write!(text, "{name} at {offset}")
        }
    }
}

/// Adds the line of two registers of which the greatest sum is known.
fn print_together(two: &Together, text: &mut String) -> Result<(), AllocError>
    ensures { OnOk result (string_bytes text.new ≡ string_bytes text.old ++ together_text two.now) }
{
    let (left, right) = (two.left.number(), two.right.number());
    write!(text, "r{left} + r{right}: at most ")?;
    print_most(two.most, text)?;
    text.push_str("\n")
}

/// Adds the lines of such registers.
fn print_all_together(together: &[Together], text: &mut String) -> Result<(), AllocError>
    ensures { OnOk result (string_bytes text.new ≡ string_bytes text.old ++ flat_map together_text together.now) }
{
    for two in together {
        print_together(two, text)?;
    }
    Ok(())
}

/// Adds the lines of what is known of an answer.
fn print_answer(answer: &Answer, text: &mut String) -> Result<(), AllocError>
    ensures { OnOk result (string_bytes text.new ≡ string_bytes text.old ++ answer_text answer.now) }
{
    let slot = answer.slot;
    write!(text, "slot {slot}: exit\nr0: ")?;
    print_kind(answer.kind, text)?;
    text.push_str("\n")
}

/// Adds the lines of what is known of answers.
fn print_answers(answers: &[Answer], text: &mut String) -> Result<(), AllocError>
    ensures { OnOk result (string_bytes text.new ≡ string_bytes text.old ++ flat_map answer_text answers.now) }
{
    for answer in answers {
        print_answer(answer, text)?;
    }
    Ok(())
}

/// Adds the lines of a rule that is broken, and by which instruction.
fn print_broken(refused: Refused, insn: Insn, text: &mut String) -> Result<(), AllocError>
    ensures { OnOk result (string_bytes text.new ≡ string_bytes text.old ++ broken_text refused insn) }
{
    let refusal = Refusal::Rule(refused);
    let slot = refused.slot;
    write!(text, "refused {refusal}\nslot {slot}: ")?;
    print_insn(slot, insn, text)?;
    let words = rule_words(refused.rule);
    write!(text, "\nrule: {words}\n")
}

/// The lines of an explanation. Fails for want of memory alone.
pub fn text_of(alloc: Global, explanation: &Explanation) -> Result<String, AllocError>
    ensures { IfOk result (λ text. string_bytes text ≡ explanation_text explanation.now) }
{
    let mut text = String::new(alloc);
    match explanation {
        Explanation::Accepted { slots, answers } => {
            writeln!(text, "accepted {slots}")?;
            print_answers(answers, &mut text)?;
        }
        Explanation::Broken {
            refused,
            insn,
            facts,
            together,
        } => {
            print_broken(*refused, *insn, &mut text)?;
            print_facts(facts, &mut text)?;
            print_all_together(together, &mut text)?;
        }
    }
    Ok(text)
}
