//! The rules in words.

ghost use Rattle.std.specs.Prelude.{◌≡◌};
ghost use Rattle.bpf_explain.specs.Words.{form_words, kind_words, rule_words};

use bpf_verifier::{FormRule, KindRule, Rule};

/// What a rule of form asks.
fn form_words(rule: FormRule) -> &'static str
    ensures { result.now ≡ form_words rule }
{
    match rule {
        FormRule::TargetOutside => {
            "a jump leaves the code: the image isn't what the compiler made"
        }
        FormRule::TargetTail => {
            "a jump leads into the middle of a wide constant: the image isn't what the compiler made"
        }
        FormRule::TargetBack => "a jump goes back, as that of a loop does: unroll the loop",
        FormRule::RunsPast => "the code runs past its end: let every path return",
        FormRule::Unreachable => "no path leads here, or only a jump back: unroll the loop",
    }
}

/// What a rule over kinds asks.
fn kind_words(rule: KindRule) -> &'static str
    ensures { result.now ≡ kind_words rule }
{
    match rule {
        KindRule::UnsetRead => {
            "a register is read that isn't set on every path, or a number on one path and a pointer on another: set each variable where it is declared"
        }
        KindRule::FrameWritten => {
            "the stack's pointer is written: the image isn't what the compiler made"
        }
        KindRule::PointerOperand => {
            "arithmetic on a pointer that would not leave one: keep a number, and add it to the pointer where it is used"
        }
        KindRule::FarOffset => {
            "how far this pointer may go has no bound: test the number that is added, against a constant, before it is added"
        }
        KindRule::OutsideWindow => {
            "a read or write that may leave its window: test the offset against the window's length before it, or make the window longer"
        }
        KindRule::InputStored => "a write to the input: write to output, or to a local array",
        KindRule::PointerStored => {
            "a pointer is stored elsewhere than in a whole word of the stack: keep the number, and make the pointer anew where it is used"
        }
        KindRule::UnknownHelper => "a helper that isn't there: see dvvstore.h",
        KindRule::ArgumentRule => {
            "an argument of a helper that may not fit: test its length, and its offset, before the call"
        }
        KindRule::PointerAnswer => "the answer is a pointer: return a verdict",
        KindRule::StackRead => {
            "stack is read of which nothing is known, as a part of a pointer: set the variable first, and don't copy pointers in structs"
        }
    }
}

/// What a rule asks, and what to write instead.
pub(crate) fn rule_words(rule: Rule) -> &'static str
    ensures { result.now ≡ rule_words rule }
{
    match rule {
        Rule::Form(rule) => form_words(rule),
        Rule::Kinds(rule) => kind_words(rule),
        Rule::NoMemory => "memory ran out",
    }
}
