//! What events replied, as text.

ghost use Rattle.std.specs.Prelude.{◌≡◌, ◌++◌, OnOk, string_bytes};
ghost use Rattle.script_replies.specs.Texts.{reply_text, part_text, resolution_text};

use crate::decision::print_write;
use crate::number::{bad_answer_number, refusal_number};
use crate::state::{print_dot, print_state};
use key_state::{Content, Part};
use std::alloc::{AllocError, Global};
use world::{Reply, Resolution};

/// Adds the line of a reply. Fails for want of memory alone: the text then ends with a front of the line, or as before.
pub fn print_reply(alloc: Global, reply: &Reply, text: &mut String) -> Result<(), AllocError>
    ensures { OnOk result (string_bytes text.new ≡ string_bytes text.old ++ reply_text reply.now) }
{
    match reply {
        Reply::Stored(dot) => {
            print_dot(dot, text)?;
            text.push_str("\n")
        }
        Reply::Found(state) => print_state(alloc, state, text),
        Reply::Summarized(_) => text.push_str("ok\n"),
        Reply::Sent(_) => text.push_str("ok\n"),
        Reply::SentPart(message) => print_part(&message.part, text),
        Reply::Changed(true) => text.push_str("changed\n"),
        Reply::Changed(false) => text.push_str("same\n"),
        Reply::Missing => text.push_str("M2\n"),
        Reply::Restarted => text.push_str("ok\n"),
        Reply::Dumped(copies) => {
            let count = copies.held.len();
            writeln!(text, "dumped {count}")
        }
        Reply::Loaded(count) => writeln!(text, "loaded {count}"),
        Reply::Resolved(resolution) => print_resolution(alloc, resolution, text),
        Reply::Nothing => text.push_str("nothing\n"),
        Reply::Refused(refusal) => {
            let number = refusal_number(*refusal);
            writeln!(text, "{number}")
        }
    }
}

// Adds the line of a part: how many contents it has, of how many siblings.
fn print_part(part: &Part, text: &mut String) -> Result<(), AllocError>
    ensures { OnOk result (string_bytes text.new ≡ string_bytes text.old ++ part_text part.now) }
{
    let contents = part.contents();
    let siblings = part.siblings().len();
    writeln!(text, "sent {contents} of {siblings}")
}

// Adds the line of what a resolver decided.
fn print_resolution(
    alloc: Global,
    resolution: &Resolution,
    text: &mut String,
) -> Result<(), AllocError>
    ensures { OnOk result (string_bytes text.new ≡ string_bytes text.old ++ resolution_text resolution.now) }
{
    match resolution {
        Resolution::Keep => text.push_str("keep\n"),
        Resolution::Take(place) => writeln!(text, "take {place}"),
        Resolution::Write(Content::Value { bytes, .. }) => {
            print_write(alloc, bytes.as_slice(), text)
        }
        Resolution::Write(Content::Tombstone) => text.push_str("delete\n"),
        Resolution::Delete => text.push_str("delete\n"),
        Resolution::TooLarge => text.push_str("large\n"),
        Resolution::Bad(bad) => {
            let number = bad_answer_number(*bad);
            writeln!(text, "bad {number}")
        }
    }
}
