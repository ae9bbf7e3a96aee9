//! Siblings and contexts as text.

ghost use Rattle.std.specs.Prelude.{◌≡◌, ◌++◌, OnOk, true, flat_map, string_bytes};
ghost use Rattle.script_lines.specs.Lines.{is_word};
ghost use Rattle.script_replies.specs.Texts.{dot_text, content_text, sibling_text, siblings_text, state_text};

use dvv::Dot;
use key_state::{Content, KeyState, Sibling};
use script_lines::is_word;
use std::alloc::{AllocError, Global};

/// Adds the line of a key's state: its siblings, or `none`, and the token of their context. Fails for want of memory alone: the text then
/// ends with a front of the line, or as before.
pub fn print_state(alloc: Global, state: &KeyState, text: &mut String) -> Result<(), AllocError>
    ensures { OnOk result (string_bytes text.new ≡ string_bytes text.old ++ state_text state.now) }
{
    print_siblings(alloc, state.siblings(), text)?;
    let token = context_token::write(alloc, state.clock())?;
    writeln!(text, "{token}")
}

// Adds siblings, a space behind each.
fn print_siblings(alloc: Global, siblings: &[Sibling], text: &mut String) -> Result<(), AllocError>
    ensures { OnOk result (string_bytes text.new ≡ string_bytes text.old ++ siblings_text siblings.now) }
{
    if siblings.is_empty() {
        return text.push_str("none ");
    }
    print_each(alloc, siblings, text)
}

// Adds what there is of siblings.
fn print_each(alloc: Global, siblings: &[Sibling], text: &mut String) -> Result<(), AllocError>
    ensures { OnOk result (string_bytes text.new ≡ string_bytes text.old ++ flat_map sibling_text siblings.now) }
{
    for sibling in siblings {
        print_sibling(alloc, sibling, text)?;
    }
    Ok(())
}

// Adds a sibling and a space.
fn print_sibling(alloc: Global, sibling: &Sibling, text: &mut String) -> Result<(), AllocError>
    ensures { OnOk result (string_bytes text.new ≡ string_bytes text.old ++ sibling_text sibling.now) }
{
    print_dot(&sibling.dot, text)?;
    print_content(alloc, &sibling.content, text)?;
    text.push_str(" ")
}

// Adds a dot.
pub(crate) fn print_dot(dot: &Dot, text: &mut String) -> Result<(), AllocError>
    ensures { OnOk result (string_bytes text.new ≡ string_bytes text.old ++ dot_text dot.now) }
{
    let vnode = dot.vnode;
    let n = dot.n;
    write!(text, "{vnode}-{n}")
}

// Adds a content behind its dot: a value as it stands where it is a word, else in hexadecimal.
fn print_content(alloc: Global, content: &Content, text: &mut String) -> Result<(), AllocError>
    ensures { OnOk result (string_bytes text.new ≡ string_bytes text.old ++ content_text content.now) }
{
    match content {
        Content::Value { bytes, .. } => {
            let value = bytes.as_slice();
            if is_word(value) {
                text.push_str("=")?;
                print_word(value, text)
            } else {
                let digits = hex::encode(alloc, value)?;
                write!(text, ":{digits}")
            }
        }
        Content::Tombstone => text.push_str("!"),
    }
}

// Adds a word as it stands.
fn print_word(word: &[u8], text: &mut String) -> Result<(), AllocError>
    requires { is_word word.now ≡ true }
    ensures { OnOk result (string_bytes text.new ≡ string_bytes text.old ++ word.now) }
{
    for byte in word {
        text.push(*byte as char)?;
    }
    Ok(())
}
