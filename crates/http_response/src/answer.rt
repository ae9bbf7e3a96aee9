//! The answer to a request.

ghost use Rattle.std.specs.Prelude.{◌≡◌, ◌++◌, OnOk, IfOk, Ok, Some, None, [], ◌∷◌, length, codes, if◌then◌else◌};
ghost use Rattle.std.specs.Option.{option_copied};
ghost use Rattle.bpf_admission.specs.Admissions.{rule_text};
ghost use Rattle.bpf_verifier.specs.Numbers.{rule_number};
ghost use Rattle.bpf_image.specs.Image.{text_of};
ghost use Rattle.percent_encoding.specs.Percent as percent;
ghost use Rattle.quorum.specs.declared.fault.QuorumFault.TheVariants.{Rejected};
ghost use Rattle.http_response.specs.Answer as spec;
ghost use Rattle.http_response.specs.Answer.{print_answer, answer, in_parts};
ghost use Rattle.http_response.specs.Parts.{tag_of};
ghost use Rattle.http_response.specs.View.{found as found_in, line_of, told_of};

use crate::boundary::boundary_of;
use crate::field::{Answer, Read, Telling, push_number, push_parts, push_tag};
use crate::found::{Found, found_of};
use crate::known::is_known;
use crate::parts::push_parts_body;
use crate::reply::{Bound, Reply};
use crate::words::{
    BAD_VERDICT, DISAGREES, HERE, Line, NO_MEMORY, NOT_FOUND, OTHER_KIND, RESOURCES, TOO_FEW,
    TOO_LARGE, UNPROCESSABLE, UNSEEN, methods_of, of_code, of_hook, of_name, of_refusal, of_vnode,
};
use bpf_admission::Refusal as Unfit;
use bpf_image::ImageFault;
use bpf_insn::DecodeFault;
use bpf_verifier::Refused;
use dvv::Dot;
use http_request::{Ask, Call, Form, Route, What};
use key_state::{Bytes, KeyState, Sibling};
use percent_encoding::percent_encode_byte;
use quorum::QuorumFault;
use std::alloc::AllocError;

/// Adds the answer to a request, after the reply to its call. The text is a buffer for bodies that are made up.
pub fn push_answer(
    out: &mut Vec<u8>,
    text: &mut Vec<u8>,
    copies: u32,
    ask: &Ask,
    reply: &Reply,
    ends: bool,
) -> Result<(), AllocError>
    ensures { OnOk result (out.new.items ≡ out.old.items ++ answer copies ask.now reply.now ends) }
{
    let how = Telling {
        ends,
        head_only: ask.head_only,
    };
    match &ask.what {
        What::Ping => push_line(out, HERE, how),
        What::Resources => push_told(out, b"200 OK", b"application/json", RESOURCES, how),
        What::Options(route) => push_methods(out, *route, how),
        What::Continue => push_continue(out, how),
        What::Refused(refusal) => push_line(out, of_refusal(*refusal), how),
        What::Call(call, form) => {
            let tags = tags_of(&ask.if_none_match);
            let asked = Asked {
                copies,
                call,
                form,
                tags,
            };
            push_reply(out, text, asked, reply, how)
        }
    }
}

// The list of a client's entity tags, if it has one.
fn tags_of(list: &Option<Bytes>) -> Option<&[u8]>
    ensures { option_copied result ≡ list.now }
{
    match list {
        Some(list) => Some(list.as_slice()),
        None => None,
    }
}

// Adds which methods a route has.
fn push_methods(out: &mut Vec<u8>, route: Route, how: Telling) -> Result<(), AllocError>
    ensures { OnOk result (out.new.items ≡ out.old.items ++ print_answer (spec.options_answer route) how) }
{
    let answer = Answer {
        status: b"204 No Content",
        media: None,
        read: None,
        tag: None,
        allow: Some(methods_of(route)),
        body: None,
    };
    push_parts(out, &answer, how)
}

// Adds that the client may go on.
fn push_continue(out: &mut Vec<u8>, how: Telling) -> Result<(), AllocError>
    ensures { OnOk result (out.new.items ≡ out.old.items ++ print_answer spec.continue_answer how) }
{
    let answer = Answer {
        status: b"100 Continue",
        media: None,
        read: None,
        tag: None,
        allow: None,
        body: None,
    };
    push_parts(out, &answer, how)
}

// Adds a status and a line of text.
fn push_line(out: &mut Vec<u8>, line: Line, how: Telling) -> Result<(), AllocError>
    ensures { OnOk result (out.new.items ≡ out.old.items ++ print_answer (line_of line.entry) how) }
{
    let answer = Answer {
        status: line.status,
        media: Some(b"text/plain"),
        read: None,
        tag: None,
        allow: line.allow,
        body: Some(line.text),
    };
    push_parts(out, &answer, how)
}

// Adds a status and a body.
fn push_told<'a>(
    out: &mut Vec<u8>,
    status: &'a [u8],
    media: &'a [u8],
    body: &'a [u8],
    how: Telling,
) -> Result<(), AllocError>
    ensures { OnOk result (out.new.items ≡ out.old.items ++ print_answer (record (spec.told status.now body.now) { media = Some media.now }) how) }
{
    let answer = Answer {
        status,
        media: Some(media),
        read: None,
        tag: None,
        allow: None,
        body: Some(body),
    };
    push_parts(out, &answer, how)
}

// Adds a status alone.
fn push_empty(out: &mut Vec<u8>, tag: Option<&[u8]>, how: Telling) -> Result<(), AllocError>
    ensures { OnOk result (out.new.items ≡ out.old.items ++ print_answer (record spec.empty_answer { tag = option_copied tag.entry }) how) }
{
    let answer = Answer {
        status: b"204 No Content",
        media: None,
        read: None,
        tag,
        allow: None,
        body: None,
    };
    push_parts(out, &answer, how)
}

// A call of a store that has so many copies of a key, how its answer is shown, and the list of the entity tags that the client has.
#[derive(Clone, Copy)]
struct Asked<'a> {
    copies: u32,
    call: &'a Call,
    form: &'a Form,
    tags: Option<&'a [u8]>,
}

impl<'a> Asked<'a> {
    // The bucket whose properties are read.
    fn bucket(self) -> &'a [u8]
        ensures { result.now ≡ spec.bucket_of self.entry.call.now }
    {
        match self.call {
            Call::ReadProps { bucket } => bucket.as_slice(),
            _ => b"",
        }
    }
}

// Adds the answer to a call.
fn push_reply(
    out: &mut Vec<u8>,
    text: &mut Vec<u8>,
    asked: Asked<'_>,
    reply: &Reply,
    how: Telling,
) -> Result<(), AllocError>
    ensures { OnOk result (out.new.items ≡ out.old.items ++ print_answer (spec.call_answer asked.entry.copies asked.entry.call.now asked.entry.form.now (option_copied asked.entry.tags) reply.now) how) }
{
    text.clear();
    match reply {
        Reply::Nothing | Reply::Installed(Ok(_)) | Reply::Removed(Ok(_)) | Reply::Set(Ok(_)) =>
            push_empty(out, None, how),
        Reply::Got(Ok(state)) => push_state(out, text, asked, state, how),
        Reply::Got(Err(fault)) | Reply::Stored(Err(fault)) => push_quorum_fault(
            out, text, *fault, how,
        ),
        Reply::Stored(Ok(dot)) => push_stored(out, text, *dot, how),
        Reply::Installed(Err(refusal)) => push_unfit(out, text, *refusal, how),
        Reply::Removed(Err(fault)) => push_line(out, of_hook(NOT_FOUND, *fault), how),
        Reply::Props(Ok(bound)) => push_bound(out, text, asked, bound, how),
        Reply::Props(Err(fault)) => push_line(out, of_name(*fault), how),
        Reply::Set(Err(fault)) => push_line(out, of_hook(UNPROCESSABLE, *fault), how),
    }
}

// Adds which event a content is stored under.
fn push_stored(
    out: &mut Vec<u8>,
    text: &mut Vec<u8>,
    dot: Dot,
    how: Telling,
) -> Result<(), AllocError>
    requires { text.old.items ≡ [] }
    ensures { OnOk result (out.new.items ≡ out.old.items ++ print_answer (spec.stored_answer (Ok dot)) how) }
{
    push_tag(text, dot)?;
    push_empty(out, Some(text.as_slice()), how)
}

// Adds what is bound to a bucket.
fn push_bound(
    out: &mut Vec<u8>,
    text: &mut Vec<u8>,
    asked: Asked<'_>,
    bound: &Bound,
    how: Telling,
) -> Result<(), AllocError>
    requires { text.old.items ≡ [] }
    ensures { OnOk result (out.new.items ≡ out.old.items ++ print_answer (spec.props_answer asked.entry.copies (spec.bucket_of asked.entry.call.now) (Ok bound.now)) how) }
{
    push_props(text, asked.copies, asked.bucket(), bound)?;
    push_told(out, b"200 OK", b"application/json", text.as_slice(), how)
}

// Adds why a get or a put has no answer.
fn push_quorum_fault(
    out: &mut Vec<u8>,
    text: &mut Vec<u8>,
    fault: QuorumFault,
    how: Telling,
) -> Result<(), AllocError>
    requires { text.old.items ≡ [] }
    ensures { OnOk result (out.new.items ≡ out.old.items ++ print_answer (spec.quorum_answer fault) how) }
{
    match fault {
        QuorumFault::Rejected(code) => push_rejected(out, text, code, how),
        QuorumFault::TooFew => push_line(out, TOO_FEW, how),
        QuorumFault::Refused(fault) => push_line(out, of_vnode(fault), how),
        QuorumFault::Unseen => push_line(out, UNSEEN, how),
        QuorumFault::Disagrees => push_line(out, DISAGREES, how),
        QuorumFault::TooLarge => push_line(out, TOO_LARGE, how),
        QuorumFault::BadVerdict(_) => push_line(out, BAD_VERDICT, how),
    }
}

// Adds that a hook let a content not in, and its number.
fn push_rejected(
    out: &mut Vec<u8>,
    text: &mut Vec<u8>,
    code: u8,
    how: Telling,
) -> Result<(), AllocError>
    requires { text.old.items ≡ [] }
    ensures { OnOk result (out.new.items ≡ out.old.items ++ print_answer (spec.quorum_answer (Rejected code)) how) }
{
    text.extend_from_slice(b"X3 ")?;
    push_number(text, code as u64)?;
    text.extend_from_slice(b"\n")?;
    push_told(out, b"403 Forbidden", b"text/plain", text.as_slice(), how)
}

// Adds why an image is not let in, by a buffer for the text.
fn push_unfit(
    out: &mut Vec<u8>,
    text: &mut Vec<u8>,
    refusal: Unfit,
    how: Telling,
) -> Result<(), AllocError>
    requires { text.old.items ≡ [] }
    ensures { OnOk result (out.new.items ≡ out.old.items ++ print_answer (spec.unfit_answer refusal) how) }
{
    match refusal {
        Unfit::Image(fault) => {
            push_image_fault(text, fault)?;
            push_unprocessable(out, text, how)
        }
        Unfit::Rule(refused) => {
            push_broken_rule(text, refused)?;
            push_unprocessable(out, text, how)
        }
        Unfit::OtherKind => push_line(out, OTHER_KIND, how),
        Unfit::NoMemory => push_line(out, NO_MEMORY, how),
    }
}

// Adds why an image is not let in, where the text shows it.
fn push_unprocessable(out: &mut Vec<u8>, text: &mut Vec<u8>, how: Telling) -> Result<(), AllocError>
    ensures { OnOk result (out.new.items ≡ out.old.items ++ print_answer (spec.line_told spec.unprocessable text.old.items) how) }
{
    text.extend_from_slice(b"\n")?;
    push_told(out, UNPROCESSABLE, b"text/plain", text.as_slice(), how)
}

// Adds a fault of an image as it is shown.
fn push_image_fault(text: &mut Vec<u8>, fault: ImageFault) -> Result<(), AllocError>
    ensures { OnOk result (text.new.items ≡ text.old.items ++ text_of fault) }
{
    match fault {
        ImageFault::Short => text.extend_from_slice(b"I1"),
        ImageFault::Mark => text.extend_from_slice(b"I2"),
        ImageFault::Version => text.extend_from_slice(b"I3"),
        ImageFault::Kind => text.extend_from_slice(b"I4"),
        ImageFault::Window => text.extend_from_slice(b"I5"),
        ImageFault::Code(DecodeFault { slot, why }) => {
            text.extend_from_slice(of_code(why))?;
            text.extend_from_slice(b" ")?;
            push_number(text, slot as u64)
        }
        ImageFault::NoMemory => text.extend_from_slice(b"E1 0"),
    }
}

// Adds a rule that is broken, and where, as it is shown.
fn push_broken_rule(text: &mut Vec<u8>, refused: Refused) -> Result<(), AllocError>
    ensures { OnOk result (text.new.items ≡ text.old.items ++ rule_text (rule_number refused.rule) refused.slot) }
{
    match refused.rule.number() {
        Some(number) => {
            text.extend_from_slice(b"V")?;
            push_number(text, number as u64)?;
            text.extend_from_slice(b" ")?;
            push_number(text, refused.slot as u64)
        }
        None => text.extend_from_slice(b"E1 0"),
    }
}

// Adds the properties of a bucket as JSON.
fn push_props(
    text: &mut Vec<u8>,
    copies: u32,
    bucket: &[u8],
    bound: &Bound,
) -> Result<(), AllocError>
    ensures { OnOk result (text.new.items ≡ text.old.items ++ spec.props_text copies bucket.now bound.now) }
{
    push_bindings(text, copies, bound)?;
    push_always(text, bucket)
}

// Adds the front of the properties, with what is bound.
fn push_bindings(text: &mut Vec<u8>, copies: u32, bound: &Bound) -> Result<(), AllocError>
    ensures { OnOk result (text.new.items ≡ text.old.items ++ spec.bound_text copies bound.now) }
{
    text.extend_from_slice(b"{\"props\":{\"allow_mult\":true,\"n_val\":")?;
    push_number(text, copies as u64)?;
    text.extend_from_slice(b",\"precommit\":")?;
    push_json_name(text, &bound.precommit)?;
    text.extend_from_slice(b",\"resolver\":")?;
    push_json_name(text, &bound.resolver)
}

// Adds the rest of the properties, with the bucket's name and what is so with each.
fn push_always(text: &mut Vec<u8>, bucket: &[u8]) -> Result<(), AllocError>
    ensures { OnOk result (text.new.items ≡ text.old.items ++ spec.always_text bucket.now) }
{
    text.extend_from_slice(b",\"name\":\"")?;
    push_escaped(text, bucket)?;
    text.extend_from_slice(b"\",\"last_write_wins\":false,\"r\":\"quorum\",\"w\":\"quorum\"}}")?;
    Ok(())
}

// Adds a name as it stands in a path.
#[tactic(auto, unfolding(crate::specs::Answer::escaped))]
fn push_escaped(text: &mut Vec<u8>, name: &[u8]) -> Result<(), AllocError>
    ensures { OnOk result (text.new.items ≡ text.old.items ++ spec.escaped name.now) }
{
    for b in name {
        push_escaped_byte(text, *b)?;
    }
    Ok(())
}

// Adds a byte of a name: itself, or its escape.
fn push_escaped_byte(text: &mut Vec<u8>, b: u8) -> Result<(), AllocError>
    ensures { OnOk result (text.new.items ≡ text.old.items ++ (if spec.is_unreserved b then b ∷ [] else percent.percent_encode_byte b)) }
{
    if is_unreserved(b) {
        text.push(b)?;
        return Ok(());
    }
    text.extend_from_slice(percent_encode_byte(b).as_bytes())
}

// Whether a byte stands for itself in a path.
fn is_unreserved(b: u8) -> bool
    ensures { result ≡ spec.is_unreserved b }
{
    b.is_ascii_alphanumeric() || b == b'-' || b == b'.' || b == b'_' || b == b'~'
}

// Adds a name as JSON: names have no character that JSON escapes.
fn push_json_name(text: &mut Vec<u8>, name: &Option<Bytes>) -> Result<(), AllocError>
    ensures { OnOk result (text.new.items ≡ text.old.items ++ spec.json_name name.now) }
{
    match name {
        None => text.extend_from_slice(b"null"),
        Some(name) => {
            text.extend_from_slice(b"\"")?;
            text.extend_from_slice(name.as_slice())?;
            text.extend_from_slice(b"\"")
        }
    }
}

// Adds what a read shows, unless the client has it.
fn push_state(
    out: &mut Vec<u8>,
    text: &mut Vec<u8>,
    asked: Asked<'_>,
    state: &KeyState,
    how: Telling,
) -> Result<(), AllocError>
    ensures { OnOk result (out.new.items ≡ out.old.items ++ print_answer (spec.got_answer asked.entry.form.now (option_copied asked.entry.tags) (Ok state.now)) how) }
{
    let found = found_of(text, asked.form, state.siblings())?;
    let read = found.read(state.clock());
    if is_known(text, asked.tags, read)? {
        return push_not_modified(out, read, how);
    }
    text.clear();
    push_found(out, text, found, read, how)
}

// Adds that the client has what would be shown.
fn push_not_modified(out: &mut Vec<u8>, read: Read<'_>, how: Telling) -> Result<(), AllocError>
    ensures { OnOk result (out.new.items ≡ out.old.items ++ print_answer (told_of read.entry (record spec.empty_answer { status = codes "304 Not Modified" })) how) }
{
    let answer = Answer {
        status: b"304 Not Modified",
        media: None,
        read: Some(read),
        tag: None,
        allow: None,
        body: None,
    };
    push_parts(out, &answer, how)
}

// Adds what is found of a key.
fn push_found(
    out: &mut Vec<u8>,
    text: &mut Vec<u8>,
    found: Found<'_>,
    read: Read<'_>,
    how: Telling,
) -> Result<(), AllocError>
    requires { text.old.items ≡ [] }
    ensures { OnOk result (out.new.items ≡ out.old.items ++ print_answer (told_of read.entry (spec.shown (found_in found.entry))) how) }
{
    match found {
        Found::Nothing | Found::Deleted => push_missing(out, read, how),
        Found::One { media, bytes, .. } => push_value(out, media, bytes, read, how),
        Found::Listed(siblings) => push_listed(out, text, siblings, read, how),
        Found::InParts(siblings) => push_mixed(out, text, siblings, read, how),
    }
}

// Adds the tags of all siblings.
fn push_listed(
    out: &mut Vec<u8>,
    text: &mut Vec<u8>,
    siblings: &[Sibling],
    read: Read<'_>,
    how: Telling,
) -> Result<(), AllocError>
    requires { text.old.items ≡ [] }
    ensures { OnOk result (out.new.items ≡ out.old.items ++ print_answer (told_of read.entry (spec.told spec.choices (spec.tags_text siblings.now))) how) }
{
    push_tags(text, siblings)?;
    push_choices(out, b"text/plain", text.as_slice(), read, how)
}

// Adds that there is nothing.
fn push_missing(out: &mut Vec<u8>, read: Read<'_>, how: Telling) -> Result<(), AllocError>
    ensures { OnOk result (out.new.items ≡ out.old.items ++ print_answer (told_of read.entry spec.not_found) how) }
{
    let answer = Answer {
        status: NOT_FOUND,
        media: Some(b"text/plain"),
        read: Some(read),
        tag: None,
        allow: None,
        body: Some(b"not found\n"),
    };
    push_parts(out, &answer, how)
}

// Adds a value by itself.
fn push_value<'a, 'v>(
    out: &mut Vec<u8>,
    media: &'a [u8],
    bytes: &'a [u8],
    read: Read<'v>,
    how: Telling,
) -> Result<(), AllocError>
    ensures { OnOk result (out.new.items ≡ out.old.items ++ print_answer (told_of read.entry (record (spec.told (codes "200 OK") bytes.now) { media = Some media.now })) how) }
{
    let answer = Answer {
        status: b"200 OK",
        media: Some(media),
        read: Some(read),
        tag: None,
        allow: None,
        body: Some(bytes),
    };
    push_parts(out, &answer, how)
}

// Adds a body that shows several siblings.
fn push_choices<'a, 'v>(
    out: &mut Vec<u8>,
    media: &'a [u8],
    body: &'a [u8],
    read: Read<'v>,
    how: Telling,
) -> Result<(), AllocError>
    ensures { OnOk result (out.new.items ≡ out.old.items ++ print_answer (told_of read.entry (record (spec.told spec.choices body.now) { media = Some media.now })) how) }
{
    let answer = Answer {
        status: b"300 Multiple Choices",
        media: Some(media),
        read: Some(read),
        tag: None,
        allow: None,
        body: Some(body),
    };
    push_parts(out, &answer, how)
}

// Adds all siblings as the parts of one body.
fn push_mixed(
    out: &mut Vec<u8>,
    text: &mut Vec<u8>,
    siblings: &[Sibling],
    read: Read<'_>,
    how: Telling,
) -> Result<(), AllocError>
    requires { text.old.items ≡ [] }
    ensures { OnOk result (out.new.items ≡ out.old.items ++ print_answer (told_of read.entry (spec.shown (in_parts siblings.now))) how) }
{
    let boundary = boundary_of(text, siblings)?;
    text.clear();
    let media_len = push_mixed_type(text, boundary)?;
    push_parts_body(text, boundary, siblings)?;
    let (media, body) = text.split_at(media_len);
    push_choices(out, media, body, read, how)
}

// Adds the media type of a body in parts, and tells how many bytes the text has then.
fn push_mixed_type(text: &mut Vec<u8>, boundary: u64) -> Result<usize, AllocError>
    requires { text.old.items ≡ [] }
    ensures text { OnOk result (text.new.items ≡ spec.mixed_type boundary) }
    ensures length { IfOk result (λ n. n ≡ length text.new.items) }
{
    text.extend_from_slice(b"multipart/mixed; boundary=s")?;
    push_number(text, boundary)?;
    Ok(text.len())
}

// Adds the tags of the siblings, a line each.
fn push_tags(text: &mut Vec<u8>, siblings: &[Sibling]) -> Result<(), AllocError>
    ensures { OnOk result (text.new.items ≡ text.old.items ++ spec.tags_text siblings.now) }
{
    text.extend_from_slice(b"Siblings:\n")?;
    for sibling in siblings {
        push_tag_line(text, sibling)?;
    }
    Ok(())
}

// Adds a tag as a line.
fn push_tag_line(text: &mut Vec<u8>, sibling: &Sibling) -> Result<(), AllocError>
    ensures { OnOk result (text.new.items ≡ text.old.items ++ (tag_of sibling.now.dot ++ 10 ∷ [])) }
{
    push_tag(text, sibling.dot)?;
    text.extend_from_slice(b"\n")
}
