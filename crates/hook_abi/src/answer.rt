//! What a hook's answer means.

ghost use Rattle.std.specs.Prelude.{◌≡◌, Result, Ok, Err, MatchResult};
ghost use Rattle.hook_abi.specs.Verdicts.{meaning_of, sibling_in, value_in, verdict_of};

use bpf_image::ImageKind;
use thiserror::Error;

/// What a hook decided. A written value lies in the output window.
///
/// A plain program and a pre-commit hook may [`Pass`](Verdict::Pass); a pre-commit hook may also
/// [`Write`](Verdict::Write) or [`Reject`](Verdict::Reject), a resolver `Write`, [`Keep`](Verdict::Keep),
/// [`Delete`](Verdict::Delete) or [`Take`](Verdict::Take).
#[derive(Clone, Copy, PartialEq, Eq)]
pub enum Verdict<'a> {
    /// The new content is put as it is.
    Pass,
    /// These bytes, 0 to 65,532 of them in a window within its limit, are put.
    ///
    /// Of a pre-commit hook: in place of the new content's value, whose media type is kept; a new tombstone becomes a
    /// value of the media type `application/octet-stream`. Of a resolver: as a value of the media type
    /// `application/octet-stream`.
    Write(&'a [u8]),
    /// The new content is refused, with the hook's own code.
    Reject(u8),
    /// The siblings stay as they are.
    Keep,
    /// A tombstone is put.
    Delete,
    /// The content of the sibling at this place, from 0, is put.
    Take(u32),
}

/// Why a hook's answer has no meaning. It is shown as its number.
#[derive(Clone, Copy, Debug, PartialEq, Eq, Drop, Error)]
pub enum BadAnswer {
    /// R0 is no code of the hook's kind.
    #[error("B1")]
    UnknownCode,
    /// The output window ends before the value whose length it tells, or before that length.
    #[error("B2")]
    LengthPastWindow,
    /// R0 names a sibling past the last one.
    #[error("B3")]
    NoSuchSibling,
}

/// What a run means that answered `r0`: of this kind, on `count` siblings, with this whole output window.
///
/// `UnknownCode` where `r0` is none of the kind's codes, `NoSuchSibling` where a resolver's is 256 plus a place from
/// `count` to 255, and `LengthPastWindow` where it tells a written value and the output is shorter than the value's
/// length says. It takes no memory.
pub fn read_answer(
    kind: ImageKind,
    r0: u64,
    count: u32,
    output: &[u8],
) -> Result<Verdict<'_>, BadAnswer>
    ensures { MatchResult result (λ verdict. verdict_of kind r0 count output.now ≡ Ok (meaning_of verdict)) (λ bad. verdict_of kind r0 count output.now ≡ Err bad) }
{
    match (kind, r0) {
        (ImageKind::Plain, _) | (ImageKind::PreCommit, 0) => Ok(Verdict::Pass),
        (ImageKind::PreCommit, 256..=511) => Ok(Verdict::Reject((r0 - 256) as u8)),
        (ImageKind::Resolver, 0) => Ok(Verdict::Keep),
        (ImageKind::Resolver, 2) => Ok(Verdict::Delete),
        (ImageKind::Resolver, 256..=511) => sibling_taken((r0 - 256) as u32, count),
        (_, 1) => written_value(output),
        _ => Err(BadAnswer::UnknownCode),
    }
}

/// The value in the output: its length in four bytes, and that many bytes.
fn written_value(output: &[u8]) -> Result<Verdict<'_>, BadAnswer>
    ensures { MatchResult result (λ verdict. value_in output.now ≡ Ok (meaning_of verdict)) (λ bad. value_in output.now ≡ Err bad) }
{
    let Some((len, rest)) = output.split_first_chunk::<4>() else {
        return Err(BadAnswer::LengthPastWindow);
    };
    let len = u32::from_le_bytes(*len) as usize;
    if rest.len() < len {
        return Err(BadAnswer::LengthPastWindow);
    }
    Ok(Verdict::Write(&rest[..len]))
}

/// The sibling at a place, where there is one.
fn sibling_taken<'a>(place: u32, count: u32) -> Result<Verdict<'a>, BadAnswer>
    ensures { MatchResult result (λ verdict. sibling_in place count ≡ Ok (meaning_of verdict)) (λ bad. sibling_in place count ≡ Err bad) }
{
    if place < count {
        Ok(Verdict::Take(place))
    } else {
        Err(BadAnswer::NoSuchSibling)
    }
}
