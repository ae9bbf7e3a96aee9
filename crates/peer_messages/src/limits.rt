//! Whether messages are within the limits of what they are made of.

ghost use Rattle.std.specs.Prelude.{◌≡◌, ◌↔◌, ◌&&◌, IsTrue};
ghost use Rattle.dvv.specs.Clock.{covers};
ghost use Rattle.dvv.specs.Dots.{is_before};
ghost use Rattle.record_codec.specs.Reading.{no_dot};
ghost use Rattle.key_state.specs.Limits.{IsContent, IsKey};
ghost use Rattle.peer_remote.specs.Questions.{question_of};
ghost use Rattle.peer_messages.specs.Limits.{AreSentContents, IsSentContent, IsShort, IsShortPart, IsShortQuestion, IsShortState, IsShortSummary, are_following};

use dvv::{Clock, Dot};
use key_state::{Content, Key, KeyState, Part, PartSibling, Summary};
use peer_remote::{Ask, Told};
use record_codec::{are_contents, is_content};

/// The number of siblings of a state is below this.
const SIBLINGS_LIMIT: usize = 1 << 32;

/// No event: before each that there is.
pub(crate) const NO_DOT: Dot = Dot { vnode: 0, n: 0 };

/// Whether what is asked is within its limits.
pub(crate) fn is_short_question(ask: &Ask<'_>) -> bool
    ensures { IsTrue result ↔ IsShortQuestion (question_of ask.now) }
{
    match ask {
        Ask::Put { key, content, .. } => is_short_put(key, content),
        Ask::Merge { key, state, .. } => key.is_within_limits() && is_short_state(state),
        Ask::Read { key, .. } | Ask::Summary { key, .. } => key.is_within_limits(),
        Ask::Part { key, part, .. } => key.is_within_limits() && is_short_part(part),
    }
}

/// Whether a key and a content are.
fn is_short_put(key: &Key, content: &Content) -> bool
    ensures { IsTrue result ↔ (IsKey key.now × IsContent content.now) }
{
    key.is_within_limits() && is_content(content)
}

/// Whether what is told is.
pub(crate) fn is_short(told: &Told) -> bool
    ensures { IsTrue result ↔ IsShort told.now }
{
    match told {
        Told::State { state, .. } => is_short_state(state),
        Told::Summary { summary, .. } => is_short_summary(summary),
        _ => true,
    }
}

/// Whether a state is.
fn is_short_state(state: &KeyState) -> bool
    ensures { IsTrue result ↔ IsShortState state.now }
{
    state.siblings().len() < SIBLINGS_LIMIT && are_contents(state.siblings())
}

/// Whether a part is.
fn is_short_part(part: &Part) -> bool
    ensures { IsTrue result ↔ IsShortPart part.now }
{
    part.siblings().len() < SIBLINGS_LIMIT && are_sent_contents(part.siblings())
}

/// Whether the contents that were not left out are.
fn are_sent_contents(siblings: &[PartSibling]) -> bool
    ensures { IsTrue result ↔ AreSentContents siblings.now }
{
    for sibling in siblings {
        if !is_sent_content(&sibling.content) {
            return false;
        }
    }
    true
}

/// Whether a content is, if there is one.
fn is_sent_content(content: &Option<Content>) -> bool
    ensures { IsTrue result ↔ IsSentContent content.now }
{
    match content {
        Some(content) => is_content(content),
        None => true,
    }
}

/// Whether a summary is, and its dots rise and its clock covers them.
fn is_short_summary(summary: &Summary) -> bool
    ensures { IsTrue result ↔ IsShortSummary summary.now }
{
    summary.dots().len() < SIBLINGS_LIMIT && are_following(summary.clock(), summary.dots())
}

/// Whether dots rise, and a clock covers them.
fn are_following(clock: &Clock, dots: &[Dot]) -> bool
    ensures { result ≡ are_following clock.now no_dot dots.now }
{
    let mut last = NO_DOT;
    for dot in dots {
        if !follows(clock, last, *dot) {
            return false;
        }
        last = *dot;
    }
    true
}

/// Whether a dot may stand behind another, and a clock covers it.
pub(crate) fn follows(clock: &Clock, last: Dot, dot: Dot) -> bool
    ensures { result ≡ (is_before last dot && covers clock.now dot) }
{
    last.is_before(dot) && clock.covers(dot)
}
