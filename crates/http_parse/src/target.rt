//! The target of a request.

ghost use Rattle.std.specs.Prelude.{◌≡◌, ◌≤◌, true, length, slice_index, IfSome, IfNone};
ghost use Rattle.std.specs.List.{list_all};
ghost use Rattle.http_uri.specs.ByteClasses as classes;
ghost use Rattle.http_uri.specs.Grammar.{without_fragment};
ghost use Rattle.http_request.specs.Head.{IsOriginTarget};
ghost use Rattle.http_parse.specs.Targets.{IsTarget, IsTargetOf};

use memchr::memchr;

/// The most bytes of a target.
const MAX_TARGET_BYTES: usize = 65_534;

/// The parts of a target that is a path with its query (RFC 9112, 3.2.1), as they stand in it.
#[derive(Clone, Copy)]
pub(crate) struct Target<'b> {
    pub(crate) path: &'b str,
    /// What stands behind the first question mark; empty where there is none.
    pub(crate) query: &'b str,
}

/// The parts of a target that begins with a slash, without its fragment; none where it is no such target.
pub(crate) fn target_of(text: &[u8]) -> Option<Target<'_>>
    ensures some { IfSome result (λ target. IsTargetOf text.now target.path.now target.query.now) }
    ensures none { IfNone result (¬ (IsOriginTarget text.now)) }
{
    if text.is_empty() || text[0] != b'/' || text.len() > MAX_TARGET_BYTES {
        return None;
    }
    if are_of_path(text) {
        plain_target(text)
    } else {
        marked_target(text)
    }
}

// The parts of a target, where it has neither a query nor a fragment: most have none.
fn plain_target(text: &[u8]) -> Option<Target<'_>>
    requires slash { slice_index text.now 0 ≡ 47 }
    requires short { length text.now ≤ 65534 }
    requires plain { list_all classes.is_path_byte text.now ≡ true }
    ensures some { IfSome result (λ target. IsTargetOf text.now target.path.now target.query.now) }
    ensures none { IfNone result (¬ (IsOriginTarget text.now)) }
{
    match str::from_utf8(text) {
        Ok(path) => Some(Target { path, query: "" }),
        Err(_) => None,
    }
}

// The parts of a target that may have a query and a fragment.
fn marked_target(text: &[u8]) -> Option<Target<'_>>
    requires slash { slice_index text.now 0 ≡ 47 }
    requires short { length text.now ≤ 65534 }
    ensures some { IfSome result (λ target. IsTargetOf text.now target.path.now target.query.now) }
    ensures none { IfNone result (¬ (IsOriginTarget text.now)) }
{
    let Ok(kept) = str::from_utf8(before_fragment(text)) else {
        return None;
    };
    let target = parted(kept);
    if are_of_path(target.path.as_bytes()) && are_of_query(target.query.as_bytes()) {
        Some(target)
    } else {
        None
    }
}

// The bytes before the first `#`, or all of them.
fn before_fragment(text: &[u8]) -> &[u8]
    ensures { result.now ≡ without_fragment text.now }
{
    match memchr(b'#', text) {
        Some(at) => &text[..at],
        None => text,
    }
}

// A path and the query behind the first question mark.
fn parted(kept: &str) -> Target<'_>
    ensures { IsTarget kept.now result.path.now result.query.now }
{
    match kept.split_once('?') {
        Some((path, query)) => Target { path, query },
        None => Target {
            path: kept,
            query: "",
        },
    }
}

fn are_of_path(path: &[u8]) -> bool
    ensures { result ≡ list_all classes.is_path_byte path.now }
{
    path.iter().all(|b| is_of_path(*b))
}

fn are_of_query(query: &[u8]) -> bool
    ensures { result ≡ list_all classes.is_query_byte query.now }
{
    query.iter().all(|b| is_of_query(*b))
}

// Whether the byte may stand in a path.
fn is_of_path(b: u8) -> bool
    ensures { result ≡ classes.is_path_byte b }
{
    matches!(b, 33..=34 | 36..=59 | 61 | 64..=95 | 97..=126 | 128..=255)
}

// Whether the byte may stand in a query.
fn is_of_query(b: u8) -> bool
    ensures { result ≡ classes.is_query_byte b }
{
    matches!(b, 33 | 36..=59 | 61 | 63..=126 | 128..=255)
}
