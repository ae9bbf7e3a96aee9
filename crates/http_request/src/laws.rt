//! Laws of the definitions.

ghost use Rattle.std.specs.Prelude.{◌≡◌};
ghost use Rattle.http_request.specs.Limits.{longest_head, most_lines, longest_body, longest_coded, longest_hook_name};

use crate::limits::{
    MAX_BODY_BYTES, MAX_CODED_BYTES, MAX_HEAD_BYTES, MAX_HOOK_NAME_BYTES, MAX_LINES,
};

/// The constants are the limits' numbers.
pub fn limits()
    ensures head { MAX_HEAD_BYTES ≡ longest_head }
    ensures lines { MAX_LINES ≡ most_lines }
    ensures body { MAX_BODY_BYTES ≡ longest_body }
    ensures coded { MAX_CODED_BYTES ≡ longest_coded }
    ensures hook_name { MAX_HOOK_NAME_BYTES ≡ longest_hook_name }
{}
