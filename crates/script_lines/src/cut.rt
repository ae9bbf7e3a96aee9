//! Where lines end.

ghost use Rattle.std.specs.Prelude.{◌≡◌, ◌<◌, ◌∷◌, [], length, MatchOption, IfSome};
ghost use Rattle.script_lines.specs.Lines.{lines_in};

/// The first line, with the line feed that ends it where there is one, and the bytes behind it; none of no bytes.
pub fn first_line(bytes: &[u8]) -> Option<(&[u8], &[u8])>
    ensures lines { MatchOption result (bytes.now ≡ []) (λ cut. lines_in bytes.now ≡ cut.0.now ∷ lines_in cut.1.now) }
    ensures shorter { IfSome result (λ cut. length cut.1.now < length bytes.now) }
{
    if bytes.is_empty() {
        return None;
    }
    for (i, byte) in bytes.iter().enumerate() {
        if *byte == b'\n' {
            return Some(bytes.split_at(i + 1));
        }
    }
    Some((bytes, &[]))
}
