//! Texts that are cut at marks.

ghost use Rattle.std.specs.Prelude.{◌≡◌, ◌==◌, ◌<◌, [], ◌∷◌, length, position, MatchOption};
ghost use Rattle.std.specs.Option.{option_map};
ghost use Rattle.partitions.specs.Cut.{cut_of, lines_of, line_feed};

/// What is before the first mark, and what is after it, if there is one.
pub(crate) fn cut(text: &[u8], mark: u8) -> Option<(&[u8], &[u8])>
    ensures { option_map (λ parts. (parts.0.now, parts.1.now)) result ≡ cut_of mark text.now }
{
    match find(text, mark) {
        Some(at) => Some((&text[..at], &text[at + 1..])),
        None => None,
    }
}

/// The first line of a text, and what is after its line feed, if it has one.
pub(crate) fn cut_line(text: &[u8]) -> (&[u8], Option<&[u8]>)
    ensures { MatchOption result.1
        (lines_of text.now ≡ result.0.now ∷ [])
        (λ others. (lines_of text.now ≡ result.0.now ∷ lines_of others.now) × (length others.now < length text.now)) }
{
    match cut(text, b'\n') {
        Some((line, others)) => (line, Some(others)),
        None => (text, None),
    }
}

/// The index of the first mark.
fn find(text: &[u8], mark: u8) -> Option<usize>
    ensures { result ≡ position (λ byte. byte == mark) text.now }
{
    text.iter().position(|byte| *byte == mark)
}
