//! The lines of a text.

ghost use Rattle.std.specs.Prelude.{◌≡◌, ◌<◌, ◌∷◌, length, MatchOption};
ghost use Rattle.sup_format.specs.Reading.Texts.{lines_of, IsEndedPart};
ghost use Rattle.sup_format.specs.Reading.Words.{Lacks, IsSplit};

use memchr::memchr;

/// Returns what is before the first line feed of a text and what is after it, if there is one.
pub fn cut_line(text: &[u8]) -> Option<(&[u8], &[u8])>
    ensures { MatchOption result (Lacks 10 text.now) (λ parts. IsSplit 10 text.now parts.0.now parts.1.now) }
{
    let at = memchr(b'\n', text)?;
    Some((&text[..at], &text[at + 1..]))
}

/// Returns the first line of a text that is not empty, and the text after it.
pub fn first_line(text: &[u8]) -> (&[u8], &[u8])
    requires { 0 < length text.now }
    ensures lines { lines_of text.now ≡ result.0.now ∷ lines_of result.1.now }
    ensures shorter { length result.1.now < length text.now }
{
    match cut_line(text) {
        Some((line, rest)) => (line, rest),
        None => (text, &[]),
    }
}

/// Returns the lines of a text that a line feed ends.
pub fn ended_part(text: &[u8]) -> &[u8]
    ensures { IsEndedPart text.now result.now }
{
    let mut end = text.len();
    while end > 0 && text[end - 1] != b'\n' {
        end -= 1;
    }
    &text[..end]
}
