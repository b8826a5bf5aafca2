//! The words of a line, one after the other.

ghost use Rattle.std.specs.Prelude.{◌≡◌, ◌≢◌, ℕ, ◌<◌, ◌^◌, ◌∷◌, MatchOption, ◌==◌, position};
ghost use Rattle.std.specs.Fmt.{decimal};
ghost use Rattle.sup_format.specs.Reading.Words.{words_of, words_left, Lacks, IsSplit};

/// Returns the index of the first such byte, if there is one.
fn find_byte(bytes: &[u8], byte: u8) -> Option<usize>
    ensures { result ≡ position (λ b. b == byte) bytes.now }
{
    bytes.iter().position(|other| *other == byte)
}

/// Returns what is before the first such byte and what is after it, if there is one.
pub fn split_once(bytes: &[u8], byte: u8) -> Option<(&[u8], &[u8])>
    ensures { MatchOption result (Lacks byte bytes.now) (λ parts. IsSplit byte bytes.now parts.0.now parts.1.now) }
{
    let at = find_byte(bytes, byte)?;
    Some((&bytes[..at], &bytes[at + 1..]))
}

/// Returns the first word of a line, and the bytes of those after it, if there are any.
pub fn next_word(line: &[u8]) -> (&[u8], Option<&[u8]>)
    ensures { words_of line.now ≡ result.0.now ∷ words_left result.1 }
{
    match split_once(line, b' ') {
        Some((word, rest)) => (word, Some(rest)),
        None => (line, None),
    }
}

/// Returns the number that a word is, if it is one: digits without a leading zero, below 2^64.
pub fn read_number(word: &[u8]) -> Option<u64>
    ensures { MatchOption result ((n : ℕ) → n < 2 ^ 64 → word.now ≢ decimal n) (λ n. (n < 2 ^ 64) × (word.now ≡ decimal n)) }
{
    if word.is_empty() {
        return None;
    }
    if word[0] == b'0' && word.len() > 1 {
        return None;
    }
    let mut value: u64 = 0;
    for byte in word {
        if !byte.is_ascii_digit() {
            return None;
        }
        let digit = u64::from(*byte - b'0');
        value = value.checked_mul(10)?.checked_add(digit)?;
    }
    Some(value)
}
