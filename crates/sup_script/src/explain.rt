//! Why a line has a fault, in words that a person can act on: where the reading of the line stopped, and what it expected there.

use std::fmt::{self, Style};
use sup_format::{
    Cursor, Fault, FaultyLine, LineKind, Place, ScriptFault, find_syntax_error, next_word,
    read_number,
};

/// Says which text a line is of.
#[derive(Clone, Copy, Debug)]
pub enum Format {
    Script,
    History,
}

/// Says what is wrong with a line of a script or of a history text, where, and what is expected there. It is shown as three lines: the
/// line itself, a mark under the place with what is wrong, and what was expected.
#[derive(Clone, Copy)]
pub struct Explanation<'a> {
    line: &'a FaultyLine,
    /// The place, unless the words of the line are right.
    error: Option<Cursor<'a>>,
}

impl<'a> Explanation<'a> {
    /// Explains a BadLine or a BadTemplate, and returns None for another fault.
    pub fn new(format: Format, stop: ScriptFault, line: &'a FaultyLine) -> Option<Explanation<'a>> {
        let kind = match (stop.fault, format, stop.line) {
            (Fault::BadLine | Fault::BadTemplate, Format::Script, 1) => LineKind::Header,
            (Fault::BadLine | Fault::BadTemplate, Format::History, 1) => LineKind::First,
            (Fault::BadLine, Format::Script, _) => LineKind::Command,
            (Fault::BadLine, Format::History, _) => LineKind::Entry,
            _ => return None,
        };
        let error = find_syntax_error(kind, line.bytes());
        Some(Explanation { line, error })
    }
}

impl fmt::Display for Explanation<'_> {
    fn fmt<W: fmt::Write>(&self, f: &mut fmt::Formatter<W>) -> fmt::Result {
        let (rest, place) = match self.error {
            Some(Cursor { rest, place }) => (rest, place),
            None => (None, Place::End),
        };
        let rest = rest.unwrap_or(&[]);
        let (word, _) = next_word(rest);
        let before = "".width(self.line.bytes().len().saturating_sub(rest.len()));
        let mark = "^".fill('^').width(word.len());
        write!(f, "  {}\n  {before}{mark} ", self.line)?;
        match self.error {
            None => f.write_str("the line lacks its line feed")?,
            Some(Cursor { rest: None, .. }) => f.write_str("the line ends here")?,
            Some(_) => write_wrong(f, place, word)?,
        }
        write!(f, "\n  expected {place}\n")
    }
}

/// Writes what is wrong with the word at a place.
fn write_wrong<W: fmt::Write>(f: &mut fmt::Formatter<W>, place: Place, word: &[u8]) -> fmt::Result {
    if let Place::End = place {
        return f.write_str("the line has more words than are allowed");
    }
    if word.is_empty() {
        return f.write_str("empty word: separate words by one space");
    }
    if let Some(byte) = word.iter().find(|byte| !byte.is_ascii_graphic()) {
        return write!(
            f,
            "no word has the byte 0x{byte:02X}, and a line ends with 0x0A alone"
        );
    }
    f.write_str(match place {
        Place::Text | Place::Reason if word.len() > 40 => "this text has more than 40 bytes",
        Place::Mark if word == b"significant".as_slice() => {
            "a significant child is not permanent, and needs the automatic shutdown `any` or `all`"
        }
        Place::Intensity
        | Place::Period
        | Place::Rows
        | Place::Moment
        | Place::Child
        | Place::Handle
        | Place::Serial
        | Place::Code => match read_number(word) {
            Some(_) => "this number is out of its range",
            None =>
                "no number: digits alone, no sign, no leading zero, at most 18446744073709551615",
        },
        _ => "not allowed here",
    })
}
