//! Where a line is wrong.

use crate::read::command::read_command;
use crate::read::cursor::Cursor;
use crate::read::header::read_parts;
use crate::read::history::{read_entry, read_first_parts};
use crate::read::place::Place;
use crate::read::words::next_word;

/// Says of which kind a line is.
#[derive(Clone, Copy)]
pub enum LineKind {
    /// The first line of a script.
    Header,
    /// A further line of a script.
    Command,
    /// The first line of a history text.
    First,
    /// A further line of a history text.
    Entry,
}

/// Returns the first place at which a line of this kind is wrong, with the words from there on: it does not have what is expected
/// there, or has a number or a mark that no template has. None if nothing is wrong with its words.
pub fn find_syntax_error(kind: LineKind, line: &[u8]) -> Option<Cursor<'_>> {
    let mut words = Cursor::new(line);
    let (parts, before) = match kind {
        LineKind::Header => (read_parts(&mut words), 1),
        LineKind::First => (read_first_parts(&mut words), 2),
        LineKind::Command => return read_command(&mut words).is_none().then_some(words),
        LineKind::Entry => return read_entry(&mut words).is_none().then_some(words),
    };
    let Some(parts) = parts else {
        return Some(words);
    };
    if parts.template().is_ok() {
        return None;
    }
    let (place, after) = parts.unfit();
    let mut rest = Some(line);
    for _ in 0..after.saturating_add(before) {
        rest = next_word(rest?).1;
    }
    Some(Cursor { rest, place })
}
