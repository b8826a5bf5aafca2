//! Commands, and the lines that spell them.

ghost use Rattle.std.specs.Prelude.{◌≡◌, ◌∷◌};
ghost use Rattle.sup_format.specs.Reading.Words.{words_of, words_left};
ghost use Rattle.sup_format.specs.Reading.Tokens.{verb_word};
ghost use Rattle.sup_format.specs.Reading.Lines.{IsReading};

use crate::read::cursor::Cursor;
use crate::read::place::Place;
use crate::spelled::{Query, Verb};
use sup_types::{Operation, Text};

/// Says what a line of a script after its header asks for.
#[derive(Debug, Drop, PartialEq, Eq)]
pub enum Command {
    /// An operation at a moment.
    Update(u64, Operation),
    /// The rows.
    Which,
    /// The counts.
    Count,
    /// A call by a child's identifier, which no supervisor of this kind does: `terminate_id`, `delete_child` or
    /// `restart_child`.
    ById(Text),
}

/// Returns the command that the bytes of a line spell, if they spell one. It takes no memory.
pub fn read_line(line: &[u8]) -> Option<Command>
    ensures { IsReading (words_of line.now) result }
{
    read_command(&mut Cursor::new(line))
}

/// Returns the command that the words of a line spell.
pub fn read_command(words: &mut Cursor<'_>) -> Option<Command>
    ensures { IsReading (words_left words.old.rest) result }
{
    if let Some(verb) = words.value(Place::Command) {
        return read_update(verb, words);
    }
    let command = match words.value(Place::Command)? {
        Query::Which => Command::Which,
        Query::Count => Command::Count,
        Query::TerminateId | Query::DeleteChild | Query::RestartChild => {
            Command::ById(words.text()?)
        }
    };
    words.end()?;
    Some(command)
}

/// Returns the update of this name whose parts the next words are.
fn read_update(verb: Verb, words: &mut Cursor<'_>) -> Option<Command>
    ensures { IsReading (verb_word verb ∷ words_left words.old.rest) result }
{
    let moment = words.number(Place::Moment)?;
    let operation = words.operation(verb)?;
    words.end()?;
    Some(Command::Update(moment, operation))
}
