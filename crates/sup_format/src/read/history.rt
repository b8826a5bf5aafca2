//! History texts: a template, and the entries of a history.

ghost use Rattle.std.specs.Prelude.{◌≡◌, ◌+◌, ◌++◌, ◌<◌, ◌^◌, ℕ, List, [], length, MatchOption, MatchResult, IfErr};
ghost use Rattle.sup_types.specs.declared.template.Template.{Template as AnTemplate};
ghost use Rattle.sup_types.specs.declared.history.Entry.{Entry as AnEntry};
ghost use Rattle.sup_format.specs.declared.fault.Fault.TheVariants.{BadLine};
ghost use Rattle.sup_format.specs.Causes.{IsTextFault};
ghost use Rattle.sup_format.specs.Reading.Words.{words_left};
ghost use Rattle.sup_format.specs.Reading.Headers.{HasParts};
ghost use Rattle.sup_format.specs.Reading.History.{AreFirstWords, Spells};
ghost use Rattle.sup_format.specs.Reading.HistoryReading.{HistoryStops, IsReadTo, HasEntry, HasAnswer, IsNextEntry};

use crate::fault::{Fault, ScriptFault};
use crate::read::cursor::Cursor;
use crate::read::header::{Parts, read_limits, read_shutdown, template_of};
use crate::read::lines::cut_line;
use crate::read::place::Place;
use crate::spelled::AnswerName;
use std::alloc::Allocator;
use sup_types::{Answer, Entry, Template};

/// Holds what a history text spells. The template's `entries` is 2^62.
#[derive(Debug, Drop)]
pub struct History<A: Allocator> {
    pub template: Template,
    pub entries: Vec<Entry, A>,
}

/// Says what is wrong with a history text (OutOfMemory, BadTemplate or BadLine), and in which line, from 1 on.
pub type HistoryFault = ScriptFault;

/// Reads a history text of version 1, which is plain and never, or of version 2.
///
/// # Errors
/// The first fault by line; then nothing is kept. An empty text and a last line without a line feed are bad lines. OutOfMemory
/// names the line of the entry for which there was no room.
pub fn read_history<A: Allocator + Copy>(alloc: A, text: &[u8]) -> Result<History<A>, HistoryFault>
    ensures { MatchResult result (λ history. Spells text.now history.template history.entries.items) (λ e. HistoryStops text.now e.line e.fault) }
{
    let (template, after) = begin_history(text)?;
    let mut entries = Vec::new(alloc);
    let mut line = 2;
    let mut rest = after;
    while !rest.is_empty() {
        let Some((entry, after)) = next_entry(rest) else {
            return Err(Fault::BadLine.in_line(line));
        };
        if entries.push(entry).is_err() {
            return Err(Fault::OutOfMemory.in_line(line));
        }
        line += 1;
        rest = after;
    }
    Ok(History { template, entries })
}

/// Returns the template of a history text's first line, and the text after it, or what is wrong with that line. [`next_entry`]
/// reads the entries after it.
pub fn begin_history(text: &[u8]) -> Result<(Template, &[u8]), HistoryFault>
    ensures begun { MatchResult result (λ p. IsReadTo text.now p.1.now p.0 [] 2) (λ e. HistoryStops text.now e.line e.fault) }
    ensures fault { IfErr result (λ e. IsTextFault e.fault) }
    ensures line { IfErr result (λ e. e.line ≡ 1) }
{
    let Some((first, after)) = cut_line(text) else {
        return Err(Fault::BadLine.in_line(1));
    };
    match template_of(read_first_parts(&mut Cursor::new(first))) {
        Ok(template) => Ok((template, after)),
        Err(fault) => Err(fault.in_line(1)),
    }
}

/// Checks that each line of the rest of a history text is ended and spells an entry, and returns the first that does not as
/// BadLine. `line` is the number of the next. It takes no memory.
pub fn check_entries(rest: &[u8], line: u64) -> Result<(), HistoryFault>
    requires { line + length rest.now < 2 ^ 64 }
    ensures stops { (text : List ℕ) (template : AnTemplate) (entries : List AnEntry) → IsReadTo text rest.now template entries line →
        MatchResult result (λ _. (all : List AnEntry) × Spells text template all) (λ e. HistoryStops text e.line e.fault) }
    ensures fault { IfErr result (λ e. e.fault ≡ BadLine) }
{
    let mut line = line;
    let mut rest = rest;
    while !rest.is_empty() {
        let Some((_, after)) = next_entry(rest) else {
            return Err(Fault::BadLine.in_line(line));
        };
        line += 1;
        rest = after;
    }
    Ok(())
}

/// Returns the parts that the words of a first line name: five in version 1, and seven in version 2.
pub fn read_first_parts(words: &mut Cursor<'_>) -> Option<Parts>
    ensures { HasParts AreFirstWords (words_left words.old.rest) result }
{
    words.word(Place::History, b"history")?;
    if words.word(Place::Version, b"1").is_some() {
        let parts = read_limits(words)?;
        words.end()?;
        return Some(parts);
    }
    words.word(Place::Version, b"2")?;
    let parts = read_limits(words)?;
    read_shutdown(parts, words)
}

/// Returns the entry that the next line spells, and the text after it. None if no line is ended, or if the line spells no entry.
pub fn next_entry(rest: &[u8]) -> Option<(Entry, &[u8])>
    ensures { IsNextEntry rest.now result }
{
    let (line, after) = cut_line(rest)?;
    let entry = read_entry(&mut Cursor::new(line))?;
    Some((entry, after))
}

/// Returns the entry that the words of a line spell.
pub fn read_entry(words: &mut Cursor<'_>) -> Option<Entry>
    ensures { HasEntry (words_left words.old.rest) result }
{
    let handle = words.number(Place::Handle)?;
    let serial = words.number(Place::Serial)?;
    let moment = words.number(Place::Moment)?;
    let verb = words.value(Place::Operation)?;
    let operation = words.operation(verb)?;
    let answer = read_answer(words)?;
    Some(Entry {
        handle,
        serial,
        moment,
        operation,
        answer,
    })
}

/// Returns the answer that the last words are.
fn read_answer(words: &mut Cursor<'_>) -> Option<Answer>
    ensures { HasAnswer (words_left words.old.rest) result }
{
    let answer = match words.value(Place::Answer)? {
        AnswerName::Running => Answer::Running,
        AnswerName::Ignore => Answer::Ignore,
        AnswerName::Failed => Answer::Failed(words.code()?),
    };
    words.end()?;
    Some(answer)
}
