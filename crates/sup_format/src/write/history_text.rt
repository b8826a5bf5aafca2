//! Writing history texts.

ghost use Rattle.std.specs.Prelude.{◌≡◌, ◌++◌, ◌∷◌, [], ◌<◌, ◌^◌, OnOk, OnErr, IfOk};
ghost use Rattle.std.specs.Fmt.{decimal};
ghost use Rattle.sup_format.specs.Reading.History.{answer_words, IsAnswer, IsEntry, SpellsAs};
ghost use Rattle.sup_format.specs.Writing.HistoryTexts.{header_line, entry_line, SpellsOneMore};
ghost use Rattle.sup_format.specs.Writing.Replies.{line_of, field_word, spaced, Grows};
ghost use Rattle.sup_format.specs.Reading.Tokens.{reason_word, verb_word, operation_verb, argument_words, IsReason, IsOperation};

use crate::spelled::{AnswerName, NORMAL, SHUTDOWN, Verb};
use crate::write::reply::Field::{Number, Word};
use crate::write::reply::{Field, append_line, append_spaced};
use std::alloc::{AllocError, Allocator};
use sup_types::{Answer, Entry, Operation, OutOfMemory, Reason, Template};

/// Writes the history text of a template and entries, always in version 2. The template's `entries` is not in it, and is read as
/// 2^62. OutOfMemory leaves nothing.
pub fn write_history<A: Allocator + Copy>(
    alloc: A,
    template: &Template,
    entries: &[Entry],
) -> Result<Vec<u8, A>, OutOfMemory>
    ensures { IfOk result (λ bytes. SpellsAs bytes.items template.now entries.now) }
{
    let mut text = Vec::new(alloc);
    append_header(template, &mut text)?;
    for entry in entries {
        append_entry(entry, &mut text)?;
    }
    Ok(text)
}

/// Appends the first line of a history text of this template, in version 2. By itself it is the text of the template with
/// no entry. After a refusal there may be a part of it.
pub fn append_header<A: Allocator>(
    template: &Template,
    text: &mut Vec<u8, A>,
) -> Result<(), AllocError>
    ensures text { OnOk result (text.new.items ≡ text.old.items ++ header_line template.now) }
    ensures spelled { SpellsAs (header_line template.now) template.now [] }
{
    append_line(
        text,
        &[
            Word(b"history"),
            Word(b"2"),
            Field::spelled(template.restart),
            Field::spelled(template.kind),
            Number(template.intensity),
            Number(template.period),
            Number(template.max),
            Field::spelled(template.significant),
            Field::spelled(template.auto_shutdown),
        ],
    )
}

/// Appends the line of an entry: a history text with it is the text of that history and this entry. After a refusal there may be a
/// part of it.
pub fn append_entry<A: Allocator>(entry: &Entry, text: &mut Vec<u8, A>) -> Result<(), AllocError>
    ensures text { OnOk result (text.new.items ≡ text.old.items ++ entry_line entry.now) }
    ensures fits { OnOk result (IsEntry entry.now) }
    ensures spelled { OnOk result (SpellsOneMore (entry_line entry.now) entry.now) }
    ensures err { OnErr result (Grows text.old.items text.new.items) }
{
    append_numbers(entry.handle, entry.serial, entry.moment, text)?;
    append_operation(&entry.operation, text)?;
    append_answer(entry.answer, text)?;
    Ok(())
}

/// Appends the numbers with which an entry begins, each followed by a space.
fn append_numbers<A: Allocator>(
    handle: u64,
    serial: u64,
    moment: u64,
    text: &mut Vec<u8, A>,
) -> Result<(), AllocError>
    ensures text { OnOk result (text.new.items ≡ text.old.items ++ spaced (decimal handle ∷ decimal serial ∷ decimal moment ∷ [])) }
    ensures fits { (handle < 2 ^ 64) × (serial < 2 ^ 64) × (moment < 2 ^ 64) }
    ensures err { OnErr result (Grows text.old.items text.new.items) }
{
    append_spaced(text, &[Number(handle), Number(serial), Number(moment)])
}

/// Appends the name of an operation and its arguments, each followed by a space.
fn append_operation<A: Allocator>(
    operation: &Operation,
    text: &mut Vec<u8, A>,
) -> Result<(), AllocError>
    ensures text { OnOk result (text.new.items ≡ text.old.items ++ spaced (verb_word (operation_verb operation.now) ∷ argument_words operation.now)) }
    ensures fits { IsOperation operation.now }
    ensures err { OnErr result (Grows text.old.items text.new.items) }
{
    match operation {
        Operation::Start(argument) => {
            append_spaced(text, &[Field::spelled(Verb::Start), Word(argument.bytes())])
        }
        Operation::Exit(number, reason) => {
            let reason = reason_field(reason);
            append_spaced(text, &[Field::spelled(Verb::Exit), Number(*number), reason])
        }
        Operation::Retry(number) => {
            append_spaced(text, &[Field::spelled(Verb::Retry), Number(*number)])
        }
        Operation::Terminate(number) => {
            append_spaced(text, &[Field::spelled(Verb::Terminate), Number(*number)])
        }
        Operation::Stop => append_spaced(text, &[Field::spelled(Verb::Stop)]),
    }
}

/// Returns the word of a reason.
fn reason_field(reason: &Reason) -> Field<'_>
    ensures word { field_word result ≡ reason_word reason.now }
    ensures fits { IsReason reason.now }
{
    match reason {
        Reason::Normal => Word(NORMAL.as_bytes()),
        Reason::Shutdown => Word(SHUTDOWN.as_bytes()),
        Reason::ShutdownWith(term) => Field::Term(term.bytes()),
        Reason::Other(word) => Word(word.bytes()),
    }
}

/// Appends the words of an answer, which end a line.
fn append_answer<A: Allocator>(answer: Answer, text: &mut Vec<u8, A>) -> Result<(), AllocError>
    ensures text { OnOk result (text.new.items ≡ text.old.items ++ line_of (answer_words answer)) }
    ensures fits { IsAnswer answer }
    ensures err { OnErr result (Grows text.old.items text.new.items) }
{
    match answer {
        Answer::Running => append_line(text, &[Field::spelled(AnswerName::Running)]),
        Answer::Ignore => append_line(text, &[Field::spelled(AnswerName::Ignore)]),
        Answer::Failed(code) => {
            let code = Number(u64::from(code));
            append_line(text, &[Field::spelled(AnswerName::Failed), code])
        }
    }
}
