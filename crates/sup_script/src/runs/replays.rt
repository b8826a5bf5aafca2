//! Whole history texts, and the replies to their entries.

ghost use Rattle.std.specs.Prelude.{◌≡◌, ◌≤◌, ◌<◌, ◌+◌, ◌++◌, [], ◌∷◌, ℕ, Bool, List, Option, length, Err, false, IfErr, OnOk, OnErr};
ghost use Rattle.sup_types.specs.declared.history.Entry.{Entry as AnEntry};
ghost use Rattle.sup_types.specs.declared.template.Template.{Template as ATemplate};
ghost use Rattle.sup_core.specs.Account.{IsAfter, reply_after};
ghost use Rattle.sup_format.specs.Causes.{HasCause, HasLineCause};
ghost use Rattle.sup_format.specs.Reading.HistoryReading.{IsReadTo};
ghost use Rattle.sup_script.specs.Running.Replays.{IsReplay, TextGives};
ghost use Rattle.sup_format.specs.Writing.Replies.{reply_text};

use std::alloc::Allocator;
use std::io::{Read, Write};
use sup_core::Sup;
use sup_format::{
    Fault, FaultyLine, Outbox, ScriptFault, WatchedReader, WatchedWriter, begin_history,
    check_entries, line_after, next_entry, read_whole, write_reply,
};
use sup_types::{Entry, OutOfMemory};

/// Reads a history text to its end, and then writes the reply of each entry, one a line, from an empty supervisor.
///
/// # Errors
/// After a fault of reading, which is in the line after the last ended one, or of the text, nothing is written. WriteFault is in
/// the line of the entry whose reply was being written. OutOfMemory is in the line of the entry whose reply had no room, and the
/// replies before it are written; in line 1 there was no room for the supervisor or for any reply.
pub fn replay<A: Allocator + Copy, R: Read, W: Write>(
    alloc: A,
    reader: &mut WatchedReader<R>,
    writer: &mut WatchedWriter<W>,
) -> Result<(), ScriptFault>
    requires calls { reader.old.calls ≡ 0 }
    requires none { reader.old.given ≡ 0 }
    requires unfailed { reader.old.has_failed ≡ false }
    requires unrefused { writer.old.has_refused ≡ false }
    ensures replay { IsReplay (R.remaining reader.old.reader) (R.remaining reader.new.reader)
        (W.contents writer.old.writer) (W.contents writer.new.writer) result }
    ensures reads { reader.new.calls ≤ 16777217 }
    ensures cause { IfErr result (λ e. HasCause reader.new.has_failed reader.new.given writer.new.has_refused e.fault) }
{
    let mut text = Vec::new(alloc);
    if let Err(fault) = read_whole(reader, &mut text) {
        return Err(fault.in_line(line_after(text.as_slice())));
    }
    let outcome = replay_text(alloc, text.as_slice(), writer);
    reader.note_line(faulty_line(text.as_slice(), outcome));
    outcome
}

/// Returns the line of a history text in which it stopped, and the empty line if it did not.
fn faulty_line(text: &[u8], outcome: Result<(), ScriptFault>) -> FaultyLine {
    let mut faulty = FaultyLine::default();
    if let Err(stop) = outcome {
        for (place, line) in text.split(|byte| *byte == b'\n').enumerate() {
            if place as u64 + 1 == stop.line {
                faulty.keep(line);
            }
        }
    }
    faulty
}

/// Writes the replies to the entries of a history text, once all of it was read.
fn replay_text<A: Allocator + Copy, W: Write>(
    alloc: A,
    text: &[u8],
    writer: &mut WatchedWriter<W>,
) -> Result<(), ScriptFault>
    requires { length text.now ≤ 16777216 }
    ensures given { TextGives text.now (W.contents writer.old.writer) (W.contents writer.new.writer) result }
    ensures cause { IfErr result (λ e. HasLineCause writer.new.has_refused e.fault) }
{
    let (template, rest) = begin_history(text)?;
    match Sup::new(alloc, template) {
        Ok(sup) => answer_by(alloc, sup, rest, writer),
        Err(OutOfMemory) => Err(refusal(rest)),
    }
}

/// Returns the fault of a history text for which there is no memory to begin with. One of the text itself goes first, so its rest
/// is read.
fn refusal(rest: &[u8]) -> ScriptFault
    requires { length rest.now ≤ 16777216 }
    ensures given { (text : List ℕ) (template : ATemplate) (contents : Option (List ℕ)) → IsReadTo text rest.now template [] 2 →
        TextGives text contents contents (Err result) }
    ensures cause { (has_refused : Bool) → HasLineCause has_refused result.fault }
{
    match check_entries(rest, 2) {
        Ok(()) => Fault::OutOfMemory.in_line(1),
        Err(fault) => fault,
    }
}

/// Writes the replies to the entries that the rest of a history text spells, from an empty supervisor.
fn answer_by<A: Allocator + Copy, W: Write>(
    alloc: A,
    mut sup: Sup<A>,
    rest: &[u8],
    writer: &mut WatchedWriter<W>,
) -> Result<(), ScriptFault>
    requires empty { IsAfter sup [] }
    requires room { length rest.now ≤ sup.template.entries }
    requires short { length rest.now ≤ 16777216 }
    ensures given { (text : List ℕ) → IsReadTo text rest.now sup.template [] 2 → TextGives text (W.contents writer.old.writer) (W.contents writer.new.writer) result }
    ensures cause { IfErr result (λ e. HasLineCause writer.new.has_refused e.fault) }
{
    let mut outbox = Outbox::new(alloc, writer);
    let outcome = match outbox.make_room() {
        Ok(()) => answer_from(&mut sup, &mut outbox, rest),
        Err(OutOfMemory) => Err(refusal(rest)),
    };
    outbox.into_writer();
    outcome
}

/// Answers the entries that the rest of a history text spells, from an empty supervisor, and writes the replies once all was read.
/// Nothing waits before.
fn answer_from<A: Allocator + Copy, W: Write>(
    sup: &mut Sup<A>,
    outbox: &mut Outbox<'_, A, W>,
    rest: &[u8],
) -> Result<(), ScriptFault>
    requires empty { IsAfter sup.old [] }
    requires room { length rest.now ≤ sup.old.template.entries }
    requires short { length rest.now ≤ 16777216 }
    requires bytes { outbox.old.bytes.items ≡ [] }
    requires ends { outbox.old.ends.items ≡ [] }
    ensures given { (text : List ℕ) → IsReadTo text rest.now sup.old.template [] 2 →
        TextGives text (W.contents outbox.old.writer.now.writer) (W.contents outbox.new.writer.now.writer) result }
    ensures cause { IfErr result (λ e. HasLineCause outbox.new.writer.now.has_refused e.fault) }
    ensures same { outbox.new.writer.ghost_name ≡ outbox.old.writer.ghost_name }
{
    let mut next = 2;
    let mut rest = rest;
    while !rest.is_empty() {
        let Some((entry, after)) = next_entry(rest) else {
            return Err(Fault::BadLine.in_line(next));
        };
        if let Err(OutOfMemory) = answer_entry(&entry, sup, outbox) {
            // A fault of the text goes first, so the rest is read before the replies are written.
            check_entries(after, next + 1)?;
            outbox.flush(next)?;
            return Err(Fault::OutOfMemory.in_line(next));
        }
        next += 1;
        rest = after;
    }
    outbox.flush(next)
}

/// Enters an entry, and adds its reply to those that wait. After a refusal they wait as before.
pub(crate) fn answer_entry<A: Allocator + Copy, W: Write>(
    entry: &Entry,
    sup: &mut Sup<A>,
    outbox: &mut Outbox<'_, A, W>,
) -> Result<(), OutOfMemory>
    requires { sup.old.steps < sup.old.template.entries }
    ensures reply { (history : List AnEntry) → IsAfter sup.old history →
        OnOk result (outbox.new.bytes.items ≡ outbox.old.bytes.items ++ reply_text (reply_after sup.old.template history entry.now)) }
    ensures after { (history : List AnEntry) → IsAfter sup.old history → IsAfter sup.new (history ++ entry.now ∷ []) }
    ensures ends { OnOk result (outbox.new.ends.items ≡ outbox.old.ends.items ++ length outbox.new.bytes.items ∷ []) }
    ensures template { sup.new.template ≡ sup.old.template }
    ensures steps { sup.new.steps ≡ sup.old.steps + 1 }
    ensures same_bytes { OnErr result (outbox.new.bytes.items ≡ outbox.old.bytes.items) }
    ensures same_ends { OnErr result (outbox.new.ends.items ≡ outbox.old.ends.items) }
    ensures writer { outbox.new.writer.now ≡ outbox.old.writer.now }
    ensures same { outbox.new.writer.ghost_name ≡ outbox.old.writer.ghost_name }
{
    let reply = sup.step(entry);
    // Room for the mark comes first, so that nothing has to be undone if it is refused.
    outbox.ends.reserve(1)?;
    write_reply(&reply, &mut outbox.bytes)?;
    outbox.ends.push(outbox.bytes.len()).unwrap();
    Ok(())
}
