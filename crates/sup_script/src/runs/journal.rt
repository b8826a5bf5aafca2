//! Journals: history texts of any length, answered as they are read.

ghost use Rattle.std.specs.Prelude.{◌≡◌, ◌<◌, ◌^◌, ◌++◌, [], ℕ, List, Option, length, OnOk};
ghost use Rattle.sup_types.specs.declared.history.Entry.{Entry as AnEntry};
ghost use Rattle.sup_core.specs.Account.{IsAfter};
ghost use Rattle.sup_core.specs.Queries.{count};
ghost use Rattle.sup_format.specs.Reading.Streams.{IsStreamed, IsUnread};
ghost use Rattle.sup_script.specs.Running.Journals.{EndsAnswering, EndsTelling, IsJournal, IsStop, last_text};

use crate::runs::replays::answer_entry;
use std::alloc::{AllocError, Allocator};
use std::io::{Read, Write};
use sup_core::Sup;
use sup_format::{EntryReader, Fault, Outbox, ScriptFault, WatchedWriter, append_counts};
use sup_types::OutOfMemory;

/// Answers a journal, a history text of any length whose last line may be torn, while it is read: writes the reply of each entry, and
/// then a line that says how many entries there were, how many bytes of a torn last line were left out, and what `count` answers after
/// them. `lines` must not have given a line yet. Takes memory for the rows, for a piece and for the longest line.
///
/// # Errors
/// The replies to the lines before the fault's are written, and nothing of its own, except at WriteFault, whose line is that of the
/// reply that is torn. The last line counts as the line after all others. OutOfMemory in line 1: there is no room for the supervisor.
pub fn replay_journal<A: Allocator + Copy, R: Read, W: Write>(
    alloc: A,
    lines: &mut EntryReader<R, A>,
    writer: &mut WatchedWriter<W>,
) -> Result<(), ScriptFault>
    requires { lines.old.next ≡ 1 }
    ensures journal { (initial : Option (List ℕ)) → IsUnread initial lines.old →
        IsJournal initial lines.new (W.contents writer.old.writer) (W.contents writer.new.writer) writer.new.has_refused result }
{
    match lines.find_line() {
        Ok(true) => {}
        Ok(false) => return Err(Fault::BadLine.in_line(1)),
        Err(fault) => return Err(fault.in_line(1)),
    }
    let template = match lines.begin() {
        Ok(template) => template,
        Err(fault) => return Err(fault.in_line(1)),
    };
    match Sup::new(alloc, template) {
        Ok(sup) => answer_by(alloc, sup, lines, writer),
        Err(OutOfMemory) => Err(Fault::OutOfMemory.in_line(1)),
    }
}

/// Replays the entries after the header into a new supervisor, and writes the last line.
fn answer_by<A: Allocator + Copy, R: Read, W: Write>(
    alloc: A,
    mut sup: Sup<A>,
    lines: &mut EntryReader<R, A>,
    writer: &mut WatchedWriter<W>,
) -> Result<(), ScriptFault>
    requires empty { IsAfter sup [] }
    requires room { sup.template.entries ≡ 2 ^ 62 }
    requires next { lines.old.next ≡ 2 }
    ensures journal { (initial : Option (List ℕ)) → IsStreamed initial lines.old [] sup.template [] →
        IsJournal initial lines.new (W.contents writer.old.writer) (W.contents writer.new.writer) writer.new.has_refused result }
{
    let mut outbox = Outbox::new(alloc, writer);
    let outcome = answer_all(&mut sup, lines, &mut outbox);
    let writer = outbox.into_writer();
    outcome?;
    tell(alloc, &sup, lines, writer)
}

/// Answers the entries of the lines that are ended, as they are read. Nothing waits before.
fn answer_all<A: Allocator + Copy, R: Read, W: Write>(
    sup: &mut Sup<A>,
    lines: &mut EntryReader<R, A>,
    outbox: &mut Outbox<'_, A, W>,
) -> Result<(), ScriptFault>
    requires empty { IsAfter sup.old [] }
    requires room { sup.old.template.entries ≡ 2 ^ 62 }
    requires next { lines.old.next ≡ 2 }
    requires bytes { outbox.old.bytes.items ≡ [] }
    requires ends { outbox.old.ends.items ≡ [] }
    ensures answered { (initial : Option (List ℕ)) → IsStreamed initial lines.old [] sup.old.template [] →
        EndsAnswering initial lines.new sup.old.template sup.new (W.contents outbox.old.writer.now.writer)
        (W.contents outbox.new.writer.now.writer) outbox.new.writer.now.has_refused result }
    ensures same { outbox.new.writer.ghost_name ≡ outbox.old.writer.ghost_name }
{
    loop {
        let line = lines.line();
        outbox.flush_if_full(line)?;
        match lines.next() {
            Ok(Some(entry)) => {
                if let Err(OutOfMemory) = answer_entry(&entry, sup, outbox) {
                    return Err(stop(outbox, line, Fault::OutOfMemory));
                }
            }
            Ok(None) => return outbox.flush(line),
            Err(fault) => return Err(stop(outbox, line, fault)),
        }
    }
}

/// Writes all that waits, and returns this fault in this line, the one after the lines that were answered; or that of the writing.
fn stop<A: Allocator + Copy, W: Write>(
    outbox: &mut Outbox<'_, A, W>,
    line: u64,
    fault: Fault,
) -> ScriptFault
    requires { length outbox.old.ends.items < line }
    ensures stopped { IsStop outbox.old.bytes.items outbox.old.ends.items (W.contents outbox.old.writer.now.writer)
        (W.contents outbox.new.writer.now.writer) outbox.new.writer.now.has_refused line fault result }
    ensures same { outbox.new.writer.ghost_name ≡ outbox.old.writer.ghost_name }
{
    match outbox.flush(line) {
        Ok(()) => fault.in_line(line),
        Err(torn) => torn,
    }
}

/// Writes the last line, which counts as the line after all others.
fn tell<A: Allocator + Copy, R: Read, W: Write>(
    alloc: A,
    sup: &Sup<A>,
    lines: &EntryReader<R, A>,
    writer: &mut WatchedWriter<W>,
) -> Result<(), ScriptFault>
    ensures { (history : List AnEntry) → IsAfter sup.now history →
        EndsTelling (last_text (length history) (length lines.now.torn) (count sup.now.template history)) lines.now.next
        (W.contents writer.old.writer) (W.contents writer.new.writer) writer.new.has_refused result }
{
    let mut text = Vec::new(alloc);
    let Ok(()) = append_last(alloc, sup, lines.torn().len() as u64, &mut text) else {
        return Err(Fault::OutOfMemory.in_line(lines.line()));
    };
    match writer.send(text.as_slice()) {
        Ok(()) => Ok(()),
        Err(_) => Err(Fault::WriteFault.in_line(lines.line())),
    }
}

/// Appends the last line: the entries, the bytes that were left out, and the counts. After a refusal there may be a part of it.
fn append_last<A: Allocator + Copy>(
    alloc: A,
    sup: &Sup<A>,
    torn: u64,
    out: &mut Vec<u8, A>,
) -> Result<(), AllocError>
    ensures { (history : List AnEntry) → IsAfter sup.now history →
        OnOk result (out.new.items ≡ out.old.items ++ last_text (length history) torn (count sup.now.template history)) }
{
    let entries = sup.stamp();
    let front = format!(in alloc; "entries {entries} torn {torn} ")?;
    out.extend_from_slice(front.as_bytes())?;
    append_counts(&sup.counts(), out)
}
