//! Reading a journal again, and continuing in a file that may hold a history already.

ghost use Rattle.std.specs.Prelude.{◌≡◌, ◌<◌, ℕ, List, [], length, Option, IfOk, IfErr, MatchResult};
ghost use Rattle.std.specs.Io.KnownBytes.{IsAtEnd};
ghost use Rattle.sup_types.specs.declared.template.Template.{Template as ATemplate};
ghost use Rattle.sup_format.specs.Reading.History.{Spells, SpellsAs};
ghost use Rattle.sup_format.specs.Reading.HistoryReading.{HistoryStops};
ghost use Rattle.sup_format.specs.Reading.Streams.{IsStreamed, IsUnread};
ghost use Rattle.sup_format.specs.Reading.Texts.{IsEndedPart};
ghost use Rattle.sup_format.specs.Writing.HistoryTexts.{header_line};
ghost use Rattle.sup_journal.specs.Openings.{EntersAll, IsCauseOf, IsContinued, StopsIn, WantsCut};

use crate::fault::{Cause, OpenFault};
use crate::file::{LockFile, open_file};
use crate::origin::Unknown;
use crate::synced::Synced;
use crate::text_journal::TextJournal;
use std::alloc::{Allocator, Global};
use std::fs::{Files, OpenFile, OpenOptions};
use std::io::{ErrorKind, Read, Write};
use std::sync::Wait;
use sup_desk::{Journal, Name, Recovery};
use sup_format::{
    EntryReader, Fault, History, HistoryFault, WatchedReader, append_header, ended_part,
    read_history,
};
use sup_types::{Template, Text};

/// Keeps a journal in a file, whose bytes are stored when it is flushed.
pub type FileJournal<F, A = Global> = TextJournal<Unknown, Synced<F>, A>;

/// Opens the file of a journal, or makes it, by [`open_file`], and continues it by [`continue_journal`], with the errors of both. The
/// journal keeps the lock until it is dropped.
pub fn open_journal<N: Name, W: Wait + Drop, R: Files, A: Allocator + Copy>(
    files: &R,
    alloc: A,
    path: &str,
    template: &Template,
    recovery: &mut Recovery<N, W>,
) -> Result<FileJournal<R::File, A>, OpenFault>
where
    R::File: LockFile,
    requires template { template.now ≡ N.template }
    requires fresh { recovery.old.history ≡ [] }
    ensures { IfOk result (λ journal. ⟦<TextJournal<Unknown, Synced<R::File>, A> as Journal>⟧.has journal template.now recovery.new.history []) }
{
    let file = open_file(files, alloc, path, OpenOptions::new().create(true))?;
    continue_journal(alloc, file, template, recovery)
}

/// Reads a file from its beginning, enters the entries of its whole lines in the recovery, and continues at its end. The file must
/// have been opened to read and to append, and nothing was read of it. A torn last line is cut off. An empty file, and one with only
/// a part of this template's first line, is cut to nothing and takes that line. This takes memory for a piece and the longest line.
///
/// # Errors
/// After each the whole lines of the file are as they were.
/// - `OtherTemplate`, `NoJournal`: the file begins otherwise than with this template's first line. `WrongLine`: a whole line is wrong.
/// - `Desk`: an entry was not entered. `File`: the file was not read. `Cut`: its torn last line was not cut.
/// - `OutOfMemory`, `Refused`: also of the first line of a file that begins anew, which then has a part of it, or nothing.
pub fn continue_journal<
    N: Name,
    W: Wait + Drop,
    F: Read + Write + OpenFile + Drop,
    A: Allocator + Copy,
>(
    alloc: A,
    file: Synced<F>,
    template: &Template,
    recovery: &mut Recovery<N, W>,
) -> Result<FileJournal<F, A>, OpenFault>
    requires template { template.now ≡ N.template }
    requires fresh { recovery.old.history ≡ [] }
    ensures has { IfOk result (λ journal. ⟦<TextJournal<Unknown, Synced<F>, A> as Journal>⟧.has journal template.now recovery.new.history []) }
    ensures entries { IsContinued (F.remaining file.file) template.now recovery.old.handles recovery.new.history result }
    ensures handles { recovery.new.handles ≡ recovery.old.handles }
{
    let mut first = Vec::new(alloc);
    if append_header(template, &mut first).is_err() {
        return Err(OpenFault::OutOfMemory);
    }
    let mut lines = EntryReader::new(alloc, WatchedReader::new(file));
    match lines.find_line() {
        Ok(true) => go_on(alloc, lines, first.as_slice(), template, recovery),
        Ok(false) => begin(alloc, lines, first.as_slice(), template),
        Err(fault) => Err(fault_of(&lines, fault)),
    }
}

/// Returns the fault of a file whose reading stopped.
fn fault_of<F: Read, A: Allocator>(lines: &EntryReader<F, A>, fault: Fault) -> OpenFault
    ensures { (text : List ℕ) (template : ATemplate) (handles : ℕ) → StopsIn text template lines.now.next lines.now.has_failed fault →
        IsCauseOf result text template handles }
{
    let line = lines.line();
    match fault {
        Fault::OutOfMemory => OpenFault::OutOfMemory,
        Fault::BadTemplate | Fault::BadLine => OpenFault::WrongLine(HistoryFault { fault, line }),
        _ => OpenFault::File(Cause::Other(lines.error().unwrap_or(ErrorKind::Other))),
    }
}

/// Begins a file anew that has no ended line.
fn begin<F: Read + Write + OpenFile + Drop, A: Allocator + Copy>(
    alloc: A,
    lines: EntryReader<Synced<F>, A>,
    first: &[u8],
    template: &Template,
) -> Result<FileJournal<F, A>, OpenFault>
    requires first { first.now ≡ header_line template.now }
    requires spelled { SpellsAs (header_line template.now) template.now [] }
    requires none { lines.ready ≡ [] }
    ensures has { IfOk result (λ journal. ⟦<TextJournal<Unknown, Synced<F>, A> as Journal>⟧.has journal template.now [] []) }
    ensures entries { (initial : Option (List ℕ)) (handles : ℕ) → IsUnread initial lines → IsAtEnd lines.left → IsContinued initial template.now handles [] result }
{
    if !first.starts_with(lines.torn()) {
        return Err(OpenFault::NoJournal);
    }
    let file = lines.into_reader().into_reader();
    cut(&file.file, 0)?;
    match TextJournal::new(alloc, file, template) {
        Ok(journal) => Ok(journal),
        Err(not_begun) => Err(not_begun.fault),
    }
}

/// Cuts the file to this length.
fn cut<F: OpenFile>(file: &F, length: u64) -> Result<(), OpenFault>
    ensures { (text : List ℕ) (template : ATemplate) (handles : ℕ) → WantsCut text template → IfErr result (λ fault. IsCauseOf fault text template handles) }
{
    match file.set_len(length) {
        Ok(()) => Ok(()),
        Err(error) => Err(OpenFault::Cut(Cause::from(error))),
    }
}

/// Enters the entries of a file of which a line is ended, and continues at its end.
fn go_on<N: Name, W: Wait + Drop, F: Read + Write + OpenFile + Drop, A: Allocator + Copy>(
    alloc: A,
    mut lines: EntryReader<Synced<F>, A>,
    first: &[u8],
    template: &Template,
    recovery: &mut Recovery<N, W>,
) -> Result<FileJournal<F, A>, OpenFault>
    requires template { template.now ≡ N.template }
    requires fresh { recovery.old.history ≡ [] }
    requires first { first.now ≡ header_line template.now }
    requires spelled { SpellsAs (header_line template.now) template.now [] }
    requires ready { 0 < length lines.ready }
    requires next { lines.next ≡ 1 }
    ensures has { (initial : Option (List ℕ)) → IsUnread initial lines →
        IfOk result (λ journal. ⟦<TextJournal<Unknown, Synced<F>, A> as Journal>⟧.has journal template.now recovery.new.history []) }
    ensures entries { (initial : Option (List ℕ)) → IsUnread initial lines → IsContinued initial template.now recovery.old.handles recovery.new.history result }
    ensures handles { recovery.new.handles ≡ recovery.old.handles }
{
    if !lines.ready().starts_with(first) {
        let Some((part, there, here)) = difference(lines.ready(), first) else {
            return Err(OpenFault::NoJournal);
        };
        return Err(OpenFault::OtherTemplate(part, there, here));
    }
    match lines.begin() {
        Ok(_read) => {
            enter_all(&mut lines, recovery)?;
            let torn = lines.torn().len() as u64;
            let whole = lines.taken().saturating_sub(torn);
            let file = lines.into_reader().into_reader();
            if torn > 0 {
                cut(&file.file, whole)?;
            }
            Ok(TextJournal::reopen(alloc, file))
        }
        Err(fault) => Err(fault_of(&lines, fault)),
    }
}

/// Returns the first part by which a text's first line differs from this one, there and here, if it has the parts of a journal's.
fn difference(text: &[u8], first: &[u8]) -> Option<(Text, Text, Text)> {
    let there = parts_of(text)?.split(|byte| *byte == b' ');
    let here = parts_of(first)?.split(|byte| *byte == b' ');
    let parts = "version restart kind intensity period max mark auto".split(' ');
    for (part, (there, here)) in parts.zip(there.zip(here)) {
        if there != here {
            let part = Text::new(part.as_bytes())?;
            return Some((part, Text::new(there)?, Text::new(here)?));
        }
    }
    None
}

/// Returns the parts of a text's first line, if the text begins as a history.
fn parts_of(text: &[u8]) -> Option<&[u8]> {
    let line = text.split(|byte| *byte == b'\n').next()?;
    line.strip_prefix(b"history ")
}

/// Enters the entries of the lines that are ended, as they are read.
fn enter_all<N: Name, W: Wait + Drop, F: Read, A: Allocator>(
    lines: &mut EntryReader<F, A>,
    recovery: &mut Recovery<N, W>,
) -> Result<(), OpenFault>
    requires { recovery.old.history ≡ [] }
    ensures entered { (initial : Option (List ℕ)) (read : ATemplate) → IsStreamed initial lines.old (header_line N.template) read [] →
        EntersAll initial N.template recovery.old.handles lines.new read recovery.new.history result }
    ensures handles { recovery.new.handles ≡ recovery.old.handles }
{
    loop {
        match lines.next() {
            Ok(Some(entry)) => recovery.enter(entry)?,
            Ok(None) => return Ok(()),
            Err(fault) => return Err(fault_of(lines, fault)),
        }
    }
}

/// Reads the history that the whole lines of a journal spell. The error is the first fault by line, as with `read_history`.
pub fn read_journal<A: Allocator + Copy>(alloc: A, text: &[u8]) -> Result<History<A>, HistoryFault>
    ensures { (whole : List ℕ) × IsEndedPart text.now whole
        × MatchResult result (λ history. Spells whole history.template history.entries.items) (λ e. HistoryStops whole e.line e.fault) }
{
    read_history(alloc, ended_part(text))
}
