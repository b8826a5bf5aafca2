//! A journal that writes the text of a history.

ghost use Rattle.std.specs.Prelude.{◌≡◌, List, [], None, IfOk, IfErr};
ghost use Rattle.std.specs.Io.KnownBytes.{Keeps};
ghost use Rattle.sup_journal.specs.Begun.{Leaves, LeavesText};
ghost use Rattle.sup_journal.specs.Records.{HasText};
ghost use Rattle.sup_types.specs.declared.template.Template.{Template};
ghost use Rattle.sup_types.specs.declared.history.Entry.{Entry};

use crate::fault::{NotBegun, OpenFault};
use crate::flushing::Flush;
use crate::origin::Origin;
use crate::send::{put, send};
use std::alloc::Allocator;
use std::io::Write;
use std::marker::PhantomData;
use sup_desk::{Journal, JournalFault};
use sup_format::{append_entry, append_header, write_history};
use sup_types::{Entry, OutOfMemory, Template};

/// Writes the text of a history, in version 2, to its writer: after what that held, which the origin says. It writes each batch as it
/// is recorded. It never flushes its writer unless [`TextJournal::with_flush`] says when. The first error ends it.
#[derive(Drop)]
pub struct TextJournal<O, W, A: Allocator> {
    writer: W,
    text: Vec<u8, A>,
    ready: usize,
    flush: Flush,
    end: Option<JournalFault>,
    origin: PhantomData<O>,
}

impl<O: Origin, W: Write, A: Allocator> TextJournal<O, W, A> {
    /// Makes a journal of a supervisor of this template with an empty history: the writer takes the first line. After a refusal the
    /// writer comes back: it took nothing if memory was refused, and else a part of the first line.
    pub fn new(
        alloc: A,
        mut writer: W,
        template: &Template,
    ) -> Result<TextJournal<O, W, A>, NotBegun<W>>
        requires { Keeps O.held (W.contents writer) }
        ensures ok { IfOk result (λ journal. ⟦<TextJournal<O, W, A> as Journal>⟧.has journal template.now [] []) }
        ensures err { IfErr result (λ e. Leaves e.fault (W.contents writer) (W.contents e.writer) template.now) }
    {
        let mut text = Vec::new(alloc);
        if append_header(template, &mut text).is_err() {
            let fault = OpenFault::OutOfMemory;
            return Err(NotBegun { fault, writer });
        }
        if let Err(end) = send(&mut writer, text.as_slice()) {
            let fault = OpenFault::Refused(end);
            return Err(NotBegun { fault, writer });
        }
        text.clear();
        Ok(TextJournal {
            writer,
            text,
            ready: 0,
            flush: Flush::Never,
            end: None,
            origin: PhantomData,
        })
    }

    /// Makes a journal that continues a recorded history: the writer takes the text of that history. After a refusal the writer
    /// comes back: it took nothing if memory was refused, and else a part of that text.
    pub fn resume(
        alloc: A,
        mut writer: W,
        template: &Template,
        entries: &[Entry],
    ) -> Result<TextJournal<O, W, A>, NotBegun<W>>
    where
        A: Copy,
        requires { Keeps O.held (W.contents writer) }
        ensures ok { IfOk result (λ journal. ⟦<TextJournal<O, W, A> as Journal>⟧.has journal template.now entries.now []) }
        ensures err { IfErr result (λ e. LeavesText e.fault (W.contents writer) (W.contents e.writer) template.now entries.now) }
    {
        let Ok(before) = write_history(alloc, template, entries) else {
            let fault = OpenFault::OutOfMemory;
            return Err(NotBegun { fault, writer });
        };
        if let Err(end) = send(&mut writer, before.as_slice()) {
            let fault = OpenFault::Refused(end);
            return Err(NotBegun { fault, writer });
        }
        Ok(TextJournal::reopen(alloc, writer))
    }

    /// Makes a journal that continues in a writer which holds the text of a history: that is what it has recorded. The writer must
    /// take what is written at its end. Nothing is written, and no memory is taken.
    pub fn reopen(alloc: A, writer: W) -> TextJournal<O, W, A>
        ensures has { (template : Template) (entries : List Entry) → HasText O.held (W.contents writer) template entries
            → ⟦<TextJournal<O, W, A> as Journal>⟧.has result template entries [] }
        ensures writer { result.writer ≡ writer }
    {
        TextJournal {
            writer,
            text: Vec::new(alloc),
            ready: 0,
            flush: Flush::Never,
            end: None,
            origin: PhantomData,
        }
    }

    /// Returns the same journal, which flushes its writer after these records from now on. A new one never does.
    pub fn with_flush(mut self, flush: Flush) -> TextJournal<O, W, A>
        ensures has { (template : Template) (recorded ready : List Entry) → ⟦<TextJournal<O, W, A> as Journal>⟧.has self template recorded ready
            → ⟦<TextJournal<O, W, A> as Journal>⟧.has result template recorded ready }
        ensures torn { (template : Template) (recorded ready : List Entry) → ⟦<TextJournal<O, W, A> as Journal>⟧.is_torn self template recorded ready
            → ⟦<TextJournal<O, W, A> as Journal>⟧.is_torn result template recorded ready }
        ensures flush { result ≡ record self { flush = flush } }
    {
        self.flush = flush;
        self
    }

    /// Returns the writer. What is ready and not recorded is dropped.
    pub fn into_writer(self) -> W
        ensures { result ≡ self.writer }
    {
        self.writer
    }
}

impl<O: Origin, W: Write, A: Allocator> Journal for TextJournal<O, W, A> {
    ghost use Rattle.std.specs.Prelude.{◌≡◌, None, IsSome};
    ghost use Rattle.sup_journal.specs.Records.{IsRecorded, IsCut};

    ghost has = { λ journal template recorded ready. (journal.end ≡ None)
        × IsRecorded O.held (W.contents journal.writer) journal.text.items template recorded ready };

    ghost is_torn = { λ journal template recorded ready. IsSome journal.end
        × IsCut O.held (W.contents journal.writer) journal.end template recorded ready };

    ghost may_fail = { λ _. Unit {0} };

    fn prepare(&mut self, entry: &Entry) -> Result<(), OutOfMemory> {
        if self.end.is_some() {
            return Ok(());
        }
        let start = self.text.len();
        if append_entry(entry, &mut self.text).is_err() {
            self.text.truncate(start);
            return Err(OutOfMemory);
        }
        self.ready = self.ready.saturating_add(1);
        Ok(())
    }

    fn record(&mut self) -> Result<(), JournalFault> {
        if let Some(end) = self.end {
            return Err(end);
        }
        let flushes = self.flush.is_due(self.ready);
        match put(&mut self.writer, self.text.as_slice(), flushes) {
            Ok(()) => {
                self.text.clear();
                self.ready = 0;
                Ok(())
            }
            Err(end) => {
                self.end = Some(end);
                Err(end)
            }
        }
    }
}
