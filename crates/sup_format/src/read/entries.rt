//! History texts of any length, read from a stream entry by entry.

ghost use Rattle.std.specs.Prelude.{◌≡◌, ◌+◌, ◌<◌, ◌≤◌, ◌^◌, ◌++◌, ℕ, List, [], length, Option, vec_capacity, IfErr, IfOk, IfSome, OnErr, OnOk};
ghost use Rattle.sup_types.specs.declared.template.Template.{Template as ATemplate};
ghost use Rattle.sup_types.specs.declared.history.Entry.{Entry as AnEntry};
ghost use Rattle.sup_format.specs.Reading.HistoryReading.{HistoryStops};
ghost use Rattle.sup_format.specs.Reading.Streams.{Continues, Finds, IsFed, IsStreamed, IsUnread};
ghost use Rattle.sup_format.specs.Reading.Texts.{IsFull};
ghost use Rattle.sup_format.specs.Reading.Words.{Lacks};

use crate::fault::Fault;
use crate::read::history::{begin_history, next_entry};
use crate::read::input::PIECE;
use crate::read::lines::ended_part;
use crate::watch::WatchedReader;
use std::alloc::Allocator;
use std::io::{ErrorKind, Read};
use std::marker::Model;
use sup_types::{Entry, Template};

/// Bounds the bytes of a stream: 2^62.
const MOST_BYTES: u64 = 1 << 62;

/// Reads a history text piece by piece, and gives its entries one after the other. It takes memory for a piece and for the longest
/// line, and none that grows with the history.
#[derive(Drop)]
pub struct EntryReader<R: Read, A: Allocator> {
    reader: WatchedReader<R>,
    /// Ended lines. Those before `at` were given.
    lines: Vec<u8, A>,
    at: usize,
    /// The part of a line that came after them.
    torn: Vec<u8, A>,
    next: u64,
    taken: u64,
}

impl<R: Read, A: Allocator> Model for EntryReader<R, A> {
    ghost use Rattle.std.specs.Prelude.{◌≡◌, ◌+◌, ◌≤◌, ◌^◌, length, drop};
    ghost use Rattle.sup_format.specs.Reading.Streams.{Stream};
    ghost use Rattle.sup_format.specs.Reading.Texts.{IsFull};
    ghost use Rattle.sup_format.specs.Reading.Words.{Lacks};

    ghost Value = { Stream };

    ghost view = { λ r. record {
      left = R.remaining r.reader.reader;
      ready = drop r.at r.lines.items;
      torn = r.torn.items;
      next = r.next;
      taken = r.taken;
      has_failed = r.reader.has_failed;
    } };

    ghost invariant = { λ r. (r.at ≤ length r.lines.items) × IsFull (drop r.at r.lines.items) × Lacks 10 r.torn.items
        × (r.next + length (drop r.at r.lines.items) + length r.torn.items ≤ r.taken + 1) × (r.taken ≤ 2 ^ 62) };
}

impl<R: Read, A: Allocator> EntryReader<R, A> {
    /// Returns a reader of which nothing was read.
    pub fn new(alloc: A, reader: WatchedReader<R>) -> EntryReader<R, A>
    where
        A: Copy,
        ensures { result ≡ record { left = R.remaining reader.reader; ready = []; torn = []; next = 1; taken = 0; has_failed = reader.has_failed } }
    {
        EntryReader {
            reader,
            lines: Vec::new(alloc),
            at: 0,
            torn: Vec::new(alloc),
            next: 1,
            taken: 0,
        }
    }

    /// Returns the lines that were read and not yet given: all of them are ended.
    pub fn ready(&self) -> &[u8]
        ensures { result.now ≡ self.now.ready }
    {
        &self.lines[self.at..]
    }

    /// Returns the part of a line that was read after the lines that are ended.
    pub fn torn(&self) -> &[u8]
        ensures { result.now ≡ self.now.torn }
    {
        self.torn.as_slice()
    }

    /// Returns the number of the next line, from 1 on.
    pub fn line(&self) -> u64
        ensures line { result ≡ self.now.next }
        ensures few { self.now.next + length self.now.ready + length self.now.torn ≤ self.now.taken + 1 }
    {
        self.next
    }

    /// Returns the kind of the last error that the stream answered.
    pub fn error(&self) -> Option<ErrorKind> {
        self.reader.error()
    }

    /// Returns how many bytes were read.
    pub fn taken(&self) -> u64
        ensures { result ≡ self.now.taken }
    {
        self.taken
    }

    /// Returns the stream.
    pub fn into_reader(self) -> WatchedReader<R>
        ensures left { R.remaining result.reader ≡ self.left }
        ensures failed { result.has_failed ≡ self.has_failed }
    {
        let EntryReader { reader, .. } = self;
        reader
    }

    /// Reads until a line is ready, if none is. Returns false at the end of the stream.
    ///
    /// # Errors
    /// OutOfMemory, ReadFault, and TooLong if 2^62 bytes came. What was read before is kept.
    pub fn find_line(&mut self) -> Result<bool, Fault>
        ensures unread { (initial : Option (List ℕ)) → IsUnread initial self.old → IsUnread initial self.new }
        ensures streamed { (initial : Option (List ℕ)) (first : List ℕ) (template : ATemplate) (entries : List AnEntry) → IsStreamed initial self.old first template entries →
            IsStreamed initial self.new first template entries }
        ensures found { Finds self.new result }
        ensures line { self.new.next ≡ self.old.next }
    {
        while self.at == self.lines.len() {
            if !self.read_piece()? {
                return Ok(false);
            }
        }
        Ok(true)
    }

    /// Reads once. Returns false at the end of the stream.
    fn read_piece(&mut self) -> Result<bool, Fault>
        requires { self.old.ready ≡ [] }
        ensures { IsFed self.old self.new result }
    {
        if self.taken > MOST_BYTES - PIECE as u64 {
            return Err(Fault::TooLong);
        }
        // Space comes first, so that no byte is lost if it is refused.
        self.lines.clear();
        self.at = 0;
        self.lines.reserve(self.torn.len() + PIECE)?;
        self.torn.reserve(PIECE)?;
        let mut piece = [0u8; PIECE];
        let Some(count) = self.reader.read_on(&mut piece) else {
            return Err(Fault::ReadFault);
        };
        join(&mut self.lines, &mut self.torn, &piece[..count]);
        self.taken += count as u64;
        Ok(count > 0)
    }

    /// Returns the template of the first line, which is ready and then given.
    ///
    /// # Errors
    /// BadTemplate and BadLine. Nothing is given then.
    pub fn begin(&mut self) -> Result<Template, Fault>
        requires ready { 0 < length self.old.ready }
        requires first { self.old.next ≡ 1 }
        ensures streamed { IfOk result (λ template. (initial : Option (List ℕ)) (first body : List ℕ) → IsUnread initial self.old → self.old.ready ≡ first ++ body →
            IsStreamed initial self.new first template []) }
        ensures stops { IfErr result (λ fault. HistoryStops self.old.ready 1 fault) }
        ensures err { OnErr result (self.new ≡ self.old) }
        ensures entries { IfOk result (λ template. template.entries ≡ 2 ^ 62) }
        ensures next { OnOk result (self.new.next ≡ 2) }
    {
        match begin_history(self.ready()) {
            Ok((template, after)) => {
                let left = after.len();
                self.at = self.lines.len() - left;
                self.next = 2;
                Ok(template)
            }
            Err(wrong) => Err(wrong.fault),
        }
    }

    /// Returns the entry of the next line, or None if the stream has no further whole line.
    ///
    /// # Errors
    /// BadLine if the line spells no entry, and those of [`EntryReader::find_line`].
    pub fn next(&mut self) -> Result<Option<Entry>, Fault>
        ensures read { (initial : Option (List ℕ)) (first : List ℕ) (template : ATemplate) (entries : List AnEntry) → IsStreamed initial self.old first template entries →
            Continues initial self.new first template entries result }
        ensures line { IfOk result (λ found. IfSome found (λ _. self.new.next ≡ self.old.next + 1)) }
        ensures few { IfOk result (λ found. IfSome found (λ _. self.new.next ≤ 2 ^ 62 + 1)) }
    {
        if !self.find_line()? {
            return Ok(None);
        }
        match next_entry(self.ready()) {
            Some((entry, after)) => {
                let left = after.len();
                self.at = self.lines.len() - left;
                self.next += 1;
                Ok(Some(entry))
            }
            None => Err(Fault::BadLine),
        }
    }
}

/// Puts a piece after the torn part of a line. The lines that it ends become ready, and what is after them is torn.
fn join<A: Allocator>(lines: &mut Vec<u8, A>, torn: &mut Vec<u8, A>, piece: &[u8])
    requires none { lines.old.items ≡ [] }
    requires lines { length torn.old.items + length piece.now ≤ vec_capacity lines.old }
    requires torn { length torn.old.items + length piece.now ≤ vec_capacity torn.old }
    ensures parts { torn.old.items ++ piece.now ≡ lines.new.items ++ torn.new.items }
    ensures full { IsFull lines.new.items }
    ensures none { length piece.now ≡ 0 → lines.new.items ≡ [] }
    ensures lacks { Lacks 10 torn.old.items → Lacks 10 torn.new.items }
{
    let ended = ended_part(piece);
    if ended.is_empty() {
        torn.extend_from_slice(piece).unwrap();
        return;
    }
    lines.extend_from_slice(torn.as_slice()).unwrap();
    lines.extend_from_slice(ended).unwrap();
    torn.clear();
    torn.extend_from_slice(&piece[ended.len()..]).unwrap();
}
