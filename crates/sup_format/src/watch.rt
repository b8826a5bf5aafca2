//! A reader and a writer with what they refused, so that a contract can name the cause of a fault.
//!
//! The fields are private, so no function that is lent one can note a failure: only a read or a write that was refused does.

ghost use Rattle.std.specs.Prelude.{◌≡◌, ◌+◌, ◌<◌, ◌≤◌, ◌^◌, true, false, take, length, MatchOption, OnErr};
ghost use Rattle.std.specs.Io.KnownBytes.{Appends, Consumes, IsAtEnd, Keeps};
ghost use Rattle.sup_format.specs.Writing.Sent.{IsSent};

use crate::faulty::FaultyLine;
use std::io::{ErrorKind, Read, Write};

/// Notes whether a writer answered an error, or took nothing of bytes that were not empty.
#[derive(Debug, Drop)]
pub struct WatchedWriter<W> {
    writer: W,
    has_refused: bool,
    error: Option<ErrorKind>,
}

impl<W: Write> WatchedWriter<W> {
    /// Returns this writer, which has refused nothing.
    pub fn new(writer: W) -> WatchedWriter<W>
        ensures writer { result.writer ≡ writer }
        ensures unrefused { result.has_refused ≡ false }
    {
        WatchedWriter {
            writer,
            has_refused: false,
            error: None,
        }
    }

    /// Writes all of the bytes. The error is how many of them the writer took before it refused.
    pub fn send(&mut self, bytes: &[u8]) -> Result<(), usize>
        ensures sent { IsSent (W.contents self.old.writer) (W.contents self.new.writer) bytes.now result }
        ensures cause { OnErr result (self.new.has_refused ≡ true) }
    {
        let mut taken = 0;
        while taken < bytes.len() {
            match self.write(&bytes[taken..]) {
                Some(count) => taken += count,
                None => return Err(taken),
            }
        }
        Ok(())
    }

    /// Writes once. Returns how many bytes the writer took, at least one, or None if it refused.
    fn write(&mut self, bytes: &[u8]) -> Option<usize>
        requires { 0 < length bytes.now }
        ensures { MatchOption result
            ((self.new.has_refused ≡ true) × Keeps (W.contents self.old.writer) (W.contents self.new.writer))
            (λ n. (0 < n) × (n ≤ length bytes.now)
            × (self.new.has_refused ≡ self.old.has_refused)
            × Appends (W.contents self.old.writer) (W.contents self.new.writer) (take n bytes.now)) }
    {
        match self.writer.write(bytes) {
            Ok(0) => {
                self.has_refused = true;
                None
            }
            Err(error) => {
                self.has_refused = true;
                self.error = Some(error.kind());
                None
            }
            Ok(count) => Some(count),
        }
    }

    /// Returns whether the writer refused.
    pub fn has_refused(&self) -> bool
        ensures { result ≡ self.now.has_refused }
    {
        self.has_refused
    }

    /// Returns the kind of the last error that the writer answered.
    pub fn error(&self) -> Option<ErrorKind>
        ensures { result ≡ self.now.error }
    {
        self.error
    }

    /// Returns the writer.
    pub fn into_writer(self) -> W
        ensures { result ≡ self.writer }
    {
        self.writer
    }
}

/// Notes how often a reader was asked, how many bytes it gave, whether it answered an error, and which line of what it gave has a fault.
#[derive(Debug, Drop)]
pub struct WatchedReader<R> {
    reader: R,
    calls: u64,
    given: u64,
    has_failed: bool,
    error: Option<ErrorKind>,
    line: FaultyLine,
}

impl<R: Read> WatchedReader<R> {
    /// Returns this reader, which was asked nothing.
    pub fn new(reader: R) -> WatchedReader<R>
        ensures reader { result.reader ≡ reader }
        ensures calls { result.calls ≡ 0 }
        ensures none { result.given ≡ 0 }
        ensures unfailed { result.has_failed ≡ false }
    {
        WatchedReader {
            reader,
            calls: 0,
            given: 0,
            has_failed: false,
            error: None,
            line: FaultyLine::default(),
        }
    }

    /// Reads once. Returns how many bytes the reader gave, 0 only at its end, or None if it failed.
    pub fn read(&mut self, piece: &mut [u8]) -> Option<usize>
        requires calls { self.old.calls < 2 ^ 62 }
        requires given { self.old.given + length piece.old < 2 ^ 62 }
        requires room { 0 < length piece.old }
        ensures calls { self.new.calls ≡ self.old.calls + 1 }
        ensures bytes { MatchOption result
            ((self.new.has_failed ≡ true) × (self.new.given ≡ self.old.given)
            × Keeps (R.remaining self.old.reader) (R.remaining self.new.reader))
            (λ n. (n ≤ length piece.new)
            × (self.new.has_failed ≡ self.old.has_failed)
            × (self.new.given ≡ self.old.given + n)
            × Consumes (R.remaining self.old.reader) (R.remaining self.new.reader) (take n piece.new)
            × (n ≡ 0 → IsAtEnd (R.remaining self.new.reader))) }
    {
        self.calls += 1;
        let count = self.read_on(piece)?;
        self.given += count as u64;
        Some(count)
    }

    /// Reads once more of a stream of any length, and counts neither the call nor the bytes. Returns how many bytes the reader
    /// gave, 0 only at its end, or None if it failed.
    pub fn read_on(&mut self, piece: &mut [u8]) -> Option<usize>
        requires room { 0 < length piece.old }
        ensures calls { (self.new.calls ≡ self.old.calls) × (self.new.given ≡ self.old.given) }
        ensures bytes { MatchOption result
            ((self.new.has_failed ≡ true) × Keeps (R.remaining self.old.reader) (R.remaining self.new.reader))
            (λ n. (n ≤ length piece.new) × (length piece.new ≡ length piece.old)
            × (self.new.has_failed ≡ self.old.has_failed)
            × Consumes (R.remaining self.old.reader) (R.remaining self.new.reader) (take n piece.new)
            × (n ≡ 0 → IsAtEnd (R.remaining self.new.reader))) }
    {
        match self.reader.read(piece) {
            Ok(count) => Some(count),
            Err(error) => {
                self.has_failed = true;
                self.error = Some(error.kind());
                None
            }
        }
    }

    /// Returns whether the reader failed.
    pub fn has_failed(&self) -> bool
        ensures { result ≡ self.now.has_failed }
    {
        self.has_failed
    }

    /// Returns the kind of the last error that the reader answered.
    pub fn error(&self) -> Option<ErrorKind>
        ensures { result ≡ self.now.error }
    {
        self.error
    }

    /// Notes the line that has a fault.
    pub fn note_line(&mut self, line: FaultyLine)
        ensures reader { self.new.reader ≡ self.old.reader }
        ensures calls { (self.new.calls ≡ self.old.calls) × (self.new.given ≡ self.old.given) }
        ensures failed { self.new.has_failed ≡ self.old.has_failed }
    {
        self.line = line;
    }

    /// Returns the line that has a fault: the empty one, if none was noted.
    pub fn line(&self) -> &FaultyLine {
        &self.line
    }

    /// Returns the reader.
    pub fn into_reader(self) -> R
        ensures { result ≡ self.reader }
    {
        self.reader
    }

    /// Returns how many bytes the reader gave.
    pub fn given(&self) -> u64
        ensures { result ≡ self.now.given }
    {
        self.given
    }
}
