//! Replies that wait for their writer.

ghost use Rattle.std.specs.Prelude.{◌≡◌, ◌<◌, ◌+◌, [], length, IfErr, OnOk};
ghost use Rattle.sup_format.specs.Causes.{HasLineCause};
ghost use Rattle.sup_format.specs.Writing.Waiting.{IsCutAt, IsFlushed, IsFlushedOrKept};

use crate::fault::{Fault, ScriptFault};
use crate::watch::WatchedWriter;
use std::alloc::Allocator;
use std::io::Write;
use sup_types::OutOfMemory;

/// Says at how many bytes an outbox is full.
const FULL: usize = 65_536;

/// Exceeds the bytes of the replies to a usual piece of a script.
const USUAL_BYTES: usize = 32_768;

/// Exceeds the number of the replies to a usual piece of a script.
const USUAL_REPLIES: usize = 2_048;

/// Holds the text of replies, the place at which each line's reply ends, and the writer that they wait for.
#[derive(Drop)]
pub struct Outbox<'w, A: Allocator, W> {
    pub bytes: Vec<u8, A>,
    pub ends: Vec<usize, A>,
    pub writer: &'w mut WatchedWriter<W>,
}

impl<'w, A: Allocator + Copy, W: Write> Outbox<'w, A, W> {
    /// Returns an outbox in which nothing waits, without room.
    pub fn new(alloc: A, writer: &'w mut WatchedWriter<W>) -> Self
        ensures bytes { result.bytes.items ≡ [] }
        ensures ends { result.ends.items ≡ [] }
        ensures writer { result.writer.now ≡ writer.old }
        ensures same { result.writer.ghost_name ≡ writer.entry.ghost_name }
    {
        Outbox {
            bytes: Vec::new(alloc),
            ends: Vec::new(alloc),
            writer,
        }
    }

    /// Makes room for the replies to a usual piece of a script, so that they do not move while they gather. Memory is taken and
    /// not touched.
    pub fn make_room(&mut self) -> Result<(), OutOfMemory>
        ensures bytes { self.new.bytes.items ≡ self.old.bytes.items }
        ensures ends { self.new.ends.items ≡ self.old.ends.items }
        ensures writer { self.new.writer.now ≡ self.old.writer.now }
        ensures same { self.new.writer.ghost_name ≡ self.old.writer.ghost_name }
    {
        self.bytes.reserve_exact(USUAL_BYTES)?;
        self.ends.reserve_exact(USUAL_REPLIES)?;
        Ok(())
    }

    /// Writes all that waits. The line `next` is the one after the lines that were answered.
    ///
    /// The fault is WriteFault, in the line whose reply was being written.
    pub fn flush(&mut self, next: u64) -> Result<(), ScriptFault>
        requires { length self.old.ends.items < next }
        ensures flushed { IsFlushed self.old.bytes.items self.old.ends.items self.new.bytes.items self.new.ends.items
            (W.contents self.old.writer.now.writer) (W.contents self.new.writer.now.writer) next result }
        ensures cause { IfErr result (λ e. HasLineCause self.new.writer.now.has_refused e.fault) }
        ensures same { self.new.writer.ghost_name ≡ self.old.writer.ghost_name }
    {
        match self.writer.send(self.bytes.as_slice()) {
            Ok(()) => {
                self.bytes.clear();
                self.ends.clear();
                Ok(())
            }
            Err(taken) => {
                let whole = whole_replies(self.ends.as_slice(), taken);
                let line = next - (self.ends.len() - whole) as u64;
                Err(Fault::WriteFault.in_line(line))
            }
        }
    }

    /// Does what `flush` does if 65,536 bytes or more wait. Then fewer wait.
    pub fn flush_if_full(&mut self, next: u64) -> Result<(), ScriptFault>
        requires { length self.old.ends.items < next }
        ensures flushed { IsFlushedOrKept self.old.bytes.items self.old.ends.items self.new.bytes.items self.new.ends.items
            (W.contents self.old.writer.now.writer) (W.contents self.new.writer.now.writer) next result }
        ensures few { OnOk result (length self.new.bytes.items < 65536) }
        ensures cause { IfErr result (λ e. HasLineCause self.new.writer.now.has_refused e.fault) }
        ensures same { self.new.writer.ghost_name ≡ self.old.writer.ghost_name }
    {
        if self.bytes.len() < FULL {
            return Ok(());
        }
        self.flush(next)
    }

    /// Returns the writer, and drops what waits.
    pub fn into_writer(self) -> &'w mut WatchedWriter<W>
        ensures writer { result.now ≡ self.entry.writer.now }
        ensures same { result.ghost_name ≡ self.entry.writer.ghost_name }
    {
        let Outbox {
            bytes,
            ends,
            writer,
        } = self;
        drop((bytes, ends));
        writer
    }
}

/// Returns how many of the replies are wholly among the first bytes.
fn whole_replies(ends: &[usize], taken: usize) -> usize
    ensures { IsCutAt ends.now taken result }
{
    match ends.iter().position(|end| *end > taken) {
        Some(at) => at,
        None => ends.len(),
    }
}
