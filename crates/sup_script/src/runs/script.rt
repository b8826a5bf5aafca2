//! Whole scripts.

ghost use Rattle.std.specs.Prelude.{◌≡◌, ◌≤◌, [], false, None, IfErr};
ghost use Rattle.sup_format.specs.Causes.{HasCause};
ghost use Rattle.sup_script.specs.Running.Runs.{IsRun};

use crate::runs::session::Session;
use std::alloc::Allocator;
use std::io::{Read, Write};
use sup_format::{Fault, MOST_BYTES, Outbox, PIECE, ScriptFault, WatchedReader, WatchedWriter};
use sup_types::FixedStarter;

/// Exceeds the part of a line that comes before a piece: more bytes than any line of the format has.
const PART: usize = 1_024;

/// Reads a script to its end and writes the replies of its commands, those of each piece before the next one is read.
///
/// # Errors
/// After a fault in a line the replies of the lines before it are written, and nothing more is read. A fault of reading is in the
/// line after the ended ones, which are answered. WriteFault is in the line whose reply was being written.
pub fn run<A: Allocator + Copy, R: Read, W: Write, S: FixedStarter>(
    alloc: A,
    reader: &mut WatchedReader<R>,
    writer: &mut WatchedWriter<W>,
    starter: &S,
) -> Result<(), ScriptFault>
    requires calls { reader.old.calls ≡ 0 }
    requires none { reader.old.given ≡ 0 }
    requires unfailed { reader.old.has_failed ≡ false }
    requires unrefused { writer.old.has_refused ≡ false }
    ensures run { IsRun S.answer (R.remaining reader.old.reader) (R.remaining reader.new.reader)
        (W.contents writer.old.writer) (W.contents writer.new.writer) result }
    ensures reads { reader.new.calls ≤ 16777217 }
    ensures cause { IfErr result (λ e. HasCause reader.new.has_failed reader.new.given writer.new.has_refused e.fault) }
{
    let mut session = Session::new(alloc, starter, writer);
    let mut part = Vec::new(alloc);
    let outcome = match (session.outbox.make_room(), part.reserve_exact(PART + PIECE)) {
        (Ok(()), Ok(())) => {
            let outcome = answer_pieces(&mut session, &mut part, reader);
            reader.note_line(session.faulty);
            outcome
        }
        _ => Err(Fault::OutOfMemory.in_line(session.next)),
    };
    let Session {
        supervisor,
        outbox,
        ..
    } = session;
    drop(supervisor);
    outbox.into_writer();
    outcome
}

/// Reads piece after piece and answers the lines that each ends, from a session in which nothing was read.
///
/// `part` takes the part of a line that came before a piece.
fn answer_pieces<A: Allocator + Copy, R: Read, W: Write, S: FixedStarter>(
    session: &mut Session<'_, '_, A, W, S>,
    part: &mut Vec<u8, A>,
    reader: &mut WatchedReader<R>,
) -> Result<(), ScriptFault>
    requires supervisor { session.old.supervisor ≡ None }
    requires bytes { session.old.outbox.bytes.items ≡ [] }
    requires ends { session.old.outbox.ends.items ≡ [] }
    requires next { session.old.next ≡ 1 }
    requires empty { part.old.items ≡ [] }
    requires calls { reader.old.calls ≡ 0 }
    requires none { reader.old.given ≡ 0 }
    requires unfailed { reader.old.has_failed ≡ false }
    requires unrefused { session.old.outbox.writer.now.has_refused ≡ false }
    ensures run { IsRun S.answer (R.remaining reader.old.reader) (R.remaining reader.new.reader)
        (W.contents session.old.outbox.writer.now.writer) (W.contents session.new.outbox.writer.now.writer) result }
    ensures reads { reader.new.calls ≤ 16777217 }
    ensures cause { IfErr result (λ e. HasCause reader.new.has_failed reader.new.given session.new.outbox.writer.now.has_refused e.fault) }
    ensures same { session.new.outbox.writer.ghost_name ≡ session.old.outbox.writer.ghost_name }
{
    let mut piece = [0u8; PIECE];
    loop {
        let room = (MOST_BYTES - reader.given()) as usize;
        // Space comes first, so that no byte is lost if it is refused.
        if part.reserve(PIECE).is_err() {
            return Err(Fault::OutOfMemory.in_line(session.next));
        }
        let count = match reader.read(&mut piece) {
            Some(count) => count,
            None => return Err(Fault::ReadFault.in_line(session.next)),
        };
        if count == 0 {
            session.answer_lines(part.as_slice())?;
            if session.next == 1 {
                return Err(Fault::BadLine.in_line(session.next));
            }
            return Ok(());
        }
        if count > room {
            session.answer_piece(&piece[..room], part)?;
            return Err(Fault::TooLong.in_line(session.next));
        }
        session.answer_piece(&piece[..count], part)?;
    }
}
