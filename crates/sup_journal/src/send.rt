//! Writing all of some bytes.

ghost use Rattle.sup_journal.specs.Records.{IsSentOrCut, IsPut};

use std::io::Write;
use sup_desk::JournalFault;

/// Writes all of the bytes and flushes the writer, if it is to, or says what stopped it.
#[tactic(auto, using(crate::proofs::Recording::put_cut, crate::proofs::Recording::put_unflushed, crate::proofs::Recording::put_flushed))]
pub fn put<W: Write>(writer: &mut W, bytes: &[u8], flushes: bool) -> Result<(), JournalFault>
    ensures { IsPut (W.contents writer.old) (W.contents writer.new) bytes.now result }
{
    send(writer, bytes)?;
    if flushes {
        if let Err(error) = writer.flush() {
            return Err(JournalFault::NotFlushed(error.kind()));
        }
    }
    Ok(())
}

/// Writes all of the bytes, in one write if the writer takes them at once, or says what stopped it.
pub fn send<W: Write>(writer: &mut W, bytes: &[u8]) -> Result<(), JournalFault>
    ensures { IsSentOrCut (W.contents writer.old) (W.contents writer.new) bytes.now result }
{
    let mut taken = 0;
    while taken < bytes.len() {
        match writer.write(&bytes[taken..]) {
            Ok(0) => return Err(JournalFault::TookNothing),
            Ok(count) => taken += count,
            Err(error) => return Err(JournalFault::Failed(error.kind())),
        }
    }
    Ok(())
}
