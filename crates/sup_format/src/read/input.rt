//! Reading a whole text.

ghost use Rattle.std.specs.Prelude.{◌≡◌, ◌==◌, ◌≤◌, ◌+◌, [], ℕ, List, length, count_by, IfErr};
ghost use Rattle.sup_format.specs.Causes.{HasReadCause};
ghost use Rattle.sup_format.specs.Reading.Texts.{IsRead, IsEndedPart, lines_of};

use crate::fault::Fault;
use crate::read::lines::ended_part;
use crate::watch::WatchedReader;
use std::alloc::Allocator;
use std::io::Read;

/// Bounds the bytes of a text: 2^24.
pub const MOST_BYTES: u64 = 16_777_216;

/// Says how many bytes are asked for at a time. The first touch of a page takes about as long as a read, so larger pieces make short
/// texts slower.
pub const PIECE: usize = 16_384;

/// Reads to the end, or as much as a text may have. After a fault the text holds what was read before it.
pub fn read_whole<R: Read, A: Allocator>(
    reader: &mut WatchedReader<R>,
    text: &mut Vec<u8, A>,
) -> Result<(), Fault>
    requires calls { reader.old.calls ≡ 0 }
    requires none { reader.old.given ≡ 0 }
    requires empty { text.old.items ≡ [] }
    ensures read { IsRead (R.remaining reader.old.reader) (R.remaining reader.new.reader) text.new.items result }
    ensures reads { reader.new.calls ≤ 16777217 }
    ensures cause { IfErr result (λ f. HasReadCause reader.new.has_failed reader.new.given f) }
{
    let mut piece = [0u8; PIECE];
    loop {
        let room = (MOST_BYTES - reader.given()) as usize;
        // Space comes first, so that no byte is lost if it is refused.
        text.reserve(PIECE)?;
        let count = match reader.read(&mut piece) {
            Some(count) => count,
            None => return Err(Fault::ReadFault),
        };
        if count == 0 {
            return Ok(());
        }
        if count > room {
            text.extend_from_slice(&piece[..room]).unwrap();
            return Err(Fault::TooLong);
        }
        text.extend_from_slice(&piece[..count]).unwrap();
    }
}

/// Returns the number of the line after the last ended one.
pub fn line_after(text: &[u8]) -> u64
    ensures { (front : List ℕ) × IsEndedPart text.now front × (result ≡ length (lines_of front) + 1) }
{
    let ended = ended_part(text);
    count_feeds(ended) as u64 + 1
}

/// Returns how many line feeds a text has.
fn count_feeds(text: &[u8]) -> usize
    ensures { result ≡ count_by (λ b. b == 10) text.now }
{
    text.iter().filter(|byte| **byte == b'\n').count()
}
