//! Following: the lines of a journal that another program writes, each with its reply.

ghost use Rattle.std.specs.Prelude.{◌≡◌};
ghost use Rattle.sup_script.specs.declared.runs.answer.Status.TheVariants as status;

use crate::runs::answer::{Status, tell_unread};
use std::alloc::{Allocator, Global};
use std::fs::{File, Files, Metadata, OpenFile};
use std::io::{Read, Seek, SeekFrom, Write};
use std::os::unix::fs::MetadataExt;
use std::thread::sleep;
use std::time::{Clock, Duration};
use std::{fs, io};
use sup_core::Sup;
use sup_format::{EntryReader, Fault, WatchedReader, WatchedWriter, first_line, write_reply};

/// Shows what comes to the journal at a path, which another program writes.
#[derive(Drop)]
pub struct Follower<'p, F, A: Allocator> {
    path: &'p str,
    file: F,
    node: (u64, u64),
    shown: u64,
    sup: Option<Sup<A>>,
}

/// Returns what names a file, whatever its path is now.
fn node(metadata: Metadata) -> (u64, u64) {
    (metadata.dev(), metadata.ino())
}

impl<'p, F: Read + Seek + OpenFile + Drop, A: Allocator + Copy> Follower<'p, F, A> {
    /// Opens the journal at this path. Nothing of it is shown yet. The error is what the system answered.
    pub fn open<R: Files<File = F>>(files: &R, path: &'p str) -> io::Result<Follower<'p, F, A>> {
        let file = File::open(files, path)?;
        let node = node(file.metadata()?);
        Ok(Follower {
            path,
            file,
            node,
            shown: 0,
            sup: None,
        })
    }

    /// Writes each whole line that has come since the last call, and the reply to it: `LINE -> REPLY`; the first line has none.
    /// Continues in the file that has taken the place of the one that was opened, once all of that is shown.
    ///
    /// # Errors
    /// `WriteFault`: a part of a line is written. `ReadFault`, `OutOfMemory`, and `BadLine` or `BadTemplate` of a line: none of it is.
    pub fn show_new<R: Files<File = F>, W: Write>(
        &mut self,
        files: &R,
        alloc: A,
        out: &mut WatchedWriter<W>,
    ) -> Result<(), Fault> {
        self.show_lines(alloc, out)?;
        let is_replaced = match fs::metadata(files, self.path) {
            Ok(metadata) => node(metadata) != self.node,
            Err(_) => false,
        };
        if is_replaced {
            // Nobody writes to the old file any more.
            self.show_lines(alloc, out)?;
            *self = Follower::open(files, self.path).map_err(|_| Fault::ReadFault)?;
            self.show_lines(alloc, out)?;
        }
        Ok(())
    }

    /// Writes the further whole lines of the file, with their replies. A torn line is read again the next time: it may be cut off.
    fn show_lines<W: Write>(&mut self, alloc: A, out: &mut WatchedWriter<W>) -> Result<(), Fault> {
        if self.file.seek(SeekFrom::Start(self.shown)).is_err() {
            return Err(Fault::ReadFault);
        }
        let mut lines = EntryReader::new(alloc, WatchedReader::new(&mut self.file));
        let mut text = Vec::new(alloc);
        for _ in 0..u64::MAX {
            if !lines.find_line()? {
                break;
            }
            text.clear();
            text.extend_from_slice(first_line(lines.ready()).0)?;
            match &mut self.sup {
                None if lines.line() == 1 => {
                    self.sup = Some(Sup::new(alloc, lines.begin()?)?);
                    text.extend_from_slice(b"\n")?;
                }
                Some(sup) if !sup.is_spent() => {
                    if let Some(entry) = lines.next()? {
                        text.extend_from_slice(b" -> ")?;
                        write_reply(&sup.step(&entry), &mut text)?;
                    }
                }
                _ => return Err(Fault::TooLong),
            }
            if out.send(text.as_slice()).is_err() {
                return Err(Fault::WriteFault);
            }
        }
        let torn = lines.torn().len() as u64;
        self.shown = self
            .shown
            .saturating_add(lines.taken().saturating_sub(torn));
        Ok(())
    }
}

/// How many milliseconds a program sleeps between two looks at a journal that it follows.
const BETWEEN: u64 = 100;

/// Shows the journal at this path by a [`Follower`], and then what comes to it, ten times a second. Ends with the first fault, which is
/// a line on `err`, and returns its status: also if there is no such file yet.
pub fn follow_journal<R: Files + Clock, W: Write, E: Write>(
    rt: &R,
    alloc: Global,
    path: &str,
    out: &mut WatchedWriter<W>,
    err: &mut E,
) -> Status
    ensures { result ≡ status.Done → ⊥ }
{
    let mut follower = match Follower::open(rt, path) {
        Ok(follower) => follower,
        Err(error) => return tell_unread(error.kind(), path, err),
    };
    for _ in 0..u64::MAX {
        if let Err(fault) = follower.show_new(rt, alloc, out) {
            let number = fault.number();
            let _ = match out.error() {
                Some(kind) => writeln!(err, "fault {number}: {fault}: {kind}"),
                None => writeln!(err, "fault {number}: {fault}: {path}"),
            };
            return Status::of(fault);
        }
        sleep(rt, Duration::from_millis(BETWEEN));
    }
    Status::OtherFault
}
