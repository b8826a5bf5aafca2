//! A writer whose flush stores what a file has.

use std::fs::OpenFile;
use std::io;
use std::io::{Read, Write};

/// Writes to a file, and waits at a flush until the bytes of the file are stored (`sync_data`). A journal with `Flush::EachUpdate`
/// in it has each update stored before anyone sees it. No flush stores the file's name: [`open_file`](crate::open_file) does.
#[derive(Debug, Drop)]
pub struct Synced<F> {
    pub file: F,
    pub(crate) lock: Option<F>,
}

impl<F> Synced<F> {
    ghost use Rattle.std.specs.Prelude.{◌≡◌};

    /// Returns a writer over this file.
    pub fn new(file: F) -> Synced<F>
        ensures { result.file ≡ file }
    {
        Synced { file, lock: None }
    }
}

impl<F: Read> Read for Synced<F> {
    ghost remaining = { λ synced. F.Read.remaining synced.file };

    fn read(&mut self, buffer: &mut [u8]) -> io::Result<usize> {
        self.file.read(buffer)
    }
}

impl<F: Write + OpenFile> Write for Synced<F> {
    ghost contents = { λ synced. F.Write.contents synced.file };

    fn write(&mut self, bytes: &[u8]) -> io::Result<usize> {
        self.file.write(bytes)
    }

    fn flush(&mut self) -> io::Result<()> {
        self.file.flush()?;
        self.file.sync_data()
    }
}
