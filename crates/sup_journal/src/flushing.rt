//! When a journal flushes its writer.

/// Says after which records a journal flushes its writer. A flush of a file does nothing, that of a `BufWriter` hands its buffer to the
/// operating system, and that of [`Synced`](crate::Synced) waits until the file's bytes are stored.
#[derive(Clone, Copy, Debug, Default, PartialEq, Eq)]
pub enum Flush {
    #[default]
    Never,
    /// After each record of more than one entry.
    EachBatch,
    EachUpdate,
}

impl Flush {
    ghost use Rattle.std.specs.Prelude.{◌↔◌, IsTrue};
    ghost use Rattle.sup_journal.specs.Flushes.{IsDue};

    /// Returns whether a record of that many entries is flushed.
    pub fn is_due(self, entries: usize) -> bool
        ensures { IsTrue result ↔ IsDue self entries }
    {
        match self {
            Flush::Never => false,
            Flush::EachBatch => entries > 1,
            Flush::EachUpdate => true,
        }
    }
}
