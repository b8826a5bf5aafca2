//! What an operation asks of the start function before it is entered, and where its child was found.
ghost use Rattle.std.specs.Prelude.{◌≡◌, None};

use sup_types::Text;

/// Says at which index of the table a child was found, if it was looked up. It is a hint: no reply depends on it. Supervisors after the same
/// history have each child at the same index, so what one of them found, the others need not look up.
#[derive(Clone, Copy, Debug)]
pub struct CachedIndex {
    index: usize,
}

/// Says whether the start function is to be asked, about which argument, and where a child that may be restarted was found, so that the
/// entry with the answer needs no second look-up.
#[derive(Clone, Copy, Debug)]
pub struct Asked {
    /// The argument whose start decides the reply, if there is one.
    pub arg: Option<Text>,
    /// Where the child was found, if it was looked up.
    pub cached_index: CachedIndex,
}

/// The index of a child that was not looked up, or not found.
pub const NO_INDEX: usize = usize::MAX;

impl Asked {
    /// Returns that nothing is asked.
    pub(crate) fn nothing() -> Asked
        ensures { result.arg ≡ None }
    {
        Asked::new(None, NO_INDEX)
    }

    /// Returns that this argument is asked, if there is one, of a child that was found at this index.
    pub(crate) fn new(arg: Option<Text>, index: usize) -> Asked
        ensures { result.arg ≡ arg }
    {
        Asked {
            arg,
            cached_index: CachedIndex::at(index),
        }
    }
}

impl CachedIndex {
    /// Returns the index of a child that was not looked up.
    pub fn unknown() -> CachedIndex {
        CachedIndex { index: NO_INDEX }
    }

    /// Returns the index of a child that was found there.
    pub(crate) fn at(index: usize) -> CachedIndex {
        CachedIndex { index }
    }

    pub(crate) fn index(&self) -> usize
        ensures { result ≡ self.now.index }
    {
        self.index
    }
}
