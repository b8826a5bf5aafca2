//! What a poster tells the taker.

use sup_types::{Reason, Text};

/// Says that a child ended, and why.
#[derive(Clone, Copy, Debug, PartialEq, Eq)]
pub struct Note {
    /// The number of the poster, from 1 on.
    pub poster: u64,
    /// How many notes that poster had posted before.
    pub serial: u64,
    pub number: u64,
    pub arg: Text,
    pub reason: Reason,
}

impl Default for Note {
    /// Returns a note that nobody posts. It fills the places of an array that holds no note yet.
    fn default() -> Note {
        let Some(arg) = Text::new(b"x") else {
            unreachable!()
        };
        Note {
            poster: 0,
            serial: 0,
            number: 0,
            arg,
            reason: Reason::Normal,
        }
    }
}
