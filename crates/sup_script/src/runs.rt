//! Whole runs: the session of a script, a script from its reader to its writer, and the replays of a history text and of a journal.
pub mod answer;
pub mod entered;
pub mod follow;
pub mod journal;
pub mod replays;
pub mod script;
pub mod session;
