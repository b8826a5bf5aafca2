//! Exits on their way: a bounded inbox of exit notes, with any number of posters and one taker.
//!
//! # What is proved
//! Nothing is lost, doubled or invented. A poster's notes carry its number and the serials 0, 1, 2, ..; what the taker took and what remains
//! at the end are, for every poster, what it posted, in its order, and there is no other note (the rule is in `specs/Delivery`).
//!
//! # What is on trust
//! The toolchain, and the contracts of the kit's ruled array queue of `crossbeam_queue` and of `atomic_table`.
//!
//! # What is only tested
//! That a post is refused only if the inbox is full, that a take finds a note that was posted, and that calls which may wait return.
//!
//! # How it is used
//! ```text
//! let (inbox, root) = Inbox::new(alloc, 64)?;
//! let (posters, taker) = root.split(alloc, &inbox, 4)?;
//! // in a thread of each poster
//! poster.post(&rt, &inbox, number, arg, Reason::Normal)?;
//! // in the taker's thread
//! let note = taker.take(&rt, &inbox);
//! // once all are in one place again
//! let left = settle(&rt, posters, taker, inbox, room)?.left;
//! ```
#![tactic(auto)]

pub mod inbox;
pub mod note;
pub mod rule;
pub mod settling;

pub use inbox::{Inbox, InboxFull, Poster, Root, Taker};
pub use note::Note;
pub use settling::{Settled, Unsettled, settle};
