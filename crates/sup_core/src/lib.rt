//! A supervisor of one thread, whose children are all instances of one template, by the rules of OTP's strategy `simple_one_for_one`.
//!
//! # What is proved
//! - After every history [`Sup::step`] and every query answer as the reference semantics: the definitions in `specs/` that compute each reply
//!   and each answer anew from the whole history (`reply_after`, `which`, `count`, `child`).
//! - A step is never refused while the history is not full.
//!
//! # What is on trust
//! The toolchain, the contracts of the kit's `indexmap`, and that the definitions are OTP's rules.
//!
//! # What is only tested
//! That the rules are those of OTP 25 (`tools/partners`), and that a step takes no memory: the supervisor makes room at first for all that its
//! template allows.
//!
//! # How it is used
//! It reads no clock: the caller gives the moment. [`Sup::update`] asks the start function itself, when the rules ask it:
//!
//! ```text
//! let mut sup = Sup::new(alloc, template)?;
//! let reply = sup.update(&starter, moment, &operation);
//! ```
//!
//! A caller that keeps the entries asks itself, when [`Sup::asks`] says so, and hands the answer in with the entry. [`Sup::step_at`]
//! continues from what `asks` found, so a restart takes one look-up; [`Sup::step`] looks for itself, such as for an entry of a history.
//!
//! ```text
//! let asked = sup.asks(&operation, moment);
//! let answer = match &asked.arg {
//!     Some(arg) => starter.start(arg, moment),
//!     None => Answer::Ignore,
//! };
//! let entry = Entry { handle: 0, serial: sup.stamp(), moment, operation, answer };
//! let reply = sup.step_at(&entry, asked.cached_index);
//! ```
#![tactic(auto)]

mod asked;
mod child;
mod entering;
mod sequential;
mod supervisor;
mod table;

pub use asked::{Asked, CachedIndex};
pub use supervisor::Sup;
