//! Publishes the history of a supervisor in two replicas, which threads look at without a lock.
//!
//! A [`Press`] collects pending entries, answers them in order, and publishes them in one step. A [`Lens`] is the place of one reader: a look
//! enters a copy, calls a function once on a [`View`] of it, and leaves. A [`Ticket`] is a front (a prefix of the history) as plain data.
//!
//! # What is proved
//! - `publish` appends what is pending to the published history, in order, and leaves nothing pending. It can't be refused.
//! - An entry that `append` refused is not pending, so it is never published.
//! - A look shows the supervisor of the press's own template after the front that the lens then has. That front begins with each
//!   front that the lens had seen or learnt. A refused look changes nothing.
//! - No call of a lens, a ticket or a view waits, and of a press only `new`, `ready`, `publish` and `close` may.
//!
//! # What is on trust
//! The toolchain, and what the crates of the kit state. That a wait ends is not proved. `ready` waits until the looks at the copy that it
//! takes have ended. `left_right`'s writer yields meanwhile and does not sleep, so a long look keeps the publisher's core busy.
//!
//! # What is only tested
//! - That a lens is refused only if all places are taken: `left_right` has no clause for this.
//! - That no look is refused while its press exists.
//!
//! # How it is used
//! [`Press::ready`] takes the copy that is not shown out of the reach of lenses, [`Ready::step`] steps an entry there, and [`Ready::publish`]
//! shows it. So each copy steps each entry once.
//!
//! ```text
//! let mut press = Press::new(alloc, &rt, template, 2)?;
//! let mut lens = press.lens()?;
//! let mut ready = press.ready(&rt);
//! let Some(asked) = ready.asks(&operation, moment) else { .. };
//! ready.append(&entry)?;
//! let reply = ready.step(&asked);
//! ready.publish(&rt);
//! lens.learn(&press.tell())?;
//! let (stamp, counts) = lens.look(|view| (view.stamp(), view.counts()))?;
//! press.close(&rt);
//! ```
#![tactic(auto)]

mod faults;
mod history;
mod lens;
mod press;
mod publication;
mod replicas;
mod right;
mod ticket;
mod view;

pub use faults::{Gone, NoPlace};
pub use lens::Lens;
pub use press::{Press, Ready};
pub use ticket::Ticket;
pub use view::View;
