//! The words of the command line of `supload`, for both its programs: what each order takes of them, the help texts, and what is said
//! of words that are no order.
//!
//! # What is proved
//! Which words lead to which order is what `clap`'s reference semantics make of them, by one grammar (`specs/Grammar.antt`), and an error
//! has the kind that they give, unless memory ran out. `script` and `replay` alone, and `load` with its numbers in any order, are these.
//! If words are refused or memory runs out, [`show`] writes nothing to `out`.
//!
//! # What is on trust
//! The toolchain, and what `clap` states.
//!
//! # What is only tested
//! The help texts, what is said of words that are refused, and which of two kinds of error `help` and `help WORD` have: by stored cases of the
//! program.
//!
//! # How it is used
//! ```text
//! match read_words(rt.alloc(), words_given(&rt)?.as_slice()) {
//!     Ok(Order::Load(load, journal, detail)) => ..,
//!     Ok(Order::Serve(how)) => ..,
//!     ..
//!     Err(error) => show(rt.alloc(), &error, &mut out, &mut err),
//! }
//! ```
//!
//! If the words could not be had at all, [`refuse_words`] writes why.
#![tactic(auto)]

mod build;
mod help;
mod load;
mod refusal;
mod words;

pub use load::Load;
pub use refusal::{refuse_words, show};
pub use words::{Order, Serve, read_words, words_given};
