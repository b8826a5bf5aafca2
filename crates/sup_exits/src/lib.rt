//! The exits of a live crew: which children were made, which of them still owe an exit, and the exits that wait to be entered.
//!
//! An [`Account`] lists the children that were made by it, and those whose exit it paid. To make a child gives a [`Debt`], which only a
//! payment by an account of the same [`Ledger`] ends. Accounts and debts may go to any threads. An [`ExitQueue`] has room for the exits.
//!
//! # What is proved
//! - Once all accounts are joined into one, the children that were made are those whose exit was paid and those that owe one, each as often.
//!   [`Ledger::settle`] counts both. It does not know what is owed if a part is missing, such as an account that was not joined.
//! - A dropped exit stays owed. Each has a reason that the [`Office`] allows, or the crew's own. A queue with room gives each once, in order.
//!
//! # What is on trust
//! The toolchain, and the kit's `atomic_table`: the lists are in the proofs alone, as views of its seats under the rule in `specs/Holdings`.
//!
//! # What is only tested
//! That [`Totals::owed`] is `None` if a part is missing, and that a live crew makes room for each exit and gives it back.
//!
//! # How it is used
//! ```text
//! let (ledger, mut first) = Ledger::new(alloc)?;
//! let mut second = ledger.split(&mut first)?;
//! ledger.pay(&mut second, ledger.make(&mut first, Child { number, arg }));
//! ledger.join(&mut first, second);
//! let totals = ledger.settle(first);
//! ```
#![tactic(auto)]

mod exit;
mod ledger;
mod office;
mod queue;
mod rule;

pub use exit::{Child, Due, Exit, OwedExit};
pub use ledger::{Account, Debt, Ledger, Totals};
pub use office::Office;
pub use queue::ExitQueue;
