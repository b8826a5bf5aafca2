ghost use Rattle.std.specs.Prelude.{◌≡◌, ◌<◌, ◌∷◌, [], ◌++◌, true};
ghost use Rattle.sup_exits.specs.Endings.{is_ending};

use crate::ledger::{Account, Debt, Ledger};
use crate::office::Office;
use std::marker::{Model, PhantomData};
use sup_types::{Reason, Text};

/// A child: its number, and the argument with which it was started.
#[derive(Clone, Copy, Debug, PartialEq, Eq)]
pub struct Child {
    pub number: u64,
    pub arg: Text,
}

/// An exit: the child that ended, and why.
#[derive(Clone, Copy, Debug, PartialEq, Eq)]
pub struct Exit {
    pub child: Child,
    pub reason: Reason,
}

/// Holds the exit that a living child owes. It is neither `Clone` nor `Drop`: it becomes an [`OwedExit`] once the child has ended.
pub struct Due<I: Office> {
    pub(crate) debt: Debt,
    pub(crate) place: usize,
    pub(crate) of: PhantomData<I>,
    ghost of_ledger: { debt.ledger ≡ I.ledger },
}

impl<I: Office> Due<I> {
    /// Makes the exit that this debt owes, with room for it in the queue at this place.
    pub fn new(debt: Debt, place: usize) -> Due<I>
        requires { debt.ledger ≡ I.ledger }
        ensures { (result.debt ≡ debt) × (result.place ≡ place) }
    {
        let of = PhantomData;
        Due { debt, place, of }
    }

    /// Returns the child that owes it.
    pub fn child(&self) -> Child
        ensures { result ≡ self.now.debt.child }
    {
        self.debt.child()
    }

    /// Makes it the exit of a child that has ended for this reason.
    pub fn ended(self, reason: Reason) -> OwedExit<I>
        requires { is_ending I.may_end reason ≡ true }
        ensures { result ≡ record { child = self.debt.child; reason = reason } }
    {
        OwedExit { due: self, reason }
    }
}

/// Holds the unpaid exit of a child that has ended. If dropped, it stays owed. Its reason is one that its office allows, or the crew's own.
pub struct OwedExit<I: Office> {
    due: Due<I>,
    reason: Reason,
}

impl<I: Office> Model for OwedExit<I> {
    ghost use Rattle.std.specs.Prelude.{◌≡◌, true};
    ghost use Rattle.sup_exits.specs.declared.exit.Exit.{Exit};
    ghost use Rattle.sup_exits.specs.Endings.{is_ending};

    ghost Value = { Exit };

    ghost view = { λ e. record { child = e.due.debt.child; reason = e.reason } };

    ghost invariant = { λ e. is_ending I.may_end e.reason ≡ true };
}

impl<I: Office> Drop for OwedExit<I> {
    fn drop(self) {
        let OwedExit { due, reason: _ } = self;
        let Due {
            debt,
            place: _,
            of: _,
        } = due;
        debt.lose();
    }
}

impl<I: Office> OwedExit<I> {
    /// Returns the exit.
    pub fn exit(&self) -> Exit
        ensures { result ≡ self.now }
    {
        let (child, reason) = (self.due.child(), self.reason);
        Exit { child, reason }
    }

    /// Returns the place of the queue that had room for it, whose room is the child's.
    pub fn place(&self) -> usize {
        self.due.place
    }

    /// Pays it by this account: it was entered, or is listed in a report.
    pub fn pay(self, ledger: &Ledger, account: &mut Account) -> Exit
        requires ledger { (ledger.now.id ≡ I.ledger) × (account.old.ledger ≡ I.ledger) }
        requires part { 0 < account.old.parts }
        ensures exit { result ≡ self }
        ensures ending { is_ending I.may_end result.reason ≡ true }
        ensures account { account.new ≡ record account.old { paid = account.old.paid ++ self.child ∷ [] } }
    {
        let OwedExit { due, reason } = self;
        let Due {
            debt,
            place: _,
            of: _,
        } = due;
        let child = debt.child();
        ledger.pay(account, debt);
        Exit { child, reason }
    }
}
