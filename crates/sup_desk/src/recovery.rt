//! Recovery: a desk continues a history that was recorded before.
ghost use Rattle.std.specs.Prelude.{◌≡◌, ◌+◌, ◌≤◌, ◌++◌, ◌∷◌, ◌<◌, [], length, All, IfOk, OnOk, OnErr, IfErr, None};
ghost use Rattle.sup_types.specs.declared.history.Entry.{Entry};
ghost use Rattle.sup_desk.specs.Audits.{AreNumbered, AreGrown, HaveSeenAll};
ghost use Rattle.sup_desk.specs.Books.{IsMade, grown_by};
ghost use Rattle.sup_desk.specs.Faults.{recover_fault_number, desk_fault_number};
ghost use Rattle.sup_desk.specs.Recoveries.{StopsAt};

use crate::book::{Book, Transaction, take};
use crate::desk::{Desk, Recovered};
use crate::faults::{DeskFault, HandleFault};
use crate::ground::Ground;
use crate::handle::DetachedHandle;
use crate::journal::{Journal, NoJournal};
use crate::laws::{add_handle, give_ticket};
use crate::name::Name;
use std::marker::Model;
use std::sync::{Mutex, Wait};
use sup_types::{Entry, Starter};
use thiserror::Error;

/// Says why a desk was not recovered.
#[derive(Clone, Copy, Debug, PartialEq, Eq, Error)]
pub enum RecoverFault {
    #[error("out of memory")]
    OutOfMemory,
    /// There are more entries than the template allows.
    #[error("the history is longer than the template allows")]
    HistoryFull,
    /// An entry is under a number that no handle of the ground can have: 0, or more than there may be.
    #[error("an entry is of a handle that the desk has no place for")]
    NoHandle,
    #[error("a desk has 1 to 1024 handles")]
    BadTemplate,
}

impl RecoverFault {
    /// Returns the number of this fault.
    pub fn number(&self) -> u8
        ensures { result ≡ recover_fault_number self.now }
    {
        match self {
            RecoverFault::OutOfMemory => 1,
            RecoverFault::HistoryFull => 2,
            RecoverFault::NoHandle => 5,
            RecoverFault::BadTemplate => 7,
        }
    }
}

impl From<DeskFault> for RecoverFault {
    ghost from_gives = { λ met fault. recover_fault_number fault ≡ desk_fault_number met };

    fn from(met: DeskFault) -> Self {
        match met {
            DeskFault::OutOfMemory => RecoverFault::OutOfMemory,
            DeskFault::BadTemplate => RecoverFault::BadTemplate,
        }
    }
}

/// Enters a recorded history again, entry by entry, by its handles. It takes memory for these, and none that grows with the history.
pub struct Recovery<N: Name, R: Wait + Drop> {
    book: Book<N, NoJournal>,
    callers: Vec<DetachedHandle<N>>,
    rt: R,
}

impl<N: Name, R: Wait + Drop> Drop for Recovery<N, R> {
    fn drop(self) {
        let Recovery {
            book,
            callers: _callers,
            rt,
        } = self;
        drop(book.close(&rt));
    }
}

impl<N: Name, R: Wait + Drop> Model for Recovery<N, R> {
    ghost use Rattle.std.specs.Prelude.{◌≡◌, ◌≤◌, vec_len, vec_capacity, None};
    ghost use Rattle.sup_desk.specs.Audits.{AreNumbered};
    ghost use Rattle.sup_desk.specs.Recoveries.{Recalled};

    ghost Value = { Recalled };

    ghost view = { λ r. record { history = r.book.history; made = vec_len r.callers; handles = r.book.handles } };

    ghost invariant = { λ r. (r.book.fault ≡ None) × (r.book.made ≡ vec_len r.callers) × (r.book.handles ≤ vec_capacity r.callers) × AreNumbered r.callers.items };
}

/// Enters a recorded entry for the caller that has made it.
fn enter_again<N: Name, W: Wait>(
    rt: &W,
    book: &mut Book<N, NoJournal>,
    caller: &mut DetachedHandle<N>,
    entry: Entry,
) -> Result<(), RecoverFault>
    requires going { book.old.fault ≡ None }
    requires mine { entry.handle ≡ caller.old.number }
    ensures ok { OnOk result (book.new ≡ grown_by book.old (entry ∷ [])) }
    ensures err { OnErr result (book.new ≡ book.old) }
    ensures number { caller.new.number ≡ caller.old.number }
    ensures full { IfErr result (λ f. f ≡ RecoverFault.HistoryFull → length book.old.history ≡ N.template.entries) }
    ensures faults { IfErr result (λ f. (f ≡ RecoverFault.NoHandle → ⊥) × (f ≡ RecoverFault.BadTemplate → ⊥)) }
{
    let Transaction { press, journal, .. } = &mut book.transaction;
    let mut ready = press.ready(rt);
    let Some(asked) = ready.asks(&entry.operation, entry.moment) else {
        return Err(RecoverFault::HistoryFull);
    };
    if take(&mut ready, journal, entry, &asked).is_err() {
        return Err(RecoverFault::OutOfMemory);
    }
    match book.transaction.commit(rt, caller) {
        Ok(()) => Ok(()),
        Err(_) => unreachable!(),
    }
}

/// Lets the callers see all of the history.
fn see_all_of<N: Name>(book: &mut Book<N, NoJournal>, callers: &mut [DetachedHandle<N>])
    ensures seen { HaveSeenAll book.old.history callers.new (length callers.new) }
    ensures grown { AreGrown callers.old callers.new }
    ensures same { book.new ≡ book.old }
{
    for caller in callers.iter_mut() {
        give_ticket(book, caller);
    }
}

impl<N: Name, R: Wait + Drop> Recovery<N, R> {
    /// Begins a recovery on this ground, which `N` names. Nothing is entered.
    ///
    /// # Errors
    /// `OutOfMemory` if there is no memory for the callers.
    pub fn begin(ground: Ground, rt: R) -> Result<Recovery<N, R>, RecoverFault>
        requires { (ground.press ≡ N.press) × (ground.template ≡ N.template) × (ground.sessions ≡ N.sessions) }
        ensures ok { IfOk result (λ r. r ≡ record { history = []; made = 0; handles = ground.handles }) }
        ensures err { IfErr result (λ f. f ≡ RecoverFault.OutOfMemory) }
    {
        let Ok(callers) = Vec::with_capacity(ground.alloc, ground.handles as usize) else {
            ground.close(&rt);
            return Err(RecoverFault::OutOfMemory);
        };
        Ok(Recovery {
            book: ground.book(NoJournal),
            callers,
            rt,
        })
    }

    /// Makes handles up to this number, in order.
    fn open_to(&mut self, number: u64) -> Result<(), RecoverFault>
        ensures ok { OnOk result (number ≤ self.new.made) }
        ensures same { self.new ≡ record self.old { made = self.new.made } }
        ensures none { IfErr result (λ f. (f ≡ RecoverFault.NoHandle → self.old.handles < number) × (f ≡ RecoverFault.HistoryFull → ⊥) × (f ≡ RecoverFault.BadTemplate → ⊥)) }
    {
        'opening: while (self.callers.len() as u64) < number {
            match add_handle(&mut self.book) {
                Ok(caller) => self.callers.push_reserved(caller),
                Err(HandleFault::NoHandle) => return Err(RecoverFault::NoHandle),
                Err(HandleFault::NoPlace) => return Err(RecoverFault::OutOfMemory),
            }
        }
        Ok(())
    }

    /// Enters a recorded entry, after those that were entered, and makes the handles up to its number.
    ///
    /// # Errors
    /// `NoHandle` if no handle of the ground can have its number, `HistoryFull` if there are as many entries as the template allows, and
    /// `OutOfMemory` if memory runs out. The history is as it was.
    pub fn enter(&mut self, entry: Entry) -> Result<(), RecoverFault>
        ensures ok { OnOk result (self.new.history ≡ self.old.history ++ entry ∷ []) }
        ensures kept { OnErr result (self.new.history ≡ self.old.history) }
        ensures handles { self.new.handles ≡ self.old.handles }
        ensures err { IfErr result (λ f. StopsAt f N.template self.old.handles self.old.history entry) }
    {
        if entry.handle == 0 {
            return Err(RecoverFault::NoHandle);
        }
        self.open_to(entry.handle)?;
        let place = (entry.handle - 1) as usize;
        enter_again(&self.rt, &mut self.book, &mut self.callers[place], entry)
    }

    /// Ends the recovery with a desk that continues the history, which this journal has recorded. The ticket is for this history.
    pub fn finish<S: Starter + Drop, J: Journal + Drop>(
        self,
        starter: S,
        journal: J,
    ) -> Recovered<N, S, R, J>
        requires { J.has journal N.template self.history [] }
        ensures ticket { (result.ticket.press ≡ N.press) × (result.ticket.front ≡ self.history) }
        ensures callers { AreNumbered result.callers.items × HaveSeenAll self.history result.callers.items (length result.callers.items)
            × All (λ entry. IsMade (length result.callers.items) entry.handle) self.history }
    {
        let Recovery {
            mut book,
            mut callers,
            rt,
        } = self;
        see_all_of(&mut book, callers.as_mut_slice());
        let ticket = book.transaction.tell();
        Recovered {
            desk: Desk {
                book: Mutex::new(book.with_journal(journal)),
                starter,
                rt,
            },
            ticket,
            callers,
        }
    }
}
