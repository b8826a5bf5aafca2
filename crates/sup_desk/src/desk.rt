//! Desks: what threads share.
ghost use Rattle.std.specs.Prelude.{◌≡◌, ◌≤◌, [], length, All, IfOk, OnErr, IfErr};
ghost use Rattle.sup_desk.specs.Knowledge.{entries_of};
ghost use Rattle.sup_desk.specs.Books.{IsMade};
ghost use Rattle.sup_desk.specs.Journals.{HasJust};
ghost use Rattle.sup_desk.specs.Recoveries.{IsCauseOf};
ghost use Rattle.sup_desk.specs.Audits.{AreNumbered, AreGrown, HaveSeenAll};

use crate::asker::Asker;
use crate::book::{Book, Closed};
use crate::faults::{HandleFault, TicketFault};
use crate::ground::Ground;
use crate::handle::{DetachedHandle, HandleOf};
use crate::journal::{Journal, NoJournal};
use crate::laws::{add_asker, add_handle, audit};
use crate::name::Name;
use crate::recovery::{RecoverFault, Recovery};
use std::sync::{Mutex, MutexGuard, Wait};
use sup_log::{NoPlace, Ticket};
use sup_types::{Entry, Starter};

/// Shares a supervisor among threads, by reference, with the journal `J`, by default none.
pub struct Desk<N: Name, S: Starter + Drop, R: Wait + Drop, J: Journal + Drop = NoJournal> {
    pub(crate) book: Mutex<Book<N, J>>,
    pub(crate) starter: S,
    pub(crate) rt: R,
}

/// It waits for the lenses that look. Askers that remain are answered `Gone`.
impl<N: Name, S: Starter + Drop, R: Wait + Drop, J: Journal + Drop> Drop for Desk<N, S, R, J> {
    fn drop(self) {
        let Desk {
            book,
            starter: _starter,
            rt,
        } = self;
        drop(book.into_inner().close(&rt));
    }
}

/// Holds a desk that continues a recorded history, a ticket for that history, and its handles, detached, in the order of their numbers.
#[derive(Drop)]
pub struct Recovered<N: Name, S: Starter + Drop, R: Wait + Drop, J: Journal + Drop> {
    pub desk: Desk<N, S, R, J>,
    pub ticket: Ticket,
    pub callers: Vec<DetachedHandle<N>>,
}

impl<N: Name, S: Starter + Drop, R: Wait + Drop> Desk<N, S, R> {
    /// Makes a desk on this ground, which `N` names, without a journal. It takes no memory.
    pub fn new(ground: Ground, rt: R, starter: S) -> Desk<N, S, R>
        requires { (ground.press ≡ N.press) × (ground.template ≡ N.template) × (ground.sessions ≡ N.sessions) }
    {
        Desk::with_journal(ground, rt, starter, NoJournal)
    }
}

impl<N: Name, S: Starter + Drop, R: Wait + Drop, J: Journal + Drop> Desk<N, S, R, J> {
    /// Makes a desk on this ground, which `N` names, with a journal that has recorded nothing yet. The journal records each entry before it
    /// is published. Once it breaks off, updates are refused, and queries continue. It takes no memory.
    pub fn with_journal(ground: Ground, rt: R, starter: S, journal: J) -> Desk<N, S, R, J>
        requires name { (ground.press ≡ N.press) × (ground.template ≡ N.template) × (ground.sessions ≡ N.sessions) }
        requires journal { J.has journal N.template [] [] }
    {
        Desk {
            book: Mutex::new(ground.book(journal)),
            starter,
            rt,
        }
    }

    /// Makes a desk on this ground, which `N` names, that continues a recorded history: its entries are published, the ticket is for them,
    /// and new handles get the numbers after those of the earlier ones.
    ///
    /// # Errors
    /// `HistoryFull` if there are more entries than the template allows, `NoHandle` if one is of a number that no handle of the ground can
    /// have, and `OutOfMemory` if memory runs out. There is no desk then.
    pub fn recover(
        ground: Ground,
        rt: R,
        starter: S,
        journal: J,
        entries: &[Entry],
    ) -> Result<Recovered<N, S, R, J>, RecoverFault>
        requires name { (ground.press ≡ N.press) × (ground.template ≡ N.template) × (ground.sessions ≡ N.sessions) }
        requires journal { J.has journal N.template entries.now [] }
        ensures ticket { IfOk result (λ r. (r.ticket.press ≡ N.press) × (r.ticket.front ≡ entries.now)) }
        ensures callers { IfOk result (λ r. AreNumbered r.callers.items × HaveSeenAll entries.now r.callers.items (length r.callers.items)
            × All (λ entry. IsMade (length r.callers.items) entry.handle) entries.now) }
        ensures err { IfErr result (λ f. IsCauseOf f N.template ground.handles entries.now) }
    {
        let mut recovery = Recovery::begin(ground, rt)?;
        for entry in entries {
            recovery.enter(*entry)?;
        }
        Ok(recovery.finish(starter, journal))
    }

    /// Ends the desk, and returns a ticket for all of its history, and the journal, which has recorded just that, and if it broke off a part of
    /// what was refused, or all if a flush failed. It waits for the lenses that look. Askers that remain are answered `Gone`.
    pub fn close(self) -> Closed<J>
        ensures ticket { result.ticket.press ≡ N.press }
        ensures journal { HasJust (J.has result.journal N.template) (J.is_torn result.journal N.template) J.may_fail result.fault result.ticket.front }
    {
        let Desk { book, starter, rt } = self;
        drop(starter);
        book.into_inner().close(&rt)
    }

    /// Returns a handle that has seen all of the history and made no call. It waits for the lock, and for no query. One that is dropped
    /// gives its place back, and not its number.
    ///
    /// # Errors
    /// `NoHandle` once as many handles were made as there may be, `NoPlace` only if all places are taken. Nothing changes.
    pub fn handle<W: Wait>(&self, rt: &W) -> Result<HandleOf<'_, N, Desk<N, S, R, J>>, HandleFault>
        ensures { IfOk result (λ h. (h.calls ≡ []) × (entries_of h.front h.number ≡ []) × (1 ≤ h.number)) }
    {
        let mut book = self.book.lock(rt);
        let added = add_handle(&mut *book);
        MutexGuard::unlock(book);
        Ok(self.bind(added?))
    }

    /// Returns the handle that this one was before it was detached.
    pub fn bind(&self, caller: DetachedHandle<N>) -> HandleOf<'_, N, Desk<N, S, R, J>>
        ensures { result ≡ caller }
    {
        HandleOf { caller, desk: self }
    }

    /// Returns an asker, which is no handle: it asks, and no audit counts it. It takes one of the places that handles take as well, and
    /// gives it back when it is dropped. It waits for the lock, and for no query.
    ///
    /// # Errors
    /// `NoPlace` only if no place is free. Nothing changes.
    pub fn asker<W: Wait>(&self, rt: &W) -> Result<Asker<N>, NoPlace> {
        let mut book = self.book.lock(rt);
        let added = add_asker(&mut *book);
        MutexGuard::unlock(book);
        added
    }

    /// Shows that the history is the calls of these handles and nothing else: they are all that were made, in the order of making (see
    /// `Handle::are_in_order`), and have then seen all of it. Returns a ticket for it. It waits for the lock.
    ///
    /// # Errors
    /// `Split` if a handle is missing (see `laws::audit`). Nothing changes.
    pub fn audit<W: Wait>(
        &self,
        rt: &W,
        handles: &mut [HandleOf<'_, N, Desk<N, S, R, J>>],
    ) -> Result<Ticket, TicketFault>
        requires { AreNumbered handles.old }
        ensures ok { IfOk result (λ t. HaveSeenAll t.front handles.new (length handles.new) × (t.press ≡ N.press)) }
        ensures whole { IfOk result (λ t. All (λ entry. IsMade (length handles.new) entry.handle) t.front) }
        ensures grown { AreGrown handles.old handles.new }
        ensures kept { OnErr result (handles.new ≡ handles.old) }
        ensures gone { IfErr result (λ e. e ≡ TicketFault.Gone → ⊥) }
    {
        let mut book = self.book.lock(rt);
        let told = audit(&mut *book, handles);
        MutexGuard::unlock(book);
        told
    }
}
