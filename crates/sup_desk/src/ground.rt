//! Grounds: the parts of a book that has no name yet.
ghost use Rattle.std.specs.Prelude.{◌≡◌, ◌≤◌, ◌↔◌, [], IfOk, None};

use crate::book::{Book, Transaction};
use crate::faults::DeskFault;
use crate::journal::Journal;
use crate::name::Name;
use crate::sessions::SessionRegistry;
use std::alloc::Global;
use std::marker::{Model, PhantomData};
use std::sync::Wait;
use sup_log::Press;
use sup_types::Template;

/// Holds the parts of a book that has no name yet: its press, its sessions, and how many handles it may have. It is not `Drop`: a desk is
/// made of it, or `close` ends it.
pub struct Ground {
    press: Press,
    sessions: SessionRegistry,
    pub(crate) handles: u64,
    pub(crate) alloc: Global,
}

impl Model for Ground {
    ghost use Rattle.std.specs.Prelude.{◌≡◌, ◌≤◌, []};
    ghost use Rattle.sup_desk.specs.Books.{Plot};

    ghost Value = { Plot };

    ghost view = { λ g. record { press = g.press.press; template = g.press.template; sessions = g.sessions.id; handles = g.handles } };

    ghost invariant = { λ g. (g.press.pending ≡ []) × (g.press.published ≡ []) × (g.press.editions ≡ [])
        × (g.press.stepped ≡ 0) × (g.sessions.history ≡ []) × (g.sessions.made ≡ 0) × (g.handles ≤ 1024) };
}

impl Ground {
    /// Makes a ground for a supervisor of this template, with 1 to 1024 places for handles and askers.
    ///
    /// Each update visits each place, taken or not, which takes some fifty instructions a place. So ask for as many as there are threads
    /// that ask at the same time.
    ///
    /// # Errors
    /// `BadTemplate` exactly if the number of places is out of its range, `OutOfMemory` if memory runs out.
    pub fn new<R: Wait>(
        alloc: Global,
        rt: &R,
        template: Template,
        handles: u64,
    ) -> Result<Ground, DeskFault>
        ensures ok { IfOk result (λ g. (g.template ≡ template) × (g.handles ≡ handles)) }
        ensures range { (result ≡ Err DeskFault.BadTemplate) ↔ ¬ ((1 ≤ handles) × (handles ≤ 1024)) }
    {
        if handles == 0 || handles > 1024 {
            return Err(DeskFault::BadTemplate);
        }
        let Ok(sessions) = SessionRegistry::new(alloc) else {
            return Err(DeskFault::OutOfMemory);
        };
        match Press::new(alloc, rt, template, handles as usize) {
            Ok(press) => Ok(Ground {
                press,
                sessions,
                handles,
                alloc,
            }),
            Err(_) => Err(DeskFault::OutOfMemory),
        }
    }

    /// Ends a ground without a desk. It waits for nobody, since no lens was made.
    pub fn close<R: Wait>(self, rt: &R) {
        let Ground {
            press,
            sessions: _sessions,
            handles: _,
            alloc: _,
        } = self;
        press.close(rt);
    }

    /// Returns the book of this ground, which N names: nothing is written, and no handle was made.
    pub(crate) fn book<N: Name, J: Journal + Drop>(self, journal: J) -> Book<N, J>
        requires name { (self.press ≡ N.press) × (self.template ≡ N.template) × (self.sessions ≡ N.sessions) }
        requires journal { J.has journal N.template [] [] }
        ensures { result ≡ record { editions = []; history = []; made = 0; handles = self.handles; fault = None } }
    {
        let Ground {
            press,
            sessions,
            handles,
            alloc: _,
        } = self;
        Book {
            transaction: Transaction {
                press,
                journal,
                fault: None,
                sessions,
                made: 0,
                handles,
                of: PhantomData,
            },
        }
    }
}
