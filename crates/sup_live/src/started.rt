//! What came of a start.
ghost use Rattle.std.specs.Prelude.{◌≡◌};

use crate::behaviour::Behaviour;
use crate::mailbox::ChildRef;
use std::fmt;
use sup_desk::UpdateFault;
use sup_log::Ticket;
use sup_types::Reply;
use thiserror::Error;

/// A start that was entered: its reply, a ticket for the history up to and with it, and the address of the child, if one runs.
#[derive(Drop)]
pub struct Started<B: Behaviour> {
    /// The reply.
    pub reply: Reply,
    /// The history up to and with the start.
    pub ticket: Ticket,
    /// The address of the child, at `Started`. It is missing if there was no memory to run the child, which has then ended.
    pub child: Option<ChildRef<B::Message>>,
    /// What the child was to own, if the reply is not `Started`.
    pub own: Option<B::Own>,
}

/// A start of a batch that was entered.
#[derive(Drop)]
pub struct Begun<M: Drop, O: Drop> {
    /// The reply.
    pub reply: Reply,
    /// The address of the child, at `Started`. It is missing if there was no memory to run the child, which has then ended.
    pub child: Option<ChildRef<M>>,
    /// What the child was to own, if the reply is not `Started`.
    pub own: Option<O>,
}

/// What came of a batch of starts.
#[derive(Drop)]
pub struct StartedAll<M: Drop, O: Drop> {
    /// The first starts of the list, which were entered, in order: all of them if there is no fault.
    pub started: Vec<Begun<M, O>>,
    /// The history up to and with the last of them, if there is one.
    pub ticket: Option<Ticket>,
    /// Why the others were not entered, if there are others.
    pub fault: Option<UpdateFault>,
}

/// A start that was not entered: why, and what the child was to own.
#[derive(Drop, Error)]
#[error("{fault}")]
pub struct NotStarted<O: Drop> {
    /// Why it was refused.
    pub fault: UpdateFault,
    /// What the child was to own.
    pub own: O,
}

/// Shows the fault alone.
impl<O: Drop> fmt::Debug for NotStarted<O> {
    fn fmt<W: fmt::Write>(&self, f: &mut fmt::Formatter<W>) -> fmt::Result {
        write!(f, "NotStarted {{ fault: {:?} }}", self.fault)
    }
}

impl<O: Drop> From<NotStarted<O>> for UpdateFault {
    ghost from_gives = { λ refused fault. fault ≡ refused.fault };

    /// Returns the fault alone. What the child was to own is dropped.
    fn from(refused: NotStarted<O>) -> UpdateFault {
        refused.fault
    }
}
