//! Behaviours: what children do.
ghost use Rattle.std.specs.Prelude.{◌≡◌, Bool, true};
ghost use Rattle.sup_types.specs.declared.reason.Reason.{Reason};
ghost use Rattle.sup_live.specs.Ends.{EndsBy};

use crate::mailbox::Mailbox;
use futures::Future;
use sup_types::{Reason, Reply, Text};

/// How a child ended: for which reason, and what it leaves to the child that takes its place, if it is restarted.
#[derive(Drop)]
pub struct End<O> {
    /// Why it ended.
    pub reason: Reason,
    /// What the next child is to own.
    pub own: Option<O>,
}

impl<O> From<Reason> for End<O> {
    ghost from_gives = { λ reason end. end.reason ≡ reason };

    /// Makes the end of a child that leaves nothing.
    fn from(reason: Reason) -> End<O> {
        End { reason, own: None }
    }
}

/// Why nobody takes over what a child owned.
#[derive(Clone, Copy, Debug, PartialEq, Eq)]
pub enum Untaken {
    /// This was the reply to its exit, to a later try of its restart, or to its termination, or the supervisor went down by it.
    Replied(Reply),
    /// There was no memory to run the child.
    NotRun,
    /// Its exit was not entered, or its restart was not tried again, before the crew closed.
    Closed,
}

/// What children do. It is shared by the threads that begin children.
pub trait Behaviour {
    /// What is sent to a child.
    type Message: Drop;

    /// What a child owns beside its argument: a socket, say. `()` if it owns nothing.
    type Own: Drop;

    /// A child that runs: a future that is ready with how the child ended.
    type Child: Future<Output = End<Self::Own>>;

    /// Whether a child may end for this reason. If an impl does not say, it may for any. Two reasons more are a crew's own:
    /// `killed` of a child that was aborted, and `not_run` of one that could not be run.
    ghost may_end: { Self → Reason → Bool } = { λ behaviour reason. true };

    /// Begins the child with this number and argument, which reads from the mailbox what it is sent. `own` is what its start
    /// gave it or, for a restarted child, what the one before left: nothing if that one was aborted. It runs no code of the
    /// child: the crew's workers do, by polling it. It is ready only with a reason for which a child may end.
    fn begin(
        &self,
        number: u64,
        arg: &Text,
        own: Option<Self::Own>,
        mailbox: Mailbox<Self::Message>,
    ) -> Self::Child
        ensures polled { Self.Child.can_poll result }
        ensures ends { EndsBy Self.Child.gives (may_end self.now) result };

    /// Says that the child with this number was restarted, and runs under the new number. The driver calls it. An impl that leaves
    /// it out does nothing.
    fn restarted(&self, _number: u64, _new: u64, _arg: &Text) {}

    /// Takes what the child with this number and argument owned and nobody takes over, once. The driver calls it or, for a child that
    /// could not be run or had ended when it was terminated, the client, outside all locks. An impl that leaves it out drops that. So does
    /// the crew with what an aborted child has with it, or one whose task the executor refuses.
    fn left(&self, _number: u64, _arg: &Text, _why: Untaken, _own: Self::Own) {}
}
