//! Children as tasks.
ghost use Rattle.std.specs.Prelude.{◌≡◌, IfSome, if◌then◌else◌};
ghost use Rattle.sup_exits.specs.Endings.{killed, not_run};
ghost use Rattle.sup_live.specs.Ends.{EndsBy};

use crate::behaviour::{Behaviour, End};
use crate::host::Host;
use crate::hub::Hub;
use futures::Future;
use futures::future::{Abortable, Pending};
use futures::task::{Context, Poll};
use sup_exits::{Due, Office};
use sup_types::{Reason, Word};

/// Is ready once a child is aborted.
pub(crate) type Gate = Abortable<Pending<()>>;

/// A child that is alive. However it ends, its exit waits to be entered.
pub struct Alive<'h, B: Behaviour, P: Host> {
    pub(crate) hub: &'h Hub<B, P>,
    pub(crate) gate: Gate,
    pub(crate) child: Option<B::Child>,
    pub(crate) due: Option<Due<P>>,
    /// Whether it was polled.
    pub(crate) began: bool,
}

/// Returns why a child ended that was aborted, as OTP names it: `killed`.
fn killed() -> Reason
    ensures { result ≡ killed }
{
    match Word::new(b"killed") {
        Some(word) => Reason::Other(word),
        None => unreachable!(),
    }
}

/// Returns why a child ended that could not be run: `not_run`.
pub(crate) fn not_run() -> Reason
    ensures { result ≡ not_run }
{
    match Word::new(b"not_run") {
        Some(word) => Reason::Other(word),
        None => unreachable!(),
    }
}

/// Returns the reason of a child that was dropped before its end: `killed`, or `not_run` if it never ran.
fn let_go(ran: bool) -> Reason
    ensures { result ≡ (if ran then killed else not_run) }
{
    if ran { killed() } else { not_run() }
}

impl<'h, B: Behaviour, P: Host> Drop for Alive<'h, B, P> {
    fn drop(self) {
        let Alive {
            hub,
            gate: _,
            child,
            due,
            began,
        } = self;
        drop(child);
        if let Some(due) = due {
            hub.exited(due, let_go(began).into());
        }
    }
}

impl<'h, B: Behaviour, P: Host> Future for Alive<'h, B, P> {
    type Output = ();

    ghost can_poll = { λ l. IfSome l.child (λ child. B.Child.can_poll child × EndsBy B.Child.gives P.may_end child) };

    fn poll(&mut self, cx: &mut Context<'_>) -> Poll<()> {
        self.began = true;
        let Some(child) = &mut self.child else {
            return Poll::Ready(());
        };
        // The gate first: a child that is aborted hears of nothing more.
        let end = if self.gate.poll(cx).is_ready() {
            killed().into()
        } else {
            match child.poll(cx) {
                Poll::Ready(end) => end,
                Poll::Pending => return Poll::Pending,
            }
        };
        self.child = None;
        if let Some(due) = self.due.take() {
            self.hub.exited(due, end);
        }
        Poll::Ready(())
    }
}
