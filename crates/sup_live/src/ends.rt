//! The end of a crew: what the crew is, and who waits for its end.
ghost use Rattle.std.specs.Prelude.{◌≡◌};

use futures::Future;
use futures::spin::{lock, lock_or_give_up};
use futures::task::{Context, Poll, Source};
use futures::util::wait_list::{Ticket, WaitList};
use std::alloc::{AllocError, Global};
use std::sync::atomic::{AtomicBool, Ordering};
use std::sync::{Arc, Mutex};
use std::thread::Parker;
use sup_desk::UpdateFault;

/// Why a supervisor is down.
#[derive(Clone, Copy, Debug, PartialEq, Eq)]
pub enum Cause {
    /// It gave up: there were more restarts than its intensity allows.
    GaveUp,
    /// It shut down, as a significant child had ended.
    ShutDown,
    /// A client stopped it.
    Stopped,
    /// It was down when the crew began.
    Before,
}

/// What a crew is.
#[derive(Clone, Copy, Debug, PartialEq, Eq)]
pub enum CrewState {
    /// It runs.
    Up,
    /// Its supervisor went down, and all children end.
    Down(Cause),
    /// It closes, and all children end.
    Closing,
    /// An update was refused for ever, for this cause. Nothing more is entered, and all children end.
    Failed(UpdateFault),
}

/// What the crew is, and the tasks that wait for its end.
#[derive(Drop)]
struct Standing {
    state: CrewState,
    waiters: WaitList<()>,
}

/// What a crew is, for all of its threads.
#[derive(Drop)]
pub struct Ends {
    source: Source,
    standing: Mutex<Standing>,
    closing: AtomicBool,
    /// Whether the children that are listed when the crew closes stay listed.
    keeping: AtomicBool,
    /// Wakes the driver.
    pub(crate) bell: Parker,
}

impl Ends {
    /// Makes what a crew is that runs, and keeps its children or not.
    pub(crate) fn new(alloc: Global, keeps: bool) -> Result<Arc<Ends>, AllocError> {
        let (state, waiters) = (CrewState::Up, WaitList::new(alloc)?);
        let ends = Ends {
            source: Source::new(),
            standing: Mutex::new(Standing { state, waiters }),
            closing: AtomicBool::new(false),
            keeping: AtomicBool::new(keeps),
            bell: Parker::new(),
        };
        Ok(Arc::new(alloc, ends)?)
    }

    /// Returns what the crew is.
    pub(crate) fn state(&self) -> CrewState {
        lock(&self.standing).map_or(CrewState::Up, |standing| standing.state)
    }

    /// Notes that the crew is this now, and wakes who waits. The first cause stays, but a failure comes over all others. Returns whether
    /// it was noted.
    pub(crate) fn note(&self, state: CrewState) -> bool {
        let Some(mut guard) = lock(&self.standing) else {
            return false;
        };
        let standing = &mut *guard;
        let is_over = matches!(state, CrewState::Failed(_));
        let is_noted = match standing.state {
            CrewState::Up => true,
            CrewState::Failed(_) => false,
            _ => is_over,
        };
        if is_noted {
            standing.state = state;
            standing.waiters.wake_all();
        }
        is_noted
    }

    /// Lets the children that are listed when the crew closes stay listed.
    pub(crate) fn keep_children(&self) {
        self.keeping.store(true, Ordering::SeqCst);
    }

    /// Lets the crew close: the driver stops the supervisor, unless its children are kept, and all children end.
    pub(crate) fn close(&self) {
        self.closing.store(true, Ordering::SeqCst);
        self.note(CrewState::Closing);
        self.bell.unpark();
    }

    /// Returns whether the crew is to close.
    pub(crate) fn is_closing(&self) -> bool {
        self.closing.load(Ordering::SeqCst)
    }

    /// Returns whether the crew is to close and keeps its children, so that nothing more is entered.
    pub(crate) fn is_suspended(&self) -> bool {
        self.is_closing() && self.keeping.load(Ordering::SeqCst)
    }

    /// Returns a future for the end, whose place among those that wait is taken now.
    pub(crate) fn ended(this: &Arc<Ends>) -> Result<Ended, AllocError> {
        let ends = Arc::try_clone(this)?;
        let Some(mut standing) = lock(&this.standing) else {
            return Err(AllocError);
        };
        let ticket = Some(standing.waiters.insert(())?);
        drop(standing);
        Ok(Ended { ends, ticket })
    }
}

/// Waits for the end of a crew: a future that is ready once the crew is down, closes or has failed, with which of these it is. It may be
/// polled in any thread, and outlives the client that gave it. Its place among those that wait is given back when it is dropped.
pub struct Ended {
    ends: Arc<Ends>,
    ticket: Option<Ticket>,
}

impl Future for Ended {
    ghost use Rattle.sup_live.specs.declared.ends.CrewState.{CrewState};

    type Output = CrewState;

    ghost gives = { λ ended state. state ≡ CrewState.Up → ⊥ };

    fn poll(&mut self, cx: &mut Context<'_>) -> Poll<CrewState> {
        let Some(mut guard) = lock(&self.ends.standing) else {
            return cx.yield_now();
        };
        let standing = &mut *guard;
        if standing.state != CrewState::Up {
            return Poll::Ready(standing.state);
        }
        let (source, ticket) = (&self.ends.source, &mut self.ticket);
        match standing.waiters.park(cx, source, ticket, ()) {
            Poll::Pending => Poll::Pending,
            // It has its place already, so it is never refused one.
            Poll::Ready(_) => cx.yield_now(),
        }
    }
}

impl Drop for Ended {
    fn drop(self) {
        let Ended { ends, ticket } = self;
        let Some(ticket) = ticket else {
            return;
        };
        match lock_or_give_up(&ends.standing) {
            Ok(mut standing) => standing.waiters.leave(Some(ticket)),
            Err(gave_up) => ticket.abandon(gave_up),
        }
    }
}
