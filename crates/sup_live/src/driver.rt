//! The driver: it enters exits, begins the children that were restarted, and tries failed restarts again.
ghost use Rattle.std.specs.Prelude.{◌≡◌, ◌≤◌, [], true, length, drop};
ghost use Rattle.std.specs.VecDeque.{deque_capacity};
ghost use Rattle.sup_exits.specs.Accounts.{IsNew};
ghost use Rattle.sup_live.specs.Starts.{HasReplies};
ghost use Rattle.sup_live.specs.Leads.{are_driven, IsLed};
ghost use Rattle.sup_live.specs.Restarts.{number_restarted, numbers_of};

use crate::behaviour::{Behaviour, Untaken};
use crate::clock::Moment;
use crate::ends::{Cause, CrewState};
use crate::host::Host;
use crate::hub::Hub;
use crate::lead::{Hands, answer_all, enter};
use crate::restarts::{BATCH, Restarts, Retry, Tally};
use crate::yard::CrewYard;
use std::alloc::{AllocError, Global};
use std::collections::VecDeque;
use std::sync::Wait;
use std::time::Duration;
use sup_desk::{Desk, Handle, HandleOf, Journal, Name, UpdateFault};
use sup_exits::{Account, Child, Office, OwedExit};
use sup_types::{Operation, OutOfMemory, Reply, Row, Seen, Starter, Status};

/// For how long the driver sleeps at most while something is to be done later.
const DOZE_MILLIS: u64 = 100;

/// A driver, before its run, in it and after it. By its type, its handle's calls since the run began are exits, later tries and the
/// stop, and its exits are those that were paid, in order and each once. Each child that was restarted by these calls was made.
#[derive(Drop)]
pub struct Driver<'d, N: Name, D, P: Host> {
    /// The handle and the accounts by which it works.
    pub(crate) hands: Hands<'d, N, D>,
    /// The exits that were taken and not entered, oldest first.
    pub held: VecDeque<OwedExit<P>>,
    operations: VecDeque<Operation>,
    restarts: Restarts,
    /// Whether memory was refused at the last turn.
    is_starved: bool,
    /// The fault that stopped it.
    pub fault: Option<UpdateFault>,
    ghost of_ledger: { (hands.restarted.ledger ≡ P.ledger) × (hands.entered.ledger ≡ P.ledger) },
    ghost at: { (hands.entered.parts ≡ 1) × (hands.restarted.parts ≡ 1) × (hands.restarted.paid ≡ []) },
    ghost begun: { hands.since ≤ length hands.handle.calls },
    ghost made: { HasReplies number_restarted N.template hands.since hands.handle (numbers_of hands.restarted.made) },
    ghost driven: { are_driven (drop hands.since hands.handle.calls) ≡ true },
    ghost led: { IsLed P.may_end (drop hands.since hands.handle.calls) hands.entered.paid [] },
    ghost room: { 64 ≤ deque_capacity held },
}

/// What a driver waits for while the crew closes.
#[derive(Clone, Copy)]
pub(crate) enum Goal {
    /// All children have ended, or the moment has come.
    Ended(Moment),
    /// All workers have gone.
    Gone,
}

/// Returns how long to sleep until the first of these moments, at most as long as a driver does.
fn time_until(now: Moment, first: Option<Moment>, second: Option<Moment>) -> Duration {
    let mut millis = DOZE_MILLIS;
    for moment in [first, second] {
        if let Some(moment) = moment {
            millis = millis.min(moment.millis.saturating_sub(now.millis));
        }
    }
    Duration::from_millis(millis)
}

impl<'d, N: Name, S: Starter + Drop, Q: Wait + Drop, J: Journal + Drop, P: Host> Driver<
    'd,
    N,
    Desk<N, S, Q, J>,
    P,
> {
    /// Makes a driver that begins, with room for the first exits and retries. A restart that failed is tried again after this time.
    /// Nothing was made or paid by the accounts.
    pub fn new(
        alloc: Global,
        handle: Handle<'d, N, S, Q, J>,
        entered: Account,
        restarted: Account,
        retry_after: Duration,
    ) -> Result<Driver<'d, N, Desk<N, S, Q, J>, P>, AllocError>
        requires { IsNew P.ledger 1 entered × IsNew P.ledger 1 restarted }
    {
        let held = VecDeque::with_capacity(alloc, BATCH)?;
        let operations = VecDeque::with_capacity(alloc, BATCH)?;
        let restarts = Restarts::new(alloc, retry_after)?;
        let since = handle.calls();
        let hands = Hands {
            handle,
            since,
            entered,
            restarted,
        };
        Ok(Driver {
            hands,
            held,
            operations,
            restarts,
            is_starved: false,
            fault: None,
        })
    }

    /// Begins a child again that an earlier run left, with room for its exit in the queue at this place. A restart that had failed is
    /// tried again at this moment.
    fn resume<B: Behaviour>(
        &mut self,
        yard: &CrewYard<'_, B, P>,
        moment: Moment,
        row: Row,
        place: usize,
    ) -> Result<(), AllocError> {
        let (number, arg) = (row.number, row.arg);
        let child = Child { number, arg };
        match row.status {
            Status::Running => {
                let Hands {
                    handle,
                    entered,
                    ..
                } = &mut self.hands;
                let _ = yard.begin(handle, entered, moment, child, None, place);
                Ok(())
            }
            Status::Restarting => self.restarts.resume(Retry {
                child,
                place,
                at: moment,
            }),
        }
    }

    /// Begins all children again that the history lists, each under its number and owning nothing. If memory is refused, some have begun,
    /// and nothing is entered.
    #[tactic(auto, using(crate::specs::ReplyLaws::seen_more))]
    pub(crate) fn resume_all<B: Behaviour>(
        &mut self,
        yard: &CrewYard<'_, B, P>,
    ) -> Result<(), OutOfMemory> {
        let rows = match self.hands.handle.which_children() {
            Ok(Seen::Up(rows)) => rows,
            Ok(Seen::Down) => {
                yard.hub.went_down(Cause::Before);
                return Ok(());
            }
            Err(_) => return Err(OutOfMemory),
        };
        let moment = yard.now();
        for row in rows {
            let place = yard.hub.make_rooms(1)?;
            self.resume(yard, moment, row, place)?;
        }
        Ok(())
    }

    /// Returns whether the history lists this child no more.
    #[tactic(auto, using(crate::specs::ReplyLaws::seen_more))]
    fn is_unlisted(&mut self, number: u64) -> bool
        ensures { self.new.restarts ≡ self.old.restarts }
    {
        matches!(self.hands.handle.child(number), Ok(Seen::Up(None)))
    }

    /// Tries again the restarts whose moment has come. One that is refused stays the first. One whose child is listed no more, since it was
    /// terminated, is not tried, and none is of a supervisor that is down.
    fn retry_due<B: Behaviour>(&mut self, yard: &CrewYard<'_, B, P>, moment: Moment) {
        if let CrewState::Down(_) = yard.hub.state() {
            return self.restarts.forget_all(yard, Reply::Down);
        }
        for _ in 0..self.restarts.len() {
            let Some(retry) = self.restarts.first_due(moment) else {
                return;
            };
            let (hub, number) = (yard.hub, retry.child.number);
            if self.is_unlisted(number) {
                self.restarts.pop();
                yard.forget(number, retry.place, Untaken::Replied(Reply::Ended));
                continue;
            }
            let tried = self.hands.handle.retry(&hub.rt, moment.seconds(), number);
            hub.note(&Operation::Retry(number), &tried);
            match tried {
                Ok(done) => {
                    let (hands, restarts) = (&mut self.hands, &mut self.restarts);
                    restarts.pop();
                    let of = Retry {
                        at: moment,
                        ..retry
                    };
                    restarts.answer(yard, hands, of, done.reply, true);
                    hub.tell_change();
                }
                Err(fault) => return self.refused(yard.hub, fault),
            }
        }
    }

    /// Takes note of a refusal: after one of memory there is another turn, and all else stops the driver.
    fn refused<B: Behaviour>(&mut self, hub: &Hub<B, P>, fault: UpdateFault) {
        hub.fail(fault);
        if let UpdateFault::OutOfMemory = fault {
            self.is_starved = true;
        } else {
            self.fault = Some(fault);
        }
    }

    /// Takes exits, enters them, and does what the replies ask for. Returns whether any was entered. Those that were not are held, and
    /// come first next time.
    fn enter<B: Behaviour>(&mut self, yard: &CrewYard<'_, B, P>, moment: Moment) -> bool {
        if self.fault.is_some() || yard.hub.ends.is_suspended() {
            return false;
        }
        let limit = self.restarts.room();
        self.is_starved = limit == 0;
        yard.hub.take_exits(&mut self.held, limit);
        let count = self.held.len().min(limit);
        if count == 0 {
            return false;
        }
        let (rt, alloc, held) = (&yard.hub.rt, yard.hub.alloc, &mut self.held);
        let (handle, operations) = (&mut self.hands.handle, &mut self.operations);
        let second = moment.seconds();
        let (replies, fault) = enter(rt, alloc, handle, second, held, count, operations);
        let any = !replies.is_empty();
        let (hands, restarts) = (&mut self.hands, &mut self.restarts);
        answer_all(yard, moment, replies, hands, held, restarts);
        if let Some(fault) = fault {
            self.refused(yard.hub, fault);
        }
        if any {
            yard.hub.tell_change();
        }
        any
    }

    /// Sleeps until it is woken or, if something is to be done later, until then.
    fn sleep<B: Behaviour>(&self, hub: &Hub<B, P>, moment: Moment, next: Option<Moment>) {
        if self.is_starved {
            hub.doze(time_until(moment, next, None));
            return;
        }
        let due = self.restarts.next();
        if next.is_some() || due.is_some() {
            hub.doze(time_until(moment, next, due));
        } else {
            hub.sleep();
        }
    }

    /// Takes one turn. Returns whether the crew is to close.
    fn turn<B: Behaviour>(&mut self, yard: &CrewYard<'_, B, P>) -> bool {
        let moment = yard.now();
        let any = self.enter(yard, moment);
        if self.fault.is_none() {
            self.retry_due(yard, moment);
        }
        let next = yard.hub.expire(moment);
        if self.fault.is_some() || yard.hub.ends.is_closing() || yard.hub.has_failed() {
            return true;
        }
        if !any {
            self.sleep(yard.hub, moment, next);
        }
        false
    }

    /// Stops the supervisor, if it is up. While memory is refused it tries again.
    fn stop<B: Behaviour>(&mut self, yard: &CrewYard<'_, B, P>) {
        if self.fault.is_some() || self.restarts.is_down || yard.hub.ends.is_suspended() {
            return;
        }
        let hub = yard.hub;
        for _ in hub.rt.forever() {
            let stopped = self.hands.handle.stop(&hub.rt, yard.now().seconds());
            hub.note(&Operation::Stop, &stopped);
            match stopped {
                Ok(_) => {
                    hub.tell_change();
                    self.restarts.is_down = true;
                    return;
                }
                Err(UpdateFault::OutOfMemory) => hub.doze(Duration::from_millis(DOZE_MILLIS)),
                Err(fault) => {
                    self.fault = Some(fault);
                    return;
                }
            }
        }
    }

    /// Enters exits until the goal is reached.
    fn enter_until<B: Behaviour>(&mut self, yard: &CrewYard<'_, B, P>, goal: Goal) {
        let hub = yard.hub;
        for _ in hub.rt.forever() {
            let moment = yard.now();
            // Asked first: what waited before it was reached is then entered.
            let is_reached = match goal {
                Goal::Ended(until) => hub.have_all_ended() || until.millis <= moment.millis,
                Goal::Gone => hub.have_all_gone(),
            };
            let any = self.enter(yard, moment);
            let next = hub.expire(moment);
            if any {
                continue;
            }
            if is_reached {
                return;
            }
            hub.doze(time_until(moment, next, None));
        }
    }

    /// Closes the crew: stops the supervisor, asks all children to end, lets them go when their grace is over, and enters
    /// their exits. If the children are kept, it does not stop the supervisor, and enters nothing.
    fn close<B: Behaviour>(&mut self, yard: &CrewYard<'_, B, P>) {
        self.stop(yard);
        let moment = yard.now();
        yard.hub.end_all(moment);
        self.enter_until(yard, Goal::Ended(yard.hub.until(moment)));
        yard.shut_down();
        self.enter_until(yard, Goal::Gone);
        yard.forget_all();
        if self.is_starved && self.fault.is_none() {
            self.fault = Some(UpdateFault::OutOfMemory);
        }
    }

    /// Drives the crew until it is to close, and closes it: stops the supervisor, asks all children to end, lets them go when
    /// their grace is over, and enters their exits until all workers have gone.
    pub fn drive<B: Behaviour>(&mut self, yard: &CrewYard<'_, B, P>) {
        for _ in yard.hub.rt.forever() {
            if self.turn(yard) {
                break;
            }
        }
        self.close(yard);
    }

    /// Returns how many children are listed: none if the supervisor is down.
    #[tactic(auto, using(crate::specs::ReplyLaws::seen_more))]
    pub(crate) fn listed(&mut self) -> u64 {
        match self.hands.handle.count_children() {
            Ok(Seen::Up(counts)) => counts.supervisors.max(counts.workers),
            _ => 0,
        }
    }

    /// Returns what was replied so far.
    pub fn tally(&self) -> Tally {
        self.restarts.tally
    }
}
