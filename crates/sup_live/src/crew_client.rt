//! The client of a crew: a handle of its desk, with the right to run children.
ghost use Rattle.std.specs.Prelude.{◌≡◌, length, IfOk};

use crate::alive::Alive;
use crate::ask::{Answer, NotAnswered, left_of};
use crate::batch::{Places, begin_all, enter_all};
use crate::behaviour::Behaviour;
use crate::client::{LiveClient, Queries};
use crate::ends::{Cause, Ends};
use crate::host::Host;
use crate::left::{Caller, Returned};
use crate::mailbox::{ChildRef, Told};
use crate::started::{NotStarted, Started, StartedAll};
use crate::yard::Yard;
use futures::Future;
use std::collections::VecDeque;
use std::marker::Model;
use std::sync::{Arc, Wait};
use std::time::{Duration, Instant};
use sup_desk::{Asker, Desk, Done, Handle, HandleFault, Journal, Name, QueryFault, UpdateFault};
use sup_exits::{Account, Office};
use sup_log::{NoPlace, Ticket, View};
use sup_types::{Counts, Operation, Reply, Row, Seen, Starter, Template, Text};

/// A client of a crew. It does not give its handle out while it is one: an exit that was entered past the crew would be a second
/// one. When it is dropped, its handle is returned.
pub(crate) struct Client<
    't,
    'o,
    'h,
    'd,
    N: Name,
    S: Starter + Drop,
    Q: Wait + Drop,
    J: Journal + Drop,
    B: Behaviour,
    P: Host,
    F: Future,
> {
    returned: &'o Returned<N, P>,
    handle: Handle<'d, N, S, Q, J>,
    yard: &'t Yard<'h, B, P, F>,
    /// The account of the children that it starts.
    account: Account,
    /// How many updates the handle had made before.
    since: u64,
}

/// A client whose crew's tasks are children.
pub(crate) type CrewClient<'t, 'o, 'h, 'd, N, S, Q, J, B, P> = Client<
    't,
    'o,
    'h,
    'd,
    N,
    S,
    Q,
    J,
    B,
    P,
    Alive<'h, B, P>,
>;

impl<
    't,
    'o,
    'h,
    'd,
    N: Name,
    S: Starter + Drop,
    Q: Wait + Drop,
    J: Journal + Drop,
    B: Behaviour,
    P: Host,
    F: Future,
> Model for Client<'t, 'o, 'h, 'd, N, S, Q, J, B, P, F> {
    ghost use Rattle.std.specs.Prelude.{◌≡◌, ◌≤◌, [], length};
    ghost use Rattle.sup_live.specs.Callers.{Used};
    ghost use Rattle.sup_live.specs.Starts.{HasStarted};

    ghost Value = { Used };

    ghost view = { λ c. record { knows = c.handle; since = c.since } };

    ghost invariant = { λ c. (c.account.ledger ≡ P.ledger) × (c.account.parts ≡ 1) × (c.account.paid ≡ []) × (c.since ≤ length c.handle.calls) × HasStarted N.template c.since c.handle c.account.made };
}

impl<
    't,
    'o,
    'h,
    'd,
    N: Name,
    S: Starter + Drop,
    Q: Wait + Drop,
    J: Journal + Drop,
    B: Behaviour,
    P: Host,
    F: Future,
> Client<'t, 'o, 'h, 'd, N, S, Q, J, B, P, F> {
    /// Makes a client to the children of the yard, by a handle of an earlier run that none has used yet or, if there is none, by a new one.
    pub(crate) fn open(
        desk: &'d Desk<N, S, Q, J>,
        yard: &'t Yard<'h, B, P, F>,
        returned: &'o Returned<N, P>,
    ) -> Result<Self, HandleFault>
        ensures { IfOk result (λ client. client.since ≡ length client.knows.calls) }
    {
        let hub = yard.hub;
        let spare = returned.lock(&hub.rt).spare.pop();
        let handle = match spare {
            Some(spare) => desk.bind(spare),
            None => desk.handle(&hub.rt)?,
        };
        let Some(account) = returned.lock(&hub.rt).split(&hub.ledger) else {
            return Err(HandleFault::NoHandle);
        };
        let since = handle.calls();
        Ok(Client {
            returned,
            handle,
            yard,
            account,
            since,
        })
    }
}

impl<
    't,
    'o,
    'h,
    'd,
    N: Name,
    S: Starter + Drop,
    Q: Wait + Drop,
    J: Journal + Drop,
    B: Behaviour,
    P: Host,
    F: Future,
> Drop for Client<'t, 'o, 'h, 'd, N, S, Q, J, B, P, F> {
    fn drop(self) {
        let Client {
            returned,
            handle,
            yard,
            account,
            since,
        } = self;
        let (hub, handle) = (yard.hub, handle.unbind().0);
        let caller = Caller { handle, since };
        returned.lock(&hub.rt).add(&hub.ledger, caller, account);
    }
}

impl<
    't,
    'o,
    'h,
    'd,
    N: Name,
    S: Starter + Drop,
    Q: Wait + Drop,
    J: Journal + Drop,
    B: Behaviour,
    P: Host,
> Queries for Client<'t, 'o, 'h, 'd, N, S, Q, J, B, P, Alive<'h, B, P>> {
    ghost press = { N.press };

    ghost template = { N.template };

    ghost knows = { λ c. c.knows };

    type Name = N;

    fn number(&self) -> u64 {
        self.handle.number()
    }

    fn front(&self) -> u64 {
        self.handle.front()
    }

    fn template(&self) -> &Template {
        self.handle.template()
    }

    #[tactic(auto, using(crate::specs::ReplyLaws::seen_more))]
    fn count_children(&mut self) -> Result<Seen<Counts>, sup_log::Gone> {
        self.handle.count_children()
    }

    fn await_change(
        &mut self,
        seen: Seen<Counts>,
        limit: Duration,
    ) -> Result<Seen<Counts>, sup_log::Gone> {
        let (rt, changed) = (&self.yard.hub.rt, &self.yard.hub.changed);
        let start = Instant::now(rt).ok();
        for _ in rt.forever() {
            // Read before the counts, so that a change after them ends the sleep.
            let noted = changed.notifications();
            let now = self.count_children()?;
            let left = left_of(rt, start, limit);
            let has_failed = self.yard.hub.has_failed();
            if now != seen || now == Seen::Down || has_failed || left.is_zero() {
                return Ok(now);
            }
            changed.sleep(rt, noted, left);
        }
        unreachable!()
    }

    #[tactic(auto, using(crate::specs::ReplyLaws::seen_more))]
    fn child(&mut self, number: u64) -> Result<Seen<Option<Row>>, sup_log::Gone> {
        self.handle.child(number)
    }

    #[tactic(auto, using(crate::specs::ReplyLaws::seen_more))]
    fn which_children(&mut self) -> Result<Seen<Vec<Row>>, QueryFault> {
        self.handle.which_children()
    }

    #[tactic(auto, using(crate::specs::ReplyLaws::seen_more))]
    fn inspect<T, G: FnOnce(&View) -> T>(&mut self, f: G) -> Result<Seen<T>, sup_log::Gone> {
        self.handle.inspect(f)
    }

    #[tactic(auto, using(crate::specs::ReplyLaws::seen_more))]
    fn learn(&mut self, ticket: &Ticket) -> Result<(), sup_log::Gone> {
        self.handle.learn(ticket)
    }

    fn asker(&self) -> Result<Asker<N>, NoPlace> {
        self.handle.desk().asker(&self.yard.hub.rt)
    }
}

impl<
    't,
    'o,
    'h,
    'd,
    N: Name,
    S: Starter + Drop,
    Q: Wait + Drop,
    J: Journal + Drop,
    B: Behaviour,
    P: Host,
> LiveClient<B> for Client<'t, 'o, 'h, 'd, N, S, Q, J, B, P, Alive<'h, B, P>> {
    ghost may_answer = { S.may_answer };

    ghost may_fail = { J.may_fail };

    ghost since = { λ c. c.since };

    fn start_child(&mut self, arg: Text, own: B::Own) -> Result<Started<B>, NotStarted<B::Own>> {
        let hub = self.yard.hub;
        let Ok(place) = hub.make_rooms(1) else {
            let fault = UpdateFault::OutOfMemory;
            return Err(NotStarted { fault, own });
        };
        let moment = self.yard.now();
        let started = self.handle.start_child(&hub.rt, moment.seconds(), arg);
        hub.note(&Operation::Start(arg), &started);
        match started {
            Ok(Done { reply, ticket }) => {
                let (handle, account) = (&mut self.handle, &mut self.account);
                let (child, own) = self
                    .yard
                    .begin_started(handle, account, moment, arg, own, place, &reply);
                hub.tell_change();
                Ok(Started {
                    reply,
                    ticket,
                    child,
                    own,
                })
            }
            Err(fault) => {
                hub.free_rooms(place, 1);
                Err(NotStarted { fault, own })
            }
        }
    }

    fn start_all(&mut self, list: &mut VecDeque<(Text, B::Own)>) -> StartedAll<B::Message, B::Own> {
        let (hub, count) = (self.yard.hub, list.len());
        let mut started = Vec::new(hub.alloc);
        let room = match started.reserve(count) {
            Ok(()) => hub.make_rooms(count).ok(),
            Err(_) => None,
        };
        let Some(queue) = room else {
            return StartedAll {
                started,
                ticket: None,
                fault: Some(UpdateFault::OutOfMemory),
            };
        };
        let (moment, handle) = (self.yard.now(), &mut self.handle);
        let second = moment.seconds();
        let (replies, ticket, fault) = enter_all(hub, handle, second, list);
        let (entered, stamp) = (replies.len(), ticket.as_ref().map_or(0, Ticket::stamp));
        let entry = stamp.wrapping_sub(entered as u64).wrapping_add(1);
        let first = Places { entry, queue };
        let (handle, account) = (&mut self.handle, &mut self.account);
        begin_all(
            self.yard,
            handle,
            account,
            moment,
            replies,
            first,
            list,
            &mut started,
        );
        hub.free_rooms(queue.wrapping_add(entered), list.len());
        hub.tell_change();
        StartedAll {
            started,
            ticket,
            fault,
        }
    }

    fn terminate_child(&mut self, number: u64) -> Result<Done, UpdateFault> {
        let (hub, moment) = (self.yard.hub, self.yard.now());
        let ended = self
            .handle
            .terminate_child(&hub.rt, moment.seconds(), number);
        hub.note(&Operation::Terminate(number), &ended);
        if let Ok(done) = &ended
            && let Reply::Ended = done.reply
        {
            self.yard.end(number, moment, Told::Terminated);
            hub.tell_change();
        }
        ended
    }

    fn stop(&mut self) -> Result<Done, UpdateFault> {
        let (hub, moment) = (self.yard.hub, self.yard.now());
        let stopped = self.handle.stop(&hub.rt, moment.seconds());
        hub.note(&Operation::Stop, &stopped);
        if let Ok(done) = &stopped
            && let Reply::Stopped = done.reply
        {
            hub.went_down(Cause::Stopped);
            hub.end_all(moment);
            hub.tell_change();
        }
        stopped
    }

    fn await_end(&self, number: u64) {
        self.yard.hub.await_end(number);
    }

    fn address(&self, number: u64) -> Option<ChildRef<B::Message>> {
        self.yard.hub.address(number)
    }

    fn ask<T: Drop, G: FnOnce(Answer<T>) -> B::Message>(
        &self,
        number: u64,
        make: G,
        limit: Duration,
    ) -> Result<T, NotAnswered<B::Message>> {
        let hub = self.yard.hub;
        let asked = match hub.address(number) {
            Some(address) => address.ask(&hub.rt, hub.alloc, make, limit),
            None => Err(NotAnswered::NoChild),
        };
        match asked {
            Err(NotAnswered::NoChild | NotAnswered::Ended) if hub.why().is_some() => {
                Err(NotAnswered::CrewEnded(hub.state()))
            }
            asked => asked,
        }
    }

    fn ends(&self) -> &Arc<Ends> {
        &self.yard.hub.ends
    }

    fn another(&self) -> Result<Self, HandleFault> {
        Client::open(self.handle.desk(), self.yard, self.returned)
    }
}
