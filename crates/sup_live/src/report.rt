//! What a crew did.
ghost use Rattle.std.specs.Prelude.{◌≡◌, ◌≤◌, ◌↔◌, ◌⊎◌, [], ◌∷◌, ◌++◌, IsTrue, IsSome, IfSome, Some, MatchOption, vec_len};
ghost use Rattle.sup_live.specs.Callers.{used, knowledge_of};
ghost use Rattle.sup_live.specs.Wholes.{AreAtHand, IsReport, IsWhole, run_callers};

use crate::behaviour::Behaviour;
use crate::host::Host;
use crate::hub::Hub;
use crate::lead::Hands;
use crate::left::{Caller, Left};
use crate::peers::NotRun;
use crate::restarts::Tally;
use crate::threads::Joined;
use std::alloc::Global;
use std::sync::Wait;
use sup_desk::{Desk, DetachedHandle, Handle, Journal, Name, UpdateFault};
use sup_exits::{Exit, Office};
use sup_log::Ticket;
use sup_types::Starter;

/// A caller of a run: a handle of its desk. The entries of this handle from that serial on are those that it made in the run.
#[derive(Clone, Copy, Debug, PartialEq, Eq)]
pub struct RunCaller {
    /// The number of the handle.
    pub handle: u64,
    /// How many updates it had made before the run.
    pub since: u64,
}

/// What a crew did, once all its threads were joined. Each child that it made has one exit, which was entered or is in the list, or
/// is among those that are owed.
#[derive(Drop)]
pub struct CrewReport<T: Drop, U: Drop = ()> {
    /// What came of the program.
    pub outcome: T,
    /// What came of each peer, in their order, or why it did not run.
    pub peers: Vec<Result<U, NotRun>>,
    /// How many children were made: by clients, restarts and later tries.
    pub made: u64,
    /// How many exits the driver entered.
    pub exits: u64,
    /// What was replied to the driver.
    pub tally: Tally,
    /// The exits that were not entered.
    pub left: Vec<Exit>,
    /// How many of the children that were made have no exit that was entered or is in the list. Each child has ended, and room for
    /// its exit was made before it was started, so there are none; but if memory is refused for the list, it is cut short, and
    /// the rest are counted here. `None` if that is not known: a program leaked its client.
    pub owed: Option<u64>,
    /// The callers of the run: the driver, and then the clients. There are none if memory was refused for the list.
    pub callers: Vec<RunCaller>,
    /// How many callers were lost, as memory was refused. Then there is no audit.
    pub lost: u64,
    /// How many children the history lists still: 0 unless they were kept.
    pub listed: u64,
    /// The fault that stopped the driver.
    pub fault: Option<UpdateFault>,
    /// A ticket for the whole history, if it is the calls of the driver, of the clients and of the earlier handles, and nothing
    /// else, as the audit showed. None also if memory was refused for the audit.
    pub audit: Option<Ticket>,
}

impl<T: Drop, U: Drop> CrewReport<T, U> {
    /// Returns whether each child that was made has an exit that was entered or is in the list, and no other has.
    pub fn adds_up(&self) -> bool
        ensures { IsTrue result ↔ (self.now.owed ≡ Some 0) }
    {
        self.owed == Some(0)
    }

    /// Returns whether the history is the calls of the driver, of the clients and of the earlier handles, and nothing else.
    pub fn is_audited(&self) -> bool
        ensures { IsTrue result ↔ IsSome self.now.audit }
    {
        self.audit.is_some()
    }
}

/// Lists the callers of a run in this list, the driver first, or returns none if memory is refused.
fn list_callers<N: Name, D>(
    told: Vec<RunCaller>,
    hands: &Hands<'_, N, D>,
    clients: &[Caller<N>],
) -> Option<Vec<RunCaller>>
    requires { told.items ≡ [] }
    ensures { IfSome result (λ callers. callers.items ≡ run_callers (used hands.now.handle hands.now.since ∷ clients.now)) }
{
    let mut callers = told;
    callers
        .push(RunCaller {
            handle: hands.handle.number(),
            since: hands.since,
        })
        .ok()?;
    for client in clients {
        let (handle, since) = (client.handle.number(), client.since);
        callers.push(RunCaller { handle, since }).ok()?;
    }
    Some(callers)
}

/// Lists the callers of a run in this list, the driver first, and returns how many were lost. If memory is refused, none is listed.
fn tell_callers<N: Name, D, P: Host>(
    alloc: Global,
    told: Vec<RunCaller>,
    hands: &Hands<'_, N, D>,
    clients: &Left<N, P>,
) -> (Vec<RunCaller>, u64)
    requires { told.items ≡ [] }
    ensures { (result.0.items ≡ run_callers (used hands.now.handle hands.now.since ∷ clients.now.callers.items)) ⊎ (1 ≤ result.1) }
{
    match list_callers(told, hands, clients.callers.as_slice()) {
        Some(callers) => (callers, clients.lost),
        None => (Vec::new(alloc), clients.lost.max(1)),
    }
}

/// Says what the crew did, and audits its desk. Returns the handles of the crew, and of those that were not used.
pub(crate) fn conclude<'d, N, S, Q, J, B, P, T, U>(
    alloc: Global,
    desk: &'d Desk<N, S, Q, J>,
    hub: Hub<B, P>,
    joined: Joined<'d, N, Desk<N, S, Q, J>, P, T, U>,
    clients: Left<N, P>,
    room: Vec<Handle<'d, N, S, Q, J>>,
    told: Vec<RunCaller>,
) -> (CrewReport<T, U>, Vec<Handle<'d, N, S, Q, J>>)
where
    N: Name,
    S: Starter + Drop,
    Q: Wait + Drop,
    J: Journal + Drop,
    B: Behaviour,
    P: Host,
    T: Drop,
    U: Drop,
    requires { (room.items ≡ []) × (told.items ≡ []) }
    ensures report { IsReport P.may_end N.template (vec_len joined.entry.peers) result.1.items result.0 }
    ensures press { IfSome result.0.audit (λ t. t.press ≡ N.press) }
{
    let mut driver = joined.driver;
    let listed = driver.listed();
    let (callers, lost) = tell_callers(alloc, told, &driver.hands, &clients);
    let (tally, exits) = (driver.tally(), driver.hands.entered.paid());
    let mut account = driver.hands.entered;
    hub.ledger.join(&mut account, driver.hands.restarted);
    hub.ledger.join(&mut account, clients.account);
    let all = bind_all(
        desk,
        room,
        driver.hands.handle,
        clients.callers,
        clients.spare,
    );
    let (handles, audit) = audited(&hub.rt, alloc, desk, all, lost);
    let (left, totals) = hub.settle(alloc, account, driver.held);
    let report = CrewReport {
        outcome: joined.outcome,
        peers: joined.peers,
        made: totals.made,
        exits,
        tally,
        left,
        owed: totals.owed,
        callers,
        lost,
        listed,
        fault: driver.fault,
        audit,
    };
    (report, handles)
}

/// Binds the driver's handle, those of the clients, and those that were not used, in this list. If memory is refused, there is none.
fn bind_all<'d, N: Name, S: Starter + Drop, Q: Wait + Drop, J: Journal + Drop>(
    desk: &'d Desk<N, S, Q, J>,
    room: Vec<Handle<'d, N, S, Q, J>>,
    driver: Handle<'d, N, S, Q, J>,
    clients: Vec<Caller<N>>,
    spare: Vec<DetachedHandle<N>>,
) -> Option<Vec<Handle<'d, N, S, Q, J>>>
    requires { room.items ≡ [] }
    ensures { IfSome result (λ handles. handles.items ≡ driver.entry ∷ (knowledge_of clients.items ++ spare.items)) }
{
    let mut handles = room;
    handles.push(driver).ok()?;
    for client in clients {
        handles.push(desk.bind(client.handle)).ok()?;
    }
    for caller in spare {
        handles.push(desk.bind(caller)).ok()?;
    }
    Some(handles)
}

/// Shows that the history is the calls of these handles, and nothing else. Returns the handles, in the order of making, and a ticket for
/// that history. There is no audit if callers were lost.
fn audited<'d, N: Name, S: Starter + Drop, Q: Wait + Drop, J: Journal + Drop, R: Wait>(
    rt: &R,
    alloc: Global,
    desk: &'d Desk<N, S, Q, J>,
    all: Option<Vec<Handle<'d, N, S, Q, J>>>,
    lost: u64,
) -> (Vec<Handle<'d, N, S, Q, J>>, Option<Ticket>)
    ensures audited { MatchOption result.1 (MatchOption all.entry (result.0.items ≡ []) (λ handles. AreAtHand handles.items result.0.items))
        (λ t. (lost ≡ 0) × MatchOption all.entry ⊥ (λ handles. IsWhole handles.items result.0.items t.front)) }
    ensures press { IfSome result.1 (λ t. t.press ≡ N.press) }
{
    let Some(mut handles) = all else {
        return (Vec::new(alloc), None);
    };
    handles.sort_unstable_by_key(|handle| handle.number());
    if lost > 0 || !Handle::are_in_order(handles.as_slice()) {
        return (handles, None);
    }
    let audit = desk.audit(rt, handles.as_mut_slice()).ok();
    (handles, audit)
}
