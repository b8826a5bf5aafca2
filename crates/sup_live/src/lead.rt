//! How exits are entered, and what the replies ask for.
ghost use Rattle.std.specs.Prelude.{◌≡◌, ◌+◌, ◌≤◌, [], ◌++◌, length, take, drop, OnOk, IfNone, vec_len};
ghost use Rattle.std.specs.VecDeque.{deque_len, deque_capacity};
ghost use mathlib.Core.List.{IsPrefix};
ghost use Rattle.sup_exits.specs.Exits.{operations_of};
ghost use Rattle.sup_live.specs.Leads.{IsLed, HasEntered};
ghost use Rattle.sup_live.specs.Restarts.{restarted_among, numbers_of};

use crate::behaviour::Behaviour;
use crate::clock::Moment;
use crate::host::Host;
use crate::restarts::{Restarts, Retry};
use crate::yard::CrewYard;
use std::alloc::{AllocError, Global};
use std::collections::VecDeque;
use std::sync::Wait;
use sup_desk::{Dones, Handle, HandleOf, Journal, Name, Part, UpdateFault};
use sup_exits::{Account, Exit, Office, OwedExit};
use sup_types::{Operation, Reply, Starter};

/// The handle by which a driver makes its updates, the account by which the exits are paid that it entered and the children made that
/// an earlier run left, and the account by which the children are made that were restarted.
#[derive(Drop)]
pub(crate) struct Hands<'d, N: Name, D> {
    pub(crate) handle: HandleOf<'d, N, D>,
    /// How many updates the handle had made before the run.
    pub(crate) since: u64,
    pub(crate) entered: Account,
    pub(crate) restarted: Account,
}

/// Lists how the first exits are entered, in place of what the list had.
#[tactic(auto, using(crate::proofs::Led::listed_more))]
fn list<I: Office>(
    held: &VecDeque<OwedExit<I>>,
    count: usize,
    operations: &mut VecDeque<Operation>,
) -> Result<(), AllocError>
    requires { count ≤ deque_len held.now }
    ensures { OnOk result (operations.new.items ≡ operations_of (take count held.now.items)) }
{
    operations.clear();
    operations.reserve(count)?;
    for at in 0..count {
        let Exit { child, reason } = held[at].exit();
        operations.push_back_reserved(Operation::Exit(child.number, reason));
    }
    Ok(())
}

/// Reports to the watcher how the first exits were entered, by the stamp of the last.
fn tell_all<P: Host>(rt: &P, held: &VecDeque<OwedExit<P>>, replies: &[Reply], stamp: u64) {
    let mut place = stamp.wrapping_sub(replies.len() as u64);
    for (exit, reply) in held.iter().zip(replies) {
        let Exit { child, reason } = exit.exit();
        place = place.wrapping_add(1);
        rt.entered(place, &Operation::Exit(child.number, reason), reply);
    }
}

/// Enters the first exits, in order and in one step, at this moment, in seconds. Returns the replies to those that were entered, and
/// why the others were not.
pub(crate) fn enter<N: Name, S: Starter + Drop, Q: Wait + Drop, J: Journal + Drop, P: Host>(
    rt: &P,
    alloc: Global,
    handle: &mut Handle<'_, N, S, Q, J>,
    second: u64,
    held: &VecDeque<OwedExit<P>>,
    count: usize,
    operations: &mut VecDeque<Operation>,
) -> (Vec<Reply>, Option<UpdateFault>)
    requires { (1 ≤ count) × (count ≤ deque_len held.now) }
    ensures all { IfNone result.1 (vec_len result.0 ≡ count) }
    ensures few { vec_len result.0 ≤ count }
    ensures entered { HasEntered N.template handle.old handle.new (take (vec_len result.0) held.now.items) result.0.items }
{
    if list(held, count, operations).is_err() {
        return (Vec::new(alloc), Some(UpdateFault::OutOfMemory));
    }
    match handle.apply_all(rt, alloc, second, operations) {
        Ok(Dones { replies, ticket }) => {
            tell_all(rt, held, replies.as_slice(), ticket.stamp());
            (replies, None)
        }
        Err(
            Part {
                replies,
                ticket,
                fault,
            },
        ) => {
            let stamp = ticket.map_or(0, |ticket| ticket.stamp());
            tell_all(rt, held, replies.as_slice(), stamp);
            (replies, Some(fault))
        }
    }
}

/// Does what the replies to the first exits ask for: pays each exit, begins the child that was restarted, if one was, and leaves the
/// rest to the restarts.
pub(crate) fn answer_all<N: Name, D, B: Behaviour, P: Host>(
    yard: &CrewYard<'_, B, P>,
    moment: Moment,
    replies: Vec<Reply>,
    hands: &mut Hands<'_, N, D>,
    held: &mut VecDeque<OwedExit<P>>,
    restarts: &mut Restarts,
)
    requires held { vec_len replies ≤ deque_len held.old }
    requires room { deque_len restarts.old.retries + vec_len replies ≤ deque_capacity restarts.old.retries }
    requires entered { (hands.old.entered.ledger ≡ P.ledger) × (hands.old.entered.parts ≡ 1) }
    requires restarted { (hands.old.restarted.ledger ≡ P.ledger) × (hands.old.restarted.parts ≡ 1) × (hands.old.restarted.paid ≡ []) }
    requires led { IsLed P.may_end (drop hands.old.since hands.old.handle.calls) hands.old.entered.paid (take (vec_len replies) held.old.items) }
    ensures front { IsPrefix hands.old.handle.front hands.new.handle.front }
    ensures calls { (hands.new.handle.calls ≡ hands.old.handle.calls) × (hands.new.handle.number ≡ hands.old.handle.number) × (hands.new.since ≡ hands.old.since) }
    ensures entered { (hands.new.entered.ledger ≡ P.ledger) × (hands.new.entered.parts ≡ 1) }
    ensures restarted { (hands.new.restarted.ledger ≡ P.ledger) × (hands.new.restarted.parts ≡ 1) × (hands.new.restarted.paid ≡ []) }
    ensures led { IsLed P.may_end (drop hands.new.since hands.new.handle.calls) hands.new.entered.paid [] }
    ensures made { numbers_of hands.new.restarted.made ≡ numbers_of hands.old.restarted.made ++ restarted_among replies.items }
    ensures room { deque_capacity held.new ≡ deque_capacity held.old }
{
    for reply in replies {
        let Some(exit) = held.pop_front() else {
            unreachable!()
        };
        let place = exit.place();
        let child = exit.pay(&yard.hub.ledger, &mut hands.entered).child;
        let of = Retry {
            child,
            place,
            at: moment,
        };
        restarts.answer(yard, hands, of, reply, false);
    }
}
