//! Starts that are entered together.
ghost use Rattle.std.specs.Prelude.{◌≡◌, ◌<◌, ◌≤◌, [], ◌++◌, IfOk, IfSome, IfNone, take, drop, length, vec_len, vec_capacity};
ghost use Rattle.std.specs.VecDeque.{deque_len};
ghost use mathlib.Core.List.{IsPrefix};
ghost use Rattle.sup_desk.specs.Batches.{IsApplied};
ghost use Rattle.sup_desk.specs.declared.journal.JournalFault.{JournalFault as Fault};
ghost use Rattle.sup_live.specs.Batches.{AreGiven, replies_of, starts_of};
ghost use Rattle.sup_live.specs.ReplyLaws.{each_of};
ghost use Rattle.sup_live.specs.Starts.{child_started};

use crate::behaviour::Behaviour;
use crate::clock::Moment;
use crate::host::Host;
use crate::hub::Hub;
use crate::started::Begun;
use crate::yard::CrewYard;
use std::alloc::{AllocError, Global};
use std::collections::VecDeque;
use std::sync::Wait;
use sup_desk::{Dones, Handle, HandleOf, Journal, Name, Part, UpdateFault};
use sup_exits::{Account, Office};
use sup_log::Ticket;
use sup_types::{Operation, Reply, Starter, Text};

/// Lists the starts of these children.
fn list_starts<O>(
    alloc: Global,
    list: &VecDeque<(Text, O)>,
) -> Result<VecDeque<Operation>, AllocError>
    ensures { IfOk result (λ operations. operations.items ≡ starts_of list.now.items) }
{
    let mut operations = VecDeque::with_capacity(alloc, list.len())?;
    for at in 0..list.len() {
        operations.push_back_reserved(Operation::Start(list[at].0));
    }
    Ok(operations)
}

/// Enters the starts of these children, in order and in one step, at this moment, in seconds. Returns the replies to those that were
/// entered, a ticket for the history up to and with the last of them, if there is one, and why the others were not.
pub(crate) fn enter_all<
    N: Name,
    S: Starter + Drop,
    Q: Wait + Drop,
    J: Journal + Drop,
    B: Behaviour,
    P: Host,
>(
    hub: &Hub<B, P>,
    handle: &mut Handle<'_, N, S, Q, J>,
    second: u64,
    list: &VecDeque<(Text, B::Own)>,
) -> (Vec<Reply>, Option<Ticket>, Option<UpdateFault>)
    ensures entered { IfSome result.1 (λ t. IsApplied S.may_answer N.template N.press handle.old (take (length result.0.items) (starts_of list.now.items)) second handle.new result.0.items t) }
    ensures nothing { IfNone result.1 ((result.0.items ≡ []) × (handle.new.calls ≡ handle.old.calls) × (handle.new.number ≡ handle.old.number)) }
    ensures few { length result.0.items ≤ length list.now.items }
    ensures all { IfNone result.2 (length result.0.items ≡ length list.now.items) }
    ensures front { IsPrefix handle.old.front handle.new.front }
    ensures journal { IfSome result.2 (λ fault. (f : Fault) → fault ≡ UpdateFault.Journal f → (result.0.items ≡ []) × J.may_fail f) }
{
    let Ok(mut operations) = list_starts(hub.alloc, list) else {
        return (Vec::new(hub.alloc), None, Some(UpdateFault::OutOfMemory));
    };
    match handle.apply_all(&hub.rt, hub.alloc, second, &mut operations) {
        Ok(Dones { replies, ticket }) => (replies, Some(ticket), None),
        Err(
            Part {
                replies,
                ticket,
                fault,
            },
        ) => {
            hub.fail(fault);
            (replies, ticket, Some(fault))
        }
    }
}

/// The places of a batch: that of its first entry in the history, and that of the queue which has room for the exit of its child. The
/// others follow.
#[derive(Clone, Copy)]
pub(crate) struct Places {
    pub(crate) entry: u64,
    pub(crate) queue: usize,
}

/// Makes and runs the children that were started by these replies, by this account. Lists what came of each start, in a list that has room
/// for it, and takes it off the list of those that were to start.
pub(crate) fn begin_all<N: Name, D, B: Behaviour, P: Host>(
    yard: &CrewYard<'_, B, P>,
    handle: &mut HandleOf<'_, N, D>,
    account: &mut Account,
    moment: Moment,
    replies: Vec<Reply>,
    first: Places,
    list: &mut VecDeque<(Text, B::Own)>,
    started: &mut Vec<Begun<B::Message, B::Own>>,
)
    requires account { (account.old.ledger ≡ P.ledger) × (0 < account.old.parts) }
    requires listed { (vec_len replies ≤ deque_len list.old) × (started.old.items ≡ []) }
    requires room { vec_len replies ≤ vec_capacity started.old }
    ensures started { replies_of started.new.items ≡ replies.items }
    ensures given { AreGiven list.old.items started.new.items }
    ensures rest { list.new.items ≡ drop (length started.new.items) list.old.items }
    ensures front { IsPrefix handle.old.front handle.new.front }
    ensures calls { (handle.new.calls ≡ handle.old.calls) × (handle.new.number ≡ handle.old.number) }
    ensures account { account.new ≡ record account.old { made = account.old.made ++ each_of child_started (starts_of list.old.items) replies.items } }
{
    let Places {
        mut entry,
        mut queue,
    } = first;
    for reply in replies {
        let Some((arg, own)) = list.pop_front() else {
            unreachable!()
        };
        yard.hub.rt.entered(entry, &Operation::Start(arg), &reply);
        let (child, own) = yard.begin_started(handle, account, moment, arg, own, queue, &reply);
        started.push_reserved(Begun { reply, child, own });
        entry = entry.wrapping_add(1);
        queue = queue.wrapping_add(1);
    }
}
