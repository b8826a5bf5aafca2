//! The operations on the locked state, with contracts on what they return and what they leave.
ghost use Rattle.std.specs.Prelude.{◌≡◌, ◌+◌, ◌++◌, ◌∷◌, [], length, take, drop, vec_len, vec_capacity, All, List, ◌<◌, ◌≤◌, ◌↔◌, ◌⊎◌, IfOk, OnOk, OnErr, IfErr, MatchResult, IfSome, IfNone, Some};
ghost use mathlib.Core.List.{IsPrefix};
ghost use Rattle.sup_log.specs.Tokens.{history_of};
ghost use Rattle.sup_types.specs.declared.history.Entry.{Entry};
ghost use Rattle.sup_desk.specs.Knowledge.{entries_of, IsEntryOf};
ghost use Rattle.sup_desk.specs.Results.{HasSeenMore, IsUpdateResult};
ghost use Rattle.sup_desk.specs.declared.journal.JournalFault.{JournalFault};
ghost use Rattle.sup_desk.specs.Books.{IsMade, IsLeft, IsOfStep, grown_by, broken_by};
ghost use Rattle.sup_desk.specs.Audits.{AreNumbered, AreGrown, HaveSeenAll};
ghost use Rattle.sup_desk.specs.Batches.{AreEntered, AreWritten, IsApplied, IsOneEntered, IsQueueEntered};
ghost use Rattle.std.specs.VecDeque.{deque_len};

use crate::asker::Asker;
use crate::book::{Book, Transaction};
use crate::faults::{HandleFault, TicketFault, UpdateFault};
use crate::handle::{DetachedHandle, HandleOf};
use crate::journal::Journal;
use crate::name::Name;
use std::alloc::Allocator;
use std::collections::VecDeque;
use std::sync::Wait;
use sup_log::{NoPlace, Ticket};
use sup_types::{Operation, Reply, Starter};

/// Holds what came of an update that was entered: its reply, and a ticket for the history up to and with it.
#[derive(Drop)]
pub struct Done {
    pub reply: Reply,
    pub ticket: Ticket,
}

/// Gives the handle a ticket for all of the history, in which its calls are all the entries under its number.
pub fn give_ticket<N: Name, J: Journal + Drop>(
    book: &mut Book<N, J>,
    handle: &mut DetachedHandle<N>,
) -> Ticket
    ensures ticket { result ≡ record { press = N.press; editions = handle.new.editions; front = handle.new.front } }
    ensures front { (handle.new.front ≡ book.old.history) × (handle.new.editions ≡ book.old.editions) }
    ensures own { entries_of handle.new.front handle.new.number ≡ handle.new.calls }
    ensures made { IsMade book.old.made handle.new.number }
    ensures whole { handle.new.front ≡ history_of handle.new.editions }
    ensures within { length handle.new.front ≤ N.template.entries }
    ensures seen { HasSeenMore handle.old handle.new }
    ensures calls { (handle.new.calls ≡ handle.old.calls) × (handle.new.number ≡ handle.old.number) }
    ensures same { book.new ≡ book.old }
{
    book.transaction.lemma_calls_are_all(handle);
    book.transaction.show(handle)
}

/// Enters an update of a caller whose calls are all the entries under its number. What it has seen stays as it was.
fn enter_one<N: Name, S: Starter, W: Wait, J: Journal + Drop>(
    rt: &W,
    book: &mut Book<N, J>,
    starter: &S,
    caller: &mut DetachedHandle<N>,
    moment: u64,
    operation: &Operation,
) -> Result<Reply, UpdateFault>
    ensures entered { IfOk result (λ reply. IsOneEntered S.may_answer N.template book.old caller.old operation.now moment reply book.new caller.new) }
    ensures kept { OnErr result (caller.new ≡ caller.old) }
    ensures left { IfErr result (λ e. IsLeft J.may_fail book.old e book.new) }
    ensures full { IfErr result (λ e. e ≡ UpdateFault.HistoryFull → length book.old.history ≡ N.template.entries) }
    ensures room { MatchResult result (λ _. length book.old.history < N.template.entries) (λ e. e ≡ UpdateFault.OutOfMemory → length book.old.history < N.template.entries) }
    ensures gone { IfErr result (λ e. e ≡ UpdateFault.Gone → ⊥) }
    ensures broken { IfSome book.old.fault (λ f. result ≡ Err (UpdateFault.Journal f)) }
{
    if let Some(broken) = book.transaction.fault() {
        return Err(UpdateFault::Journal(broken));
    }
    let serial = caller.token.count();
    let reply = book
        .transaction
        .write(rt, starter, caller.number(), serial, moment, operation)?;
    match book.transaction.commit(rt, caller) {
        Ok(()) => Ok(reply),
        Err(fault) => Err(UpdateFault::Journal(fault)),
    }
}

/// Enters an update of the handle in the book.
pub fn enter<N: Name, D, S: Starter, W: Wait, J: Journal + Drop>(
    rt: &W,
    book: &mut Book<N, J>,
    starter: &S,
    handle: &mut HandleOf<'_, N, D>,
    moment: u64,
    operation: &Operation,
) -> Result<Done, UpdateFault>
    ensures result { IsUpdateResult S.may_answer N.template N.press handle.old operation.now moment handle.new result }
    // What the book is then.
    ensures entered { OnOk result ((entry : Entry) × IsEntryOf S.may_answer N.template book.old.history handle.old.number (length handle.old.calls) operation.now moment entry
        × (book.new ≡ grown_by book.old (entry ∷ []))) }
    ensures seen { OnOk result ((handle.new.front ≡ book.new.history) × (handle.new.editions ≡ book.new.editions)) }
    ensures left { IfErr result (λ e. IsLeft J.may_fail book.old e book.new) }
    ensures broken { IfSome book.old.fault (λ f. result ≡ Err (UpdateFault.Journal f)) }
    ensures learnt { IsPrefix book.old.history handle.new.front }
{
    book.transaction.lemma_calls_are_all(&mut handle.caller);
    let entered = enter_one(rt, book, starter, &mut handle.caller, moment, operation);
    let ticket = book.transaction.show(&mut handle.caller);
    Ok(Done {
        reply: entered?,
        ticket,
    })
}

/// Writes the operations of the queue one after another, up to the first fault.
fn write_all<N: Name, S: Starter, W: Wait, J: Journal + Drop, A: Allocator>(
    rt: &W,
    transaction: &mut Transaction<N, J>,
    starter: &S,
    caller: &DetachedHandle<N>,
    moment: u64,
    operations: &VecDeque<Operation>,
    replies: &mut Vec<Reply, A>,
) -> Option<UpdateFault>
    requires going { transaction.old.fault ≡ None }
    requires clean { transaction.old.pending ≡ [] }
    requires met { entries_of transaction.old.published caller.now.number ≡ caller.now.calls }
    requires within { length transaction.old.published ≤ N.template.entries }
    requires none { vec_len replies.old ≡ 0 }
    requires room { deque_len operations.now ≤ vec_capacity replies.old }
    ensures written { AreWritten S.may_answer N.template transaction.old caller.now.number moment (take (length replies.new.items) operations.now.items) replies.new.items transaction.new }
    ensures within { length replies.new.items ≤ length operations.now.items }
    ensures all { IfNone result (length replies.new.items ≡ length operations.now.items) }
    ensures full { IfSome result (λ e. e ≡ UpdateFault.HistoryFull → length (transaction.new.published ++ transaction.new.pending) ≡ N.template.entries) }
    ensures room { IfSome result (λ e. e ≡ UpdateFault.OutOfMemory → length (transaction.new.published ++ transaction.new.pending) < N.template.entries) }
    ensures faults { IfSome result (λ e. IsOfStep e) }
{
    'queue: while let Some(operation) = operations.get(replies.len()) {
        let serial = caller.token.count() + replies.len() as u64;
        match transaction.write(rt, starter, caller.number(), serial, moment, operation) {
            Ok(reply) => replies.push_reserved(reply),
            Err(fault) => return Some(fault),
        }
    }
    None
}

/// Enters the operations of a queue for a caller whose calls are all the entries under its number, and returns the fault that ended it.
/// Each that is entered leaves the queue. If the journal breaks off, none is entered. What the caller has seen stays as it was.
fn enter_queue<N: Name, S: Starter, W: Wait, J: Journal + Drop, A: Allocator>(
    rt: &W,
    book: &mut Book<N, J>,
    starter: &S,
    caller: &mut DetachedHandle<N>,
    moment: u64,
    operations: &mut VecDeque<Operation>,
    replies: &mut Vec<Reply, A>,
) -> Option<UpdateFault>
    requires none { vec_len replies.old ≡ 0 }
    requires room { deque_len operations.old ≤ vec_capacity replies.old }
    requires met { entries_of book.old.history caller.old.number ≡ caller.old.calls }
    requires within { length book.old.history ≤ N.template.entries }
    ensures entered { IsQueueEntered S.may_answer J.may_fail N.template book.old caller.old (take (length replies.new.items) operations.old.items) moment replies.new.items book.new caller.new }
    ensures rest { operations.new.items ≡ drop (length replies.new.items) operations.old.items }
    ensures all { IfNone result (operations.new.items ≡ []) }
    ensures left { replies.new.items ≡ [] → IfSome result (λ e. IsLeft J.may_fail book.old e book.new) }
    ensures gone { IfSome result (λ e. e ≡ UpdateFault.Gone → ⊥) }
    ensures full { IfSome result (λ e. e ≡ UpdateFault.HistoryFull → length book.new.history ≡ N.template.entries) }
    ensures room { IfSome result (λ e. e ≡ UpdateFault.OutOfMemory → length book.new.history < N.template.entries) }
    ensures within { length book.new.history ≤ N.template.entries }
    ensures journal { IfSome result (λ e. (f : JournalFault) → e ≡ UpdateFault.Journal f → (replies.new.items ≡ []) × (book.new.fault ≡ Some f) × J.may_fail f) }
    ensures broken { IfSome book.old.fault (λ f. result ≡ Some (UpdateFault.Journal f)) }
{
    if let Some(broken) = book.transaction.fault() {
        return Some(UpdateFault::Journal(broken));
    }
    let transaction = &mut book.transaction;
    let fault = write_all(
        rt,
        transaction,
        starter,
        caller,
        moment,
        operations,
        replies,
    );
    if replies.is_empty() {
        return fault;
    }
    if let Err(broken) = book.transaction.commit(rt, caller) {
        replies.clear();
        return Some(UpdateFault::Journal(broken));
    }
    drop(operations.drain(..replies.len()));
    fault
}

/// Says why operations remained in a queue, with a ticket for those that were entered, if there are any.
#[derive(Drop)]
pub struct Rest {
    pub ticket: Option<Ticket>,
    pub fault: UpdateFault,
}

/// Enters the operations of a queue as updates of the handle, each of which then leaves it, up to the first fault, and publishes them in
/// one step. The replies need no memory: their room was made before.
pub fn enter_all<N: Name, D, S: Starter, W: Wait, J: Journal + Drop, A: Allocator>(
    rt: &W,
    book: &mut Book<N, J>,
    starter: &S,
    handle: &mut HandleOf<'_, N, D>,
    moment: u64,
    operations: &mut VecDeque<Operation>,
    replies: &mut Vec<Reply, A>,
) -> Result<Ticket, Rest>
    requires none { vec_len replies.old ≡ 0 }
    requires room { deque_len operations.old ≤ vec_capacity replies.old }
    ensures ok { IfOk result (λ t. IsApplied S.may_answer N.template N.press handle.old operations.old.items moment handle.new replies.new.items t) }
    ensures part { IfErr result (λ r. IfSome r.ticket (λ t. IsApplied S.may_answer N.template N.press handle.old (take (length replies.new.items) operations.old.items) moment handle.new replies.new.items t × (0 < length replies.new.items))) }
    ensures nothing { IfErr result (λ r. IfNone r.ticket ((replies.new.items ≡ []) × (handle.new.calls ≡ handle.old.calls) × (handle.new.number ≡ handle.old.number) × IsLeft J.may_fail book.old r.fault book.new)) }
    ensures rest { operations.new.items ≡ drop (length replies.new.items) operations.old.items }
    ensures all { OnOk result (operations.new.items ≡ []) }
    ensures seen { HasSeenMore handle.old handle.new }
    // What the book is then: it has all of them in one publication, or the journal broke off, and it has none.
    ensures entered { ((entries : List Entry) × AreEntered S.may_answer N.template handle.old.number moment book.old.history (length handle.old.calls) (take (length replies.new.items) operations.old.items) entries replies.new.items
        × (book.new ≡ grown_by book.old entries)) ⊎ ((f : JournalFault) × (replies.new.items ≡ []) × (book.new ≡ broken_by book.old f) × J.may_fail f) }
    // When each refusal comes.
    ensures learnt { IsPrefix book.old.history handle.new.front }
    ensures gone { IfErr result (λ r. r.fault ≡ UpdateFault.Gone → ⊥) }
    ensures full { IfErr result (λ r. r.fault ≡ UpdateFault.HistoryFull → length handle.new.front ≡ N.template.entries) }
    ensures room { IfErr result (λ r. r.fault ≡ UpdateFault.OutOfMemory → length handle.new.front < N.template.entries) }
    ensures within { OnOk result (length handle.new.front ≤ N.template.entries) }
    ensures journal { IfErr result (λ r. (f : JournalFault) → r.fault ≡ UpdateFault.Journal f → (replies.new.items ≡ []) × (book.new.fault ≡ Some f) × J.may_fail f) }
    ensures broken { IfSome book.old.fault (λ f. IfErr result (λ r. r.fault ≡ UpdateFault.Journal f) × IfOk result (λ _. ⊥)) }
{
    book.transaction.lemma_calls_are_all(&mut handle.caller);
    let caller = &mut handle.caller;
    let fault = enter_queue(rt, book, starter, caller, moment, operations, replies);
    let ticket = book.transaction.show(&mut handle.caller);
    let Some(fault) = fault else {
        return Ok(ticket);
    };
    if replies.is_empty() {
        return Err(Rest {
            ticket: None,
            fault,
        });
    }
    Err(Rest {
        ticket: Some(ticket),
        fault,
    })
}

/// Makes the caller of a handle. It has seen all of the history, and no entry is its own.
pub fn add_handle<N: Name, J: Journal + Drop>(
    book: &mut Book<N, J>,
) -> Result<DetachedHandle<N>, HandleFault>
    ensures ok { IfOk result (λ c. (c ≡ record { number = book.old.made + 1; editions = book.old.editions; front = book.old.history; calls = [] }) × (entries_of c.front c.number ≡ [])) }
    ensures added { OnOk result (book.new ≡ record book.old { made = book.old.made + 1 }) }
    ensures err { OnErr result (book.new ≡ book.old) }
    ensures none { (result ≡ Err HandleFault.NoHandle) ↔ (book.old.made ≡ book.old.handles) }
    ensures room { OnOk result (book.old.made < book.old.handles) }
{
    let transaction = &mut book.transaction;
    if transaction.made >= transaction.handles {
        return Err(HandleFault::NoHandle);
    }
    let Ok(lens) = transaction.press.lens() else {
        return Err(HandleFault::NoPlace);
    };
    let token = transaction.sessions.open(transaction.made + 1);
    transaction.made += 1;
    let asker = Asker::begin(lens);
    Ok(DetachedHandle { token, asker })
}

/// Makes an asker. It has seen all of the history, and the book is as it was.
pub fn add_asker<N: Name, J: Journal + Drop>(book: &mut Book<N, J>) -> Result<Asker<N>, NoPlace>
    ensures ok { IfOk result (λ a. a ≡ record { editions = book.old.editions; front = book.old.history }) }
    ensures same { book.new ≡ book.old }
{
    Ok(Asker::begin(book.transaction.press.lens()?))
}

/// Lets the handles, which are in the order of making, see all of the history, and shows that it is their calls and nothing else.
///
/// # Errors
/// `Split` if they are not all that were made. Nothing changes.
pub fn audit<N: Name, D, J: Journal + Drop>(
    book: &mut Book<N, J>,
    handles: &mut [HandleOf<'_, N, D>],
) -> Result<Ticket, TicketFault>
    requires { AreNumbered handles.old }
    ensures ok { IfOk result (λ t. HaveSeenAll book.old.history handles.new (length handles.new) × (t ≡ record { press = N.press; editions = book.old.editions; front = book.old.history })) }
    ensures whole { IfOk result (λ t. All (λ entry. IsMade (length handles.new) entry.handle) t.front) }
    ensures grown { AreGrown handles.old handles.new }
    ensures same { book.new ≡ book.old }
    ensures kept { OnErr result (handles.new ≡ handles.old) }
    ensures split { (result ≡ Err TicketFault.Split) ↔ ¬ (length handles.new ≡ book.old.made) }
    ensures gone { IfErr result (λ e. e ≡ TicketFault.Gone → ⊥) }
{
    if handles.len() as u64 != book.transaction.made {
        return Err(TicketFault::Split);
    }
    for handle in handles.iter_mut() {
        give_ticket(book, &mut handle.caller);
    }
    Ok(book.transaction.tell())
}
