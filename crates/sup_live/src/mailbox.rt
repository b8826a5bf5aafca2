//! Mailboxes: what children are sent, and the addresses by which it is sent.
ghost use Rattle.std.specs.Prelude.{◌≡◌, IfOk, IfErr};
ghost use Rattle.futures.specs.Channel.{unbounded_readable_source};
ghost use Rattle.sup_live.specs.Mailboxes.{message_of};

use futures::Stream;
use futures::channel::mpsc::{UnboundedReceiver, UnboundedSender, unbounded};
use futures::task::{Context, Poll};
use std::alloc::{AllocError, Global};
use std::sync::Arc;
use std::sync::atomic::{AtomicU64, Ordering};

/// The way to one child. Its addresses, its mailbox and the registry share it.
#[derive(Drop)]
pub(crate) struct Room<M: Drop> {
    sender: UnboundedSender<M>,
    /// How many messages may wait.
    limit: usize,
    /// Why the child was asked to end, by its number, or 0.
    told: AtomicU64,
    /// The number of the child that took this one's place, or 0.
    successor: AtomicU64,
}

/// Why a child is to end.
#[derive(Clone, Copy, Debug, PartialEq, Eq)]
pub enum Told {
    /// A client terminated it.
    Terminated,
    /// A client stopped the supervisor, or it was down when the crew began.
    Stopped,
    /// The supervisor gave up: there were more restarts than its intensity allows.
    GaveUp,
    /// The supervisor shut down, as a significant child had ended.
    ShutDown,
    /// The crew closes.
    Closing,
    /// The crew has failed: nothing more is entered.
    Failed,
}

/// All of them, each at the place of its number, which is counted from 1.
const ALL_TOLD: [Told; 6] = [
    Told::Terminated,
    Told::Stopped,
    Told::GaveUp,
    Told::ShutDown,
    Told::Closing,
    Told::Failed,
];

impl Told {
    /// Returns its number: 1 to 6.
    fn number(self) -> u64 {
        self as u64 + 1
    }

    /// Returns what has this number.
    fn of(number: u64) -> Option<Told> {
        let place = number.checked_sub(1)?;
        ALL_TOLD.get(usize::try_from(place).ok()?).copied()
    }
}

impl<M: Drop> Room<M> {
    /// Asks the child to end. Returns whether it was not asked before: the first cause stays.
    pub(crate) fn tell(&self, why: Told) -> bool {
        let order = Ordering::SeqCst;
        let told = self.told.compare_exchange(0, why.number(), order, order);
        self.sender.close_channel();
        told.is_ok()
    }

    /// Returns whether the child was asked to end.
    pub(crate) fn is_told(&self) -> bool {
        self.told.load(Ordering::SeqCst) != 0
    }

    /// Notes the number of the child that took this one's place.
    pub(crate) fn succeed(&self, number: u64) {
        self.successor.store(number, Ordering::SeqCst);
    }
}

/// What a child is sent, oldest first. It ends once the child is asked to end, before what was sent earlier; the child is
/// then to end soon, by `Reason::Shutdown` as OTP's do.
#[derive(Drop)]
pub struct Mailbox<M: Drop> {
    receiver: UnboundedReceiver<M>,
    room: Arc<Room<M>>,
}

/// Makes a mailbox in which this many messages may wait, and the room that reaches it.
pub(crate) fn opened<M: Drop>(
    alloc: Global,
    limit: usize,
) -> Result<(Mailbox<M>, Arc<Room<M>>), AllocError> {
    let (sender, receiver) = unbounded(alloc)?;
    let room = Room {
        sender,
        limit,
        told: AtomicU64::new(0),
        successor: AtomicU64::new(0),
    };
    let room = Arc::new(alloc, room)?;
    let ours = Arc::try_clone(&room)?;
    Ok((Mailbox { receiver, room }, ours))
}

impl<M: Drop> Mailbox<M> {
    /// Returns why the child is to end, once it was asked to. The first cause stays.
    pub fn why(&self) -> Option<Told> {
        Told::of(self.room.told.load(Ordering::SeqCst))
    }
}

impl<M: Drop> Stream for Mailbox<M> {
    type Item = M;

    ghost needs = { λ m s. s ≡ unbounded_readable_source m.receiver };

    fn poll_next(&mut self, cx: &mut Context<'_>) -> Poll<Option<M>> {
        if self.room.is_told() {
            return Poll::Ready(None);
        }
        self.receiver.poll_next(cx)
    }
}

/// A message that was not sent, which is returned.
#[derive(Debug, Drop)]
pub enum Unsent<M> {
    /// No such child is alive, or it was asked to end. It takes no message any more.
    Gone(M),
    /// As many messages wait for the child as may, or memory was refused for one more.
    Full(M),
}

impl<M> Unsent<M> {
    /// Returns the message.
    pub fn into_message(self) -> M
        ensures { result ≡ message_of self }
    {
        match self {
            Unsent::Gone(message) | Unsent::Full(message) => message,
        }
    }
}

/// The address of one child. It names that child for ever: one that is restarted has a number and an address of its own.
#[derive(Drop)]
pub struct ChildRef<M: Drop> {
    pub(crate) number: u64,
    pub(crate) room: Arc<Room<M>>,
}

impl<M: Drop> ChildRef<M> {
    /// Returns the number of the child.
    pub fn number(&self) -> u64
        ensures { result ≡ self.now.number }
    {
        self.number
    }

    /// Sends to the child, and takes no lock of the crew. Returns the message if the child has gone, was asked to end, or has no
    /// room for it.
    pub fn send(&self, message: M) -> Result<(), Unsent<M>>
        ensures { IfErr result (λ unsent. message_of unsent ≡ message) }
    {
        if self.is_gone() {
            return Err(Unsent::Gone(message));
        }
        if self.is_full() {
            return Err(Unsent::Full(message));
        }
        match self.room.sender.unbounded_send(message) {
            Ok(()) => Ok(()),
            Err(refused) if self.is_gone() => Err(Unsent::Gone(refused.into_inner())),
            Err(refused) => Err(Unsent::Full(refused.into_inner())),
        }
    }

    /// Returns how many messages wait for the child. It takes the lock of its channel.
    pub fn waiting(&self) -> usize {
        self.room.sender.len()
    }

    /// Returns whether as many messages wait as may. Threads that send at once may each pass that by one.
    fn is_full(&self) -> bool {
        self.room.limit != usize::MAX && self.waiting() >= self.room.limit
    }

    /// Returns whether the child has gone, or was asked to end.
    pub fn is_gone(&self) -> bool {
        self.room.sender.is_closed()
    }

    /// Returns the number of the child that took this one's place, once it was restarted in this run. It is noted after the restart was
    /// entered, and before that child is begun.
    pub fn successor(&self) -> Option<u64> {
        match self.room.successor.load(Ordering::SeqCst) {
            0 => None,
            number => Some(number),
        }
    }

    /// Returns the same address again. It takes no memory.
    pub fn again(&self) -> Result<ChildRef<M>, AllocError>
        ensures { IfOk result (λ other. other.number ≡ self.now.number) }
    {
        let (number, room) = (self.number, Arc::try_clone(&self.room)?);
        Ok(ChildRef { number, room })
    }
}
