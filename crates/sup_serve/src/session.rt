//! The sessions: what the children do.
ghost use Rattle.std.specs.Prelude.{◌≡◌, ⊤, true, IfSome};
ghost use Rattle.sup_serve.specs.Sessions.{ends_session};

use futures::channel::mpsc::UnboundedSender;
use futures::channel::oneshot::Sender;
use futures::task::{Context, Poll};
use futures::{Future, Stream};
use sup_live::{Behaviour, End, Mailbox};
use sup_types::{Reason, Text};

/// Says what a session is sent.
#[derive(Drop)]
pub enum Message {
    /// A text, and where the answer goes: how many texts the session was sent, with this one.
    Text(Text, Sender<u64>),
    Crash,
}

/// Says which session was restarted: the number that it had, and the one under which it runs.
#[derive(Clone, Copy, Debug)]
pub struct Restarted {
    pub number: u64,
    pub new: u64,
    pub name: Text,
}

/// Makes sessions. One ends because it was asked to, or it crashes.
#[derive(Drop)]
pub struct Sessions {
    pub restarted: UnboundedSender<Restarted>,
}

impl Behaviour for Sessions {
    type Message = Message;

    type Own = ();

    type Child = Session;

    ghost may_end = { λ sessions reason. ends_session reason };

    fn begin(
        &self,
        _number: u64,
        _name: &Text,
        _own: Option<()>,
        mailbox: Mailbox<Message>,
    ) -> Session
        ensures { ⊤ }
    {
        Session {
            messages: 0,
            mailbox,
        }
    }

    fn restarted(&self, number: u64, new: u64, name: &Text) {
        let name = *name;
        // (if memory runs out, it is not said)
        let _ = self
            .restarted
            .unbounded_send(Restarted { number, new, name });
    }
}

/// Counts what it is sent.
#[derive(Drop)]
pub struct Session {
    messages: u64,
    mailbox: Mailbox<Message>,
}

impl Session {
    /// Takes a message. Returns the reason for which the session ends by it, if it does.
    fn hear(&mut self, message: Message) -> Option<Reason>
        ensures { IfSome result (λ reason. ends_session reason ≡ true) }
    {
        match message {
            Message::Text(_text, answer) => {
                self.messages = self.messages.saturating_add(1);
                // (nobody may wait for the answer any more)
                let _ = answer.send(self.messages);
                None
            }
            Message::Crash => Some(Reason::crash()),
        }
    }
}

impl Future for Session {
    type Output = End<()>;

    ghost gives = { λ session end. ends_session end.reason ≡ true };

    fn poll(&mut self, cx: &mut Context<'_>) -> Poll<End<()>> {
        match self.mailbox.poll_next(cx) {
            Poll::Pending => Poll::Pending,
            Poll::Ready(None) => Poll::Ready(Reason::Shutdown.into()),
            Poll::Ready(Some(message)) => match self.hear(message) {
                Some(reason) => Poll::Ready(reason.into()),
                None => cx.yield_now(),
            },
        }
    }
}
