//! Jobs, which are children to run, and bodies, which are what a child does.
ghost use Rattle.std.specs.Prelude.{◌≡◌, ℕ};
ghost use Rattle.sup_crew.specs.Births.{IsBorn};
ghost use Rattle.sup_types.specs.declared.text.Text.{Text};
ghost use Rattle.sup_types.specs.declared.reason.Reason.{Reason};

use std::marker::PhantomData;
use sup_desk::{Asker, Name};
use sup_log::Ticket;
use sup_types::{Reason, Text};

/// Names a child that was made and is to run, of the desk that N names. It is given to its body by value.
#[derive(Drop)]
pub struct Job<N: Name> {
    pub number: u64,
    pub arg: Text,
    /// The history up to and with its start.
    pub ticket: Ticket,
    pub(crate) of: PhantomData<N>,
    pub ghost told: { ticket.press ≡ N.press },
    pub ghost born: { IsBorn N.template ticket.front number },
}

impl<N: Name> Job<N> {
    /// Returns a job of the desk from which the ticket comes.
    pub fn new(number: u64, arg: Text, ticket: Ticket) -> Job<N>
        requires press { ticket.press ≡ N.press }
        requires born { IsBorn N.template ticket.front number }
        ensures child { (result.number ≡ number) × (result.arg ≡ arg) }
        ensures ticket { result.ticket ≡ ticket }
    {
        Job {
            number,
            arg,
            ticket,
            of: PhantomData,
        }
    }
}

/// A child: its number, and the argument with which it was started. No value of it is made.
pub struct Child {
    pub number: u64,
    pub arg: Text,
}

/// Does the work of a child. The workers share it.
pub trait Body {
    /// The reasons for which a child with this number and argument may end.
    ghost may_end: { Self → ℕ → Text → Reason → Type 0 };

    /// Returns whether a worker is to run further children, by what its asker sees. If it says no, the run is over: the jobs that
    /// nobody took are left. By default each job is run.
    fn goes_on<N: Name>(&self, _asker: &mut Asker<N>) -> bool {
        true
    }

    /// Runs the child of this job to its end, and returns why it ended. It may ask about the children, and so see that its own was
    /// ended. The asker has seen that its own was made.
    fn run<N: Name>(&self, job: Job<N>, asker: &mut Asker<N>) -> Reason
        requires { IsBorn N.template asker.old.front job.number }
        ensures { may_end self.now job.number job.arg result };
}
