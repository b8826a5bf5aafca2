//! The callers of a run, and what its clients leave.
ghost use Rattle.std.specs.Prelude.{◌≡◌, ◌<◌, ◌-◌, ◌^◌, [], length, IfSome, OnSome};
ghost use Rattle.sup_exits.specs.Accounts.{IsNew};
ghost use Rattle.sup_live.specs.Starts.{HasStarted};
ghost use Rattle.sup_live.specs.Accounts.{AreStartedAmong};

use crate::host::Host;
use std::alloc::{AllocError, Global};
use std::marker::{Model, PhantomData};
use std::sync::Mutex;
use sup_desk::{DetachedHandle, Name};
use sup_exits::{Account, Ledger};

/// A handle that a run used, and how many updates it had made before.
#[derive(Drop)]
pub(crate) struct Caller<N: Name> {
    pub(crate) handle: DetachedHandle<N>,
    pub(crate) since: u64,
}

impl<N: Name> Model for Caller<N> {
    ghost use Rattle.sup_live.specs.Callers.{Used};

    ghost Value = { Used };

    ghost view = { λ c. record { knows = c.handle; since = c.since } };
}

/// What dropped clients leave: their handles, for an audit, and the account of the children that they started. Each client
/// gets a part of that account.
#[derive(Drop)]
pub(crate) struct Left<N: Name, P: Host> {
    /// Those that clients used.
    pub(crate) callers: Vec<Caller<N>>,
    /// Those of earlier runs that none has used yet.
    pub(crate) spare: Vec<DetachedHandle<N>>,
    /// How many were lost, since memory was refused.
    pub(crate) lost: u64,
    pub(crate) account: Account,
    of: PhantomData<P>,
    ghost of_ledger: { (account.ledger ≡ P.ledger) × (0 < account.parts) × (account.paid ≡ []) },
    ghost started: { AreStartedAmong N.template callers.items account.made },
}

/// Where the clients of a crew leave it.
pub(crate) type Returned<N, P> = Mutex<Left<N, P>>;

impl<N: Name, P: Host> Left<N, P> {
    /// Makes what no client left, with room for this number of them. By the account no child was made.
    pub(crate) fn new(
        alloc: Global,
        account: Account,
        spare: Vec<DetachedHandle<N>>,
        clients: usize,
    ) -> Result<Left<N, P>, AllocError>
        requires { (account.ledger ≡ P.ledger) × (0 < account.parts) × (account.made ≡ []) × (account.paid ≡ []) }
    {
        Ok(Left {
            callers: Vec::with_capacity(alloc, clients)?,
            spare,
            lost: 0,
            account,
            of: PhantomData,
        })
    }

    /// Returns an account for one client more, or `None` if there are 2^64 - 1 clients.
    pub(crate) fn split(&mut self, ledger: &Ledger) -> Option<Account>
        requires { ledger.now.id ≡ P.ledger }
        ensures { IfSome result (λ account. IsNew P.ledger 1 account) }
    {
        ledger.split(&mut self.account)
    }

    /// Adds what a client left. If memory is refused, its handle is lost, which is counted.
    pub(crate) fn add(&mut self, ledger: &Ledger, caller: Caller<N>, account: Account)
        requires ledger { (ledger.now.id ≡ P.ledger) × (account.ledger ≡ P.ledger) × (account.paid ≡ []) }
        requires started { HasStarted N.template caller.since caller.knows account.made }
    {
        ledger.join(&mut self.account, account);
        if self.callers.push(caller).is_err() {
            self.lost = self.lost.saturating_add(1);
        }
    }
}
