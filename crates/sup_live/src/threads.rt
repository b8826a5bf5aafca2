//! The threads of a crew: its workers, its driver, and those of its programs.
ghost use Rattle.std.specs.Prelude.{◌≡◌, ◌<◌, ◌≤◌, [], IfOk, vec_len, vec_capacity};
ghost use denote.Param.Send.{IsSend};

use crate::behaviour::Behaviour;
use crate::client::Program;
use crate::crew_client::Client;
use crate::driver::Driver;
use crate::host::Host;
use crate::left::Left;
use crate::peers::{NotRun, join_peers, room_for, run_by, start_peers};
use crate::plan::LiveFault;
use crate::yard::CrewYard;
use std::sync::{Mutex, Wait};
use std::thread;
use std::thread::{JoinHandle, Scope};
use sup_desk::{Desk, DetachedHandle, Journal, Name};
use sup_exits::Account;
use sup_types::Starter;

/// What is left once all threads were joined.
#[derive(Drop)]
pub(crate) struct Joined<'d, N: Name, D, P: Host, T: Drop, U: Drop> {
    /// The driver.
    pub(crate) driver: Driver<'d, N, D, P>,
    /// What came of the program.
    pub(crate) outcome: T,
    /// What came of each peer, in their order.
    pub(crate) peers: Vec<Result<U, NotRun>>,
}

/// Starts the workers and the driver, or shuts the yard down. Workers that could not be started count as gone.
fn start_crew<'s, 'h: 's, 'd: 's, E, N, S, Q, J, B, P>(
    scope: &Scope<'s, E>,
    yard: &'s CrewYard<'h, B, P>,
    workers: usize,
    driver: Driver<'d, N, Desk<N, S, Q, J>, P>,
) -> Result<JoinHandle<Driver<'d, N, Desk<N, S, Q, J>, P>>, LiveFault>
where
    N: Name + Send + Sync + 's,
    S: Starter + Drop + Send + Sync + 's,
    Q: Wait + Drop + Send + Sync + 's,
    J: Journal + Drop + Send + 's,
    B: Behaviour + Sync + 's,
    B::Message: Send + 's,
    B::Own: Send + 's,
    B::Child: Send + 's,
    P: Host + Send + Sync + 's,
{
    for worker in 0..workers {
        if scope.spawn(move || yard.work(worker)).is_err() {
            yard.hub.worker_went();
        }
    }
    if yard.hub.have_all_gone() {
        return Err(LiveFault::NoThread);
    }
    let driving = move || {
        let mut driver = driver;
        driver.drive(yard);
        driver
    };
    match scope.spawn(driving) {
        Ok(driving) => Ok(driving),
        Err(_) => {
            yard.shut_down();
            Err(LiveFault::NoThread)
        }
    }
}

/// Begins the children of an earlier run, starts the threads, runs the program, and joins the peers and the driver. Returns what is
/// left of them, and what the clients left.
pub(crate) fn run_threads<'h, 'd, N, S, Q, J, B, P, T, U>(
    desk: &'d Desk<N, S, Q, J>,
    yard: &CrewYard<'h, B, P>,
    driver: Driver<'d, N, Desk<N, S, Q, J>, P>,
    account: Account,
    spare: Vec<DetachedHandle<N>>,
    program: T,
    peers: Vec<U>,
    workers: usize,
) -> Result<
    (
        Joined<'d, N, Desk<N, S, Q, J>, P, T::Outcome, U::Outcome>,
        Left<N, P>,
    ),
    LiveFault,
>
where
    N: Name + Send + Sync,
    S: Starter + Drop + Send + Sync,
    Q: Wait + Drop + Send + Sync,
    J: Journal + Drop + Send,
    B: Behaviour + Sync,
    B::Message: Send,
    B::Own: Send,
    B::Child: Send,
    P: Host + Send + Sync,
    T: Program<B> + Drop,
    U: Program<B> + Drop + Send,
    U::Outcome: Send,
    requires { (account.ledger ≡ P.ledger) × (0 < account.parts) × (account.made ≡ []) × (account.paid ≡ []) }
    ensures { IfOk result (λ r. vec_len r.0.peers ≡ vec_len peers) }
{
    let clients = peers.len().saturating_add(1);
    let left = Mutex::new(Left::new(yard.hub.alloc, account, spare, clients)?);
    let (mut driver, returned) = (driver, &left);
    driver.resume_all(yard)?;
    let client = Client::open(desk, yard, returned)?;
    let joined = thread::scope(
        thread::scope_env(),
        &yard.hub.rt,
        move |scope| -> Result<Joined<N, Desk<N, S, Q, J>, P, T::Outcome, U::Outcome>, LiveFault>
            requires threads { IsSend N.row × IsSend S.row × IsSend Q.row × IsSend J.row × IsSend P.row }
            requires children { IsSend B.Message.row × IsSend B.Own.row × IsSend B.Child.row }
            requires peers { IsSend U.row × IsSend U.Outcome.row }
            ensures { IfOk result (λ j. vec_len j.peers ≡ vec_len peers) }
        {
            let hub = yard.hub;
            let (threads, room) = room_for(hub.alloc, peers.len())?;
            // While these are there, workers wait for children that are still to come.
            let holds = yard.hold()?;
            let driving = start_crew(scope, yard, workers, driver)?;
            let threads = start_peers(scope, desk, yard, returned, peers, threads);
            let outcome = run_by(client, program);
            let peers = join_peers(&hub.rt, threads, room);
            hub.ends.close();
            let driver = driving.join(&hub.rt);
            drop(holds);
            Ok(Joined {
                driver,
                outcome,
                peers,
            })
        },
    );
    Ok((joined?, left.into_inner()))
}
