//! Peers: programs in threads of their own, with a client each.
ghost use Rattle.std.specs.Prelude.{◌≡◌, ◌≤◌, [], IfOk, vec_len, vec_capacity};

use crate::behaviour::Behaviour;
use crate::client::Program;
use crate::crew_client::{Client, CrewClient};
use crate::host::Host;
use crate::left::Returned;
use crate::yard::CrewYard;
use std::alloc::{AllocError, Global};
use std::sync::Wait;
use std::thread::{JoinHandle, Scope};
use sup_desk::{Desk, HandleFault, Journal, Name};
use sup_types::Starter;
use thiserror::Error;

/// Why a peer did not run.
#[derive(Clone, Copy, Debug, PartialEq, Eq, Error)]
pub enum NotRun {
    /// No handle could be made for its client.
    #[error("no handle could be made for its client: {0}")]
    NoHandle(HandleFault),
    /// No thread could be started for it.
    #[error("no thread could be started for it")]
    NoThread,
}

/// Runs a program by this client, which then leaves, and returns what came of it.
pub(crate) fn run_by<'t, 'o, 'h, 'd, N, S, Q, J, B, P, T>(
    client: CrewClient<'t, 'o, 'h, 'd, N, S, Q, J, B, P>,
    program: T,
) -> T::Outcome
where
    N: Name,
    S: Starter + Drop,
    Q: Wait + Drop,
    J: Journal + Drop,
    B: Behaviour,
    P: Host,
    T: Program<B>,
{
    let mut client = client;
    program.run(&mut client)
}

/// The threads of the peers, in their order, or why one does not run.
pub(crate) type PeerThreads<T> = Vec<Result<JoinHandle<T>, NotRun>>;

/// Makes room for the threads of this many peers, and for what comes of them.
pub(crate) fn room_for<T: Drop>(
    alloc: Global,
    peers: usize,
) -> Result<(PeerThreads<T>, Vec<Result<T, NotRun>>), AllocError>
    ensures threads { IfOk result (λ r. (r.0.items ≡ []) × (peers ≤ vec_capacity r.0)) }
    ensures outcomes { IfOk result (λ r. (r.1.items ≡ []) × (peers ≤ vec_capacity r.1)) }
{
    let threads = Vec::with_capacity(alloc, peers)?;
    Ok((threads, Vec::with_capacity(alloc, peers)?))
}

/// Starts a thread for each peer, by a client of its own, and lists them in the room that was made for them.
pub(crate) fn start_peers<'s, 'h: 's, 'd: 's, E, N, S, Q, J, B, P, U>(
    scope: &Scope<'s, E>,
    desk: &'d Desk<N, S, Q, J>,
    yard: &'s CrewYard<'h, B, P>,
    returned: &'s Returned<N, P>,
    peers: Vec<U>,
    room: PeerThreads<U::Outcome>,
) -> PeerThreads<U::Outcome>
where
    N: Name + Send + Sync + 's,
    S: Starter + Drop + Send + Sync + 's,
    Q: Wait + Drop + Send + Sync + 's,
    J: Journal + Drop + Send + 's,
    B: Behaviour + Sync + 's,
    B::Message: Send + 's,
    B::Own: Send + 's,
    B::Child: Send + 's,
    P: Host + Send + Sync + 's,
    U: Program<B> + Drop + Send + 's,
    U::Outcome: Send + 's,
    requires { (room.items ≡ []) × (vec_len peers ≤ vec_capacity room) }
    ensures { vec_len result ≡ vec_len peers }
{
    let mut threads = room;
    for peer in peers {
        let begun = match Client::open(desk, yard, returned) {
            Ok(client) => {
                let running = move || run_by(client, peer);
                scope.spawn(running).map_err(|_| NotRun::NoThread)
            }
            Err(fault) => Err(NotRun::NoHandle(fault)),
        };
        threads.push_reserved(begun);
    }
    threads
}

/// Waits for the peers, and says what came of each, in a list that has room for them.
pub(crate) fn join_peers<P: Host, T: Drop>(
    rt: &P,
    threads: PeerThreads<T>,
    room: Vec<Result<T, NotRun>>,
) -> Vec<Result<T, NotRun>>
    requires { (room.items ≡ []) × (vec_len threads ≤ vec_capacity room) }
    ensures { vec_len result ≡ vec_len threads }
{
    let mut outcomes = room;
    for thread in threads {
        outcomes.push_reserved(thread.map(|thread| thread.join(rt)));
    }
    outcomes
}
