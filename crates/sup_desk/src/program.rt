//! Desks for programs that write no proof: the name is picked here.
ghost use Rattle.std.specs.Prelude.{◌≡◌, ◌≤◌, ◌↔◌, [], IfOk, IfErr};
ghost use Rattle.sup_desk.specs.Journals.{HasJust};
ghost use Rattle.sup_desk.specs.Recoveries.{IsCauseOf};

use crate::book::Closed;
use crate::desk::{Desk, Recovered};
use crate::faults::DeskFault;
use crate::ground::Ground;
use crate::handle::DetachedHandle;
use crate::journal::Journal;
use crate::name::Name;
use crate::recovery::RecoverFault;
use std::alloc::Global;
use std::marker::Brand;
use std::sync::Wait;
use sup_types::{Entry, Starter, Template};

/// Says what is done with a desk. `run` is generic in the desk's name, so its author need not pick one.
pub trait Program<S: Starter + Drop, R: Wait> {
    /// What comes of it.
    type Outcome: Drop;

    /// Uses the desk, from which it makes handles and askers. One that shares the desk with other threads names its desk itself (see the
    /// crate's page): the borrow checker of this kit does not cover such a `run` yet.
    fn run<N: Name + Send + Sync>(self, rt: &R, desk: &Desk<N, S, &R>) -> Self::Outcome;
}

/// Says what is done with a desk that has a journal.
pub trait JournaledProgram<S: Starter + Drop, R: Wait, J: Journal + Drop> {
    /// What comes of it.
    type Outcome: Drop;

    /// Uses the desk, as a [`Program`] does. `before` are the handles of the history that the desk continues, detached, in their order.
    fn run<N: Name + Send + Sync>(
        self,
        rt: &R,
        desk: &Desk<N, S, &R, J>,
        before: Vec<DetachedHandle<N>>,
    ) -> Self::Outcome;
}

/// Makes a desk for a supervisor of this template and 1 to 1,024 handles, each of which costs each update (see [`Ground::new`]), and runs
/// the program on it. Its caller writes no proof.
///
/// # Errors
/// `BadTemplate` for another number of handles, `OutOfMemory` if memory runs out. The program is not run then.
pub fn on_desk<S: Starter + Drop, R: Wait, P: Program<S, R> + Drop>(
    rt: &R,
    alloc: Global,
    template: Template,
    handles: u64,
    starter: S,
    program: P,
) -> Result<P::Outcome, DeskFault>
    ensures range { (result ≡ Err DeskFault.BadTemplate) ↔ ¬ ((1 ≤ handles) × (handles ≤ 1024)) }
{
    let ground = Ground::new(alloc, rt, template, handles)?;
    Ok(run_named::<Brand, S, R, P>(rt, ground, starter, program))
}

/// Runs the program on a desk of this ground, which N names.
fn run_named<N: Name + Send + Sync, S: Starter + Drop, R: Wait, P: Program<S, R>>(
    rt: &R,
    ground: Ground,
    starter: S,
    program: P,
) -> P::Outcome
    requires { (ground.press ≡ N.press) × (ground.template ≡ N.template) × (ground.sessions ≡ N.sessions) }
{
    let desk: Desk<N, S, &R> = Desk::new(ground, rt, starter);
    program.run(rt, &desk)
}

/// Makes a desk that continues what this journal has recorded, runs the program on it and closes it (see `Desk::close`). Returns what came of
/// the program, and the journal with a ticket. The desk has 1 to 1,024 handles, earlier ones included. Its caller writes no proof.
///
/// # Errors
/// Those of [`Desk::recover`], and `BadTemplate` for another number of handles. The program is not run then.
pub fn on_journaled_desk<
    S: Starter + Drop,
    R: Wait,
    J: Journal + Drop,
    P: JournaledProgram<S, R, J> + Drop,
>(
    rt: &R,
    alloc: Global,
    template: Template,
    handles: u64,
    starter: S,
    journal: J,
    entries: &[Entry],
    program: P,
) -> Result<(P::Outcome, Closed<J>), RecoverFault>
    requires { J.has journal template entries.now [] }
    ensures journal { IfOk result (λ p. HasJust (J.has p.1.journal template) (J.is_torn p.1.journal template) J.may_fail p.1.fault p.1.ticket.front) }
    ensures err { IfErr result (λ f. IsCauseOf f template handles entries.now) }
{
    let ground = Ground::new(alloc, rt, template, handles)?;
    run_recorded::<Brand, S, R, J, P>(rt, ground, starter, journal, entries, program)
}

/// Runs the program on a desk of this ground, which N names, and closes the desk.
fn run_recorded<
    N: Name + Send + Sync,
    S: Starter + Drop,
    R: Wait,
    J: Journal + Drop,
    P: JournaledProgram<S, R, J> + Drop,
>(
    rt: &R,
    ground: Ground,
    starter: S,
    journal: J,
    entries: &[Entry],
    program: P,
) -> Result<(P::Outcome, Closed<J>), RecoverFault>
    requires name { (ground.press ≡ N.press) × (ground.template ≡ N.template) × (ground.sessions ≡ N.sessions) }
    requires journal { J.has journal N.template entries.now [] }
    ensures journal { IfOk result (λ p. HasJust (J.has p.1.journal N.template) (J.is_torn p.1.journal N.template) J.may_fail p.1.fault p.1.ticket.front) }
    ensures err { IfErr result (λ f. IsCauseOf f N.template ground.handles entries.now) }
{
    let Recovered { desk, callers, .. } = Desk::<N, S, &R, J>::recover(
        ground, rt, starter, journal, entries,
    )?;
    let outcome = program.run(rt, &desk, callers);
    Ok((outcome, desk.close()))
}
