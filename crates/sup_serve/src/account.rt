//! The account of a server, once its sessions have ended.
ghost use Rattle.std.specs.Prelude.{◌≡◌, ◌↔◌, true, IfErr, IfOk, IsSome, IsTrue, Some};
ghost use Rattle.sup_serve.specs.declared.fault.ServeFault.TheVariants as fault;

use crate::fault::ServeFault;
use std::alloc::Global;
use std::io::Write;
use sup_live::CrewReport;
use sup_script::WatchedWriter;

/// Says how many sessions there were.
#[derive(Clone, Copy)]
pub struct Account {
    opened: u64,
    restarted: u64,
    ended: u64,
    kept: u64,
    adds_up: bool,
}

impl Account {
    /// Makes the account of a crew, or returns why serving ended.
    pub fn of(report: CrewReport<Result<u64, ServeFault>>) -> Result<Account, ServeFault>
        ensures { IfOk result (λ a. IsTrue a.adds_up ↔ (report.owed ≡ Some 0) × IsSome report.audit) }
    {
        let kept = report.listed;
        let adds_up = report.adds_up() && report.is_audited();
        let ran = report.exits.saturating_add(report.left.len() as u64);
        let restarted = report.tally.restarts;
        let started = report.made.saturating_sub(restarted);
        let found = report.outcome?;
        Ok(Account {
            opened: started.saturating_sub(found),
            restarted,
            ended: ran.saturating_sub(kept),
            kept,
            adds_up,
        })
    }

    /// Writes the account.
    pub fn tell<W: Write>(self, alloc: Global, out: &mut WatchedWriter<W>) -> Result<(), ServeFault>
        ensures read { IfErr result (λ e. e ≡ fault.Read → ⊥) }
        ensures write { IfErr result (λ e. e ≡ fault.Write → out.new.has_refused ≡ true) }
    {
        let which = if self.adds_up { "every" } else { "not every" };
        let line = format!(in alloc;
            "opened {} restarted {} ended {} kept {}: {which} session is accounted for\n",
            self.opened, self.restarted, self.ended, self.kept
        )?;
        match out.send(line.as_bytes()) {
            Ok(()) => Ok(()),
            Err(_) => Err(ServeFault::Write),
        }
    }
}
