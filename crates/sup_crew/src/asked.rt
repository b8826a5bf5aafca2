//! A count of questions, to which an answer alone adds.
ghost use Rattle.std.specs.Prelude.{◌≡◌, ◌+◌, ◌-◌, ◌<◌, ◌^◌, IfOk, OnOk};
ghost use Rattle.sup_core.specs.Queries.{count};
ghost use mathlib.Core.List.{IsPrefix};

use std::marker::Model;
use sup_desk::{HandleOf, Name};
use sup_log::Gone;
use sup_types::{Counts, Seen};

/// Counts the questions that were answered. It is a witness: without an answer no code outside this module makes it greater.
#[derive(Clone, Copy, Debug, PartialEq, Eq)]
pub struct Asked {
    count: u64,
}

impl Model for Asked {
    ghost use Rattle.std.specs.Prelude.{ℕ};

    ghost Value = { ℕ };

    ghost view = { λ a. a.count };

    ghost inverse = { λ n. record { count = n } };
}

impl Asked {
    pub(crate) fn nothing() -> Asked
        ensures { result ≡ 0 }
    {
        Asked { count: 0 }
    }

    /// Asks how many children there are, and counts the answer.
    pub(crate) fn ask<N: Name, D>(
        &mut self,
        handle: &mut HandleOf<'_, N, D>,
    ) -> Result<Seen<Counts>, Gone>
        requires { self.old < 2 ^ 64 - 1 }
        ensures asked { OnOk result (self.new ≡ self.old + 1) }
        ensures answer { IfOk result (λ answer. answer ≡ count N.template handle.new.front) }
        ensures front { IsPrefix handle.old.front handle.new.front }
        ensures calls { (handle.new.calls ≡ handle.old.calls) × (handle.new.number ≡ handle.old.number) }
    {
        let answer = handle.count_children()?;
        self.count += 1;
        Ok(answer)
    }

    pub fn count(&self) -> u64
        ensures { result ≡ self.now }
    {
        self.count
    }
}
