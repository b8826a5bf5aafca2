//! A reader that asks again and again.
ghost use Rattle.std.specs.Prelude.{◌≡◌, length, IfOk};
ghost use mathlib.Core.List.{IsPrefix};

use crate::asked::Asked;
use sup_desk::{HandleOf, Name};
use sup_log::Gone;

/// Reports what a reader did.
#[derive(Clone, Copy, Debug, PartialEq, Eq)]
pub struct Reads {
    pub answered: Asked,
    /// The length of the handle's front after the last.
    pub last: u64,
}

/// Asks `turns` times how many children there are. It takes no lock and no memory. `Gone` if the desk has ended.
pub fn read_turns<N: Name, D>(handle: &mut HandleOf<'_, N, D>, turns: u64) -> Result<Reads, Gone>
    ensures reads { IfOk result (λ reads. (reads.answered ≡ turns) × (reads.last ≡ length handle.new.front)) }
    ensures front { IsPrefix handle.old.front handle.new.front }
    ensures calls { (handle.new.calls ≡ handle.old.calls) × (handle.new.number ≡ handle.old.number) }
{
    let mut answered = Asked::nothing();
    for _ in 0..turns {
        answered.ask(handle)?;
    }
    Ok(Reads {
        answered,
        last: handle.front(),
    })
}
