//! Carrying out the commands of a script.

ghost use Rattle.std.specs.Prelude.{◌≡◌, ◌+◌, ◌<◌, ◌≤◌, ◌++◌, [], ◌∷◌, List, length, OnOk, OnErr};
ghost use Rattle.sup_types.specs.declared.history.Entry.{Entry as AnEntry};
ghost use Rattle.sup_core.specs.Account.{IsAfter};
ghost use Rattle.sup_core.specs.Queries.{which};
ghost use Rattle.sup_format.specs.Writing.Replies.{Grows, which_text};
ghost use Rattle.sup_script.specs.Running.Script.{text_of, history_after};

use std::alloc::Allocator;
use sup_core::Sup;
use sup_format::{Command, append_counts, append_refusal, append_reply, append_rows};
use sup_types::{FixedStarter, OutOfMemory, Refusal, Reply, Seen};

/// Carries a command out, and appends the text of its reply.
pub fn append_answer<S: FixedStarter, A: Allocator + Copy>(
    command: &Command,
    sup: &mut Sup<A>,
    starter: &S,
    out: &mut Vec<u8, A>,
) -> Result<(), OutOfMemory>
    requires { sup.old.steps < sup.old.template.entries }
    ensures text { (history : List AnEntry) → IsAfter sup.old history →
        OnOk result (out.new.items ≡ out.old.items ++ text_of S.answer sup.old.template history command.now) }
    ensures after { (history : List AnEntry) → IsAfter sup.old history →
        OnOk result (IsAfter sup.new (history_after S.answer sup.old.template history command.now)) }
    ensures template { sup.new.template ≡ sup.old.template }
    ensures steps { sup.new.steps ≤ sup.old.steps + 1 }
    ensures err { OnErr result (Grows out.old.items out.new.items) }
{
    match command {
        Command::Update(moment, operation) => {
            append_reply(&sup.update(starter, *moment, operation), out)?;
        }
        Command::Which => append_which(sup, out)?,
        Command::Count => append_counts(&sup.counts(), out)?,
        Command::ById(_) => append_refusal(Refusal::SimpleOneForOne, out)?,
    }
    Ok(())
}

/// Appends the rows, or that the supervisor is down.
fn append_which<A: Allocator + Copy>(sup: &Sup<A>, out: &mut Vec<u8, A>) -> Result<(), OutOfMemory>
    ensures text { (history : List AnEntry) → IsAfter sup.now history →
        OnOk result (out.new.items ≡ out.old.items ++ which_text (which sup.now.template history)) }
    ensures err { OnErr result (Grows out.old.items out.new.items) }
{
    match sup.rows()? {
        Seen::Up(rows) => append_rows(rows.as_slice(), out)?,
        Seen::Down => append_reply(&Reply::Down, out)?,
    }
    Ok(())
}
