//! The whole program, over any files, reader and writers.

ghost use Rattle.std.specs.Prelude.{◌≡◌, ◌⊎◌, ℕ, List, [], ◌∷◌, codes, false, map, true};
ghost use Rattle.sup_script.specs.Running.Answers.{IsReplayAnswered, IsScriptAnswered};
ghost use Rattle.sup_script.specs.declared.runs.answer.Status.TheVariants.{Failed};
ghost use Rattle.sup_text.specs.Replies.{IsReplyTo};
ghost use Rattle.sup_words.specs.Orders.{HasFile, command_at};

use std::alloc::Global;
use std::convert::AsStr;
use std::fs::Files;
use std::io::{Read, Write};
use std::time::Clock;
use sup_script::{Status, WatchedReader, WatchedWriter, answer_input, follow_journal};
use sup_words::{Order, read_words, show};

/// Answers the text that the words ask for, of which the first is the program's name, and returns how it ended. The replies, or a
/// help text, go to `out`; the line of a fault, and words that are refused, go to `err`. The words of a load or a server are refused
/// as bad input. To a person, who reads `err`, a fault is explained without being asked.
pub fn run_words<F: Files + Clock, S: AsStr, R: Read, W: Write, E: Write>(
    rt: &F,
    alloc: Global,
    words: &[S],
    reader: &mut WatchedReader<R>,
    out: &mut WatchedWriter<W>,
    err: &mut E,
    is_person: bool,
) -> Status
    requires calls { reader.old.calls ≡ 0 }
    requires none { reader.old.given ≡ 0 }
    requires unfailed { reader.old.has_failed ≡ false }
    requires unrefused { out.old.has_refused ≡ false }
    ensures script { (name : List ℕ) → map S.text words.now ≡ name ∷ codes "script" ∷ [] →
        IsScriptAnswered (R.remaining reader.old.reader) (R.remaining reader.new.reader) (W.contents out.old.writer) (W.contents out.new.writer)
        reader.new.has_failed reader.new.given out.new.has_refused result }
    ensures replay { (name : List ℕ) → map S.text words.now ≡ name ∷ codes "replay" ∷ [] →
        IsReplayAnswered (R.remaining reader.old.reader) (R.remaining reader.new.reader) (W.contents out.old.writer) (W.contents out.new.writer)
        reader.new.has_failed reader.new.given out.new.has_refused result }
    ensures words { IsReplyTo (map S.text words.now) (R.remaining reader.old.reader) (R.remaining reader.new.reader) (W.contents out.old.writer)
        (W.contents out.new.writer) reader.new.has_failed reader.new.given out.new.has_refused result }
    ensures cause { result ≡ Failed → (reader.new.has_failed ≡ true) ⊎ ((out.new.has_refused ≡ true) ⊎ HasFile (command_at (map S.text words.now))) }
{
    match read_words(alloc, words) {
        Ok(Order::Text(input, detail)) => {
            let detail = detail.said_to(is_person);
            answer_input(rt, alloc, input, detail, reader, out, err)
        }
        Ok(Order::Follow(path)) => follow_journal(rt, alloc, path, out, err),
        Ok(Order::Load(..) | Order::Serve(..)) => {
            let _ = writeln!(err, "error: this program answers texts and journals alone");
            Status::BadInput
        }
        Err(error) => show(alloc, &error, out, err),
    }
}
