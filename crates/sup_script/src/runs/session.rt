//! Answering the lines of a script, one after the other.

ghost use Rattle.std.specs.Prelude.{◌≡◌, ◌<◌, ◌≤◌, ◌+◌, ◌++◌, [], ◌⊎◌, ℕ, List, length, None, IfErr, OnOk, OnErr, vec_capacity, MatchResult};
ghost use Rattle.sup_core.specs.Account.{IsAfter};
ghost use Rattle.sup_format.specs.declared.fault.Fault.TheVariants.{OutOfMemory};
ghost use Rattle.sup_script.specs.Running.Answering.{IsAnsweredTo, IsWaiting, LineGives, NextGives, LinesGive, steps_left};
ghost use Rattle.sup_format.specs.Causes.{IsLineFault, HasLineCause};
ghost use Rattle.sup_format.specs.Reading.Headers.{AreHeaderWords, IsFirst, HasFirst};
ghost use Rattle.sup_script.specs.Running.Pieces.{IsPieceAnswered};
ghost use Rattle.sup_format.specs.Writing.Replies.{Grows};
ghost use Rattle.sup_format.specs.Reading.Texts.{lines_of};
ghost use Rattle.sup_format.specs.Reading.Words.{Lacks};

use crate::runs::entered::append_answer;
use std::alloc::Allocator;
use std::io::Write;
use sup_core::Sup;
use sup_format::{
    Fault, FaultyLine, Outbox, ScriptFault, WatchedWriter, ended_part, first_line, read_header,
    read_line,
};
use sup_types::FixedStarter;

/// Holds what a run over a script has reached, and the start function and the writer that it is lent.
#[derive(Drop)]
pub struct Session<'s, 'w, A: Allocator, W, S> {
    pub alloc: A,
    pub starter: &'s S,
    /// The supervisor, once the header was read.
    pub supervisor: Option<Sup<A>>,
    pub outbox: Outbox<'w, A, W>,
    pub next: u64,
    pub faulty: FaultyLine,
}

impl<'s, 'w, A: Allocator + Copy, W: Write, S: FixedStarter> Session<'s, 'w, A, W, S> {
    /// Returns a session in which no line was read.
    pub fn new(alloc: A, starter: &'s S, writer: &'w mut WatchedWriter<W>) -> Self
        ensures supervisor { result.supervisor ≡ None }
        ensures bytes { result.outbox.bytes.items ≡ [] }
        ensures ends { result.outbox.ends.items ≡ [] }
        ensures next { result.next ≡ 1 }
        ensures writer { result.outbox.writer.now ≡ writer.old }
        ensures same { result.outbox.writer.ghost_name ≡ writer.entry.ghost_name }
    {
        Session {
            alloc,
            starter,
            supervisor: None,
            outbox: Outbox::new(alloc, writer),
            next: 1,
            faulty: FaultyLine::default(),
        }
    }

    /// Answers the lines that a piece of the input ends, and writes their replies.
    ///
    /// `part` holds the part of a line that came before the piece, and then the part after those lines.
    pub fn answer_piece(&mut self, piece: &[u8], part: &mut Vec<u8, A>) -> Result<(), ScriptFault>
        requires lacks { Lacks 10 part.old.items }
        requires room { length part.old.items + length piece.now ≤ vec_capacity part.old }
        requires first { 1 ≤ self.old.next }
        requires lines { self.old.next + length part.old.items + length piece.now ≤ 16777217 }
        requires steps { length part.old.items + length piece.now ≤ steps_left self.old.supervisor }
        requires bytes { self.old.outbox.bytes.items ≡ [] }
        requires ends { self.old.outbox.ends.items ≡ [] }
        ensures given { (front : List (List ℕ)) (text : List ℕ) → IsAnsweredTo S.answer front text self.old.supervisor self.old.next →
            IsPieceAnswered S.answer front text part.old.items piece.now part.new.items self.new.supervisor self.new.next (W.contents self.old.outbox.writer.now.writer) (W.contents self.new.outbox.writer.now.writer) result }
        ensures first { OnOk result (1 ≤ self.new.next) }
        ensures lines { OnOk result (self.new.next + length part.new.items ≤ self.old.next + length part.old.items + length piece.now) }
        ensures steps { OnOk result (steps_left self.old.supervisor + length part.new.items ≤ steps_left self.new.supervisor + length part.old.items + length piece.now) }
        ensures bytes { OnOk result (self.new.outbox.bytes.items ≡ []) }
        ensures ends { OnOk result (self.new.outbox.ends.items ≡ []) }
        ensures cause { IfErr result (λ e. HasLineCause self.new.outbox.writer.now.has_refused e.fault) }
        ensures same { self.new.outbox.writer.ghost_name ≡ self.old.outbox.writer.ghost_name }
    {
        let ended = ended_part(piece);
        if ended.is_empty() {
            part.extend_from_slice(piece).unwrap();
            return Ok(());
        }
        let rest = &piece[ended.len()..];
        if part.is_empty() {
            // The lines are answered in place, and no byte of them is copied.
            self.answer_lines(ended)?;
            part.extend_from_slice(rest).unwrap();
            return Ok(());
        }
        part.extend_from_slice(ended).unwrap();
        self.answer_lines(part.as_slice())?;
        part.clear();
        part.extend_from_slice(rest).unwrap();
        Ok(())
    }

    /// Answers the lines of a text in order, and writes their replies.
    ///
    /// On a fault in a line the replies of the lines before it are written.
    pub fn answer_lines(&mut self, input: &[u8]) -> Result<(), ScriptFault>
        requires first { 1 ≤ self.old.next }
        requires lines { self.old.next + length input.now ≤ 16777217 }
        requires steps { length input.now ≤ steps_left self.old.supervisor }
        requires bytes { self.old.outbox.bytes.items ≡ [] }
        requires ends { self.old.outbox.ends.items ≡ [] }
        ensures given { (front : List (List ℕ)) (text : List ℕ) → IsAnsweredTo S.answer front text self.old.supervisor self.old.next →
            LinesGive S.answer front text (lines_of input.now) self.new.supervisor self.new.next (W.contents self.old.outbox.writer.now.writer) (W.contents self.new.outbox.writer.now.writer) result }
        ensures first { OnOk result (1 ≤ self.new.next) }
        ensures lines { OnOk result (self.new.next ≤ self.old.next + length input.now) }
        ensures steps { steps_left self.old.supervisor ≤ steps_left self.new.supervisor + length input.now }
        ensures bytes { OnOk result (self.new.outbox.bytes.items ≡ []) }
        ensures ends { OnOk result (self.new.outbox.ends.items ≡ []) }
        ensures cause { IfErr result (λ e. HasLineCause self.new.outbox.writer.now.has_refused e.fault) }
        ensures same { self.new.outbox.writer.ghost_name ≡ self.old.outbox.writer.ghost_name }
    {
        let mut rest = input;
        while !rest.is_empty() {
            let (line, after) = first_line(rest);
            if let Err(fault) = self.answer_next(line) {
                self.faulty.keep(line);
                self.outbox.flush(self.next)?;
                return Err(fault.in_line(self.next));
            }
            self.next += 1;
            rest = after;
            self.outbox.flush_if_full(self.next)?;
        }
        self.outbox.flush(self.next)
    }

    /// Answers the next line, and adds its reply to those that wait. After a fault they wait as before.
    fn answer_next(&mut self, line: &[u8]) -> Result<(), Fault>
        requires { 1 ≤ steps_left self.old.supervisor }
        ensures given { (front : List (List ℕ)) (written : List ℕ) → IsWaiting S.answer front written self.old.outbox.bytes.items self.old.outbox.ends.items self.old.supervisor self.old.next →
            NextGives S.answer front written line.now self.new.supervisor self.old.next self.new.outbox.bytes.items self.new.outbox.ends.items result }
        ensures next { self.new.next ≡ self.old.next }
        ensures steps { steps_left self.old.supervisor ≤ steps_left self.new.supervisor + 1 }
        ensures bytes { OnErr result (self.new.outbox.bytes.items ≡ self.old.outbox.bytes.items) }
        ensures ends { OnErr result (self.new.outbox.ends.items ≡ self.old.outbox.ends.items) }
        ensures fault { IfErr result (λ f. IsLineFault f) }
        ensures more { OnOk result (length self.new.outbox.ends.items ≡ length self.old.outbox.ends.items + 1) }
        ensures writer { self.new.outbox.writer.now ≡ self.old.outbox.writer.now }
        ensures same { self.new.outbox.writer.ghost_name ≡ self.old.outbox.writer.ghost_name }
    {
        // Room for the mark comes first, so that nothing has to be undone if it is refused.
        self.outbox.ends.reserve(1)?;
        let start = self.outbox.bytes.len();
        let answered = answer_line(
            self.alloc,
            line,
            &mut self.supervisor,
            self.starter,
            &mut self.outbox.bytes,
        );
        if let Err(fault) = answered {
            self.outbox.bytes.truncate(start);
            return Err(fault);
        }
        let end = self.outbox.bytes.len();
        self.outbox.ends.push(end).unwrap();
        Ok(())
    }
}

/// Answers a line: the first one makes the supervisor, and each other one appends the text of its reply.
fn answer_line<S: FixedStarter, A: Allocator + Copy>(
    alloc: A,
    line: &[u8],
    supervisor: &mut Option<Sup<A>>,
    starter: &S,
    out: &mut Vec<u8, A>,
) -> Result<(), Fault>
    requires { 1 ≤ steps_left supervisor.old }
    ensures given { (front : List (List ℕ)) (text : List ℕ) (next : ℕ) → IsAnsweredTo S.answer front text supervisor.old next →
        LineGives S.answer front text line.now supervisor.new next out.old.items out.new.items result }
    ensures steps { steps_left supervisor.old ≤ steps_left supervisor.new + 1 }
    ensures err { OnErr result (Grows out.old.items out.new.items) }
    ensures fault { IfErr result (λ f. IsLineFault f) }
{
    match supervisor {
        None => {
            *supervisor = Some(first_supervisor(alloc, line)?);
            Ok(())
        }
        Some(sup) => match read_line(line) {
            Some(command) => Ok(append_answer(&command, sup, starter, out)?),
            None => Err(Fault::BadLine),
        },
    }
}

/// Returns the supervisor that a header makes.
fn first_supervisor<A: Allocator + Copy>(alloc: A, line: &[u8]) -> Result<Sup<A>, Fault>
    ensures { MatchResult result (λ s. IsFirst AreHeaderWords line.now s.template × IsAfter s [])
        (λ f. (f ≡ OutOfMemory) ⊎ HasFirst AreHeaderWords line.now (Err f)) }
{
    let template = read_header(line)?;
    Ok(Sup::new(alloc, template)?)
}
