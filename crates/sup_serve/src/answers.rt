//! The text of answers.
use crate::fault::ServeFault;
use std::alloc::Global;
use std::fmt::Display;
use std::io::Write;
use sup_desk::QueryFault;
use sup_log::Gone;
use sup_script::WatchedWriter;
use sup_types::{Counts, Reply, Row, Seen};

/// Writes answers, each as soon as it is known.
#[derive(Drop)]
pub struct Answers<'o, W> {
    alloc: Global,
    out: &'o mut WatchedWriter<W>,
}

impl<'o, W: Write> Answers<'o, W> {
    /// Makes the answers of this writer.
    pub fn new(alloc: Global, out: &'o mut WatchedWriter<W>) -> Answers<'o, W> {
        Answers { alloc, out }
    }

    /// Writes a line. After a fault there may be a part of it.
    pub fn say(&mut self, line: impl Display + Drop) -> Result<(), ServeFault> {
        let line = format!(in self.alloc; "{line}\n")?;
        match self.out.send(line.as_bytes()) {
            Ok(()) => Ok(()),
            Err(_) => Err(ServeFault::Write),
        }
    }

    /// Says that no session with this number lives.
    pub fn say_nobody(&mut self, number: u64) -> Result<(), ServeFault> {
        self.say(format_args!("error no session {number}"))
    }

    /// Says how many texts the session with this number has heard, or that it lives no more.
    pub fn say_heard(&mut self, number: u64, heard: Option<u64>) -> Result<(), ServeFault> {
        match heard {
            Some(messages) => self.say(format_args!("session {number} messages {messages}")),
            None => self.say_nobody(number),
        }
    }

    /// Says the reply to an opening, or to closing the session with this number.
    pub fn say_reply(&mut self, number: u64, reply: Reply) -> Result<(), ServeFault> {
        match reply {
            Reply::Started(number) => self.say(format_args!("opened {number}")),
            Reply::Full => self.say("error full"),
            Reply::Ended => self.say(format_args!("closing {number}")),
            Reply::NotFound => self.say_nobody(number),
            _ => self.say("error down"),
        }
    }

    /// Says why there is no reply.
    pub fn say_fault(&mut self, fault: &impl Display) -> Result<(), ServeFault> {
        self.say(format_args!("error {fault}"))
    }

    /// Says which sessions there are.
    pub fn say_rows(&mut self, seen: Result<Seen<Vec<Row>>, QueryFault>) -> Result<(), ServeFault> {
        let rows = match seen {
            Ok(Seen::Up(rows)) => rows,
            Ok(Seen::Down) => return self.say("error down"),
            Err(fault) => return self.say_fault(&fault),
        };
        for row in &rows {
            self.say(format_args!("session {} {}", row.number, row.arg.as_str()))?;
        }
        self.say(format_args!("end {}", rows.len()))
    }

    /// Says how many sessions there are.
    pub fn say_count(&mut self, seen: Result<Seen<Counts>, Gone>) -> Result<(), ServeFault> {
        match seen {
            Ok(Seen::Up(counts)) => self.say(format_args!("sessions {}", counts.active)),
            _ => self.say("error down"),
        }
    }
}
