//! The server: it reads lines and answers them by a client of the crew.
use crate::answers::Answers;
use crate::command::{Command, read_command};
use crate::fault::ServeFault;
use crate::lines::Lines;
use crate::session::{Message, Restarted, Sessions};
use futures::channel::mpsc::UnboundedReceiver;
use futures::channel::oneshot::channel;
use futures::executor::block_on;
use std::alloc::AllocGlobal;
use std::io::{Read, Write};
use std::random::RandomSource;
use std::sync::Wait;
use sup_live::{LiveClient, Program};
use sup_log::Gone;
use sup_script::{WatchedReader, WatchedWriter};
use sup_types::{Counts, Seen, Text};
use sup_words::Serve;

/// Answers lines until the input ends, or asks to quit.
#[derive(Drop)]
pub struct Server<'r, 'i, 'o, H, I, W> {
    pub host: &'r H,
    pub input: &'i mut WatchedReader<I>,
    pub out: &'o mut WatchedWriter<W>,
    pub restarted: UnboundedReceiver<Restarted>,
    /// Under which number the file of an earlier history was kept, if one was.
    pub kept: Option<u64>,
    pub how: Serve<'r>,
}

impl<'r, 'i, 'o, H, I, W> Program<Sessions> for Server<'r, 'i, 'o, H, I, W>
where
    H: Wait + RandomSource + AllocGlobal,
    I: Read,
    W: Write,
{
    /// Counts the sessions that it found.
    type Outcome = Result<u64, ServeFault>;

    fn run<C: LiveClient<Sessions>>(self, client: &mut C) -> Result<u64, ServeFault> {
        let Server {
            host,
            input,
            out,
            mut restarted,
            kept,
            how,
        } = self;
        let mut answers = Answers::new(host.alloc(), out);
        let mut lines = Lines::new(input);
        let found = match client.count_children() {
            Ok(Seen::Down) => return Err(ServeFault::GaveUp),
            seen => active(seen),
        };
        let mut told = found;
        if let Some(path) = how.journal {
            if let Some(number) = kept {
                answers.say(format_args!("earlier history {path}.{number}"))?;
            }
            answers.say(format_args!("found sessions {found}"))?;
        }
        for _ in host.forever() {
            let line = lines.next(host);
            say_restarted(host, &mut restarted, &mut answers)?;
            let Some(line) = line else {
                return Ok(found);
            };
            match read_command(line.as_slice()) {
                Ok(Command::Quit) => return Ok(found),
                Ok(command) => answer(host, client, &mut answers, command)?,
                Err(expected) => answers.say(format_args!("expected {expected}"))?,
            }
            if how.says_count {
                told = tell_count(client, &mut answers, told)?;
            }
        }
        unreachable!()
    }
}

/// Says which sessions were restarted meanwhile.
fn say_restarted<H: Wait, W: Write>(
    host: &H,
    restarted: &mut UnboundedReceiver<Restarted>,
    answers: &mut Answers<'_, W>,
) -> Result<(), ServeFault> {
    for _ in host.forever() {
        let Ok(Restarted { number, new, name }) = restarted.try_recv() else {
            return Ok(());
        };
        answers.say(format_args!("restarted {number} {new} {}", name.as_str()))?;
    }
    unreachable!()
}

/// Answers a command.
fn answer<C: LiveClient<Sessions>, H: Wait + RandomSource + AllocGlobal, W: Write>(
    host: &H,
    client: &mut C,
    answers: &mut Answers<'_, W>,
    command: Command,
) -> Result<(), ServeFault> {
    match command {
        Command::Open(name) => match client.start_child(name, ()) {
            Ok(started) => answers.say_reply(0, started.reply),
            Err(refused) => answers.say_fault(&refused.fault),
        },
        Command::Close(number) => match client.terminate_child(number) {
            Ok(done) => answers.say_reply(number, done.reply),
            Err(fault) => answers.say_fault(&fault),
        },
        Command::Tell(number, text) => {
            let heard = tell(host, client, number, text)?;
            answers.say_heard(number, heard)
        }
        Command::Crash(number) => match client.send(number, Message::Crash) {
            Ok(()) => answers.say(format_args!("crashing {number}")),
            Err(_) => answers.say_nobody(number),
        },
        Command::Who => answers.say_rows(client.which_children()),
        Command::Count => answers.say_count(client.count_children()),
        Command::Quit => Ok(()),
    }
}

/// Sends a text to a session, and waits for how many it has heard. Returns `None` if no such session lives, or it ends before it answers.
fn tell<C: LiveClient<Sessions>, H: Wait + RandomSource + AllocGlobal>(
    host: &H,
    client: &C,
    number: u64,
    text: Text,
) -> Result<Option<u64>, ServeFault> {
    let (sender, receiver) = channel(host.alloc())?;
    if client.send(number, Message::Text(text, sender)).is_err() {
        return Ok(None);
    }
    match block_on(host, receiver) {
        Ok(heard) => Ok(heard.ok()),
        Err(_) => Err(ServeFault::OutOfMemory),
    }
}

/// Returns how many sessions were seen.
fn active(seen: Result<Seen<Counts>, Gone>) -> u64 {
    match seen {
        Ok(Seen::Up(counts)) => counts.active,
        _ => 0,
    }
}

/// Says how many sessions there are, if that has changed.
fn tell_count<C: LiveClient<Sessions>, W: Write>(
    client: &mut C,
    answers: &mut Answers<'_, W>,
    told: u64,
) -> Result<u64, ServeFault> {
    let now = active(client.count_children());
    if now != told {
        answers.say(format_args!("status sessions {now}"))?;
    }
    Ok(now)
}
