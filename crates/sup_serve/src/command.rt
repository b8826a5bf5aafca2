//! What a line asks for.
use sup_script::read_number;
use sup_types::Text;

/// Says what is asked of the server.
#[derive(Clone, Copy, Debug, PartialEq, Eq)]
pub enum Command {
    Open(Text),
    Tell(u64, Text),
    Crash(u64),
    Close(u64),
    Who,
    Count,
    Quit,
}

const A_COMMAND: &str =
    "`open NAME`, `tell NUMBER TEXT`, `crash NUMBER`, `close NUMBER`, `who`, `count` or `quit`";

const A_NAME: &str = "`open NAME`, with a name of 1 to 40 visible characters of ASCII";

const A_TEXT: &str =
    "`tell NUMBER TEXT`, with the number of a session and a text of 1 to 40 visible characters of ASCII";

const A_CRASH: &str = "`crash NUMBER`, with the number of a session";

const A_CLOSE: &str = "`close NUMBER`, with the number of a session";

const A_LINE_END: &str =
    "a line that ends with 0x0A alone, and this one has a Windows line end (0x0D 0x0A)";

/// Returns the command that a line spells, or what was expected of it.
pub fn read_command(line: &[u8]) -> Result<Command, &'static str> {
    if let Some(b'\r') = line.last() {
        return Err(A_LINE_END);
    }
    let (word, rest) = split(line);
    match word {
        b"open" => Text::new(rest).map(Command::Open).ok_or(A_NAME),
        b"tell" => read_tell(rest).ok_or(A_TEXT),
        b"crash" => read_number(rest).map(Command::Crash).ok_or(A_CRASH),
        b"close" => read_number(rest).map(Command::Close).ok_or(A_CLOSE),
        _ => read_word(line).ok_or(A_COMMAND),
    }
}

fn read_word(line: &[u8]) -> Option<Command> {
    match line {
        b"who" => Some(Command::Who),
        b"count" => Some(Command::Count),
        b"quit" => Some(Command::Quit),
        _ => None,
    }
}

fn read_tell(rest: &[u8]) -> Option<Command> {
    let (number, text) = split(rest);
    Some(Command::Tell(read_number(number)?, Text::new(text)?))
}

/// Returns the bytes before the first space, and those after it.
fn split(line: &[u8]) -> (&[u8], &[u8]) {
    match line.iter().position(|byte| *byte == b' ') {
        Some(at) => (&line[..at], &line[at + 1..]),
        None => (line, &[]),
    }
}
