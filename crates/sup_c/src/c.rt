//! The structs that cross between C and the supervisor, as `ffi/sapyguendo.h` declares them: what they spell, and what they tell.
ghost use Rattle.std.specs.Prelude.{◌≡◌, ◌≤◌, length, SomeIff};
ghost use Rattle.sup_c.specs.Spelled.{spelled_operation, IsSpelledOperation, spelled_entry, IsSpelledEntry};
ghost use Rattle.sup_c.specs.Told.{told_text, told_reply, told_counts, told_child, told_entry};
ghost use Rattle.sup_c.specs.Shelves.{rows_seen, row_seen};

use std::alloc::Global;
use sup_types::{Answer, Counts, Entry, Operation, Reason, Reply, Row, Seen, Text, Word};

/// A text: its length, 0 to 40 bytes, and its bytes. Those after the length say nothing.
#[repr(C)]
#[derive(Clone, Copy)]
pub struct CText {
    pub len: u64,
    pub bytes: [u8; 40],
}

/// An entry: its enums are numbers, `number` is the child's, and the text is the argument of a start or belongs to the reason.
#[repr(C)]
#[derive(Clone, Copy)]
pub struct CEntry {
    pub handle: u64,
    pub serial: u64,
    pub moment: u64,
    pub number: u64,
    pub operation: u32,
    pub reason: u32,
    pub answer: u32,
    pub code: u32,
    pub text: CText,
}

/// A reply: its kind in the order of `Reply`, its code, and up to two numbers of children.
#[repr(C)]
#[derive(Clone, Copy)]
pub struct CReply {
    pub kind: u32,
    pub code: u32,
    pub number: u64,
    pub next: u64,
}

/// How many children there are, which are zeros if the supervisor is down, and how many entries there were.
#[repr(C)]
#[derive(Clone, Copy)]
pub struct CCounts {
    pub specs: u64,
    pub active: u64,
    pub supervisors: u64,
    pub workers: u64,
    pub stamp: u64,
    pub is_down: bool,
}

/// A child that is running (1) or restarting (2), or that there is none (0), or that the supervisor is down (3).
#[repr(C)]
#[derive(Clone, Copy)]
pub struct CRow {
    pub number: u64,
    pub status: u32,
    pub arg: CText,
}

/// Returns the operation of an entry, if its numbers and its text spell one.
pub(crate) fn operation_of(entry: &CEntry) -> Option<Operation>
    ensures { SomeIff result (IsSpelledOperation entry.now) (spelled_operation entry.now) }
{
    let number = entry.number;
    let text = entry.text.bytes.get(..entry.text.len as usize);
    match (entry.operation, entry.reason) {
        (0, _) => Some(Operation::Start(Text::new(text?)?)),
        (1, 0) => Some(Operation::Exit(number, Reason::Normal)),
        (1, 1) => Some(Operation::Exit(number, Reason::Shutdown)),
        (1, 2) => Some(Operation::Exit(number, Reason::ShutdownWith(Text::new(text?)?))),
        (1, 3) => Some(Operation::Exit(number, Reason::Other(Word::new(text?)?))),
        (2, _) => Some(Operation::Retry(number)),
        (3, _) => Some(Operation::Terminate(number)),
        (4, _) => Some(Operation::Stop),
        _ => None,
    }
}

/// Returns the entry, if its numbers and its text spell one.
pub(crate) fn entry_of(entry: &CEntry) -> Option<Entry>
    ensures { SomeIff result (IsSpelledEntry entry.now) (spelled_entry entry.now) }
{
    let operation = operation_of(entry)?;
    let answer = match entry.answer {
        0 => Answer::Running,
        1 => Answer::Ignore,
        2 => Answer::Failed(entry.code),
        _ => return None,
    };
    Some(Entry {
        handle: entry.handle,
        serial: entry.serial,
        moment: entry.moment,
        operation,
        answer,
    })
}

/// Tells a text, or that there is none.
pub(crate) fn told_text(bytes: &[u8]) -> CText
    requires { length bytes.now ≤ 40 }
    ensures { result ≡ told_text bytes.now }
{
    let mut all = [0; 40];
    all[..bytes.len()].copy_from_slice(bytes);
    CText {
        len: bytes.len() as u64,
        bytes: all,
    }
}

pub(crate) fn told_reply(reply: Reply) -> CReply
    ensures { result ≡ told_reply reply }
{
    let (kind, code, number, next) = match reply {
        Reply::Started(number) => (0, 0, number, 0),
        Reply::Undefined => (1, 0, 0, 0),
        Reply::StartFailed(code) => (2, code, 0, 0),
        Reply::Full => (3, 0, 0, 0),
        Reply::Removed(number) => (4, 0, number, 0),
        Reply::ShutDown(number) => (5, 0, number, 0),
        Reply::Restarted(number, next) => (6, 0, number, next),
        Reply::Restarting(number, code) => (7, code, number, 0),
        Reply::Ignored(number) => (8, 0, number, 0),
        Reply::Stray(number) => (9, 0, number, 0),
        Reply::NotFound => (10, 0, 0, 0),
        Reply::Ended => (11, 0, 0, 0),
        Reply::Stopped => (12, 0, 0, 0),
        Reply::GaveUp => (13, 0, 0, 0),
        Reply::Down => (14, 0, 0, 0),
    };
    CReply {
        kind,
        code,
        number,
        next,
    }
}

pub(crate) fn told_counts(stamp: u64, seen: Seen<Counts>) -> CCounts
    ensures { result ≡ told_counts stamp seen }
{
    let (specs, active, supervisors, workers, is_down) = match seen {
        Seen::Up(all) => (all.specs, all.active, all.supervisors, all.workers, false),
        Seen::Down => (0, 0, 0, 0, true),
    };
    CCounts {
        specs,
        active,
        supervisors,
        workers,
        stamp,
        is_down,
    }
}

/// Tells a child, or that none is listed, or that the supervisor is down.
pub(crate) fn told_child(seen: Seen<Option<Row>>) -> CRow
    ensures { result ≡ told_child seen }
{
    let (number, status, arg) = match seen {
        Seen::Up(Some(row)) if row.is_running() => (row.number, 1, told_text(row.arg.bytes())),
        Seen::Up(Some(row)) => (row.number, 2, told_text(row.arg.bytes())),
        Seen::Up(None) => (0, 0, told_text(b"")),
        Seen::Down => (0, 3, told_text(b"")),
    };
    CRow {
        number,
        status,
        arg,
    }
}

/// Tells the row with this index among those that were listed.
pub(crate) fn told_row(listed: &Seen<Vec<Row, Global>>, index: u64) -> CRow
    ensures { result ≡ told_child (row_seen (rows_seen listed.now) index) }
{
    match listed {
        Seen::Up(rows) => told_child(Seen::Up(rows.get(index as usize).copied())),
        Seen::Down => told_child(Seen::Down),
    }
}

pub(crate) fn told_entry(entry: &Entry) -> CEntry
    ensures { result ≡ told_entry entry.now }
{
    let (operation, number, reason, text) = match &entry.operation {
        Operation::Start(argument) => (0, 0, 0, argument.bytes()),
        Operation::Exit(number, Reason::Normal) => (1, *number, 0, b"".as_slice()),
        Operation::Exit(number, Reason::Shutdown) => (1, *number, 1, b"".as_slice()),
        Operation::Exit(number, Reason::ShutdownWith(term)) => (1, *number, 2, term.bytes()),
        Operation::Exit(number, Reason::Other(word)) => (1, *number, 3, word.bytes()),
        Operation::Retry(number) => (2, *number, 0, b"".as_slice()),
        Operation::Terminate(number) => (3, *number, 0, b"".as_slice()),
        Operation::Stop => (4, 0, 0, b"".as_slice()),
    };
    let (answer, code) = match entry.answer {
        Answer::Running => (0, 0),
        Answer::Ignore => (1, 0),
        Answer::Failed(code) => (2, code),
    };
    CEntry {
        handle: entry.handle,
        serial: entry.serial,
        moment: entry.moment,
        number,
        operation,
        reason,
        answer,
        code,
        text: told_text(text),
    }
}
