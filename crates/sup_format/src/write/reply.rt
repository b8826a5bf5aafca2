//! The text of replies.

ghost use Rattle.std.specs.Prelude.{◌≡◌, ◌++◌, map, OnOk, OnErr};
ghost use Rattle.std.specs.Fmt.{decimal};
ghost use Rattle.sup_format.specs.Writing.Replies.{line_of, reply_text, row_text, rows_text, count_text, refusal_text, field_word, spaced, Grows};

use self::Field::{Number, Word};
use crate::spelled::{SHUTDOWN_WITH, Spelled};
use itoa::Buffer;
use std::alloc::{AllocError, Allocator};
use sup_types::{Counts, OutOfMemory, Refusal, Reply, Row, Seen, Status};

/// Names a word of a line that is written.
#[derive(Clone, Copy)]
pub enum Field<'a> {
    Word(&'a [u8]),
    Number(u64),
    /// `shutdown:` and these bytes.
    Term(&'a [u8]),
}

impl Field<'_> {
    /// Returns the word of a value.
    pub fn spelled<X: Spelled>(value: X) -> Self
        ensures { field_word result ≡ X.spelled value }
    {
        Field::Word(value.word().as_bytes())
    }
}

/// Appends the text of a reply, with its line feed. After a refusal `out` is as before.
pub fn write_reply<A: Allocator>(reply: &Reply, out: &mut Vec<u8, A>) -> Result<(), OutOfMemory>
    ensures ok { OnOk result (out.new.items ≡ out.old.items ++ reply_text reply.now) }
    ensures err { OnErr result (out.new.items ≡ out.old.items) }
{
    let start = out.len();
    if append_reply(reply, out).is_err() {
        out.truncate(start);
        return Err(OutOfMemory);
    }
    Ok(())
}

/// Appends the text of a reply. After a refusal there may be a part of it.
pub fn append_reply<A: Allocator>(reply: &Reply, out: &mut Vec<u8, A>) -> Result<(), AllocError>
    ensures ok { OnOk result (out.new.items ≡ out.old.items ++ reply_text reply.now) }
    ensures err { OnErr result (Grows out.old.items out.new.items) }
{
    match *reply {
        Reply::Started(number) => append_line(out, &[Word(b"ok"), Number(number)]),
        Reply::Undefined => append_line(out, &[Word(b"ok"), Word(b"undefined")]),
        Reply::StartFailed(code) => {
            let code = Number(u64::from(code));
            append_line(out, &[Word(b"error"), Word(b"start_failed"), code])
        }
        Reply::Full => append_line(out, &[Word(b"error"), Word(b"full")]),
        Reply::Removed(number) => append_line(out, &[Word(b"removed"), Number(number)]),
        Reply::ShutDown(number) => append_line(out, &[Word(b"shut_down"), Number(number)]),
        Reply::Restarted(number, next) => {
            append_line(out, &[Word(b"restarted"), Number(number), Number(next)])
        }
        Reply::Restarting(number, code) => {
            let code = Number(u64::from(code));
            append_line(out, &[Word(b"restarting"), Number(number), code])
        }
        Reply::Ignored(number) => append_line(out, &[Word(b"ignored"), Number(number)]),
        Reply::Stray(number) => append_line(out, &[Word(b"stray"), Number(number)]),
        Reply::NotFound => append_line(out, &[Word(b"error"), Word(b"not_found")]),
        Reply::Ended => append_line(out, &[Word(b"ok")]),
        Reply::Stopped => append_line(out, &[Word(b"stopped")]),
        Reply::GaveUp => append_line(out, &[Word(b"gave_up")]),
        Reply::Down => append_line(out, &[Word(b"error"), Word(b"down")]),
    }
}

/// Appends the rows and how many they are. After a refusal there may be a part of it.
pub fn append_rows<A: Allocator>(rows: &[Row], out: &mut Vec<u8, A>) -> Result<(), AllocError>
    ensures ok { OnOk result (out.new.items ≡ out.old.items ++ rows_text rows.now) }
    ensures err { OnErr result (Grows out.old.items out.new.items) }
{
    for row in rows {
        append_row(row, out)?;
    }
    append_line(out, &[Word(b"end"), Number(rows.len() as u64)])
}

/// Appends the line of a row.
fn append_row<A: Allocator>(row: &Row, out: &mut Vec<u8, A>) -> Result<(), AllocError>
    ensures ok { OnOk result (out.new.items ≡ out.old.items ++ row_text row.now) }
    ensures err { OnErr result (Grows out.old.items out.new.items) }
{
    let status = match row.status {
        Status::Running => Word(b"running"),
        Status::Restarting => Word(b"restarting"),
    };
    let argument = Word(row.arg.bytes());
    append_line(out, &[Word(b"child"), Number(row.number), status, argument])
}

/// Appends the counts, or that the supervisor is down.
pub fn append_counts<A: Allocator>(
    seen: &Seen<Counts>,
    out: &mut Vec<u8, A>,
) -> Result<(), AllocError>
    ensures ok { OnOk result (out.new.items ≡ out.old.items ++ count_text seen.now) }
    ensures err { OnErr result (Grows out.old.items out.new.items) }
{
    match seen {
        Seen::Up(counts) => append_line(
            out,
            &[
                Word(b"count"),
                Word(b"specs"),
                Number(counts.specs),
                Word(b"active"),
                Number(counts.active),
                Word(b"supervisors"),
                Number(counts.supervisors),
                Word(b"workers"),
                Number(counts.workers),
            ],
        ),
        Seen::Down => append_reply(&Reply::Down, out),
    }
}

/// Appends the reply to a call by identifier.
pub fn append_refusal<A: Allocator>(
    refusal: Refusal,
    out: &mut Vec<u8, A>,
) -> Result<(), AllocError>
    ensures ok { OnOk result (out.new.items ≡ out.old.items ++ refusal_text refusal) }
    ensures err { OnErr result (Grows out.old.items out.new.items) }
{
    match refusal {
        Refusal::SimpleOneForOne => append_line(
            out,
            &[Word(b"error"), Word(b"simple_one_for_one")],
        ),
    }
}

/// Appends the words of a line, with a space between each two, and a line feed.
pub fn append_line<A: Allocator>(out: &mut Vec<u8, A>, fields: &[Field]) -> Result<(), AllocError>
    ensures ok { OnOk result (out.new.items ≡ out.old.items ++ line_of (map field_word fields.now)) }
    ensures err { OnErr result (Grows out.old.items out.new.items) }
{
    for (i, field) in fields.iter().enumerate() {
        if i > 0 {
            out.push(b' ')?;
        }
        append_field(out, field)?;
    }
    out.push(b'\n')?;
    Ok(())
}

/// Appends words, each followed by a space.
pub fn append_spaced<A: Allocator>(out: &mut Vec<u8, A>, fields: &[Field]) -> Result<(), AllocError>
    ensures ok { OnOk result (out.new.items ≡ out.old.items ++ spaced (map field_word fields.now)) }
    ensures err { OnErr result (Grows out.old.items out.new.items) }
{
    for field in fields {
        append_field(out, field)?;
        out.push(b' ')?;
    }
    Ok(())
}

/// Appends the bytes of a word.
fn append_field<A: Allocator>(out: &mut Vec<u8, A>, field: &Field) -> Result<(), AllocError>
    ensures ok { OnOk result (out.new.items ≡ out.old.items ++ field_word field.now) }
    ensures err { OnErr result (Grows out.old.items out.new.items) }
{
    match field {
        Field::Word(bytes) => out.extend_from_slice(bytes),
        Field::Number(number) => {
            let mut digits = Buffer::new();
            out.extend_from_slice(digits.format(*number).as_bytes())
        }
        Field::Term(bytes) => {
            out.extend_from_slice(SHUTDOWN_WITH.as_bytes())?;
            out.extend_from_slice(bytes)
        }
    }
}
