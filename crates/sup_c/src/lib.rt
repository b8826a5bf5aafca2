//! The supervisor of one thread for programs in C, Rust and other languages, as a static library.
//!
//! C holds a [`held::Held`], which begins as zeros, and hands it to each call by its address, one call at a time. Each call answers
//! a fault's number, or 0, and tests all that it is given. `ffi/` has the header, and what a program in Rust or Python calls.
//!
//! # What is proved
//! - A call is done, or answers a fault, exactly as its `Answers..` in `specs/Answers.antt` says. After a fault nothing has changed: neither
//!   the supervisor, nor the rows that were listed, nor what the call would have written.
//! - A step replies, and a query answers, as the reference semantics does after the history. A step by stamp is done only if the history has
//!   that many entries. If it takes the supervisor down, `sup_left` gives the children that the history before it lists.
//! - A child's token is that of its start, or of the child that it replaces.
//! - What is written is the line that adds the entry to a history text. An entry is read exactly if the first line is ended and spells one.
//!
//! # What is on trust
//! The toolchain, the contract of the kit's `indexmap`, and what `ffi/sapyguendo.h` says that the caller owes: such as one call at a time,
//! pointers to what their types say, and no copy of an open supervisor.
//!
//! # What is only tested
//! That memory is refused only if there is none, and that the header, the crate for Rust and the module for Python have the names and layouts
//! of this crate and answer scripts alike.
//!
//! # How it is used
//! ```text
//! struct sup sup = {0};
//! struct sup_entry entry = sup_start(0, "session-17");
//! struct sup_reply reply;
//! if (sup_begin(&sup, "history 2 permanent worker 1 5 1000 plain never\n") == SUP_DONE
//!     && sup_step(&sup, &entry, &reply) == SUP_DONE)
//!     printf("%llu\n", (unsigned long long)reply.number);
//! sup_close(&sup);
//! ```
#![tactic(auto)]

ghost use Rattle.std.specs.Prelude.{◌≡◌, ◌≢◌, ◌⊎◌, ◌++◌, ◌∷◌, [], ℕ, length, true, false};
ghost use Rattle.sup_core.specs.Replies.{reply_to, asked_argument};
ghost use Rattle.sup_core.specs.Changes.{next_state, goes_down};
ghost use Rattle.sup_core.specs.Account.{IsAfter, reply_after, state_after};
ghost use Rattle.sup_core.specs.Queries.{which, count, child};
ghost use Rattle.sup_format.specs.Writing.HistoryTexts.{entry_line, SpellsOneMore};
ghost use Rattle.sup_c.specs.Spelled.{spelled_operation, spelled_entry, IsSpelledEntry, IsTemplateOf};
ghost use Rattle.sup_c.specs.Told.{told_asked, told_reply, told_counts, told_child};
ghost use Rattle.sup_c.specs.Shelves.{row_seen, listed_at};
ghost use Rattle.sup_c.specs.Leaving.{left_after};
ghost use Rattle.sup_c.specs.Tokens.{tokens_after, token_told, number_of};
ghost use Rattle.sup_c.specs.Held.{state_of, shelf_of, listed_of, left_of, token_of, none_listed, IsStepped, HasSame, IsKept, AfterEach};
ghost use Rattle.sup_c.specs.Answers.{AnswersOpening, AnswersWhileOpen, AnswersAsk, AnswersStep, AnswersStepAt, AnswersRow, AnswersWriting, IsWritten, ReadsEntry, ReadsNone};

mod c;
mod held;
mod shelf;

use c::{CCounts, CEntry, CReply, CRow, CText};
use held::Held;
use indexmap::IndexMap;
use shelf::{Shelf, follow, may_end, token_of};
use std::alloc::Global;
use sup_core::Sup;
use sup_format::{append_entry, begin_history, next_entry};
use sup_types::{Reply, Seen};

/// The numbers of the faults (docs/FORMATS.md). 0 is none.
const DONE: u32 = 0;

const OUT_OF_MEMORY: u32 = 1;

const HISTORY_FULL: u32 = 2;

const BAD_TEMPLATE: u32 = 7;

const BAD_LINE: u32 = 9;

const TOO_LONG: u32 = 12;

const BAD_HANDLE: u32 = 15;

const STALE: u32 = 16;

/// Returns the version, of 0.2.0 as 200.
#[unsafe(no_mangle)]
pub extern "C" fn sup_version() -> u32
    ensures { result ≡ 200 }
{
    200
}

/// Opens a supervisor of the template that the first line of a history text gives, with at most this many entries.
#[unsafe(no_mangle)]
pub extern "C" fn sup_open(held: &mut Held, heap: Global, text: &[u8], entries: u64) -> u32
    ensures answer { AnswersOpening held.old text.now entries result }
    ensures opened { result ≡ 0 → (held.new.is_open ≡ true) × IsAfter (state_of held.new) [] × (listed_of held.new ≡ none_listed) × (left_of held.new ≡ none_listed) }
    ensures tokens { result ≡ 0 → (number : ℕ) → token_of held.new number ≡ 0 }
    ensures template { result ≡ 0 → IsTemplateOf (state_of held.new).template text.now entries }
    ensures kept { result ≢ 0 → held.new ≡ held.old }
{
    if held.is_open {
        return BAD_HANDLE;
    }
    let mut template = match begin_history(text) {
        Ok((template, _)) => template,
        Err(fault) => return u32::from(fault.number()),
    };
    if !(1..=1 << 62).contains(&entries) {
        return BAD_TEMPLATE;
    }
    template.entries = entries;
    let Ok(sup) = Sup::new(heap, template) else {
        return OUT_OF_MEMORY;
    };
    let shelf = Shelf {
        sup,
        template,
        listed: Seen::Up(Vec::new(heap)),
        left: Seen::Up(Vec::new(heap)),
        tokens: IndexMap::new(heap),
    };
    let Ok(shelf) = Box::new(heap, shelf) else {
        return OUT_OF_MEMORY;
    };
    held.put_back(shelf, DONE)
}

/// Closes a supervisor, and gives its memory back. The handle may be opened again.
#[unsafe(no_mangle)]
pub extern "C" fn sup_close(held: &mut Held, heap: Global) -> u32
    ensures answer { AnswersWhileOpen held.old result }
    ensures closed { held.new.is_open ≡ false }
{
    let Some(shelf) = held.take(heap) else {
        return BAD_HANDLE;
    };
    drop(shelf);
    DONE
}

/// Tells the argument that an entry with this operation and moment asks the start function about, or no text.
#[unsafe(no_mangle)]
pub extern "C" fn sup_asks(held: &mut Held, heap: Global, entry: &CEntry, asked: &mut CText) -> u32
    ensures answer { AnswersAsk held.old entry.now result }
    ensures history { result ≡ 0 → AfterEach held.old (λ template history.
        asked.new ≡ told_asked (asked_argument (state_after template history) (spelled_operation entry.now) entry.now.moment)) }
    ensures kept { IsKept held.old held.new × (result ≢ 0 → asked.new ≡ asked.old) }
{
    let Some(shelf) = held.take(heap) else {
        return BAD_HANDLE;
    };
    let Some(operation) = c::operation_of(entry) else {
        return held.put_back(shelf, BAD_LINE);
    };
    if shelf.sup.is_spent() {
        return held.put_back(shelf, HISTORY_FULL);
    }
    *asked = match shelf.sup.wants_answer(&operation, entry.moment) {
        Some(argument) => c::told_text(argument.bytes()),
        None => c::told_text(b""),
    };
    held.put_back(shelf, DONE)
}

/// Enters an entry, with what the start function answered, and tells the reply.
#[unsafe(no_mangle)]
pub extern "C" fn sup_step(held: &mut Held, heap: Global, entry: &CEntry, reply: &mut CReply) -> u32
    ensures answer { AnswersStep held.old entry.now result }
    ensures step { result ≡ 0 → (reply.new ≡ told_reply (reply_to (state_of held.old) (spelled_entry entry.now)))
        × IsStepped (shelf_of held.old) (spelled_entry entry.now) (shelf_of held.new) }
    ensures history { result ≡ 0 → AfterEach held.old (λ template history. (reply.new ≡ told_reply (reply_after template history (spelled_entry entry.now)))
        × IsAfter (state_of held.new) (history ++ spelled_entry entry.now ∷ [])) }
    ensures kept { (result ≢ 0 → (shelf_of held.new ≡ shelf_of held.old) × (reply.new ≡ reply.old)) × (held.new.is_open ≡ held.old.is_open) }
{
    let Some(mut shelf) = held.take(heap) else {
        return BAD_HANDLE;
    };
    let Some(entry) = c::entry_of(entry) else {
        return held.put_back(shelf, BAD_LINE);
    };
    if shelf.sup.is_spent() {
        return held.put_back(shelf, HISTORY_FULL);
    }
    *reply = c::told_reply(shelf.sup.step(&entry));
    held.put_back(shelf, DONE)
}

/// Enters an entry as `sup_step` does, if there are as many entries as `stamp` says. So the answer is to what the rules asked then.
/// A start gives its child the value `token`; then it stores that of the entry's child.
#[unsafe(no_mangle)]
pub extern "C" fn sup_step_at(
    held: &mut Held,
    heap: Global,
    entry: &CEntry,
    stamp: u64,
    token: &mut u64,
    reply: &mut CReply,
) -> u32
    ensures answer { AnswersStepAt held.old entry.now stamp result }
    ensures step { result ≡ 0 → (reply.new ≡ told_reply (reply_to (state_of held.old) (spelled_entry entry.now)))
        × (state_of held.new ≡ next_state (state_of held.old) (spelled_entry entry.now)) × (listed_of held.new ≡ listed_of held.old) }
    ensures history { result ≡ 0 → AfterEach held.old (λ template history. (reply.new ≡ told_reply (reply_after template history (spelled_entry entry.now)))
        × (length history ≡ stamp) × IsAfter (state_of held.new) (history ++ spelled_entry entry.now ∷ [])) }
    ensures left { result ≡ 0 → left_of held.new ≡ left_after (state_of held.old) (spelled_entry entry.now) (left_of held.old) }
    ensures which { result ≡ 0 → AfterEach held.old (λ template history. goes_down (reply_to (state_of held.old) (spelled_entry entry.now)) ≡ true
        → left_of held.new ≡ which template history) }
    ensures tokens { result ≡ 0 → (token.new ≡ token_told (token_of held.old) (spelled_operation entry.now) token.old)
        × ((number : ℕ) → token_of held.new number
        ≡ tokens_after (token_of held.old) (number_of (spelled_operation entry.now)) token.old (reply_to (state_of held.old) (spelled_entry entry.now)) number) }
    ensures kept { (result ≢ 0 → HasSame held.old held.new × (token.new ≡ token.old) × (reply.new ≡ reply.old)) × (held.new.is_open ≡ held.old.is_open) }
{
    let Some(mut shelf) = held.take(heap) else {
        return BAD_HANDLE;
    };
    let Some(entry) = c::entry_of(entry) else {
        return held.put_back(shelf, BAD_LINE);
    };
    if shelf.sup.stamp() != stamp {
        return held.put_back(shelf, STALE);
    }
    if shelf.sup.is_spent() {
        return held.put_back(shelf, HISTORY_FULL);
    }
    let asked = shelf.sup.asks(&entry.operation, entry.moment);
    let mut rows = Ok(Seen::Down);
    if may_end(&shelf.template, &entry.operation, asked.arg.is_some()) {
        rows = shelf.sup.rows();
    }
    let (Ok(rows), Ok(())) = (rows, shelf.tokens.reserve(1)) else {
        return held.put_back(shelf, OUT_OF_MEMORY);
    };
    let replied = shelf.sup.step_at(&entry, asked.cached_index);
    if matches!(replied, Reply::Stopped | Reply::GaveUp | Reply::ShutDown(_)) {
        shelf.left = rows;
    }
    follow(&mut shelf.tokens, &entry.operation, token, &replied);
    *reply = c::told_reply(replied);
    held.put_back(shelf, DONE)
}

/// Tells how many children and entries there are, and whether the supervisor is down.
#[unsafe(no_mangle)]
pub extern "C" fn sup_count(held: &mut Held, heap: Global, counts: &mut CCounts) -> u32
    ensures answer { AnswersWhileOpen held.old result }
    ensures history { result ≡ 0 → AfterEach held.old (λ template history. counts.new ≡ told_counts (length history) (count template history)) }
    ensures kept { IsKept held.old held.new × (result ≢ 0 → counts.new ≡ counts.old) }
{
    let Some(shelf) = held.take(heap) else {
        return BAD_HANDLE;
    };
    *counts = c::told_counts(shelf.sup.stamp(), shelf.sup.counts());
    held.put_back(shelf, DONE)
}

/// Tells the child with this number.
#[unsafe(no_mangle)]
pub extern "C" fn sup_child(held: &mut Held, heap: Global, number: u64, row: &mut CRow) -> u32
    ensures answer { AnswersWhileOpen held.old result }
    ensures history { result ≡ 0 → AfterEach held.old (λ template history. row.new ≡ told_child (child template history number)) }
    ensures kept { IsKept held.old held.new × (result ≢ 0 → row.new ≡ row.old) }
{
    let Some(shelf) = held.take(heap) else {
        return BAD_HANDLE;
    };
    *row = c::told_child(shelf.sup.child(number));
    held.put_back(shelf, DONE)
}

/// Tells the child with this index, from 0 on, among those that were listed last, by ascending numbers. Index 0 lists them anew.
#[unsafe(no_mangle)]
pub extern "C" fn sup_row(held: &mut Held, heap: Global, index: u64, row: &mut CRow) -> u32
    ensures answer { AnswersRow held.old index result }
    ensures row { result ≡ 0 → (row.new ≡ told_child (row_seen (listed_of held.new) index))
        × (listed_of held.new ≡ listed_at index (state_of held.old) (listed_of held.old)) }
    ensures history { result ≡ 0 → index ≡ 0 → AfterEach held.old (λ template history. listed_of held.new ≡ which template history) }
    ensures kept { (held.new.is_open ≡ held.old.is_open) × (state_of held.new ≡ state_of held.old) × (result ≢ 0 → IsKept held.old held.new × (row.new ≡ row.old)) }
    ensures others { (left_of held.new ≡ left_of held.old) × ((number : ℕ) → token_of held.new number ≡ token_of held.old number) }
{
    let Some(mut shelf) = held.take(heap) else {
        return BAD_HANDLE;
    };
    if index == 0 {
        let Ok(listed) = shelf.sup.rows() else {
            return held.put_back(shelf, OUT_OF_MEMORY);
        };
        shelf.listed = listed;
    }
    *row = c::told_row(&shelf.listed, index);
    held.put_back(shelf, DONE)
}

/// Tells the child with this index, from 0 on, among those that were listed before the entry that took the supervisor down.
#[unsafe(no_mangle)]
pub extern "C" fn sup_left(held: &mut Held, heap: Global, index: u64, row: &mut CRow) -> u32
    ensures answer { AnswersWhileOpen held.old result }
    ensures row { result ≡ 0 → row.new ≡ told_child (row_seen (left_of held.old) index) }
    ensures kept { IsKept held.old held.new × (result ≢ 0 → row.new ≡ row.old) }
{
    let Some(shelf) = held.take(heap) else {
        return BAD_HANDLE;
    };
    *row = c::told_row(&shelf.left, index);
    held.put_back(shelf, DONE)
}

/// Tells the value of the child with this number: 0 if it has none.
#[unsafe(no_mangle)]
pub extern "C" fn sup_token(held: &mut Held, heap: Global, number: u64, token: &mut u64) -> u32
    ensures answer { AnswersWhileOpen held.old result }
    ensures token { result ≡ 0 → token.new ≡ token_of held.old number }
    ensures kept { IsKept held.old held.new × (result ≢ 0 → token.new ≡ token.old) }
{
    let Some(shelf) = held.take(heap) else {
        return BAD_HANDLE;
    };
    *token = token_of(&shelf.tokens, number);
    held.put_back(shelf, DONE)
}

/// Writes an entry as a line of a history text into a room, and tells its length.
#[unsafe(no_mangle)]
pub extern "C" fn sup_write_entry(heap: Global, entry: &CEntry, to: &mut [u8], len: &mut u64) -> u32
    ensures answer { AnswersWriting entry.now (length to.old) result }
    ensures written { result ≡ 0 → IsWritten (entry_line (spelled_entry entry.now)) to.old to.new len.new
        × SpellsOneMore (entry_line (spelled_entry entry.now)) (spelled_entry entry.now) }
    ensures kept { result ≢ 0 → (to.new ≡ to.old) × (len.new ≡ len.old) }
{
    let Some(entry) = c::entry_of(entry) else {
        return BAD_LINE;
    };
    let mut line = Vec::new(heap);
    if append_entry(&entry, &mut line).is_err() {
        return OUT_OF_MEMORY;
    }
    if line.len() > to.len() {
        return TOO_LONG;
    }
    to[..line.len()].copy_from_slice(&line);
    *len = line.len() as u64;
    DONE
}

/// Reads the entry of the first line of a text, which ends with a line feed, and tells the length of that line.
#[unsafe(no_mangle)]
pub extern "C" fn sup_read_entry(text: &[u8], entry: &mut CEntry, len: &mut u64) -> u32
    ensures answer { (result ≡ 0) ⊎ (result ≡ 9) }
    ensures read { result ≡ 0 → ReadsEntry text.now entry.new len.new }
    ensures kept { result ≢ 0 → ReadsNone text.now × (entry.new ≡ entry.old) × (len.new ≡ len.old) }
{
    let Some((read, rest)) = next_entry(text) else {
        return BAD_LINE;
    };
    *entry = c::told_entry(&read);
    *len = (text.len() - rest.len()) as u64;
    DONE
}
