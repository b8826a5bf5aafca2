//! From values to bytes: the text of replies, history texts, and the outbox in which replies wait.
pub mod history_text;
pub mod outbox;
pub mod reply;
