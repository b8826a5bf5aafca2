//! From bytes to values: lines, words, commands, headers and whole history texts.
pub mod command;
pub mod cursor;
pub mod entries;
pub mod header;
pub mod history;
pub mod input;
pub mod lines;
pub mod place;
pub mod syntax;
pub mod words;
