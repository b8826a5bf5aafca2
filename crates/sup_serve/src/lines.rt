//! The lines of an input.
ghost use Rattle.std.specs.Prelude.{◌≤◌};

use arrayvec::ArrayVec;
use std::io::Read;
use std::sync::Wait;
use sup_script::WatchedReader;

/// The most bytes of a line that are kept. No line that asks for something is as long.
const MOST_KEPT: usize = 128;

/// Holds a line without its line feed: at most its first 128 bytes.
pub type Line = ArrayVec<u8, MOST_KEPT>;

/// Reads the lines of an input, in pieces.
#[derive(Drop)]
pub struct Lines<'a, I> {
    input: &'a mut WatchedReader<I>,
    piece: [u8; 512],
    from: usize,
    to: usize,
    ghost left: { from ≤ to },
    ghost within: { to ≤ 512 },
}

impl<'a, I: Read> Lines<'a, I> {
    /// Makes the lines of an input of which nothing was read.
    pub fn new(input: &'a mut WatchedReader<I>) -> Lines<'a, I> {
        Lines {
            input,
            piece: [0; 512],
            from: 0,
            to: 0,
        }
    }

    /// Returns the next line, which the input's end ends as well. `None` if the input has ended or failed: a line in which it
    /// fails is none.
    pub fn next<R: Wait>(&mut self, rt: &R) -> Option<Line> {
        let mut line = Line::new();
        for _ in rt.forever() {
            match self.next_byte() {
                Some(b'\n') => return Some(line),
                Some(byte) => {
                    // (only the beginning of a long line is kept)
                    let _ = line.try_push(byte);
                }
                None => return (!line.is_empty() && !self.input.has_failed()).then_some(line),
            }
        }
        unreachable!()
    }

    fn next_byte(&mut self) -> Option<u8> {
        if self.from == self.to {
            self.from = 0;
            self.to = 0;
            self.to = self.input.read_on(&mut self.piece)?;
            if self.to == 0 {
                return None;
            }
        }
        let byte = self.piece[self.from];
        self.from += 1;
        Some(byte)
    }
}
