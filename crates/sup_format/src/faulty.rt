//! The line that has a fault.

ghost use Rattle.std.specs.Prelude.{◌≤◌};

use std::fmt;

/// Bounds the bytes of a line that are kept. No line of a script or a history text is as long.
const MOST_KEPT: usize = 200;

/// Keeps the first bytes of the line in which a text has a fault: at most 200.
#[derive(Clone, Copy, Debug)]
pub struct FaultyLine {
    bytes: [u8; 200],
    len: usize,
    is_cut: bool,
    ghost few: { len ≤ 200 },
}

impl Default for FaultyLine {
    /// Returns the empty line, which is line 1 of an empty text.
    fn default() -> FaultyLine {
        FaultyLine {
            bytes: [0; 200],
            len: 0,
            is_cut: false,
        }
    }
}

impl FaultyLine {
    /// Keeps this line, or its first bytes, in place of the previous one.
    pub fn keep(&mut self, line: &[u8]) {
        let len = line.len().min(MOST_KEPT);
        let mut bytes = [0; 200];
        bytes[..len].copy_from_slice(&line[..len]);
        *self = FaultyLine {
            bytes,
            len,
            is_cut: len < line.len(),
        };
    }

    /// Returns the bytes that are kept.
    pub fn bytes(&self) -> &[u8] {
        &self.bytes[..self.len]
    }
}

/// Shows a byte that is no visible character as `?`, and ` ..` if the line is cut.
impl fmt::Display for FaultyLine {
    fn fmt<W: fmt::Write>(&self, f: &mut fmt::Formatter<W>) -> fmt::Result {
        for byte in self.bytes() {
            let is_shown = *byte == b' ' || byte.is_ascii_graphic();
            f.write_char(if is_shown { char::from(*byte) } else { '?' })?;
        }
        if self.is_cut {
            f.write_str(" ..")?;
        }
        Ok(())
    }
}
