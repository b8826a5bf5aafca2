//! A hash of numbers under which neighbours lie close together: four share a group of the map's index, and the next four lie in the group
//! after it. So what is made in turn is read from lines in turn, and each group has as many of a run of numbers as any other.
ghost use Rattle.std.specs.Prelude.{◌≡◌};
ghost use Rattle.sup_core.specs.SequentialHasher.{sequential_hash};

use std::hash::{BuildHasher, Hasher};

/// Hashes a number of eight bytes; it reads no other keys.
#[derive(Clone, Copy)]
pub struct SequentialHasher {
    number: u64,
}

impl SequentialHasher {
    /// Returns a hasher that has read nothing.
    pub fn new() -> SequentialHasher {
        SequentialHasher { number: 0 }
    }
}

/// Returns the hash: the map's index finds the group by the low 24 of 32 bits, and tells apart what is there by the high eight.
fn sequential_hash(number: u64) -> u64
    ensures { result ≡ sequential_hash number }
{
    let tag = number.wrapping_mul(0x9e37_79b9_7f4a_7c15) >> 56;
    (tag << 24) | ((number >> 2) & 0xff_ffff)
}

impl Hasher for SequentialHasher {
    ghost use Rattle.sup_core.specs.SequentialHasher.{sequential_hash, sequential_write};

    ghost write = { sequential_write };

    ghost finish = { λ sequential. sequential_hash sequential.number };

    fn finish(&self) -> u64 {
        sequential_hash(self.number)
    }

    fn write(&mut self, bytes: &[u8]) {
        if let Some(bytes) = bytes.as_array::<8>() {
            self.number = u64::from_le_bytes(*bytes);
        }
    }
}

impl BuildHasher for SequentialHasher {
    type Hasher = SequentialHasher;

    ghost build_hasher = { λ sequential. sequential };

    fn build_hasher(&self) -> SequentialHasher {
        *self
    }
}
