//! Loads: how much is to be done.

ghost use Rattle.std.specs.Prelude.{◌≡◌, ◌≤◌, MatchOption};
ghost use Rattle.sup_words.specs.Ranges.{IsWithin};

/// Says how much is to be done.
#[derive(Clone, Copy, Debug, PartialEq, Eq)]
pub struct Load {
    /// How many threads run children: 1 to 64.
    pub workers: usize,
    /// How many children are started: 1 to 65,536.
    pub children: u64,
    /// How many threads ask: 0 to 64.
    pub readers: usize,
    /// How often each of them asks: 1 to 1,000,000.
    pub turns: u64,
    ghost crew: { (1 ≤ workers) × (workers ≤ 64) },
    ghost crowd: { (1 ≤ children) × (children ≤ 65536) },
    ghost asking: { readers ≤ 64 },
    ghost asked: { (1 ≤ turns) × (turns ≤ 1000000) },
}

impl Load {
    /// Returns this much, if it is within the ranges.
    pub fn new(workers: usize, children: u64, readers: usize, turns: u64) -> Option<Load>
        ensures { MatchOption result (IsWithin workers children readers turns → ⊥)
            (λ load. (load.workers ≡ workers) × (load.children ≡ children) × (load.readers ≡ readers) × (load.turns ≡ turns)) }
    {
        let is_load = (1..=64).contains(&workers)
            && (1..=65_536).contains(&children)
            && readers <= 64
            && (1..=1_000_000).contains(&turns);
        if !is_load {
            return None;
        }
        Some(Load {
            workers,
            children,
            readers,
            turns,
        })
    }
}
