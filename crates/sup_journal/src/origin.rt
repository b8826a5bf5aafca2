//! What a writer held at first.
use std::marker::Brand;

/// Says by its type what the writer of a journal held when the journal was made, if that is known: behind a lock only the type is.
pub trait Origin {
    ghost use Rattle.std.specs.Prelude.{ℕ, List, Option};

    ghost held: { Option (List ℕ) };
}

/// The writer was empty, or held what a proof picks.
impl Origin for Brand {
    ghost use Rattle.std.specs.Prelude.{Some, []};

    ghost held = { Some [] };
}

/// Marks a writer that has no clause for what it holds, such as a file: nothing is claimed of its bytes.
pub struct Unknown;

impl Origin for Unknown {
    ghost use Rattle.std.specs.Prelude.{None};

    ghost held = { None };
}
