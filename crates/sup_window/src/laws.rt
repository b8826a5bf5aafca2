//! Laws of the definitions alone: the functions do nothing, and their contracts are the laws.

ghost use Rattle.std.specs.Prelude.{◌≡◌, ℕ, List, ◌++◌, ◌∷◌, []};
ghost use Rattle.std.specs.List.Sorted.{IsNonDecreasing};
ghost use Rattle.sup_window.specs.Attempts.{is_allowed, remembered};

/// Shows that what a window remembers of attempts decides as all of them do.
pub fn remembered_attempts_decide()
    ensures { (intensity period : ℕ) (attempts : List ℕ) (at : ℕ) → IsNonDecreasing attempts
        → is_allowed intensity period (remembered intensity attempts) at ≡ is_allowed intensity period attempts at }
{}

/// Shows that to remember one attempt more, a window needs no other than those that it remembers.
pub fn forgotten_attempts_stay_forgotten()
    ensures { (intensity : ℕ) (attempts : List ℕ) (at : ℕ)
        → remembered intensity (remembered intensity attempts ++ at ∷ []) ≡ remembered intensity (attempts ++ at ∷ []) }
{}
