//! Appends that no journal makes.
ghost use Rattle.std.specs.Prelude.{ℕ, List};
ghost use Rattle.gx_outside.specs.Refused.{HasFailedForMemory, HasFailedUncounted, HasFailedUntold};
ghost use Rattle.gx_outside.specs.Shelves.{Shelf};

/// A failure whose count stands is none, up to the end of the count's type too.
pub fn failures_are_counted()
    ensures { (before after : Shelf) (item : List ℕ) → HasFailedUncounted before after item → ⊥ }
{}

/// A failure is told as one: an append that failed and was tried again isn't told as one that went well, nor as want of memory.
pub fn failures_are_told()
    ensures again { (before after : Shelf) (item : List ℕ) → HasFailedUntold before after item → ⊥ }
    ensures memory { (before after : Shelf) (item : List ℕ) → HasFailedForMemory before after item → ⊥ }
{}
