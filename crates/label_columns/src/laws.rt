//! What follows from the definitions alone.
ghost use Rattle.std.specs.Prelude.{◌≡◌, ℕ, Bool, List};
ghost use Rattle.label_columns.specs.Parts.{joined, parted};

/// The parts of bytes are all of them, in order.
pub fn parts_are_the_bytes()
    ensures { (ends : ℕ → Bool) (bytes : List ℕ) → joined (parted ends bytes) ≡ bytes }
{}
