//! What follows from the definitions.

ghost use Rattle.std.specs.Prelude.{◌≡◌, ℕ, Some, List};
ghost use Rattle.boot_history.specs.FileNames.{number_named};

/// No two names of files write one number.
pub fn a_number_has_one_name()
    ensures { (a b : List ℕ) (number : ℕ) →
        number_named a ≡ Some number → number_named b ≡ Some number → a ≡ b }
{}
