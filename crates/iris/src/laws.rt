//! Laws of the definitions.
ghost use Rattle.std.specs.Prelude.{◌≡◌, ℕ, Bool, List, take, drop};
ghost use Rattle.std.specs.List.{prefix_len};
ghost use Rattle.iris.specs.Runs.{run_of, rest_of, RunsAreLongest};

/// A run is the longest front of a text whose bytes all pass, and the rest is what follows it.
pub fn runs_are_longest()
    ensures { RunsAreLongest }
{}

/// A run is found by its length.
pub fn run_by_length()
    ensures front { (p : ℕ → Bool) (text : List ℕ) → take (prefix_len p text) text ≡ run_of p text }
    ensures rest { (p : ℕ → Bool) (text : List ℕ) → drop (prefix_len p text) text ≡ rest_of p text }
{}
