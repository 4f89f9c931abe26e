//! Laws of changes.
ghost use Rattle.std.specs.Prelude.{◌≡◌, true};
ghost use Rattle.reads.specs.Reads.{Delta};
ghost use Rattle.delta.specs.Same.{delta_eq};

/// Deltas that the test finds equal are one.
pub fn equal_deltas_are_one()
    ensures { (a b : Delta) → delta_eq a b ≡ true → a ≡ b }
{}
