//! Laws of the definitions.
ghost use Rattle.std.specs.Prelude.{ℕ};
ghost use Rattle.productions.specs.Steps.{Takes};
ghost use Rattle.expressions.specs.Grammar.{ReadsConstraint};
ghost use Rattle.expressions.specs.Reading.{ConstraintsAreFound, ConstraintsAreRead};

/// What is read as a constraint is one, each takes a token or more, and each is read, whatever
/// follows it.
pub fn constraints_are_read()
    ensures found { ConstraintsAreFound }
    ensures takes { (n : ℕ) → Takes (ReadsConstraint n) }
    ensures again { ConstraintsAreRead }
{}
