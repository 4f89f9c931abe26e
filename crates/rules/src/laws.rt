//! Laws of the definitions.
ghost use Rattle.std.specs.Prelude.{◌≡◌, ◌≤◌, List, ℕ, Result, IfOk, length};
ghost use Rattle.terms.specs.declared.term.Term.{Term};
ghost use Rattle.algebra.specs.declared.update.Operation.{Operation};
ghost use Rattle.meaning.specs.declared.reply.Refusal.{Refusal};
ghost use Rattle.rules.specs.Refusal.{IsChecked};

use grammar::laws::one_reading;

/// A text is at most one request.
pub fn one_answer()
    ensures { (text : List ℕ) (c d : Result (List (Operation Term)) Refusal) → IsChecked text c
        → IsChecked text d → c ≡ d }
{
    one_reading();
}

/// An accepted request has at most 256 operations.
pub fn requests_are_short()
    ensures { (text : List ℕ) (c : Result (List (Operation Term)) Refusal) → IsChecked text c
        → IfOk c (λ operations. length operations ≤ 256) }
{}
