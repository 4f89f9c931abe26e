//! Laws of the definitions.
ghost use Rattle.std.specs.Prelude.{◌≡◌, List, ℕ};
ghost use Rattle.datasets.specs.Dataset.{Dataset};
ghost use Rattle.terms.specs.declared.term.Term.{Term};
ghost use Rattle.nquads.specs.Spelled.{Spells, IsFirstBad};

use nquads_lines::laws::lines_are_read;
use terms::laws::lists_grow_as_datasets;

/// A text spells at most one dataset.
pub fn one_dataset()
    ensures { (text : List ℕ) (d e : Dataset Term) → Spells text d → Spells text e → d ≡ e }
{
    lines_are_read();
    lists_grow_as_datasets();
}

/// A text with a bad line spells none.
pub fn bad_line_spells_none()
    ensures { (text : List ℕ) (n : ℕ) (d : Dataset Term) → IsFirstBad text n → Spells text d → ⊥ }
{}
