//! Laws of the definitions.
ghost use Rattle.std.specs.Prelude.{◌≡◌, List, ℕ};
ghost use Rattle.syntax_trees.specs.declared.tree.Syntax.{Syntax};
ghost use Rattle.grammar.specs.Reads.{Reads};
ghost use Rattle.grammar.specs.Below.{Below};

use groups::laws::groups_are_read;
use lexer::laws::one_cut;
use triples::laws::quads_are_read;

/// Quads and groups are read as the grammar says, and in no other way.
pub(crate) fn quads_and_groups_are_read()
    ensures { Below }
{
    quads_are_read();
    groups_are_read();
}

/// A text has at most one reading.
pub fn one_reading()
    ensures { (text : List ℕ) (s t : Syntax) → Reads text s → Reads text t → s ≡ t }
{
    one_cut();
    quads_and_groups_are_read();
}
