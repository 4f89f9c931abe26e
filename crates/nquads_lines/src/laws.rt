//! Laws of the definitions.
ghost use Rattle.std.specs.Prelude.{◌≡◌, ◌∷◌, ◌++◌, List, ℕ, true, Some};
ghost use Rattle.std.specs.List.{list_all};
ghost use Rattle.terms.specs.declared.term.Term.{Term};
ghost use Rattle.nquads_lines.specs.Forms.{ObjectAt};
ghost use Rattle.nquads_lines.specs.Lines.{lines, is_inner};
ghost use Rattle.nquads_lines.specs.ReadTerms.{object_at};
ghost use Rattle.nquads_lines.specs.Reading.{LinesAreRead};

use iris::laws::runs_are_longest;

/// Bytes without a line end, and an LF after them, are the first line of a text.
pub fn first_line_is_ended()
    ensures { (line rest : List ℕ) → list_all is_inner line ≡ true
        → lines (line ++ 10 ∷ rest) ≡ line ∷ lines rest }
{
    runs_are_longest();
}

/// What is read of a line is what it says.
pub fn lines_are_read()
    ensures { LinesAreRead }
{
    runs_are_longest();
}

/// An object at the front of a text is read.
pub fn objects_are_read()
    ensures { (text rest : List ℕ) (x : Term) → ObjectAt text x rest
        → object_at text ≡ Some (x, rest) }
{
    runs_are_longest();
}
