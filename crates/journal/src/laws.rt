//! Laws of the definitions: each line that may be written is read from its text.
ghost use Rattle.std.specs.Prelude.{◌≡◌, ◌++◌, ℕ, List, Some};
ghost use Rattle.canonical_nquads.specs.Tag.{mark_of};
ghost use Rattle.journal.specs.declared.lines.Line.{Line};
ghost use Rattle.journal.specs.Text.{line_body, line_text};
ghost use Rattle.journal.specs.Journal.{IsJournal, IsFirstBad};
ghost use Rattle.journal.specs.Entry.{entry_at};
ghost use Rattle.journal.specs.Lines.{IsLine};
ghost use Rattle.journal.specs.Reading.{line_of};

use iris::laws::runs_are_longest;
use nquads_laws::{terms_are_read, terms_end_no_line};

/// A line is read from its text.
pub fn lines_are_read()
    ensures { (tag : ℕ) (l : Line) → IsLine (mark_of tag) l
        → line_of (mark_of tag) (line_body tag l) ≡ Some l }
{
    runs_are_longest();
    terms_are_read();
    terms_end_no_line();
}

/// An entry is read at the front of a text exactly where a line's text stands there.
pub fn entries_are_lines()
    ensures found { (tag : ℕ) (text rest : List ℕ) (l : Line)
        → entry_at tag (mark_of tag) text ≡ Some (l, rest) → text ≡ line_text tag l ++ rest }
    ensures again { (tag : ℕ) (rest : List ℕ) (l : Line) → IsLine (mark_of tag) l
        → entry_at tag (mark_of tag) (line_text tag l ++ rest) ≡ Some (l, rest) }
{
    runs_are_longest();
    terms_end_no_line();
    lines_are_read();
}

/// Bytes are the text of one list of lines, and of none where an entry is bad.
pub fn one_journal()
    ensures one { (tag : ℕ) (bytes : List ℕ) (a b : List Line) → IsJournal tag bytes a
        → IsJournal tag bytes b → a ≡ b }
    ensures none { (tag : ℕ) (bytes : List ℕ) (n : ℕ) (a : List Line) → IsFirstBad tag bytes n
        → IsJournal tag bytes a → ⊥ }
{
    entries_are_lines();
}
