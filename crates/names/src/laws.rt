//! Laws of the definitions: which number a label has, and which IRI a prefix.
ghost use Rattle.std.specs.Prelude.{◌≡◌, ℕ, List, [], Some, slice_get};
ghost use Rattle.std.specs.List.{Contains};
ghost use Rattle.names.specs.Names.{namespace_of};
ghost use Rattle.names.specs.Numbers.{label_number, with_labels};
ghost use Rattle.names.specs.Appearance.{distinct, last_iri, after_declarations};

/// Labels are numbered as they appear: the number of a label is its place among them, where each is
/// taken once, at its first appearance.
pub fn labels_are_numbered_as_they_appear()
    ensures { (labels : List (List ℕ)) (label : List ℕ) → Contains labels label
        → slice_get (distinct labels) (label_number (with_labels labels []) label) ≡ Some label }
{}

/// The IRI of a prefix is that of its last declaration.
pub fn last_declaration_counts()
    ensures { (declarations : List (List ℕ × List ℕ)) (prefix : List ℕ)
        → namespace_of (after_declarations declarations) prefix ≡ last_iri declarations prefix }
{}
