//! Laws of the definitions.
ghost use Rattle.std.specs.Prelude.{◌≡◌, Bool, List, ℕ};
ghost use Rattle.std.specs.List.{list_any};
ghost use Rattle.sets.specs.Sets.{set_of, has};
ghost use Rattle.datasets.specs.declared.quad.Quad.{Quad};
ghost use Rattle.datasets.specs.Dataset.{quad_order, names_of};
ghost use Rattle.terms.specs.declared.term.Term.{Term};
ghost use Rattle.terms.specs.Term.{term_order, text_cmp};
ghost use Rattle.terms.specs.DataSet.{in_named, ListsGrowAsDatasets, ListsUnite};
ghost use Rattle.terms.specs.Placed.{TermsKeepPlaces};

/// The dataset of a list with one more quad is the dataset of the list with that quad put in.
pub fn lists_grow_as_datasets()
    ensures { ListsGrowAsDatasets }
{}

/// The dataset of lists, one behind the other, has the quads and graphs of both lists' datasets.
pub fn lists_unite()
    ensures { ListsUnite }
{}

/// Quads name a graph exactly where one of them is in it.
pub fn quads_name_their_graphs()
    ensures { (name : Term) (quads : List (Quad Term))
        → has term_order (names_of quads) name ≡ list_any (in_named name) quads }
{}

/// A set has an element that passes a test exactly where the list that it is made of has one.
pub fn sets_pass_alike()
    ensures quads { (test : Quad Term → Bool) (quads : List (Quad Term))
        → list_any test (set_of (quad_order term_order) quads) ≡ list_any test quads }
    ensures names { (test : Term → Bool) (names : List Term)
        → list_any test (set_of term_order names) ≡ list_any test names }
    ensures texts { (test : List ℕ → Bool) (texts : List (List ℕ))
        → list_any test (set_of text_cmp texts) ≡ list_any test texts }
{}

/// Where a list of terms goes on, each term keeps its place.
pub fn terms_keep_places()
    ensures { TermsKeepPlaces }
{}
