//! Laws of the definitions.
ghost use Rattle.std.specs.Prelude.{◌≡◌, ℕ, List, None, true, false, []};
ghost use Rattle.lexer.specs.declared.token.Token.{Token};
ghost use Rattle.syntax_trees.specs.declared.tree.SameSubject.{SameSubject};
ghost use Rattle.syntax_trees.specs.declared.tree.Block.{Block};
ghost use Rattle.productions.specs.Steps.{Found, Takes, Again};
ghost use Rattle.productions.specs.Keywords.{keyword_at};
ghost use Rattle.triples.specs.Reads.{ReadsGraphName, ReadsTriples, ReadsMaybeTriples, ReadsQuads, EndsTriples};
ghost use Rattle.triples.specs.Reading.{begins_node, graph_name_at, triples_at, maybe_triples_at, quads_at};
ghost use Rattle.triples.specs.Laws.{AgainBefore};

/// Names of graphs are read as the grammar says, and in no other way.
pub fn graph_names_are_read()
    ensures found { Found graph_name_at ReadsGraphName }
    ensures takes { Takes ReadsGraphName }
    ensures again { Again graph_name_at ReadsGraphName }
{}

/// Triples are read as the grammar says, and where a brace or a word follows them in no other way.
pub fn triples_are_read()
    ensures found { Found triples_at ReadsTriples }
    ensures takes { Takes ReadsTriples }
    ensures again { AgainBefore EndsTriples triples_at ReadsTriples }
{}

/// Triples begin with a subject, and what follows them doesn't.
pub fn triples_begin()
    ensures begin { (ts rest : List Token) (xs : List SameSubject) → ReadsTriples ts xs rest
        → begins_node ts ≡ true }
    ensures ends { (ts : List Token) → EndsTriples ts → begins_node ts ≡ false }
{}

/// The same of triples that may be missing.
pub fn maybe_triples_are_read()
    ensures found { Found maybe_triples_at ReadsMaybeTriples }
    ensures again { AgainBefore EndsTriples maybe_triples_at ReadsMaybeTriples }
{}

/// Quads are read as the grammar says, and in no other way. They begin with no word.
pub fn quads_are_read()
    ensures found { Found quads_at ReadsQuads }
    ensures takes { Takes ReadsQuads }
    ensures again { Again quads_at ReadsQuads }
    ensures begin { (ts rest : List Token) (bs : List Block) (k : List ℕ) → ReadsQuads ts bs rest
        → keyword_at k ts ≡ None }
{}
