//! Each law is the contract of a function with an empty body.
ghost use Rattle.std.specs.Prelude.{◌≡◌, ◌<◌, ◌≤◌, ◌^◌, ◌↔◌, ◌++◌, ℕ, true, false, List, Option, None, Ok, length};
ghost use Rattle.std.specs.List.{AllByRecursion, Contains, list_all};
ghost use Rattle.datasets.specs.declared.quad.Quad.{Quad};
ghost use Rattle.terms.specs.declared.term.Term.{Term};
ghost use Rattle.datasets.specs.Dataset.{Dataset};
ghost use Rattle.algebra.specs.Plans.{Plan};
ghost use Rattle.meaning.specs.Vocabulary.{Vocabulary};
ghost use Rattle.meaning.specs.Mapping.{term_for};
ghost use Rattle.meaning.specs.Solutions.{solutions};
ghost use Rattle.meaning.specs.Run.{Request, run, run_of_first};
ghost use Rattle.dict.specs.Dictionary.{written};
ghost use Rattle.nquads.specs.Spelled.{Spells};
ghost use Rattle.canonical_nquads.specs.Tag.{is_taken};
ghost use Rattle.nquads_laws.specs.WellFormed.{IsTerm, IsWellFormed};
ghost use Rattle.meaning_laws.specs.Answers.{IsExactOrder};
ghost use Rattle.syntax_trees.specs.declared.tree.Node.{Node};
ghost use Rattle.syntax_trees.specs.declared.tree.Node.TheVariants as node;
ghost use Rattle.syntax_trees.specs.declared.tree.Step.{Step};
ghost use Rattle.names.specs.Numbers.{number_of, variables_of};
ghost use Rattle.translation.specs.Translation.{translated};
ghost use Rattle.algebra.specs.declared.update.Operation.{Operation};
ghost use Rattle.meaning.specs.declared.reply.Refusal.TheVariants as refusal;
ghost use Rattle.syntax_trees.specs.declared.tree.Syntax.{Syntax};
ghost use Rattle.faults.specs.Faults.{has_fault};
ghost use Rattle.grammar.specs.Reads.{Reads};
ghost use Rattle.rules.specs.Refusal.{IsAccepted};
ghost use Rattle.rules.specs.Requests.{IsSplit};
ghost use Rattle.rules.specs.Terms.{terms_of_request};
ghost use Rattle.lexer.specs.declared.token.Token.{Token};
ghost use Rattle.syntax_trees.specs.declared.tree.Operation.{Operation as Written};
ghost use Rattle.grammar.specs.Reads.{ReadsOperation};
ghost use Rattle.translation_laws.specs.Tokens.{IsNumberedAsRead, HasLastDeclarations};
ghost use Rattle.translation_laws.specs.Written.{is_name_or_literal};
ghost use Rattle.translation_laws.specs.Widths.{IsWithinWidth, IsSolved};
ghost use Rattle.translation_laws.specs.Formed.{IsFormedRequest};
ghost use Rattle.translation_laws.specs.Spelled.{IsSpelledAgain};

use meaning_laws::laws::{answers_with_datasets, joins_are_solutions};
use names::laws::{labels_are_numbered_as_they_appear, last_declaration_counts};
use nquads_laws::{spelled_is_well_formed, spells_again};
use terms::Term;

/// The number of a variable is below the width exactly where the variable is among the nodes of
/// WHERE; else it is the width itself. Two variables of WHERE have different numbers.
pub fn numbers_of_where_are_below()
    ensures below { (where-nodes : List Node) (variable : List ℕ)
        → (number_of (variables_of where-nodes) variable < length (variables_of where-nodes))
        ↔ Contains where-nodes (node.Variable variable) }
    ensures beyond { (where-nodes : List Node) (variable : List ℕ)
        → (Contains where-nodes (node.Variable variable) → ⊥)
        → number_of (variables_of where-nodes) variable ≡ length (variables_of where-nodes) }
    ensures apart { (where-nodes : List Node) (variable other : List ℕ)
        → Contains where-nodes (node.Variable variable) → Contains where-nodes (node.Variable other)
        → number_of (variables_of where-nodes) variable ≡ number_of (variables_of where-nodes) other
        → variable ≡ other }
{}

/// The number of a label of an operation is its place among the labels of the operation's tokens,
/// where each is taken once, at its first appearance.
pub fn labels_are_numbered_as_read()
    ensures { (tokens rest : List Token) (op : Written) → ReadsOperation (tokens ++ rest) op rest
        → IsNumberedAsRead tokens op }
{
    labels_are_numbered_as_they_appear();
}

/// The IRI of a prefix in an operation is that of the last declaration of the prefix before it.
pub fn names_have_the_last_declaration()
    ensures { (before later : List Step) (op : Written) → HasLastDeclarations before op later }
{
    last_declaration_counts();
}

/// The variables of each operation of a request are within its width: those of the pattern and of
/// its filters are below it, and those of the templates are too, or are the width itself where
/// WHERE lacks them.
pub fn variables_are_within_width()
    ensures { (steps : List Step) → AllByRecursion IsWithinWidth (translated steps) }
{}

/// Each solution of a pattern has a place for each number below the width, so the number that a
/// variable has which WHERE lacks, the width itself, is bound in none.
pub fn variables_beyond_width_are_unbound<K>()
    ensures rows { (V : Vocabulary K) (width : ℕ) (pattern : Plan K) (d : Dataset K)
        (graph : Option K) → AllByRecursion (λ mapping. length mapping ≡ width)
        (solutions V.order V.passes width pattern d graph) }
    ensures unbound { (V : Vocabulary K) (width : ℕ) (pattern : Plan K) (d : Dataset K)
        (graph : Option K) → AllByRecursion (λ mapping. term_for mapping width ≡ None)
        (solutions V.order V.passes width pattern d graph) }
{}

/// The joined solutions of each basic graph pattern of a request are its solutions in the
/// standard's words (SPARQL 1.1 Query, 18.3.1).
pub fn basic_patterns_are_solved()
    ensures { (V : Vocabulary Term) (triples : List (Quad Term)) (steps : List Step)
        → IsExactOrder V → AllByRecursion (IsSolved V triples) (translated steps) }
{
    joins_are_solutions::<Term>();
}

/// Each term of a text's operations is an IRI or a literal, unless the text is refused for its
/// syntax, a prefix or a blank node that is deleted; so is each of an accepted request, and it is
/// in its form. The term that stands where a node has none stands in none of them.
pub fn terms_are_written()
    ensures reading { (text : List ℕ) (syntax : Syntax) → Reads text syntax
        → has_fault refusal.Syntax syntax ≡ false → has_fault refusal.Prefix syntax ≡ false
        → has_fault refusal.BlankInDelete syntax ≡ false
        → list_all is_name_or_literal (terms_of_request (Ok (translated syntax.steps))) ≡ true }
    ensures request { (text : List ℕ) (update : List (Operation Term)) → IsAccepted text update
        → list_all is_name_or_literal (terms_of_request (Ok update)) ≡ true }
    ensures formed { (text : List ℕ) (update : List (Operation Term)) → IsAccepted text update
        → AllByRecursion IsTerm (terms_of_request (Ok update)) }
{}

/// The run of requests that bring terms in their forms keeps a dataset well-formed: what an
/// instance of a template makes of the terms of the dataset, of the terms of the request and of
/// made nodes has each kind of term where it may stand, and the numbers of made nodes have 32 bits.
pub fn run_keeps_well_formed()
    ensures { (requests : List (Request Term)) (d : Dataset Term) → length requests ≤ 2 ^ 32
        → AllByRecursion IsFormedRequest requests → IsWellFormed d
        → IsWellFormed (run written requests d).0 }
{
    answers_with_datasets::<Term>();
}

/// The run of a block keeps a dataset well-formed, and so does that of its first n requests: what
/// an accepted request brings into a dataset is in its form, and a refused one brings nothing.
pub fn block_keeps_well_formed()
    ensures whole { (bytes : List ℕ) (block : List (Request Term)) (d : Dataset Term)
        → IsSplit bytes (Ok block) → IsWellFormed d → IsWellFormed (run written block d).0 }
    ensures first { (bytes : List ℕ) (block : List (Request Term)) (n : ℕ) (d : Dataset Term)
        → IsSplit bytes (Ok block) → IsWellFormed d
        → IsWellFormed (run_of_first written n block d).0 }
{
    answers_with_datasets::<Term>();
}

/// A tag that no blank label of a dataset is marked with stays so along the run of a block and of
/// its first n requests: requests bring no blank nodes but made ones.
pub fn tag_stays_free()
    ensures whole { (bytes : List ℕ) (block : List (Request Term)) (d : Dataset Term) (tag : ℕ)
        → IsSplit bytes (Ok block) → IsWellFormed d → is_taken d.quads tag ≡ false
        → is_taken (run written block d).0.quads tag ≡ false }
    ensures first { (bytes : List ℕ) (block : List (Request Term)) (n : ℕ) (d : Dataset Term)
        (tag : ℕ) → IsSplit bytes (Ok block) → IsWellFormed d → is_taken d.quads tag ≡ false
        → is_taken (run_of_first written n block d).0.quads tag ≡ false }
{}

/// What is written of the run of a block, or of its first n requests, on the dataset that a text
/// spells, spells the dataset after that run, with each made node as the blank node of its label;
/// and no two terms of it become one where no blank label of the dataset before is marked with the
/// tag.
pub fn run_is_spelled()
    ensures whole { (text bytes : List ℕ) (block : List (Request Term)) (d : Dataset Term) (tag : ℕ)
        → Spells text d → IsSplit bytes (Ok block) → IsSpelledAgain d (run written block d).0 tag }
    ensures first { (text bytes : List ℕ) (block : List (Request Term)) (n : ℕ) (d : Dataset Term)
        (tag : ℕ) → Spells text d → IsSplit bytes (Ok block)
        → IsSpelledAgain d (run_of_first written n block d).0 tag }
{
    block_keeps_well_formed();
    tag_stays_free();
    spelled_is_well_formed();
    spells_again();
}
