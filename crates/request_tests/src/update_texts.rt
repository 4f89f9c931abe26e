//! Texts and blocks with the answers that the standard and this program's limits give them.

use algebra::{
    Expression, GraphOperation, Link, Modify, Operation, Place, Plan, QuadTemplate, Slot, Target,
};
use meaning::Refusal;
use rules::{BlockFault, split, verdicts};
use std::alloc::{AllocError, Global};
use terms::Term;

const RDF_TYPE: &str = "http://www.w3.org/1999/02/22-rdf-syntax-ns#type";

/// Texts after the prologue of `ex:`, and how many operations each has, or why it is refused.
pub(crate) const TEXTS: [(&str, Result<usize, Refusal>); 75] = [
    ("INSERT DATA { ?x nope:p 1 }", Err(Refusal::Prefix)),
    (
        "INSERT DATA { GRAPH ?g { ex:a ex:p 1 } }",
        Err(Refusal::VariableInData),
    ),
    ("DELETE WHERE { _:x ex:p ?o }", Err(Refusal::BlankInDelete)),
    (
        "INSERT DATA { _:x ex:p 1 } ; INSERT DATA { _:x ex:p 2 }",
        Err(Refusal::LabelReused),
    ),
    ("INSERT DATA { ex:a ex:p -1 }", Err(Refusal::Syntax)),
    ("INSERT DATA { ex:a ex:p 1.5 }", Err(Refusal::Syntax)),
    ("INSERT DATA { ex:a ex:p 1. }", Ok(1)),
    ("INSERT DATA { ex:a a ex:C }", Ok(1)),
    ("INSERT DATA { ex:a A ex:C }", Err(Refusal::Syntax)),
    ("insert data { } ;", Ok(1)),
    (";", Err(Refusal::Syntax)),
    (
        "INSERT { ?x ex:p 1 } WHERE { _:b ex:p ?x }",
        Err(Refusal::Syntax),
    ),
    ("", Ok(0)),
    (" # nothing", Ok(0)),
    (
        "insert data { } ; PREFIX : <a:> insert data { :a :b :, <b:c> ; ; . }",
        Ok(2),
    ),
    ("insert data { } ; ;", Err(Refusal::Syntax)),
    ("insert data { . }", Err(Refusal::Syntax)),
    ("INSERT DATA { <b> <a:b> <a:b> }", Err(Refusal::Syntax)),
    ("INSERT DATA { a:b:c <a:d> }", Err(Refusal::Prefix)),
    (
        "INSERT DATA { a:b a:b a:b } ; PREFIX a: <a:>",
        Err(Refusal::Prefix),
    ),
    (
        "PREFIX a: <a:> INSERT DATA { a:b a:b a:b } ; PREFIX a: <b:>",
        Ok(1),
    ),
    ("PREFIX:<a:> INSERT DATA { }", Err(Refusal::Syntax)),
    ("# c\rINSERT DATA { } # }", Ok(1)),
    ("DELETE DATA { <a:b> <a:c> <a:d> }", Ok(1)),
    ("DELETE { ?s ?p ?o } WHERE { ?s ?p ?o }", Ok(1)),
    ("DELETE { ?s ?p ?o }", Err(Refusal::Syntax)),
    ("DELETE WHERE { ?s ?p ?o }", Ok(1)),
    ("INSERT { ?s ?p ?o } WHERE { }", Ok(1)),
    (
        "INSERT { ?s ?p ?o } WHERE { ?s ?p ?o , ?q ; ?p ?q . ?s ?p ?q }",
        Ok(1),
    ),
    (
        "INSERT { ?s ?p ?o } DELETE { ?s ?p ?o } WHERE { ?s ?p ?o }",
        Err(Refusal::Syntax),
    ),
    (
        "INSERT { ? <a:b> <a:c> } WHERE { ?s ?p ?o }",
        Err(Refusal::Syntax),
    ),
    (
        "INSERT DATA { ?s <a:b> <a:c> }",
        Err(Refusal::VariableInData),
    ),
    (
        "DELETE DATA { <a:b> <a:c> $o }",
        Err(Refusal::VariableInData),
    ),
    ("INSERT DATA { GRAPH ?g { } }", Err(Refusal::VariableInData)),
    (
        "INSERT DATA { ?s <a:b> <a:c> } ; INSERT { x:y ?p ?o } WHERE { ?s ?p ?o }",
        Err(Refusal::Prefix),
    ),
    ("DELETE DATA { _:x ?p ex:b }", Err(Refusal::VariableInData)),
    ("DELETE DATA { _:x ex:p ex:b }", Err(Refusal::BlankInDelete)),
    (
        "DELETE { _:x ex:p ex:b } WHERE { ?s ?p ?o }",
        Err(Refusal::BlankInDelete),
    ),
    (
        "DELETE { GRAPH ex:g { ?s ex:p _:x } } WHERE { ?s ?p ?o }",
        Err(Refusal::BlankInDelete),
    ),
    ("INSERT { _:x ex:p ex:b } WHERE { ?s ?p ?o }", Ok(1)),
    (
        "INSERT DATA { _:x ex:p 1 } ; INSERT { _:x ex:p 2 } WHERE { }",
        Ok(2),
    ),
    (
        "INSERT DATA { _:x ex:p 1 GRAPH ex:g { _:x ex:p 2 } }",
        Ok(1),
    ),
    (
        "INSERT DATA { _:x ex:p 1 } ; INSERT DATA { GRAPH ex:g { ex:a ex:p _:x } }",
        Err(Refusal::LabelReused),
    ),
    (
        "INSERT DATA { ex:a ex:p \"x\"^^<http://www.w3.org/1999/02/22-rdf-syntax-ns#langString> }",
        Err(Refusal::Syntax),
    ),
    (
        "PREFIX r: <http://www.w3.org/1999/02/22-rdf-syntax-ns#lang> INSERT DATA { nope:a ex:p \"x\"^^r:String }",
        Err(Refusal::Syntax),
    ),
    (
        "INSERT DATA { ex:a ex:p \"x\"^^rdf:langString }",
        Err(Refusal::Prefix),
    ),
    (
        "INSERT { } WHERE { FILTER(\"x\"^^<http://www.w3.org/1999/02/22-rdf-syntax-ns#langString> = 1) }",
        Err(Refusal::Syntax),
    ),
    (
        "INSERT { } WHERE { ?s ?p ?o FILTER(nope:x = ?o) }",
        Err(Refusal::Prefix),
    ),
    (
        "INSERT DATA { ex:a ex:p \"x\"@EN, 'y'^^ex:t, true, FALSE, 01 }",
        Ok(1),
    ),
    ("CREATE GRAPH ex:g", Ok(1)),
    ("CREATE SILENT GRAPH nope:g", Err(Refusal::Prefix)),
    ("CREATE ex:g", Err(Refusal::Syntax)),
    (
        "DROP ALL ; CLEAR DEFAULT ; DROP SILENT NAMED ; CLEAR GRAPH ex:g",
        Ok(4),
    ),
    (
        "COPY ex:g TO DEFAULT ; MOVE SILENT DEFAULT TO GRAPH ex:g ; ADD ex:g TO ex:h",
        Ok(3),
    ),
    ("COPY DEFAULT DEFAULT", Err(Refusal::Syntax)),
    (
        "WITH ex:g DELETE { ?s ex:p ?o } INSERT { ?s ex:q ?o } WHERE { ?s ex:p ?o }",
        Ok(1),
    ),
    (
        "WITH ex:g DELETE WHERE { ?s ex:p ?o }",
        Err(Refusal::Syntax),
    ),
    ("WITH ex:g INSERT DATA { }", Err(Refusal::Syntax)),
    (
        "INSERT { ?s ex:q 1 } USING ex:g WHERE { ?s ex:p 1 }",
        Err(Refusal::Syntax),
    ),
    (
        "INSERT { } WHERE { { ?s ex:p ?o } UNION { ?s ex:q ?o } UNION { } }",
        Ok(1),
    ),
    (
        "INSERT { } WHERE { ?s ex:p ?o OPTIONAL { ?s ex:q ?v FILTER(?o = 1) } }",
        Ok(1),
    ),
    (
        "INSERT { } WHERE { ?s ex:p ?o MINUS { ?x ex:q ?y } . GRAPH ?g { } }",
        Ok(1),
    ),
    (
        "INSERT { } WHERE { FILTER(BOUND(?x) && !isIRI(?x) || STRLEN(?x) * 2 + 1 - 3 >= 4) }",
        Ok(1),
    ),
    (
        "INSERT { } WHERE { FILTER sameTerm(?x, ?y) FILTER(?o<2||?s>1) }",
        Ok(1),
    ),
    (
        "INSERT { } WHERE { FILTER(?o<2&&?s>1) }",
        Err(Refusal::Syntax),
    ),
    ("INSERT { } WHERE { FILTER(?o < 2 && ?s > 1) }", Ok(1)),
    (
        "INSERT { } WHERE { FILTER(?a = ?b = ?c) }",
        Err(Refusal::Syntax),
    ),
    ("INSERT { } WHERE { FILTER(!!?a) }", Err(Refusal::Syntax)),
    ("INSERT { } WHERE { FILTER ?a }", Err(Refusal::Syntax)),
    ("INSERT { } WHERE { FILTER(-1) }", Err(Refusal::Syntax)),
    ("INSERT { } WHERE { FILTER(?x -1) }", Ok(1)),
    ("INSERT { } WHERE { . }", Err(Refusal::Syntax)),
    ("INSERT { } WHERE { { } . ?s ?p ?o }", Ok(1)),
    (
        "INSERT { } WHERE { { } . . ?s ?p ?o }",
        Err(Refusal::Syntax),
    ),
    ("INSERT { } WHERE { SELECT * { } }", Err(Refusal::Syntax)),
];

/// How many operations the only request of a block has, or why it is refused.
fn answer(alloc: Global, text: &str) -> Result<Option<Result<usize, Refusal>>, BlockFault> {
    let block = split(alloc, text.as_bytes())?;
    Ok(match block.as_slice() {
        [Ok(operations)] => Some(Ok(operations.len())),
        [Err(refusal)] => Some(Err(*refusal)),
        _ => None,
    })
}

/// The same of a text after the prologue of `ex:`.
fn answer_after_prologue(
    alloc: Global,
    text: &str,
) -> Result<Option<Result<usize, Refusal>>, BlockFault> {
    let whole = format!(in alloc; "PREFIX ex: <http://e/> {text}")?;
    answer(alloc, whole.as_str())
}

#[test]
fn texts(rt: HostRuntime) -> Result<(), BlockFault> {
    for (text, want) in &TEXTS {
        let found = answer_after_prologue(rt.alloc(), text)?;
        assert!(rt; found == Some(*want), "{text}");
    }
    Ok(())
}

/// Texts of the parts of the language that are left out, and of operations on graphs that name none
/// or two.
const LEFT_OUT: [&str; 36] = [
    "LOAD <a:b>",
    "LOAD SILENT <a:b> INTO GRAPH <a:c>",
    "SELECT * { }",
    "ASK { }",
    "BASE <a:b> INSERT DATA { }",
    "INSERT DATA { [] <a:b> <a:c> }",
    "INSERT DATA { <a:b> <a:c> [] }",
    "INSERT DATA { <a:b> <a:c> ( ) }",
    "INSERT DATA { <a:b> <a:c> 1e0 }",
    "INSERT DATA { <a:b> <a:c> .5 }",
    "INSERT DATA { <a:b> <a:c> +1 }",
    "INSERT DATA { <a:b> <a:c> '''d''' }",
    "INSERT DATA { <a:b> <a:c> \"\"\"d\"\"\" }",
    "INSERT { } WHERE { ?s <a:b>/<a:c> ?o }",
    "INSERT { } WHERE { ?s <a:b>|<a:c> ?o }",
    "INSERT { } WHERE { ?s ^<a:b> ?o }",
    "INSERT { } WHERE { ?s <a:b>* ?o }",
    "INSERT { } WHERE { VALUES ?x { 1 } }",
    "INSERT { } WHERE { BIND(1 AS ?x) }",
    "INSERT { } WHERE { FILTER EXISTS { } }",
    "INSERT { } WHERE { FILTER NOT EXISTS { } }",
    "INSERT { } WHERE { SERVICE <a:b> { } }",
    "INSERT { } WHERE { FILTER(?x IN (1)) }",
    "INSERT { } WHERE { FILTER(IF(true, true, true)) }",
    "INSERT { } WHERE { FILTER(COALESCE(?x)) }",
    "INSERT { } WHERE { FILTER REGEX(?x, 'a') }",
    "INSERT { } WHERE { FILTER(?x / 2 = 1) }",
    "CLEAR",
    "CLEAR <a:g>",
    "CLEAR DEFAULT NAMED",
    "CLEAR NAMED <a:g>",
    "DROP SILENT",
    "DROP GRAPH",
    "DROP ALL SILENT",
    "DROP GRAPH ALL",
    "CREATE GRAPH DEFAULT",
];

#[test]
fn what_is_left_out(rt: HostRuntime) -> Result<(), BlockFault> {
    for text in &LEFT_OUT {
        let found = answer(rt.alloc(), text)?;
        assert!(rt; found == Some(Err(Refusal::Syntax)), "{text}");
    }
    Ok(())
}

/// Two parts, how often each stands in turn, what follows, and the answer.
const LIMITS: [(&str, &str, usize, &str, Result<usize, Refusal>); 7] = [
    ("{", "}", 64, "", Ok(1)),
    ("{", "}", 65, "", Err(Refusal::Syntax)),
    ("INSERT DATA { } ;", "", 256, "", Ok(256)),
    ("INSERT DATA { } ;", "", 257, "", Err(Refusal::Limit)),
    (" ", "", 1 << 20, "", Ok(0)),
    (" ", "", 1 << 20, " ", Err(Refusal::Limit)),
    (" ", "", 1 << 20, " ;", Err(Refusal::Syntax)),
];

/// A part so many times.
fn add(text: &mut String, part: &str, count: usize) -> Result<(), AllocError> {
    for _ in 0..count {
        text.push_str(part)?;
    }
    Ok(())
}

/// A part so many times, another as often, and an end.
fn stacked(
    alloc: Global,
    open: &str,
    close: &str,
    count: usize,
    end: &str,
) -> Result<String, AllocError> {
    let mut text = String::new(alloc);
    if !close.is_empty() {
        text.push_str("INSERT { } WHERE ")?;
    }
    add(&mut text, open, count)?;
    add(&mut text, close, count)?;
    text.push_str(end)?;
    Ok(text)
}

#[test]
fn limits(rt: HostRuntime) -> Result<(), BlockFault> {
    for (open, close, count, end, want) in &LIMITS {
        let text = stacked(rt.alloc(), open, close, *count, end)?;
        let found = answer(rt.alloc(), text.as_str())?;
        assert!(rt; found == Some(*want), "{count} of {open:?}");
    }
    Ok(())
}

/// Blocks, and how many requests each has.
const BLOCKS: [(&str, usize); 6] = [
    ("", 0),
    ("\n", 1),
    ("----\n", 2),
    ("----", 1),
    ("----\r\n ----\n", 1),
    ("a\n----\n----\nb", 3),
];

/// Whether a block has so many requests, and as many verdicts.
fn is_long(alloc: Global, block: &str, count: usize) -> Result<bool, BlockFault> {
    let requests = split(alloc, block.as_bytes())?.len();
    Ok(requests == count && verdicts(alloc, block.as_bytes())?.len() == count)
}

#[test]
fn blocks(rt: HostRuntime) -> Result<(), BlockFault> {
    for (block, want) in &BLOCKS {
        assert!(rt; is_long(rt.alloc(), block, *want)?, "{block:?}");
    }
    Ok(())
}

#[test]
fn blocks_that_are_no_text(rt: HostRuntime) {
    assert!(rt; matches!(split(rt.alloc(), &[255]), Err(BlockFault::BadUtf8)));
    assert!(rt; matches!(verdicts(rt.alloc(), &[255]), Err(BlockFault::BadUtf8)));
}

fn is_iri(term: &Term, text: &str) -> bool {
    matches!(term, Term::Iri(iri) if iri.as_str() == text)
}

#[test]
fn terms_of_blocks(rt: HostRuntime) -> Result<(), BlockFault> {
    let block = split(
        rt.alloc(),
        b"PREFIX e: <http://e/> INSERT DATA { e:b a <a:c> }\n----\nINSERT DATA { ",
    )?;
    let terms = block.terms(rt.alloc())?;
    assert!(rt;
        matches!(terms.as_slice(), [subject, predicate, _]
            if is_iri(subject.get(), "http://e/b") && is_iri(predicate.get(), RDF_TYPE))
    );
    Ok(())
}

/// Texts, and the IRIs of the terms of each.
const NAMED: [(&str, &[&str]); 6] = [
    // Of a prefix that is declared twice the last one counts.
    (
        "PREFIX a: <a:> PREFIX a: <b:> INSERT DATA { a:x a:y a:z }",
        &["b:x", "b:y", "b:z"],
    ),
    // A prefix stands for the operations that follow, until it is declared again.
    (
        "PREFIX a: <a:> INSERT DATA { a:x a:y a:z } ; INSERT DATA { a:x a:x a:x }",
        &["a:x", "a:y", "a:z", "a:x", "a:x", "a:x"],
    ),
    (
        "PREFIX a: <a:> INSERT DATA { a:x a:x a:x } ; prefix a: <b:> INSERT DATA { a:x a:y a:z }",
        &["a:x", "a:x", "a:x", "b:x", "b:y", "b:z"],
    ),
    // Prefixes that begin alike, and those that differ in case, are apart.
    (
        "PREFIX : <e:> PREFIX ab: <f:> PREFIX a: <g:> INSERT DATA { :x ab:x a:x }",
        &["e:x", "f:x", "g:x"],
    ),
    (
        "PREFIX a: <a:> PREFIX A: <b:> INSERT DATA { a:x A:x a:X }",
        &["a:x", "b:x", "a:X"],
    ),
    // A name may have no local part.
    (
        "PREFIX a: <a:b> CREATE GRAPH a: ; DROP GRAPH a:c",
        &["a:b", "a:bc"],
    ),
];

/// Whether the terms of a block are these IRIs, in order.
fn has_iris(alloc: Global, text: &str, iris: &[&str]) -> Result<bool, BlockFault> {
    let block = split(alloc, text.as_bytes())?;
    let terms = block.terms(alloc)?;
    for (term, iri) in terms.iter().zip(iris.iter()) {
        let iri: &str = *iri;
        if !is_iri(term.get(), iri) {
            return Ok(false);
        }
    }
    Ok(terms.len() == iris.len())
}

#[test]
fn names_by_their_prefixes(rt: HostRuntime) -> Result<(), BlockFault> {
    for (text, iris) in &NAMED {
        assert!(rt; has_iris(rt.alloc(), text, iris)?, "{text}");
    }
    Ok(())
}

/// Operations on whole graphs, and how many terms each has.
const GRAPHS_NAMED: [(&str, usize); 8] = [
    ("CREATE GRAPH <a:g>", 1),
    ("DROP SILENT GRAPH <a:g>", 1),
    ("DROP ALL", 0),
    ("CLEAR GRAPH <a:g>", 1),
    ("CLEAR DEFAULT ; CLEAR NAMED", 0),
    ("COPY <a:g> TO <a:h>", 2),
    ("MOVE DEFAULT TO <a:g>", 1),
    ("ADD <a:g> TO DEFAULT", 1),
];

fn term_count(alloc: Global, text: &str) -> Result<usize, BlockFault> {
    let block = split(alloc, text.as_bytes())?;
    let terms = block.terms(alloc)?;
    Ok(terms.len())
}

#[test]
fn names_of_graphs(rt: HostRuntime) -> Result<(), BlockFault> {
    for (text, want) in &GRAPHS_NAMED {
        assert!(rt; term_count(rt.alloc(), text)? == *want, "{text}");
    }
    Ok(())
}

fn is_variable(slot: &Slot<Term>, number: u32) -> bool {
    matches!(slot, Slot::Variable(found) if *found == number)
}

fn is_label(slot: &Slot<Term>, number: u32) -> bool {
    matches!(slot, Slot::Label(found) if *found == number)
}

const NUMBERED: &str =
    "DELETE { ?b <a:p> ?a } INSERT { $a a ?c . _:y a _:x . _:x a _:y } WHERE { $b <a:p> ?a }";

// Variables are numbered by their first place in the WHERE, then in the templates, and labels by
// theirs in the templates.
fn is_numbered(modify: &Modify<Term>) -> bool {
    let delete = matches!(modify.delete.as_slice(), [quad]
        if is_variable(&quad.subject, 1) && is_variable(&quad.object, 0));
    let insert = matches!(modify.insert.as_slice(), [first, second, third]
        if is_variable(&first.subject, 0) && is_variable(&first.object, 2)
            && is_label(&second.subject, 0) && is_label(&second.object, 1)
            && is_label(&third.subject, 1) && is_label(&third.object, 0));
    modify.width == 2 && modify.active.is_none() && delete && insert
}

const OPTIONAL: &str =
    "INSERT { } WHERE { ?s <a:p> ?o OPTIONAL { ?s <a:q> ?v FILTER(?o = 1) } FILTER BOUND(?v) }";

fn is_optional(modify: &Modify<Term>) -> bool {
    let is_group = match modify.pattern.plan() {
        Plan::Group(parts, filters) => {
            matches!(filters.as_slice(), [Expression::Bound(2)])
                && matches!(parts.as_slice(), [(Link::Join, Plan::Basic(_)), (Link::LeftJoin(condition), _)]
                    if condition.len() == 1)
        }
        _ => false,
    };
    modify.width == 3 && is_group
}

const IN_GRAPH: &str = "DELETE WHERE { ?s <a:p> ?o GRAPH ?g { } }";

// Behind a GRAPH block more of the default graph may stand, here nothing.
fn is_in_graph(modify: &Modify<Term>) -> bool {
    let is_group = match modify.pattern.plan() {
        Plan::Group(parts, filters) => {
            filters.is_empty()
                && matches!(parts.as_slice(), [_, (_, Plan::InGraph(Place::Variable(0), _)), (_, Plan::Basic(triples))]
                    if triples.is_empty())
        }
        _ => false,
    };
    modify.width == 3 && modify.delete.len() == 1 && modify.insert.is_empty() && is_group
}

fn is_move(silent: bool, operation: &GraphOperation<Term>) -> bool {
    silent
        && matches!(
            operation,
            GraphOperation::Transfer {
                from: None,
                to: Some(Term::Iri(_)),
                ..
            }
        )
}

/// What is looked for in the only operation of a text.
#[derive(Clone, Copy)]
enum Sought {
    Numbers,
    Optional,
    InGraph,
    Move,
}

/// Texts, and what the only operation of each has.
const SOUGHT: [(&str, Sought); 4] = [
    (NUMBERED, Sought::Numbers),
    (OPTIONAL, Sought::Optional),
    (IN_GRAPH, Sought::InGraph),
    ("MOVE SILENT DEFAULT TO <a:g>", Sought::Move),
];

fn has(operation: &Operation<Term>, sought: Sought) -> bool {
    match (operation, sought) {
        (Operation::Modify(modify), Sought::Numbers) => is_numbered(modify),
        (Operation::Modify(modify), Sought::Optional) => is_optional(modify),
        (Operation::Modify(modify), Sought::InGraph) => is_in_graph(modify),
        (Operation::Graphs { silent, operation }, Sought::Move) => is_move(*silent, operation),
        _ => false,
    }
}

fn is_found(alloc: Global, text: &str, sought: Sought) -> Result<bool, BlockFault> {
    let block = split(alloc, text.as_bytes())?;
    Ok(match block.as_slice() {
        [Ok(operations)] => matches!(operations.as_slice(), [only] if has(only, sought)),
        _ => false,
    })
}

#[test]
fn operations(rt: HostRuntime) -> Result<(), BlockFault> {
    for (text, sought) in &SOUGHT {
        assert!(rt; is_found(rt.alloc(), text, *sought)?, "{text}");
    }
    Ok(())
}

/// A text of DROP or CLEAR, whether it is silent and whether it is DROP, and what it names.
type Taking = (&'static str, bool, bool, &'static str);

const TAKINGS: [Taking; 12] = [
    ("CLEAR GRAPH <a:g>", false, false, "a:g"),
    ("CLEAR DEFAULT", false, false, "the default graph"),
    ("CLEAR NAMED", false, false, "the named graphs"),
    ("clear all", false, false, "all"),
    ("CLEAR SILENT NAMED", true, false, "the named graphs"),
    ("Clear Silent All", true, false, "all"),
    ("DROP GRAPH <a:h>", false, true, "a:h"),
    ("DROP SILENT GRAPH <a:h>", true, true, "a:h"),
    ("drop named", false, true, "the named graphs"),
    ("DROP ALL", false, true, "all"),
    ("DROP SILENT DEFAULT", true, true, "the default graph"),
    ("DROP SILENT ALL", true, true, "all"),
];

fn told_target(target: &Target<Term>) -> &str {
    match target {
        Target::Graph(Term::Iri(iri)) => iri.as_str(),
        Target::Graph(_) => "no IRI",
        Target::Default => "the default graph",
        Target::Named => "the named graphs",
        Target::All => "all",
    }
}

/// Whether an operation is DROP or CLEAR of this.
fn takes(operation: &GraphOperation<Term>, is_drop: bool, named: &str) -> bool {
    match operation {
        GraphOperation::Drop(target) => is_drop && told_target(target) == named,
        GraphOperation::Clear(target) => !is_drop && told_target(target) == named,
        _ => false,
    }
}

/// Whether the only operation of a text is what a row says.
fn is_taking(alloc: Global, row: &Taking) -> Result<bool, BlockFault> {
    let (text, is_silent, is_drop, named) = *row;
    let block = split(alloc, text.as_bytes())?;
    let [Ok(operations)] = block.as_slice() else {
        return Ok(false);
    };
    Ok(match operations.as_slice() {
        [Operation::Graphs { silent, operation }] => {
            *silent == is_silent && takes(operation, is_drop, named)
        }
        _ => false,
    })
}

#[test]
fn graphs_that_are_taken_away(rt: HostRuntime) -> Result<(), BlockFault> {
    for row in &TAKINGS {
        assert!(rt; is_taking(rt.alloc(), row)?, "{}", row.0);
    }
    Ok(())
}

const LABELLED: &str = "INSERT DATA { _:b <a:p> _:a GRAPH <a:g> { _:a <a:p> _:c } } ;
    INSERT { _:c <a:p> _:b . _:b <a:p> _:c } WHERE { }";

/// Whether the subjects and objects of templates are labels of these numbers.
fn has_labels(quads: &[QuadTemplate<Term>], labels: &[(u32, u32)]) -> bool {
    let mut pairs = quads.iter().zip(labels.iter());
    quads.len() == labels.len()
        && pairs.all(|pair| is_label(&pair.0.subject, pair.1.0)
            && is_label(&pair.0.object, pair.1.1))
}

/// Whether an operation inserts quads with labels of these numbers.
fn inserts_labels(operation: &Operation<Term>, labels: &[(u32, u32)]) -> bool {
    match operation {
        Operation::Modify(modify) => has_labels(modify.insert.as_slice(), labels),
        _ => false,
    }
}

// Labels are numbered from 0 in each operation, across graphs.
#[test]
fn labels_of_each_operation(rt: HostRuntime) -> Result<(), BlockFault> {
    let block = split(rt.alloc(), LABELLED.as_bytes())?;
    let is_labelled = match block.as_slice() {
        [Ok(operations)] => {
            matches!(operations.as_slice(), [first, second]
                if inserts_labels(first, &[(0, 1), (1, 2)])
                    && inserts_labels(second, &[(0, 1), (1, 0)]))
        }
        _ => false,
    };
    drop(block);
    assert!(rt; is_labelled);
    Ok(())
}
