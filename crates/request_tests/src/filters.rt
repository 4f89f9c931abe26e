//! Values of expressions with the answers that the standard and this profile give them.

use algebra::{Expression, OneOperator, Place, TwoOperator};
use dict::{Dict, Id};
use expr::{Filtering, effective, value};
use rules::{BlockFault, split};
use solution::{Filters, Mapping};
use std::alloc::Global;
use std::process::Abort;
use terms::Term;

/// A term as a request writes it, where `x:` is the prefix of the datatypes of XML Schema.
type Written = &'static str;

const IRI: Written = "<http://e/a>";

const YES: Written = "true";

const NO: Written = "false";

const ILL: Written = "'yes'^^x:boolean";

const ONE: Written = "1";

const MOST: Written = "9223372036854775807";

const LEAST: Written = "'-9223372036854775808'^^x:integer";

const LARGE: Written = "9223372036854775808";

const TEXT: Written = "'a'";

const TAGGED: Written = "'a'@en";

/// An operator, two constants, and the effective value.
type Two = (TwoOperator, Written, Written, Option<bool>);

const LOGIC: [Two; 9] = [
    (TwoOperator::Or, IRI, YES, Some(true)),
    (TwoOperator::Or, YES, IRI, Some(true)),
    (TwoOperator::Or, IRI, NO, None),
    (TwoOperator::Or, ILL, NO, Some(false)),
    (TwoOperator::And, IRI, NO, Some(false)),
    (TwoOperator::And, NO, IRI, Some(false)),
    (TwoOperator::And, YES, IRI, None),
    (TwoOperator::And, LARGE, YES, None),
    (TwoOperator::And, ONE, TAGGED, Some(true)),
];

const EQUALITY: [Two; 18] = [
    (TwoOperator::Equal, ONE, "'+01'^^x:integer", Some(true)),
    (TwoOperator::Equal, "'-0'^^x:integer", "0", Some(true)),
    (TwoOperator::Equal, ONE, "'1'", None),
    (TwoOperator::Equal, ONE, IRI, Some(false)),
    (TwoOperator::Equal, YES, "'1'^^x:boolean", Some(true)),
    (TwoOperator::Equal, ILL, YES, None),
    (TwoOperator::Equal, ILL, ILL, Some(true)),
    (TwoOperator::Equal, LARGE, LARGE, Some(true)),
    (TwoOperator::Equal, LARGE, ONE, None),
    (TwoOperator::Equal, TAGGED, TAGGED, Some(true)),
    (TwoOperator::Equal, TAGGED, "'a'@de", None),
    (TwoOperator::Equal, TAGGED, TEXT, None),
    (TwoOperator::Equal, IRI, "<http://e/b>", Some(false)),
    (TwoOperator::NotEqual, IRI, TEXT, Some(true)),
    (TwoOperator::NotEqual, TEXT, "'b'", Some(true)),
    (TwoOperator::NotEqual, LARGE, ONE, None),
    (TwoOperator::SameTerm, ONE, "01", Some(false)),
    (TwoOperator::SameTerm, TAGGED, TAGGED, Some(true)),
];

const NUMBERS: [Two; 14] = [
    (TwoOperator::Less, "9", "10", Some(true)),
    (TwoOperator::Less, "'9'", "'10'", Some(false)),
    (TwoOperator::Less, NO, YES, Some(true)),
    (TwoOperator::Less, IRI, IRI, None),
    (TwoOperator::LessEqual, TAGGED, TAGGED, None),
    (TwoOperator::LessEqual, LEAST, MOST, Some(true)),
    (TwoOperator::Greater, "'1x'^^x:integer", ONE, None),
    (TwoOperator::GreaterEqual, TEXT, TEXT, Some(true)),
    (TwoOperator::Plus, ONE, "'-1'^^x:integer", Some(false)),
    (TwoOperator::Plus, MOST, ONE, None),
    (TwoOperator::Plus, ONE, TEXT, None),
    (TwoOperator::Minus, LEAST, ONE, None),
    (TwoOperator::Minus, MOST, ONE, Some(true)),
    (TwoOperator::Times, LEAST, "'-1'^^x:integer", None),
];

const PARTS: [Two; 9] = [
    (TwoOperator::StrStarts, TEXT, TAGGED, None),
    (TwoOperator::StrStarts, TAGGED, TEXT, Some(true)),
    (TwoOperator::StrStarts, "'ab'@en", TAGGED, Some(true)),
    (TwoOperator::StrStarts, "'ab'@de", TAGGED, None),
    (TwoOperator::StrStarts, TEXT, "'ab'", Some(false)),
    (TwoOperator::StrEnds, "'ba'", TEXT, Some(true)),
    (TwoOperator::Contains, "'bab'", TEXT, Some(true)),
    (TwoOperator::Contains, TEXT, "''", Some(true)),
    (TwoOperator::Contains, ONE, TEXT, None),
];

/// Functions of a constant, and the terms that they are.
const FUNCTIONS: [(OneOperator, Written, Option<Written>); 21] = [
    (OneOperator::Not, "''", Some(YES)),
    (OneOperator::Not, "00", Some(YES)),
    (OneOperator::Not, "'+'^^x:integer", Some(YES)),
    (OneOperator::Not, ILL, Some(YES)),
    (OneOperator::Not, LARGE, None),
    (OneOperator::Not, "'1'^^x:boolean", Some(NO)),
    (OneOperator::IsIri, IRI, Some(YES)),
    (OneOperator::IsBlank, IRI, Some(NO)),
    (OneOperator::IsLiteral, TAGGED, Some(YES)),
    (OneOperator::Str, "01", Some("'01'")),
    (OneOperator::Str, IRI, Some("'http://e/a'")),
    (OneOperator::Lang, TAGGED, Some("'en'")),
    (OneOperator::Lang, ONE, Some("''")),
    (OneOperator::Lang, IRI, None),
    (
        OneOperator::Datatype,
        ONE,
        Some("<http://www.w3.org/2001/XMLSchema#integer>"),
    ),
    (
        OneOperator::Datatype,
        TAGGED,
        Some("<http://www.w3.org/1999/02/22-rdf-syntax-ns#langString>"),
    ),
    (OneOperator::Datatype, IRI, None),
    (OneOperator::StrLen, "'aé'", Some("2")),
    (OneOperator::StrLen, "''@en", Some("0")),
    (OneOperator::StrLen, ONE, None),
    (OneOperator::StrLen, IRI, None),
];

/// The term that a request writes so.
fn term(alloc: Global, written: &str) -> Result<Option<Term>, BlockFault> {
    let text = format!(in alloc;
        "PREFIX x: <http://www.w3.org/2001/XMLSchema#> INSERT DATA {{ <x:s> <x:p> {written} }}"
    )?;
    let block = split(alloc, text.as_bytes())?;
    let mut terms = block.terms(alloc)?;
    if let Some(term) = terms.pop() {
        return Ok(Some(term.get().copied(alloc)?));
    }
    Ok(None)
}

fn dictionary(alloc: Global, all: &[Written]) -> Result<Dict, BlockFault> {
    let mut terms = Vec::new(alloc);
    for written in all {
        if let Some(term) = term(alloc, written)? {
            terms.push(term)?;
        }
    }
    Ok(Dict::freeze(terms)?)
}

fn constant(alloc: Global, dict: &Dict, written: Written) -> Result<Expression<Id>, BlockFault> {
    let found = match term(alloc, written)? {
        Some(term) => dict.id_of(&term),
        None => None,
    };
    Ok(Expression::Constant(found.unwrap_or(Id::Known(u32::MAX))))
}

fn boxed_constant(
    alloc: Global,
    dict: &Dict,
    written: Written,
) -> Result<Box<Expression<Id>>, BlockFault> {
    Ok(Box::new(alloc, constant(alloc, dict, written)?)?)
}

/// An operator on an expression and a constant.
fn applied(
    alloc: Global,
    dict: &Dict,
    operator: TwoOperator,
    left: Expression<Id>,
    right: Written,
) -> Result<Expression<Id>, BlockFault> {
    let left = Box::new(alloc, left)?;
    let right = boxed_constant(alloc, dict, right)?;
    Ok(Expression::Two(operator, left, right))
}

/// The effective value of an expression, where no variable is bound.
fn effect(
    alloc: Global,
    dict: &Dict,
    expression: &Expression<Id>,
) -> Result<Option<bool>, BlockFault> {
    let mapping = Mapping::empty(alloc, 1)?;
    let value = value(alloc, dict, expression, &mapping);
    drop(mapping);
    Ok(effective(&value?))
}

/// What an operator on an expression and a constant says: the effective value.
fn compared(
    alloc: Global,
    dict: &Dict,
    operator: TwoOperator,
    left: Expression<Id>,
    right: Written,
) -> Result<Option<bool>, BlockFault> {
    let whole = applied(alloc, dict, operator, left, right)?;
    let effect = effect(alloc, dict, &whole);
    drop(whole);
    effect
}

/// What an operator says of two constants of a dictionary.
fn compared_at(
    alloc: Global,
    dict: &Dict,
    operator: TwoOperator,
    left: Written,
    right: Written,
) -> Result<Option<bool>, BlockFault> {
    let left = constant(alloc, dict, left)?;
    compared(alloc, dict, operator, left, right)
}

/// What an operator says of two constants.
fn compared_constants(
    alloc: Global,
    operator: TwoOperator,
    left: Written,
    right: Written,
) -> Result<Option<bool>, BlockFault> {
    let dict = dictionary(alloc, &[left, right])?;
    let compared = compared_at(alloc, &dict, operator, left, right);
    drop(dict);
    compared
}

fn check_operators(rt: &impl Abort, alloc: Global, rows: &[Two]) -> Result<(), BlockFault> {
    for (operator, left, right, want) in rows {
        let found = compared_constants(alloc, *operator, *left, *right)?;
        assert!(rt; found == *want, "{left} {right}");
    }
    Ok(())
}

#[test]
fn logic(rt: HostRuntime) -> Result<(), BlockFault> {
    check_operators(&rt, rt.alloc(), &LOGIC)
}

#[test]
fn equality(rt: HostRuntime) -> Result<(), BlockFault> {
    check_operators(&rt, rt.alloc(), &EQUALITY)
}

#[test]
fn order_and_arithmetic(rt: HostRuntime) -> Result<(), BlockFault> {
    check_operators(&rt, rt.alloc(), &NUMBERS)
}

#[test]
fn parts_of_texts(rt: HostRuntime) -> Result<(), BlockFault> {
    check_operators(&rt, rt.alloc(), &PARTS)
}

fn one(
    alloc: Global,
    operator: OneOperator,
    inner: Expression<Id>,
) -> Result<Expression<Id>, BlockFault> {
    Ok(Expression::One(operator, Box::new(alloc, inner)?))
}

fn function(
    alloc: Global,
    dict: &Dict,
    operator: OneOperator,
    inner: Written,
) -> Result<Expression<Id>, BlockFault> {
    let inner = constant(alloc, dict, inner)?;
    one(alloc, operator, inner)
}

/// Whether a function of a constant of a dictionary is this term, if it is any.
fn is_same_at(
    alloc: Global,
    dict: &Dict,
    operator: OneOperator,
    inner: Written,
    term: Written,
) -> Result<Option<bool>, BlockFault> {
    let found = function(alloc, dict, operator, inner)?;
    compared(alloc, dict, TwoOperator::SameTerm, found, term)
}

/// Whether a function of a constant is this term, if it is any.
fn is_same(
    alloc: Global,
    operator: OneOperator,
    inner: Written,
    term: Written,
) -> Result<Option<bool>, BlockFault> {
    let dict = dictionary(alloc, &[inner, term])?;
    let is_same = is_same_at(alloc, &dict, operator, inner, term);
    drop(dict);
    is_same
}

#[test]
fn functions(rt: HostRuntime) -> Result<(), BlockFault> {
    for (operator, inner, want) in &FUNCTIONS {
        let found = is_same(rt.alloc(), *operator, *inner, want.unwrap_or(IRI))?;
        assert!(rt; found == want.is_some().then_some(true), "{inner}");
    }
    Ok(())
}

/// Numbers, operators on them from left to right, the number that this is, and its text.
const CHAINS: [(Written, &[(TwoOperator, Written)], Written, Written); 2] = [
    ("01", &[(TwoOperator::Plus, "0")], ONE, "'1'"),
    (
        "'-2'^^x:integer",
        &[(TwoOperator::Plus, ONE), (TwoOperator::Times, "3")],
        "'-3'^^x:integer",
        "'-3'",
    ),
];

/// Operators, each with its constant.
fn links(
    alloc: Global,
    dict: &Dict,
    steps: &[(TwoOperator, Written)],
) -> Result<Vec<(TwoOperator, Expression<Id>)>, BlockFault> {
    let mut links = Vec::new(alloc);
    for (operator, right) in steps {
        links.push((*operator, constant(alloc, dict, *right)?))?;
    }
    Ok(links)
}

/// `first`, and operators from left to right.
fn chain(
    alloc: Global,
    dict: &Dict,
    first: Written,
    steps: &[(TwoOperator, Written)],
) -> Result<Expression<Id>, BlockFault> {
    let more = links(alloc, dict, steps)?;
    let first = boxed_constant(alloc, dict, first)?;
    Ok(Expression::Chain(first, more))
}

/// Whether a chain of operators is this number.
fn is_number(
    alloc: Global,
    dict: &Dict,
    first: Written,
    steps: &[(TwoOperator, Written)],
    number: Written,
) -> Result<bool, BlockFault> {
    let found = chain(alloc, dict, first, steps)?;
    Ok(compared(alloc, dict, TwoOperator::SameTerm, found, number)? == Some(true))
}

/// Whether STR of a chain of operators is this text.
fn is_text(
    alloc: Global,
    dict: &Dict,
    first: Written,
    steps: &[(TwoOperator, Written)],
    text: Written,
) -> Result<bool, BlockFault> {
    let found = chain(alloc, dict, first, steps)?;
    let found = one(alloc, OneOperator::Str, found)?;
    Ok(compared(alloc, dict, TwoOperator::Equal, found, text)? == Some(true))
}

/// Whether a chain of operators is the wanted number, and its STR the text of that.
fn comes_to(
    alloc: Global,
    first: Written,
    steps: &[(TwoOperator, Written)],
    want: Written,
    text: Written,
) -> Result<bool, BlockFault> {
    let dict = dictionary(alloc, &[first, ONE, "0", "3", want, text])?;
    let is_number = is_number(alloc, &dict, first, steps, want);
    let is_text = is_text(alloc, &dict, first, steps, text);
    drop(dict);
    Ok(is_number? && is_text?)
}

#[test]
fn computed(rt: HostRuntime) -> Result<(), BlockFault> {
    for (first, steps, want, text) in &CHAINS {
        assert!(rt; comes_to(rt.alloc(), first, steps, want, text)?, "{want}");
    }
    Ok(())
}

/// What a variable is bound to, and whether BOUND of it and the variable alone pass.
const FILTERS: [(Option<u32>, bool, bool); 4] = [
    (None, false, false),
    (Some(0), true, false),
    (Some(1), true, false),
    (Some(2), true, true),
];

/// The mapping that binds the variable to this term, if to any.
fn binding(alloc: Global, bound: Option<u32>) -> Result<Option<Mapping>, BlockFault> {
    let mapping = Mapping::empty(alloc, 1)?;
    Ok(match bound {
        Some(place) => mapping.fit(Place::Variable(0), Id::Known(place)),
        None => Some(mapping),
    })
}

/// Whether BOUND of the variable, bound to this term, and the variable alone pass.
fn passed(
    alloc: Global,
    filtering: &Filtering<'_>,
    bound: Option<u32>,
) -> Result<Option<(bool, bool)>, BlockFault> {
    let Some(mapping) = binding(alloc, bound)? else {
        return Ok(None);
    };
    let is_bound = filtering.is_passed(alloc, &Expression::Bound(0), &mapping)?;
    let is_true = filtering.is_passed(alloc, &Expression::Variable(0), &mapping)?;
    Ok(Some((is_bound, is_true)))
}

#[test]
fn filters(rt: HostRuntime) -> Result<(), BlockFault> {
    let dict = dictionary(rt.alloc(), &[IRI, NO, YES])?;
    let filtering = Filtering::new(&dict);
    for (bound, is_bound, is_true) in &FILTERS {
        let found = passed(rt.alloc(), &filtering, *bound)?;
        assert!(rt; found == Some((*is_bound, *is_true)));
    }
    Ok(())
}
