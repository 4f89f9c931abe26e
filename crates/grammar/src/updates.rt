//! Operations on quads: INSERT DATA, DELETE DATA, DELETE WHERE, and DELETE and INSERT with a WHERE.
ghost use Rattle.std.specs.Prelude.{◌≡◌, List};
ghost use Rattle.productions.specs.Steps.{Gives};
ghost use Rattle.grammar.specs.Reading.{where_at, also_at, insert_data_at, delete_data_at, delete_where_at, insert_at, delete_at, inserted_at, deleted_at, change_at, with_at};

use groups::group_at;
use lexer::{Stop, Token};
use productions::{after_keyword, name_at};
use sets::Items;
use std::alloc::Global;
use syntax_trees::{Block, Group, Name, Operation};
use triples::quads_at;

/// How deep braces and parentheses nest at most.
const MOST_NESTED: usize = 64;

/// `'WHERE' Group`
#[tactic(auto, unfolding(crate::specs::Reading::where_at, crate::specs::Reads::most_nested))]
fn where_at<'t, 'a>(
    alloc: Global,
    tokens: &'t [Token<'a>],
) -> Result<(Group<'a>, &'t [Token<'a>]), Stop>
    ensures { Gives (λ x. (x.0, x.1.now)) result (where_at tokens.now) }
{
    let Some(rest) = after_keyword(b"WHERE", tokens) else {
        return Err(Stop::NoReading);
    };
    let (elements, rest) = group_at(alloc, MOST_NESTED, rest)?;
    Ok((Group::new(elements), rest))
}

/// `['INSERT' Quads]`
#[tactic(auto, unfolding(crate::specs::Reading::also_at))]
fn also_at<'t, 'a>(
    alloc: Global,
    tokens: &'t [Token<'a>],
) -> Result<(Items<Block<'a>>, &'t [Token<'a>]), Stop>
    ensures { Gives (λ x. (x.0, x.1.now)) result (also_at tokens.now) }
{
    match after_keyword(b"INSERT", tokens) {
        Some(rest) => quads_at(alloc, rest),
        None => Ok((Items::new(alloc), tokens)),
    }
}

/// What follows `INSERT DATA`.
#[tactic(auto, unfolding(crate::specs::Reading::insert_data_at))]
fn insert_data_at<'t, 'a>(
    alloc: Global,
    tokens: &'t [Token<'a>],
) -> Result<(Operation<'a>, &'t [Token<'a>]), Stop>
    ensures { Gives (λ x. (x.0, x.1.now)) result (insert_data_at tokens.now) }
{
    let (quads, rest) = quads_at(alloc, tokens)?;
    Ok((Operation::InsertData(quads), rest))
}

/// What follows `DELETE DATA`.
#[tactic(auto, unfolding(crate::specs::Reading::delete_data_at))]
fn delete_data_at<'t, 'a>(
    alloc: Global,
    tokens: &'t [Token<'a>],
) -> Result<(Operation<'a>, &'t [Token<'a>]), Stop>
    ensures { Gives (λ x. (x.0, x.1.now)) result (delete_data_at tokens.now) }
{
    let (quads, rest) = quads_at(alloc, tokens)?;
    Ok((Operation::DeleteData(quads), rest))
}

/// What follows `DELETE WHERE`.
#[tactic(auto, unfolding(crate::specs::Reading::delete_where_at))]
fn delete_where_at<'t, 'a>(
    alloc: Global,
    tokens: &'t [Token<'a>],
) -> Result<(Operation<'a>, &'t [Token<'a>]), Stop>
    ensures { Gives (λ x. (x.0, x.1.now)) result (delete_where_at tokens.now) }
{
    let (quads, rest) = quads_at(alloc, tokens)?;
    Ok((Operation::DeleteWhere(quads), rest))
}

/// The template of INSERT, and its WHERE.
#[tactic(auto, unfolding(crate::specs::Reading::insert_at))]
fn insert_at<'t, 'a>(
    alloc: Global,
    with: Option<Name<'a>>,
    tokens: &'t [Token<'a>],
) -> Result<(Operation<'a>, &'t [Token<'a>]), Stop>
    ensures { Gives (λ x. (x.0, x.1.now)) result (insert_at with.entry tokens.now) }
{
    let (insert, rest) = quads_at(alloc, tokens)?;
    let (pattern, rest) = where_at(alloc, rest)?;
    let modify = Operation::Modify {
        with,
        delete: Items::new(alloc),
        insert,
        pattern,
    };
    Ok((modify, rest))
}

/// The template of DELETE, that of INSERT after it, and their WHERE.
#[tactic(auto, unfolding(crate::specs::Reading::delete_at))]
fn delete_at<'t, 'a>(
    alloc: Global,
    with: Option<Name<'a>>,
    tokens: &'t [Token<'a>],
) -> Result<(Operation<'a>, &'t [Token<'a>]), Stop>
    ensures { Gives (λ x. (x.0, x.1.now)) result (delete_at with.entry tokens.now) }
{
    let (delete, rest) = quads_at(alloc, tokens)?;
    let (insert, rest) = also_at(alloc, rest)?;
    let (pattern, rest) = where_at(alloc, rest)?;
    let modify = Operation::Modify {
        with,
        delete,
        insert,
        pattern,
    };
    Ok((modify, rest))
}

/// What follows `INSERT`.
#[tactic(auto, unfolding(crate::specs::Reading::inserted_at))]
pub fn inserted_at<'t, 'a>(
    alloc: Global,
    tokens: &'t [Token<'a>],
) -> Result<(Operation<'a>, &'t [Token<'a>]), Stop>
    ensures { Gives (λ x. (x.0, x.1.now)) result (inserted_at tokens.now) }
{
    match after_keyword(b"DATA", tokens) {
        Some(rest) => insert_data_at(alloc, rest),
        None => insert_at(alloc, None, tokens),
    }
}

/// What follows `DELETE`.
#[tactic(auto, unfolding(crate::specs::Reading::deleted_at))]
pub fn deleted_at<'t, 'a>(
    alloc: Global,
    tokens: &'t [Token<'a>],
) -> Result<(Operation<'a>, &'t [Token<'a>]), Stop>
    ensures { Gives (λ x. (x.0, x.1.now)) result (deleted_at tokens.now) }
{
    if let Some(rest) = after_keyword(b"DATA", tokens) {
        return delete_data_at(alloc, rest);
    }
    match after_keyword(b"WHERE", tokens) {
        Some(rest) => delete_where_at(alloc, rest),
        None => delete_at(alloc, None, tokens),
    }
}

/// DELETE or INSERT, behind the graph of WITH.
#[tactic(auto, unfolding(crate::specs::Reading::change_at))]
fn change_at<'t, 'a>(
    alloc: Global,
    with: Option<Name<'a>>,
    tokens: &'t [Token<'a>],
) -> Result<(Operation<'a>, &'t [Token<'a>]), Stop>
    ensures { Gives (λ x. (x.0, x.1.now)) result (change_at with.entry tokens.now) }
{
    if let Some(rest) = after_keyword(b"INSERT", tokens) {
        return insert_at(alloc, with, rest);
    }
    match after_keyword(b"DELETE", tokens) {
        Some(rest) => delete_at(alloc, with, rest),
        None => Err(Stop::NoReading),
    }
}

/// What follows `WITH`.
#[tactic(auto, unfolding(crate::specs::Reading::with_at))]
pub fn with_at<'t, 'a>(
    alloc: Global,
    tokens: &'t [Token<'a>],
) -> Result<(Operation<'a>, &'t [Token<'a>]), Stop>
    ensures { Gives (λ x. (x.0, x.1.now)) result (with_at tokens.now) }
{
    let (graph, rest) = name_at(tokens)?;
    change_at(alloc, Some(graph), rest)
}
