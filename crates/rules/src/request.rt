//! Requests and their refusals.
ghost use Rattle.std.specs.Prelude.{◌≡◌, ◌++◌, ◌∷◌, [], List, false, IfOk, OnOk};
ghost use Rattle.meaning.specs.declared.reply.Refusal.{Refusal};
ghost use Rattle.syntax_trees.specs.declared.tree.Step.{Step};
ghost use Rattle.syntax_trees.specs.declared.tree.Step.TheVariants as step;
ghost use Rattle.translation.specs.Translation.{operation_of};
ghost use Rattle.faults.specs.Kinds.{is_among};
ghost use Rattle.faults.specs.Walk.{kinds_with};
ghost use Rattle.rules.specs.Refusal.{IsFirst, IsFirstFault, IsVerdict, IsChecked, IsJudged};

use crate::long::refusal_of_long;
use algebra::Operation;
use faults::{Kinds, Walk, kinds_in};
use grammar::parse;
use meaning::{Refusal, Request};
use nodes::OperationNodes;
use sets::Items;
use std::alloc::{AllocError, Global};
use syntax_trees::{Operation as Written, Step, Syntax};
use terms::Term;
use translation::operation_of;

/// How many bytes a text has at most that is read whole.
const MOST_WHOLE: usize = 1 << 20;

/// The operations of an accepted request, in order.
pub type Update = Items<Operation<Term>>;

/// A request: its update, or why it is refused.
pub type Checked = Request<Term>;

/// The first of these kinds of fault.
#[tactic(auto, using(crate::proofs::VerdictLaws::first_kinds))]
pub fn first_of(kinds: Kinds) -> Option<Refusal>
    ensures { IsFirst (is_among kinds) result }
{
    if kinds.syntax {
        return Some(Refusal::Syntax);
    }
    if kinds.prefix {
        return Some(Refusal::Prefix);
    }
    if kinds.variable_in_data {
        return Some(Refusal::VariableInData);
    }
    if kinds.blank_in_delete {
        return Some(Refusal::BlankInDelete);
    }
    if kinds.label_reused {
        return Some(Refusal::LabelReused);
    }
    if kinds.limit {
        return Some(Refusal::Limit);
    }
    None
}

/// The first kind of fault that a reading is refused for.
fn first_fault(alloc: Global, syntax: &Syntax<'_>) -> Result<Option<Refusal>, AllocError>
    ensures { IfOk result (IsFirstFault syntax.now) }
{
    Ok(first_of(kinds_in(alloc, syntax)?))
}

/// Finds the faults of the next step, an operation. While none was found in the request, its update
/// is added.
fn take_operation<'a>(
    alloc: Global,
    walk: &mut Walk<'a>,
    update: &mut Update,
    operation: &Written<'a>,
) -> Result<(), AllocError>
    ensures kinds { OnOk result ((rest : List Step) → kinds_with walk.new rest
        ≡ kinds_with walk.old (step.Do operation.now ∷ rest)) }
    ensures prefixes { OnOk result (walk.new.prefixes ≡ walk.old.prefixes) }
    ensures update { OnOk result (((k : Refusal) → is_among (kinds_with walk.new []) k ≡ false)
        → update.new ≡ update.old ++ operation_of walk.old.prefixes operation.now ∷ []) }
{
    let nodes = OperationNodes::of(alloc, operation)?;
    walk.see(&nodes)?;
    match first_of(walk.kinds()) {
        Some(_) => Ok(()),
        None => {
            update.push(operation_of(alloc, &mut walk.prefixes, &nodes)?)?;
            Ok(())
        }
    }
}

/// The request that a reading is (SPARQL 1.1 Update, 19.8, and the limits of this program): its
/// refusal is the first of all kinds that holds anywhere in it. An error comes only where a growth
/// was refused, or where a request has 2^32 variables or labels.
pub fn check(alloc: Global, syntax: Syntax<'_>) -> Result<Checked, AllocError>
    ensures { IfOk result (IsVerdict syntax.entry) }
{
    let mut walk = Walk::new(alloc, &syntax);
    let mut update = Items::new(alloc);
    for step in syntax.steps.as_slice() {
        match step {
            Step::Declare { prefix, iri } => walk.declare(prefix, iri)?,
            Step::Do(operation) => take_operation(alloc, &mut walk, &mut update, operation)?,
        }
    }
    match first_of(walk.kinds()) {
        Some(kind) => Ok(Err(kind)),
        None => Ok(Ok(update)),
    }
}

/// The request that a text is. An error comes as for `check`.
pub fn checked(alloc: Global, text: &str) -> Result<Checked, AllocError>
    ensures { IfOk result (IsChecked text.now) }
{
    if text.len() > MOST_WHOLE {
        return Ok(Err(refusal_of_long(alloc, text.as_bytes())?));
    }
    match parse(alloc, text)? {
        Some(syntax) => check(alloc, syntax),
        None => Ok(Err(Refusal::Syntax)),
    }
}

/// Why a request is refused, or nothing where it is accepted.
pub type Verdict = Option<Refusal>;

/// The verdict on the request that a text is. An error comes as for `check`.
pub fn judged(alloc: Global, text: &str) -> Result<Verdict, AllocError>
    ensures { IfOk result (IsJudged text.now) }
{
    if text.len() > MOST_WHOLE {
        return Ok(Some(refusal_of_long(alloc, text.as_bytes())?));
    }
    match parse(alloc, text)? {
        Some(syntax) => first_fault(alloc, &syntax),
        None => Ok(Some(Refusal::Syntax)),
    }
}
