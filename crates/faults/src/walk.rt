//! A walk over the steps of a request, in which its faults are found.
ghost use Rattle.std.specs.Prelude.{◌≡◌, ◌||◌, ◌^◌, ◌<◌, ◌∷◌, ◌++◌, [], List, nat_lt, IfOk, OnOk, OnErr};
ghost use Rattle.syntax_trees.specs.declared.tree.Step.{Step};
ghost use Rattle.syntax_trees.specs.declared.tree.Syntax.{Syntax};
ghost use Rattle.syntax_trees.specs.declared.tree.Step.TheVariants as step;
ghost use Rattle.names.specs.Names.{declare};
ghost use Rattle.faults.specs.Faults.{operation_count};
ghost use Rattle.faults.specs.Kinds.{AreKindsIn};
ghost use Rattle.faults.specs.Walk.{kinds_with};

use crate::faults::{kinds_of, see_labels};
use crate::kinds::Kinds;
use lexer::{IriText, Piece};
use names::{Labels, Prefixes};
use nodes::OperationNodes;
use std::alloc::{AllocError, Global};
use syntax_trees::{Operation, Step, Syntax};

/// How many bytes a request has at most.
const MOST_BYTES: usize = 1 << 20;

/// How many operations a request has at most.
const MOST_OPERATIONS: usize = 256;

/// How many operations a request has.
fn operation_count(steps: &[Step<'_>]) -> usize
    ensures { result ≡ operation_count steps.now }
{
    let mut count = 0;
    for step in steps {
        if let Step::Do(_) = step {
            count += 1;
        }
    }
    count
}

/// Whether a request has too many bytes or too many operations.
fn is_over(bytes: usize, operations: usize) -> bool
    ensures { result ≡ (nat_lt (2 ^ 20) bytes || nat_lt 256 operations) }
{
    bytes > MOST_BYTES || operations > MOST_OPERATIONS
}

/// A walk over the steps of a request: what it found so far, and what the steps that are left are
/// judged by, the prefixes declared and the labels of INSERT DATA. After an error it is of no use.
#[derive(Drop)]
pub struct Walk<'a> {
    /// The prefixes declared so far.
    pub prefixes: Prefixes<'a>,
    seen: Labels<'a>,
    kinds: Kinds,
}

impl<'a> Walk<'a> {
    /// The walk before a request's first step.
    pub fn new(alloc: Global, syntax: &Syntax<'a>) -> Walk<'a>
        ensures kinds { AreKindsIn syntax.now (kinds_with result syntax.now.steps) }
        ensures prefixes { result.prefixes ≡ [] }
    {
        let operations = operation_count(syntax.steps.as_slice());
        Walk {
            prefixes: Prefixes::new(alloc),
            seen: Labels::new(alloc),
            kinds: Kinds::new(is_over(syntax.length, operations)),
        }
    }

    /// The walk before the first step of a request of more than 2^20 bytes. It takes no memory.
    pub fn of_long_text(alloc: Global) -> Walk<'a>
        ensures { (s : Syntax) → 2 ^ 20 < s.length → AreKindsIn s (kinds_with result s.steps) }
    {
        Walk {
            prefixes: Prefixes::new(alloc),
            seen: Labels::new(alloc),
            kinds: Kinds::new(true),
        }
    }

    /// The next step, a declaration. An error comes only where a growth was refused, and leaves the
    /// walk as it is.
    pub fn declare(&mut self, prefix: &Piece<'a>, iri: &IriText<'a>) -> Result<(), AllocError>
        ensures kinds { OnOk result ((rest : List Step) → kinds_with self.new rest
            ≡ kinds_with self.old (step.Declare prefix.now iri.now ∷ rest)) }
        ensures prefixes { OnOk result (self.new.prefixes
            ≡ declare prefix.now iri.now self.old.prefixes) }
        ensures err { OnErr result (self.new ≡ self.old) }
    {
        self.prefixes.declare(prefix, iri)
    }

    /// The next step, an operation: finds its faults. An error comes only where a growth was
    /// refused, or where INSERT DATA has 2^32 labels; what the walk has found then is not said, so a
    /// caller drops it.
    pub fn see(&mut self, nodes: &OperationNodes<'_, 'a>) -> Result<(), AllocError>
        ensures kinds { OnOk result ((rest : List Step) → kinds_with self.new rest
            ≡ kinds_with self.old (step.Do nodes.now ∷ rest)) }
        ensures prefixes { self.new.prefixes ≡ self.old.prefixes }
    {
        let more = kinds_of(&self.prefixes, &self.seen, nodes);
        self.kinds = self.kinds.with(more);
        see_labels(&mut self.seen, nodes)
    }

    /// The kinds of fault that were found.
    #[tactic(auto, using(crate::proofs::KindLaws::kinds_are))]
    pub fn kinds(&self) -> Kinds
        ensures { result ≡ kinds_with self.now [] }
    {
        let Walk { kinds, .. } = self;
        *kinds
    }
}

/// The next step, an operation whose nodes are gathered for it.
fn see_operation<'a>(
    alloc: Global,
    walk: &mut Walk<'a>,
    operation: &Operation<'a>,
) -> Result<(), AllocError>
    ensures { OnOk result ((rest : List Step) → kinds_with walk.new rest
        ≡ kinds_with walk.old (step.Do operation.now ∷ rest)) }
{
    let nodes = OperationNodes::of(alloc, operation)?;
    walk.see(&nodes)
}

/// The next step.
fn take<'a>(alloc: Global, walk: &mut Walk<'a>, next: &Step<'a>) -> Result<(), AllocError>
    ensures { OnOk result ((rest : List Step) → kinds_with walk.new rest
        ≡ kinds_with walk.old (next.now ∷ rest)) }
{
    match next {
        Step::Declare { prefix, iri } => walk.declare(prefix, iri),
        Step::Do(operation) => see_operation(alloc, walk, operation),
    }
}

/// The next steps of a request. An error comes as for `kinds_in`.
pub fn see_steps<'a>(
    alloc: Global,
    walk: &mut Walk<'a>,
    steps: &[Step<'a>],
) -> Result<(), AllocError>
    ensures { OnOk result ((rest : List Step) → kinds_with walk.new rest
        ≡ kinds_with walk.old (steps.now ++ rest)) }
{
    for step in steps {
        take(alloc, walk, step)?;
    }
    Ok(())
}

/// The kinds of fault that a request is refused for (SPARQL 1.1 Update, 19.8, notes 8 to 12, and
/// the limits of this program), found in one walk. An error comes only where a growth was refused,
/// or where INSERT DATA has 2^32 labels.
pub fn kinds_in(alloc: Global, syntax: &Syntax<'_>) -> Result<Kinds, AllocError>
    ensures { IfOk result (AreKindsIn syntax.now) }
{
    let mut walk = Walk::new(alloc, syntax);
    see_steps(alloc, &mut walk, syntax.steps.as_slice())?;
    Ok(walk.kinds())
}
