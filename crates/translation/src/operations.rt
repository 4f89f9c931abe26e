//! Operations of requests as updates over terms.
ghost use Rattle.std.specs.Prelude.{◌≡◌, IfOk};
ghost use Rattle.std.specs.Option.{option_map};
ghost use Rattle.algebra.specs.Plans.{nothing, plan_of};
ghost use Rattle.std.specs.Prelude.{[], None};
ghost use Rattle.algebra.specs.declared.update.Operation.TheVariants as made;
ghost use Rattle.algebra.specs.declared.update.GraphOperation.TheVariants as graphs;
ghost use Rattle.syntax_trees.specs.Groups.{group};
ghost use Rattle.group_translation.specs.Groups.{quads_pattern, translated_group};
ghost use Rattle.nodes.specs.Nodes.{nodes_of_operation};
ghost use Rattle.group_translation.specs.Triples.{template_of};
ghost use Rattle.names.specs.Names.{name_term};
ghost use Rattle.names.specs.Numbers.{labels_of, with_labels};
ghost use Rattle.translation.specs.Translation.{target_of, graph_at, modify_with, operation_with, operation_of};

use algebra::{GraphOperation, Modify, Operation, Pattern, Plan, QuadTemplate, Target, Transfer};
use group_translation::{Scope, quads_pattern, template_of, translate};
use names::{Labels, Prefixes, Variables};
use nodes::OperationNodes;
use sets::Items;
use std::alloc::{AllocError, Global};
use syntax_trees::{Block, Group, Name, Node, Operation as Written, Place};
use terms::Term;

fn target_of<'a>(
    alloc: Global,
    prefixes: &Prefixes<'a>,
    target: &Target<Name<'a>>,
) -> Result<Target<Term>, AllocError>
    ensures { IfOk result (λ made. made ≡ target_of prefixes.now target.now) }
{
    match target {
        Target::Graph(name) => Ok(Target::Graph(prefixes.name_term(alloc, name)?)),
        Target::Default => Ok(Target::Default),
        Target::Named => Ok(Target::Named),
        Target::All => Ok(Target::All),
    }
}

fn graph_at<'a>(
    alloc: Global,
    prefixes: &Prefixes<'a>,
    place: &Place<'a>,
) -> Result<Option<Term>, AllocError>
    ensures { IfOk result (λ graph. graph ≡ graph_at prefixes.now place.now) }
{
    match place {
        Place::Default => Ok(None),
        Place::Graph(name) => Ok(Some(prefixes.name_term(alloc, name)?)),
    }
}

/// The graph that WHERE begins in.
fn active_graph<'a>(
    alloc: Global,
    prefixes: &Prefixes<'a>,
    with: &Option<Name<'a>>,
) -> Result<Option<Term>, AllocError>
    ensures { IfOk result (λ graph. graph ≡ option_map (name_term prefixes.now) with.now) }
{
    match with {
        Some(name) => Ok(Some(prefixes.name_term(alloc, name)?)),
        None => Ok(None),
    }
}

/// The templates of DELETE and of INSERT.
fn templates_of<'a>(
    alloc: Global,
    scope: &Scope<'_, 'a>,
    with: &Option<Name<'a>>,
    delete: &[Block<'a>],
    insert: &[Block<'a>],
) -> Result<(Items<QuadTemplate<Term>>, Items<QuadTemplate<Term>>), AllocError>
    ensures { IfOk result (λ x. x
        ≡ (
          template_of scope.now.prefixes.now scope.now.variables.now scope.now.labels.now with.now
              delete.now,
          template_of scope.now.prefixes.now scope.now.variables.now scope.now.labels.now with.now
              insert.now,
        )) }
{
    let delete = template_of(alloc, scope, with, delete)?;
    let insert = template_of(alloc, scope, with, insert)?;
    Ok((delete, insert))
}

/// The graph that WHERE begins in, and the templates of DELETE and of INSERT.
fn graph_and_templates<'a>(
    alloc: Global,
    scope: &Scope<'_, 'a>,
    with: &Option<Name<'a>>,
    delete: &[Block<'a>],
    insert: &[Block<'a>],
) -> Result<
    (
        Option<Term>,
        (Items<QuadTemplate<Term>>, Items<QuadTemplate<Term>>),
    ),
    AllocError,
>
    ensures { IfOk result (λ x. x
        ≡ (
          option_map (name_term scope.now.prefixes.now) with.now,
          (
            template_of scope.now.prefixes.now scope.now.variables.now scope.now.labels.now with.now
                delete.now,
            template_of scope.now.prefixes.now scope.now.variables.now scope.now.labels.now with.now
                insert.now,
          ),
        )) }
{
    let active = active_graph(alloc, scope.prefixes, with)?;
    let templates = templates_of(alloc, scope, with, delete, insert)?;
    Ok((active, templates))
}

/// DELETE and INSERT over a pattern.
fn modify_with<'a>(
    alloc: Global,
    scope: &Scope<'_, 'a>,
    with: &Option<Name<'a>>,
    delete: &[Block<'a>],
    insert: &[Block<'a>],
    pattern: Plan<Term>,
) -> Result<Operation<Term>, AllocError>
    ensures { IfOk result (λ operation. operation
        ≡ modify_with scope.now.prefixes.now scope.now.variables.now scope.now.labels.now with.now
        delete.now insert.now (plan_of pattern)) }
{
    let (active, (delete, insert)) = graph_and_templates(alloc, scope, with, delete, insert)?;
    Ok(Operation::Modify(Modify {
        width: scope.variables.width(),
        active,
        pattern: Pattern::new(pattern),
        delete,
        insert,
    }))
}

/// CREATE.
fn created<'a>(
    alloc: Global,
    prefixes: &Prefixes<'a>,
    silent: bool,
    graph: &Name<'a>,
) -> Result<Operation<Term>, AllocError>
    ensures { IfOk result (λ operation. operation
        ≡ made.Graphs silent (graphs.Create (name_term prefixes.now graph.now))) }
{
    Ok(Operation::Graphs {
        silent,
        operation: GraphOperation::Create(prefixes.name_term(alloc, graph)?),
    })
}

/// DROP.
fn dropped<'a>(
    alloc: Global,
    prefixes: &Prefixes<'a>,
    silent: bool,
    target: &Target<Name<'a>>,
) -> Result<Operation<Term>, AllocError>
    ensures { IfOk result (λ operation. operation
        ≡ made.Graphs silent (graphs.Drop (target_of prefixes.now target.now))) }
{
    Ok(Operation::Graphs {
        silent,
        operation: GraphOperation::Drop(target_of(alloc, prefixes, target)?),
    })
}

/// CLEAR.
fn cleared<'a>(
    alloc: Global,
    prefixes: &Prefixes<'a>,
    silent: bool,
    target: &Target<Name<'a>>,
) -> Result<Operation<Term>, AllocError>
    ensures { IfOk result (λ operation. operation
        ≡ made.Graphs silent (graphs.Clear (target_of prefixes.now target.now))) }
{
    Ok(Operation::Graphs {
        silent,
        operation: GraphOperation::Clear(target_of(alloc, prefixes, target)?),
    })
}

/// What is done with two graphs.
fn between<'a>(
    alloc: Global,
    prefixes: &Prefixes<'a>,
    how: Transfer,
    from: &Place<'a>,
    to: &Place<'a>,
) -> Result<GraphOperation<Term>, AllocError>
    ensures { IfOk result (λ operation. operation
        ≡ graphs.Transfer how (graph_at prefixes.now from.now) (graph_at prefixes.now to.now)) }
{
    Ok(GraphOperation::Transfer {
        how,
        from: graph_at(alloc, prefixes, from)?,
        to: graph_at(alloc, prefixes, to)?,
    })
}

/// COPY, MOVE or ADD.
fn transferred<'a>(
    alloc: Global,
    prefixes: &Prefixes<'a>,
    silent: bool,
    how: Transfer,
    from: &Place<'a>,
    to: &Place<'a>,
) -> Result<Operation<Term>, AllocError>
    ensures { IfOk result (λ operation. operation
        ≡ made.Graphs silent (graphs.Transfer how (graph_at prefixes.now from.now)
        (graph_at prefixes.now to.now))) }
{
    Ok(Operation::Graphs {
        silent,
        operation: between(alloc, prefixes, how, from, to)?,
    })
}

/// INSERT DATA or DELETE DATA, which have the empty group as WHERE.
fn data_with<'a>(
    alloc: Global,
    scope: &Scope<'_, 'a>,
    delete: &[Block<'a>],
    insert: &[Block<'a>],
) -> Result<Operation<Term>, AllocError>
    ensures { IfOk result (λ operation. operation
        ≡ modify_with scope.now.prefixes.now scope.now.variables.now scope.now.labels.now None
        delete.now insert.now nothing) }
{
    let nothing = Plan::Basic(Items::new(alloc));
    modify_with(alloc, scope, &None, delete, insert, nothing)
}

/// DELETE WHERE, which has its quads as WHERE.
fn delete_where<'a>(
    alloc: Global,
    scope: &Scope<'_, 'a>,
    quads: &[Block<'a>],
) -> Result<Operation<Term>, AllocError>
    ensures { IfOk result (λ operation. operation
        ≡ modify_with scope.now.prefixes.now scope.now.variables.now scope.now.labels.now None
        quads.now [] (quads_pattern scope.now.prefixes.now scope.now.variables.now quads.now)) }
{
    let pattern = quads_pattern(alloc, scope, quads)?;
    modify_with(alloc, scope, &None, quads, &[], pattern)
}

/// DELETE and INSERT with their WHERE.
fn modified<'a>(
    alloc: Global,
    scope: &Scope<'_, 'a>,
    with: &Option<Name<'a>>,
    delete: &[Block<'a>],
    insert: &[Block<'a>],
    pattern: &Group<'a>,
) -> Result<Operation<Term>, AllocError>
    ensures { IfOk result (λ operation. operation
        ≡ modify_with scope.now.prefixes.now scope.now.variables.now scope.now.labels.now with.now
        delete.now insert.now (translated_group scope.now.prefixes.now scope.now.variables.now
        (group pattern.now))) }
{
    let pattern = translate(alloc, scope, pattern.elements())?;
    modify_with(alloc, scope, with, delete, insert, pattern)
}

fn operation_with<'a>(
    alloc: Global,
    scope: &Scope<'_, 'a>,
    operation: &Written<'a>,
) -> Result<Operation<Term>, AllocError>
    ensures { IfOk result (λ made. made ≡ operation_with scope.now.prefixes.now
        scope.now.variables.now scope.now.labels.now operation.now) }
{
    match operation {
        Written::Create { silent, graph } => created(alloc, scope.prefixes, *silent, graph),
        Written::Drop { silent, target } => dropped(alloc, scope.prefixes, *silent, target),
        Written::Clear { silent, target } => cleared(alloc, scope.prefixes, *silent, target),
        Written::Transfer {
            how,
            silent,
            from,
            to,
        } => transferred(alloc, scope.prefixes, *silent, *how, from, to),
        Written::InsertData(quads) => data_with(alloc, scope, &[], quads.as_slice()),
        Written::DeleteData(quads) => data_with(alloc, scope, quads.as_slice(), &[]),
        Written::DeleteWhere(quads) => delete_where(alloc, scope, quads.as_slice()),
        Written::Modify {
            with,
            delete,
            insert,
            pattern,
        } => modified(
            alloc,
            scope,
            with,
            delete.as_slice(),
            insert.as_slice(),
            pattern,
        ),
    }
}

/// The labels of an operation, numbered by first appearance.
fn labels_of<'a>(alloc: Global, nodes: &[Node<'a>]) -> Result<Labels<'a>, AllocError>
    ensures { IfOk result (λ labels. labels ≡ with_labels (labels_of nodes.now) []) }
{
    let mut labels = Labels::new(alloc);
    labels.add_nodes(nodes)?;
    Ok(labels)
}

/// An operation whose variables have numbers.
fn operation_labelled<'a>(
    alloc: Global,
    prefixes: &Prefixes<'a>,
    variables: &Variables<'a>,
    nodes: &OperationNodes<'_, 'a>,
) -> Result<Operation<Term>, AllocError>
    ensures { IfOk result (λ made. made ≡ operation_with prefixes.now variables.now
        (with_labels (labels_of (nodes_of_operation nodes.now)) []) nodes.now) }
{
    let labels = labels_of(alloc, nodes.all())?;
    let scope = Scope {
        prefixes,
        variables,
        labels: &labels,
    };
    operation_with(alloc, &scope, nodes.operation())
}

/// An operation whose IRIs are made.
fn operation_numbered<'a>(
    alloc: Global,
    prefixes: &Prefixes<'a>,
    nodes: &OperationNodes<'_, 'a>,
) -> Result<Operation<Term>, AllocError>
    ensures { IfOk result (λ made. made ≡ operation_of prefixes.now nodes.now) }
{
    let variables = Variables::of(alloc, nodes.of_where())?;
    operation_labelled(alloc, prefixes, &variables, nodes)
}

/// An operation as an update (SPARQL 1.1 Update, section 3), with the prefixes that are declared
/// before it. Its IRIs are made on the way, each once, and kept with the prefixes. A name whose
/// prefix isn't declared, and a literal with rdf:langString as its written datatype, stand for a
/// term that no request may have: such a request is refused. An error comes only where a growth was
/// refused, or where the operation has 2^32 variables or labels.
pub fn operation_of<'a>(
    alloc: Global,
    prefixes: &mut Prefixes<'a>,
    nodes: &OperationNodes<'_, 'a>,
) -> Result<Operation<Term>, AllocError>
    ensures operation { IfOk result (λ made. made ≡ operation_of prefixes.old nodes.now) }
    ensures prefixes { prefixes.new ≡ prefixes.old }
{
    prefixes.keep(alloc, nodes.all())?;
    operation_numbered(alloc, prefixes, nodes)
}
