//! Which orders of a base the scans of a block can use. What a request finds doesn't depend on it:
//! where an order is missing, it is only slower to find.
ghost use Rattle.std.specs.Prelude.{◌≡◌, ◌++◌, IfOk, OnOk, fold, map};
ghost use Rattle.algebra.specs.Plans.{parts_of, plan_of};
ghost use Rattle.numbering.specs.Orders.{HasOrders};
ghost use Rattle.numbering.specs.Wanted.{none_wanted, with_gspo, with_pattern, with_part, with_plan, with_operation, with_request, order_if, orders_in};

use algebra::{GraphOperation, Link, Operation, Place, Plan, TriplePattern};
use quad_lists::Arrangement;
use rules::{Block, Checked};
use std::alloc::{AllocError, Global};
use terms::Term;

/// Orders beside SPOG. A scan of a request is of one graph, or of all quads, so none begins with
/// the object and the subject.
#[derive(Drop)]
struct Wanted {
    pogs: bool,
    ogsp: bool,
    gspo: bool,
    gpso: bool,
}

// The order in which a triple pattern is looked for in a graph: a scan for it binds its terms and
// the graph.
fn want_pattern(wanted: &mut Wanted, pattern: &TriplePattern<Term>)
    ensures { wanted.new ≡ with_pattern wanted.old pattern.now }
{
    use Place::{Term, Variable};
    match (&pattern.subject, &pattern.predicate, &pattern.object) {
        (Term(_), Term(_), Term(_)) => {}
        (Term(_), _, Variable(_)) => wanted.gspo = true,
        (Variable(_), Variable(_), Variable(_)) => wanted.gspo = true,
        (Variable(_), Term(_), Variable(_)) => wanted.gpso = true,
        (_, Variable(_), Term(_)) => wanted.ogsp = true,
        (Variable(_), Term(_), Term(_)) => wanted.pogs = true,
    }
}

#[cycle(plans)]
fn want_parts(wanted: &mut Wanted, parts: &[(Link<Term>, Plan<Term>)])
    ensures { wanted.new ≡ fold with_part wanted.old (parts_of parts.now) }
{
    for part in parts {
        want_plan(wanted, &part.1);
    }
}

#[cycle(plans)]
fn want_plans(wanted: &mut Wanted, plans: &[Plan<Term>])
    ensures { wanted.new ≡ fold with_plan wanted.old (map plan_of plans.now) }
{
    for plan in plans {
        want_plan(wanted, plan);
    }
}

fn want_patterns(wanted: &mut Wanted, patterns: &[TriplePattern<Term>])
    ensures { wanted.new ≡ fold with_pattern wanted.old patterns.now }
{
    for pattern in patterns {
        want_pattern(wanted, pattern);
    }
}

#[cycle(plans)]
#[tactic(auto, using(crate::proofs::WantedLaws::folded))]
fn want_plan(wanted: &mut Wanted, plan: &Plan<Term>)
    ensures { wanted.new ≡ with_plan wanted.old (plan_of plan.now) }
{
    match plan {
        Plan::Basic(patterns) => want_patterns(wanted, patterns.as_slice()),
        Plan::Group(parts, _) => want_parts(wanted, parts.as_slice()),
        Plan::Union(plans) => want_plans(wanted, plans.as_slice()),
        Plan::InGraph(_, inner) => want_plan(wanted, inner),
    }
}

// An operation on graphs goes over the quads of a graph.
fn want_operation(wanted: &mut Wanted, operation: &Operation<Term>)
    ensures { wanted.new ≡ with_operation wanted.old operation.now }
{
    match operation {
        Operation::Modify(modify) => want_plan(wanted, modify.pattern.plan()),
        Operation::Graphs {
            operation: GraphOperation::Create(_),
            ..
        } => {}
        Operation::Graphs { .. } => wanted.gspo = true,
    }
}

fn want_operations(wanted: &mut Wanted, operations: &[Operation<Term>])
    ensures { wanted.new ≡ fold with_operation wanted.old operations.now }
{
    for operation in operations {
        want_operation(wanted, operation);
    }
}

fn want_request(wanted: &mut Wanted, request: &Checked)
    ensures { wanted.new ≡ with_request wanted.old request.now }
{
    if let Ok(update) = request {
        want_operations(wanted, update.as_slice());
    }
}

fn wanted_by(requests: &[Checked]) -> Wanted
    ensures { result ≡ fold with_request none_wanted requests.now }
{
    let mut wanted = Wanted {
        pogs: false,
        ogsp: false,
        gspo: false,
        gpso: false,
    };
    for request in requests {
        want_request(&mut wanted, request);
    }
    wanted
}

fn push_if(
    orders: &mut Vec<Arrangement>,
    so: bool,
    arrangement: Arrangement,
) -> Result<(), AllocError>
    ensures { OnOk result (orders.new.items ≡ orders.old.items ++ order_if so arrangement) }
{
    if so {
        orders.push(arrangement)?;
    }
    Ok(())
}

fn orders_in(alloc: Global, wanted: &Wanted) -> Result<Vec<Arrangement>, AllocError>
    ensures { IfOk result (λ orders. orders.items ≡ orders_in wanted.now) }
{
    let mut orders = Vec::new(alloc);
    push_if(&mut orders, wanted.pogs, Arrangement::Pogs)?;
    push_if(&mut orders, wanted.ogsp, Arrangement::Ogsp)?;
    push_if(&mut orders, wanted.gspo, Arrangement::Gspo)?;
    push_if(&mut orders, wanted.gpso, Arrangement::Gpso)?;
    Ok(orders)
}

/// The orders, beside SPOG, that begin with the bound places of a scan of one of the block's
/// requests. The scan of a template, which is made in place of very many questions, is none of
/// these, and may have no order.
pub(crate) fn orders_for(alloc: Global, block: &Block) -> Result<Vec<Arrangement>, AllocError>
    ensures { IfOk result (λ orders. HasOrders block.now orders.items) }
{
    let wanted = wanted_by(block.as_slice());
    let orders = orders_in(alloc, &wanted)?;
    Ok(orders)
}
