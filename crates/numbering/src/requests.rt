//! Requests at numbers of terms.
ghost use Rattle.std.specs.Prelude.{◌≡◌, true, map, IfOk};
ghost use Rattle.std.specs.List.{list_all};
ghost use Rattle.std.specs.Option.{option_map};
ghost use Rattle.std.specs.Thread.{IsSync};
ghost use Rattle.dict.specs.Dictionary.{term_of, is_known};
ghost use Rattle.meaning_laws.specs.Renaming.{renamed_slot, renamed_template, renamed_target, renamed_graphs, renamed_operation, renamed_request, option_known, slot_known, graph_known, template_known, target_known, graphs_known, operation_known, request_known};
ghost use Rattle.store.specs.Held.{is_held};

use crate::lookup::Numbers;
use crate::plans::number_plan;
use algebra::{GraphOperation, Modify, Operation, Pattern, QuadTemplate, Slot, Target};
use dict::{Dict, Id};
use meaning::Request;
use radix::place_for_last;
use rules::Checked;
use sets::Items;
use std::alloc::{AllocError, Global};
use std::thread::{Threads, join};
use terms::Term;

fn number_slot(numbers: &Numbers<'_>, slot: &Slot<Term>) -> Slot<Id>
    requires { slot_known (is_held numbers.now) slot.now ≡ true }
    ensures renamed { renamed_slot (term_of numbers.now) result ≡ slot.now }
    ensures known { slot_known (is_known numbers.now) result ≡ true }
{
    match slot {
        Slot::Term(term) => Slot::Term(numbers.number_of(term)),
        Slot::Variable(variable) => Slot::Variable(*variable),
        Slot::Label(label) => Slot::Label(*label),
    }
}

fn number_graph(numbers: &Numbers<'_>, graph: &Option<Slot<Term>>) -> Option<Slot<Id>>
    requires { graph_known (is_held numbers.now) graph.now ≡ true }
    ensures renamed { option_map (renamed_slot (term_of numbers.now)) result ≡ graph.now }
    ensures known { graph_known (is_known numbers.now) result ≡ true }
{
    match graph {
        Some(slot) => Some(number_slot(numbers, slot)),
        None => None,
    }
}

fn number_template(numbers: &Numbers<'_>, template: &QuadTemplate<Term>) -> QuadTemplate<Id>
    requires { template_known (is_held numbers.now) template.now ≡ true }
    ensures renamed { renamed_template (term_of numbers.now) result ≡ template.now }
    ensures known { template_known (is_known numbers.now) result ≡ true }
{
    QuadTemplate {
        subject: number_slot(numbers, &template.subject),
        predicate: number_slot(numbers, &template.predicate),
        object: number_slot(numbers, &template.object),
        graph: number_graph(numbers, &template.graph),
    }
}

fn number_templates(
    alloc: Global,
    numbers: &Numbers<'_>,
    templates: &[QuadTemplate<Term>],
) -> Result<Vec<QuadTemplate<Id>>, AllocError>
    requires { list_all (template_known (is_held numbers.now)) templates.now ≡ true }
    ensures renamed { IfOk result (λ list. map (renamed_template (term_of numbers.now)) list.items
        ≡ templates.now) }
    ensures known { IfOk result (λ list. list_all (template_known (is_known numbers.now)) list.items
        ≡ true) }
{
    let mut list = Vec::with_capacity(alloc, templates.len())?;
    for template in templates {
        list.push(number_template(numbers, template))?;
    }
    Ok(list)
}

fn number_name(numbers: &Numbers<'_>, graph: &Option<Term>) -> Option<Id>
    requires { option_known (is_held numbers.now) graph.now ≡ true }
    ensures renamed { option_map (term_of numbers.now) result ≡ graph.now }
    ensures known { option_known (is_known numbers.now) result ≡ true }
{
    match graph {
        Some(graph) => Some(numbers.number_of(graph)),
        None => None,
    }
}

fn number_modify(
    alloc: Global,
    numbers: &Numbers<'_>,
    modify: &Modify<Term>,
) -> Result<Modify<Id>, AllocError>
    requires { operation_known (is_held numbers.now) (Operation.Modify modify.now) ≡ true }
    ensures renamed { IfOk result (λ m. renamed_operation (term_of numbers.now) (Operation.Modify m)
        ≡ Operation.Modify modify.now) }
    ensures known { IfOk result (λ m. operation_known (is_known numbers.now) (Operation.Modify m)
        ≡ true) }
{
    let delete = number_templates(alloc, numbers, modify.delete.as_slice())?;
    let insert = number_templates(alloc, numbers, modify.insert.as_slice())?;
    let plan = number_plan(alloc, numbers, modify.pattern.plan())?;
    Ok(Modify {
        width: modify.width,
        active: number_name(numbers, &modify.active),
        pattern: Pattern::new(plan),
        delete: Items::from_vec(delete),
        insert: Items::from_vec(insert),
    })
}

fn number_target(numbers: &Numbers<'_>, target: &Target<Term>) -> Target<Id>
    requires { target_known (is_held numbers.now) target.now ≡ true }
    ensures renamed { renamed_target (term_of numbers.now) result ≡ target.now }
    ensures known { target_known (is_known numbers.now) result ≡ true }
{
    match target {
        Target::Graph(graph) => Target::Graph(numbers.number_of(graph)),
        Target::Default => Target::Default,
        Target::Named => Target::Named,
        Target::All => Target::All,
    }
}

fn number_graphs(numbers: &Numbers<'_>, operation: &GraphOperation<Term>) -> GraphOperation<Id>
    requires { graphs_known (is_held numbers.now) operation.now ≡ true }
    ensures renamed { renamed_graphs (term_of numbers.now) result ≡ operation.now }
    ensures known { graphs_known (is_known numbers.now) result ≡ true }
{
    match operation {
        GraphOperation::Create(graph) => GraphOperation::Create(numbers.number_of(graph)),
        GraphOperation::Drop(target) => GraphOperation::Drop(number_target(numbers, target)),
        GraphOperation::Clear(target) => GraphOperation::Clear(number_target(numbers, target)),
        GraphOperation::Transfer { how, from, to } => GraphOperation::Transfer {
            how: *how,
            from: number_name(numbers, from),
            to: number_name(numbers, to),
        },
    }
}

fn number_operation(
    alloc: Global,
    numbers: &Numbers<'_>,
    operation: &Operation<Term>,
) -> Result<Operation<Id>, AllocError>
    requires { operation_known (is_held numbers.now) operation.now ≡ true }
    ensures renamed { IfOk result (λ o. renamed_operation (term_of numbers.now) o ≡ operation.now) }
    ensures known { IfOk result (λ o. operation_known (is_known numbers.now) o ≡ true) }
{
    match operation {
        Operation::Modify(modify) => {
            Ok(Operation::Modify(number_modify(alloc, numbers, modify)?))
        }
        Operation::Graphs { silent, operation } => Ok(Operation::Graphs {
            silent: *silent,
            operation: number_graphs(numbers, operation),
        }),
    }
}

fn number_operations(
    alloc: Global,
    numbers: &Numbers<'_>,
    operations: &[Operation<Term>],
) -> Result<Vec<Operation<Id>>, AllocError>
    requires { list_all (operation_known (is_held numbers.now)) operations.now ≡ true }
    ensures renamed { IfOk result (λ list. map (renamed_operation (term_of numbers.now)) list.items
        ≡ operations.now) }
    ensures known { IfOk result (λ list. list_all (operation_known (is_known numbers.now)) list.items
        ≡ true) }
{
    let mut list = Vec::new(alloc);
    for operation in operations {
        list.push(number_operation(alloc, numbers, operation)?)?;
    }
    Ok(list)
}

fn number_request(
    alloc: Global,
    numbers: &Numbers<'_>,
    request: &Checked,
) -> Result<Request<Id>, AllocError>
    requires { request_known (is_held numbers.now) request.now ≡ true }
    ensures renamed { IfOk result (λ r. renamed_request (term_of numbers.now) r ≡ request.now) }
    ensures known { IfOk result (λ r. request_known (is_known numbers.now) r ≡ true) }
{
    match request {
        Ok(operations) => {
            let list = number_operations(alloc, numbers, operations.as_slice())?;
            Ok(Ok(Items::from_vec(list)))
        }
        Err(refusal) => Ok(Err(*refusal)),
    }
}

/// The numbers of requests whose terms the dictionary holds. A request is let go as soon as it has
/// its numbers.
pub(crate) fn number_requests(
    alloc: Global,
    numbers: &Numbers<'_>,
    requests: Vec<Checked>,
) -> Result<Vec<Request<Id>>, AllocError>
    requires { list_all (request_known (is_held numbers.now)) requests.items ≡ true }
    ensures renamed { IfOk result (λ list. map (renamed_request (term_of numbers.now)) list.items
        ≡ requests.items) }
    ensures known { IfOk result (λ list. list_all (request_known (is_known numbers.now)) list.items
        ≡ true) }
{
    let mut list = Vec::new(alloc);
    for request in requests {
        list.push(number_request(alloc, numbers, &request)?)?;
    }
    Ok(list)
}

/// The same, by the dictionary and the slots that lead to its terms.
pub(crate) fn number_part(
    alloc: Global,
    dict: &Dict,
    slots: &[u32],
    requests: Vec<Checked>,
) -> Result<Vec<Request<Id>>, AllocError>
    requires { list_all (request_known (is_held dict.now)) requests.items ≡ true }
    ensures { IfOk result (λ list. (map (renamed_request (term_of dict.now)) list.items
        ≡ requests.items)
        × (list_all (request_known (is_known dict.now)) list.items ≡ true)) }
{
    let numbers = Numbers::new(dict, slots);
    let list = number_requests(alloc, &numbers, requests)?;
    Ok(list)
}

/// The same, by so many threads.
pub(crate) fn number_requests_by<T: Threads + Sync>(
    rt: &T,
    alloc: Global,
    dict: &Dict,
    slots: &[u32],
    mut requests: Vec<Checked>,
    threads: usize,
) -> Result<Vec<Request<Id>>, AllocError>
    requires { list_all (request_known (is_held dict.now)) requests.items ≡ true }
    ensures { IfOk result (λ list. (map (renamed_request (term_of dict.now)) list.items
        ≡ requests.items)
        × (list_all (request_known (is_known dict.now)) list.items ≡ true)) }
{
    if threads <= 1 {
        return number_part(alloc, dict, slots, requests);
    }
    let last = requests.split_off(place_for_last(requests.len(), threads))?;
    let others = threads - 1;
    let (high, low) = join(
        rt,
        move || -> Result<Vec<Request<Id>>, AllocError>
            requires { list_all (request_known (is_held dict.now)) last.items ≡ true }
            ensures { IfOk result (λ list. (map (renamed_request (term_of dict.entry.now))
                list.items ≡ last.items)
                × (list_all (request_known (is_known dict.entry.now)) list.items ≡ true)) }
        { number_part(alloc, dict, slots, last) },
        move || -> Result<Vec<Request<Id>>, AllocError>
            requires { IsSync T.row
                × (list_all (request_known (is_held dict.now)) requests.items ≡ true) }
            ensures { IfOk result (λ list. (map (renamed_request (term_of dict.entry.now))
                list.items ≡ requests.items)
                × (list_all (request_known (is_known dict.entry.now)) list.items ≡ true)) }
        { number_requests_by(rt, alloc, dict, slots, requests, others) },
    );
    let mut list = low?;
    let mut more = high?;
    list.append(&mut more)?;
    Ok(list)
}
