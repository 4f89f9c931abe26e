//! The orders in which a base is kept for a block.
use Arrangement::{Gpso, Gspo, Ogsp, Pogs};
use nquads::read_bytes;
use numbering::number;
use quad_lists::Arrangement;
use rules::split;
use std::alloc::Global;
use std::test::Fail;

/// Blocks, each with the orders beside SPOG that its scans can use.
const BLOCKS: &[(&str, &[Arrangement])] = &[
    ("INSERT DATA { <x:a> <x:b> <x:c> }", &[]),
    ("CREATE GRAPH <x:g>", &[]),
    ("DELETE WHERE { <x:a> <x:b> <x:c> }", &[]),
    ("DELETE WHERE { <x:a> <x:b> ?o }", &[Gspo]),
    ("DELETE WHERE { <x:a> ?p ?o }", &[Gspo]),
    ("DELETE WHERE { ?s ?p ?o }", &[Gspo]),
    ("CLEAR GRAPH <x:g>", &[Gspo]),
    ("DROP DEFAULT", &[Gspo]),
    ("COPY <x:g> TO <x:h>", &[Gspo]),
    ("DELETE WHERE { ?s <x:b> ?o }", &[Gpso]),
    ("DELETE WHERE { ?s ?p <x:c> }", &[Ogsp]),
    ("DELETE WHERE { <x:a> ?p <x:c> }", &[Ogsp]),
    ("DELETE WHERE { ?s <x:b> <x:c> }", &[Pogs]),
    ("DELETE WHERE { GRAPH ?g { ?s <x:b> <x:c> } }", &[Pogs]),
    (
        "DELETE WHERE { ?s <x:b> ?o } ; INSERT DATA { <x:a> <x:b> <x:c> }\n----\nDROP GRAPH <x:g>",
        &[Gspo, Gpso],
    ),
    (
        "INSERT { ?s <x:b> <x:c> } WHERE { \
         { ?s <x:b> ?o } UNION { ?s ?p <x:c> } OPTIONAL { <x:a> ?p ?o } \
         MINUS { GRAPH ?g { ?s <x:b> <x:c> } } }",
        &[Pogs, Ogsp, Gspo, Gpso],
    ),
];

/// Whether the base is kept in these orders beside SPOG.
fn is_kept_in(alloc: Global, block: &str, orders: &[Arrangement]) -> Result<bool, Fail> {
    let dataset = read_bytes(alloc, b"<x:a> <x:b> <x:c> .\n")?;
    let block = split(alloc, block.as_bytes())?;
    let numbered = number(alloc, dataset, block)?;
    let kept = numbered.base.dataset().orders(alloc)?;
    Ok(kept.as_slice() == orders)
}

#[test]
fn a_base_is_kept_in_the_orders_of_its_block(rt: HostRuntime) -> Result<(), Fail> {
    for (block, orders) in BLOCKS {
        assert!(rt; is_kept_in(rt.alloc(), block, orders)?);
    }
    Ok(())
}
