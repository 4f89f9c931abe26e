//! Triples without labels of blank nodes.
ghost use Rattle.std.specs.Prelude.{◌≡◌};
ghost use Rattle.groups.specs.Reads.{is_label, property_unlabelled, are_properties_unlabelled, same_unlabelled, are_unlabelled};

use syntax_trees::{Node, Property, SameSubject};

fn is_label(node: &Node<'_>) -> bool
    ensures { result ≡ is_label node.now }
{
    matches!(node, Node::Blank(_))
}

fn property_unlabelled(property: &Property<'_>) -> bool
    ensures { result ≡ property_unlabelled property.now }
{
    property
        .objects
        .as_slice()
        .iter()
        .all(|object| !is_label(object))
}

fn are_properties_unlabelled(properties: &[Property<'_>]) -> bool
    ensures { result ≡ are_properties_unlabelled properties.now }
{
    properties.iter().all(property_unlabelled)
}

fn same_unlabelled(same: &SameSubject<'_>) -> bool
    ensures { result ≡ same_unlabelled same.now }
{
    !is_label(&same.subject) && are_properties_unlabelled(same.properties.as_slice())
}

/// Whether no label of a blank node stands in the triples. In a group none may.
pub fn are_unlabelled(triples: &[SameSubject<'_>]) -> bool
    ensures { result ≡ are_unlabelled triples.now }
{
    triples.iter().all(same_unlabelled)
}
