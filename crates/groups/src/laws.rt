//! Laws of the definitions.
ghost use Rattle.groups.specs.Laws.{GroupsAreFound, GroupsTake, GroupsAreReadAgain, GroupsShrink, ItemsShrink};

use expressions::laws::constraints_are_read;
use triples::laws::{graph_names_are_read, triples_are_read, triples_begin};

/// What is read of a group is what the grammar says, and all of it; a group takes a token or more.
pub fn groups_are_read()
    ensures found { GroupsAreFound }
    ensures takes { GroupsTake }
    ensures again { GroupsAreReadAgain }
{
    graph_names_are_read();
    triples_are_read();
    triples_begin();
    constraints_are_read();
}

/// What is read is a token or more, so the loops end.
pub(crate) fn readings_shrink()
    ensures groups { GroupsShrink }
    ensures items { ItemsShrink }
{
    graph_names_are_read();
    triples_are_read();
    constraints_are_read();
}
