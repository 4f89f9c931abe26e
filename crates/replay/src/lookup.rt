//! Reads by terms, at the dictionary's numbers.
ghost use Rattle.std.specs.Option.{option_map};
ghost use Rattle.meaning_laws.specs.Renaming.{option_known};
ghost use Rattle.dict.specs.Dictionary.{term_of, is_known};
ghost use Rattle.replay.specs.Lines.{renamed_place, renamed_pattern, renamed_read, place_known, pattern_known, read_known};
ghost use Rattle.replay.specs.Found.{IsFound};

use datasets::{GraphPlace, Id, QuadPattern, Read};
use dict::Dict;
use dict::laws::is_renaming;
use terms::Term;

// The number of a term.
fn find(terms: &Dict, term: &Term) -> Option<Id>
    ensures { IsFound (is_known terms.now) (term_of terms.now) term.now result }
{
    is_renaming();
    let _size = terms.len();
    terms.id_of(term)
}

fn find_optional(terms: &Dict, term: &Option<Term>) -> Option<Option<Id>>
    ensures { IsFound (option_known (is_known terms.now)) (option_map (term_of terms.now)) term.now
        result }
{
    match term {
        Some(term) => Some(Some(find(terms, term)?)),
        None => Some(None),
    }
}

fn find_place(terms: &Dict, place: &GraphPlace<Term>) -> Option<GraphPlace<Id>>
    ensures { IsFound (place_known (is_known terms.now)) (renamed_place (term_of terms.now))
        place.now result }
{
    match place {
        GraphPlace::Any => Some(GraphPlace::Any),
        GraphPlace::Only(graph) => Some(GraphPlace::Only(find_optional(terms, graph)?)),
    }
}

fn find_pattern(terms: &Dict, pattern: &QuadPattern<Term>) -> Option<QuadPattern<Id>>
    ensures { IsFound (pattern_known (is_known terms.now)) (renamed_pattern (term_of terms.now))
        pattern.now result }
{
    let subject = find_optional(terms, &pattern.subject)?;
    let predicate = find_optional(terms, &pattern.predicate)?;
    let object = find_optional(terms, &pattern.object)?;
    let graph = find_place(terms, &pattern.graph)?;
    Some(QuadPattern {
        subject,
        predicate,
        object,
        graph,
    })
}

/// A read at the dictionary's numbers, or nothing where it lacks one of its terms.
pub fn find_read(terms: &Dict, read: &Read<Term>) -> Option<Read<Id>>
    ensures { IsFound (read_known (is_known terms.now)) (renamed_read (term_of terms.now)) read.now
        result }
{
    match read {
        Read::Scan(pattern) => Some(Read::Scan(find_pattern(terms, pattern)?)),
        Read::GraphIs(graph) => Some(Read::GraphIs(find(terms, graph)?)),
        Read::Graphs => Some(Read::Graphs),
    }
}
