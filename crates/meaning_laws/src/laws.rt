//! Each law is the contract of a function with an empty body.
ghost use Rattle.meaning_laws.specs.Renaming.{CarriesRun};
ghost use Rattle.meaning_laws.specs.Answers.{AnswersWithDatasets, GoesOnByOne};
ghost use Rattle.meaning_laws.specs.BasicPatterns.{JoinsAreSolutions};
ghost use Rattle.meaning_laws.specs.Members.{SetsHaveMembers, MembersMakeSets};

/// The run of a renamed block on a renamed dataset is the renamed run, with the same replies.
pub fn run_is_renamed<A, B>()
    ensures { CarriesRun A B }
{}

/// The answer to a request leaves a dataset where there was one.
pub fn answers_with_datasets<K>()
    ensures { AnswersWithDatasets K }
{}

/// The run of one request more is the run so far and the answer to that request.
pub fn goes_on_by_one<K>()
    ensures { GoesOnByOne K }
{}

/// The joined solutions of triple patterns are the solutions of their basic graph pattern (SPARQL
/// 1.1 Query, 18.3.1), each once: the mappings that bind just the variables of the pattern and
/// under which it is a part of the graph.
pub fn joins_are_solutions<K>()
    ensures { JoinsAreSolutions K }
{}

/// The set of a list's members rises strictly and has just the values that the list has; and it is
/// the one list that does.
pub fn sets_are_members<A>()
    ensures members { SetsHaveMembers A }
    ensures one { MembersMakeSets A }
{}
