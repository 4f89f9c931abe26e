//! The law of dictionaries, as the contract of a function with an empty body.
ghost use Rattle.std.specs.Prelude.{List};
ghost use Rattle.terms.specs.declared.term.Term.{Term};
ghost use Rattle.meaning_laws.specs.Renaming.{IsRenaming};
ghost use Rattle.dict.specs.Dictionary.{IsDictionary, numbers, written, term_of, is_known};

/// From numbers to terms is a renaming: the order of numbers is that of their terms.
pub fn is_renaming()
    ensures { (terms : List Term) → IsDictionary terms
        → IsRenaming (numbers terms) written (term_of terms) (is_known terms) }
{}
