//! The order of terms.
ghost use Rattle.std.specs.Prelude.{◌≡◌, refl};
ghost use Rattle.std.specs.Ordering.{eq_by_cmp, as_partial_cmp};
ghost use Rattle.std.specs.Cmp.{eq_by_cmp_equiv, partial_equiv_from_equiv, partial_order_from_total};
ghost use Rattle.std.specs.Option.{option_cmp, option_copied};
ghost use Rattle.terms.specs.Term.{text_cmp, kind, within_kind, literal_order, term_order};
ghost use Rattle.terms.specs.TermLaws.{term_total, term_exact};

use crate::literal::Literal;
use crate::term::Term;
use sets::Exact;
use std::cmp::Ordering;

fn kind(term: &Term) -> u8
    ensures { result ≡ kind term.now }
{
    match term {
        Term::Iri(_) => 0,
        Term::Literal(_) => 1,
        Term::Blank(_) => 2,
        Term::Made { .. } => 3,
    }
}

fn tag_cmp(a: Option<&str>, b: Option<&str>) -> Ordering
    ensures { result ≡ option_cmp text_cmp (option_copied a.entry) (option_copied b.entry) }
{
    match (a, b) {
        (None, None) => Ordering::Equal,
        (None, Some(_)) => Ordering::Less,
        (Some(_), None) => Ordering::Greater,
        (Some(a), Some(b)) => a.cmp(b),
    }
}

fn lexical_cmp(a: &Literal, b: &Literal) -> Ordering
    ensures { result ≡ text_cmp a.now.lexical b.now.lexical }
{
    a.lexical().cmp(b.lexical())
}

fn literal_cmp(a: &Literal, b: &Literal) -> Ordering
    ensures { result ≡ literal_order a.now b.now }
{
    lexical_cmp(a, b)
        .then(a.datatype().as_str().cmp(b.datatype().as_str()))
        .then(tag_cmp(a.tag(), b.tag()))
}

fn cmp_within_kind(a: &Term, b: &Term) -> Ordering
    ensures { result ≡ within_kind a.now b.now }
{
    match (a, b) {
        (Term::Iri(a), Term::Iri(b)) => a.as_str().cmp(b.as_str()),
        (Term::Literal(a), Term::Literal(b)) => literal_cmp(a, b),
        (Term::Blank(a), Term::Blank(b)) => a.as_str().cmp(b.as_str()),
        (
            Term::Made {
                request,
                op,
                label,
                rank,
            },
            Term::Made {
                request: other_request,
                op: other_op,
                label: other_label,
                rank: other_rank,
            },
        ) => request
            .cmp(other_request)
            .then(op.cmp(other_op))
            .then(label.cmp(other_label))
            .then(rank.cmp(other_rank)),
        _ => Ordering::Equal,
    }
}

impl PartialEq for Term {
    ghost eq = { eq_by_cmp term_order };

    ghost laws = { partial_equiv_from_equiv (eq_by_cmp_equiv term_total) };

    fn eq(&self, other: &Term) -> bool {
        self.cmp(other).is_eq()
    }
}

impl Eq for Term {
    ghost laws = { eq_by_cmp_equiv term_total };
}

impl PartialOrd for Term {
    ghost partial_cmp = { as_partial_cmp term_order };

    ghost laws = { partial_order_from_total term_total };

    fn partial_cmp(&self, other: &Term) -> Option<Ordering> {
        Some(self.cmp(other))
    }
}

impl Ord for Term {
    ghost cmp = { term_order };

    ghost total = { term_total };

    ghost matches_partial_cmp = { λ x y. refl };

    ghost matches_eq = { λ x y. refl };

    fn cmp(&self, other: &Term) -> Ordering {
        kind(self)
            .cmp(&kind(other))
            .then(cmp_within_kind(self, other))
    }
}

impl Exact for Term {
    ghost exact = { term_exact };
}
