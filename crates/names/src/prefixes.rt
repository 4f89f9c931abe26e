//! Declared prefixes, and what names and literals stand for.
ghost use Rattle.std.specs.Prelude.{◌≡◌, ◌++◌, IfOk, OnErr, OnOk, Some, [], bytes_eq, is_none, string_bytes, true};
ghost use Rattle.std.specs.Option.{ForSome, option_map};
ghost use Rattle.iris.specs.Iri.{IsIri};
ghost use Rattle.iris.specs.Forms.{is_tag};
ghost use Rattle.terms.specs.Parts.{tag_bytes};
ghost use Rattle.terms.specs.Vocabulary.{lang_string, rdf_type};
ghost use Rattle.terms.specs.declared.term.Term.TheVariants as term;
ghost use Rattle.syntax_trees.specs.declared.tree.Name.TheVariants as name;
ghost use Rattle.syntax_trees.specs.declared.tree.Node.TheVariants as node;
ghost use Rattle.names.specs.Names.{declare, namespace_of, iri_of, is_lang_iri, literal_from as the_literal_from, typed_literal, truth as the_truth, literal_of, no_term, name_term, term_of};

use crate::key::Key;
use crate::whole::WholeIris;
use iris::Iri;
use lexer::laws::iri_with_local;
use lexer::{IriText, LocalPart, Piece, Tag};
use std::alloc::{AllocError, Global};
use std::collections::BTreeMap;
use std::marker::Model;
use syntax_trees::{Literal as Written, Name, Node};
use terms::vocabulary::{RDF_LANG_STRING, RDF_TYPE, XSD_BOOLEAN, XSD_INTEGER, XSD_STRING};
use terms::{Literal, Term};

/// The declared prefixes with their IRIs. Contracts see a list in the order of the prefixes. Beside
/// them it keeps IRIs that were made, whole ones and those of names, so that a name that stands
/// often is one text in memory.
#[derive(Drop)]
pub struct Prefixes<'a> {
    map: BTreeMap<Key<'a>, IriText<'a>>,
    whole: WholeIris<'a>,
    named: BTreeMap<(Key<'a>, Key<'a>), Iri>,
}

impl<'a> Model for Prefixes<'a> {
    ghost use Rattle.std.specs.Prelude.{List, ℕ};

    ghost Value = { List (List ℕ × List ℕ) };

    ghost use Rattle.names.specs.Made.{AreOfNames};

    ghost view = { λ p. p.map.entries };

    ghost invariant = { λ p. AreOfNames p.map.entries p.named };
}

/// The term that stands where there is none; a request with such a place is refused.
fn no_term() -> Term
    ensures { result ≡ no_term }
{
    Term::Made {
        request: 0,
        op: 0,
        label: 0,
        rank: 0,
    }
}

/// The IRI that a namespace and a local part are, one after the other.
fn joined(
    alloc: Global,
    namespace: &IriText<'_>,
    local: &LocalPart<'_>,
) -> Result<Option<Iri>, AllocError>
    ensures { IfOk result (λ found. found ≡ Some (namespace.now ++ local.now)) }
{
    let (namespace, local) = (namespace.as_str(), local.as_str());
    let mut text = String::with_capacity(alloc, namespace.len().saturating_add(local.len()))?;
    text.push_str(namespace)?;
    text.push_str(local)?;
    iri_with_local();
    Iri::check(alloc, text.as_str())
}

/// Whether a text is two texts, one after the other. It looks at no more bytes than the text has.
#[tactic(auto, using(crate::proofs::JoinLaws::joined_is, crate::proofs::JoinLaws::too_long))]
fn is_joined(front: &[u8], back: &[u8], text: &[u8]) -> bool
    ensures { result ≡ bytes_eq (front.now ++ back.now) text.now }
{
    if front.len() > text.len() {
        return false;
    }
    let (first, rest) = text.split_at(front.len());
    front == first && back == rest
}

/// What the IRI of a prefixed name is kept by.
fn name_key<'a>(prefix: &Piece<'a>, local: &LocalPart<'a>) -> (Key<'a>, Key<'a>)
    ensures { result ≡ (prefix.now, local.now) }
{
    (Key::new(prefix.as_bytes()), Key::new(local.as_bytes()))
}

/// The literal of these parts.
fn literal_from(
    alloc: Global,
    lexical: String,
    datatype: Iri,
    tag: Option<String>,
) -> Result<Option<Literal>, AllocError>
    requires { ForSome (tag_bytes tag) (λ t. is_tag t ≡ true) }
    ensures { IfOk result (λ found. found ≡ the_literal_from (string_bytes lexical) datatype
        (tag_bytes tag)) }
{
    let _lexical = lexical.as_str();
    let _datatype = datatype.as_str();
    Literal::new(alloc, lexical, datatype, tag)
}

impl<'a> Prefixes<'a> {
    /// No prefixes.
    pub fn new(alloc: Global) -> Prefixes<'a>
        ensures { result ≡ [] }
    {
        Prefixes {
            map: BTreeMap::new(alloc),
            whole: WholeIris::new(alloc),
            named: BTreeMap::new(alloc),
        }
    }

    /// One prefix more, which takes the place of an earlier one of the same name. An error comes
    /// only where a growth was refused, and leaves the prefixes as they are.
    pub fn declare(&mut self, prefix: &Piece<'a>, iri: &IriText<'a>) -> Result<(), AllocError>
        ensures ok { OnOk result (self.new ≡ declare prefix.now iri.now self.old) }
        ensures err { OnErr result (self.new ≡ self.old) }
    {
        self.named.clear();
        self.map.insert(Key::new(prefix.as_bytes()), iri.again())?;
        Ok(())
    }

    /// The IRI of a prefix.
    fn namespace_of(&self, prefix: &Piece<'a>) -> Option<IriText<'a>>
        ensures { result ≡ namespace_of self.now prefix.now }
    {
        match self.map.get(&Key::new(prefix.as_bytes())) {
            Some(iri) => Some(iri.again()),
            None => None,
        }
    }

    /// Whether a name's prefix isn't declared.
    pub fn is_undeclared(&self, name: &Name<'a>) -> bool
        ensures { result ≡ is_none (iri_of self.now name.now) }
    {
        match name {
            Name::Iri(_) => false,
            Name::Prefixed { prefix, .. } => self.namespace_of(prefix).is_none(),
        }
    }

    /// Whether a name is rdf:langString. No IRI is made.
    pub fn is_lang_string(&self, name: &Name<'a>) -> bool
        ensures { result ≡ is_lang_iri (iri_of self.now name.now) }
    {
        match name {
            Name::Iri(iri) => iri.as_bytes() == RDF_LANG_STRING.as_bytes(),
            Name::Prefixed { prefix, local } => match self.namespace_of(prefix) {
                Some(namespace) => is_joined(
                    namespace.as_bytes(),
                    local.as_bytes(),
                    RDF_LANG_STRING.as_bytes(),
                ),
                None => false,
            },
        }
    }

    /// Whether the IRI of a prefixed name is kept.
    fn is_kept(&self, prefix: &Piece<'a>, local: &LocalPart<'a>) -> bool {
        self.named.contains_key(&name_key(prefix, local))
    }

    /// Makes and keeps the IRI of a prefixed name, unless it is kept or the prefix isn't declared.
    #[tactic(auto, using(crate::proofs::MadeLaws::names_more))]
    fn keep_named(
        &mut self,
        alloc: Global,
        prefix: &Piece<'a>,
        local: &LocalPart<'a>,
    ) -> Result<(), AllocError>
        ensures { self.new ≡ self.old }
    {
        if self.is_kept(prefix, local) {
            return Ok(());
        }
        if let Some(namespace) = self.namespace_of(prefix) {
            if let Some(iri) = joined(alloc, &namespace, local)? {
                self.named.insert(name_key(prefix, local), iri)?;
            }
        }
        Ok(())
    }

    fn keep_name(&mut self, alloc: Global, name: &Name<'a>) -> Result<(), AllocError>
        ensures { self.new ≡ self.old }
    {
        match name {
            Name::Iri(iri) => self.whole.keep(alloc, iri.as_str()),
            Name::Prefixed { prefix, local } => self.keep_named(alloc, prefix, local),
        }
    }

    fn keep_datatype(&mut self, alloc: Global, literal: &Written<'a>) -> Result<(), AllocError>
        ensures { self.new ≡ self.old }
    {
        match literal {
            Written::Plain(_) => self.whole.keep(alloc, XSD_STRING),
            Written::Tagged(_, _) => self.whole.keep(alloc, RDF_LANG_STRING),
            Written::Typed(_, datatype) => self.keep_name(alloc, datatype),
            Written::Integer(_) => self.whole.keep(alloc, XSD_INTEGER),
            Written::Boolean(_) => self.whole.keep(alloc, XSD_BOOLEAN),
        }
    }

    fn keep_node(&mut self, alloc: Global, node: &Node<'a>) -> Result<(), AllocError>
        ensures { self.new ≡ self.old }
    {
        match node {
            Node::Name(name) => self.keep_name(alloc, name),
            Node::Type => self.whole.keep(alloc, RDF_TYPE),
            Node::Literal(literal) => self.keep_datatype(alloc, literal),
            Node::Variable(_) | Node::Blank(_) => Ok(()),
        }
    }

    /// Makes and keeps the IRIs that stand in these nodes, so that terms made of them share each
    /// IRI. The declared prefixes stay as they are. An error comes only where a growth was refused.
    pub fn keep(&mut self, alloc: Global, nodes: &[Node<'a>]) -> Result<(), AllocError>
        ensures { self.new ≡ self.old }
    {
        for node in nodes {
            self.keep_node(alloc, node)?;
        }
        Ok(())
    }

    /// The IRI of a prefixed name, if the prefix is declared. It is made where it isn't kept.
    #[tactic(auto, using(crate::proofs::MadeLaws::kept_name))]
    fn named_iri(
        &self,
        alloc: Global,
        prefix: &Piece<'a>,
        local: &LocalPart<'a>,
    ) -> Result<Option<Iri>, AllocError>
        ensures { IfOk result (λ found. found ≡ iri_of self.now
            (name.Prefixed prefix.now local.now)) }
    {
        if let Some(iri) = self.named.get(&name_key(prefix, local)) {
            return Ok(Some(iri.copied(alloc)?));
        }
        match self.namespace_of(prefix) {
            Some(namespace) => joined(alloc, &namespace, local),
            None => Ok(None),
        }
    }

    /// The IRI of a name, if its prefix is declared.
    fn iri_of(&self, alloc: Global, name: &Name<'a>) -> Result<Option<Iri>, AllocError>
        ensures { IfOk result (λ found. found ≡ iri_of self.now name.now) }
    {
        match name {
            Name::Iri(iri) => self.whole.iri(alloc, iri.as_str()),
            Name::Prefixed { prefix, local } => self.named_iri(alloc, prefix, local),
        }
    }

    /// The literal of a string and a datatype that is one of this module's.
    fn literal_with(
        &self,
        alloc: Global,
        lexical: String,
        datatype: &'a str,
        tag: Option<String>,
    ) -> Result<Option<Literal>, AllocError>
        requires iri { IsIri datatype.now }
        requires tag { ForSome (tag_bytes tag) (λ t. is_tag t ≡ true) }
        ensures { IfOk result (λ found. found ≡ the_literal_from (string_bytes lexical) datatype.now
            (tag_bytes tag)) }
    {
        match self.whole.iri(alloc, datatype)? {
            Some(iri) => literal_from(alloc, lexical, iri, tag),
            None => Ok(None),
        }
    }

    /// The literal of a string and a language tag.
    fn tagged(
        &self,
        alloc: Global,
        lexical: String,
        tag: &Tag<'a>,
    ) -> Result<Option<Literal>, AllocError>
        ensures { IfOk result (λ found. found ≡ the_literal_from (string_bytes lexical) lang_string
            (Some tag.now)) }
    {
        let tag = tag.lower(alloc)?;
        self.literal_with(alloc, lexical, RDF_LANG_STRING, Some(tag))
    }

    /// The literal of a string and its written datatype.
    fn typed(
        &self,
        alloc: Global,
        lexical: String,
        datatype: &Name<'a>,
    ) -> Result<Option<Literal>, AllocError>
        ensures { IfOk result (λ found. found ≡ typed_literal (string_bytes lexical)
            (iri_of self.now datatype.now)) }
    {
        match self.iri_of(alloc, datatype)? {
            Some(iri) => literal_from(alloc, lexical, iri, None),
            None => Ok(None),
        }
    }

    /// The literal that is written so.
    fn literal_of(
        &self,
        alloc: Global,
        literal: &Written<'a>,
    ) -> Result<Option<Literal>, AllocError>
        ensures { IfOk result (λ found. found ≡ literal_of self.now literal.now) }
    {
        match literal {
            Written::Plain(text) => self.literal_with(alloc, text.value(alloc)?, XSD_STRING, None),
            Written::Tagged(text, tag) => self.tagged(alloc, text.value(alloc)?, tag),
            Written::Typed(text, datatype) => self.typed(alloc, text.value(alloc)?, datatype),
            Written::Integer(digits) => {
                self.literal_with(
                    alloc,
                    String::from_str(alloc, digits.as_str())?,
                    XSD_INTEGER,
                    None,
                )
            }
            Written::Boolean(truth) => {
                self.literal_with(alloc, truth_text(alloc, *truth)?, XSD_BOOLEAN, None)
            }
        }
    }

    /// The term that a name is.
    pub fn name_term(&self, alloc: Global, name: &Name<'a>) -> Result<Term, AllocError>
        ensures { IfOk result (λ term. term ≡ name_term self.now name.now) }
    {
        match self.iri_of(alloc, name)? {
            Some(iri) => Ok(Term::Iri(iri)),
            None => Ok(no_term()),
        }
    }

    /// The term that a literal is.
    fn literal_term(&self, alloc: Global, literal: &Written<'a>) -> Result<Term, AllocError>
        ensures { IfOk result (λ term. term ≡ term_of self.now (node.Literal literal.now)) }
    {
        match self.literal_of(alloc, literal)? {
            Some(literal) => Ok(Term::Literal(literal)),
            None => Ok(no_term()),
        }
    }

    /// What the verb `a` is.
    fn type_term(&self, alloc: Global) -> Result<Term, AllocError>
        ensures { IfOk result (λ t. t ≡ term.Iri rdf_type) }
    {
        match self.whole.iri(alloc, RDF_TYPE)? {
            Some(iri) => Ok(Term::Iri(iri)),
            None => Ok(no_term()),
        }
    }

    /// The term that a node is.
    pub fn term_of(&self, alloc: Global, node: &Node<'a>) -> Result<Term, AllocError>
        ensures { IfOk result (λ term. term ≡ term_of self.now node.now) }
    {
        match node {
            Node::Name(name) => self.name_term(alloc, name),
            Node::Type => self.type_term(alloc),
            Node::Literal(literal) => self.literal_term(alloc, literal),
            Node::Variable(_) | Node::Blank(_) => Ok(no_term()),
        }
    }
}

/// A truth value as a text.
fn truth_text(alloc: Global, truth: bool) -> Result<String, AllocError>
    ensures { IfOk result (λ text. string_bytes text ≡ the_truth truth) }
{
    String::from_str(alloc, if truth { "true" } else { "false" })
}
