//! Reads with their answers, in little memory once the answers are not needed for now.
ghost use Rattle.std.specs.Prelude.{◌≡◌, ◌↔◌, IsTrue, IfOk, IfSome};
ghost use Rattle.quad_lists.specs.Known.{quad_of};
ghost use Rattle.reads.specs.Presence.{presence, scan_for as the_scan_for};
ghost use Rattle.reads.specs.Reads.{says};
ghost use Rattle.version_overlay.specs.LeanNote.{note_of};
ghost use Rattle.version_overlay.specs.Settled.{changed_by};

use crate::whole_note::WholeNote;
use datasets::{Id, Read};
use delta::Delta;
use quad_lists::KnownQuad;
use reads::presence::{is_present, presence_answer, quad_scanned, scan_for};
use reads::same::{same_bool, same_reads};
use reads::{Answered, IndexedView, Note};
use std::alloc::{AllocError, Global};
use std::marker::Model;

/// A read with its answer, which is kept or can be found again. To a contract it is the read with
/// the answer.
#[derive(Drop)]
pub struct LeanNote<'a> {
    form: Form<'a>,
}

/// Most reads ask for one quad: of these that quad is enough, and whether it was there.
#[derive(Drop)]
pub(crate) enum Form<'a> {
    Presence(KnownQuad, bool),
    Whole(Box<WholeNote<'a>>),
}

impl<'a> Model for LeanNote<'a> {
    ghost use Rattle.reads.specs.declared.note.Note.{Note as Noted};
    ghost use Rattle.version_overlay.specs.LeanNote.{note_of};

    ghost Value = { Noted };

    ghost view = { λ n. note_of n.form };
}

// Whether this is the answer that the quad is there, or that it is not.
#[tactic(auto, using(crate::proofs::Presences::told_same))]
fn is_presence(
    alloc: Global,
    quad: &KnownQuad,
    there: bool,
    answer: &Answered,
) -> Result<bool, AllocError>
    ensures { IfOk result (λ same. IsTrue same
        ↔ (presence (quad_of quad.now) there ≡ answer.now)) }
{
    if let Some(told) = is_present(quad, answer) {
        return Ok(same_bool(told, there));
    }
    Ok(presence_answer(alloc, quad, there)?.is_same(answer))
}

// Whether a read is the scan for this quad.
fn is_scan_for(quad: &KnownQuad, read: &Read<Id>) -> bool
    ensures { IsTrue result ↔ (read.now ≡ the_scan_for (quad_of quad.now)) }
{
    match quad_scanned(read) {
        Some(asked) => asked == *quad,
        None => same_reads(read, &scan_for(quad.to_quad())),
    }
}

// The quad that the read asks for alone, and whether it was there: if it asks for one, of known
// terms, and the answer tells that.
fn presence_form<'a>(read: &Read<Id>, answer: &Answered) -> Option<Form<'a>>
    ensures { IfSome result (λ form. note_of form ≡ record
        { read = read.now; answer = answer.now }) }
{
    let quad = quad_scanned(read)?;
    let there = is_present(&quad, answer)?;
    Some(Form::Presence(quad, there))
}

impl<'a> LeanNote<'a> {
    // The same, whatever the read asks for.
    fn whole(alloc: Global, note: WholeNote<'a>) -> Result<LeanNote<'a>, AllocError>
        ensures { IfOk result (λ lean. lean ≡ note.entry) }
    {
        Ok(LeanNote {
            form: Form::Whole(Box::new(alloc, note)?),
        })
    }

    /// A read with its answer, which is kept. An error comes only where memory runs out.
    pub fn kept(
        alloc: Global,
        base: &'a IndexedView,
        read: &Read<Id>,
        answer: Answered,
    ) -> Result<LeanNote<'a>, AllocError>
        ensures { IfOk result (λ note. note ≡ record { read = read.now; answer = answer }) }
    {
        if let Some(form) = presence_form(read, &answer) {
            return Ok(LeanNote { form });
        }
        LeanNote::whole(alloc, WholeNote::kept(base, read, answer))
    }

    /// A read with its answer, which may be forgotten: the read says it of the base after these
    /// changes. An error comes only where memory runs out.
    pub fn lean(
        alloc: Global,
        base: &'a IndexedView,
        read: &Read<Id>,
        answer: Answered,
        changes: Vec<Delta>,
    ) -> Result<LeanNote<'a>, AllocError>
        requires { answer ≡ says read.now (changed_by changes.items base.now) }
        ensures { IfOk result (λ note. note ≡ record { read = read.now; answer = answer }) }
    {
        if let Some(form) = presence_form(read, &answer) {
            return Ok(LeanNote { form });
        }
        LeanNote::whole(alloc, WholeNote::lean(base, read, answer, changes))
    }

    /// The read.
    pub fn read(&self) -> Read<Id>
        ensures { result ≡ self.now.read }
    {
        match &self.form {
            Form::Presence(quad, _) => scan_for(quad.to_quad()),
            Form::Whole(note) => *note.read(),
        }
    }

    /// The answer, shared where it is kept. An error comes only where memory runs out.
    pub fn answer(&self, alloc: Global) -> Result<Answered, AllocError>
        ensures { IfOk result (λ answer. answer ≡ self.now.answer) }
    {
        match &self.form {
            Form::Presence(quad, there) => presence_answer(alloc, quad, *there),
            Form::Whole(note) => note.answer(alloc),
        }
    }

    /// Whether this is the answer.
    pub fn is_answer(&self, alloc: Global, other: &Answered) -> Result<bool, AllocError>
        ensures { IfOk result (λ same. IsTrue same ↔ (self.now.answer ≡ other.now)) }
    {
        match &self.form {
            Form::Presence(quad, there) => is_presence(alloc, quad, *there, other),
            Form::Whole(note) => Ok(note.answer(alloc)?.is_same(other)),
        }
    }

    // Whether this is the read.
    fn is_read(&self, read: &Read<Id>) -> bool
        ensures { IsTrue result ↔ (read.now ≡ self.now.read) }
    {
        match &self.form {
            Form::Presence(quad, _) => is_scan_for(quad, read),
            Form::Whole(note) => same_reads(read, note.read()),
        }
    }

    /// Whether this is the read with the answer.
    pub fn is_note(&self, alloc: Global, note: &Note) -> Result<bool, AllocError>
        ensures { IfOk result (λ same. IsTrue same ↔ (note.now ≡ self.now)) }
    {
        if !self.is_read(&note.read) {
            return Ok(false);
        }
        self.is_answer(alloc, &note.answer)
    }

    /// The answer is no longer kept, if it can be found again.
    pub fn forget(&mut self)
        ensures { self.new ≡ self.old }
    {
        if let Form::Whole(note) = &mut self.form {
            note.forget();
        }
    }
}
