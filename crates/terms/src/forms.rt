//! The forms of language tags and of labels.
ghost use Rattle.std.specs.Prelude.{◌≡◌, MatchOption, Some, None};
ghost use Rattle.std.specs.List.{list_all};
ghost use Rattle.iris.specs.Forms.{is_small_letter, is_tag, is_label_byte, is_label};
ghost use Rattle.iris.specs.Iri.{is_digit};
ghost use Rattle.terms.specs.Tag.{place_of, next_place, is_last};

/// Where a tag is: before its first letter, in its first part, after a `-`, or in a later part.
#[derive(Clone, Copy)]
enum Place {
    Start,
    First,
    Dash,
    Later,
}

fn is_small_letter(b: u8) -> bool
    ensures { result ≡ is_small_letter b }
{
    matches!(b, b'a'..=b'z')
}

fn is_digit(b: u8) -> bool
    ensures { result ≡ is_digit b }
{
    matches!(b, b'0'..=b'9')
}

/// Where a tag is after one more byte, if it may go on with that one.
fn next(place: Place, b: u8) -> Option<Place>
    ensures { MatchOption result (next_place (place_of place) b ≡ None)
        (λ next. next_place (place_of place) b ≡ Some (place_of next)) }
{
    match place {
        Place::Start | Place::First if is_small_letter(b) => Some(Place::First),
        Place::Dash | Place::Later if is_small_letter(b) || is_digit(b) => Some(Place::Later),
        Place::First | Place::Later if b == b'-' => Some(Place::Dash),
        _ => None,
    }
}

/// Whether a tag may end here.
fn is_last(place: Place) -> bool
    ensures { result ≡ is_last (place_of place) }
{
    matches!(place, Place::First | Place::Later)
}

/// Whether a text is a language tag in lower case: letters, then groups of `-` and letters or
/// digits.
#[tactic(auto, using(crate::proofs::FormLaws::tag_steps))]
pub fn is_tag(text: &[u8]) -> bool
    ensures { result ≡ is_tag text.now }
{
    let mut place = Place::Start;
    let mut rest = text;
    while let Some((first, tail)) = rest.split_first() {
        match next(place, *first) {
            None => return false,
            Some(next) => place = next,
        }
        rest = tail;
    }
    is_last(place)
}

fn is_label_byte(b: u8) -> bool
    ensures { result ≡ is_label_byte b }
{
    b.is_ascii_alphanumeric() || b == b'_'
}

fn are_label_bytes(text: &[u8]) -> bool
    ensures { result ≡ list_all is_label_byte text.now }
{
    text.iter().all(|b| is_label_byte(*b))
}

/// Whether a text is the label of a blank node: one or more ASCII letters, digits and `_`.
pub fn is_label(text: &[u8]) -> bool
    ensures { result ≡ is_label text.now }
{
    !text.is_empty() && are_label_bytes(text)
}
