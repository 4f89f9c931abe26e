//! Whether a text is a language tag, before memory is taken for one (RDF 1.1 N-Quads, production
//! 144s).
ghost use Rattle.std.specs.Prelude.{◌≡◌, MatchOption, Some, None, map};
ghost use Rattle.std.specs.Char.{to_ascii_lowercase};
ghost use Rattle.iris.specs.Forms.{is_tag, is_small_letter};
ghost use Rattle.iris.specs.Iri.{is_digit};
ghost use Rattle.terms.specs.Tag.{next_place, is_last};
ghost use Rattle.nquads_lines.specs.TagPlaces.{place_of};

/// Where a tag is: before its first letter, in its first part, after a `-`, or in a later part.
#[derive(Clone, Copy)]
enum TagPlace {
    Start,
    First,
    Dash,
    Later,
}

fn is_small_letter(b: u8) -> bool
    ensures { result ≡ is_small_letter b }
{
    matches!(b, b'a'..=b'z')
}

fn is_digit(b: u8) -> bool
    ensures { result ≡ is_digit b }
{
    matches!(b, b'0'..=b'9')
}

/// Where a tag is after one more byte in lower case, if it may go on with that one.
fn next(place: TagPlace, b: u8) -> Option<TagPlace>
    ensures { MatchOption result (next_place (place_of place) b ≡ None)
        (λ next. next_place (place_of place) b ≡ Some (place_of next)) }
{
    match place {
        TagPlace::Start | TagPlace::First if is_small_letter(b) => Some(TagPlace::First),
        TagPlace::Dash | TagPlace::Later if is_small_letter(b) || is_digit(b) => {
            Some(TagPlace::Later)
        }
        TagPlace::First | TagPlace::Later if b == b'-' => Some(TagPlace::Dash),
        _ => None,
    }
}

/// Whether a tag may end here.
fn is_last(place: TagPlace) -> bool
    ensures { result ≡ is_last (place_of place) }
{
    matches!(place, TagPlace::First | TagPlace::Later)
}

/// Whether a text is a language tag, its letters in any case.
#[tactic(auto, using(terms::proofs::FormLaws::tag_steps))]
pub(crate) fn is_tag(text: &[u8]) -> bool
    ensures { result ≡ is_tag (map to_ascii_lowercase text.now) }
{
    let mut place = TagPlace::Start;
    let mut rest = text;
    while let Some((first, tail)) = rest.split_first() {
        match next(place, first.to_ascii_lowercase()) {
            None => return false,
            Some(next) => place = next,
        }
        rest = tail;
    }
    is_last(place)
}
