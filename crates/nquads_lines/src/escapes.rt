//! Escapes: what stands behind a backslash (RDF 1.1 N-Quads, productions 10 and 153s).
ghost use Rattle.std.specs.Prelude.{◌≡◌, ◌+◌, ◌*◌, ◌<◌, ◌^◌, ◌∷◌, [], length, IfSome, MatchOption, Some, None};
ghost use Rattle.std.specs.Char.{encode_utf8};
ghost use Rattle.nquads_lines.specs.Undone.{Finds, ascii_at, after, short_of, digit_at, digits_at, scalar_of, small_at, large_at, escape_at};

/// What a text is quoted as.
#[derive(Clone, Copy)]
pub enum Quote {
    /// A string, between `"` and `"`.
    String,
    /// An IRI, between `<` and `>`.
    Iri,
}

/// The first byte of a text, if it is in ASCII, and what follows it.
#[tactic(auto, using(crate::proofs::CutLaws::first_cut), unfolding(crate::specs::Undone::ascii_at))]
pub fn first_ascii(text: &str) -> Option<(u8, &str)>
    ensures read { Finds (λ x. (x.0, x.1.now)) result (ascii_at text.now) }
    ensures shorter { IfSome result (λ x. length x.1.now + 1 ≡ length text.now) }
{
    match text.as_bytes() {
        [first, ..] if first.is_ascii() => {
            let (_, rest) = text.split_at(1);
            Some((*first, rest))
        }
        _ => None,
    }
}

/// What follows this byte at the front of a text.
pub fn after(text: &str, byte: u8) -> Option<&str>
    ensures read { Finds (λ rest. rest.now) result (after byte text.now) }
    ensures shorter { IfSome result (λ rest. length rest.now + 1 ≡ length text.now) }
{
    match first_ascii(text) {
        Some((first, rest)) if first == byte => Some(rest),
        _ => None,
    }
}

/// A number with one more hexadecimal digit, and what follows that.
fn digit_at(value: u32, text: &str) -> Option<(u32, &str)>
    requires { value < 2 ^ 28 }
    ensures read { Finds (λ x. (x.0, x.1.now)) result (digit_at value text.now) }
    ensures bound { IfSome result (λ x. x.0 < 16 * value + 16) }
    ensures shorter { IfSome result (λ x. length x.1.now + 1 ≡ length text.now) }
{
    let (first, rest) = first_ascii(text)?;
    if !first.is_ascii_hexdigit() {
        return None;
    }
    let digit = char::from(first).to_digit(16)?;
    Some((16 * value + digit, rest))
}

/// A number with four more hexadecimal digits, and what follows them.
fn four_at(value: u32, text: &str) -> Option<(u32, &str)>
    requires { value < 2 ^ 16 }
    ensures read { Finds (λ x. (x.0, x.1.now)) result (digits_at 4 value text.now) }
    ensures bound { IfSome result (λ x. x.0 < 65536 * value + 65536) }
    ensures shorter { IfSome result (λ x. length x.1.now + 4 ≡ length text.now) }
{
    let (value, text) = digit_at(value, text)?;
    let (value, text) = digit_at(value, text)?;
    let (value, text) = digit_at(value, text)?;
    digit_at(value, text)
}

/// The character of a number, if it is a scalar value.
fn scalar_of(code: u32) -> Option<char>
    ensures { Finds (λ c. c) result (scalar_of code) }
{
    char::from_u32(code)
}

/// The character that four hexadecimal digits name, and what follows them.
fn small_at(text: &str) -> Option<(char, &str)>
    ensures read { Finds (λ x. (encode_utf8 x.0, x.1.now)) result (small_at text.now) }
    ensures shorter { IfSome result (λ x. length x.1.now < length text.now) }
{
    let (code, rest) = four_at(0, text)?;
    Some((scalar_of(code)?, rest))
}

/// The character that eight hexadecimal digits name, and what follows them.
fn large_at(text: &str) -> Option<(char, &str)>
    ensures read { Finds (λ x. (encode_utf8 x.0, x.1.now)) result (large_at text.now) }
    ensures shorter { IfSome result (λ x. length x.1.now < length text.now) }
{
    let (high, text) = four_at(0, text)?;
    let (code, rest) = four_at(high, text)?;
    Some((scalar_of(code)?, rest))
}

/// The character of a short escape of strings.
fn short_of(quote: Quote, b: u8) -> Option<char>
    ensures { MatchOption result (short_of quote b ≡ None)
        (λ c. (short_of quote b ≡ Some c) × (c < 128)) }
{
    match (quote, b) {
        (Quote::Iri, _) => None,
        (_, b't') => Some('\t'),
        (_, b'b') => Some('\x08'),
        (_, b'n') => Some('\n'),
        (_, b'r') => Some('\r'),
        (_, b'f') => Some('\x0c'),
        (_, b'"' | b'\'' | b'\\') => Some(char::from(b)),
        _ => None,
    }
}

/// The character that the escape behind a backslash stands for, and what follows it.
#[tactic(auto, using(crate::proofs::CutLaws::encode_small), unfolding(crate::specs::Undone::escape_at))]
pub fn escape_at(quote: Quote, text: &str) -> Option<(char, &str)>
    ensures read { Finds (λ x. (encode_utf8 x.0, x.1.now)) result (escape_at quote text.now) }
    ensures shorter { IfSome result (λ x. length x.1.now < length text.now) }
{
    let (first, rest) = first_ascii(text)?;
    match first {
        b'u' => small_at(rest),
        b'U' => large_at(rest),
        _ => Some((short_of(quote, first)?, rest)),
    }
}
