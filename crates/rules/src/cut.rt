//! How a block is cut into requests: at each line that is exactly four dashes and an LF.
ghost use Rattle.std.specs.Prelude.{◌≡◌, ◌≤◌, ◌^◌, ◌&&◌, length, true};
ghost use Rattle.rules.specs.Requests.{whole_lines, texts_of};
ghost use Rattle.rules.specs.Cutting.{begins_separator, text_from, rest_from, after_separator};

/// How many bytes a separator has.
const SEPARATOR: usize = 5;

fn begins_separator(bytes: &[u8]) -> bool
    ensures { result ≡ begins_separator bytes.now }
{
    match bytes {
        [a, b, c, d, e, ..] => {
            *a == b'-' && *b == b'-' && *c == b'-' && *d == b'-' && *e == b'\n'
        }
        _ => false,
    }
}

/// Whether a separator stands at the start of a line.
fn is_stopped(starts: bool, rest: &[u8]) -> bool
    ensures { result ≡ (starts && begins_separator rest.now) }
{
    starts && begins_separator(rest)
}

/// How many bytes stand before the first separator.
pub fn text_len(bytes: &[u8]) -> usize
    ensures { result ≡ length (text_from true bytes.now) }
{
    let mut rest = bytes;
    let mut starts = true;
    while let [first, tail @ ..] = rest {
        if is_stopped(starts, rest) {
            return bytes.len() - rest.len();
        }
        starts = *first == b'\n';
        rest = tail;
    }
    bytes.len()
}

/// What follows a separator, or nothing where there is none.
pub fn after_separator(text: &str) -> &str
    ensures { result.now ≡ after_separator text.now }
{
    if begins_separator(text.as_bytes()) {
        text.split_at(SEPARATOR).1
    } else {
        ""
    }
}

/// The same of bytes.
fn after_separator_bytes(bytes: &[u8]) -> &[u8]
    ensures { result.now ≡ after_separator bytes.now }
{
    if begins_separator(bytes) {
        bytes.split_at(SEPARATOR).1
    } else {
        &[]
    }
}

/// The separator that ends the first text, and what follows it.
#[tactic(auto, using(crate::proofs::CutLaws::cut_rest))]
fn after_text(bytes: &[u8]) -> &[u8]
    ensures { result.now ≡ rest_from true bytes.now }
{
    bytes.split_at(text_len(bytes)).1
}

/// How many texts a block is cut into that isn't empty.
pub fn text_count(bytes: &[u8]) -> usize
    requires { length bytes.now ≤ 2 ^ 28 }
    ensures { result ≡ length (texts_of (whole_lines bytes.now)) }
{
    let mut count = 0;
    let mut rest = bytes;
    let mut goes_on = true;
    while goes_on {
        let after = after_text(rest);
        count += 1;
        goes_on = !after.is_empty();
        rest = after_separator_bytes(after);
    }
    count
}
