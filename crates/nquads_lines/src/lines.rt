//! Lines of a text.
ghost use Rattle.std.specs.Prelude.{◌≡◌, ◌∷◌, ◌+◌, ◌≤◌, length, [], Option};
ghost use Rattle.std.specs.List.{prefix_len};
ghost use Rattle.iris.specs.Runs.{run_of, rest_of};
ghost use Rattle.nquads_lines.specs.Lines.{lines, is_inner, lines_at_end};
ghost use Rattle.nquads_lines.specs.Cut.{later_lines, later_length};

use iris::laws::run_by_length;

fn is_inner(b: u8) -> bool
    ensures { result ≡ is_inner b }
{
    b != b'\n' && b != b'\r'
}

/// How many bytes stand before the first line end.
fn line_len(text: &[u8]) -> usize
    ensures within { result ≤ length text.now }
    ensures run { result ≡ prefix_len is_inner text.now }
{
    text.iter().take_while(|b| is_inner(**b)).count()
}

/// The bytes before the first line end, and the rest.
fn before_end(text: &[u8]) -> (&[u8], &[u8])
    ensures front { result.0.now ≡ run_of is_inner text.now }
    ensures rest { result.1.now ≡ rest_of is_inner text.now }
    ensures length { length result.0.now + length result.1.now ≡ length text.now }
{
    run_by_length();
    text.split_at(line_len(text))
}

/// What follows the line end at the front of a text.
fn after_end(rest: &[u8]) -> Option<&[u8]>
    ensures lines { later_lines result ≡ lines_at_end rest.now }
    ensures shorter { later_length result ≤ length rest.now }
{
    match rest {
        [] => None,
        [b'\r', b'\n', after @ ..] => Some(after),
        [_, after @ ..] => Some(after),
    }
}

/// The first line of a text, and the text after its end (RDF 1.1 N-Quads, production 7). Where the
/// text ends with the line, none comes after.
#[tactic(auto, using(crate::proofs::Ends::lines_first))]
pub fn first_line(text: &[u8]) -> (&[u8], Option<&[u8]>)
    ensures cut { lines text.now ≡ result.0.now ∷ later_lines result.1 }
    ensures shorter { length result.0.now + later_length result.1 ≤ length text.now }
{
    let (line, rest) = before_end(text);
    (line, after_end(rest))
}
