//! The words of a line, and the numbers among them.
ghost use Rattle.std.specs.Prelude.{◌≡◌, ◌<◌, ◌≤◌, IfOk, Some};
ghost use Rattle.iris.specs.Iri.{is_digit};
ghost use Rattle.nquads_lines.specs.Reading.{Gives};
ghost use Rattle.journal.specs.Words.{word, behind, with_digit, number_of, number_below};

use iris::laws::run_by_length;
use nquads_lines::Stop;

/// The first word of a text, and what follows the space behind it.
pub fn first_word(text: &str) -> (&str, &str)
    ensures word { result.0.now ≡ word text.now }
    ensures rest { result.1.now ≡ behind text.now }
{
    run_by_length();
    match text.split_once(' ') {
        Some((word, rest)) => (word, rest),
        None => (text, ""),
    }
}

pub fn is_digit(b: u8) -> bool
    ensures { result ≡ is_digit b }
{
    matches!(b, b'0'..=b'9')
}

/// A number with one more digit.
fn with_digit(number: u64, digit: u8) -> Result<u64, Stop>
    ensures { Gives (λ x. x) result (with_digit number digit) }
{
    if !is_digit(digit) {
        return Err(Stop::Bad);
    }
    let Some(tens) = number.checked_mul(10) else {
        return Err(Stop::Bad);
    };
    match tens.checked_add(u64::from(digit - b'0')) {
        Some(number) => Ok(number),
        None => Err(Stop::Bad),
    }
}

/// The number of these digits.
#[tactic(auto, unfolding(crate::specs::Words::number_of))]
pub fn number_of(digits: &[u8]) -> Result<u64, Stop>
    ensures { Gives (λ x. x) result (number_of digits.now) }
{
    let mut number = 0;
    for digit in digits {
        number = with_digit(number, *digit)?;
    }
    Ok(number)
}

/// The number of these digits, where it is below a limit.
pub fn number_below(limit: u64, digits: &[u8]) -> Result<u64, Stop>
    ensures read { Gives (λ x. x) result (number_below limit digits.now) }
    ensures below { IfOk result (λ n. n < limit) }
{
    let number = number_of(digits)?;
    if number >= limit {
        return Err(Stop::Bad);
    }
    Ok(number)
}

/// A worker, of which there are at most 64.
pub fn worker_of(word: &str) -> Result<u32, Stop>
    ensures read { Gives (λ x. x) result (number_below 64 word.now) }
    ensures below { IfOk result (λ n. n < 64) }
{
    let number = number_below(64, word.as_bytes())?;
    Ok(number as u32)
}

/// A request, which has at most four digits.
pub fn request_of(word: &str) -> Result<usize, Stop>
    ensures read { Gives (λ x. x) result (number_below 10000 word.now) }
    ensures below { IfOk result (λ n. n < 10000) }
{
    let number = number_below(10000, word.as_bytes())?;
    Ok(number as usize)
}
