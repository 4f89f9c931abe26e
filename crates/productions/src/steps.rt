//! Steps over tokens.
ghost use Rattle.std.specs.Prelude.{◌≡◌};

use lexer::Token;

/// The same tokens. (A loop's slice is not assigned from a part of a tuple: the check does not
/// cover that.)
pub fn kept<'t, 'a>(tokens: &'t [Token<'a>]) -> &'t [Token<'a>]
    ensures { result.now ≡ tokens.entry.now }
{
    tokens
}
