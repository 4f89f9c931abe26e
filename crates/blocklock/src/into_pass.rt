ghost use Rattle.std.specs.Prelude.{◌≡◌};
ghost use Rattle.blocklock.specs.Passes.{PassView};

use crate::journaled::Journaled;
use crate::pass::Pass;

/// What has a pass in it: a lock that ends takes the passes out of such values.
pub trait IntoPass<B: Journaled>: Drop {
    // The pass that it has.
    ghost pass_of: { Self → PassView B.Subject B.Entry };

    /// The pass.
    fn into_pass(self) -> Pass<B>
        ensures { result ≡ pass_of self };
}

impl<B: Journaled> IntoPass<B> for Pass<B> {
    ghost pass_of = { λ p. p };

    fn into_pass(self) -> Pass<B> {
        self
    }
}
