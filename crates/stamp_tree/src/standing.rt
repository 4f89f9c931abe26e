//! How a request stands.
ghost use Rattle.std.specs.Prelude.{◌≡◌, ◌||◌, ℕ, false, max};
ghost use Rattle.stamp_tree.specs.Standings.{is_due as due_at};

/// When something is to be done for a request.
#[derive(Clone, Copy, PartialEq, Eq)]
pub enum Due {
    /// At once.
    Now,
    /// Once a lower request has changed after this moment.
    After(u64),
    /// Not as it stands.
    Never,
}

/// How a request stands: when something is to be done for it, and the moment of its last change, 0
/// before any.
#[derive(Clone, Copy)]
pub struct Standing {
    pub due: Due,
    pub changed: u64,
}

/// Whether something is to be done, where the lower requests last changed at this moment.
pub(crate) fn is_due(latest: u64, due: Due) -> bool
    ensures { result ≡ due_at latest due }
{
    match due {
        Due::Now => true,
        Due::After(moment) => moment < latest,
        Due::Never => false,
    }
}

// Due as soon as one of two is.
fn sooner(first: Due, second: Due) -> Due
    ensures { (latest : ℕ) → due_at latest result ≡ (due_at latest first || due_at latest second) }
{
    match (first, second) {
        (Due::Now, _) | (_, Due::Now) => Due::Now,
        (Due::Never, other) | (other, Due::Never) => other,
        (Due::After(x), Due::After(y)) => Due::After(x.min(y)),
    }
}

// When it is due behind a request that changed at this moment.
fn behind(changed: u64, due: Due) -> Due
    ensures { (latest : ℕ) → due_at latest result ≡ due_at (max latest changed) due }
{
    match due {
        Due::After(moment) if moment < changed => Due::Now,
        other => other,
    }
}

/// Whether one stands otherwise than another.
pub(crate) fn is_other(first: &Standing, second: &Standing) -> bool
    ensures { result ≡ false → first.now ≡ second.now }
{
    first.due != second.due || first.changed != second.changed
}

/// How two stand, the second behind the first.
pub(crate) fn joined(first: Standing, second: Standing) -> Standing
    ensures due { (latest : ℕ) → due_at latest result.due
        ≡ (due_at latest first.due || due_at (max latest first.changed) second.due) }
    ensures changed { result.changed ≡ max first.changed second.changed }
{
    Standing {
        due: sooner(first.due, behind(first.changed, second.due)),
        changed: first.changed.max(second.changed),
    }
}
