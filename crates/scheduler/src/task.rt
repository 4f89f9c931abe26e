//! What a worker can do for a request.
ghost use Rattle.std.specs.Prelude.{◌≡◌};
ghost use Rattle.scheduler.specs.Task.{place_of};

/// What a worker can do for a request. The numbers are those of the request, from 0, and of its
/// incarnation.
#[derive(Clone, Copy)]
pub enum Task {
    /// Commit the request, which is the front.
    Commit(usize),
    /// Take the request, which is ready.
    Take(usize),
    /// Begin a pass of checks, where none stands and no stamp holds.
    Begin(usize, u64),
    /// Check the next note of the pass that stands.
    Check(usize, u64),
}

impl Task {
    /// The number of the request.
    pub fn place(&self) -> usize
        ensures { result ≡ place_of self.now }
    {
        match self {
            Task::Commit(place) => *place,
            Task::Take(place) => *place,
            Task::Begin(place, _) => *place,
            Task::Check(place, _) => *place,
        }
    }
}
