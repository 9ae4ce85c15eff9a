//! The count of fit tests.
ghost use Rattle.std.specs.Prelude.{◌≡◌};

/// The count of fit tests. It stays at its greatest value.
#[derive(Clone, Copy, Debug, PartialEq, Eq)]
pub struct Tally {
    /// The fit tests so far.
    pub tests: u64,
}

impl Tally {
    /// No test yet.
    pub fn zero() -> Tally
        ensures { result.tests ≡ 0 }
    {
        Tally { tests: 0 }
    }
}
