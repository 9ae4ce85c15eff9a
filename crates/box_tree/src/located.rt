//! What a tree's items say of their place.

ghost use Rattle.std.specs.Prelude.{◌≡◌, ◌<◌, ◌≤◌, ℕ, ℤ, ◌≤ℤ◌};

/// An item that reaches, on each of a few axes, from a low end to a high end.
pub trait Located {
    /// The number of axes: 1 to 8.
    ghost AXES: { ℕ };

    /// Where an item begins, by the axis.
    ghost lows: { Self → ℕ → ℤ };

    /// Where an item ends, by the axis.
    ghost highs: { Self → ℕ → ℤ };

    /// The number of axes: 1 to 8.
    const AXES: usize;

    /// Where the item begins on an axis below `AXES`.
    fn low(&self, axis: usize) -> i64
        requires { axis < AXES }
        ensures { result ≡ lows self.now axis };

    /// Where the item ends on an axis below `AXES`. It ends nowhere before it begins.
    fn high(&self, axis: usize) -> i64
        requires { axis < AXES }
        ensures value { result ≡ highs self.now axis }
        ensures order { lows self.now axis ≤ℤ result };

    /// There are 1 to 8 axes.
    ghost few_axes: { (1 ≤ AXES) × (AXES ≤ 8) };
}
