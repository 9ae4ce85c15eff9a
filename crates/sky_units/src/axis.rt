/// An axis of the sky.
#[derive(Clone, Copy, Debug, PartialEq, Eq)]
pub enum Axis {
    /// Right ascension, which goes round the circle.
    Ra,
    /// Declination.
    Dec,
}
