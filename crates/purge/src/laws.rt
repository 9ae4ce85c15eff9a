//! What the compared numbers are.

ghost use Rattle.purge.specs.LeastSquares.{ResidualsAreScaled};

/// A law: the whole numbers whose sizes are compared are the residuals of the least-squares lines
/// times one positive number for both axes.
pub fn residuals_are_scaled()
    ensures { ResidualsAreScaled }
{}
