//! What holds of every test of a line.

ghost use Rattle.line_fit.specs.Laws.{SlopesTellLines};

/// A law: spots in order of epoch lie on a line by the comparison of slopes exactly where their
/// epochs differ, they meet the spread rule, and on each axis some line of a bounded rate is within
/// the tolerance of all of them.
pub fn slopes_tell_lines()
    ensures { SlopesTellLines }
{}
