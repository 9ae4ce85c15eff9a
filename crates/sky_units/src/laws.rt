//! What the spread rule is for, and that origins are free.
ghost use Rattle.sky_units.specs.Laws.{LiftedDifferencesAgree};
ghost use Rattle.sky_units.specs.Reported.{OriginIsFree, ReportedIsUnique};

/// A law: among spots that meet the spread rule, the difference of two lifted positions is the same
/// whichever of the spots they are lifted against. It does nothing: its contract is the law.
pub fn lifted_differences_agree()
    ensures { LiftedDifferencesAgree }
{}

/// A law: whether an axis admits spots does not depend on the epoch from which their times are
/// counted.
pub fn origin_is_free()
    ensures { OriginIsFree }
{}

/// A law: spots have at most one reported quadratic on an axis.
pub fn reported_is_unique()
    ensures { ReportedIsUnique }
{}
