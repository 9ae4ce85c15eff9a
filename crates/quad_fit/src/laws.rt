//! What holds of every quadratic test.
ghost use Rattle.quad_fit.specs.Laws.{FitIsDecided, PartsAreAdmitted, ReportedExists, ThreeSuffice};

/// A law: what an axis admits of an arc, it admits of each part of it.
pub fn parts_are_admitted()
    ensures { PartsAreAdmitted }
{}

/// A law: at one leading coefficient, some quadratic is within a tolerance of all the spots of an
/// arc where one is within it of each three of them.
pub fn three_suffice()
    ensures { ThreeSuffice }
{}

/// A law: each arc fits or doesn't, whatever the settings. Its proof finds out which from whole
/// numbers, so a proof elsewhere can go by cases on it.
pub fn fit_is_decided()
    ensures { FitIsDecided }
{}

/// A law: spots of an arc, two or more, that an axis admits have a reported quadratic, and its
/// numbers keep the ranges of `Quad`.
pub fn reported_exists()
    ensures { ReportedExists }
{}
