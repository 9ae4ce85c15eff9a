//! Whether tracklets fit together.

ghost use Rattle.std.specs.Prelude.{◌↔◌, IsTrue};
ghost use Rattle.box_tree.specs.Counts.{Rises};
ghost use Rattle.bound_prune.specs.Pruning.{CountsWhere};
ghost use Rattle.bound_prune.specs.Wanted.{AreArc, AreArcOfThree, AreWanted, AreWantedThree};

use crate::boxes::TrackletBox;
use quad_fit::fits_joined;
use sky_units::{Settings, Tally, is_arc_joined};

/// Whether two tracklets, one after the other, are an arc that fits, in boxes of the tolerances of the settings. It makes one
/// test where they are an arc and have these tolerances.
pub fn fit_together(
    settings: &Settings,
    a: &TrackletBox,
    b: &TrackletBox,
    tally: &mut Tally,
) -> bool
    ensures yes { IsTrue result ↔ AreWanted settings.now a.now b.now }
    ensures tests { Rises 1 tally.old.tests tally.new.tests }
    ensures counted { CountsWhere (AreArc settings.now a.now b.now) tally.old.tests tally.new.tests }
{
    if !are_arc(settings, a, b) {
        return false;
    }
    let first = a.tracklet().spots();
    let second = b.tracklet().spots();
    // A count of 64 bits: it stands still at its end, and rises by one elsewhere.
    let _counted = tally.tests;
    fits_joined(first, second, &[], settings, tally)
}

/// The same of three tracklets.
pub fn three_fit_together(
    settings: &Settings,
    a: &TrackletBox,
    b: &TrackletBox,
    c: &TrackletBox,
    tally: &mut Tally,
) -> bool
    ensures yes { IsTrue result ↔ AreWantedThree settings.now a.now b.now c.now }
    ensures tests { Rises 1 tally.old.tests tally.new.tests }
    ensures counted { CountsWhere (AreArcOfThree settings.now a.now b.now c.now) tally.old.tests
        tally.new.tests }
{
    if !are_arc_of_three(settings, a, b, c) {
        return false;
    }
    let first = a.tracklet().spots();
    let second = b.tracklet().spots();
    let third = c.tracklet().spots();
    // A count of 64 bits: it stands still at its end, and rises by one elsewhere.
    let _counted = tally.tests;
    fits_joined(first, second, third, settings, tally)
}

/// Whether two tracklets, one after the other, are an arc, in boxes of the tolerances of the settings.
fn are_arc(settings: &Settings, a: &TrackletBox, b: &TrackletBox) -> bool
    ensures { IsTrue result ↔ AreArc settings.now a.now b.now }
{
    if !a.has_tolerances(settings) {
        return false;
    }
    if !b.has_tolerances(settings) {
        return false;
    }
    is_arc_joined(a.tracklet().spots(), b.tracklet().spots(), &[])
}

/// The same of three tracklets.
fn are_arc_of_three(settings: &Settings, a: &TrackletBox, b: &TrackletBox, c: &TrackletBox) -> bool
    ensures { IsTrue result ↔ AreArcOfThree settings.now a.now b.now c.now }
{
    if !a.has_tolerances(settings) {
        return false;
    }
    if !b.has_tolerances(settings) {
        return false;
    }
    if !c.has_tolerances(settings) {
        return false;
    }
    is_arc_joined(
        a.tracklet().spots(),
        b.tracklet().spots(),
        c.tracklet().spots(),
    )
}
