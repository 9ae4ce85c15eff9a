//! What holds of fitting sets as sets of numbers.
ghost use Rattle.set_grow.specs.Laws.{ClosedSetsHoldAll, MaximalTracksAreClosed, PartsFit, SpotsTellTheSet};

use quad_fit::fit_is_decided;

/// A law: every part of a fitting set fits.
pub fn parts_fit()
    ensures { PartsFit }
{}

/// A law: every fitting set lies in a closed one.
pub fn closed_sets_hold_all()
    ensures { ClosedSetsHoldAll }
{
    fit_is_decided();
}

/// A law: the maximal tracks of some nights are the tracklets of the closed sets of three or more,
/// but for those whose spots are properly contained in the spots of another one.
pub fn maximal_tracks_are_closed()
    ensures { MaximalTracksAreClosed }
{
    fit_is_decided();
}

/// A law: two sets of numbers whose tracklets have the same spots are one.
pub fn spots_tell_the_set()
    ensures { SpotsTellTheSet }
{}
