//! Laws over the definitions alone: each is the contract of a function that does nothing else.
ghost use Rattle.window_incr.specs.Laws.{AskedExists, AskedIsUnique, ReportExists, ReportFollows, ReportIsUnique, StatsAreUnique, StatsExist};

use plain_tracks::maximal_tracks_exist;

/// A state has one report.
pub fn report_is_unique()
    ensures { ReportIsUnique }
{}

/// States that hold the same have the same report, in whatever order they came by it.
pub fn report_follows()
    ensures { ReportFollows }
{}

/// A state has one answer to what its statistics are.
pub fn stats_are_unique()
    ensures { StatsAreUnique }
{}

/// Each sound state has a report, where its settings lie in their ranges.
#[tactic(auto, using(crate::proofs::ReportLists::report_exists))]
pub fn report_exists()
    ensures { ReportExists }
{
    maximal_tracks_exist();
}

/// Each sound state has statistics.
#[tactic(auto, using(crate::proofs::ReportLists::stats_exist))]
pub fn stats_exist()
    ensures { StatsExist }
{
    maximal_tracks_exist();
}

/// A state has one answer to asked ids.
pub fn asked_is_unique()
    ensures { AskedIsUnique }
{}

/// Each sound state has an answer to asked ids, where its settings lie in their ranges.
#[tactic(auto, using(crate::proofs::AskedExists::asked_exists))]
pub fn asked_exists()
    ensures { AskedExists }
{
    maximal_tracks_exist();
}
