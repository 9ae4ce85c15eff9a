//! What holds of the maximal tracks of all nights.
ghost use Rattle.plain_tracks.specs.Laws.{MaximalTracksExist};

use quad_fit::fit_is_decided;

/// The maximal tracks of nights can be listed, whatever the settings. It does nothing: its contract
/// is the law.
pub fn maximal_tracks_exist()
    ensures { MaximalTracksExist }
{
    fit_is_decided();
}
