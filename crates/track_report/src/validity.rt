//! Whether reports are valid.
ghost use Rattle.std.specs.Prelude.{◌≡◌, true, MatchBool, ◌&&◌, nat_lt, nat_le, length};
ghost use Rattle.std.specs.List.{All, list_all};
ghost use Rattle.sky_units.specs.Ranges.{IsRightAscension, IsDeclination};
ghost use Rattle.miti_text.specs.Observation.{is_id as is_an_id, is_shown as is_all_shown, is_visible, begins_other_line as begins_another_line};
ghost use Rattle.miti_text.specs.ValidReports.{IsValidTrack, IsValidReport, IsValidWindow, IsValidQuad};

use sky_units::{MOST_NIGHTS, Quad, Report, Track, Word};

/// The nights of a window lie below this in absolute value.
const NEAR: i64 = 1_000_000_000_000_000_000;

/// The most bytes of an id.
const MOST_ID: usize = 64;

/// Whether a report is valid.
pub fn is_valid_report(report: &Report) -> bool
    ensures { MatchBool result (IsValidReport report.now) (¬ (IsValidReport report.now)) }
{
    match report.window {
        Some((lo, hi)) => {
            if !is_valid_window(lo, hi) {
                return false;
            }
            are_valid_tracks(report.tracks.items())
        }
        None => report.tracks.items().is_empty(),
    }
}

/// Whether a window has no more nights than it may have, and they are near.
fn is_valid_window(lo: i64, hi: i64) -> bool
    ensures { MatchBool result (IsValidWindow (lo, hi)) (¬ (IsValidWindow (lo, hi))) }
{
    if lo <= -NEAR || lo >= NEAR {
        return false;
    }
    if hi <= -NEAR || hi >= NEAR {
        return false;
    }
    if lo > hi {
        return false;
    }
    hi - lo < MOST_NIGHTS
}

/// Whether all tracks are valid.
fn are_valid_tracks(tracks: &[Track]) -> bool
    ensures { MatchBool result (All IsValidTrack tracks.now) (¬ (All IsValidTrack tracks.now)) }
{
    for track in tracks {
        if !is_valid_track(track) {
            return false;
        }
    }
    true
}

/// Whether a track is valid.
fn is_valid_track(track: &Track) -> bool
    ensures { MatchBool result (IsValidTrack track.now) (¬ (IsValidTrack track.now)) }
{
    if track.nights < 3 || i64::from(track.nights) > MOST_NIGHTS {
        return false;
    }
    if track.ids.items().len() < 2 * track.nights as usize {
        return false;
    }
    if !are_ids(track.ids.items()) {
        return false;
    }
    if !is_valid_ra(&track.ra) {
        return false;
    }
    is_valid_dec(&track.dec)
}

/// Whether each word keeps the rule of ids.
fn are_ids(ids: &[Word]) -> bool
    ensures { result ≡ list_all is_an_id ids.now }
{
    ids.iter().all(|id| is_id(id.bytes()))
}

/// Whether a word keeps the rule of ids.
fn is_id(word: &[u8]) -> bool
    ensures { result ≡ is_an_id word.now }
{
    is_shown(word) && word.len() <= MOST_ID && !begins_other_line(word)
}

/// Whether a word has one byte or more, all of them visible.
fn is_shown(word: &[u8]) -> bool
    ensures { result ≡ is_all_shown word.now }
{
    !word.is_empty() && are_visible(word)
}

/// Whether each byte is visible.
fn are_visible(word: &[u8]) -> bool
    ensures { result ≡ list_all is_visible word.now }
{
    word.iter().all(|byte| *byte >= 33 && *byte <= 126)
}

/// Whether a text begins with a byte that begins other lines: `!` or `#`.
fn begins_other_line(text: &[u8]) -> bool
    ensures { result ≡ begins_another_line text.now }
{
    matches!(text, [b'!' | b'#', ..])
}

/// Whether a quadratic's base is a right ascension and its start an epoch.
fn is_valid_ra(quad: &Quad) -> bool
    ensures { MatchBool result (IsValidQuad IsRightAscension quad.now)
        (¬ (IsValidQuad IsRightAscension quad.now)) }
{
    if quad.base < 0 || quad.base > 359_999_999 {
        return false;
    }
    quad.start >= 0 && quad.start <= 200_000_000_000
}

/// Whether a quadratic's base is a declination and its start an epoch.
fn is_valid_dec(quad: &Quad) -> bool
    ensures { MatchBool result (IsValidQuad IsDeclination quad.now)
        (¬ (IsValidQuad IsDeclination quad.now)) }
{
    if quad.base < -90_000_000 || quad.base > 90_000_000 {
        return false;
    }
    quad.start >= 0 && quad.start <= 200_000_000_000
}
