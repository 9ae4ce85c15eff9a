//! Reports.
ghost use Rattle.std.specs.Prelude.{◌≡◌, ◌++◌, ◌+◌, IfOk, OnOk};
ghost use Rattle.std.specs.Fmt.{signed_decimal};
ghost use Rattle.std.specs.List.{flat_map, enumerate_from};
ghost use Rattle.track_report.specs.Words.{spaced};
ghost use Rattle.track_report.specs.ReportText.{counts_line, quad_line, report_text, track_text, window_words};

use crate::words::{write_line, write_number, write_word};
use sky_units::{NoMemory, Quad, Report, Track};
use std::alloc::Global;

/// The text of a report: a line of the window's nights and the number of tracks, then four lines for
/// each track.
pub fn write_report(alloc: Global, report: &Report) -> Result<Vec<u8>, NoMemory>
    ensures { IfOk result (λ text. text.items ≡ report_text report.now) }
{
    let mut text = Vec::new(alloc);
    write_report_lines(&mut text, report)?;
    Ok(text)
}

/// Adds the lines of a report.
pub fn write_report_lines(text: &mut Vec<u8>, report: &Report) -> Result<(), NoMemory>
    ensures { OnOk result (text.new.items ≡ text.old.items ++ report_text report.now) }
{
    text.extend_from_slice(b"report")?;
    write_nights(text, report.window)?;
    write_number(text, report.tracks.items().len())?;
    text.push(b'\n')?;
    write_tracks(text, report.tracks.items())
}

/// Adds a window's first and last night, a dash for each where there is none.
fn write_nights(text: &mut Vec<u8>, window: Option<(i64, i64)>) -> Result<(), NoMemory>
    ensures { OnOk result (text.new.items ≡ text.old.items
        ++ flat_map spaced (window_words window)) }
{
    match window {
        Some((lo, hi)) => {
            write_number(text, lo)?;
            write_number(text, hi)
        }
        None => {
            write_word(text, b"-")?;
            write_word(text, b"-")
        }
    }
}

/// Adds the lines of the tracks, numbered from 1.
fn write_tracks(text: &mut Vec<u8>, tracks: &[Track]) -> Result<(), NoMemory>
    ensures { OnOk result (text.new.items ≡ text.old.items
        ++ flat_map track_text (enumerate_from 1 tracks.now)) }
{
    for (place, track) in tracks.iter().enumerate() {
        write_track(text, place + 1, track)?;
    }
    Ok(())
}

/// Adds the lines of the track of a number.
fn write_track(text: &mut Vec<u8>, number: usize, track: &Track) -> Result<(), NoMemory>
    ensures { OnOk result (text.new.items ≡ text.old.items ++ track_text (number, track.now)) }
{
    write_counts(text, number, track)?;
    write_quad(text, b"ra", &track.ra)?;
    write_quad(text, b"dec", &track.dec)?;
    write_line(text, b"ids", &track.ids)?;
    Ok(())
}

/// Adds the line of a track's number and of how many nights and ids it has.
fn write_counts(text: &mut Vec<u8>, number: usize, track: &Track) -> Result<(), NoMemory>
    ensures { OnOk result (text.new.items ≡ text.old.items ++ counts_line number track.now) }
{
    text.extend_from_slice(b"track")?;
    write_number(text, number)?;
    write_number(text, track.nights)?;
    write_number(text, track.ids.items().len())?;
    text.push(b'\n')?;
    Ok(())
}

/// Adds the line of a quadratic behind the name of its axis.
fn write_quad(text: &mut Vec<u8>, axis: &[u8], quad: &Quad) -> Result<(), NoMemory>
    ensures { OnOk result (text.new.items ≡ text.old.items ++ quad_line axis.now quad.now) }
{
    text.extend_from_slice(axis)?;
    write_number(text, quad.base)?;
    write_number(text, quad.start)?;
    write_number(text, quad.den)?;
    write_number(text, quad.p)?;
    write_number(text, quad.v)?;
    write_number(text, quad.q)?;
    text.push(b'\n')?;
    Ok(())
}
