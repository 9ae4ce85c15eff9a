//! The text of each reply.
use super::*;
use exposure_log::{AddError, WindowError};
use miti_text::LineError;
use script_text::ScriptError;
use sky_units::{Groups, NoMemory, Quad, Report, SetError, Stats, Track, Tracks, Word, Words};
use std::alloc::Global;

/// The epoch of the exposures.
const EPOCH: i64 = 59_001_250_000;

/// The words of a text, one behind each blank.
fn words(alloc: Global, text: &str) -> Result<Words, NoMemory> {
    let mut list = Words::new(alloc);
    for word in text.split_whitespace() {
        list.push(Word::new(alloc, word.as_bytes())?)?;
    }
    Ok(list)
}

/// A report of one track, of three nights with two detections each.
fn three_nights(alloc: Global) -> Result<Report, NoMemory> {
    let ra = Quad {
        base: 10_000_000,
        start: 59_001_260_000,
        den: 1,
        p: 102,
        v: 101,
        q: 0,
    };
    let dec = Quad {
        base: 5_000_000,
        start: 59_001_260_000,
        den: 1,
        p: 0,
        v: 0,
        q: 3,
    };
    let ids = words(alloc, "a1 a2 b1 b2 c1 c2")?;
    let mut tracks = Tracks::new(alloc);
    tracks.push(Track {
        nights: 3,
        ids,
        ra,
        dec,
    })?;
    Ok(Report {
        window: Some((59_000, 59_015)),
        tracks,
    })
}

/// Whether this text is what the reply adds to an empty one.
fn reads(alloc: Global, reply: Reply, text: &str) -> Result<bool, NoMemory> {
    let mut added = Vec::new(alloc);
    append_reply(&mut added, &reply)?;
    Ok(added.as_slice() == text.as_bytes())
}

#[test]
fn refused_lines_and_commands(rt: HostRuntime) -> Result<(), NoMemory> {
    let lines = [
        (LineError::Fields, "line 7 refused fields\n"),
        (LineError::Id, "line 7 refused id\n"),
        (LineError::Epoch, "line 7 refused epoch\n"),
        (LineError::Ra, "line 7 refused ra\n"),
        (LineError::Dec, "line 7 refused dec\n"),
        (LineError::Mag, "line 7 refused mag\n"),
        (LineError::Site, "line 7 refused site\n"),
        (LineError::Name, "line 7 refused name\n"),
        (LineError::Long, "line 7 refused long\n"),
        (LineError::Byte, "line 7 refused byte\n"),
    ];
    for (error, text) in lines {
        let right = reads(rt.alloc(), Reply::Line(7, error), text)?;
        assert!(rt; right, "{text}");
    }
    let commands = [
        (ScriptError::Command, "line 12 refused command\n"),
        (ScriptError::Words, "line 12 refused words\n"),
        (ScriptError::Number, "line 12 refused number\n"),
    ];
    for (error, text) in commands {
        let right = reads(rt.alloc(), Reply::Script(12, error), text)?;
        assert!(rt; right, "{text}");
    }
    Ok(())
}

#[test]
fn refused_exposures(rt: HostRuntime) -> Result<(), NoMemory> {
    let causes = [
        (
            AddError::NoWindow,
            "",
            "exposure 59001250000 568 refused nowindow\n",
        ),
        (AddError::Old, "", "exposure 59001250000 568 refused old\n"),
        (AddError::New, "", "exposure 59001250000 568 refused new\n"),
        (
            AddError::Held,
            "",
            "exposure 59001250000 568 refused held\n",
        ),
        (
            AddError::Id(0),
            "a",
            "exposure 59001250000 568 refused id a\n",
        ),
        (
            AddError::NightFull,
            "",
            "exposure 59001250000 568 refused nightfull\n",
        ),
        (
            AddError::Full,
            "",
            "exposure 59001250000 568 refused full\n",
        ),
    ];
    for (error, id, text) in causes {
        let site = Word::new(rt.alloc(), b"568")?;
        let id = Word::new(rt.alloc(), id.as_bytes())?;
        let right = reads(rt.alloc(), Reply::Refused(EPOCH, site, error, id), text)?;
        assert!(rt; right, "{text}");
    }
    Ok(())
}

#[test]
fn settings_windows_and_counts(rt: HostRuntime) -> Result<(), NoMemory> {
    let site = Word::new(rt.alloc(), b"568")?;
    let name = Word::new(rt.alloc(), b"tol_ra")?;
    let stats = Stats {
        exposures: 6,
        detections: 6,
        tracklets: 3,
        tracks: 1,
    };
    let table = [
        (
            Reply::Added(EPOCH, site, 2),
            "exposure 59001250000 568 accepted 2\n",
        ),
        (Reply::Set(name, 0), "set tol_ra 0\n"),
        (Reply::SetRefused(SetError::Name), "set refused name\n"),
        (Reply::SetRefused(SetError::Range), "set refused range\n"),
        (Reply::SetRefused(SetError::Late), "set refused late\n"),
        (Reply::Window(-1, 14), "window -1 14\n"),
        (
            Reply::WindowRefused(WindowError::Order),
            "window refused order\n",
        ),
        (
            Reply::WindowRefused(WindowError::Wide),
            "window refused wide\n",
        ),
        (
            Reply::WindowRefused(WindowError::Back),
            "window refused back\n",
        ),
        (Reply::Stats(stats), "stats 6 6 3 1\n"),
        (
            Reply::Summary(4_294_967_295, 3, 1, stats),
            "summary 4294967295 3 1\nstats 6 6 3 1\n",
        ),
    ];
    for (reply, text) in table {
        let right = reads(rt.alloc(), reply, text)?;
        assert!(rt; right, "{text}");
    }
    Ok(())
}

#[test]
fn tracklets_and_reports(rt: HostRuntime) -> Result<(), NoMemory> {
    let mut tracklets = Groups::new(rt.alloc());
    tracklets.push(words(rt.alloc(), "a1 a2")?)?;
    tracklets.push(words(rt.alloc(), "b1 b2 b3")?)?;
    let listed = "tracklets 59000 2\ntracklet a1 a2\ntracklet b1 b2 b3\n";
    assert!(rt; reads(rt.alloc(), Reply::Tracklets(59_000, tracklets), listed)?);
    let text = b"report 59000 59015 1\ntrack 1 3 6\n\
        ra 10000000 59001260000 1 102 101 0\n\
        dec 5000000 59001260000 1 0 0 3\nids a1 a2 b1 b2 c1 c2\n"
        .as_slice();
    let report = three_nights(rt.alloc())?;
    assert_eq!(rt; write_report(rt.alloc(), &report)?.as_slice(), text);
    let reply = Reply::Report(report);
    assert_eq!(rt; write_reply(rt.alloc(), &reply)?.as_slice(), text);
    let empty = Report {
        window: None,
        tracks: Tracks::new(rt.alloc()),
    };
    assert!(rt; reads(rt.alloc(), Reply::Report(empty), "report - - 0\n")?);
    Ok(())
}

#[test]
fn refusals(rt: HostRuntime) {
    assert!(rt; Reply::Line(1, LineError::Byte).is_refusal());
    assert!(rt; Reply::WindowRefused(WindowError::Back).is_refusal());
    assert!(rt; !Reply::Window(0, 15).is_refusal());
}
