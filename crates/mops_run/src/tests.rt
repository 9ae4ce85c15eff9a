//! Whole runs of the program: rows of lines in and replies out, and the runners that compare them.
use crate::laws::{ended_lines_are_unique, replies_are_unique, replies_exist};
use crate::top::{Status, run};
use outer_io::{EndlessSource, MemSink, MemSource, Sink, Source, SureSink, SureSource};
use sky_units::{Tally, Word};
use std::alloc::Global;
use std::process::Abort;
use std::test::Fail;

pub(crate) const WINDOW: &str = "!window 59000 59015\n";

pub(crate) const WINDOW_SET: &str = "window 59000 59015\n";

// Two detections of one object in each of three nights.
pub(crate) const A1: &str = "a1 59000.250000 10.000000 5.000000 20.0 568 obj1\n";

pub(crate) const A2: &str = "a2 59000.270000 10.002000 5.000000 20.0 568 obj1\n";

pub(crate) const B1: &str = "b1 59001.250000 10.100000 5.000000 20.0 568 obj1\n";

pub(crate) const B2: &str = "b2 59001.270000 10.102000 5.000000 20.0 568 obj1\n";

pub(crate) const C1: &str = "c1 59002.250000 10.200000 5.000000 20.0 568 obj1\n";

pub(crate) const C2: &str = "c2 59002.270000 10.202000 5.000000 20.0 568 obj1\n";

pub(crate) const SIX_ACCEPTED: &str = "exposure 59000250000 568 accepted 1\n\
exposure 59000270000 568 accepted 1\n\
exposure 59001250000 568 accepted 1\n\
exposure 59001270000 568 accepted 1\n\
exposure 59002250000 568 accepted 1\n\
exposure 59002270000 568 accepted 1\n";

pub(crate) const ONE_TRACK: &str = "report 59000 59015 1\n\
track 1 3 6\n\
ra 10000000 59001260000 10100 1020100000 1007 0\n\
dec 5000000 59001260000 10100 0 -3 0\n\
ids a1 a2 b1 b2 c1 c2\n";

// The same three nights, but the right ascension passes zero.
const TRACK_ACROSS_ZERO: &str = "report 59000 59015 1\n\
track 1 3 6\n\
ra 359990000 59001260000 10100 1020100000 1007 0\n\
dec 5000000 59001260000 10100 0 -3 0\n\
ids a1 a2 b1 b2 c1 c2\n";

// The second night lies as far beside a straight line as it may.
const STRAIGHT_TRACK: &str = "report 59000 59015 1\n\
track 1 3 6\n\
ra 10000000 59001260000 10 1013000 1 0\n\
dec 5000000 59001260000 10100 0 -3 0\n\
ids a1 a2 b1 b2 c1 c2\n";

// The same with the axes exchanged.
const STRAIGHT_TRACK_IN_DECLINATION: &str = "report 59000 59015 1\n\
track 1 3 6\n\
ra 10000000 59001260000 10100 0 -3 0\n\
dec 5000000 59001260000 10 1013000 1 0\n\
ids a1 a2 b1 b2 c1 c2\n";

const NO_TRACK: &str = "report 59000 59015 0\n";

/// A script by its name, how its run ends, and the replies; each text in parts.
pub(crate) type Row<'a> = (&'a str, &'a [&'a str], Status, &'a [&'a str]);

/// Watches the script of each row, and compares.
pub(crate) fn expect_rows(rt: &(impl Abort + AllocGlobal), rows: &[Row<'_>]) -> Result<(), Fail> {
    for (name, script, status, replies) in rows {
        expect_watch(rt, name, script, *status, replies)?;
    }
    Ok(())
}

/// Watches a script in pieces of several sizes, and compares.
pub(crate) fn expect_watch(
    rt: &(impl Abort + AllocGlobal),
    name: &str,
    script: &[&str],
    status: Status,
    replies: &[&str],
) -> Result<(), Fail> {
    for piece in [1_usize, 3, 16, 4096] {
        expect_in_pieces(rt, name, piece, script, status, replies)?;
    }
    Ok(())
}

/// Watches a script in pieces of so many bytes, and compares. All that is written is flushed.
pub(crate) fn expect_in_pieces(
    rt: &(impl Abort + AllocGlobal),
    name: &str,
    piece: usize,
    script: &[&str],
    status: Status,
    replies: &[&str],
) -> Result<(), Fail> {
    assert!(rt; 0 < piece);
    let alloc = rt.alloc();
    let replies = joined(alloc, replies)?;
    let mut source = MemSource::new(joined(alloc, script)?, piece, Vec::new(alloc));
    let mut sink = MemSink::new(alloc, replies.len(), piece, Vec::new(alloc))?;
    let ended = run_on(alloc, &["watch"], &mut source, &mut sink)?;
    assert_eq!(rt; sink.bytes(), replies.as_slice(), "{name}");
    assert_eq!(rt; sink.flushed(), replies.len(), "{name}");
    assert_eq!(rt; ended, status, "{name}");
    Ok(())
}

/// The bytes of some texts, one after another.
pub(crate) fn joined(alloc: Global, parts: &[&str]) -> Result<Vec<u8>, Fail> {
    let mut bytes = Vec::new(alloc);
    for part in parts {
        bytes.extend_from_slice(part.as_bytes())?;
    }
    Ok(bytes)
}

/// How a run on some words ends.
pub(crate) fn run_on<I: Source, O: Sink>(
    alloc: Global,
    list: &[&str],
    source: &mut I,
    sink: &mut O,
) -> Result<Status, Fail> {
    let mut words = Vec::new(alloc);
    for word in list {
        words.push(Word::new(alloc, word.as_bytes())?)?;
    }
    let mut tally = Tally::zero();
    Ok(run(alloc, words.as_slice(), source, sink, &mut tally))
}

/// The lines of two detections in each of three nights, at these six positions: each a right
/// ascension and a declination.
pub(crate) fn six_lines_at(alloc: Global, positions: [&str; 6]) -> Result<String, Fail> {
    let [a1, a2, b1, b2, c1, c2] = positions;
    let mut text = String::new(alloc);
    for (id, epoch, position) in [
        ("a1", "59000.250000", a1),
        ("a2", "59000.270000", a2),
        ("b1", "59001.250000", b1),
        ("b2", "59001.270000", b2),
        ("c1", "59002.250000", c1),
        ("c2", "59002.270000", c2),
    ] {
        let line = format!(in alloc; "{id} {epoch} {position} 20.0 568 obj1\n")?;
        text.push_str(line.as_str())?;
    }
    Ok(text)
}

/// Watches six detections at these positions under some settings, each a name and a value, and
/// compares the report.
pub(crate) fn expect_report(
    rt: &(impl Abort + AllocGlobal),
    name: &str,
    settings: &[&str],
    positions: [&str; 6],
    report: &str,
) -> Result<(), Fail> {
    let alloc = rt.alloc();
    let mut set = String::new(alloc);
    let mut said = String::new(alloc);
    for setting in settings {
        set.push_str(format!(in alloc; "!set {setting}\n")?.as_str())?;
        said.push_str(format!(in alloc; "set {setting}\n")?.as_str())?;
    }
    let lines = six_lines_at(alloc, positions)?;
    expect_watch(
        rt,
        name,
        &[set.as_str(), WINDOW, lines.as_str(), "!report\n"],
        Status::Done,
        &[said.as_str(), WINDOW_SET, SIX_ACCEPTED, report],
    )
}

#[test]
fn reports_of_six_detections(rt: HostRuntime) -> Result<(), Fail> {
    let rows: [Row<'_>; 5] = [
        ("empty_input", &[], Status::Done, &[]),
        (
            "three_nights",
            &[WINDOW, A1, A2, B1, B2, C1, C2, "!report\n"],
            Status::Done,
            &[WINDOW_SET, SIX_ACCEPTED, ONE_TRACK],
        ),
        (
            "two_nights_are_no_track",
            &[WINDOW, A1, A2, B1, B2, "!report\n"],
            Status::Done,
            &[
                WINDOW_SET,
                "exposure 59000250000 568 accepted 1\n\
exposure 59000270000 568 accepted 1\n\
exposure 59001250000 568 accepted 1\n\
exposure 59001270000 568 accepted 1\n",
                NO_TRACK,
            ],
        ),
        (
            "reverse_order",
            &[
                WINDOW,
                C2,
                "!stats\n",
                C1,
                "!stats\n",
                B2,
                "!stats\n",
                B1,
                "!stats\n",
                A2,
                "!stats\n",
                A1,
                "!stats\n",
                "!report\n",
            ],
            Status::Done,
            &[
                WINDOW_SET,
                "exposure 59002270000 568 accepted 1\nstats 1 1 0 0\n",
                "exposure 59002250000 568 accepted 1\nstats 2 2 1 0\n",
                "exposure 59001270000 568 accepted 1\nstats 3 3 1 0\n",
                "exposure 59001250000 568 accepted 1\nstats 4 4 2 0\n",
                "exposure 59000270000 568 accepted 1\nstats 5 5 2 0\n",
                "exposure 59000250000 568 accepted 1\nstats 6 6 3 1\n",
                ONE_TRACK,
            ],
        ),
        (
            "window_move_keeps_the_rest",
            &[
                WINDOW,
                A1,
                A2,
                B1,
                B2,
                C1,
                C2,
                "d1 59003.250000 10.300000 5.000000 20.0 568 obj1\n",
                "d2 59003.270000 10.302000 5.000000 20.0 568 obj1\n",
                "!report\n!window 59001 59016\n!report\n",
            ],
            Status::Done,
            &[
                WINDOW_SET,
                SIX_ACCEPTED,
                "exposure 59003250000 568 accepted 1\n",
                "exposure 59003270000 568 accepted 1\n",
                "report 59000 59015 1\n\
track 1 4 8\n\
ra 10000000 59001760000 15100 2280100000 1507 0\n\
dec 5000000 59001760000 15100 0 -3 0\n\
ids a1 a2 b1 b2 c1 c2 d1 d2\n",
                "window 59001 59016\n",
                "report 59001 59016 1\n\
track 1 3 6\n\
ra 10100000 59002260000 10100 1020100000 1007 0\n\
dec 5000000 59002260000 10100 0 -3 0\n\
ids b1 b2 c1 c2 d1 d2\n",
            ],
        ),
    ];
    expect_rows(&rt, &rows)
}

#[test]
fn deliveries(rt: HostRuntime) -> Result<(), Fail> {
    let rows: [Row<'_>; 6] = [
        (
            "a refused line has its reply at once; exposures come in order of epoch and site",
            &[
                "!window 59000 59000\n\
b 59000.25 10 5 20 F51 o\n\
c 59000.27 10 5 20 568 o\n\
\n \t \n# a comment\n\
x 59000.25 10 5 20\n\
\u{80}\n\
a 59000.25 11 5 20 F51 o\n\
d 59000.25 12 5 20 568 o\n\
!stats\n",
            ],
            Status::DoneWithRefusals,
            &[
                "window 59000 59000\n\
line 7 refused fields\n\
line 8 refused byte\n\
exposure 59000250000 568 accepted 1\n\
exposure 59000250000 F51 accepted 2\n\
exposure 59000270000 568 accepted 1\n\
stats 3 4 1 0\n",
            ],
        ),
        (
            "a malformed command ends a delivery too, so the second b comes too late",
            &[
                "!window 59000 59000\n\
a 59000.25 10 5 20 568 o\n\
!foo\n\
b 59000.25 11 5 20 568 o\n\
!report now\n",
            ],
            Status::DoneWithRefusals,
            &[
                "window 59000 59000\n\
exposure 59000250000 568 accepted 1\n\
line 3 refused command\n\
exposure 59000250000 568 refused held\n\
line 5 refused words\n",
            ],
        ),
        (
            "what waits at the end is delivered",
            &[WINDOW, C2, B1, A2, A1, C1, B2],
            Status::Done,
            &[WINDOW_SET, SIX_ACCEPTED],
        ),
        (
            "and is refused without a window",
            &["a 59001.25 10 5 20 568 o\n# the end\n"],
            Status::DoneWithRefusals,
            &["exposure 59001250000 568 refused nowindow\n"],
        ),
        (
            "a last line that no line feed ends",
            &[WINDOW, "a1 59000.25 10 5 20 568 obj1"],
            Status::Done,
            &[WINDOW_SET, "exposure 59000250000 568 accepted 1\n"],
        ),
        (
            "nights_begin_before_zero_hours",
            &[
                "!set night_shift 250000\n\
!window 59001 59001\n\
a 59000.749999 10 5 20 568 o\n\
b 59000.80 10 5 20 568 o\n\
c 59000.82 10.002 5 20 568 o\n\
d 59000.99 10.019 6 20 568 o\n\
e 59001.02 10.022 6 20 568 o\n\
f 59001.75 10.095 6 20 568 o\n",
                "!tracklets 59001\n!tracklets 59000\n",
            ],
            Status::DoneWithRefusals,
            &[
                "set night_shift 250000\n\
window 59001 59001\n\
exposure 59000749999 568 refused old\n\
exposure 59000800000 568 accepted 1\n\
exposure 59000820000 568 accepted 1\n\
exposure 59000990000 568 accepted 1\n\
exposure 59001020000 568 accepted 1\n\
exposure 59001750000 568 refused new\n",
                "tracklets 59001 2\ntracklet b c\ntracklet d e\n",
                "tracklets 59000 0\n",
            ],
        ),
    ];
    expect_rows(&rt, &rows)
}

#[test]
fn ends_of_lines(rt: HostRuntime) -> Result<(), Fail> {
    let rows: [Row<'_>; 6] = [
        (
            "nothing said",
            &["\n \t\r\n# a \u{1} comment\n#"],
            Status::Done,
            &[],
        ),
        (
            "no line feed",
            &["!window 3 5"],
            Status::Done,
            &["window 3 5\n"],
        ),
        ("no window", &["!report"], Status::Done, &["report - - 0\n"]),
        (
            "a carriage return before a line feed is dropped",
            &["!window -1 14\r\n"],
            Status::Done,
            &["window -1 14\n"],
        ),
        (
            "and only there",
            &["!report\r"],
            Status::DoneWithRefusals,
            &["line 1 refused byte\n"],
        ),
        (
            "alone",
            &["\r"],
            Status::DoneWithRefusals,
            &["line 1 refused byte\n"],
        ),
    ];
    expect_rows(&rt, &rows)
}

#[test]
fn tracks_by_position(rt: HostRuntime) -> Result<(), Fail> {
    let across = [
        "359.99 5",
        "359.992 5",
        "0.09 5",
        "0.092 5",
        "0.19 5",
        "0.192 5",
    ];
    expect_report(&rt, "across_ra_zero", &[], across, TRACK_ACROSS_ZERO)?;
    // Straight lines must pass within 300 of three points whose middle lies this far beside them.
    for (name, b1, b2, report) in [
        (
            "straight_lines_at_the_tolerance",
            "10.1006 5",
            "10.1026 5",
            STRAIGHT_TRACK,
        ),
        (
            "straight lines beside it",
            "10.100601 5",
            "10.102601 5",
            NO_TRACK,
        ),
    ] {
        let positions = ["10 5", "10.002 5", b1, b2, "10.2 5", "10.202 5"];
        expect_report(&rt, name, &["acc_ra 0"], positions, report)?;
    }
    for (name, b1, b2, report) in [
        (
            "declination at the tolerance",
            "10 5.1006",
            "10 5.1026",
            STRAIGHT_TRACK_IN_DECLINATION,
        ),
        (
            "declination beside it",
            "10 5.100601",
            "10 5.102601",
            NO_TRACK,
        ),
    ] {
        let positions = ["10 5", "10 5.002", b1, b2, "10 5.2", "10 5.202"];
        expect_report(&rt, name, &["acc_dec 0"], positions, report)?;
    }
    Ok(())
}

#[test]
fn declination_decides_a_pair(rt: HostRuntime) -> Result<(), Fail> {
    // At half a degree a day, a fiftieth of a day lets through a hundredth of a degree.
    for (declination, tracklets) in [
        ("5.010000", "tracklets 59000 1\ntracklet a b\n"),
        ("5.010001", "tracklets 59000 0\n"),
        ("4.990000", "tracklets 59000 1\ntracklet a b\n"),
        ("4.989999", "tracklets 59000 0\n"),
    ] {
        expect_watch(
            &rt,
            declination,
            &[
                "!window 59000 59000\na 59000.25 10 5 20 568 o\nb 59000.27 10 ",
                declination,
                " 20 568 o\n!tracklets 59000\n",
            ],
            Status::Done,
            &[
                "window 59000 59000\n",
                "exposure 59000250000 568 accepted 1\nexposure 59000270000 568 accepted 1\n",
                tracklets,
            ],
        )?;
    }
    Ok(())
}

/// Watches these lines under a window, with `between` behind each of them, and then a report. The
/// replies must end with that of `ONE_TRACK`.
fn expect_one_track(
    rt: &(impl Abort + AllocGlobal),
    lines: [&str; 6],
    between: &str,
) -> Result<(), Fail> {
    let alloc = rt.alloc();
    let mut script = joined(alloc, &[WINDOW])?;
    for line in lines {
        script.extend_from_slice(line.as_bytes())?;
        script.extend_from_slice(between.as_bytes())?;
    }
    script.extend_from_slice(b"!report\n")?;
    let mut source = SureSource::new(script);
    let mut sink = MemSink::new(alloc, 4096, 4096, Vec::new(alloc))?;
    let status = run_on(alloc, &["watch"], &mut source, &mut sink)?;
    assert_eq!(rt; status, Status::Done);
    assert!(rt; sink.bytes().ends_with(ONE_TRACK.as_bytes()));
    Ok(())
}

#[test]
fn every_order_gives_the_same_report(rt: HostRuntime) -> Result<(), Fail> {
    for order in [
        [A1, A2, B1, B2, C1, C2],
        [C2, C1, B2, B1, A2, A1],
        [B1, A1, C1, A2, C2, B2],
        [A2, C2, A1, B1, B2, C1],
        [C1, B1, A1, C2, A2, B2],
        [B2, C1, A2, B1, A1, C2],
    ] {
        // One delivery; and one of each exposure.
        expect_one_track(&rt, order, "")?;
        expect_one_track(&rt, order, "!stats\n")?;
    }
    Ok(())
}

/// Six objects, a degree apart, with two detections in each of three nights; and their report.
fn six_objects(alloc: Global) -> Result<(Vec<u8>, Vec<u8>), Fail> {
    let mut lines = Vec::from_slice(alloc, WINDOW.as_bytes())?;
    let mut report = Vec::from_slice(alloc, b"report 59000 59015 6\n")?;
    for object in 0..6_u32 {
        let head = format!(in alloc;
            "track {} 3 6\n\
ra 1{object}000000 59001260000 10100 1020100000 1007 0\n\
dec 5000000 59001260000 10100 0 -3 0\n\
ids",
            object + 1
        )?;
        report.extend_from_slice(head.as_bytes())?;
        for night in 0..3_u32 {
            for (exposure, epoch, place) in [(0_u32, "25", "0"), (1, "27", "2")] {
                let id = format!(in alloc; "o{object}n{night}e{exposure}")?;
                let line = format!(in alloc;
                    "{id} 5900{night}.{epoch} 1{object}.{night}0{place} 5 20 50{object} obj{object}\n"
                )?;
                lines.extend_from_slice(line.as_bytes())?;
                report.push(b' ')?;
                report.extend_from_slice(id.as_bytes())?;
            }
        }
        report.push(b'\n')?;
    }
    lines.extend_from_slice(b"!report\n")?;
    Ok((lines, report))
}

#[test]
fn twelve_detections_in_each_of_three_nights(rt: HostRuntime) -> Result<(), Fail> {
    let (script, report) = six_objects(rt.alloc())?;
    let mut source = SureSource::new(script);
    let mut sink = MemSink::new(rt.alloc(), 4096, 4096, Vec::new(rt.alloc()))?;
    let status = run_on(rt.alloc(), &["watch"], &mut source, &mut sink)?;
    assert_eq!(rt; status, Status::Done);
    assert!(rt; sink.bytes().ends_with(report.as_slice()));
    Ok(())
}

#[test]
fn long_lines(rt: HostRuntime) -> Result<(), Fail> {
    let alloc = rt.alloc();
    // A comment may have any length; another line, at most 1,024 bytes.
    let comment = String::from_utf8(vec![in alloc; b'#'; 3_000_000]?)?;
    let spaces = String::from_utf8(vec![in alloc; b' '; 1024]?)?;
    let letters = String::from_utf8(vec![in alloc; b'x'; 1024]?)?;
    let many = String::from_utf8(vec![in alloc; b'x'; 3_000_000]?)?;
    let [comment, spaces, letters] = [comment.as_str(), spaces.as_str(), letters.as_str()];
    let script = [
        comment,
        "\n",
        spaces,
        "\n ",
        spaces,
        "\n",
        letters,
        "\r\n",
        letters,
        "\rx\n!",
        letters,
        "\n",
        many.as_str(),
    ];
    expect_in_pieces(
        &rt,
        "long_lines",
        4096,
        &script,
        Status::DoneWithRefusals,
        &[
            "line 3 refused long\n",
            "line 4 refused fields\n",
            "line 5 refused long\n",
            "line 6 refused long\n",
            "line 7 refused long\n",
        ],
    )
}

#[test]
fn limit_of_a_night(rt: HostRuntime) -> Result<(), Fail> {
    let alloc = rt.alloc();
    let mut lines = String::new(alloc);
    let mut replies = String::new(alloc);
    for number in 0..4_097_u32 {
        let line = format!(in alloc; "d{number} 59000.25 10 5 20 {number:04} NS\n")?;
        lines.push_str(line.as_str())?;
        let answer = if number < 4_096 {
            "accepted 1"
        } else {
            "refused nightfull"
        };
        let reply = format!(in alloc; "exposure 59000250000 {number:04} {answer}\n")?;
        replies.push_str(reply.as_str())?;
    }
    expect_in_pieces(
        &rt,
        "limit_of_a_night",
        4096,
        &[WINDOW, lines.as_str()],
        Status::DoneWithRefusals,
        &[WINDOW_SET, replies.as_str()],
    )
}

/// Watches one delivery of so many detections of one exposure, and a last line, and compares the
/// replies to them.
fn expect_of_exposure(
    rt: &(impl Abort + AllocGlobal),
    count: u32,
    last: &str,
    status: Status,
    replies: &str,
) -> Result<(), Fail> {
    let alloc = rt.alloc();
    let mut script = joined(alloc, &[WINDOW])?;
    for number in 0..count {
        let line = format!(in alloc; "d{number} 59000.25 10 5 20 568 NS\n")?;
        script.extend_from_slice(line.as_bytes())?;
    }
    script.extend_from_slice(last.as_bytes())?;
    let mut source = SureSource::new(script);
    let mut sink = MemSink::new(alloc, 4096, 4096, Vec::new(alloc))?;
    let ended = run_on(alloc, &["watch"], &mut source, &mut sink)?;
    assert_eq!(rt; ended, status);
    assert_eq!(rt;
        sink.bytes(),
        joined(alloc, &[WINDOW_SET, replies])?.as_slice()
    );
    Ok(())
}

#[test]
fn limits_of_the_log(rt: HostRuntime) -> Result<(), Fail> {
    let full = "exposure 59000250000 568 refused full\n";
    expect_of_exposure(&rt, 1_048_577, "", Status::DoneWithRefusals, full)?;
    let accepted = "exposure 59000250000 568 accepted 1048576\ntracklets 59000 0\n";
    let last = "!tracklets 59000\n";
    expect_of_exposure(&rt, 1_048_576, last, Status::Done, accepted)
}

/// Each read fails in turn, at pieces of several sizes. What was written then are the replies to the
/// whole lines before, and all of it is flushed.
#[test]
fn reads_that_fail(rt: HostRuntime) -> Result<(), Fail> {
    let alloc = rt.alloc();
    let script = [WINDOW, A1, A2, B1, B2, C1, C2, "!report\n"];
    let input = joined(alloc, &script)?;
    let whole = joined(alloc, &[WINDOW_SET, SIX_ACCEPTED, ONE_TRACK])?;
    for (piece, reads) in [(1_usize, 360_u64), (16, 30), (4096, 4)] {
        for failing in 0..reads {
            let mut source = MemSource::new(
                joined(alloc, &script)?,
                piece,
                vec![in alloc; failing]?,
            );
            let mut sink = MemSink::new(alloc, 4096, 8, Vec::new(alloc))?;
            let status = run_on(alloc, &["watch"], &mut source, &mut sink)?;
            // The input comes in so many pieces, and its end in one more call.
            let pieces = input.len().div_ceil(piece) as u64;
            let want = if failing <= pieces {
                Status::ReadFault
            } else {
                Status::Done
            };
            assert_eq!(rt; status, want, "{failing}");
            // The detections wait for the last line.
            let taken = piece.saturating_mul(failing as usize);
            let text = if taken < WINDOW.len() {
                b"".as_slice()
            } else if taken < input.len() {
                WINDOW_SET.as_bytes()
            } else {
                whole.as_slice()
            };
            assert_eq!(rt; sink.bytes(), text, "{failing}");
            assert_eq!(rt; sink.flushed(), text.len(), "{failing}");
        }
    }
    Ok(())
}

/// Each write and flush fails in turn, at pieces of one byte and of eight, and the room ends at each
/// byte. What was written then is a front of all replies.
#[test]
fn writes_that_fail_and_room_that_ends(rt: HostRuntime) -> Result<(), Fail> {
    let alloc = rt.alloc();
    let script = [WINDOW, A1, A2, B1, B2, C1, C2, "!report\n"];
    let whole = joined(alloc, &[WINDOW_SET, SIX_ACCEPTED, ONE_TRACK])?;
    for (piece, calls) in [(1_usize, 480_u64), (8, 80)] {
        for failing in 0..calls {
            let mut source = SureSource::new(joined(alloc, &script)?);
            let mut sink = MemSink::new(alloc, 4096, piece, vec![in alloc; failing]?)?;
            let status = run_on(alloc, &["watch"], &mut source, &mut sink)?;
            assert!(rt; whole.as_slice().starts_with(sink.bytes()), "{failing}");
            if status != Status::WriteFault {
                assert_eq!(rt; status, Status::Done, "{failing}");
                assert_eq!(rt; sink.flushed(), whole.len(), "{failing}");
            }
        }
    }
    // The first reply is written in three calls, and flushed in a fourth.
    for (failing, written) in [(0, 0), (1, 8), (2, 16), (3, 19), (4, 19), (5, 27)] {
        let mut source = SureSource::new(joined(alloc, &script)?);
        let mut sink = MemSink::new(alloc, 4096, 8, vec![in alloc; failing]?)?;
        let status = run_on(alloc, &["watch"], &mut source, &mut sink)?;
        assert_eq!(rt; status, Status::WriteFault, "{failing}");
        assert_eq!(rt; sink.bytes().len(), written, "{failing}");
    }
    for room in 0..whole.len() {
        let mut source = SureSource::new(joined(alloc, &script)?);
        let mut sink = MemSink::new(alloc, room, 8, Vec::new(alloc))?;
        let status = run_on(alloc, &["watch"], &mut source, &mut sink)?;
        assert_eq!(rt; status, Status::WriteFault, "{room}");
        assert_eq!(rt; sink.bytes().len(), room);
        assert!(rt; whole.as_slice().starts_with(sink.bytes()), "{room}");
    }
    Ok(())
}

#[test]
fn endless_input(rt: HostRuntime) -> Result<(), Fail> {
    let alloc = rt.alloc();
    let mut source = EndlessSource::new(b'#');
    let mut sink = MemSink::new(alloc, 16, 16, Vec::new(alloc))?;
    let status = run_on(alloc, &["watch"], &mut source, &mut sink)?;
    assert_eq!(rt; status, Status::InputTooLong);
    assert!(rt; sink.bytes().is_empty());
    Ok(())
}

#[test]
fn usage(rt: HostRuntime) -> Result<(), Fail> {
    replies_are_unique();
    replies_exist();
    ended_lines_are_unique();
    let alloc = rt.alloc();
    let lists: [&[&str]; 20] = [
        &[],
        &[""],
        &["watch", "now"],
        &["watch", ""],
        &["watching"],
        &["Link"],
        &["link", "1", "3", "1"],
        &["--help"],
        &["generate"],
        &["generate", "1", "31", "1"],
        &["generate", "1", "0", "1"],
        &["generate", "1", "3", "0"],
        &["generate", "1", "3", "1001"],
        &["generate", "4294967296", "3", "1"],
        &["generate", "00000000001", "3", "1"],
        &["generate", "-1", "3", "1"],
        &["summary", "+1", "3", "1"],
        &["summary", "1", " 3", "1"],
        &["summary", "1", "3", ""],
        &["summary", "1", "3"],
    ];
    for words in lists {
        let mut source = SureSource::new(joined(alloc, &[WINDOW])?);
        let mut sink = MemSink::new(alloc, 4096, 4096, Vec::new(alloc))?;
        let status = run_on(alloc, words, &mut source, &mut sink)?;
        assert_eq!(rt; status, Status::Usage);
        assert!(rt; sink.bytes().is_empty());
    }
    // A sink that tells nothing is written to all the same.
    let mut source = SureSource::new(joined(alloc, &[WINDOW])?);
    let status = run_on(alloc, &["watch"], &mut source, &mut SureSink::new())?;
    assert_eq!(rt; status, Status::Done);
    Ok(())
}
