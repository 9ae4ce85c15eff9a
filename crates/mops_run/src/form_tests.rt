//! Whole runs of the program on detections alone, and on made skies.
use crate::tests::{A1, A2, B1, B2, C1, C2, SIX_ACCEPTED, WINDOW, joined, run_on};
use crate::top::Status;
use miti_text::read_number;
use outer_io::{MemSink, MemSource, SureSource};
use std::alloc::Global;
use std::process::Abort;
use std::test::Fail;

/// What `link` answers to two detections of one object in each of three nights, behind the window.
const LINKED: &str = "report 59000 59029 1\n\
track 1 3 6\n\
ra 10000000 59001260000 10100 1020100000 1007 0\n\
dec 5000000 59001260000 10100 0 -3 0\n\
ids a1 a2 b1 b2 c1 c2\n";

const LINK_WINDOW: &str = "window 59000 59029\n";

const ONE_OBJECT: &str = "g0n0e0 59000.250000 0.138700 -3.242587 20.000 500 obj0\n\
g0n0e1 59000.270000 0.136404 -3.242451 20.000 500 obj0\n";

const SUMMARY: &str = "summary 1 3 1\nstats 6 6 3 1\n";

/// A run by its name: its words, its input in parts, how it ends, and its output in parts.
type FormRow<'a> = (&'a str, &'a [&'a str], &'a [&'a str], Status, &'a [&'a str]);

/// Runs each row, its input in small pieces, and compares. All that is written is flushed.
fn expect_forms(rt: &(impl Abort + AllocGlobal), rows: &[FormRow<'_>]) -> Result<(), Fail> {
    let alloc = rt.alloc();
    for (name, words, script, status, replies) in rows {
        let replies = joined(alloc, replies)?;
        let mut source = MemSource::new(joined(alloc, script)?, 7, Vec::new(alloc));
        let mut sink = MemSink::new(alloc, replies.len(), 7, Vec::new(alloc))?;
        let ended = run_on(alloc, words, &mut source, &mut sink)?;
        assert_eq!(rt; sink.bytes(), replies.as_slice(), "{name}");
        assert_eq!(rt; sink.flushed(), replies.len(), "{name}");
        assert_eq!(rt; ended, *status, "{name}");
    }
    Ok(())
}

#[test]
fn plain_input(rt: HostRuntime) -> Result<(), Fail> {
    let rows: [FormRow<'_>; 5] = [
        (
            "empty_input",
            &["link"],
            &[],
            Status::Done,
            &["report - - 0\n"],
        ),
        (
            "plain_input",
            &["link"],
            &[A1, A2, B1, B2, C1, C2],
            Status::Done,
            &[LINK_WINDOW, SIX_ACCEPTED, LINKED],
        ),
        (
            "in any order",
            &["link"],
            &[C2, B1, A2, A1, C1, B2],
            Status::Done,
            &[LINK_WINDOW, SIX_ACCEPTED, LINKED],
        ),
        (
            "commands are refused at once, and end no delivery",
            &["link"],
            &[
                "!report\n",
                C2,
                B1,
                A2,
                "!window 1 2\n",
                "x\n",
                A1,
                "# no\n",
                C1,
                "!foo\n",
                B2,
            ],
            Status::DoneWithRefusals,
            &[
                "line 1 refused command\n\
line 5 refused command\n\
line 6 refused fields\n\
line 10 refused command\n",
                LINK_WINDOW,
                SIX_ACCEPTED,
                LINKED,
            ],
        ),
        (
            "a night beyond the window of the least one",
            &["link"],
            &["z 59030.25 10 5 20 568 o\n", A1],
            Status::DoneWithRefusals,
            &[
                LINK_WINDOW,
                "exposure 59000250000 568 accepted 1\n\
exposure 59030250000 568 refused new\n\
report 59000 59029 0\n",
            ],
        ),
    ];
    expect_forms(&rt, &rows)
}

/// The text of the made sky of the number 7, of 14 nights and 300 objects.
fn many_lines(alloc: Global) -> Result<Vec<u8>, Fail> {
    let mut source = SureSource::new(Vec::new(alloc));
    let mut sink = MemSink::new(alloc, 600_000, 4096, Vec::new(alloc))?;
    let status = run_on(
        alloc,
        &["generate", "7", "14", "300"],
        &mut source,
        &mut sink,
    )?;
    if status != Status::Done {
        return Ok(Vec::new(alloc));
    }
    Ok(Vec::from_slice(alloc, sink.bytes())?)
}

#[test]
fn a_made_sky_is_made_twice_the_same(rt: HostRuntime) -> Result<(), Fail> {
    let text = many_lines(rt.alloc())?;
    assert_eq!(rt; text.as_slice(), many_lines(rt.alloc())?.as_slice());
    assert_eq!(rt; text.iter().filter(|byte| **byte == b'\n').count(), 8_400);
    Ok(())
}

#[test]
fn made_skies_at_faults(rt: HostRuntime) -> Result<(), Fail> {
    let alloc = rt.alloc();
    for (words, text) in [
        (["generate", "1", "1", "1"], ONE_OBJECT),
        (["summary", "1", "3", "1"], SUMMARY),
    ] {
        for room in [0, 1, 20] {
            // Each read would fail, and the room ends before the text does.
            let mut source = MemSource::new(joined(alloc, &[WINDOW])?, 7, vec![in alloc; 0]?);
            let mut sink = MemSink::new(alloc, room, 8, Vec::new(alloc))?;
            let status = run_on(alloc, &words, &mut source, &mut sink)?;
            assert_eq!(rt; status, Status::WriteFault, "{room}");
            assert_eq!(rt; sink.bytes().len(), room);
            assert!(rt; text.as_bytes().starts_with(sink.bytes()), "{room}");
        }
        let mut source = MemSource::new(joined(alloc, &[WINDOW])?, 7, vec![in alloc; 0]?);
        let mut sink = MemSink::new(alloc, 4096, 8, Vec::new(alloc))?;
        let status = run_on(alloc, &words, &mut source, &mut sink)?;
        assert_eq!(rt; status, Status::Done);
        assert_eq!(rt; sink.bytes(), text.as_bytes());
    }
    Ok(())
}

/// The summary of the made sky of a number, nights and objects.
fn summary_of(alloc: Global, plan: [&str; 3]) -> Result<Vec<u8>, Fail> {
    let [number, nights, objects] = plan;
    let mut source = SureSource::new(Vec::new(alloc));
    let mut sink = MemSink::new(alloc, 100, 100, Vec::new(alloc))?;
    let words = ["summary", number, nights, objects];
    let status = run_on(alloc, &words, &mut source, &mut sink)?;
    if status != Status::Done {
        return Ok(Vec::new(alloc));
    }
    Ok(Vec::from_slice(alloc, sink.bytes())?)
}

/// The two numbers behind a front of a text that ends with a line feed.
fn two_numbers(text: &[u8], front: &[u8]) -> Option<(i64, i64)> {
    let line = text.strip_prefix(front)?.strip_suffix(b"\n".as_slice())?;
    let space = line.iter().position(|byte| *byte == b' ')?;
    let (first, second) = line.split_at(space);
    Some((
        read_number(first)?,
        read_number(second.strip_prefix(b" ".as_slice())?)?,
    ))
}

#[test]
fn summaries_of_made_skies(rt: HostRuntime) -> Result<(), Fail> {
    let alloc = rt.alloc();
    let text = summary_of(alloc, ["7", "14", "300"])?;
    assert_eq!(rt;
        text.as_slice(),
        b"summary 7 14 300\nstats 28 8400 4203 6750\n".as_slice()
    );
    assert_eq!(rt;
        text.as_slice(),
        summary_of(alloc, ["7", "14", "300"])?.as_slice()
    );
    // Objects may come to move too fast for a tracklet after the twentieth night.
    let text = summary_of(alloc, ["3", "30", "20"])?;
    let counts = two_numbers(text.as_slice(), b"summary 3 30 20\nstats 60 1200 ");
    assert!(rt;
        counts.is_some_and(|(tracklets, tracks)| 400 <= tracklets
            && tracklets <= 600
            && 20 <= tracks)
    );
    Ok(())
}
