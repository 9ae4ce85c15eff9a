//! A linker with nothing held, with two exposures and with a small sky, and the laws. Whole scripts are
//! tests of `mops_run`.
ghost use Rattle.std.specs.Prelude.{◌≡◌, IfOk, length};

use super::*;
use exposure_log::{Exposure, gather};
use miti_text::{Detection, read_line};
use sky_units::{Asked, NoMemory, Settings, Tally, Word, Words};
use std::alloc::Global;
use std::test::Fail;

// Three objects that move by a tenth of a degree a day: the first in four nights, so that its tracks of
// three nights are parts of that of four, the others in three. And detections beside the first object,
// which share its first night, and of which one makes a tracklet with one of its own.
const SKY: &str = "a1 59000.25 10 5 20 568 o\n\
a2 59000.27 10.002 5 20 568 o\n\
a3 59001.25 10.1 5 20 568 o\n\
a4 59001.27 10.102 5 20 568 o\n\
a5 59002.25 10.2 5 20 568 o\n\
a6 59002.27 10.202 5 20 568 o\n\
a7 59003.25 10.3 5 20 568 o\n\
a8 59003.27 10.302 5 20 568 o\n\
b1 59000.25 20 5 20 568 o\n\
b2 59000.27 20.002 5 20 568 o\n\
b3 59001.25 20.1 5 20 568 o\n\
b4 59001.27 20.102 5 20 568 o\n\
b5 59002.25 20.2 5 20 568 o\n\
b6 59002.27 20.202 5 20 568 o\n\
c1 59000.25 30 5 20 568 o\n\
c2 59000.27 30.002 5 20 568 o\n\
c3 59001.25 30.1 5 20 568 o\n\
c4 59001.27 30.102 5 20 568 o\n\
c5 59002.25 30.2 5 20 568 o\n\
c6 59002.27 30.202 5 20 568 o\n\
d3 59001.25 10.1 5.01 20 568 o\n\
d4 59001.27 10.102 5.0102 20 568 o\n\
d5 59002.25 10.2 5.02 20 568 o\n\
d6 59002.27 10.202 5.0202 20 568 o";

// The first object in its first night.
const TRACKLET: &str = "a1 59000.25 10 5 20 568 o\n\
a2 59000.27 10.002 5 20 568 o";

/// A linker with a window of thirty nights, and nothing held.
pub(crate) fn linker_of(alloc: Global) -> Result<Linker, Fail> {
    let mut linker = Linker::new(alloc, Settings::standard())?;
    linker.set_window(59_000, 59_029, &mut Tally::zero())?;
    Ok(linker)
}

/// The detections of some lines.
fn detections_of(alloc: Global, lines: &str) -> Result<Vec<Detection>, Fail> {
    let mut list = Vec::new(alloc);
    for line in lines.as_bytes().split(|byte| *byte == b'\n') {
        list.push(read_line(alloc, line)?)?;
    }
    Ok(list)
}

/// The exposures of the detections of some lines.
fn exposures_of(alloc: Global, lines: &str) -> Result<Vec<Exposure>, Fail> {
    let list = detections_of(alloc, lines)?;
    if list.len() > u32::MAX as usize {
        return Ok(Vec::new(alloc));
    }
    Ok(gather(alloc, list)?)
}

/// Holds the exposures of the detections of some lines, and says how many these are.
pub(crate) fn hold(linker: &mut Linker, alloc: Global, lines: &str) -> Result<usize, Fail> {
    let exposures = exposures_of(alloc, lines)?;
    Ok(linker.hold_all(exposures, &mut Tally::zero())?.len())
}

/// The number of tracks of the report.
pub(crate) fn reported(linker: &Linker) -> Result<usize, NoMemory> {
    Ok(linker.report(&mut Tally::zero())?.tracks.items().len())
}

/// The number of tracks that an enumeration of all fitting sets finds.
pub(crate) fn enumerated(linker: &Linker, alloc: Global) -> Result<usize, NoMemory> {
    let settings = linker.settings();
    let list = plain_tracks::maximal_tracks(alloc, linker.nights(), settings)?;
    Ok(list.len())
}

#[test]
fn tracks_as_enumerated(rt: HostRuntime) -> Result<(), Fail> {
    let alloc = rt.alloc();
    let mut linker = linker_of(alloc)?;
    assert_eq!(rt; hold(&mut linker, alloc, SKY)?, 8);
    assert_eq!(rt; reported(&linker)?, 9);
    assert_eq!(rt; linker.stats()?.tracks, 9);
    assert_eq!(rt; enumerated(&linker, alloc)?, 9);
    Ok(())
}

#[test]
fn nothing_held(rt: HostRuntime) -> Result<(), NoMemory> {
    let mut linker = Linker::new(rt.alloc(), Settings::standard())?;
    assert!(rt; linker.set(b"stages", 1).is_ok());
    assert_eq!(rt; linker.settings().stages, 1);
    assert!(rt; linker.nights().is_empty());
    assert!(rt; linker.tracklets(59_000)?.items().is_empty());
    assert!(rt; linker.report(&mut Tally::zero())?.window.is_none());
    Ok(())
}

#[test]
fn held_one_by_one(rt: HostRuntime) -> Result<(), Fail> {
    let alloc = rt.alloc();
    let mut linker = linker_of(alloc)?;
    for exposure in exposures_of(alloc, TRACKLET)?.as_slice() {
        assert!(rt; linker.add(exposure, &mut Tally::zero()) == Ok(1));
    }
    assert_eq!(rt; linker.nights().len(), 1);
    assert_eq!(rt; linker.tracklets(59_000)?.items().len(), 1);
    assert!(rt; linker.ask(&two_ids(alloc)?) == Ok(Asked::FewNights(1)));
    Ok(())
}

/// The ids of the tracklet of the first night.
fn two_ids(alloc: Global) -> Result<Words, NoMemory>
    ensures { IfOk result (λ ids. length ids ≡ 2) }
{
    let mut ids = Words::new(alloc);
    ids.push(Word::new(alloc, b"a2")?)?;
    ids.push(Word::new(alloc, b"a1")?)?;
    Ok(ids)
}

#[test]
fn laws_do_nothing(_rt: HostRuntime) {
    report_is_unique();
    report_exists();
    report_follows();
    stats_are_unique();
    stats_exist();
    asked_is_unique();
    asked_exists();
}
