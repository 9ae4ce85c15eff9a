//! What the log answers and holds, on plain lines. Each answer is compared as text.
use super::*;
use miti_text::{Detection, read_line};
use sky_units::NoMemory;
use std::alloc::Global;

/// Adds the detection of a line to the list.
fn push_line(alloc: Global, list: &mut Vec<Detection>, line: &str) -> Result<(), NoMemory> {
    if let Ok(detection) = read_line(alloc, line.as_bytes()) {
        list.push(detection)?;
    }
    Ok(())
}

/// The exposures of a list, which must be shorter than 2^32.
fn gathered(alloc: Global, list: Vec<Detection>) -> Result<Vec<Exposure>, NoMemory> {
    if list.len() > u32::MAX as usize {
        return Ok(Vec::new(alloc));
    }
    gather(alloc, list)
}

/// The exposures of the detections of these lines.
fn exposures_of(alloc: Global, lines: &str) -> Result<Vec<Exposure>, NoMemory> {
    let mut list = Vec::new(alloc);
    for line in lines.lines() {
        push_line(alloc, &mut list, line)?;
    }
    gathered(alloc, list)
}

/// What the log answers to these lines, each a delivery of its own.
fn answers(log: &mut ExposureLog, alloc: Global, lines: &str) -> Result<String, NoMemory> {
    let mut rows = String::new(alloc);
    for line in lines.lines() {
        add_line(log, alloc, line, &mut rows)?;
    }
    Ok(rows)
}

/// Adds the exposure of a line to the log, and its answer to the rows.
fn add_line(
    log: &mut ExposureLog,
    alloc: Global,
    line: &str,
    rows: &mut String,
) -> Result<(), NoMemory> {
    for exposure in &exposures_of(alloc, line)? {
        let answer = log.add(exposure);
        rows.push_str(format!(in alloc; "{answer:?} ")?.as_str())?;
    }
    Ok(())
}

/// Moves the window, where nothing stands against it; what stands against it.
fn moved(log: &mut ExposureLog, lo: u32, hi: u32) -> Option<WindowError> {
    let lo = i64::from(lo);
    let hi = i64::from(hi);
    match log.check_window(lo, hi) {
        Ok(()) => {
            log.move_window(lo, hi);
            None
        }
        Err(error) => Some(error),
    }
}

/// The numbers of a night's spots, in order.
fn numbers(log: &ExposureLog, alloc: Global, night: i64) -> Result<String, NoMemory> {
    let mut numbers = String::new(alloc);
    for spot in &log.night(night)? {
        numbers.push_str(format!(in alloc; "{} ", spot.num)?.as_str())?;
    }
    Ok(numbers)
}

#[test]
fn gathered_by_epoch_and_site(rt: HostRuntime) -> Result<(), NoMemory> {
    let alloc = rt.alloc();
    let mut rows = String::new(alloc);
    let lines = "b 59001.27 1 5 20 568 o\nc 59001.25 1 5 20 F51 o\na 59001.27 1 5 20 568 o";
    for exposure in &exposures_of(alloc, lines)? {
        let epoch = exposure.epoch();
        let site = exposure.site();
        let count = exposure.detections().len();
        rows.push_str(format!(in alloc; "{epoch} {site:?} {count}\n")?.as_str())?;
    }
    assert!(rt; rows.as_str() == "59001250000 [70, 53, 49] 1\n59001270000 [53, 54, 56] 2\n");
    Ok(())
}

#[test]
fn refused_before_the_window(rt: HostRuntime) -> Result<(), NoMemory> {
    let alloc = rt.alloc();
    let mut log = ExposureLog::new(alloc, 0)?;
    let answer = answers(&mut log, alloc, "a 59001.25 10 5 20 568 o")?;
    assert!(rt; answer.as_str() == "Err(NoWindow) ");
    Ok(())
}

#[test]
fn refused_exposures(rt: HostRuntime) -> Result<(), NoMemory> {
    let alloc = rt.alloc();
    let mut log = ExposureLog::new(alloc, 0)?;
    moved(&mut log, 59_001, 59_030);
    let lines = "a 59001.25 1 5 20 568 o\nb 59000.25 1 5 20 568 o\nc 59031.25 1 5 20 568 o\n\
d 59001.25 1 5 20 568 o\na 59001.27 1 5 20 568 o\ne 59001.25 1 5 20 F51 o";
    let answer = answers(&mut log, alloc, lines)?;
    assert!(rt; answer.as_str() == "Ok(1) Err(Old) Err(New) Err(Held) Err(Id(0)) Ok(1) ");
    Ok(())
}

#[test]
fn windows_of_thirty_nights(rt: HostRuntime) -> Result<(), NoMemory> {
    let mut log = ExposureLog::new(rt.alloc(), 0)?;
    assert!(rt; moved(&mut log, 59_010, 59_009) == Some(WindowError::Order));
    assert!(rt; moved(&mut log, 59_000, 59_030) == Some(WindowError::Wide));
    assert!(rt; moved(&mut log, 59_001, 59_030).is_none());
    assert!(rt; moved(&mut log, 59_000, 59_029) == Some(WindowError::Back));
    assert!(rt; log.window() == Some((59_001, 59_030)));
    Ok(())
}

#[test]
fn nights_begin_before_zero_hours(rt: HostRuntime) -> Result<(), NoMemory> {
    let alloc = rt.alloc();
    let mut log = ExposureLog::new(alloc, 0)?;
    log.set_shift(250_000);
    moved(&mut log, 59_001, 59_002);
    let lines = "a 59000.749999 1 5 20 568 o\nb 59000.75 1 5 20 568 o\ne 59002.75 1 5 20 568 o";
    let answer = answers(&mut log, alloc, lines)?;
    assert!(rt; answer.as_str() == "Err(Old) Ok(1) Err(New) ");
    Ok(())
}

#[test]
fn numbers_and_order(rt: HostRuntime) -> Result<(), NoMemory> {
    let alloc = rt.alloc();
    let mut log = ExposureLog::new(alloc, 0)?;
    moved(&mut log, 59_000, 59_002);
    let lines = "c 59000.27 1 5 20 568 o\na 59000.25 1 5 20 568 o\ne 59000.25 1 5 20 F51 o";
    answers(&mut log, alloc, lines)?;
    log.remove(59_000_270_000, b"568".as_slice());
    answers(&mut log, alloc, "f 59000.26 1 5 20 568 o")?;
    let held = numbers(&log, alloc, 59_000)?;
    assert!(rt; held.as_str() == "1 2 0 ");
    assert!(rt; log.find(b"f".as_slice()) == Some(0));
    Ok(())
}

#[test]
fn forgotten_with_the_window(rt: HostRuntime) -> Result<(), NoMemory> {
    let alloc = rt.alloc();
    let mut log = ExposureLog::new(alloc, 0)?;
    moved(&mut log, 59_000, 59_002);
    answers(
        &mut log,
        alloc,
        "c 59000.27 1 5 20 568 o\na 59000.25 1 5 20 568 o",
    )?;
    if log.detection(1).is_some() && log.detection(0).is_some() {
        assert!(rt; log.before(1, 0));
    }
    moved(&mut log, 59_001, 59_002);
    assert!(rt; log.exposures() == 0);
    Ok(())
}

/// Holds each exposure of a list; how many detections of a refused one come back.
fn held(log: &mut ExposureLog, exposures: Vec<Exposure>) -> usize {
    let mut back = 0_usize;
    for exposure in exposures {
        if let Err(NotHeld::Refused(AddError::Held, refused)) = log.hold(exposure) {
            back = refused.detections().len();
        }
    }
    back
}

#[test]
fn held_by_value(rt: HostRuntime) -> Result<(), NoMemory> {
    let alloc = rt.alloc();
    let mut log = ExposureLog::new(alloc, 0)?;
    moved(&mut log, 59_000, 59_002);
    let lines = "a 59000.25 1 5 20 568 o\nb 59000.25 1 5 20 568 o";
    assert!(rt; held(&mut log, exposures_of(alloc, lines)?) == 0);
    assert!(rt; held(&mut log, exposures_of(alloc, lines)?) == 2);
    assert!(rt; log.detections() == 2);
    Ok(())
}

#[test]
fn nights_of_one_epoch(rt: HostRuntime) -> Result<(), NoMemory> {
    let alloc = rt.alloc();
    let mut log = ExposureLog::new(alloc, 0)?;
    moved(&mut log, 59_000, 59_002);
    let lines = "a 59000.25 1 5 20 568 o\nb 59000.25 1 5 20 F51 o\nc 59001.25 1 5 20 568 o";
    answers(&mut log, alloc, lines)?;
    assert!(rt; log.is_of_one_epoch(59_000));
    answers(&mut log, alloc, "d 59000.27 1 5 20 568 o")?;
    assert!(rt; !log.is_of_one_epoch(59_000));
    Ok(())
}

#[test]
fn held_together(rt: HostRuntime) -> Result<(), NoMemory> {
    let alloc = rt.alloc();
    let mut log = ExposureLog::new(alloc, 0)?;
    moved(&mut log, 59_000, 59_002);
    let lines = "a 59000.25 1 5 20 568 o\nb 59001.25 1 5 20 568 o\nc 59003.25 1 5 20 568 o";
    let exposures = exposures_of(alloc, lines)?;
    let held = hold_all(alloc, &mut log, exposures)?.len();
    assert_eq!(rt; held, 3);
    assert_eq!(rt; log.detections(), 2);
    Ok(())
}
