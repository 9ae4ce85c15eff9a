//! Reports read back, and near misses.
use crate::{ReportError, read_report, write_report};
use sky_units::NoMemory;
use std::alloc::Global;

/// The lines of a report of one track, of three nights with two detections each.
const LINES: [&str; 5] = [
    "report 59000 59015 1\n",
    "track 1 3 6\n",
    "ra 10000000 59001260000 10100 1020100000 1007 0\n",
    "dec 5000000 59001260000 10100 0 -3 0\n",
    "ids a1 a2 b1 b2 c1 c2\n",
];

/// The report's text with this line at a place.
fn with_line(alloc: Global, place: usize, line: &str) -> Result<Vec<u8>, NoMemory> {
    let mut text = Vec::new(alloc);
    for (at, own) in LINES.iter().enumerate() {
        let line = if at == place { line } else { *own };
        text.extend_from_slice(line.as_bytes())?;
    }
    Ok(text)
}

/// Whether the report's text with this line at a place is bad.
fn is_bad(alloc: Global, place: usize, line: &str) -> Result<bool, NoMemory> {
    let text = with_line(alloc, place, line)?;
    Ok(read_report(alloc, text.as_slice()).err() == Some(ReportError::Bad))
}

/// Whether a text is read and written again, byte for byte.
fn is_read_back(alloc: Global, text: &[u8]) -> Result<bool, ReportError> {
    let report = read_report(alloc, text)?;
    let written = write_report(alloc, &report)?;
    Ok(written.as_slice() == text)
}

#[test]
fn reports_are_read_back(rt: HostRuntime) -> Result<(), ReportError> {
    let text = with_line(rt.alloc(), 5, "")?;
    assert!(rt; is_read_back(rt.alloc(), text.as_slice())?);
    assert!(rt; is_read_back(rt.alloc(), b"report - - 0\n".as_slice())?);
    assert!(rt; is_read_back(rt.alloc(), b"report 59000 59029 0\n".as_slice())?);
    Ok(())
}

#[test]
fn bad_first_lines(rt: HostRuntime) -> Result<(), NoMemory> {
    for line in [
        "report 059000 59015 1\n",
        "report +59000 59015 1\n",
        "report -0 15 1\n",
        "report 59000  59015 1\n",
        "report 59000 59015 2\n",
        "report 59000 59015 0\n",
        "report 59000 59015 01\n",
        "report 59000 59030 1\n",
        "report 59001 59000 1\n",
        "report - - 1\n",
        "report 1000000000000000000 1000000000000000001 1\n",
        "Report 59000 59015 1\n",
        "report 59000 59015\n",
    ] {
        assert!(rt; is_bad(rt.alloc(), 0, line)?, "{line}");
    }
    Ok(())
}

#[test]
fn bad_lines_of_counts(rt: HostRuntime) -> Result<(), NoMemory> {
    for line in [
        "track 2 3 6\n",
        "track 01 3 6\n",
        "track 1 2 6\n",
        "track 1 4 6\n",
        "track 1 31 6\n",
        "track 1 3 5\n",
        "track 1 3 7\n",
        "track 1 3 99999999999999999999\n",
        "track 1 3\n",
    ] {
        assert!(rt; is_bad(rt.alloc(), 1, line)?, "{line}");
    }
    Ok(())
}

#[test]
fn bad_quadratics(rt: HostRuntime) -> Result<(), NoMemory> {
    for line in [
        "ra 10000000 59001260000 10100 01020100000 1007 0\n",
        "ra 10000000 59001260000 20200 2040200000 2014 0\n",
        "ra 10000000 59001260000 2020 606000 202 0\n",
        "ra 10000000 59001260000 0 1 0 0\n",
        "ra 10000000 59001260000 -10100 1020100000 1007 0\n",
        "ra 10000000 59001260000 1 170141183460469231731687303715884105728 0 0\n",
        "ra 10000000 59001260000 1 63000000000000000000000000000000000001 0 0\n",
        "ra 360000000 59001260000 10100 1020100000 1007 0\n",
        "ra -1 59001260000 10100 1020100000 1007 0\n",
        "ra 10000000 200000000001 10100 1020100000 1007 0\n",
        "ra 10000000 59001260000 10100 1020100000 +1007 0\n",
        "ra 10000000 59001260000 10100 1020100000 1007 -0\n",
        "ra 10000000 59001260000 10100 1020100000 1007\n",
        "dec 10000000 59001260000 10100 1020100000 1007 0\n",
        "",
    ] {
        assert!(rt; is_bad(rt.alloc(), 2, line)?, "{line}");
    }
    Ok(())
}

#[test]
fn bad_declinations(rt: HostRuntime) -> Result<(), NoMemory> {
    for line in [
        "dec 90000001 59001260000 10100 0 -3 0\n",
        "dec 5000000 59001260000 10100 0 -03 0\n",
        "dec 5000000 59001260000 10100 0 - 3 0\n",
        "dec 5000000 59001260000 10100 0 3- 0\n",
        "",
    ] {
        assert!(rt; is_bad(rt.alloc(), 3, line)?, "{line}");
    }
    Ok(())
}

#[test]
fn bad_lines_of_ids(rt: HostRuntime) -> Result<(), NoMemory> {
    for line in [
        "ids a1 a2 b1 b2 c1 c2",
        "ids a1 a2 b1 b2 c1  c2\n",
        "ids a1 a2 b1 b2 c1 !c\n",
        "ids a1 a2 b1 b2 c1 #c\n",
        "ids a1 a2 b1 b2 c1 c2 \n",
        "ids a1 a2 b1 b2 c1 c2\n\n",
        "ids a1\ta2 b1 b2 c1 c2 c3\n",
        "ids a1 a2 b1 b2 c1 c2\r\n",
    ] {
        assert!(rt; is_bad(rt.alloc(), 4, line)?, "{line}");
    }
    Ok(())
}
