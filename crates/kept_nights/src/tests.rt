//! A night that is renewed, found and forgotten; a log with no exposure of it.
use super::*;
use exposure_log::{ExposureLog, gather};
use miti_text::read_line;
use sky_units::Settings;
use std::test::Fail;

#[test]
fn a_night_is_renewed_and_forgotten(rt: HostRuntime) -> Result<(), Fail> {
    let alloc = rt.alloc();
    let settings = Settings::standard();
    let mut log = ExposureLog::new(alloc, 0)?;
    log.move_window(59_000, 59_029);
    let mut list = Vec::new(alloc);
    list.push(read_line(alloc, b"a1 59000.25 10 5 20 568 o")?)?;
    for exposure in gather(alloc, list)? {
        assert!(rt; log.add(&exposure) == Ok(1));
    }
    let mut nights = Vec::new(alloc);
    renew_or_remove(
        &mut nights,
        &mut log,
        alloc,
        &settings,
        59_000_250_000,
        b"568",
    )?;
    assert!(rt; night_of_number(nights.as_slice(), 59_000).is_some());
    assert!(rt; night_of_number(nights.as_slice(), 59_001).is_none());
    assert_eq!(rt; log.exposures(), 1);
    forget_before(&mut nights, 59_000);
    assert_eq!(rt; nights.len(), 1);
    forget_before(&mut nights, 59_001);
    assert_eq!(rt; nights.len(), 0);
    Ok(())
}
