//! Lines that are read and written, and what they are read by.
use super::*;
use std::alloc::Global;

/// What a line says, in units, and its words, written again.
fn read_and_written(alloc: Global, line: &[u8]) -> Result<([i64; 4], Vec<u8>), LineError> {
    let detection = read_line(alloc, line)?;
    let text = write_line(alloc, &detection)?;
    Ok((
        [detection.epoch, detection.ra, detection.dec, detection.mag],
        text,
    ))
}

#[test]
fn decimals_at_their_edges(rt: HostRuntime) -> Result<(), LineError> {
    for (line, numbers, text) in [
        (
            b"23456789 59000.2500004 10.00000049 +5. 20.12 F51 NS 1.25 93.4".as_slice(),
            [59_000_250_000, 10_000_000, 5_000_000, 20_120],
            b"23456789 59000.250000 10.000000 5.000000 20.120 F51 NS".as_slice(),
        ),
        (
            b"a 0059001.25 360.0 -.0000005 0020.0004 568 o",
            [59_001_250_000, 0, -1, 20_000],
            b"a 59001.250000 0.000000 -0.000001 20.000 568 o",
        ),
        (
            b"\ta 59001.25 -0 5 -20 568 o ",
            [59_001_250_000, 0, 5_000_000, -20_000],
            b"a 59001.250000 0.000000 5.000000 -20.000 568 o",
        ),
    ] {
        let (read, written) = read_and_written(rt.alloc(), line)?;
        assert_eq!(rt; read, numbers);
        assert_eq!(rt; written.as_slice(), text);
    }
    let refused = read_line(rt.alloc(), b"a 5e4 10 5 20 568 o").err();
    assert_eq!(rt; refused, Some(LineError::Epoch));
    Ok(())
}

#[test]
fn words_and_numbers(rt: HostRuntime) {
    assert_eq!(rt; read_number(b"-017"), Some(-17));
    assert_eq!(rt; read_number(b"1.5"), None);
    assert_eq!(rt;
        next_word(b" \ta b"),
        Some((b"a".as_slice(), b" b".as_slice()))
    );
    assert_eq!(rt; next_word(b" \t"), None);
    assert!(rt; is_text(b"a\tb ~") && !is_text(b"a\x7F"));
}
