//! What lines of each kind say.
use super::*;
use std::process::Abort;
use std::test::Fail;

/// Reads each line, and compares what it says.
fn expect(rt: &(impl Abort + AllocGlobal), table: &[(&str, &str)]) -> Result<(), Fail> {
    for (line, said) in table {
        let answer = read_script_line(rt.alloc(), line.as_bytes());
        let text = format!(in rt.alloc(); "{answer:?}")?;
        assert!(rt; text.as_str() == *said, "{line}");
    }
    Ok(())
}

#[test]
fn lines_and_commands(rt: HostRuntime) -> Result<(), Fail> {
    let table = [
        ("# a comment", "Ok(Blank)"),
        ("a 59001.25 10 5 20", "Ok(Bad(Fields))"),
        ("!set a -5", "Ok(Set(Word { bytes: [97] }, -5))"),
        ("!window 59000 59015", "Ok(Window(59000, 59015))"),
        ("!tracklets -1", "Ok(Tracklets(-1))"),
        ("!report", "Ok(Report)"),
        (
            "!ask a !b",
            "Ok(Ask(Words { items: [Word { bytes: [97] }, Word { bytes: [33, 98] }] }))",
        ),
        ("!stats", "Ok(Stats)"),
    ];
    expect(&rt, &table)?;
    let detection = read_script_line(rt.alloc(), b"a 59001.25 10 5 20 568 o");
    assert!(rt; matches!(detection, Ok(Line::Detection(_))));
    Ok(())
}

#[test]
fn malformed_commands(rt: HostRuntime) -> Result<(), Fail> {
    let table = [
        ("!foo", "Err(Command)"),
        ("!report now", "Err(Words)"),
        ("!window a 5", "Err(Number)"),
        ("!ask", "Err(Words)"),
        ("!set tol_ra 1.5", "Err(Number)"),
    ];
    expect(&rt, &table)
}
