//! Whole runs of the program in which something is refused: each cause, with nothing changed.
use crate::tests::{Row, expect_rows, expect_watch};
use crate::top::Status;
use std::test::Fail;

#[test]
fn refusals(rt: HostRuntime) -> Result<(), Fail> {
    let rows: [Row<'_>; 4] = [
        (
            "refused_exposures",
            &[
                "a 59001.25 10 5 20 568 o\n\
!window 59001 59016\n\
a 59001.25 10 5 20 568 o\n\
b 59000.25 10 5 20 568 o\n\
c 59017.25 10 5 20 568 o\n\
!stats\n\
d 59001.25 11 5 20 568 o\n\
a 59001.27 10 5 20 568 o\n\
e 59001.25 11 5 20 F51 o\n\
!stats\n",
            ],
            Status::DoneWithRefusals,
            &[
                "exposure 59001250000 568 refused nowindow\n\
window 59001 59016\n\
exposure 59000250000 568 refused old\n\
exposure 59001250000 568 accepted 1\n\
exposure 59017250000 568 refused new\n\
stats 1 1 0 0\n\
exposure 59001250000 568 refused held\n\
exposure 59001250000 F51 accepted 1\n\
exposure 59001270000 568 refused id a\n\
stats 2 2 0 0\n",
            ],
        ),
        (
            "an id that stands twice in its exposure: the whole exposure is turned away",
            &[
                "!window 59001 59016\n\
b 59001.25 10 5 20 568 o\n\
a 59001.25 10 5 20 568 o\n\
b 59001.25 11 5 20 568 o\n\
!stats\n",
            ],
            Status::DoneWithRefusals,
            &[
                "window 59001 59016\n\
exposure 59001250000 568 refused id b\n\
stats 0 0 0 0\n",
            ],
        ),
        (
            "refused_settings_and_windows",
            &[
                "!set tolerance 5\n\
!set tol_ra 100001\n\
!set tol_ra 0\n\
!window 59010 59009\n\
!window 59000 59030\n\
!window 59001 59016\n\
!window 59000 59015\n\
!set tol_ra 5\n\
!set tol_ra 100001\n",
            ],
            Status::DoneWithRefusals,
            &[
                "set refused name\n\
set refused range\n\
set tol_ra 0\n\
window refused order\n\
window refused wide\n\
window 59001 59016\n\
window refused back\n\
set refused late\n\
set refused range\n",
            ],
        ),
        (
            "malformed_commands",
            &["!foo\n!report now\n!window a 5\n!ask\n!set tol_ra 1.5\n"],
            Status::DoneWithRefusals,
            &[
                "line 1 refused command\n\
line 2 refused words\n\
line 3 refused number\n\
line 4 refused words\n\
line 5 refused number\n",
            ],
        ),
    ];
    expect_rows(&rt, &rows)
}

#[test]
fn refused_lines(rt: HostRuntime) -> Result<(), Fail> {
    let long = String::from_utf8(vec![in rt.alloc(); b'x'; 1025]?)?;
    expect_watch(
        &rt,
        "refused_lines",
        &[
            long.as_str(),
            "\na 59001.25 10 5 20\n\
a 59001.25 360.0000001 5 20 568 o\n\
a 59001.25 10 90.000001 20 568 o\n\
!window 59001 59001\n\
a 59001.25 359.9999999 5 20 568 o\n\
b 59001.27 0.002 5 20 568 o\n\
!tracklets 59001\n",
        ],
        Status::DoneWithRefusals,
        &[
            "line 1 refused long\n\
line 2 refused fields\n\
line 3 refused ra\n\
line 4 refused dec\n\
window 59001 59001\n\
exposure 59001250000 568 accepted 1\n\
exposure 59001270000 568 accepted 1\n\
tracklets 59001 1\n\
tracklet a b\n",
        ],
    )
}

/// A name of 65 bytes, one too many.
const LONG_NAME: &str = "nnnnnnnnnnnnnnnnnnnnnnnnnnnnnnnnnnnnnnnnnnnnnnnnnnnnnnnnnnnnnnnnn";

#[test]
fn refused_fields(rt: HostRuntime) -> Result<(), Fail> {
    for (front, name, cause) in [
        (" #a 59001.25 10 5 20 568", "o", "id"),
        ("a 200000.0000001 10 5 20 568", "o", "epoch"),
        ("a 59001.25 -0.0000001 5 20 568", "o", "ra"),
        ("a 59001.25 10 -90.0000001 20 568", "o", "dec"),
        ("a 59001.25 10 5 1000.0001 568", "o", "mag"),
        ("a 59001.25 10 5 20 568568568", "o", "site"),
        ("a 59001.25 10 5 20 568", LONG_NAME, "name"),
        // Of several rules that are broken, the first.
        (" !a 5e4 361 -91 1e3 568568568", LONG_NAME, "id"),
        ("a 5e4 361 -91 1e3 568568568", LONG_NAME, "epoch"),
        ("a 59001.25 361 -91 1e3 568568568", LONG_NAME, "ra"),
        ("a 59001.25 10 -91 1e3 568568568", LONG_NAME, "dec"),
        ("a 59001.25 10 5 1e3 568568568", LONG_NAME, "mag"),
        ("a 59001.25 10 5 20 568568568", LONG_NAME, "site"),
    ] {
        expect_watch(
            &rt,
            front,
            &[front, " ", name, "\n"],
            Status::DoneWithRefusals,
            &["line 1 refused ", cause, "\n"],
        )?;
    }
    Ok(())
}
