//! Whole runs of the program: the tracklets of a night by its stages, and tracks at their limits.
use crate::tests::{
    A1, A2, B1, B2, C1, C2, ONE_TRACK, Row, SIX_ACCEPTED, WINDOW, WINDOW_SET, expect_report,
    expect_rows,
};
use crate::top::Status;
use std::test::Fail;

/// Four detections of one night; the third lies beside the line of the others.
const FOUR_LINES: &str = "!window 59000 59000\n\
p1 59000.25 10.000000 5 20 568 o\n\
p2 59000.26 10.001000 5 20 568 o\n\
p3 59000.27 10.002500 5 20 568 o\n\
p4 59000.28 10.003000 5 20 568 o\n\
!tracklets 59000\n!tracklets 59001\n";

const FOUR_ACCEPTED: &str = "window 59000 59000\n\
exposure 59000250000 568 accepted 1\n\
exposure 59000260000 568 accepted 1\n\
exposure 59000270000 568 accepted 1\n\
exposure 59000280000 568 accepted 1\n";

/// Six detections on a quadratic of the greatest acceleration.
const BENT_TRACK: &str = "report 59000 59015 1\n\
track 1 3 6\n\
ra 10000000 59001260000 100000000 1020100000000 2020000 1\n\
dec 5000000 59001260000 10100 0 -3 0\n\
ids a1 a2 b1 b2 c1 c2\n";

#[test]
fn tracklets_by_stages(rt: HostRuntime) -> Result<(), Fail> {
    let rows: [Row<'_>; 5] = [
        (
            "collapse_and_purge_of_one_night",
            &[FOUR_LINES],
            Status::Done,
            &[
                FOUR_ACCEPTED,
                "tracklets 59000 1\ntracklet p1 p2 p4\ntracklets 59001 0\n",
            ],
        ),
        (
            "collapse alone",
            &["!set stages 2\n", FOUR_LINES],
            Status::Done,
            &[
                "set stages 2\n",
                FOUR_ACCEPTED,
                "tracklets 59000 1\ntracklet p1 p2 p3 p4\ntracklets 59001 0\n",
            ],
        ),
        (
            "pairs alone",
            &["!set stages 1\n", FOUR_LINES],
            Status::Done,
            &[
                "set stages 1\n",
                FOUR_ACCEPTED,
                "tracklets 59000 6\n\
tracklet p1 p2\n\
tracklet p1 p3\n\
tracklet p1 p4\n\
tracklet p2 p3\n\
tracklet p2 p4\n\
tracklet p3 p4\n\
tracklets 59001 0\n",
            ],
        ),
        (
            "late_detection_joins_a_tracklet",
            &[
                WINDOW,
                A1,
                A2,
                B1,
                B2,
                C1,
                C2,
                "!report\n\
b3 59001.290000 10.104000 5.000000 20.0 568 obj1\n\
!tracklets 59001\n\
!report\n",
            ],
            Status::Done,
            &[
                WINDOW_SET,
                SIX_ACCEPTED,
                ONE_TRACK,
                "exposure 59001290000 568 accepted 1\n\
tracklets 59001 1\n\
tracklet b1 b2 b3\n\
report 59000 59015 1\n\
track 1 3 7\n\
ra 10000000 59001260000 10100 1020100000 1007 0\n\
dec 5000000 59001260000 10100 0 -3 0\n\
ids a1 a2 b1 b2 b3 c1 c2\n",
            ],
        ),
        (
            "thirty_nights",
            &[
                "!window 59000 59029\n",
                A1,
                A2,
                "b1 59014.250000 11.400000 5.000000 20.0 568 obj1\n\
b2 59014.270000 11.402000 5.000000 20.0 568 obj1\n\
c1 59029.250000 12.900000 5.000000 20.0 568 obj1\n\
c2 59029.270000 12.902000 5.000000 20.0 568 obj1\n\
!report\n",
            ],
            Status::Done,
            &[
                "window 59000 59029\n\
exposure 59000250000 568 accepted 1\n\
exposure 59000270000 568 accepted 1\n\
exposure 59014250000 568 accepted 1\n\
exposure 59014270000 568 accepted 1\n\
exposure 59029250000 568 accepted 1\n\
exposure 59029270000 568 accepted 1\n\
report 59000 59029 1\n\
track 1 3 6\n\
ra 10000000 59014760000 145100 210540100000 14507 0\n\
dec 5000000 59014760000 145100 0 -3 0\n\
ids a1 a2 b1 b2 c1 c2\n",
            ],
        ),
    ];
    expect_rows(&rt, &rows)
}

#[test]
fn tracks_at_their_limits(rt: HostRuntime) -> Result<(), Fail> {
    let none = "report 59000 59015 0\n";
    let bent = [
        "10 5",
        "10.000004 5",
        "10.01 5",
        "10.010404 5",
        "10.04 5",
        "10.040804 5",
    ];
    expect_report(
        &rt,
        "acceleration_at_its_limit",
        &["tol_ra 0"],
        bent,
        BENT_TRACK,
    )?;
    let set = ["tol_ra 0", "acc_ra 19999"];
    expect_report(&rt, "acceleration beyond its limit", &set, bent, none)?;
    let beside = [
        "10 5",
        "10.002 5",
        "10.1 5",
        "10.102 5",
        "10.2 5",
        "10.202001 5",
    ];
    expect_report(&rt, "misfit_of_four", &["tol_ra 0"], beside, none)?;
    let set = ["tol_ra 0", "acc_ra 0"];
    expect_report(
        &rt,
        "misfit_of_three_without_acceleration",
        &set,
        beside,
        none,
    )
}
