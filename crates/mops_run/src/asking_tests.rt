//! Whole runs of the program: what asked detections are, or why asked ids have no answer.
use crate::tests::{
    A1, A2, B1, B2, C1, C2, Row, SIX_ACCEPTED, WINDOW, WINDOW_SET, expect_rows, expect_watch,
    six_lines_at,
};
use crate::top::Status;
use std::process::Abort;
use std::test::Fail;

/// Four nights of one object, and a detection of the first night that is in no tracklet.
const NINE_LINES: &str = "a1 59000.250000 10.000000 5.000000 20.0 568 obj1\n\
a2 59000.270000 10.002000 5.000000 20.0 568 obj1\n\
b1 59001.250000 10.100000 5.000000 20.0 568 obj1\n\
b2 59001.270000 10.102000 5.000000 20.0 568 obj1\n\
c1 59002.250000 10.200000 5.000000 20.0 568 obj1\n\
c2 59002.270000 10.202000 5.000000 20.0 568 obj1\n\
d1 59003.250000 10.300000 5.000000 20.0 568 obj1\n\
d2 59003.270000 10.302000 5.000000 20.0 568 obj1\n\
x 59000.260000 200.000000 5.000000 20.0 568 other\n";

const NINE_ACCEPTED: &str = "exposure 59000250000 568 accepted 1\n\
exposure 59000260000 568 accepted 1\n\
exposure 59000270000 568 accepted 1\n\
exposure 59001250000 568 accepted 1\n\
exposure 59001270000 568 accepted 1\n\
exposure 59002250000 568 accepted 1\n\
exposure 59002270000 568 accepted 1\n\
exposure 59003250000 568 accepted 1\n\
exposure 59003270000 568 accepted 1\n";

/// Asks for six detections at these right ascensions under some settings, each a name and a value,
/// and compares the answer.
fn expect_asked(
    rt: &(impl Abort + AllocGlobal),
    name: &str,
    settings: &[&str],
    ra: [&str; 6],
    answer: &str,
) -> Result<(), Fail> {
    let alloc = rt.alloc();
    let mut set = String::new(alloc);
    let mut said = String::new(alloc);
    for setting in settings {
        set.push_str(format!(in alloc; "!set {setting}\n")?.as_str())?;
        said.push_str(format!(in alloc; "set {setting}\n")?.as_str())?;
    }
    let lines = six_lines_at(alloc, ra)?;
    expect_watch(
        rt,
        name,
        &[
            set.as_str(),
            WINDOW,
            lines.as_str(),
            "!ask a1 a2 b1 b2 c1 c2\n",
        ],
        Status::Done,
        &[said.as_str(), WINDOW_SET, SIX_ACCEPTED, answer],
    )
}

#[test]
fn six_asked_detections(rt: HostRuntime) -> Result<(), Fail> {
    let far = ["10 5", "10.002 5", "55 5", "55.002 5", "99.998 5", "100 5"];
    let near = [
        "10 5",
        "10.002 5",
        "55 5",
        "55.002 5",
        "99.998 5",
        "99.999999 5",
    ];
    let bowed = [
        "10 5",
        "10.002 5",
        "10.100601 5",
        "10.102601 5",
        "10.2 5",
        "10.202 5",
    ];
    let bent = [
        "10 5",
        "10.000004 5",
        "10.01 5",
        "10.010404 5",
        "10.04 5",
        "10.040804 5",
    ];
    let last_off = [
        "10 5",
        "10.002 5",
        "10.1 5",
        "10.102 5",
        "10.2 5",
        "10.202001 5",
    ];
    let rows = [
        ("asked_too_far_apart", "", far, "ask spread ra a1 c2\n"),
        (
            "asked_misfit_of_three",
            "",
            near,
            "ask misfit ra 3 a1 a2 b1 dec 0\n",
        ),
        (
            "straight lines beside the tolerance",
            "acc_ra 0",
            bowed,
            "ask misfit ra 3 a1 b1 c1 dec 0\n",
        ),
    ];
    for (name, setting, ra, answer) in rows {
        let settings = [setting];
        let set: &[&str] = if setting.is_empty() { &[] } else { &settings };
        expect_asked(&rt, name, set, ra, answer)?;
    }
    for (name, acceleration, ra, answer) in [
        (
            "acceleration beyond its limit",
            "acc_ra 19999",
            bent,
            "ask misfit ra 3 a1 a2 b1 dec 0\n",
        ),
        (
            "misfit_of_four",
            "acc_ra 20000",
            last_off,
            "ask misfit ra 4 a1 a2 b1 c2 dec 0\n",
        ),
        (
            "misfit_of_three_without_acceleration",
            "acc_ra 0",
            last_off,
            "ask misfit ra 3 a1 a2 c2 dec 0\n",
        ),
    ] {
        expect_asked(&rt, name, &["tol_ra 0", acceleration], ra, answer)?;
    }
    Ok(())
}

#[test]
fn asked_ids(rt: HostRuntime) -> Result<(), Fail> {
    let mut most = String::new(rt.alloc());
    most.push_str("!ask")?;
    for _ in 0..340 {
        most.push_str(" a1")?;
    }
    let rows: [Row<'_>; 4] = [
        (
            "two_nights_are_no_track",
            &[WINDOW, A1, A2, B1, B2, "!report\n!ask a1 a2 b1 b2\n"],
            Status::Done,
            &[
                WINDOW_SET,
                "exposure 59000250000 568 accepted 1\n\
exposure 59000270000 568 accepted 1\n\
exposure 59001250000 568 accepted 1\n\
exposure 59001270000 568 accepted 1\n\
report 59000 59015 0\n\
ask nights 2\n",
            ],
        ),
        (
            "asked_sets",
            &[
                WINDOW,
                NINE_LINES,
                "!ask a1 a2 b1 b2 c1 c2 d1 d2\n!ask b1 b2 c1 c2 d1 d2\n!ask a1 zz\n\
!ask a1 b1 a1\n!ask a1 b1 b2 c1 c2\n!ask d2 c1 a1 b2 b1 a2 c2 d1\n",
            ],
            Status::DoneWithRefusals,
            &[
                WINDOW_SET,
                NINE_ACCEPTED,
                "ask listed 1\nask inside 1\nask refused unknown zz\n\
ask refused twice a1\nask untracked 59000\nask listed 1\n",
            ],
        ),
        (
            "ids of every wrong kind",
            &[
                WINDOW,
                NINE_LINES,
                "!ask a1 zz zz a1\n!ask !a a1\n!ask #a\n!ask x\n!ask a1 a2 x b1 b2 c1 c2\n!ask a1 a2 b1\n\
!ask b1 b2 a1\n!ask a1 a2\n",
                most.as_str(),
                "\n",
                most.as_str(),
                " a1\n!stats\n",
            ],
            Status::DoneWithRefusals,
            &[
                WINDOW_SET,
                NINE_ACCEPTED,
                "ask refused unknown zz\nask refused unknown !a\nask refused unknown #a\n\
ask untracked 59000\nask untracked 59000\nask untracked 59001\n\
ask untracked 59000\nask nights 1\n\
ask refused twice a1\nline 20 refused long\nstats 9 9 4 1\n",
            ],
        ),
        (
            "nothing held",
            &[
                "!ask a1\n",
                WINDOW,
                C1,
                C2,
                "!window 59003 59018\n!ask c1 c2",
            ],
            Status::DoneWithRefusals,
            &[
                "ask refused unknown a1\n",
                WINDOW_SET,
                "exposure 59002250000 568 accepted 1\n\
exposure 59002270000 568 accepted 1\n\
window 59003 59018\nask refused unknown c1\n",
            ],
        ),
    ];
    expect_rows(&rt, &rows)
}
