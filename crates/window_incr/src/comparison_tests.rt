//! Reports beside an enumeration of all fitting sets, over made-up skies of few nights.
ghost use Rattle.std.specs.Prelude.{◌≤◌};

use crate::Linker;
use crate::tests::{enumerated, hold, linker_of, reported};
use std::alloc::Global;
use std::test::Fail;

/// The next of some numbers that look drawn, below a limit.
fn draw(state: &mut u64, below: u64) -> u64
    ensures { result ≤ below }
{
    *state = state
        .wrapping_mul(6_364_136_223_846_793_005)
        .wrapping_add(1_442_695_040_888_963_407);
    (*state >> 33) % below.max(1)
}

/// The lines of one part of a made-up sky: two objects in each of four nights, each twice, which move
/// so near one another that tracklets and tracks of both come about. Some detections are left out, in a
/// second part most, so that a later part makes tracklets beside those of the first one.
fn made_up_lines(alloc: Global, state: &mut u64, part: u64) -> Result<String, Fail> {
    let mut lines = String::new(alloc);
    let left_out = if part == 0 { 2 } else { 6 };
    for night in 0..4_u64 {
        for object in 0..2_u64 {
            let start = 10_000_000 + 400 * draw(state, 3) * object;
            let bend = draw(state, 2) * 300 * night;
            for epoch in 0..2_u64 {
                if draw(state, 8) < left_out {
                    continue;
                }
                let ra = start + 100_000 * night + 2_000 * epoch + bend;
                let end = if lines.is_empty() { "" } else { "\n" };
                let line = format!(in alloc;
                    "{end}p{part}n{night}o{object}e{epoch} {}.2{}{part} {}.{:06} 5.000{object} 20 568 o",
                    59_000 + night,
                    5 + epoch * 2,
                    ra / 1_000_000,
                    ra % 1_000_000
                )?;
                lines.push_str(line.as_str())?;
            }
        }
    }
    Ok(lines)
}

/// Whether a report has as many tracks as the enumeration, after each of two parts of a sky.
fn agree(linker: &mut Linker, alloc: Global, seed: u64) -> Result<bool, Fail> {
    let mut state = seed;
    let mut same = true;
    for part in 0..2_u64 {
        let lines = made_up_lines(alloc, &mut state, part)?;
        hold(linker, alloc, lines.as_str())?;
        same &= reported(linker)? == enumerated(linker, alloc)?;
    }
    Ok(same)
}

#[test]
fn made_up_skies_as_enumerated(rt: HostRuntime) -> Result<(), Fail> {
    let alloc = rt.alloc();
    for seed in 0..100_u64 {
        let mut linker = linker_of(alloc)?;
        assert!(rt; agree(&mut linker, alloc, seed)?, "{seed}");
    }
    Ok(())
}
