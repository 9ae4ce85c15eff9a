//! Sets of one tracklet each, written as the numbers of their spots.
use crate::drop_subsets;
use crate::numbers::numbers_of_each;
use sky_units::{NoMemory, Spot, TrackSet, Tracklet};
use std::alloc::Global;

#[test]
fn contained_sets_go(rt: HostRuntime) -> Result<(), NoMemory> {
    let rows = [
        [1, 2, 3].as_slice(),
        [1, 2, 3, 4].as_slice(),
        [5, 6].as_slice(),
        [2, 3, 7].as_slice(),
        [5, 6].as_slice(),
        [1, 4].as_slice(),
    ];
    let mut list = Vec::new(rt.alloc());
    for row in rows.as_slice() {
        if let Some(set) = set_of(rt.alloc(), *row)? {
            list.push(set)?;
        }
    }
    let kept = drop_subsets(rt.alloc(), list)?;
    let numbers = numbers_of_each(rt.alloc(), kept.as_slice())?;
    let text = format!(in rt.alloc(); "{numbers:?}")?;
    assert_eq!(rt; text.as_str(), "[[1, 2, 3, 4], [5, 6], [2, 3, 7]]");
    Ok(())
}

/// A set of one tracklet, whose spots have these numbers, which rise, and epochs in their order.
fn set_of(alloc: Global, numbers: &[u32]) -> Result<Option<TrackSet>, NoMemory> {
    let mut spots = Vec::new(alloc);
    for number in numbers {
        spots.push(spot(*number))?;
    }
    let Some(tracklet) = Tracklet::from_spots(spots) else {
        return Ok(None);
    };
    Ok(TrackSet::from_tracklets(vec![in alloc; tracklet]?))
}

/// The spot of a number.
fn spot(num: u32) -> Spot {
    Spot {
        num,
        epoch: 59_000_000_000 + i64::from(num),
        ra: 10_000_000,
        dec: 5_000_000,
    }
}
