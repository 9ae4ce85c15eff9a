//! The maximal tracks of one object whose nights come one after another.
ghost use Rattle.std.specs.Prelude.{◌≡◌, ◌<◌, ◌≤◌, ◌+◌, ◌*◌, pos};

use crate::KeptTracks;
use night_tree::Night;
use sky_units::{NoMemory, Settings, Spot, Tally, TrackSet, joined_spots};
use std::alloc::{AllocError, Global};

#[test]
fn nights_of_one_object(rt: HostRuntime) -> Result<(), NoMemory> {
    // The sets of the first three nights grow with the fourth.
    let rows = [
        (0, "[]"),
        (2, "[]"),
        (3, "[[0, 1, 2, 3, 4, 5]]"),
        (4, "[[0, 1, 2, 3, 4, 5, 6, 7]]"),
    ];
    let settings = Settings::standard();
    for row in rows.as_slice() {
        let (count, tracks) = *row;
        let found = tracks_after(rt.alloc(), if count < 4 { count } else { 4 }, &settings)?;
        let lists = numbers_of(rt.alloc(), found.as_slice())?;
        let text = format!(in rt.alloc(); "{lists:?}")?;
        assert_eq!(rt; text.as_str(), tracks);
    }
    Ok(())
}

/// The numbers of the spots of each track.
fn numbers_of(alloc: Global, tracks: &[TrackSet]) -> Result<Vec<Vec<u32>>, NoMemory> {
    let mut lists = Vec::new(alloc);
    for track in tracks {
        let spots = joined_spots(alloc, track.tracklets())?;
        lists.push(spots.iter().map(|spot| spot.num).collect(alloc)?)?;
    }
    Ok(lists)
}

/// The maximal tracks of so many nights, one day apart, each with two spots of one object.
fn tracks_after(alloc: Global, count: u32, settings: &Settings) -> Result<Vec<TrackSet>, NoMemory>
    requires { count ≤ 4 }
{
    let mut tally = Tally::zero();
    let mut kept = KeptTracks::new(alloc);
    let mut nights = Vec::new(alloc);
    for day in 0..count {
        let spots = vec![in alloc; spot(day, 0), spot(day, 1)]?;
        let night = Night::build(alloc, i64::from(59_000 + day), spots, settings)?;
        // Two spots make at most one tracklet.
        if night.tracklets().len() > 1 {
            return Err(AllocError);
        }
        kept.renew(alloc, &mut nights, night, settings, &mut tally)?;
    }
    kept.maximal(alloc, nights.as_slice())
}

/// The first or second spot of a day: the object moves 100,000 units of right ascension a day, and
/// so 2,000 in the 20,000 ticks between the two.
fn spot(day: u32, place: u32) -> Spot
    requires day { day < 4 }
    requires place { place < 2 }
    ensures num { result.num ≡ 2 * day + place }
    ensures epoch { result.epoch ≡ pos (59000250000 + 1000000 * day + 20000 * place) }
{
    let (days, places) = (i64::from(day), i64::from(place));
    Spot {
        num: 2 * day + place,
        epoch: 59_000_250_000 + 1_000_000 * days + 20_000 * places,
        ra: 10_000_000 + 100_000 * days + 2_000 * places,
        dec: 5_000_000,
    }
}
