//! The maximal tracks of one object that was seen in some nights.
ghost use Rattle.std.specs.Prelude.{◌≡◌, ◌<◌, ◌≤◌, ◌+◌, ◌*◌, pos, IfOk};
ghost use Rattle.sky_units.specs.Tracks.{AreNights};
ghost use Rattle.night_tree.specs.Nights.{tracklets_of_each};

use crate::maximal::numbers_of_each;
use crate::{maximal_tracks, maximal_tracks_exist};
use night_tree::Night;
use sky_units::{NoMemory, Settings, Spot};
use std::alloc::Global;

#[test]
fn tracks_of_one_object(rt: HostRuntime) -> Result<(), NoMemory> {
    maximal_tracks_exist();

    // Two nights make no track.
    let tracks = tracks_of(rt.alloc(), 2)?;
    assert_eq!(rt; tracks.len(), 0);

    let tracks = tracks_of(rt.alloc(), 3)?;
    assert_eq!(rt; tracks.len(), 1);
    assert_eq!(rt; tracks[0].as_slice(), [0, 1, 2, 3, 4, 5].as_slice());

    // Each three of four tracklets are a track too, but a part of the track of all four.
    let tracks = tracks_of(rt.alloc(), 4)?;
    assert_eq!(rt; tracks.len(), 1);
    assert_eq!(rt; tracks[0].as_slice(), [0, 1, 2, 3, 4, 5, 6, 7].as_slice());
    Ok(())
}

/// The numbers of the spots of each maximal track of so many nights.
fn tracks_of(alloc: Global, count: u32) -> Result<Vec<Vec<u32>>, NoMemory>
    requires { count ≤ 4 }
{
    let settings = Settings::standard();
    let nights = nights_of(alloc, count, &settings)?;
    let list = maximal_tracks(alloc, nights.as_slice(), &settings)?;
    numbers_of_each(alloc, list.as_slice())
}

/// So many nights, one day apart, each with two spots of one object.
fn nights_of(alloc: Global, count: u32, settings: &Settings) -> Result<Vec<Night>, NoMemory>
    requires { count ≤ 4 }
    ensures { IfOk result (λ nights. AreNights (tracklets_of_each nights.items)) }
{
    let mut nights = Vec::new(alloc);
    for day in 0..count {
        let spots = vec![in alloc; spot(day, 0), spot(day, 1)]?;
        nights.push(Night::build(alloc, 59_000 + i64::from(day), spots, settings)?)?;
    }
    Ok(nights)
}

/// The first or second spot of a day: the object moves 100,000 units of right ascension a day, and
/// so 2,000 in the 20,000 ticks between the two.
fn spot(day: u32, place: u32) -> Spot
    requires day { day < 4 }
    requires place { place < 2 }
    ensures num { result.num ≡ 2 * day + place }
    ensures epoch { result.epoch ≡ pos (59000250000 + 1000000 * day + 20000 * place) }
{
    let (days, places) = (i64::from(day), i64::from(place));
    Spot {
        num: 2 * day + place,
        epoch: 59_000_250_000 + 1_000_000 * days + 20_000 * places,
        ra: 10_000_000 + 100_000 * days + 2_000 * places,
        dec: 5_000_000,
    }
}
