//! The maximal tracks of one object that was seen in some nights.
ghost use Rattle.std.specs.Prelude.{◌≡◌, ◌<◌, ◌≤◌, ◌+◌, ◌*◌, ◌<ℤ◌, pos, IfOk};
ghost use Rattle.std.specs.List.{All};
ghost use Rattle.sky_math.specs.Lists.{EachTwo};
ghost use Rattle.sky_units.specs.Tracks.{AreNights};
ghost use Rattle.night_tree.specs.Nights.{tracklets_of_each};

use crate::maximal_tracks;
use night_tree::Night;
use sky_units::{NoMemory, Settings, Spot, joined_spots};
use std::alloc::{AllocError, Global};

#[test]
fn tracks_of_one_object(rt: HostRuntime) -> Result<(), NoMemory> {
    // Each three of four tracklets are a track too, but a part of the track of all four.
    let rows = [
        (0, "[]"),
        (2, "[]"),
        (3, "[[0, 1, 2, 3, 4, 5]]"),
        (4, "[[0, 1, 2, 3, 4, 5, 6, 7]]"),
    ];
    for row in rows.as_slice() {
        let (count, tracks) = *row;
        let found = tracks_of(rt.alloc(), count)?;
        let text = format!(in rt.alloc(); "{found:?}")?;
        assert_eq!(rt; text.as_str(), tracks);
    }
    Ok(())
}

/// The numbers of the spots of each maximal track of at most four nights.
fn tracks_of(alloc: Global, count: u32) -> Result<Vec<Vec<u32>>, NoMemory> {
    let settings = Settings::standard();
    let nights = nights_of(alloc, count.min(4), &settings)?;
    let tracks = maximal_tracks(alloc, nights.as_slice(), &settings)?;
    let mut lists = Vec::new(alloc);
    for track in &tracks {
        let spots = joined_spots(alloc, track.tracklets())?;
        lists.push(spots.iter().map(|spot| spot.num).collect(alloc)?)?;
    }
    Ok(lists)
}

/// So many nights, one day apart, each with two spots of one object.
fn nights_of(alloc: Global, count: u32, settings: &Settings) -> Result<Vec<Night>, NoMemory>
    requires { count ≤ 4 }
    ensures follow { IfOk result (λ nights. AreNights (tracklets_of_each nights.items)) }
    ensures rising { IfOk result (λ nights.
        EachTwo (λ one later. one.number <ℤ later.number) nights.items) }
    ensures different { IfOk result (λ nights.
        All (EachTwo (λ one other. one ≡ other → ⊥)) (tracklets_of_each nights.items)) }
{
    let mut nights = Vec::new(alloc);
    for day in 0..count {
        let spots = vec![in alloc; spot(day, 0), spot(day, 1)]?;
        let night = Night::build(alloc, i64::from(59_000 + day), spots, settings)?;
        // Two spots make at most one tracklet.
        if night.tracklets().len() > 1 {
            return Err(AllocError);
        }
        nights.push(night)?;
    }
    Ok(nights)
}

/// The first or second spot of a day: the object moves 100,000 units of right ascension a day, and
/// so 2,000 in the 20,000 ticks between the two.
fn spot(day: u32, place: u32) -> Spot
    requires day { day < 4 }
    requires place { place < 2 }
    ensures num { result.num ≡ 2 * day + place }
    ensures epoch { result.epoch ≡ pos (59000250000 + 1000000 * day + 20000 * place) }
{
    let (days, places) = (i64::from(day), i64::from(place));
    Spot {
        num: 2 * day + place,
        epoch: 59_000_250_000 + 1_000_000 * days + 20_000 * places,
        ra: 10_000_000 + 100_000 * days + 2_000 * places,
        dec: 5_000_000,
    }
}
