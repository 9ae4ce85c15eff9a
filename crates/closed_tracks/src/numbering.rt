//! The tracklets of some nights in one list, numbered by their places in it.
ghost use Rattle.std.specs.Prelude.{◌≡◌, ◌++◌, IfOk, OnOk, length, map};
ghost use Rattle.std.specs.List.{range_with_len};
ghost use Rattle.closed_tracks.specs.InOneList.{all_places, all_tracklets, numbered_from, place_in};

use night_tree::Night;
use set_grow::{NumberedNight, Place};
use sky_units::{NoMemory, Tracklet};
use std::alloc::{AllocError, Global};

/// The tracklets of all nights, one night after the other.
pub fn tracklets_of<'a>(alloc: Global, nights: &'a [Night]) -> Result<Vec<&'a Tracklet>, NoMemory>
    ensures { IfOk result (λ tracklets.
        map (λ tracklet. tracklet.now) tracklets.items ≡ all_tracklets nights.now) }
{
    let mut tracklets = Vec::new(alloc);
    for night in nights {
        push_tracklets(&mut tracklets, night.tracklets())?;
    }
    Ok(tracklets)
}

/// Adds the tracklets of a night.
fn push_tracklets<'a>(
    tracklets: &mut Vec<&'a Tracklet>,
    night: &'a [Tracklet],
) -> Result<(), NoMemory>
    ensures { OnOk result (map (λ tracklet. tracklet.now) tracklets.new.items ≡
        map (λ tracklet. tracklet.now) tracklets.old.items ++ night.now) }
{
    for tracklet in night {
        tracklets.push(tracklet)?;
    }
    Ok(())
}

/// The places of all tracklets, in the same order.
pub fn places_of(alloc: Global, nights: &[Night]) -> Result<Vec<Place>, NoMemory>
    ensures { IfOk result (λ places. places.items ≡ all_places nights.now) }
{
    let mut places = Vec::new(alloc);
    for night in nights {
        push_places(&mut places, night.number(), night.tracklets().len())?;
    }
    Ok(places)
}

/// Adds the places of so many tracklets of a night.
fn push_places(places: &mut Vec<Place>, night: i64, count: usize) -> Result<(), NoMemory>
    ensures { OnOk result (places.new.items ≡
        places.old.items ++ map (place_in night) (range_with_len 0 count)) }
{
    let count = small(count)?;
    for place in 0..count {
        places.push(Place { night, place })?;
    }
    Ok(())
}

/// The numbers from 0 to just below a count.
pub fn numbers_below(alloc: Global, count: usize) -> Result<Vec<u32>, NoMemory>
    ensures { IfOk result (λ numbers. numbers.items ≡ range_with_len 0 count) }
{
    let count = small(count)?;
    (0..count).collect(alloc)
}

/// A count in 32 bits. One of 2^32 or more is refused: there is no room for so many tracklets.
fn small(count: usize) -> Result<u32, NoMemory>
    ensures { IfOk result (λ small. small ≡ count) }
{
    let Ok(small) = u32::try_from(count) else {
        return Err(AllocError);
    };
    Ok(small)
}

/// The nights with these numbers for their tracklets, one night after the other.
pub fn numbered<'a>(
    alloc: Global,
    nights: &'a [Night],
    numbers: &'a [u32],
) -> Result<Vec<NumberedNight<'a>>, NoMemory>
    requires { numbers.now ≡ range_with_len 0 (length (all_tracklets nights.now)) }
    ensures { IfOk result (λ numbered. numbered.items ≡ numbered_from 0 nights.now) }
{
    let mut numbered = Vec::with_capacity(alloc, nights.len())?;
    let mut left = numbers;
    for night in nights {
        let (own, others) = left.split_at(night.tracklets().len());
        numbered.push(NumberedNight::of(night, own))?;
        left = others;
    }
    Ok(numbered)
}
