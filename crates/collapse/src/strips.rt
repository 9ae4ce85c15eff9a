//! Strips of the sky in declination, with the groups that have a spot there.

ghost use Rattle.std.specs.Prelude.{◌≡◌, ◌<◌, ◌≤◌, ◌+◌, ◌/◌, pos, neg_ℤ, ◌*ℤ◌, ◌≤ℤ◌, length, map, IfOk, OnOk};
ghost use Rattle.std.specs.List.Sorted.{IsPartitionPoint};
ghost use Rattle.sky_units.specs.Pairs.{EpochsDontFall};
ghost use Rattle.sky_units.specs.Ranges.{IsBetween};
ghost use Rattle.line_fit.specs.Slopes.{AreOfOneDay};
ghost use Rattle.collapse.specs.Strips.{AreEmpty, IsGrid, IsReach, IsReachOver, PlacesDontFall, height, with_entry};

use crate::reaching::reach;
use sky_units::{NoMemory, Settings, Spot};
use std::alloc::Global;

/// From pole to pole, in 10^-6 degree.
const POLE_TO_POLE: u32 = 180_000_000;

/// A group by its number, and one of its places.
#[derive(Clone, Copy)]
pub struct Entry {
    pub place: u32,
    pub group: usize,
}

/// How wide strips are, and how far apart two spots of a line may lie in declination, in 10^-6 degree.
#[derive(Clone, Copy)]
pub struct Grid {
    pub width: u32,
    pub reach: u32,
}

/// The grid for so many pairs of the spots of a night: strips no narrower than the reach, and no more
/// strips than pairs.
pub fn grid_of(spots: &[Spot], count: usize, settings: &Settings) -> Grid
    requires order { EpochsDontFall spots.now }
    requires day { AreOfOneDay spots.now }
    ensures { IsGrid settings.now spots.now result.width result.reach }
{
    let reach = reach_of(spots, settings);
    Grid {
        width: reach.max(share(count)),
        reach,
    }
}

/// The width of strips, of which there are about so many.
fn share(count: usize) -> u32 {
    let width = POLE_TO_POLE as usize / count.max(1);
    width as u32
}

/// How far apart two spots of a line may lie in declination, in the time of all the spots.
fn reach_of(spots: &[Spot], settings: &Settings) -> u32
    requires order { EpochsDontFall spots.now }
    requires day { AreOfOneDay spots.now }
    ensures positive { 0 < result }
    ensures small { result ≤ 20000001 }
    ensures covers { IsReach settings.now spots.now result }
{
    let _ = &settings.rate_dec;
    if spots.is_empty() {
        return 1;
    }
    let first = &spots[0];
    let last = &spots[spots.len() - 1];
    reach_over(last.epoch - first.epoch, settings)
}

/// How far apart two spots of a line may lie in declination, so many ticks after one another.
fn reach_over(ticks: i64, settings: &Settings) -> u32
    requires { IsBetween (pos 0) (pos 1000000) ticks }
    ensures positive { 0 < result }
    ensures small { result ≤ 20000001 }
    ensures covers { IsReachOver settings.now ticks result }
{
    let units = reach(settings.rate_dec, settings.line_tol, ticks);
    whole_units(units)
}

/// A number of 10^-6 units in whole units, and one more.
fn whole_units(parts: i64) -> u32
    requires { IsBetween (neg_ℤ (pos 20000000000000)) (pos 20000000000000) parts }
    ensures positive { 0 < result }
    ensures small { result ≤ 20000001 }
    ensures covers { parts ≤ℤ (pos result *ℤ pos 1000000) }
{
    let parts = parts.max(0) as u64;
    (parts / 1_000_000) as u32 + 1
}

/// No groups in any strip.
pub fn empty_strips(alloc: Global, grid: Grid) -> Result<Vec<Vec<Entry>>, NoMemory>
    requires { 0 < grid.width }
    ensures { IfOk result (λ strips. AreEmpty grid.width (map (λ list. list.items) strips.items)) }
{
    let mut strips = Vec::new(alloc);
    for _ in 0..POLE_TO_POLE / grid.width + 1 {
        strips.push(Vec::new(alloc))?;
    }
    Ok(strips)
}

/// The strip of a spot, by its declination.
pub fn strip_of(width: u32, spot: &Spot) -> usize
    requires { 0 < width }
    ensures value { result ≡ height spot.now / width }
    ensures size { result ≤ 180000000 / width }
{
    (height(spot) / width) as usize
}

/// How far a spot lies from the south pole, in 10^-6 degree.
pub fn height(spot: &Spot) -> u32
    ensures value { result ≡ height spot.now }
    ensures size { result ≤ 180000000 }
{
    (spot.dec + 90_000_000) as u32
}

/// Adds an entry to a strip.
pub fn file(strips: &mut Vec<Vec<Entry>>, strip: usize, entry: Entry) -> Result<(), NoMemory>
    requires { strip < length strips.now.items }
    ensures { OnOk result (map (λ list. list.items) strips.new.items ≡
        with_entry (map (λ list. list.items) strips.old.items) strip entry) }
{
    strips[strip].push(entry)?;
    Ok(())
}

/// How many entries, in the order of their places, stand before those of a place and of later ones.
pub fn count_before(entries: &[Entry], place: u32) -> usize
    requires { PlacesDontFall entries.now }
    ensures within { result ≤ length entries.now }
    ensures parts { IsPartitionPoint (λ entry. entry.place < place) (λ entry. place ≤ entry.place)
        entries.now result }
{
    entries.partition_point(|entry| entry.place < place)
}
