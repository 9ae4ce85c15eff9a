//! The tracklets of one night, by stage: pairs, groups, or purged groups.
ghost use Rattle.std.specs.Prelude.{◌≡◌, ◌<◌, ◌^◌, false, pos, IfOk, length};
ghost use Rattle.std.specs.List.{All, filter_map};
ghost use Rattle.std.specs.Ordering.{int_eq};
ghost use Rattle.sky_units.specs.Pairs.{EpochsDontFall, pairs_of};
ghost use Rattle.line_fit.specs.Slopes.{AreOfOneDay};
ghost use Rattle.purge.specs.Purging.{purge_of};
ghost use Rattle.night_tree.specs.Nights.{sets_of, tracklets_of};
ghost use Rattle.night_tree.specs.Tracklets.{IsGroup};

use crate::listing::{tracklets_at, tracklets_of_pairs};
use collapse::collapse;
use pair_finder::pairs;
use purge::purge_places;
use sky_units::{NoMemory, Places, Settings, Spot, Tracklet};
use std::alloc::Global;

/// The tracklets of a night by stage: 1 its pairs, 2 its groups, 3 what is left of each group by
/// the purge.
///
/// `spots` are fewer than 2^32, of epochs that don't fall and of one day.
pub fn tracklets_of(
    alloc: Global,
    spots: &[Spot],
    settings: &Settings,
) -> Result<Vec<Tracklet>, NoMemory>
    requires few { length spots.now < 2 ^ 32 }
    requires order { EpochsDontFall spots.now }
    requires day { AreOfOneDay spots.now }
    ensures { IfOk result (λ tracklets. tracklets.items ≡ tracklets_of settings.now spots.now) }
{
    let pairs = pairs(alloc, spots, settings)?;
    if settings.stages == 1 {
        return tracklets_of_pairs(alloc, spots, pairs.as_slice());
    }
    let sets = sets_of(alloc, spots, pairs.as_slice(), settings)?;
    tracklets_at(alloc, spots, sets)
}

/// The sets of places behind stage 1.
fn sets_of(
    alloc: Global,
    spots: &[Spot],
    pairs: &[(u32, u32)],
    settings: &Settings,
) -> Result<Vec<Places>, NoMemory>
    requires few { length spots.now < 2 ^ 32 }
    requires order { EpochsDontFall spots.now }
    requires day { AreOfOneDay spots.now }
    requires pairs { pairs.now ≡ pairs_of settings.now spots.now }
    requires stages { int_eq settings.now.stages (pos 1) ≡ false }
    ensures { IfOk result (λ sets. sets.items ≡ sets_of settings.now spots.now) }
{
    let groups = collapse(alloc, spots, pairs, settings)?;
    if settings.stages == 2 {
        return Ok(groups);
    }
    purge_each(alloc, spots, groups, settings)
}

/// What is left of each group by the purge, where that is two places or more.
fn purge_each(
    alloc: Global,
    spots: &[Spot],
    groups: Vec<Places>,
    settings: &Settings,
) -> Result<Vec<Places>, NoMemory>
    requires { All (IsGroup spots.now) groups.items }
    ensures { IfOk result (λ sets. sets.items ≡
        filter_map (purge_of settings.now spots.now) groups.items) }
{
    let mut sets = Vec::new(alloc);
    for group in groups {
        if let Some(left) = purge_places(alloc, spots, group, settings)? {
            sets.push(left)?;
        }
    }
    Ok(sets)
}
