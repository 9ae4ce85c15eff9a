//! A group whose worst spots are dropped.

ghost use Rattle.std.specs.Prelude.{◌≡◌, ◌<◌, length, IfOk};
ghost use Rattle.std.specs.List.{All};
ghost use Rattle.std.specs.Option.{option_map};
ghost use Rattle.sky_units.specs.Arcs.{IsArc};
ghost use Rattle.sky_units.specs.AtPlaces.{spots_at};
ghost use Rattle.line_fit.specs.Slopes.{AreOfOneDay};
ghost use Rattle.purge.specs.Purging.{purge_of};

use crate::farthest::worst;
use line_fit::fits_line;
use sky_units::{NoMemory, Places, Settings, Spot, Tracklet, spots_at};
use std::alloc::Global;

/// The tracklet that is left of a group: the spots at the places that `purge_places` leaves. None where
/// fewer than two are left.
///
/// The group's places, in rising order, are those of spots of one day, whose epochs differ and which
/// meet the spread rule.
pub fn purge(
    alloc: Global,
    spots: &[Spot],
    group: &Places,
    settings: &Settings,
) -> Result<Option<Tracklet>, NoMemory>
    requires within { All (λ p. p < length spots.now) group.now }
    requires arc { IsArc (spots_at spots.now group.now) }
    requires day { AreOfOneDay (spots_at spots.now group.now) }
    ensures { IfOk result (λ left. left ≡
        option_map (spots_at spots.now) (purge_of settings.now spots.now group.now)) }
{
    let copy = Places::of(Vec::from_slice(alloc, group.items())?);
    match purge_places(alloc, spots, copy, settings)? {
        Some(left) => {
            let together = spots_at(alloc, spots, left.items())?;
            Ok(Some(Tracklet::of_rising(together)))
        }
        None => Ok(None),
    }
}

/// The places that are left of a group: while the spots at them lie on no line within the purge
/// tolerance, the place of the worst one is dropped. None where fewer than two are left.
///
/// The group's places, in rising order, are those of spots of one day, whose epochs differ and which
/// meet the spread rule.
pub fn purge_places(
    alloc: Global,
    spots: &[Spot],
    group: Places,
    settings: &Settings,
) -> Result<Option<Places>, NoMemory>
    requires within { All (λ p. p < length spots.now) group }
    requires arc { IsArc (spots_at spots.now group) }
    requires day { AreOfOneDay (spots_at spots.now group) }
    ensures { IfOk result (λ left. left ≡ purge_of settings.now spots.now group) }
{
    let mut together = spots_at(alloc, spots, group.items())?;
    let mut left = group.into_items();
    while left.len() >= 2 {
        if fits_line(
            together.as_slice(),
            settings.purge_tol,
            settings.rate_ra,
            settings.rate_dec,
        ) {
            return Ok(Some(Places::of(left)));
        }
        let dropped = worst(together.as_slice());
        together.remove(dropped);
        left.remove(dropped);
    }
    Ok(None)
}
