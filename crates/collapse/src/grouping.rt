//! Pairs that join groups.

ghost use Rattle.std.specs.Prelude.{◌≡◌, ◌<◌, ◌^◌, length, map, IfOk, OnOk};
ghost use Rattle.sky_units.specs.Pairs.{EpochsDontFall, pairs_of};
ghost use Rattle.line_fit.specs.Slopes.{AreOfOneDay};
ghost use Rattle.collapse.specs.Groups.{join_first, groups_of, IsPairBelow};
ghost use Rattle.collapse.specs.Strips.{AreFiled, AreGroups, IsGrid};

use crate::joining::first_to_join;
use crate::strips::{Entry, Grid, empty_strips, file, grid_of, strip_of};
use crate::uniting::with_pair;
use sky_units::{NoMemory, Places, Settings, Spot};
use std::alloc::Global;

/// The groups of a night, each with its places in `spots` rising.
///
/// `spots` are the spots of one night, of epochs that don't fall; `pairs` are their pairs, as
/// `pair_finder` lists them.
pub fn collapse(
    alloc: Global,
    spots: &[Spot],
    pairs: &[(u32, u32)],
    settings: &Settings,
) -> Result<Vec<Places>, NoMemory>
    requires few { length spots.now < 2 ^ 32 }
    requires order { EpochsDontFall spots.now }
    requires day { AreOfOneDay spots.now }
    requires pairs { pairs.now ≡ pairs_of settings.now spots.now }
    ensures { IfOk result (λ groups. groups.items ≡ groups_of settings.now spots.now) }
{
    let _ = &settings.line_tol;
    let grid = grid_of(spots, pairs.len(), settings);
    let mut strips = empty_strips(alloc, grid)?;
    let mut groups = Vec::new(alloc);
    for at in 0..pairs.len() {
        add_pair(
            alloc,
            &mut groups,
            &mut strips,
            grid,
            spots,
            pairs[at],
            settings,
        )?;
    }
    Ok(groups)
}

/// Puts a pair into the first group that it may join, or makes it a new last group.
fn add_pair(
    alloc: Global,
    groups: &mut Vec<Places>,
    strips: &mut Vec<Vec<Entry>>,
    grid: Grid,
    spots: &[Spot],
    pair: (u32, u32),
    settings: &Settings,
) -> Result<(), NoMemory>
    requires order { EpochsDontFall spots.now }
    requires day { AreOfOneDay spots.now }
    requires pair { IsPairBelow (length spots.now) pair }
    requires grid { IsGrid settings.now spots.now grid.width grid.reach }
    requires groups { AreGroups settings.now spots.now groups.now.items }
    requires filed { AreFiled spots.now grid.width pair.0
        (map (λ list. list.items) strips.now.items) groups.now.items }
    ensures groups { OnOk result (groups.new.items ≡
        join_first settings.now spots.now pair groups.old.items) }
    ensures filed { OnOk result (AreFiled spots.now grid.width pair.0
        (map (λ list. list.items) strips.new.items) groups.new.items) }
{
    let at = first_to_join(
        alloc,
        groups.as_slice(),
        strips.as_slice(),
        grid,
        spots,
        pair,
        settings,
    )?;
    if at < groups.len() {
        let union = with_pair(alloc, groups[at].items(), pair)?;
        groups[at] = Places::of(union);
    } else {
        let strip = strip_of(grid.width, &spots[pair.0 as usize]);
        let place = pair.0;
        file(strips, strip, Entry { place, group: at })?;
        groups.push(Places::of(vec![in alloc; pair.0, pair.1]?))?;
    }
    Ok(())
}
