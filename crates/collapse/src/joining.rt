//! The search for the first group that a pair may join.

ghost use Rattle.std.specs.Prelude.{◌≡◌, ◌<◌, [], ◌∷◌, length, map, slice_index_or, IfOk};
ghost use Rattle.std.specs.List.{All};
ghost use Rattle.sky_units.specs.Pairs.{EpochsDontFall};
ghost use Rattle.line_fit.specs.Slopes.{AreOfOneDay};
ghost use Rattle.collapse.specs.First.{IsFirstToJoin};
ghost use Rattle.collapse.specs.Groups.{may_join, ArePlaces, IsPairBelow};
ghost use Rattle.collapse.specs.Strips.{AreFiled, AreGroups, IsEntry, IsFirstOf, IsGrid, LieOnLine, PlacesDontFall};

use crate::reaching::{may_reach, passes_by};
use crate::strips::{Entry, Grid, count_before, height};
use crate::uniting::{has_both, with_pair};
use line_fit::fits_line;
use sky_units::{NoMemory, Places, Settings, Spot, spots_at};
use std::alloc::Global;

/// Where the first group stands that a pair may join, or the number of groups.
pub fn first_to_join(
    alloc: Global,
    groups: &[Places],
    strips: &[Vec<Entry>],
    grid: Grid,
    spots: &[Spot],
    pair: (u32, u32),
    settings: &Settings,
) -> Result<usize, NoMemory>
    requires order { EpochsDontFall spots.now }
    requires day { AreOfOneDay spots.now }
    requires pair { IsPairBelow (length spots.now) pair }
    requires grid { IsGrid settings.now spots.now grid.width grid.reach }
    requires groups { AreGroups settings.now spots.now groups.now }
    requires filed { AreFiled spots.now grid.width pair.0
        (map (λ list. list.items) strips.now) groups.now }
    ensures { IfOk result (IsFirstToJoin settings.now spots.now pair groups.now) }
{
    let here = height(&spots[pair.0 as usize]);
    let low = (here.saturating_sub(grid.reach) / grid.width) as usize;
    let high = ((here + grid.reach) / grid.width) as usize;
    let mut first = groups.len();
    for strip in low..strips.len().min(high + 1) {
        first = first_in(
            alloc,
            groups,
            strips[strip].as_slice(),
            spots,
            pair,
            first,
            settings,
        )?;
    }
    Ok(first)
}

/// The least number below a limit of a group in a strip that a pair may join, or the limit.
///
/// The entries are in the order of their places, and so of epochs: behind one that the pair passes by, it
/// passes by all but those of its own first spot, which are the last ones.
fn first_in(
    alloc: Global,
    groups: &[Places],
    entries: &[Entry],
    spots: &[Spot],
    pair: (u32, u32),
    below: usize,
    settings: &Settings,
) -> Result<usize, NoMemory>
    requires order { EpochsDontFall spots.now }
    requires day { AreOfOneDay spots.now }
    requires pair { IsPairBelow (length spots.now) pair }
    requires groups { AreGroups settings.now spots.now groups.now }
    requires entries { All (IsEntry groups.now) entries.now }
    requires in_order { PlacesDontFall entries.now }
    ensures { IfOk result (IsFirstOf settings.now spots.now pair groups.now entries.now below) }
{
    let mut first = below;
    let mut at = 0;
    while at < entries.len() {
        if passes_by(entries[at].place, spots, pair) {
            at = count_before(entries, pair.0);
        } else {
            first = first_of(alloc, groups, entries[at], spots, pair, first, settings)?;
            at += 1;
        }
    }
    Ok(first)
}

/// The number of an entry's group where it is below a limit and a pair may join it, or the limit.
fn first_of(
    alloc: Global,
    groups: &[Places],
    entry: Entry,
    spots: &[Spot],
    pair: (u32, u32),
    below: usize,
    settings: &Settings,
) -> Result<usize, NoMemory>
    requires order { EpochsDontFall spots.now }
    requires day { AreOfOneDay spots.now }
    requires pair { IsPairBelow (length spots.now) pair }
    requires groups { AreGroups settings.now spots.now groups.now }
    requires entry { IsEntry groups.now entry }
    ensures { IfOk result (IsFirstOf settings.now spots.now pair groups.now (entry ∷ []) below) }
{
    if entry.group >= below {
        return Ok(below);
    }
    if !may_reach(entry.place, spots, pair, settings) {
        return Ok(below);
    }
    if !joins(alloc, groups[entry.group].items(), spots, pair, settings)? {
        return Ok(below);
    }
    Ok(entry.group)
}

/// Whether a group and a pair lie on a line.
fn joins(
    alloc: Global,
    group: &[u32],
    spots: &[Spot],
    pair: (u32, u32),
    settings: &Settings,
) -> Result<bool, NoMemory>
    requires order { EpochsDontFall spots.now }
    requires day { AreOfOneDay spots.now }
    requires pair { IsPairBelow (length spots.now) pair }
    requires group { ArePlaces (length spots.now) group.now }
    requires line { LieOnLine settings.now spots.now group.now }
    ensures { IfOk result (λ joins. joins ≡ may_join settings.now spots.now pair group.now) }
{
    if has_both(group, pair) {
        return Ok(true);
    }
    let union = with_pair(alloc, group, pair)?;
    let together = spots_at(alloc, spots, union.as_slice())?;
    Ok(fits_line(
        together.as_slice(),
        settings.line_tol,
        settings.rate_ra,
        settings.rate_dec,
    ))
}
