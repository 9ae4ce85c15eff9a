//! The closed sets that hold one of some numbers.
ghost use Rattle.std.specs.Prelude.{ℕ, List, ◌↔◌, length, map, IfOk};
ghost use Rattle.std.specs.Cmp.Lexicographic.{slice_cmp};
ghost use Rattle.std.specs.List.{Contains};
ghost use Rattle.std.specs.List.Sorted.{IsStrictlySortedBy};
ghost use Rattle.std.specs.Ordering.{nat_cmp};
ghost use Rattle.closed_sets.specs.Around.{AreFittingPairs};
ghost use Rattle.closed_sets.specs.Counting.{IsPaid};
ghost use Rattle.closed_sets.specs.Families.{IsSet};
ghost use Rattle.set_grow.specs.Costs.{HasAllWithOne, IsBounded, IsPaidByBoth, MayBeOfOne};
ghost use Rattle.set_grow.specs.Growing.{AreClosedSetsWithOne, AreGrown, IsSetOf};
ghost use Rattle.set_grow.specs.Nights.{AreInPlace, by_night};
ghost use Rattle.set_grow.specs.SkyData.{FitsWithParts};

use crate::family::Sky;
use crate::others::partners_of;
use crate::partners::{Partner, fitting_pairs};
use crate::seats::seat_of;
use crate::{NumberedNight, Place};
use closed_sets::closed_sets_with;
use sky_units::{NoMemory, Settings, Tally};
use std::alloc::Global;

/// The closed sets of three or more that hold one of the added numbers, each once, in lexicographic
/// order. They are sets of numbers of tracklets that fit, and to which no other tracklet of the
/// nights can be added.
///
/// `nights` are in order of time. `table` leads from each number of their tracklets to its place;
/// its entries of other numbers say nothing. The only error is want of memory.
///
/// The tally rises by at most `B + L * N` (`IsBounded`), also where memory is wanting: B counts each added number
/// with two others where each two of the three may be of one object by their own boxes (`May`), L the numbers of
/// fitting sets that hold an added one, and N the fitting sets of three or more that hold an added one.
pub fn grow_numbered(
    alloc: Global,
    nights: &[NumberedNight<'_>],
    table: &[Place],
    added: &[u32],
    settings: &Settings,
    tally: &mut Tally,
) -> Result<Vec<Vec<u32>>, NoMemory>
    requires place { AreInPlace nights.now table.now }
    ensures sets { IfOk result (λ sets. AreClosedSetsWithOne settings.now (by_night nights.now)
        added.now (map (λ set. set.items) sets.items)) }
    ensures tests { IsBounded (record {
      settings = settings.now;
      nights = nights.now;
      table = table.now;
    }) added.now tally.old.tests tally.new.tests }
{
    let sky = Sky::of(alloc, nights, table, settings)?;
    let items = in_order_once(alloc, added)?;
    let found = closed_sets_of(alloc, &sky, items.as_slice(), tally)?;
    Ok(in_order(found))
}

/// The same of numbers that rise, in some order: those of each number that hold none of the lesser ones.
fn closed_sets_of(
    alloc: Global,
    sky: &Sky<'_>,
    items: &[u32],
    tally: &mut Tally,
) -> Result<Vec<Vec<u32>>, NoMemory>
    requires { IsSet items.now }
    ensures sets { IfOk result (λ found. AreGrown sky.now items.now
        (map (λ set. set.items) found.items)) }
    ensures paid { (numbers : List ℕ) → HasAllWithOne sky.now items.now numbers →
        IsPaidByBoth sky.now items.now (length numbers) tally.old.tests tally.new.tests }
{
    let mut found = Vec::new(alloc);
    for place in 0..items.len() {
        let pairs = pairs_around(alloc, sky, items[place], tally)?;
        let done = &items[..place];
        let mut sets = closed_sets_with(alloc, sky, items[place], done, pairs.as_slice(), tally)?;
        found.append(&mut sets)?;
    }
    Ok(found)
}

/// Numbers in order, each once.
fn in_order_once(alloc: Global, numbers: &[u32]) -> Result<Vec<u32>, NoMemory>
    ensures { IfOk result (λ set. IsSetOf numbers.now set.items) }
{
    let mut copied = Vec::new(alloc);
    copied.extend_from_slice(numbers)?;
    Ok(set_of(copied))
}

/// The same of a list.
fn set_of(mut numbers: Vec<u32>) -> Vec<u32>
    ensures is_set { IsSet result.items }
    ensures exactly { (x : ℕ) → Contains result.items x ↔ Contains numbers.items x }
{
    numbers.sort_unstable();
    numbers.dedup();
    numbers
}

/// The fitting pairs around an item: none where no tracklet has its number.
fn pairs_around(
    alloc: Global,
    sky: &Sky<'_>,
    item: u32,
    tally: &mut Tally,
) -> Result<Vec<(u32, u32)>, NoMemory>
    ensures pairs { IfOk result (λ pairs.
        AreFittingPairs (FitsWithParts sky.now) item pairs.items) }
    ensures paid { IsPaid (MayBeOfOne sky.now item) 1 0 tally.old.tests tally.new.tests }
{
    let Some(seat) = seat_of(sky.nights, sky.table, item) else {
        return Ok(Vec::new(alloc));
    };
    let ends = sky.ends_of(seat.night)[seat.place];
    let item = Partner {
        number: item,
        seat,
        ends,
    };
    let partners = partners_of(alloc, sky, &item)?;
    fitting_pairs(alloc, sky, &item, partners.as_slice(), tally)
}

/// Sets in lexicographic order, each once.
fn in_order(mut sets: Vec<Vec<u32>>) -> Vec<Vec<u32>>
    ensures in_order { IsStrictlySortedBy (slice_cmp nat_cmp)
        (map (λ set. set.items) result.items) }
    ensures exactly { (set : List ℕ) → Contains (map (λ set. set.items) result.items) set ↔
        Contains (map (λ set. set.items) sets.items) set }
{
    sets.sort_unstable();
    sets.dedup();
    sets
}
