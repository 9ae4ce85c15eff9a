//! Closed sets of small families, by hand.

ghost use Rattle.std.specs.Prelude.{ℕ, ◌≡◌, ◌<◌, ◌++◌, [], ◌∷◌, ◌↔◌, ◌⊎◌, cond, map, IfOk, IsTrue, OnOk};
ghost use Rattle.std.specs.List.{All, Contains};
ghost use Rattle.sky_units.specs.Tracks.{AreAmong};
ghost use Rattle.closed_sets.specs.Around.{AreFittingPairs, IsFittingPair};
ghost use Rattle.closed_sets.specs.Objects.{IsOfOne, IsSeen, seen_is_hereditary};

use crate::sets::{has, set_of};
use crate::{Family, closed_by_numbers, closed_sets_among, closed_sets_with};
use sky_units::{NoMemory, Tally};
use std::alloc::Global;

#[test]
fn sets_of_one_object(rt: HostRuntime) -> Result<(), NoMemory> {
    let nothing = [[4, 5].as_slice(), [0, 5].as_slice()];
    let text = closed_text(rt.alloc(), nothing.as_slice(), 5, &[])?;
    assert_eq!(rt; text.as_str(), "[] 0");
    let one_pair = [[1, 4, 8].as_slice()];
    let text = closed_text(rt.alloc(), one_pair.as_slice(), 4, &[])?;
    assert_eq!(rt; text.as_str(), "[[1, 4, 8]] 1");
    let clean = [[0, 1, 3, 4, 7, 9].as_slice()];
    let text = closed_text(rt.alloc(), clean.as_slice(), 3, &[])?;
    assert_eq!(rt; text.as_str(), "[[0, 1, 3, 4, 7, 9]] 1");
    let text = closed_text(rt.alloc(), clean.as_slice(), 3, [1].as_slice())?;
    assert_eq!(rt; text.as_str(), "[] 2");
    Ok(())
}

#[test]
fn sets_of_several_objects(rt: HostRuntime) -> Result<(), NoMemory> {
    let stranger = [[0, 1, 2, 3, 4].as_slice(), [2, 3, 6].as_slice()];
    let text = closed_text(rt.alloc(), stranger.as_slice(), 3, &[])?;
    assert_eq!(rt; text.as_str(), "[[0, 1, 2, 3, 4], [2, 3, 6]] 5");
    let text = closed_text(rt.alloc(), stranger.as_slice(), 3, [1, 5].as_slice())?;
    assert_eq!(rt; text.as_str(), "[[2, 3, 6]] 5");
    let shared = [
        [1, 2, 5, 6].as_slice(),
        [2, 3, 5, 7].as_slice(),
        [2, 5].as_slice(),
        [0, 1, 9].as_slice(),
    ];
    let text = closed_text(rt.alloc(), shared.as_slice(), 5, &[])?;
    assert_eq!(rt; text.as_str(), "[[1, 2, 5, 6], [2, 3, 5, 7]] 7");
    let text = closed_text(rt.alloc(), shared.as_slice(), 5, [5].as_slice())?;
    assert_eq!(rt; text.as_str(), "[] 0");
    Ok(())
}

#[test]
fn sets_among_all_numbers(rt: HostRuntime) -> Result<(), NoMemory> {
    let stranger = [[0, 1, 2, 3, 4].as_slice(), [2, 3, 6].as_slice()];
    let text = among_text(rt.alloc(), stranger.as_slice(), 3, &[])?;
    assert_eq!(rt; text.as_str(), "[[0, 1, 2, 3, 4], [2, 3, 6]] 42");
    let text = among_text(rt.alloc(), stranger.as_slice(), 3, [1, 5].as_slice())?;
    assert_eq!(rt; text.as_str(), "[[2, 3, 6]] 30");
    Ok(())
}

/// The closed sets with an item and without done numbers, and the number of tests.
fn closed_text(
    alloc: Global,
    rows: &[&[u32]],
    item: u32,
    done: &[u32],
) -> Result<String, NoMemory> {
    let family = objects_of(alloc, rows)?;
    closed_by_numbers(&family);
    let mut tally = Tally::zero();
    let pairs = pairs_around(alloc, &family, item)?;
    let done = set_of(done.to_vec(alloc)?);
    let sets = closed_sets_with(
        alloc,
        &family,
        item,
        done.as_slice(),
        pairs.as_slice(),
        &mut tally,
    )?;
    format!(in alloc; "{sets:?} {}", tally.tests)
}

/// The same among all numbers below ten.
fn among_text(alloc: Global, rows: &[&[u32]], item: u32, done: &[u32]) -> Result<String, NoMemory> {
    let family = objects_of(alloc, rows)?;
    let mut tally = Tally::zero();
    let partners = numbers_below_ten(alloc)?;
    let done = set_of(done.to_vec(alloc)?);
    let sets = closed_sets_among(
        alloc,
        &family,
        item,
        done.as_slice(),
        partners.as_slice(),
        &mut tally,
    )?;
    format!(in alloc; "{sets:?} {}", tally.tests)
}

/// The numbers below ten.
fn numbers_below_ten(alloc: Global) -> Result<Vec<u32>, NoMemory>
    ensures { IfOk result (λ numbers. (x : ℕ) → x < 10 → Contains numbers.items x) }
{
    let mut numbers = Vec::new(alloc);
    for number in 0..10 {
        numbers.push(number)?;
    }
    Ok(numbers)
}

/// The family of some objects.
fn objects_of(alloc: Global, rows: &[&[u32]]) -> Result<Objects, NoMemory> {
    let mut objects = Vec::new(alloc);
    for row in rows {
        objects.push(row.to_vec(alloc)?)?;
    }
    Ok(Objects { objects })
}

/// Sets of numbers below ten fit where one object has all of them.
#[derive(Drop)]
struct Objects {
    /// The numbers of each object.
    objects: Vec<Vec<u32>>,
}

impl Family for Objects {
    ghost Fits = { λ family set.
        IsSeen (map (λ object. object.items) family.objects.items) set };

    fn fits(&self, set: &[u32], tally: &mut Tally) -> Result<bool, NoMemory> {
        tally.tests = tally.tests.saturating_add(1);
        Ok(is_seen(self.objects.as_slice(), set))
    }

    ghost hereditary = { λ family.
        seen_is_hereditary (map (λ object. object.items) family.objects.items) };
}

/// Whether the numbers of a set are below ten, and all of one object.
fn is_seen(objects: &[Vec<u32>], set: &[u32]) -> bool
    ensures { IsTrue result ↔ (All (λ x. x < 10) set.now ×
        IsOfOne (map (λ object. object.items) objects.now) set.now) }
{
    if !are_small(set) {
        return false;
    }
    is_of_one(objects, set)
}

/// Whether numbers are below ten.
fn are_small(numbers: &[u32]) -> bool
    ensures { IsTrue result ↔ All (λ x. x < 10) numbers.now }
{
    numbers.iter().all(|number| *number < 10)
}

/// Whether some object has all numbers.
fn is_of_one(objects: &[Vec<u32>], numbers: &[u32]) -> bool
    ensures { IsTrue result ↔ IsOfOne (map (λ object. object.items) objects.now) numbers.now }
{
    for object in objects {
        if has_all(object.as_slice(), numbers) {
            return true;
        }
    }
    false
}

/// Whether an object has all numbers.
fn has_all(object: &[u32], numbers: &[u32]) -> bool
    ensures { IsTrue result ↔ AreAmong numbers.now object.now }
{
    for number in numbers {
        if !has(object, *number) {
            return false;
        }
    }
    true
}

/// The fitting pairs around an item, of all numbers below ten.
fn pairs_around(alloc: Global, family: &Objects, item: u32) -> Result<Vec<(u32, u32)>, NoMemory>
    ensures { IfOk result (λ pairs. AreFittingPairs
        (IsSeen (map (λ object. object.items) family.now.objects.items)) item pairs.items) }
{
    let mut pairs = Vec::new(alloc);
    for second in 0..10 {
        push_pairs(alloc, &mut pairs, family, item, second)?;
    }
    Ok(pairs)
}

/// Adds the fitting pairs with a second number.
fn push_pairs(
    alloc: Global,
    pairs: &mut Vec<(u32, u32)>,
    family: &Objects,
    item: u32,
    second: u32,
) -> Result<(), NoMemory>
    ensures { OnOk result ((pair : ℕ × ℕ) → Contains pairs.new.items pair ↔
        (Contains pairs.old.items pair ⊎ ((pair.1 ≡ second) × IsFittingPair
        (IsSeen (map (λ object. object.items) family.now.objects.items)) item pair))) }
{
    for first in 0..second {
        let fits = is_fitting_pair(alloc, family, item, first, second)?;
        push_where(pairs, (first, second), fits)?;
    }
    Ok(())
}

/// Adds a pair where it is wanted.
fn push_where(pairs: &mut Vec<(u32, u32)>, pair: (u32, u32), wanted: bool) -> Result<(), NoMemory>
    ensures { OnOk result (pairs.new.items ≡
        cond wanted (pairs.old.items ++ pair ∷ []) pairs.old.items) }
{
    if wanted {
        pairs.push(pair)?;
    }
    Ok(())
}

/// Whether two numbers are a fitting pair around an item.
fn is_fitting_pair(
    alloc: Global,
    family: &Objects,
    item: u32,
    first: u32,
    second: u32,
) -> Result<bool, NoMemory>
    requires { first < second }
    ensures { IfOk result (λ fits. IsTrue fits ↔ IsFittingPair
        (IsSeen (map (λ object. object.items) family.now.objects.items)) item (first, second)) }
{
    if first == item {
        return Ok(false);
    }
    if second == item {
        return Ok(false);
    }
    let set = set_of(vec![in alloc; item, first, second]?);
    family.fits(set.as_slice(), &mut Tally::zero())
}
