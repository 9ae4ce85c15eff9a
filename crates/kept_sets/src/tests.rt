//! Changes of one kept set, and the sets that each leaves.
ghost use Rattle.std.specs.Prelude.{ℕ, ◌≡◌, ◌<◌, ◌↔◌, ◌⊎◌, ◌∷◌, [], IsTrue, IfOk, List, length, map};
ghost use Rattle.std.specs.List.{Contains};
ghost use Rattle.closed_sets.specs.Families.{IsSet};
ghost use Rattle.kept_sets.specs.Lists.{HoldsOne};

use crate::numbers::has;
use crate::{KeptSets, SetFamily, changed_are_kept, kept_are_after, kept_are_ready, kept_are_top};
use sky_units::NoMemory;
use std::alloc::Global;

/// A kept set, what went and what came, the grown set if there is one, and the sets that are left.
#[derive(Drop)]
struct Case<'a> {
    set: &'a [u32],
    went: &'a [u32],
    came: &'a [u32],
    grown: &'a [u32],
    left: &'a str,
}

#[test]
fn changes_of_one_set(rt: HostRuntime) -> Result<(), NoMemory> {
    let cases = [
        Case {
            // A window move drops a night.
            set: &[1, 2, 3, 4],
            went: &[4],
            came: &[],
            grown: &[],
            left: "[[1, 2, 3]]",
        },
        Case {
            // A rest of two is not kept.
            set: &[1, 2, 3, 4],
            went: &[3, 4],
            came: &[],
            grown: &[],
            left: "[]",
        },
        Case {
            // A late tracklet joins.
            set: &[1, 2, 4],
            went: &[],
            came: &[3],
            grown: &[1, 2, 3, 4],
            left: "[[1, 2, 3, 4]]",
        },
        Case {
            // One replaces another, and the rest lies in the grown set.
            set: &[1, 2, 3, 4],
            went: &[4],
            came: &[5],
            grown: &[1, 2, 3, 5],
            left: "[[1, 2, 3, 5]]",
        },
        Case {
            // One replaces another, and the rest does not lie in the grown set.
            set: &[1, 2, 3, 4],
            went: &[4],
            came: &[5],
            grown: &[2, 3, 5],
            left: "[[1, 2, 3], [2, 3, 5]]",
        },
    ];
    for case in &cases {
        let left = left_by(rt.alloc(), case)?;
        assert_eq!(rt; left.as_str(), case.left);
    }
    Ok(())
}

/// The text of the sets that a case leaves, in order.
fn left_by(alloc: Global, case: &Case<'_>) -> Result<String, NoMemory> {
    if !are_ready(case.set, case.went, case.came, case.grown) {
        return format!(in alloc; "not ready");
    }
    let mut kept = begun(alloc, case.set)?;
    let grown = listed(alloc, case.grown)?;
    kept.change(alloc, case.went, case.came, grown)?;
    kept.compact(alloc)?;
    text_of(alloc, &kept)
}

/// The text of kept sets, in order.
fn text_of(alloc: Global, kept: &KeptSets) -> Result<String, NoMemory> {
    let mut list = Vec::new(alloc);
    for set in kept.sets() {
        list.push(Vec::from_slice(alloc, set)?)?;
    }
    list.sort()?;
    format!(in alloc; "{list:?}")
}

/// Kept sets with one set alone.
fn begun(alloc: Global, set: &[u32]) -> Result<KeptSets, NoMemory>
    requires rising { IsSet set.now }
    requires some { 0 < length set.now }
    ensures { IfOk result (λ kept. (other : List ℕ) → Contains kept other → other ≡ set.now) }
{
    let mut kept = KeptSets::new(alloc);
    let sets = listed(alloc, set)?;
    kept.change(alloc, &[], set, sets)?;
    Ok(kept)
}

/// The list of one set, or of none where it has no items.
fn listed(alloc: Global, set: &[u32]) -> Result<Vec<Vec<u32>>, NoMemory>
    ensures none { IfOk result (λ sets. set.now ≡ [] → map (λ set. set.items) sets.items ≡ []) }
    ensures one { IfOk result (λ sets. 0 < length set.now →
        map (λ set. set.items) sets.items ≡ set.now ∷ []) }
{
    let mut sets = Vec::new(alloc);
    if !set.is_empty() {
        sets.push(Vec::from_slice(alloc, set)?)?;
    }
    Ok(sets)
}

/// Whether a case is one that can come: its lists rise, no item that came was there, and the grown set
/// has one, and none that went.
fn are_ready(set: &[u32], went: &[u32], came: &[u32], grown: &[u32]) -> bool
    ensures { IsTrue result → IsSet set.now × IsSet went.now × IsSet came.now ×
        (0 < length set.now) × (HoldsOne came.now set.now → ⊥) × ((grown.now ≡ []) ⊎
        (HoldsOne came.now grown.now × (HoldsOne went.now grown.now → ⊥))) }
{
    if !is_rising(set) {
        return false;
    }
    if !is_rising(went) {
        return false;
    }
    if !is_rising(came) {
        return false;
    }
    if set.is_empty() {
        return false;
    }
    if holds_one(came, set) {
        return false;
    }
    if grown.is_empty() {
        return true;
    }
    if holds_one(went, grown) {
        return false;
    }
    holds_one(came, grown)
}

/// Whether a set holds one of some items.
fn holds_one(items: &[u32], set: &[u32]) -> bool
    ensures { IsTrue result ↔ HoldsOne items.now set.now }
{
    for item in set {
        if has(items, *item) {
            return true;
        }
    }
    false
}

/// Whether the items of a list rise.
fn is_rising(list: &[u32]) -> bool
    ensures { IsTrue result → IsSet list.now }
{
    for place in 1..list.len() {
        if list[place - 1] >= list[place] {
            return false;
        }
    }
    true
}

/// The family in which no set fits.
#[derive(Drop)]
struct Nothing;

impl SetFamily for Nothing {
    ghost fits = { λ _ _. ⊥ };
}

#[test]
fn laws_hold() {
    kept_are_top::<Nothing, Nothing>();
    kept_are_after::<Nothing, Nothing>();
    kept_are_ready::<Nothing, Nothing>();
    changed_are_kept::<Nothing, Nothing>();
}
